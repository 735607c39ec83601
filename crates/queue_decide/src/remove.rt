// A step of a Remove before its mark (02, W5): its Search, the read of the node after its place,
// the test of the stamp and the mark. What it wants is carried from stage to stage.
ghost use Rattle.std.specs.Prelude.{◌≡◌};
ghost use Rattle.rules.specs.Decide.{remove_searched, missing as missing_of, remove_on, remove_stamp};
ghost use Rattle.rules.specs.Decide.{remove_mark, remove_step};

use crate::search::{search_step, searching};
use crate::walk::marking;
use record::stages::at;
use record::{Job, Place, Remove, Stage, Wanted};
use rules::moves::{answers, moved};
use rules::{Answer, Decision, Effect, Searched, StepView};

// After the Search it reads on from the last place.
fn remove_searched(s: StepView, w: Wanted, a: Place, f: Searched) -> Decision
    ensures { result ≡ remove_searched s w a f }
{
    let next = match f {
        Searched::Ahead(b) | Searched::Down(b) => Remove::Search(b),
        Searched::Done(b) => Remove::ReadNext(b),
    };
    searching(s, a, f, Stage::Remove(w, next))
}

// What it wants is not there.
fn missing(w: Wanted) -> Decision
    ensures { result ≡ missing_of w }
{
    answers(Effect::Keep, Answer::NotThere(w))
}

// On along level 1 as long as the key ahead is smaller; on its own key it goes on to the stamp.
fn remove_on(s: StepView, w: Wanted) -> Decision
    ensures { result ≡ remove_on s w }
{
    let b = at(s.next, 1);
    if s.next_before_key {
        moved(s, Effect::Keep, Stage::Remove(w, Remove::ReadNext(b)))
    } else if s.next_has_key {
        moved(s, Effect::Keep, Stage::Remove(w, Remove::TestStamp(b)))
    } else {
        missing(w)
    }
}

// The stamp as at W2, but it walks past nothing.
fn remove_stamp(s: StepView, w: Wanted, a: Place) -> Decision
    ensures { result ≡ remove_stamp s w a }
{
    if s.stamped {
        moved(s, Effect::Keep, Stage::Remove(w, Remove::SetMark(a)))
    } else {
        missing(w)
    }
}

// The mark as at W3, and it walks past nothing here either. What it marks is taken back.
fn remove_mark(s: StepView, w: Wanted, a: Place) -> Decision
    ensures { result ≡ remove_mark s w a }
{
    if s.marked {
        missing(w)
    } else {
        marking(s, Job::TakeBack, a)
    }
}

pub fn remove_step(s: StepView, w: Wanted, g: Remove) -> Decision
    ensures { result ≡ remove_step s w g }
{
    match g {
        Remove::Search(a) => remove_searched(s, w, a, search_step(s, a)),
        Remove::ReadNext(_) => remove_on(s, w),
        Remove::TestStamp(a) => remove_stamp(s, w, a),
        Remove::SetMark(a) => remove_mark(s, w, a),
    }
}
