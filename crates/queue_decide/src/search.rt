// A step of a Search and of a Lock-seek, which an Insert and a removal share; a Remove has the
// Search too (02, W5).
ghost use Rattle.std.specs.Prelude.{◌≡◌};
ghost use Rattle.rules.specs.Decide.{search_step, seek_step};
ghost use Rattle.queue_decide.specs.Going.{searching, seeking};

use record::stages::at;
use record::{Place, Seek, Stage};
use rules::attempts::attempt;
use rules::moves::{moved, saving, waits};
use rules::{Decision, Effect, Searched, Sought, StepView};

// A step of a Search (01, the steps): on along the level as far as the keys are smaller, then one
// level down, and after level 1 out of it.
pub fn search_step(s: StepView, a: Place) -> Searched
    ensures { result ≡ search_step s a }
{
    if s.next_before_key {
        Searched::Ahead(at(s.next, a.level))
    } else if a.level <= 1 {
        Searched::Done(a)
    } else {
        Searched::Down(at(a.node, a.level - 1))
    }
}

// What a step of a Search decides in an operation with this next stage: where the Search leaves its
// level, the place is saved for it.
pub(crate) fn searching(s: StepView, a: Place, f: Searched, next: Stage) -> Decision
    ensures { result ≡ searching s a f next }
{
    match f {
        Searched::Ahead(_) => moved(s, Effect::Keep, next),
        Searched::Down(_) | Searched::Done(_) => saving(s, a, next),
    }
}

// Lock-seek at the place's level.
pub fn seek_step(s: StepView, k: Seek) -> Sought
    ensures { result ≡ seek_step s k }
{
    match k {
        // G1: on as far as the keys are smaller
        Seek::Approach(a) => if s.next_before_key {
            Sought::Goes(Effect::Keep, Seek::Approach(at(s.next, a.level)))
        } else {
            Sought::Goes(Effect::Keep, Seek::Take(a))
        },
        // G2: the place's lock, or wait for its holder
        Seek::Take(a) => match attempt(s.place_lock) {
            None => Sought::Goes(Effect::HoldLevel(a), Seek::Confirm(a)),
            Some(h) => Sought::Waits(Seek::Take(a), h),
        },
        // G3: whether a node with a smaller key has come in between
        Seek::Confirm(a) => if s.next_before_key {
            Sought::Goes(Effect::Keep, Seek::Release(a, s.next))
        } else {
            Sought::Done(a)
        },
        // G4: on to that node, without the lock
        Seek::Release(a, b) => Sought::Goes(Effect::FreeLevel(a), Seek::Take(at(b, a.level))),
    }
}

// What a step of a Lock-seek decides in an operation with this next stage.
pub(crate) fn seeking(s: StepView, f: Sought, next: Stage) -> Decision
    ensures { result ≡ seeking s f next }
{
    match f {
        Sought::Goes(e, _) => moved(s, e, next),
        Sought::Waits(_, h) => waits(s, next, h),
        Sought::Done(_) => moved(s, Effect::Keep, next),
    }
}
