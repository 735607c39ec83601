// A step of what follows a mark: the Search, L1, on each level from the height down a Lock-seek and
// L2 to L6, then L7 and L8. Each stage hands the removal's job on, and L8 alone asks it.
ghost use Rattle.std.specs.Prelude.{◌≡◌};
ghost use Rattle.rules.specs.Decide.{removing as removing_of, removal_searched};
ghost use Rattle.rules.specs.Decide.{hold_node, removal_sought, hold_own, removal_freed};
ghost use Rattle.rules.specs.Decide.{handing as handing_of, removal_step};

use crate::search::{search_step, searching, seek_step, seeking};
use record::stages::at;
use record::{Job, Place, Removal, Seek, Stage};
use rules::attempts::attempt;
use rules::moves::{answers, moved, waits};
use rules::{Answer, Decision, Deed, Effect, Entry, Searched, Sought, StepView};

pub fn removing(job: Job, r: Removal) -> Stage
    ensures { result ≡ removing_of job r }
{
    Stage::Removal(job, r)
}

fn removal_searched(s: StepView, job: Job, a: Place, f: Searched) -> Decision
    ensures { result ≡ removal_searched job s a f }
{
    let next = match f {
        Searched::Ahead(b) | Searched::Down(b) => Removal::Search(b),
        Searched::Done(_) => Removal::HoldNode,
    };
    searching(s, a, f, removing(job, next))
}

// L1: the node lock of the marked node, or wait for its holder.
fn hold_node(s: StepView, job: Job) -> Decision
    ensures { result ≡ hold_node job s }
{
    match attempt(s.own_node_lock) {
        None => {
            let b = at(s.saved_at_height, s.height);
            moved(
                s,
                Effect::HoldNode(s.own),
                removing(job, Removal::Seek(Seek::Approach(b))),
            )
        }
        Some(h) => waits(s, removing(job, Removal::HoldNode), h),
    }
}

fn removal_sought(s: StepView, job: Job, f: Sought) -> Decision
    ensures { result ≡ removal_sought job s f }
{
    let next = match f {
        Sought::Goes(_, k) | Sought::Waits(k, _) => Removal::Seek(k),
        Sought::Done(a) => Removal::HoldOwn(a),
    };
    seeking(s, f, removing(job, next))
}

// L2: the own lock at the level, or wait for its holder.
fn hold_own(s: StepView, job: Job, a: Place) -> Decision
    ensures { result ≡ hold_own job s a }
{
    match attempt(s.own_lock) {
        None => moved(
            s,
            Effect::HoldLevel(at(s.own, a.level)),
            removing(job, Removal::Unlink(a)),
        ),
        Some(h) => waits(s, removing(job, Removal::HoldOwn(a)), h),
    }
}

// L6: the place's lock is free; on to the level below or, after level 1, to L7.
fn removal_freed(s: StepView, job: Job, a: Place) -> Decision
    ensures { result ≡ removal_freed job s a }
{
    let next = if a.level <= 1 {
        Removal::FreeNode
    } else {
        Removal::Seek(Seek::Approach(at(s.saved_below, a.level - 1)))
    };
    moved(s, Effect::FreeLevel(a), removing(job, next))
}

// What L8 answers, by the job.
fn handing(job: Job, e: Entry) -> Answer
    ensures { result ≡ handing_of job e }
{
    let deed = match job {
        Job::Deliver => Deed::HandedOut,
        Job::TakeBack => Deed::TakenBack,
    };
    Answer::Did(deed, e)
}

pub fn removal_step(s: StepView, job: Job, g: Removal) -> Decision
    ensures { result ≡ removal_step job s g }
{
    match g {
        Removal::Search(a) => removal_searched(s, job, a, search_step(s, a)),
        Removal::HoldNode => hold_node(s, job),
        Removal::Seek(k) => removal_sought(s, job, seek_step(s, k)),
        Removal::HoldOwn(a) => hold_own(s, job, a),
        // L3: the place leads past the own node
        Removal::Unlink(a) => moved(
            s,
            Effect::SetForward(a, s.own_next),
            removing(job, Removal::LeadBack(a)),
        ),
        // L4: the own node leads back to the place
        Removal::LeadBack(a) => moved(
            s,
            Effect::SetForward(at(s.own, a.level), a.node),
            removing(job, Removal::FreeOwn(a)),
        ),
        // L5: free the own lock
        Removal::FreeOwn(a) => moved(
            s,
            Effect::FreeLevel(at(s.own, a.level)),
            removing(job, Removal::FreeLevel(a)),
        ),
        Removal::FreeLevel(a) => removal_freed(s, job, a),
        // L7: free the node lock
        Removal::FreeNode => moved(s, Effect::FreeNode(s.own), removing(job, Removal::Retire)),
        // L8: the node is retired, and the job tells the answer
        Removal::Retire => answers(Effect::Retire(s.own), handing(job, s.own_entry)),
    }
}
