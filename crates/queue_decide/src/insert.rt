// A step of an Insert: its Search, then level by level a Lock-seek and I1 to I3, then I4 and I5.
ghost use Rattle.std.specs.Prelude.{◌≡◌, ◌+◌};
ghost use Rattle.rules.specs.Decide.{insert_searched, insert_sought, insert_freed, insert_step};

use crate::search::{search_step, searching, seek_step, seeking};
use record::stages::at;
use record::{Insert, Place, Seek, Stage};
use rules::moves::{answers, moved};
use rules::{Answer, Decision, Deed, Effect, Searched, Sought, StepView};

fn insert_searched(s: StepView, a: Place, f: Searched) -> Decision
    ensures { result ≡ insert_searched s a f }
{
    let next = match f {
        Searched::Ahead(b) | Searched::Down(b) => Insert::Search(b),
        Searched::Done(b) => Insert::Seek(Seek::Approach(b)),
    };
    searching(s, a, f, Stage::Insert(next))
}

fn insert_sought(s: StepView, f: Sought) -> Decision
    ensures { result ≡ insert_sought s f }
{
    let next = match f {
        Sought::Goes(_, k) | Sought::Waits(k, _) => Insert::Seek(k),
        Sought::Done(a) => Insert::Copy(a),
    };
    seeking(s, f, Stage::Insert(next))
}

// I3: the place's lock is free again; on to the next level or, from the height on, to I4.
fn insert_freed(s: StepView, a: Place) -> Decision
    ensures { result ≡ insert_freed s a }
{
    let next = if a.level < s.height {
        Insert::Seek(Seek::Approach(at(s.saved_above, a.level + 1)))
    } else {
        Insert::FreeNode
    };
    moved(s, Effect::FreeLevel(a), Stage::Insert(next))
}

pub fn insert_step(s: StepView, g: Insert) -> Decision
    ensures { result ≡ insert_step s g }
{
    match g {
        Insert::Search(a) => insert_searched(s, a, search_step(s, a)),
        Insert::Seek(k) => insert_sought(s, seek_step(s, k)),
        // I1: the own node leads to what the place leads to
        Insert::Copy(a) => moved(
            s,
            Effect::SetForward(at(s.own, a.level), s.next),
            Stage::Insert(Insert::Link(a)),
        ),
        // I2: the place leads to the own node
        Insert::Link(a) => moved(
            s,
            Effect::SetForward(a, s.own),
            Stage::Insert(Insert::FreeLevel(a)),
        ),
        // I3: free a's lock
        Insert::FreeLevel(a) => insert_freed(s, a),
        // I4: free the node lock
        Insert::FreeNode => moved(s, Effect::FreeNode(s.own), Stage::Insert(Insert::Stamp)),
        // I5: the stamp, and the answer
        Insert::Stamp => answers(
            Effect::Stamp(s.own),
            Answer::Did(Deed::Inserted, s.own_entry),
        ),
    }
}
