// What a begin decides.
ghost use Rattle.std.specs.Prelude.{◌≡◌};
ghost use Rattle.rules.specs.Calls.{insert_begins, walk_begins, delete_begins, relaxed_begins};
ghost use Rattle.rules.specs.Calls.{remove_begins};

use record::stages::at;
use record::{Delete, Insert, Place, Relaxed, Remove, Stage, Wanted};
use rules::{Answer, Decision, Effect, ProcessorChange};

// An Insert takes node x at the time t: its Search starts from the head at level L.
pub fn insert_begins(levels: u8, t: u32, x: u8, due: u32, item: u32, height: u8) -> Decision
    ensures { result ≡ insert_begins levels t x due item height }
{
    Decision {
        effect: Effect::Fill(x, due, item, height),
        own: x,
        ..walk_begins(t, Stage::Insert(Insert::Search(at(0, levels))))
    }
}

// An operation that takes no node begins with the stage g at the time t, and leaves all nodes as
// they are.
fn walk_begins(t: u32, g: Stage) -> Decision
    ensures { result ≡ walk_begins t g }
{
    Decision {
        effect: Effect::Keep,
        stage: g,
        own: 0,
        change: ProcessorChange::Begin,
        answer: Answer::Began(t),
    }
}

// A Delete_Min walks from the head at level 1.
pub fn delete_begins(t: u32) -> Decision
    ensures { result ≡ delete_begins t }
{
    walk_begins(t, Stage::Delete(Delete::ReadNext(Place::HEAD)))
}

// So does a Relaxed one (02, W3), with a stage of its own.
pub fn relaxed_begins(t: u32) -> Decision
    ensures { result ≡ relaxed_begins t }
{
    walk_begins(t, Stage::Relaxed(Relaxed::ReadNext(Place::HEAD)))
}

// A Remove (02, W5) begins its Search as an Insert does, from the head at level L.
pub fn remove_begins(levels: u8, t: u32, w: Wanted) -> Decision
    ensures { result ≡ remove_begins levels t w }
{
    walk_begins(t, Stage::Remove(w, Remove::Search(at(0, levels))))
}
