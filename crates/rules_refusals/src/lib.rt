// What a call is refused with: the calls on a record by value and those in place on its bytes ask
// here. `NoNode` is asked apart, since a node is looked for only where nothing else refuses.
#![tactic(auto)]

ghost use Rattle.std.specs.Prelude.{◌≡◌, ◌||◌, ltb};
ghost use Rattle.record.specs.Limits.{max_number};
ghost use Rattle.rules.specs.Calls.{processor_of, turn_refusal, insert_refusal, numbers_refusal};
ghost use Rattle.rules.specs.Calls.{key_refusal, node_refusal, refusal_by};

use record::Refusal;
use record::limits::MAX_NUMBER;
use record_check::outside;
use rules::Call;

pub fn processor_of(c: Call) -> u32
    ensures { result ≡ processor_of c }
{
    match c {
        Call::Insert(p, _, _, _)
        | Call::DeleteMin(p)
        | Call::Relaxed(p)
        | Call::Remove(p, _, _)
        | Call::Step(p) => p,
    }
}

// A begin of a busy processor; a step of an idle one.
fn turn_refusal(c: Call, idle: bool) -> Option<Refusal>
    ensures { result ≡ turn_refusal c idle }
{
    match c {
        Call::Step(_) => idle.then_some(Refusal::Idle),
        _ => (!idle).then_some(Refusal::Busy),
    }
}

// An Insert's numbers.
fn insert_refusal(due: u32, item: u32, height: u32, levels: u8) -> Option<Refusal>
    ensures { result ≡ insert_refusal due item height levels }
{
    if MAX_NUMBER < due || MAX_NUMBER < item {
        Some(Refusal::TooLarge)
    } else if item == 0 {
        Some(Refusal::NoItem)
    } else if outside(height, levels as u32) {
        Some(Refusal::Height)
    } else {
        None
    }
}

// A Remove's.
fn key_refusal(due: u32, ticket: u32) -> Option<Refusal>
    ensures { result ≡ key_refusal due ticket }
{
    (MAX_NUMBER < due || outside(ticket, MAX_NUMBER)).then_some(Refusal::Key)
}

fn numbers_refusal(c: Call, levels: u8) -> Option<Refusal>
    ensures { result ≡ numbers_refusal c levels }
{
    match c {
        Call::Insert(_, due, item, height) => insert_refusal(due, item, height, levels),
        Call::Remove(_, due, ticket) => key_refusal(due, ticket),
        _ => None,
    }
}

// The refusal of a call, by the queue's clock, processors and levels and whether the call's
// processor is idle, which does not matter where there is no such processor.
// The calls on bytes have these numbers and no record to hand over.
pub fn refusal_of(c: Call, clock: u32, processors: u8, levels: u8, idle: bool) -> Option<Refusal>
    ensures { result ≡ refusal_by c clock processors levels idle }
{
    if MAX_NUMBER <= clock {
        Some(Refusal::ClockSpent)
    } else if processors as u32 <= processor_of(c) {
        Some(Refusal::NoProcessor)
    } else {
        turn_refusal(c, idle).or(numbers_refusal(c, levels))
    }
}

// Where an Insert finds no node: x is the one that it would take, or 0, as the definition `chosen`
// has it, which the theorems read.
pub fn node_refusal(c: Call, x: u8) -> Option<Refusal>
    ensures { result ≡ node_refusal c x }
{
    match c {
        Call::Insert(_, _, _, _) if x == 0 => Some(Refusal::NoNode),
        _ => None,
    }
}
