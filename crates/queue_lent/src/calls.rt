// The calls on a lent record. The record after the call and the answer are those of the defined
// outcome: a refused call gives the record as it came, so that it stays as it was.
ghost use Rattle.rules.specs.Calls.{begin_insert, begin_delete_min, begin_relaxed, begin_remove};
ghost use Rattle.rules.specs.Calls.{step as step_of};
ghost use Rattle.queue_lent.specs.Lent.{Gave};

use record::Queue;
use rules::{Answer, Outcome};

// Stores the record after a call, and gives the answer.
fn keep(o: Outcome, q: &mut Queue) -> Answer
    ensures { Gave o q.new result }
{
    *q = o.queue;
    o.answer
}

// The begin of an Insert by a processor: due minute, item and height are any numbers.
pub fn begin_insert(q: &mut Queue, processor: u32, due: u32, item: u32, height: u32) -> Answer
    ensures { Gave (begin_insert q.old processor due item height) q.new result }
{
    keep(queue::begin_insert(*q, processor, due, item, height), q)
}

// The begin of a Delete_Min by a processor.
pub fn begin_delete_min(q: &mut Queue, processor: u32) -> Answer
    ensures { Gave (begin_delete_min q.old processor) q.new result }
{
    keep(queue::begin_delete_min(*q, processor), q)
}

// The begin of a Relaxed Delete_Min by a processor (02, W3).
pub fn begin_relaxed(q: &mut Queue, processor: u32) -> Answer
    ensures { Gave (begin_relaxed q.old processor) q.new result }
{
    keep(queue::begin_relaxed(*q, processor), q)
}

// The begin of a Remove by a processor (02, W5): due minute and ticket are any numbers.
pub fn begin_remove(q: &mut Queue, processor: u32, due: u32, ticket: u32) -> Answer
    ensures { Gave (begin_remove q.old processor due ticket) q.new result }
{
    keep(queue::begin_remove(*q, processor, due, ticket), q)
}

// A step of a processor.
pub fn step(q: &mut Queue, processor: u32) -> Answer
    ensures { Gave (step_of q.old processor) q.new result }
{
    keep(queue::step(*q, processor), q)
}
