// The calls, on any record and with any numbers: check 21 and then the inner form, which a caller
// that keeps the record calls itself, since it pays for no scan. The refusals stand in the order of
// document 01's table, with document 02's 38 and 39: 21; 31, 32; 33 or 34; of an Insert 35, 39, 36,
// 37; of a Remove 38. A refused call gives its refusal and the record as it came.
ghost use Rattle.std.specs.Prelude.{◌≡◌, true};
ghost use Rattle.record_check.specs.Check.{valid as valid_of};
ghost use Rattle.rules.specs.Answers.{refused as refused_of, reported};
ghost use Rattle.rules.specs.Calls.{called_valid, called, begin_insert, begin_delete_min};
ghost use Rattle.rules.specs.Calls.{begin_relaxed, begin_remove, step as step_of};

use crate::applying::applied;
use crate::deciding::decision_of;
use crate::reading::{idle_at, taken};
use record::{Queue, Refusal};
use record_check::valid;
use rules::{Answer, Call, Outcome};
use rules_refusals::{node_refusal, processor_of, refusal_of};

// A refused call gives the record as it came.
fn refused(queue: Queue, refusal: Refusal) -> Outcome
    ensures { result ≡ refused_of queue refusal }
{
    Outcome {
        queue,
        answer: Answer::Refused(refusal.number()),
    }
}

// A call on a record that passes check 21.
pub fn call_valid(q: Queue, c: Call) -> Outcome
    requires { valid_of q ≡ true }
    ensures { (result ≡ called_valid q c) × (valid_of result.queue ≡ true) }
{
    let p = processor_of(c);
    let idle = idle_at(q, p);
    let early = refusal_of(c, q.clock, q.processor_count, q.level_count, idle);
    if let Some(refusal) = early {
        return refused(q, refusal);
    }
    // 0 for no node, as `taken` and `node_refusal` of rules/specs/Calls have it
    let x = taken(q, c).unwrap_or(0);
    let late = node_refusal(c, x);
    if let Some(missing) = late {
        return refused(q, missing);
    }
    let d = decision_of(q, c, x);
    let after = applied(q, p, d);
    Outcome {
        queue: after,
        answer: d.answer,
    }
}

// Any call, on any record.
pub fn call(q: Queue, c: Call) -> Outcome
    ensures { result ≡ called q c }
{
    if valid(q) {
        call_valid(q, c)
    } else {
        refused(q, Refusal::Invalid)
    }
}

// The begin of an Insert by a processor: due minute, item and height are any numbers.
pub fn begin_insert(q: Queue, processor: u32, due: u32, item: u32, height: u32) -> Outcome
    ensures value { result ≡ begin_insert q processor due item height }
    ensures answer_value { reported result.answer ≡ reported (begin_insert q processor due item height).answer }
{
    call(q, Call::Insert(processor, due, item, height))
}

// The begin of a Delete_Min by a processor.
pub fn begin_delete_min(q: Queue, processor: u32) -> Outcome
    ensures value { result ≡ begin_delete_min q processor }
    ensures answer_value { reported result.answer ≡ reported (begin_delete_min q processor).answer }
{
    call(q, Call::DeleteMin(processor))
}

// The begin of a Relaxed Delete_Min by a processor (02, W3).
pub fn begin_relaxed(q: Queue, processor: u32) -> Outcome
    ensures value { result ≡ begin_relaxed q processor }
    ensures answer_value { reported result.answer ≡ reported (begin_relaxed q processor).answer }
{
    call(q, Call::Relaxed(processor))
}

// The begin of a Remove by a processor (02, W5): due minute and ticket are any numbers.
pub fn begin_remove(q: Queue, processor: u32, due: u32, ticket: u32) -> Outcome
    ensures value { result ≡ begin_remove q processor due ticket }
    ensures answer_value { reported result.answer ≡ reported (begin_remove q processor due ticket).answer }
{
    call(q, Call::Remove(processor, due, ticket))
}

// A step of a processor.
pub fn step(q: Queue, processor: u32) -> Outcome
    ensures value { result ≡ step_of q processor }
    ensures answer_value { reported result.answer ≡ reported (step_of q processor).answer }
{
    call(q, Call::Step(processor))
}
