// What a call decides that is not refused.
ghost use Rattle.std.specs.Prelude.{◌≡◌, true, ◌<◌, None};
ghost use Rattle.record_check.specs.Check.{valid as valid_of};
ghost use Rattle.record.specs.Queues.{processor_at};
ghost use Rattle.rules.specs.Calls.{step_decision, taken, decision_of, refusal_of};

use queue_begin::begins::{delete_begins, insert_begins, relaxed_begins, remove_begins};
use queue_decide::step::decide;
use queue_parts::reads::{reading_place, step_view_from};
use record::Queue;
use record::stages::wanting;
use rules::{Call, Decision};

// A step of processor p: three nodes are read, and the stage decides.
fn step_decision(q: Queue, p: u32) -> Decision
    requires { (valid_of q ≡ true) × (p < q.processor_count) }
    ensures { result ≡ step_decision q (processor_at q p) }
{
    let c = q.processors[p as usize];
    let a = reading_place(c.stage);
    let here = q.nodes[a.node as usize];
    let next = here.forward_at(a.level);
    let ahead = q.nodes[next as usize];
    let own = q.nodes[c.own as usize];
    let s = step_view_from(here, own, ahead, next, c, a, q.node_count, q.level_count);
    decide(s, c.stage)
}

// The decision of a call, where an Insert takes node x: 0 for none, as `taken` of rules/specs/Calls.
pub fn decision_of(q: Queue, c: Call, x: u8) -> Decision
    requires { (valid_of q ≡ true) × (refusal_of q c ≡ None) × (x ≡ taken q c) }
    ensures { result ≡ decision_of q c }
{
    let t = q.clock + 1;
    match c {
        Call::Insert(_, due, item, height) => insert_begins(
            q.level_count,
            t,
            x,
            due,
            item,
            height as u8,
        ),
        Call::DeleteMin(_) => delete_begins(t),
        Call::Relaxed(_) => relaxed_begins(t),
        Call::Remove(_, due, ticket) => remove_begins(q.level_count, t, wanting(due, ticket)),
        Call::Step(p) => step_decision(q, p),
    }
}
