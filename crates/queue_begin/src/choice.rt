// The node that an Insert takes.
ghost use Rattle.std.specs.Prelude.{◌≡◌, true, ◌≤◌};
ghost use Rattle.record.specs.Limits.{max_nodes};
ghost use Rattle.record_check.specs.Check.{valid as valid_of};
ghost use Rattle.rules.specs.Choice.{chosen, longest_retired, state_of};
ghost use Rattle.queue_begin.specs.Found.{found, found_retired};

use record::stages::is_idle;
use record::{Queue, Use};

// The node that was retired longest ago, the lowest on a tie, and when it was.
fn longest_retired(q: &Queue) -> Option<(u8, u32)>
    requires { q.now.node_count ≤ max_nodes }
    ensures { result
        ≡ found_retired (state_of q.now) (longest_retired (state_of q.now) q.now.node_count) }
{
    let mut best: Option<(u8, u32)> = None;
    for x in 1..q.node_count + 1 {
        if let Use::Retired(t) = q.nodes[usize::from(x)].state {
            if best.is_none_or(|(_, u)| t < u) {
                best = Some((x, t));
            }
        }
    }
    best
}

// The node that an Insert takes, `chosen` of rules/specs/Choice.antt: the lowest that was never
// used, else the one retired longest ago, if every processor is idle or began after that.
pub fn choose(q: Queue) -> Option<u8>
    requires { valid_of q ≡ true }
    ensures { result ≡ found (chosen q) }
{
    let tail = q.node_count + 1;
    let never = (1..tail).find(|x| matches!(q.nodes[usize::from(*x)].state, Use::Never));
    if never.is_some() {
        return never;
    }
    let (x, retired) = longest_retired(&q)?;
    let free = q.processors[..usize::from(q.processor_count)]
        .iter()
        .all(|c| is_idle(c.stage) || retired < c.begin);
    free.then_some(x)
}
