// Backlog.
ghost use Rattle.std.specs.Prelude.{◌≡◌, cond, ◌+◌, ◌≤◌, ◌<◌};
ghost use Rattle.record_check.specs.Backlog.{is_pending, backlog_of, reported_count};

use crate::check::valid;
use record::nodes::Use;
use record::queues::Queue;
use record::refusals::Refusal;

// 1 for a node that Backlog counts, by its use and stamp, and by whether it has a mark; 0 for any
// other.
fn counted(state: Use, stamp: Option<u32>, marked: bool) -> u8
    ensures { (result ≡ cond (is_pending state stamp marked) 1 0) × (result ≤ 1) }
{
    match (state, stamp) {
        (Use::InUse, Some(_)) if !marked => 1,
        _ => 0,
    }
}

// How many entries are answered and not marked: of the nodes 1 to N those in use, stamped and
// unmarked. 21 for a record that does not pass check 21.
pub fn backlog(q: Queue) -> Result<u8, Refusal>
    ensures value { result ≡ backlog_of q }
    ensures numbers { reported_count result ≡ reported_count (backlog_of q) }
{
    if !valid(q) {
        return Err(Refusal::Invalid);
    }
    let mut count: u8 = 0;
    for i in 1..q.node_count as usize + 1 {
        let n = q.nodes[i];
        count += counted(n.state, n.stamp, 0 < n.mark);
    }
    Ok(count)
}
