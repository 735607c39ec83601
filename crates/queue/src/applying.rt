// What a decision changes of the record.
ghost use Rattle.std.specs.Prelude.{◌≡◌, ◌≤◌, ◌<◌};
ghost use Rattle.record.specs.Limits.{max_number, max_nodes, max_processors, node_slots};
ghost use Rattle.rules.specs.Effects.{node_of, applied as applied_of};

use queue_parts::effects::{changed, node_of, processor_after};
use record::Queue;
use rules::Decision;

// The record after processor p's decision: one node, the processor and the clock change.
pub fn applied(mut q: Queue, p: u32, d: Decision) -> Queue
    requires clock_lt_max_number { (q.clock < max_number) × (q.node_count ≤ max_nodes) }
    requires p_lt_max_processors { (p < max_processors) × (node_of d.effect < node_slots) }
    ensures { result ≡ applied_of q p d }
{
    let h = (p + 1) as u8;
    let t = q.clock + 1;
    let tail = q.node_count + 1;
    let k = p as usize;
    let w = node_of(d.effect) as usize;
    q.nodes[w] = changed(q.level_count, tail, h, t, d.effect, q.nodes[w]);
    q.processors[k] = processor_after(q.level_count, t, q.processors[k], d);
    q.clock = t;
    q
}
