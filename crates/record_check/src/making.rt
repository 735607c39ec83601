// Making a queue.
ghost use Rattle.std.specs.Prelude.{◌≡◌, ◌+◌, ◌<◌, None};
ghost use Rattle.std.specs.Result.{result_err};
ghost use Rattle.record.specs.Queues.{fresh_queue};
ghost use Rattle.record_check.specs.Making.{outside as outside_of, made, given};

use record::limits::{MAX_LEVELS, MAX_NODES, MAX_PROCESSORS};
use record::nodes::Node;
use record::queues::{Processor, Queue};
use record::refusals::Refusal;

// What a refused making gives: the refusal, and the smallest queue, of one processor, node and
// level.
#[derive(Clone, Copy)]
pub struct Unmade {
    pub refusal: Refusal,
    pub queue: Queue,
}

// The record of a queue that is just made.
fn fresh(p: u8, n: u8, l: u8) -> Queue
    requires { n < 201 }
    ensures { result ≡ fresh_queue p n l }
{
    Queue {
        processor_count: p,
        node_count: n,
        level_count: l,
        clock: 0,
        nodes: [Node::fresh(n + 1); 202],
        processors: [Processor::FRESH; 16],
    }
}

// A number that is not one of 1 to top.
pub fn outside(x: u32, top: u32) -> bool
    ensures { result ≡ outside_of x top }
{
    x < 1 || top < x
}

// What the sizes are refused with: looked at in this order.
pub fn making_refusal(p: u32, n: u32, l: u32) -> Option<Refusal>
    ensures { result ≡ result_err (made p n l) }
{
    if outside(p, MAX_PROCESSORS as u32) {
        Some(Refusal::Processors)
    } else if outside(n, MAX_NODES as u32) {
        Some(Refusal::Entries)
    } else if outside(l, MAX_LEVELS as u32) {
        Some(Refusal::Levels)
    } else {
        None
    }
}

// A queue for p processors (1 to 16; else refused with 11), n nodes (1 to 200; else 12) and l
// levels (1 to 8; else 13).
pub fn make(p: u32, n: u32, l: u32) -> Result<Queue, Unmade>
    ensures { result ≡ given (made p n l) }
{
    if let Some(refusal) = making_refusal(p, n, l) {
        let queue = fresh(1, 1, 1);
        return Err(Unmade { refusal, queue });
    }
    Ok(fresh(p as u8, n as u8, l as u8))
}
