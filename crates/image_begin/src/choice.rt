// The node that an Insert takes, by the nodes' use bytes.
ghost use Rattle.std.specs.Prelude.{◌≡◌, ◌+◌, ◌*◌, ◌≤◌, ◌<◌, length, get_or};
ghost use Rattle.record.specs.Queues.{processor_at};
ghost use Rattle.rules.specs.Choice.{began_after, all_began_after, chosen};
ghost use Rattle.image.specs.Image.{queue_in, Sound, start_of};
ghost use Rattle.image_begin.specs.Stores.{Based, end_of, found};
ghost use Rattle.image.specs.Layout.{processor_bytes, processor_start};
ghost use Rattle.record.specs.Limits.{max_processors};

use image::layout::{HEADER, NODE_BYTES, PROCESSOR_BYTES};
use image::numbers::number_from;
use image::{header, node, processor, tag};
use record::limits::MAX_NUMBER;

// More than the use of every retired node, read as one number.
const LATE: u32 = 256 * (MAX_NUMBER + 1);

// A use in the order of the retirements: a node in use comes last.
fn end_of(used: u32) -> u32
    ensures { result ≡ end_of used }
{
    if used == 1 { LATE } else { used }
}

fn began_after(b: &[u8], p: usize, t: u32) -> bool
    requires { (processor_start p + processor_bytes ≤ length b.now)
        × (p < get_or b.now 0 0) × (get_or b.now 0 0 ≤ max_processors) }
    ensures { result ≡ began_after t (processor_at (queue_in b.now) p).stage
        (processor_at (queue_in b.now) p).begin }
{
    let at = HEADER + PROCESSOR_BYTES * p;
    b[at + processor::TAG] == tag::IDLE || t < number_from(b, at + processor::BEGIN)
}

// No busy processor began at t or before.
fn all_after(b: &[u8], t: u32) -> bool
    requires { (start_of b.now ≤ length b.now) × (get_or b.now 0 0 ≤ max_processors) }
    ensures { result ≡ all_began_after (queue_in b.now) t }
{
    let end = b[header::PROCESSOR_COUNT] as usize;
    (0..end).all(|p| began_after(b, p, t))
}

// One pass: the first node that was never used is taken at once, and of the others the one retired
// first is kept, without a branch, as best is 0 where there is none. A use is read as one number,
// 256 * time + tag: no time needs a fourth byte.
pub fn choose(b: &[u8], base: usize) -> Option<u8>
    requires { Based b.now base × Sound b.now }
    ensures { result ≡ found (chosen (queue_in b.now)) }
{
    let mut best: u8 = 0;
    let mut least: u32 = LATE;
    for i in 0..b[header::NODE_COUNT] {
        let x = i + 1;
        let used = number_from(b, base + NODE_BYTES * (x as usize) + node::USE);
        if used == 0 {
            return Some(x);
        }
        let t = end_of(used);
        if t < least {
            best = x;
            least = t;
        }
    }
    (best != 0 && all_after(b, least / 256)).then_some(best)
}
