// Backlog on the bytes of a record that passes check 21.
ghost use Rattle.std.specs.Prelude.{◌≡◌, cond, ◌≤◌, get_or};
ghost use Rattle.laws.specs.HowMany.{how_many};
ghost use Rattle.record_check.specs.Backlog.{pending_at};
ghost use Rattle.image.specs.Image.{queue_in, Sound};
ghost use Rattle.image_check.specs.Pending.{pending_bytes};

use image::layout::{HEADER, NODE_BYTES, PROCESSOR_BYTES};
use image::{header, node};

// 1 for a node that is counted, and 0 for any other.
fn counted(used: u8, stamped: u8, mark: u8) -> u8
    ensures { (result ≡ cond (pending_bytes used stamped mark) 1 0) × (result ≤ 1) }
{
    u8::from(used == node::IN_USE && stamped == node::STAMPED && mark == node::UNMARKED)
}

// How many entries are answered and not marked.
pub fn pending(image: &[u8]) -> u8
    requires { Sound image.now }
    ensures { result ≡ how_many (pending_at (queue_in image.now)) (get_or image.now 1 0) }
{
    let base = HEADER + PROCESSOR_BYTES * (image[header::PROCESSOR_COUNT] as usize);
    let end = (image[header::NODE_COUNT] as usize) + 1;
    let mut count: u8 = 0;
    for i in 1..end {
        let o = base + NODE_BYTES * i;
        count += counted(
            image[o + node::USE],
            image[o + node::STAMP],
            image[o + node::MARK],
        );
    }
    count
}
