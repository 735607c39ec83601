// Keys of nodes, on the bytes.
ghost use Rattle.std.specs.Prelude.{◌≡◌, ◌+◌, ◌*◌, ◌≤◌, ◌<◌, length, get_or};
ghost use Rattle.image_parts.specs.Ready.{key_in};
ghost use Rattle.record.specs.Keys.{node_key, entry_key, key_before, key_same};
ghost use Rattle.image.specs.Layout.{header_bytes, node_bytes, processor_start};
ghost use Rattle.record.specs.Limits.{max_nodes, max_processors};

use image::layout::NODE_BYTES;
use image::numbers::number_from;
use image::{header, node};
use record::Wanted;
use record::keys::Rank;

// Whether node x's key is before that of node y, which is an entry's.
pub fn before(b: &[u8], base: usize, x: u8, y: u8) -> bool
    requires { (length b.now ≡ base + node_bytes * (get_or b.now 1 0 + 2))
        × (x ≤ get_or b.now 1 0 + 1)
        × (1 ≤ y) × (y ≤ get_or b.now 1 0) × (get_or b.now 1 0 ≤ max_nodes) × (header_bytes ≤ base)
        × (base ≤ processor_start max_processors) }
    ensures { result ≡ key_before (key_in b.now base x) (key_in b.now base y) }
{
    if x == 0 {
        return true;
    }
    let n = b[header::NODE_COUNT];
    if x - 1 == n {
        return false;
    }
    let s = base + NODE_BYTES * (x as usize);
    let t = base + NODE_BYTES * (y as usize);
    let d = number_from(b, s + node::DUE);
    let e = number_from(b, t + node::DUE);
    if d != e {
        return d < e;
    }
    number_from(b, s + node::TICKET) < number_from(b, t + node::TICKET)
}

// The rank of node x's key.
fn rank_of(b: &[u8], x: u8) -> Rank
    requires { header_bytes ≤ length b.now }
    ensures { result ≡ (node_key (get_or b.now 1 0) x 0 0).rank }
{
    let n = b[header::NODE_COUNT];
    if x == 0 {
        Rank::Head
    } else if x - 1 == n {
        Rank::Tail
    } else {
        Rank::Entry
    }
}

// Whether node x's key is before the key that a Remove carries.
pub fn before_key(b: &[u8], base: usize, x: u8, w: Wanted) -> bool
    requires { (length b.now ≡ base + node_bytes * (get_or b.now 1 0 + 2))
        × (x ≤ get_or b.now 1 0 + 1) × (get_or b.now 1 0 ≤ max_nodes) × (header_bytes ≤ base)
        × (base ≤ processor_start max_processors) }
    ensures { result ≡ key_before (key_in b.now base x) (entry_key w.due w.ticket) }
{
    match rank_of(b, x) {
        Rank::Head => true,
        Rank::Tail => false,
        Rank::Entry => {
            let s = base + NODE_BYTES * (x as usize);
            let d = number_from(b, s + node::DUE);
            if d == w.due {
                number_from(b, s + node::TICKET) < w.ticket
            } else {
                d < w.due
            }
        }
    }
}

// Whether it is that key.
pub fn has_key(b: &[u8], base: usize, x: u8, w: Wanted) -> bool
    requires { (length b.now ≡ base + node_bytes * (get_or b.now 1 0 + 2))
        × (x ≤ get_or b.now 1 0 + 1) × (get_or b.now 1 0 ≤ max_nodes) × (header_bytes ≤ base)
        × (base ≤ processor_start max_processors) }
    ensures { result ≡ key_same (key_in b.now base x) (entry_key w.due w.ticket) }
{
    let rank = rank_of(b, x);
    let s = base + NODE_BYTES * (x as usize);
    let d = number_from(b, s + node::DUE);
    let t = number_from(b, s + node::TICKET);
    rank == Rank::Entry && d == w.due && t == w.ticket
}
