// The nodes' bytes.
ghost use Rattle.std.specs.Prelude.{◌≡◌, ◌+◌, ◌*◌, ◌≤◌, length, get_or};
ghost use Rattle.laws.specs.Every.{every_below};
ghost use Rattle.image.specs.Image.{length_of};
ghost use Rattle.image_check.specs.Tests.{node_ok, links_test, entry_test};
ghost use Rattle.image.specs.Layout.{max_image_length, node_bytes};
ghost use Rattle.record.specs.Limits.{max_levels, max_nodes, max_processors};

use crate::levels::{is_within, levels_low, stamp_passes, use_passes};
use image::layout::{HEADER, NODE_BYTES, PROCESSOR_BYTES};
use image::numbers::number_from;
use image::{header, node};
use record::limits::MAX_NUMBER;

// The links of the node at o, and its node lock.
fn links_pass(b: &[u8], o: usize, p: u8, n: u8, l: usize) -> bool
    requires { (o + node_bytes ≤ length b.now) × (length b.now ≤ max_image_length)
        × (n ≤ max_nodes) × (l ≤ max_levels) }
    ensures { result ≡ links_test b.now o p n l }
{
    // Both are looked at: two tests that each end it take longer than one of all 16 numbers.
    let levels = levels_low(b, o, node::FORWARD, l, n + 1)
        & levels_low(b, o, node::LEVEL_LOCKS, l, p);
    levels && b[o + node::NODE_LOCK] <= p
}

// The due minute, the item, the ticket and the height of the node at o.
fn entry_passes(b: &[u8], o: usize, l: usize, clock: u32) -> bool
    requires { (o + node_bytes ≤ length b.now) × (length b.now ≤ max_image_length) }
    ensures { result ≡ entry_test b.now o l clock }
{
    number_from(b, o + node::DUE) <= MAX_NUMBER
        && number_from(b, o + node::ITEM) <= MAX_NUMBER
        && number_from(b, o + node::TICKET) <= clock
        && is_within(b[o + node::HEIGHT] as usize, l)
}

// Node x: its bytes are ones that are written, and it passes check 21. Bytes mostly pass: each test
// that fails ends it, which takes less than to keep what the tests gave.
pub(crate) fn node_passes(b: &[u8], x: usize) -> bool
    requires { (length b.now ≡ length_of b.now) × (x ≤ get_or b.now 1 0 + 1)
        × (get_or b.now 0 0 ≤ max_processors) × (get_or b.now 1 0 ≤ max_nodes)
        × (get_or b.now 2 0 ≤ max_levels) }
    ensures { result ≡ node_ok b.now x }
{
    let p = b[header::PROCESSOR_COUNT];
    let n = b[header::NODE_COUNT];
    let l = b[header::LEVEL_COUNT] as usize;
    let clock = number_from(b, header::CLOCK);
    let o = HEADER + PROCESSOR_BYTES * (p as usize) + NODE_BYTES * x;
    links_pass(b, o, p, n, l)
        && entry_passes(b, o, l, clock)
        && b[o + node::MARK] <= p
        && stamp_passes(
            b[o + node::STAMP],
            number_from(b, o + node::STAMP_TIME),
            is_within(x, n as usize),
            clock,
        )
        && use_passes(b[o + node::USE], number_from(b, o + node::USE_TIME), clock)
}

pub(crate) fn nodes_pass(b: &[u8]) -> bool
    requires { (length b.now ≡ length_of b.now) × (get_or b.now 0 0 ≤ max_processors)
        × (get_or b.now 1 0 ≤ max_nodes) × (get_or b.now 2 0 ≤ max_levels) }
    ensures { result ≡ every_below (node_ok b.now) (get_or b.now 1 0 + 2) }
{
    let end = (b[header::NODE_COUNT] as usize) + 2;
    (0..end).all(|x| node_passes(b, x))
}
