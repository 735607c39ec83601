// The stores of a begin.
ghost use Rattle.std.specs.Prelude.{◌≡◌, ◌++◌, ◌+◌, ◌≤◌, ◌<◌, length};
ghost use Rattle.image.specs.Puts.{puts, four};
ghost use Rattle.image_begin.specs.Stores.{levels, unmarked, used, fills, begun};
ghost use Rattle.image.specs.Layout.{max_image_length, node_bytes, processor_bytes};
ghost use Rattle.record.specs.Limits.{max_levels};

use image::numbers::put_number;
use image::{node, processor};

fn put_levels(b: &mut [u8], o: usize, j: usize, l: usize, v: u8)
    requires { (o + (j + 8) ≤ length b.old) × (length b.old ≤ max_image_length)
        × (l ≤ max_levels) }
    ensures { b.new ≡ puts b.old o (levels j l v) }
{
    let at = o + j;
    b[at..at + l].fill(v);
}

fn put_links(b: &mut [u8], o: usize, l: usize, tail: u8)
    requires { (o + node_bytes ≤ length b.old) × (length b.old ≤ max_image_length)
        × (l ≤ max_levels) }
    ensures { b.new ≡ puts b.old o (levels 0 l tail ++ levels 8 l 0) }
{
    put_levels(b, o, node::FORWARD, l, tail);
    put_levels(b, o, node::LEVEL_LOCKS, l, 0);
}

// Held by h, unmarked and unstamped.
fn put_unmarked(b: &mut [u8], o: usize, h: u8)
    requires { (o + node_bytes ≤ length b.old) × (length b.old ≤ max_image_length) }
    ensures { b.new ≡ puts b.old o (unmarked h) }
{
    b[o + node::NODE_LOCK] = h;
    b[o + node::MARK] = node::UNMARKED;
    b[o + node::STAMP] = 0;
    put_number(b, o, node::STAMP_TIME, 0);
}

fn put_entry(b: &mut [u8], o: usize, t: u32, due: u32, item: u32)
    requires { (o + node_bytes ≤ length b.old) × (length b.old ≤ max_image_length) }
    ensures { b.new
        ≡ puts (puts (puts b.old o (four 23 due)) o (four 27 t)) o (four 31 item) }
{
    put_number(b, o, node::DUE, due);
    put_number(b, o, node::TICKET, t);
    put_number(b, o, node::ITEM, item);
}

fn put_used(b: &mut [u8], o: usize, height: u8)
    requires { (o + node_bytes ≤ length b.old) × (length b.old ≤ max_image_length) }
    ensures { b.new ≡ puts b.old o (used height) }
{
    b[o + node::HEIGHT] = height;
    b[o + node::USE] = node::IN_USE;
    put_number(b, o, node::USE_TIME, 0);
}

// The node that starts at o is filled in.
pub(crate) fn fill(
    b: &mut [u8],
    o: usize,
    l: usize,
    tail: u8,
    h: u8,
    t: u32,
    due: u32,
    item: u32,
    height: u8,
)
    requires { (o + node_bytes ≤ length b.old) × (length b.old ≤ max_image_length)
        × (l ≤ max_levels) }
    ensures { b.new ≡ puts b.old o (fills l tail h t due item height) }
{
    put_links(b, o, l, tail);
    put_unmarked(b, o, h);
    put_entry(b, o, t, due, item);
    put_used(b, o, height);
}

// The processor that starts at o begins.
pub(crate) fn begin(b: &mut [u8], o: usize, t: u32, own: u8, tag: u8, level: u8)
    requires { (o + processor_bytes ≤ length b.old) × (length b.old ≤ max_image_length) }
    ensures { b.new ≡ puts b.old o (begun t own tag level) }
{
    put_number(b, o, processor::BEGIN, t);
    b[o + processor::OWN] = own;
    b[o + processor::TAG] = tag;
    b[o + processor::LEVEL] = level;
}
