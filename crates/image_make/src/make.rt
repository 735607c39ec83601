// A queue made in lent bytes: every byte is written, whatever it held.
ghost use Rattle.std.specs.Prelude.{◌≡◌, ◌+◌, ◌*◌, ◌≤◌, length};
ghost use Rattle.record.specs.Nodes.{fresh_node};
ghost use Rattle.record.specs.Queues.{fresh_queue};
ghost use Rattle.image.specs.Layout.{image_length, header_bytes, max_image_length, node_bytes};
ghost use Rattle.image.specs.Layout.{processor_start};
ghost use Rattle.image.specs.Image.{header_image, image_of, queue_in, Sound};
ghost use Rattle.image.specs.Lists.{stored_at};
ghost use Rattle.image.specs.Pieces.{node_image};
ghost use Rattle.image_make.specs.Fresh.{repeated, fresh_processors, fresh_nodes};
ghost use Rattle.record.specs.Limits.{max_levels, max_nodes, max_processors};

use image::layout::{HEADER, NODE_BYTES, PROCESSOR_BYTES};
use image::{header, node};

// The byte v, n times from o on.
fn repeat(b: &mut [u8], o: usize, n: usize, v: u8)
    requires { (o + n ≤ length b.old) × (length b.old ≤ max_image_length) }
    ensures { b.new ≡ stored_at b.old o (repeated v n) }
{
    b[o..o + n].fill(v);
}

// The sizes, and the clock at 0.
fn put_header(b: &mut [u8], p: u8, n: u8, l: u8)
    requires { (header_bytes ≤ length b.old) × (length b.old ≤ max_image_length) }
    ensures { b.new ≡ stored_at b.old 0 (header_image p n l 0) }
{
    b[header::PROCESSOR_COUNT] = p;
    b[header::NODE_COUNT] = n;
    b[header::LEVEL_COUNT] = l;
    repeat(b, header::CLOCK, 4, 0);
}

// The first n processors, idle.
fn put_processors(b: &mut [u8], n: usize)
    requires { (processor_start n ≤ length b.old) × (length b.old ≤ max_image_length) }
    ensures { b.new ≡ stored_at b.old header_bytes (fresh_processors n) }
{
    for p in 0..n {
        repeat(b, HEADER + PROCESSOR_BYTES * p, PROCESSOR_BYTES, 0);
    }
}

// A node that was never used: it leads to the tail at each level.
fn put_node(b: &mut [u8], o: usize, tail: u8)
    requires { (o + node_bytes ≤ length b.old) × (length b.old ≤ max_image_length) }
    ensures { b.new ≡ stored_at b.old o (node_image (fresh_node tail)) }
{
    repeat(b, o, 8, tail);
    repeat(b, o + 8, 27, 0);
    repeat(b, o + node::HEIGHT, 1, 1);
    repeat(b, o + node::USE, 5, 0);
}

// So many nodes from base on.
fn put_nodes(b: &mut [u8], base: usize, n: usize, tail: u8)
    requires { (base + node_bytes * n ≤ length b.old) × (length b.old ≤ max_image_length) }
    ensures { b.new ≡ stored_at b.old base (fresh_nodes tail n) }
{
    for x in 0..n {
        put_node(b, base + NODE_BYTES * x, tail);
    }
}

// A fresh queue for p processors, n nodes and l levels.
pub fn make_at(image: &mut [u8], p: u8, n: u8, l: u8)
    requires { (length image.old ≡ image_length p n) × (1 ≤ p) × (p ≤ max_processors) × (1 ≤ n)
        × (n ≤ max_nodes)
        × (1 ≤ l) × (l ≤ max_levels) }
    ensures image_after { image.new ≡ image_of (fresh_queue p n l) }
    ensures sound { Sound image.new × (queue_in image.new ≡ fresh_queue p n l) }
{
    put_header(image, p, n, l);
    put_processors(image, p as usize);
    let base = HEADER + PROCESSOR_BYTES * (p as usize);
    put_nodes(image, base, (n as usize) + 2, n + 1);
}
