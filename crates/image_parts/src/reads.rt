// What several stages read: an entry and its stamp, by where the node's bytes start, and the key
// that a Remove carries, by where the processor's do.
ghost use Rattle.std.specs.Prelude.{◌≡◌, ◌+◌, ◌≤◌, length};
ghost use Rattle.record.specs.Nodes.{stamped_before as is_before};
ghost use Rattle.image.specs.Layout.{node_bytes, processor_bytes};
ghost use Rattle.image_parts.specs.Reads.{entry_in, stamp_in, wanted_in};

use image::numbers::number_from;
use image::{node, processor};
use record::Wanted;
use rules::Entry;

// The entry of a node.
pub fn entry_at(b: &[u8], here: usize) -> Entry
    requires { here + node_bytes ≤ length b.now }
    ensures { result ≡ entry_in b.now here }
{
    let due = number_from(b, here + node::DUE);
    let ticket = number_from(b, here + node::TICKET);
    let item = number_from(b, here + node::ITEM);
    Entry { due, item, ticket }
}

// Whether a node was stamped before this time.
pub fn stamped_before(b: &[u8], here: usize, time: u32) -> bool
    requires { here + node_bytes ≤ length b.now }
    ensures { result ≡ is_before (stamp_in b.now here) time }
{
    let stamp = b[here + node::STAMP];
    let stamp_time = number_from(b, here + node::STAMP_TIME);
    stamp == node::STAMPED && stamp_time < time
}

// The key that a Remove carries.
pub fn wanted_at(b: &[u8], start: usize) -> Wanted
    requires { start + processor_bytes ≤ length b.now }
    ensures { result ≡ wanted_in b.now start }
{
    let due = number_from(b, start + processor::WANTED_DUE);
    let ticket = number_from(b, start + processor::WANTED_TICKET);
    Wanted { due, ticket }
}
