// How many nodes are in use, on the bytes of a record that passes check 21.
ghost use Rattle.std.specs.Prelude.{◌≡◌, ◌≤◌};
ghost use Rattle.record.specs.Limits.{max_nodes};
ghost use Rattle.record_markers.specs.Markers.{used_count};
ghost use Rattle.image.specs.Image.{queue_in, Sound};

use image::layout::{HEADER, NODE_BYTES, PROCESSOR_BYTES};
use image::{header, node};

// How many of the nodes 1 to N are in use.
pub fn used_count(image: &[u8]) -> u8
    requires { Sound image.now }
    ensures { (result ≡ used_count (queue_in image.now)) × (result ≤ max_nodes) }
{
    let base = HEADER + PROCESSOR_BYTES * (image[header::PROCESSOR_COUNT] as usize);
    let mut count: u8 = 0;
    for i in 0..image[header::NODE_COUNT] as usize {
        let o = base + NODE_BYTES * (i + 1);
        if image[o + node::USE] == node::IN_USE {
            count += 1;
        }
    }
    count
}
