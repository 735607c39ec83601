// The bytes that markers gives, on the bytes of a record that passes check 21.
ghost use Rattle.std.specs.Prelude.{◌≡◌, ◌*◌, ◌≤◌, length};
ghost use Rattle.laws.specs.Front.{at_front};
ghost use Rattle.record_markers.specs.Markers.{pairs_to, used_count};
ghost use Rattle.image.specs.Image.{queue_in, Sound};

use image::layout::{HEADER, NODE_BYTES, PROCESSOR_BYTES};
use image::{header, node};
use record_markers::put_pair;

// The two bytes of each node of 1 to N that is in use, in node order, at the front of the area.
pub fn put_pairs(image: &[u8], area: &mut [u8])
    requires sound { Sound image.now }
    requires image_in_bounds { 2 * used_count (queue_in image.now) ≤ length area.old }
    ensures { area.new
        ≡ at_front
        (pairs_to (queue_in image.now) (queue_in image.now).node_count)
        area.old }
{
    let base = HEADER + PROCESSOR_BYTES * (image[header::PROCESSOR_COUNT] as usize);
    let mut at: usize = 0;
    for i in 0..image[header::NODE_COUNT] as usize {
        let o = base + NODE_BYTES * (i + 1);
        if image[o + node::USE] == node::IN_USE {
            put_pair(area, at, (i as u8) + 1, image[o + node::MARK]);
            at += 2;
        }
    }
}
