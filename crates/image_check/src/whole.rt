// The whole test of lent bytes.
ghost use Rattle.std.specs.Prelude.{◌≡◌};
ghost use Rattle.image.specs.Image.{passes_of};
ghost use Rattle.record_check.specs.Check.{sizes_valid};
ghost use Rattle.image_check.specs.Tests.{sizes};

use crate::levels::is_within;
use crate::nodes::nodes_pass;
use crate::processors::processors_pass;
use image::header;
use image::layout::{HEADER, NODE_BYTES, image_length};
use image::numbers::number_from;
use record::limits::{MAX_LEVELS, MAX_NODES, MAX_NUMBER, MAX_PROCESSORS};

// Fewer bytes are no image: these are the sizes, the clock, the head and the tail.
const SHORTEST: usize = HEADER + 2 * NODE_BYTES;

fn sizes_pass(p: u8, n: u8, l: u8, clock: u32) -> bool
    ensures { result ≡ sizes_valid (sizes p n l clock) }
{
    is_within(p as usize, MAX_PROCESSORS as usize)
        && is_within(n as usize, MAX_NODES as usize)
        && is_within(l as usize, MAX_LEVELS as usize)
        && clock <= MAX_NUMBER
}

// The bytes are the image of a record that passes check 21.
pub fn passes(image: &[u8]) -> bool
    ensures { result ≡ passes_of image.now }
{
    let length = image.len();
    if length < SHORTEST {
        return false;
    }
    let p = image[header::PROCESSOR_COUNT];
    let n = image[header::NODE_COUNT];
    let l = image[header::LEVEL_COUNT];
    sizes_pass(p, n, l, number_from(image, header::CLOCK))
        && length == image_length(p, n)
        && processors_pass(image)
        && nodes_pass(image)
}
