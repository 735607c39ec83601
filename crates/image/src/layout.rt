// Where the parts of an image stand: the bytes before the processors, those of a processor and
// those of a node. specs/Layout.antt has them for the definitions.
ghost use Rattle.std.specs.Prelude.{◌≡◌};
ghost use Rattle.image.specs.Layout.{image_length};

use record::limits::{MAX_NODES, MAX_PROCESSORS};

pub const HEADER: usize = 7;

pub const PROCESSOR_BYTES: usize = 26;

pub const NODE_BYTES: usize = 41;

// The image of a queue with the most processors and nodes has so many bytes.
pub const MAX_IMAGE_LENGTH: usize = HEADER
    + PROCESSOR_BYTES * (MAX_PROCESSORS as usize)
    + NODE_BYTES * ((MAX_NODES as usize) + 2);

// How many bytes the image of a queue for p processors and n nodes has.
pub fn image_length(p: u8, n: u8) -> usize
    ensures { result ≡ image_length p n }
{
    HEADER + PROCESSOR_BYTES * (p as usize) + NODE_BYTES * ((n as usize) + 2)
}
