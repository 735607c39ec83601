// Making a queue in lent bytes, and how many bytes it takes.
ghost use Rattle.std.specs.Prelude.{◌≡◌};
ghost use Rattle.record_check.specs.Making.{made};
ghost use Rattle.host_calls.specs.Entries.{length_for, make_code, bytes_made};

use image::layout::image_length;
use image_make::make_at;
use record::Refusal;
use record::limits::{MAX_NODES, MAX_PROCESSORS};
use record_check::{making_refusal, outside};

// How many bytes the image of a queue for processors (1 to 16) and entries (1 to 200) has; 0 for
// other sizes.
#[unsafe(no_mangle)]
pub extern "C" fn darthog_image_length(processors: u32, entries: u32) -> usize
    ensures { result ≡ length_for processors entries }
{
    if outside(processors, MAX_PROCESSORS as u32) {
        return 0;
    }
    if outside(entries, MAX_NODES as u32) {
        return 0;
    }
    image_length(processors as u8, entries as u8)
}

// Makes a queue for processors (1 to 16; else 11), entries (1 to 200; else 12) and levels (1 to 8;
// else 13), and writes its image; 21 where the bytes are not as many as it has. What the bytes held
// does not matter. Gives 0 or the refusal's number.
#[unsafe(no_mangle)]
pub extern "C" fn darthog_make(image: &mut [u8], processors: u32, entries: u32, levels: u32) -> u32
    ensures value { result ≡ make_code image.old (made processors entries levels) }
    ensures image_after { image.new ≡ bytes_made image.old (made processors entries levels) }
{
    if let Some(refusal) = making_refusal(processors, entries, levels) {
        return refusal.number() as u32;
    }
    if image.len() != darthog_image_length(processors, entries) {
        return Refusal::Invalid.number() as u32;
    }
    make_at(image, processors as u8, entries as u8, levels as u8);
    0
}
