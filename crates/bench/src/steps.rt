// A step of each processor of a list, in place.
ghost use Rattle.std.specs.Prelude.{◌≡◌, length};
ghost use Rattle.image.specs.Image.{image_of, queue_in, Sound};
ghost use Rattle.bench.specs.Turns.{stepped_to, ready_code, bytes_stepped};

use image::header;
use image::layout::{HEADER, PROCESSOR_BYTES};
use image_check::passes;
use image_step::step_from;
use record::Refusal;

// On the image of a record that passes check 21.
fn run_steps(image: &mut [u8], who: &[u32])
    requires { Sound image.old }
    ensures { image.new
        ≡ image_of
        (stepped_to (queue_in image.old) who.now
        (length who.now)) }
{
    let base = HEADER + PROCESSOR_BYTES * (image[header::PROCESSOR_COUNT] as usize);
    for &p in who {
        step_from(image, base, p);
    }
}

// 21, and nothing is changed, where the bytes are not the image of a record that passes check 21;
// else 0.
#[unsafe(no_mangle)]
pub extern "C" fn bench_steps(image: &mut [u8], who: &[u32]) -> u32
    ensures value { result ≡ ready_code image.old }
    ensures image_after { image.new ≡ bytes_stepped image.old who.now }
{
    if !passes(image) {
        return Refusal::Invalid.number() as u32;
    }
    run_steps(image, who);
    0
}
