// Steps that wait: the others of the same line wait with them, until the clock is spent.
ghost use Rattle.std.specs.Prelude.{◌≡◌, ◌-◌};
ghost use Rattle.image.specs.Image.{image_of, queue_in, Sound};
ghost use Rattle.sheet_lines.specs.Waiting.{later, waits_left};

use image::header;
use image::numbers::{number_from, put_number};
use record::limits::MAX_NUMBER;

// After a step that waited, with so many left of its line: those that wait as well are passed at
// once, and only the clock changes. How many are left behind them.
pub fn pass_waits(image: &mut [u8], left: u32) -> u32
    requires { Sound image.old }
    ensures value { result ≡ left - waits_left left (queue_in image.old).clock }
    ensures image_after { image.new
        ≡ image_of (later (queue_in image.old)
        (waits_left left (queue_in image.old).clock)) }
{
    let t = number_from(image, header::CLOCK);
    let waits = left.min(MAX_NUMBER - t);
    put_number(image, 0, header::CLOCK, t + waits);
    left - waits
}
