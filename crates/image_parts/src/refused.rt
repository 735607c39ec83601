// What a call on the bytes of a record that passes check 21 is refused with.
ghost use Rattle.std.specs.Prelude.{◌≡◌};
ghost use Rattle.image.specs.Image.{Sound};
ghost use Rattle.image_parts.specs.Given.{idle_in, refusal_in};

use image::layout::{HEADER, PROCESSOR_BYTES};
use image::numbers::number_from;
use image::{header, processor, tag};
use record::Refusal;
use rules::Call;
use rules_refusals::{processor_of, refusal_of};

// Whether a processor is idle; it is not where the queue has none of this number.
fn idle_at(b: &[u8], processor: u32) -> bool
    requires { Sound b.now }
    ensures { result ≡ idle_in b.now processor }
{
    processor < b[header::PROCESSOR_COUNT] as u32
        && b[HEADER + PROCESSOR_BYTES * (processor as usize) + processor::TAG] == tag::IDLE
}

// The refusal of a call before a node is looked for.
pub fn refusal_at(b: &[u8], c: Call) -> Option<Refusal>
    requires { Sound b.now }
    ensures { result ≡ refusal_in b.now c }
{
    let idle = idle_at(b, processor_of(c));
    refusal_of(
        c,
        number_from(b, header::CLOCK),
        b[header::PROCESSOR_COUNT],
        b[header::LEVEL_COUNT],
        idle,
    )
}
