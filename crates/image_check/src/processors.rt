// The processors' bytes.
ghost use Rattle.std.specs.Prelude.{◌≡◌, ◌≤◌, ◌<◌, length, get_or};
ghost use Rattle.laws.specs.Every.{every_below};
ghost use Rattle.image.specs.Image.{length_of};
ghost use Rattle.image_check.specs.Tests.{processor_ok};
ghost use Rattle.record.specs.Limits.{max_levels, max_nodes, max_processors};

use crate::levels::levels_low;
use crate::tags::{Tag, errand_passes, stage_passes};
use image::layout::{HEADER, PROCESSOR_BYTES};
use image::numbers::number_from;
use image::{header, processor, tag};

// Processor p: its bytes are ones that are written, and it passes check 21.
pub(crate) fn processor_passes(b: &[u8], p: usize) -> bool
    requires { (length b.now ≡ length_of b.now) × (p < get_or b.now 0 0)
        × (get_or b.now 0 0 ≤ max_processors) × (get_or b.now 1 0 ≤ max_nodes)
        × (1 ≤ get_or b.now 2 0) × (get_or b.now 2 0 ≤ max_levels) }
    ensures { result ≡ processor_ok b.now p }
{
    let n = b[header::NODE_COUNT];
    let l = b[header::LEVEL_COUNT];
    let at = HEADER + PROCESSOR_BYTES * p;
    if number_from(b, header::CLOCK) < number_from(b, at + processor::BEGIN) {
        return false;
    }
    if !levels_low(b, at, processor::SAVED, l as usize, n + 1) {
        return false;
    }
    let number = b[at + processor::TAG] as usize;
    if tag::COUNT <= number {
        return false;
    }
    let tag = Tag { number };
    let due = number_from(b, at + processor::WANTED_DUE);
    let ticket = number_from(b, at + processor::WANTED_TICKET);
    if !errand_passes(tag, b[at + processor::JOB], due, ticket) {
        return false;
    }
    stage_passes(
        tag,
        b[at + processor::PLACE],
        b[at + processor::LEVEL],
        b[at + processor::AHEAD],
        b[at + processor::OWN],
        n,
        l,
    )
}

pub(crate) fn processors_pass(b: &[u8]) -> bool
    requires { (length b.now ≡ length_of b.now) × (get_or b.now 0 0 ≤ max_processors)
        × (get_or b.now 1 0 ≤ max_nodes) × (1 ≤ get_or b.now 2 0)
        × (get_or b.now 2 0 ≤ max_levels) }
    ensures { result ≡ every_below (processor_ok b.now) (get_or b.now 0 0) }
{
    let end = b[header::PROCESSOR_COUNT] as usize;
    (0..end).all(|p| processor_passes(b, p))
}
