// Markers, which changes no byte of the queue (02, W6).
ghost use Rattle.std.specs.Prelude.{◌≡◌, length};
ghost use Rattle.record_markers.specs.Markers.{reported_markers};
ghost use Rattle.rules.specs.Answers.{plain_report};
ghost use Rattle.host_calls.specs.Entries.{markers_on, area_on};

use crate::replies::reply;
use image_check::passes;
use image_markers::{put_pairs, used_count};
use record::Refusal;
use rules::PlainAnswer;

// The area's front gets two bytes for each node in use, its number and its marker or 255; 0
// and how many nodes, or 21, or 43 where the area is too short. A refusal leaves the area.
#[unsafe(no_mangle)]
pub extern "C" fn darthog_markers(image: &[u8], area: &mut [u8]) -> PlainAnswer
    ensures value { result
        ≡ plain_report
        (reported_markers (markers_on image.now (length area.old))) }
    ensures area_after { area.new ≡ area_on image.now area.old }
{
    if !passes(image) {
        return reply(Err(Refusal::Invalid));
    }
    let count = used_count(image);
    if area.len() < 2 * (count as usize) {
        return reply(Err(Refusal::Room));
    }
    put_pairs(image, area);
    reply(Ok(count as u32))
}
