// The lines of a sheet after its Q line, run in place on the image of one record.
ghost use Rattle.std.specs.Prelude.{◌≡◌, length};
ghost use Rattle.image.specs.Image.{image_of, queue_in, Sound};
ghost use Rattle.sheet_format.specs.Kept.{IsKept};
ghost use Rattle.sheet_format.specs.Sheets.{history as history_of, fitted};
ghost use Rattle.sheet_lines.specs.Area.{area_with, queue_after};

use crate::calls::{call_line, calls_of, left_after};
use crate::printing::{event_for, is_silent};
use crate::waits::pass_waits;
use image::header;
use image::numbers::number_from;
use record::Refusal;
use rules::answers::is_waits;
use sheet_format::SheetRefusal;
use sheet_format::events::append_event;
use sheet_format::forms::line_count;
use sheet_format::kept::kept_line;
use sheet_format::letters::{EVENT, LINE};

// The lines 2 and on of a sheet, run on the image of the queue that its first line made: the length
// of the history, or 43 as soon as it is longer than the area. The history is written, or only
// counted. Where 43 ends a run that writes, the lines that had room stay in the area. The image is
// that of the record after the last call that was made: with 43 the one whose line had no room.
// `kept` has the numbers of the lines, as the check of their form kept them.
pub fn run_lines(
    sheet: &[u8],
    image: &mut [u8],
    area: &mut [u8],
    writing: bool,
    kept: &[u32],
) -> Result<usize, SheetRefusal>
    requires { Sound image.old × IsKept sheet.now kept.now }
    ensures value { result
        ≡ fitted (history_of sheet.now (queue_in image.old))
        (length area.old) }
    ensures area_after { area.new
        ≡ area_with (history_of sheet.now (queue_in image.old))
        area.old writing }
    ensures image_after { image.new
        ≡ image_of (queue_after sheet.now (queue_in image.old)
        (length area.old)) }
{
    let count = line_count(sheet);
    let mut at = 0;
    for k in 1..count {
        let l = kept_line(&sheet[LINE * k..], kept, k);
        // the answers say how many of the line's calls are left
        let mut left = calls_of(l);
        while 0 < left {
            left -= 1;
            let answer = call_line(image, l);
            if is_waits(answer) {
                left = pass_waits(image, left);
                continue;
            }
            left = left_after(answer, left);
            if is_silent(l, answer) {
                continue;
            }
            let time = number_from(image, header::CLOCK);
            let line = event_for(l, time, answer);
            if !append_event(area, at, line, writing) {
                return Err(SheetRefusal {
                    refusal: Refusal::Room,
                    line: 0,
                });
            }
            at += EVENT;
        }
    }
    Ok(at)
}
