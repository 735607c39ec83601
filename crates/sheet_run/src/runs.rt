// The run of a sheet's lines into an area that 43 leaves as it was.
ghost use Rattle.std.specs.Prelude.{◌≡◌, ◌≤◌, None, length};
ghost use Rattle.std.specs.Result.{result_err};
ghost use Rattle.image.specs.Layout.{image_length};
ghost use Rattle.image.specs.Image.{image_of};
ghost use Rattle.record.specs.Queues.{fresh_queue};
ghost use Rattle.sheet_format.specs.Kept.{IsKept};
ghost use Rattle.sheet_format.specs.Sheets.{history as history_of, fitted, made_by, queue_made};
ghost use Rattle.sheet_format.specs.Sheets.{area_written};
ghost use Rattle.sheet_lines.specs.Area.{queue_after};
ghost use Rattle.record.specs.Limits.{max_levels, max_nodes, max_processors};

use image::layout::{MAX_IMAGE_LENGTH, image_length};
use image_make::make_at;
use sheet_format::{SheetLine, SheetRefusal};
use sheet_lines::run_lines;

// Two runs on a queue that is made anew for each, in the bytes lent: the first counts the history,
// the second writes it.
fn run_twice(
    sheet: &[u8],
    image: &mut [u8],
    p: u8,
    n: u8,
    l: u8,
    area: &mut [u8],
    kept: &[u32],
) -> Result<usize, SheetRefusal>
    requires image_len { length image.old ≡ image_length p n }
    requires le_p { (1 ≤ p) × (p ≤ max_processors) × (1 ≤ n) × (n ≤ max_nodes) × (1 ≤ l)
        × (l ≤ max_levels) }
    requires kept { IsKept sheet.now kept.now }
    ensures value { result
        ≡ fitted (history_of sheet.now (fresh_queue p n l))
        (length area.old) }
    ensures area_after { area.new
        ≡ area_written (history_of sheet.now (fresh_queue p n l)) area.old result }
    ensures image_after { image.new
        ≡ image_of (queue_after sheet.now (fresh_queue p n l)
        (length area.old)) }
{
    make_at(image, p, n, l);
    run_lines(sheet, image, area, false, kept)?;
    make_at(image, p, n, l);
    run_lines(sheet, image, area, true, kept)
}

// The lines behind a Q line that is not refused, run with an image of its own.
pub(crate) fn run_made(
    sheet: &[u8],
    l: SheetLine,
    area: &mut [u8],
    kept: &[u32],
) -> Result<usize, SheetRefusal>
    requires l_value { result_err (made_by l) ≡ None }
    requires kept { IsKept sheet.now kept.now }
    ensures value { result
        ≡ fitted (history_of sheet.now (queue_made (made_by l)))
        (length area.old) }
    ensures area_after { area.new
        ≡ area_written (history_of sheet.now (queue_made (made_by l)))
        area.old result }
{
    // fixed memory: no heap
    let mut store = [0; MAX_IMAGE_LENGTH];
    let p = l.first as u8;
    let n = l.second as u8;
    let image = &mut store[..image_length(p, n)];
    run_twice(sheet, image, p, n, l.third as u8, area, kept)
}
