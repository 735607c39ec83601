// The numbers of a sheet's lines, kept by the check of their form for the run: four for each line,
// in a list of any length, which may end within a line.
ghost use Rattle.std.specs.Prelude.{◌≡◌};
ghost use Rattle.sheet_format.specs.Kept.{with_line, kept_line};

use crate::columns::byte_at;
use crate::letters::SHEET_FIELDS;
use crate::lines::{SheetLine, line_of};

// Keeps the numbers of line k, from 0, if there is room for them.
pub(crate) fn keep_line(kept: &mut [u32], k: usize, l: SheetLine)
    ensures { kept.new ≡ with_line kept.old k l }
{
    if k < kept.len() / SHEET_FIELDS {
        let at = SHEET_FIELDS * k;
        kept[at] = l.first;
        kept[at + 1] = l.second;
        kept[at + 2] = l.third;
        kept[at + 3] = l.fourth;
    }
}

// Line k, from 0, which a part starts with: its numbers as they were kept, or read again where
// there was no room for them.
pub fn kept_line(part: &[u8], kept: &[u32], k: usize) -> SheetLine
    ensures { result ≡ kept_line part.now kept.now k }
{
    if kept.len() / SHEET_FIELDS <= k {
        return line_of(part);
    }
    let at = SHEET_FIELDS * k;
    SheetLine {
        letter: byte_at(part, 0),
        first: kept[at],
        second: kept[at + 1],
        third: kept[at + 2],
        fourth: kept[at + 3],
    }
}
