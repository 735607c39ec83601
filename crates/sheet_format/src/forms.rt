// The form of a whole sheet: refusals 41 and 42.
ghost use Rattle.std.specs.Prelude.{◌≡◌};
ghost use Rattle.sheet_format.specs.Kept.{kept_to, lines_in_form};
ghost use Rattle.sheet_format.specs.Lines.{line_count, right_for, first_out_of_form};
ghost use Rattle.sheet_format.specs.Lines.{first_misplaced, some_line};

use crate::kept::keep_line;
use crate::letters::{LETTER_Q, LINE};
use crate::lines::read_line;

// How many lines there are, a short last one included.
pub fn line_count(sheet: &[u8]) -> usize
    ensures { result ≡ line_count sheet.now }
{
    sheet.len().div_ceil(LINE)
}

// The first line, from 1, that is not in form. The numbers of the lines before it are kept.
pub fn first_out_of_form(sheet: &[u8], kept: &mut [u32]) -> Option<usize>
    ensures value { result ≡ some_line (first_out_of_form sheet.now) }
    ensures kept_after { kept.new
        ≡ kept_to sheet.now kept.old (lines_in_form sheet.now) }
{
    for k in 0..line_count(sheet) {
        match read_line(&sheet[LINE * k..]) {
            Some(l) => keep_line(kept, k, l),
            None => return Some(k + 1),
        }
    }
    None
}

// Whether a letter may stand in line k: a Q in the first and nowhere else.
fn right_letter(letter: u8, k: usize) -> bool
    ensures { result ≡ right_for letter k }
{
    (letter == LETTER_Q) == (k == 1)
}

// The first line, from 1, that is a Q where none may stand or no Q where one must; 1 of an empty
// sheet.
pub fn first_misplaced(sheet: &[u8]) -> Option<usize>
    ensures { result ≡ some_line (first_misplaced sheet.now) }
{
    let count = line_count(sheet);
    if count == 0 {
        return Some(1);
    }
    for k in 0..count {
        let letter = sheet[LINE * k];
        if !right_letter(letter, k + 1) {
            return Some(k + 1);
        }
    }
    None
}
