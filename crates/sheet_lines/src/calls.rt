// The calls of a line: how many it makes, which they are, and how many are left after one.
ghost use Rattle.std.specs.Prelude.{◌≡◌, cond};
ghost use Rattle.image.specs.Image.{Sound};
ghost use Rattle.image_parts.specs.Given.{Called};
ghost use Rattle.rules.specs.Answers.{is_refused};
ghost use Rattle.sheet_format.specs.Calls.{call_of, calls_of};

use image_begin::{begin_delete_min_at, begin_insert_at, begin_relaxed_at, begin_remove_at};
use image_step::step_at;
use rules::Answer;
use rules::answers::is_refused;
use sheet_format::SheetLine;
use sheet_format::letters::{LETTER_D, LETTER_I, LETTER_L, LETTER_X};

// How many calls a line makes, if none is refused: an S line its steps, any other one.
pub fn calls_of(l: SheetLine) -> u32
    ensures { result ≡ calls_of l }
{
    match l.letter {
        LETTER_I | LETTER_D | LETTER_L | LETTER_X => 1,
        _ => l.second,
    }
}

// The call of a line, in place on the image of a record that passes check 21. No `Call` is made of
// the line: to store one and read it for each step takes as long as a step.
pub fn call_line(image: &mut [u8], l: SheetLine) -> Answer
    requires { Sound image.old }
    ensures { Called image.old (call_of l) image.new result }
{
    match l.letter {
        LETTER_I => begin_insert_at(image, l.first, l.second, l.third, l.fourth),
        LETTER_D => begin_delete_min_at(image, l.first),
        LETTER_L => begin_relaxed_at(image, l.first),
        LETTER_X => begin_remove_at(image, l.first, l.second, l.third),
        _ => step_at(image, l.first),
    }
}

// How many of the calls that are left are made after this answer: a refused call ends its line.
pub fn left_after(a: Answer, left: u32) -> u32
    ensures { result ≡ cond (is_refused a) 0 left }
{
    if is_refused(a) { 0 } else { left }
}
