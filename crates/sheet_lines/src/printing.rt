// What a call prints: at most one line of the history, by its answer in plain numbers.
ghost use Rattle.std.specs.Prelude.{◌≡◌, []};
ghost use Rattle.record.specs.Report.{report};
ghost use Rattle.rules.specs.Answers.{reported};
ghost use Rattle.sheet_format.specs.Calls.{call_of};
ghost use Rattle.sheet_format.specs.Events.{call_letter, letter_for, event as event_from};
ghost use Rattle.sheet_format.specs.Events.{event_for, is_silent};

use rules::Answer;
use rules::answers::plain;
use sheet_format::letters::{
    LETTER_A, LETTER_D, LETTER_E, LETTER_I, LETTER_L, LETTER_M, LETTER_N, LETTER_R, LETTER_S,
    LETTER_T, LETTER_U, LETTER_X, NO_LETTER,
};
use sheet_format::{HistoryLine, SheetLine};

// The letters by the answer's number. That of a begin, 0, is the line's own.
const LETTERS: [u8; 9] = [
    NO_LETTER, NO_LETTER, NO_LETTER, LETTER_E, LETTER_M, LETTER_A, LETTER_T, LETTER_U, LETTER_N,
];

fn own_letter(l: SheetLine) -> u8
    ensures { result ≡ call_letter (call_of l) }
{
    match l.letter {
        LETTER_I | LETTER_D | LETTER_L | LETTER_X => l.letter,
        _ => LETTER_S,
    }
}

// The letter for the call of a line with an answer of this number: what is not in the table is a
// refusal.
fn letter_for(l: SheetLine, code: u32) -> u8
    ensures { result ≡ letter_for (call_of l) code }
{
    if code == 0 {
        return own_letter(l);
    }
    LETTERS.get(code as usize).copied().unwrap_or(LETTER_R)
}

// Whether the call of a line prints nothing with this answer: moves and waits do so.
pub fn is_silent(l: SheetLine, a: Answer) -> bool
    ensures { result ≡ is_silent (call_of l) a }
{
    letter_for(l, plain(a).code) == NO_LETTER
}

fn event(letter: u8, time: u32, processor: u32, first: u32, second: u32, third: u32) -> HistoryLine
    ensures { result ≡ event_from letter time processor first second third }
{
    HistoryLine {
        letter,
        time,
        processor,
        first,
        second,
        third,
    }
}

// The line of an accepted begin.
fn begun_event(l: SheetLine, time: u32) -> HistoryLine
    ensures { result ≡ event_for (call_of l) time (report 0 []) }
{
    match l.letter {
        LETTER_I => event(LETTER_I, time, l.first, l.second, l.third, l.fourth),
        LETTER_X => event(LETTER_X, time, l.first, l.second, l.third, 0),
        _ => event(own_letter(l), time, l.first, 0, 0, 0),
    }
}

// The line of the history for an answer that is printed, at the clock after the call.
pub fn event_for(l: SheetLine, time: u32, a: Answer) -> HistoryLine
    ensures { result ≡ event_for (call_of l) time (reported a) }
{
    let p = plain(a);
    if p.code == 0 {
        return begun_event(l, time);
    }
    let letter = letter_for(l, p.code);
    if letter == LETTER_R {
        return event(letter, time, l.first, p.code, 0, 0);
    }
    event(letter, time, l.first, p.first, p.second, p.third)
}
