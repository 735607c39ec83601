// What a call answers, and the readers of an answer.
ghost use Rattle.std.specs.Prelude.{◌≡◌};
ghost use Rattle.rules.specs.Answers.{plain_from, plain_of, deed_code, is_refused, is_waits};

use record::{Queue, Wanted};

// What an entry holds.
#[derive(Clone, Copy)]
pub struct Entry {
    pub due: u32,
    pub item: u32,
    pub ticket: u32,
}

// What was done with an entry, for the answers that tell of one, each by its number.
#[derive(Clone, Copy)]
pub enum Deed {
    Marked = 4,
    Inserted = 5,
    HandedOut = 6,
    TakenBack = 7,
}

impl Deed {
    fn code(self) -> u32
        ensures { result ≡ deed_code self }
    {
        self as u32
    }
}

// specs/Answers.antt gives document 01's number and values of each case.
#[derive(Clone, Copy)]
pub enum Answer {
    // a number, so that `plain` takes any
    Refused(u8),
    Began(u32),
    Moved,
    // for a lock, and the processor that holds it (02, W1)
    Waits(u8),
    Empty,
    // a Remove's: the key that it was to take back (02, W5)
    NotThere(Wanted),
    Did(Deed, Entry),
}

// The record after a call, and the call's answer.
#[derive(Clone, Copy)]
pub struct Outcome {
    pub queue: Queue,
    pub answer: Answer,
}

// An answer in plain numbers, as hosts have it: its code, and its values or 0.
#[repr(C)]
#[derive(Clone, Copy)]
pub struct PlainAnswer {
    pub code: u32,
    pub first: u32,
    pub second: u32,
    pub third: u32,
}

fn with_values(code: u32, first: u32, second: u32, third: u32) -> PlainAnswer
    ensures { result ≡ plain_from code first second third }
{
    PlainAnswer {
        code,
        first,
        second,
        third,
    }
}

// Each case reads its numbers one by one: a key or an entry handed on whole would be read in wider
// pieces than a step writes, and the processor would wait for them.
// A function and no `From`: docs/ADDING.md and docs/DECISIONS.md name it.
pub fn plain(a: Answer) -> PlainAnswer
    ensures { result ≡ plain_of a }
{
    match a {
        Answer::Refused(number) => with_values(number as u32, 0, 0, 0),
        Answer::Began(t) => with_values(0, t, 0, 0),
        Answer::Moved => with_values(1, 0, 0, 0),
        Answer::Waits(h) => with_values(2, h as u32, 0, 0),
        Answer::Empty => with_values(3, 0, 0, 0),
        Answer::NotThere(w) => with_values(8, w.due, w.ticket, 0),
        Answer::Did(d, e) => with_values(d.code(), e.due, e.item, e.ticket),
    }
}

pub fn is_refused(a: Answer) -> bool
    ensures { result ≡ is_refused a }
{
    matches!(a, Answer::Refused(_))
}

pub fn is_waits(a: Answer) -> bool
    ensures { result ≡ is_waits a }
{
    matches!(a, Answer::Waits(_))
}
