// What a call is refused with.
ghost use Rattle.std.specs.Prelude.{◌≡◌};
ghost use Rattle.record.specs.Refusals.{refusal_number};

// Each by the number that hosts and histories tell.
#[derive(Clone, Copy, Debug, PartialEq, Eq)]
pub enum Refusal {
    // of a making: the processors, the entries, the levels are out of range
    Processors = 11,
    Entries = 12,
    Levels = 13,
    // the record does not pass check 21
    Invalid = 21,
    // of any call: the clock is spent, there is no such processor
    ClockSpent = 31,
    NoProcessor = 32,
    // of a begin, the processor is busy; of a step, it is idle
    Busy = 33,
    Idle = 34,
    // of an Insert: a number is too large, the height is out of range, no node is left
    TooLarge = 35,
    Height = 36,
    NoNode = 37,
    // of a Remove: the key is that of no entry
    Key = 38,
    // of an Insert: there is no item
    NoItem = 39,
    // of a sheet: a line is out of form, a line stands where it may not
    Form = 41,
    Misplaced = 42,
    // the lent area is too short
    Room = 43,
}

impl Refusal {
    pub fn number(self) -> u8
        ensures { result ≡ refusal_number self }
    {
        self as u8
    }
}
