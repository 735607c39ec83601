// What a run of a sheet gives: the lines of its history, and its outcome.
ghost use Rattle.std.specs.Prelude.{◌≡◌, ◌+◌, ◌≤◌, length};
ghost use Rattle.std.proofs.lemmas.List.Edits.{sets};
ghost use Rattle.sheet_format.specs.Events.{event_bytes, room_at, with_event};

use crate::columns::columns_into;
use crate::letters::{EVENT, LINE_FEED};
use record::Refusal;

// A line of the history.
#[derive(Clone, Copy)]
pub struct HistoryLine {
    pub letter: u8,
    pub time: u32,
    pub processor: u32,
    pub first: u32,
    pub second: u32,
    pub third: u32,
}

// Why a sheet is refused, and for which of its lines, from 1; 0 where it is for none of them.
#[derive(Clone, Copy, Debug, PartialEq, Eq)]
pub struct SheetRefusal {
    pub refusal: Refusal,
    pub line: usize,
}

// A line of the history, written at `at`.
fn event_into(area: &mut [u8], at: usize, e: HistoryLine)
    requires { at + 37 ≤ length area.old }
    ensures { area.new ≡ sets area.old at (event_bytes e) }
{
    area[at] = e.letter;
    columns_into(area, at + 1, e.time);
    columns_into(area, at + 8, e.processor);
    columns_into(area, at + 15, e.first);
    columns_into(area, at + 22, e.second);
    columns_into(area, at + 29, e.third);
    area[at + 36] = LINE_FEED;
}

// A line of the history at `at`, if the area has room for it there, and whether it has; where it is
// only counted nothing is written.
pub fn append_event(area: &mut [u8], at: usize, e: HistoryLine, writing: bool) -> bool
    ensures value { result ≡ room_at area.old at }
    ensures area_after { area.new ≡ with_event area.old at e writing }
{
    let room = EVENT <= area.len().saturating_sub(at);
    if room && writing {
        event_into(area, at, e);
    }
    room
}
