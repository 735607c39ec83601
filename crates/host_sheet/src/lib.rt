// The run of a sheet for hosts in C and Rust. It is exported, takes any bytes, and has no
// `requires`. include/darthog_sheet.h declares it for C.
#![tactic(auto)]

ghost use Rattle.std.specs.Prelude.{◌≡◌, length};
ghost use Rattle.sheet_format.specs.Sheets.{outcome, reported_run, area_after};
ghost use Rattle.host_sheet.specs.Replies.{sheet_reply};

use sheet_format::SheetRefusal;
use sheet_run::run_sheet;

// A refusal's number and its line, or 0 and the length of the history in bytes, as
// include/darthog_sheet.h has them for C.
#[repr(C)]
#[derive(Clone, Copy)]
pub struct SheetReply {
    pub number: u32,
    pub value: usize,
}

impl From<Result<usize, SheetRefusal>> for SheetReply {
    ghost from_gives = { λ r reply. reply ≡ sheet_reply (reported_run r) };

    fn from(r: Result<usize, SheetRefusal>) -> Self {
        match r {
            Ok(bytes) => SheetReply {
                number: 0,
                value: bytes,
            },
            Err(e) => SheetReply {
                number: e.refusal.number() as u32,
                value: e.line,
            },
        }
    }
}

// Runs a sheet and writes its history to the front of the area; a refused sheet leaves the area as
// it was.
#[unsafe(no_mangle)]
pub extern "C" fn darthog_run_sheet(sheet: &[u8], history: &mut [u8]) -> SheetReply
    ensures value { result ≡ sheet_reply (outcome sheet.now (length history.old)) }
    ensures history_after { history.new ≡ area_after sheet.now history.old }
{
    run_sheet(sheet, history).into()
}
