// The run of a sheet.
#![tactic(auto)]

mod runs;

ghost use Rattle.std.specs.Prelude.{◌≡◌, ◌≤◌, length};
ghost use Rattle.sheet_format.specs.Sheets.{outcome, ran_sheet, reported_run, area_after};
ghost use Rattle.sheet_run.specs.Agreement.{SheetAgrees};

use crate::runs::run_made;
use record::Refusal;
use record_check::making::making_refusal;
use sheet_format::SheetRefusal;
use sheet_format::forms::{first_misplaced, first_out_of_form};
use sheet_format::letters::{LINE, SHEET_FIELDS};
use sheet_format::lines::line_of;

// The numbers of so many lines are kept for the run: those that 64 KiB have whole. The lines behind
// them are read again. A short sheet has a short list, which is filled more quickly.
const LINES: usize = 2184;

const FEW_LINES: usize = 64;

const SHORT: usize = FEW_LINES * LINE;

// A list for four numbers of each line.
const KEPT: usize = LINES * SHEET_FIELDS;

const FEW_KEPT: usize = FEW_LINES * SHEET_FIELDS;

// What `run_sheet` does, with a list of N numbers of lines that are kept.
fn run_keeping<const N: usize>(sheet: &[u8], history: &mut [u8]) -> Result<usize, SheetRefusal>
    requires { N ≤ KEPT }
    ensures value { result ≡ ran_sheet sheet.now (length history.old) }
    ensures history_after { history.new ≡ area_after sheet.now history.old }
    ensures sheet_agrees { SheetAgrees sheet.now }
{
    let mut kept = [0; N];
    if let Some(line) = first_out_of_form(sheet, &mut kept) {
        return Err(SheetRefusal {
            refusal: Refusal::Form,
            line,
        });
    }
    if let Some(line) = first_misplaced(sheet) {
        return Err(SheetRefusal {
            refusal: Refusal::Misplaced,
            line,
        });
    }
    let l = line_of(sheet);
    if let Some(refusal) = making_refusal(l.first, l.second, l.third) {
        return Err(SheetRefusal { refusal, line: 1 });
    }
    run_made(sheet, l, history, &kept)
}

// Runs a sheet and writes its history: its length in bytes, or the refusal with its line (41, 42,
// 11 to 13, 43), which leaves the area as it was.
pub fn run_sheet(sheet: &[u8], history: &mut [u8]) -> Result<usize, SheetRefusal>
    ensures value { result ≡ ran_sheet sheet.now (length history.old) }
    ensures numbers { reported_run result ≡ outcome sheet.now (length history.old) }
    ensures history_after { history.new ≡ area_after sheet.now history.old }
    ensures sheet_agrees { SheetAgrees sheet.now }
{
    if sheet.len() <= SHORT {
        run_keeping::<FEW_KEPT>(sheet, history)
    } else {
        run_keeping::<KEPT>(sheet, history)
    }
}
