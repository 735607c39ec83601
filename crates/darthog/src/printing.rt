// What the program prints: a sheet's history, or its refusal (01, sheet and history).
ghost use Rattle.std.specs.Prelude.{◌≡◌, ◌≤◌, length};
ghost use Rattle.sheet_format.specs.Program.{refusal_text, text_of, program_prints};
ghost use Rattle.laws.specs.Front.{at_front};

use crate::decimals::decimal_into;
use sheet_format::letters::{LINE_FEED, SPACE};
use sheet_run::run_sheet;

// What of a sheet is taken, and what is lent for its history.
pub(crate) const LENT: usize = 65536;

// A refusal's number and line, written to the front of the area: how many bytes.
fn print_refusal(area: &mut [u8], number: u32, line: u32) -> usize
    requires { 16 ≤ length area.old }
    ensures value { result ≡ length (refusal_text number line) }
    ensures area_after { area.new ≡ at_front (refusal_text number line) area.old }
{
    let middle = decimal_into(area, 0, number);
    area[middle] = SPACE;
    let end = decimal_into(area, middle + 1, line);
    area[end] = LINE_FEED;
    end + 1
}

// What is printed for a sheet that is taken whole.
fn print_sheet(sheet: &[u8], area: &mut [u8]) -> usize
    requires { (length sheet.now ≤ LENT) × (length area.old ≡ LENT) }
    ensures value { result ≡ length (text_of sheet.now) }
    ensures area_after { area.new ≡ at_front (text_of sheet.now) area.old }
{
    match run_sheet(sheet, area) {
        Ok(bytes) => bytes,
        Err(e) => print_refusal(area, e.refusal.number() as u32, e.line as u32),
    }
}

// What the program prints for a sheet, written to the front of the area: how many bytes.
pub fn print_run(sheet: &[u8], area: &mut [u8; LENT]) -> usize
    ensures value { result ≡ length (program_prints sheet.now) }
    ensures area_after { area.new ≡ at_front (program_prints sheet.now) area.old }
{
    print_sheet(&sheet[..LENT.min(sheet.len())], area)
}
