// Numbers without spaces before them, as bytes.
ghost use Rattle.std.specs.Prelude.{◌≡◌, ◌+◌, ◌≤◌, length};
ghost use Rattle.std.proofs.lemmas.List.Edits.{sets};
ghost use Rattle.sheet_format.specs.Columns.{decimal};

use sheet_format::columns::{columns_of, spaces_before};

// The digits of n, written at `at`: where they end.
pub(crate) fn decimal_into(area: &mut [u8], at: usize, n: u32) -> usize
    requires { at + 7 ≤ length area.old }
    ensures value { result ≡ at + length (decimal n) }
    ensures area_after { area.new ≡ sets area.old at (decimal n) }
{
    let columns = columns_of(n);
    let digits = &columns[spaces_before(&columns)..];
    let end = at + digits.len();
    area[at..end].copy_from_slice(digits);
    end
}
