// Numbers in seven columns: read, and written.
ghost use Rattle.std.specs.Prelude.{◌≡◌, true, false, ◌+◌, ◌≤◌, ◌<◌, ◌≢◌, ℕ};
ghost use Rattle.std.specs.Prelude.{length, get_or, drop, slice_index};
ghost use Rattle.std.proofs.lemmas.List.Edits.{sets};
ghost use Rattle.sheet_format.specs.Columns.{is_space, is_digit, blank_to, value_to, number_of};
ghost use Rattle.sheet_format.specs.Columns.{last_digit, padded_digit, columns, spaces_of};
ghost use Rattle.sheet_format.specs.Digits.{extended_by, NumberSoFar};
ghost use Rattle.sheet_format.specs.Letters.{space};

use crate::letters::{DIGIT_ZERO, NO_NUMBER, SPACE, WIDTH};

// The last of seven columns, from 0, and the one before it.
const LAST: usize = WIDTH - 1;

const BEFORE_LAST: usize = WIDTH - 2;

fn is_digit(c: u8) -> bool
    ensures { result ≡ is_digit c }
{
    c.is_ascii_digit()
}

// The value so far, extended by a digit.
fn extended(value: u32, c: u8) -> u32
    requires { (value ≤ 999999) × (is_digit c ≡ true) }
    ensures { result ≡ extended_by value c }
{
    value * 10 + (c - DIGIT_ZERO) as u32
}

// How many spaces there are before the first byte that is none.
pub fn spaces_before(columns: &[u8]) -> usize
    ensures value { result ≡ spaces_of columns.now }
    ensures within { result ≤ length columns.now }
    ensures before { (k : ℕ) → k < result → slice_index columns.now k ≡ space }
    ensures found { result < length columns.now → slice_index columns.now result ≢ space }
{
    columns
        .iter()
        .position(|&c| c != SPACE)
        .unwrap_or(columns.len())
}

// How many of the first `width` columns at `at` hold spaces before the first that does not.
fn spaces_at(line: &[u8], at: usize, width: usize) -> usize
    requires { (width ≤ 7) × (at + width ≤ length line.now) }
    ensures upper_bound { (result ≤ width) × (blank_to (drop at line.now) result ≡ true) }
    ensures result_value { result < width → is_space (get_or (drop at line.now) result 0) ≡ false }
{
    spaces_before(&line[at..at + width])
}

// The first `width` columns at `at`, of which the first `from` were read as a number above 0: the
// value of all, or NO_NUMBER. Each digit extends the value so far.
fn digits_behind(line: &[u8], at: usize, width: usize, from: usize, start: u32) -> u32
    requires width_bound { (width ≤ 7) × (at + width ≤ length line.now) × (from ≤ width) }
    requires number_so_far { NumberSoFar (drop at line.now) from start }
    ensures { result ≡ value_to (drop at line.now) width }
{
    let mut value = start;
    for k in from..width {
        let c = line[at + k];
        if !is_digit(c) {
            return NO_NUMBER;
        }
        value = extended(value, c);
    }
    value
}

// The value of the first `width` columns at `at`, or NO_NUMBER where they do not keep the form.
fn value_at(line: &[u8], at: usize, width: usize) -> u32
    requires { (width ≤ 7) × (at + width ≤ length line.now) }
    ensures { result ≡ value_to (drop at line.now) width }
{
    let first = spaces_at(line, at, width);
    if width <= first {
        return 0;
    }
    let c = line[at + first];
    if !is_digit(c) {
        return NO_NUMBER;
    }
    let digit = extended(0, c);
    let behind = first + 1;
    if digit == 0 {
        // nothing may stand behind a 0
        return if behind < width { NO_NUMBER } else { 0 };
    }
    digits_behind(line, at, width, behind, digit)
}

// The number in the seven columns at `at`, of which the last but one holds a space: that of the
// last column, or NO_NUMBER.
fn one_digit_at(line: &[u8], at: usize) -> u32
    requires at_in_bounds { at + 7 ≤ length line.now }
    requires line_value { is_space (get_or (drop at line.now) 5 0) ≡ true }
    ensures { result ≡ number_of (drop at line.now) }
{
    if spaces_at(line, at, BEFORE_LAST) < BEFORE_LAST {
        return NO_NUMBER;
    }
    let c = line[at + LAST];
    if !is_digit(c) {
        return NO_NUMBER;
    }
    extended(0, c)
}

// The number in the seven columns at `at`, or NO_NUMBER where they are out of form.
pub(crate) fn number_at(line: &[u8], at: usize) -> u32
    requires { at + 7 ≤ length line.now }
    ensures { result ≡ number_of (drop at line.now) }
{
    // most numbers of a sheet have one digit
    if line[at + BEFORE_LAST] == SPACE {
        return one_digit_at(line, at);
    }
    value_at(line, at, WIDTH)
}

// Byte k; past the end 0, which no column holds.
pub fn byte_at(part: &[u8], k: usize) -> u8
    ensures { result ≡ get_or part.now k 0 }
{
    part.get(k).copied().unwrap_or(0)
}

fn last_digit(n: u32) -> u8
    ensures { result ≡ last_digit n }
{
    DIGIT_ZERO + (n % 10) as u8
}

// The last digit of what is left of a number, or a space if nothing is left.
fn padded_digit(n: u32) -> u8
    ensures { result ≡ padded_digit n }
{
    if n == 0 { SPACE } else { last_digit(n) }
}

// The seven columns of n, written at `at`, from the last to the first.
pub(crate) fn columns_into(area: &mut [u8], at: usize, n: u32)
    requires { at + 7 ≤ length area.old }
    ensures { area.new ≡ sets area.old at (columns n) }
{
    area[at + LAST] = last_digit(n);
    let mut rest = n / 10;
    for k in (0..LAST).rev() {
        area[at + k] = padded_digit(rest);
        rest /= 10;
    }
}

// The seven columns of n.
pub fn columns_of(n: u32) -> [u8; 7]
    ensures { result ≡ columns n }
{
    let mut bytes = [SPACE; 7];
    columns_into(&mut bytes, 0, n);
    bytes
}
