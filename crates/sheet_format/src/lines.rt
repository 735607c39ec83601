// A line of a run sheet: a letter, four numbers in seven columns each, a line feed.
ghost use Rattle.std.specs.Prelude.{◌≡◌, [], ◌∷◌, ◌<◌, eqb, get_or, position};
ghost use Rattle.sheet_format.specs.Letters.{letter_rules};
ghost use Rattle.sheet_format.specs.Lines.{no_rule, within_rule, numbers_keep};
ghost use Rattle.sheet_format.specs.Lines.{line_in_form};
ghost use Rattle.sheet_format.specs.Lines.{line_of, read_line, line_numbers, form_report};
ghost use Rattle.sheet_format.specs.Lines.{reported_reading};

use crate::columns::{byte_at, number_at};
use crate::letters::{
    LETTER_D, LETTER_I, LETTER_L, LETTER_Q, LETTER_S, LETTER_X, LINE, LINE_FEED, MAX_FIELD, WIDTH,
};

// The least and the largest number of a field.
#[derive(Clone, Copy)]
pub struct FieldBounds {
    pub low: u32,
    pub high: u32,
}

// A letter with the bounds of the fields that it uses. A field that it does not use holds 0.
#[derive(Clone, Copy)]
pub struct LetterRule {
    pub letter: u8,
    pub fields: [Option<FieldBounds>; 4],
}

#[derive(Clone, Copy)]
pub struct SheetLine {
    pub letter: u8,
    pub first: u32,
    pub second: u32,
    pub third: u32,
    pub fourth: u32,
}

// Where the fields of a line start.
const FIRST: usize = 1;

const SECOND: usize = FIRST + WIDTH;

const THIRD: usize = SECOND + WIDTH;

const FOURTH: usize = THIRD + WIDTH;

// And its line feed.
const END: usize = LINE - 1;

// A field of any number, and the count of steps.
const ANY: Option<FieldBounds> = Some(FieldBounds {
    low: 0,
    high: MAX_FIELD,
});

const STEPS: Option<FieldBounds> = Some(FieldBounds { low: 1, high: 999 });

// The letters of a sheet: `letter_rules` of specs/Letters.antt.
const RULES: [LetterRule; 6] = [
    LetterRule {
        letter: LETTER_Q,
        fields: [ANY, ANY, ANY, None],
    },
    LetterRule {
        letter: LETTER_I,
        fields: [ANY, ANY, ANY, ANY],
    },
    LetterRule {
        letter: LETTER_D,
        fields: [ANY, None, None, None],
    },
    LetterRule {
        letter: LETTER_L,
        fields: [ANY, None, None, None],
    },
    LetterRule {
        letter: LETTER_X,
        fields: [ANY, ANY, ANY, None],
    },
    LetterRule {
        letter: LETTER_S,
        fields: [ANY, STEPS, None, None],
    },
];

// The place of a letter in the table, if it is one of the sheet's.
fn rule_index(letter: u8) -> Option<usize>
    ensures { result ≡ position (λ rule. eqb rule.letter letter) letter_rules }
{
    RULES.iter().position(|rule| rule.letter == letter)
}

// Whether n lies between the bounds of a letter's field k: where the field is not used, whether it
// is 0.
fn within_rule(rule: LetterRule, k: usize, n: u32) -> bool
    requires { k < 4 }
    ensures { result ≡ within_rule rule k n }
{
    match rule.fields[k] {
        Some(bounds) => bounds.low <= n && n <= bounds.high,
        None => n == 0,
    }
}

// Whether four numbers lie between the bounds of a rule's fields. NO_NUMBER never does.
fn keeps_rule(rule: LetterRule, a: u32, b: u32, c: u32, d: u32) -> bool
    ensures { result ≡ numbers_keep rule (a ∷ b ∷ c ∷ d ∷ []) }
{
    within_rule(rule, 0, a)
        && within_rule(rule, 1, b)
        && within_rule(rule, 2, c)
        && within_rule(rule, 3, d)
}

// The same of the rule at this place of the table. Each rule is named by itself, so that the
// compiler puts its bounds into the tests; a rule at any place it would copy for each line.
fn numbers_keep(index: usize, a: u32, b: u32, c: u32, d: u32) -> bool
    requires { index < 6 }
    ensures { result ≡ numbers_keep (get_or letter_rules index no_rule) (a ∷ b ∷ c ∷ d ∷ []) }
{
    match index {
        0 => keeps_rule(RULES[0], a, b, c, d),
        1 => keeps_rule(RULES[1], a, b, c, d),
        2 => keeps_rule(RULES[2], a, b, c, d),
        3 => keeps_rule(RULES[3], a, b, c, d),
        4 => keeps_rule(RULES[4], a, b, c, d),
        _ => keeps_rule(RULES[5], a, b, c, d),
    }
}

// The letter and the numbers of the line that a part starts with, in form or not: a field that is
// out of form gives NO_NUMBER, and each field of a short line 0.
pub fn line_of(part: &[u8]) -> SheetLine
    ensures { result ≡ line_of part.now }
{
    if LINE <= part.len() {
        SheetLine {
            letter: part[0],
            first: number_at(part, FIRST),
            second: number_at(part, SECOND),
            third: number_at(part, THIRD),
            fourth: number_at(part, FOURTH),
        }
    } else {
        SheetLine {
            letter: byte_at(part, 0),
            first: 0,
            second: 0,
            third: 0,
            fourth: 0,
        }
    }
}

// The line that a part starts with, if it is in form.
pub fn read_line(part: &[u8]) -> Option<SheetLine>
    ensures value { result ≡ read_line part.now }
    ensures numbers { reported_reading result
        ≡ form_report (line_in_form part.now) (line_numbers part.now) }
{
    if part.len() < LINE {
        return None;
    }
    let letter = part[0];
    let index = rule_index(letter)?;
    let first = number_at(part, FIRST);
    let second = number_at(part, SECOND);
    let third = number_at(part, THIRD);
    let fourth = number_at(part, FOURTH);
    if !numbers_keep(index, first, second, third, fourth) || part[END] != LINE_FEED {
        return None;
    }
    Some(SheetLine {
        letter,
        first,
        second,
        third,
        fourth,
    })
}
