// The bytes and lengths of sheets and histories; specs/Letters.antt has them for the definitions.
pub const NO_LETTER: u8 = 0;

pub const LINE_FEED: u8 = b'\n';

pub const SPACE: u8 = b' ';

pub const DIGIT_ZERO: u8 = b'0';

pub const LETTER_A: u8 = b'A';

pub const LETTER_D: u8 = b'D';

pub const LETTER_E: u8 = b'E';

pub const LETTER_I: u8 = b'I';

pub const LETTER_L: u8 = b'L';

pub const LETTER_M: u8 = b'M';

pub const LETTER_N: u8 = b'N';

pub const LETTER_Q: u8 = b'Q';

pub const LETTER_R: u8 = b'R';

pub const LETTER_S: u8 = b'S';

pub const LETTER_T: u8 = b'T';

pub const LETTER_U: u8 = b'U';

pub const LETTER_X: u8 = b'X';

// A number has so many columns, and is at most this.
pub const WIDTH: usize = 7;

pub const MAX_FIELD: u32 = 9_999_999;

// What stands for a field that is out of form: `line_of` gives a number for each field, in form or
// not.
pub const NO_NUMBER: u32 = MAX_FIELD + 1;

// How many fields a line of a sheet has, and a line of a history; and their bytes, with the letter
// and the line feed.
pub const SHEET_FIELDS: usize = 4;

pub const HISTORY_FIELDS: usize = 5;

pub const LINE: usize = 2 + WIDTH * SHEET_FIELDS;

pub const EVENT: usize = 2 + WIDTH * HISTORY_FIELDS;
