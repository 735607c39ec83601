// The tags of the stages that the code names, as the table has them (record/specs/Stages.antt):
// numbers, since they are bytes of the image.
pub const IDLE: u8 = 0;

// An Insert: its Search, the first stage of its Lock-seek (the other three and I1 have the next
// tags), I2 to I5.
pub const INSERT_SEARCH: u8 = 1;

pub const INSERT_SEEK: u8 = 2;

pub const LINK: u8 = 7;

pub const INSERT_FREE_LEVEL: u8 = 8;

pub const INSERT_FREE_NODE: u8 = 9;

pub const STAMP: u8 = 10;

// A Delete_Min: W1 to W3.
pub const READ_NEXT: u8 = 11;

pub const TEST_STAMP: u8 = 12;

pub const SET_MARK: u8 = 13;

// A removal: its Search, L1, the first stage of its Lock-seek (the other three and L2 have the next
// tags), L3 to L8.
pub const REMOVAL_SEARCH: u8 = 14;

pub const HOLD_NODE: u8 = 15;

pub const REMOVAL_SEEK: u8 = 16;

pub const UNLINK: u8 = 21;

pub const LEAD_BACK: u8 = 22;

pub const FREE_OWN: u8 = 23;

pub const REMOVAL_FREE_LEVEL: u8 = 24;

pub const REMOVAL_FREE_NODE: u8 = 25;

pub const RETIRE: u8 = 26;

// A Relaxed Delete_Min: W1 and W3.
pub const RELAXED_READ_NEXT: u8 = 27;

pub const RELAXED_SET_MARK: u8 = 28;

// A Remove: its Search, the read of the next node, the test of the stamp, the mark.
pub const REMOVE_SEARCH: u8 = 29;

pub const REMOVE_READ_NEXT: u8 = 30;

pub const REMOVE_TEST_STAMP: u8 = 31;

pub const REMOVE_SET_MARK: u8 = 32;

// How many there are.
pub const COUNT: usize = 33;
