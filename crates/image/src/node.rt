// Where the parts of a node stand in its bytes (specs/Pieces.antt), and what stands for no mark, for
// a stamp and for its use.
pub const FORWARD: usize = 0;

pub const LEVEL_LOCKS: usize = 8;

pub const NODE_LOCK: usize = 16;

pub const MARK: usize = 17;

pub const STAMP: usize = 18;

pub const STAMP_TIME: usize = 19;

pub const DUE: usize = 23;

pub const TICKET: usize = 27;

pub const ITEM: usize = 31;

pub const HEIGHT: usize = 35;

pub const USE: usize = 36;

pub const USE_TIME: usize = 37;

// No mark, a stamp, a node in use, a retired one.
pub const UNMARKED: u8 = 0;

pub const STAMPED: u8 = 1;

pub const IN_USE: u8 = 1;

pub const RETIRED: u8 = 2;
