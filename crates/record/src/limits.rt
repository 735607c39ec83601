// The limits of documents 01 and 02, each in one place of the code;
// specs/Limits.antt has them for the definitions.

// A queue's sizes: at most 16 processors, 200 nodes for entries and 8 levels.
pub const MAX_PROCESSORS: u8 = 16;

pub const MAX_NODES: u8 = 200;

pub const MAX_LEVELS: u8 = 8;

// The clock, a due minute and an item are at most this.
pub const MAX_NUMBER: u32 = 999999;
