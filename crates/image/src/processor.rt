// Where the parts of a processor stand in its bytes (specs/Pieces.antt).
pub const BEGIN: usize = 0;

pub const OWN: usize = 4;

pub const TAG: usize = 5;

// Its place: a node and a level.
pub const PLACE: usize = 6;

pub const LEVEL: usize = 7;

// The node that G3 read.
pub const AHEAD: usize = 8;

// The saved nodes, by level.
pub const SAVED: usize = 9;

// A removal's job, and the due minute and the ticket that a Remove carries; each 0 at other stages.
pub const JOB: usize = 17;

pub const WANTED_DUE: usize = 18;

pub const WANTED_TICKET: usize = 22;

// The job's numbers: the entry is handed out, or taken back.
pub const DELIVER: u8 = 0;

pub const TAKE_BACK: u8 = 1;
