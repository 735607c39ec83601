// The queue record in the forms that document 01 names: keys and their order, nodes, stages and
// processors, and the reads and writes of one node and one processor. No public function has a
// `requires`: a number past the end of an array is read as a blank, and a write there changes
// nothing.
#![tactic(auto)]

pub mod keys;
pub mod levels;
pub mod limits;
pub mod nodes;
pub mod queues;
pub mod refusals;
pub mod stages;

pub use keys::{Key, Rank};
pub use nodes::{Node, Use};
pub use queues::{Processor, Queue};
pub use refusals::Refusal;
pub use stages::{
    Carried, Delete, Insert, Job, Place, Relaxed, Removal, Remove, Seek, Stage, Wanted,
};
