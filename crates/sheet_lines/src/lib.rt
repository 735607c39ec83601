// The lines of a sheet after its Q line, run in place on the image of one record.
#![tactic(auto)]

pub mod calls;
pub mod lines;
pub mod printing;
pub mod waits;

pub use lines::run_lines;
