// What a step decides, of numbers alone: one function for each line of document 01. None has a
// `requires`. Each gives what its definition in crates/rules/specs/Decide.antt gives.
#![tactic(auto)]

pub mod insert;
pub mod removal;
pub mod remove;
pub mod search;
pub mod step;
pub mod walk;
