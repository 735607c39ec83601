// A step in place.
#![tactic(auto)]

pub mod step;

pub use step::{step_at, step_from};
