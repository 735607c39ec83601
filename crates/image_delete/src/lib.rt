// The walk of a Delete_Min and of a Relaxed one, in place.
#![tactic(auto)]

pub mod walk;
