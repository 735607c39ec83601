// Due minutes from seconds.
#![tactic(auto)]

pub mod seconds;

pub use seconds::due_from_seconds;
