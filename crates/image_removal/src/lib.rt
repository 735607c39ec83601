// The stages of a removal but for its Search and its Lock-seek, in place.
#![tactic(auto)]

pub mod removals;
