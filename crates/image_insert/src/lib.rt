// The stages of an Insert, in place.
#![tactic(auto)]

pub mod inserts;
