// The stages that an Insert and a removal have in common, in place.
#![tactic(auto)]

pub mod walks;
