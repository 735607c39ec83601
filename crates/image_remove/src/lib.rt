// A Remove before its mark (02, W5), in place.
#![tactic(auto)]

pub mod finds;
