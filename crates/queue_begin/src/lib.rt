// What a begin decides, and the node that an Insert takes.
#![tactic(auto)]

pub mod begins;
pub mod choice;
