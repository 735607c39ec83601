// What the calls in place have in common: on the bytes of a record that passes check 21.
#![tactic(auto)]

pub mod keys;
pub mod locks;
pub mod reads;
pub mod refused;
