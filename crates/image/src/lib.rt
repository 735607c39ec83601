// The record as bytes: where its parts stand, and the numbers of the image. The definitions, their
// laws and those of single stores are in specs/ and proofs/.
#![tactic(auto)]

pub mod header;
pub mod layout;
pub mod node;
pub mod numbers;
pub mod processor;
pub mod tag;
