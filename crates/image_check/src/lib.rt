#![tactic(auto)]

pub mod counting;
pub mod levels;
pub mod nodes;
pub mod processors;
pub mod tags;
pub mod whole;

pub use counting::pending;
pub use whole::passes;
