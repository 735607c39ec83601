// Markers on the bytes of a record that passes check 21 (02, W6).
#![tactic(auto)]

pub mod counting;
pub mod pairs;

pub use counting::used_count;
pub use pairs::put_pairs;
