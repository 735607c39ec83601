// Markers of a record: which processor marked each node in use. Only `put_pair`, which markers on
// bytes shares, has a `requires`.
#![tactic(auto)]

pub mod listing;

pub use listing::{marker_byte, markers, put_pair};
