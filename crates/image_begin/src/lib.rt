// The begins in place, on the image of a record that passes check 21.
#![tactic(auto)]

pub mod begins;
pub mod choice;
pub mod stores;

pub use begins::{begin_delete_min_at, begin_insert_at, begin_relaxed_at, begin_remove_at};
