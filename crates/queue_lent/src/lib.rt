// Thin entries for hosts in Rattle that keep the record: each takes it by reference, calls the call
// by value and stores the record that it gives. No public function has a `requires`.
#![tactic(auto)]

pub mod calls;
pub mod making;
pub mod reads;

pub use calls::{begin_delete_min, begin_insert, begin_relaxed, begin_remove, step};
pub use making::make;
pub use reads::{backlog, markers};
