// The entries for hosts in C and Rust that keep a queue as the bytes of its image. Each is
// exported, takes any bytes and any numbers, works in place and has no `requires`.
// include/darthog.h declares them for C.
#![tactic(auto)]

pub mod batch;
pub mod calls;
pub mod making;
pub mod markers;
pub mod reads;
pub mod replies;
