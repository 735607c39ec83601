// What needs no step of an operation: making a queue, check 21 and Backlog. No public function has
// a `requires`.
#![tactic(auto)]

pub mod check;
pub mod counting;
pub mod making;

pub use check::{Sizes, valid};
pub use counting::backlog;
pub use making::{Unmade, make, making_refusal, outside};
