// A queue made in lent bytes.
#![tactic(auto)]

pub mod make;

pub use make::make_at;
