// Lists of calls: what binds the code of the calls and the theorem about the book.
#![tactic(auto)]

pub mod runs;
