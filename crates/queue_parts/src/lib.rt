// What a step reads (reads) and what it changes (effects), on numbers and single nodes. No function
// here takes the record, and none has a `requires`. Each gives what its definition in
// crates/rules/specs gives: that folder's Effects.antt and Calls.antt.
#![tactic(auto)]

pub mod effects;
pub mod reads;
