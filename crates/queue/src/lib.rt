// The calls on a record by value. What a call asks of the record is read (reading), then it is
// refused, or decided (deciding) and carried out on the record (applying); check 21 keeps every
// index in range. Single nodes and numbers go to the functions of `rules_refusals`, `queue_parts`,
// `queue_decide` and `queue_begin`. That a record passes check 21 stands in clauses and in no type:
// hosts fill a `Queue` field by field, and `call_valid` is theirs too.
#![tactic(auto)]

pub mod applying;
pub mod calls;
pub mod deciding;
pub mod reading;

pub use calls::{
    begin_delete_min, begin_insert, begin_relaxed, begin_remove, call, call_valid, step,
};
