//! Callers of the store and of the tables, with clauses of their own, which follow from what those crates promise.
#![tactic(auto)]

pub mod indexes;
pub mod ordered;
pub mod stores;
pub mod values;
