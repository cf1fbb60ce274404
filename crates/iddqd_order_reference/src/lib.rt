//! A sorted vector of indexes, searched by a closure that is asked about stored indexes: the reference for the tree of
//! `iddqd_order`.
//!
//! It is a crate of its own, so that callers of the tree don't pay for its proof. No map uses it.
#![tactic(auto)]

pub mod ordered_table_reference;
