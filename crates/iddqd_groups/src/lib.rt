//! Groups of items that have one key by its hash: the key index [`by_hash_multi::ByHashMulti`], its table
//! [`linked_table::LinkedTable`], and [`hashed_group::Group`], an iterator over a group.
//!
//! Maps whose hashed keys are all unique don't stand on this crate.
#![tactic(auto)]

pub mod by_hash_multi;
mod group_modify;
mod group_query;
mod group_steps;
pub mod hashed_group;
pub mod in_groups;
mod linked_steps;
pub mod linked_table;
