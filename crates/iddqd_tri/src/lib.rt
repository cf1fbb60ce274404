//! Items with three unique keys each.
//!
//! [`tri_items::TriItems`] keeps items that contain their three keys: a store, and a hash table for each key.
#![tactic(auto)]

mod clashes;
pub mod tri_items;
pub mod tri_refusal;
mod tri_steps;
mod tri_tables;

pub use iddqd_keys::tri_hash_item as tri_hash_item;
