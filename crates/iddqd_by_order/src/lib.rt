//! Look-ups, ranges and removals by one key of a store's items, in an ordered table of the store's indexes.
//!
//! The look-ups, ranges and removals are free functions that are handed the table and the store.
#![tactic(auto)]

mod item_bound;
pub mod ordered;
pub mod ordered_item;
pub mod ordered_next;
pub mod ordered_walk;
