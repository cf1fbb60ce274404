//! The iterator over the indexes of a map with their items, from one key on up to another one.
//!
//! `KeyedItems` has the same iterator.
pub use iddqd_by_order::ordered_walk::Range;
