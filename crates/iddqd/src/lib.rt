//! A store of items in slots under stable indexes.
//!
//! [`item_set::ItemSet`] keeps each item in a slot and names it by an [`item_index::ItemIndex`]. An index names its
//! item until the item is removed or the set is compacted or cleared. Indexes of removed items are assigned again, the
//! last freed first, so an insert makes a new slot only if none is vacant.
#![tactic(auto)]

pub mod hash_builder;
pub mod index_remap;
pub mod internal;
pub mod item_index;
pub mod item_set;
pub mod map_hash;
