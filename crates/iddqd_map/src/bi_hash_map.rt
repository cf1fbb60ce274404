//! A map of items that have two keys each, both found by their hashes: a [`Map`] whose key index has a table
//! by each key.
//!
//! All calls but `insert_overwrite` are `Map`'s. Those that name a key, as `find1`, are of every map with such keys.
ghost use Rattle.std.specs.Prelude.{◌≡◌, ◌+◌, ◌≤◌, count_by, is_some, IsOk, IfOk, OnErr};
ghost use Rattle.iddqd.specs.{live_count};
ghost use Rattle.iddqd_map.specs.Map.{room, shares};
ghost use Rattle.iddqd_map.specs.TwoKeys.{OverwritesTwo};

mod clash;
mod clones;
mod index;
mod item;
mod prints;

pub use crate::key_index::{First, Second};
use crate::map::Map;
use crate::refusal::OverwriteRefusal;
pub use clash::BiClash;
pub use clones::BiHashClone;
use iddqd::hash_builder::DefaultHashBuilder;
use iddqd::item_index::ItemIndex;
use iddqd_keys::hash_key::HashKey;
pub use index::{BiIndex, BiIndexOf};
pub use item::BiHashItem;
use std::hash::BuildHasher;

/// Items under stable indexes, with two keys that are read in place. No two items share a key.
pub type BiHashMapBy<T, A, B, S = DefaultHashBuilder> = Map<T, BiIndexOf<A, B>, S>;

/// Items under stable indexes. No two items share a key.
pub type BiHashMap<T, S = DefaultHashBuilder> = Map<T, BiIndex<T>, S>;

impl<T: Drop, A, B, S: BuildHasher> Map<T, BiIndexOf<A, B>, S>
where
    A: HashKey<T>,
    B: HashKey<T>,
{
    /// Inserts an item, and removes the items that share a key with it, at most two. It returns these by rising index,
    /// in the first places of the array, each with the index that it had.
    ///
    /// If it removes an item, it takes no memory and isn't refused. If it removes none, it inserts as `insert_unique`
    /// does, and may be refused for the same reasons. Each key of the item is hashed once, and each key of an item that
    /// it removes.
    ///
    /// Cost: one look-up and one insertion by each key, of which each is hashed once; of each item that it removes a
    /// removal from each table; takes memory only without `room`, and if it removes no item.
    pub fn insert_overwrite(
        &mut self,
        item: T,
    ) -> Result<(ItemIndex, [Option<(ItemIndex, T)>; 2]), OverwriteRefusal<T>>
        ensures inserts { OverwritesTwo (shares A.key_of A.eq) (shares B.key_of B.eq) self.old
            item result self.new }
        ensures count { IfOk result (λ put. live_count self.new.store + count_by is_some put.1
            ≡ live_count self.old.store + 1) }
        ensures unchanged { OnErr result (self.new.store ≡ self.old.store) }
        ensures not_refused { 1 ≤ room self.old → IsOk result }
        ensures room { IfOk result (λ put. 1 ≤ room self.old
            → room self.new + 1 ≡ room self.old + count_by is_some put.1) }
    {
        let mut places = [None, None];
        let ix = self.overwrite_into(item, &mut places)?;
        Ok((ix, places))
    }
}
