//! Iterators over the items by rising index, and over the indexes in the order of the second keys. None takes memory.
ghost use Rattle.std.specs.Prelude.{◌≡◌, [], IsOk, IfOk, length};
ghost use Rattle.iddqd.specs.{live_count, live_items, live_pairs};
ghost use Rattle.iddqd.specs.LiveItems.{IsWalkOf};
ghost use Rattle.iddqd_order.specs.{indexes_left};
ghost use Rattle.iddqd_driver.specs.State.{IsPaired};
ghost use Rattle.iddqd_driver.specs.KeyIndexes.{second_key_index, ListsAsScan};

use super::{Keyed, KeyedItems};
use crate::keyed_item::KeyedItem;
use iddqd::item_index::ItemIndex;
use iddqd::item_set::{self, IntoValues, Values};
use iddqd_order::btree_table;
use std::alloc::AllocError;
use std::hash::BuildHasher;

impl<T: KeyedItem, S: BuildHasher> KeyedItems<T, S> {
    /// The live indexes with their items, by rising index.
    ///
    /// Cost: a step for each slot; takes no memory.
    pub fn iter(&self) -> item_set::Iter<'_, T>
        ensures pairs { result ≡ live_pairs self.now.state.store }
        ensures len { length result ≡ live_count self.now.state.store }
        ensures walk { IsWalkOf self.now.state.store result }
    {
        self.items.iter()
    }

    /// The items, by rising index.
    ///
    /// Cost: a step for each slot; takes no memory.
    pub fn values(&self) -> Values<'_, T>
        ensures items { result ≡ live_items self.now.state.store }
        ensures len { length result ≡ live_count self.now.state.store }
    {
        self.items.values()
    }

    /// The items by value, by rising index. Both tables are dropped.
    ///
    /// Cost: a step for each slot; takes no memory.
    pub fn into_values(self) -> IntoValues<T>
    where
        S: Drop,
        ensures items { result ≡ live_items self.state.store }
        ensures len { length result ≡ live_count self.state.store }
    {
        self.items.into_values()
    }

    /// The indexes in the order of the ordered table: by second key, if none was changed silently.
    ///
    /// Cost: a step for each index; takes no memory.
    pub fn walk(&self) -> btree_table::Iter<'_>
        ensures order { indexes_left result ≡ self.now.state.order }
        ensures paired { IsPaired self.now.state }
        ensures as_scan { ListsAsScan (second_key_index ⟦<Self as Keyed>⟧.keys) self.now.state (indexes_left result) }
    {
        self.order.iter()
    }

    // The indexes in the order of the ordered table, in memory of their own.
    #[tactic(auto, using(crate::proofs::ObeyLemmas::room_for_one))]
    pub(super) fn indexes(&self) -> Result<Vec<ItemIndex>, AllocError>
        ensures paired { IsPaired self.now.state }
        ensures all { IfOk result (λ indexes. indexes.items ≡ self.now.state.order) }
        ensures empty { self.now.state.order ≡ [] → IsOk result }
    {
        let walk = self.walk();
        let mut indexes = Vec::with_capacity(self.alloc, walk.len())?;
        for ix in walk {
            indexes.push_reserved(ix);
        }
        Ok(indexes)
    }
}

impl<'a, T: KeyedItem, S: BuildHasher> IntoIterator for &'a KeyedItems<T, S> {
    type Item = (ItemIndex, &'a T);

    type IntoIter = item_set::Iter<'a, T>;

    ghost into_iter_gives = { λ k pairs. pairs ≡ live_pairs k.now.state.store };

    fn into_iter(self) -> item_set::Iter<'a, T> {
        self.iter()
    }
}

impl<T: KeyedItem, S: BuildHasher + Drop> IntoIterator for KeyedItems<T, S> {
    type Item = T;

    type IntoIter = IntoValues<T>;

    ghost into_iter_gives = { λ k items. items ≡ live_items k.state.store };

    fn into_iter(self) -> IntoValues<T> {
        self.into_values()
    }
}
