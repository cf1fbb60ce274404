//! Iterators over the items of a map, by rising index. They take no memory.
ghost use Rattle.std.specs.Prelude.{◌≡◌, length};
ghost use Rattle.iddqd.specs.{live_count, live_items, live_pairs};
ghost use Rattle.iddqd.specs.LiveItems.{IsWalkOf};

use super::Map;
use crate::key_index::KeyIndex;
use iddqd::item_index::ItemIndex;
use iddqd::item_set::{IntoValues, Iter, Values};

impl<T, X: KeyIndex<T, S>, S> Map<T, X, S> {
    /// The live indexes with their items, by rising index.
    ///
    /// Cost: a step for each slot; takes no memory.
    pub fn iter(&self) -> Iter<'_, T>
        ensures pairs { result ≡ live_pairs self.now.store }
        ensures len { length result ≡ live_count self.now.store }
        ensures walk { IsWalkOf self.now.store result }
    {
        self.items.iter()
    }

    /// The items, by rising index.
    ///
    /// Cost: a step for each slot; takes no memory.
    pub fn values(&self) -> Values<'_, T>
        ensures items { result ≡ live_items self.now.store }
        ensures len { length result ≡ live_count self.now.store }
    {
        self.items.values()
    }

    /// The items by value, by rising index.
    ///
    /// Cost: a step for each slot; takes no memory.
    pub fn into_values(self) -> IntoValues<T>
    where
        X: Drop,
        S: Drop,
        ensures items { result ≡ live_items self.store }
        ensures len { length result ≡ live_count self.store }
    {
        self.items.into_values()
    }
}

impl<'a, T, X: KeyIndex<T, S>, S> IntoIterator for &'a Map<T, X, S> {
    type Item = (ItemIndex, &'a T);

    type IntoIter = Iter<'a, T>;

    ghost into_iter_gives = { λ m pairs. pairs ≡ live_pairs m.now.store };

    fn into_iter(self) -> Iter<'a, T> {
        self.iter()
    }
}

impl<T: Drop, X: KeyIndex<T, S> + Drop, S: Drop> IntoIterator for Map<T, X, S> {
    type Item = T;

    type IntoIter = IntoValues<T>;

    ghost into_iter_gives = { λ m items. items ≡ live_items m.store };

    fn into_iter(self) -> IntoValues<T> {
        self.into_values()
    }
}
