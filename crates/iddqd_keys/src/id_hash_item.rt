//! Items with one key that goes by its hash, and the queries for it.
//!
//! A `Field` would name this key as well. But the proof of a caller shows the bounds of the key's type anew wherever an
//! impl states them, and the impls of `Field` state them beside the marker's. Those here have them from `IdHashItem`
//! alone.
ghost use Rattle.std.specs.Prelude.{◌≡◌};

use crate::hash_key::HashKey;
use crate::hash_query::HashQuery;
use crate::item_hash_query::ItemHashQuery;
use crate::key_kinds::ItsKey;
use std::hash::{Hash, Hasher};

/// An item with a key, which is a function of the item's value.
pub trait IdHashItem: Drop {
    /// The key.
    type Key: Eq + Hash;

    ghost key_of: { Self → Self.Key };

    /// The key of the item.
    fn key(&self) -> &Self::Key
        ensures { result.now ≡ key_of self.now };
}

impl<T: IdHashItem> HashKey<T> for ItsKey<T::Key> {
    ghost Key = { T.Key };

    ghost key_of = { T.IdHashItem.key_of };

    ghost eq = { T.Key.eq };

    ghost hash_input = { T.Key.hash_input };

    ghost laws = { T.Key.Eq.laws };

    ghost respects_eq = { T.Key.respects_eq };

    fn hash<H: Hasher>(item: &T, state: &mut H) {
        item.key().hash(state);
    }

    fn is_same(item: &T, other: &T) -> bool {
        *item.key() == *other.key()
    }
}

impl<T: IdHashItem, Q: HashQuery<T::Key>> ItemHashQuery<T, ItsKey<T::Key>> for Q {
    ghost stands_for_item = { λ q x. Q.HashQuery.stands_for q (T.IdHashItem.key_of x) };

    ghost key_hash_input = { Q.Hash.hash_input };

    ghost same_item_hash = { λ q x. Q.HashQuery.same_hash q (T.IdHashItem.key_of x) };

    ghost same_item_key = { λ q x y. Q.HashQuery.same_key q (T.IdHashItem.key_of x) (T.IdHashItem.key_of y) };

    fn stands_for_item(&self, item: &T) -> bool {
        self.stands_for(item.key())
    }

    fn hash_as_key<H: Hasher>(&self, state: &mut H) {
        self.hash(state);
    }
}
