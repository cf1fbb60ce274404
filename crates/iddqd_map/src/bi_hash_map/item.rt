//! The two keys of an item, and the types that name them.
//!
//! Each key is named by a type without values, so that the contract of a table is written once, for any key. Users
//! implement only [`BiHashItem`].
ghost use Rattle.std.specs.Prelude.{◌≡◌};

use iddqd_keys::key_of::KeyOf;
use std::hash::Hash;

/// An item with two keys, each a function of the item's value.
pub trait BiHashItem: Drop {
    /// The first key.
    type Key1: Eq + Hash;
    /// The second key.
    type Key2: Eq + Hash;

    ghost first_key: { Self → Self.Key1 };

    ghost second_key: { Self → Self.Key2 };

    /// The first key of the item.
    fn key1(&self) -> &Self::Key1
        ensures { result.now ≡ first_key self.now };

    /// The second key of the item.
    fn key2(&self) -> &Self::Key2
        ensures { result.now ≡ second_key self.now };
}

/// Names the first key.
pub enum Key1 {}

impl<T: BiHashItem> KeyOf<T> for Key1 {
    type Key = T::Key1;

    ghost key_of = { T.BiHashItem.first_key };

    fn key(item: &T) -> &T::Key1 {
        item.key1()
    }
}

/// Names the second key.
pub enum Key2 {}

impl<T: BiHashItem> KeyOf<T> for Key2 {
    type Key = T::Key2;

    ghost key_of = { T.BiHashItem.second_key };

    fn key(item: &T) -> &T::Key2 {
        item.key2()
    }
}
