//! Items with three keys that are looked up by their hashes, and the types that name these keys.
//!
//! Each key is named by a type without values, so that the contract of a table is written once, for any key. Users
//! implement only [`TriHashItem`], once for the map with three keys and for `TriItems`.
ghost use Rattle.std.specs.Prelude.{◌≡◌};

use crate::key_of::KeyOf;
use std::hash::Hash;

/// An item with three keys, each a function of the item's value.
pub trait TriHashItem: Drop {
    /// The first key.
    type Key1: Eq + Hash;
    /// The second key.
    type Key2: Eq + Hash;
    /// The third key.
    type Key3: Eq + Hash;

    ghost first_key: { Self → Self.Key1 };

    ghost second_key: { Self → Self.Key2 };

    ghost third_key: { Self → Self.Key3 };

    /// The first key of the item.
    fn key1(&self) -> &Self::Key1
        ensures { result.now ≡ first_key self.now };

    /// The second key of the item.
    fn key2(&self) -> &Self::Key2
        ensures { result.now ≡ second_key self.now };

    /// The third key of the item.
    fn key3(&self) -> &Self::Key3
        ensures { result.now ≡ third_key self.now };
}

/// Names the first key.
pub enum Key1 {}

impl<T: TriHashItem> KeyOf<T> for Key1 {
    type Key = T::Key1;

    ghost key_of = { T.TriHashItem.first_key };

    fn key(item: &T) -> &T::Key1 {
        item.key1()
    }
}

/// Names the second key.
pub enum Key2 {}

impl<T: TriHashItem> KeyOf<T> for Key2 {
    type Key = T::Key2;

    ghost key_of = { T.TriHashItem.second_key };

    fn key(item: &T) -> &T::Key2 {
        item.key2()
    }
}

/// Names the third key.
pub enum Key3 {}

impl<T: TriHashItem> KeyOf<T> for Key3 {
    type Key = T::Key3;

    ghost key_of = { T.TriHashItem.third_key };

    fn key(item: &T) -> &T::Key3 {
        item.key3()
    }
}
