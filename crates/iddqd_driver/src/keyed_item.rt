//! The two keys that an item contains.
//!
//! A type without values names each key, so that a table can say which key it goes by. Users implement only
//! [`KeyedItem`].
ghost use Rattle.std.specs.Prelude.{◌≡◌};

use iddqd_keys::key_of::KeyOf;
use std::hash::Hash;

/// An item with two keys, each a function of the item's value.
pub trait KeyedItem: Drop {
    /// The first key is looked up by its hash and equality.
    type Key1: Eq + Hash + Drop;
    /// The second key is looked up by its order.
    type Key2: Ord + Drop;

    ghost first_key: { Self → Self.Key1 };

    ghost second_key: { Self → Self.Key2 };

    /// The first key of the item.
    fn key1(&self) -> &Self::Key1
        ensures { result.now ≡ first_key self.now };

    /// The second key of the item.
    fn key2(&self) -> &Self::Key2
        ensures { result.now ≡ second_key self.now };
}

/// Names the first key.
pub enum First {}

impl<T: KeyedItem> KeyOf<T> for First {
    type Key = T::Key1;

    ghost key_of = { T.KeyedItem.first_key };

    fn key(item: &T) -> &T::Key1 {
        item.key1()
    }
}

/// Names the second key.
pub enum Second {}

impl<T: KeyedItem> KeyOf<T> for Second {
    type Key = T::Key2;

    ghost key_of = { T.KeyedItem.second_key };

    fn key(item: &T) -> &T::Key2 {
        item.key2()
    }
}
