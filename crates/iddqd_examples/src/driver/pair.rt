//! Items of two numbers.
use iddqd_driver::keyed_item::KeyedItem;

/// A first key and a second key.
#[derive(Clone, Copy, Debug, PartialEq, Eq)]
pub(crate) struct Pair(pub(crate) u32, pub(crate) u32);

impl KeyedItem for Pair {
    type Key1 = u32;

    type Key2 = u32;

    ghost first_key = { λ pair. pair.0 };

    ghost second_key = { λ pair. pair.1 };

    fn key1(&self) -> &u32 {
        &self.0
    }

    fn key2(&self) -> &u32 {
        &self.1
    }
}
