//! A map taken apart, and put together from parts that fit.
ghost use Rattle.std.specs.Prelude.{◌≡◌};
ghost use Rattle.iddqd.specs.{IsValid};
ghost use Rattle.iddqd_map.specs.Map.{map_with};

use super::Map;
use crate::key_index::KeyIndex;
use iddqd::item_set::ItemSet;

impl<T, X: KeyIndex<T, S>, S> Map<T, X, S> {
    /// The parts of the map by value: its items, what they are found by, and the state of the hasher.
    ///
    /// Cost: a few steps; takes no memory.
    pub fn into_parts(self) -> (ItemSet<T>, X, S)
        ensures valid { IsValid result.0.store }
        ensures indexed { X.indexes result.1 result.2 result.0.store }
        ensures map { map_with result.0 (X.capacity result.1) (X.cells result.1) ≡ self }
    {
        let Map {
            items,
            indexes,
            state,
        } = self;
        (items, indexes, state)
    }

    /// Makes a map of parts that fit: the key index has exactly the live indexes, each where its item's keys belong.
    ///
    /// Cost: a few steps; takes no memory.
    ///
    /// Asks: the key index has exactly the live indexes, each where its item's keys belong.
    pub fn from_parts(items: ItemSet<T>, indexes: X, state: S) -> Map<T, X, S>
        requires valid { IsValid items.store }
        requires indexed { X.indexes indexes state items.store }
        ensures { result ≡ map_with items (X.capacity indexes) (X.cells indexes) }
    {
        Map {
            items,
            indexes,
            state,
        }
    }
}
