//! A map: a store of items, and a key index by which no two of them are alike.
//!
//! Each call is written and proved once, whatever keys the items have. `IdHashMap`, `BiHashMap` and `TriHashMap` are
//! type names for `Map` with key indexes of their own. Each adds `insert_overwrite`; `IdHashMap` also adds the calls by
//! its one key, as `find`. An insert computes each hash once and looks each key up once. All conflicts are known, and
//! all memory is taken, before anything is written.
//!
//! Invariants:
//! 1. The store is sound: its free indexes are distinct and exactly the vacant ones.
//! 2. The key index has exactly the live indexes, each where its item's keys belong under the hasher's state.
ghost use Rattle.std.specs.Prelude.{◌≡◌, ◌↔◌, IsTrue, option_copied};
ghost use Rattle.iddqd.specs.{get, live_count};
ghost use Rattle.iddqd_map.specs.Map.{empty_map, IsMap};

mod appends;
mod bulk_inserts;
mod bulk_overwrites;
mod by_place;
mod changes;
mod checks;
mod clones;
mod drains;
mod equality;
mod group_modify;
mod hashed_groups;
mod inserts;
mod made_with;
mod memory;
mod modifies;
mod modify_each;
mod numbered_keys;
mod overwrites;
mod parts;
mod range_modify;
mod range_retain;
mod range_retain_into;
mod ranges;
mod remakes;
mod removals;
mod replaces;
mod retain;
mod retain_into;
mod selected;
mod steps;
pub mod sweep;
mod upserts;
mod walks;
mod whole;

use crate::key_index::{Empty, IndexLaws, KeyIndex};
use iddqd::hash_builder::DefaultHashBuilder;
use iddqd::item_index::ItemIndex;
use iddqd::item_set::ItemSet;
pub use parts::Parts;
use std::alloc::Global;
use std::marker::Model;

/// Items under stable indexes. No two items share a unique key.
///
/// A contract sees it as the store of its items, and its memory beside that.
#[derive(Drop)]
pub struct Map<T, X: KeyIndex<T, S>, S = DefaultHashBuilder> {
    items: ItemSet<T>,
    indexes: X,
    state: S,
}

impl<T, X: KeyIndex<T, S>, S> Model for Map<T, X, S> {
    ghost use Rattle.iddqd_map.specs.Map.{MapState, map_code, map_with};
    ghost use Rattle.iddqd_map.specs.KeyIndex.{IsIndexed};

    ghost Value = { MapState T };

    ghost coded = { map_code T.code };

    ghost view = { λ m. map_with m.items (X.capacity m.indexes) (X.cells m.indexes) };

    ghost invariant = { λ m. IsIndexed (X.indexes m.indexes) m.state m.items.store };
}

impl<T, X: Empty<T, DefaultHashBuilder>> Map<T, X, DefaultHashBuilder> {
    /// An empty map with the default hasher, whose seed is fixed. It may grow to `u32::MAX` items, one for each index
    /// but `SENTINEL`.
    ///
    /// Cost: a few steps; takes no memory.
    pub fn new(alloc: Global) -> Map<T, X, DefaultHashBuilder>
        ensures { result ≡ empty_map u32.MAX }
    {
        Map::with_hasher(alloc, DefaultHashBuilder::default())
    }

    /// An empty map with the default hasher, which never has more slots than the limit.
    ///
    /// No call changes the limit.
    ///
    /// Cost: a few steps; takes no memory.
    pub fn with_limit(alloc: Global, limit: u32) -> Map<T, X, DefaultHashBuilder>
        ensures { result ≡ empty_map limit }
    {
        Map::with_limit_and_hasher(alloc, DefaultHashBuilder::default(), limit)
    }
}

impl<T, X: Empty<T, S>, S> Map<T, X, S> {
    /// An empty map that may grow to `u32::MAX` items, one for each index but `SENTINEL`.
    ///
    /// Cost: a few steps; takes no memory.
    pub fn with_hasher(alloc: Global, state: S) -> Map<T, X, S>
        ensures { result ≡ empty_map u32.MAX }
    {
        Map::with_limit_and_hasher(alloc, state, u32::MAX)
    }

    /// An empty map that never has more slots than the limit.
    ///
    /// No call changes the limit.
    ///
    /// Cost: a few steps; takes no memory.
    pub fn with_limit_and_hasher(alloc: Global, state: S, limit: u32) -> Map<T, X, S>
        ensures { result ≡ empty_map limit }
    {
        Map {
            items: ItemSet::with_limit(alloc, limit),
            indexes: X::new(alloc),
            state,
        }
    }
}

impl<T, X: IndexLaws<T, S>, S> Map<T, X, S> {
    /// The number of items.
    ///
    /// Cost: a few steps; takes no memory.
    pub fn len(&self) -> usize
        ensures value { result ≡ live_count self.now.store }

        // What every map keeps.
        ensures state { IsMap X.alike self.now.store }
    {
        self.items.len()
    }
}

impl<T, X: KeyIndex<T, S>, S> Map<T, X, S> {
    /// Whether there is no item.
    ///
    /// Cost: a few steps; takes no memory.
    pub fn is_empty(&self) -> bool
        ensures { IsTrue result ↔ (live_count self.now.store ≡ 0) }
    {
        self.items.is_empty()
    }

    /// The item at an index, if there is one.
    ///
    /// Cost: a few steps; takes no memory.
    pub fn get_at(&self, ix: ItemIndex) -> Option<&T>
        ensures { option_copied result ≡ get self.now.store ix }
    {
        self.items.get(ix)
    }

    /// Borrows the parts, for look-ups of indexes by one key index.
    ///
    /// Cost: a few steps; takes no memory.
    pub fn parts(&self) -> Parts<'_, T, X, S>
        ensures { result ≡ self.now.store }
    {
        Parts {
            items: &self.items,
            indexes: &self.indexes,
            state: &self.state,
        }
    }
}
