//! The three tables of items with three keys: each step does the same in all three.
ghost use Rattle.std.specs.Prelude.{◌≡◌, ◌≤◌, OnOk, OnErr, IsOk};
ghost use Rattle.iddqd_tri.specs.TriKeys.{tri_keys_of, hashes_in};
ghost use Rattle.iddqd_tri.specs.TriState.{no_maps, maps_without, maps_with};
ghost use Rattle.iddqd_tri.specs.TriMemory.{no_memory, least_capacity};
ghost use Rattle.iddqd_tri.specs.TriTables.{maps_of, three_hashes, tables_memory, HaveRoom, AreFiled, AreUnfiled, HaveLen, TablesGrow, TablesShrink, SomeHasMore};

use iddqd::item_index::ItemIndex;
use iddqd::map_hash::MapHash;
use iddqd_by_hash::hashed;
use iddqd_hash::hash_table::MapHashTable;
use iddqd_keys::tri_hash_item::{Key1, Key2, Key3, TriHashItem};
use std::alloc::{AllocError, Global};
use std::hash::BuildHasher;

/// For each key the table of the live indexes.
#[derive(Drop)]
pub(crate) struct TriTables {
    pub(crate) first: MapHashTable,
    pub(crate) second: MapHashTable,
    pub(crate) third: MapHashTable,
}

/// The hash of each key of an item.
#[derive(Clone, Copy)]
pub(crate) struct TriHashes {
    pub(crate) first: MapHash,
    pub(crate) second: MapHash,
    pub(crate) third: MapHash,
}

impl TriHashes {
    /// The hashes of an item's keys under a hasher's state.
    pub(crate) fn of<T: TriHashItem, S: BuildHasher>(state: &S, item: &T) -> TriHashes
        ensures { let keys = tri_keys_of T.TriHashItem T.Key1.eq T.Key1.hash_input T.Key2.eq T.Key2.hash_input
            T.Key3.eq T.Key3.hash_input S.BuildHasher S.Hasher.Hasher in
            three_hashes result ≡ hashes_in keys state.now item.now }
    {
        TriHashes {
            first: hashed::hash_of::<T, Key1, S>(state, item),
            second: hashed::hash_of::<T, Key2, S>(state, item),
            third: hashed::hash_of::<T, Key3, S>(state, item),
        }
    }
}

impl TriTables {
    /// Empty tables, which take no memory.
    pub(crate) fn new(alloc: Global) -> TriTables
        ensures maps { maps_of result ≡ no_maps }
        ensures memory { tables_memory result ≡ no_memory.tables }
    {
        TriTables {
            first: MapHashTable::new(alloc),
            second: MapHashTable::new(alloc),
            third: MapHashTable::new(alloc),
        }
    }

    /// How many indexes each table can hold without more memory.
    pub(crate) fn capacity(&self) -> usize
        ensures { result ≡ least_capacity (tables_memory self.now) }
    {
        let later = self.second.capacity().min(self.third.capacity());
        self.first.capacity().min(later)
    }

    /// Makes room for `additional` more indexes in each table, from the first to the third.
    pub(crate) fn reserve(&mut self, additional: usize) -> Result<(), AllocError>
        ensures contents { maps_of self.new ≡ maps_of self.old }
        ensures memory { TablesGrow additional self.old self.new }
        ensures room { OnOk result (HaveRoom additional self.new) }
        ensures had_room { HaveRoom additional self.old → IsOk result }
    {
        self.first.try_reserve(additional)?;
        self.second.try_reserve(additional)?;
        self.third.try_reserve(additional)
    }

    /// Gives back the memory beyond what `least` indexes need, or those that there are if these are more. If a table
    /// can't get smaller memory, none keeps less than was asked, unless it had less before.
    pub(crate) fn shrink_to(&mut self, least: usize) -> Result<(), AllocError>
        ensures contents { maps_of self.new ≡ maps_of self.old }
        ensures memory { TablesShrink least self.old result self.new }
        ensures refused { OnErr result (SomeHasMore least self.new) }
        ensures succeeds { least ≡ 0 → HaveLen 0 (maps_of self.old) → IsOk result }
    {
        let first = self.first.shrink_to(least);
        let second = self.second.shrink_to(least);
        let third = self.third.shrink_to(least);
        first?;
        second?;
        third
    }

    /// Files an index under a hash in each table. It takes no memory.
    pub(crate) fn insert(&mut self, hashes: TriHashes, ix: ItemIndex)
        requires room { HaveRoom 1 self.old }
        requires new { AreUnfiled (maps_of self.old) ix }
        ensures added { maps_of self.new ≡ maps_with (maps_of self.old) ix (three_hashes hashes) }
        ensures memory { tables_memory self.new ≡ tables_memory self.old }
    {
        self.first.insert_prehashed_unchecked(hashes.first, ix);
        self.second.insert_prehashed_unchecked(hashes.second, ix);
        self.third.insert_prehashed_unchecked(hashes.third, ix);
    }

    /// Removes an index from each table, by a look-up under its hash, or by a scan if that misses. It takes no memory.
    pub(crate) fn remove(&mut self, hashes: TriHashes, ix: ItemIndex)
        requires { AreFiled (maps_of self.old) ix }
        ensures taken { maps_of self.new ≡ maps_without (maps_of self.old) ix }
        ensures memory { tables_memory self.new ≡ tables_memory self.old }
        ensures room { HaveRoom 1 self.new }
    {
        hashed::remove_index(&mut self.first, hashes.first, ix);
        hashed::remove_index(&mut self.second, hashes.second, ix);
        hashed::remove_index(&mut self.third, hashes.third, ix);
    }
}
