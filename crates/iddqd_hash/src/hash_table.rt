//! A hash table of the indexes of a store, each filed under the hash of its key.
//!
//! 1. No index stands in the table twice.
//! 2. The table holds no keys. A call that compares keys takes a closure, `lookup`, which returns the key of an index.
//! 3. Each index stays under the hash that it was inserted under. So if a key changes and the table isn't updated, a
//!    look-up by key may miss the index, but `remove_by_index` still finds it.
//!
//! It is built on public calls of [`OpenHashTable`], on `copied`, `allocator`, `find_asked` and `retain_asked`, which
//! only this crate sees, and on three of its `PairCells`: `place_of`, the place of the pair that a look-up hits, and
//! `pair_at` and `take_at`, which read and remove the pair at a place. An entry here keeps a place and makes these
//! calls. It has no entry of `OpenHashTable` inside, since the check can't follow a call on an entry that a field of
//! `self` lends.
//!
//! `entry` hashes its key once, for the look-up and for the insert. `remove_by_index` is a `retain` over all indexes. A
//! clone copies cells as memory, since an [`IndexCell`] is `Copy`.
ghost use Rattle.std.specs.Prelude.{◌≡◌, ◌↔◌, ◌+◌, ◌≤◌, ℕ, max, Some, None, IsTrue, IsSome, IfOk, OnErr};
ghost use Rattle.std.specs.FinMap as finite;
ghost use Rattle.iddqd.specs.Compaction.{CanRemap, remapped};
ghost use Rattle.iddqd.specs.MapHash.{hash_one};
ghost use Rattle.iddqd_hash.specs.Asks.{CanAsk, HitsPair, Misses};
ghost use Rattle.iddqd_hash.specs.HashTable.{room, capacity, memory, pair_at, HasNoMemory, KeepsMemory, UsesRoom};
ghost use Rattle.iddqd_hash.specs.Sizes.{most_cells, Reserves};
ghost use Rattle.iddqd_hash.specs.MapHashTable.{filed, indexes_under, CanLookUp, LooksUpKey, HaveOwnNames, Renames, RemovesIndex};

mod copies;
mod entry;
mod indexes;
mod indexes_under;
mod sizes;
mod validation;

use crate::open_table::{IndexCell, OpenHashTable};
use crate::table_entry::PairCells;
pub use entry::{Entry, VacantEntry};
use iddqd::index_remap::IndexRemap;
use iddqd::item_index::ItemIndex;
use iddqd::map_hash::{Equivalent, MapHash};
pub use indexes::Indexes;
pub use indexes_under::IndexesUnder;
use std::alloc::{AllocError, Global};
use std::hash::{BuildHasher, Hash};
use std::marker::Model;

/// An index and the hash that it is filed under.
#[derive(Clone, Copy, Debug)]
pub struct HashedIndex {
    /// The index.
    pub ix: ItemIndex,
    /// The hash of its key when it was inserted.
    pub hash: u64,
}

/// Indexes under the hashes of their keys, each index once.
///
/// Contracts see a finite map from an index to its hash, how many inserts need no memory, and how many cells the memory
/// has.
#[derive(Debug, Drop)]
pub struct MapHashTable {
    table: OpenHashTable<ItemIndex, IndexCell>,
}

impl Model for MapHashTable {
    ghost use Rattle.std.specs.Prelude.{ℕ};
    ghost use Rattle.std.specs.Coded.{coded_ℕ};
    ghost use Rattle.iddqd_hash.specs.HashTable.{Table, table_code, entries};
    ghost use Rattle.iddqd_hash.specs.MapHashTable.{IsDistinctlyFiled};

    ghost Value = { Table ℕ };

    ghost coded = { table_code coded_ℕ };

    ghost view = { λ s. s.table };

    ghost invariant = { λ s. IsDistinctlyFiled (entries s.table) };
}

/// The entry of an index that is in a table.
#[derive(Drop)]
pub struct OccupiedEntry<'a> {
    table: &'a mut MapHashTable,
    place: usize,
    ghost stands: { IsSome (pair_at table.now place) },
}

impl MapHashTable {
    ghost use Rattle.std.specs.Borrow.{RestsIfErr, sem};
    ghost use Rattle.iddqd_hash.specs.contracts.hash_table.MapHashTable.{the_row};
    ghost use Rattle.iddqd_hash.specs.MapHashTableEntry.{entry_table, entry_pair, entry_lender};

    /// An empty table, which takes no memory.
    pub fn new(alloc: Global) -> Self
        ensures empty { filed result ≡ finite.empty }
        ensures memory { HasNoMemory result }
    {
        MapHashTable {
            table: OpenHashTable::of_cells(alloc),
        }
    }

    /// The number of indexes.
    pub fn len(&self) -> usize
        ensures { result ≡ finite.len (filed self.now) }
    {
        self.table.len()
    }

    /// Whether there is no index.
    pub fn is_empty(&self) -> bool
        ensures { IsTrue result ↔ (filed self.now ≡ finite.empty) }
    {
        self.table.is_empty()
    }

    /// How many inserts need no memory.
    pub fn room(&self) -> usize
        ensures { result ≡ room self.now }
    {
        self.table.room()
    }

    /// How many indexes the table can hold without more memory.
    pub fn capacity(&self) -> usize
        ensures value { result ≡ capacity self.now }
        ensures room { result ≡ finite.len (filed self.now) + room self.now }
    {
        self.table.capacity()
    }

    /// Makes room for `additional` more indexes.
    ///
    /// If there is room for them, nothing changes. `AllocError` means that an allocation failed, or that no vector can
    /// hold that many; the table is then as it was.
    pub fn try_reserve(&mut self, additional: usize) -> Result<(), AllocError>
        ensures contents { filed self.new ≡ filed self.old }
        ensures memory { Reserves additional self.old result self.new }
        ensures few { memory self.new ≤ max (memory self.old) (most_cells (finite.len (filed self.old) + additional)) }
        ensures capacity { capacity self.old ≤ capacity self.new }

        // This holds of every table.
        ensures counted { capacity self.old ≡ finite.len (filed self.old) + room self.old }
    {
        self.table.try_reserve(additional)
    }

    /// The hash of a key, by the state of a hasher. Equal keys have the same hash by the same state.
    pub fn compute_hash<S: BuildHasher, K: Hash + Eq + Drop>(&self, state: &S, key: K) -> MapHash
        ensures hash { result ≡ hash_one S.BuildHasher S.Hasher.Hasher state.now (K.hash_input key) }
        ensures equal_keys { (other : K) → IsTrue (K.eq key other)
            → result ≡ hash_one S.BuildHasher S.Hasher.Hasher state.now (K.hash_input other) }
    {
        MapHash::new(state.hash_one(key))
    }

    /// An index under the query's hash whose key is equivalent to the query.
    ///
    /// `lookup` is called as in `find_index_prehashed`.
    pub fn find_index<S: BuildHasher, Q: Hash + Equivalent<K>, K: Drop, F: Fn(ItemIndex) -> K>(
        &self,
        state: &S,
        query: &Q,
        lookup: F,
    ) -> Option<ItemIndex>
        requires { CanLookUp F.Fn lookup
            (hash_one S.BuildHasher S.Hasher.Hasher state.now (Q.hash_input query.now)) self.now }
        ensures { LooksUpKey F.Fn Q.equivalent lookup query.now
            (hash_one S.BuildHasher S.Hasher.Hasher state.now (Q.hash_input query.now)) self.now result }
    {
        let hash = MapHash::new(state.hash_one(query));
        self.find_index_prehashed(hash, query, lookup)
    }

    /// An index under a hash that was computed before, whose key is equivalent to the query.
    ///
    /// `lookup` is called only on indexes under that hash, on none twice, and not again after an equivalent key. `None`
    /// means that it was called on each of them.
    #[inline(always)]
    pub fn find_index_prehashed<Q: Equivalent<K>, K: Drop, F: Fn(ItemIndex) -> K>(
        &self,
        hash: MapHash,
        query: &Q,
        lookup: F,
    ) -> Option<ItemIndex>
        requires { CanLookUp F.Fn lookup hash self.now }
        ensures { LooksUpKey F.Fn Q.equivalent lookup query.now hash self.now result }
    {
        self.table
            .find_asked(
                hash.hash(),
                |ix: &ItemIndex| -> bool
                    requires { F.pre lookup ix.now }
                    ensures { (k : K) × F.post lookup ix.now k × (result ≡ Q.equivalent query.entry.now k) }
                { query.equivalent(&lookup(*ix)) },
            )
            .copied()
    }

    /// The entry of an index under `hash` for which `f` answers `true`, else `Err(())`.
    ///
    /// `f` is asked only about indexes under `hash`, about none twice, and not again after it answered `true`. `Err`
    /// means that it was asked about each of them.
    pub fn find_entry_by_hash<F: FnMut(ItemIndex) -> bool>(
        &mut self,
        hash: u64,
        mut f: F,
    ) -> Result<OccupiedEntry<'_>, ()>
        requires { CanAsk F.pre F.step f (indexes_under hash (filed self.old)) }

        // A hit is an index under the hash, and the asks before it were answered `false`.
        ensures found { IfOk result (λ e. HitsPair F.step f hash (indexes_under hash (filed self.old)) (entry_pair e)) }
        ensures missed { OnErr result (Misses F.step f (indexes_under hash (filed self.old))) }

        // The table is as it was, and an entry borrows it.
        ensures table { IfOk result (λ e. entry_table e ≡ self.old) }
        ensures same_reference { IfOk result (λ e. entry_lender e ≡ self.entry.ghost_name) }
        ensures* unchanged { sem 𝓛 (RestsIfErr the_row self.entry entry_lender result (λ t. t ≡ self.old)) }
    {
        let place = self.table.place_of(
            hash,
            |ix: &ItemIndex| -> bool
                requires { F.pre f ix.now }
                ensures { F.step f.entry ix.now result f.exit }
            { f(*ix) },
        );
        match place {
            Some(place) => Ok(OccupiedEntry { table: self, place }),
            None => Err(()),
        }
    }

    /// Adds an index under a hash that was computed before, and takes no memory.
    ///
    /// There has to be room, and the index must not be in the table. It doesn't look for an equal key.
    ///
    /// It is inlined: a map's insert that called it took a quarter to two thirds longer in large maps.
    #[inline(always)]
    pub fn insert_prehashed_unchecked(&mut self, hash: MapHash, ix: ItemIndex)
        requires room { 1 ≤ room self.old }
        requires new { finite.get (filed self.old) ix ≡ None }
        ensures added { filed self.new ≡ finite.insert (filed self.old) ix hash }
        ensures memory { UsesRoom self.old self.new }
    {
        self.table.insert_unique(hash.hash(), ix);
    }

    /// Removes an index that is in the table, under whatever hash it is filed. It costs a walk over the table.
    pub fn remove_by_index(&mut self, ix: ItemIndex)
        requires { IsSome (finite.get (filed self.old) ix) }
        ensures removed { filed self.new ≡ finite.remove (filed self.old) ix }
        ensures memory { KeepsMemory self.old self.new }
        ensures room { room self.new ≡ room self.old + 1 }
    {
        self.table.retain_asked(|at| *at != ix);
    }

    /// Removes every index, and keeps the memory.
    pub fn clear(&mut self)
        ensures empty { filed self.new ≡ finite.empty }
        ensures memory { KeepsMemory self.old self.new }
        ensures room { room self.new ≡ capacity self.old }
    {
        self.table.clear();
    }

    /// Gives each index its new name, under the same hash, and takes no memory.
    ///
    /// It costs a walk over the table, or nothing if the remap is `Identity`.
    #[tactic(auto, using(crate::proofs::RenameLemmas::is_filed))]
    pub fn remap_indexes(&mut self, remap: &IndexRemap)
        requires can_remap { (ix : ℕ) → IsSome (finite.get (filed self.old) ix) → CanRemap remap.now ix }
        requires distinct { HaveOwnNames (remapped remap.now) (filed self.old) }
        ensures renamed { Renames (remapped remap.now) (filed self.old) (filed self.new) }
        ensures memory { KeepsMemory self.old self.new }
    {
        if remap.is_identity() {
            return;
        }
        self.table.rewrite(|ix| remap.remap(*ix));
    }

    // The index at a place, with its hash.
    fn hashed_at(&self, place: usize) -> HashedIndex
        requires { IsSome (pair_at self.now place) }
        ensures { pair_at self.now place ≡ Some (result.hash, result.ix) }
    {
        let (hash, ix) = self.table.pair_at(place);
        HashedIndex { ix: *ix, hash }
    }

    // Removes the index at a place.
    fn remove_at(&mut self, place: usize)
        requires { IsSome (pair_at self.old place) }
        ensures removed { RemovesIndex self.old (pair_at self.old place) self.new }
        ensures memory { KeepsMemory self.old self.new }
        ensures room { room self.new ≡ room self.old + 1 }
    {
        self.table.take_at(place);
    }
}

impl<'a> OccupiedEntry<'a> {
    ghost use Rattle.iddqd_hash.specs.MapHashTableEntry.{entry_table, entry_pair, entry_index};

    /// The index.
    pub fn get(&self) -> ItemIndex
        ensures { entry_index self.now ≡ Some result }
    {
        self.table.hashed_at(self.place).ix
    }

    /// Removes the index from the table. No memory is taken or given back.
    pub fn remove(self)
        ensures removed { RemovesIndex (entry_table self.entry) (entry_pair self.entry) self.exit.0.now }
        ensures memory { KeepsMemory (entry_table self.entry) self.exit.0.now }
        ensures room { room self.exit.0.now ≡ room (entry_table self.entry) + 1 }
    {
        let place = self.place;
        self.table.remove_at(place);
    }
}
