//! Entries of a table of indexes: an index that was found, or room for one.
ghost use Rattle.std.specs.Prelude.{◌≡◌, ◌≤◌, None, IfOk, OnErr};
ghost use Rattle.std.specs.FinMap as finite;
ghost use Rattle.iddqd.specs.MapHash.{hash_one};
ghost use Rattle.iddqd_hash.specs.Asks.{FindsPlace};
ghost use Rattle.iddqd_hash.specs.HashTable.{pair_at, room, UsesRoom};
ghost use Rattle.iddqd_hash.specs.MapHashTable.{filed, indexes_under, AsksEqual, CanLookUp, MissesKey};

use super::{MapHashTable, OccupiedEntry};
use crate::table_entry::PairCells;
use iddqd::item_index::ItemIndex;
use iddqd::map_hash::MapHash;
use std::alloc::AllocError;
use std::hash::{BuildHasher, Hash};

/// The result of `entry`: the index that it found, or room for one.
#[derive(Drop)]
pub enum Entry<'a> {
    /// The index that was found.
    Occupied(OccupiedEntry<'a>),
    /// None was found, and there is room for one.
    Vacant(VacantEntry<'a>),
}

/// Room for one index under a hash. If the entry is dropped, the indexes stay as they were.
#[derive(Drop)]
pub struct VacantEntry<'a> {
    table: &'a mut MapHashTable,
    hash: u64,
    ghost roomy: { 1 ≤ room table.now },
}

impl MapHashTable {
    ghost use Rattle.std.specs.Borrow.{RestsIfErr, sem};
    ghost use Rattle.iddqd_hash.specs.contracts.hash_table.MapHashTable.{the_row};
    ghost use Rattle.iddqd_hash.specs.MapHashTableEntry.{entry_table, vacant_table, lender_of, HitsEntry, IfOccupied, IfVacant, IsVacantUnder, UnlessOccupied};

    /// The entry of an index that is filed under the hash of `key` and whose own key equals `key`, else a vacant one,
    /// with room for an index.
    ///
    /// `lookup` is called as in `find_index_prehashed`. A miss makes room as `try_reserve` does, so it takes memory
    /// only if there is no room. `AllocError` means that this failed; the table is then as it was. The key is dropped
    /// when the call ends.
    pub fn entry<S: BuildHasher, K: Hash + Eq + Drop, F: Fn(ItemIndex) -> K>(
        &mut self,
        state: &S,
        key: K,
        lookup: F,
    ) -> Result<Entry<'_>, AllocError>
        requires { CanLookUp F.Fn lookup
            (hash_one S.BuildHasher S.Hasher.Hasher state.now (K.hash_input key)) self.old }

        // A hit is an index under the hash, and the asks before it were answered `false`. The table is as it was.
        ensures found { IfOccupied result (HitsEntry F.Fn K.eq lookup key
            (hash_one S.BuildHasher S.Hasher.Hasher state.now (K.hash_input key)) self.old) }
        ensures same_table { IfOccupied result (λ e. entry_table e ≡ self.old) }

        // Otherwise the key of each index under the hash differs, and the indexes stay.
        ensures missed { UnlessOccupied result (MissesKey F.Fn K.eq lookup key
            (hash_one S.BuildHasher S.Hasher.Hasher state.now (K.hash_input key)) self.old) }
        ensures vacant { IfVacant result (IsVacantUnder
            (hash_one S.BuildHasher S.Hasher.Hasher state.now (K.hash_input key)) self.old) }
        ensures contents { IfVacant result (λ e. filed (vacant_table e) ≡ filed self.old) }
        ensures refused { OnErr result (room self.old ≡ 0) }

        // An entry borrows the table. Without an entry the table is as it was.
        ensures same_reference { IfOk result (λ e. lender_of e ≡ self.entry.ghost_name) }
        ensures* unchanged { sem 𝓛 (RestsIfErr the_row self.entry lender_of result (λ t. t ≡ self.old)) }
    {
        let hash = state.hash_one(&key);
        if let Some(place) = self.place_of_key(hash, &key, lookup) {
            return Ok(Entry::Occupied(OccupiedEntry { table: self, place }));
        }
        if let Err(error) = self.try_reserve(1) {
            return Err(error);
        }
        Ok(Entry::Vacant(VacantEntry { table: self, hash }))
    }

    // The place of the index that a look-up by a key hits.
    fn place_of_key<K: Eq + Drop, F: Fn(ItemIndex) -> K>(
        &self,
        hash: u64,
        key: &K,
        lookup: F,
    ) -> Option<usize>
        requires { CanLookUp F.Fn lookup hash self.now }
        ensures { FindsPlace (AsksEqual F.Fn K.eq lookup key.now) tt hash
            (indexes_under hash (filed self.now)) (pair_at self.now) result }
    {
        self.table.place_of(
            hash,
            |ix: &ItemIndex| -> bool
                requires { F.pre lookup ix.now }
                ensures { (k : K) × F.post lookup ix.now k × (result ≡ K.eq k key.entry.now) }
            { lookup(*ix) == *key },
        )
    }
}

impl<'a> VacantEntry<'a> {
    ghost use Rattle.iddqd_hash.specs.MapHashTableEntry.{vacant_table, vacant_hash};

    /// Adds an index under the hash of the entry, and takes no memory. The index must not be in the table.
    pub fn insert(self, ix: ItemIndex)
        requires { finite.get (filed (vacant_table self)) ix ≡ None }
        ensures added { filed self.exit.0.now
            ≡ finite.insert (filed (vacant_table self.entry)) ix (vacant_hash self.entry) }
        ensures memory { UsesRoom (vacant_table self.entry) self.exit.0.now }
    {
        let hash = MapHash::new(self.hash);
        self.table.insert_prehashed_unchecked(hash, ix);
    }
}
