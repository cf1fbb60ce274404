//! Entries of the reference table: a pair that was found, or room for one.
ghost use Rattle.std.specs.Prelude.{◌≡◌, IfOk, OnErr};
ghost use Rattle.std.specs.List.Sorted.{IsPermutation};
ghost use Rattle.std.specs.Fn.{TakesAt, CalledAt};
ghost use Rattle.iddqd_hash.specs.Asks.{CanAsk, HitsPair, Misses};
ghost use Rattle.iddqd_hash.specs.Entries.{IsVacancy};
ghost use Rattle.iddqd_hash.specs.HashTable.{entries, room, under};

use super::{HashTable, OccupiedEntry};
use crate::table_entry::{self, PairCells};
use std::alloc::AllocError;

/// The result of `entry`: the pair that it found, or room for one.
pub type Entry<'a, T> = table_entry::Entry<'a, HashTable<T>>;

/// Room for one pair under a hash. If the entry is dropped, the pairs stay as they were.
pub type VacantEntry<'a, T> = table_entry::VacantEntry<'a, HashTable<T>>;

impl<T> HashTable<T> {
    ghost use Rattle.std.specs.Borrow.{RestsIfErr, sem};
    ghost use Rattle.iddqd_hash.specs.contracts.hash_table_reference.HashTable.{the_row};
    ghost use Rattle.iddqd_hash.specs.TableEntry.{entry_table, entry_pair, vacant_table, vacant_hash, lender_of, IfOccupied, IfVacant, UnlessOccupied};

    /// The entry of a value under `hash` for which `eq` answers `true`, else a vacant one, with room for a pair.
    ///
    /// `eq` is asked as in `find`. A miss makes room as `try_reserve` does, so it takes memory only if there is no
    /// room. `AllocError` means that this failed; the table is then as it was.
    pub fn entry<F: FnMut(&T) -> bool>(
        &mut self,
        hash: u64,
        eq: F,
    ) -> Result<Entry<'_, T>, AllocError>
        requires { CanAsk (TakesAt F.FnMut) (CalledAt F.FnMut) eq (under hash (entries self.old)) }

        // A hit is a pair under the hash, and the asks before it were answered `false`. The table is as it was.
        ensures found { IfOccupied result
            (λ e. HitsPair (CalledAt F.FnMut) eq hash (under hash (entries self.old)) (entry_pair e)) }
        ensures same_table { IfOccupied result (λ e. entry_table e ≡ self.old) }

        // Otherwise `eq` answered `false` about each value under the hash, and the pairs stay.
        ensures missed { UnlessOccupied result (Misses (CalledAt F.FnMut) eq (under hash (entries self.old))) }
        ensures vacant { IfVacant result (λ e. IsVacancy hash self.old (vacant_hash e) (vacant_table e)) }
        ensures contents { IfVacant result (λ e. IsPermutation (entries self.old) (entries (vacant_table e))) }
        ensures refused { OnErr result (room self.old ≡ 0) }

        // An entry borrows the table. Without an entry the table is as it was.
        ensures same_reference { IfOk result (λ e. lender_of e ≡ self.entry.ghost_name) }
        ensures* unchanged { sem 𝓛 (RestsIfErr (the_row T.row) self.entry lender_of result (λ t. t ≡ self.old)) }
    {
        if let Some(place) = self.place_of(hash, eq) {
            return Ok(Entry::Occupied(OccupiedEntry { table: self, place }));
        }
        if let Err(error) = self.try_reserve(1) {
            return Err(error);
        }
        Ok(Entry::Vacant(VacantEntry { table: self, hash }))
    }
}
