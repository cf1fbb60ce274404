//! The steps of a key index by the hash of a key that no two items share.
//!
//! Each works on a hash table that has exactly the live indexes. An index is under the hash of its item's key, so a
//! removal computes that hash, unless a look-up has computed it before.
ghost use Rattle.std.specs.Prelude.{◌≡◌, ◌+◌, ◌<◌, ◌≤◌, min, max, length, Some, IsOk, IsSome, IfErr, OnOk, OnErr};
ghost use Rattle.std.specs.FinMap as finite;
ghost use Rattle.iddqd.specs.{live_count, IsValid, Allows, Validates};
ghost use Rattle.iddqd.specs.Compaction.{rank, IsRemapOf};
ghost use Rattle.iddqd.specs.Store.{Store};
ghost use Rattle.iddqd.specs.Validation.{AreAsExpected};
ghost use Rattle.iddqd_hash.specs.{filed, indexes_of};
ghost use Rattle.iddqd_hash.specs.HashTable.{room, capacity, memory, KeepsMemory};
ghost use Rattle.iddqd_hash.specs.MapHashTable.{Renames};
ghost use Rattle.iddqd_hash.specs.OpenTableSizes.{least_cells};
ghost use Rattle.iddqd_hash.specs.Sizes.{most_cells};
ghost use Rattle.iddqd_keys.specs.Scan.{IsLive};
ghost use Rattle.iddqd_by_hash.specs.Hashed.{hashing_of, Holds, IsInPlace};
ghost use Rattle.iddqd_by_hash.specs.HashedMove.{IfStays, moved};
ghost use Rattle.iddqd_map.specs.Indexing.{IsKnownHash};
ghost use Rattle.iddqd_map.specs.KeyIndex.{AreKnownAt};
ghost use Rattle.iddqd_map.specs.Validation.{NamesTable};

use iddqd::index_remap::IndexRemap;
use iddqd::internal::{ValidateCompact, ValidateRefusal, ValidationError};
use iddqd::item_index::ItemIndex;
use iddqd::item_set::ItemSet;
use iddqd::map_hash::MapHash;
use iddqd_by_hash::hashed::remove_index;
use iddqd_by_hash::hashed_item::hash_of;
use iddqd_by_hash::hashed_move::{self, Move};
use iddqd_hash::hash_table::MapHashTable;
use iddqd_keys::hash_key::HashKey;
use std::alloc::{AllocError, Global};
use std::hash::BuildHasher;

/// An empty table. It takes no memory.
pub fn new(alloc: Global) -> MapHashTable
    ensures empty { filed result ≡ finite.empty }
    ensures capacity { capacity result ≡ 0 }
    ensures memory { memory result ≡ 0 }
{
    MapHashTable::new(alloc)
}

/// Makes room for `additional` more indexes than there are items. If there is room, it takes no memory.
pub fn reserve<T>(
    table: &mut MapHashTable,
    items: &ItemSet<T>,
    additional: usize,
) -> Result<(), AllocError>
    requires { Holds items.now.store (filed table.old) }
    ensures contents { filed table.new ≡ filed table.old }
    ensures reserved { OnOk result (live_count items.now.store + additional ≤ capacity table.new) }
    ensures had_room { live_count items.now.store + additional ≤ capacity table.old
        → IsOk result × (table.new ≡ table.old) }
    ensures capacity_at_least { capacity table.old ≤ capacity table.new }
    ensures few { memory table.new ≤ memory table.old + most_cells (live_count items.now.store + additional) }
{
    table.try_reserve(additional)
}

/// Gives back the memory that neither the stored indexes nor `least` indexes need.
///
/// The contents may have to move to a smaller block, for which memory may run out.
pub fn shrink_to<T>(
    table: &mut MapHashTable,
    items: &ItemSet<T>,
    least: usize,
) -> Result<(), AllocError>
    requires { Holds items.now.store (filed table.old) }
    ensures contents { filed table.new ≡ filed table.old }
    ensures never_more { memory table.new ≤ memory table.old }
    ensures capacity_at_least { min (capacity table.old) (max least (live_count items.now.store)) ≤ capacity table.new }
    ensures shrunk { OnOk result (memory table.new ≤ most_cells (max least (live_count items.now.store))) }
    ensures refused { OnErr result (max least (live_count items.now.store) < memory table.new) }
    ensures needed { let kept = min (capacity table.old) (max least (live_count items.now.store)) in
        OnErr result (least_cells kept < memory table.new) }
    ensures enough { let kept = min (capacity table.old) (max least (live_count items.now.store)) in
        least_cells kept ≤ memory table.new }
    ensures succeeds { max least (live_count items.now.store) ≡ 0 → IsOk result }
{
    table.shrink_to(least)
}

/// Makes room for an insert. If there is room, it takes no memory.
pub fn make_room<T>(table: &mut MapHashTable, items: &ItemSet<T>) -> Result<(), AllocError>
    requires { Holds items.now.store (filed table.old) }
    ensures contents { filed table.new ≡ filed table.old }
    ensures ready { OnOk result (1 ≤ room table.new) }
    ensures had_room { live_count items.now.store < capacity table.old → IsOk result × (table.new ≡ table.old) }
    ensures capacity_at_least { capacity table.old ≤ capacity table.new }
    ensures few { memory table.new ≤ memory table.old + most_cells (live_count items.now.store + 1) }
{
    table.try_reserve(1)
}

/// Removes a live index, which is under the hash of its item's key. It takes no memory.
pub fn remove_live<T, E, S>(table: &mut MapHashTable, items: &ItemSet<T>, state: &S, ix: ItemIndex)
where
    E: HashKey<T>,
    S: BuildHasher,
    requires live { IsLive items.now.store ix }
    requires filed { IsSome (finite.get (filed table.old) ix) }
    ensures taken { filed table.new ≡ finite.remove (filed table.old) ix }
    ensures memory { KeepsMemory table.old table.new }
    ensures room { room table.new ≡ room table.old + 1 }
{
    let hash = hash_of::<T, E, S>(state, &items[ix]);
    remove_index(table, hash, ix);
}

/// Files a live index as planned. If it has to move, the hash that it is under is computed unless it is known. It takes
/// no memory.
pub fn commit_move<T, E, S>(
    table: &mut MapHashTable,
    items: &ItemSet<T>,
    state: &S,
    known: Option<MapHash>,
    plan: &Move,
    ix: ItemIndex,
)
where
    E: HashKey<T>,
    S: BuildHasher,
    requires live { IsLive items.now.store ix }
    requires placed { IsInPlace E.key_of (hashing_of E.eq E.hash_input S.BuildHasher S.Hasher.Hasher state.now)
        items.now.store (filed table.old) }
    requires known { AreKnownAt (IsKnownHash E.key_of (hashing_of E.eq E.hash_input S.BuildHasher S.Hasher.Hasher
        state.now)) items.now.store ix known }
    ensures moved { filed table.new ≡ moved (filed table.old) ix plan.now }
    ensures memory { KeepsMemory table.old table.new }
    ensures untouched { IfStays plan.now (table.new ≡ table.old) }
{
    if let Move::To(_) = plan {
        let from = match known {
            Some(hash) => hash,
            None => hash_of::<T, E, S>(state, &items[ix]),
        };
        move_from(table, from, plan, ix);
    }
}

// Files an index as planned, which is under the hash `from`: so the table isn't scanned for it. It takes no memory.
fn move_from(table: &mut MapHashTable, from: MapHash, plan: &Move, ix: ItemIndex)
    requires { finite.get (filed table.old) ix ≡ Some from }
    ensures moved { filed table.new ≡ moved (filed table.old) ix plan.now }
    ensures memory { KeepsMemory table.old table.new }
    ensures untouched { IfStays plan.now (table.new ≡ table.old) }
{
    hashed_move::commit_move(table, from, plan, ix);
}

/// Replaces each index by its new one. It takes no memory.
pub fn remap<T>(table: &mut MapHashTable, remap: &IndexRemap)
    requires { (s : Store T) × Holds s (filed table.old) × IsValid s × IsRemapOf s remap.now }
    ensures renamed { (s : Store T) → Holds s (filed table.old) → IsValid s → IsRemapOf s remap.now →
        Renames (rank s) (filed table.old) (filed table.new) }
    ensures memory { KeepsMemory table.old table.new }
{
    table.remap_indexes(remap);
}

/// Checks the table against the store. The table is sound, so it fails only if memory for a sorted copy of the indexes
/// runs out.
pub fn validate<T>(
    table: &MapHashTable,
    items: &ItemSet<T>,
    compactness: ValidateCompact,
) -> Result<(), ValidateRefusal<ValidationError>>
    requires valid { IsValid items.now.store }
    requires allowed { Allows compactness (length items.now.store.free) }
    requires held { Holds items.now.store (filed table.now) }
    ensures { Validates (Allows compactness (length items.now.store.free)) result }
{
    validate_table("keys", table, items.len(), compactness)
}

/// Whether a table has as many indexes as there are items; for `Compact`, whether they are the numbers from 0 on. An
/// error has the table's name.
pub fn validate_table(
    name: &'static str,
    table: &MapHashTable,
    len: usize,
    compactness: ValidateCompact,
) -> Result<(), ValidateRefusal<ValidationError>>
    ensures validates { Validates (AreAsExpected compactness len (indexes_of (filed table.now))) result }
    ensures named { IfErr result (NamesTable name.entry.now) }
{
    match table.validate(len, compactness) {
        Ok(()) => Ok(()),
        Err(ValidateRefusal::Invalid(error)) => {
            Err(ValidateRefusal::Invalid(ValidationError::Table { name, error }))
        }
        Err(ValidateRefusal::Memory(error)) => Err(ValidateRefusal::Memory(error)),
    }
}
