//! The steps of a key index whose indexes are linked under their hashes.
//!
//! Each works on a table that has exactly the live indexes. The table keeps the hash of each, so none is computed where
//! an index leaves it.
ghost use Rattle.std.specs.Prelude.{◌≡◌, ◌+◌, ◌<◌, ◌≤◌, min, max, length, IsOk, IsSome, IfErr, OnOk, OnErr};
ghost use Rattle.std.specs.FinMap as finite;
ghost use Rattle.iddqd.specs.{live_count, slot_count, IsValid, Allows, Validates};
ghost use Rattle.iddqd.specs.Compaction.{rank, IsRemapOf};
ghost use Rattle.iddqd.specs.Store.{Store};
ghost use Rattle.iddqd.specs.Validation.{AreAsExpected};
ghost use Rattle.iddqd_hash.specs.MapHashTable.{indexes_of, Renames};
ghost use Rattle.iddqd_keys.specs.Scan.{IsLive};
ghost use Rattle.iddqd_by_hash.specs.Hashed.{Holds};
ghost use Rattle.iddqd_by_hash.specs.HashedMove.{moved};
ghost use Rattle.iddqd_groups.specs.LinkedTable.{KeepsLinkMemory, most_linked, kept_linked};
ghost use Rattle.iddqd_groups.specs.ByHashMulti.{HasSameIndexes, needed_after};
ghost use Rattle.iddqd_map.specs.Validation.{NamesTable};

use crate::linked_table::LinkedTable;
use iddqd::index_remap::IndexRemap;
use iddqd::internal::{ValidateCompact, ValidateRefusal, ValidationError};
use iddqd::item_index::ItemIndex;
use iddqd::item_set::ItemSet;
use iddqd_by_hash::hashed_move::Move;
use std::alloc::AllocError;

/// Makes room for this many indexes more than there are items. Where there is room it takes no memory.
pub fn reserve<T>(
    table: &mut LinkedTable,
    items: &ItemSet<T>,
    additional: usize,
) -> Result<(), AllocError>
    requires { Holds items.now.store table.old.filed }
    ensures contents { HasSameIndexes table.old table.new }
    ensures reserved { OnOk result (live_count items.now.store + additional ≤ table.new.capacity) }
    ensures had_room { live_count items.now.store + additional ≤ table.old.capacity
        → IsOk result × (table.new ≡ table.old) }
    ensures capacity_at_least { table.old.capacity ≤ table.new.capacity }
    ensures few { table.new.memory ≤ table.old.memory + most_linked (live_count items.now.store + additional) }
{
    table.try_reserve(additional)
}

/// Gives back the memory that neither the slots, nor the stored indexes, nor `least` indexes need.
///
/// The memory may have to move to a smaller block, which may be refused.
pub fn shrink_to<T>(
    table: &mut LinkedTable,
    items: &ItemSet<T>,
    least: usize,
) -> Result<(), AllocError>
    requires held { Holds items.now.store table.old.filed }
    requires linked { table.old.slots ≡ slot_count items.now.store }
    ensures contents { HasSameIndexes table.old table.new }
    ensures never_more { table.new.memory ≤ table.old.memory }
    ensures capacity_at_least { min table.old.capacity (max least (live_count items.now.store)) ≤ table.new.capacity }
    ensures shrunk { OnOk result (table.new.memory
        ≤ kept_linked (max least (slot_count items.now.store)) (max least (live_count items.now.store))) }
    ensures refused { OnErr result (max least (live_count items.now.store) < table.new.memory) }
    ensures needed { OnErr result
        (needed_after table.old least (slot_count items.now.store) (live_count items.now.store) < table.new.memory) }
    ensures enough { needed_after table.old least (slot_count items.now.store) (live_count items.now.store)
        ≤ table.new.memory }
    ensures succeeds { kept_linked (max least (slot_count items.now.store)) (max least (live_count items.now.store)) ≡ 0
        → IsOk result }
{
    table.shrink_to(least)
}

/// Gives each index its new name, and leaves a slot for each. It takes no memory.
pub fn remap<T>(table: &mut LinkedTable, remap: &IndexRemap)
    requires { (s : Store T) × Holds s table.old.filed × IsValid s × IsRemapOf s remap.now }
    ensures renamed { (s : Store T) → Holds s table.old.filed → IsValid s → IsRemapOf s remap.now →
        Renames (rank s) table.old.filed table.new.filed }
    ensures memory { KeepsLinkMemory table.old table.new }
    ensures slots { table.new.slots ≡ finite.len table.new.filed }
{
    table.remap_indexes(remap);
}

/// Files a live index as it was planned. It takes no memory.
pub fn commit_move<T>(table: &mut LinkedTable, items: &ItemSet<T>, plan: &Move, ix: ItemIndex)
    requires live { IsLive items.now.store ix }
    requires filed { IsSome (finite.get table.old.filed ix) }
    ensures moved { table.new.filed ≡ moved table.old.filed ix plan.now }
    ensures memory { KeepsLinkMemory table.old table.new }
    ensures slots { table.new.slots ≡ table.old.slots }
{
    if let Move::To(hash) = plan {
        // A live index is below the number of slots, so it isn't `SENTINEL`.
        let _slots = items.slot_count();
        table.remove(ix);
        table.insert(*hash, ix);
    }
}

/// Checks the table against the store. The table is sound, so it fails only where memory for copies of the indexes
/// runs out.
pub fn validate<T>(
    table: &LinkedTable,
    items: &ItemSet<T>,
    compactness: ValidateCompact,
) -> Result<(), ValidateRefusal<ValidationError>>
    requires valid { IsValid items.now.store }
    requires allowed { Allows compactness (length items.now.store.free) }
    requires held { Holds items.now.store table.now.filed }
    ensures { Validates (Allows compactness (length items.now.store.free)) result }
{
    validate_table("keys", table, items.len(), compactness)
}

// Whether a table has as many indexes as there are items; for `Compact`, whether they are those from 0 on. An error has
// the table's name.
fn validate_table(
    name: &'static str,
    table: &LinkedTable,
    len: usize,
    compactness: ValidateCompact,
) -> Result<(), ValidateRefusal<ValidationError>>
    ensures validates { Validates (AreAsExpected compactness len (indexes_of table.now.filed)) result }
    ensures named { IfErr result (NamesTable name.entry.now) }
{
    match table.validate(len, compactness) {
        Ok(()) => Ok(()),
        Err(ValidateRefusal::Invalid(error)) => {
            Err(ValidateRefusal::Invalid(ValidationError::Table { name, error }))
        }
        Err(ValidateRefusal::Memory(error)) => Err(ValidateRefusal::Memory(error)),
    }
}
