//! What is done to each hash table of a layer, one after the other.
ghost use Rattle.std.specs.Prelude.{◌≡◌, ◌≤◌, ◌<◌, ℕ, All, length, slice_index_or, IfOk, IsSome, None, OnOk};
ghost use Rattle.std.specs.FinMap as finite;
ghost use Rattle.std.specs.List.{AllZip};
ghost use Rattle.iddqd.specs.Compaction.{CanRemap, remapped};
ghost use Rattle.iddqd_hash.specs.HashTable.{Table, room};
ghost use Rattle.iddqd_hash.specs.MapHashTable.{filed, HaveOwnNames};
ghost use Rattle.iddqd_layer.specs.Layer.{Each, EachBy, ForgetsHashed, FreesHashRoom, HasFewCells, HasHashRoom, IsFiled, IsRefiled, IsUnfiled, KeepsHashRoom, KeepsHashRoomTo, RenamesHashed, SameFiled, UsesHashRoom, least_of};

use iddqd::index_remap::IndexRemap;
use iddqd::item_index::ItemIndex;
use iddqd::map_hash::MapHash;
use iddqd_by_hash::hashed::remove_index;
use iddqd_hash::hash_table::MapHashTable;
use std::alloc::{AllocError, Global};

// Empty tables, which take no memory.
pub(crate) fn new_hashed(alloc: Global, count: usize) -> Result<Vec<MapHashTable>, AllocError>
    ensures count { IfOk result (λ tables. length tables.items ≡ count) }
    ensures empty { IfOk result (λ tables. All (λ t. filed t ≡ finite.empty) tables.items) }
{
    let mut tables = Vec::with_capacity(alloc, count)?;
    for i in 0..count {
        tables.push_reserved(MapHashTable::new(alloc));
        let _ = i;
    }
    Ok(tables)
}

// The least room of the tables, or `start` if that is less.
pub(crate) fn least_hashed_room(tables: &[MapHashTable], start: usize) -> usize
    ensures { result ≡ least_of room start tables.now }
{
    let mut least = start;
    for table in tables {
        least = least.min(table.room());
    }
    least
}

// Makes room for `additional` more indexes in each table.
pub(crate) fn reserve_hashed(
    tables: &mut Vec<MapHashTable>,
    additional: usize,
) -> Result<(), AllocError>
    ensures same { Each SameFiled tables.old.items tables.new.items }
    ensures room { OnOk result (Each (HasHashRoom additional) tables.old.items tables.new.items) }
    ensures room_kept { Each KeepsHashRoom tables.old.items tables.new.items }
{
    for i in 0..tables.len() {
        tables[i].try_reserve(additional)?;
    }
    Ok(())
}

// Inserts an index into each table, under its hash there.
pub(crate) fn insert_hashed(tables: &mut Vec<MapHashTable>, hashes: &[u64], ix: ItemIndex)
    requires count { length hashes.now ≡ length tables.old.items }
    requires room { (k : ℕ) (t : Table ℕ) → k < length tables.old.items
        → 1 ≤ room (slice_index_or tables.old.items k t) }
    requires absent { (k : ℕ) (t : Table ℕ) → k < length tables.old.items →
        finite.get (filed (slice_index_or tables.old.items k t)) ix ≡ None }
    ensures filed { EachBy (IsFiled ix) hashes.now tables.old.items tables.new.items }
    ensures room { Each UsesHashRoom tables.old.items tables.new.items }
{
    for i in 0..tables.len() {
        tables[i].insert_prehashed_unchecked(MapHash::new(hashes[i]), ix);
    }
}

// Removes an index from each table: by its hash there, or by a walk if that is wrong or missing.
pub(crate) fn remove_hashed(tables: &mut Vec<MapHashTable>, hashes: &[u64], ix: ItemIndex)
    requires { (k : ℕ) (t : Table ℕ) → k < length tables.old.items →
        IsSome (finite.get (filed (slice_index_or tables.old.items k t)) ix) }
    ensures removed { Each (IsUnfiled ix) tables.old.items tables.new.items }
    ensures room { Each FreesHashRoom tables.old.items tables.new.items }
{
    for i in 0..tables.len() {
        remove_one(&mut tables[i], hashes.get(i), ix);
    }
}

// Removes an index from a table: by its hash there, or by a walk if that is wrong or missing.
fn remove_one(table: &mut MapHashTable, hash: Option<&u64>, ix: ItemIndex)
    requires { IsSome (finite.get (filed table.old) ix) }
    ensures removed { IsUnfiled ix table.old table.new }
    ensures room { FreesHashRoom table.old table.new }
{
    match hash {
        Some(hash) => remove_index(table, MapHash::new(*hash), ix),
        None => table.remove_by_index(ix),
    }
}

// Removes all indexes from each table, and keeps its memory.
pub(crate) fn clear_hashed(tables: &mut Vec<MapHashTable>)
    ensures empty { Each ForgetsHashed tables.old.items tables.new.items }
    ensures room { Each KeepsHashRoom tables.old.items tables.new.items }
{
    for i in 0..tables.len() {
        tables[i].clear();
    }
}

// Gives each index of each table its new name.
pub(crate) fn rename_hashed(tables: &mut Vec<MapHashTable>, remap: &IndexRemap)
    requires can_remap { (k : ℕ) (t : Table ℕ) → k < length tables.old.items →
        (ix : ℕ) → IsSome (finite.get (filed (slice_index_or tables.old.items k t)) ix) → CanRemap remap.now ix }
    requires distinct { (k : ℕ) (t : Table ℕ) → k < length tables.old.items →
        HaveOwnNames (remapped remap.now) (filed (slice_index_or tables.old.items k t)) }
    ensures renamed { Each (RenamesHashed (remapped remap.now)) tables.old.items tables.new.items }
    ensures room { Each KeepsHashRoom tables.old.items tables.new.items }
{
    for i in 0..tables.len() {
        tables[i].remap_indexes(remap);
    }
}

// Files an index of a table under another hash.
pub(crate) fn rehash_one(table: &mut MapHashTable, ix: ItemIndex, from: u64, to: u64)
    requires { IsSome (finite.get (filed table.old) ix) }
    ensures filed { IsRefiled ix to table.old table.new }
    ensures room { room table.new ≡ room table.old }
{
    remove_index(table, MapHash::new(from), ix);
    table.insert_prehashed_unchecked(MapHash::new(to), ix);
}

// Gives back memory of each table that is needed neither for its indexes nor for `least` of them.
pub(crate) fn shrink_hashed(tables: &mut Vec<MapHashTable>, least: usize) -> Result<(), AllocError>
    ensures same { Each SameFiled tables.old.items tables.new.items }
    ensures room { Each (KeepsHashRoomTo least) tables.old.items tables.new.items }
    ensures shrunk { OnOk result (Each (HasFewCells least) tables.old.items tables.new.items) }
{
    for i in 0..tables.len() {
        tables[i].shrink_to(least)?;
    }
    Ok(())
}

// A copy of each table.
pub(crate) fn copy_hashed(
    tables: &[MapHashTable],
    alloc: Global,
) -> Result<Vec<MapHashTable>, AllocError>
    ensures { IfOk result (λ copies. AllZip SameFiled tables.now copies.items) }
{
    let mut copies = Vec::with_capacity(alloc, tables.len())?;
    for table in tables {
        copies.push_reserved(table.clone()?);
    }
    Ok(copies)
}
