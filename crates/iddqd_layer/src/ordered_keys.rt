//! What is done to each ordered table of a layer, one after the other.
ghost use Rattle.std.specs.Prelude.{◌≡◌, ◌≢◌, ◌↔◌, ◌≤◌, ◌<◌, ℕ, [], All, length, slice_index_or, IfOk, IsTrue, OnOk};
ghost use Rattle.std.specs.List.{AllZip, Contains};
ghost use Rattle.iddqd.specs.Compaction.{CanRemap, remapped};
ghost use Rattle.iddqd.specs.Store.{sentinel};
ghost use Rattle.iddqd_order.specs.MapBTreeTable.{Order, HasSameTree, order_of, room};
ghost use Rattle.iddqd_layer.specs.Layer.{Each, EachBy, ForgetsOrdered, HasOrderRoom, IsPlaced, IsTakenOut, KeepsCapacity, LeadsToGap, RenamesOrdered, SameCapacity, SameOrder, ShrinksOrdered, least_of};

use crate::way::Way;
use iddqd::index_remap::IndexRemap;
use iddqd::item_index::ItemIndex;
use iddqd_order::btree_table::MapBTreeTable;
use std::alloc::{AllocError, Global};

// Empty tables, which take no memory.
pub(crate) fn new_ordered(alloc: Global, count: usize) -> Result<Vec<MapBTreeTable>, AllocError>
    ensures count { IfOk result (λ tables. length tables.items ≡ count) }
    ensures empty { IfOk result (λ tables. All (λ t. order_of t ≡ []) tables.items) }
{
    let mut tables = Vec::with_capacity(alloc, count)?;
    for i in 0..count {
        tables.push_reserved(MapBTreeTable::new(alloc));
        let _ = i;
    }
    Ok(tables)
}

// The least room of the tables, or `start` if that is less.
pub(crate) fn least_ordered_room(tables: &[MapBTreeTable], start: usize) -> usize
    ensures { result ≡ least_of room start tables.now }
{
    let mut least = start;
    for table in tables {
        least = least.min(table.room());
    }
    least
}

// Whether each way leads to a gap of its table.
pub(crate) fn lead_to_gaps(tables: &[MapBTreeTable], ways: &[Way]) -> bool
    requires { length ways.now ≡ length tables.now }
    ensures { IsTrue result ↔ Each LeadsToGap tables.now ways.now }
{
    for i in 0..tables.len() {
        let way = &ways[i];
        let Some(_gap) = tables[i].gap_in(&way.descent(), way.place()) else {
            return false;
        };
    }
    true
}

// Makes room for `additional` more indexes in each table.
pub(crate) fn reserve_ordered(
    tables: &mut Vec<MapBTreeTable>,
    additional: usize,
) -> Result<(), AllocError>
    ensures same { Each HasSameTree tables.old.items tables.new.items }
    ensures room { OnOk result (Each (HasOrderRoom additional) tables.old.items tables.new.items) }
    ensures memory { Each KeepsCapacity tables.old.items tables.new.items }
{
    for i in 0..tables.len() {
        tables[i].try_reserve(additional)?;
    }
    Ok(())
}

// Inserts an index into each table, at the gap to which its way leads.
pub(crate) fn insert_ordered(tables: &mut Vec<MapBTreeTable>, ways: &[Way], ix: ItemIndex)
    requires ways { Each LeadsToGap tables.old.items ways.now }
    requires room { (k : ℕ) (t : Order) → k < length tables.old.items →
        1 ≤ room (slice_index_or tables.old.items k t) }
    requires absent { (k : ℕ) (t : Order) → k < length tables.old.items →
        Contains (order_of (slice_index_or tables.old.items k t)) ix → ⊥ }
    requires assigned { ix ≢ sentinel }
    ensures placed { EachBy (IsPlaced ix) ways.now tables.old.items tables.new.items }
    ensures memory { Each SameCapacity tables.old.items tables.new.items }
{
    for i in 0..tables.len() {
        insert_one(&mut tables[i], &ways[i], ix);
    }
}

// Inserts an index into a table, at the gap to which the way leads.
fn insert_one(table: &mut MapBTreeTable, way: &Way, ix: ItemIndex)
    requires way { LeadsToGap table.old way.now }
    requires room { 1 ≤ room table.old }
    requires absent { Contains (order_of table.old) ix → ⊥ }
    requires assigned { ix ≢ sentinel }
    ensures placed { IsPlaced ix way.now table.old table.new }
    ensures memory { SameCapacity table.old table.new }
{
    match table.gap_in(&way.descent(), way.place()) {
        Some(gap) => {
            let none = table.no_blocks();
            table.insert_in(&gap, ix, none);
        }
        None => unreachable!(),
    }
}

// Removes an index from each table: where its way leads, or by a walk if that is wrong or missing.
pub(crate) fn remove_ordered(tables: &mut Vec<MapBTreeTable>, ways: &[Way], ix: ItemIndex)
    ensures removed { Each (IsTakenOut ix) tables.old.items tables.new.items }
    ensures memory { Each SameCapacity tables.old.items tables.new.items }
{
    for i in 0..tables.len() {
        remove_one(&mut tables[i], ways.get(i), ix);
    }
}

// Removes an index from a table: where its way leads, or by a walk if that is wrong or missing.
fn remove_one(table: &mut MapBTreeTable, way: Option<&Way>, ix: ItemIndex)
    ensures removed { IsTakenOut ix table.old table.new }
    ensures memory { SameCapacity table.old table.new }
{
    match way {
        Some(way) => table.remove_hinted(ix, &way.descent(), way.place_at_level()),
        None => table.remove_exact(ix),
    }
}

// Removes all indexes from each table, and keeps its memory.
pub(crate) fn clear_ordered(tables: &mut Vec<MapBTreeTable>)
    ensures empty { Each ForgetsOrdered tables.old.items tables.new.items }
    ensures memory { Each SameCapacity tables.old.items tables.new.items }
{
    for i in 0..tables.len() {
        tables[i].clear();
    }
}

// Gives each index of each table its new name.
pub(crate) fn rename_ordered(tables: &mut Vec<MapBTreeTable>, remap: &IndexRemap)
    requires can_remap { (k : ℕ) (t : Order) → k < length tables.old.items →
        (ix : ℕ) → Contains (order_of (slice_index_or tables.old.items k t)) ix → CanRemap remap.now ix }
    requires distinct { (k : ℕ) (t : Order) → k < length tables.old.items →
        (i j : ℕ) → Contains (order_of (slice_index_or tables.old.items k t)) i →
        Contains (order_of (slice_index_or tables.old.items k t)) j →
        remapped remap.now i ≡ remapped remap.now j → i ≡ j }
    ensures renamed { Each (RenamesOrdered (remapped remap.now)) tables.old.items tables.new.items }
    ensures memory { Each SameCapacity tables.old.items tables.new.items }
{
    for i in 0..tables.len() {
        tables[i].remap_indexes(remap);
    }
}

// Gives back memory of each table that is needed neither for its indexes nor for `least` of them.
pub(crate) fn shrink_ordered(tables: &mut Vec<MapBTreeTable>, least: usize)
    ensures { Each (ShrinksOrdered least) tables.old.items tables.new.items }
{
    for i in 0..tables.len() {
        tables[i].shrink_to(least);
    }
}

// A copy of each table, which reserves nothing.
pub(crate) fn copy_ordered(
    tables: &[MapBTreeTable],
    alloc: Global,
) -> Result<Vec<MapBTreeTable>, AllocError>
    ensures { IfOk result (λ copies. AllZip SameOrder tables.now copies.items) }
{
    let mut copies = Vec::with_capacity(alloc, tables.len())?;
    for table in tables {
        copies.push_reserved(table.clone()?);
    }
    Ok(copies)
}
