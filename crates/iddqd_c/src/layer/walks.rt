//! The indexes of a layer in order, from a way in either direction, and by number, by buffers.
//!
//! No pointer into the layer is held between two calls. A walk moves its way on, so a caller that passes the same way
//! again goes on where it was.
ghost use Rattle.std.specs.Prelude.{◌≡◌, ◌≢◌, ◌∷◌, ◌+◌, [], Some, IfSome, IsNone};
ghost use Rattle.iddqd_codes.specs.declared.TheConstants.{OK};
ghost use Rattle.iddqd_order.specs.Buffers.{Fills};
ghost use Rattle.iddqd_layer.specs.Layer.{store_of};
ghost use Rattle.iddqd_c.specs.Held.{ReadsLayer};
ghost use Rattle.iddqd_c.specs.Layers.{ListsLive, live_from};
ghost use Rattle.iddqd_c.specs.Steps.{ReadsOrdered, WalksBefore, WalksBehind};

use crate::handle::{CTable, put, take};
use crate::layer::steps::way_to;
use crate::table::Table;
use iddqd::item_index::ItemIndex;
use iddqd_codes::{HANDLE, KEY, OK, WAY};
use iddqd_layer::layer::Layer;
use iddqd_layer::way::Way;
use iddqd_order::btree_table::MapBTreeTable;
use std::alloc::Global;

/// Writes the indexes behind the gap of a way, in order, until the buffer is full; and how many these are. The way then
/// leads behind the last of them.
#[unsafe(no_mangle)]
pub extern "C" fn iddqd_layer_walk(
    t: &mut CTable,
    alloc: Global,
    key: u32,
    way: &mut Way,
    indexes: &mut [u32],
    count: &mut usize,
) -> u32
    ensures walks { ReadsLayer (ReadsOrdered (WalksBehind way.old way.new result count.new indexes.old indexes.new)
        key result) t.old.handle.value result }
    ensures same { t.new.handle.value ≡ t.old.handle.value }
    ensures state { t.new.state ≡ t.old.state }
    ensures closed { t.old.state ≢ 1 → t.new ≡ t.old }
    ensures way_kept { result ≢ OK → way.new ≡ way.old }
    ensures kept { result ≢ OK → (indexes.new ≡ indexes.old) × (count.new ≡ count.old) }
{
    if t.state != 1 {
        return HANDLE;
    }
    let table = take(t, alloc);
    let answer = walk(table.as_ref(), key, way, indexes, count);
    put(t, table);
    answer
}

fn walk(table: &Table, key: u32, way: &mut Way, indexes: &mut [u32], count: &mut usize) -> u32
    ensures walks { ReadsLayer (ReadsOrdered (WalksBehind way.old way.new result count.new indexes.old indexes.new)
        key result) (Some table.now) result }
    ensures way_kept { result ≢ OK → way.new ≡ way.old }
    ensures kept { result ≢ OK → (indexes.new ≡ indexes.old) × (count.new ≡ count.old) }
{
    match table {
        Table::Layer(layer) => match layer.ordered(key as usize) {
            Some(order) => read_behind(order, way, indexes, count),
            None => KEY,
        },
        Table::Unique(_) | Table::Shared(_) | Table::Index(_) => HANDLE,
    }
}

fn read_behind(order: &MapBTreeTable, way: &mut Way, indexes: &mut [u32], count: &mut usize) -> u32
    ensures walks { WalksBehind way.old way.new result count.new indexes.old indexes.new order.now }
    ensures way_kept { result ≢ OK → way.new ≡ way.old }
    ensures kept { result ≢ OK → (indexes.new ≡ indexes.old) × (count.new ≡ count.old) }
{
    let mut leaf = way.descent();
    let places = &way.places;
    match order.read_behind(&mut leaf, places[0] as usize, indexes) {
        Some(read) => {
            *count = read;
            *way = way_to(&leaf);
            OK
        }
        None => WAY,
    }
}

/// Writes the indexes before the gap of a way, from the last one down, until the buffer is full; and how many these
/// are. The way then leads before the last that was written.
#[unsafe(no_mangle)]
pub extern "C" fn iddqd_layer_walk_back(
    t: &mut CTable,
    alloc: Global,
    key: u32,
    way: &mut Way,
    indexes: &mut [u32],
    count: &mut usize,
) -> u32
    ensures walks { ReadsLayer (ReadsOrdered (WalksBefore way.old way.new result count.new indexes.old indexes.new)
        key result) t.old.handle.value result }
    ensures same { t.new.handle.value ≡ t.old.handle.value }
    ensures state { t.new.state ≡ t.old.state }
    ensures closed { t.old.state ≢ 1 → t.new ≡ t.old }
    ensures way_kept { result ≢ OK → way.new ≡ way.old }
    ensures kept { result ≢ OK → (indexes.new ≡ indexes.old) × (count.new ≡ count.old) }
{
    if t.state != 1 {
        return HANDLE;
    }
    let table = take(t, alloc);
    let answer = walk_back(table.as_ref(), key, way, indexes, count);
    put(t, table);
    answer
}

fn walk_back(table: &Table, key: u32, way: &mut Way, indexes: &mut [u32], count: &mut usize) -> u32
    ensures walks { ReadsLayer (ReadsOrdered (WalksBefore way.old way.new result count.new indexes.old indexes.new)
        key result) (Some table.now) result }
    ensures way_kept { result ≢ OK → way.new ≡ way.old }
    ensures kept { result ≢ OK → (indexes.new ≡ indexes.old) × (count.new ≡ count.old) }
{
    match table {
        Table::Layer(layer) => match layer.ordered(key as usize) {
            Some(order) => read_before(order, way, indexes, count),
            None => KEY,
        },
        Table::Unique(_) | Table::Shared(_) | Table::Index(_) => HANDLE,
    }
}

fn read_before(order: &MapBTreeTable, way: &mut Way, indexes: &mut [u32], count: &mut usize) -> u32
    ensures walks { WalksBefore way.old way.new result count.new indexes.old indexes.new order.now }
    ensures way_kept { result ≢ OK → way.new ≡ way.old }
    ensures kept { result ≢ OK → (indexes.new ≡ indexes.old) × (count.new ≡ count.old) }
{
    let mut leaf = way.descent();
    let places = &way.places;
    match order.read_before(&mut leaf, places[0] as usize, indexes) {
        Some(read) => {
            *count = read;
            *way = way_to(&leaf);
            OK
        }
        None => WAY,
    }
}

/// Writes the live indexes that are at least `from`, by number, until the buffer is full; and how many these are.
#[unsafe(no_mangle)]
pub extern "C" fn iddqd_layer_live(
    t: &mut CTable,
    alloc: Global,
    from: u32,
    indexes: &mut [u32],
    count: &mut usize,
) -> u32
    ensures lists { ReadsLayer (ListsLive from result count.new indexes.old indexes.new) t.old.handle.value result }
    ensures same { t.new.handle.value ≡ t.old.handle.value }
    ensures state { t.new.state ≡ t.old.state }
    ensures closed { t.old.state ≢ 1 → t.new ≡ t.old }
    ensures kept { result ≢ OK → (indexes.new ≡ indexes.old) × (count.new ≡ count.old) }
{
    if t.state != 1 {
        return HANDLE;
    }
    let table = take(t, alloc);
    let answer = live(table.as_ref(), from, indexes, count);
    put(t, table);
    answer
}

fn live(table: &Table, from: u32, indexes: &mut [u32], count: &mut usize) -> u32
    ensures lists { ReadsLayer (ListsLive from result count.new indexes.old indexes.new) (Some table.now) result }
    ensures kept { result ≢ OK → (indexes.new ≡ indexes.old) × (count.new ≡ count.old) }
{
    match table {
        Table::Layer(layer) => {
            *count = list_live(layer, from, indexes);
            OK
        }
        Table::Unique(_) | Table::Shared(_) | Table::Index(_) => HANDLE,
    }
}

// Writes the live indexes that are at least `from`, as far as the buffer goes, and returns how many these are.
fn list_live(layer: &Layer, from: u32, indexes: &mut [u32]) -> usize
    ensures { Fills (live_from from (store_of layer.now)) result indexes.old indexes.new }
{
    let mut next = from as usize;
    for at in 0..indexes.len() {
        match next_live(layer, next) {
            Some(ix) => {
                indexes[at] = ix;
                next = ix as usize + 1;
            }
            None => return at,
        }
    }
    indexes.len()
}

// The first live index that is at least `from`.
fn next_live(layer: &Layer, from: usize) -> Option<u32>
    ensures next { IfSome result (λ ix. live_from from (store_of layer.now)
        ≡ ix ∷ live_from (ix + 1) (store_of layer.now)) }
    ensures none { IsNone result → live_from from (store_of layer.now) ≡ [] }
{
    let _live = layer.len();
    for ix in from..layer.slots() {
        let index = ix as u32;
        if layer.is_live(ItemIndex::new(index)) {
            return Some(index);
        }
    }
    None
}
