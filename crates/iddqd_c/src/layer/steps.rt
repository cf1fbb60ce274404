//! The steps of a search in an ordered key of a layer, which its caller carries out a node at a time.
//!
//! A way is plain data, which the caller keeps between two steps. Each step checks it against the tree as it is then.
//! One that is stale or made up is refused, or leads to some node of the table.
ghost use Rattle.std.specs.Prelude.{◌≡◌, ◌≢◌, ◌<◌, ◌≤◌, Some, length};
ghost use Rattle.iddqd_codes.specs.declared.TheConstants.{OK, SMALL};
ghost use Rattle.iddqd_order.specs.Shape.{most_levels};
ghost use Rattle.iddqd_order.specs.Stepping.{node_level};
ghost use Rattle.iddqd_layer.specs.Layer.{descent_of};
ghost use Rattle.iddqd_c.specs.Held.{ReadsLayer};
ghost use Rattle.iddqd_c.specs.Rows.{CopiesBytes};
ghost use Rattle.iddqd_c.specs.Steps.{EntersRoot, GoesDown, ReadsOrdered, ReadsRow, SaysGap};

use crate::handle::{CTable, put, take};
use crate::table::Table;
use iddqd::item_index::ItemIndex;
use iddqd_codes::{HANDLE, KEY, OK, SMALL, WAY};
use iddqd_layer::way::Way;
use iddqd_order::btree_table::{Descent, MapBTreeTable};
use std::alloc::Global;

/// The root of the table of an ordered key: the way to it, and its row. If the buffer has fewer places than the row has
/// indexes, it writes their number alone.
#[unsafe(no_mangle)]
pub extern "C" fn iddqd_layer_enter(
    t: &mut CTable,
    alloc: Global,
    key: u32,
    way: &mut Way,
    row: &mut [u32],
    count: &mut usize,
) -> u32
    ensures enters { ReadsLayer (ReadsOrdered (EntersRoot way.new result count.new row.old row.new) key result)
        t.old.handle.value result }
    ensures same { t.new.handle.value ≡ t.old.handle.value }
    ensures state { t.new.state ≡ t.old.state }
    ensures closed { t.old.state ≢ 1 → t.new ≡ t.old }
    ensures way_kept { result ≢ OK → way.new ≡ way.old }
    ensures row_kept { result ≢ OK → row.new ≡ row.old }
    ensures count_kept { result ≢ OK → result ≢ SMALL → count.new ≡ count.old }
{
    if t.state != 1 {
        return HANDLE;
    }
    let table = take(t, alloc);
    let answer = enter(table.as_ref(), key, way, row, count);
    put(t, table);
    answer
}

fn enter(table: &Table, key: u32, way: &mut Way, row: &mut [u32], count: &mut usize) -> u32
    ensures enters { ReadsLayer (ReadsOrdered (EntersRoot way.new result count.new row.old row.new) key result)
        (Some table.now) result }
    ensures way_kept { result ≢ OK → way.new ≡ way.old }
    ensures row_kept { result ≢ OK → row.new ≡ row.old }
    ensures count_kept { result ≢ OK → result ≢ SMALL → count.new ≡ count.old }
{
    match table {
        Table::Layer(layer) => match layer.ordered(key as usize) {
            Some(order) => enter_root(order, way, row, count),
            None => KEY,
        },
        Table::Unique(_) | Table::Shared(_) | Table::Index(_) => HANDLE,
    }
}

fn enter_root(order: &MapBTreeTable, way: &mut Way, row: &mut [u32], count: &mut usize) -> u32
    ensures enters { EntersRoot way.new result count.new row.old row.new order.now }
    ensures way_kept { result ≢ OK → way.new ≡ way.old }
    ensures row_kept { result ≢ OK → row.new ≡ row.old }
{
    let root = order.enter();
    let Some(items) = order.row(&root) else {
        unreachable!()
    };
    let answer = copy_row(items, row, count);
    if answer == OK {
        *way = way_to(&root);
    }
    answer
}

/// The row of the node to which a way leads. If the buffer has fewer places than the row has indexes, it writes their
/// number alone.
#[unsafe(no_mangle)]
pub extern "C" fn iddqd_layer_row(
    t: &mut CTable,
    alloc: Global,
    key: u32,
    way: &Way,
    row: &mut [u32],
    count: &mut usize,
) -> u32
    ensures reads { ReadsLayer (ReadsOrdered (ReadsRow way.now result count.new row.old row.new) key result)
        t.old.handle.value result }
    ensures same { t.new.handle.value ≡ t.old.handle.value }
    ensures state { t.new.state ≡ t.old.state }
    ensures closed { t.old.state ≢ 1 → t.new ≡ t.old }
    ensures row_kept { result ≢ OK → row.new ≡ row.old }
    ensures count_kept { result ≢ OK → result ≢ SMALL → count.new ≡ count.old }
{
    if t.state != 1 {
        return HANDLE;
    }
    let table = take(t, alloc);
    let answer = read_row(table.as_ref(), key, way, row, count);
    put(t, table);
    answer
}

fn read_row(table: &Table, key: u32, way: &Way, row: &mut [u32], count: &mut usize) -> u32
    ensures reads { ReadsLayer (ReadsOrdered (ReadsRow way.now result count.new row.old row.new) key result)
        (Some table.now) result }
    ensures row_kept { result ≢ OK → row.new ≡ row.old }
    ensures count_kept { result ≢ OK → result ≢ SMALL → count.new ≡ count.old }
{
    match table {
        Table::Layer(layer) => match layer.ordered(key as usize) {
            Some(order) => row_at(order, way, row, count),
            None => KEY,
        },
        Table::Unique(_) | Table::Shared(_) | Table::Index(_) => HANDLE,
    }
}

fn row_at(order: &MapBTreeTable, way: &Way, row: &mut [u32], count: &mut usize) -> u32
    ensures reads { ReadsRow way.now result count.new row.old row.new order.now }
    ensures row_kept { result ≢ OK → row.new ≡ row.old }
    ensures count_kept { result ≢ OK → result ≢ SMALL → count.new ≡ count.old }
{
    match order.row(&way.descent()) {
        Some(items) => copy_row(items, row, count),
        None => WAY,
    }
}

/// Goes down into the child at a place of the row of the node to which a way leads: the way to it, and its row. If the
/// buffer has fewer places than the row has indexes, it writes their number alone.
#[unsafe(no_mangle)]
pub extern "C" fn iddqd_layer_down(
    t: &mut CTable,
    alloc: Global,
    key: u32,
    way: &mut Way,
    place: u32,
    row: &mut [u32],
    count: &mut usize,
) -> u32
    ensures goes { ReadsLayer (ReadsOrdered (GoesDown way.old place way.new result count.new row.old row.new)
        key result) t.old.handle.value result }
    ensures same { t.new.handle.value ≡ t.old.handle.value }
    ensures state { t.new.state ≡ t.old.state }
    ensures closed { t.old.state ≢ 1 → t.new ≡ t.old }
    ensures way_kept { result ≢ OK → way.new ≡ way.old }
    ensures row_kept { result ≢ OK → row.new ≡ row.old }
    ensures count_kept { result ≢ OK → result ≢ SMALL → count.new ≡ count.old }
{
    if t.state != 1 {
        return HANDLE;
    }
    let table = take(t, alloc);
    let answer = down(table.as_ref(), key, way, place, row, count);
    put(t, table);
    answer
}

fn down(
    table: &Table,
    key: u32,
    way: &mut Way,
    place: u32,
    row: &mut [u32],
    count: &mut usize,
) -> u32
    ensures goes { ReadsLayer (ReadsOrdered (GoesDown way.old place way.new result count.new row.old row.new)
        key result) (Some table.now) result }
    ensures way_kept { result ≢ OK → way.new ≡ way.old }
    ensures row_kept { result ≢ OK → row.new ≡ row.old }
    ensures count_kept { result ≢ OK → result ≢ SMALL → count.new ≡ count.old }
{
    match table {
        Table::Layer(layer) => match layer.ordered(key as usize) {
            Some(order) => enter_child(order, way, place, row, count),
            None => KEY,
        },
        Table::Unique(_) | Table::Shared(_) | Table::Index(_) => HANDLE,
    }
}

fn enter_child(
    order: &MapBTreeTable,
    way: &mut Way,
    place: u32,
    row: &mut [u32],
    count: &mut usize,
) -> u32
    ensures goes { GoesDown way.old place way.new result count.new row.old row.new order.now }
    ensures way_kept { result ≢ OK → way.new ≡ way.old }
    ensures row_kept { result ≢ OK → row.new ≡ row.old }
    ensures count_kept { result ≢ OK → result ≢ SMALL → count.new ≡ count.old }
{
    let mut node = way.descent();
    let Some(items) = order.down_to_row(&mut node, place as usize) else {
        return WAY;
    };
    let answer = copy_row(items, row, count);
    if answer == OK {
        way.places = node.places();
        way.level -= 1;
    }
    answer
}

/// Whether a way leads to a gap of a leaf, where an index can be inserted.
#[unsafe(no_mangle)]
pub extern "C" fn iddqd_layer_gap(t: &mut CTable, alloc: Global, key: u32, way: &Way) -> u32
    ensures says { ReadsLayer (ReadsOrdered (SaysGap way.now result) key result) t.old.handle.value result }
    ensures same { t.new.handle.value ≡ t.old.handle.value }
    ensures state { t.new.state ≡ t.old.state }
    ensures closed { t.old.state ≢ 1 → t.new ≡ t.old }
{
    if t.state != 1 {
        return HANDLE;
    }
    let table = take(t, alloc);
    let answer = gap(table.as_ref(), key, way);
    put(t, table);
    answer
}

fn gap(table: &Table, key: u32, way: &Way) -> u32
    ensures says { ReadsLayer (ReadsOrdered (SaysGap way.now result) key result) (Some table.now) result }
{
    match table {
        Table::Layer(layer) => match layer.ordered(key as usize) {
            Some(order) => gap_at(order, way),
            None => KEY,
        },
        Table::Unique(_) | Table::Shared(_) | Table::Index(_) => HANDLE,
    }
}

fn gap_at(order: &MapBTreeTable, way: &Way) -> u32
    ensures { SaysGap way.now result order.now }
{
    let places = &way.places;
    match order.gap_in(&way.descent(), places[0] as usize) {
        Some(_gap) => OK,
        None => WAY,
    }
}

// The way to a node.
pub(crate) fn way_to(node: &Descent) -> Way
    requires { node_level node.now < most_levels }
    ensures { descent_of result ≡ node.now }
{
    Way {
        places: node.places(),
        level: node.level() as u32,
    }
}

// Copies the indexes of a row as numbers, if the buffer has places for all of them; and writes how many there are.
fn copy_row(items: &[ItemIndex], row: &mut [u32], count: &mut usize) -> u32
    ensures copies { CopiesBytes items.now result count.new row.old row.new }
    ensures kept { result ≢ OK → row.new ≡ row.old }
{
    *count = items.len();
    if row.len() < items.len() {
        return SMALL;
    }
    for at in 0..items.len() {
        row[at] = items[at].as_u32();
    }
    OK
}
