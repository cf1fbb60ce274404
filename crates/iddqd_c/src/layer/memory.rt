//! Memory that is taken before it is needed, given back, or kept; and copies.
ghost use Rattle.std.specs.Prelude.{◌≡◌, ◌≢◌, Some};
ghost use Rattle.iddqd_codes.specs.declared.TheConstants.{OK};
ghost use Rattle.iddqd_layer.specs.Layer.{room};
ghost use Rattle.iddqd_c.specs.Held.{ChangesLayer, ReadsLayer};
ghost use Rattle.iddqd_c.specs.Layers.{ClearsLayer, CopiesLayer, Counts, ReservesIndexes, ShrinksLayer};

use crate::handle::{CTable, make, put, take};
use crate::table::Table;
use iddqd_codes::{HANDLE, MEMORY, OK};
use iddqd_layer::layer::Layer;
use std::alloc::{AllocError, Global};

/// Makes room for so many more indexes in each table, or for as many as there can be.
#[unsafe(no_mangle)]
pub extern "C" fn iddqd_layer_reserve(t: &mut CTable, alloc: Global, additional: usize) -> u32
    ensures reserves { ChangesLayer (ReservesIndexes additional result) t.old.handle.value result t.new.handle.value }
    ensures state { t.new.state ≡ t.old.state }
    ensures closed { t.old.state ≢ 1 → t.new ≡ t.old }
{
    if t.state != 1 {
        return HANDLE;
    }
    let mut table = take(t, alloc);
    let answer = reserve(table.as_mut(), additional);
    put(t, table);
    answer
}

fn reserve(table: &mut Table, additional: usize) -> u32
    ensures reserves { ChangesLayer (ReservesIndexes additional result) (Some table.old) result (Some table.new) }
{
    match table {
        Table::Layer(layer) => reserve_in(layer, additional),
        Table::Unique(_) | Table::Shared(_) | Table::Index(_) => HANDLE,
    }
}

fn reserve_in(layer: &mut Layer, additional: usize) -> u32
    ensures { ReservesIndexes additional result layer.old layer.new }
{
    match layer.reserve(additional) {
        Ok(()) => OK,
        Err(AllocError) => MEMORY,
    }
}

/// How many inserts need no memory.
#[unsafe(no_mangle)]
pub extern "C" fn iddqd_layer_room(t: &mut CTable, alloc: Global, count: &mut usize) -> u32
    ensures counts { ReadsLayer (Counts room result count.new) t.old.handle.value result }
    ensures same { t.new.handle.value ≡ t.old.handle.value }
    ensures state { t.new.state ≡ t.old.state }
    ensures closed { t.old.state ≢ 1 → t.new ≡ t.old }
    ensures kept { result ≢ OK → count.new ≡ count.old }
{
    if t.state != 1 {
        return HANDLE;
    }
    let table = take(t, alloc);
    let answer = room_in(table.as_ref(), count);
    put(t, table);
    answer
}

fn room_in(table: &Table, count: &mut usize) -> u32
    ensures counts { ReadsLayer (Counts room result count.new) (Some table.now) result }
    ensures kept { result ≢ OK → count.new ≡ count.old }
{
    match table {
        Table::Layer(layer) => {
            *count = layer.room();
            OK
        }
        Table::Unique(_) | Table::Shared(_) | Table::Index(_) => HANDLE,
    }
}

/// Gives back memory that is needed neither for the slots and indexes that there are nor for `least` of them.
#[unsafe(no_mangle)]
pub extern "C" fn iddqd_layer_shrink_to(t: &mut CTable, alloc: Global, least: usize) -> u32
    ensures shrinks { ChangesLayer (ShrinksLayer least result) t.old.handle.value result t.new.handle.value }
    ensures state { t.new.state ≡ t.old.state }
    ensures closed { t.old.state ≢ 1 → t.new ≡ t.old }
{
    if t.state != 1 {
        return HANDLE;
    }
    let mut table = take(t, alloc);
    let answer = shrink(table.as_mut(), least);
    put(t, table);
    answer
}

fn shrink(table: &mut Table, least: usize) -> u32
    ensures shrinks { ChangesLayer (ShrinksLayer least result) (Some table.old) result (Some table.new) }
{
    match table {
        Table::Layer(layer) => shrink_in(layer, least),
        Table::Unique(_) | Table::Shared(_) | Table::Index(_) => HANDLE,
    }
}

fn shrink_in(layer: &mut Layer, least: usize) -> u32
    ensures { ShrinksLayer least result layer.old layer.new }
{
    match layer.shrink_to(least) {
        Ok(()) => OK,
        Err(AllocError) => MEMORY,
    }
}

/// Forgets all indexes and all slots, so that the next index is 0. The memory stays.
#[unsafe(no_mangle)]
pub extern "C" fn iddqd_layer_clear(t: &mut CTable, alloc: Global) -> u32
    ensures clears { ChangesLayer (ClearsLayer result) t.old.handle.value result t.new.handle.value }
    ensures state { t.new.state ≡ t.old.state }
    ensures closed { t.old.state ≢ 1 → t.new ≡ t.old }
{
    if t.state != 1 {
        return HANDLE;
    }
    let mut table = take(t, alloc);
    let answer = clear(table.as_mut());
    put(t, table);
    answer
}

fn clear(table: &mut Table) -> u32
    ensures clears { ChangesLayer (ClearsLayer result) (Some table.old) result (Some table.new) }
{
    match table {
        Table::Layer(layer) => {
            layer.clear();
            OK
        }
        Table::Unique(_) | Table::Shared(_) | Table::Index(_) => HANDLE,
    }
}

/// Makes a copy of a layer, where the other handle is zero. If memory runs out, nothing is left of it.
#[unsafe(no_mangle)]
pub extern "C" fn iddqd_layer_clone(t: &mut CTable, alloc: Global, copy: &mut CTable) -> u32
    ensures copies { ReadsLayer (CopiesLayer result copy.old.state copy.new.handle.value) t.old.handle.value result }
    ensures open { result ≡ OK → copy.new.state ≡ 1 }
    ensures same { t.new.handle.value ≡ t.old.handle.value }
    ensures state { t.new.state ≡ t.old.state }
    ensures closed { t.old.state ≢ 1 → t.new ≡ t.old }
    ensures kept { result ≢ OK → copy.new ≡ copy.old }
{
    if t.state != 1 {
        return HANDLE;
    }
    let table = take(t, alloc);
    let answer = copy_to(table.as_ref(), alloc, copy);
    put(t, table);
    answer
}

fn copy_to(table: &Table, alloc: Global, copy: &mut CTable) -> u32
    ensures copies { ReadsLayer (CopiesLayer result copy.old.state copy.new.handle.value) (Some table.now) result }
    ensures open { result ≡ OK → copy.new.state ≡ 1 }
    ensures kept { result ≢ OK → copy.new ≡ copy.old }
{
    match table {
        Table::Layer(layer) => copy_layer(layer, alloc, copy),
        Table::Unique(_) | Table::Shared(_) | Table::Index(_) => HANDLE,
    }
}

fn copy_layer(layer: &Layer, alloc: Global, copy: &mut CTable) -> u32
    ensures copies { CopiesLayer result copy.old.state copy.new.handle.value layer.now }
    ensures open { result ≡ OK → copy.new.state ≡ 1 }
    ensures kept { result ≢ OK → copy.new ≡ copy.old }
{
    if copy.state != 0 {
        return HANDLE;
    }
    match layer.clone() {
        Ok(made) => make(copy, alloc, Table::Layer(made)),
        Err(AllocError) => MEMORY,
    }
}
