//! A layer for C: which indexes are live, and for each key a table of them, for records in the caller's own memory.
//!
//! The caller compares records and computes hashes itself. It gets the indexes under a hash, and goes down an ordered
//! key a node at a time, so no function here calls back. What the caller answers to itself, or passes as a way, a hash
//! or an index, breaks no table: that each table has each live index exactly once is the layer's invariant
//! (`IsPaired`).
ghost use Rattle.std.specs.Prelude.{◌≡◌, ◌≢◌, ◌⊎◌, ◌↔◌, Some};
ghost use Rattle.iddqd_codes.specs.declared.TheConstants.{OK, MEMORY, HANDLE, COUNT};
ghost use Rattle.iddqd_layer.specs.Layer.{IsPaired};
ghost use Rattle.iddqd_c.specs.Held.{HoldsLayer, ReadsLayer};
ghost use Rattle.iddqd_c.specs.Layers.{AreFew, Counts, IsNewLayer, SaysLive, live_indexes, slots_of};

mod changes;
mod compaction;
mod finds;
mod hashes;
mod memory;
mod steps;
mod walks;

use crate::handle::{CTable, make, put, take};
use crate::table::Table;
use iddqd::item_index::ItemIndex;
use iddqd_codes::{COUNT, HANDLE, MEMORY, MISSING, OK};
use iddqd_layer::layer::Layer;
use iddqd_layer::refusal::Refusal;
use std::alloc::Global;

/// Makes an empty layer with this many hashed and ordered keys, at most sixteen of each, where the handle is zero.
#[unsafe(no_mangle)]
pub extern "C" fn iddqd_layer_new(t: &mut CTable, alloc: Global, hashed: u32, ordered: u32) -> u32
    ensures codes { (result ≡ OK) ⊎ (result ≡ COUNT) ⊎ (result ≡ MEMORY) ⊎ (result ≡ HANDLE) }
    ensures handle { (result ≡ HANDLE) ↔ (t.old.state ≢ 0) }
    ensures few { result ≡ OK → AreFew hashed ordered }
    ensures count { result ≡ COUNT → AreFew hashed ordered → ⊥ }
    ensures made { result ≡ OK → HoldsLayer (IsNewLayer hashed ordered) t.new.handle.value }
    ensures open { result ≡ OK → t.new.state ≡ 1 }
    ensures kept { result ≢ OK → t.new ≡ t.old }
{
    if t.state != 0 {
        return HANDLE;
    }
    match Layer::new(alloc, hashed as usize, ordered as usize) {
        Ok(layer) => make(t, alloc, Table::Layer(layer)),
        Err(Refusal::Count) => COUNT,
        Err(_) => MEMORY,
    }
}

/// The number of live indexes.
#[unsafe(no_mangle)]
pub extern "C" fn iddqd_layer_len(t: &mut CTable, alloc: Global, count: &mut usize) -> u32
    ensures counts { ReadsLayer (Counts live_indexes result count.new) t.old.handle.value result }
    ensures paired { ReadsLayer IsPaired t.old.handle.value result }
    ensures same { t.new.handle.value ≡ t.old.handle.value }
    ensures state { t.new.state ≡ t.old.state }
    ensures closed { t.old.state ≢ 1 → t.new ≡ t.old }
    ensures kept { result ≢ OK → count.new ≡ count.old }
{
    if t.state != 1 {
        return HANDLE;
    }
    let table = take(t, alloc);
    let answer = len(table.as_ref(), count);
    put(t, table);
    answer
}

fn len(table: &Table, count: &mut usize) -> u32
    ensures counts { ReadsLayer (Counts live_indexes result count.new) (Some table.now) result }
    ensures paired { ReadsLayer IsPaired (Some table.now) result }
    ensures kept { result ≢ OK → count.new ≡ count.old }
{
    match table {
        Table::Layer(layer) => {
            *count = layer.len();
            OK
        }
        Table::Unique(_) | Table::Shared(_) | Table::Index(_) => HANDLE,
    }
}

/// The number of slots: of the live indexes, and of those that were freed and not given again.
#[unsafe(no_mangle)]
pub extern "C" fn iddqd_layer_slots(t: &mut CTable, alloc: Global, count: &mut usize) -> u32
    ensures counts { ReadsLayer (Counts slots_of result count.new) t.old.handle.value result }
    ensures same { t.new.handle.value ≡ t.old.handle.value }
    ensures state { t.new.state ≡ t.old.state }
    ensures closed { t.old.state ≢ 1 → t.new ≡ t.old }
    ensures kept { result ≢ OK → count.new ≡ count.old }
{
    if t.state != 1 {
        return HANDLE;
    }
    let table = take(t, alloc);
    let answer = slots(table.as_ref(), count);
    put(t, table);
    answer
}

fn slots(table: &Table, count: &mut usize) -> u32
    ensures counts { ReadsLayer (Counts slots_of result count.new) (Some table.now) result }
    ensures kept { result ≢ OK → count.new ≡ count.old }
{
    match table {
        Table::Layer(layer) => {
            *count = layer.slots();
            OK
        }
        Table::Unique(_) | Table::Shared(_) | Table::Index(_) => HANDLE,
    }
}

/// Whether an index is live.
#[unsafe(no_mangle)]
pub extern "C" fn iddqd_layer_is_live(t: &mut CTable, alloc: Global, index: u32) -> u32
    ensures says { ReadsLayer (SaysLive index result) t.old.handle.value result }
    ensures same { t.new.handle.value ≡ t.old.handle.value }
    ensures state { t.new.state ≡ t.old.state }
    ensures closed { t.old.state ≢ 1 → t.new ≡ t.old }
{
    if t.state != 1 {
        return HANDLE;
    }
    let table = take(t, alloc);
    let answer = is_live(table.as_ref(), index);
    put(t, table);
    answer
}

fn is_live(table: &Table, index: u32) -> u32
    ensures says { ReadsLayer (SaysLive index result) (Some table.now) result }
{
    match table {
        Table::Layer(layer) => {
            if layer.is_live(ItemIndex::new(index)) {
                OK
            } else {
                MISSING
            }
        }
        Table::Unique(_) | Table::Shared(_) | Table::Index(_) => HANDLE,
    }
}
