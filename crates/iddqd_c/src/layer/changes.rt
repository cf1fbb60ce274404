//! Inserts and removals of indexes.
ghost use Rattle.std.specs.Prelude.{◌≡◌, ◌≢◌, Some};
ghost use Rattle.iddqd_codes.specs.declared.TheConstants.{OK};
ghost use Rattle.iddqd_c.specs.Held.{ChangesLayer};
ghost use Rattle.iddqd_c.specs.Layers.{InsertsIndex, Rehashes, RemovesIndex};

use crate::handle::{CTable, put, take};
use crate::layer::hashes::mix_each;
use crate::numbers::mix;
use crate::table::Table;
use iddqd::item_index::ItemIndex;
use iddqd_codes::{COUNT, FULL, HANDLE, KEY, MEMORY, MISSING, OK, WAY};
use iddqd_layer::layer::{Layer, MOST_KEYS};
use iddqd_layer::refusal::Refusal;
use iddqd_layer::way::Way;
use std::alloc::Global;

/// Draws the next index, and inserts it into the table of each hashed key under its hash, and into that of each ordered
/// key at the gap to which its way leads.
#[unsafe(no_mangle)]
pub extern "C" fn iddqd_layer_insert(
    t: &mut CTable,
    alloc: Global,
    hashes: &[u64],
    ways: &[Way],
    index: &mut u32,
) -> u32
    ensures inserts { ChangesLayer (InsertsIndex hashes.now ways.now result index.new)
        t.old.handle.value result t.new.handle.value }
    ensures state { t.new.state ≡ t.old.state }
    ensures closed { t.old.state ≢ 1 → t.new ≡ t.old }
    ensures kept { result ≢ OK → index.new ≡ index.old }
{
    if t.state != 1 {
        return HANDLE;
    }
    let mut table = take(t, alloc);
    let answer = insert(table.as_mut(), hashes, ways, index);
    put(t, table);
    answer
}

fn insert(table: &mut Table, hashes: &[u64], ways: &[Way], index: &mut u32) -> u32
    ensures inserts { ChangesLayer (InsertsIndex hashes.now ways.now result index.new)
        (Some table.old) result (Some table.new) }
    ensures kept { result ≢ OK → index.new ≡ index.old }
{
    match table {
        Table::Layer(layer) => insert_in(layer, hashes, ways, index),
        Table::Unique(_) | Table::Shared(_) | Table::Index(_) => HANDLE,
    }
}

fn insert_in(layer: &mut Layer, hashes: &[u64], ways: &[Way], index: &mut u32) -> u32
    ensures inserts { InsertsIndex hashes.now ways.now result index.new layer.old layer.new }
    ensures kept { result ≢ OK → index.new ≡ index.old }
{
    let mut mixed = [0; MOST_KEYS];
    if hashes.len() > MOST_KEYS {
        return COUNT;
    }
    mix_each(hashes, &mut mixed);
    match layer.insert(&mixed[..hashes.len()], ways) {
        Ok(ix) => {
            *index = ix.as_u32();
            OK
        }
        Err(Refusal::Count) => COUNT,
        Err(Refusal::Way) => WAY,
        Err(Refusal::Full) => FULL,
        Err(Refusal::Memory) => MEMORY,
    }
}

/// Removes an index, if it is live, from each table. The hashes and ways say where it stands; where one is wrong or
/// missing, the table is walked.
#[unsafe(no_mangle)]
pub extern "C" fn iddqd_layer_remove(
    t: &mut CTable,
    alloc: Global,
    index: u32,
    hashes: &[u64],
    ways: &[Way],
) -> u32
    ensures removes { ChangesLayer (RemovesIndex index result) t.old.handle.value result t.new.handle.value }
    ensures state { t.new.state ≡ t.old.state }
    ensures closed { t.old.state ≢ 1 → t.new ≡ t.old }
{
    if t.state != 1 {
        return HANDLE;
    }
    let mut table = take(t, alloc);
    let answer = remove(table.as_mut(), index, hashes, ways);
    put(t, table);
    answer
}

fn remove(table: &mut Table, index: u32, hashes: &[u64], ways: &[Way]) -> u32
    ensures removes { ChangesLayer (RemovesIndex index result) (Some table.old) result (Some table.new) }
{
    match table {
        Table::Layer(layer) => remove_from(layer, index, hashes, ways),
        Table::Unique(_) | Table::Shared(_) | Table::Index(_) => HANDLE,
    }
}

fn remove_from(layer: &mut Layer, index: u32, hashes: &[u64], ways: &[Way]) -> u32
    ensures { RemovesIndex index result layer.old layer.new }
{
    let mut mixed = [0; MOST_KEYS];
    let known = hashes.len().min(MOST_KEYS);
    mix_each(&hashes[..known], &mut mixed);
    if layer.remove(ItemIndex::new(index), &mixed[..known], ways) {
        OK
    } else {
        MISSING
    }
}

/// Files a live index under another hash in the table of one hashed key, for a record whose key changed. `from` is the
/// hash that it was filed under; where that is wrong, the table is walked.
#[unsafe(no_mangle)]
pub extern "C" fn iddqd_layer_rehash(
    t: &mut CTable,
    alloc: Global,
    index: u32,
    key: u32,
    from: u64,
    to: u64,
) -> u32
    ensures rehashes { ChangesLayer (Rehashes index key to result) t.old.handle.value result t.new.handle.value }
    ensures state { t.new.state ≡ t.old.state }
    ensures closed { t.old.state ≢ 1 → t.new ≡ t.old }
{
    if t.state != 1 {
        return HANDLE;
    }
    let mut table = take(t, alloc);
    let answer = rehash(table.as_mut(), index, key, from, to);
    put(t, table);
    answer
}

fn rehash(table: &mut Table, index: u32, key: u32, from: u64, to: u64) -> u32
    ensures rehashes { ChangesLayer (Rehashes index key to result) (Some table.old) result (Some table.new) }
{
    match table {
        Table::Layer(layer) => rehash_in(layer, index, key, from, to),
        Table::Unique(_) | Table::Shared(_) | Table::Index(_) => HANDLE,
    }
}

fn rehash_in(layer: &mut Layer, index: u32, key: u32, from: u64, to: u64) -> u32
    ensures { Rehashes index key to result layer.old layer.new }
{
    if layer.hashed(key as usize).is_none() {
        return KEY;
    }
    if layer.rehash(ItemIndex::new(index), key as usize, mix(from), mix(to)) {
        OK
    } else {
        MISSING
    }
}
