//! Removals of one item. They copy no key and take no memory.
ghost use Rattle.std.specs.Prelude.{◌≡◌, ◌≢◌, Some};
ghost use Rattle.iddqd_codes.specs.declared.TheConstants.{OK};
ghost use Rattle.iddqd_c.specs.Entries.{RemovesFirst, RemovesSecond, RemovesIndex};
ghost use Rattle.iddqd_c.specs.Held.{ChangesKeyed};

use super::finds::least;
use crate::entry::{ByFirst, Entry, Row};
use crate::handle::{CTable, put, take};
use crate::second_key::SecondKey;
use crate::table::{Keyed, Table};
use iddqd::item_index::ItemIndex;
use iddqd_byte_keys::ByteKeyQuery;
use iddqd_codes::{HANDLE, MISSING, OK};
use iddqd_map::key_index::Changes;
use std::alloc::Global;
use std::hash::RandomState;

/// Removes the item at an index, and writes its row.
#[unsafe(no_mangle)]
pub extern "C" fn iddqd_keyed_remove(
    t: &mut CTable,
    alloc: Global,
    index: u32,
    row: &mut Row,
) -> u32
    ensures removes { ChangesKeyed (RemovesIndex index result row.new) t.old.handle.value result
        t.new.handle.value }
    ensures state { t.new.state ≡ t.old.state }
    ensures closed { t.old.state ≢ 1 → t.new ≡ t.old }
    ensures kept { result ≢ OK → row.new ≡ row.old }
{
    if t.state != 1 {
        return HANDLE;
    }
    let mut table = take(t, alloc);
    let answer = remove(table.as_mut(), index, row);
    put(t, table);
    answer
}

fn remove(table: &mut Table, index: u32, row: &mut Row) -> u32
    ensures removes { ChangesKeyed (RemovesIndex index result row.new) (Some table.old) result (Some table.new) }
    ensures kept { result ≢ OK → row.new ≡ row.old }
{
    match table {
        Table::Unique(keyed) => remove_at(keyed, ItemIndex::new(index), row),
        Table::Shared(keyed) => remove_at(keyed, ItemIndex::new(index), row),
        Table::Index(_) | Table::Layer(_) => HANDLE,
    }
}

fn remove_at<B>(keyed: &mut Keyed<B>, ix: ItemIndex, row: &mut Row) -> u32
where
    B: Changes<Entry, RandomState>,
    ensures removes { RemovesIndex ix result row.new keyed.old.entries keyed.new.entries }
    ensures kept { result ≢ OK → row.new ≡ row.old }
{
    match keyed.entries.remove_at(ix) {
        Some(entry) => {
            *row = Row::of(ix, &entry);
            OK
        }
        None => MISSING,
    }
}

/// Removes the item whose first key has these bytes, and writes its row.
#[unsafe(no_mangle)]
pub extern "C" fn iddqd_keyed_remove1(
    t: &mut CTable,
    alloc: Global,
    key: &[u8],
    row: &mut Row,
) -> u32
    ensures removes { ChangesKeyed (RemovesFirst key.now result row.new) t.old.handle.value result
        t.new.handle.value }
    ensures state { t.new.state ≡ t.old.state }
    ensures closed { t.old.state ≢ 1 → t.new ≡ t.old }
    ensures kept { result ≢ OK → row.new ≡ row.old }
{
    if t.state != 1 {
        return HANDLE;
    }
    let mut table = take(t, alloc);
    let answer = remove1(table.as_mut(), key, row);
    put(t, table);
    answer
}

fn remove1(table: &mut Table, key: &[u8], row: &mut Row) -> u32
    ensures removes { ChangesKeyed (RemovesFirst key.now result row.new) (Some table.old) result
        (Some table.new) }
    ensures kept { result ≢ OK → row.new ≡ row.old }
{
    match table {
        Table::Unique(keyed) => remove_first(keyed, key, row),
        Table::Shared(keyed) => remove_first(keyed, key, row),
        Table::Index(_) | Table::Layer(_) => HANDLE,
    }
}

fn remove_first<B>(keyed: &mut Keyed<B>, key: &[u8], row: &mut Row) -> u32
where
    B: Changes<Entry, RandomState>,
    ensures removes { RemovesFirst key.now result row.new keyed.old.entries keyed.new.entries }
    ensures kept { result ≢ OK → row.new ≡ row.old }
{
    match keyed
        .entries
        .remove_full_by::<ByFirst, _>(ByteKeyQuery { bytes: key })
    {
        Some((ix, entry)) => {
            *row = Row::of(ix, &entry);
            OK
        }
        None => MISSING,
    }
}

/// Removes the item with this second key, of several the one with the least index, and writes its row.
#[unsafe(no_mangle)]
pub extern "C" fn iddqd_keyed_remove2(
    t: &mut CTable,
    alloc: Global,
    second: u64,
    row: &mut Row,
) -> u32
    ensures removes { ChangesKeyed (RemovesSecond second result row.new) t.old.handle.value result
        t.new.handle.value }
    ensures state { t.new.state ≡ t.old.state }
    ensures closed { t.old.state ≢ 1 → t.new ≡ t.old }
    ensures kept { result ≢ OK → row.new ≡ row.old }
{
    if t.state != 1 {
        return HANDLE;
    }
    let mut table = take(t, alloc);
    let answer = remove2(table.as_mut(), second, row);
    put(t, table);
    answer
}

fn remove2(table: &mut Table, second: u64, row: &mut Row) -> u32
    ensures removes { ChangesKeyed (RemovesSecond second result row.new) (Some table.old) result
        (Some table.new) }
    ensures kept { result ≢ OK → row.new ≡ row.old }
{
    match table {
        Table::Unique(keyed) => remove_second(keyed, second, row),
        Table::Shared(keyed) => remove_second(keyed, second, row),
        Table::Index(_) | Table::Layer(_) => HANDLE,
    }
}

fn remove_second<B: SecondKey>(keyed: &mut Keyed<B>, second: u64, row: &mut Row) -> u32
    ensures removes { RemovesSecond second result row.new keyed.old.entries keyed.new.entries }
    ensures kept { result ≢ OK → row.new ≡ row.old }
{
    match least(keyed, second) {
        Some(ix) => remove_at(keyed, ix, row),
        None => MISSING,
    }
}
