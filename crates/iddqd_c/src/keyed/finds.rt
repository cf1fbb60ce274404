//! Look-ups. They copy no key and take no memory.
ghost use Rattle.std.specs.Prelude.{◌≡◌, ◌≢◌, Some};
ghost use Rattle.iddqd_codes.specs.declared.TheConstants.{OK};
ghost use Rattle.iddqd_c.specs.Entries.{FindsFirst, FindsLeast, FindsSecond, GetsRow};
ghost use Rattle.iddqd_c.specs.Held.{ReadsKeyed};
ghost use Rattle.iddqd_c.specs.Keys.{has_second};

use crate::entry::{ByFirst, Entry, Row};
use crate::handle::{CTable, put, take};
use crate::second_key::SecondKey;
use crate::table::{Keyed, Table};
use iddqd::item_index::ItemIndex;
use iddqd_byte_keys::ByteKeyQuery;
use iddqd_codes::{HANDLE, MISSING, OK};
use iddqd_map::key_index::KeyIndex;
use std::alloc::Global;
use std::hash::RandomState;

/// The row of the item whose first key has these bytes.
#[unsafe(no_mangle)]
pub extern "C" fn iddqd_keyed_find1(t: &mut CTable, alloc: Global, key: &[u8], row: &mut Row) -> u32
    ensures finds { ReadsKeyed (FindsFirst key.now result row.new) t.old.handle.value result }
    ensures same { t.new.handle.value ≡ t.old.handle.value }
    ensures state { t.new.state ≡ t.old.state }
    ensures closed { t.old.state ≢ 1 → t.new ≡ t.old }
    ensures kept { result ≢ OK → row.new ≡ row.old }
{
    if t.state != 1 {
        return HANDLE;
    }
    let table = take(t, alloc);
    let answer = find1(table.as_ref(), key, row);
    put(t, table);
    answer
}

fn find1(table: &Table, key: &[u8], row: &mut Row) -> u32
    ensures finds { ReadsKeyed (FindsFirst key.now result row.new) (Some table.now) result }
    ensures kept { result ≢ OK → row.new ≡ row.old }
{
    match table {
        Table::Unique(keyed) => find_first(keyed, key, row),
        Table::Shared(keyed) => find_first(keyed, key, row),
        Table::Index(_) | Table::Layer(_) => HANDLE,
    }
}

/// Writes the row of the entry whose first key has these bytes, if there is one.
pub(super) fn find_first<B>(keyed: &Keyed<B>, key: &[u8], row: &mut Row) -> u32
where
    B: KeyIndex<Entry, RandomState>,
    ensures finds { FindsFirst key.now result row.new keyed.now.entries }
    ensures kept { result ≢ OK → row.new ≡ row.old }
{
    match keyed
        .entries
        .find_by::<ByFirst, _>(ByteKeyQuery { bytes: key })
    {
        Some(ix) => report(keyed, ix, row),
        None => MISSING,
    }
}

/// The row of the item with this second key; of several, of the one with the least index.
#[unsafe(no_mangle)]
pub extern "C" fn iddqd_keyed_find2(
    t: &mut CTable,
    alloc: Global,
    second: u64,
    row: &mut Row,
) -> u32
    ensures finds { ReadsKeyed (FindsSecond second result row.new) t.old.handle.value result }
    ensures same { t.new.handle.value ≡ t.old.handle.value }
    ensures state { t.new.state ≡ t.old.state }
    ensures closed { t.old.state ≢ 1 → t.new ≡ t.old }
    ensures kept { result ≢ OK → row.new ≡ row.old }
{
    if t.state != 1 {
        return HANDLE;
    }
    let table = take(t, alloc);
    let answer = find2(table.as_ref(), second, row);
    put(t, table);
    answer
}

fn find2(table: &Table, second: u64, row: &mut Row) -> u32
    ensures finds { ReadsKeyed (FindsSecond second result row.new) (Some table.now) result }
    ensures kept { result ≢ OK → row.new ≡ row.old }
{
    match table {
        Table::Unique(keyed) => find_second(keyed, second, row),
        Table::Shared(keyed) => find_second(keyed, second, row),
        Table::Index(_) | Table::Layer(_) => HANDLE,
    }
}

/// Writes the row of the entry with the least index among those that have this second key, if there is one.
pub(super) fn find_second<B: SecondKey>(keyed: &Keyed<B>, second: u64, row: &mut Row) -> u32
    ensures finds { FindsSecond second result row.new keyed.now.entries }
    ensures kept { result ≢ OK → row.new ≡ row.old }
{
    match least(keyed, second) {
        Some(ix) => report(keyed, ix, row),
        None => MISSING,
    }
}

/// The least index of the entries that have this second key.
pub(super) fn least<B: SecondKey>(keyed: &Keyed<B>, second: u64) -> Option<ItemIndex>
    ensures { FindsLeast keyed.now.entries.store (has_second second) result }
{
    let parts = keyed.entries.parts();
    parts.indexes.second.least(parts.items, parts.state, second)
}

/// The row of the item at an index.
#[unsafe(no_mangle)]
pub extern "C" fn iddqd_keyed_get(t: &mut CTable, alloc: Global, index: u32, row: &mut Row) -> u32
    ensures gets { ReadsKeyed (GetsRow index result row.new) t.old.handle.value result }
    ensures same { t.new.handle.value ≡ t.old.handle.value }
    ensures state { t.new.state ≡ t.old.state }
    ensures closed { t.old.state ≢ 1 → t.new ≡ t.old }
    ensures kept { result ≢ OK → row.new ≡ row.old }
{
    if t.state != 1 {
        return HANDLE;
    }
    let table = take(t, alloc);
    let answer = get(table.as_ref(), index, row);
    put(t, table);
    answer
}

fn get(table: &Table, index: u32, row: &mut Row) -> u32
    ensures gets { ReadsKeyed (GetsRow index result row.new) (Some table.now) result }
    ensures kept { result ≢ OK → row.new ≡ row.old }
{
    match table {
        Table::Unique(keyed) => report(keyed, ItemIndex::new(index), row),
        Table::Shared(keyed) => report(keyed, ItemIndex::new(index), row),
        Table::Index(_) | Table::Layer(_) => HANDLE,
    }
}

// Writes the row of the item at the index, if it is live.
fn report<B: KeyIndex<Entry, RandomState>>(keyed: &Keyed<B>, ix: ItemIndex, row: &mut Row) -> u32
    ensures gets { GetsRow ix result row.new keyed.now.entries }
    ensures kept { result ≢ OK → row.new ≡ row.old }
{
    let Some(entry) = keyed.entries.get_at(ix) else {
        return MISSING;
    };
    *row = Row::of(ix, entry);
    OK
}
