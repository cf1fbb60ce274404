//! All items with one second key: counted, and removed.
ghost use Rattle.std.specs.Prelude.{◌≡◌, ◌≢◌, Some};
ghost use Rattle.iddqd_codes.specs.declared.TheConstants.{OK};
ghost use Rattle.iddqd_c.specs.Entries.{CountsGroup, RemovesGroup};
ghost use Rattle.iddqd_c.specs.Held.{ChangesKeyed, ReadsKeyed};

use crate::entry::BySecond;
use crate::handle::{CTable, put, take};
use crate::table::Table;
use iddqd_codes::{HANDLE, OK};
use iddqd_map::selection::equal;
use iddqd_ord_map::in_order::InOrder;
use std::alloc::Global;

/// How many items have a second key. It costs a step for each of them.
#[unsafe(no_mangle)]
pub extern "C" fn iddqd_keyed_count(
    t: &mut CTable,
    alloc: Global,
    second: u64,
    count: &mut usize,
) -> u32
    ensures counts { ReadsKeyed (CountsGroup second result count.new) t.old.handle.value result }
    ensures same { t.new.handle.value ≡ t.old.handle.value }
    ensures state { t.new.state ≡ t.old.state }
    ensures closed { t.old.state ≢ 1 → t.new ≡ t.old }
    ensures kept { result ≢ OK → count.new ≡ count.old }
{
    if t.state != 1 {
        return HANDLE;
    }
    let table = take(t, alloc);
    let answer = count_group(table.as_ref(), second, count);
    put(t, table);
    answer
}

fn count_group(table: &Table, second: u64, count: &mut usize) -> u32
    ensures counts { ReadsKeyed (CountsGroup second result count.new) (Some table.now) result }
    ensures kept { result ≢ OK → count.new ≡ count.old }
{
    match table {
        Table::Unique(keyed) => {
            *count = keyed.entries.count_by::<BySecond, _>(&second);
            OK
        }
        Table::Shared(keyed) => {
            *count = keyed.entries.count_by::<BySecond, _>(&second);
            OK
        }
        Table::Index(_) | Table::Layer(_) => HANDLE,
    }
}

/// Removes all items with a second key, and writes how many they were. It takes no memory.
#[unsafe(no_mangle)]
pub extern "C" fn iddqd_keyed_remove_group(
    t: &mut CTable,
    alloc: Global,
    second: u64,
    count: &mut usize,
) -> u32
    ensures removes { ChangesKeyed (RemovesGroup second result count.new)
        t.old.handle.value result t.new.handle.value }
    ensures state { t.new.state ≡ t.old.state }
    ensures closed { t.old.state ≢ 1 → t.new ≡ t.old }
    ensures kept { result ≢ OK → count.new ≡ count.old }
{
    if t.state != 1 {
        return HANDLE;
    }
    let mut table = take(t, alloc);
    let answer = remove_group(table.as_mut(), second, count);
    put(t, table);
    answer
}

fn remove_group(table: &mut Table, second: u64, count: &mut usize) -> u32
    ensures removes { ChangesKeyed (RemovesGroup second result count.new) (Some table.old) result
        (Some table.new) }
    ensures kept { result ≢ OK → count.new ≡ count.old }
{
    match table {
        Table::Unique(keyed) => {
            *count = keyed
                .entries
                .remove_in(equal::<BySecond, _>(&second), |_ix, _entry| ());
            OK
        }
        Table::Shared(keyed) => {
            *count = keyed
                .entries
                .remove_in(equal::<BySecond, _>(&second), |_ix, _entry| ());
            OK
        }
        Table::Index(_) | Table::Layer(_) => HANDLE,
    }
}
