//! Numbers under hashes, for C: the layer itself, without items.
//!
//! A caller keeps records of any type in memory of its own, and computes their hashes. It gets the numbers under a hash
//! and compares their records itself, so no function here calls back.
ghost use Rattle.std.specs.Prelude.{◌≡◌, ◌≢◌, ◌⊎◌, ◌↔◌, ◌<◌, ◌≤◌, Some, length, slice_set};
ghost use Rattle.iddqd_codes.specs.declared.TheConstants.{OK, MEMORY, HANDLE};
ghost use Rattle.iddqd_c.specs.Held.{ReadsIndex, ChangesIndex, HoldsIndex};
ghost use Rattle.iddqd_c.specs.Numbers.{IsNew, Files, Unfiles, ListsUnder, CountsPairs, ClearsPairs};

use crate::handle::{CTable, make, put, take};
use crate::numbers::Numbers;
use crate::table::Table;
use iddqd_codes::{HANDLE, OK};
use std::alloc::Global;

/// Makes an empty index, where the handle is zero.
#[unsafe(no_mangle)]
pub extern "C" fn iddqd_index_new(t: &mut CTable, alloc: Global) -> u32
    ensures codes { (result ≡ OK) ⊎ (result ≡ MEMORY) ⊎ (result ≡ HANDLE) }
    ensures handle { (result ≡ HANDLE) ↔ (t.old.state ≢ 0) }
    ensures made { result ≡ OK → HoldsIndex IsNew t.new.handle.value }
    ensures open { result ≡ OK → t.new.state ≡ 1 }
    ensures kept { result ≢ OK → t.new ≡ t.old }
{
    make(t, alloc, Table::Index(Numbers::new(alloc)))
}

/// Files a number under a hash. It doesn't ask whether it is filed there already.
#[unsafe(no_mangle)]
pub extern "C" fn iddqd_index_insert(t: &mut CTable, alloc: Global, hash: u64, number: u32) -> u32
    ensures files { ChangesIndex (Files hash number result) t.old.handle.value result t.new.handle.value }
    ensures state { t.new.state ≡ t.old.state }
    ensures closed { t.old.state ≢ 1 → t.new ≡ t.old }
{
    if t.state != 1 {
        return HANDLE;
    }
    let mut table = take(t, alloc);
    let answer = insert(table.as_mut(), hash, number);
    put(t, table);
    answer
}

fn insert(table: &mut Table, hash: u64, number: u32) -> u32
    ensures files { ChangesIndex (Files hash number result) (Some table.old) result (Some table.new) }
{
    match table {
        Table::Index(numbers) => numbers.file(hash, number),
        Table::Unique(_) | Table::Shared(_) | Table::Layer(_) => HANDLE,
    }
}

/// Removes a number that is filed under a hash, once.
#[unsafe(no_mangle)]
pub extern "C" fn iddqd_index_remove(t: &mut CTable, alloc: Global, hash: u64, number: u32) -> u32
    ensures unfiles { ChangesIndex (Unfiles hash number result) t.old.handle.value result t.new.handle.value }
    ensures state { t.new.state ≡ t.old.state }
    ensures closed { t.old.state ≢ 1 → t.new ≡ t.old }
{
    if t.state != 1 {
        return HANDLE;
    }
    let mut table = take(t, alloc);
    let answer = remove(table.as_mut(), hash, number);
    put(t, table);
    answer
}

fn remove(table: &mut Table, hash: u64, number: u32) -> u32
    ensures unfiles { ChangesIndex (Unfiles hash number result) (Some table.old) result (Some table.new) }
{
    match table {
        Table::Index(numbers) => numbers.unfile(hash, number),
        Table::Unique(_) | Table::Shared(_) | Table::Layer(_) => HANDLE,
    }
}

/// Writes the numbers under a hash until the buffer is full; and how many there are, also past the buffer.
#[unsafe(no_mangle)]
pub extern "C" fn iddqd_index_under(
    t: &mut CTable,
    alloc: Global,
    hash: u64,
    numbers: &mut [u32],
    count: &mut usize,
) -> u32
    ensures lists { ReadsIndex (ListsUnder hash result count.new numbers.old numbers.new)
        t.old.handle.value result }
    ensures same { t.new.handle.value ≡ t.old.handle.value }
    ensures state { t.new.state ≡ t.old.state }
    ensures closed { t.old.state ≢ 1 → t.new ≡ t.old }
    ensures kept { result ≢ OK → (numbers.new ≡ numbers.old) × (count.new ≡ count.old) }
{
    if t.state != 1 {
        return HANDLE;
    }
    let table = take(t, alloc);
    let answer = under(table.as_ref(), hash, numbers, count);
    put(t, table);
    answer
}

fn under(table: &Table, hash: u64, numbers: &mut [u32], count: &mut usize) -> u32
    ensures lists { ReadsIndex (ListsUnder hash result count.new numbers.old numbers.new)
        (Some table.now) result }
    ensures kept { result ≢ OK → (numbers.new ≡ numbers.old) × (count.new ≡ count.old) }
{
    match table {
        Table::Index(filed) => {
            *count = list(filed, hash, numbers);
            OK
        }
        Table::Unique(_) | Table::Shared(_) | Table::Layer(_) => HANDLE,
    }
}

// Writes the numbers under a hash as far as the buffer goes, and returns how many there are.
fn list(filed: &Numbers, hash: u64, numbers: &mut [u32]) -> usize
    ensures { ListsUnder hash OK result numbers.old numbers.new filed.now }
{
    let mut found = filed.under(hash);
    for at in 0..filed.len() {
        match found.next() {
            Some(number) => write(numbers, at, *number),
            None => return at,
        }
    }
    filed.len()
}

// Writes a number to a place of a buffer, if it has that place.
pub(crate) fn write(numbers: &mut [u32], at: usize, number: u32)
    ensures inside { at < length numbers.old → numbers.new ≡ slice_set numbers.old at number }
    ensures outside { length numbers.old ≤ at → numbers.new ≡ numbers.old }
{
    if at < numbers.len() {
        numbers[at] = number;
    }
}

/// How many pairs of a hash and a number are filed.
#[unsafe(no_mangle)]
pub extern "C" fn iddqd_index_len(t: &mut CTable, alloc: Global, count: &mut usize) -> u32
    ensures counts { ReadsIndex (CountsPairs result count.new) t.old.handle.value result }
    ensures same { t.new.handle.value ≡ t.old.handle.value }
    ensures state { t.new.state ≡ t.old.state }
    ensures closed { t.old.state ≢ 1 → t.new ≡ t.old }
    ensures kept { result ≢ OK → count.new ≡ count.old }
{
    if t.state != 1 {
        return HANDLE;
    }
    let table = take(t, alloc);
    let answer = len(table.as_ref(), count);
    put(t, table);
    answer
}

fn len(table: &Table, count: &mut usize) -> u32
    ensures counts { ReadsIndex (CountsPairs result count.new) (Some table.now) result }
    ensures kept { result ≢ OK → count.new ≡ count.old }
{
    match table {
        Table::Index(numbers) => {
            *count = numbers.len();
            OK
        }
        Table::Unique(_) | Table::Shared(_) | Table::Layer(_) => HANDLE,
    }
}

/// Forgets all pairs. The memory stays.
#[unsafe(no_mangle)]
pub extern "C" fn iddqd_index_clear(t: &mut CTable, alloc: Global) -> u32
    ensures clears { ChangesIndex (ClearsPairs result) t.old.handle.value result t.new.handle.value }
    ensures state { t.new.state ≡ t.old.state }
    ensures closed { t.old.state ≢ 1 → t.new ≡ t.old }
{
    if t.state != 1 {
        return HANDLE;
    }
    let mut table = take(t, alloc);
    let answer = clear(table.as_mut());
    put(t, table);
    answer
}

fn clear(table: &mut Table) -> u32
    ensures clears { ChangesIndex (ClearsPairs result) (Some table.old) result (Some table.new) }
{
    match table {
        Table::Index(numbers) => {
            numbers.clear();
            OK
        }
        Table::Unique(_) | Table::Shared(_) | Table::Layer(_) => HANDLE,
    }
}
