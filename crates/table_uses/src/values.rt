//! Callers of either table of values, whose closures are pure.
ghost use Rattle.std.specs.Prelude.{◌≡◌, ◌==◌, ◌/◌, ◌∷◌, if◌then◌else◌, not, filter, map, IfOk, OnErr};
ghost use Rattle.std.specs.List.Sorted.{IsPermutation};
ghost use Rattle.std.specs.List.{list_any};
ghost use Rattle.iddqd_hash.specs.HashTable.{entries, under};

use iddqd_hash::hash_table_reference::{Entry, HashTable};
use iddqd_hash::open_table::{Entry as OpenEntry, OpenHashTable};
use std::alloc::AllocError;
use std::cell::Cell;

/// Whether a look-up for the value hits: if and only if the value is under the hash.
pub fn has<T: Eq>(table: &HashTable<T>, hash: u64, value: &T) -> bool
    ensures { result ≡ list_any (λ x. T.eq x value.now) (under hash (entries table.now)) }
{
    table.find(hash, |x| *x == *value).is_some()
}

/// Keeps all values but one: what is left is what passes that test.
pub fn keep_others(table: &mut HashTable<u32>, value: u32)
    ensures { IsPermutation (filter (λ e. not (e.1 == value)) (entries table.old)) (entries table.new) }
{
    if table.is_empty() {
        return;
    }
    table.retain(|x| *x != value);
}

/// Halves each value under its hash, and counts the calls.
pub fn halve(table: &mut HashTable<u32>) -> u32
    ensures { IsPermutation (map (λ e. (e.0, e.1 / 2)) (entries table.old)) (entries table.new) }
{
    let calls = Cell::new(0u32);
    table.rewrite(|x| {
        calls.set(calls.get().saturating_add(1));
        *x / 2
    });
    calls.get()
}

/// A copy of numbers, which has the same pairs.
pub fn copy_linear(table: &HashTable<u32>) -> Result<HashTable<u32>, AllocError>
    ensures { IfOk result (λ copy. IsPermutation (entries table.now) (entries copy)) }
{
    let copy = table.clone()?;
    Ok(copy)
}

pub fn copy_open(table: &OpenHashTable<u32>) -> Result<OpenHashTable<u32>, AllocError>
    ensures { IfOk result (λ copy. IsPermutation (entries table.now) (entries copy)) }
{
    let copy = table.clone()?;
    Ok(copy)
}

/// Adds a value unless it is there under its hash, and returns whether it did.
pub fn enter_linear(table: &mut HashTable<u32>, hash: u64, value: u32) -> Result<bool, AllocError>
    ensures new { IfOk result (λ is_new. is_new ≡ not (list_any (λ x. x == value) (under hash (entries table.old)))) }
    ensures entered { IfOk result (λ is_new.
        IsPermutation (if is_new then (hash, value) ∷ entries table.old else entries table.old) (entries table.new)) }
    ensures refused { OnErr result (table.new ≡ table.old) }
{
    match table.entry(hash, |x| *x == value) {
        Ok(Entry::Occupied(_entry)) => Ok(false),
        Ok(Entry::Vacant(entry)) => {
            entry.insert(value);
            Ok(true)
        }
        Err(error) => Err(error),
    }
}

pub fn enter_open(table: &mut OpenHashTable<u32>, hash: u64, value: u32) -> Result<bool, AllocError>
    ensures new { IfOk result (λ is_new. is_new ≡ not (list_any (λ x. x == value) (under hash (entries table.old)))) }
    ensures entered { IfOk result (λ is_new.
        IsPermutation (if is_new then (hash, value) ∷ entries table.old else entries table.old) (entries table.new)) }
    ensures refused { OnErr result (table.new ≡ table.old) }
{
    match table.entry(hash, |x| *x == value) {
        Ok(OpenEntry::Occupied(_entry)) => Ok(false),
        Ok(OpenEntry::Vacant(entry)) => {
            entry.insert(value);
            prove!(!table.is_empty());
            Ok(true)
        }
        Err(error) => Err(error),
    }
}
