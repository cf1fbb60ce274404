//! Calls of the plain table.
use iddqd_hash::hash_table_reference::{Entry, HashTable};
use std::alloc::AllocError;

// Adds a pair, where memory is there.
pub(super) fn add(table: &mut HashTable<u32>, hash: u64, value: u32) -> Result<(), AllocError> {
    table.try_reserve(1)?;
    table.insert_unique(hash, value);
    Ok(())
}

pub(super) fn find(table: &HashTable<u32>, hash: u64, value: u32) -> Option<u32> {
    table.find(hash, |x| *x == value).copied()
}

// Removes the value, and tells whether it was there.
pub(super) fn remove(table: &mut HashTable<u32>, hash: u64, value: u32) -> bool {
    match table.find_entry(hash, |x| *x == value) {
        Ok(entry) => entry.remove() == value,
        Err(()) => false,
    }
}

// Removes the value by its entry, where there is one.
pub(super) fn take(
    table: &mut HashTable<u32>,
    hash: u64,
    value: u32,
) -> Result<Option<u32>, AllocError> {
    match table.entry(hash, |x| *x == value)? {
        Entry::Occupied(entry) => Ok(Some(entry.remove())),
        Entry::Vacant(_entry) => Ok(None),
    }
}
