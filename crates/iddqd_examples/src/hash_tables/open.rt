//! Calls of the table with open addressing.
use iddqd_hash::open_table::{Entry, OpenHashTable};
use std::alloc::AllocError;

// Adds a pair, where memory is there.
pub(super) fn add(table: &mut OpenHashTable<u32>, hash: u64, value: u32) -> Result<(), AllocError> {
    table.try_reserve(1)?;
    table.insert_unique(hash, value);
    Ok(())
}

// Adds a pair where that needs no memory, and tells whether it did.
pub(super) fn add_in_room(table: &mut OpenHashTable<u32>, hash: u64, value: u32) -> bool {
    if table.room() == 0 {
        return false;
    }
    table.insert_unique(hash, value);
    true
}

// The value that a look-up hits, and how often it asked.
pub(super) fn find(table: &OpenHashTable<u32>, hash: u64, value: u32) -> (Option<u32>, u32) {
    let mut asks = 0u32;
    let found = table.find(hash, |x| {
        asks = asks.saturating_add(1);
        *x == value
    });
    (found.copied(), asks)
}

// Removes the value, and tells whether it was there.
pub(super) fn remove(table: &mut OpenHashTable<u32>, hash: u64, value: u32) -> bool {
    match table.find_entry(hash, |x| *x == value) {
        Ok(entry) => entry.remove() == value,
        Err(()) => false,
    }
}

// Removes the value by its entry, where there is one.
pub(super) fn take(
    table: &mut OpenHashTable<u32>,
    hash: u64,
    value: u32,
) -> Result<Option<u32>, AllocError> {
    match table.entry(hash, |x| *x == value)? {
        Entry::Occupied(entry) => Ok(Some(entry.remove())),
        Entry::Vacant(_entry) => Ok(None),
    }
}

// Keeps the other values, and tells how often it asked.
pub(super) fn drop_value(table: &mut OpenHashTable<u32>, value: u32) -> u32 {
    let mut asks = 0u32;
    table.retain(|x| {
        asks = asks.saturating_add(1);
        *x != value
    });
    asks
}

// Keeps the even values, and tells how often it asked.
pub(super) fn drop_odd(table: &mut OpenHashTable<u32>) -> u32 {
    let mut asks = 0u32;
    table.retain(|x| {
        asks = asks.saturating_add(1);
        *x % 2 == 0
    });
    asks
}
