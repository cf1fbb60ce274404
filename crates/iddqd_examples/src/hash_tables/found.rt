//! What is found under a hash, and how often a look-up asks.
use super::{A, B, C, D, E, linear, open};
use iddqd_hash::hash_table_reference::HashTable;
use iddqd_hash::open_table::OpenHashTable;
use std::alloc::AllocError;
use std::test::Fail;

// Whether b is found under 7, where it stands, and not under 9.
fn finds_under_hash_linear(table: &mut HashTable<u32>) -> Result<bool, AllocError> {
    linear::add(table, 7, A)?;
    linear::add(table, 7, B)?;
    linear::add(table, 9, A)?;
    Ok(linear::find(table, 9, B).is_none() && linear::find(table, 7, B) == Some(B))
}

fn finds_under_hash_open(table: &mut OpenHashTable<u32>) -> Result<bool, AllocError> {
    open::add(table, 7, A)?;
    open::add(table, 7, B)?;
    open::add(table, 9, A)?;
    Ok(open::find(table, 9, B).0.is_none() && open::find(table, 7, B).0 == Some(B))
}

#[test]
fn the_plain_table_finds_a_value_under_its_own_hash(rt: HostRuntime) -> Result<(), Fail> {
    assert!(rt; finds_under_hash_linear(&mut HashTable::new(rt.alloc()))?);
    Ok(())
}

#[test]
fn the_open_table_finds_a_value_under_its_own_hash(rt: HostRuntime) -> Result<(), Fail> {
    assert!(rt; finds_under_hash_open(&mut OpenHashTable::new(rt.alloc()))?);
    Ok(())
}

// Letters under hashes of which some differ in high bits alone.
const LETTERS: [(u64, u32); 5] = [
    (1, A),
    (17, B),
    (33, C),
    (4294967297, D),
    (18446744073709551615, E),
];

// Whether each letter is found, but for a once that is removed.
fn finds_all_but_the_removed(table: &mut OpenHashTable<u32>) -> Result<bool, AllocError> {
    for (hash, letter) in LETTERS {
        open::add(table, hash, letter)?;
    }
    if !open::remove(table, 1, A) {
        return Ok(false);
    }
    for (hash, letter) in LETTERS {
        if open::find(table, hash, letter).0.is_some() != (letter != A) {
            return Ok(false);
        }
    }
    Ok(true)
}

#[test]
fn a_removal_leaves_the_others_to_be_found(rt: HostRuntime) -> Result<(), Fail> {
    assert!(rt; finds_all_but_the_removed(&mut OpenHashTable::new(rt.alloc()))?);
    Ok(())
}

// Of 300 values under one hash the odd ones go. Each of the others is asked up to the match.
fn asks_each_once(table: &mut OpenHashTable<u32>) -> Result<bool, AllocError> {
    for value in 0..300 {
        open::add(table, 7, value)?;
    }
    Ok(
        open::drop_odd(table) == 300
            && table.len() == 150
            && open::find(table, 7, 299) == (None, 150)
            && open::find(table, 7, 298).0 == Some(298),
    )
}

#[test]
fn each_value_under_a_hash_is_asked_once(rt: HostRuntime) -> Result<(), Fail> {
    assert!(rt; asks_each_once(&mut OpenHashTable::new(rt.alloc()))?);
    Ok(())
}

// Removes the value that is asked second, and tells how often it was asked, if that one was asked last.
fn take_second(table: &mut OpenHashTable<u32>, hash: u64) -> Option<u32> {
    let mut asks = 0u32;
    let mut last = 0u32;
    let found = table.find_entry(hash, |x| {
        asks = asks.saturating_add(1);
        last = *x;
        asks == 2
    });
    match found {
        Ok(entry) => {
            if entry.remove() == last {
                Some(asks)
            } else {
                None
            }
        }
        Err(()) => None,
    }
}

fn hits_the_second(table: &mut OpenHashTable<u32>) -> Result<bool, AllocError> {
    open::add(table, 7, A)?;
    open::add(table, 7, B)?;
    open::add(table, 7, C)?;
    Ok(take_second(table, 7) == Some(2) && table.len() == 2)
}

#[test]
fn a_hit_is_the_value_that_was_answered_true(rt: HostRuntime) -> Result<(), Fail> {
    assert!(rt; hits_the_second(&mut OpenHashTable::new(rt.alloc()))?);
    Ok(())
}
