//! Room that is taken ahead, and given back.
use super::{A, linear, open};
use iddqd_hash::hash_table::MapHashTable;
use iddqd_hash::hash_table_reference::HashTable;
use iddqd_hash::open_table::OpenHashTable;
use std::alloc::{AllocError, Global};
use std::test::Fail;

// Tables that were made without a capacity have no room.
fn have_no_room(alloc: Global) -> bool {
    HashTable::<u32>::new(alloc).room() == 0
        && OpenHashTable::<u32>::new(alloc).room() == 0
        && MapHashTable::new(alloc).room() == 0
}

fn have_room_for_four(alloc: Global) -> Result<bool, AllocError> {
    Ok(
        HashTable::<u32>::with_capacity(alloc, 4)?.room() >= 4
            && OpenHashTable::<u32>::with_capacity(alloc, 4)?.room() >= 4
            && MapHashTable::with_capacity(alloc, 4)?.room() >= 4,
    )
}

#[test]
fn a_new_table_has_room_for_what_was_asked(rt: HostRuntime) -> Result<(), Fail> {
    assert!(rt; have_no_room(rt.alloc()));
    assert!(rt; have_room_for_four(rt.alloc())?);
    Ok(())
}

fn refuses_any_vector_linear(table: &mut HashTable<u32>) -> Result<bool, AllocError> {
    linear::add(table, 7, A)?;
    let is_refused = table.try_reserve(18446744073709551615) == Err(AllocError);
    Ok(is_refused && table.len() == 1 && linear::find(table, 7, A) == Some(A))
}

fn refuses_any_vector_open(table: &mut OpenHashTable<u32>) -> Result<bool, AllocError> {
    open::add(table, 7, A)?;
    let is_refused = table.try_reserve(18446744073709551615) == Err(AllocError);
    Ok(is_refused && table.len() == 1 && open::find(table, 7, A).0 == Some(A))
}

#[test]
fn the_plain_table_refuses_what_no_vector_can_hold(rt: HostRuntime) -> Result<(), Fail> {
    assert!(rt; refuses_any_vector_linear(&mut HashTable::new(rt.alloc()))?);
    Ok(())
}

#[test]
fn the_open_table_refuses_what_no_vector_can_hold(rt: HostRuntime) -> Result<(), Fail> {
    assert!(rt; refuses_any_vector_open(&mut OpenHashTable::new(rt.alloc()))?);
    Ok(())
}

fn shrinks_to_eight_linear(table: &mut HashTable<u32>) -> Result<bool, AllocError> {
    for value in 0..3 {
        linear::add(table, 1, value)?;
    }
    table.shrink_to(8)?;
    Ok(table.room() >= 5 && table.len() == 3)
}

fn shrinks_to_eight_open(table: &mut OpenHashTable<u32>) -> Result<bool, AllocError> {
    for value in 0..3 {
        open::add(table, 1, value)?;
    }
    table.shrink_to(8)?;
    Ok(table.room() >= 5 && table.len() == 3)
}

#[test]
fn the_plain_table_shrinks_to_what_is_asked(rt: HostRuntime) -> Result<(), Fail> {
    assert!(rt; shrinks_to_eight_linear(&mut HashTable::with_capacity(rt.alloc(), 16)?)?);
    Ok(())
}

#[test]
fn the_open_table_shrinks_to_what_is_asked(rt: HostRuntime) -> Result<(), Fail> {
    assert!(rt; shrinks_to_eight_open(&mut OpenHashTable::with_capacity(rt.alloc(), 16)?)?);
    Ok(())
}

// Inserts 64 values, and removes the multiples of three between them. Whether each call was done.
fn fills_reserved_room(table: &mut OpenHashTable<u32>) -> Result<bool, AllocError> {
    table.try_reserve(64)?;
    for value in 0..64 {
        let hash = u64::from(value % 5);
        if !open::add_in_room(table, hash, value) {
            return Ok(false);
        }
        if value % 3 == 0 && !open::remove(table, hash, value) {
            return Ok(false);
        }
    }
    Ok(table.len() == 42)
}

#[test]
fn as_many_inserts_as_were_reserved_need_no_memory(rt: HostRuntime) -> Result<(), Fail> {
    assert!(rt; fills_reserved_room(&mut OpenHashTable::new(rt.alloc()))?);
    Ok(())
}
