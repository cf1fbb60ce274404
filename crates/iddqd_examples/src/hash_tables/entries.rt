//! Values that are kept, entered and taken, by either table.
use super::{A, B, linear, open};
use iddqd_hash::hash_table_reference::HashTable;
use iddqd_hash::open_table::OpenHashTable;
use std::alloc::AllocError;
use std::test::Fail;
use table_uses::values::{enter_linear, enter_open, keep_others};

// Of a and b under 7, and a under 9, b goes and is entered again. Then the a under 9 is taken.
fn enters_and_takes_linear(table: &mut HashTable<u32>) -> Result<bool, AllocError> {
    linear::add(table, 7, A)?;
    linear::add(table, 7, B)?;
    linear::add(table, 9, A)?;
    keep_others(table, B);
    let is_gone = table.len() == 2 && linear::find(table, 7, B).is_none();
    let is_entered = enter_linear(table, 7, B)? && table.len() == 3;
    let is_taken = linear::take(table, 9, A)? == Some(A) && table.len() == 2;
    Ok(is_gone && is_entered && is_taken)
}

fn enters_and_takes_open(table: &mut OpenHashTable<u32>) -> Result<bool, AllocError> {
    open::add(table, 7, A)?;
    open::add(table, 7, B)?;
    open::add(table, 9, A)?;
    let is_asked = open::drop_value(table, B) == 3;
    let is_gone = table.len() == 2 && open::find(table, 7, B).0.is_none();
    let is_entered = enter_open(table, 7, B)? && table.len() == 3;
    let is_taken = open::take(table, 9, A)? == Some(A) && table.len() == 2;
    Ok(is_asked && is_gone && is_entered && is_taken)
}

#[test]
fn the_plain_table_drops_enters_and_takes_a_value(rt: HostRuntime) -> Result<(), Fail> {
    assert!(rt; enters_and_takes_linear(&mut HashTable::new(rt.alloc()))?);
    Ok(())
}

#[test]
fn the_open_table_drops_enters_and_takes_a_value(rt: HostRuntime) -> Result<(), Fail> {
    assert!(rt; enters_and_takes_open(&mut OpenHashTable::new(rt.alloc()))?);
    Ok(())
}
