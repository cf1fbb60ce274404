//! The plain table is resized, walked over and copied.
use iddqd_hash::hash_table_reference::HashTable;
use std::alloc::AllocError;
use std::test::Fail;
use table_uses::values::{copy_linear, enter_linear, has};

// Enters three values. The first is not entered twice.
fn enters(table: &mut HashTable<u32>) -> Result<bool, AllocError> {
    let is_new = enter_linear(table, 7, 5)? && !enter_linear(table, 7, 5)?;
    Ok(is_new && enter_linear(table, 7, 6)? && enter_linear(table, 9, 5)?)
}

// Room is taken and given back.
fn resizes(table: &mut HashTable<u32>) -> Result<bool, AllocError> {
    table.reserve(100)?;
    let has_room = table.room() >= 100;
    table.shrink_to_fit()?;
    Ok(has_room && table.room() < 100)
}

// A walk over three tells how many are left.
fn is_counted(table: &HashTable<u32>) -> bool {
    let mut walk = table.iter();
    walk.size_hint() == (3, Some(3)) && walk.next().is_some() && walk.len() == 2
}

// A copy has the values still, once the table is cleared.
fn is_copied(table: &mut HashTable<u32>) -> Result<bool, AllocError> {
    let copy = copy_linear(table)?;
    table.clear();
    Ok(table.len() == 0 && copy.len() == 3 && has(&copy, 7, &5) && has(&copy, 9, &5))
}

fn is_resized_and_copied(table: &mut HashTable<u32>) -> Result<bool, AllocError> {
    Ok(enters(table)? && resizes(table)? && is_counted(table) && is_copied(table)?)
}

#[test]
fn a_plain_table_is_resized_and_copied(rt: HostRuntime) -> Result<(), Fail> {
    assert!(rt; is_resized_and_copied(&mut HashTable::new(rt.alloc()))?);
    Ok(())
}
