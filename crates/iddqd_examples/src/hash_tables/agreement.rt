//! Both tables give the same answers.
use super::{linear, open};
use iddqd_hash::hash_table_reference::HashTable;
use iddqd_hash::open_table::OpenHashTable;
use std::alloc::AllocError;
use std::test::Fail;

// Whether look-ups for each of 31 values under each of eight hashes hit in both, or miss in both.
fn have_same_hits(plain: &HashTable<u32>, open: &OpenHashTable<u32>) -> bool {
    for pair in 0..248u32 {
        let (hash, value) = ((pair / 31) as u64, pair % 31);
        if linear::find(plain, hash, value) != open::find(open, hash, value).0 {
            return false;
        }
    }
    true
}

// A removal of one match in three calls, and else an insert, on both. Whether both did the same.
fn change(
    plain: &mut HashTable<u32>,
    open: &mut OpenHashTable<u32>,
    call: u32,
) -> Result<bool, AllocError> {
    let (hash, value) = ((call.wrapping_mul(5) % 8) as u64, call.wrapping_mul(7) % 31);
    if call % 3 == 0 {
        return Ok(linear::remove(plain, hash, value) == open::remove(open, hash, value));
    }
    linear::add(plain, hash, value)?;
    open::add(open, hash, value)?;
    Ok(true)
}

// Whether both agree after each of two thousand calls.
fn agree(plain: &mut HashTable<u32>, open: &mut OpenHashTable<u32>) -> Result<bool, AllocError> {
    for call in 0..2000 {
        let is_same = change(plain, open, call)?;
        if !is_same || plain.len() != open.len() || !have_same_hits(plain, open) {
            return Ok(false);
        }
    }
    Ok(true)
}

#[test]
fn both_tables_agree(rt: HostRuntime) -> Result<(), Fail> {
    let mut plain = HashTable::new(rt.alloc());
    assert!(rt; agree(&mut plain, &mut OpenHashTable::new(rt.alloc()))?);
    Ok(())
}
