//! Many indexes, each found at once.
use iddqd::item_index::ItemIndex;
use iddqd::map_hash::MapHash;
use iddqd_hash::hash_table::MapHashTable;
use std::alloc::{AllocError, Global};
use std::test::Fail;

// Files each index below a number under the hash of that number. The memory is taken ahead.
fn file_rising(alloc: Global, count: u32) -> Result<MapHashTable, AllocError> {
    let mut table = MapHashTable::with_capacity(alloc, count as usize)?;
    for number in 0..count {
        table.insert_prehashed_unchecked(MapHash::new(number as u64), ItemIndex::new(number));
    }
    Ok(table)
}

// Whether the index is found under the hash of its number, at the first ask.
fn is_found_at_once(table: &mut MapHashTable, number: u32) -> bool {
    let mut asks = 0u32;
    let found = table.find_entry_by_hash(number as u64, |ix| {
        asks = asks.saturating_add(1);
        ix.as_u32() == number
    });
    match found {
        Ok(entry) => entry.get().as_u32() == number && asks == 1,
        Err(()) => false,
    }
}

fn are_found_at_once(table: &mut MapHashTable, count: u32) -> bool {
    for number in 0..count {
        if !is_found_at_once(table, number) {
            return false;
        }
    }
    true
}

#[test]
fn each_of_many_indexes_is_found_at_the_first_ask(rt: HostRuntime) -> Result<(), Fail> {
    assert!(rt; are_found_at_once(&mut file_rising(rt.alloc(), 300000)?, 300000));
    Ok(())
}
