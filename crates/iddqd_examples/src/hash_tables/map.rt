//! The table of indexes: hashes of keys, and which indexes are kept.
use iddqd::item_index::ItemIndex;
use iddqd_hash::hash_table::MapHashTable;
use std::hash::{BuildHasher, Hasher};
use std::test::Fail;
use table_uses::indexes::file_all;

// A hasher that gives every key the hash 7.
#[derive(Clone, Copy)]
struct Constant;

impl Hasher for Constant {
    ghost write = { λ h _. h };

    ghost finish = { λ _. 7 };

    fn finish(&self) -> u64 {
        7
    }

    fn write(&mut self, _bytes: &[u8]) {}
}

impl BuildHasher for Constant {
    type Hasher = Constant;

    ghost build_hasher = { λ s. s };

    fn build_hasher(&self) -> Constant {
        *self
    }
}

#[test]
fn keys_of_one_hash_have_the_same_hash(rt: HostRuntime) {
    let table = MapHashTable::new(rt.alloc());
    let hash = table.compute_hash(&Constant, 1u32);
    assert!(rt; hash.is_same_hash(&Constant, 2u32));
}

// Keeps the odd indexes, and tells how many it asked about.
fn drop_even(table: &mut MapHashTable) -> u32 {
    let mut asks = 0u32;
    table.retain(|ix| {
        asks = asks.saturating_add(1);
        ix.as_u32() % 2 == 1
    });
    asks
}

fn keeps_the_odd(table: &mut MapHashTable) -> bool {
    drop_even(table) == 3
        && table.len() == 1
        && table.contains_index(ItemIndex::new(1))
        && !table.contains_index(ItemIndex::new(2))
}

#[test]
fn each_index_is_asked_about_once(rt: HostRuntime) -> Result<(), Fail> {
    assert!(rt; keeps_the_odd(&mut file_all(rt.alloc(), &Constant, &[10, 20, 30])?));
    Ok(())
}
