//! The hasher that every ordered table has.
use iddqd_order::btree_table::MapBTreeTable;
use std::hash::BuildHasher;

fn hash_alike(table: &MapBTreeTable, other: &MapBTreeTable) -> bool {
    let hash = table.compute_hash(7u64);
    hash.hash() == other.compute_hash(7u64).hash()
        && hash.hash() == other.state().hash_one(7u64)
        && hash.is_same_hash(table.state(), 7u64)
        && !hash.is_same_hash(table.state(), 8u64)
}

#[test]
fn all_tables_hash_alike(rt: HostRuntime) {
    let table = MapBTreeTable::new(rt.alloc());
    assert!(rt; hash_alike(&table, &MapBTreeTable::new(rt.alloc())));
}
