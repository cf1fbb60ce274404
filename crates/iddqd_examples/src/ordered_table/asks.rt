//! How often a search asks, as its closure counts it.
use super::calls::Table;
use super::{fill, find_told, insert_told, remove_told};
use iddqd::item_index::ItemIndex;
use iddqd_order::btree_table::MapBTreeTable;
use iddqd_order_reference::ordered_table_reference::OrderedTable;
use std::alloc::AllocError;
use std::cmp::Ordering;
use std::process::Abort;
use std::test::Fail;

fn asks_nothing<T: Table>(table: &T) -> bool {
    let (found, asks) = find_told(table, Ordering::Equal, Ordering::Equal);
    found.is_none() && asks == 0
}

#[test]
fn a_find_in_nothing_asks_nothing(rt: HostRuntime) {
    assert!(rt; asks_nothing(&MapBTreeTable::new(rt.alloc())));
    assert!(rt; asks_nothing(&OrderedTable::new(rt.alloc())));
}

// What is answered in turn.
const ANSWERS: [(Ordering, Ordering); 4] = [
    (Ordering::Less, Ordering::Less),
    (Ordering::Less, Ordering::Greater),
    (Ordering::Greater, Ordering::Less),
    (Ordering::Greater, Ordering::Greater),
];

// Whether each search by these answers asks at most so often, and none hits. The index is not stored.
fn asks_at_most<T: Table>(
    rt: &impl Abort,
    table: &mut T,
    absent: u32,
    most: u32,
) -> Result<bool, AllocError> {
    for (odd, even) in ANSWERS {
        let (found, find_asks) = find_told(table, odd, even);
        let (is_removed, remove_asks) = remove_told(table, absent, odd, even);
        let insert_asks = insert_told(rt, table, absent, odd, even)?;
        table.take_exact(ItemIndex::new(absent));
        if found.is_some() || is_removed || find_asks.max(remove_asks).max(insert_asks) > most {
            return Ok(false);
        }
    }
    Ok(true)
}

// Lengths of tables, and how often a search asks at most: 4 and twice the number of binary digits.
const LENGTHS: [(u32, u32); 5] = [(1, 6), (11, 12), (12, 12), (200, 20), (1000, 24)];

fn asks_within<T: Table>(
    rt: &impl Abort,
    table: &mut T,
    len: u32,
    most: u32,
) -> Result<bool, AllocError> {
    fill(rt, table, len, Ordering::Greater)?;
    asks_at_most(rt, table, len, most)
}

#[test]
fn a_search_asks_within_its_bound(rt: HostRuntime) -> Result<(), Fail> {
    for (len, most) in LENGTHS {
        assert!(rt;
            asks_within(&rt, &mut MapBTreeTable::new(rt.alloc()), len, most)?,
            "of {len}"
        );
        assert!(rt;
            asks_within(&rt, &mut OrderedTable::new(rt.alloc()), len, most)?,
            "of {len}"
        );
    }
    Ok(())
}
