//! Searches by keys that a lookup lends.
use super::calls::Table;
use super::{append, has_order};
use iddqd::item_index::ItemIndex;
use iddqd::map_hash::Same;
use iddqd_order::btree_table::{Asking, MapBTreeTable};
use iddqd_order_reference::ordered_table_reference::OrderedTable;
use std::alloc::AllocError;
use std::cmp::Ordering;
use std::process::Abort;
use std::test::Fail;

// The keys of the indexes 0 to 7: 1, 4 and 5 have equal ones.
static KEYS: [u32; 8] = [10, 20, 30, 40, 20, 20, 25, 50];

pub(super) fn key_of(ix: ItemIndex) -> &'static u32 {
    &KEYS[(ix.as_u32() % 8) as usize]
}

// Adds an index at the place of its key, and tells whether it wasn't stored.
fn insert<T: Table>(table: &mut T, number: u32) -> Result<bool, AllocError> {
    let ix = ItemIndex::new(number);
    if ix == ItemIndex::SENTINEL || table.has(ix) {
        return Ok(false);
    }
    let mut asking = Asking::new(key_of);
    table.add(ix, &Same(key_of(ix)), &mut asking)?;
    Ok(true)
}

// Whether equal keys stand by their indexes.
fn inserts_by_key<T: Table>(table: &mut T) -> Result<bool, AllocError> {
    for number in [3, 5, 0, 7, 1] {
        if !insert(table, number)? {
            return Ok(false);
        }
    }
    Ok(has_order(table, &[0, 1, 5, 3, 7]))
}

// The index that a find by the key hits.
fn find<T: Table>(table: &T, sought: u32) -> Option<ItemIndex> {
    let mut asking = Asking::new(key_of);
    table.hit(&Same(&sought), &mut asking)
}

fn remove<T: Table>(table: &mut T, number: u32) -> bool {
    let ix = ItemIndex::new(number);
    let mut asking = Asking::new(key_of);
    table.take(ix, &key_of(ix), &mut asking)
}

// Whether searches by key hit the indexes that are there, of which 5 is removed.
fn searches_by_key<T: Table>(table: &mut T) -> bool {
    find(table, 40) == Some(ItemIndex::new(3))
        && find(table, 30).is_none()
        && remove(table, 5)
        && !remove(table, 4)
        && has_order(table, &[0, 1, 3, 7])
}

fn goes_by_key<T: Table>(table: &mut T) -> Result<bool, AllocError> {
    Ok(inserts_by_key(table)? && searches_by_key(table))
}

#[test]
fn equal_keys_stand_by_their_indexes(rt: HostRuntime) -> Result<(), Fail> {
    assert!(rt; goes_by_key(&mut MapBTreeTable::new(rt.alloc()))?);
    assert!(rt; goes_by_key(&mut OrderedTable::new(rt.alloc()))?);
    Ok(())
}

// Whether the search for a removal ends at the index. The removal is let go.
fn leads_to<T: Table>(table: &mut T, number: u32) -> bool {
    let mut equal = Asking::new(|_: ItemIndex| Ordering::Equal);
    table.leads_to(ItemIndex::new(number), &mut equal)
}

fn tells_what_is_found<T: Table>(rt: &impl Abort, table: &mut T) -> Result<bool, AllocError> {
    append(rt, table, &[3])?;
    Ok(leads_to(table, 3) && !leads_to(table, 4) && table.count() == 1)
}

#[test]
fn a_prepared_removal_tells_whether_it_has_the_index(rt: HostRuntime) -> Result<(), Fail> {
    assert!(rt; tells_what_is_found(&rt, &mut MapBTreeTable::new(rt.alloc()))?);
    assert!(rt; tells_what_is_found(&rt, &mut OrderedTable::new(rt.alloc()))?);
    Ok(())
}
