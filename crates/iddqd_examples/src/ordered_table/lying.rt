//! Answers that fit no order.
use super::calls::Table;
use super::{append, bound, fill, has_order, insert_told, remove_told};
use iddqd::item_index::ItemIndex;
use iddqd_order::btree_table::MapBTreeTable;
use iddqd_order_reference::ordered_table_reference::OrderedTable;
use std::alloc::AllocError;
use std::cmp::Ordering;
use std::process::Abort;
use std::test::Fail;

fn goes_by_index<T: Table>(rt: &impl Abort, table: &mut T) -> Result<bool, AllocError> {
    append(rt, table, &[0, 1, 2, 3])?;
    insert_told(rt, table, 100, Ordering::Equal, Ordering::Equal)?;
    let is_last = has_order(table, &[0, 1, 2, 3, 100]);
    insert_told(rt, table, 50, Ordering::Less, Ordering::Less)?;
    Ok(is_last && has_order(table, &[50, 0, 1, 2, 3, 100]))
}

#[test]
fn equal_answers_go_by_the_index(rt: HostRuntime) -> Result<(), Fail> {
    assert!(rt; goes_by_index(&rt, &mut MapBTreeTable::new(rt.alloc()))?);
    assert!(rt; goes_by_index(&rt, &mut OrderedTable::new(rt.alloc()))?);
    Ok(())
}

// Whether the table has the indexes 30, 29, .., 0 in this order, but for one.
fn falls_without<T: Table>(table: &T, missing: u32) -> bool {
    let mut next = 30u32;
    let are_expected = table.all(|ix| {
        if next == missing {
            next = next.wrapping_sub(1);
        }
        let is_next = ix.as_u32() == next;
        next = next.wrapping_sub(1);
        is_next
    });
    are_expected && table.count() == if missing < 31 { 30 } else { 31 }
}

fn goes_to_the_front<T: Table>(rt: &impl Abort, table: &mut T) -> Result<bool, AllocError> {
    fill(rt, table, 31, Ordering::Less)?;
    Ok(falls_without(table, 31))
}

#[test]
fn less_goes_to_the_front(rt: HostRuntime) -> Result<(), Fail> {
    assert!(rt; goes_to_the_front(&rt, &mut MapBTreeTable::new(rt.alloc()))?);
    assert!(rt; goes_to_the_front(&rt, &mut OrderedTable::new(rt.alloc()))?);
    Ok(())
}

const LESS: Ordering = Ordering::Less;

const GREATER: Ordering = Ordering::Greater;

// Whether removals from the indexes 30, 29, .., 0 find what their answers lead to.
fn removes_where_led<T: Table>(rt: &impl Abort, table: &mut T) -> Result<bool, AllocError> {
    fill(rt, table, 31, LESS)?;
    Ok(
        !remove_told(table, 0, LESS, LESS).0
            && remove_told(table, 30, LESS, LESS).0
            && remove_told(table, 0, GREATER, GREATER).0
            && !remove_told(table, 99, LESS, LESS).0
            && remove_told(table, 4294967295, LESS, LESS) == (false, 0)
            && table.count() == 29,
    )
}

#[test]
fn a_removal_finds_what_its_answers_lead_to(rt: HostRuntime) -> Result<(), Fail> {
    assert!(rt; removes_where_led(&rt, &mut MapBTreeTable::new(rt.alloc()))?);
    assert!(rt; removes_where_led(&rt, &mut OrderedTable::new(rt.alloc()))?);
    Ok(())
}

// Removes an index, by a walk if the search misses it. Whether the search asked at most so often.
fn removes_within<T: Table>(
    table: &mut T,
    ix: u32,
    odd: Ordering,
    even: Ordering,
    most: u32,
) -> bool {
    let (is_removed, asks) = remove_told(table, ix, odd, even);
    if !is_removed {
        table.take_exact(ItemIndex::new(ix));
    }
    asks <= most
}

fn removes_seven<T: Table>(rt: &impl Abort, table: &mut T) -> Result<bool, AllocError> {
    fill(rt, table, 31, LESS)?;
    Ok(removes_within(table, 7, LESS, LESS, 14) && falls_without(table, 7))
}

#[test]
fn the_walk_removes_what_a_search_misses(rt: HostRuntime) -> Result<(), Fail> {
    assert!(rt; removes_seven(&rt, &mut MapBTreeTable::new(rt.alloc()))?);
    assert!(rt; removes_seven(&rt, &mut OrderedTable::new(rt.alloc()))?);
    Ok(())
}

// Adds 200 indexes by answers in turn. Whether each search asks within its bound.
fn adds_in_turn<T: Table>(rt: &impl Abort, table: &mut T) -> Result<bool, AllocError> {
    for ix in 0..200 {
        let most = bound(table.count());
        if insert_told(rt, table, ix, LESS, GREATER)? > most {
            return Ok(false);
        }
    }
    Ok(table.count() == 200)
}

// Removes them the same way. Whether each was stored, each search asks within its bound, and none is left.
fn removes_in_turn<T: Table>(table: &mut T) -> bool {
    for ix in 0..200 {
        let most = bound(table.count());
        if !table.has(ItemIndex::new(ix)) || !removes_within(table, ix, LESS, GREATER, most) {
            return false;
        }
    }
    table.count() == 0
}

fn adds_and_removes_in_turn<T: Table>(rt: &impl Abort, table: &mut T) -> Result<bool, AllocError> {
    Ok(adds_in_turn(rt, table)? && removes_in_turn(table))
}

#[test]
fn changing_answers_keep_each_index_once(rt: HostRuntime) -> Result<(), Fail> {
    assert!(rt; adds_and_removes_in_turn(&rt, &mut MapBTreeTable::new(rt.alloc()))?);
    assert!(rt; adds_and_removes_in_turn(&rt, &mut OrderedTable::new(rt.alloc()))?);
    Ok(())
}
