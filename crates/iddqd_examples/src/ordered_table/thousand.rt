//! A thousand indexes that are their own keys, added from the lowest up and from the highest down.
use super::calls::Table;
use super::insert_by;
use iddqd::item_index::ItemIndex;
use iddqd_order::btree_table::{Asking, MapBTreeTable};
use iddqd_order_reference::ordered_table_reference::OrderedTable;
use std::alloc::AllocError;
use std::process::Abort;
use std::test::Fail;

// Adds them.
pub(super) fn fill_thousand<T: Table>(
    rt: &impl Abort,
    table: &mut T,
    is_rising: bool,
) -> Result<(), AllocError> {
    for step in 0..1000 {
        let ix = if is_rising { step } else { 999 - step };
        insert_by(rt, table, ix, |at| ItemIndex::new(ix).cmp(&at))?;
    }
    Ok(())
}

// Whether the table has `first` and each `step` after it below `end`, in order.
pub(super) fn gives<T: Table>(table: &T, first: u32, step: u32, end: u32) -> bool {
    let mut expected = first;
    let are_expected = table.all(|ix| {
        let is_next = ix.as_u32() == expected;
        expected = expected.wrapping_add(step);
        is_next
    });
    are_expected && expected == end
}

// Whether a search finds the index, and asks at most 24 times.
fn finds<T: Table>(table: &T, ix: u32) -> bool {
    let sought = ItemIndex::new(ix);
    let mut asks = 0u32;
    let mut asking = Asking::new(|at: ItemIndex| {
        asks = asks.wrapping_add(1);
        sought.cmp(&at)
    });
    let is_found = table.hit_by(&mut asking) == Some(sought);
    is_found && asks <= 24
}

fn finds_each<T: Table>(table: &T) -> bool {
    for ix in 0..1000 {
        if !finds(table, ix) {
            return false;
        }
    }
    true
}

fn fills_and_finds<T: Table>(
    rt: &impl Abort,
    table: &mut T,
    is_rising: bool,
) -> Result<bool, AllocError> {
    fill_thousand(rt, table, is_rising)?;
    Ok(gives(table, 0, 1, 1000) && finds_each(table))
}

#[test]
fn each_of_a_thousand_is_found(rt: HostRuntime) -> Result<(), Fail> {
    for is_rising in [true, false] {
        assert!(rt; fills_and_finds(&rt, &mut MapBTreeTable::new(rt.alloc()), is_rising)?);
        assert!(rt; fills_and_finds(&rt, &mut OrderedTable::new(rt.alloc()), is_rising)?);
    }
    Ok(())
}

// Whether a search finds the index and removes it, and asks at most 24 times.
fn removes<T: Table>(table: &mut T, ix: u32) -> bool {
    let sought = ItemIndex::new(ix);
    let mut asks = 0u32;
    let mut asking = Asking::new(|at: ItemIndex| {
        asks = asks.wrapping_add(1);
        sought.cmp(&at)
    });
    let is_removed = table.take_by(sought, &mut asking);
    is_removed && asks <= 24
}

fn removes_every_other<T: Table>(
    rt: &impl Abort,
    table: &mut T,
    is_rising: bool,
) -> Result<bool, AllocError> {
    fill_thousand(rt, table, is_rising)?;
    for half in 0..500u32 {
        if !removes(table, half * 2) {
            return Ok(false);
        }
    }
    Ok(gives(table, 1, 2, 1001))
}

#[test]
fn every_other_of_a_thousand_is_removed(rt: HostRuntime) -> Result<(), Fail> {
    for is_rising in [true, false] {
        assert!(rt; removes_every_other(&rt, &mut MapBTreeTable::new(rt.alloc()), is_rising)?);
        assert!(rt; removes_every_other(&rt, &mut OrderedTable::new(rt.alloc()), is_rising)?);
    }
    Ok(())
}
