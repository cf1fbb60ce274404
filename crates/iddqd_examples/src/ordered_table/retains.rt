//! What `retain` asks and keeps.
use super::calls::Table;
use super::thousand::{fill_thousand, gives};
use super::{append, has_order};
use iddqd::item_index::ItemIndex;
use iddqd_order::btree_table::MapBTreeTable;
use iddqd_order_reference::ordered_table_reference::OrderedTable;
use std::alloc::AllocError;
use std::process::Abort;
use std::test::Fail;

// Keeps all indexes but 2. What was asked about stands in the digits behind a first one.
fn drop_two<T: Table>(table: &mut T) -> u32 {
    let mut asked = 1u32;
    table.keep(|ix| {
        asked = asked.wrapping_mul(10).wrapping_add(ix.as_u32());
        ix != ItemIndex::new(2)
    });
    asked
}

fn asks_in_order<T: Table>(rt: &impl Abort, table: &mut T) -> Result<bool, AllocError> {
    append(rt, table, &[0, 2, 1])?;
    Ok(drop_two(table) == 1021 && has_order(table, &[0, 1]))
}

#[test]
fn each_index_is_asked_about_once_in_order(rt: HostRuntime) -> Result<(), Fail> {
    assert!(rt; asks_in_order(&rt, &mut MapBTreeTable::new(rt.alloc()))?);
    assert!(rt; asks_in_order(&rt, &mut OrderedTable::new(rt.alloc()))?);
    Ok(())
}

// Keeps the indexes that seven divides. How many were asked about, if they rose from 0 on by one.
fn drop_others<T: Table>(table: &mut T) -> Option<u32> {
    let mut asks = 0u32;
    let mut is_in_order = true;
    table.keep(|ix| {
        is_in_order = is_in_order && ix.as_u32() == asks;
        asks = asks.wrapping_add(1);
        ix.as_u32() % 7 == 0
    });
    if is_in_order { Some(asks) } else { None }
}

// Whether of a thousand the indexes 0, 7, .., 994 are kept.
fn keeps_sevenths<T: Table>(
    rt: &impl Abort,
    table: &mut T,
    is_rising: bool,
) -> Result<bool, AllocError> {
    fill_thousand(rt, table, is_rising)?;
    let asks = drop_others(table);
    Ok(asks == Some(1000) && gives(table, 0, 7, 1001) && table.count() == 143)
}

#[test]
fn a_seventh_of_a_thousand_is_kept(rt: HostRuntime) -> Result<(), Fail> {
    for is_rising in [true, false] {
        assert!(rt; keeps_sevenths(&rt, &mut MapBTreeTable::new(rt.alloc()), is_rising)?);
        assert!(rt; keeps_sevenths(&rt, &mut OrderedTable::new(rt.alloc()), is_rising)?);
    }
    Ok(())
}
