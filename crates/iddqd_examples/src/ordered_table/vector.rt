//! The calls of the sorted vector that no other example makes.
use super::{append, has_order};
use iddqd::index_remap::IndexRemap;
use iddqd::item_index::ItemIndex;
use iddqd_order_reference::ordered_table_reference::OrderedTable;
use std::alloc::AllocError;
use std::process::Abort;
use std::test::Fail;

fn tells_of_three(rt: &impl Abort, table: &mut OrderedTable) -> Result<bool, AllocError> {
    append(rt, table, &[2, 0, 1])?;
    table.remap_indexes(&IndexRemap::Identity);
    let ends = table.first() == Some(ItemIndex::new(2)) && table.last() == Some(ItemIndex::new(1));
    Ok(ends && !table.is_empty() && has_order(table, &[2, 0, 1]))
}

// A copy has the indexes still, once the table is cleared.
fn is_copied(table: &mut OrderedTable) -> Result<bool, AllocError> {
    let copy = table.clone()?;
    table.clear();
    Ok(table.is_empty() && copy.capacity() == 3 && has_order(&copy, &[2, 0, 1]))
}

#[test]
fn a_vector_is_read_and_copied(rt: HostRuntime) -> Result<(), Fail> {
    let mut table = OrderedTable::new(rt.alloc());
    assert!(rt; tells_of_three(&rt, &mut table)? && is_copied(&mut table)?);
    Ok(())
}
