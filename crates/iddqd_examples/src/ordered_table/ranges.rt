//! Walks from a place on, and between two.
use super::append;
use super::keys::key_of;
use iddqd::item_index::ItemIndex;
use iddqd::map_hash::Same;
use iddqd_order::btree_table::{Asking, MapBTreeTable, Range};
use std::ops::Bound;
use std::test::Fail;

// Whether the walk gives these numbers, the last one from the back, and stays ended.
fn gives(mut walk: Range<'_>, numbers: &[u32], last: u32) -> bool {
    if walk.next_back() != Some(ItemIndex::new(last)) {
        return false;
    }
    for number in numbers {
        if walk.next() != Some(ItemIndex::new(*number)) {
            return false;
        }
    }
    walk.next().is_none() && walk.next_back().is_none() && walk.next().is_none()
}

// Whether the walks between keys give what is within.
fn are_walked_by_keys(table: &MapBTreeTable) -> bool {
    let mut asking = Asking::new(key_of);
    let (lower, upper) = (Same(&20u32), Same(&30u32));
    let from = table.iter_from(&lower, &mut asking);
    let after = table.iter_after(&lower, &mut asking);
    let between = table.range(
        Bound::Included(&lower),
        Bound::Excluded(&upper),
        &mut asking,
    );
    gives(from, &[1, 4, 5, 6, 2, 3], 7)
        && gives(after, &[6, 2, 3], 7)
        && gives(between, &[1, 4, 5], 6)
}

// The same by answers.
fn are_walked_by_answers(table: &MapBTreeTable) -> bool {
    let mut lower = Asking::new(|at: ItemIndex| 20u32.cmp(key_of(at)));
    let mut upper = Asking::new(|at: ItemIndex| 30u32.cmp(key_of(at)));
    let from = table.iter_from_by(&mut lower);
    let after = table.iter_after_by(&mut lower);
    let between = table.range_by(&mut lower, &mut upper);
    gives(from, &[1, 4, 5, 6, 2, 3], 7)
        && gives(after, &[6, 2, 3], 7)
        && gives(between, &[1, 4, 5, 6], 2)
}

#[test]
fn a_walk_between_keys_gives_what_is_within_both(rt: HostRuntime) -> Result<(), Fail> {
    let mut table = MapBTreeTable::new(rt.alloc());
    append(&rt, &mut table, &[0, 1, 4, 5, 6, 2, 3, 7])?;
    assert!(rt; are_walked_by_keys(&table) && are_walked_by_answers(&table));
    Ok(())
}
