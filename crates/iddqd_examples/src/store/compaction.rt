//! What a compaction moves, and the new names that it gives.
use super::{VACANT, has, inserts, ix, permutes, removes};
use iddqd::index_remap::IndexRemap;
use iddqd::internal::ValidateCompact;
use iddqd::item_set::ItemSet;
use std::test::Fail;

fn moves_items_down(set: &mut ItemSet<u32>) -> bool {
    inserts(set, &[(0, 0), (10, 1), (20, 2), (30, 3), (40, 4)])
        && removes(set, &[(1, Some(10)), (3, Some(30))])
        && permutes(set, &[ix(0), VACANT, ix(1), VACANT, ix(2)])
        && set.len() == 3
        && has(set, &[(0, Some(0)), (1, Some(20)), (2, Some(40))])
        && set.validate(ValidateCompact::Compact).is_ok()
}

#[test]
fn a_compaction_moves_items_down_in_their_order(rt: HostRuntime) {
    assert!(rt; moves_items_down(&mut ItemSet::new(rt.alloc())));
}

// Whether a compaction leaves every index its name, before and after four inserts.
fn keeps_all_names(set: &mut ItemSet<u32>) -> bool {
    set.compact() == Ok(IndexRemap::Identity)
        && inserts(set, &[(0, 0), (1, 1), (2, 2), (3, 3)])
        && set.compact() == Ok(IndexRemap::Identity)
}

#[test]
fn a_compaction_without_a_vacant_slot_is_the_identity(rt: HostRuntime) {
    assert!(rt; keeps_all_names(&mut ItemSet::new(rt.alloc())));
}

fn forgets_vacant_slots(set: &mut ItemSet<u32>) -> bool {
    inserts(set, &[(7, 0), (8, 1)])
        && removes(set, &[(0, Some(7)), (1, Some(8))])
        && permutes(set, &[VACANT, VACANT])
        && set.len() == 0
        && inserts(set, &[(9, 0)])
}

#[test]
fn a_compaction_of_vacant_slots_leaves_none(rt: HostRuntime) {
    assert!(rt; forgets_vacant_slots(&mut ItemSet::new(rt.alloc())));
}

#[test]
fn live_indexes_alone_have_new_names(rt: HostRuntime) -> Result<(), Fail> {
    let names = vec![in rt.alloc(); ix(0), VACANT, ix(1), VACANT, VACANT]?;
    let remap = IndexRemap::Permuted(names);
    for (old, has_name) in [(0, true), (1, false), (2, true), (4, false), (9, false)] {
        assert!(rt; remap.can_remap(ix(old)) == has_name, "at {old}");
    }
    Ok(())
}
