//! Which slots are given out and freed.
use super::{has, has_gaps, inserts, ix, removes};
use iddqd::internal::ValidateCompact;
use iddqd::item_index::ItemIndex;
use iddqd::item_set::{ConsumingItemSet, ItemSet, ItemSlot};
use std::test::Fail;

#[test]
fn an_index_can_be_any_number_but_the_last(rt: HostRuntime) {
    assert!(rt; ItemIndex::of_slot(4294967294) == Some(ItemIndex::MAX_VALID));
    assert!(rt; ItemIndex::MAX_VALID.as_u32() == 4294967294);
    assert!(rt; ItemIndex::of_slot(4294967295).is_none());
}

fn gives_removed_items_once(set: &mut ItemSet<u32>) -> bool {
    has_gaps(set)
        && removes(set, &[(5, None)])
        && set.len() == 3
        && set.validate(ValidateCompact::NonCompact).is_ok()
}

#[test]
fn a_removal_gives_its_item_once(rt: HostRuntime) {
    assert!(rt; gives_removed_items_once(&mut ItemSet::new(rt.alloc())));
}

fn reuses_the_last_freed_first(set: &mut ItemSet<u32>) -> bool {
    gives_removed_items_once(set)
        && inserts(set, &[(100, 5), (200, 3), (300, 1)])
        && set.validate(ValidateCompact::Compact).is_ok()
        && has(set, &[(1, Some(300)), (3, Some(200)), (5, Some(100))])
        && inserts(set, &[(400, 6)])
}

#[test]
fn freed_indexes_come_back_the_last_freed_first(rt: HostRuntime) {
    assert!(rt; reuses_the_last_freed_first(&mut ItemSet::new(rt.alloc())));
}

fn gives_an_item_once(mut slots: ConsumingItemSet<u32>) -> bool {
    slots.take(ix(0)) == Some(7) && slots.take(ix(0)).is_none() && slots.take(ix(5)).is_none()
}

#[test]
fn a_consumed_set_gives_each_item_once(rt: HostRuntime) -> Result<(), Fail> {
    let mut set = ItemSet::new(rt.alloc());
    assert!(rt; inserts(&mut set, &[(7, 0)]));
    assert!(rt; gives_an_item_once(set.into_consuming()));
    Ok(())
}

// Whether a slot that has the item 7 gives it for reading and writing.
fn gives_its_item(slot: &mut ItemSlot<u32>) -> bool {
    let has_seven = slot.is_occupied() && slot.as_ref().copied() == Some(7);
    if let Some(item) = slot.as_mut() {
        *item = 8;
    }
    has_seven && slot.as_ref().copied() == Some(8)
}

#[test]
fn a_slot_gives_its_item(rt: HostRuntime) {
    assert!(rt; gives_its_item(&mut ItemSlot::Occupied(7u32)));
    let mut vacant = ItemSlot::<u32>::Vacant { next: ix(3) };
    assert!(rt; !vacant.is_occupied() && vacant.as_ref().is_none() && vacant.as_mut().is_none());
}
