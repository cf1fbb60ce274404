//! Memory that is taken ahead, and given back.
use super::{VACANT, has, has_gaps, inserts, ix, permutes};
use iddqd::item_set::ItemSet;
use std::alloc::AllocError;
use std::test::Fail;
use table_uses::stores::insert_in_room;

// Whether the next inserts get these indexes, and none of them needs memory.
fn fills(set: &mut ItemSet<u32>, indexes: &[u32]) -> bool {
    for at in indexes {
        if set.room() == 0 || insert_in_room(set, *at) != ix(*at) {
            return false;
        }
    }
    true
}

#[test]
fn a_new_set_has_room_for_what_was_asked(rt: HostRuntime) -> Result<(), Fail> {
    assert!(rt; ItemSet::<u32>::new(rt.alloc()).room() == 0);
    assert!(rt; ItemSet::<u32>::with_capacity(rt.alloc(), 4)?.room() >= 4);
    Ok(())
}

// Makes a set of six slots, three of them vacant, and takes memory for three more.
fn reserves_three(set: &mut ItemSet<u32>) -> bool {
    has_gaps(set) && set.try_reserve(3).is_ok() && set.capacity() >= 9
}

fn fills_reserved_room(set: &mut ItemSet<u32>) -> bool {
    reserves_three(set) && fills(set, &[5, 3, 1, 6, 7, 8])
}

#[test]
fn as_many_inserts_as_were_reserved_need_no_memory(rt: HostRuntime) {
    assert!(rt; fills_reserved_room(&mut ItemSet::new(rt.alloc())));
}

fn fills_cleared_room(set: &mut ItemSet<u32>) -> bool {
    let is_reserved = reserves_three(set);
    set.clear();
    is_reserved && fills(set, &[0, 1, 2, 3, 4, 5, 6, 7, 8])
}

#[test]
fn a_cleared_set_keeps_what_was_reserved(rt: HostRuntime) {
    assert!(rt; fills_cleared_room(&mut ItemSet::new(rt.alloc())));
}

fn fills_compacted_room(set: &mut ItemSet<u32>) -> bool {
    reserves_three(set)
        && permutes(set, &[ix(0), VACANT, ix(1), VACANT, ix(2), VACANT])
        && fills(set, &[3, 4, 5, 6, 7, 8])
}

#[test]
fn a_compacted_set_keeps_what_was_reserved(rt: HostRuntime) {
    assert!(rt; fills_compacted_room(&mut ItemSet::new(rt.alloc())));
}

fn refuses_any_vector(set: &mut ItemSet<u32>) -> bool {
    inserts(set, &[(7, 0)])
        && set.try_reserve(18446744073709551615) == Err(AllocError)
        && set.len() == 1
        && has(set, &[(0, Some(7))])
}

#[test]
fn a_set_refuses_what_no_vector_can_hold(rt: HostRuntime) {
    assert!(rt; refuses_any_vector(&mut ItemSet::new(rt.alloc())));
}

fn shrinks_to_eight(set: &mut ItemSet<u32>) -> bool {
    inserts(set, &[(0, 0), (10, 1), (20, 2)])
        && set.shrink_capacity_to(8).is_ok()
        && set.capacity() >= 8
        && has(set, &[(0, Some(0)), (1, Some(10)), (2, Some(20))])
}

#[test]
fn a_set_shrinks_to_what_is_asked(rt: HostRuntime) -> Result<(), Fail> {
    assert!(rt; shrinks_to_eight(&mut ItemSet::with_capacity(rt.alloc(), 16)?));
    Ok(())
}
