//! Copies of a set.
use super::{has, insert, inserts, ix, removes};
use iddqd::index_remap::IndexRemap;
use iddqd::item_set::{GrowError, ItemSet, ItemSlot};
use std::alloc::AllocError;
use std::test::Fail;

// Whether a set has what was copied, and gives out index 2 next.
fn has_what_was_copied(copy: &mut ItemSet<u32>) -> bool {
    let items = [(0, Some(0)), (1, None), (2, None), (3, Some(3))];
    copy.len() == 2 && has(copy, &items) && inserts(copy, &[(9, 2)])
}

fn copies_items_and_chain(set: &mut ItemSet<u32>) -> Result<bool, AllocError> {
    let is_made = inserts(set, &[(0, 0), (1, 1), (2, 2), (3, 3)])
        && removes(set, &[(1, Some(1)), (2, Some(2))]);
    Ok(is_made && has_what_was_copied(&mut set.clone()?))
}

#[test]
fn a_copy_has_the_items_and_the_next_index(rt: HostRuntime) -> Result<(), Fail> {
    assert!(rt; copies_items_and_chain(&mut ItemSet::new(rt.alloc()))?);
    Ok(())
}

fn copies_the_limit(set: &mut ItemSet<u32>) -> Result<bool, AllocError> {
    let is_made = insert(set, 7) == Ok(ix(0));
    Ok(is_made && insert(&mut set.clone()?, 8) == Err(GrowError::Full))
}

#[test]
fn a_copy_of_a_full_set_is_full(rt: HostRuntime) -> Result<(), Fail> {
    assert!(rt; copies_the_limit(&mut ItemSet::with_limit(rt.alloc(), 1))?);
    Ok(())
}

#[test]
fn slots_and_new_names_are_copied(rt: HostRuntime) -> Result<(), Fail> {
    assert!(rt; ItemSlot::Occupied(7u32).clone()?.as_ref().copied() == Some(7));
    let remap = IndexRemap::Permuted(vec![in rt.alloc(); ix(1), ix(0)]?);
    assert!(rt; remap.clone()? == remap);
    Ok(())
}
