//! Callers of a store.
ghost use Rattle.std.specs.Prelude.{◌≡◌, ◌+◌, ◌≤◌, IfOk, IfErr, OnOk};
ghost use Rattle.iddqd.specs.declared.item_set.GrowError.TheVariants.{Memory};
ghost use Rattle.iddqd.specs.Store.{IsFull, inserted, next_index};
ghost use Rattle.iddqd.specs.ItemSet.{room};

use iddqd::item_index::ItemIndex;
use iddqd::item_set::{GrowError, ItemSet};
use std::alloc::{AllocError, Global};

/// The copy of a set of numbers has the same store.
pub fn copy_of(set: &ItemSet<u32>) -> Result<ItemSet<u32>, AllocError>
    ensures { IfOk result (λ copy. copy.store ≡ set.now.store) }
{
    let copy = set.clone()?;
    Ok(copy)
}

/// A set of one slot that has an item.
pub fn one_item(alloc: Global) -> Result<ItemSet<u32>, GrowError>
    ensures full { IfOk result (λ set. IsFull set.store) }
    ensures refused { IfErr result (λ error. error ≡ Memory) }
{
    let mut set = ItemSet::with_limit(alloc, 1);
    set.assert_can_grow()?.insert(7);
    Ok(set)
}

/// A full set returns `Full` even if no memory is left, and stays as it is.
pub fn expect_full(set: &mut ItemSet<u32>)
    requires { IsFull set.old.store }
    ensures { set.new ≡ set.old }
{
    match set.assert_can_grow() {
        Err(GrowError::Full) => {}
        Err(GrowError::Memory) => unreachable!(),
        Ok(_) => unreachable!(),
    }
}

/// A copy of a full set also returns `Full`, and so does the set after memory was taken past the limit.
pub fn expect_both_full(set: &mut ItemSet<u32>) -> Result<(), AllocError>
    requires { IsFull set.old.store }
    ensures { OnOk result (IsFull set.new.store) }
{
    expect_full(&mut set.clone()?);
    set.try_reserve(9)?;
    expect_full(set);
    Ok(())
}

/// Inserts an item. There is room, so it can't be refused.
pub fn insert_in_room(set: &mut ItemSet<u32>, item: u32) -> ItemIndex
    requires { 1 ≤ room set.old }
    ensures index { result ≡ next_index set.old.store }
    ensures inserted { set.new ≡ record set.old { store = inserted set.old.store item } }
    ensures room { room set.new + 1 ≡ room set.old }
{
    match set.assert_can_grow() {
        Ok(handle) => handle.insert(item),
        Err(GrowError::Full) => unreachable!(),
        Err(GrowError::Memory) => unreachable!(),
    }
}
