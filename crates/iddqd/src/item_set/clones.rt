//! Copies of a slot and of a set.
ghost use Rattle.std.specs.Prelude.{◌≡◌, length, IfOk, MatchResult, vec_capacity};
ghost use Rattle.std.specs.List.{AllZip};
ghost use Rattle.iddqd.specs.Clones.{IsSlotClone, IsStoreClone};
ghost use Rattle.iddqd.specs.Store.{slot_count};

use super::{ItemSet, ItemSlot};
use std::alloc::{AllocError, Global};

impl<T: Clone> Clone for ItemSlot<T> {
    ghost use Rattle.iddqd.specs.Clones.{IsSlotClone};

    ghost is_clone = { IsSlotClone T.is_clone };

    fn clone(&self) -> Result<ItemSlot<T>, AllocError> {
        match self {
            ItemSlot::Occupied(item) => Ok(ItemSlot::Occupied(item.clone()?)),
            ItemSlot::Vacant { next } => Ok(ItemSlot::Vacant { next: *next }),
        }
    }
}

/// The copy's memory is for exactly the slots that there are. If memory runs out, the clones made so far are dropped.
impl<T: Clone> Clone for ItemSet<T> {
    ghost use Rattle.iddqd.specs.Clones.{IsStoreClone};

    ghost is_clone = { λ s copy. IsStoreClone T.is_clone s.store copy.store };

    fn clone(&self) -> Result<ItemSet<T>, AllocError>
        ensures cases { MatchResult result (λ copy. IsStoreClone T.is_clone self.now.store copy.store) (λ _. ¬ ⊥) }
        ensures capacity { IfOk result (λ copy. copy.capacity ≡ slot_count self.now.store) }
    {
        Ok(ItemSet {
            slots: cloned_slots(*self.slots.allocator(), &self.slots)?,
            free_head: self.free_head,
            len: self.len,
            limit: self.limit,
        })
    }
}

// A clone of each slot, in memory for exactly that many slots.
fn cloned_slots<T: Clone>(
    alloc: Global,
    slots: &[ItemSlot<T>],
) -> Result<Vec<ItemSlot<T>>, AllocError>
    ensures clones { IfOk result (λ copies. AllZip (IsSlotClone T.is_clone) slots.now copies.items) }
    ensures capacity { IfOk result (λ copies. vec_capacity copies ≡ length slots.now) }
{
    let mut copies = Vec::with_capacity(alloc, slots.len())?;
    for slot in slots {
        copies.push_reserved(slot.clone()?);
    }
    Ok(copies)
}
