//! The iterator over the live indexes of a set and their items.
ghost use Rattle.std.specs.Prelude.{◌≡◌, ⊤, Some, IfSome, length};
ghost use Rattle.std.specs.Iterator.{YieldsFirstBy, YieldsLastBy, item_count, at_most, UpTo};
ghost use Rattle.std.specs.Iterator.SizeHint.{IsWithinCount};

use crate::item_index::ItemIndex;
use crate::item_set::ItemSlot;
use std::alloc::AllocError;
use std::fmt;
use std::iter::FusedIterator;
use std::marker::Model;

/// The live indexes of a set with their items, by rising index. Once it has ended it stays ended.
///
/// A step passes over the vacant slots before the next item, so a whole iteration costs a step for each slot. It takes
/// no memory.
#[derive(Drop)]
pub struct Iter<'a, T> {
    pub(super) slots: &'a [ItemSlot<T>],
    // The index of the first of `slots`.
    pub(super) first: u32,
    // How many of `slots` are occupied.
    pub(super) left: usize,
}

impl<'a, T> Model for Iter<'a, T> {
    ghost use Rattle.std.specs.Prelude.{ℕ, List, map};
    ghost use Rattle.iddqd.specs.LiveItems.{pairs_from};
    ghost use Rattle.iddqd.specs.Slots.{item_of, IsSlotWalk};

    ghost Value = { List (ℕ × T) };

    ghost view = { λ it. pairs_from it.first (map item_of it.slots.now) };

    ghost invariant = { λ it. IsSlotWalk it.slots.now it.first it.left };
}

impl<'a, T> Iterator for Iter<'a, T> {
    type Item = (ItemIndex, &'a T);

    ghost next_gives = { YieldsFirstBy (λ item. (item.0, item.1.now)) (λ rest. rest) };

    ghost remaining = { item_count (λ rest. rest) };

    fn next(&mut self) -> Option<(ItemIndex, &'a T)> {
        while let Some((slot, rest)) = self.slots.split_first() {
            let ix = ItemIndex::new(self.first);
            self.slots = rest;
            self.first += 1;
            if let ItemSlot::Occupied(item) = slot {
                self.left -= 1;
                return Some((ix, item));
            }
        }
        None
    }

    fn size_hint(&self) -> (usize, Option<usize>)
        ensures lower { IsWithinCount result.0 (at_most (length self.now)) }
        ensures upper { IfSome result.1 (UpTo (at_most (length self.now))) }
        ensures exact { result ≡ (length self.now, Some (length self.now)) }
    {
        (self.left, Some(self.left))
    }
}

impl<'a, T> DoubleEndedIterator for Iter<'a, T> {
    ghost next_back_gives = { YieldsLastBy (λ item. (item.0, item.1.now)) (λ rest. rest) };

    fn next_back(&mut self) -> Option<(ItemIndex, &'a T)> {
        while let Some((slot, rest)) = self.slots.split_last() {
            self.slots = rest;
            if let ItemSlot::Occupied(item) = slot {
                self.left -= 1;
                let ix = ItemIndex::new(self.first + rest.len() as u32);
                return Some((ix, item));
            }
        }
        None
    }
}

impl<'a, T> ExactSizeIterator for Iter<'a, T> {
    fn len(&self) -> usize {
        self.left
    }
}

impl<'a, T> FusedIterator for Iter<'a, T> {}

impl<'a, T> Clone for Iter<'a, T> {
    ghost is_clone = { λ it copy. copy ≡ it };

    ghost is_infallible = { λ _. ⊤ };

    fn clone(&self) -> Result<Self, AllocError> {
        Ok(Iter {
            slots: self.slots,
            first: self.first,
            left: self.left,
        })
    }
}

impl<'a, T> Default for Iter<'a, T> {
    ghost use Rattle.std.specs.Prelude.{[]};

    ghost is_default = { λ it. it ≡ [] };

    fn default() -> Self {
        Iter {
            slots: &[],
            first: 0,
            left: 0,
        }
    }
}

impl<'a, T> fmt::Debug for Iter<'a, T> {
    fn fmt<W: fmt::Write>(&self, f: &mut fmt::Formatter<W>) -> fmt::Result {
        f.debug_struct("Iter")
            .field("remaining", &self.left)
            .finish()
    }
}
