//! The iterator over the items of a set by value.
ghost use Rattle.std.specs.Prelude.{◌≡◌, Some, IfSome, length};
ghost use Rattle.std.specs.Iterator.{YieldsFirst, YieldsLast, item_count, at_most, UpTo};
ghost use Rattle.std.specs.Iterator.SizeHint.{IsWithinCount};

use crate::item_set::ItemSlot;
use std::iter::FusedIterator;
use std::marker::Model;
use std::{fmt, vec};

/// The items of a set by value, by rising index. Once it has ended it stays ended.
///
/// A whole iteration costs a step for each slot, and takes no memory.
#[derive(Drop)]
pub struct IntoValues<T> {
    pub(super) slots: vec::IntoIter<ItemSlot<T>>,
    // How many of `slots` are occupied.
    pub(super) left: usize,
}

impl<T> Model for IntoValues<T> {
    ghost use Rattle.std.specs.Prelude.{◌≡◌, List, map, length};
    ghost use Rattle.std.specs.Vec.Iter.{into_iter_items};
    ghost use Rattle.iddqd.specs.LiveItems.{items_in};
    ghost use Rattle.iddqd.specs.Slots.{item_of};

    ghost Value = { List T };

    ghost view = { λ it. items_in (map item_of (into_iter_items it.slots)) };

    ghost invariant = { λ it. it.left ≡ length (items_in (map item_of (into_iter_items it.slots))) };
}

impl<T: Drop> Iterator for IntoValues<T> {
    type Item = T;

    ghost next_gives = { YieldsFirst (λ rest. rest) };

    ghost remaining = { item_count (λ rest. rest) };

    fn next(&mut self) -> Option<T> {
        while let Some(slot) = self.slots.next() {
            if let ItemSlot::Occupied(item) = slot {
                self.left -= 1;
                return Some(item);
            }
        }
        None
    }

    fn size_hint(&self) -> (usize, Option<usize>)
        ensures lower { IsWithinCount result.0 (at_most (length self.now)) }
        ensures upper { IfSome result.1 (UpTo (at_most (length self.now))) }
        ensures exact { result ≡ (length self.now, Some (length self.now)) }
    {
        (self.left, Some(self.left))
    }
}

impl<T: Drop> DoubleEndedIterator for IntoValues<T> {
    ghost next_back_gives = { YieldsLast (λ rest. rest) };

    fn next_back(&mut self) -> Option<T> {
        while let Some(slot) = self.slots.next_back() {
            if let ItemSlot::Occupied(item) = slot {
                self.left -= 1;
                return Some(item);
            }
        }
        None
    }
}

impl<T: Drop> ExactSizeIterator for IntoValues<T> {
    fn len(&self) -> usize {
        self.left
    }
}

impl<T: Drop> FusedIterator for IntoValues<T> {}

impl<T> fmt::Debug for IntoValues<T> {
    fn fmt<W: fmt::Write>(&self, f: &mut fmt::Formatter<W>) -> fmt::Result {
        f.debug_struct("IntoValues")
            .field("remaining", &self.left)
            .finish()
    }
}
