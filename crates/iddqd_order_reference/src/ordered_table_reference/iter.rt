//! The iterator that borrows a table.
use iddqd::item_index::ItemIndex;
use std::iter::{DoubleEndedIterator, ExactSizeIterator, FusedIterator};

/// The indexes of a table, in its order, from both ends. Once it has ended it stays ended.
///
/// It takes no memory, and each step takes constant time.
#[derive(Clone, Debug, Drop)]
pub struct Iter<'a> {
    pub(super) rest: &'a [ItemIndex],
}

#[tactic(auto, unfolding(crate::specs::OrderedIter::indexes_left))]
impl<'a> Iterator for Iter<'a> {
    ghost use Rattle.std.specs.Prelude.{◌≡◌, Some, IfSome, length};
    ghost use Rattle.std.specs.Iterator.{YieldsFirst, item_count, at_most, UpTo};
    ghost use Rattle.std.specs.Iterator.SizeHint.{IsWithinCount};
    ghost use Rattle.iddqd_order_reference.specs.OrderedIter.{indexes_left};

    type Item = ItemIndex;

    ghost next_gives = { YieldsFirst indexes_left };

    ghost remaining = { item_count indexes_left };

    fn next(&mut self) -> Option<ItemIndex> {
        let (first, rest) = self.rest.split_first()?;
        self.rest = rest;
        Some(*first)
    }

    fn size_hint(&self) -> (usize, Option<usize>)
        ensures lower { IsWithinCount result.0 (at_most (length (indexes_left self.now))) }
        ensures upper { IfSome result.1 (UpTo (at_most (length (indexes_left self.now)))) }
        ensures exact { result ≡ (length (indexes_left self.now), Some (length (indexes_left self.now))) }
    {
        let left = self.len();
        (left, Some(left))
    }
}

#[tactic(auto, unfolding(crate::specs::OrderedIter::indexes_left))]
impl<'a> DoubleEndedIterator for Iter<'a> {
    ghost use Rattle.std.specs.Iterator.{YieldsLast};
    ghost use Rattle.iddqd_order_reference.specs.OrderedIter.{indexes_left};

    ghost next_back_gives = { YieldsLast indexes_left };

    fn next_back(&mut self) -> Option<ItemIndex> {
        let (last, rest) = self.rest.split_last()?;
        self.rest = rest;
        Some(*last)
    }
}

#[tactic(auto, unfolding(crate::specs::OrderedIter::indexes_left))]
impl<'a> ExactSizeIterator for Iter<'a> {
    fn len(&self) -> usize {
        self.rest.len()
    }
}

impl<'a> FusedIterator for Iter<'a> {}
