//! The iterator over all indexes of a map with their items.
//!
//! It goes along the table, and reads each item from the store.
ghost use Rattle.std.specs.Prelude.{◌≡◌, ⊤, Some, IfSome, length};
ghost use Rattle.std.specs.Iterator.{YieldsFirstBy, YieldsLastBy, item_count, at_most, UpTo};
ghost use Rattle.std.specs.Iterator.SizeHint.{IsWithinCount};
ghost use Rattle.iddqd.specs.{get};
ghost use Rattle.iddqd_by_order.specs.Ordered.{AreLive};
ghost use Rattle.iddqd_keys.specs.KeyWalk.{pairs_at};
ghost use Rattle.iddqd_keys.specs.Scan.{IsLive};
ghost use Rattle.iddqd_order.specs.Iter.{indexes_left};

use iddqd::item_index::ItemIndex;
use iddqd::item_set::ItemSet;
use iddqd_order::btree_table;
use std::alloc::AllocError;
use std::fmt;
use std::iter::{DoubleEndedIterator, ExactSizeIterator, FusedIterator};
use std::marker::Model;

/// The indexes of a map with their items, in the order of the keys, from both ends. Once it has ended
/// it stays ended.
///
/// A step within a leaf of the table takes constant time; a step into another leaf may walk down from the root.
#[derive(Drop)]
pub struct Iter<'a, T> {
    pub(super) indexes: btree_table::Iter<'a>,
    pub(super) items: &'a ItemSet<T>,
}

impl<'a, T> Model for Iter<'a, T> {
    ghost use Rattle.std.specs.Prelude.{ℕ, List};
    ghost use Rattle.iddqd_order.specs.Iter.{indexes_left};
    ghost use Rattle.iddqd_by_order.specs.Ordered.{AreLive};
    ghost use Rattle.iddqd_keys.specs.KeyWalk.{pairs_at};

    ghost Value = { List (ℕ × T) };

    ghost view = { λ it. pairs_at it.items.now.store (indexes_left it.indexes) };

    ghost invariant = { λ it. AreLive it.items.now.store (indexes_left it.indexes) };
}

impl<'a, T> Iter<'a, T> {
    /// The indexes that an iterator over a table returns, each with its item. All of them must be live.
    pub fn new(indexes: btree_table::Iter<'a>, items: &'a ItemSet<T>) -> Iter<'a, T>
        requires { AreLive items.now.store (indexes_left indexes) }
        ensures { result ≡ pairs_at items.now.store (indexes_left indexes.entry) }
    {
        Iter { indexes, items }
    }
}

impl<'a, T> Iterator for Iter<'a, T> {
    type Item = (ItemIndex, &'a T);

    ghost next_gives = { YieldsFirstBy (λ pair. (pair.0, pair.1.now)) (λ rest. rest) };

    ghost remaining = { item_count (λ rest. rest) };

    fn next(&mut self) -> Option<(ItemIndex, &'a T)> {
        let ix = self.indexes.next()?;
        Some((ix, item_at(self.items, ix)))
    }

    fn size_hint(&self) -> (usize, Option<usize>)
        ensures lower { IsWithinCount result.0 (at_most (length self.now)) }
        ensures upper { IfSome result.1 (UpTo (at_most (length self.now))) }
        ensures exact { result ≡ (length self.now, Some (length self.now)) }
    {
        let left = self.len();
        (left, Some(left))
    }
}

impl<'a, T> DoubleEndedIterator for Iter<'a, T> {
    ghost next_back_gives = { YieldsLastBy (λ pair. (pair.0, pair.1.now)) (λ rest. rest) };

    fn next_back(&mut self) -> Option<(ItemIndex, &'a T)> {
        let ix = self.indexes.next_back()?;
        Some((ix, item_at(self.items, ix)))
    }
}

impl<'a, T> ExactSizeIterator for Iter<'a, T> {
    fn len(&self) -> usize {
        self.indexes.len()
    }
}

impl<'a, T> FusedIterator for Iter<'a, T> {}

impl<'a, T> Clone for Iter<'a, T> {
    ghost is_clone = { λ it copy. copy ≡ it };

    ghost is_infallible = { λ _. ⊤ };

    fn clone(&self) -> Result<Self, AllocError> {
        Ok(Iter {
            indexes: self.indexes.clone()?,
            items: self.items,
        })
    }
}

impl<'a, T> fmt::Debug for Iter<'a, T> {
    fn fmt<W: fmt::Write>(&self, f: &mut fmt::Formatter<W>) -> fmt::Result {
        f.debug_struct("Iter")
            .field("remaining", &self.len())
            .finish()
    }
}

// The item at a live index.
pub(super) fn item_at<T>(items: &ItemSet<T>, ix: ItemIndex) -> &T
    requires { IsLive items.now.store ix }
    ensures { get items.now.store ix ≡ Some result.now }
{
    match items.get(ix) {
        Some(item) => item,
        None => unreachable!(),
    }
}
