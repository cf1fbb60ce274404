//! An iterator over the indexes between two bounds of a key, with their items.
//!
//! It goes along the table, and reads each item from the store. It has no parameter for the key and assumes nothing of
//! the order, so the ranges of a map by every key share it.
ghost use Rattle.std.specs.Prelude.{◌≡◌, ⊤};
ghost use Rattle.std.specs.Iterator.{YieldsFirstBy, YieldsLastBy, item_count};
ghost use Rattle.iddqd_order.specs.Range.{indexes_ahead};
ghost use Rattle.iddqd_by_order.specs.Ordered.{AreLive};
ghost use Rattle.iddqd_by_order.specs.OrderedWalk.{pairs_at};

use iddqd::item_index::ItemIndex;
use iddqd::item_set::ItemSet;
use iddqd_order::btree_table;
use std::alloc::AllocError;
use std::fmt;
use std::iter::{DoubleEndedIterator, FusedIterator};
use std::marker::Model;

/// Live indexes with their items, in the order of the table, from both ends. Once it has ended it stays ended.
///
/// A contract sees it as the pairs that are left. It takes no memory, and a step costs a constant time
/// on the average.
#[derive(Drop)]
pub struct Range<'a, T> {
    indexes: btree_table::Range<'a>,
    items: &'a ItemSet<T>,
}

impl<'a, T> Model for Range<'a, T> {
    ghost use Rattle.std.specs.Prelude.{ℕ, List};
    ghost use Rattle.iddqd_order.specs.Range.{indexes_ahead};
    ghost use Rattle.iddqd_by_order.specs.Ordered.{AreLive};
    ghost use Rattle.iddqd_by_order.specs.OrderedWalk.{pairs_at};

    ghost Value = { List (ℕ × T) };

    ghost view = { λ walk. pairs_at walk.items.now.store (indexes_ahead walk.indexes) };

    ghost invariant = { λ walk. AreLive walk.items.now.store (indexes_ahead walk.indexes) };
}

impl<'a, T> Range<'a, T> {
    /// The indexes that an iterator over a table returns, each with its item. All of them must be live.
    pub fn new(indexes: btree_table::Range<'a>, items: &'a ItemSet<T>) -> Range<'a, T>
        requires { AreLive items.now.store (indexes_ahead indexes) }
        ensures { result ≡ pairs_at items.now.store (indexes_ahead indexes.entry) }
    {
        Range { indexes, items }
    }
}

impl<'a, T> Iterator for Range<'a, T> {
    type Item = (ItemIndex, &'a T);

    ghost next_gives = { YieldsFirstBy (λ pair. (pair.0, pair.1.now)) (λ rest. rest) };

    ghost remaining = { item_count (λ rest. rest) };

    fn next(&mut self) -> Option<(ItemIndex, &'a T)> {
        let ix = self.indexes.next()?;
        Some((ix, &self.items[ix]))
    }
}

impl<'a, T> DoubleEndedIterator for Range<'a, T> {
    ghost next_back_gives = { YieldsLastBy (λ pair. (pair.0, pair.1.now)) (λ rest. rest) };

    fn next_back(&mut self) -> Option<(ItemIndex, &'a T)> {
        let ix = self.indexes.next_back()?;
        Some((ix, &self.items[ix]))
    }
}

impl<'a, T> FusedIterator for Range<'a, T> {}

impl<'a, T> Clone for Range<'a, T> {
    ghost is_clone = { λ walk copy. copy ≡ walk };

    ghost is_infallible = { λ _. ⊤ };

    fn clone(&self) -> Result<Self, AllocError> {
        Ok(Range {
            indexes: self.indexes.clone()?,
            items: self.items,
        })
    }
}

impl<'a, T> fmt::Debug for Range<'a, T> {
    fn fmt<W: fmt::Write>(&self, f: &mut fmt::Formatter<W>) -> fmt::Result {
        write!(f, "Range")
    }
}
