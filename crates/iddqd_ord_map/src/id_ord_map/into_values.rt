//! The iterator over the items of a map by value.
ghost use Rattle.std.specs.Prelude.{◌≡◌, Some, IfSome, IsSome, length};
ghost use Rattle.std.specs.Iterator.{YieldsFirst, YieldsLast, item_count, at_most, UpTo};
ghost use Rattle.std.specs.Iterator.SizeHint.{IsWithinCount};
ghost use Rattle.iddqd.specs.LiveItems as live;
ghost use Rattle.iddqd.specs.LiveItems.{KeepsOtherItems};

use iddqd::item_index::ItemIndex;
use iddqd::item_set::ConsumingItemSet;
use iddqd_order::btree_table;
use std::fmt;
use std::iter::{DoubleEndedIterator, ExactSizeIterator, FusedIterator};
use std::marker::Model;

/// The items of a map by value, in the order of the keys, from both ends. Once it has ended it stays
/// ended.
///
/// The iteration takes no memory. A step within a leaf of the table takes constant time; a step into another leaf may
/// walk down from the root.
#[derive(Drop)]
pub struct IntoValues<T> {
    pub(super) indexes: btree_table::IntoIter,
    pub(super) items: ConsumingItemSet<T>,
}

impl<T> Model for IntoValues<T> {
    ghost use Rattle.std.specs.Prelude.{List};
    ghost use Rattle.iddqd_order.specs.IntoIter.{indexes_to_come};
    ghost use Rattle.iddqd_ord_map.specs.Pairs.{items_of_slots, AreThere};

    ghost Value = { List T };

    ghost view = { λ it. items_of_slots it.items (indexes_to_come it.indexes) };

    ghost invariant = { λ it. AreThere it.items (indexes_to_come it.indexes) };
}

impl<T: Drop> Iterator for IntoValues<T> {
    type Item = T;

    ghost next_gives = { YieldsFirst (λ rest. rest) };

    ghost remaining = { item_count (λ rest. rest) };

    fn next(&mut self) -> Option<T> {
        let ix = self.indexes.next()?;
        Some(take_at(&mut self.items, ix))
    }

    fn size_hint(&self) -> (usize, Option<usize>)
        ensures lower { IsWithinCount result.0 (at_most (length self.now)) }
        ensures upper { IfSome result.1 (UpTo (at_most (length self.now))) }
        ensures exact { result ≡ (length self.now, Some (length self.now)) }
    {
        let left = self.len();
        (left, Some(left))
    }
}

impl<T: Drop> DoubleEndedIterator for IntoValues<T> {
    ghost next_back_gives = { YieldsLast (λ rest. rest) };

    fn next_back(&mut self) -> Option<T> {
        let ix = self.indexes.next_back()?;
        Some(take_at(&mut self.items, ix))
    }
}

impl<T: Drop> ExactSizeIterator for IntoValues<T> {
    fn len(&self) -> usize {
        self.indexes.len()
    }
}

impl<T: Drop> FusedIterator for IntoValues<T> {}

impl<T> fmt::Debug for IntoValues<T> {
    fn fmt<W: fmt::Write>(&self, f: &mut fmt::Formatter<W>) -> fmt::Result {
        f.debug_struct("IntoValues")
            .field("remaining", &self.indexes.len())
            .finish()
    }
}

// Removes the item at an index that has one, and returns it.
fn take_at<T>(items: &mut ConsumingItemSet<T>, ix: ItemIndex) -> T
    requires { IsSome (live.item_at items.old ix) }
    ensures item { live.item_at items.old ix ≡ Some result }
    ensures others { KeepsOtherItems ix items.old items.new }
{
    match items.take(ix) {
        Some(item) => item,
        None => unreachable!(),
    }
}
