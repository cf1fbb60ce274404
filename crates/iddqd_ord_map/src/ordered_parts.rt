//! Look-ups by a key in order in the parts of a map, as `map.parts().right().group(&day)`.
//!
//! `iter`, `range` and `group` return indexes, and what they return borrows the map, not the parts. Items with equal
//! keys come by index. No memory is taken. The calls of [`crate::in_order`] give the items as well, by the place of the
//! key.
ghost use Rattle.std.specs.Prelude.{◌≡◌, ◌↔◌, false};
ghost use Rattle.iddqd_keys.specs.Bounds.{is_in_bounds};
ghost use Rattle.iddqd_keys.specs.OrderedQuery.{is_equal};
ghost use Rattle.iddqd_keys.specs.Scan.{HasNoHit};
ghost use Rattle.iddqd_ord_map.specs.InOrder.{ListsInOrder};
ghost use Rattle.iddqd_order.specs.{indexes_ahead, indexes_left};

use crate::ranges_at::{RangesAt, SortedAt};
use iddqd_keys::bounds::{Bounds, IntoBounds};
use iddqd_map::key_index::{Here, KeyIndex, StepsAt};
use iddqd_map::map::Parts;
use iddqd_order::btree_table::{Iter, Range};

/// Look-ups in the parts of a map whose key index has one key, in order.
pub trait OrderedParts<'a, T, X: KeyIndex<T, S>, S>: Sized {
    ghost use Rattle.std.specs.Prelude.{true};
    ghost use Rattle.iddqd.specs.Store.{Store};

    ghost store: { Self → Store T };

    /// All live indexes, in order, from both ends.
    ///
    /// Cost: a step for each index; takes no memory.
    fn iter(self) -> Iter<'a>
    where
        X: SortedAt<Here, T, S>,
        ensures { ListsInOrder X.sorts_by (λ item. true) (store self) (indexes_left result) };

    /// The indexes whose items have keys within the bounds, in order, from both ends: none if the lower bound is above
    /// the upper one.
    ///
    /// It is one search for each bound that there is.
    ///
    /// Cost: one search for each bound that there is, then a step for each index; takes no memory.
    fn range<Q, R>(self, range: R) -> Range<'a>
    where
        X: RangesAt<Here, Q, T, S>,
        Q: Copy,
        R: IntoBounds<Q>,
        ensures { let within = is_in_bounds X.compare (R.bounds range) in
            ListsInOrder X.order within (store self) (indexes_ahead result) };

    /// The indexes whose items have the key for which the query stands, in order, from both ends. A query for the first
    /// of several keys, as a `Prefix`, gives all items with that first key, by key and then by index.
    ///
    /// It is two searches.
    ///
    /// Cost: two searches, then a step for each index; takes no memory.
    fn group<Q: Copy>(self, query: Q) -> Range<'a>
    where
        X: RangesAt<Here, Q, T, S>,
        ensures { ListsInOrder X.order (is_equal (X.compare query)) (store self) (indexes_ahead result) };

    /// Whether an item has the key for which the query stands, by one search.
    ///
    /// Cost: one search; takes no memory.
    fn contains_key<Q: Copy>(self, query: Q) -> bool
    where
        X: StepsAt<Here, Q, T, S>,
        ensures { (result ≡ false) ↔ HasNoHit (store self) (is_equal (X.compare query)) };
}

impl<'a, T, X: KeyIndex<T, S>, S> OrderedParts<'a, T, X, S> for Parts<'a, T, X, S> {
    ghost store = { λ parts. parts };

    fn iter(self) -> Iter<'a>
    where
        X: SortedAt<Here, T, S>,
    {
        let Parts {
            items,
            indexes,
            state,
        } = self;
        indexes.table_at(items, state).iter()
    }

    fn range<Q, R>(self, range: R) -> Range<'a>
    where
        X: RangesAt<Here, Q, T, S>,
        Q: Copy,
        R: IntoBounds<Q>,
    {
        let Parts {
            items,
            indexes,
            state,
        } = self;
        indexes.range_at(items, state, &range.into_bounds())
    }

    fn group<Q: Copy>(self, query: Q) -> Range<'a>
    where
        X: RangesAt<Here, Q, T, S>,
    {
        self.range(Bounds::only(query))
    }

    fn contains_key<Q: Copy>(self, query: Q) -> bool
    where
        X: StepsAt<Here, Q, T, S>,
    {
        let Parts {
            items,
            indexes,
            state,
        } = self;
        indexes
            .first_between(items, state, &Bounds::only(query))
            .is_some()
    }
}
