//! Reads of a map in the order of a key at a place: `ledger.range_by::<ByDay, _, _>(&from..&to)`.
//!
//! They are calls of one trait, `InOrder`, which every `Map` has, since the ordered table stands above the crate of the
//! maps. No memory is taken.
ghost use Rattle.std.specs.Prelude.{◌≡◌, ◌≤◌, ◌+◌, Some, length, IfNone, IfSome, OnSome};
ghost use Rattle.std.specs.Option.{option_map};
ghost use Rattle.iddqd.specs.{live_count};
ghost use Rattle.iddqd_keys.specs.Bounds.{is_in_bounds};
ghost use Rattle.iddqd_keys.specs.OrderedQuery.{is_equal};
ghost use Rattle.iddqd_map.specs.Groups.{CountsHits};
ghost use Rattle.iddqd_map.specs.Map.{capacity, room};
ghost use Rattle.iddqd_ord_map.specs.InOrder.{shown, FindsFirst, FindsLast, IteratesInOrder, PopsFirst, PopsLast};

use crate::id_ord_map::Iter;
use crate::ranges_at::{RangesAt, SortedAt};
use iddqd::item_index::ItemIndex;
use iddqd_by_order::ordered_walk::Range;
use iddqd_keys::bounds::{Bounds, IntoBounds};
use iddqd_map::key_index::{Changes, KeyIndex};
use iddqd_map::map::{Map, Parts};

/// Reads in the order of the key at the place `P`. Items with equal keys come by index.
pub trait InOrder<T, X: KeyIndex<T, S>, S> {
    ghost use Rattle.std.specs.Prelude.{true};
    ghost use Rattle.iddqd_map.specs.Map.{MapState};

    ghost state: { Self → MapState T };

    /// All items with their indexes, in order, from both ends.
    ///
    /// Cost: a step for each item; takes no memory.
    fn iter_by<P>(&self) -> Iter<'_, T>
    where
        X: SortedAt<P, T, S>,
        ensures items { IteratesInOrder X.sorts_by (λ item. true) (state self.now).store result }
        ensures len { length result ≡ live_count (state self.now).store };

    /// The first item in order, with its index.
    ///
    /// Cost: a few steps; takes no memory.
    fn first_by<P>(&self) -> Option<(ItemIndex, &T)>
    where
        X: SortedAt<P, T, S>,
        ensures { FindsFirst X.sorts_by (state self.now).store (option_map shown result) };

    /// The last item in order, with its index.
    ///
    /// Cost: a few steps; takes no memory.
    fn last_by<P>(&self) -> Option<(ItemIndex, &T)>
    where
        X: SortedAt<P, T, S>,
        ensures { FindsLast X.sorts_by (state self.now).store (option_map shown result) };

    /// Removes the first item in order, and returns it. It is a removal from each table, and takes no memory.
    ///
    /// Cost: a removal from each table; takes no memory.
    fn pop_first_by<P>(&mut self) -> Option<T>
    where
        X: SortedAt<P, T, S> + Changes<T, S>,
        ensures pops { PopsFirst X.sorts_by (state self.old) result (state self.new) }
        ensures count { OnSome result (live_count (state self.old).store ≡ live_count (state self.new).store + 1) }
        ensures freed { OnSome result (live_count (state self.old).store ≤ capacity (state self.old)
            → room (state self.new) ≡ room (state self.old) + 1) };

    /// Removes the last item in order, and returns it. It is a removal from each table, and takes no memory.
    ///
    /// Cost: a removal from each table; takes no memory.
    fn pop_last_by<P>(&mut self) -> Option<T>
    where
        X: SortedAt<P, T, S> + Changes<T, S>,
        ensures pops { PopsLast X.sorts_by (state self.old) result (state self.new) }
        ensures count { OnSome result (live_count (state self.old).store ≡ live_count (state self.new).store + 1) }
        ensures freed { OnSome result (live_count (state self.old).store ≤ capacity (state self.old)
            → room (state self.new) ≡ room (state self.old) + 1) };

    /// The items whose keys are within the range with their indexes, in order, from both ends: none if its lower bound
    /// is above its upper one.
    ///
    /// It is one search for each bound that there is.
    ///
    /// Cost: one search for each bound that there is, then a step for each item; takes no memory.
    fn range_by<P, Q, R>(&self, range: R) -> Range<'_, T>
    where
        X: RangesAt<P, Q, T, S>,
        Q: Copy,
        R: IntoBounds<Q>,
        ensures { let within = is_in_bounds X.compare (R.bounds range) in
            IteratesInOrder X.order within (state self.now).store result };

    /// The items that have the key for which the query stands with their indexes, in order, from both ends.
    ///
    /// It is two searches.
    ///
    /// Cost: two searches, then a step for each item; takes no memory.
    fn group_by<P, Q>(&self, query: Q) -> Range<'_, T>
    where
        X: RangesAt<P, Q, T, S>,
        Q: Copy,
        ensures { IteratesInOrder X.order (is_equal (X.compare query)) (state self.now).store result };

    /// How many items have the key for which the query stands. It costs one step for each of them more than `group_by`.
    ///
    /// Cost: two searches, and a step for each item; takes no memory.
    fn count_by<P, Q>(&self, query: Q) -> usize
    where
        X: RangesAt<P, Q, T, S>,
        ensures { CountsHits (state self.now).store (is_equal (X.compare query)) result };
}

impl<T, X: KeyIndex<T, S>, S> InOrder<T, X, S> for Map<T, X, S> {
    ghost state = { λ m. m };

    fn iter_by<P>(&self) -> Iter<'_, T>
    where
        X: SortedAt<P, T, S>,
    {
        let Parts {
            items,
            indexes,
            state,
        } = self.parts();
        Iter::new(indexes.table_at(items, state).iter(), items)
    }

    fn first_by<P>(&self) -> Option<(ItemIndex, &T)>
    where
        X: SortedAt<P, T, S>,
    {
        self.iter_by::<P>().next()
    }

    fn last_by<P>(&self) -> Option<(ItemIndex, &T)>
    where
        X: SortedAt<P, T, S>,
    {
        self.iter_by::<P>().next_back()
    }

    fn pop_first_by<P>(&mut self) -> Option<T>
    where
        X: SortedAt<P, T, S> + Changes<T, S>,
    {
        let ix = first_index::<P, T, X, S>(self)?;
        self.remove_at(ix)
    }

    fn pop_last_by<P>(&mut self) -> Option<T>
    where
        X: SortedAt<P, T, S> + Changes<T, S>,
    {
        let ix = last_index::<P, T, X, S>(self)?;
        self.remove_at(ix)
    }

    fn range_by<P, Q, R>(&self, range: R) -> Range<'_, T>
    where
        X: RangesAt<P, Q, T, S>,
        Q: Copy,
        R: IntoBounds<Q>,
    {
        let Parts {
            items,
            indexes,
            state,
        } = self.parts();
        Range::new(indexes.range_at(items, state, &range.into_bounds()), items)
    }

    fn group_by<P, Q>(&self, query: Q) -> Range<'_, T>
    where
        X: RangesAt<P, Q, T, S>,
        Q: Copy,
    {
        self.range_by::<P, Q, _>(Bounds::only(query))
    }

    fn count_by<P, Q>(&self, query: Q) -> usize
    where
        X: RangesAt<P, Q, T, S>,
    {
        let Parts {
            items,
            indexes,
            state,
        } = self.parts();
        indexes.count_at(items, state, query)
    }
}

// The index of the first item in order. A look-up of its own, so that the map isn't borrowed where the item is removed.
fn first_index<P, T, X: SortedAt<P, T, S>, S>(map: &Map<T, X, S>) -> Option<ItemIndex>
    ensures first { IfSome result (λ ix. (item : T) × FindsFirst X.sorts_by map.now.store (Some (ix, item))) }
    ensures none { IfNone result (live_count map.now.store ≡ 0) }
{
    match map.first_by::<P>() {
        Some((ix, _)) => Some(ix),
        None => None,
    }
}

// The index of the last item in order.
fn last_index<P, T, X: SortedAt<P, T, S>, S>(map: &Map<T, X, S>) -> Option<ItemIndex>
    ensures last { IfSome result (λ ix. (item : T) × FindsLast X.sorts_by map.now.store (Some (ix, item))) }
    ensures none { IfNone result (live_count map.now.store ≡ 0) }
{
    match map.last_by::<P>() {
        Some((ix, _)) => Some(ix),
        None => None,
    }
}
