//! The order of a key at a place of a key index: the table in that order, and ranges of it.
//!
//! What these traits return borrows the table alone. A look-up searches it once for each bound that there is.
ghost use Rattle.std.specs.Range.Bound.{bound_map};
ghost use Rattle.std.specs.Ordering.{on};
ghost use Rattle.iddqd_by_order.specs.Ordered.{IsSortedScan};
ghost use Rattle.iddqd_keys.specs.Bounds.{is_in_bounds};
ghost use Rattle.iddqd_keys.specs.OrderedQuery.{is_equal};
ghost use Rattle.iddqd_map.specs.Groups.{CountsHits};
ghost use Rattle.iddqd_map.specs.Ranges.{itself};
ghost use Rattle.iddqd_ord_map.specs.InOrder.{ListsInOrder};
ghost use Rattle.iddqd_ord_map.specs.OrderedIndexing.{Sorts};
ghost use Rattle.iddqd_order.specs.{indexes_ahead};
ghost use Rattle.iddqd_order.specs.MapBTreeTable.{order_of};

use crate::by_order::ByOrderOf;
use crate::by_order_multi::ByOrderMultiOf;
use crate::ordered_query::count_by;
use iddqd::item_set::ItemSet;
use iddqd_by_order::ordered_item;
use iddqd_keys::bounds::Bounds;
use iddqd_keys::item_order_query::ItemRangeQuery;
use iddqd_keys::order_key::OrdKey;
use iddqd_map::key_index::{Here, KeyIndex, Left, OrderedAt, Right};
use iddqd_map::pair::Pair;
use iddqd_order::btree_table::{MapBTreeTable, Range};

/// A key index with a key by its order at the place `P`.
pub trait SortedAt<P, T, S>: KeyIndex<T, S> {
    ghost use Rattle.std.specs.declared.cmp.Ordering.{Ordering};

    // How two items compare by that key.
    ghost sorts_by: { T → T → Ordering };

    /// The table in the order of that key.
    fn table_at(&self, items: &ItemSet<T>, state: &S) -> &MapBTreeTable
        requires indexed { Self.KeyIndex.indexes self.now state.now items.now.store }
        ensures { IsSortedScan itself sorts_by items.now.store (order_of result.now) };
}

/// A key index whose ranges in the order of the key at the place `P` are found by queries `Q`.
pub trait RangesAt<P, Q, T, S>: OrderedAt<P, Q, T, S> + SortedAt<P, T, S> {
    ghost use Rattle.std.specs.Prelude.{◌≡◌};

    /// The indexes whose items have keys between two bounds, by key and then by index: none if the lower bound is above
    /// the upper one. It is one search for each bound that there is, and takes no memory.
    fn range_at(&self, items: &ItemSet<T>, state: &S, bounds: &Bounds<Q>) -> Range<'_>
        requires indexed { Self.KeyIndex.indexes self.now state.now items.now.store }
        ensures { let within = is_in_bounds Self.OrderedAt.compare bounds.now in
            ListsInOrder Self.OrderedAt.order within items.now.store (indexes_ahead result) };

    /// How many items have the key for which the query stands. It is two searches, and a step for each of them.
    fn count_at(&self, items: &ItemSet<T>, state: &S, query: Q) -> usize
        requires indexed { Self.KeyIndex.indexes self.now state.now items.now.store }
        ensures { CountsHits items.now.store (is_equal (Self.OrderedAt.compare query)) result };

    // Ranges go in the order of the table, so what `iter_by`, `first_by` and `last_by` of a map return is in one order
    // with what `range_by` and `group_by` do.
    ghost one_order: { Self.OrderedAt.order ≡ Self.SortedAt.sorts_by };
}

impl<T, S, E> SortedAt<Here, T, S> for ByOrderOf<E>
where
    E: OrdKey<T>,
{
    ghost sorts_by = { on E.key_of E.cmp };

    fn table_at(&self, items: &ItemSet<T>, state: &S) -> &MapBTreeTable {
        &self.table
    }
}

impl<T, S, E> SortedAt<Here, T, S> for ByOrderMultiOf<E>
where
    E: OrdKey<T>,
{
    ghost sorts_by = { on E.key_of E.cmp };

    fn table_at(&self, items: &ItemSet<T>, state: &S) -> &MapBTreeTable {
        &self.table
    }
}

impl<P, T, S, A, B> SortedAt<Left<P>, T, S> for Pair<A, B>
where
    A: SortedAt<P, T, S>,
    B: KeyIndex<T, S>,
{
    ghost sorts_by = { A.SortedAt.sorts_by };

    fn table_at(&self, items: &ItemSet<T>, state: &S) -> &MapBTreeTable {
        self.first.table_at(items, state)
    }
}

impl<P, T, S, A, B> SortedAt<Right<P>, T, S> for Pair<A, B>
where
    A: KeyIndex<T, S>,
    B: SortedAt<P, T, S>,
{
    ghost sorts_by = { B.SortedAt.sorts_by };

    fn table_at(&self, items: &ItemSet<T>, state: &S) -> &MapBTreeTable {
        self.second.table_at(items, state)
    }
}

impl<T, S, E, Q> RangesAt<Here, Q, T, S> for ByOrderOf<E>
where
    E: OrdKey<T>,
    Q: ItemRangeQuery<T, E>,
{
    ghost use Rattle.std.proofs.Common.{refl};

    ghost one_order = { refl };

    fn range_at(&self, items: &ItemSet<T>, state: &S, bounds: &Bounds<Q>) -> Range<'_> {
        ordered_item::range::<T, E, Q>(&self.table, items, bounds)
    }

    fn count_at(&self, items: &ItemSet<T>, state: &S, query: Q) -> usize {
        count_by::<T, E, Q>(&self.table, items, query)
    }
}

impl<T, S, E, Q> RangesAt<Here, Q, T, S> for ByOrderMultiOf<E>
where
    E: OrdKey<T>,
    Q: ItemRangeQuery<T, E>,
{
    ghost use Rattle.std.proofs.Common.{refl};

    ghost one_order = { refl };

    fn range_at(&self, items: &ItemSet<T>, state: &S, bounds: &Bounds<Q>) -> Range<'_> {
        ordered_item::range::<T, E, Q>(&self.table, items, bounds)
    }

    fn count_at(&self, items: &ItemSet<T>, state: &S, query: Q) -> usize {
        count_by::<T, E, Q>(&self.table, items, query)
    }
}

impl<P, Q, T, S, A, B> RangesAt<Left<P>, Q, T, S> for Pair<A, B>
where
    A: RangesAt<P, Q, T, S>,
    B: KeyIndex<T, S>,
{
    ghost one_order = { A.RangesAt.one_order };

    fn range_at(&self, items: &ItemSet<T>, state: &S, bounds: &Bounds<Q>) -> Range<'_> {
        self.first.range_at(items, state, bounds)
    }

    fn count_at(&self, items: &ItemSet<T>, state: &S, query: Q) -> usize {
        self.first.count_at(items, state, query)
    }
}

impl<P, Q, T, S, A, B> RangesAt<Right<P>, Q, T, S> for Pair<A, B>
where
    A: KeyIndex<T, S>,
    B: RangesAt<P, Q, T, S>,
{
    ghost one_order = { B.RangesAt.one_order };

    fn range_at(&self, items: &ItemSet<T>, state: &S, bounds: &Bounds<Q>) -> Range<'_> {
        self.second.range_at(items, state, bounds)
    }

    fn count_at(&self, items: &ItemSet<T>, state: &S, query: Q) -> usize {
        self.second.count_at(items, state, query)
    }
}
