//! Look-ups in a table that has a store's indexes in the order of a key, by any query.
//!
//! If the table is sorted by the keys as they are now, and no two items share a key, a look-up returns what a scan
//! would. A range allows equal keys: items with equal keys are in it by index.
ghost use Rattle.std.specs.Prelude.{◌≡◌};
ghost use Rattle.std.specs.Ordering.{on};
ghost use Rattle.iddqd_order.specs.{capacity, indexes_ahead, order_of};
ghost use Rattle.iddqd_keys.specs.Scan.{AnswersScan};
ghost use Rattle.iddqd_keys.specs.Bounds.{is_in_bounds};
ghost use Rattle.iddqd_by_order.specs.Ordered.{Takes, IsSortedScan, is_equal};
ghost use Rattle.iddqd_by_order.specs.OrderedWalk.{SortsWithin};
ghost use Rattle.iddqd_map.specs.Groups.{CountsHits};
ghost use Rattle.iddqd_map.specs.Ranges.{itself};
ghost use Rattle.iddqd_ord_map.specs.OrderedIndexing.{Sorts};

use iddqd::item_index::ItemIndex;
use iddqd::item_set::ItemSet;
use iddqd_by_order::ordered_item;
use iddqd_keys::bounds::Bounds;
use iddqd_keys::item_order_query::{ItemOrdQuery, ItemRangeQuery};
use iddqd_keys::order_key::OrdKey;
use iddqd_order::btree_table::{MapBTreeTable, Range};

/// The index of the item that has the key for which the query stands.
///
/// It is one search of the table. `ordered::find` says how many comparisons the table's contract allows; the contract
/// here doesn't count them.
pub fn find_by<T, E, Q>(table: &MapBTreeTable, items: &ItemSet<T>, query: Q) -> Option<ItemIndex>
where
    E: OrdKey<T>,
    Q: ItemOrdQuery<T, E>,
    requires { Sorts E.key_of E.cmp items.now.store (order_of table.now) }
    ensures { AnswersScan items.now.store (is_equal (Q.compare_item query)) result }
{
    ordered_item::find::<T, E, Q>(table, items, query)
}

/// Finds as `find_by` does, and removes the index from the table, by one search. It takes no memory.
pub fn take_by<T, E, Q>(
    table: &mut MapBTreeTable,
    items: &ItemSet<T>,
    query: Q,
) -> Option<ItemIndex>
where
    E: OrdKey<T>,
    Q: ItemOrdQuery<T, E>,
    requires { Sorts E.key_of E.cmp items.now.store (order_of table.old) }
    ensures found { AnswersScan items.now.store (is_equal (Q.compare_item query)) result }
    ensures taken { Takes (order_of table.old) result (order_of table.new) }
    ensures memory { capacity table.new ≡ capacity table.old }
{
    ordered_item::take::<T, E, Q>(table, items, query)
}

/// The indexes whose items have keys between two bounds, in the order of the keys: none if the lower bound is above the
/// upper one.
///
/// It is one search of the table for each bound that there is, as `find_by`, and takes no memory.
pub fn range_by<'t, T, E, Q>(
    table: &'t MapBTreeTable,
    items: &ItemSet<T>,
    bounds: &Bounds<Q>,
) -> Range<'t>
where
    E: OrdKey<T>,
    Q: ItemRangeQuery<T, E>,
    requires { IsSortedScan E.key_of E.cmp items.now.store (order_of table.now) }
    ensures { let within = is_in_bounds Q.compare_item bounds.now in
        SortsWithin itself (on E.key_of E.cmp) within items.now.store (indexes_ahead result) }
{
    ordered_item::range::<T, E, Q>(table, items, bounds)
}

/// How many items have the key for which the query stands. It costs one step for each of them more than `group_by`.
pub fn count_by<T, E, Q>(table: &MapBTreeTable, items: &ItemSet<T>, query: Q) -> usize
where
    E: OrdKey<T>,
    Q: ItemRangeQuery<T, E>,
    requires { IsSortedScan E.key_of E.cmp items.now.store (order_of table.now) }
    ensures { CountsHits items.now.store (is_equal (Q.compare_item query)) result }
{
    // The table counts its indexes in 64 bits.
    let _len = table.len();
    ordered_item::range::<T, E, Q>(table, items, &Bounds::only(query)).count()
}
