//! Look-ups, ranges and removals by a key that is read in place.
//!
//! The calls of [`crate::ordered`] search by any `Comparable` of a borrowed key, as `KeyedItems` does. A key of several
//! fields can't be borrowed, and a query for its first field is no `Comparable`. So the key indexes of a `Map` call
//! these: a key is an [`OrdKey`], and a query is compared with items.
//!
//! Keys may change silently, as there. A contract that speaks of queries speaks of items, and the order is that of the
//! items by their keys.
ghost use Rattle.std.specs.Prelude.{◌≡◌};
ghost use Rattle.std.specs.Ordering.{on};
ghost use Rattle.iddqd_order.specs.{NeedsNoMoreBlocks, capacity, entry_table, indexes_ahead, order_of, without};
ghost use Rattle.iddqd_keys.specs.Bounds.{is_in_bounds};
ghost use Rattle.iddqd_keys.specs.Scan.{IsKeyAt, IsLive};
ghost use Rattle.iddqd_by_order.specs.Ordered.{AreLive, Finds, Holds, IsEntryOf, LooksUp, Takes, itself};
ghost use Rattle.iddqd_by_order.specs.OrderedWalk.{WalksWithin};

use crate::item_bound::by_item;
use iddqd::item_index::ItemIndex;
use iddqd::item_set::ItemSet;
use iddqd_keys::bounds::Bounds;
use iddqd_keys::item_order_query::{ItemOrdQuery, ItemRangeQuery};
use iddqd_keys::key_of::{Itself, key_at};
use iddqd_keys::order_key::OrdKey;
use iddqd_order::btree_table::{Asking, Entry, MapBTreeTable, Range};
use std::cmp::Ordering;

/// An index of an item at which the query answers Equal. If the table is sorted, it misses only if there is none.
///
/// It is one search of the table, as `ordered::find`.
pub fn find<T, E, Q>(table: &MapBTreeTable, items: &ItemSet<T>, query: Q) -> Option<ItemIndex>
where
    E: OrdKey<T>,
    Q: ItemRangeQuery<T, E>,
    requires { Holds items.now.store (order_of table.now) }
    ensures { Finds itself (on E.key_of E.cmp) items.now.store (order_of table.now) (Q.compare_item query) result }
{
    let mut asking = Asking::new(
        |at: ItemIndex| -> Ordering
            requires { IsLive items.now.store at }
            ensures { IsKeyAt (Q.compare_item query) items.entry.now.store at result }
        { query.compare_item(key_at::<T, Itself>(items, at)) },
    );
    table.find_by(&mut asking)
}

/// The index of an item with the same key as this one.
///
/// It is one search of the table, as `find`.
pub fn find_same<T, E>(table: &MapBTreeTable, items: &ItemSet<T>, item: &T) -> Option<ItemIndex>
where
    E: OrdKey<T>,
    requires { Holds items.now.store (order_of table.now) }
    ensures { LooksUp E.key_of E.cmp items.now.store (order_of table.now) (E.cmp (E.key_of item.now)) result }
{
    let mut asking = Asking::new(
        |at: ItemIndex| -> Ordering
            requires { IsLive items.now.store at }
            ensures { IsKeyAt (λ other. E.cmp (E.key_of item.entry.now) (E.key_of other)) items.entry.now.store at
                result }
        { E::compare(item, key_at::<T, Itself>(items, at)) },
    );
    table.find_by(&mut asking)
}

// The occupied entry of an index of an item with the query's key, or else a vacant entry. It is one search.
fn entry<'t, T, E, Q>(table: &'t mut MapBTreeTable, items: &ItemSet<T>, query: Q) -> Entry<'t>
where
    E: OrdKey<T>,
    Q: ItemOrdQuery<T, E>,
    requires { Holds items.now.store (order_of table.old) }
    ensures same_reference { (entry_table result).ghost_name ≡ table.entry.ghost_name }
    ensures table { (entry_table result).now ≡ table.old }
    ensures made { IsEntryOf itself (on E.key_of E.cmp) items.now.store (order_of table.old)
        (Q.compare_item query) result }
{
    let mut asking = Asking::new(
        |at: ItemIndex| -> Ordering
            requires { IsLive items.now.store at }
            ensures { IsKeyAt (Q.compare_item query) items.entry.now.store at result }
        { query.compare_item(key_at::<T, Itself>(items, at)) },
    );
    table.entry_by(&mut asking)
}

/// Finds the index of an item with the key for which the query stands, and removes it from the table, by one search. It
/// takes no memory.
pub fn take<T, E, Q>(table: &mut MapBTreeTable, items: &ItemSet<T>, query: Q) -> Option<ItemIndex>
where
    E: OrdKey<T>,
    Q: ItemOrdQuery<T, E>,
    requires { Holds items.now.store (order_of table.old) }
    ensures found { LooksUp itself (on E.key_of E.cmp) items.now.store (order_of table.old)
        (Q.compare_item query) result }
    ensures taken { Takes (order_of table.old) result (order_of table.new) }
    ensures memory { capacity table.new ≡ capacity table.old }
{
    match entry::<T, E, Q>(table, items, query) {
        Entry::Occupied(entry) => Some(entry.remove()),
        Entry::Vacant(_) => None,
    }
}

/// Removes a live index from the table, whatever its key is now: by a search for the key, or by a scan if the search
/// misses. It takes no memory.
///
/// Blocks that `blocks_anywhere` of the table allocated before it are still enough for a move, and if the index was in
/// the table, for an insert.
pub fn remove_index<T, E>(table: &mut MapBTreeTable, items: &ItemSet<T>, ix: ItemIndex)
where
    E: OrdKey<T>,
    requires live { IsLive items.now.store ix }
    requires all_live { AreLive items.now.store (order_of table.old) }
    ensures taken { order_of table.new ≡ without (order_of table.old) ix }
    ensures no_more_blocks { NeedsNoMoreBlocks table.old table.new }
    ensures memory { capacity table.new ≡ capacity table.old }
{
    let item = key_at::<T, Itself>(items, ix);
    let mut asking = Asking::new(
        |at: ItemIndex| -> Ordering
            requires { IsLive items.now.store at }
            ensures { IsKeyAt (λ other. E.cmp (E.key_of item.entry.now) (E.key_of other)) items.entry.now.store at
                result }
        { E::compare(item, key_at::<T, Itself>(items, at)) },
    );
    let is_removed = table.prepare_remove_by(ix, &mut asking).remove();
    if !is_removed {
        table.remove_exact(ix);
    }
}

/// The indexes whose items are between two bounds, in the order of the keys: none if the lower bound is above the upper
/// one. If the list isn't sorted, the result is some consecutive part of it, whatever the keys there are.
///
/// It is one search of the table for each bound that there is, as `find` is one. It takes no memory.
pub fn range<'t, T, E, Q>(
    table: &'t MapBTreeTable,
    items: &ItemSet<T>,
    bounds: &Bounds<Q>,
) -> Range<'t>
where
    E: OrdKey<T>,
    Q: ItemRangeQuery<T, E>,
    requires { Holds items.now.store (order_of table.now) }
    ensures { WalksWithin itself (on E.key_of E.cmp) (is_in_bounds Q.compare_item bounds.now) items.now.store
        (order_of table.now) (indexes_ahead result) }
{
    let mut asking = Asking::new(
        |at: ItemIndex|
            requires { IsLive items.now.store at }
            ensures { IsKeyAt itself items.entry.now.store at result.now }
        { key_at::<T, Itself>(items, at) },
    );
    let from = by_item::<E, Q>(bounds.lower);
    let to = by_item::<E, Q>(bounds.upper);
    table.range_reading(from.as_ref(), to.as_ref(), &mut asking)
}
