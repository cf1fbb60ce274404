//! The first index within bounds, and the next index behind another one, in a table that has a store's indexes in the
//! order of a key.
//!
//! It is for a caller that goes along the table and changes or removes items as it goes. An iterator would borrow the
//! table and the store all the while; here nothing is borrowed between two steps. A spot of the table says how far the
//! caller has come, so that only the first step searches.
ghost use Rattle.std.specs.Prelude.{◌≡◌, ℕ, true, IfSome};
ghost use Rattle.std.specs.Ordering.{on};
ghost use Rattle.std.specs.Range.Bound.{bound_map};
ghost use Rattle.std.specs.declared.ops.Bound.{Bound};
ghost use Rattle.iddqd_order.specs.{capacity, order_of, without};
ghost use Rattle.iddqd_order.specs.MapBTreeTable.{IsSpot};
ghost use Rattle.iddqd_order.specs.Spot.{StandsAt, spot_index};
ghost use Rattle.iddqd_keys.specs.Bounds.{is_in_bounds};
ghost use Rattle.iddqd_keys.specs.KeyWalk.{IsNextHit};
ghost use Rattle.iddqd_keys.specs.OrderedQuery.{is_up_to, is_within};
ghost use Rattle.iddqd_keys.specs.Scan.{IsKeyAt, IsLive};
ghost use Rattle.iddqd_by_order.specs.Ordered.{IsSortedScan, itself};
ghost use Rattle.iddqd_by_order.specs.OrderedWalk.{FindsFirst};

use crate::item_bound::by_item;
use iddqd::item_index::ItemIndex;
use iddqd::item_set::ItemSet;
use iddqd_keys::bounds::Bounds;
use iddqd_keys::item_order_query::ItemRangeQuery;
use iddqd_keys::key_of::{Itself, key_at};
use iddqd_keys::order_key::OrdKey;
use iddqd_order::btree_table::{Asking, MapBTreeTable, Spot};
use std::cmp::Ordering;
use std::ops::Bound;

/// The first index whose item's key is within the bounds, by key and then by index, with its spot.
///
/// It is one search of the table by the lower bound, as `ordered::find` is one, and one comparison by the upper bound.
/// It takes no memory.
pub fn first_between<T, E, Q>(
    table: &MapBTreeTable,
    items: &ItemSet<T>,
    bounds: &Bounds<Q>,
) -> Option<(ItemIndex, Spot)>
where
    E: OrdKey<T>,
    Q: ItemRangeQuery<T, E>,
    requires { IsSortedScan E.key_of E.cmp items.now.store (order_of table.now) }
    ensures first { let within = is_in_bounds Q.compare_item bounds.now in
        FindsFirst itself (on E.key_of E.cmp) within items.now.store result }
    ensures spot { IfSome result (λ r. StandsAt table.now r.1 r.0) }
{
    let (first, spot) = first_from::<T, E, Q>(table, items, bounds.lower)?;
    if is_up_to::<T, E, Q>(bounds.upper, key_at::<T, Itself>(items, first)) {
        Some((first, spot))
    } else {
        None
    }
}

// The first index whose item's key is within the lower bound, with its spot.
fn first_from<T, E, Q>(
    table: &MapBTreeTable,
    items: &ItemSet<T>,
    lower: Bound<Q>,
) -> Option<(ItemIndex, Spot)>
where
    E: OrdKey<T>,
    Q: ItemRangeQuery<T, E>,
    requires { IsSortedScan E.key_of E.cmp items.now.store (order_of table.now) }
    ensures first { let from = is_within Q.compare_item lower Bound.Unbounded in
        FindsFirst itself (on E.key_of E.cmp) from items.now.store result }
    ensures spot { IfSome result (λ r. StandsAt table.now r.1 r.0) }
{
    let mut asking = Asking::new(
        |at: ItemIndex|
            requires { IsLive items.now.store at }
            ensures { IsKeyAt itself items.entry.now.store at result.now }
        { key_at::<T, Itself>(items, at) },
    );
    let from = by_item::<E, Q>(lower);
    table.first_from_reading(from.as_ref(), &mut asking)
}

/// Moves the spot of a live index to the next one behind it, by key and then by index, and returns that index, if its
/// item's key is within the upper bound.
///
/// It is one comparison by the upper bound, and takes no memory.
pub fn next_between<T, E, Q>(
    table: &MapBTreeTable,
    items: &ItemSet<T>,
    spot: &mut Spot,
    to: &Bounds<Q>,
) -> Option<ItemIndex>
where
    E: OrdKey<T>,
    Q: ItemRangeQuery<T, E>,
    requires spot { IsSpot table.now spot.old }
    requires sorted { IsSortedScan E.key_of E.cmp items.now.store (order_of table.now) }
    ensures next { IsNextHit itself (on E.key_of E.cmp) items.now.store
        (is_up_to (bound_map Q.compare_item to.now.upper)) (spot_index table.now spot.old) result }
    ensures spot { IfSome result (λ next. StandsAt table.now spot.new next) }
{
    let next = table.step(spot);
    if_up_to::<T, E, Q>(items, next, to.upper)
}

/// Removes the index at the spot from the table, and moves the spot as `next_between` does. The store still has the
/// item at the index.
///
/// It is one comparison by the upper bound, and takes no memory.
pub fn take_between<T, E, Q>(
    table: &mut MapBTreeTable,
    items: &ItemSet<T>,
    spot: &mut Spot,
    to: &Bounds<Q>,
) -> Option<ItemIndex>
where
    E: OrdKey<T>,
    Q: ItemRangeQuery<T, E>,
    requires spot { IsSpot table.old spot.old }
    requires sorted { IsSortedScan E.key_of E.cmp items.now.store (order_of table.old) }
    ensures next { IsNextHit itself (on E.key_of E.cmp) items.now.store
        (is_up_to (bound_map Q.compare_item to.now.upper)) (spot_index table.old spot.old) result }
    ensures spot { IfSome result (λ next. StandsAt table.new spot.new next) }
    ensures taken { order_of table.new ≡ without (order_of table.old) (spot_index table.old spot.old) }
    ensures memory { capacity table.new ≡ capacity table.old }
{
    let next = table.take_at(spot);
    if_up_to::<T, E, Q>(items, next, to.upper)
}

// The next index, if there is one and its item's key is within the upper bound.
#[inline(always)]
fn if_up_to<T, E, Q>(
    items: &ItemSet<T>,
    next: Option<ItemIndex>,
    upper: Bound<Q>,
) -> Option<ItemIndex>
where
    E: OrdKey<T>,
    Q: ItemRangeQuery<T, E>,
    requires { IfSome next (IsLive items.now.store) }
    ensures next { (after : ℕ) → IsNextHit itself (on E.key_of E.cmp) items.now.store (λ _. true) after next →
        IsNextHit itself (on E.key_of E.cmp) items.now.store (is_up_to (bound_map Q.compare_item upper))
        after result }
    ensures same { IfSome result (λ ix. next ≡ Some ix) }
{
    let ix = next?;
    if is_up_to::<T, E, Q>(upper, key_at::<T, Itself>(items, ix)) {
        Some(ix)
    } else {
        None
    }
}

// Whether an item is within an upper bound.
fn is_up_to<T, E, Q>(upper: Bound<Q>, item: &T) -> bool
where
    E: OrdKey<T>,
    Q: ItemRangeQuery<T, E>,
    ensures { result ≡ is_up_to (bound_map Q.compare_item upper) item.now }
{
    match upper {
        Bound::Included(query) => query.compare_item(item) != Ordering::Less,
        Bound::Excluded(query) => query.compare_item(item) == Ordering::Greater,
        Bound::Unbounded => true,
    }
}
