//! What a map's store and its key index do together in one step.
ghost use Rattle.std.specs.Prelude.{◌≡◌, ◌≢◌, ◌+◌, ◌<◌, ◌≤◌, length, IfSome, Some, None, slice_get, slice_set};
ghost use Rattle.std.specs.Range.Bound.{bound_map};
ghost use Rattle.iddqd.specs.{get, next_index, inserted, removed, room, sentinel};
ghost use Rattle.iddqd_keys.specs.KeyWalk.{IsNextHit};
ghost use Rattle.iddqd_keys.specs.OrderedQuery.{is_up_to};
ghost use Rattle.iddqd_keys.specs.Scan.{HasNoHit, IsLive};
ghost use Rattle.iddqd_map.specs.KeyIndex.{IsIndexed};
ghost use Rattle.iddqd_map.specs.Ranges.{itself};

use crate::key_index::{Changes, StepsAt};
use iddqd::item_index::ItemIndex;
use iddqd::item_set::ItemSet;
use iddqd_keys::bounds::Bounds;
use std::mem;

/// Removes the item at a live index from the store, and its index from the key index. It takes no memory.
pub(super) fn take_out<T, X: Changes<T, S>, S>(
    items: &mut ItemSet<T>,
    indexes: &mut X,
    state: &S,
    ix: ItemIndex,
) -> Option<T>
    requires live { IsLive items.old.store ix }
    requires map { IsIndexed (X.indexes indexes.old) state.now items.old.store }
    ensures value { result ≡ get items.old.store ix }
    ensures map { IsIndexed (X.indexes indexes.new) state.now items.new.store }
    ensures removed { items.new ≡ record items.old { store = removed items.old.store ix } }
    ensures items_room { room items.new ≡ room items.old + 1 }
    ensures capacity { X.capacity indexes.new ≡ X.capacity indexes.old }
    ensures cells { X.cells indexes.new ≡ X.cells indexes.old }
    ensures enough { (blocks : X.Blocks) → X.are_enough_after indexes.old blocks
        → X.are_enough_after indexes.new blocks }
    ensures roomy { (plan : X.InsertPlan) (blocks : X.Blocks) → X.are_enough_after indexes.old blocks
        → X.has_room_for indexes.new plan blocks }
{
    indexes.remove(items, state, ix);
    items.remove(ix)
}

/// Removes the item at a live index as `take_out` does, and moves its spot to the next index behind it whose item's key
/// is within the upper bound. Returns the item and that index.
pub(super) fn take_out_between<P, Q, T, X: StepsAt<P, Q, T, S>, S>(
    items: &mut ItemSet<T>,
    indexes: &mut X,
    state: &S,
    spot: &mut X::Spot,
    ix: ItemIndex,
    bounds: &Bounds<Q>,
) -> (Option<T>, Option<ItemIndex>)
    requires live { IsLive items.old.store ix }
    requires map { IsIndexed (X.indexes indexes.old) state.now items.old.store }
    requires stands { X.stands indexes.old spot.old ix }
    ensures value { result.0 ≡ get items.old.store ix }
    ensures next { IsNextHit itself X.order items.old.store (is_up_to (bound_map X.compare bounds.now.upper)) ix
        result.1 }
    ensures stands { IfSome result.1 (X.stands indexes.new spot.new) }
    ensures map { IsIndexed (X.indexes indexes.new) state.now items.new.store }
    ensures removed { items.new ≡ record items.old { store = removed items.old.store ix } }
    ensures capacity { X.capacity indexes.new ≡ X.capacity indexes.old }
    ensures cells { X.cells indexes.new ≡ X.cells indexes.old }
{
    let next = indexes.take_between(items, state, spot, ix, bounds);
    (items.remove(ix), next)
}

// The index that the next item gets. There is room for one.
fn next_in_room<T>(items: &mut ItemSet<T>) -> ItemIndex
    requires { 1 ≤ room items.old }
    ensures index { result ≡ next_index items.old.store }
    ensures assigned { result ≢ sentinel }
    ensures same { items.new ≡ items.old }
{
    match items.assert_can_grow() {
        Ok(handle) => handle.next_index(),
        Err(_) => unreachable!(),
    }
}

/// Inserts the index of an item at the position that was found for it, and stores the item. There is room for it, and
/// it shares no unique key with another.
pub(super) fn put_in_room<T, X: Changes<T, S>, S>(
    items: &mut ItemSet<T>,
    indexes: &mut X,
    state: &S,
    hashes: X::Hashes,
    position: X::Position,
    blocks: X::Blocks,
    item: T,
) -> ItemIndex
    requires map { IsIndexed (X.indexes indexes.old) state.now items.old.store }
    requires hashed { X.are_hashes state.now item hashes }
    requires apart { HasNoHit items.old.store (X.alike item) }
    requires position { X.is_position indexes.old state.now items.old.store item position }
    requires room { 1 ≤ room items.old }
    requires roomy { (plan : X.InsertPlan) → X.has_room_for indexes.old plan blocks }
    ensures index { result ≡ next_index items.old.store }
    ensures map { IsIndexed (X.indexes indexes.new) state.now items.new.store }
    ensures stored { items.new ≡ record items.old { store = inserted items.old.store item } }
    ensures capacity { X.capacity indexes.new ≡ X.capacity indexes.old }
    ensures cells { X.cells indexes.new ≡ X.cells indexes.old }
{
    let ix = next_in_room(items);
    let plan = indexes.plan(items, state, position, ix, &item);
    indexes.insert(hashes, &plan, blocks, ix);
    store_in_room(items, item)
}

/// Stores an item. There is room for it. It is inlined, as the insert into a hash table is.
#[inline(always)]
pub(super) fn store_in_room<T>(items: &mut ItemSet<T>, item: T) -> ItemIndex
    requires { 1 ≤ room items.old }
    ensures index { result ≡ next_index items.old.store }
    ensures stored { items.new ≡ record items.old { store = inserted items.old.store item } }
{
    match items.assert_can_grow() {
        Ok(handle) => handle.insert(item),
        Err(_) => unreachable!(),
    }
}

/// Puts a value into a place that is empty.
pub(super) fn put_into<V>(places: &mut [Option<V>], at: usize, value: V)
    requires within { at < length places.old }
    requires vacant { slice_get places.old at ≡ Some None }
    ensures { places.new ≡ slice_set places.old at (Some value) }
{
    match mem::replace(&mut places[at], Some(value)) {
        None => {}
        Some(_) => unreachable!(),
    }
}
