//! Inserts. All memory is taken before anything is written.
ghost use Rattle.std.specs.Prelude.{◌≡◌, ◌≢◌, ◌+◌, ◌≤◌, IfOk, IfErr, OnOk, OnErr};
ghost use Rattle.iddqd.specs.{inserted, live_count, next_index, room as set_room, sentinel};
ghost use Rattle.iddqd_map.specs.Append.{IsPrevented, Prepares};
ghost use Rattle.iddqd_map.specs.Map.{map_with, room};
ghost use Rattle.iddqd_map.specs.Calls.{Inserts, IsDuplicate};
ghost use Rattle.iddqd_map.specs.KeyIndex.{IsIndexed};
ghost use Rattle.iddqd_map.specs.Refusal.{refusal_of};

use super::Map;
use super::steps::store_in_room;
use crate::key_index::Changes;
use crate::refusal::InsertRefusal;
use iddqd::item_index::ItemIndex;
use iddqd::item_set::{GrowError, ItemSet};
use std::alloc::AllocError;

impl<T, X: Changes<T, S>, S> Map<T, X, S> {
    /// Inserts an item that shares no unique key with another, and returns its index.
    ///
    /// If there are several reasons for a refusal, the first of these is reported: duplicate, full, out of memory. A
    /// refusal returns the item, and the contents stay. If there is `room`, only a duplicate is refused. Each key is
    /// hashed once and looked up once.
    ///
    /// Cost: one look-up and one insertion by each key, of which each is hashed once; takes memory only without `room`.
    pub fn insert_unique(&mut self, item: T) -> Result<ItemIndex, InsertRefusal<T, X::Conflict>>
        ensures inserts { Inserts X.alike X.grown X.conflicts self.old item result self.new }
        ensures index { IfOk result (λ ix. ix ≡ next_index self.old.store) }
        ensures stored { OnOk result (self.new.store ≡ inserted self.old.store item) }
        ensures unchanged { OnErr result (self.new.store ≡ self.old.store) }
        ensures count { OnOk result (live_count self.new.store ≡ live_count self.old.store + 1) }
        ensures not_refused { 1 ≤ room self.old → IfErr result IsDuplicate }
        ensures room { OnOk result (1 ≤ room self.old → room self.old ≡ room self.new + 1) }
        ensures room_kept { OnErr result (room self.old ≤ room self.new) }
    {
        let hashes = X::hashes(&self.state, &item);
        insert(
            &mut self.items,
            &mut self.indexes,
            &self.state,
            hashes,
            item,
        )
    }
}

/// Stores an item that shares no unique key with another, and inserts its index.
pub(super) fn insert<T, X: Changes<T, S>, S>(
    items: &mut ItemSet<T>,
    indexes: &mut X,
    state: &S,
    hashes: X::Hashes,
    item: T,
) -> Result<ItemIndex, InsertRefusal<T, X::Conflict>>
    requires map { IsIndexed (X.indexes indexes.old) state.now items.old.store }
    requires hashed { X.are_hashes state.now item hashes }
    ensures map { IsIndexed (X.indexes indexes.new) state.now items.new.store }
    ensures inserts { Inserts X.alike X.grown X.conflicts
        (map_with items.old (X.capacity indexes.old) (X.cells indexes.old)) item result
        (map_with items.new (X.capacity indexes.new) (X.cells indexes.new)) }
{
    match prepare(items, indexes, state, hashes, &item) {
        Ok((plan, blocks, ix)) => {
            indexes.insert(hashes, &plan, blocks, ix);
            Ok(store_in_room(items, item))
        }
        Err(NotReady::Conflict(at)) => Err(InsertRefusal::Duplicate { item, at }),
        Err(NotReady::Refused(error)) => Err(refusal(error, item)),
    }
}

/// Why an item isn't inserted: stored items share a unique key with it, or the map is full or memory ran out.
pub(super) enum NotReady<C> {
    Conflict(C),
    Refused(GrowError),
}

/// Takes all memory that the insert of an item needs. Returns the plan by which its index is inserted, the blocks for
/// that, and the index. The contents stay.
#[inline(always)]
pub(super) fn prepare<T, X: Changes<T, S>, S>(
    items: &mut ItemSet<T>,
    indexes: &mut X,
    state: &S,
    hashes: X::Hashes,
    item: &T,
) -> Result<(X::InsertPlan, X::Blocks, ItemIndex), NotReady<X::Conflict>>
    requires map { IsIndexed (X.indexes indexes.old) state.now items.old.store }
    requires hashed { X.are_hashes state.now item.now hashes }
    ensures map { IsIndexed (X.indexes indexes.new) state.now items.new.store }
    ensures prepares { IfOk result (λ p. Prepares X.alike X.grown
        (map_with items.old (X.capacity indexes.old) (X.cells indexes.old)) item.now p.2
        (map_with items.new (X.capacity indexes.new) (X.cells indexes.new))) }
    ensures assigned { IfOk result (λ p. p.2 ≢ sentinel) }
    ensures room { OnOk result (1 ≤ set_room items.new) }
    ensures ready { IfOk result (λ p. X.has_room_for indexes.new p.0 p.1) }
    ensures planned { IfOk result (λ p. X.is_planned indexes.new state.now items.new.store item.now p.0) }
    ensures prevented { IfErr result (IsPrevented X.alike X.grown X.conflicts
        (map_with items.old (X.capacity indexes.old) (X.cells indexes.old)) item.now
        (map_with items.new (X.capacity indexes.new) (X.cells indexes.new))) }
{
    let position = match indexes.look_up(items, state, hashes, item) {
        Ok(position) => position,
        Err(at) => return Err(NotReady::Conflict(at)),
    };
    let ix = match items.assert_can_grow() {
        Ok(handle) => handle.next_index(),
        Err(error) => return Err(NotReady::Refused(error)),
    };
    let plan = indexes.plan(items, state, position, ix, item);
    match indexes.make_room(items, state, &plan) {
        Ok(blocks) => Ok((plan, blocks, ix)),
        Err(AllocError) => Err(NotReady::Refused(GrowError::Memory)),
    }
}

// The refusal of an item that shares no unique key, by its reason: full, or out of memory.
fn refusal<T, C>(error: GrowError, item: T) -> InsertRefusal<T, C>
    ensures { result ≡ refusal_of error item }
{
    match error {
        GrowError::Full => InsertRefusal::Full(item),
        GrowError::Memory => InsertRefusal::Memory(item),
    }
}
