//! Inserts that first remove the items that share a key with the new one.
//!
//! The memory of each table is asked for before an item is removed. The store needs none then, since the removal of an
//! item leaves a slot.
ghost use Rattle.std.specs.Prelude.{◌≡◌, ◌+◌, ◌≤◌, ℕ, List, [], None, length, count_by, is_some, IsOk, OnOk, OnErr};
ghost use Rattle.std.specs.List.{Contains};
ghost use Rattle.iddqd.specs.{get, live_count, next_index, inserted, removed, room};
ghost use Rattle.iddqd_keys.specs.Scan.{IsLive, HasNoHit};
ghost use Rattle.iddqd_map.specs.Map.{map_with, room as map_room};
ghost use Rattle.iddqd_map.specs.Calls.{OverwritesInto};
ghost use Rattle.iddqd_map.specs.KeyIndex.{IsIndexed, IsNextReported};
ghost use Rattle.iddqd_map.specs.Overwrite.{TakesAll};
ghost use Rattle.iddqd_keys.specs.Removals.{padded};

use super::Map;
use super::inserts::insert;
use super::steps::{put_in_room, put_into, take_out};
use crate::key_index::Changes;
use crate::refusal::{InsertRefusal, OverwriteRefusal};
use iddqd::item_index::ItemIndex;
use iddqd::item_set::ItemSet;
use std::alloc::AllocError;

impl<T, X: Changes<T, S>, S> Map<T, X, S> {
    /// Inserts an item, and returns its index. Stored items that share a key with it are first moved into `places`, by
    /// rising index, each with the index that it had.
    ///
    /// If there are none, it is refused as `insert_unique` is. If there are any, it is refused only if memory runs out
    /// for an ordered table that has more indexes than its capacity, before anything is removed. A refusal returns the
    /// item, and the contents stay. If there is `room`, nothing is refused. Each key of the item is hashed once.
    ///
    /// Cost: one look-up and one insertion by each key, of which each is hashed once; of each item that it removes a
    /// removal from each table; takes memory only without `room`, and if it removes items only for a key in order.
    ///
    /// Asks: `places` has a place for each unique key, and all places are `None`.
    pub fn overwrite_into(
        &mut self,
        item: T,
        places: &mut [Option<(ItemIndex, T)>],
    ) -> Result<ItemIndex, OverwriteRefusal<T>>
        requires enough { X.unique_keys ≤ length places.old }
        requires vacant { places.old ≡ padded (length places.old) [] }
        ensures inserts { OverwritesInto X.alike X.grown X.may_need_memory (length places.old) self.old item result
            places.new self.new }
        ensures count { OnOk result (live_count self.new.store + count_by is_some places.new
            ≡ live_count self.old.store + 1) }
        ensures unchanged { OnErr result (self.new.store ≡ self.old.store) }
        ensures not_refused { 1 ≤ map_room self.old → IsOk result }
        ensures room { OnOk result (1 ≤ map_room self.old
            → map_room self.new + 1 ≡ map_room self.old + count_by is_some places.new) }
    {
        let hashes = X::hashes(&self.state, &item);
        insert_or_overwrite(
            &mut self.items,
            &mut self.indexes,
            &self.state,
            hashes,
            item,
            places,
        )
    }
}

// Stores the item, and inserts its index. Those that share a key with it are removed into the places.
#[inline(always)]
fn insert_or_overwrite<T, X: Changes<T, S>, S>(
    items: &mut ItemSet<T>,
    indexes: &mut X,
    state: &S,
    hashes: X::Hashes,
    item: T,
    places: &mut [Option<(ItemIndex, T)>],
) -> Result<ItemIndex, OverwriteRefusal<T>>
    requires map { IsIndexed (X.indexes indexes.old) state.now items.old.store }
    requires hashed { X.are_hashes state.now item hashes }
    requires enough { X.unique_keys ≤ length places.old }
    requires vacant { places.old ≡ padded (length places.old) [] }
    ensures map { IsIndexed (X.indexes indexes.new) state.now items.new.store }
    ensures overwrites { OverwritesInto X.alike X.grown X.may_need_memory (length places.old)
        (map_with items.old (X.capacity indexes.old) (X.cells indexes.old)) item result places.new
        (map_with items.new (X.capacity indexes.new) (X.cells indexes.new)) }
{
    match insert(items, indexes, state, hashes, item) {
        Ok(ix) => Ok(ix),
        Err(InsertRefusal::Duplicate { item, at }) => {
            overwrite(items, indexes, state, hashes, item, &at, places)
        }
        Err(InsertRefusal::Full(item)) => Err(OverwriteRefusal::Full(item)),
        Err(InsertRefusal::Memory(item)) => Err(OverwriteRefusal::Memory(item)),
    }
}

// Removes the items that share a key with this one, stores it and inserts its index. If memory runs out, it returns the
// item before anything is removed.
fn overwrite<T, X: Changes<T, S>, S>(
    items: &mut ItemSet<T>,
    indexes: &mut X,
    state: &S,
    hashes: X::Hashes,
    item: T,
    at: &X::Conflict,
    places: &mut [Option<(ItemIndex, T)>],
) -> Result<ItemIndex, OverwriteRefusal<T>>
    requires map { IsIndexed (X.indexes indexes.old) state.now items.old.store }
    requires hashed { X.are_hashes state.now item hashes }
    requires reported { X.conflicts items.old.store item at.now }
    requires enough { X.unique_keys ≤ length places.old }
    requires vacant { places.old ≡ padded (length places.old) [] }
    ensures map { IsIndexed (X.indexes indexes.new) state.now items.new.store }
    ensures overwrites { OverwritesInto X.alike X.grown X.may_need_memory (length places.old)
        (map_with items.old (X.capacity indexes.old) (X.cells indexes.old)) item result places.new
        (map_with items.new (X.capacity indexes.new) (X.cells indexes.new)) }
{
    let first = X::next_reported(at, None);
    let blocks = match indexes.blocks_after(items, state) {
        Ok(blocks) => blocks,
        Err(AllocError) => return Err(OverwriteRefusal::Memory(item)),
    };
    remove_reported(items, indexes, state, at, first, places);
    Ok(insert_in_room(items, indexes, state, hashes, blocks, item))
}

// Removes the items that were reported, at least one, into the places, by rising index. The first of them is known.
fn remove_reported<T, X: Changes<T, S>, S>(
    items: &mut ItemSet<T>,
    indexes: &mut X,
    state: &S,
    at: &X::Conflict,
    first: Option<ItemIndex>,
    places: &mut [Option<(ItemIndex, T)>],
)
    requires map { IsIndexed (X.indexes indexes.old) state.now items.old.store }
    requires first { IsNextReported (X.reports at.now) None first }
    requires few { (l : List ℕ) × (length l ≤ X.unique_keys)
        × ((ix : ℕ) → X.reports at.now ix → Contains l ix) }
    requires live { (ix : ℕ) → X.reports at.now ix → IsLive items.old.store ix }
    requires some { (ix : ℕ) × X.reports at.now ix }
    requires enough { X.unique_keys ≤ length places.old }
    requires vacant { places.old ≡ padded (length places.old) [] }
    ensures map { IsIndexed (X.indexes indexes.new) state.now items.new.store }
    ensures taken { TakesAll (X.reports at.now) (length places.old) items.old.store places.new items.new.store }
    ensures slots { items.new.capacity ≡ items.old.capacity }
    ensures room { 1 ≤ room items.new }
    ensures roomy { (plan : X.InsertPlan) (blocks : X.Blocks) → X.are_enough_after indexes.old blocks
        → X.has_room_for indexes.new plan blocks }
    ensures capacity { X.capacity indexes.new ≡ X.capacity indexes.old }
    ensures cells { X.cells indexes.new ≡ X.cells indexes.old }
{
    let mut count = 0;
    let mut next = first;
    while let Some(ix) = next {
        match take_out(items, indexes, state, ix) {
            Some(item) => put_into(places, count, (ix, item)),
            None => unreachable!(),
        }
        count += 1;
        next = X::next_reported(at, Some(ix));
    }
}

/// Stores an item that shares no key with another, and inserts its index. There is room for it.
pub(super) fn insert_in_room<T, X: Changes<T, S>, S>(
    items: &mut ItemSet<T>,
    indexes: &mut X,
    state: &S,
    hashes: X::Hashes,
    blocks: X::Blocks,
    item: T,
) -> ItemIndex
    requires map { IsIndexed (X.indexes indexes.old) state.now items.old.store }
    requires hashed { X.are_hashes state.now item hashes }
    requires apart { HasNoHit items.old.store (X.alike item) }
    requires room { 1 ≤ room items.old }
    requires roomy { (plan : X.InsertPlan) → X.has_room_for indexes.old plan blocks }
    ensures index { result ≡ next_index items.old.store }
    ensures map { IsIndexed (X.indexes indexes.new) state.now items.new.store }
    ensures stored { items.new ≡ record items.old { store = inserted items.old.store item } }
    ensures capacity { X.capacity indexes.new ≡ X.capacity indexes.old }
    ensures cells { X.cells indexes.new ≡ X.cells indexes.old }
{
    let position = indexes.position(items, state, hashes, &item);
    put_in_room(items, indexes, state, hashes, position, blocks, item)
}
