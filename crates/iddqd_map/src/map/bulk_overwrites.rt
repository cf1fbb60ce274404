//! Inserts the items of an iterator, each in place of those that share a key with it.
ghost use Rattle.std.specs.Prelude.{◌≡◌, ◌+◌, ◌≤◌, ℕ, List, Some, None, IfErr, IfSome, IsOk, IsNone, length};
ghost use Rattle.std.specs.Iterator.{IsNearerEnd, UpTo};
ghost use Rattle.std.specs.List.{FoldsTo};
ghost use Rattle.iddqd.specs.{IsValid, get, removed, room as set_room};
ghost use Rattle.iddqd.specs.LiveItems.{live_items};
ghost use Rattle.iddqd_hash.specs.Asks.{CanAsk};
ghost use Rattle.iddqd_keys.specs.Scan.{IsLive};
ghost use Rattle.iddqd_map.specs.BulkOverwrite.{CanDisplace, Displaces, DisplacesByNext, GivesSomewhere, HandsOver, MayDisplace, OverwritesFrom, OverwritesUntil, TakesAnywhere, overwritten_count};
ghost use Rattle.iddqd_map.specs.KeyIndex.{IsIndexed, IsNextReported};
ghost use Rattle.iddqd_map.specs.Map.{map_with, room};
ghost use Rattle.iddqd_map.specs.Overwrite.{GivesReported};
ghost use Rattle.iddqd_map.specs.Sweep.{GivesPair, TakesPair};

use super::Map;
use super::inserts::insert;
use super::overwrites::insert_in_room;
use super::steps::take_out;
use crate::key_index::{Changes, Upkeep};
use crate::refusal::{InsertRefusal, OverwriteRefusal, StoppedOverwrite};
use iddqd::item_index::ItemIndex;
use iddqd::item_set::ItemSet;
use std::alloc::AllocError;

impl<T, X: Changes<T, S> + Upkeep<T, S>, S> Map<T, X, S> {
    /// Inserts the items of an iterator in turn, each in place of those that share a key with it, up to the first that
    /// is refused, and returns how many were inserted.
    ///
    /// Stored items that share a key with an item are first removed, by rising index, and passed to the closure by
    /// value, each with the index that it had. An item that was inserted before may be displaced, too. A refusal comes
    /// as that of `overwrite_into`, before anything is removed for its item. It comes back with that item, with the
    /// number of items that were inserted before it, and with the rest of the iterator; the items that were inserted
    /// stay. If there is `room` for all that the iterator can give, nothing is refused.
    ///
    /// Memory is reserved at once for as many items as the lower bound of `size_hint`, or as the limit allows; if it
    /// runs out, the items are inserted all the same, as far as there is memory. Each key of an item is hashed once.
    ///
    /// Cost: an `overwrite_into` for each item; reserves memory for the lower bound of `size_hint` at once, then takes
    /// it as that call does.
    ///
    /// Asks: `next` may be called until the iterator ends; its number of items fits a `usize`; the closure may be
    /// called with any item in turn.
    pub fn overwrite_all<I: Iterator<Item = T>, G: FnMut(ItemIndex, T)>(
        &mut self,
        mut iter: I,
        mut gone: G,
    ) -> Result<usize, StoppedOverwrite<T, I>>
        requires next { I.can_next iter }
        requires fits { UpTo (I.remaining iter) usize.MAX }
        requires given { MayDisplace I.next_gives G.FnMut iter gone self.old.store }
        ensures overwrites { OverwritesFrom X.alike X.grown X.may_need_memory (GivesPair G.FnMut) I.next_gives
            I.remaining X.most iter self.old gone result self.new }
        ensures handed { (last : G) × HandsOver (GivesPair G.FnMut) gone last self.old.store self.new.store
            (overwritten_count result) }
        ensures not_refused { UpTo (I.remaining iter) (room self.old) → IsOk result }
        ensures goes_on { IfErr result (λ stopped. I.can_next stopped.rest) }
        ensures nearer { IfErr result (λ stopped. IsNearerEnd I.can_next I.remaining iter stopped.rest) }
    {
        // By its clauses the proof knows that the store is valid.
        let _items = self.len();
        let (least, _) = iter.size_hint();
        let _reserved = self.reserve(least);
        let (inserted, refusal) = self.overwrite_each(&mut iter, &mut gone);
        match refusal {
            None => Ok(inserted),
            Some(refusal) => Err(StoppedOverwrite {
                inserted,
                refusal,
                rest: iter,
            }),
        }
    }

    // Inserts the items of an iterator in turn, up to the first refusal. Returns how many were inserted, and the
    // refusal.
    fn overwrite_each<I: Iterator<Item = T>, G: FnMut(ItemIndex, T)>(
        &mut self,
        iter: &mut I,
        gone: &mut G,
    ) -> (usize, Option<OverwriteRefusal<T>>)
        requires next { I.can_next iter.old }
        requires fits { UpTo (I.remaining iter.old) usize.MAX }
        requires valid { IsValid self.old.store }
        requires given { CanDisplace I.next_gives G.FnMut iter.old gone.old self.old.store }
        ensures overwrites { (items : List T) × (displaced : List (ℕ × T)) × (result.0 ≡ length items)
            × OverwritesUntil X.alike X.grown X.may_need_memory I.next_gives iter.old self.old items result.1 iter.new
            self.new displaced × FoldsTo (GivesPair G.FnMut) gone.old displaced gone.new }
        ensures not_refused { UpTo (I.remaining iter.old) (room self.old) → IsNone result.1 }
        ensures goes_on { IfSome result.1 (λ refusal. I.can_next iter.new) }
        ensures nearer { IfSome result.1 (λ refusal. IsNearerEnd I.can_next I.remaining iter.old iter.new) }
    {
        let mut inserted = 0;
        while let Some(answer) = self.overwrite_next(iter, gone) {
            if let Err(refusal) = answer {
                return (inserted, Some(refusal));
            }
            inserted += 1;
        }
        (inserted, None)
    }

    // Inserts the next item of an iterator; `None` at its end.
    fn overwrite_next<I: Iterator<Item = T>, G: FnMut(ItemIndex, T)>(
        &mut self,
        iter: &mut I,
        gone: &mut G,
    ) -> Option<Result<ItemIndex, OverwriteRefusal<T>>>
        requires next { I.can_next iter.old }
        requires can_give { CanAsk (TakesAnywhere G.FnMut) (GivesSomewhere G.FnMut) gone.old
            (live_items self.old.store) }
        ensures { DisplacesByNext X.alike X.grown X.may_need_memory (GivesPair G.FnMut) I.next_gives I.remaining
            I.can_next iter.old self.old gone.old result iter.new self.new gone.new }
    {
        match iter.next() {
            Some(item) => Some(insert_or_displace(
                &mut self.items,
                &mut self.indexes,
                &self.state,
                item,
                gone,
            )),
            None => None,
        }
    }
}

// Stores the item, and inserts its index. Those that share a key with it are removed, and passed to the closure.
fn insert_or_displace<T, X: Changes<T, S>, S, G: FnMut(ItemIndex, T)>(
    items: &mut ItemSet<T>,
    indexes: &mut X,
    state: &S,
    item: T,
    gone: &mut G,
) -> Result<ItemIndex, OverwriteRefusal<T>>
    requires map { IsIndexed (X.indexes indexes.old) state.now items.old.store }
    requires can_give { CanAsk (TakesAnywhere G.FnMut) (GivesSomewhere G.FnMut) gone.old
        (live_items items.old.store) }
    ensures map { IsIndexed (X.indexes indexes.new) state.now items.new.store }
    ensures displaces { Displaces X.alike X.grown X.may_need_memory (GivesPair G.FnMut)
        (map_with items.old (X.capacity indexes.old) (X.cells indexes.old)) gone.old item result
        (map_with items.new (X.capacity indexes.new) (X.cells indexes.new)) gone.new }
{
    let hashes = X::hashes(state, &item);
    match insert(items, indexes, state, hashes, item) {
        Ok(ix) => Ok(ix),
        Err(InsertRefusal::Duplicate { item, at }) => {
            displace(items, indexes, state, hashes, item, &at, gone)
        }
        Err(InsertRefusal::Full(item)) => Err(OverwriteRefusal::Full(item)),
        Err(InsertRefusal::Memory(item)) => Err(OverwriteRefusal::Memory(item)),
    }
}

// Removes the items that share a key with this one, and passes them to the closure; then it stores the item and inserts
// its index. If memory runs out, it returns the item before anything is removed.
fn displace<T, X: Changes<T, S>, S, G: FnMut(ItemIndex, T)>(
    items: &mut ItemSet<T>,
    indexes: &mut X,
    state: &S,
    hashes: X::Hashes,
    item: T,
    at: &X::Conflict,
    gone: &mut G,
) -> Result<ItemIndex, OverwriteRefusal<T>>
    requires map { IsIndexed (X.indexes indexes.old) state.now items.old.store }
    requires hashed { X.are_hashes state.now item hashes }
    requires reported { X.conflicts items.old.store item at.now }
    requires can_give { CanAsk (TakesAnywhere G.FnMut) (GivesSomewhere G.FnMut) gone.old
        (live_items items.old.store) }
    ensures map { IsIndexed (X.indexes indexes.new) state.now items.new.store }
    ensures displaces { Displaces X.alike X.grown X.may_need_memory (GivesPair G.FnMut)
        (map_with items.old (X.capacity indexes.old) (X.cells indexes.old)) gone.old item result
        (map_with items.new (X.capacity indexes.new) (X.cells indexes.new)) gone.new }
{
    let first = X::next_reported(at, None);
    let blocks = match indexes.blocks_after(items, state) {
        Ok(blocks) => blocks,
        Err(AllocError) => return Err(OverwriteRefusal::Memory(item)),
    };
    give_reported(items, indexes, state, at, first, gone);
    Ok(insert_in_room(items, indexes, state, hashes, blocks, item))
}

// Removes the items that were reported, at least one, by rising index, and passes each to the closure. The first of
// them is known.
fn give_reported<T, X: Changes<T, S>, S, G: FnMut(ItemIndex, T)>(
    items: &mut ItemSet<T>,
    indexes: &mut X,
    state: &S,
    at: &X::Conflict,
    first: Option<ItemIndex>,
    gone: &mut G,
)
    requires map { IsIndexed (X.indexes indexes.old) state.now items.old.store }
    requires first { IsNextReported (X.reports at.now) None first }
    requires live { (ix : ℕ) → X.reports at.now ix → IsLive items.old.store ix }
    requires some { (ix : ℕ) × X.reports at.now ix }
    requires can_give { CanAsk (TakesAnywhere G.FnMut) (GivesSomewhere G.FnMut) gone.old
        (live_items items.old.store) }
    ensures map { IsIndexed (X.indexes indexes.new) state.now items.new.store }
    ensures given { GivesReported (X.reports at.now) (GivesPair G.FnMut) items.old.store gone.old items.new.store
        gone.new }
    ensures slots { items.new.capacity ≡ items.old.capacity }
    ensures room { 1 ≤ set_room items.new }
    ensures roomy { (plan : X.InsertPlan) (blocks : X.Blocks) → X.are_enough_after indexes.old blocks
        → X.has_room_for indexes.new plan blocks }
    ensures capacity { X.capacity indexes.new ≡ X.capacity indexes.old }
    ensures cells { X.cells indexes.new ≡ X.cells indexes.old }
{
    let mut next = first;
    while let Some(ix) = next {
        give_entry(items, indexes, state, ix, gone);
        next = X::next_reported(at, Some(ix));
    }
}

// Removes the item at a live index, and passes it to the closure with the index.
fn give_entry<T, S, X: Changes<T, S>, G: FnMut(ItemIndex, T)>(
    items: &mut ItemSet<T>,
    indexes: &mut X,
    state: &S,
    ix: ItemIndex,
    gone: &mut G,
)
    requires live { IsLive items.old.store ix }
    requires map { IsIndexed (X.indexes indexes.old) state.now items.old.store }
    requires given { (item : T) → get items.old.store ix ≡ Some item → TakesPair G.FnMut gone.old (ix, item) }
    ensures map { IsIndexed (X.indexes indexes.new) state.now items.new.store }
    ensures given { (item : T) → get items.old.store ix ≡ Some item →
        GivesPair G.FnMut gone.old (ix, item) gone.new }
    ensures removed { items.new ≡ record items.old { store = removed items.old.store ix } }
    ensures items_room { set_room items.new ≡ set_room items.old + 1 }
    ensures enough { (blocks : X.Blocks) → X.are_enough_after indexes.old blocks
        → X.are_enough_after indexes.new blocks }
    ensures roomy { (plan : X.InsertPlan) (blocks : X.Blocks) → X.are_enough_after indexes.old blocks
        → X.has_room_for indexes.new plan blocks }
    ensures capacity { X.capacity indexes.new ≡ X.capacity indexes.old }
    ensures cells { X.cells indexes.new ≡ X.cells indexes.old }
{
    match take_out(items, indexes, state, ix) {
        Some(item) => gone(ix, item),
        None => unreachable!(),
    }
}
