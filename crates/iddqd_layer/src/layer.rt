//! A store of indexes without items, and the tables of its hashed and its ordered keys.
//!
//! What always holds (`IsPaired`): each table has each live index exactly once, and no other. An insert checks every
//! way and takes all memory before it writes anything, so nothing is left in one table alone. A removal finds the index
//! in each table, by a walk if a hash or a way is wrong.
//!
//! A key that changed in order has no call that moves its index. A way to the new place that was found while the index
//! stood at the old one is stale once it has left, since nodes merge then. An insert before the removal would need a
//! node where the table is full, so it could run out of memory. To find the gap again by its place in the list would
//! take a step for each index. So a record is moved by `remove`, a search, and `insert`. The index is the same (`next`
//! of `remove`). Where the ordered tables fit their memory there is room for it (`freed`), so no memory is taken. The
//! place is one in the list without the index: `moved-in_order` of `LawfulLemmas`.
ghost use Rattle.std.specs.Prelude.{◌≡◌, ◌≢◌, ◌↔◌, ◌+◌, ◌-◌, ◌<◌, ◌≤◌, ℕ, length, max, min, slice_get, slice_index_or, IfOk, IfSome, IsNone, IsOk, OnOk, OnErr, Err, IsTrue, true, false, option_copied};
ghost use Rattle.iddqd.specs.Compaction.{IsRemapOf, compacted, rank};
ghost use Rattle.iddqd.specs.ItemSet as slots;
ghost use Rattle.iddqd.specs.LiveItems.{live_pairs, IsWalkOf};
ghost use Rattle.iddqd.specs.Sizes.{insertable};
ghost use Rattle.iddqd.specs.Store.{IsFull, IsValid, cleared, empty, inserted, live_count, next_index, removed, sentinel, slot_count};
ghost use Rattle.std.specs.List.Sorted.{IsPermutation};
ghost use Rattle.iddqd_hash.specs.HashTable.{Table};
ghost use Rattle.iddqd_hash.specs.MapHashTable.{filed, indexes_under};
ghost use Rattle.iddqd_keys.specs.Scan.{IsLive};
ghost use Rattle.iddqd_layer.specs.Layer.{Each, EachBy, FitsItsMemory, ForgetsHashed, ForgetsOrdered, HasFewCells, HasSameContents, IsFiled, IsPaired, IsPlaced, IsRefiled, IsTakenOut, IsUnfiled, LeadsToGap, RenamesHashed, RenamesOrdered, ShrinksOrdered, hashed_of, most_keys, ordered_of, room, slot_capacity, store_of};

use crate::hashed_keys::{
    clear_hashed, copy_hashed, insert_hashed, least_hashed_room, new_hashed, rehash_one,
    remove_hashed, rename_hashed, reserve_hashed, shrink_hashed,
};
use crate::ordered_keys::{
    clear_ordered, copy_ordered, insert_ordered, lead_to_gaps, least_ordered_room, new_ordered,
    remove_ordered, rename_ordered, reserve_ordered, shrink_ordered,
};
use crate::refusal::Refusal;
use crate::way::Way;
use iddqd::index_remap::IndexRemap;
use iddqd::item_index::ItemIndex;
use iddqd::item_set::{ItemSet, Iter};
use iddqd::map_hash::MapHash;
use iddqd_hash::hash_table::{IndexesUnder, MapHashTable};
use iddqd_order::btree_table::MapBTreeTable;
use std::alloc::{AllocError, Global};
use std::marker::Model;

/// The most keys of one kind.
pub const MOST_KEYS: usize = 16;

/// Which indexes are live, and for each key a table of them.
#[derive(Drop)]
pub struct Layer {
    items: ItemSet<()>,
    hashed: Vec<MapHashTable>,
    ordered: Vec<MapBTreeTable>,
}

impl Model for Layer {
    ghost use Rattle.std.specs.Coded.{codes};
    ghost use Rattle.iddqd.specs.ItemSet.{sized_store_code};
    ghost use Rattle.iddqd_hash.specs.contracts.hash_table.MapHashTable as hash_table;
    ghost use Rattle.iddqd_layer.specs.Layer.{Layer as State, IsPaired};
    ghost use Rattle.iddqd_order.specs.contracts.btree_table.table.MapBTreeTable as order_table;

    ghost Value = { State };

    ghost coded = { Prim.hlevel (codes, sized_store_code, hash_table.the_row.coded, order_table.the_row.coded) };

    ghost view = { λ l. record { slots = l.items; hashed = l.hashed.items; ordered = l.ordered.items } };

    ghost invariant = { λ l. IsPaired
        (record { slots = l.items; hashed = l.hashed.items; ordered = l.ordered.items }) };
}

impl Layer {
    /// A layer without indexes, with tables for this many hashed and ordered keys.
    ///
    /// `Count` means that more than sixteen of one kind were asked for.
    ///
    /// Cost: a step for each key; takes memory for the list of the tables, and none for the tables.
    pub fn new(alloc: Global, hashed: usize, ordered: usize) -> Result<Layer, Refusal>
        ensures store { IfOk result (λ layer. store_of layer ≡ empty) }
        ensures hashed { IfOk result (λ layer. length (hashed_of layer) ≡ hashed) }
        ensures ordered { IfOk result (λ layer. length (ordered_of layer) ≡ ordered) }
        ensures count { result ≡ Err Refusal.Count → (hashed ≤ most_keys) × (ordered ≤ most_keys) → ⊥ }
        ensures few { IsOk result → (hashed ≤ most_keys) × (ordered ≤ most_keys) }
        ensures fits { IfOk result FitsItsMemory }
        ensures errors { (result ≡ Err Refusal.Way → ⊥) × (result ≡ Err Refusal.Full → ⊥) }
    {
        if hashed > MOST_KEYS || ordered > MOST_KEYS {
            return Err(Refusal::Count);
        }
        let Ok(hashed_tables) = new_hashed(alloc, hashed) else {
            return Err(Refusal::Memory);
        };
        let Ok(ordered_tables) = new_ordered(alloc, ordered) else {
            return Err(Refusal::Memory);
        };
        Ok(Layer {
            items: ItemSet::new(alloc),
            hashed: hashed_tables,
            ordered: ordered_tables,
        })
    }

    /// The number of live indexes.
    ///
    /// Cost: constant.
    pub fn len(&self) -> usize
        ensures length { result ≡ live_count (store_of self.now) }
        ensures paired { IsPaired self.now }
    {
        self.items.len()
    }

    /// The number of slots: of the live indexes, and of those that were freed and not given again.
    ///
    /// Cost: constant.
    pub fn slots(&self) -> usize
        ensures { result ≡ slot_count (store_of self.now) }
    {
        self.items.slot_count()
    }

    /// Whether the index is live.
    ///
    /// Cost: constant.
    pub fn is_live(&self, ix: ItemIndex) -> bool
        ensures { IsTrue result ↔ IsLive (store_of self.now) ix }
    {
        self.items.get(ix).is_some()
    }

    /// The table of a hashed key: look-ups under a hash by `indexes_under`, and walks.
    ///
    /// Cost: constant.
    pub fn hashed(&self, key: usize) -> Option<&MapHashTable>
        ensures { option_copied result ≡ slice_get (hashed_of self.now) key }
    {
        self.hashed.get(key)
    }

    /// The indexes under a hash in the table of a hashed key, each once. `None` if and only if there is no such key.
    ///
    /// Cost: of the whole walk, what a look-up that misses costs.
    pub fn under(&self, key: usize, hash: u64) -> Option<IndexesUnder<'_>>
        ensures under { IfSome result (λ walk. (t : Table ℕ) →
            IsPermutation (indexes_under hash (filed (slice_index_or (hashed_of self.now) key t))) walk) }
        ensures none { IsNone result → key < length (hashed_of self.now) → ⊥ }
    {
        match self.hashed.get(key) {
            Some(table) => Some(table.indexes_under(MapHash::new(hash))),
            None => None,
        }
    }

    /// The table of an ordered key: searches by steps, and walks both ways.
    ///
    /// Cost: constant.
    pub fn ordered(&self, key: usize) -> Option<&MapBTreeTable>
        ensures { option_copied result ≡ slice_get (ordered_of self.now) key }
    {
        self.ordered.get(key)
    }

    /// How many inserts need no memory.
    ///
    /// Cost: a step for each key.
    pub fn room(&self) -> usize
        ensures { result ≡ room self.now }
    {
        let least = least_ordered_room(&self.ordered, self.items.room());
        least_hashed_room(&self.hashed, least)
    }

    /// Makes room for `additional` more indexes, or for as many as there can be.
    ///
    /// If memory runs out, the contents stay. Within `room` it takes none, changes nothing and can't fail.
    ///
    /// Cost: a step for each key; where memory is taken, a step for each index of a table that grows.
    pub fn reserve(&mut self, additional: usize) -> Result<(), AllocError>
        ensures same { HasSameContents self.old self.new }
        ensures room { OnOk result (min additional (insertable (store_of self.old)) ≤ room self.new) }
        ensures roomy { OnErr result (room self.old < additional) }
        ensures room_kept { room self.old ≤ room self.new }
        ensures unchanged { additional ≤ room self.old → self.new ≡ self.old }
        ensures fits { FitsItsMemory self.old → FitsItsMemory self.new }
    {
        if additional <= self.room() {
            return Ok(());
        }
        reserve_slots(&mut self.items, additional)?;
        reserve_hashed(&mut self.hashed, additional)?;
        reserve_ordered(&mut self.ordered, additional)
    }

    /// Draws the next index, and inserts it into each hashed key's table under its hash, and into each ordered key's
    /// table at the gap to which its way leads.
    ///
    /// If it is refused, nothing changes but what memory is reserved. Within `room` it isn't refused for memory, and
    /// uses up one of it. So within a room of k the next k inserts take no memory, and each removal among them gives
    /// one back.
    ///
    /// Cost: a step for each hashed key, and some steps for each level of each ordered key.
    pub fn insert(&mut self, hashes: &[u64], ways: &[Way]) -> Result<ItemIndex, Refusal>
        ensures index { IfOk result (λ ix. ix ≡ next_index (store_of self.old)) }
        ensures assigned { IfOk result (λ ix. ix ≢ sentinel) }
        ensures stored { OnOk result (store_of self.new ≡ inserted (store_of self.old) tt) }
        ensures hashed { IfOk result (λ ix. EachBy (IsFiled ix) hashes.now (hashed_of self.old) (hashed_of self.new)) }
        ensures ordered { IfOk result
            (λ ix. EachBy (IsPlaced ix) ways.now (ordered_of self.old) (ordered_of self.new)) }
        ensures refused { OnErr result (HasSameContents self.old self.new) }
        ensures count { result ≡ Err Refusal.Count → length hashes.now ≡ length (hashed_of self.old) →
            length ways.now ≡ length (ordered_of self.old) → ⊥ }
        ensures fit { IsOk result → (length hashes.now ≡ length (hashed_of self.old))
            × (length ways.now ≡ length (ordered_of self.old)) }
        ensures led { IsOk result → Each LeadsToGap (ordered_of self.old) ways.now }
        ensures way { result ≡ Err Refusal.Way → Each LeadsToGap (ordered_of self.old) ways.now → ⊥ }
        ensures full { result ≡ Err Refusal.Full → IsFull (store_of self.old) }
        ensures memory { result ≡ Err Refusal.Memory → room self.old ≡ 0 }
        ensures room { OnOk result (1 ≤ room self.old → room self.old ≡ room self.new + 1) }
        ensures room_kept { OnErr result (room self.old ≤ room self.new) }
        ensures fits { FitsItsMemory self.old → FitsItsMemory self.new }
    {
        if hashes.len() != self.hashed.len() || ways.len() != self.ordered.len() {
            return Err(Refusal::Count);
        }
        if !lead_to_gaps(&self.ordered, ways) {
            return Err(Refusal::Way);
        }
        if self.is_full() {
            return Err(Refusal::Full);
        }
        if self.reserve(1).is_err() {
            return Err(Refusal::Memory);
        }
        Ok(self.insert_reserved(hashes, ways))
    }

    /// Removes an index, if it is live, from the store and from each table. It is the next to be drawn.
    ///
    /// The hashes and ways say where it stands in each table; where one is wrong or missing, the table is walked. It
    /// takes no memory. Where each ordered table fits its memory, it gives room for one more insert.
    ///
    /// Cost: a step for each hashed key, and some steps for each level of each ordered key; where a hash or a way is
    /// wrong, a step for each index.
    pub fn remove(&mut self, ix: ItemIndex, hashes: &[u64], ways: &[Way]) -> bool
        ensures live { IsTrue result ↔ IsLive (store_of self.old) ix }
        ensures stored { result ≡ true → store_of self.new ≡ removed (store_of self.old) ix }
        ensures hashed { result ≡ true → Each (IsUnfiled ix) (hashed_of self.old) (hashed_of self.new) }
        ensures ordered { result ≡ true → Each (IsTakenOut ix) (ordered_of self.old) (ordered_of self.new) }
        ensures next { result ≡ true → next_index (store_of self.new) ≡ ix }
        ensures freed { result ≡ true → FitsItsMemory self.old → room self.new ≡ room self.old + 1 }
        ensures room_kept { room self.old ≤ room self.new }
        ensures fits { FitsItsMemory self.old → FitsItsMemory self.new }
        ensures kept { result ≡ false → self.new ≡ self.old }
    {
        let Some(()) = self.items.remove(ix) else {
            return false;
        };
        remove_hashed(&mut self.hashed, hashes, ix);
        remove_ordered(&mut self.ordered, ways, ix);
        true
    }

    /// Files a live index under another hash in the table of one hashed key, for a record whose key changed. False, and
    /// nothing changes, if the index isn't live or there is no such key. It takes no memory.
    ///
    /// `from` is the hash that it was filed under; where that is wrong, the table is walked.
    ///
    /// Cost: constant on average; where `from` is wrong, a step for each index.
    pub fn rehash(&mut self, ix: ItemIndex, key: usize, from: u64, to: u64) -> bool
        ensures done { IsTrue result ↔ (IsLive (store_of self.old) ix × (key < length (hashed_of self.old))) }
        ensures store { store_of self.new ≡ store_of self.old }
        ensures filed { result ≡ true → (t : Table ℕ) → IsRefiled ix to
            (slice_index_or (hashed_of self.old) key t) (slice_index_or (hashed_of self.new) key t) }
        ensures others { (k : ℕ) (t : Table ℕ) → k ≢ key →
            slice_index_or (hashed_of self.new) k t ≡ slice_index_or (hashed_of self.old) k t }
        ensures ordered { ordered_of self.new ≡ ordered_of self.old }
        ensures room { room self.new ≡ room self.old }
        ensures kept { result ≡ false → self.new ≡ self.old }
    {
        if self.items.get(ix).is_none() || key >= self.hashed.len() {
            return false;
        }
        rehash_one(&mut self.hashed[key], ix, from, to);
        true
    }

    /// The live indexes, by number.
    ///
    /// Cost: a step for each slot, over the whole walk.
    pub fn indexes(&self) -> Iter<'_, ()>
        ensures pairs { result ≡ live_pairs (store_of self.now) }
        ensures walk { IsWalkOf (store_of self.now) result }
    {
        self.items.iter()
    }

    /// Gives back memory that is needed neither for the slots and indexes that there are nor for `least` of them.
    ///
    /// Room for as many inserts as make `least` indexes stays, if it was there. If a smaller memory can't be allocated,
    /// the contents stay.
    ///
    /// Cost: a step for each key; where memory is given back, a step for each slot and each index.
    pub fn shrink_to(&mut self, least: usize) -> Result<(), AllocError>
        ensures same { HasSameContents self.old self.new }
        ensures slots { OnOk result (slot_capacity self.new ≡ min (slot_capacity self.old)
            (max least (slot_count (store_of self.old)))) }
        ensures hashed { OnOk result (Each (HasFewCells least) (hashed_of self.old) (hashed_of self.new)) }
        ensures ordered { Each (ShrinksOrdered least) (ordered_of self.old) (ordered_of self.new) }
        ensures room { min (room self.old) (least - live_count (store_of self.old)) ≤ room self.new }
        ensures fits { FitsItsMemory self.old → FitsItsMemory self.new }
    {
        shrink_ordered(&mut self.ordered, least);
        self.items.shrink_capacity_to(least)?;
        shrink_hashed(&mut self.hashed, least)
    }

    /// Forgets all indexes and all slots, so that the next index is 0. It takes no memory, and keeps what there is.
    ///
    /// Cost: a step for each index and each table.
    pub fn clear(&mut self)
        ensures store { store_of self.new ≡ cleared (store_of self.old) }
        ensures hashed { Each ForgetsHashed (hashed_of self.old) (hashed_of self.new) }
        ensures ordered { Each ForgetsOrdered (ordered_of self.old) (ordered_of self.new) }
        ensures room { room self.old ≤ room self.new }
        ensures fits { FitsItsMemory self.new }
    {
        self.items.clear();
        clear_hashed(&mut self.hashed);
        clear_ordered(&mut self.ordered);
    }

    /// Gives each live index its rank as its new name, so that no slot is vacant, and returns the new names.
    ///
    /// If memory for the list of them runs out, nothing changes. If no slot is vacant, it takes none and nothing
    /// changes.
    ///
    /// Cost: a step for each slot, and for each index of each table.
    pub fn compact(&mut self) -> Result<IndexRemap, AllocError>
        ensures remap { IfOk result (IsRemapOf (store_of self.old)) }
        ensures store { OnOk result (store_of self.new ≡ compacted (store_of self.old)) }
        ensures hashed { OnOk result (Each (RenamesHashed (rank (store_of self.old)))
            (hashed_of self.old) (hashed_of self.new)) }
        ensures ordered { OnOk result (Each (RenamesOrdered (rank (store_of self.old)))
            (ordered_of self.old) (ordered_of self.new)) }
        ensures refused { OnErr result (self.new ≡ self.old) }
        ensures room { room self.old ≤ room self.new }
        ensures fits { FitsItsMemory self.old → FitsItsMemory self.new }
    {
        let remap = match self.items.compact() {
            Ok(remap) => remap,
            Err(AllocError) => return Err(AllocError),
        };
        rename_hashed(&mut self.hashed, &remap);
        rename_ordered(&mut self.ordered, &remap);
        Ok(remap)
    }

    // Whether there are as many live indexes as there can be.
    fn is_full(&self) -> bool
        ensures { IsTrue result ↔ IsFull (store_of self.now) }
    {
        let _slots = self.items.slot_count();
        self.items.limit() == self.items.len()
    }

    // Draws the next index and inserts it into each table. There is room.
    fn insert_reserved(&mut self, hashes: &[u64], ways: &[Way]) -> ItemIndex
        requires hashes { length hashes.now ≡ length (hashed_of self.old) }
        requires ways { Each LeadsToGap (ordered_of self.old) ways.now }
        requires not_full { IsFull (store_of self.old) → ⊥ }
        requires room { 1 ≤ room self.old }
        ensures index { result ≡ next_index (store_of self.old) }
        ensures assigned { result ≢ sentinel }
        ensures stored { store_of self.new ≡ inserted (store_of self.old) tt }
        ensures hashed { EachBy (IsFiled result) hashes.now (hashed_of self.old) (hashed_of self.new) }
        ensures ordered { EachBy (IsPlaced result) ways.now (ordered_of self.old) (ordered_of self.new) }
        ensures room { room self.old ≡ room self.new + 1 }
        ensures fits { FitsItsMemory self.new }
    {
        let ix = draw(&mut self.items);
        insert_hashed(&mut self.hashed, hashes, ix);
        insert_ordered(&mut self.ordered, ways, ix);
        ix
    }
}

/// A copy has the same indexes in each table. Its ordered tables reserve nothing. If memory runs out, what was copied
/// so far is dropped.
impl Clone for Layer {
    ghost use Rattle.iddqd_layer.specs.Layer.{IsCopy};

    ghost is_clone = { IsCopy };

    fn clone(&self) -> Result<Layer, AllocError> {
        Ok(Layer {
            items: self.items.clone()?,
            hashed: copy_hashed(&self.hashed, *self.hashed.allocator())?,
            ordered: copy_ordered(&self.ordered, *self.ordered.allocator())?,
        })
    }
}

// Draws the next index. There is room.
fn draw(items: &mut ItemSet<()>) -> ItemIndex
    requires not_full { IsFull items.old.store → ⊥ }
    requires room { 1 ≤ slots.room items.old }
    ensures index { result ≡ next_index items.old.store }
    ensures assigned { result ≢ sentinel }
    ensures stored { items.new.store ≡ inserted items.old.store tt }
    ensures room { slots.room items.old ≡ slots.room items.new + 1 }
{
    match items.assert_can_grow() {
        Ok(handle) => handle.insert(()),
        Err(_) => unreachable!(),
    }
}

// Makes room in the store for `additional` more indexes, or for as many as there can be.
fn reserve_slots(items: &mut ItemSet<()>, additional: usize) -> Result<(), AllocError>
    ensures store { items.new.store ≡ items.old.store }
    ensures room { OnOk result (min additional (insertable items.old.store) ≤ slots.room items.new) }
    ensures room_kept { slots.room items.old ≤ slots.room items.new }
{
    if additional <= items.room() {
        return Ok(());
    }
    items.reserve(additional)
}
