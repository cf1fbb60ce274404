//! Items with three unique keys: a store and three tables of its indexes under hashes.
//!
//! Only the store has the items, and the tables read keys from it. No call changes a key of a stored item, so each
//! table has each live index under the hash of its key now, and a look-up returns what a scan would. Each call that
//! makes or changes a collection says in clauses of its own that this holds, though the type keeps it, so that a
//! caller's proof needs only the calls' clauses.
//!
//! An item that shares keys with others replaces them, which needs no memory: each of the others leaves a slot and a
//! place in each table. If no other shares a key, all memory is taken before anything is written.
//!
//! A clause sees the state and beside it the memory, so a call that leaves the memory as it was says so in one
//! equation.
ghost use Rattle.std.specs.Prelude.{◌≡◌, ◌↔◌, ◌+◌, ◌≤◌, ℕ, min, max, count_by, is_some, IsTrue, OnSome, IsOk, IfOk, Err, option_copied};
ghost use Rattle.iddqd.specs.{get, slot_count, live_count};
ghost use Rattle.iddqd_keys.specs.Scan.{IsLive};
ghost use Rattle.iddqd_by_hash.specs.Hashed.{AreLive, LooksUp};
ghost use Rattle.iddqd_hash.specs.{filed};
ghost use Rattle.iddqd_tri.specs.Clashes.{AreInOrder, IsOneOf};
ghost use Rattle.iddqd_tri.specs.TriKeys.{TriKeys, tri_keys_of, hashes_in};
ghost use Rattle.iddqd_tri.specs.TriState.{empty_tri_state, IsTriState, ClashesAt};
ghost use Rattle.iddqd_tri.specs.TriMemory.{no_memory, capacity, room, Grows, Shrinks, ReservesItems, NeedsMemory};
ghost use Rattle.iddqd_tri.specs.TriTables.{three_hashes};
ghost use Rattle.iddqd_tri.specs.TriCalls.{FindsKey, FindsQuery, RemovesItem, Overwriting};

use crate::clashes::Clashes;
use crate::tri_refusal::TriRefusal;
use crate::tri_steps::{insert_without_clash, remove_item, replace_clashes};
use crate::tri_tables::{TriHashes, TriTables};
use iddqd::item_index::ItemIndex;
use iddqd::item_set::ItemSet;
use iddqd::map_hash::{Equivalent, MapHash};
use iddqd_by_hash::hashed;
use iddqd_by_hash::hashed::query_hash;
use iddqd_hash::hash_table::MapHashTable;
use iddqd_keys::key_of::{KeyOf, KeyQuery};
/// The trait of the items, under another name: an item that is kept in a `TriHashMap` too implements it once.
pub use iddqd_keys::tri_hash_item::TriHashItem as TriItem;
use iddqd_keys::tri_hash_item::{Key1, Key2, Key3, TriHashItem};
use std::alloc::{AllocError, Global};
use std::hash::{BuildHasher, Hash};
use std::marker::Model;

/// Items that contain three keys each. No two items share a key.
#[derive(Drop)]
pub struct TriItems<T: TriHashItem, S: BuildHasher> {
    items: ItemSet<T>,
    // The table of a key has each live index, under the hash of that key of the index's item.
    tables: TriTables,
    state: S,
}

impl<T: TriHashItem, S: BuildHasher> Model for TriItems<T, S> {
    ghost use Rattle.iddqd_tri.specs.TriMemory.{SizedTri, sized_tri_code};

    ghost Value = { SizedTri T S };

    ghost coded = { sized_tri_code T.code S.code };

    ghost use Rattle.iddqd_tri.specs.TriKeys.{tri_keys_of};
    ghost use Rattle.iddqd_tri.specs.TriState.{IsTriState};
    ghost use Rattle.iddqd_tri.specs.TriTables.{tri_state_of, sized_tri_of};

    ghost view = { λ t. sized_tri_of t.state t.items t.tables };

    ghost invariant = { λ t.
        IsTriState (tri_keys_of T.TriHashItem T.Key1.eq T.Key1.hash_input T.Key2.eq T.Key2.hash_input
        T.Key3.eq T.Key3.hash_input S.BuildHasher S.Hasher.Hasher)
        (tri_state_of t.state t.items.store t.tables) };
}

/// The keys of a collection's items, as its clauses speak of them.
pub trait TriKeyed {
    ghost use Rattle.iddqd_tri.specs.TriKeys.{TriKeys};

    /// An item, which contains its keys.
    type Item: TriHashItem;

    /// What hashes keys.
    type State: BuildHasher;

    ghost keys: { TriKeys Self.Item Self.Item.Key1 Self.Item.Key2 Self.Item.Key3 Self.State };
}

impl<T: TriHashItem, S: BuildHasher> TriKeyed for TriItems<T, S> {
    type Item = T;

    type State = S;

    ghost keys = { tri_keys_of T.TriHashItem T.Key1.eq T.Key1.hash_input T.Key2.eq T.Key2.hash_input
        T.Key3.eq T.Key3.hash_input S.BuildHasher S.Hasher.Hasher };
}

impl<T: TriHashItem, S: BuildHasher> TriItems<T, S> {
    /// Empty. It may grow to `u32::MAX` items, one for each index but `SENTINEL`.
    ///
    /// Cost: a few steps; takes no memory.
    pub fn new(alloc: Global, state: S) -> TriItems<T, S>
        ensures empty { result.state ≡ empty_tri_state u32.MAX state }
        ensures memory { result.memory ≡ no_memory }
        ensures state { IsTriState ⟦<Self as TriKeyed>⟧.keys result.state }
    {
        TriItems::with_limit(alloc, state, u32::MAX)
    }

    /// Empty, and never with more slots than the limit.
    ///
    /// Cost: a few steps; takes no memory.
    pub fn with_limit(alloc: Global, state: S, limit: u32) -> TriItems<T, S>
        ensures empty { result.state ≡ empty_tri_state limit state }
        ensures memory { result.memory ≡ no_memory }
        ensures state { IsTriState ⟦<Self as TriKeyed>⟧.keys result.state }
    {
        TriItems {
            items: ItemSet::with_limit(alloc, limit),
            tables: TriTables::new(alloc),
            state,
        }
    }

    /// The number of items.
    ///
    /// Cost: a few steps; takes no memory.
    pub fn len(&self) -> usize
        ensures value { result ≡ live_count self.now.state.store }

        // The invariant of the type, so that a caller's proof has it of any collection.
        ensures state { IsTriState ⟦<Self as TriKeyed>⟧.keys self.now.state }
    {
        self.items.len()
    }

    /// Whether there is no item.
    ///
    /// Cost: a few steps; takes no memory.
    pub fn is_empty(&self) -> bool
        ensures { IsTrue result ↔ (live_count self.now.state.store ≡ 0) }
    {
        self.items.is_empty()
    }

    /// The item at an index, if it is live.
    ///
    /// Cost: a few steps; takes no memory.
    pub fn get(&self, ix: ItemIndex) -> Option<&T>
        ensures { option_copied result ≡ get self.now.state.store ix }
    {
        self.items.get(ix)
    }

    /// The index of the item that has this first key.
    ///
    /// Cost: one look-up; takes no memory.
    pub fn find1(&self, key: &T::Key1) -> Option<ItemIndex>
        ensures { FindsKey ⟦<Self as TriKeyed>⟧.keys.first self.now.state key.now result }
    {
        self.find1_by(&KeyQuery(key))
    }

    /// The index of the item that has this second key.
    ///
    /// Cost: one look-up; takes no memory.
    pub fn find2(&self, key: &T::Key2) -> Option<ItemIndex>
        ensures { FindsKey ⟦<Self as TriKeyed>⟧.keys.second self.now.state key.now result }
    {
        self.find2_by(&KeyQuery(key))
    }

    /// The index of the item that has this third key.
    ///
    /// Cost: one look-up; takes no memory.
    pub fn find3(&self, key: &T::Key3) -> Option<ItemIndex>
        ensures { FindsKey ⟦<Self as TriKeyed>⟧.keys.third self.now.state key.now result }
    {
        self.find3_by(&KeyQuery(key))
    }

    /// The index of the item whose first key the query is equivalent to.
    ///
    /// If the keys that the query is equivalent to are equal to each other and hash as it does, the answer is that of a
    /// scan. Otherwise it may miss an item.
    ///
    /// Cost: one look-up; takes no memory.
    pub fn find1_by<Q: Hash + Equivalent<T::Key1>>(&self, query: &Q) -> Option<ItemIndex>
        ensures { FindsQuery S.BuildHasher S.Hasher.Hasher ⟦<Self as TriKeyed>⟧.keys.first self.now.state
            (Q.hash_input query.now) (Q.equivalent query.now) result }
    {
        let hash = query_hash(&self.state, query);
        hashed::find::<T, Key1, Q>(&self.tables.first, &self.items, hash, query)
    }

    /// The index of the item whose second key the query is equivalent to, as `find1_by`.
    ///
    /// Cost: one look-up; takes no memory.
    pub fn find2_by<Q: Hash + Equivalent<T::Key2>>(&self, query: &Q) -> Option<ItemIndex>
        ensures { FindsQuery S.BuildHasher S.Hasher.Hasher ⟦<Self as TriKeyed>⟧.keys.second self.now.state
            (Q.hash_input query.now) (Q.equivalent query.now) result }
    {
        let hash = query_hash(&self.state, query);
        hashed::find::<T, Key2, Q>(&self.tables.second, &self.items, hash, query)
    }

    /// The index of the item whose third key the query is equivalent to, as `find1_by`.
    ///
    /// Cost: one look-up; takes no memory.
    pub fn find3_by<Q: Hash + Equivalent<T::Key3>>(&self, query: &Q) -> Option<ItemIndex>
        ensures { FindsQuery S.BuildHasher S.Hasher.Hasher ⟦<Self as TriKeyed>⟧.keys.third self.now.state
            (Q.hash_input query.now) (Q.equivalent query.now) result }
    {
        let hash = query_hash(&self.state, query);
        hashed::find::<T, Key3, Q>(&self.tables.third, &self.items, hash, query)
    }

    /// Removes the item at an index, if it is live.
    ///
    /// Cost: a removal from each table; takes no memory.
    pub fn remove(&mut self, ix: ItemIndex) -> Option<T>
        ensures removes { RemovesItem self.old.state ix result self.new.state }
        ensures memory { self.new.memory ≡ self.old.memory }
        ensures room { OnSome result
            (live_count self.old.state.store ≤ capacity self.old → room self.new ≡ room self.old + 1) }
        ensures count { OnSome result (live_count self.old.state.store ≡ live_count self.new.state.store + 1) }
        ensures state_before { IsTriState ⟦<Self as TriKeyed>⟧.keys self.old.state }
        ensures state_after { IsTriState ⟦<Self as TriKeyed>⟧.keys self.new.state }
    {
        remove_item(&mut self.items, &mut self.tables, &self.state, ix)
    }

    /// Inserts an item, and removes the items that share a key with it, at most three. It returns these by rising
    /// index, in the first places of the array.
    ///
    /// If it removes one, or if there is room, it takes no memory and doesn't refuse the item. Otherwise it refuses the
    /// item if the store is full, or if memory runs out. A refusal returns the item, leaves the others, and gives back
    /// no memory that was there.
    ///
    /// Cost: a look-up and an insertion by each key; of each item that it removes a removal from each table; takes
    /// memory only without `room`, and if it removes no item.
    pub fn insert_overwrite(
        &mut self,
        item: T,
    ) -> Result<(ItemIndex, [Option<T>; 3]), TriRefusal<T>>
        ensures overwrites { Overwriting ⟦<Self as TriKeyed>⟧.keys self.old.state item result self.new.state }
        ensures state_before { IsTriState ⟦<Self as TriKeyed>⟧.keys self.old.state }
        ensures state_after { IsTriState ⟦<Self as TriKeyed>⟧.keys self.new.state }

        // Memory is taken only if no item is removed and there is no room. The slots at most double, or become four.
        ensures over_others { (ix : ℕ) → ClashesAt ⟦<Self as TriKeyed>⟧.keys self.old.state.store item ix
            → self.new.memory ≡ self.old.memory }
        ensures in_room { 1 ≤ room self.old → self.new.memory ≡ self.old.memory }
        ensures grows { let s = self.old.state.store in
            Grows s.limit (live_count s + 1) self.old.memory self.new.memory }
        ensures needed { (back : T) → result ≡ Err (TriRefusal.Memory back)
            → NeedsMemory ⟦<Self as TriKeyed>⟧.keys self.old item }
        ensures not_refused { 1 ≤ room self.old → IsOk result }

        // How many items there are then, and for how many more there is room: one item more, without those that it
        // returns.
        ensures count { IfOk result (λ r. live_count self.new.state.store + count_by is_some r.1
            ≡ live_count self.old.state.store + 1) }
        ensures room { IfOk result (λ r. 1 ≤ room self.old
            → room self.new + 1 ≡ room self.old + count_by is_some r.1) }
    {
        let hashes = TriHashes::of(&self.state, &item);
        let clashes = self.clashes(&item, &hashes);
        let (items, tables) = (&mut self.items, &mut self.tables);
        if clashes.is_empty() {
            let ix = insert_without_clash(items, tables, item, hashes)?;
            return Ok((ix, [None, None, None]));
        }
        let (ix, (first, second, third)) = replace_clashes(
            items,
            tables,
            &self.state,
            item,
            hashes,
            clashes,
        );
        Ok((ix, [first, second, third]))
    }
}

/// Reserving memory, and giving it back.
impl<T: TriHashItem, S: BuildHasher> TriItems<T, S> {
    /// Empty, with memory for `capacity` items, but at most for `u32::MAX`. With 0 it takes none.
    ///
    /// An `AllocError` means that memory ran out.
    ///
    /// Cost: clears the cells of the tables; takes memory for so many items.
    pub fn with_capacity(
        alloc: Global,
        state: S,
        capacity: usize,
    ) -> Result<TriItems<T, S>, AllocError>
    where
        S: Drop,
        ensures empty { IfOk result (λ t. t.state ≡ empty_tri_state u32.MAX state) }
        ensures state { IfOk result (λ t. IsTriState ⟦<Self as TriKeyed>⟧.keys t.state) }
        ensures room { IfOk result (λ t. min capacity u32.MAX ≤ room t) }
        ensures few { IfOk result (λ t. Grows u32.MAX (min capacity u32.MAX) no_memory t.memory) }
        ensures none { capacity ≡ 0 → IsOk result }
    {
        let mut items = TriItems::new(alloc, state);
        items.reserve(capacity)?;
        Ok(items)
    }

    /// How many items there can be without more memory.
    ///
    /// Cost: a few steps; takes no memory.
    pub fn capacity(&self) -> usize
        ensures { result ≡ capacity self.now }
    {
        let slots = self.items.capacity().min(self.items.limit());
        slots.min(self.tables.capacity())
    }

    /// How many inserts need no memory.
    ///
    /// Cost: a few steps; takes no memory.
    pub fn room(&self) -> usize
        ensures { result ≡ room self.now }
    {
        self.capacity().saturating_sub(self.len())
    }

    /// Makes room for `additional` more inserts, or for as many as the limit allows.
    ///
    /// If there is room already, it takes no memory. If memory runs out, the items stay, and no part has less memory
    /// than before; parts that have grown stay so.
    ///
    /// Cost: moves what grows; takes memory only if there is less room.
    pub fn reserve(&mut self, additional: usize) -> Result<(), AllocError>
        ensures memory { ReservesItems additional self.old result self.new }
    {
        let len = self.items.len();
        let more = additional.min(self.items.limit() - len);
        self.items.reserve_slots(len + more)?;
        self.tables.reserve(more)
    }

    /// The same as `reserve`, under the name that it has in libraries whose `reserve` can't fail.
    ///
    /// Cost: moves what grows; takes memory only if there is less room.
    pub fn try_reserve(&mut self, additional: usize) -> Result<(), AllocError>
        ensures memory { ReservesItems additional self.old result self.new }
    {
        self.reserve(additional)
    }

    /// Gives back the memory that the slots and the tables don't need. Vacant slots stay.
    ///
    /// If a part can't get smaller memory, the items stay, and no part keeps less than it needs.
    ///
    /// Cost: moves what shrinks; takes memory for the smaller blocks before it gives the greater ones back.
    pub fn shrink_to_fit(&mut self) -> Result<(), AllocError>
        ensures state { self.new.state ≡ self.old.state }
        ensures memory { let s = self.old.state.store in
            Shrinks (slot_count s) (live_count s) self.old.memory result self.new.memory }
    {
        self.shrink_to(0)
    }

    /// Gives back the memory beyond what `least` items need, or the items that there are if these are more.
    ///
    /// Vacant slots stay, and so does their memory. If a part can't get smaller memory, the items stay, and no part
    /// keeps less than was asked, unless it had less before.
    ///
    /// Cost: moves what shrinks; takes memory for the smaller blocks before it gives the greater ones back.
    pub fn shrink_to(&mut self, least: usize) -> Result<(), AllocError>
        ensures state { self.new.state ≡ self.old.state }
        ensures memory { let s = self.old.state.store in
            Shrinks (max least (slot_count s)) (max least (live_count s)) self.old.memory result self.new.memory }
    {
        let slots = self.items.shrink_capacity_to(least);
        let tables = self.tables.shrink_to(least);
        slots.and(tables)
    }
}

impl<T: TriHashItem, S: BuildHasher> TriItems<T, S> {
    // The indexes whose items share a key with this one, by its hashes, which were computed before.
    fn clashes(&self, item: &T, hashes: &TriHashes) -> Clashes
        requires { three_hashes hashes.now ≡ hashes_in ⟦<Self as TriKeyed>⟧.keys self.now.state.hasher item.now }
        ensures ordered { AreInOrder result.first result.second result.third }
        ensures clashes { (ix : ℕ) → IsOneOf result.first result.second result.third ix
            ↔ ClashesAt ⟦<Self as TriKeyed>⟧.keys self.now.state.store item.now ix }
    {
        let (tables, items) = (&self.tables, &self.items);
        Clashes::of(
            find_key::<T, Key1>(&tables.first, items, hashes.first, item),
            find_key::<T, Key2>(&tables.second, items, hashes.second, item),
            find_key::<T, Key3>(&tables.third, items, hashes.third, item),
        )
    }
}

// The index that a table finds by the key of an item.
fn find_key<T, E>(
    table: &MapHashTable,
    items: &ItemSet<T>,
    hash: MapHash,
    item: &T,
) -> Option<ItemIndex>
where
    E: KeyOf<T>,
    E::Key: Eq,
    requires { AreLive items.now.store (filed table.now) }
    ensures { LooksUp E.key_of items.now.store (filed table.now) hash (E.Key.eq (E.key_of item.now)) result }
{
    hashed::find::<T, E, KeyQuery<E::Key>>(table, items, hash, &KeyQuery(E::key(item)))
}
