//! Items with two keys each: a store, a hash table for the first keys, an ordered one for the second.
//!
//! Only the store has the items, and so the keys: both tables hold indexes, and read the key of an index from the store
//! when they need it. So one item is stored once. An index stays valid until its item is removed, or until `compact`
//! moves all items down or `clear` forgets them. Every live index is in both tables once, and no other index is, even
//! if keys change silently: an insert takes all memory before it writes anything, and a removal that frees a slot
//! removes its index from both tables.
//!
//! A removal searches both tables, by the keys that the item has now, and scans a table only if the search misses. An
//! insert searches the ordered table once, which finds a duplicate or the place of the new index. Each call that
//! `step` makes has a clause that the states before and after it are paired, though the type says so too: `step` and
//! `run` are proved from the calls' clauses alone.
//!
//! The calls that the machine's commands make stand in one file. What else the type has stands in the modules below.
ghost use Rattle.std.specs.Prelude.{◌≡◌, ◌↔◌, ◌≤◌, ◌+◌, [], None, IsTrue, IsSome, OnSome, IsOk, IfOk, OnOk, IfErr, OnErr, option_copied};
ghost use Rattle.std.specs.FinMap as finite;
ghost use Rattle.iddqd.specs.{get, live_count, slot_count, next_index, removed, IsValid, IsRemapOf};
ghost use Rattle.iddqd_hash.specs.{filed};
ghost use Rattle.iddqd_order.specs.{indexes_left, order_of, without};
ghost use Rattle.iddqd_order.specs.MapBTreeTable.{capacity as ordered_capacity};
ghost use Rattle.iddqd_keys.specs.Scan.{IsLive};
ghost use Rattle.iddqd_by_order.specs.Ordered as by_order;
ghost use Rattle.iddqd_driver.specs.Keys.{keys_of};
ghost use Rattle.iddqd_driver.specs.State.{empty_state, empty_state_within, cleared_state, Compacts, IsPaired};
ghost use Rattle.iddqd_driver.specs.KeyIndexes.{first_key_index, second_key_index, finds_reported, hash_in, LooksUp, IsInSync, Keeps, KeepsUnlessChanged};
ghost use Rattle.iddqd_driver.specs.Machine.{Refuses, Inserts, ReportsAsScan, Removes, RemovesBy, Overwrites, Step};
ghost use Rattle.iddqd_driver.specs.Run.{Run};
ghost use Rattle.iddqd_driver.specs.Memory.{no_memory, capacity, room, InsertsInMemory, IsDuplicate, TakesForOne, StepsInMemory, RunsInMemory};
ghost use Rattle.iddqd_driver.specs.Parts.{InsertsParts};

mod defaults;
mod memory;
mod prints;
mod validation;
mod walks;

use crate::command::{Command, Reply};
use crate::keyed_item::{First, KeyedItem, Second};
use iddqd::hash_builder::DefaultHashBuilder;
use iddqd::index_remap::IndexRemap;
use iddqd::item_index::{ItemIndex, OrDash};
use iddqd::item_set::{GrowError, ItemSet};
use iddqd::map_hash::MapHash;
use iddqd_by_hash::hashed;
use iddqd_by_order::ordered;
use iddqd_hash::hash_table::MapHashTable;
use iddqd_keys::key_of::KeyQuery;
use iddqd_order::btree_table::{Entry, MapBTreeTable};
use std::alloc::{AllocError, Global};
use std::error::Error;
use std::fmt;
use std::hash::BuildHasher;
use std::marker::Model;

/// Items that contain two keys each.
///
/// An insert refuses an item if a look-up finds one of its keys. Until `overwrite` changes a key silently, look-ups
/// find every key that is there.
#[derive(Drop)]
pub struct KeyedItems<T: KeyedItem, S: BuildHasher = DefaultHashBuilder> {
    items: ItemSet<T>,
    // Each live index, under the hash of the first key that it was inserted with.
    filed: MapHashTable,
    // Each live index: by second key, ties by index, if no second key was changed silently.
    order: MapBTreeTable,
    state: S,
    alloc: Global,
}

impl<T: KeyedItem, S: BuildHasher> Model for KeyedItems<T, S> {
    ghost use Rattle.iddqd_driver.specs.State.{state_of, IsPaired};
    ghost use Rattle.iddqd_driver.specs.Memory.{SizedState, sized_state_code, sized_of};

    ghost Value = { SizedState T S };

    ghost coded = { sized_state_code T.code S.code };

    ghost view = { λ k. sized_of k.state k.items k.filed k.order };

    ghost invariant = { λ k. IsPaired (state_of k.state k.items.store k.filed k.order) };
}

/// Why an item was not inserted. The item comes back.
#[derive(Debug, PartialEq, Eq, Drop)]
pub enum InsertRefusal<T> {
    /// One of its keys was found: what the look-ups of its first and its second key returned.
    Duplicate {
        item: T,
        first: Option<ItemIndex>,
        second: Option<ItemIndex>,
    },
    /// Neither of its keys was found, and there are as many items as the limit allows.
    Full(T),
    /// Neither of its keys was found, the store is not full, and memory ran out.
    Memory(T),
}

impl<T> fmt::Display for InsertRefusal<T> {
    ghost use Rattle.std.specs.Prelude.{Some};
    ghost use Rattle.iddqd_driver.specs.Refusal.{refusal_text};

    ghost output = { λ refusal. Some (refusal_text refusal) };

    fn fmt<W: fmt::Write>(&self, f: &mut fmt::Formatter<W>) -> fmt::Result {
        match self {
            InsertRefusal::Duplicate { first, second, .. } => {
                write!(f, "duplicate {} {}", OrDash(*first), OrDash(*second))
            }
            InsertRefusal::Full(_) => write!(f, "full"),
            InsertRefusal::Memory(_) => write!(f, "no memory"),
        }
    }
}

impl<T: fmt::Debug + Drop> Error for InsertRefusal<T> {}

/// The keys of a collection's items, as its clauses speak of them.
pub trait Keyed {
    ghost use Rattle.iddqd_driver.specs.Keys.{Keys};

    /// An item, which contains its keys.
    type Item: KeyedItem;

    /// What hashes first keys.
    type Hasher: BuildHasher;

    ghost keys: { Keys Self.Item Self.Item.Key1 Self.Item.Key2 Self.Hasher };
}

impl<T: KeyedItem, S: BuildHasher> Keyed for KeyedItems<T, S> {
    type Item = T;

    type Hasher = S;

    ghost keys = { keys_of T.KeyedItem T.Key1.eq T.Key1.hash_input T.Key2.cmp S.BuildHasher S.Hasher.Hasher };
}

impl<T: KeyedItem, S: BuildHasher> KeyedItems<T, S> {
    /// Empty. It may grow to `u32::MAX` items, one for each index but `SENTINEL`.
    ///
    /// Cost: a few steps; takes no memory.
    pub fn new(alloc: Global, state: S) -> KeyedItems<T, S>
        ensures state { result.state ≡ empty_state state }
        ensures memory { result.memory ≡ no_memory }
    {
        KeyedItems::with_limit(alloc, state, u32::MAX)
    }

    /// Empty, and never with more slots than the limit.
    ///
    /// No command changes the limit: `clear` and `compact` keep it.
    ///
    /// Cost: a few steps; takes no memory.
    pub fn with_limit(alloc: Global, state: S, limit: u32) -> KeyedItems<T, S>
        ensures state { result.state ≡ empty_state_within limit state }
        ensures memory { result.memory ≡ no_memory }
    {
        KeyedItems {
            items: ItemSet::with_limit(alloc, limit),
            filed: MapHashTable::new(alloc),
            order: MapBTreeTable::new(alloc),
            state,
            alloc,
        }
    }

    /// The number of items.
    ///
    /// Cost: a few steps; takes no memory.
    pub fn len(&self) -> usize
        ensures value { result ≡ live_count self.now.state.store }

        // The invariant of the type, so that a caller's proof has it of any collection.
        ensures paired { IsPaired self.now.state }
    {
        self.items.len()
    }

    /// Whether there is no item.
    ///
    /// Cost: a few steps; takes no memory.
    pub fn is_empty(&self) -> bool
        ensures { IsTrue result ↔ (live_count self.now.state.store ≡ 0) }
    {
        self.items.is_empty()
    }

    /// The number of slots, live and vacant. Every live index is below it. If a slot is vacant, `compact` lists a new
    /// index for each of them.
    ///
    /// Cost: a few steps; takes no memory.
    pub fn slot_count(&self) -> usize
        ensures { result ≡ slot_count self.now.state.store }
    {
        self.items.slot_count()
    }

    /// How many slots there can be at most. With as many items, an insert is refused as `Full`.
    ///
    /// Cost: a few steps; takes no memory.
    pub fn limit(&self) -> usize
        ensures { result ≡ self.now.state.store.limit }
    {
        self.items.limit()
    }

    /// The item at an index, if it is live.
    ///
    /// Cost: a few steps; takes no memory.
    pub fn get(&self, ix: ItemIndex) -> Option<&T>
        ensures { option_copied result ≡ get self.now.state.store ix }
    {
        self.items.get(ix)
    }

    /// The state of the hasher, by which first keys are hashed.
    ///
    /// Cost: a few steps; takes no memory.
    pub fn hasher(&self) -> &S
        ensures { result.now ≡ self.now.state.hasher }
    {
        &self.state
    }

    /// The index of the item with this first key. Only keys of the same hash are compared with it.
    ///
    /// Cost: one look-up by the first key; takes no memory.
    pub fn find1(&self, key: &T::Key1) -> Option<ItemIndex>
        ensures paired { IsPaired self.now.state }
        ensures found { LooksUp (first_key_index ⟦<Self as Keyed>⟧.keys) self.now.state key.now result }
    {
        self.hash_and_find(key).1
    }

    /// The index of the item with this second key.
    ///
    /// It is one search of the ordered table, whose contract allows at most 4 + 2d comparisons, where the number of
    /// items has d binary digits. The contract here doesn't count them; tests do.
    ///
    /// Cost: one search by the second key; takes no memory.
    #[tactic(auto, using(crate::proofs::KeepsLemmas::order_has_live_indexes))]
    pub fn find2(&self, key: &T::Key2) -> Option<ItemIndex>
        ensures paired { IsPaired self.now.state }
        ensures found { LooksUp (second_key_index ⟦<Self as Keyed>⟧.keys) self.now.state key.now result }
    {
        ordered::find::<T, Second, KeyQuery<T::Key2>>(&self.order, &self.items, &KeyQuery(key))
    }

    /// Inserts an item, if neither of its keys is found.
    ///
    /// A duplicate is reported even if the store is full or no memory is left, and a full store even if
    /// no memory is left. With room, an item is refused only as a duplicate. A refusal returns the item and
    /// changes nothing.
    ///
    /// Cost: one look-up by the first key and one search by the second; takes memory only without `room`.
    pub fn insert(&mut self, item: T) -> Result<ItemIndex, InsertRefusal<T>>
        ensures inserts { Inserts ⟦<Self as Keyed>⟧.keys self.old.state item result self.new.state }
        ensures tells { ReportsAsScan ⟦<Self as Keyed>⟧.keys self.old.state item result }
        ensures keeps { Keeps ⟦<Self as Keyed>⟧.keys self.old.state self.new.state }
        ensures memory { InsertsInMemory (1 ≤ room self.old) self.old.memory result self.new.memory }
        ensures few { let store = self.old.state.store in
            TakesForOne store.limit (live_count store) self.old.memory self.new.memory }
        ensures room { OnOk result (1 ≤ room self.old → room self.old ≡ room self.new + 1) }
        ensures not_refused { 1 ≤ room self.old → IfErr result IsDuplicate }
        ensures count { OnOk result (live_count self.new.state.store ≡ live_count self.old.state.store + 1) }
    {
        let (hash, first) = self.hash_and_find(item.key1());
        let (items, filed, order) = (&mut self.items, &mut self.filed, &mut self.order);
        insert_item(items, filed, order, item, hash, first)
    }

    /// Removes the item at an index, if it is live, whatever its keys are now.
    ///
    /// Cost: one hash of the first key, and one search by the second, unless a key was overwritten, and then a scan of
    /// that table; takes no memory.
    pub fn remove(&mut self, ix: ItemIndex) -> Option<T>
        ensures removes { Removes self.old.state ix result self.new.state }
        ensures live { IsSome result ↔ IsLive self.old.state.store ix }
        ensures keeps { Keeps ⟦<Self as Keyed>⟧.keys self.old.state self.new.state }
        ensures memory { self.new.memory ≡ self.old.memory }
        ensures room { OnSome result
            (live_count self.old.state.store ≤ capacity self.old → room self.new ≡ room self.old + 1) }
        ensures count { OnSome result (live_count self.old.state.store ≡ live_count self.new.state.store + 1) }
    {
        let Some(item) = self.items.get(ix) else {
            return None;
        };
        let hash = hashed::hash_of::<T, First, S>(&self.state, item);
        hashed::remove_index(&mut self.filed, hash, ix);
        Some(remove_item(&mut self.order, &mut self.items, ix))
    }

    /// Removes the item with this first key.
    ///
    /// Cost: one look-up by the first key, and one search by the second, as of `remove`; takes no memory.
    pub fn remove1(&mut self, key: &T::Key1) -> Option<(ItemIndex, T)>
        ensures removes { RemovesBy (first_key_index ⟦<Self as Keyed>⟧.keys) self.old.state key.now result
            self.new.state }
        ensures keeps { Keeps ⟦<Self as Keyed>⟧.keys self.old.state self.new.state }
        ensures memory { self.new.memory ≡ self.old.memory }
        ensures room { OnSome result
            (live_count self.old.state.store ≤ capacity self.old → room self.new ≡ room self.old + 1) }
        ensures count { OnSome result (live_count self.old.state.store ≡ live_count self.new.state.store + 1) }
    {
        let hash = self.filed.compute_hash(&self.state, key);
        let (filed, query) = (&mut self.filed, KeyQuery(key));
        let Some(ix) = hashed::take::<T, First, KeyQuery<T::Key1>>(filed, &self.items, hash, &query)
        else {
            return None;
        };
        Some((ix, remove_item(&mut self.order, &mut self.items, ix)))
    }

    /// Removes the item with this second key.
    ///
    /// Cost: one search by the second key, and one hash of the first, as of `remove`; takes no memory.
    pub fn remove2(&mut self, key: &T::Key2) -> Option<(ItemIndex, T)>
        ensures removes { RemovesBy (second_key_index ⟦<Self as Keyed>⟧.keys) self.old.state key.now result
            self.new.state }
        ensures keeps { Keeps ⟦<Self as Keyed>⟧.keys self.old.state self.new.state }
        ensures memory { self.new.memory ≡ self.old.memory }
        ensures room { OnSome result
            (live_count self.old.state.store ≤ capacity self.old → room self.new ≡ room self.old + 1) }
        ensures count { OnSome result (live_count self.old.state.store ≡ live_count self.new.state.store + 1) }
    {
        let (order, query) = (&mut self.order, KeyQuery(key));
        let Some(ix) = ordered::take::<T, Second, KeyQuery<T::Key2>>(order, &self.items, &query)
        else {
            return None;
        };
        let item = take_item(&mut self.items, ix);
        let hash = hashed::hash_of::<T, First, S>(&self.state, &item);
        hashed::remove_index(&mut self.filed, hash, ix);
        Some((ix, item))
    }

    /// Replaces the item at a live index, and returns the old one. If the index isn't live, it returns the given item.
    ///
    /// Neither table is updated, whatever the keys of both items: the index stays filed under the hash that it has, and
    /// in its place in the order. Look-ups may then miss the new keys, and look-ups by second key any other, but none
    /// hits a wrong one, and the index can still be removed.
    ///
    /// Cost: a few steps; takes no memory.
    pub fn overwrite(&mut self, ix: ItemIndex, item: T) -> Result<T, T>
        ensures overwrites { Overwrites self.old.state ix item result self.new.state }
        ensures keeps { KeepsUnlessChanged ⟦<Self as Keyed>⟧.keys self.old.state ix item self.new.state }
        ensures memory { self.new.memory ≡ self.old.memory }
        ensures count { live_count self.new.state.store ≡ live_count self.old.state.store }
    {
        let Some(_) = self.items.get(ix) else {
            return Err(item);
        };
        Ok(self.items.replace(ix, item))
    }

    /// Moves every item down to its rank, so that no slot is vacant, and returns the new indexes.
    ///
    /// Both tables keep their order and hashes, and no key is hashed or compared. If no slot is vacant, it returns
    /// `Identity` and takes no memory. Otherwise it allocates a list of one index for each slot before any item moves;
    /// if memory runs out, nothing changes.
    ///
    /// Cost: a step for each slot and each entry of the tables; takes memory for a list of one index for each slot, if
    /// one is vacant.
    pub fn compact(&mut self) -> Result<IndexRemap, AllocError>
        ensures compacts { IfOk result
            (λ remap. IsRemapOf self.old.state.store remap × Compacts self.old.state self.new.state) }
        ensures refused { OnErr result (self.new.state ≡ self.old.state) }
        ensures dense { self.old.state.store.free ≡ [] → IsOk result }
        ensures keeps { Keeps ⟦<Self as Keyed>⟧.keys self.old.state self.new.state }
        ensures memory { self.new.memory ≡ self.old.memory }
    {
        let remap = match self.items.compact() {
            Ok(remap) => remap,
            Err(AllocError) => return Err(AllocError),
        };
        self.filed.remap_indexes(&remap);
        self.order.remap_indexes(&remap);
        Ok(remap)
    }

    /// Forgets all items and all slots, so that the next index is 0.
    ///
    /// Cost: drops the items, and clears both tables; takes no memory.
    pub fn clear(&mut self)
        ensures cleared { self.new.state ≡ cleared_state self.old.state }
        ensures keeps { Keeps ⟦<Self as Keyed>⟧.keys self.old.state self.new.state }
        ensures memory { self.new.memory ≡ self.old.memory }
    {
        self.items.clear();
        self.filed.clear();
        self.order.clear();
    }

    /// Obeys one command.
    ///
    /// Cost: what the command's own call costs; takes memory as that does, and `Walk` for a list of all indexes.
    pub fn step(&mut self, command: Command<T>) -> Reply<T>
        ensures step { Step ⟦<Self as Keyed>⟧.keys self.old.state command result self.new.state }
        ensures memory { StepsInMemory self.old command result self.new }
    {
        match command {
            Command::Insert(item) => match self.insert(item) {
                Ok(ix) => Reply::Inserted(ix),
                Err(refusal) => Reply::Refused(refusal),
            },
            Command::Find1(key) => Reply::Found(self.find1(&key)),
            Command::Find2(key) => Reply::Found(self.find2(&key)),
            Command::Remove(ix) => match self.remove(ix) {
                Some(item) => Reply::Removed(Some((ix, item))),
                None => Reply::Removed(None),
            },
            Command::Remove1(key) => Reply::Removed(self.remove1(&key)),
            Command::Remove2(key) => Reply::Removed(self.remove2(&key)),
            Command::Overwrite(ix, item) => Reply::Overwritten(self.overwrite(ix, item)),
            Command::Compact => match self.compact() {
                Ok(remap) => Reply::Compacted(remap),
                Err(AllocError) => Reply::NoMemory,
            },
            Command::Clear => {
                self.clear();
                Reply::Cleared
            }
            Command::Walk => match self.indexes() {
                Ok(indexes) => Reply::Walked(indexes),
                Err(AllocError) => Reply::NoMemory,
            },
        }
    }

    /// Obeys commands in turn, one reply each.
    ///
    /// The memory of the vector of replies is taken first. If it runs out, or no vector can hold that many replies,
    /// nothing is done and the commands come back; without commands that can't happen.
    ///
    /// Cost: a `step` for each command; takes memory for the replies, and as each step does.
    pub fn run(&mut self, commands: Vec<Command<T>>) -> Result<Vec<Reply<T>>, Vec<Command<T>>>
        ensures run { let keys = ⟦<Self as Keyed>⟧.keys in
            IfOk result (λ replies. Run keys self.old.state commands.items replies.items self.new.state) }
        ensures memory { let keys = ⟦<Self as Keyed>⟧.keys in
            IfOk result (λ replies. RunsInMemory keys self.old commands.items replies.items self.new) }
        ensures refused { IfErr result (λ back. (back.items ≡ commands.items) × (self.new ≡ self.old)) }
        ensures empty { commands.items ≡ [] → IsOk result }
    {
        let mut replies = match Vec::with_capacity(self.alloc, commands.len()) {
            Ok(replies) => replies,
            Err(_) => return Err(commands),
        };
        for command in commands {
            replies.push_reserved(self.step(command));
        }
        Ok(replies)
    }
}

impl<T: KeyedItem, S: BuildHasher> KeyedItems<T, S> {
    // The hash of a first key, and the index of the item with it.
    fn hash_and_find(&self, key: &T::Key1) -> (MapHash, Option<ItemIndex>)
        ensures paired { IsPaired self.now.state }
        ensures hash { result.0 ≡ hash_in ⟦<Self as Keyed>⟧.keys self.now.state key.now }
        ensures found { LooksUp (first_key_index ⟦<Self as Keyed>⟧.keys) self.now.state key.now result.1 }
    {
        let hash = self.filed.compute_hash(&self.state, key);
        let query = KeyQuery(key);
        (
            hash,
            hashed::find::<T, First, KeyQuery<T::Key1>>(&self.filed, &self.items, hash, &query),
        )
    }
}

// Removes a live index from the ordered table, and its item from the store.
fn remove_item<T: KeyedItem>(order: &mut MapBTreeTable, items: &mut ItemSet<T>, ix: ItemIndex) -> T
    requires live { IsLive items.old.store ix }
    requires stored { by_order.AreLive items.old.store (order_of order.old) }
    ensures item { get items.old.store ix ≡ Some result }
    ensures removed { items.new.store ≡ removed items.old.store ix }
    ensures taken { order_of order.new ≡ without (order_of order.old) ix }
    ensures slots { items.new.capacity ≡ items.old.capacity }
    ensures ordered { ordered_capacity order.new ≡ ordered_capacity order.old }
{
    ordered::remove_index::<T, Second>(order, items, ix);
    take_item(items, ix)
}

// Removes the item at a live index from the store.
fn take_item<T>(items: &mut ItemSet<T>, ix: ItemIndex) -> T
    requires { IsLive items.old.store ix }
    ensures item { get items.old.store ix ≡ Some result }
    ensures removed { items.new.store ≡ removed items.old.store ix }
    ensures slots { items.new.capacity ≡ items.old.capacity }
{
    match items.remove(ix) {
        Some(item) => item,
        None => unreachable!(),
    }
}

// Stores an item if neither of its keys is found, and inserts its index into both tables; otherwise returns it. Its
// first key was looked up before. One search of the ordered table finds a duplicate or the place. All memory is taken
// before anything is written.
fn insert_item<T: KeyedItem>(
    items: &mut ItemSet<T>,
    table: &mut MapHashTable,
    order: &mut MapBTreeTable,
    item: T,
    hash: MapHash,
    first: Option<ItemIndex>,
) -> Result<ItemIndex, InsertRefusal<T>>
    requires valid { IsValid items.old.store }
    requires unfiled { finite.get (filed table.old) (next_index items.old.store) ≡ None }
    requires ordered { by_order.Holds items.old.store (order_of order.old) }
    ensures first { (finds_reported result).0 ≡ first }
    ensures second { by_order.LooksUp T.second_key T.Key2.cmp items.old.store (order_of order.old)
        (T.Key2.cmp (T.second_key item)) (finds_reported result).1 }
    ensures refused { IfErr result (Refuses items.old.store item) }
    ensures parts { InsertsParts T.second_key T.Key2.cmp item hash items.old table.old order.old result
        items.new table.new order.new }
{
    let query = KeyQuery(item.key2());
    let vacant = match ordered::entry::<T, Second, KeyQuery<T::Key2>>(order, items, &query) {
        Entry::Vacant(vacant) => vacant,
        Entry::Occupied(entry) => {
            let second = Some(entry.get());
            return Err(InsertRefusal::Duplicate {
                item,
                first,
                second,
            });
        }
    };
    if first.is_some() {
        return Err(InsertRefusal::Duplicate {
            item,
            first,
            second: None,
        });
    }
    let handle = match items.assert_can_grow() {
        Ok(handle) => handle,
        Err(GrowError::Full) => return Err(InsertRefusal::Full(item)),
        Err(GrowError::Memory) => return Err(InsertRefusal::Memory(item)),
    };
    if let Err(AllocError) = table.try_reserve(1) {
        return Err(InsertRefusal::Memory(item));
    }
    let prepared = match vacant.prepare(handle.next_index()) {
        Ok(prepared) => prepared,
        Err(AllocError) => return Err(InsertRefusal::Memory(item)),
    };
    let ix = handle.insert(item);
    table.insert_prehashed_unchecked(hash, ix);
    prepared.insert();
    Ok(ix)
}
