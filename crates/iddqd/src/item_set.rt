//! Items in slots under stable indexes. The index of a removed item is assigned again.
//!
//! A slot is occupied by an item or vacant. The vacant slots are linked into a chain, the last freed first, so an
//! insert finds its slot without a search and a removal needs no memory: the set has one block of memory and three
//! numbers beside it.
//!
//! An insert checks the limit before it asks for memory, so a full set reports `Full` even if no memory is left. The
//! limit is part of the store, so that `clear`, `compact` and a clone keep it by definition. A handle keeps the index
//! that it found. It derives `Drop`: with a hand-written `Drop`, `insert` would have to prove the handle's invariant,
//! that there is room, again after it has used the room. `with_capacity` takes exactly what was asked, and `clear`
//! gives none back.
//!
//! A shrink reports that memory ran out, which std's does not: it looks at the capacity afterwards, so the block may
//! shrink in place. `reserve` calls the vector only if it has too few slots: if it has enough, the vector doesn't
//! promise to leave its capacity unchanged. A compaction first allocates its list; then std's `retain` closes the gaps,
//! which keeps the order and takes no memory. `Debug` prints no item, so it needs no `T: Debug`.
//!
//! The calls for one item stand in one file with the handle: each is a few lines beside its contract. Walks, copies and
//! what goes over all slots have modules of their own.
ghost use Rattle.std.specs.Prelude.{◌≡◌, ℕ, [], ◌+◌, ◌<◌, ◌≤◌, ◌↔◌, length, map, Some, None, IsSome, IsTrue, IsOk, IfOk, OnOk, OnErr, IfNone, OnSome, option_copied, slice_get};
ghost use Rattle.std.specs.Option.{option_copied_mut};
ghost use Rattle.std.specs.Borrow.{sem, Lends, RestsIfErr};
ghost use Rattle.iddqd.specs.Store.{sentinel, get, slot_count, live_count, next_index, IsFull, IsValid, empty, empty_within, cleared, inserted, removed};
ghost use Rattle.iddqd.specs.ItemSet.{room, with_item, KeepsOthers, GrowsIfDense};
ghost use Rattle.iddqd.specs.Sizes.{doubled};
ghost use Rattle.iddqd.specs.Compaction.{rank, compacted, new_name, numbers, IsRemapOf};

mod clones;
mod consuming;
mod into_values;
mod iter;
mod reads;
mod sizes;
mod validation;
mod values;

pub use crate::index_remap::IndexRemap;
use crate::item_index::ItemIndex;
pub use consuming::ConsumingItemSet;
pub use into_values::IntoValues;
pub use iter::Iter;
use std::alloc::{AllocError, Global};
use std::error::Error;
use std::marker::Model;
use std::{fmt, mem};
pub use values::Values;

/// The most slots that any set can have: one for each index but `SENTINEL`.
const MAX_SLOTS: u32 = 4294967295;

/// The number of slots that the first insert into a set without memory allocates.
const FIRST_SLOTS: usize = 4;

/// One slot of the set.
#[derive(Debug, Drop)]
pub enum ItemSlot<T> {
    /// It has an item.
    Occupied(T),
    /// It has no item, and has the index of the next vacant slot, or `SENTINEL` at the end.
    Vacant { next: ItemIndex },
}

/// Why a set can't take one more item.
#[derive(Clone, Copy, Debug, PartialEq, Eq)]
pub enum GrowError {
    /// No slot is vacant, and there are as many slots as the set's limit.
    Full,
    /// Memory ran out.
    Memory,
}

impl fmt::Display for GrowError {
    ghost use Rattle.std.specs.Prelude.{Some};
    ghost use Rattle.iddqd.specs.GrowError.{grow_error_text};

    ghost output = { λ error. Some (grow_error_text error) };

    fn fmt<W: fmt::Write>(&self, f: &mut fmt::Formatter<W>) -> fmt::Result {
        match self {
            GrowError::Full => write!(f, "full"),
            GrowError::Memory => write!(f, "no memory"),
        }
    }
}

impl Error for GrowError {}

/// Items under stable indexes.
///
/// An index names its item until that item is removed, or the set is compacted or cleared. After a removal its index
/// is the next to be assigned.
#[derive(Drop)]
pub struct ItemSet<T> {
    slots: Vec<ItemSlot<T>>,
    // The vacant slot that was freed last.
    free_head: ItemIndex,
    // How many slots are occupied.
    len: u32,
    // The most slots that there can be.
    limit: u32,
}

impl<T> Model for ItemSet<T> {
    ghost use Rattle.std.specs.Prelude.{vec_capacity};
    ghost use Rattle.iddqd.specs.ItemSet.{SizedStore, sized_store_code};

    ghost Value = { SizedStore T };

    ghost coded = { sized_store_code T.code };

    ghost use Rattle.iddqd.specs.Slots.{store_of, IsSoundWithin};

    ghost view = { λ s. record
        { store = store_of s.slots.items s.free_head s.limit; capacity = vec_capacity s.slots } };

    ghost invariant = { λ s. IsSoundWithin s.limit s.slots.items s.free_head s.len };
}

impl<T> ItemSlot<T> {
    ghost use Rattle.iddqd.specs.Slots.{item_of};
    ghost use Rattle.iddqd.specs.contracts.item_set.ItemSlot.{the_row};

    fn item_mut(&mut self) -> &mut T
        requires { IsSome (item_of self.old) }
        ensures* writes_back { sem 𝓛 (Lends (the_row T.row) T.row self.entry result ItemSlot.Occupied) }
        ensures value { item_of self.old ≡ Some result.now }
    {
        match self {
            ItemSlot::Occupied(item) => item,
            ItemSlot::Vacant { .. } => unreachable!(),
        }
    }
}

impl<T> ItemSet<T> {
    ghost use Rattle.iddqd.specs.GrowHandle.{handle_set, handle_store, handle_lender};
    ghost use Rattle.iddqd.specs.Lends.{lends_get, lends_item};
    ghost use Rattle.iddqd.specs.contracts.item_set.ItemSet.{the_row};

    /// An empty set, which takes no memory. It can have a slot for each index but `SENTINEL`.
    pub fn new(alloc: Global) -> ItemSet<T>
        ensures { result ≡ record { store = empty; capacity = 0 } }
    {
        ItemSet::with_limit(alloc, MAX_SLOTS)
    }

    /// An empty set that never has more slots than the limit. It takes no memory.
    ///
    /// No call changes the limit: `clear` and `compact` keep it, and a clone has it too.
    pub fn with_limit(alloc: Global, limit: u32) -> ItemSet<T>
        ensures { result ≡ record { store = empty_within limit; capacity = 0 } }
    {
        ItemSet {
            slots: Vec::new(alloc),
            free_head: ItemIndex::SENTINEL,
            len: 0,
            limit,
        }
    }

    /// The number of items.
    pub fn len(&self) -> usize
        ensures { result ≡ live_count self.now.store }
    {
        self.len as usize
    }

    /// The number of slots, occupied and vacant.
    pub fn slot_count(&self) -> usize
        ensures value { result ≡ slot_count self.now.store }

        // What every set keeps: the free indexes are distinct and exactly the vacant ones.
        ensures valid { IsValid self.now.store }
    {
        self.slots.len()
    }

    /// How many inserts need no memory.
    pub fn room(&self) -> usize
        ensures { result ≡ room self.now }
    {
        let vacant = self.slots.len() - self.len as usize;
        vacant + (self.slots.capacity().min(self.limit as usize) - self.slots.len())
    }

    /// The item at an index, if it is live.
    pub fn get(&self, ix: ItemIndex) -> Option<&T>
        ensures { option_copied result ≡ get self.now.store ix }
    {
        match self.slots.get(ix.as_u32() as usize) {
            Some(ItemSlot::Occupied(item)) => Some(item),
            _ => None,
        }
    }

    /// The item at an index for writing, if it is live.
    pub fn get_mut(&mut self, ix: ItemIndex) -> Option<&mut T>
        ensures* writes_back { sem 𝓛 (lends_get T.row self.entry ix result) }
        ensures value { option_copied_mut result ≡ get self.old.store ix }
    {
        match self.slots.get_mut(ix.as_u32() as usize) {
            Some(ItemSlot::Occupied(item)) => Some(item),
            _ => None,
        }
    }

    /// Removes the item at an index and returns it, if the index is live. The index is then the next to be assigned.
    ///
    /// An index that isn't live changes nothing. No memory is taken, and none is given back.
    pub fn remove(&mut self, ix: ItemIndex) -> Option<T>
        ensures value { result ≡ get self.old.store ix }
        ensures removed { OnSome result (self.new ≡ record self.old { store = removed self.old.store ix }) }
        ensures absent { IfNone result (self.new ≡ self.old) }
        ensures others { KeepsOthers ix self.old.store self.new.store }
        ensures room { OnSome result (room self.new ≡ room self.old + 1) }
    {
        if !self.is_live(ix) {
            return None;
        }
        Some(self.vacate(ix))
    }

    /// Replaces the item at a live index, and returns the old one. It takes no memory.
    pub fn replace(&mut self, ix: ItemIndex, item: T) -> T
        requires { IsSome (get self.old.store ix) }
        ensures value { get self.old.store ix ≡ Some result }
        ensures rebound { self.new ≡ with_item self.old ix item }
        ensures others { KeepsOthers ix self.old.store self.new.store }
    {
        mem::replace(self.item_mut(ix), item)
    }

    /// Makes room for one more item, so that the insert through the handle can't fail.
    ///
    /// It returns `Full` if and only if the set is full, even if no memory is left. It needs memory only if there is no
    /// room, and then allocates twice as many slots, at least four, and at most the limit; if memory runs out, it
    /// returns `Memory`. A handle that is dropped leaves the items and indexes as they were.
    pub fn assert_can_grow(&mut self) -> Result<GrowHandle<'_, T>, GrowError>
        ensures* refused { sem 𝓛
            (RestsIfErr (the_row T.row) self.entry handle_lender result (λ last. last ≡ self.old)) }
        ensures same_reference { IfOk result (λ h. handle_lender h ≡ self.entry.ghost_name) }
        ensures contents { IfOk result (λ h. handle_store h ≡ self.old.store) }
        ensures capacity { IfOk result (λ h. self.old.capacity ≤ (handle_set h).capacity) }
        ensures kept { IfOk result (λ h. 1 ≤ room self.old → handle_set h ≡ self.old) }
        ensures grown { IfOk result (λ h. room self.old ≡ 0 → (handle_set h).capacity ≡ doubled self.old) }
        ensures full { (result ≡ Err GrowError.Full) ↔ IsFull self.old.store }
        ensures memory { result ≡ Err GrowError.Memory → room self.old ≡ 0 }
    {
        self.reserve_one()?;
        let ix = self.next_index();
        Ok(GrowHandle { set: self, ix })
    }

    /// Moves every item down to its rank, so that no slot is vacant, and returns the new indexes.
    ///
    /// If no slot is vacant, it returns `Identity` and takes no memory. Otherwise it allocates the list of new indexes
    /// before any item moves; if memory runs out, nothing changes. The set's own memory stays as it was. It goes over
    /// the slots twice: for the list, and to close the gaps.
    pub fn compact(&mut self) -> Result<IndexRemap, AllocError>
    where
        T: Drop,
        ensures remap { IfOk result (IsRemapOf self.old.store) }
        ensures compacted { OnOk result (self.new.store ≡ compacted self.old.store) }
        ensures capacity { self.new.capacity ≡ self.old.capacity }
        ensures refused { OnErr result (self.new ≡ self.old) }
        ensures dense { self.old.store.free ≡ [] → IsOk result }
        ensures ranks { (i j : ℕ) → i < j → IsSome (get self.old.store i) →
            rank self.old.store i < rank self.old.store j }
        ensures room { room self.new ≡ room self.old }
    {
        if self.slots.len() == self.len as usize {
            return Ok(IndexRemap::Identity);
        }
        let names = self.new_names()?;
        self.close_up();
        Ok(IndexRemap::Permuted(names))
    }

    /// Forgets all items and all slots, so that the next index is 0. The memory is kept: none is
    /// taken or given back.
    pub fn clear(&mut self)
    where
        T: Drop,
        ensures store { self.new.store ≡ cleared self.old.store }
        ensures capacity { self.new.capacity ≡ self.old.capacity }
        ensures room { room self.old ≤ room self.new }
    {
        self.slots.clear();
        self.free_head = ItemIndex::SENTINEL;
        self.len = 0;
    }
}

impl<T> fmt::Debug for ItemSet<T> {
    fn fmt<W: fmt::Write>(&self, f: &mut fmt::Formatter<W>) -> fmt::Result {
        let len = self.len;
        let slots = self.slots.len();
        let free_head = self.free_head;
        write!(
            f,
            "ItemSet {{ len: {len}, slots: {slots}, free_head: {free_head} }}"
        )
    }
}

/// A set with room for one more item.
#[must_use]
#[derive(Drop)]
pub struct GrowHandle<'a, T> {
    set: &'a mut ItemSet<T>,
    // The index that `insert` will use.
    ix: ItemIndex,
    ghost reserved: { 1 ≤ room set.now },
    ghost next: { ix ≡ next_index set.now.store },
    ghost assignable: { ix < sentinel },
}

impl<'a, T> GrowHandle<'a, T> {
    ghost use Rattle.iddqd.specs.GrowHandle.{handle_set, handle_store};

    /// The index that `insert` will use.
    pub fn next_index(&self) -> ItemIndex
        ensures index { result ≡ next_index (handle_store self.now) }
        ensures assignable { result < sentinel }
    {
        self.ix
    }

    /// The item at an index, if it is live.
    pub fn get(&self, ix: ItemIndex) -> Option<&T>
        ensures { option_copied result ≡ get (handle_store self.now) ix }
    {
        self.set.get(ix)
    }

    /// Stores an item at the next index. It takes no memory and can't fail.
    pub fn insert(self, item: T) -> ItemIndex
        ensures index { result ≡ next_index (handle_store self.entry) }
        ensures assignable { result < sentinel }
        ensures inserted { self.exit.0.now
            ≡ record (handle_set self.entry) { store = inserted (handle_store self.entry) item } }
        ensures slots { GrowsIfDense (handle_store self.entry) self.exit.0.now.store }
        ensures room { room self.exit.0.now + 1 ≡ room (handle_set self.entry) }
    {
        let ix = self.ix;
        self.set.fill(ix, item);
        ix
    }
}

impl<T> ItemSet<T> {
    ghost use Rattle.iddqd.specs.Lends.{lends_item};

    fn is_live(&self, ix: ItemIndex) -> bool
        ensures { IsTrue result ↔ IsSome (get self.now.store ix) }
    {
        matches!(
            self.slots.get(ix.as_u32() as usize),
            Some(ItemSlot::Occupied(_))
        )
    }

    // The item at a live index.
    fn item_mut(&mut self, ix: ItemIndex) -> &mut T
        requires { IsSome (get self.old.store ix) }
        ensures* writes_back { sem 𝓛 (lends_item T.row self.entry ix result) }
        ensures value { get self.old.store ix ≡ Some result.now }
    {
        self.slots[ix.as_u32() as usize].item_mut()
    }

    // Removes the item at a live index and returns it.
    fn vacate(&mut self, ix: ItemIndex) -> T
        requires { IsSome (get self.old.store ix) }
        ensures value { get self.old.store ix ≡ Some result }
        ensures removed { self.new ≡ record self.old { store = removed self.old.store ix } }
        ensures room { room self.new ≡ room self.old + 1 }
    {
        let vacant = ItemSlot::Vacant {
            next: self.free_head,
        };
        match mem::replace(&mut self.slots[ix.as_u32() as usize], vacant) {
            ItemSlot::Occupied(item) => {
                self.len -= 1;
                self.free_head = ix;
                item
            }
            ItemSlot::Vacant { .. } => unreachable!(),
        }
    }

    // Makes room for one more item. It takes memory only if there is no room.
    fn reserve_one(&mut self) -> Result<(), GrowError>
        ensures room { OnOk result (1 ≤ room self.new) }
        ensures contents { OnOk result (self.new.store ≡ self.old.store) }
        ensures capacity { OnOk result (self.old.capacity ≤ self.new.capacity) }
        ensures kept { OnOk result (1 ≤ room self.old → self.new ≡ self.old) }
        ensures grown { OnOk result (room self.old ≡ 0 → self.new.capacity ≡ doubled self.old) }
        ensures refused { OnErr result (self.new ≡ self.old) }
        ensures full { (result ≡ Err GrowError.Full) ↔ IsFull self.old.store }
        ensures memory { result ≡ Err GrowError.Memory → room self.old ≡ 0 }
    {
        if self.room() > 0 {
            return Ok(());
        }
        let limit = self.limit as usize;
        if self.slots.len() == limit {
            return Err(GrowError::Full);
        }
        let needed = (self.slots.len() + 1).max(FIRST_SLOTS).min(limit);
        self.grow(needed).map_err(|_| GrowError::Memory)
    }

    fn next_index(&self) -> ItemIndex
        requires { 1 ≤ room self.now }
        ensures index { result ≡ next_index self.now.store }
        ensures assignable { result < sentinel }
    {
        if self.free_head == ItemIndex::SENTINEL {
            ItemIndex::new(self.slots.len() as u32)
        } else {
            self.free_head
        }
    }

    // Stores an item at the next index.
    fn fill(&mut self, ix: ItemIndex, item: T)
        requires room { 1 ≤ room self.old }
        requires next { ix ≡ next_index self.old.store }
        ensures inserted { self.new ≡ record self.old { store = inserted self.old.store item } }
        ensures slots { GrowsIfDense self.old.store self.new.store }
        ensures room { room self.new + 1 ≡ room self.old }
    {
        if ix.as_u32() as usize == self.slot_count() {
            self.push(item)
        } else {
            self.reuse(ix, item)
        }
    }

    // Stores an item in a new slot.
    fn push(&mut self, item: T)
        requires room { 1 ≤ room self.old }
        requires dense { self.old.store.free ≡ [] }
        ensures { self.new ≡ record self.old { store = inserted self.old.store item } }
    {
        self.len += 1;
        self.slots.push_reserved(ItemSlot::Occupied(item));
    }

    // Stores an item in the vacant slot that was freed last.
    fn reuse(&mut self, ix: ItemIndex, item: T)
        requires room { 1 ≤ room self.old }
        requires first { slice_get self.old.store.free 0 ≡ Some ix }
        ensures { self.new ≡ record self.old { store = inserted self.old.store item } }
    {
        self.len += 1;
        match mem::replace(
            &mut self.slots[ix.as_u32() as usize],
            ItemSlot::Occupied(item),
        ) {
            ItemSlot::Vacant { next } => self.free_head = next,
            ItemSlot::Occupied(_) => unreachable!(),
        }
    }

    // The new index of each slot, if every item moves down to its rank.
    fn new_names(&self) -> Result<Vec<ItemIndex>, AllocError>
        ensures { IfOk result
            (λ names. names.items ≡ map (new_name self.now.store) (numbers (slot_count self.now.store))) }
    {
        let mut names = Vec::with_capacity(*self.slots.allocator(), self.slots.len())?;
        let mut next = 0u32;
        for slot in &self.slots {
            match slot {
                ItemSlot::Occupied(_) => {
                    names.push_reserved(ItemIndex::new(next));
                    next += 1;
                }
                ItemSlot::Vacant { .. } => names.push_reserved(ItemIndex::SENTINEL),
            }
        }
        Ok(names)
    }

    // Removes the vacant slots. The items keep their order, and no memory is taken.
    fn close_up(&mut self)
    where
        T: Drop,
        ensures compacted { self.new ≡ record self.old { store = compacted self.old.store } }
        ensures room { room self.new ≡ room self.old }
    {
        self.slots
            .retain(|slot| matches!(slot, ItemSlot::Occupied(_)));
        self.free_head = ItemIndex::SENTINEL;
    }
}

/// The iterators over a set, and the set as slots whose items are removed by index. They take no memory.
impl<T> ItemSet<T> {
    ghost use Rattle.iddqd.specs.LiveItems.{live_pairs, live_items, IsWalkOf};

    /// The live indexes with their items, by rising index. A whole iteration costs a step for each slot.
    pub fn iter(&self) -> Iter<'_, T>
        ensures pairs { result ≡ live_pairs self.now.store }
        ensures len { length result ≡ live_count self.now.store }
        ensures walk { IsWalkOf self.now.store result }
    {
        Iter {
            slots: self.slots.as_slice(),
            first: 0,
            left: self.len as usize,
        }
    }

    /// The items, by rising index. A whole iteration costs a step for each slot.
    pub fn values(&self) -> Values<'_, T>
        ensures items { result ≡ live_items self.now.store }
        ensures len { length result ≡ live_count self.now.store }
    {
        Values { pairs: self.iter() }
    }

    /// The items by value, by rising index. A whole iteration costs a step for each slot.
    pub fn into_values(self) -> IntoValues<T>
        ensures items { result ≡ live_items self.store }
        ensures len { length result ≡ live_count self.store }
    {
        IntoValues {
            slots: self.slots.into_iter(),
            left: self.len as usize,
        }
    }

    /// The slots, whose items are then removed by index. It costs the same for each set.
    pub fn into_consuming(self) -> ConsumingItemSet<T>
        ensures { result ≡ self.store.items }
    {
        ConsumingItemSet { slots: self.slots }
    }
}
