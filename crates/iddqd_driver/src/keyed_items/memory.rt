//! Reserving memory, and giving it back.
//!
//! The capacity is how many items there can be without asking for memory: the least of what the store and both tables
//! can hold. A removal gives no memory back, and an insert can use what it frees. So below the capacity no insert runs
//! out of memory, whatever was inserted and removed before. Only an insert without room and the calls here change the
//! capacity.
ghost use Rattle.std.specs.Prelude.{◌≡◌, ◌≤◌, min, IsOk, IfOk};
ghost use Rattle.iddqd.specs.{slot_limit, empty_within};
ghost use Rattle.iddqd_driver.specs.State.{empty_state, empty_state_within};
ghost use Rattle.iddqd_driver.specs.Memory.{no_memory, capacity, room, IsMadeFor, ReservesInMemory, ShrinksInMemory};

use super::KeyedItems;
use crate::keyed_item::KeyedItem;
use iddqd::item_set::ItemSet;
use iddqd_hash::hash_table::MapHashTable;
use iddqd_order::btree_table::MapBTreeTable;
use std::alloc::{AllocError, Global};
use std::hash::BuildHasher;

impl<T: KeyedItem, S: BuildHasher> KeyedItems<T, S> {
    /// Empty, with memory for that many items, but at most for `u32::MAX`. With 0 it takes no memory.
    ///
    /// Cost: clears the cells of the tables; takes memory for so many items.
    pub fn with_capacity(
        alloc: Global,
        state: S,
        items: usize,
    ) -> Result<KeyedItems<T, S>, AllocError>
    where
        S: Drop,
        ensures state { IfOk result (λ k. k.state ≡ empty_state state) }
        ensures room { IfOk result (λ k. min items slot_limit ≤ room k) }
        ensures made { IfOk result (λ k. IsMadeFor (min items slot_limit) k.memory) }
        ensures none { items ≡ 0 → IsOk result }
        ensures no_memory { items ≡ 0 → IfOk result (λ k. k.memory ≡ no_memory) }
    {
        KeyedItems::with_limit_and_capacity(alloc, state, u32::MAX, items)
    }

    /// Empty, never with more slots than the limit, and with memory for that many items or for as many as the limit
    /// allows. If that is 0 it takes no memory.
    ///
    /// Cost: clears the cells of the tables; takes memory for so many items.
    pub fn with_limit_and_capacity(
        alloc: Global,
        state: S,
        limit: u32,
        items: usize,
    ) -> Result<KeyedItems<T, S>, AllocError>
    where
        S: Drop,
        ensures state { IfOk result (λ k. k.state ≡ empty_state_within limit state) }
        ensures room { IfOk result (λ k. min items limit ≤ room k) }
        ensures made { IfOk result (λ k. IsMadeFor (min items limit) k.memory) }
        ensures none { min items limit ≡ 0 → IsOk result }
        ensures no_memory { min items limit ≡ 0 → IfOk result (λ k. k.memory ≡ no_memory) }
    {
        let items = items.min(limit as usize);
        let Ok(set) = empty_set(alloc, limit, items) else {
            return Err(AllocError);
        };
        let Ok(filed) = MapHashTable::with_capacity(alloc, items) else {
            return Err(AllocError);
        };
        let Ok(order) = MapBTreeTable::with_capacity(alloc, items) else {
            return Err(AllocError);
        };
        Ok(KeyedItems {
            items: set,
            filed,
            order,
            state,
            alloc,
        })
    }

    /// How many items there can be without asking for memory: the least of what each part can hold.
    ///
    /// There may be more items than that: an insert without room raises the capacity of the store and of the hash table
    /// only.
    ///
    /// Cost: a few steps; takes no memory.
    pub fn capacity(&self) -> usize
        ensures { result ≡ capacity self.now }
    {
        let slots = self.items.capacity().min(self.items.limit());
        slots.min(self.filed.capacity().min(self.order.capacity()))
    }

    /// How many inserts need no memory.
    ///
    /// Cost: a few steps; takes no memory.
    pub fn room(&self) -> usize
        ensures { result ≡ room self.now }
    {
        self.capacity().saturating_sub(self.len())
    }

    /// Makes room for `additional` more inserts, or for as many as the limit allows.
    ///
    /// If there is that room already, nothing changes. `AllocError` means that memory ran out, or that no vector can
    /// hold that many; the items stay, and no part can hold less than before.
    ///
    /// Cost: moves what grows; takes memory only if there is less room.
    pub fn reserve(&mut self, additional: usize) -> Result<(), AllocError>
        ensures { ReservesInMemory additional self.old result self.new }
    {
        let wanted = additional.min(self.items.limit() - self.items.len());
        if wanted <= self.room() {
            return Ok(());
        }
        let items = self.items.len() + wanted;
        if let Err(AllocError) = self.items.reserve_slots(items) {
            return Err(AllocError);
        }
        if let Err(AllocError) = self.filed.try_reserve(wanted) {
            return Err(AllocError);
        }
        self.order.try_reserve(wanted)
    }

    /// The same as `reserve`, under the name that it has in libraries whose `reserve` can't fail.
    ///
    /// Cost: moves what grows; takes memory only if there is less room.
    pub fn try_reserve(&mut self, additional: usize) -> Result<(), AllocError>
        ensures { ReservesInMemory additional self.old result self.new }
    {
        self.reserve(additional)
    }

    /// Gives back the memory that the items don't need. Vacant slots stay, and so does their memory.
    ///
    /// `AllocError` means that the store or the hash table could not get smaller memory; the items stay.
    ///
    /// Cost: moves what shrinks; takes memory for the smaller blocks before it gives the greater ones back.
    pub fn shrink_to_fit(&mut self) -> Result<(), AllocError>
        ensures { ShrinksInMemory 0 self.old result self.new }
    {
        self.shrink_to(0)
    }

    /// Gives back the memory beyond what `least` items need, or the items that there are if these are more. Vacant
    /// slots stay, and so does their memory.
    ///
    /// `AllocError` means that the store or the hash table could not get smaller memory; the items stay.
    ///
    /// Cost: moves what shrinks; takes memory for the smaller blocks before it gives the greater ones back.
    pub fn shrink_to(&mut self, least: usize) -> Result<(), AllocError>
        ensures { ShrinksInMemory least self.old result self.new }
    {
        self.order.shrink_to(least);
        self.items.shrink_capacity_to(least)?;
        self.filed.shrink_to(least)
    }
}

// An empty set with memory for exactly so many slots.
fn empty_set<T: Drop>(alloc: Global, limit: u32, slots: usize) -> Result<ItemSet<T>, AllocError>
    ensures contents { IfOk result (λ set. set.store ≡ empty_within limit) }
    ensures capacity { IfOk result (λ set. set.capacity ≡ slots) }
    ensures none { slots ≡ 0 → IsOk result }
{
    let mut set = ItemSet::with_limit(alloc, limit);
    set.reserve_slots(slots)?;
    Ok(set)
}
