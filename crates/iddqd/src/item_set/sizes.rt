//! How many slots a set's memory holds, and how memory is reserved and given back.
ghost use Rattle.std.specs.Prelude.{◌≡◌, ◌<◌, ◌≤◌, ◌==◌, min, max, IsOk, IfOk, OnOk, OnErr};
ghost use Rattle.iddqd.specs.Store.{slot_limit, empty, slot_count, live_count};
ghost use Rattle.iddqd.specs.ItemSet.{room};
ghost use Rattle.iddqd.specs.Sizes.{insertable, grown, ReservesSlots, Shrinks};

use super::{ItemSet, MAX_SLOTS};
use crate::item_index::ItemIndex;
use std::alloc::{AllocError, Global};

impl<T> ItemSet<T> {
    /// An empty set whose memory holds exactly `capacity` slots. With 0 it takes no memory.
    pub fn with_capacity(alloc: Global, capacity: usize) -> Result<ItemSet<T>, AllocError>
        ensures contents { IfOk result (λ set. set.store ≡ empty) }
        ensures capacity { IfOk result (λ set. set.capacity ≡ capacity) }
        ensures none { capacity ≡ 0 → IsOk result }
    {
        Ok(ItemSet {
            slots: Vec::with_capacity(alloc, capacity)?,
            free_head: ItemIndex::SENTINEL,
            len: 0,
            limit: MAX_SLOTS,
        })
    }

    /// Whether there is no item.
    pub fn is_empty(&self) -> bool
        ensures { result ≡ (live_count self.now.store == 0) }
    {
        self.len == 0
    }

    /// The most slots that there can be. No call changes it.
    pub fn limit(&self) -> usize
        ensures value { result ≡ self.now.store.limit }
        ensures bound { result ≤ slot_limit }
    {
        self.limit as usize
    }

    /// How many slots the memory holds.
    pub fn capacity(&self) -> usize
        ensures value { result ≡ self.now.capacity }
        ensures holds_all { slot_count self.now.store ≤ result }
    {
        self.slots.capacity()
    }

    /// Makes room for `additional` more slots, so that the next `additional` inserts need no memory.
    ///
    /// Inserts use this capacity, and removals, `clear` and `compact` don't reduce it. If memory runs out, or no vector
    /// can hold that many slots, nothing changes. It may allocate slots past the limit of the set, which give no room
    /// for inserts. It allocates twice the old capacity if that is more than needed, but then at most the limit.
    /// Vacant slots don't count: it may take memory even if `room` is at least `additional`.
    pub fn reserve(&mut self, additional: usize) -> Result<(), AllocError>
        ensures memory { ReservesSlots additional self.old result self.new }
        ensures room { OnOk result (min additional (insertable self.new.store) ≤ room self.new) }
    {
        let len = self.slots.len();
        if additional <= self.slots.capacity() - len {
            return Ok(());
        }
        let needed = len.checked_add(additional).ok_or(AllocError)?;
        self.grow(needed)
    }

    /// The same as `reserve`, under the name that it has in libraries whose `reserve` can't fail.
    pub fn try_reserve(&mut self, additional: usize) -> Result<(), AllocError>
        ensures memory { ReservesSlots additional self.old result self.new }
        ensures room { OnOk result (min additional (insertable self.new.store) ≤ room self.new) }
    {
        self.reserve(additional)
    }

    /// Takes memory for `wanted` slots in all, vacant ones included, unless there is memory for as many.
    ///
    /// If memory runs out, or no vector can hold that many slots, nothing changes. It grows as `reserve` does.
    pub fn reserve_slots(&mut self, wanted: usize) -> Result<(), AllocError>
        ensures contents { self.new.store ≡ self.old.store }
        ensures capacity_at_least { self.old.capacity ≤ self.new.capacity }
        ensures reserved { OnOk result (wanted ≤ self.new.capacity) }
        ensures few { self.new.capacity ≤ max self.old.capacity (grown wanted self.old) }
        ensures grown { self.old.capacity < wanted → OnOk result (self.new.capacity ≡ grown wanted self.old) }
        ensures refused { OnErr result (self.new ≡ self.old) }
        ensures had_room { wanted ≤ self.old.capacity → IsOk result }
        ensures unchanged { wanted ≤ self.old.capacity → self.new ≡ self.old }
    {
        if wanted <= self.slots.capacity() {
            return Ok(());
        }
        self.grow(wanted)
    }

    /// Gives back the memory beyond the slots that there are. Vacant slots stay.
    ///
    /// The block shrinks in place, or the items move to a smaller one. If memory runs out, the items stay, and the
    /// memory holds more slots than was asked.
    pub fn shrink_capacity_to_fit(&mut self) -> Result<(), AllocError>
        ensures { Shrinks 0 self.old result self.new }
    {
        self.shrink_capacity_to(0)
    }

    /// Gives back the memory beyond `least` slots, or beyond the slots that there are if these are more.
    ///
    /// The block shrinks in place, or the items move to a smaller one. If memory runs out, the items stay, and the
    /// memory holds more slots than was asked.
    pub fn shrink_capacity_to(&mut self, least: usize) -> Result<(), AllocError>
        ensures { Shrinks least self.old result self.new }
    {
        let wanted = least.max(self.slots.len());
        self.slots.shrink_to(wanted);
        if wanted < self.slots.capacity() {
            return Err(AllocError);
        }
        Ok(())
    }

    // Allocates `needed` slots, or twice the capacity if that is more. The doubling stops at the limit.
    pub(super) fn grow(&mut self, needed: usize) -> Result<(), AllocError>
        requires { self.old.capacity < needed }
        ensures contents { self.new.store ≡ self.old.store }
        ensures grown { OnOk result (self.new.capacity ≡ grown needed self.old) }
        ensures refused { OnErr result (self.new ≡ self.old) }
    {
        let twice = self.slots.capacity().saturating_mul(2);
        let wanted = twice.min(self.limit as usize).max(needed);
        self.slots.reserve_exact(wanted - self.slots.len())
    }
}
