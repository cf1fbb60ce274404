//! Memory that a linked table takes ahead, and gives back.
ghost use Rattle.std.specs.Prelude.{◌≡◌, ◌+◌, ◌≤◌, ◌<◌, min, max, IsOk, IfOk, OnOk, OnErr};
ghost use Rattle.std.specs.FinMap as finite;
ghost use Rattle.iddqd_groups.specs.LinkedTable.{most_linked, kept_linked, kept_room, needed_linked};

use super::LinkedTable;
use iddqd_hash::hash_table::MapHashTable;
use std::alloc::{AllocError, Global};

impl LinkedTable {
    /// An empty table that can hold `wanted` indexes. With 0 it takes no memory.
    pub fn with_capacity(alloc: Global, wanted: usize) -> Result<LinkedTable, AllocError>
        ensures empty { IfOk result (λ t. t.filed ≡ finite.empty) }
        ensures slots { IfOk result (λ t. t.slots ≡ 0) }
        ensures capacity { IfOk result (λ t. wanted ≤ t.capacity) }
        ensures few { IfOk result (λ t. t.memory ≤ most_linked wanted) }
        ensures succeeds { wanted ≡ 0 → IsOk result }
    {
        Ok(LinkedTable {
            heads: MapHashTable::with_capacity(alloc, wanted)?,
            links: Vec::with_capacity(alloc, wanted)?,
            len: 0,
        })
    }

    /// Makes room for `additional` more indexes. If there is room it takes no memory.
    ///
    /// If it takes memory for links, the capacity of their array at least doubles. On an `AllocError` the indexes stay;
    /// the capacity may have grown.
    pub fn try_reserve(&mut self, additional: usize) -> Result<(), AllocError>
        ensures contents { self.new.filed ≡ self.old.filed }
        ensures slots { self.new.slots ≡ self.old.slots }
        ensures reserved { OnOk result (finite.len self.old.filed + additional ≤ self.new.capacity) }
        ensures had_room { finite.len self.old.filed + additional ≤ self.old.capacity
            → IsOk result × (self.new ≡ self.old) }
        ensures capacity_at_least { self.old.capacity ≤ self.new.capacity }
        ensures few { self.new.memory ≤ self.old.memory + most_linked (finite.len self.old.filed + additional) }
    {
        let needed = self.len.checked_add(additional).ok_or(AllocError)?;
        if needed <= self.capacity() {
            return Ok(());
        }
        self.heads.try_reserve(needed - self.heads.len())?;
        prove!(needed <= self.heads.capacity());
        if self.links.capacity() < needed {
            let wanted = self.links.capacity().saturating_mul(2).max(needed);
            self.links.reserve_exact(wanted - self.links.len())?;
        }
        Ok(())
    }

    /// Keeps memory for at most `max(slots, least)` links, where `slots` is the length of the array, and for the cells
    /// that `max(len, least)` heads need.
    ///
    /// Shrinking may reallocate, which can fail. Then the indexes stay, and there is more memory than is needed for the
    /// room that stays.
    pub fn shrink_to(&mut self, least: usize) -> Result<(), AllocError>
        ensures contents { self.new.filed ≡ self.old.filed }
        ensures slots { self.new.slots ≡ self.old.slots }
        ensures never_more { self.new.memory ≤ self.old.memory }
        ensures capacity_at_least { min self.old.capacity (max least (finite.len self.old.filed)) ≤ self.new.capacity }
        ensures shrunk { OnOk result (self.new.memory
            ≤ kept_linked (max least self.old.slots) (max least (finite.len self.old.filed))) }
        ensures refused { OnErr result (max least (finite.len self.old.filed) < self.new.memory) }
        ensures needed { OnErr result (needed_linked (max self.old.slots (kept_room self.old least))
            (kept_room self.old least) < self.new.memory) }
        ensures enough { needed_linked (max self.old.slots (kept_room self.old least)) (kept_room self.old least)
            ≤ self.new.memory }
        ensures succeeds { kept_linked (max least self.old.slots) (max least (finite.len self.old.filed)) ≡ 0
            → IsOk result }
    {
        let wanted = least.max(self.links.len());
        self.links.shrink_to(wanted);
        self.heads.shrink_to(least.max(self.len))?;
        // `Vec::shrink_to` reports no failure, so the capacity tells whether it shrank.
        if wanted < self.links.capacity() {
            return Err(AllocError);
        }
        Ok(())
    }
}
