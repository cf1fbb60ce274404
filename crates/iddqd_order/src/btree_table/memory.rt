//! Blocks that a table takes in advance, and gives back.
//!
//! A table made for n indexes never needs another block while it has at most n, whatever is added and removed.
//! Past its capacity an insert may have to ask for memory, and it has no room until it holds less than its capacity.
ghost use Rattle.std.specs.Prelude.{◌≡◌, ◌<◌, ◌≤◌};
ghost use Rattle.iddqd_order.specs.MapBTreeTable.{capacity, room};
ghost use Rattle.iddqd_order.specs.Sizes.{TakesRoom, Reserves, Shrinks};

use crate::btree_table::reserve::{MOST_INDEXES, needed_blocks};
use crate::btree_table::table::MapBTreeTable;
use std::alloc::{AllocError, Global};

#[tactic(auto, unfolding(crate::specs::MapBTreeTable::order_of, crate::specs::MapBTreeTable::capacity))]
impl MapBTreeTable {
    /// An empty table that can hold `capacity` indexes without asking for memory. For up to ten it takes none.
    ///
    /// `AllocError` means that memory ran out, or that no table can hold that many indexes.
    pub fn with_capacity(alloc: Global, capacity: usize) -> Result<MapBTreeTable, AllocError>
        ensures { TakesRoom capacity result }
    {
        let mut table = MapBTreeTable::new(alloc);
        table.try_reserve(capacity)?;
        Ok(table)
    }

    /// How many indexes the table can hold without asking for memory. It may hold more.
    pub fn capacity(&self) -> usize
        ensures { result ≡ capacity self.now }
    {
        self.reserve.capacity()
    }

    /// How many more indexes the table can hold without asking for memory: 0 if it holds more than its capacity.
    pub fn room(&self) -> usize
        ensures { result ≡ room self.now }
    {
        self.capacity().saturating_sub(self.len)
    }

    /// The same as `try_reserve`, named after iddqd's `reserve`, which aborts if memory runs out.
    pub fn reserve(&mut self, additional: usize) -> Result<(), AllocError>
        ensures { Reserves additional self.old result self.new }
    {
        self.try_reserve(additional)
    }

    /// Makes room for `additional` more indexes, by reserving the blocks that all indexes will then need.
    /// If there is room already, it changes nothing and takes no memory.
    ///
    /// `AllocError` means that memory ran out, or that no table can hold that many indexes. The table is then as it
    /// was.
    pub fn try_reserve(&mut self, additional: usize) -> Result<(), AllocError>
        ensures { Reserves additional self.old result self.new }
    {
        if additional <= self.room() {
            return Ok(());
        }
        if additional > MOST_INDEXES - self.len {
            return Err(AllocError);
        }
        self.reserve
            .raise(needed_blocks(self.len + additional), self.alloc)
    }

    /// Gives back the blocks that the indexes don't need.
    pub fn shrink_to_fit(&mut self)
        ensures { Shrinks 0 self.old self.new }
    {
        self.shrink_to(0)
    }

    /// Shrinks the capacity to what `max(least, len)` indexes need, and gives back the other blocks. The capacity
    /// never grows.
    pub fn shrink_to(&mut self, least: usize)
        ensures { Shrinks least self.old self.new }
    {
        let indexes = least.max(self.len);
        if indexes < self.reserve.capacity() {
            self.reserve.lower(needed_blocks(indexes));
        }
    }
}
