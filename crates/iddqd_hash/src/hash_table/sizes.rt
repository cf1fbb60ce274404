//! How a table of indexes reserves memory, and gives it back.
ghost use Rattle.std.specs.Prelude.{◌≡◌, ◌+◌, ◌≤◌, ◌<◌, min, max, IfOk, OnErr};
ghost use Rattle.std.specs.FinMap as finite;
ghost use Rattle.iddqd_hash.specs.HashTable.{capacity, room, memory};
ghost use Rattle.iddqd_hash.specs.MapHashTable.{filed};
ghost use Rattle.iddqd_hash.specs.OpenTableSizes.{least_cells};
ghost use Rattle.iddqd_hash.specs.Sizes.{most_cells, Reserves, TakesRoom, Shrinks};

use super::MapHashTable;
use crate::open_table::OpenHashTable;
use std::alloc::{AllocError, Global};

impl MapHashTable {
    /// An empty table with room for `capacity` indexes. With 0 it takes no memory.
    pub fn with_capacity(alloc: Global, capacity: usize) -> Result<MapHashTable, AllocError>
        ensures empty { IfOk result (λ t. filed t ≡ finite.empty) }
        ensures memory { TakesRoom capacity result }
    {
        Ok(MapHashTable {
            table: OpenHashTable::of_cells_with_capacity(alloc, capacity)?,
        })
    }

    /// The same as `try_reserve`. Unlike `reserve` of Rust's collections it returns an error if memory runs out.
    pub fn reserve(&mut self, additional: usize) -> Result<(), AllocError>
        ensures contents { filed self.new ≡ filed self.old }
        ensures memory { Reserves additional self.old result self.new }
        ensures few { memory self.new ≤ max (memory self.old) (most_cells (finite.len (filed self.old) + additional)) }
        ensures capacity { capacity self.old ≤ capacity self.new }

        // This holds of every table.
        ensures counted { capacity self.old ≡ finite.len (filed self.old) + room self.old }
    {
        self.try_reserve(additional)
    }

    /// Gives back the memory that the indexes don't need.
    ///
    /// If the smaller memory can't be allocated, the indexes stay. If none is needed, it can't fail.
    pub fn shrink_to_fit(&mut self) -> Result<(), AllocError>
        ensures contents { filed self.new ≡ filed self.old }
        ensures memory { Shrinks 0 (finite.len (filed self.old)) self.old result self.new }
        ensures capacity { min (capacity self.old) (finite.len (filed self.old)) ≤ capacity self.new }
    {
        self.shrink_to(0)
    }

    /// Gives back memory that is needed neither for the indexes in the table nor for a table of `least` indexes.
    ///
    /// If the smaller memory can't be allocated, the indexes stay, and there are more cells than the least number that
    /// is needed. If none is needed, it can't fail.
    pub fn shrink_to(&mut self, least: usize) -> Result<(), AllocError>
        ensures contents { filed self.new ≡ filed self.old }
        ensures memory { Shrinks least (finite.len (filed self.old)) self.old result self.new }
        ensures capacity { min (capacity self.old) (max least (finite.len (filed self.old))) ≤ capacity self.new }
        ensures needed { OnErr result (least_cells (max least (finite.len (filed self.old))) < memory self.new) }
        ensures enough { least_cells (capacity self.new) ≤ memory self.new }
    {
        self.table.shrink_to(least)
    }
}
