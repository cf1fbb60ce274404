//! How a table with open addressing reserves memory, and gives it back.
ghost use Rattle.std.specs.Prelude.{◌≡◌, ◌⊎◌, ◌<◌, ◌≤◌, [], max, length, IfOk, OnErr, vec_len};
ghost use Rattle.std.specs.List.Sorted.{IsPermutation};
ghost use Rattle.iddqd_hash.specs.HashTable.{capacity, entries, memory, HasNoMemory};
ghost use Rattle.iddqd_hash.specs.OpenTable.{pairs, slots_of, IsPowerOfTwo};
ghost use Rattle.iddqd_hash.specs.OpenTableSizes.{FewerCells, least_cells};
ghost use Rattle.iddqd_hash.specs.Sizes.{Reserves, most_cells, TakesRoom, Shrinks};

use super::OpenHashTable;
use super::cell_kinds::Cell;
use super::memory::{empty_cells, empty_tags};
use super::tags::{count_for, has_pair, usable_of};
use std::alloc::{AllocError, Global};
use std::marker::PhantomData;
use std::mem;

impl<T> OpenHashTable<T> {
    /// An empty table with room for `capacity` pairs. With 0 it takes no memory.
    pub fn with_capacity(alloc: Global, capacity: usize) -> Result<OpenHashTable<T>, AllocError>
        ensures empty { IfOk result (λ t. entries t ≡ []) }
        ensures memory { TakesRoom capacity result }
    {
        OpenHashTable::of_cells_with_capacity(alloc, capacity)
    }
}

impl<T, C: Cell<T>> OpenHashTable<T, C> {
    /// The same as `with_capacity`, for any kind of cell.
    pub fn of_cells_with_capacity(
        alloc: Global,
        capacity: usize,
    ) -> Result<OpenHashTable<T, C>, AllocError>
        ensures empty { IfOk result (λ t. entries t ≡ []) }
        ensures memory { TakesRoom capacity result }
    {
        if capacity == 0 {
            return Ok(OpenHashTable::of_cells(alloc));
        }
        let count = count_for(capacity).ok_or(AllocError)?;
        let tags = empty_tags(alloc, count)?;
        let cells = empty_cells(alloc, count)?;
        Ok(OpenHashTable {
            tags,
            cells,
            len: 0,
            used: 0,
            value_type: PhantomData,
        })
    }

    /// The same as `try_reserve`. Unlike `reserve` of Rust's collections it returns an error if memory runs out.
    pub fn reserve(&mut self, additional: usize) -> Result<(), AllocError>
        ensures contents { IsPermutation (entries self.old) (entries self.new) }
        ensures memory { Reserves additional self.old result self.new }
    {
        self.try_reserve(additional)
    }

    /// Gives back the memory that the pairs don't need.
    ///
    /// If the smaller memory can't be allocated, the pairs stay. If none is needed, it can't fail.
    pub fn shrink_to_fit(&mut self) -> Result<(), AllocError>
        ensures contents { IsPermutation (entries self.old) (entries self.new) }
        ensures memory { Shrinks 0 (length (entries self.old)) self.old result self.new }
    {
        self.shrink_to(0)
    }

    /// Gives back memory that is needed neither for the pairs in the table nor for a table of `least` pairs.
    ///
    /// It moves every pair into fewer cells. If these can't be allocated, the pairs stay, and there are more cells than
    /// the least number that is needed. If no cell is needed, it can't fail.
    pub fn shrink_to(&mut self, least: usize) -> Result<(), AllocError>
        ensures contents { IsPermutation (entries self.old) (entries self.new) }
        ensures memory { Shrinks least (length (entries self.old)) self.old result self.new }
        ensures needed { OnErr result (least_cells (max least (length (entries self.old))) < memory self.new) }
        ensures enough { least_cells (capacity self.new) ≤ memory self.new }
    {
        let needed = least.max(self.len);
        if needed == 0 {
            self.give_back();
            return Ok(());
        }
        let count = fewer_cells(self.tags.len(), needed);
        if count == self.tags.len() {
            return Ok(());
        }
        self.resize(count)
    }

    /// Drops a table that has no pair, and gives back its memory. The type of its values needn't be `Drop`.
    pub fn destroy_empty(self)
        requires { entries self ≡ [] }
    {
        let mut cells = self.cells;
        drop_empty_cells(self.tags.as_slice(), &mut cells);
        cells.destroy_empty();
    }

    // Gives back the memory of a table with no pair.
    fn give_back(&mut self)
        requires { entries self.old ≡ [] }
        ensures empty { entries self.new ≡ [] }
        ensures memory { HasNoMemory self.new }
    {
        let alloc = *self.cells.allocator();
        drop_empty_cells(self.tags.as_slice(), &mut self.cells);
        self.tags = Vec::new(alloc);
        mem::replace(&mut self.cells, Vec::new(alloc)).destroy_empty();
        self.used = 0;
    }
}

// Drops cells that have no pair, one by one: a vector of them can't be dropped if their type isn't `Drop`.
fn drop_empty_cells<T, C: Cell<T>>(tags: &[u8], cells: &mut Vec<C>)
    requires same_length { vec_len cells.old ≡ length tags.now }
    requires empty { pairs (slots_of C.slot tags.now cells.old.items) ≡ [] }
    ensures { vec_len cells.new ≡ 0 }
{
    'dropping: while let Some(cell) = cells.pop() {
        match cell.into_pair(has_pair(tags[cells.len()])) {
            None => {}
            Some(_) => unreachable!(),
        }
    }
}

// The number of cells, halved as long as `needed` pairs fit.
fn fewer_cells(current: usize, needed: usize) -> usize
    requires count { (current ≡ 0) ⊎ IsPowerOfTwo current }
    requires some { 0 < needed }
    ensures halved { (result ≡ current) ⊎ FewerCells needed current result }
    ensures few { result ≤ most_cells needed }
{
    let mut count = current;
    while count > 16 && needed <= usable_of(count / 2) {
        count /= 2;
    }
    count
}
