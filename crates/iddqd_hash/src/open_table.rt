//! A hash table with open addressing: a ring of cells, and a tag of one byte for each cell.
//!
//! A full cell has a value and the value's full hash. A tag says whether its cell is empty, full or marked; a mark is
//! what a removal leaves. The tag of a full cell has seven bits of the hash, so a look-up reads few cells. The home of
//! a hash is the cell `hash % cells`. A probe goes from there by steps of one, from the last cell on to the first, past
//! full and marked cells, up to an empty one. An insert takes the first cell of its probe that is marked or empty. The
//! contracts are those of [`HashTable`](crate::hash_table_reference::HashTable).
//!
//! What always holds (`IsSoundTable`):
//!
//! 1. The number of cells is 0 or a power of two from 16 on.
//! 2. The tag of a full cell is that of its pair's hash, and the tag of any other cell is 0 or `MARK`.
//! 3. A probe for the hash of a pair reaches the pair before any empty cell. So a look-up ends at the first empty cell.
//! 4. `len` is the number of pairs, and `used` the number of full and marked cells.
//! 5. At most thirteen of sixteen cells are full, and at most seven of eight are full or marked. So in a table with
//!    cells one of eight is empty, and every probe ends.
//! 6. The vectors have memory for their items and no more, so contracts measure all memory by the number of cells.
//!
//! An insert that finds seven of eight cells full or marked first rebuilds the table: it places all pairs again in the
//! same cells, without marks. So the capacity doesn't depend on what was removed. After a rebuild one cell of sixteen
//! may be filled before the next one, so a table near its capacity isn't rebuilt at each insert. A table at its
//! capacity grows to twice as many cells. Since thirteen of sixteen may be full, 100,000 pairs fit in 131,072 cells;
//! with three of four they would take twice as many. If the hashes of n pairs have one home, their inserts pass
//! n * n / 2 full cells, mostly sixteen or more at a time.
//!
//! The kind of cell is a type parameter. [`OptionCell`] is for any value, and has an option beside the hash.
//! [`IndexCell`] is for indexes, and has none: its tag alone says whether it has a pair, and what is left in an emptied
//! one is never read.
//!
//! Measured when each was tried, beside hashbrown at 1,000 entries (docs/SPEED.md has later times):
//!
//! 1. Tags and cells have a vector each. A miss took 1.4 times hashbrown's time, and 7.7 in one vector of both.
//! 2. Up to 65536 cells a probe begins with sixteen tags, which saves a mispredicted branch: a hit took 1.8 times
//!    hashbrown's time, and 2.1 without. The first of the sixteen at which the probe stops mostly decides the
//!    look-up. It is tried before the loop, so a hit takes a tenth less time.
//! 3. In a larger table a probe begins with the home's tag alone, and the processor fetches the home's cell before it
//!    has the tag. With sixteen tags a hit took 1.5 times as long.
//! 4. An insert doesn't read the cell that it writes. Safe code would load an [`OptionCell`] to drop its old value, so
//!    one line is `unsafe`.
//! 5. `grow`, `rebuild` and `later_match` are out of line, so the common path is short enough to be inlined into the
//!    caller's loop. An insert that is called takes an eighth more instructions than an inlined one.
//! 6. A walk over all pairs keeps a bit for each of sixteen cells (`FullPlaces`).
//! 7. A clone leaves pairs and marks in their places, so it probes for nothing. A clone of a table of indexes copies
//!    tags and cells as memory. Any other clone goes from one full cell to the next, and takes 1.3 times hashbrown's
//!    time. A test of each cell took 4.8, since the processor mispredicted half of the tests.
ghost use Rattle.std.specs.Prelude.{◌≡◌, ◌↔◌, ◌∷◌, ◌≤◌, ◌<◌, ◌+◌, ◌-◌, [], Some, IsTrue, length, option_copied, IfOk, IfSome, OnOk, OnErr};
ghost use Rattle.std.specs.List.Sorted.{IsPermutation};
ghost use Rattle.std.specs.List.{Contains};
ghost use Rattle.std.specs.Option.{option_map};
ghost use Rattle.std.specs.Fn.{TakesAt, CalledAt, FnReturnsAt};
ghost use Rattle.iddqd_hash.specs.Asks.{CanAsk, CanAskEach, CanAskAgain, LooksUp, HitsPair, FindsPlace, Misses, RetainsPairs};
ghost use Rattle.iddqd_hash.specs.HashTable.{entries, room, capacity, memory, pair_at, under, values, Rewrites, HasNoMemory, KeepsMemory, UsesRoom};
ghost use Rattle.iddqd_hash.specs.Sizes.{Reserves};
ghost use Rattle.iddqd_hash.specs.OpenTable.{usable_of, IsPowerOfTwo};

use crate::open_table::cell_kinds::Cell;
use crate::open_table::cells::{
    clear_cells, clear_tags, find_cell, move_cells, pair_at, put, retain_cells, rewrite_cells, take,
};
use crate::open_table::memory::{empty_cells, empty_tags};
use crate::open_table::rebuild::rebuild_at_limit;
use crate::open_table::tags::{MARK, count_for, free_place, usable_of};
use crate::table_entry::{self, PairCells};
use std::alloc::{AllocError, Global};
use std::marker::{Model, PhantomData};
use std::{fmt, mem};

mod cell_kinds;
mod cells;
mod copies;
mod entry;
mod iter;
mod iter_hash;
mod lanes;
mod memory;
mod places;
mod rebuild;
mod sizes;
mod tags;

pub use cell_kinds::{IndexCell, OptionCell};
pub use entry::{Entry, VacantEntry};
pub use iter::TableIter;
pub use iter_hash::IterHash;

/// Values under hashes, in no order that a caller can rely on.
///
/// Contracts see a bag of pairs of a hash and a value, how many inserts need no memory, and how many cells the memory
/// has.
#[derive(Drop)]
pub struct OpenHashTable<T, C: Cell<T> = OptionCell<T>> {
    tags: Vec<u8>,
    // How many cells are full or marked. It isn't beside `len`, since the compiler would read the two at once, and such
    // a read waits for an earlier write of either.
    used: usize,
    cells: Vec<C>,
    len: usize,
    value_type: PhantomData<T>,
}

impl<T, C: Cell<T>> Model for OpenHashTable<T, C> {
    ghost use Rattle.iddqd_hash.specs.HashTable.{Table, table_code};
    ghost use Rattle.iddqd_hash.specs.OpenTable.{table_of, slots_of, IsSoundTable};

    ghost Value = { Table T };

    ghost coded = { table_code T.code };

    ghost view = { λ s. table_of (slots_of C.slot s.tags.items s.cells.items) };

    ghost invariant = { λ s. IsSoundTable C.slot s.tags s.cells s.len s.used };
}

/// The entry of a pair that is in a table.
pub type OccupiedEntry<'a, T, C = OptionCell<T>> = table_entry::OccupiedEntry<
    'a,
    OpenHashTable<T, C>,
>;

impl<T, C: Cell<T>> PairCells for OpenHashTable<T, C> {
    type Value = T;

    ghost seen = { λ t. t };

    fn place_of<F: FnMut(&T) -> bool>(&self, hash: u64, eq: F) -> Option<usize> {
        Some(self.seek(hash, eq)?.0)
    }

    fn pair_at(&self, place: usize) -> (u64, &T) {
        pair_at(self.tags.as_slice(), self.cells.as_slice(), place)
    }

    fn take_at(&mut self, place: usize) -> T {
        self.len -= 1;
        take(
            self.tags.as_mut_slice(),
            self.cells.as_mut_slice(),
            place,
            MARK,
        )
        .1
    }

    #[inline(always)]
    fn add(&mut self, hash: u64, value: T) -> usize {
        self.used = rebuild_at_limit(
            self.tags.as_mut_slice(),
            self.cells.as_mut_slice(),
            self.used,
            self.len,
        );
        let place = free_place(self.tags.as_slice(), hash);
        let was_empty = self.tags[place] == 0;
        self.used += was_empty as usize;
        self.len += 1;
        put(
            self.tags.as_mut_slice(),
            self.cells.as_mut_slice(),
            place,
            hash,
            value,
        );
        place
    }
}

impl<T> OpenHashTable<T> {
    /// An empty table, which takes no memory.
    pub fn new(alloc: Global) -> Self
        ensures empty { entries result ≡ [] }
        ensures memory { HasNoMemory result }
    {
        OpenHashTable::of_cells(alloc)
    }
}

impl<T, C: Cell<T>> OpenHashTable<T, C> {
    ghost use Rattle.std.specs.Borrow.{RestsIfErr, sem};
    ghost use Rattle.iddqd_hash.specs.contracts.open_table.OpenHashTable.{the_row};
    ghost use Rattle.iddqd_hash.specs.TableEntry.{entry_table, entry_pair, entry_lender};

    /// The same as `new`, for any kind of cell.
    pub fn of_cells(alloc: Global) -> Self
        ensures empty { entries result ≡ [] }
        ensures memory { HasNoMemory result }
    {
        OpenHashTable {
            tags: Vec::new(alloc),
            cells: Vec::new(alloc),
            len: 0,
            used: 0,
            value_type: PhantomData,
        }
    }

    /// The number of pairs.
    pub fn len(&self) -> usize
        ensures { result ≡ length (entries self.now) }
    {
        self.len
    }

    /// Whether there is no pair.
    pub fn is_empty(&self) -> bool
        ensures { IsTrue result ↔ (entries self.now ≡ []) }
    {
        self.len == 0
    }

    /// How many inserts need no memory.
    pub fn room(&self) -> usize
        ensures { result ≡ room self.now }
    {
        self.capacity() - self.len
    }

    /// How many pairs the table can hold without more memory.
    pub fn capacity(&self) -> usize
        ensures { result ≡ capacity self.now }
    {
        usable_of(self.tags.len())
    }

    /// Makes room for `additional` more pairs.
    ///
    /// If there is room for them, nothing changes. `AllocError` means that an allocation failed, or that no vector can
    /// hold that many; the table is then as it was.
    pub fn try_reserve(&mut self, additional: usize) -> Result<(), AllocError>
        ensures contents { IsPermutation (entries self.old) (entries self.new) }
        ensures memory { Reserves additional self.old result self.new }
    {
        if additional <= self.room() {
            return Ok(());
        }
        self.grow(additional)
    }

    /// A value under `hash` for which `eq` answers `true`.
    ///
    /// `eq` is asked only about values under `hash`, about none twice, and not again after it answered `true`. `None`
    /// means that it was asked about each of them.
    #[inline(always)]
    pub fn find<F: FnMut(&T) -> bool>(&self, hash: u64, eq: F) -> Option<&T>
        requires { CanAsk (TakesAt F.FnMut) (CalledAt F.FnMut) eq (under hash (entries self.now)) }
        ensures { LooksUp (CalledAt F.FnMut) eq (under hash (entries self.now)) (option_copied result) }
    {
        self.find_asked(hash, eq)
    }

    /// The entry of a value under `hash` for which `eq` answers `true`, else `Err(())`.
    ///
    /// `eq` is asked as in `find`.
    pub fn find_entry<F: FnMut(&T) -> bool>(
        &mut self,
        hash: u64,
        eq: F,
    ) -> Result<OccupiedEntry<'_, T, C>, ()>
        requires { CanAsk (TakesAt F.FnMut) (CalledAt F.FnMut) eq (under hash (entries self.old)) }

        // A hit is a pair under the hash, and the asks before it were answered `false`.
        ensures found { IfOk result
            (λ e. HitsPair (CalledAt F.FnMut) eq hash (under hash (entries self.old)) (entry_pair e)) }
        ensures missed { OnErr result (Misses (CalledAt F.FnMut) eq (under hash (entries self.old))) }

        // The table is as it was, and an entry borrows it.
        ensures table { IfOk result (λ e. entry_table e ≡ self.old) }
        ensures same_reference { IfOk result (λ e. entry_lender e ≡ self.entry.ghost_name) }
        ensures* unchanged { sem 𝓛
            (RestsIfErr (the_row T.row C.row C.Cell) self.entry entry_lender result (λ t. t ≡ self.old)) }
    {
        match self.place_of(hash, eq) {
            Some(place) => Ok(OccupiedEntry { table: self, place }),
            None => Err(()),
        }
    }

    /// Adds a pair, and takes no memory. It doesn't look for an equal value.
    ///
    /// If seven of eight cells are full or marked, it first places all pairs again, which costs a walk over all cells.
    #[inline(always)]
    pub fn insert_unique(&mut self, hash: u64, value: T) -> OccupiedEntry<'_, T, C>
        requires { 1 ≤ room self.old }
        ensures pair { entry_pair result ≡ Some (hash, value) }
        ensures added { IsPermutation ((hash, value) ∷ entries self.old) (entries (entry_table result)) }
        ensures memory { UsesRoom self.old (entry_table result) }
        ensures same_reference { entry_lender result ≡ self.entry.ghost_name }
    {
        let place = self.add(hash, value);
        OccupiedEntry { table: self, place }
    }

    /// Keeps exactly the values for which `f` answers `true`.
    ///
    /// `f` is asked once about each value. No memory is taken or given back.
    pub fn retain<F: FnMut(&T) -> bool>(&mut self, f: F)
    where
        T: Drop,
        requires { CanAsk (TakesAt F.FnMut) (CalledAt F.FnMut) f (values (entries self.old)) }
        ensures kept { RetainsPairs (CalledAt F.FnMut) f (entries self.old) (entries self.new) }
        ensures memory { KeepsMemory self.old self.new }
    {
        self.retain_asked(f);
    }

    /// Replaces each value by what `f` returns for it, under the same hash.
    ///
    /// `f` is called once on each value. No memory is taken or given back. It costs a walk over the table, or nothing
    /// if there is no pair.
    pub fn rewrite<F: Fn(&T) -> T>(&mut self, f: F)
    where
        T: Drop,
        requires { (v : _) → Contains (values (entries self.old)) v.now → F.pre f v }
        ensures rewritten { Rewrites (FnReturnsAt F.Fn f) (entries self.old) (entries self.new) }
        ensures memory { KeepsMemory self.old self.new }
    {
        rewrite_cells(self.tags.as_slice(), self.cells.as_mut_slice(), self.len, f);
    }

    /// Removes every pair, and keeps the memory. If no cell is full or marked, it reads none.
    pub fn clear(&mut self)
    where
        T: Drop,
        ensures empty { entries self.new ≡ [] }
        ensures memory { KeepsMemory self.old self.new }
        ensures room { room self.new ≡ capacity self.old }
    {
        if self.used == 0 {
            return;
        }
        clear_tags(self.tags.as_mut_slice());
        clear_cells(self.cells.as_mut_slice());
        self.len = 0;
        self.used = 0;
    }

    // Does what `find` does. Its condition is two clauses, since a caller in this crate that passes a closure proves
    // two in far fewer steps than one.
    #[inline(always)]
    pub(crate) fn find_asked<F: FnMut(&T) -> bool>(&self, hash: u64, eq: F) -> Option<&T>
        requires each { CanAskEach (TakesAt F.FnMut) eq (under hash (entries self.now)) }
        requires again { CanAskAgain (TakesAt F.FnMut) (CalledAt F.FnMut) eq (under hash (entries self.now)) }
        ensures { LooksUp (CalledAt F.FnMut) eq (under hash (entries self.now)) (option_copied result) }
    {
        Some(self.seek(hash, eq)?.1)
    }

    // The place and the value of the pair that a look-up hits.
    #[inline(always)]
    fn seek<F: FnMut(&T) -> bool>(&self, hash: u64, eq: F) -> Option<(usize, &T)>
        requires each { CanAskEach (TakesAt F.FnMut) eq (under hash (entries self.now)) }
        requires again { CanAskAgain (TakesAt F.FnMut) (CalledAt F.FnMut) eq (under hash (entries self.now)) }
        ensures place { FindsPlace (CalledAt F.FnMut) eq hash (under hash (entries self.now)) (pair_at self.now)
            (option_map (λ found. found.0) result) }
        ensures value { IfSome result (λ found. pair_at self.now found.0 ≡ Some (hash, found.1.now)) }
    {
        let count = self.tags.len();
        if count == 0 {
            return None;
        }
        find_cell(self.tags.as_slice(), self.cells.as_slice(), hash, eq)
    }

    // `retain`, with its condition in two parts, as `find_asked` has it.
    pub(crate) fn retain_asked<F: FnMut(&T) -> bool>(&mut self, mut f: F)
    where
        T: Drop,
        requires each { CanAskEach (TakesAt F.FnMut) f (values (entries self.old)) }
        requires again { CanAskAgain (TakesAt F.FnMut) (CalledAt F.FnMut) f (values (entries self.old)) }
        ensures kept { RetainsPairs (CalledAt F.FnMut) f (entries self.old) (entries self.new) }
        ensures memory { KeepsMemory self.old self.new }
    {
        let removed = retain_cells(
            self.tags.as_mut_slice(),
            self.cells.as_mut_slice(),
            self.len,
            &mut f,
        );
        self.len -= removed;
    }

    // What `try_reserve` does if there is too little room. It is out of line, so that `try_reserve` is short otherwise.
    #[inline(never)]
    fn grow(&mut self, additional: usize) -> Result<(), AllocError>
        requires { room self.old < additional }
        ensures contents { IsPermutation (entries self.old) (entries self.new) }
        ensures memory { Reserves additional self.old result self.new }
    {
        let needed = self.len.checked_add(additional).ok_or(AllocError)?;
        let count = count_for(needed).ok_or(AllocError)?;
        self.resize(count)
    }

    // Moves every pair into `count` new cells.
    fn resize(&mut self, count: usize) -> Result<(), AllocError>
        requires power { IsPowerOfTwo count }
        requires fits { length (entries self.old) ≤ usable_of count }
        ensures contents { IsPermutation (entries self.old) (entries self.new) }
        ensures refused { OnErr result (self.new ≡ self.old) }
        ensures room { OnOk result (room self.new ≡ usable_of count - length (entries self.old)) }
        ensures memory { OnOk result (memory self.new ≡ count) }
    {
        let alloc = *self.cells.allocator();
        let mut tags = empty_tags(alloc, count)?;
        let mut cells = empty_cells(alloc, count)?;
        move_cells(
            self.tags.as_slice(),
            &mut self.cells,
            tags.as_mut_slice(),
            cells.as_mut_slice(),
        );
        self.tags = tags;
        mem::replace(&mut self.cells, cells).destroy_empty();
        self.used = self.len;
        Ok(())
    }

    // The allocator that the table's memory comes from.
    pub(crate) fn allocator(&self) -> Global {
        *self.cells.allocator()
    }
}

impl<T, C: Cell<T>> fmt::Debug for OpenHashTable<T, C> {
    fn fmt<W: fmt::Write>(&self, f: &mut fmt::Formatter<W>) -> fmt::Result {
        let len = self.len;
        let cells = self.cells.len();
        let used = self.used;
        write!(
            f,
            "OpenHashTable {{ len: {len}, cells: {cells}, used: {used} }}"
        )
    }
}
