//! A table of values under hashes as a plain list: the reference for `OpenHashTable`. Both run the same tests.
//!
//! 1. Each value stands beside the full 64-bit hash that it was inserted under.
//! 2. A look-up compares hashes from the front of the list on. It asks its closure only about the values under its
//!    hash, up to the first that is answered `true`.
//! 3. The contract leaves open which of several matches a look-up finds, and in which order the values are.
//!
//! `try_reserve` compares with `room` first, since std's vector doesn't promise that its capacity stays if it suffices.
ghost use Rattle.std.specs.Prelude.{◌≡◌, ◌↔◌, ◌∷◌, ◌≤◌, [], Some, IsTrue, length, slice_get, option_copied, IfOk, OnErr, vec_len, vec_capacity};
ghost use Rattle.std.specs.List.Sorted.{IsPermutation};
ghost use Rattle.std.specs.List.{Contains};
ghost use Rattle.std.specs.Fn.{TakesAt, CalledAt, FnReturnsAt};
ghost use Rattle.iddqd_hash.specs.Asks.{CanAsk, LooksUp, HitsPair, FindsPlace, Misses, RetainsPairs, RetainsPairsTo};
ghost use Rattle.iddqd_hash.specs.HashTable.{entries, room, capacity, under, values, Rewrites, HasNoMemory, KeepsMemory, UsesRoom};
ghost use Rattle.iddqd_hash.specs.Sizes.{Reserves};

mod copies;
mod entry;
mod iter;
mod iter_hash;
mod sizes;

use crate::table_entry::{self, PairCells};
pub use entry::{Entry, VacantEntry};
pub use iter::TableIter;
pub use iter_hash::IterHash;
use std::alloc::{AllocError, Global};
use std::marker::Model;

/// Values under hashes, in no order that a caller can rely on.
///
/// Contracts see a bag of pairs of a hash and a value, how many inserts need no memory, and for how many pairs the
/// table has memory.
#[derive(Debug, Drop)]
pub struct HashTable<T> {
    pairs: Vec<(u64, T)>,
}

impl<T> Model for HashTable<T> {
    ghost use Rattle.std.specs.Prelude.{◌-◌, vec_len, vec_capacity};
    ghost use Rattle.iddqd_hash.specs.HashTable.{Table, table_code, listed};

    ghost Value = { Table T };

    ghost coded = { table_code T.code };

    ghost view = { λ s. listed s.pairs.items (vec_capacity s.pairs - vec_len s.pairs) (vec_capacity s.pairs) };
}

/// The entry of a pair that is in a table.
pub type OccupiedEntry<'a, T> = table_entry::OccupiedEntry<'a, HashTable<T>>;

impl<T> PairCells for HashTable<T> {
    type Value = T;

    ghost seen = { λ t. t };

    fn place_of<F: FnMut(&T) -> bool>(&self, hash: u64, eq: F) -> Option<usize> {
        find_place(self.pairs.as_slice(), hash, eq)
    }

    fn pair_at(&self, place: usize) -> (u64, &T) {
        let (hash, value) = &self.pairs[place];
        (*hash, value)
    }

    fn take_at(&mut self, place: usize) -> T {
        self.pairs.swap_remove(place).1
    }

    fn add(&mut self, hash: u64, value: T) -> usize {
        let place = self.pairs.len();
        self.pairs.push_reserved((hash, value));
        place
    }
}

impl<T> HashTable<T> {
    ghost use Rattle.std.specs.Borrow.{RestsIfErr, sem};
    ghost use Rattle.iddqd_hash.specs.contracts.hash_table_reference.HashTable.{the_row};
    ghost use Rattle.iddqd_hash.specs.TableEntry.{entry_table, entry_pair, entry_lender};

    /// An empty table, which takes no memory.
    pub fn new(alloc: Global) -> Self
        ensures empty { entries result ≡ [] }
        ensures memory { HasNoMemory result }
    {
        HashTable {
            pairs: Vec::new(alloc),
        }
    }

    /// The number of pairs.
    pub fn len(&self) -> usize
        ensures { result ≡ length (entries self.now) }
    {
        self.pairs.len()
    }

    /// Whether there is no pair.
    pub fn is_empty(&self) -> bool
        ensures { IsTrue result ↔ (entries self.now ≡ []) }
    {
        self.pairs.is_empty()
    }

    /// How many inserts need no memory.
    pub fn room(&self) -> usize
        ensures { result ≡ room self.now }
    {
        self.capacity() - self.len()
    }

    /// How many pairs the table can hold without more memory.
    pub fn capacity(&self) -> usize
        ensures { result ≡ capacity self.now }
    {
        self.pairs.capacity()
    }

    /// Makes room for `additional` more pairs.
    ///
    /// If there is room for them, nothing changes. `AllocError` means that an allocation failed, or that no vector can
    /// hold that many; the table is then as it was.
    pub fn try_reserve(&mut self, additional: usize) -> Result<(), AllocError>
        ensures contents { IsPermutation (entries self.old) (entries self.new) }
        ensures memory { Reserves additional self.old result self.new }
    {
        if additional <= self.room() {
            return Ok(());
        }
        let len = self.pairs.len();
        let needed = len.checked_add(additional).ok_or(AllocError)?;
        // The capacity at least doubles, so a pair is moved seldom while others are added one by one.
        let wanted = needed.max(self.pairs.capacity().saturating_mul(2));
        self.pairs.try_reserve_exact(wanted - len)
    }

    /// A value under `hash` for which `eq` answers `true`.
    ///
    /// `eq` is asked only about values under `hash`, about none twice, and not again after it answered `true`. `None`
    /// means that it was asked about each of them.
    pub fn find<F: FnMut(&T) -> bool>(&self, hash: u64, eq: F) -> Option<&T>
        requires { CanAsk (TakesAt F.FnMut) (CalledAt F.FnMut) eq (under hash (entries self.now)) }
        ensures { LooksUp (CalledAt F.FnMut) eq (under hash (entries self.now)) (option_copied result) }
    {
        let place = self.place_of(hash, eq)?;
        Some(self.pair_at(place).1)
    }

    /// The entry of a value under `hash` for which `eq` answers `true`, else `Err(())`.
    ///
    /// `eq` is asked as in `find`.
    pub fn find_entry<F: FnMut(&T) -> bool>(
        &mut self,
        hash: u64,
        eq: F,
    ) -> Result<OccupiedEntry<'_, T>, ()>
        requires { CanAsk (TakesAt F.FnMut) (CalledAt F.FnMut) eq (under hash (entries self.old)) }

        // A hit is a pair under the hash, and the asks before it were answered `false`.
        ensures found { IfOk result
            (λ e. HitsPair (CalledAt F.FnMut) eq hash (under hash (entries self.old)) (entry_pair e)) }
        ensures missed { OnErr result (Misses (CalledAt F.FnMut) eq (under hash (entries self.old))) }

        // The table is as it was, and an entry borrows it.
        ensures table { IfOk result (λ e. entry_table e ≡ self.old) }
        ensures same_reference { IfOk result (λ e. entry_lender e ≡ self.entry.ghost_name) }
        ensures* unchanged { sem 𝓛 (RestsIfErr (the_row T.row) self.entry entry_lender result (λ t. t ≡ self.old)) }
    {
        match self.place_of(hash, eq) {
            Some(place) => Ok(OccupiedEntry { table: self, place }),
            None => Err(()),
        }
    }

    /// Adds a pair, and takes no memory. It doesn't look for an equal value.
    pub fn insert_unique(&mut self, hash: u64, value: T) -> OccupiedEntry<'_, T>
        requires { 1 ≤ room self.old }
        ensures pair { entry_pair result ≡ Some (hash, value) }
        ensures added { IsPermutation ((hash, value) ∷ entries self.old) (entries (entry_table result)) }
        ensures memory { UsesRoom self.old (entry_table result) }
        ensures same_reference { entry_lender result ≡ self.entry.ghost_name }
    {
        let place = self.add(hash, value);
        OccupiedEntry { table: self, place }
    }

    /// Keeps exactly the values for which `f` answers `true`.
    ///
    /// `f` is asked once about each value. No memory is taken or given back.
    pub fn retain<F: FnMut(&T) -> bool>(&mut self, mut f: F)
    where
        T: Drop,
        requires { CanAsk (TakesAt F.FnMut) (CalledAt F.FnMut) f (values (entries self.old)) }
        ensures kept { RetainsPairs (CalledAt F.FnMut) f (entries self.old) (entries self.new) }
        ensures memory { KeepsMemory self.old self.new }
    {
        retain_pairs(&mut self.pairs, &mut f);
    }

    /// Replaces each value by what `f` returns for it, under the same hash.
    ///
    /// `f` is called once on each value. No memory is taken or given back.
    pub fn rewrite<F: Fn(&T) -> T>(&mut self, f: F)
    where
        T: Drop,
        requires { (v : _) → Contains (values (entries self.old)) v.now → F.pre f v }
        ensures rewritten { Rewrites (FnReturnsAt F.Fn f) (entries self.old) (entries self.new) }
        ensures memory { KeepsMemory self.old self.new }
    {
        rewrite_pairs(self.pairs.as_mut_slice(), f);
    }

    /// Removes every pair, and keeps the memory.
    pub fn clear(&mut self)
    where
        T: Drop,
        ensures empty { entries self.new ≡ [] }
        ensures memory { KeepsMemory self.old self.new }
        ensures room { room self.new ≡ capacity self.old }
    {
        self.pairs.clear();
    }
}

// The place of the pair that a look-up hits.
fn find_place<T, F: FnMut(&T) -> bool>(pairs: &[(u64, T)], hash: u64, mut eq: F) -> Option<usize>
    requires { CanAsk (TakesAt F.FnMut) (CalledAt F.FnMut) eq (under hash pairs.now) }
    ensures { FindsPlace (CalledAt F.FnMut) eq hash (under hash pairs.now) (slice_get pairs.now) result }
{
    for place in 0..pairs.len() {
        let (stored, value) = &pairs[place];
        if *stored == hash && eq(value) {
            return Some(place);
        }
    }
    None
}

// Removes each pair about whose value `f` answers `false`. The last pair takes its place, and is asked about next.
fn retain_pairs<T: Drop, F: FnMut(&T) -> bool>(pairs: &mut Vec<(u64, T)>, f: &mut F)
    requires { CanAsk (TakesAt F.FnMut) (CalledAt F.FnMut) f.old (values pairs.old.items) }
    ensures kept { RetainsPairsTo (CalledAt F.FnMut) f.old pairs.old.items pairs.new.items f.new }
    ensures len { vec_len pairs.new ≤ vec_len pairs.old }
    ensures capacity { vec_capacity pairs.new ≡ vec_capacity pairs.old }
{
    let mut place = 0;
    while place < pairs.len() {
        if f(&pairs[place].1) {
            place += 1;
        } else {
            pairs.swap_remove(place);
        }
    }
}

// Replaces the value of each pair by what `f` returns for it.
fn rewrite_pairs<T: Drop, F: Fn(&T) -> T>(pairs: &mut [(u64, T)], f: F)
    requires { (v : _) → Contains (values pairs.old) v.now → F.pre f v }
    ensures { Rewrites (FnReturnsAt F.Fn f) pairs.old pairs.new }
{
    for at in 0..pairs.len() {
        let value = f(&pairs[at].1);
        pairs[at].1 = value;
    }
}
