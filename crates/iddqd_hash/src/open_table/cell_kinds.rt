//! The kinds of cells that a table with open addressing may have. The kind is a type parameter of the table.
//!
//! 1. [`OptionCell`] is for any value: its option says whether it has one.
//! 2. [`IndexCell`] is for indexes, and has 12 bytes; an option would make that 16. Its tag alone says whether it has
//!    a pair, and what is left in an emptied one is never read.
ghost use Rattle.std.specs.Prelude.{◌≡◌, ◌⊎◌, ◌+◌, ◌*◌, ◌/◌, ◌%◌, ◌^◌, ℕ, Bool, true, false, Option, None, Some, IsSome};

use iddqd::item_index::ItemIndex;
use std::mem::{self, ManuallyDrop};

/// A cell, which may have a pair of a hash and a value. Its tag, which is not a part of it, says whether it has one.
pub trait Cell<T> {
    // The pair in a cell. The `Bool` is whether its tag says that it has one: it is full, or pending in a rebuild.
    ghost slot: { Bool → Self → Option (ℕ × T) };

    // With `false` a cell shows either no pair, or the pair that it shows with `true`.
    ghost by_tag: { (cell : Self) → (slot false cell ≡ None) ⊎ (slot false cell ≡ slot true cell) };

    /// A cell with no pair.
    fn empty() -> Self
        ensures { slot false result ≡ None };

    /// The pair of a cell that has one.
    fn pair(&self) -> (u64, &T)
        requires { IsSome (slot true self.now) }
        ensures { slot true self.now ≡ Some (result.0, result.1.now) };

    /// Puts a pair into a cell that has none.
    fn fill(&mut self, hash: u64, value: T)
        requires { slot false self.old ≡ None }
        ensures { slot true self.new ≡ Some (hash, value) };

    /// Removes the pair of a cell that has one, and returns it.
    fn take(&mut self) -> (u64, T)
        requires { IsSome (slot true self.old) }
        ensures pair { slot true self.old ≡ Some result }
        ensures empty { slot false self.new ≡ None };

    /// Puts a pair into a cell that has one, and returns the pair that it had.
    fn replace(&mut self, hash: u64, value: T) -> (u64, T)
        requires { IsSome (slot true self.old) }
        ensures before { slot true self.old ≡ Some result }
        ensures after { slot true self.new ≡ Some (hash, value) };

    /// Consumes the cell, and returns its pair if it has one. `has_pair` is whether its tag says that it has one.
    fn into_pair(self, has_pair: bool) -> Option<(u64, T)>
        ensures { result ≡ slot has_pair self };

    /// Drops the pair if there is one.
    fn clear(&mut self)
    where
        T: Drop,
        ensures { slot false self.new ≡ None };
}

/// A cell for any value. The hash is meaningless if there is no value.
#[derive(Drop)]
pub struct OptionCell<T> {
    hash: u64,
    value: Option<T>,
}

impl<T> Cell<T> for OptionCell<T> {
    ghost use Rattle.std.proofs.Common.{inr, refl};
    ghost use Rattle.iddqd_hash.specs.CellKinds.{pair_in};

    ghost slot = { λ _ cell. pair_in cell };

    ghost by_tag = { λ cell. inr refl };

    fn empty() -> OptionCell<T> {
        OptionCell {
            hash: 0,
            value: None,
        }
    }

    #[inline(always)]
    fn pair(&self) -> (u64, &T) {
        match &self.value {
            Some(value) => (self.hash, value),
            None => unreachable!(),
        }
    }

    #[inline(always)]
    fn fill(&mut self, hash: u64, value: T) {
        self.hash = hash;
        fill(&mut self.value, value);
    }

    fn take(&mut self) -> (u64, T) {
        match self.value.take() {
            Some(value) => (self.hash, value),
            None => unreachable!(),
        }
    }

    fn replace(&mut self, hash: u64, value: T) -> (u64, T) {
        let hash = mem::replace(&mut self.hash, hash);
        match self.value.replace(value) {
            Some(value) => (hash, value),
            None => unreachable!(),
        }
    }

    fn into_pair(self, _has_pair: bool) -> Option<(u64, T)> {
        let OptionCell { hash, value } = self;
        match value {
            Some(value) => Some((hash, value)),
            None => None,
        }
    }

    fn clear(&mut self)
    where
        T: Drop,
    {
        self.value = None;
    }
}

// Writes a value over `None` without reading the slot. An assignment would load it, to drop its old value.
fn fill<T>(slot: &mut Option<T>, value: T)
    requires { slot.old ≡ None }
    ensures { slot.new ≡ Some value }
{
    let none = mem::replace(slot, Some(value));
    let _kept = unsafe { ManuallyDrop::new_unchecked(none) };
}

/// A cell for an index. The hash is in two halves, since a `u64` would be aligned to 8 bytes.
#[derive(Clone, Copy)]
pub struct IndexCell {
    low: u32,
    high: u32,
    index: ItemIndex,
}

impl Cell<ItemIndex> for IndexCell {
    ghost use Rattle.std.proofs.Common.{inl, refl};
    ghost use Rattle.iddqd_hash.specs.CellKinds.{index_slot};

    ghost slot = { index_slot };

    ghost by_tag = { λ cell. inl refl };

    fn empty() -> IndexCell {
        index_cell(0, ItemIndex::new(0))
    }

    #[inline(always)]
    fn pair(&self) -> (u64, &ItemIndex) {
        (hash_of_halves(self.low, self.high), &self.index)
    }

    #[inline(always)]
    fn fill(&mut self, hash: u64, value: ItemIndex) {
        *self = index_cell(hash, value);
    }

    fn take(&mut self) -> (u64, ItemIndex) {
        (hash_of_halves(self.low, self.high), self.index)
    }

    fn replace(&mut self, hash: u64, value: ItemIndex) -> (u64, ItemIndex) {
        let pair = (hash_of_halves(self.low, self.high), self.index);
        *self = index_cell(hash, value);
        pair
    }

    fn into_pair(self, has_pair: bool) -> Option<(u64, ItemIndex)> {
        if has_pair {
            Some((hash_of_halves(self.low, self.high), self.index))
        } else {
            None
        }
    }

    fn clear(&mut self)
    where
        ItemIndex: Drop,
    {}
}

#[inline(always)]
fn index_cell(hash: u64, index: ItemIndex) -> IndexCell
    ensures low { result.low ≡ hash % 2 ^ 32 }
    ensures high { result.high ≡ hash / 2 ^ 32 }
    ensures index { result.index ≡ index }
{
    IndexCell {
        low: (hash & 0xffff_ffff) as u32,
        high: (hash >> 32) as u32,
        index,
    }
}

#[inline(always)]
fn hash_of_halves(low: u32, high: u32) -> u64
    ensures { result ≡ low + high * 2 ^ 32 }
{
    (high as u64) << 32 | low as u64
}
