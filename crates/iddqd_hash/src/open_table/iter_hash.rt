//! The iterator over the values under one hash.
ghost use Rattle.std.specs.Prelude.{◌≡◌, Some, IfSome, IsSome, length};
ghost use Rattle.std.specs.Iterator.{YieldsFirstRef, item_count, at_most, UpTo};
ghost use Rattle.std.specs.Iterator.SizeHint.{IsWithinCount};
ghost use Rattle.std.specs.List.Sorted.{IsPermutation};
ghost use Rattle.iddqd_hash.specs.HashTable.{entries, under};

use super::OpenHashTable;
use super::cell_kinds::{Cell, OptionCell};
use super::cells::{near_match, pair_at};
use super::tags::{home_of, next};
use std::fmt;
use std::iter::FusedIterator;
use std::marker::{Model, PhantomData};

/// The values under a hash, each once, in no order that a caller can rely on. Once it has ended it stays ended.
///
/// It takes no memory.
#[derive(Drop)]
pub struct IterHash<'a, T, C: Cell<T> = OptionCell<T>> {
    tags: &'a [u8],
    cells: &'a [C],
    hash: u64,
    // The place where the probe goes on, or `None` once it has ended.
    from: Option<usize>,
    // The number of pairs in the table, which bounds how many values there are.
    len: usize,
    value_type: PhantomData<&'a T>,
}

impl<'a, T, C: Cell<T>> Model for IterHash<'a, T, C> {
    ghost use Rattle.std.specs.Prelude.{List};
    ghost use Rattle.iddqd_hash.specs.OpenTable.{slots_of};
    ghost use Rattle.iddqd_hash.specs.OpenWalkUnder.{rest_under, IsWalkUnder};

    ghost Value = { List T };

    ghost view = { λ it. rest_under it.hash (slots_of C.slot it.tags.now it.cells.now) it.from };

    ghost invariant = { λ it. IsWalkUnder it.tags.now (slots_of C.slot it.tags.now it.cells.now)
        it.hash it.from it.len };
}

impl<T, C: Cell<T>> OpenHashTable<T, C> {
    /// An iterator over the values under a hash, each once. Run to its end, it reads what a look-up that misses reads.
    pub fn iter_hash(&self, hash: u64) -> IterHash<'_, T, C>
        ensures { IsPermutation (under hash (entries self.now)) result }
    {
        let count = self.tags.len();
        IterHash {
            tags: self.tags.as_slice(),
            cells: self.cells.as_slice(),
            hash,
            from: if count == 0 {
                None
            } else {
                Some(home_of(hash, count))
            },
            len: self.len,
            value_type: PhantomData,
        }
    }
}

impl<'a, T, C: Cell<T>> Iterator for IterHash<'a, T, C> {
    type Item = &'a T;

    ghost next_gives = { YieldsFirstRef (λ rest. rest) };

    ghost remaining = { item_count (λ rest. rest) };

    fn next(&mut self) -> Option<&'a T> {
        let from = self.from?;
        match near_match(self.tags, self.cells, from, self.hash) {
            Some(place) => {
                self.from = Some(next(place, self.tags.len()));
                Some(pair_at(self.tags, self.cells, place).1)
            }
            None => {
                self.from = None;
                None
            }
        }
    }

    fn size_hint(&self) -> (usize, Option<usize>)
        ensures lower { IsWithinCount result.0 (at_most (length self.now)) }
        ensures upper { IfSome result.1 (UpTo (at_most (length self.now))) }
        ensures least { result.0 ≡ 0 }
        ensures bounded { IsSome result.1 }
    {
        (0, Some(self.len))
    }
}

impl<'a, T, C: Cell<T>> FusedIterator for IterHash<'a, T, C> {}

impl<'a, T, C: Cell<T>> fmt::Debug for IterHash<'a, T, C> {
    fn fmt<W: fmt::Write>(&self, f: &mut fmt::Formatter<W>) -> fmt::Result {
        f.debug_struct("IterHash")
            .field("hash", &self.hash)
            .finish()
    }
}
