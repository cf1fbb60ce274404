//! The iterator over the values of a table with open addressing.
ghost use Rattle.std.specs.Prelude.{◌≡◌, Some, IfSome, length};
ghost use Rattle.std.specs.Iterator.{YieldsFirstRef, item_count, at_most, UpTo};
ghost use Rattle.std.specs.Iterator.SizeHint.{IsWithinCount};
ghost use Rattle.std.specs.List.Sorted.{IsPermutation};
ghost use Rattle.iddqd_hash.specs.HashTable.{entries, values};

use super::OpenHashTable;
use super::cell_kinds::{Cell, OptionCell};
use super::cells::pair_at;
use super::places::FullPlaces;
use std::fmt;
use std::iter::FusedIterator;
use std::marker::{Model, PhantomData};

/// The values of a table, each once, in no order that a caller can rely on. Once it has ended it stays ended.
///
/// It takes no memory.
#[derive(Drop)]
pub struct TableIter<'a, T, C: Cell<T> = OptionCell<T>> {
    tags: &'a [u8],
    cells: &'a [C],
    places: FullPlaces,
    // How many values are still to come.
    left: usize,
    value_type: PhantomData<&'a T>,
}

impl<'a, T, C: Cell<T>> Model for TableIter<'a, T, C> {
    ghost use Rattle.std.specs.Prelude.{List, drop};
    ghost use Rattle.iddqd_hash.specs.HashTable.{values};
    ghost use Rattle.iddqd_hash.specs.OpenTable.{pairs, slots_of};
    ghost use Rattle.iddqd_hash.specs.OpenWalk.{IsWalk};

    ghost Value = { List T };

    ghost view = { λ it. values (pairs (drop it.places.at (slots_of C.slot it.tags.now it.cells.now))) };

    ghost invariant = { λ it. IsWalk it.tags.now (slots_of C.slot it.tags.now it.cells.now)
        it.places.at it.places.end it.places.mask it.left };
}

impl<T, C: Cell<T>> OpenHashTable<T, C> {
    /// An iterator over the values, each once. It reads the tags of sixteen cells at a time.
    pub fn iter(&self) -> TableIter<'_, T, C>
        ensures { IsPermutation (values (entries self.now)) result }
    {
        TableIter {
            tags: self.tags.as_slice(),
            cells: self.cells.as_slice(),
            places: FullPlaces::new(),
            left: self.len,
            value_type: PhantomData,
        }
    }
}

impl<'a, T, C: Cell<T>> Iterator for TableIter<'a, T, C> {
    type Item = &'a T;

    ghost next_gives = { YieldsFirstRef (λ rest. rest) };

    ghost remaining = { item_count (λ rest. rest) };

    fn next(&mut self) -> Option<&'a T> {
        if self.left == 0 {
            return None;
        }
        let here = self.places.next(self.tags);
        self.left -= 1;
        Some(pair_at(self.tags, self.cells, here).1)
    }

    fn size_hint(&self) -> (usize, Option<usize>)
        ensures lower { IsWithinCount result.0 (at_most (length self.now)) }
        ensures upper { IfSome result.1 (UpTo (at_most (length self.now))) }
        ensures exact { result ≡ (length self.now, Some (length self.now)) }
    {
        let left = self.len();
        (left, Some(left))
    }
}

impl<'a, T, C: Cell<T>> ExactSizeIterator for TableIter<'a, T, C> {
    fn len(&self) -> usize {
        self.left
    }
}

impl<'a, T, C: Cell<T>> FusedIterator for TableIter<'a, T, C> {}

impl<'a, T, C: Cell<T>> fmt::Debug for TableIter<'a, T, C> {
    fn fmt<W: fmt::Write>(&self, f: &mut fmt::Formatter<W>) -> fmt::Result {
        f.debug_struct("TableIter")
            .field("remaining", &self.left)
            .finish()
    }
}
