//! The iterator over the values of the reference table.
ghost use Rattle.std.specs.Prelude.{◌≡◌, Some, IfSome, length};
ghost use Rattle.std.specs.Iterator.{YieldsFirstRef, item_count, at_most, UpTo};
ghost use Rattle.std.specs.Iterator.SizeHint.{IsWithinCount};
ghost use Rattle.std.specs.List.Sorted.{IsPermutation};
ghost use Rattle.iddqd_hash.specs.HashTable.{entries, values};

use super::HashTable;
use std::fmt;
use std::iter::FusedIterator;
use std::marker::Model;

/// The values of a table, each once, in no order that a caller can rely on. Once it has ended it stays ended.
///
/// It takes no memory.
#[derive(Drop)]
pub struct TableIter<'a, T> {
    pairs: &'a [(u64, T)],
}

impl<'a, T> Model for TableIter<'a, T> {
    ghost use Rattle.std.specs.Prelude.{List};
    ghost use Rattle.iddqd_hash.specs.HashTable.{values};

    ghost Value = { List T };

    ghost view = { λ it. values it.pairs.now };
}

impl<T> HashTable<T> {
    /// An iterator over the values, each once.
    pub fn iter(&self) -> TableIter<'_, T>
        ensures { IsPermutation (values (entries self.now)) result }
    {
        TableIter {
            pairs: self.pairs.as_slice(),
        }
    }
}

impl<'a, T> Iterator for TableIter<'a, T> {
    type Item = &'a T;

    ghost next_gives = { YieldsFirstRef (λ rest. rest) };

    ghost remaining = { item_count (λ rest. rest) };

    fn next(&mut self) -> Option<&'a T> {
        match self.pairs.split_first() {
            Some(((_, value), rest)) => {
                self.pairs = rest;
                Some(value)
            }
            None => None,
        }
    }

    fn size_hint(&self) -> (usize, Option<usize>)
        ensures lower { IsWithinCount result.0 (at_most (length self.now)) }
        ensures upper { IfSome result.1 (UpTo (at_most (length self.now))) }
        ensures exact { result ≡ (length self.now, Some (length self.now)) }
    {
        let left = self.len();
        (left, Some(left))
    }
}

impl<'a, T> ExactSizeIterator for TableIter<'a, T> {
    fn len(&self) -> usize {
        self.pairs.len()
    }
}

impl<'a, T> FusedIterator for TableIter<'a, T> {}

impl<'a, T> fmt::Debug for TableIter<'a, T> {
    fn fmt<W: fmt::Write>(&self, f: &mut fmt::Formatter<W>) -> fmt::Result {
        f.debug_struct("TableIter")
            .field("remaining", &self.len())
            .finish()
    }
}
