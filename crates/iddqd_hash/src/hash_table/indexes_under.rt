//! The iterator over the indexes of a table under one hash.
ghost use Rattle.std.specs.Prelude.{◌≡◌, IfSome, IsSome, length};
ghost use Rattle.std.specs.Iterator.{YieldsFirst, item_count, at_most, UpTo};
ghost use Rattle.std.specs.Iterator.SizeHint.{IsWithinCount};
ghost use Rattle.std.specs.List.Sorted.{IsPermutation};
ghost use Rattle.iddqd_hash.specs.MapHashTable.{filed, indexes_under};

use super::MapHashTable;
use crate::open_table::{IndexCell, IterHash};
use iddqd::item_index::ItemIndex;
use iddqd::map_hash::MapHash;
use std::fmt;
use std::iter::FusedIterator;
use std::marker::Model;

/// The indexes under a hash, each once, in no order that a caller can rely on. Once it has ended it stays ended.
///
/// It takes no memory.
#[derive(Drop)]
pub struct IndexesUnder<'a> {
    values: IterHash<'a, ItemIndex, IndexCell>,
}

impl<'a> Model for IndexesUnder<'a> {
    ghost use Rattle.std.specs.Prelude.{ℕ, List};

    ghost Value = { List ℕ };

    ghost view = { λ it. it.values };
}

impl MapHashTable {
    /// An iterator over the indexes under a hash, each once. Run to its end, it reads what a look-up that misses reads.
    pub fn indexes_under(&self, hash: MapHash) -> IndexesUnder<'_>
        ensures { IsPermutation (indexes_under hash (filed self.now)) result }
    {
        IndexesUnder {
            values: self.table.iter_hash(hash.hash()),
        }
    }
}

impl<'a> Iterator for IndexesUnder<'a> {
    type Item = ItemIndex;

    ghost next_gives = { YieldsFirst (λ rest. rest) };

    ghost remaining = { item_count (λ rest. rest) };

    fn next(&mut self) -> Option<ItemIndex> {
        match self.values.next() {
            Some(ix) => Some(*ix),
            None => None,
        }
    }

    fn size_hint(&self) -> (usize, Option<usize>)
        ensures lower { IsWithinCount result.0 (at_most (length self.now)) }
        ensures upper { IfSome result.1 (UpTo (at_most (length self.now))) }
        ensures least { result.0 ≡ 0 }
        ensures bounded { IsSome result.1 }
    {
        self.values.size_hint()
    }
}

impl<'a> FusedIterator for IndexesUnder<'a> {}

impl<'a> fmt::Debug for IndexesUnder<'a> {
    fn fmt<W: fmt::Write>(&self, f: &mut fmt::Formatter<W>) -> fmt::Result {
        f.debug_tuple("IndexesUnder").field(&self.values).finish()
    }
}
