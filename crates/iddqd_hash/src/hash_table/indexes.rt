//! Calls that go over all indexes of a table.
ghost use Rattle.std.specs.Prelude.{◌≡◌, Some, IfSome, length, is_some};
ghost use Rattle.std.specs.Iterator.{YieldsFirst, item_count, at_most, UpTo};
ghost use Rattle.std.specs.Iterator.SizeHint.{IsWithinCount};
ghost use Rattle.std.specs.List.Sorted.{IsPermutation};
ghost use Rattle.std.specs.FinMap as finite;
ghost use Rattle.iddqd_hash.specs.Asks.{CanAsk, RetainsPairs};
ghost use Rattle.iddqd_hash.specs.HashTable.{KeepsMemory};
ghost use Rattle.iddqd_hash.specs.MapHashTable.{filed, indexes_of, pairs_of};

use super::MapHashTable;
use crate::open_table::{IndexCell, TableIter};
use iddqd::item_index::ItemIndex;
use std::fmt;
use std::iter::FusedIterator;
use std::marker::Model;

/// The indexes of a table, each once, in no order that a caller can rely on. Once it has ended it stays ended.
///
/// It takes no memory.
#[derive(Drop)]
pub struct Indexes<'a> {
    values: TableIter<'a, ItemIndex, IndexCell>,
}

impl<'a> Model for Indexes<'a> {
    ghost use Rattle.std.specs.Prelude.{ℕ, List};

    ghost Value = { List ℕ };

    ghost view = { λ it. it.values };
}

impl MapHashTable {
    /// An iterator over the indexes, each once. It reads the tags of sixteen cells at a time.
    pub fn indexes(&self) -> Indexes<'_>
        ensures { IsPermutation (indexes_of (filed self.now)) result }
    {
        Indexes {
            values: self.table.iter(),
        }
    }

    /// Whether an index is filed, under any hash. It costs a walk over the table.
    pub fn contains_index(&self, ix: ItemIndex) -> bool
        ensures { result ≡ is_some (finite.get (filed self.now) ix) }
    {
        let mut walk = self.table.iter();
        'walking: while let Some(at) = walk.next() {
            if *at == ix {
                return true;
            }
        }
        false
    }

    /// Keeps exactly the indexes for which `f` answers `true`, under their hashes.
    ///
    /// `f` is asked once about each index. No memory is taken or given back.
    pub fn retain<F: FnMut(ItemIndex) -> bool>(&mut self, mut f: F)
        requires { CanAsk F.pre F.step f (indexes_of (filed self.old)) }
        ensures kept { RetainsPairs F.step f (pairs_of (filed self.old)) (pairs_of (filed self.new)) }
        ensures memory { KeepsMemory self.old self.new }
    {
        self.table.retain_asked(
            |ix: &ItemIndex| -> bool
                requires { F.pre f ix.now }
                ensures { F.step f.entry ix.now result f.exit }
            { f(*ix) },
        );
    }
}

impl<'a> Iterator for Indexes<'a> {
    type Item = ItemIndex;

    ghost next_gives = { YieldsFirst (λ rest. rest) };

    ghost remaining = { item_count (λ rest. rest) };

    fn next(&mut self) -> Option<ItemIndex> {
        match self.values.next() {
            Some(ix) => Some(*ix),
            None => None,
        }
    }

    fn size_hint(&self) -> (usize, Option<usize>)
        ensures lower { IsWithinCount result.0 (at_most (length self.now)) }
        ensures upper { IfSome result.1 (UpTo (at_most (length self.now))) }
        ensures exact { result ≡ (length self.now, Some (length self.now)) }
    {
        let left = self.len();
        (left, Some(left))
    }
}

impl<'a> ExactSizeIterator for Indexes<'a> {
    fn len(&self) -> usize {
        self.values.len()
    }
}

impl<'a> FusedIterator for Indexes<'a> {}

impl<'a> fmt::Debug for Indexes<'a> {
    fn fmt<W: fmt::Write>(&self, f: &mut fmt::Formatter<W>) -> fmt::Result {
        f.debug_struct("Indexes")
            .field("remaining", &self.len())
            .finish()
    }
}
