//! Iterates over the indexes of a linked table that have one hash.
ghost use Rattle.std.specs.Prelude.{◌≡◌, ◌≤◌, ⊤, Some, IfSome, length};
ghost use Rattle.std.specs.FinMap as finite;
ghost use Rattle.std.specs.Iterator.{YieldsFirst, MakesProgress, item_count, at_most, UpTo};
ghost use Rattle.std.specs.Iterator.SizeHint.{IsWithinCount};
ghost use Rattle.iddqd.specs.Store.{sentinel};
ghost use Rattle.iddqd_groups.specs.Links.{AreUnder};
ghost use Rattle.iddqd_groups.specs.Upcoming.{rest_of, LowersBound};

use super::LinkedTable;
use super::links::{Link, place_of};
use iddqd::item_index::ItemIndex;
use iddqd::map_hash::MapHash;
use std::fmt;
use std::iter::FusedIterator;
use std::marker::Model;

/// An iterator over the indexes under a hash: each once, in no order that a caller can rely on. It is fused.
///
/// A contract sees the indexes that are left, `rest`, and the upper bound of its `size_hint`, `bound`. The bound is the
/// number of indexes in the table, less those that were yielded, since no table stores how many share a hash. It takes
/// no memory.
#[derive(Drop)]
pub struct LinkedIndexes<'a> {
    links: &'a [Link],
    // The index that comes next, or `SENTINEL` at the end.
    at: ItemIndex,
    // How many indexes the table has, less those that were yielded.
    left: usize,
}

impl<'a> Model for LinkedIndexes<'a> {
    ghost use Rattle.std.specs.Prelude.{length};
    ghost use Rattle.iddqd_groups.specs.Links.{chain, next_of, IsWalk};
    ghost use Rattle.iddqd_groups.specs.Upcoming.{Upcoming};

    ghost Value = { Upcoming };

    ghost view = { λ it. record {
      rest = chain (next_of it.links.now) (length it.links.now) it.at;
      bound = it.left;
    } };

    ghost invariant = { λ it. IsWalk it.links.now it.at it.left };
}

impl LinkedTable {
    /// The indexes under a hash, each once. It reads no other index.
    pub fn indexes_under(&self, hash: MapHash) -> LinkedIndexes<'_>
        ensures under { AreUnder self.now.filed hash result.rest }
        ensures bound { result.bound ≡ finite.len self.now.filed }
    {
        LinkedIndexes {
            links: self.links.as_slice(),
            at: match self.heads.indexes_under(hash).next() {
                Some(head) => head,
                None => ItemIndex::SENTINEL,
            },
            left: self.len,
        }
    }
}

impl<'a> Iterator for LinkedIndexes<'a> {
    type Item = ItemIndex;

    ghost next_gives = { YieldsFirst rest_of };

    ghost remaining = { item_count rest_of };

    fn next(&mut self) -> Option<ItemIndex>
        ensures steps { YieldsFirst rest_of self.old result self.new }
        ensures goes { MakesProgress (λ _. ⊤) (item_count rest_of) self.old result self.new }
        ensures bound { LowersBound self.old result self.new }
    {
        let ix = self.at;
        if ix == ItemIndex::SENTINEL {
            return None;
        }
        self.at = self.links[place_of(ix)].next;
        self.left -= 1;
        Some(ix)
    }

    fn size_hint(&self) -> (usize, Option<usize>)
        ensures lower { IsWithinCount result.0 (at_most (length self.now.rest)) }
        ensures upper { IfSome result.1 (UpTo (at_most (length self.now.rest))) }
        ensures bound { result ≡ (0, Some self.now.bound) }

        // There are no more indexes than that.
        ensures few { IfSome result.1 (λ most. most ≤ sentinel) }
    {
        (0, Some(self.left))
    }
}

impl<'a> FusedIterator for LinkedIndexes<'a> {}

impl<'a> fmt::Debug for LinkedIndexes<'a> {
    fn fmt<W: fmt::Write>(&self, f: &mut fmt::Formatter<W>) -> fmt::Result {
        f.debug_struct("LinkedIndexes")
            .field("at", &self.at)
            .finish()
    }
}
