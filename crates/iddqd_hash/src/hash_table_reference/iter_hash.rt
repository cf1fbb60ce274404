//! The iterator over the values under one hash of the reference table.
ghost use Rattle.std.specs.Prelude.{◌≡◌, ◌∷◌, [], IfSome, IfNone, IsSome, length};
ghost use Rattle.std.specs.Iterator.{YieldsFirstRef, item_count, at_most, UpTo};
ghost use Rattle.std.specs.Iterator.SizeHint.{IsWithinCount};
ghost use Rattle.std.specs.List.Sorted.{IsPermutation};
ghost use Rattle.iddqd_hash.specs.HashTable.{entries, under};

use super::HashTable;
use std::fmt;
use std::iter::FusedIterator;
use std::marker::Model;

/// The values under a hash, each once, in no order that a caller can rely on. Once it has ended it stays ended.
///
/// It takes no memory.
#[derive(Drop)]
pub struct IterHash<'a, T> {
    pairs: &'a [(u64, T)],
    hash: u64,
}

impl<'a, T> Model for IterHash<'a, T> {
    ghost use Rattle.std.specs.Prelude.{List};
    ghost use Rattle.iddqd_hash.specs.HashTable.{under};

    ghost Value = { List T };

    ghost view = { λ it. under it.hash it.pairs.now };
}

impl<T> HashTable<T> {
    /// An iterator over the values under a hash, each once. It compares the hash of each pair.
    pub fn iter_hash(&self, hash: u64) -> IterHash<'_, T>
        ensures { IsPermutation (under hash (entries self.now)) result }
    {
        IterHash {
            pairs: self.pairs.as_slice(),
            hash,
        }
    }
}

impl<'a, T> Iterator for IterHash<'a, T> {
    type Item = &'a T;

    ghost next_gives = { YieldsFirstRef (λ rest. rest) };

    ghost remaining = { item_count (λ rest. rest) };

    fn next(&mut self) -> Option<&'a T> {
        match split_under(self.pairs, self.hash) {
            Some((value, behind)) => {
                self.pairs = behind;
                Some(value)
            }
            None => None,
        }
    }

    fn size_hint(&self) -> (usize, Option<usize>)
        ensures lower { IsWithinCount result.0 (at_most (length self.now)) }
        ensures upper { IfSome result.1 (UpTo (at_most (length self.now))) }
        ensures least { result.0 ≡ 0 }
        ensures bounded { IsSome result.1 }
    {
        (0, Some(self.pairs.len()))
    }
}

impl<'a, T> FusedIterator for IterHash<'a, T> {}

impl<'a, T> fmt::Debug for IterHash<'a, T> {
    fn fmt<W: fmt::Write>(&self, f: &mut fmt::Formatter<W>) -> fmt::Result {
        f.debug_struct("IterHash")
            .field("hash", &self.hash)
            .finish()
    }
}

// The first value under a hash, and the pairs after it.
fn split_under<'a, T>(pairs: &'a [(u64, T)], hash: u64) -> Option<(&'a T, &'a [(u64, T)])>
    ensures found { IfSome result (λ found. under hash pairs.now ≡ found.0.now ∷ under hash found.1.now) }
    ensures missed { IfNone result (under hash pairs.now ≡ []) }
{
    let mut rest = pairs;
    'passing: while let Some((pair, behind)) = rest.split_first() {
        rest = behind;
        if pair.0 == hash {
            return Some((&pair.1, rest));
        }
    }
    None
}
