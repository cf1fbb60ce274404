//! The iterator over the items of a set.
ghost use Rattle.std.specs.Prelude.{◌≡◌, ⊤, Some, IfSome, length};
ghost use Rattle.std.specs.Iterator.{YieldsFirstRef, YieldsLastRef, item_count, at_most, UpTo};
ghost use Rattle.std.specs.Iterator.SizeHint.{IsWithinCount};

use crate::item_set::Iter;
use std::alloc::AllocError;
use std::fmt;
use std::iter::FusedIterator;
use std::marker::Model;

/// The items of a set, by rising index. Once it has ended it stays ended.
///
/// A whole iteration costs a step for each slot, and takes no memory.
#[derive(Drop)]
pub struct Values<'a, T> {
    pub(super) pairs: Iter<'a, T>,
}

impl<'a, T> Model for Values<'a, T> {
    ghost use Rattle.std.specs.Prelude.{List, map};

    ghost Value = { List T };

    ghost view = { λ it. map (λ pair. pair.1) it.pairs };
}

impl<'a, T> Iterator for Values<'a, T> {
    type Item = &'a T;

    ghost next_gives = { YieldsFirstRef (λ rest. rest) };

    ghost remaining = { item_count (λ rest. rest) };

    fn next(&mut self) -> Option<&'a T> {
        match self.pairs.next() {
            Some((_, item)) => Some(item),
            None => None,
        }
    }

    fn size_hint(&self) -> (usize, Option<usize>)
        ensures lower { IsWithinCount result.0 (at_most (length self.now)) }
        ensures upper { IfSome result.1 (UpTo (at_most (length self.now))) }
        ensures exact { result ≡ (length self.now, Some (length self.now)) }
    {
        let left = self.len();
        (left, Some(left))
    }
}

impl<'a, T> DoubleEndedIterator for Values<'a, T> {
    ghost next_back_gives = { YieldsLastRef (λ rest. rest) };

    fn next_back(&mut self) -> Option<&'a T> {
        match self.pairs.next_back() {
            Some((_, item)) => Some(item),
            None => None,
        }
    }
}

impl<'a, T> ExactSizeIterator for Values<'a, T> {
    fn len(&self) -> usize {
        self.pairs.len()
    }
}

impl<'a, T> FusedIterator for Values<'a, T> {}

impl<'a, T> Clone for Values<'a, T> {
    ghost is_clone = { λ it copy. copy ≡ it };

    ghost is_infallible = { λ _. ⊤ };

    fn clone(&self) -> Result<Self, AllocError> {
        Ok(Values {
            pairs: self.pairs.clone()?,
        })
    }
}

impl<'a, T> Default for Values<'a, T> {
    ghost use Rattle.std.specs.Prelude.{[]};

    ghost is_default = { λ it. it ≡ [] };

    fn default() -> Self {
        Values {
            pairs: Iter::default(),
        }
    }
}

impl<'a, T> fmt::Debug for Values<'a, T> {
    fn fmt<W: fmt::Write>(&self, f: &mut fmt::Formatter<W>) -> fmt::Result {
        f.debug_struct("Values")
            .field("remaining", &self.len())
            .finish()
    }
}
