//! How the answer of an asking is read.
ghost use Rattle.std.specs.Prelude.{◌≡◌};
ghost use Rattle.std.specs.declared.cmp.Ordering.{Ordering};
ghost use Rattle.std.specs.declared.cmp.Ordering.TheVariants.{Less, Greater};
ghost use Rattle.std.specs.Ordering.{ordering_then};
ghost use Rattle.std.specs.Range.Bound.{bound_map};

use iddqd::map_hash::Comparable;
use std::cmp::Ordering;
use std::ops::Bound;

/// Reads an answer about a stored index as an `Ordering`. Less means that what is sought stands before the index.
///
/// Implement it for a bound of a range whose query is no [`Comparable`]: one that may be Equal at keys that differ.
pub trait Reads<R> {
    ghost reading: { Self → R → Ordering };

    /// Reads an answer.
    fn read(&self, answer: R) -> Ordering
        ensures { result ≡ reading self.now answer };
}

/// Takes the answer as it is: an `Ordering`.
#[derive(Clone, Copy)]
pub struct AsOrdering;

impl Reads<Ordering> for AsOrdering {
    ghost reading = { λ _ r. r };

    fn read(&self, answer: Ordering) -> Ordering {
        answer
    }
}

/// Compares a query with the key that is the answer.
#[derive(Drop)]
pub struct ByQuery<'a, Q>(pub &'a Q);

impl<'a, K: Ord + Drop, Q: Comparable<K>> Reads<K> for ByQuery<'a, Q> {
    ghost reading = { λ by k. Q.compare by.0.now k };

    fn read(&self, answer: K) -> Ordering {
        self.0.compare(&answer)
    }
}

// The same bound, by a query.
pub(super) fn by_query<Q>(bound: Bound<&Q>) -> Bound<ByQuery<'_, Q>>
    ensures { bound_map (λ by. by.0) result ≡ bound.entry }
{
    match bound {
        Bound::Included(query) => Bound::Included(ByQuery(query)),
        Bound::Excluded(query) => Bound::Excluded(ByQuery(query)),
        Bound::Unbounded => Bound::Unbounded,
    }
}

/// Compares a key with the key that is the answer.
#[derive(Drop)]
pub struct ByKey<'a, K>(pub &'a K);

impl<'a, K: Ord + Drop> Reads<K> for ByKey<'a, K> {
    ghost reading = { λ by k. K.cmp by.0.now k };

    fn read(&self, answer: K) -> Ordering {
        self.0.cmp(&answer)
    }
}

// Reads as `H` does, but Equal as Less. A type of its own for each of the two, so that a search has no test of which.
#[derive(Drop)]
pub(super) struct EqualAsLess<'a, H>(pub(super) &'a H);

impl<'a, R, H: Reads<R>> Reads<R> for EqualAsLess<'a, H> {
    ghost reading = { λ by r. ordering_then (H.reading by.0.now r) Less };

    fn read(&self, answer: R) -> Ordering {
        self.0.read(answer).then(Ordering::Less)
    }
}

// Reads as `H` does, but Equal as Greater.
#[derive(Drop)]
pub(super) struct EqualAsGreater<'a, H>(pub(super) &'a H);

impl<'a, R, H: Reads<R>> Reads<R> for EqualAsGreater<'a, H> {
    ghost reading = { λ by r. ordering_then (H.reading by.0.now r) Greater };

    fn read(&self, answer: R) -> Ordering {
        self.0.read(answer).then(Ordering::Greater)
    }
}
