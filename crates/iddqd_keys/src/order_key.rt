//! Keys that go by their order.
//!
//! Like a key that goes by its hash, such a key is read in place.
ghost use Rattle.std.specs.Prelude.{◌≡◌};

use crate::key_kinds::{Computed, ComputedKey, Field, Reversed};
use crate::key_of::KeyOf;
use std::cmp::Ordering;

/// A key of items `T` that goes by its order.
///
/// It is a [`Field`], a [`Computed`] value, the one key of an item ([`crate::key_kinds::ItsKey`]), a [`Reversed`] key,
/// or a tuple of two or three keys, of which the first counts most. Implement it for an enum without variants if none
/// of these has the order that you want.
pub trait OrdKey<T> {
    ghost use Rattle.std.specs.Cmp.{IsTotalOrder};
    ghost use Rattle.std.specs.declared.cmp.Ordering.{Ordering};

    // The key as contracts read it.
    ghost Key: { Type 0 };

    ghost key_of: { T → Self.Key };

    ghost cmp: { Self.Key → Self.Key → Ordering };

    /// How the item's key compares with the other item's key.
    fn compare(item: &T, other: &T) -> Ordering
        ensures { result ≡ cmp (key_of item.now) (key_of other.now) };

    ghost total: { IsTotalOrder cmp };
}

impl<T, E: KeyOf<T, Key = K>, K: Ord> OrdKey<T> for Field<E, K> {
    ghost Key = { K };

    ghost key_of = { E.key_of };

    ghost cmp = { K.cmp };

    ghost total = { K.total };

    fn compare(item: &T, other: &T) -> Ordering {
        E::key(item).cmp(E::key(other))
    }
}

impl<T, E: ComputedKey<T, Key = K>, K: Ord + Drop> OrdKey<T> for Computed<E, K> {
    ghost Key = { K };

    ghost key_of = { E.key_of };

    ghost cmp = { K.cmp };

    ghost total = { K.total };

    fn compare(item: &T, other: &T) -> Ordering {
        E::key(item).cmp(&E::key(other))
    }
}

impl<T, E: OrdKey<T>> OrdKey<T> for Reversed<E> {
    ghost use Rattle.std.specs.Ordering.{flip_args};
    ghost use Rattle.std.proofs.lemmas.Cmp.{back_total};

    ghost Key = { E.Key };

    ghost key_of = { E.key_of };

    ghost cmp = { flip_args E.cmp };

    ghost total = { back_total E.total };

    fn compare(item: &T, other: &T) -> Ordering {
        E::compare(other, item)
    }
}

impl<T, A: OrdKey<T>, B: OrdKey<T>> OrdKey<T> for (A, B) {
    ghost use Rattle.std.specs.Ordering.{ordering_then};
    ghost use Rattle.iddqd_keys.specs.Tuples.{pairs_total};

    ghost Key = { A.Key × B.Key };

    ghost key_of = { λ item. (A.key_of item, B.key_of item) };

    ghost cmp = { λ x y. ordering_then (A.cmp x.0 y.0) (B.cmp x.1 y.1) };

    ghost total = { pairs_total A.total B.total };

    fn compare(item: &T, other: &T) -> Ordering {
        match A::compare(item, other) {
            Ordering::Equal => B::compare(item, other),
            unequal => unequal,
        }
    }
}

impl<T, A: OrdKey<T>, B: OrdKey<T>, C: OrdKey<T>> OrdKey<T> for (A, B, C) {
    ghost use Rattle.std.specs.Ordering.{ordering_then};
    ghost use Rattle.iddqd_keys.specs.Tuples.{pairs_total};

    ghost Key = { A.Key × (B.Key × C.Key) };

    ghost key_of = { λ item. (A.key_of item, (B.key_of item, C.key_of item)) };

    ghost cmp = { λ x y. ordering_then (A.cmp x.0 y.0) (ordering_then (B.cmp x.1.0 y.1.0) (C.cmp x.1.1 y.1.1)) };

    ghost total = { pairs_total A.total (pairs_total B.total C.total) };

    fn compare(item: &T, other: &T) -> Ordering {
        match A::compare(item, other) {
            Ordering::Equal => <(B, C) as OrdKey<T>>::compare(item, other),
            unequal => unequal,
        }
    }
}
