//! Queries by which items are looked up in the order of their key.
//!
//! For a range or a group it is enough that a query's answers fit the order ([`ItemRangeQuery`]). It has to stand for
//! one key, too, only where one item is sought ([`ItemOrdQuery`]). So the first part of a key of several fields is a
//! query for a range.
ghost use Rattle.std.specs.Prelude.{◌≡◌};
ghost use Rattle.std.specs.Ordering.{on};
ghost use Rattle.iddqd_keys.specs.OrderedQuery.{FitsOrder, FitsOrder-query, IsOneKey, IsOneKey-query};

use crate::key_kinds::{Computed, ComputedKey, Field, Reversed};
use crate::key_of::KeyOf;
use crate::order_key::OrdKey;
use crate::order_query::OrdQuery;
use std::cmp::Ordering;

/// What a range or a group of items is looked up by in the order of their key `E`.
///
/// For a field, a computed value or an item's one key it is each [`OrdQuery`] for the key's type, as a `&K`, or a
/// `&str` for a `String`, and for a `String` also a [`crate::starts_with::StartsWith`]. For a tuple of keys it is the
/// tuple of their queries, a [`Prefix`], or a [`Part`]. For a [`Reversed`] key it is a query for the key that is
/// reversed.
pub trait ItemRangeQuery<T, E: OrdKey<T>>: Copy {
    ghost use Rattle.std.specs.declared.cmp.Ordering.{Ordering};

    // How it compares with the key of an item.
    ghost compare_item: { Self → T → Ordering };

    /// How the query compares with the item's key: `Less` if its place is before the key.
    fn compare_item(&self, item: &T) -> Ordering
        ensures { result ≡ compare_item self.now item.now };

    // Its answers fit the order of the keys.
    ghost fits: { (q : Self) → FitsOrder (on E.key_of E.cmp) (compare_item q) };
}

/// A query that stands for one key: all keys at which it answers `Equal` are equal to each other.
pub trait ItemOrdQuery<T, E: OrdKey<T>>: ItemRangeQuery<T, E> {
    ghost one_key: { (q : Self) → IsOneKey (on E.key_of E.cmp) (Self.compare_item q) };
}

impl<T, E: KeyOf<T, Key = K>, K: Ord, Q: OrdQuery<K>> ItemRangeQuery<T, Field<E, K>> for Q {
    ghost compare_item = { λ q x. Q.OrdQuery.compare q (E.key_of x) };

    ghost fits = { λ q. FitsOrder-query E.key_of K.cmp (Q.OrdQuery.compare q) (Q.lawful q) };

    fn compare_item(&self, item: &T) -> Ordering {
        self.compare(E::key(item))
    }
}

impl<T, E: KeyOf<T, Key = K>, K: Ord, Q: OrdQuery<K>> ItemOrdQuery<T, Field<E, K>> for Q {
    ghost one_key = { λ q. IsOneKey-query E.key_of K.cmp (Q.OrdQuery.compare q) (Q.lawful q) };
}

impl<T, E: ComputedKey<T, Key = K>, K: Ord + Drop, Q: OrdQuery<K>> ItemRangeQuery<T, Computed<E, K>>
    for Q {
    ghost compare_item = { λ q x. Q.OrdQuery.compare q (E.key_of x) };

    ghost fits = { λ q. FitsOrder-query E.key_of K.cmp (Q.OrdQuery.compare q) (Q.lawful q) };

    fn compare_item(&self, item: &T) -> Ordering {
        self.compare(&E::key(item))
    }
}

impl<T, E: ComputedKey<T, Key = K>, K: Ord + Drop, Q: OrdQuery<K>> ItemOrdQuery<T, Computed<E, K>>
    for Q {
    ghost one_key = { λ q. IsOneKey-query E.key_of K.cmp (Q.OrdQuery.compare q) (Q.lawful q) };
}

impl<T, E: OrdKey<T>, Q: ItemRangeQuery<T, E>> ItemRangeQuery<T, Reversed<E>> for Q {
    ghost use Rattle.iddqd_keys.specs.Reversed.{reversed_answer, FitsOrder-reversed};

    ghost compare_item = { λ q. reversed_answer (Q.compare_item q) };

    ghost fits = { λ q. FitsOrder-reversed (Q.compare_item q) (Q.fits q) };

    fn compare_item(&self, item: &T) -> Ordering {
        <Q as ItemRangeQuery<T, E>>::compare_item(self, item).reverse()
    }
}

impl<T, E: OrdKey<T>, Q: ItemOrdQuery<T, E>> ItemOrdQuery<T, Reversed<E>> for Q {
    ghost use Rattle.iddqd_keys.specs.Reversed.{IsOneKey-reversed};

    ghost one_key = { λ q. IsOneKey-reversed (Q.compare_item q) (Q.one_key q) };
}

impl<T, A, B, P, Q> ItemRangeQuery<T, (A, B)> for (P, Q)
where
    A: OrdKey<T>,
    B: OrdKey<T>,
    P: ItemOrdQuery<T, A>,
    Q: ItemRangeQuery<T, B>,
{
    ghost use Rattle.std.specs.Ordering.{ordering_then};
    ghost use Rattle.iddqd_keys.specs.Tuples.{FitsOrder-pair};

    ghost compare_item = { λ q x. ordering_then (P.compare_item q.0 x) (Q.compare_item q.1 x) };

    ghost fits = { λ q. FitsOrder-pair (on A.key_of A.cmp) (on B.key_of B.cmp) (P.compare_item q.0)
        (Q.compare_item q.1) (P.fits q.0) (P.one_key q.0) (Q.fits q.1) };

    fn compare_item(&self, item: &T) -> Ordering {
        match self.0.compare_item(item) {
            Ordering::Equal => self.1.compare_item(item),
            unequal => unequal,
        }
    }
}

impl<T, A, B, P, Q> ItemOrdQuery<T, (A, B)> for (P, Q)
where
    A: OrdKey<T>,
    B: OrdKey<T>,
    P: ItemOrdQuery<T, A>,
    Q: ItemOrdQuery<T, B>,
{
    ghost use Rattle.iddqd_keys.specs.Tuples.{IsOneKey-pair};

    ghost one_key = { λ q. IsOneKey-pair (on A.key_of A.cmp) (on B.key_of B.cmp) (P.compare_item q.0)
        (Q.compare_item q.1) (P.one_key q.0) (Q.one_key q.1) };
}

impl<T, A, B, C, P, Q> ItemRangeQuery<T, (A, B, C)> for (P, Q)
where
    A: OrdKey<T>,
    B: OrdKey<T>,
    C: OrdKey<T>,
    P: ItemOrdQuery<T, A>,
    Q: ItemRangeQuery<T, (B, C)>,
{
    ghost use Rattle.std.specs.Ordering.{ordering_then};
    ghost use Rattle.iddqd_keys.specs.Tuples.{FitsOrder-pair, triple_rest};

    ghost compare_item = { λ q x. ordering_then (P.compare_item q.0 x) (Q.compare_item q.1 x) };

    ghost fits = { λ q. FitsOrder-pair (on A.key_of A.cmp) (triple_rest B.key_of B.cmp C.key_of C.cmp)
        (P.compare_item q.0) (Q.compare_item q.1) (P.fits q.0) (P.one_key q.0) (Q.fits q.1) };

    fn compare_item(&self, item: &T) -> Ordering {
        match self.0.compare_item(item) {
            Ordering::Equal => self.1.compare_item(item),
            unequal => unequal,
        }
    }
}

impl<T, A, B, C, P, Q, R> ItemRangeQuery<T, (A, B, C)> for (P, Q, R)
where
    A: OrdKey<T>,
    B: OrdKey<T>,
    C: OrdKey<T>,
    P: ItemOrdQuery<T, A>,
    Q: ItemOrdQuery<T, B>,
    R: ItemRangeQuery<T, C>,
{
    ghost use Rattle.std.specs.Ordering.{ordering_then};
    ghost use Rattle.iddqd_keys.specs.Tuples.{FitsOrder-triple};

    ghost compare_item = { λ q x. ordering_then (P.compare_item q.0 x)
        (ordering_then (Q.compare_item q.1 x) (R.compare_item q.2 x)) };

    ghost fits = { λ q. FitsOrder-triple (on A.key_of A.cmp) (on B.key_of B.cmp) (on C.key_of C.cmp)
        (P.compare_item q.0) (Q.compare_item q.1) (R.compare_item q.2) (P.fits q.0) (P.one_key q.0) (Q.fits q.1)
        (Q.one_key q.1) (R.fits q.2) };

    fn compare_item(&self, item: &T) -> Ordering {
        match self.0.compare_item(item) {
            Ordering::Equal => match self.1.compare_item(item) {
                Ordering::Equal => self.2.compare_item(item),
                unequal => unequal,
            },
            unequal => unequal,
        }
    }
}

impl<T, A, B, C, P, Q, R> ItemOrdQuery<T, (A, B, C)> for (P, Q, R)
where
    A: OrdKey<T>,
    B: OrdKey<T>,
    C: OrdKey<T>,
    P: ItemOrdQuery<T, A>,
    Q: ItemOrdQuery<T, B>,
    R: ItemOrdQuery<T, C>,
{
    ghost use Rattle.iddqd_keys.specs.Tuples.{IsOneKey-triple};

    ghost one_key = { λ q. IsOneKey-triple (on A.key_of A.cmp) (on B.key_of B.cmp) (on C.key_of C.cmp)
        (P.compare_item q.0) (Q.compare_item q.1) (R.compare_item q.2) (P.one_key q.0) (Q.one_key q.1)
        (R.one_key q.2) };
}

/// A query for the first of several keys, whatever the others are.
#[derive(Clone, Copy, Debug)]
pub struct Prefix<P>(pub P);

impl<T, A: OrdKey<T>, B: OrdKey<T>, P: ItemRangeQuery<T, A>> ItemRangeQuery<T, (A, B)>
    for Prefix<P> {
    ghost use Rattle.iddqd_keys.specs.Tuples.{FitsOrder-first};

    ghost compare_item = { λ q. P.compare_item q.0 };

    ghost fits = { λ q. FitsOrder-first (on A.key_of A.cmp) (on B.key_of B.cmp) (P.compare_item q.0) (P.fits q.0) };

    fn compare_item(&self, item: &T) -> Ordering {
        self.0.compare_item(item)
    }
}

impl<T, A, B, C, P> ItemRangeQuery<T, (A, B, C)> for Prefix<P>
where
    A: OrdKey<T>,
    B: OrdKey<T>,
    C: OrdKey<T>,
    P: ItemRangeQuery<T, A>,
{
    ghost use Rattle.iddqd_keys.specs.Tuples.{FitsOrder-first, triple_rest};

    ghost compare_item = { λ q. P.compare_item q.0 };

    ghost fits = { λ q. FitsOrder-first (on A.key_of A.cmp) (triple_rest B.key_of B.cmp C.key_of C.cmp)
        (P.compare_item q.0) (P.fits q.0) };

    fn compare_item(&self, item: &T) -> Ordering {
        self.0.compare_item(item)
    }
}

/// A prefix, or a query for the first key and one for the others: for a range with a prefix at one end alone.
#[derive(Clone, Copy, Debug)]
pub enum Part<P, Q> {
    /// The first key, whatever the others are.
    First(P),
    /// The first key, and a query for the others.
    Both(P, Q),
}

impl<T, A, B, P, Q> ItemRangeQuery<T, (A, B)> for Part<P, Q>
where
    A: OrdKey<T>,
    B: OrdKey<T>,
    P: ItemOrdQuery<T, A>,
    Q: ItemRangeQuery<T, B>,
{
    ghost use Rattle.iddqd_keys.specs.Tuples.{part_answer, FitsOrder-part};

    ghost compare_item = { part_answer P.compare_item Q.compare_item };

    ghost fits = { FitsOrder-part (on A.key_of A.cmp) (on B.key_of B.cmp) P.compare_item Q.compare_item P.fits P.one_key
        Q.fits };

    fn compare_item(&self, item: &T) -> Ordering {
        match self {
            Part::First(first) => first.compare_item(item),
            Part::Both(first, second) => match first.compare_item(item) {
                Ordering::Equal => second.compare_item(item),
                unequal => unequal,
            },
        }
    }
}

impl<T, A, B, C, P, Q> ItemRangeQuery<T, (A, B, C)> for Part<P, Q>
where
    A: OrdKey<T>,
    B: OrdKey<T>,
    C: OrdKey<T>,
    P: ItemOrdQuery<T, A>,
    Q: ItemRangeQuery<T, (B, C)>,
{
    ghost use Rattle.iddqd_keys.specs.Tuples.{part_answer, FitsOrder-part, triple_rest};

    ghost compare_item = { part_answer P.compare_item Q.compare_item };

    ghost fits = { FitsOrder-part (on A.key_of A.cmp) (triple_rest B.key_of B.cmp C.key_of C.cmp) P.compare_item
        Q.compare_item P.fits P.one_key Q.fits };

    fn compare_item(&self, item: &T) -> Ordering {
        match self {
            Part::First(first) => first.compare_item(item),
            Part::Both(first, rest) => match first.compare_item(item) {
                Ordering::Equal => rest.compare_item(item),
                unequal => unequal,
            },
        }
    }
}
