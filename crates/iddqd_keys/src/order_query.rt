//! Queries by which a key is looked up in the order of the keys.
//!
//! An ordered table finds what a query stands for only if the query's answers fit the order: along the keys they are
//! first Greater, then Equal, then Less. And all keys at which it answers Equal have to be equal to each other.
//! Both are laws of the trait, and so a look-up by any query in a table in sync answers as a scan would.
ghost use Rattle.std.specs.Prelude.{◌≡◌};
ghost use Rattle.std.specs.Cmp.{Equal-is};
ghost use Rattle.std.specs.Cmp.Lexicographic.{slice_cmp, lists_total, nat_list_cmp_total};
ghost use Rattle.std.specs.Ordering.{is_eq, nat_cmp};
ghost use Rattle.std.specs.String.{string_bytes};
ghost use Rattle.std.specs.declared.cmp.Ordering.{Ordering};
ghost use Rattle.iddqd_keys.specs.OrderedQuery.{IsQuery, IsQuery-key, IsQuery-on, compares_as_key};

use iddqd::map_hash::{Comparable, Equivalent};
use std::alloc::Allocator;
use std::cmp::Ordering;

/// What a key is looked up by in an ordered table: a `&K` for keys `K`, also a `&str` for `String`, and a `&[T]` for
/// `Vec<T>`; for other texts and slices of std see [`crate::text_queries`].
///
/// Implement it for a small `Copy` type of your own to look up by borrowed parts that together determine a key.
pub trait OrdQuery<K: Ord>: Copy {
    ghost compare: { Self → K → Ordering };

    /// How the query compares with the key: `Less` if its place is before the key.
    fn compare(&self, key: &K) -> Ordering
        ensures { result ≡ compare self.now key.now };

    // Its answers fit the order of the keys, and all keys at which it answers Equal are equal to each other.
    ghost lawful: { (q : Self) → IsQuery K.cmp (compare q) };
}

impl<K: Ord> OrdQuery<K> for &K {
    ghost compare = { λ q. K.cmp q.now };

    ghost lawful = { λ q. IsQuery-key K.cmp K.total q.now };

    fn compare(&self, key: &K) -> Ordering {
        (**self).cmp(key)
    }
}

impl<A: Allocator> OrdQuery<String<A>> for &str {
    ghost compare = { λ q k. slice_cmp nat_cmp q.now (string_bytes k) };

    ghost lawful = { λ q. IsQuery-on string_bytes (slice_cmp nat_cmp) (slice_cmp nat_cmp q.now)
        (IsQuery-key (slice_cmp nat_cmp) nat_list_cmp_total q.now) };

    fn compare(&self, key: &String<A>) -> Ordering {
        (*self).cmp(key.as_str())
    }
}

impl<T: Ord, A: Allocator> OrdQuery<Vec<T, A>> for &[T] {
    ghost compare = { λ q k. slice_cmp T.cmp q.now k.items };

    ghost lawful = { λ q. IsQuery-on (λ k. k.items) (slice_cmp T.cmp) (slice_cmp T.cmp q.now)
        (IsQuery-key (slice_cmp T.cmp) (lists_total T.total) q.now) };

    fn compare(&self, key: &Vec<T, A>) -> Ordering {
        self.cmp(&key.as_slice())
    }
}

/// An [`OrdQuery`] as a [`Comparable`], by which an ordered table is searched.
#[derive(Clone, Copy)]
pub struct AsComparable<Q>(pub Q);

impl<K: Ord, Q: OrdQuery<K>> Equivalent<K> for AsComparable<Q> {
    ghost equivalent = { λ q k. is_eq (Q.compare q.0 k) };

    fn equivalent(&self, key: &K) -> bool {
        self.0.compare(key).is_eq()
    }
}

impl<K: Ord, Q: OrdQuery<K>> Comparable<K> for AsComparable<Q> {
    ghost compare = { λ q k. Q.compare q.0 k };

    ghost equal_where_equivalent = { λ q k. Equal-is (Q.compare q.0 k) };

    ghost less_after = { λ q a b. (Q.lawful q.0).fits.less_after a b };

    ghost greater_before = { λ q a b. (Q.lawful q.0).fits.greater_before a b };

    ghost equal_keys = { λ q a b. (Q.lawful q.0).fits.equal_keys a b };

    ghost as_equivalent = { λ q k a same.
        compares_as_key K.cmp K.total (Q.compare q.0) (Q.lawful q.0) k a ((Equal-is (Q.compare q.0 k)).0 same) };

    fn compare(&self, key: &K) -> Ordering {
        self.0.compare(key)
    }
}
