//! Hashes of keys, and queries that stand for keys.
//!
//! A table of indexes holds no keys. It is searched by a query, which answers how it compares with the key of an index.
//! A query that is [`Equivalent`] to a key has to hash as that key does; the trait doesn't state this, so whoever
//! searches a hash table has it as a premise. One that is [`Comparable`] compares as that key does, so an insert by it
//! goes to the key's place.
ghost use Rattle.std.specs.Prelude.{◌≡◌, ◌↔◌, Bool, IsTrue};
ghost use Rattle.std.specs.declared.cmp.Ordering.{Ordering};
ghost use Rattle.std.specs.declared.cmp.Ordering.TheVariants.{Less, Equal, Greater};
ghost use Rattle.iddqd.specs.MapHash.{hash_one};

use std::cmp::Ordering;
use std::hash::{BuildHasher, Hash, Hasher};
use std::marker::Model;

/// A query that may be equivalent to a key.
pub trait Equivalent<K> {
    // What `equivalent` returns.
    ghost equivalent: { Self → K → Bool };

    /// Whether the query stands for the key.
    fn equivalent(&self, key: &K) -> bool
        ensures { result ≡ equivalent self.now key.now };
}

/// A query that has a place in the order of the keys.
///
/// Along keys in order its answers are first `Greater`, then `Equal`, then `Less`. A query that is
/// equivalent to a key answers as that key does.
pub trait Comparable<K: Ord>: Equivalent<K> {
    // What `compare` returns.
    ghost compare: { Self → K → Ordering };

    /// How the query compares with the key: `Less` if it comes before the key.
    fn compare(&self, key: &K) -> Ordering
        ensures { result ≡ compare self.now key.now };

    // It is `Equal` exactly at the keys that the query is equivalent to, `Less` at a key means
    // `Less` at all keys behind it, `Greater` at a key means `Greater` at all keys before it, equal
    // keys compare alike, and a query that is equivalent to a key compares as that key does.
    ghost equal_where_equivalent: { (q : Self) (k : K) → IsTrue (Self.equivalent q k) ↔ (compare q k ≡ Equal) };

    ghost less_after: { (q : Self) (a b : K) → K.cmp a b ≡ Less → compare q a ≡ Less → compare q b ≡ Less };

    ghost greater_before: { (q : Self) (a b : K) → K.cmp a b ≡ Less → compare q b ≡ Greater → compare q a ≡ Greater };

    ghost equal_keys: { (q : Self) (a b : K) → K.cmp a b ≡ Equal → compare q a ≡ compare q b };

    ghost as_equivalent: { (q : Self) (k a : K) → IsTrue (Self.equivalent q k) → compare q a ≡ K.cmp k a };
}

/// The query that is the key itself: equal, ordered and hashed as the key is.
///
/// A look-up compares it with borrowed keys, so it implements both traits for `&K`.
#[derive(Clone, Copy, Debug, PartialEq, Eq)]
pub struct Same<'a, K>(pub &'a K);

impl<'a, K: Hash> Hash for Same<'a, K> {
    ghost hash_input = { λ q. K.hash_input q.0.now };

    ghost respects_eq = { λ x y equal. K.respects_eq x.0.now y.0.now equal };

    fn hash<H: Hasher>(&self, state: &mut H) {
        self.0.hash(state);
    }
}

impl<'a, 'b, K: Eq> Equivalent<&'b K> for Same<'a, K> {
    ghost equivalent = { λ q k. K.eq q.0.now k.now };

    fn equivalent(&self, key: &&'b K) -> bool {
        *self.0 == **key
    }
}

impl<'a, 'b, K: Ord> Comparable<&'b K> for Same<'a, K> {
    ghost use Rattle.iddqd.specs.MapHashLaws.{equal_in, greater_before_in};
    ghost use Rattle.std.proofs.lemmas.Cmp.{alike_right};

    ghost compare = { λ q k. K.cmp q.0.now k.now };

    ghost equal_where_equivalent = { λ q k. equal_in _ _ (K.matches_eq q.0.now k.now) };

    ghost less_after = { λ q a b before less. K.total.trans q.0.now a.now b.now less before };

    ghost greater_before = { λ q a b. greater_before_in K.total q.0.now a.now b.now };

    ghost equal_keys = { λ q a b. alike_right K.total a.now b.now q.0.now };

    ghost as_equivalent = { λ q k a same.
        K.total.congr q.0.now k.now a.now ((equal_in _ _ (K.matches_eq q.0.now k.now)).0 same) };

    fn compare(&self, key: &&'b K) -> Ordering {
        self.0.cmp(*key)
    }
}

/// The hash of a key, computed once and kept.
///
/// A contract sees it as the number.
#[derive(Clone, Copy, Debug)]
pub struct MapHash {
    hash: u64,
}

impl Model for MapHash {
    ghost use Rattle.std.specs.Prelude.{ℕ};

    ghost Value = { ℕ };

    ghost view = { λ h. h.hash };

    ghost inverse = { λ n. record { hash = n } };
}

impl MapHash {
    /// The hash with this number.
    pub fn new(hash: u64) -> MapHash
        ensures { result ≡ hash }
    {
        MapHash { hash }
    }

    /// The number.
    pub fn hash(&self) -> u64
        ensures { result ≡ self.now }
    {
        self.hash
    }

    /// Whether it is the hash of the key under the state.
    pub fn is_same_hash<S: BuildHasher, K: Hash + Drop>(&self, state: &S, key: K) -> bool
        ensures { IsTrue result ↔ (self.now ≡ hash_one S.BuildHasher S.Hasher.Hasher state.now (K.hash_input key)) }
    {
        let Self { hash } = *self;
        hash == state.hash_one(key)
    }
}
