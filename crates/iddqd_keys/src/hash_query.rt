//! Queries by which a key is looked up under its hash.
//!
//! A table in sync has each index under the hash of its item's key, so a query must hash like every key that it stands
//! for. That is a law of the trait, and so a look-up by any query in a table in sync answers as a scan would.
ghost use Rattle.std.specs.Prelude.{◌≡◌, Bool, IsTrue};
ghost use Rattle.std.proofs.Common.{ap};
ghost use Rattle.std.specs.Cmp.Lexicographic.{bytes_decides, lists_equiv, nat_list_eq_equiv, pointwise};
ghost use Rattle.std.specs.Hash as fed;
ghost use Rattle.std.specs.Hash.{items_Alike};
ghost use Rattle.std.specs.Str.{bytes_eq};
ghost use Rattle.std.specs.String.{string_bytes};

use iddqd::map_hash::Equivalent;
use std::alloc::Allocator;
use std::hash::Hash;

/// What a key is looked up by in a hash table: a `&K` for keys `K`, also a `&str` for `String`, and a `&[T]` for
/// `Vec<T>`; for other texts and slices of std see [`crate::text_queries`].
///
/// Implement it for a small `Copy` type of your own to look up by borrowed parts that together determine a key.
pub trait HashQuery<K: Eq + Hash>: Copy + Hash {
    ghost stands_for: { Self → K → Bool };

    /// Whether the query stands for the key.
    fn stands_for(&self, key: &K) -> bool
        ensures { result ≡ stands_for self.now key.now };

    // It hashes like each key that it stands for.
    ghost same_hash: { (q : Self) (key : K) → IsTrue (stands_for q key) → Self.hash_input q ≡ K.hash_input key };

    // All keys that it stands for are equal to each other, and it stands for each key that is equal to one of them.
    ghost same_key: { (q : Self) (x y : K) → IsTrue (stands_for q x) → stands_for q y ≡ K.eq x y };
}

impl<K: Eq + Hash> HashQuery<K> for &K {
    ghost stands_for = { λ q. K.eq q.now };

    ghost same_hash = { λ q. K.respects_eq q.now };

    ghost same_key = { λ q. K.Eq.laws.congr q.now };

    fn stands_for(&self, key: &K) -> bool {
        **self == *key
    }
}

impl<A: Allocator> HashQuery<String<A>> for &str {
    ghost stands_for = { λ q k. bytes_eq q.now (string_bytes k) };

    ghost same_hash = { λ q k same. ap fed.str ((bytes_decides q.now (string_bytes k)).0 same) };

    ghost same_key = { λ q x y. nat_list_eq_equiv.congr q.now (string_bytes x) (string_bytes y) };

    fn stands_for(&self, key: &String<A>) -> bool {
        *self == key.as_str()
    }
}

impl<T: Eq + Hash, A: Allocator> HashQuery<Vec<T, A>> for &[T] {
    ghost stands_for = { λ q k. pointwise T.eq q.now k.items };

    ghost same_hash = { λ q k same. (items_Alike (record { fed = T.respects_eq })).fed q.now k.items same };

    ghost same_key = { λ q x y. (lists_equiv T.Eq.laws).congr q.now x.items y.items };

    fn stands_for(&self, key: &Vec<T, A>) -> bool {
        let items = key.as_slice();
        **self == *items
    }
}

/// A [`HashQuery`] as an [`Equivalent`], by which a hash table is searched.
#[derive(Clone, Copy)]
pub struct AsEquivalent<Q>(pub Q);

impl<K: Eq + Hash, Q: HashQuery<K>> Equivalent<K> for AsEquivalent<Q> {
    ghost equivalent = { λ q k. Q.stands_for q.0 k };

    fn equivalent(&self, key: &K) -> bool {
        self.0.stands_for(key)
    }
}
