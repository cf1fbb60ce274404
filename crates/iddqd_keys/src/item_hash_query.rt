//! Queries by which an item is looked up under the hash of its key.
//!
//! A query speaks of items and not of a key's value, since a key of several fields has none. It feeds a hasher what a
//! key feeds, and need not be `Hash`, for which it would need an equality too. Each [`HashQuery`] for the type of a
//! field, of a computed value, or of the one key that an item names, is one.
ghost use Rattle.std.specs.Prelude.{◌≡◌, IsTrue};
ghost use Rattle.std.specs.List.{fold};

use crate::hash_key::HashKey;
use crate::hash_query::HashQuery;
use crate::key_kinds::{Computed, ComputedKey, Field};
use crate::key_of::KeyOf;
use std::hash::{Hash, Hasher};

/// What an item is looked up by under the hash of its key `E`.
///
/// For a field, a computed value or an item's one key it is each [`HashQuery`] for the key's type, as a `&K`, or a
/// `&str` for a `String`. For a tuple of keys it is the tuple of their queries.
pub trait ItemHashQuery<T, E: HashKey<T>>: Copy {
    ghost use Rattle.std.specs.Prelude.{ℕ, Bool, List};

    // Whether it stands for the key of an item.
    ghost stands_for_item: { Self → T → Bool };

    // What it feeds to a hasher.
    ghost key_hash_input: { Self → List (List ℕ) };

    /// Whether the query stands for the item's key.
    fn stands_for_item(&self, item: &T) -> bool
        ensures { result ≡ stands_for_item self.now item.now };

    /// Feeds to a hasher what each key feeds that the query stands for.
    fn hash_as_key<H: Hasher>(&self, state: &mut H)
        ensures { state.new ≡ fold H.write state.old (key_hash_input self.now) };

    // It feeds what each key feeds that it stands for.
    ghost same_item_hash: { (q : Self) (x : T) → IsTrue (stands_for_item q x)
        → key_hash_input q ≡ E.hash_input (E.key_of x) };

    // All keys that it stands for are equal to each other, and it stands for each key that is equal to one of them.
    ghost same_item_key: { (q : Self) (x y : T) → IsTrue (stands_for_item q x)
        → stands_for_item q y ≡ E.eq (E.key_of x) (E.key_of y) };
}

impl<T, E: KeyOf<T, Key = K>, K: Eq + Hash, Q: HashQuery<K>> ItemHashQuery<T, Field<E, K>> for Q {
    ghost stands_for_item = { λ q x. Q.HashQuery.stands_for q (E.key_of x) };

    ghost key_hash_input = { Q.Hash.hash_input };

    ghost same_item_hash = { λ q x. Q.HashQuery.same_hash q (E.key_of x) };

    ghost same_item_key = { λ q x y. Q.HashQuery.same_key q (E.key_of x) (E.key_of y) };

    fn stands_for_item(&self, item: &T) -> bool {
        self.stands_for(E::key(item))
    }

    fn hash_as_key<H: Hasher>(&self, state: &mut H) {
        self.hash(state);
    }
}

impl<T, E: ComputedKey<T, Key = K>, K: Eq + Hash + Drop, Q: HashQuery<K>> ItemHashQuery<
    T,
    Computed<E, K>,
> for Q {
    ghost stands_for_item = { λ q x. Q.HashQuery.stands_for q (E.key_of x) };

    ghost key_hash_input = { Q.Hash.hash_input };

    ghost same_item_hash = { λ q x. Q.HashQuery.same_hash q (E.key_of x) };

    ghost same_item_key = { λ q x y. Q.HashQuery.same_key q (E.key_of x) (E.key_of y) };

    fn stands_for_item(&self, item: &T) -> bool {
        self.stands_for(&E::key(item))
    }

    fn hash_as_key<H: Hasher>(&self, state: &mut H) {
        self.hash(state);
    }
}

impl<T, A, B, P, Q> ItemHashQuery<T, (A, B)> for (P, Q)
where
    A: HashKey<T>,
    B: HashKey<T>,
    P: ItemHashQuery<T, A>,
    Q: ItemHashQuery<T, B>,
{
    ghost use Rattle.std.specs.Prelude.{◌&&◌, ◌++◌};
    ghost use Rattle.iddqd_keys.specs.Tuples.{pairs_fed, pairs_same};

    ghost stands_for_item = { λ q x. P.stands_for_item q.0 x && Q.stands_for_item q.1 x };

    ghost key_hash_input = { λ q. P.key_hash_input q.0 ++ Q.key_hash_input q.1 };

    ghost same_item_hash = { λ q x. pairs_fed (P.stands_for_item q.0 x) (Q.stands_for_item q.1 x) _ _ _ _
        (P.same_item_hash q.0 x) (Q.same_item_hash q.1 x) };

    ghost same_item_key = { λ q x y. pairs_same (P.stands_for_item q.0 x) (Q.stands_for_item q.1 x) _ _ _ _
        (P.same_item_key q.0 x y) (Q.same_item_key q.1 x y) };

    fn stands_for_item(&self, item: &T) -> bool {
        self.0.stands_for_item(item) && self.1.stands_for_item(item)
    }

    fn hash_as_key<H: Hasher>(&self, state: &mut H) {
        self.0.hash_as_key(state);
        self.1.hash_as_key(state);
    }
}

impl<T, A, B, C, P, Q, R> ItemHashQuery<T, (A, B, C)> for (P, Q, R)
where
    A: HashKey<T>,
    B: HashKey<T>,
    C: HashKey<T>,
    P: ItemHashQuery<T, A>,
    Q: ItemHashQuery<T, B>,
    R: ItemHashQuery<T, C>,
{
    ghost use Rattle.std.specs.Prelude.{◌&&◌, ◌++◌};
    ghost use Rattle.iddqd_keys.specs.Tuples.{pairs_same, triples_fed};

    ghost stands_for_item = { λ q x.
        P.stands_for_item q.0 x && (Q.stands_for_item q.1 x && R.stands_for_item q.2 x) };

    ghost key_hash_input = { λ q. (P.key_hash_input q.0 ++ Q.key_hash_input q.1) ++ R.key_hash_input q.2 };

    ghost same_item_hash = { λ q x. triples_fed (P.stands_for_item q.0 x) (Q.stands_for_item q.1 x)
        (R.stands_for_item q.2 x) _ _ _ _ _ _ (P.same_item_hash q.0 x) (Q.same_item_hash q.1 x)
        (R.same_item_hash q.2 x) };

    ghost same_item_key = { λ q x y. pairs_same (P.stands_for_item q.0 x)
        (Q.stands_for_item q.1 x && R.stands_for_item q.2 x) _ _ _ _ (P.same_item_key q.0 x y)
        (pairs_same (Q.stands_for_item q.1 x) (R.stands_for_item q.2 x) _ _ _ _ (Q.same_item_key q.1 x y)
        (R.same_item_key q.2 x y)) };

    fn stands_for_item(&self, item: &T) -> bool {
        self.0.stands_for_item(item) && self.1.stands_for_item(item) && self.2.stands_for_item(item)
    }

    fn hash_as_key<H: Hasher>(&self, state: &mut H) {
        self.0.hash_as_key(state);
        self.1.hash_as_key(state);
        self.2.hash_as_key(state);
    }
}
