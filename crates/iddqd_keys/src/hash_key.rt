//! Keys that go by their hash.
//!
//! No call hands such a key out: it is hashed and compared within its item. So a key of several fields needs no value
//! of its own.
ghost use Rattle.std.specs.Prelude.{◌≡◌, IsTrue};
ghost use Rattle.std.specs.List.{fold};

use crate::key_kinds::{Computed, ComputedKey, Field};
use crate::key_of::KeyOf;
use std::hash::{Hash, Hasher};

/// A key of items `T` that goes by its hash.
///
/// It is a [`Field`], a [`Computed`] value, the one key of an item ([`crate::key_kinds::ItsKey`]), or a tuple of two or
/// three keys. Implement it for an enum without variants if none of these has the equality that you want, as that of
/// texts without regard to case.
pub trait HashKey<T> {
    ghost use Rattle.std.specs.Prelude.{ℕ, Bool, List};
    ghost use Rattle.std.specs.Cmp.{IsEquivalence};

    // The key as contracts read it.
    ghost Key: { Type 0 };

    ghost key_of: { T → Self.Key };

    // Whether two keys are equal.
    ghost eq: { Self.Key → Self.Key → Bool };

    // What a key feeds to a hasher.
    ghost hash_input: { Self.Key → List (List ℕ) };

    /// Feeds the item's key to a hasher.
    fn hash<H: Hasher>(item: &T, state: &mut H)
        ensures { state.new ≡ fold H.write state.old (hash_input (key_of item.now)) };

    /// Whether two items have equal keys.
    fn is_same(item: &T, other: &T) -> bool
        ensures { result ≡ eq (key_of item.now) (key_of other.now) };

    ghost laws: { IsEquivalence eq };

    ghost respects_eq: { (x y : Self.Key) → IsTrue (eq x y) → hash_input x ≡ hash_input y };
}

impl<T, E: KeyOf<T, Key = K>, K: Eq + Hash> HashKey<T> for Field<E, K> {
    ghost Key = { K };

    ghost key_of = { E.key_of };

    ghost eq = { K.eq };

    ghost hash_input = { K.hash_input };

    ghost laws = { K.Eq.laws };

    ghost respects_eq = { K.respects_eq };

    fn hash<H: Hasher>(item: &T, state: &mut H) {
        E::key(item).hash(state);
    }

    fn is_same(item: &T, other: &T) -> bool {
        *E::key(item) == *E::key(other)
    }
}

impl<T, E: ComputedKey<T, Key = K>, K: Eq + Hash + Drop> HashKey<T> for Computed<E, K> {
    ghost Key = { K };

    ghost key_of = { E.key_of };

    ghost eq = { K.eq };

    ghost hash_input = { K.hash_input };

    ghost laws = { K.Eq.laws };

    ghost respects_eq = { K.respects_eq };

    fn hash<H: Hasher>(item: &T, state: &mut H) {
        E::key(item).hash(state);
    }

    fn is_same(item: &T, other: &T) -> bool {
        E::key(item) == E::key(other)
    }
}

impl<T, A: HashKey<T>, B: HashKey<T>> HashKey<T> for (A, B) {
    ghost use Rattle.std.specs.Prelude.{◌&&◌, ◌++◌};
    ghost use Rattle.iddqd_keys.specs.Tuples.{pairs_equiv, pairs_fed};

    ghost Key = { A.Key × B.Key };

    ghost key_of = { λ item. (A.key_of item, B.key_of item) };

    ghost eq = { λ x y. A.eq x.0 y.0 && B.eq x.1 y.1 };

    ghost hash_input = { λ k. A.hash_input k.0 ++ B.hash_input k.1 };

    ghost laws = { pairs_equiv A.laws B.laws };

    ghost respects_eq = { λ x y. pairs_fed (A.eq x.0 y.0) (B.eq x.1 y.1) _ _ _ _ (A.respects_eq x.0 y.0)
        (B.respects_eq x.1 y.1) };

    fn hash<H: Hasher>(item: &T, state: &mut H) {
        A::hash(item, state);
        B::hash(item, state);
    }

    fn is_same(item: &T, other: &T) -> bool {
        A::is_same(item, other) && B::is_same(item, other)
    }
}

impl<T, A: HashKey<T>, B: HashKey<T>, C: HashKey<T>> HashKey<T> for (A, B, C) {
    ghost use Rattle.std.specs.Prelude.{◌&&◌, ◌++◌};
    ghost use Rattle.iddqd_keys.specs.Tuples.{pairs_equiv, triples_fed};

    ghost Key = { A.Key × (B.Key × C.Key) };

    ghost key_of = { λ item. (A.key_of item, (B.key_of item, C.key_of item)) };

    ghost eq = { λ x y. A.eq x.0 y.0 && (B.eq x.1.0 y.1.0 && C.eq x.1.1 y.1.1) };

    ghost hash_input = { λ k. (A.hash_input k.0 ++ B.hash_input k.1.0) ++ C.hash_input k.1.1 };

    ghost laws = { pairs_equiv A.laws (pairs_equiv B.laws C.laws) };

    ghost respects_eq = { λ x y. triples_fed (A.eq x.0 y.0) (B.eq x.1.0 y.1.0) (C.eq x.1.1 y.1.1) _ _ _ _ _ _
        (A.respects_eq x.0 y.0) (B.respects_eq x.1.0 y.1.0) (C.respects_eq x.1.1 y.1.1) };

    fn hash<H: Hasher>(item: &T, state: &mut H) {
        A::hash(item, state);
        B::hash(item, state);
        C::hash(item, state);
    }

    fn is_same(item: &T, other: &T) -> bool {
        A::is_same(item, other) && B::is_same(item, other) && C::is_same(item, other)
    }
}
