//! Which of an item's keys a table goes by, and a key as a query that implements `Equivalent` and `Comparable`.
ghost use Rattle.std.specs.Prelude.{◌≡◌};
ghost use Rattle.iddqd_keys.specs.Scan.{IsLive, IsKeyAt};

use iddqd::item_index::ItemIndex;
use iddqd::item_set::ItemSet;
use iddqd::map_hash::{Comparable, Equivalent};
use std::cmp::Ordering;
use std::hash::{Hash, Hasher};

/// Names one key of the items. Implement it for an enum without variants, as `enum Serial {}`.
pub trait KeyOf<T> {
    /// The type of the key.
    type Key;

    ghost key_of: { T → Self.Key };

    /// Borrows the key from the item.
    fn key(item: &T) -> &Self::Key
        ensures { result.now ≡ key_of item.now };
}

/// Names the item itself, for a query that is compared with whole items.
pub enum Itself {}

impl<T> KeyOf<T> for Itself {
    type Key = T;

    ghost key_of = { λ item. item };

    fn key(item: &T) -> &T {
        item
    }
}

/// A query that is a key itself. It implements [`Equivalent`] and [`Comparable`], the traits of the queries that the
/// calls on tables beside a store take. A plain `&K` implements neither: it is a query for the calls of a map, by
/// [`crate::hash_query::HashQuery`] and [`crate::order_query::OrdQuery`].
///
/// `iddqd::map_hash::Same` won't do: those calls ask for an `Equivalent<K>`, and it implements `Equivalent<&'b K>`. If
/// they asked for that, each generic caller would have to name `'b` in its bounds, and the prover finds no proof then.
#[derive(Clone, Copy, Debug, PartialEq, Eq)]
pub struct KeyQuery<'a, K>(pub &'a K);

impl<'a, K: Hash> Hash for KeyQuery<'a, K> {
    ghost hash_input = { λ q. K.hash_input q.0.now };

    ghost respects_eq = { λ x y equal. K.respects_eq x.0.now y.0.now equal };

    fn hash<H: Hasher>(&self, state: &mut H) {
        self.0.hash(state);
    }
}

impl<'a, K: Eq> Equivalent<K> for KeyQuery<'a, K> {
    ghost equivalent = { λ q k. K.eq q.0.now k };

    fn equivalent(&self, key: &K) -> bool {
        *self.0 == *key
    }
}

impl<'a, K: Ord> Comparable<K> for KeyQuery<'a, K> {
    ghost use Rattle.iddqd.specs.MapHashLaws.{equal_in, greater_before_in};
    ghost use Rattle.std.proofs.lemmas.Cmp.{alike_right};

    ghost compare = { λ q k. K.cmp q.0.now k };

    ghost equal_where_equivalent = { λ q k. equal_in _ _ (K.matches_eq q.0.now k) };

    ghost less_after = { λ q a b before less. K.total.trans q.0.now a b less before };

    ghost greater_before = { λ q a b. greater_before_in K.total q.0.now a b };

    ghost equal_keys = { λ q a b. alike_right K.total a b q.0.now };

    ghost as_equivalent = { λ q k a same.
        K.total.congr q.0.now k a ((equal_in _ _ (K.matches_eq q.0.now k)).0 same) };

    fn compare(&self, key: &K) -> Ordering {
        self.0.cmp(key)
    }
}

/// The key of the item at a live index.
pub fn key_at<T, E: KeyOf<T>>(items: &ItemSet<T>, ix: ItemIndex) -> &E::Key
    requires { IsLive items.now.store ix }
    ensures { IsKeyAt E.key_of items.now.store ix result.now }
{
    match items.get(ix) {
        Some(item) => E::key(item),
        None => unreachable!(),
    }
}
