//! Reads of a group by hash at a place: `ledger.hashed_group_by::<ByCustomer, _>(&customer)`.
//!
//! They are calls of one trait, `InGroups`, which every `Map` has, since the linked table stands above the crate of the
//! maps. No memory is taken.
ghost use Rattle.std.specs.Prelude.{◌≡◌, ◌≤◌, ℕ, Contains, IfSome, MatchOption, length};
ghost use Rattle.std.specs.Iterator.{YieldsFirstBy, item_count, at_most, UpTo};
ghost use Rattle.std.specs.Iterator.SizeHint.{IsWithinCount};
ghost use Rattle.iddqd.specs.{live_count};
ghost use Rattle.iddqd.specs.Store.{sentinel};
ghost use Rattle.iddqd_keys.specs.Scan.{IsLive};
ghost use Rattle.iddqd_keys.specs.KeyWalk.{pairs_at};
ghost use Rattle.iddqd_map.specs.Groups.{AreHits, CountsHits};
ghost use Rattle.iddqd_groups.specs.InGroups.{ListsHits};

use crate::by_hash_multi::ByHashMultiOf;
use crate::group_query::{count_left, group_by};
use crate::hashed_group::Group;
use iddqd::item_index::ItemIndex;
use iddqd::item_set::ItemSet;
use iddqd_keys::hash_key::HashKey;
use iddqd_keys::item_hash_query::ItemHashQuery;
use iddqd_map::key_index::{Here, KeyIndex, Left, Right};
use iddqd_map::map::{Map, Parts};
use iddqd_map::pair::Pair;
use std::fmt;
use std::hash::BuildHasher;
use std::iter::FusedIterator;
use std::marker::Model;

/// The items that have a key with their indexes, each once, in no order that a caller can rely on. It is fused.
///
/// A contract sees it as the pairs that are left. Its `size_hint` has an upper bound, which is no count: to count a
/// group call `count_hashed_group_by`.
#[derive(Drop)]
pub struct GroupItems<'a, T, E: HashKey<T>, Q: ItemHashQuery<T, E>> {
    indexes: Group<'a, T, E, Q>,
    items: &'a ItemSet<T>,
}

impl<'a, T, E: HashKey<T>, Q: ItemHashQuery<T, E>> Model for GroupItems<'a, T, E, Q> {
    ghost use Rattle.std.specs.Prelude.{ℕ, List, Contains};
    ghost use Rattle.iddqd_keys.specs.Scan.{IsLive};
    ghost use Rattle.iddqd_keys.specs.KeyWalk.{pairs_at};

    ghost Value = { List (ℕ × T) };

    ghost view = { λ it. pairs_at it.items.now.store it.indexes.rest };

    ghost invariant = { λ it. (ix : ℕ) → Contains it.indexes.rest ix → IsLive it.items.now.store ix };
}

impl<'a, T, E: HashKey<T>, Q: ItemHashQuery<T, E>> GroupItems<'a, T, E, Q> {
    /// The indexes of a group, each with its item. All of them must be live.
    pub fn new(indexes: Group<'a, T, E, Q>, items: &'a ItemSet<T>) -> GroupItems<'a, T, E, Q>
        requires { (ix : ℕ) → Contains indexes.rest ix → IsLive items.now.store ix }
        ensures { result ≡ pairs_at items.now.store indexes.entry.rest }
    {
        GroupItems { indexes, items }
    }
}

impl<'a, T, E: HashKey<T>, Q: ItemHashQuery<T, E>> Iterator for GroupItems<'a, T, E, Q> {
    type Item = (ItemIndex, &'a T);

    ghost next_gives = { YieldsFirstBy (λ pair. (pair.0, pair.1.now)) (λ rest. rest) };

    ghost remaining = { item_count (λ rest. rest) };

    fn next(&mut self) -> Option<(ItemIndex, &'a T)> {
        let ix = self.indexes.next()?;
        Some((ix, &self.items[ix]))
    }

    fn size_hint(&self) -> (usize, Option<usize>)
        ensures lower { IsWithinCount result.0 (at_most (length self.now)) }
        ensures upper { IfSome result.1 (UpTo (at_most (length self.now))) }

        // There is a bound, and there are no more indexes than that.
        ensures few { MatchOption result.1 ⊥ (λ most. most ≤ sentinel) }
    {
        self.indexes.size_hint()
    }
}

impl<'a, T, E: HashKey<T>, Q: ItemHashQuery<T, E>> FusedIterator for GroupItems<'a, T, E, Q> {}

impl<'a, T, E: HashKey<T>, Q: ItemHashQuery<T, E>> fmt::Debug for GroupItems<'a, T, E, Q> {
    fn fmt<W: fmt::Write>(&self, f: &mut fmt::Formatter<W>) -> fmt::Result {
        write!(f, "GroupItems")
    }
}

/// A key index with a key by its hash at the place `P`, which several items may have.
pub trait GroupsAt<P, T, S>: KeyIndex<T, S> {
    /// The key.
    type Marker: HashKey<T>;

    /// The indexes whose items have the key for which the query stands, each once, in no order that a caller can rely
    /// on. It hashes the query once, and takes no memory.
    fn group_at<'a, Q: ItemHashQuery<T, Self::Marker>>(
        &'a self,
        items: &'a ItemSet<T>,
        state: &S,
        query: Q,
    ) -> Group<'a, T, Self::Marker, Q>
        requires indexed { Self.KeyIndex.indexes self.now state.now items.now.store }
        ensures hits { AreHits items.now.store (Q.stands_for_item query) result.rest }
        ensures bound { result.bound ≡ live_count items.now.store };
}

impl<T, S, E> GroupsAt<Here, T, S> for ByHashMultiOf<E>
where
    E: HashKey<T>,
    S: BuildHasher,
{
    type Marker = E;

    fn group_at<'a, Q: ItemHashQuery<T, E>>(
        &'a self,
        items: &'a ItemSet<T>,
        state: &S,
        query: Q,
    ) -> Group<'a, T, E, Q> {
        group_by::<T, E, S, Q>(&self.table, items, state, query)
    }
}

impl<P, T, S, A, B> GroupsAt<Left<P>, T, S> for Pair<A, B>
where
    A: GroupsAt<P, T, S>,
    B: KeyIndex<T, S>,
{
    type Marker = A::Marker;

    fn group_at<'a, Q: ItemHashQuery<T, A::Marker>>(
        &'a self,
        items: &'a ItemSet<T>,
        state: &S,
        query: Q,
    ) -> Group<'a, T, A::Marker, Q> {
        self.first.group_at(items, state, query)
    }
}

impl<P, T, S, A, B> GroupsAt<Right<P>, T, S> for Pair<A, B>
where
    A: KeyIndex<T, S>,
    B: GroupsAt<P, T, S>,
{
    type Marker = B::Marker;

    fn group_at<'a, Q: ItemHashQuery<T, B::Marker>>(
        &'a self,
        items: &'a ItemSet<T>,
        state: &S,
        query: Q,
    ) -> Group<'a, T, B::Marker, Q> {
        self.second.group_at(items, state, query)
    }
}

/// Reads of the items that have a key at the place `P`, which goes by its hash and which several items may have.
pub trait InGroups<T, X: KeyIndex<T, S>, S> {
    ghost use Rattle.iddqd.specs.Store.{Store};

    ghost store: { Self → Store T };

    /// The items that have the key for which the query stands with their indexes, each once, in no order that a caller
    /// can rely on. It hashes the query once, and compares it with keys of the same hash alone.
    ///
    /// Cost: one look-up, which compares only keys of the same hash, each once, as the items are read; takes no memory.
    fn hashed_group_by<P, Q>(&self, query: Q) -> GroupItems<'_, T, X::Marker, Q>
    where
        X: GroupsAt<P, T, S>,
        Q: ItemHashQuery<T, X::Marker>,
        ensures { ListsHits (Q.stands_for_item query) (store self.now) result };

    /// How many items have the key for which the query stands. It costs a step for each of them.
    ///
    /// Cost: one look-up, which compares only keys of the same hash, each once; takes no memory.
    fn count_hashed_group_by<P, Q>(&self, query: Q) -> usize
    where
        X: GroupsAt<P, T, S>,
        Q: ItemHashQuery<T, X::Marker>,
        ensures { CountsHits (store self.now) (Q.stands_for_item query) result };
}

impl<T, X: KeyIndex<T, S>, S> InGroups<T, X, S> for Map<T, X, S> {
    ghost store = { λ m. m.store };

    fn hashed_group_by<P, Q>(&self, query: Q) -> GroupItems<'_, T, X::Marker, Q>
    where
        X: GroupsAt<P, T, S>,
        Q: ItemHashQuery<T, X::Marker>,
    {
        let Parts {
            items,
            indexes,
            state,
        } = self.parts();
        GroupItems::new(indexes.group_at(items, state, query), items)
    }

    fn count_hashed_group_by<P, Q>(&self, query: Q) -> usize
    where
        X: GroupsAt<P, T, S>,
        Q: ItemHashQuery<T, X::Marker>,
    {
        let Parts {
            items,
            indexes,
            state,
        } = self.parts();
        count_left(indexes.group_at(items, state, query))
    }
}
