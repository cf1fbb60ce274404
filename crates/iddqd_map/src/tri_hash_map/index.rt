//! The key index of a map whose items have three keys: a table by each of them.
//!
//! A look-up by one key goes to the table by that key, and every other call to all three tables. A caller's proof sees
//! three keys and not the tables, each of which would cost proof time in every function that calls the map.
//!
//! It is one file, since no impl can be split: it has an impl of each trait of key indexes, and of two of them one for
//! each key.
ghost use Rattle.std.specs.Prelude.{◌≡◌};
ghost use Rattle.iddqd_map.specs.Map.{shares};
ghost use Rattle.iddqd_map.specs.Several.{both_keys};

use super::clash::{TriClash, all_moves, clash_of};
use crate::by_hash::ByHashOf;
use crate::key_index::{
    Changes, ComparesKeys, Empty, FindsSame, First, IndexLaws, KeyIndex, Moves, PlanLaws,
    ReportsAt, Second, TakesAt, Third, UniqueAt, Upkeep,
};
use crate::reported::{lesser, past};
use iddqd::index_remap::IndexRemap;
use iddqd::internal::{ValidateCompact, ValidateRefusal, ValidationError};
use iddqd::item_index::ItemIndex;
use iddqd::item_set::ItemSet;
use iddqd::map_hash::MapHash;
use iddqd_by_hash::hashed_move::Move;
use iddqd_keys::hash_key::HashKey;
use iddqd_keys::item_hash_query::ItemHashQuery;
use iddqd_keys::key_kinds::Field;
use iddqd_keys::tri_hash_item::{Key1, Key2, Key3, TriHashItem};
use std::alloc::{AllocError, Global};
use std::hash::BuildHasher;

/// A table by each of the three keys of a `TriHashItem`.
pub type TriIndex<T> = TriIndexOf<
    Field<Key1, <T as TriHashItem>::Key1>,
    Field<Key2, <T as TriHashItem>::Key2>,
    Field<Key3, <T as TriHashItem>::Key3>,
>;

/// A table by each of three keys.
#[derive(Drop)]
pub struct TriIndexOf<A, B, C> {
    first: ByHashOf<A>,
    second: ByHashOf<B>,
    third: ByHashOf<C>,
}

impl<T, S, A, B, C> KeyIndex<T, S> for TriIndexOf<A, B, C>
where
    A: HashKey<T>,
    B: HashKey<T>,
    C: HashKey<T>,
    S: BuildHasher,
{
    ghost use Rattle.std.specs.Prelude.{◌≡◌, ◌+◌, min, false};
    ghost use Rattle.iddqd_hash.specs.HashTable.{capacity, memory};
    ghost use Rattle.iddqd_hash.specs.MapHashTable.{filed};
    ghost use Rattle.iddqd_hash.specs.OpenTableSizes.{least_cells};
    ghost use Rattle.iddqd_hash.specs.Sizes.{most_cells};
    ghost use Rattle.iddqd_by_hash.specs.Hashed.{hashing_of};
    ghost use Rattle.iddqd_map.specs.Indexing.{Indexes, IsKnownHash};
    ghost use Rattle.iddqd_keys.specs.KeyKeeping.{pair_keys};
    ghost use Rattle.iddqd_map.specs.Map.{shares};
    ghost use Rattle.iddqd_map.specs.ThreeKeys.{any_key, all_keys};

    type KnownHashes = (Option<MapHash>, (Option<MapHash>, Option<MapHash>));

    ghost Keys = { A.Key × (B.Key × C.Key) };

    ghost keys = { pair_keys A.key_of (pair_keys B.key_of C.key_of) };

    ghost alike = { any_key (shares A.key_of A.eq) (shares B.key_of B.eq)
        (shares C.key_of C.eq) };

    ghost same_keys = { all_keys (shares A.key_of A.eq) (shares B.key_of B.eq)
        (shares C.key_of C.eq) };

    ghost indexes = { λ x state s.
        Indexes A.key_of (hashing_of A.eq A.hash_input S.BuildHasher S.Hasher.Hasher state) s
        (filed x.first.table)
        × (Indexes B.key_of (hashing_of B.eq B.hash_input S.BuildHasher S.Hasher.Hasher state) s
        (filed x.second.table)
        × Indexes C.key_of (hashing_of C.eq C.hash_input S.BuildHasher S.Hasher.Hasher state) s
        (filed x.third.table)) };

    ghost are_known = { λ state item known.
        IsKnownHash A.key_of (hashing_of A.eq A.hash_input S.BuildHasher S.Hasher.Hasher state) item known.0
        × (IsKnownHash B.key_of (hashing_of B.eq B.hash_input S.BuildHasher S.Hasher.Hasher state) item known.1.0
        × IsKnownHash C.key_of (hashing_of C.eq C.hash_input S.BuildHasher S.Hasher.Hasher state) item known.1.1) };

    ghost capacity = { λ x. min (capacity x.first.table) (min (capacity x.second.table) (capacity x.third.table)) };

    ghost cells = { λ x. memory x.first.table + (memory x.second.table + memory x.third.table) };

    ghost most = { λ n. most_cells n + (most_cells n + most_cells n) };

    ghost grown = { λ n. most_cells n + (most_cells n + most_cells n) };

    ghost kept = { λ slots count. most_cells count + (most_cells count + most_cells count) };

    ghost needed = { λ slots count. least_cells count + (least_cells count + least_cells count) };

    ghost may_need_memory = { false };

    ghost same = { λ x y. (filed y.first.table ≡ filed x.first.table)
        × ((filed y.second.table ≡ filed x.second.table) × (filed y.third.table ≡ filed x.third.table)) };

    ghost unique_keys = { 3 };
}

impl<T, S, A, B, C> Changes<T, S> for TriIndexOf<A, B, C>
where
    A: HashKey<T>,
    B: HashKey<T>,
    C: HashKey<T>,
    S: BuildHasher,
{
    ghost use Rattle.std.specs.Prelude.{◌≡◌, ◌≤◌};
    ghost use Rattle.iddqd_hash.specs.HashTable.{room};
    ghost use Rattle.iddqd_by_hash.specs.Hashed.{hashing_of};
    ghost use Rattle.iddqd_map.specs.KeyLaws.{IsOfThree};
    ghost use Rattle.iddqd_map.specs.Map.{shares};
    ghost use Rattle.iddqd_map.specs.ThreeKeys.{AreReported};

    type Conflict = TriClash;

    type Hashes = (MapHash, (MapHash, MapHash));

    type Position = ();

    type InsertPlan = ();

    type Blocks = ();

    ghost conflicts = { AreReported (shares A.key_of A.eq) (shares B.key_of B.eq)
        (shares C.key_of C.eq) };

    ghost reports = { λ at. IsOfThree at.key1 at.key2 at.key3 };

    ghost are_hashes = { λ state item hashes.
        (hashes.0 ≡ (hashing_of A.eq A.hash_input S.BuildHasher S.Hasher.Hasher state).hash_of
        (A.key_of item))
        × ((hashes.1.0 ≡ (hashing_of B.eq B.hash_input S.BuildHasher S.Hasher.Hasher state).hash_of
        (B.key_of item))
        × (hashes.1.1 ≡ (hashing_of C.eq C.hash_input S.BuildHasher S.Hasher.Hasher state).hash_of
        (C.key_of item))) };

    ghost is_position = { λ x state s item position. Unit {0} };

    ghost is_planned = { λ x state s item plan. Unit {0} };

    ghost has_room_for = { λ x plan blocks. (1 ≤ room x.first.table)
        × ((1 ≤ room x.second.table) × (1 ≤ room x.third.table)) };

    ghost are_none = { λ blocks. Unit {0} };

    ghost are_enough_after = { λ x blocks. Unit {0} };

    fn hashes(state: &S, item: &T) -> (MapHash, (MapHash, MapHash)) {
        let first = <ByHashOf<A> as Changes<T, S>>::hashes(state, item);
        let second = <ByHashOf<B> as Changes<T, S>>::hashes(state, item);
        let third = <ByHashOf<C> as Changes<T, S>>::hashes(state, item);
        (first, (second, third))
    }

    fn look_up(
        &self,
        items: &ItemSet<T>,
        state: &S,
        hashes: (MapHash, (MapHash, MapHash)),
        item: &T,
    ) -> Result<(), TriClash> {
        let first = self.first.look_up(items, state, hashes.0, item);
        let second = self.second.look_up(items, state, hashes.1.0, item);
        let third = self.third.look_up(items, state, hashes.1.1, item);
        clash_of(first.err(), second.err(), third.err())
    }

    fn plan(&self, items: &ItemSet<T>, state: &S, position: (), ix: ItemIndex, item: &T) {}

    fn make_room(&mut self, items: &ItemSet<T>, state: &S, plan: &()) -> Result<(), AllocError> {
        self.first.make_room(items, state, plan)?;
        self.second.make_room(items, state, plan)?;
        self.third.make_room(items, state, plan)
    }

    fn insert(
        &mut self,
        hashes: (MapHash, (MapHash, MapHash)),
        plan: &(),
        blocks: (),
        ix: ItemIndex,
    ) {
        <ByHashOf<A> as Changes<T, S>>::insert(&mut self.first, hashes.0, plan, blocks, ix);
        <ByHashOf<B> as Changes<T, S>>::insert(&mut self.second, hashes.1.0, plan, blocks, ix);
        <ByHashOf<C> as Changes<T, S>>::insert(&mut self.third, hashes.1.1, plan, blocks, ix);
    }

    fn next_reported(conflict: &TriClash, before: Option<ItemIndex>) -> Option<ItemIndex> {
        let last = lesser(past(&conflict.key2, &before), past(&conflict.key3, &before));
        lesser(past(&conflict.key1, &before), last)
    }

    fn position(
        &self,
        items: &ItemSet<T>,
        state: &S,
        hashes: (MapHash, (MapHash, MapHash)),
        item: &T,
    ) {}

    fn blocks_after(&self, items: &ItemSet<T>, state: &S) -> Result<(), AllocError> {
        Ok(())
    }

    fn remove(&mut self, items: &ItemSet<T>, state: &S, ix: ItemIndex) {
        self.first.remove(items, state, ix);
        self.second.remove(items, state, ix);
        self.third.remove(items, state, ix);
    }
}

impl<T, S, A, B, C> IndexLaws<T, S> for TriIndexOf<A, B, C>
where
    A: HashKey<T>,
    B: HashKey<T>,
    C: HashKey<T>,
    S: BuildHasher,
{
    ghost use Rattle.std.proofs.Common.{ap, refl};
    ghost use Rattle.std.proofs.lemmas.Cmp.{and_equiv};
    ghost use Rattle.iddqd_hash.specs.MapHashTable.{filed};
    ghost use Rattle.iddqd_hash.proofs.LeastCellsLemmas.{least_cells-grows};
    ghost use Rattle.iddqd_by_hash.specs.Hashed.{hashing_of};
    ghost use Rattle.iddqd_map.specs.HashLaws.{shares_laws, Indexes-kept, Indexes-key_kept, Indexes-keys_shared};
    ghost use Rattle.iddqd_map.specs.PairLaws.{AreApart-either, HaveSameKeys-first, HaveSameKeys-second, sum_grows};
    ghost use Rattle.iddqd_map.specs.Map.{shares};
    ghost use Rattle.iddqd_map.specs.Several.{either_key, both_keys};

    ghost needed_grows = { λ slots more_slots count more wider up. let one = least_cells-grows count more up in
        sum_grows one (sum_grows one one) };

    ghost kept_none = { refl };

    ghost same_as_itself = { λ x. (refl, (refl, refl)) };

    ghost same_indexes = { λ x y state s same is. (
      Indexes-kept A.key_of (hashing_of A.eq A.hash_input S.BuildHasher S.Hasher.Hasher state) s
          (filed x.first.table) (filed y.first.table) same.0 is.0,
      (
        Indexes-kept B.key_of (hashing_of B.eq B.hash_input S.BuildHasher S.Hasher.Hasher state) s
            (filed x.second.table) (filed y.second.table) same.1.0 is.1.0,
        Indexes-kept C.key_of (hashing_of C.eq C.hash_input S.BuildHasher S.Hasher.Hasher state) s
            (filed x.third.table) (filed y.third.table) same.1.1 is.1.1,
      ),
    ) };

    ghost apart = { λ x state s is. let second = shares B.key_of B.eq in
        let third = shares C.key_of C.eq in
        AreApart-either (shares A.key_of A.eq) (either_key second third) s is.0.in_sync.apart
        (AreApart-either second third s is.1.0.in_sync.apart is.1.1.in_sync.apart) };

    ghost modified = { λ x state s ix was item is live same. (
      Indexes-key_kept A.key_of A.eq A.hash_input S.BuildHasher S.Hasher.Hasher A.laws
          A.respects_eq state s (filed x.first.table) is.0 ix was item live (ap (λ keys. keys.0) same),
      (
        Indexes-key_kept B.key_of B.eq B.hash_input S.BuildHasher S.Hasher.Hasher B.laws
            B.respects_eq state s (filed x.second.table) is.1.0 ix was item live
            (ap (λ keys. keys.1.0) same),
        Indexes-key_kept C.key_of C.eq C.hash_input S.BuildHasher S.Hasher.Hasher C.laws
            C.respects_eq state s (filed x.third.table) is.1.1 ix was item live
            (ap (λ keys. keys.1.1) same),
      ),
    ) };

    ghost same_items = { λ x state s t same is. let first = shares A.key_of A.eq in
        let second = shares B.key_of B.eq in let third = shares C.key_of C.eq in
        let last = HaveSameKeys-second first (both_keys second third) s t same in (
          Indexes-keys_shared A.key_of A.eq A.hash_input S.BuildHasher S.Hasher.Hasher A.laws
              A.respects_eq state s (filed x.first.table) is.0 t
              (HaveSameKeys-first first (both_keys second third) s t same),
          (
            Indexes-keys_shared B.key_of B.eq B.hash_input S.BuildHasher S.Hasher.Hasher B.laws
                B.respects_eq state s (filed x.second.table) is.1.0 t
                (HaveSameKeys-first second third s t last),
            Indexes-keys_shared C.key_of C.eq C.hash_input S.BuildHasher S.Hasher.Hasher C.laws
                C.respects_eq state s (filed x.third.table) is.1.1 t
                (HaveSameKeys-second second third s t last),
          ),
        ) };

    ghost equivalence = { and_equiv (shares_laws A.key_of A.eq A.laws)
        (and_equiv (shares_laws B.key_of B.eq B.laws)
        (shares_laws C.key_of C.eq C.laws)) };
}

impl<T, S, A, B, C> PlanLaws<T, S> for TriIndexOf<A, B, C>
where
    A: HashKey<T>,
    B: HashKey<T>,
    C: HashKey<T>,
    S: BuildHasher,
{
    ghost use Rattle.iddqd_map.specs.KeyLaws.{reported_three, some_three, few_three};
    ghost use Rattle.iddqd_map.specs.Map.{shares};

    ghost reported = { λ s item. reported_three s item (shares A.key_of A.eq) (shares B.key_of B.eq)
        (shares C.key_of C.eq) };

    ghost reported_some = { λ s item. some_three s item (shares A.key_of A.eq) (shares B.key_of B.eq)
        (shares C.key_of C.eq) };

    ghost few_reported = { λ at. few_three at.key1 at.key2 at.key3 };

    ghost same_plans = { λ x y state s item plan same is. is };
}

impl<T, S, A, B, C> Moves<T, S> for TriIndexOf<A, B, C>
where
    A: HashKey<T>,
    B: HashKey<T>,
    C: HashKey<T>,
    S: BuildHasher,
{
    ghost use Rattle.std.specs.Prelude.{◌||◌};
    ghost use Rattle.iddqd_by_hash.specs.Hashed.{hashing_of};
    ghost use Rattle.iddqd_map.specs.Indexing.{Plans};
    ghost use Rattle.iddqd_map.specs.Hashed.{moves};
    ghost use Rattle.iddqd_map.specs.Map.{shares};
    ghost use Rattle.iddqd_map.specs.ThreeKeys.{AreTaken};

    type Taken = TriClash;

    type MovePlan = (Move, (Move, Move));

    type MoveBlocks = ();

    ghost taken = { AreTaken (shares A.key_of A.eq) (shares B.key_of B.eq)
        (shares C.key_of C.eq) };

    ghost is_move = { λ state s ix item plan.
        Plans A.key_of (hashing_of A.eq A.hash_input S.BuildHasher S.Hasher.Hasher state) s ix item plan.0
        × (Plans B.key_of (hashing_of B.eq B.hash_input S.BuildHasher S.Hasher.Hasher state) s ix item
        plan.1.0
        × Plans C.key_of (hashing_of C.eq C.hash_input S.BuildHasher S.Hasher.Hasher state) s ix item
        plan.1.1) };

    ghost moves = { λ plan. moves plan.0 || (moves plan.1.0 || moves plan.1.1) };

    ghost are_none = { λ blocks. Unit {0} };

    ghost are_enough_for = { λ x plan blocks. Unit {0} };

    fn no_hashes() -> (Option<MapHash>, (Option<MapHash>, Option<MapHash>)) {
        (None, (None, None))
    }

    fn plan_move(
        &self,
        items: &ItemSet<T>,
        state: &S,
        ix: ItemIndex,
        item: &T,
    ) -> Result<(Move, (Move, Move)), TriClash> {
        let first = self.first.plan_move(items, state, ix, item);
        let second = self.second.plan_move(items, state, ix, item);
        let third = self.third.plan_move(items, state, ix, item);
        all_moves(first, second, third)
    }

    fn blocks_for(
        &self,
        items: &ItemSet<T>,
        state: &S,
        plan: &(Move, (Move, Move)),
    ) -> Result<(), AllocError> {
        Ok(())
    }

    fn commit_move(
        &mut self,
        items: &ItemSet<T>,
        state: &S,
        known: (Option<MapHash>, (Option<MapHash>, Option<MapHash>)),
        plan: &(Move, (Move, Move)),
        blocks: (),
        ix: ItemIndex,
        item: &T,
    ) {
        self.first
            .commit_move(items, state, known.0, &plan.0, blocks, ix, item);
        self.second
            .commit_move(items, state, known.1.0, &plan.1.0, blocks, ix, item);
        self.third
            .commit_move(items, state, known.1.1, &plan.1.1, blocks, ix, item);
    }
}

impl<T, S, A, B, C> Empty<T, S> for TriIndexOf<A, B, C>
where
    A: HashKey<T>,
    B: HashKey<T>,
    C: HashKey<T>,
    S: BuildHasher,
{
    fn new(alloc: Global) -> TriIndexOf<A, B, C> {
        TriIndexOf {
            first: <ByHashOf<A> as Empty<T, S>>::new(alloc),
            second: <ByHashOf<B> as Empty<T, S>>::new(alloc),
            third: <ByHashOf<C> as Empty<T, S>>::new(alloc),
        }
    }
}

impl<T, S, A, B, C> Upkeep<T, S> for TriIndexOf<A, B, C>
where
    A: HashKey<T>,
    B: HashKey<T>,
    C: HashKey<T>,
    S: BuildHasher,
{
    fn capacity(&self) -> usize {
        let first = <ByHashOf<A> as Upkeep<T, S>>::capacity(&self.first);
        let second = <ByHashOf<B> as Upkeep<T, S>>::capacity(&self.second);
        let third = <ByHashOf<C> as Upkeep<T, S>>::capacity(&self.third);
        first.min(second.min(third))
    }

    fn with_capacity(alloc: Global, wanted: usize) -> Result<TriIndexOf<A, B, C>, AllocError> {
        let first = <ByHashOf<A> as Upkeep<T, S>>::with_capacity(alloc, wanted)?;
        let second = <ByHashOf<B> as Upkeep<T, S>>::with_capacity(alloc, wanted)?;
        let third = <ByHashOf<C> as Upkeep<T, S>>::with_capacity(alloc, wanted)?;
        Ok(TriIndexOf {
            first,
            second,
            third,
        })
    }

    fn reserve(
        &mut self,
        items: &ItemSet<T>,
        state: &S,
        additional: usize,
    ) -> Result<(), AllocError> {
        self.first.reserve(items, state, additional)?;
        self.second.reserve(items, state, additional)?;
        self.third.reserve(items, state, additional)
    }

    fn shrink_to(&mut self, items: &ItemSet<T>, state: &S, least: usize) -> Result<(), AllocError> {
        let first = self.first.shrink_to(items, state, least);
        let second = self.second.shrink_to(items, state, least);
        let third = self.third.shrink_to(items, state, least);
        first.and(second.and(third))
    }

    fn clear(&mut self) {
        <ByHashOf<A> as Upkeep<T, S>>::clear(&mut self.first);
        <ByHashOf<B> as Upkeep<T, S>>::clear(&mut self.second);
        <ByHashOf<C> as Upkeep<T, S>>::clear(&mut self.third);
    }

    fn remap(&mut self, remap: &IndexRemap) {
        <ByHashOf<A> as Upkeep<T, S>>::remap(&mut self.first, remap);
        <ByHashOf<B> as Upkeep<T, S>>::remap(&mut self.second, remap);
        <ByHashOf<C> as Upkeep<T, S>>::remap(&mut self.third, remap);
    }

    fn copied(&self) -> Result<TriIndexOf<A, B, C>, AllocError> {
        let first = <ByHashOf<A> as Upkeep<T, S>>::copied(&self.first)?;
        let second = <ByHashOf<B> as Upkeep<T, S>>::copied(&self.second)?;
        let third = <ByHashOf<C> as Upkeep<T, S>>::copied(&self.third)?;
        Ok(TriIndexOf {
            first,
            second,
            third,
        })
    }

    fn validate(
        &self,
        items: &ItemSet<T>,
        state: &S,
        compactness: ValidateCompact,
    ) -> Result<(), ValidateRefusal<ValidationError>> {
        self.first.validate(items, state, compactness)?;
        self.second.validate(items, state, compactness)?;
        self.third.validate(items, state, compactness)
    }
}

impl<T, S, A, B, C> ComparesKeys<T, S> for TriIndexOf<A, B, C>
where
    A: HashKey<T>,
    B: HashKey<T>,
    C: HashKey<T>,
    S: BuildHasher,
{
    fn is_same(item: &T, other: &T) -> bool {
        <ByHashOf<A> as ComparesKeys<T, S>>::is_same(item, other)
            && <ByHashOf<B> as ComparesKeys<T, S>>::is_same(item, other)
            && <ByHashOf<C> as ComparesKeys<T, S>>::is_same(item, other)
    }
}

impl<T, S, A, B, C> FindsSame<T, S> for TriIndexOf<A, B, C>
where
    A: HashKey<T>,
    B: HashKey<T>,
    C: HashKey<T>,
    S: BuildHasher,
{
    ghost use Rattle.iddqd_map.specs.Map.{shares};
    ghost use Rattle.iddqd_map.specs.PairLaws.{alike_both};
    ghost use Rattle.iddqd_map.specs.Several.{either_key, both_keys};

    fn find_same(&self, items: &ItemSet<T>, state: &S, item: &T) -> Option<ItemIndex> {
        let ix = self.first.find_same(items, state, item)?;
        if shares_later_keys::<T, B, C>(item, &items[ix]) {
            Some(ix)
        } else {
            None
        }
    }

    ghost same_are_alike = { let first = shares A.key_of A.eq in
        let second = shares B.key_of B.eq in let third = shares C.key_of C.eq in
        alike_both first (both_keys second third) first (λ x y same. same) (either_key second third) };
}

// Whether the items share their second and their third key.
fn shares_later_keys<T, B: HashKey<T>, C: HashKey<T>>(item: &T, other: &T) -> bool
    ensures { result ≡ both_keys (shares B.key_of B.eq) (shares C.key_of C.eq) item.now other.now }
{
    B::is_same(item, other) && C::is_same(item, other)
}

impl<T, S, A, B, C> ReportsAt<First, T, S> for TriIndexOf<A, B, C>
where
    A: HashKey<T>,
    B: HashKey<T>,
    C: HashKey<T>,
    S: BuildHasher,
{
    ghost use Rattle.iddqd_map.specs.Map.{shares};
    ghost use Rattle.iddqd_map.specs.PairLaws.{alike_first};
    ghost use Rattle.iddqd_map.specs.Several.{either_key};

    ghost alike_at = { shares A.key_of A.eq };

    ghost alike_there = { λ x y is. let rest = either_key (shares B.key_of B.eq) (shares C.key_of C.eq) in
        alike_first (shares A.key_of A.eq) rest x y is };

    fn reported_at(conflict: &TriClash) -> Option<ItemIndex> {
        conflict.key1
    }
}

impl<T, S, A, B, C, Q> UniqueAt<First, Q, T, S> for TriIndexOf<A, B, C>
where
    A: HashKey<T>,
    B: HashKey<T>,
    C: HashKey<T>,
    S: BuildHasher,
    Q: ItemHashQuery<T, A>,
{
    ghost use Rattle.std.specs.Prelude.{IsSome};

    ghost stands_for = { Q.stands_for_item };

    ghost has_hash = { λ known. IsSome known.0 };

    fn find(
        &self,
        items: &ItemSet<T>,
        state: &S,
        query: Q,
    ) -> (
        Option<ItemIndex>,
        (Option<MapHash>, (Option<MapHash>, Option<MapHash>)),
    ) {
        let (found, known) = self.first.find(items, state, query);
        (found, (known, (None, None)))
    }
}

impl<T, S, A, B, C, Q> TakesAt<First, Q, T, S> for TriIndexOf<A, B, C>
where
    A: HashKey<T>,
    B: HashKey<T>,
    C: HashKey<T>,
    S: BuildHasher,
    Q: ItemHashQuery<T, A>,
{
    fn take(&mut self, items: &ItemSet<T>, state: &S, query: Q) -> Option<ItemIndex> {
        let found = self.first.take(items, state, query)?;
        self.second.remove(items, state, found);
        self.third.remove(items, state, found);
        Some(found)
    }
}

impl<T, S, A, B, C> ReportsAt<Second, T, S> for TriIndexOf<A, B, C>
where
    A: HashKey<T>,
    B: HashKey<T>,
    C: HashKey<T>,
    S: BuildHasher,
{
    ghost use Rattle.iddqd_map.specs.Map.{shares};
    ghost use Rattle.iddqd_map.specs.PairLaws.{alike_first, alike_second};
    ghost use Rattle.iddqd_map.specs.Several.{either_key};

    ghost alike_at = { shares B.key_of B.eq };

    ghost alike_there = { λ x y is. let rest = either_key (shares B.key_of B.eq) (shares C.key_of C.eq) in
        alike_second (shares A.key_of A.eq) rest x y
        (alike_first (shares B.key_of B.eq) (shares C.key_of C.eq) x y is) };

    fn reported_at(conflict: &TriClash) -> Option<ItemIndex> {
        conflict.key2
    }
}

impl<T, S, A, B, C, Q> UniqueAt<Second, Q, T, S> for TriIndexOf<A, B, C>
where
    A: HashKey<T>,
    B: HashKey<T>,
    C: HashKey<T>,
    S: BuildHasher,
    Q: ItemHashQuery<T, B>,
{
    ghost use Rattle.std.specs.Prelude.{IsSome};

    ghost stands_for = { Q.stands_for_item };

    ghost has_hash = { λ known. IsSome known.1.0 };

    fn find(
        &self,
        items: &ItemSet<T>,
        state: &S,
        query: Q,
    ) -> (
        Option<ItemIndex>,
        (Option<MapHash>, (Option<MapHash>, Option<MapHash>)),
    ) {
        let (found, known) = self.second.find(items, state, query);
        (found, (None, (known, None)))
    }
}

impl<T, S, A, B, C, Q> TakesAt<Second, Q, T, S> for TriIndexOf<A, B, C>
where
    A: HashKey<T>,
    B: HashKey<T>,
    C: HashKey<T>,
    S: BuildHasher,
    Q: ItemHashQuery<T, B>,
{
    fn take(&mut self, items: &ItemSet<T>, state: &S, query: Q) -> Option<ItemIndex> {
        let found = self.second.take(items, state, query)?;
        self.first.remove(items, state, found);
        self.third.remove(items, state, found);
        Some(found)
    }
}

impl<T, S, A, B, C> ReportsAt<Third, T, S> for TriIndexOf<A, B, C>
where
    A: HashKey<T>,
    B: HashKey<T>,
    C: HashKey<T>,
    S: BuildHasher,
{
    ghost use Rattle.iddqd_map.specs.Map.{shares};
    ghost use Rattle.iddqd_map.specs.PairLaws.{alike_second};
    ghost use Rattle.iddqd_map.specs.Several.{either_key};

    ghost alike_at = { shares C.key_of C.eq };

    ghost alike_there = { λ x y is. let rest = either_key (shares B.key_of B.eq) (shares C.key_of C.eq) in
        alike_second (shares A.key_of A.eq) rest x y
        (alike_second (shares B.key_of B.eq) (shares C.key_of C.eq) x y is) };

    fn reported_at(conflict: &TriClash) -> Option<ItemIndex> {
        conflict.key3
    }
}

impl<T, S, A, B, C, Q> UniqueAt<Third, Q, T, S> for TriIndexOf<A, B, C>
where
    A: HashKey<T>,
    B: HashKey<T>,
    C: HashKey<T>,
    S: BuildHasher,
    Q: ItemHashQuery<T, C>,
{
    ghost use Rattle.std.specs.Prelude.{IsSome};

    ghost stands_for = { Q.stands_for_item };

    ghost has_hash = { λ known. IsSome known.1.1 };

    fn find(
        &self,
        items: &ItemSet<T>,
        state: &S,
        query: Q,
    ) -> (
        Option<ItemIndex>,
        (Option<MapHash>, (Option<MapHash>, Option<MapHash>)),
    ) {
        let (found, known) = self.third.find(items, state, query);
        (found, (None, (None, known)))
    }
}

impl<T, S, A, B, C, Q> TakesAt<Third, Q, T, S> for TriIndexOf<A, B, C>
where
    A: HashKey<T>,
    B: HashKey<T>,
    C: HashKey<T>,
    S: BuildHasher,
    Q: ItemHashQuery<T, C>,
{
    fn take(&mut self, items: &ItemSet<T>, state: &S, query: Q) -> Option<ItemIndex> {
        let found = self.third.take(items, state, query)?;
        self.first.remove(items, state, found);
        self.second.remove(items, state, found);
        Some(found)
    }
}
