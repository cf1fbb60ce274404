//! The key index of a map whose items have two keys: a table by each of them.
//!
//! A look-up by one key goes to the table by that key, and every other call to both tables. A caller's proof sees two
//! keys and not the tables, each of which would cost proof time in every function that calls the map.
//!
//! It is one file, since it is an impl of each trait of key indexes, and no impl can be split.
use super::clash::{BiClash, both_moves, clash_of};
use super::item::{BiHashItem, Key1, Key2};
use crate::by_hash::ByHashOf;
use crate::key_index::{
    Changes, ComparesKeys, Empty, FindsSame, First, IndexLaws, KeyIndex, Moves, PlanLaws,
    ReportsAt, Second, TakesAt, UniqueAt, Upkeep,
};
use crate::reported::{lesser, past};
use iddqd::index_remap::IndexRemap;
use iddqd::internal::{ValidateCompact, ValidateRefusal, ValidationError};
use iddqd::item_index::ItemIndex;
use iddqd::item_set::ItemSet;
use iddqd::map_hash::MapHash;
use iddqd_by_hash::hashed_move::Move;
use iddqd_keys::hash_key::HashKey;
use iddqd_keys::item_hash_query::ItemHashQuery;
use iddqd_keys::key_kinds::Field;
use std::alloc::{AllocError, Global};
use std::hash::BuildHasher;

/// A table by each of the two keys of a `BiHashItem`.
pub type BiIndex<T> = BiIndexOf<
    Field<Key1, <T as BiHashItem>::Key1>,
    Field<Key2, <T as BiHashItem>::Key2>,
>;

/// A table by each of two keys.
#[derive(Drop)]
pub struct BiIndexOf<A, B> {
    first: ByHashOf<A>,
    second: ByHashOf<B>,
}

impl<T, S, A, B> KeyIndex<T, S> for BiIndexOf<A, B>
where
    A: HashKey<T>,
    B: HashKey<T>,
    S: BuildHasher,
{
    ghost use Rattle.std.specs.Prelude.{◌≡◌, ◌+◌, min, false};
    ghost use Rattle.iddqd_hash.specs.HashTable.{capacity, memory};
    ghost use Rattle.iddqd_hash.specs.MapHashTable.{filed};
    ghost use Rattle.iddqd_hash.specs.OpenTableSizes.{least_cells};
    ghost use Rattle.iddqd_hash.specs.Sizes.{most_cells};
    ghost use Rattle.iddqd_by_hash.specs.Hashed.{hashing_of};
    ghost use Rattle.iddqd_map.specs.Indexing.{Indexes, IsKnownHash};
    ghost use Rattle.iddqd_keys.specs.KeyKeeping.{pair_keys};
    ghost use Rattle.iddqd_map.specs.Map.{shares};
    ghost use Rattle.iddqd_map.specs.Several.{either_key, both_keys};

    type KnownHashes = (Option<MapHash>, Option<MapHash>);

    ghost Keys = { A.Key × B.Key };

    ghost keys = { pair_keys A.key_of B.key_of };

    ghost alike = { either_key (shares A.key_of A.eq) (shares B.key_of B.eq) };

    ghost same_keys = { both_keys (shares A.key_of A.eq) (shares B.key_of B.eq) };

    ghost indexes = { λ x state s.
        Indexes A.key_of (hashing_of A.eq A.hash_input S.BuildHasher S.Hasher.Hasher state) s
        (filed x.first.table)
        × Indexes B.key_of (hashing_of B.eq B.hash_input S.BuildHasher S.Hasher.Hasher state) s
        (filed x.second.table) };

    ghost are_known = { λ state item known.
        IsKnownHash A.key_of (hashing_of A.eq A.hash_input S.BuildHasher S.Hasher.Hasher state) item known.0
        × IsKnownHash B.key_of (hashing_of B.eq B.hash_input S.BuildHasher S.Hasher.Hasher state) item known.1 };

    ghost capacity = { λ x. min (capacity x.first.table) (capacity x.second.table) };

    ghost cells = { λ x. memory x.first.table + memory x.second.table };

    ghost most = { λ n. most_cells n + most_cells n };

    ghost grown = { λ n. most_cells n + most_cells n };

    ghost kept = { λ slots count. most_cells count + most_cells count };

    ghost needed = { λ slots count. least_cells count + least_cells count };

    ghost may_need_memory = { false };

    ghost same = { λ x y. (filed y.first.table ≡ filed x.first.table) × (filed y.second.table ≡ filed x.second.table) };

    ghost unique_keys = { 2 };
}

impl<T, S, A, B> Changes<T, S> for BiIndexOf<A, B>
where
    A: HashKey<T>,
    B: HashKey<T>,
    S: BuildHasher,
{
    ghost use Rattle.std.specs.Prelude.{◌≡◌, ◌≤◌};
    ghost use Rattle.iddqd_hash.specs.HashTable.{room};
    ghost use Rattle.iddqd_by_hash.specs.Hashed.{hashing_of};
    ghost use Rattle.iddqd_map.specs.KeyLaws.{IsOfTwo};
    ghost use Rattle.iddqd_map.specs.Map.{shares};
    ghost use Rattle.iddqd_map.specs.TwoKeys.{AreReported};

    type Conflict = BiClash;

    type Hashes = (MapHash, MapHash);

    type Position = ();

    type InsertPlan = ();

    type Blocks = ();

    ghost conflicts = { AreReported (shares A.key_of A.eq) (shares B.key_of B.eq) };

    ghost reports = { λ at. IsOfTwo at.key1 at.key2 };

    ghost are_hashes = { λ state item hashes.
        (hashes.0 ≡ (hashing_of A.eq A.hash_input S.BuildHasher S.Hasher.Hasher state).hash_of
        (A.key_of item))
        × (hashes.1 ≡ (hashing_of B.eq B.hash_input S.BuildHasher S.Hasher.Hasher state).hash_of
        (B.key_of item)) };

    ghost is_position = { λ x state s item position. Unit {0} };

    ghost is_planned = { λ x state s item plan. Unit {0} };

    ghost has_room_for = { λ x plan blocks. (1 ≤ room x.first.table) × (1 ≤ room x.second.table) };

    ghost are_none = { λ blocks. Unit {0} };

    ghost are_enough_after = { λ x blocks. Unit {0} };

    fn hashes(state: &S, item: &T) -> (MapHash, MapHash) {
        let first = <ByHashOf<A> as Changes<T, S>>::hashes(state, item);
        let second = <ByHashOf<B> as Changes<T, S>>::hashes(state, item);
        (first, second)
    }

    fn look_up(
        &self,
        items: &ItemSet<T>,
        state: &S,
        hashes: (MapHash, MapHash),
        item: &T,
    ) -> Result<(), BiClash> {
        let first = self.first.look_up(items, state, hashes.0, item);
        let second = self.second.look_up(items, state, hashes.1, item);
        clash_of(first.err(), second.err())
    }

    fn plan(&self, items: &ItemSet<T>, state: &S, position: (), ix: ItemIndex, item: &T) {}

    fn make_room(&mut self, items: &ItemSet<T>, state: &S, plan: &()) -> Result<(), AllocError> {
        self.first.make_room(items, state, plan)?;
        self.second.make_room(items, state, plan)
    }

    fn insert(&mut self, hashes: (MapHash, MapHash), plan: &(), blocks: (), ix: ItemIndex) {
        <ByHashOf<A> as Changes<T, S>>::insert(&mut self.first, hashes.0, plan, blocks, ix);
        <ByHashOf<B> as Changes<T, S>>::insert(&mut self.second, hashes.1, plan, blocks, ix);
    }

    fn next_reported(conflict: &BiClash, before: Option<ItemIndex>) -> Option<ItemIndex> {
        lesser(past(&conflict.key1, &before), past(&conflict.key2, &before))
    }

    fn position(&self, items: &ItemSet<T>, state: &S, hashes: (MapHash, MapHash), item: &T) {}

    fn blocks_after(&self, items: &ItemSet<T>, state: &S) -> Result<(), AllocError> {
        Ok(())
    }

    fn remove(&mut self, items: &ItemSet<T>, state: &S, ix: ItemIndex) {
        self.first.remove(items, state, ix);
        self.second.remove(items, state, ix);
    }
}

impl<T, S, A, B> IndexLaws<T, S> for BiIndexOf<A, B>
where
    A: HashKey<T>,
    B: HashKey<T>,
    S: BuildHasher,
{
    ghost use Rattle.std.proofs.Common.{ap, refl};
    ghost use Rattle.std.proofs.lemmas.Cmp.{and_equiv};
    ghost use Rattle.iddqd_hash.specs.MapHashTable.{filed};
    ghost use Rattle.iddqd_hash.proofs.LeastCellsLemmas.{least_cells-grows};
    ghost use Rattle.iddqd_by_hash.specs.Hashed.{hashing_of};
    ghost use Rattle.iddqd_map.specs.HashLaws.{shares_laws, Indexes-kept, Indexes-key_kept, Indexes-keys_shared};
    ghost use Rattle.iddqd_map.specs.PairLaws.{AreApart-either, HaveSameKeys-first, HaveSameKeys-second, sum_grows};
    ghost use Rattle.iddqd_map.specs.Map.{shares};

    ghost needed_grows = { λ slots more_slots count more wider up.
        sum_grows (least_cells-grows count more up) (least_cells-grows count more up) };

    ghost kept_none = { refl };

    ghost same_as_itself = { λ x. (refl, refl) };

    ghost same_indexes = { λ x y state s same is. (
      Indexes-kept A.key_of (hashing_of A.eq A.hash_input S.BuildHasher S.Hasher.Hasher state) s
          (filed x.first.table) (filed y.first.table) same.0 is.0,
      Indexes-kept B.key_of (hashing_of B.eq B.hash_input S.BuildHasher S.Hasher.Hasher state) s
          (filed x.second.table) (filed y.second.table) same.1 is.1,
    ) };

    ghost apart = { λ x state s is. AreApart-either (shares A.key_of A.eq) (shares B.key_of B.eq) s
        is.0.in_sync.apart is.1.in_sync.apart };

    ghost modified = { λ x state s ix was item is live same. (
      Indexes-key_kept A.key_of A.eq A.hash_input S.BuildHasher S.Hasher.Hasher A.laws
          A.respects_eq state s (filed x.first.table) is.0 ix was item live (ap (λ keys. keys.0) same),
      Indexes-key_kept B.key_of B.eq B.hash_input S.BuildHasher S.Hasher.Hasher B.laws
          B.respects_eq state s (filed x.second.table) is.1 ix was item live (ap (λ keys. keys.1) same),
    ) };

    ghost same_items = { λ x state s t same is. let first = shares A.key_of A.eq in
        let second = shares B.key_of B.eq in (
          Indexes-keys_shared A.key_of A.eq A.hash_input S.BuildHasher S.Hasher.Hasher A.laws
              A.respects_eq state s (filed x.first.table) is.0 t (HaveSameKeys-first first second s t same),
          Indexes-keys_shared B.key_of B.eq B.hash_input S.BuildHasher S.Hasher.Hasher B.laws
              B.respects_eq state s (filed x.second.table) is.1 t
              (HaveSameKeys-second first second s t same),
        ) };

    ghost equivalence = { and_equiv (shares_laws A.key_of A.eq A.laws)
        (shares_laws B.key_of B.eq B.laws) };
}

impl<T, S, A, B> PlanLaws<T, S> for BiIndexOf<A, B>
where
    A: HashKey<T>,
    B: HashKey<T>,
    S: BuildHasher,
{
    ghost use Rattle.iddqd_map.specs.KeyLaws.{reported_two, some_two, few_two};
    ghost use Rattle.iddqd_map.specs.Map.{shares};

    ghost reported = { λ s item at. reported_two s item (shares A.key_of A.eq) (shares B.key_of B.eq)
        at.key1 at.key2 };

    ghost reported_some = { λ s item at. some_two s item (shares A.key_of A.eq) (shares B.key_of B.eq)
        at.key1 at.key2 };

    ghost few_reported = { λ at. few_two at.key1 at.key2 };

    ghost same_plans = { λ x y state s item plan same is. is };
}

impl<T, S, A, B> Moves<T, S> for BiIndexOf<A, B>
where
    A: HashKey<T>,
    B: HashKey<T>,
    S: BuildHasher,
{
    ghost use Rattle.std.specs.Prelude.{◌||◌};
    ghost use Rattle.iddqd_by_hash.specs.Hashed.{hashing_of};
    ghost use Rattle.iddqd_map.specs.Indexing.{Plans};
    ghost use Rattle.iddqd_map.specs.Hashed.{moves};
    ghost use Rattle.iddqd_map.specs.Map.{shares};
    ghost use Rattle.iddqd_map.specs.TwoKeys.{AreTaken};

    type Taken = BiClash;

    type MovePlan = (Move, Move);

    type MoveBlocks = ();

    ghost taken = { AreTaken (shares A.key_of A.eq) (shares B.key_of B.eq) };

    ghost is_move = { λ state s ix item plan.
        Plans A.key_of (hashing_of A.eq A.hash_input S.BuildHasher S.Hasher.Hasher state) s ix item plan.0
        × Plans B.key_of (hashing_of B.eq B.hash_input S.BuildHasher S.Hasher.Hasher state) s ix item
        plan.1 };

    ghost moves = { λ plan. moves plan.0 || moves plan.1 };

    ghost are_none = { λ blocks. Unit {0} };

    ghost are_enough_for = { λ x plan blocks. Unit {0} };

    fn no_hashes() -> (Option<MapHash>, Option<MapHash>) {
        (None, None)
    }

    fn plan_move(
        &self,
        items: &ItemSet<T>,
        state: &S,
        ix: ItemIndex,
        item: &T,
    ) -> Result<(Move, Move), BiClash> {
        let first = self.first.plan_move(items, state, ix, item);
        let second = self.second.plan_move(items, state, ix, item);
        both_moves(first, second)
    }

    fn blocks_for(
        &self,
        items: &ItemSet<T>,
        state: &S,
        plan: &(Move, Move),
    ) -> Result<(), AllocError> {
        Ok(())
    }

    fn commit_move(
        &mut self,
        items: &ItemSet<T>,
        state: &S,
        known: (Option<MapHash>, Option<MapHash>),
        plan: &(Move, Move),
        blocks: (),
        ix: ItemIndex,
        item: &T,
    ) {
        self.first
            .commit_move(items, state, known.0, &plan.0, blocks, ix, item);
        self.second
            .commit_move(items, state, known.1, &plan.1, blocks, ix, item);
    }
}

impl<T, S, A, B> Empty<T, S> for BiIndexOf<A, B>
where
    A: HashKey<T>,
    B: HashKey<T>,
    S: BuildHasher,
{
    fn new(alloc: Global) -> BiIndexOf<A, B> {
        BiIndexOf {
            first: <ByHashOf<A> as Empty<T, S>>::new(alloc),
            second: <ByHashOf<B> as Empty<T, S>>::new(alloc),
        }
    }
}

impl<T, S, A, B> Upkeep<T, S> for BiIndexOf<A, B>
where
    A: HashKey<T>,
    B: HashKey<T>,
    S: BuildHasher,
{
    fn capacity(&self) -> usize {
        let first = <ByHashOf<A> as Upkeep<T, S>>::capacity(&self.first);
        let second = <ByHashOf<B> as Upkeep<T, S>>::capacity(&self.second);
        first.min(second)
    }

    fn with_capacity(alloc: Global, wanted: usize) -> Result<BiIndexOf<A, B>, AllocError> {
        let first = <ByHashOf<A> as Upkeep<T, S>>::with_capacity(alloc, wanted)?;
        let second = <ByHashOf<B> as Upkeep<T, S>>::with_capacity(alloc, wanted)?;
        Ok(BiIndexOf { first, second })
    }

    fn reserve(
        &mut self,
        items: &ItemSet<T>,
        state: &S,
        additional: usize,
    ) -> Result<(), AllocError> {
        self.first.reserve(items, state, additional)?;
        self.second.reserve(items, state, additional)
    }

    fn shrink_to(&mut self, items: &ItemSet<T>, state: &S, least: usize) -> Result<(), AllocError> {
        let first = self.first.shrink_to(items, state, least);
        let second = self.second.shrink_to(items, state, least);
        first.and(second)
    }

    fn clear(&mut self) {
        <ByHashOf<A> as Upkeep<T, S>>::clear(&mut self.first);
        <ByHashOf<B> as Upkeep<T, S>>::clear(&mut self.second);
    }

    fn remap(&mut self, remap: &IndexRemap) {
        <ByHashOf<A> as Upkeep<T, S>>::remap(&mut self.first, remap);
        <ByHashOf<B> as Upkeep<T, S>>::remap(&mut self.second, remap);
    }

    fn copied(&self) -> Result<BiIndexOf<A, B>, AllocError> {
        let first = <ByHashOf<A> as Upkeep<T, S>>::copied(&self.first)?;
        let second = <ByHashOf<B> as Upkeep<T, S>>::copied(&self.second)?;
        Ok(BiIndexOf { first, second })
    }

    fn validate(
        &self,
        items: &ItemSet<T>,
        state: &S,
        compactness: ValidateCompact,
    ) -> Result<(), ValidateRefusal<ValidationError>> {
        self.first.validate(items, state, compactness)?;
        self.second.validate(items, state, compactness)
    }
}

impl<T, S, A, B> ComparesKeys<T, S> for BiIndexOf<A, B>
where
    A: HashKey<T>,
    B: HashKey<T>,
    S: BuildHasher,
{
    fn is_same(item: &T, other: &T) -> bool {
        <ByHashOf<A> as ComparesKeys<T, S>>::is_same(item, other)
            && <ByHashOf<B> as ComparesKeys<T, S>>::is_same(item, other)
    }
}

impl<T, S, A, B> FindsSame<T, S> for BiIndexOf<A, B>
where
    A: HashKey<T>,
    B: HashKey<T>,
    S: BuildHasher,
{
    ghost use Rattle.iddqd_map.specs.Map.{shares};
    ghost use Rattle.iddqd_map.specs.PairLaws.{alike_both};

    fn find_same(&self, items: &ItemSet<T>, state: &S, item: &T) -> Option<ItemIndex> {
        let ix = self.first.find_same(items, state, item)?;
        if <ByHashOf<B> as ComparesKeys<T, S>>::is_same(item, &items[ix]) {
            Some(ix)
        } else {
            None
        }
    }

    ghost same_are_alike = { let first = shares A.key_of A.eq in
        alike_both first (shares B.key_of B.eq) first (λ x y same. same) (shares B.key_of B.eq) };
}

impl<T, S, A, B> ReportsAt<First, T, S> for BiIndexOf<A, B>
where
    A: HashKey<T>,
    B: HashKey<T>,
    S: BuildHasher,
{
    ghost use Rattle.iddqd_map.specs.Map.{shares};
    ghost use Rattle.iddqd_map.specs.PairLaws.{alike_first};

    ghost alike_at = { shares A.key_of A.eq };

    ghost alike_there = { λ x y is. alike_first (shares A.key_of A.eq) (shares B.key_of B.eq) x y is };

    fn reported_at(conflict: &BiClash) -> Option<ItemIndex> {
        conflict.key1
    }
}

impl<T, S, A, B, Q> UniqueAt<First, Q, T, S> for BiIndexOf<A, B>
where
    A: HashKey<T>,
    B: HashKey<T>,
    S: BuildHasher,
    Q: ItemHashQuery<T, A>,
{
    ghost use Rattle.std.specs.Prelude.{IsSome};

    ghost stands_for = { Q.stands_for_item };

    ghost has_hash = { λ known. IsSome known.0 };

    fn find(
        &self,
        items: &ItemSet<T>,
        state: &S,
        query: Q,
    ) -> (Option<ItemIndex>, (Option<MapHash>, Option<MapHash>)) {
        let (found, known) = self.first.find(items, state, query);
        (found, (known, None))
    }
}

impl<T, S, A, B, Q> TakesAt<First, Q, T, S> for BiIndexOf<A, B>
where
    A: HashKey<T>,
    B: HashKey<T>,
    S: BuildHasher,
    Q: ItemHashQuery<T, A>,
{
    fn take(&mut self, items: &ItemSet<T>, state: &S, query: Q) -> Option<ItemIndex> {
        let found = self.first.take(items, state, query)?;
        self.second.remove(items, state, found);
        Some(found)
    }
}

impl<T, S, A, B> ReportsAt<Second, T, S> for BiIndexOf<A, B>
where
    A: HashKey<T>,
    B: HashKey<T>,
    S: BuildHasher,
{
    ghost use Rattle.iddqd_map.specs.Map.{shares};
    ghost use Rattle.iddqd_map.specs.PairLaws.{alike_second};

    ghost alike_at = { shares B.key_of B.eq };

    ghost alike_there = { λ x y is. alike_second (shares A.key_of A.eq) (shares B.key_of B.eq) x y is };

    fn reported_at(conflict: &BiClash) -> Option<ItemIndex> {
        conflict.key2
    }
}

impl<T, S, A, B, Q> UniqueAt<Second, Q, T, S> for BiIndexOf<A, B>
where
    A: HashKey<T>,
    B: HashKey<T>,
    S: BuildHasher,
    Q: ItemHashQuery<T, B>,
{
    ghost use Rattle.std.specs.Prelude.{IsSome};

    ghost stands_for = { Q.stands_for_item };

    ghost has_hash = { λ known. IsSome known.1 };

    fn find(
        &self,
        items: &ItemSet<T>,
        state: &S,
        query: Q,
    ) -> (Option<ItemIndex>, (Option<MapHash>, Option<MapHash>)) {
        let (found, known) = self.second.find(items, state, query);
        (found, (None, known))
    }
}

impl<T, S, A, B, Q> TakesAt<Second, Q, T, S> for BiIndexOf<A, B>
where
    A: HashKey<T>,
    B: HashKey<T>,
    S: BuildHasher,
    Q: ItemHashQuery<T, B>,
{
    fn take(&mut self, items: &ItemSet<T>, state: &S, query: Q) -> Option<ItemIndex> {
        let found = self.second.take(items, state, query)?;
        self.first.remove(items, state, found);
        Some(found)
    }
}
