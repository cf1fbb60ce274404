//! A key index by one key, which no two items share: each index is in a hash table, under the hash of its item's key.
//!
//! Invariants, of a table that indexes a store under the state of a hasher:
//!
//! 1. it has exactly the live indexes;
//! 2. each of them is under the hash that its item's key has under this state;
//! 3. no two items have equal keys.
//!
//! So a look-up, which hashes once, returns what a scan of all items would. Keys are not copied: the table has only
//! hashes and indexes.
ghost use Rattle.std.specs.Prelude.{◌≡◌};
ghost use Rattle.iddqd_hash.specs.{filed};
ghost use Rattle.iddqd_keys.specs.Scan.{AnswersScan};
ghost use Rattle.iddqd_by_hash.specs.Hashed.{hashing_of};
ghost use Rattle.iddqd_map.specs.Indexing.{Indexes};

use crate::hashed_plan::plan_move;
use crate::hashed_query::{find_item, find_under, take_by};
use crate::hashed_steps;
use crate::key_index::{
    Changes, ComparesKeys, Empty, FindsSame, Here, IndexLaws, KeyIndex, Moves, PlanLaws, ReportsAt,
    TakesAt, UniqueAt, Upkeep,
};
use crate::reported::past;
use iddqd::index_remap::IndexRemap;
use iddqd::internal::{ValidateCompact, ValidateRefusal, ValidationError};
use iddqd::item_index::ItemIndex;
use iddqd::item_set::ItemSet;
use iddqd::map_hash::MapHash;
use iddqd_by_hash::hashed_item::{hash_of, query_hash};
use iddqd_by_hash::hashed_move::Move;
use iddqd_hash::hash_table::MapHashTable;
use iddqd_keys::hash_key::HashKey;
use iddqd_keys::item_hash_query::ItemHashQuery;
use iddqd_keys::key_kinds::Field;
use std::alloc::{AllocError, Global};
use std::hash::BuildHasher;
use std::marker::PhantomData;

/// A hash table by the key that `E` names. No two items have equal keys.
///
/// A look-up hashes the query once, and compares it only with keys of the same hash. Only `with_capacity`, `reserve`,
/// `make_room`, `shrink_to`, `copied` and `validate`, which sorts a copy of the indexes, take memory, and only they can
/// run out of it.
#[derive(Drop)]
pub struct ByHashOf<E> {
    // Each live index, under the hash of its item's key.
    table: MapHashTable,
    of: PhantomData<E>,
}

/// A hash table by the field, a `K`, that `E` borrows from the item.
pub type ByHash<E, K> = ByHashOf<Field<E, K>>;

impl<T, S, E> KeyIndex<T, S> for ByHashOf<E>
where
    E: HashKey<T>,
    S: BuildHasher,
{
    ghost use Rattle.std.specs.Prelude.{false};
    ghost use Rattle.iddqd_hash.specs.HashTable.{capacity, memory};
    ghost use Rattle.iddqd_hash.specs.OpenTableSizes.{least_cells};
    ghost use Rattle.iddqd_hash.specs.Sizes.{most_cells};
    ghost use Rattle.iddqd_hash.specs.MapHashTable.{filed};
    ghost use Rattle.iddqd_map.specs.Indexing.{IsKnownHash};
    ghost use Rattle.iddqd_map.specs.Map.{shares};

    type KnownHashes = Option<MapHash>;

    ghost Keys = { E.Key };

    ghost keys = { E.key_of };

    ghost alike = { shares E.key_of E.eq };

    ghost same_keys = { shares E.key_of E.eq };

    ghost indexes = { λ x state s. Indexes E.key_of (hashing_of E.eq E.hash_input S.BuildHasher
        S.Hasher.Hasher state) s (filed x.table) };

    ghost are_known = { λ state. IsKnownHash E.key_of (hashing_of E.eq E.hash_input S.BuildHasher
        S.Hasher.Hasher state) };

    ghost capacity = { λ x. capacity x.table };

    ghost cells = { λ x. memory x.table };

    ghost most = { most_cells };

    ghost grown = { most_cells };

    ghost kept = { λ slots count. most_cells count };

    ghost needed = { λ slots count. least_cells count };

    ghost may_need_memory = { false };

    ghost same = { λ x y. filed y.table ≡ filed x.table };

    ghost unique_keys = { 1 };
}

impl<T, S, E> Changes<T, S> for ByHashOf<E>
where
    E: HashKey<T>,
    S: BuildHasher,
{
    ghost use Rattle.std.specs.Prelude.{Some, ◌≤◌};
    ghost use Rattle.iddqd_hash.specs.HashTable.{room};
    ghost use Rattle.iddqd_map.specs.Map.{shares};

    type Conflict = ItemIndex;

    type Hashes = MapHash;

    type Position = ();

    type InsertPlan = ();

    type Blocks = ();

    ghost conflicts = { λ s item at. AnswersScan s (shares E.key_of E.eq item) (Some at) };

    ghost reports = { λ at ix. ix ≡ at };

    ghost are_hashes = { λ state item hash. hash ≡ (hashing_of E.eq E.hash_input S.BuildHasher
        S.Hasher.Hasher state).hash_of (E.key_of item) };

    ghost is_position = { λ x state s item position. Unit {0} };

    ghost is_planned = { λ x state s item plan. Unit {0} };

    ghost has_room_for = { λ x plan blocks. 1 ≤ room x.table };

    ghost are_none = { λ blocks. Unit {0} };

    ghost are_enough_after = { λ x blocks. Unit {0} };

    fn hashes(state: &S, item: &T) -> MapHash {
        hash_of::<T, E, S>(state, item)
    }

    fn look_up(
        &self,
        items: &ItemSet<T>,
        state: &S,
        hashes: MapHash,
        item: &T,
    ) -> Result<(), ItemIndex> {
        match find_item::<T, E, S>(&self.table, items, state, hashes, item) {
            Some(at) => Err(at),
            None => Ok(()),
        }
    }

    fn plan(&self, items: &ItemSet<T>, state: &S, position: (), ix: ItemIndex, item: &T) {}

    fn make_room(&mut self, items: &ItemSet<T>, state: &S, plan: &()) -> Result<(), AllocError> {
        hashed_steps::make_room(&mut self.table, items)
    }

    fn insert(&mut self, hashes: MapHash, plan: &(), blocks: (), ix: ItemIndex) {
        self.table.insert_prehashed_unchecked(hashes, ix);
    }

    fn next_reported(conflict: &ItemIndex, before: Option<ItemIndex>) -> Option<ItemIndex> {
        past(&Some(*conflict), &before)
    }

    fn position(&self, items: &ItemSet<T>, state: &S, hashes: MapHash, item: &T) {}

    fn blocks_after(&self, items: &ItemSet<T>, state: &S) -> Result<(), AllocError> {
        Ok(())
    }

    fn remove(&mut self, items: &ItemSet<T>, state: &S, ix: ItemIndex) {
        hashed_steps::remove_live::<T, E, S>(&mut self.table, items, state, ix);
    }
}

impl<T, S, E> IndexLaws<T, S> for ByHashOf<E>
where
    E: HashKey<T>,
    S: BuildHasher,
{
    ghost use Rattle.std.proofs.Common.{refl};
    ghost use Rattle.iddqd_hash.proofs.LeastCellsLemmas.{least_cells-grows};
    ghost use Rattle.iddqd_hash.specs.MapHashTable.{filed};
    ghost use Rattle.iddqd_map.specs.HashLaws.{shares_laws, Indexes-kept, Indexes-key_kept, Indexes-keys_shared};

    ghost needed_grows = { λ slots more_slots count more wider up. least_cells-grows count more up };

    ghost kept_none = { refl };

    ghost same_as_itself = { λ x. refl };

    ghost same_indexes = { λ x y state s same is. Indexes-kept E.key_of (hashing_of E.eq E.hash_input S.BuildHasher
        S.Hasher.Hasher state) s (filed x.table) (filed y.table) same is };

    ghost apart = { λ x state s is. is.in_sync.apart };

    ghost modified = { λ x state s ix was item is. Indexes-key_kept E.key_of E.eq E.hash_input S.BuildHasher
        S.Hasher.Hasher E.laws E.respects_eq state s (filed x.table) is ix was item };

    ghost same_items = { λ x state s t have is. Indexes-keys_shared E.key_of E.eq E.hash_input S.BuildHasher
        S.Hasher.Hasher E.laws E.respects_eq state s (filed x.table) is t have };

    ghost equivalence = { shares_laws E.key_of E.eq E.laws };
}

impl<T, S, E> PlanLaws<T, S> for ByHashOf<E>
where
    E: HashKey<T>,
    S: BuildHasher,
{
    ghost use Rattle.std.proofs.Common.{refl};
    ghost use Rattle.iddqd_map.specs.Map.{shares};
    ghost use Rattle.iddqd_map.specs.OneKeyLaws.{reported_one, few_one};

    ghost reported = { λ s item at is ix. reported_one s (shares E.key_of E.eq item) at is ix };

    ghost reported_some = { λ s item at is. (at, refl) };

    ghost few_reported = { few_one };

    ghost same_plans = { λ x y state s item plan same is. is };
}

impl<T, S, E> Moves<T, S> for ByHashOf<E>
where
    E: HashKey<T>,
    S: BuildHasher,
{
    ghost use Rattle.std.specs.Prelude.{◌≢◌, Some};
    ghost use Rattle.iddqd_map.specs.Hashed.{moves};
    ghost use Rattle.iddqd_map.specs.Indexing.{Plans};
    ghost use Rattle.iddqd_map.specs.Map.{shares};

    type Taken = ItemIndex;

    type MovePlan = Move;

    type MoveBlocks = ();

    ghost taken = { λ s ix item at. (at ≢ ix) × AnswersScan s (shares E.key_of E.eq item) (Some at) };

    ghost is_move = { λ state s ix item plan. Plans E.key_of (hashing_of E.eq E.hash_input S.BuildHasher
        S.Hasher.Hasher state) s ix item plan };

    ghost moves = { moves };

    ghost are_none = { λ blocks. Unit {0} };

    ghost are_enough_for = { λ x plan blocks. Unit {0} };

    fn no_hashes() -> Option<MapHash> {
        None
    }

    fn plan_move(
        &self,
        items: &ItemSet<T>,
        state: &S,
        ix: ItemIndex,
        item: &T,
    ) -> Result<Move, ItemIndex> {
        plan_move::<T, E, S>(&self.table, items, state, ix, item)
    }

    fn blocks_for(&self, items: &ItemSet<T>, state: &S, plan: &Move) -> Result<(), AllocError> {
        Ok(())
    }

    fn commit_move(
        &mut self,
        items: &ItemSet<T>,
        state: &S,
        known: Option<MapHash>,
        plan: &Move,
        blocks: (),
        ix: ItemIndex,
        item: &T,
    ) {
        hashed_steps::commit_move::<T, E, S>(&mut self.table, items, state, known, plan, ix);
    }
}

impl<T, S, E> Empty<T, S> for ByHashOf<E>
where
    E: HashKey<T>,
    S: BuildHasher,
{
    fn new(alloc: Global) -> ByHashOf<E> {
        ByHashOf {
            table: hashed_steps::new(alloc),
            of: PhantomData,
        }
    }
}

impl<T, S, E> Upkeep<T, S> for ByHashOf<E>
where
    E: HashKey<T>,
    S: BuildHasher,
{
    fn capacity(&self) -> usize {
        self.table.capacity()
    }

    fn with_capacity(alloc: Global, wanted: usize) -> Result<ByHashOf<E>, AllocError> {
        Ok(ByHashOf {
            table: MapHashTable::with_capacity(alloc, wanted)?,
            of: PhantomData,
        })
    }

    fn reserve(
        &mut self,
        items: &ItemSet<T>,
        state: &S,
        additional: usize,
    ) -> Result<(), AllocError> {
        hashed_steps::reserve(&mut self.table, items, additional)
    }

    fn shrink_to(&mut self, items: &ItemSet<T>, state: &S, least: usize) -> Result<(), AllocError> {
        hashed_steps::shrink_to(&mut self.table, items, least)
    }

    fn clear(&mut self) {
        self.table.clear();
    }

    fn remap(&mut self, remap: &IndexRemap) {
        hashed_steps::remap::<T>(&mut self.table, remap);
    }

    fn copied(&self) -> Result<ByHashOf<E>, AllocError> {
        Ok(ByHashOf {
            table: self.table.clone()?,
            of: PhantomData,
        })
    }

    fn validate(
        &self,
        items: &ItemSet<T>,
        state: &S,
        compactness: ValidateCompact,
    ) -> Result<(), ValidateRefusal<ValidationError>> {
        hashed_steps::validate(&self.table, items, compactness)
    }
}

impl<T, S, E> ComparesKeys<T, S> for ByHashOf<E>
where
    E: HashKey<T>,
    S: BuildHasher,
{
    fn is_same(item: &T, other: &T) -> bool {
        E::is_same(item, other)
    }
}

impl<T, S, E> FindsSame<T, S> for ByHashOf<E>
where
    E: HashKey<T>,
    S: BuildHasher,
{
    ghost same_are_alike = { λ x y same. same };

    fn find_same(&self, items: &ItemSet<T>, state: &S, item: &T) -> Option<ItemIndex> {
        find_item::<T, E, S>(
            &self.table,
            items,
            state,
            hash_of::<T, E, S>(state, item),
            item,
        )
    }
}

impl<T, S, E> ReportsAt<Here, T, S> for ByHashOf<E>
where
    E: HashKey<T>,
    S: BuildHasher,
{
    ghost use Rattle.iddqd_map.specs.Map.{shares};

    ghost alike_at = { shares E.key_of E.eq };

    ghost alike_there = { λ x y shares. shares };

    fn reported_at(conflict: &ItemIndex) -> Option<ItemIndex> {
        Some(*conflict)
    }
}

impl<T, S, E, Q> UniqueAt<Here, Q, T, S> for ByHashOf<E>
where
    E: HashKey<T>,
    S: BuildHasher,
    Q: ItemHashQuery<T, E>,
{
    ghost use Rattle.std.specs.Prelude.{IsSome};

    ghost stands_for = { Q.stands_for_item };

    ghost has_hash = { λ known. IsSome known };

    fn find(
        &self,
        items: &ItemSet<T>,
        state: &S,
        query: Q,
    ) -> (Option<ItemIndex>, Option<MapHash>) {
        let hash = query_hash::<T, E, S, Q>(state, query);
        let found = find_under::<T, E, S, Q>(&self.table, items, state, hash, query);
        (found, Some(hash))
    }
}

impl<T, S, E, Q> TakesAt<Here, Q, T, S> for ByHashOf<E>
where
    E: HashKey<T>,
    S: BuildHasher,
    Q: ItemHashQuery<T, E>,
{
    fn take(&mut self, items: &ItemSet<T>, state: &S, query: Q) -> Option<ItemIndex> {
        take_by::<T, E, S, Q>(&mut self.table, items, state, query)
    }
}
