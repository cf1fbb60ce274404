//! A key index by a key that several items may have: each index is filed under the hash of its item's key.
//!
//! It refuses no item for its key, so an insert compares no keys. A removal computes no hash, since the table keeps
//! that of each index.
//!
//! Invariants, of a table that indexes a store under the state of a hasher:
//!
//! 1. it has exactly the live indexes;
//! 2. each of them is filed under the hash that its item's key has under this state;
//! 3. it has a link for each slot of the store, and no other. So the index of a vacant slot is inserted without memory
//!    for a link, and what a shrink leaves is bounded by the store's slots.
//!
//! So a look-up, which hashes once, finds an item with the key if and only if there is one. Keys are not copied: the
//! table has hashes and indexes alone.
//!
//! One index of each hash stands in a hash table, and the others under that hash are linked behind it. So an insert and
//! a removal cost the same however many items have the key, and the links take 16 bytes for each slot.
ghost use Rattle.std.specs.Prelude.{◌≡◌, false};
ghost use Rattle.iddqd.specs.{live_count};
ghost use Rattle.iddqd_by_hash.specs.Hashed.{hashing_of};
ghost use Rattle.iddqd_map.specs.Groups.{AreHits};

use crate::group_modify::modify_group;
use crate::group_query::group_by;
use crate::group_steps::{find_any, next_in_group, take_in_group};
pub use crate::hashed_group::Group;
use crate::linked_steps;
use crate::linked_table::LinkedTable;
use iddqd::index_remap::IndexRemap;
use iddqd::internal::{ValidateCompact, ValidateRefusal, ValidationError};
use iddqd::item_index::ItemIndex;
use iddqd::item_set::ItemSet;
use iddqd::map_hash::MapHash;
use iddqd_by_hash::hashed_item::hash_of;
use iddqd_by_hash::hashed_move::Move;
use iddqd_keys::hash_key::HashKey;
use iddqd_keys::item_hash_query::ItemHashQuery;
use iddqd_keys::key_kinds::Field;
use iddqd_map::grouped_at::{GroupedAt, StepsInGroup};
use iddqd_map::hashed_plan::move_of;
use iddqd_map::key_index::{
    Changes, ComparesKeys, Empty, Here, IndexLaws, KeyIndex, Moves, PlanLaws, Upkeep,
};
use iddqd_map::map::Parts;
pub use iddqd_map::no_conflict::NoConflict;
use std::alloc::{AllocError, Global};
use std::hash::BuildHasher;
use std::marker::PhantomData;

/// A table of hashes by the key that `E` names, which several items may have.
///
/// A look-up hashes the query once, and compares it with keys of the same hash alone. Only `with_capacity`, `reserve`,
/// `make_room`, `shrink_to`, `copied` and `validate`, which sorts a copy of the indexes, take memory, and only they can
/// run out of it. An insert and a removal cost the same however many indexes stand under the same hash.
#[derive(Drop)]
pub struct ByHashMultiOf<E> {
    // Each live index, under the hash of its item's key. The slots that have a link are those of the store.
    pub(crate) table: LinkedTable,
    of: PhantomData<E>,
}

/// A table of hashes by the field, a `K`, that `E` borrows from the item. Several items may have it.
pub type ByHashMulti<E, K> = ByHashMultiOf<Field<E, K>>;

impl<E> ByHashMultiOf<E> {
    /// The indexes whose items have the key for which the query stands, each once, in no order that a caller can rely
    /// on, in the parts of a map that has this key: `ByHashMultiOf::group(map.parts().left(), &customer)`.
    ///
    /// It hashes the query once, and compares it with keys of the same hash alone, with none twice. It takes no memory.
    ///
    /// Cost: one look-up, which compares only keys of the same hash, each once, as the indexes are read; takes no
    /// memory.
    pub fn group<'a, T, S, Q>(
        parts: Parts<'a, T, ByHashMultiOf<E>, S>,
        query: Q,
    ) -> Group<'a, T, E, Q>
    where
        E: HashKey<T>,
        S: BuildHasher,
        Q: ItemHashQuery<T, E>,
        ensures hits { AreHits parts.entry (Q.stands_for_item query) result.rest }
        ensures bound { result.bound ≡ live_count parts.entry }
    {
        let Parts {
            items,
            indexes,
            state,
        } = parts;
        group_by::<T, E, S, Q>(&indexes.table, items, state, query)
    }
}

impl<T, S, E> KeyIndex<T, S> for ByHashMultiOf<E>
where
    E: HashKey<T>,
    S: BuildHasher,
{
    ghost use Rattle.iddqd_groups.specs.LinkedTable.{most_linked, kept_linked, needed_linked};
    ghost use Rattle.iddqd_groups.specs.ByHashMulti.{FilesWithin, HasSameIndexes};
    ghost use Rattle.iddqd_map.specs.Map.{shares};
    ghost use Rattle.iddqd_map.specs.NoConflict.{never_alike};

    type KnownHashes = ();

    ghost Keys = { E.Key };

    ghost keys = { E.key_of };

    ghost alike = { never_alike };

    ghost same_keys = { shares E.key_of E.eq };

    ghost indexes = { λ x state s. FilesWithin E.key_of (hashing_of E.eq E.hash_input S.BuildHasher
        S.Hasher.Hasher state) s x.table };

    ghost are_known = { λ state item known. Unit {0} };

    ghost capacity = { λ x. x.table.capacity };

    ghost cells = { λ x. x.table.memory };

    ghost most = { most_linked };

    ghost grown = { most_linked };

    ghost kept = { kept_linked };

    ghost needed = { needed_linked };

    ghost may_need_memory = { false };

    ghost same = { λ x y. HasSameIndexes x.table y.table };

    ghost unique_keys = { 0 };
}

impl<T, S, E> Changes<T, S> for ByHashMultiOf<E>
where
    E: HashKey<T>,
    S: BuildHasher,
{
    ghost use Rattle.std.specs.FinMap as finite;
    ghost use Rattle.std.specs.Prelude.{◌<◌};

    type Conflict = NoConflict;

    type Hashes = MapHash;

    type Position = ();

    type InsertPlan = ();

    type Blocks = ();

    ghost conflicts = { λ s item at. ⊥ };

    ghost reports = { λ at ix. ⊥ };

    ghost are_hashes = { λ state item hash. hash ≡ (hashing_of E.eq E.hash_input S.BuildHasher
        S.Hasher.Hasher state).hash_of (E.key_of item) };

    ghost is_position = { λ x state s item position. Unit {0} };

    ghost is_planned = { λ x state s item plan. Unit {0} };

    ghost has_room_for = { λ x plan blocks. finite.len x.table.filed < x.table.capacity };

    ghost are_none = { λ blocks. Unit {0} };

    ghost are_enough_after = { λ x blocks. Unit {0} };

    fn hashes(state: &S, item: &T) -> MapHash {
        hash_of::<T, E, S>(state, item)
    }

    fn look_up(
        &self,
        items: &ItemSet<T>,
        state: &S,
        hashes: MapHash,
        item: &T,
    ) -> Result<(), NoConflict> {
        Ok(())
    }

    fn plan(&self, items: &ItemSet<T>, state: &S, position: (), ix: ItemIndex, item: &T) {}

    fn make_room(&mut self, items: &ItemSet<T>, state: &S, plan: &()) -> Result<(), AllocError> {
        linked_steps::reserve(&mut self.table, items, 1)
    }

    fn insert(&mut self, hashes: MapHash, plan: &(), blocks: (), ix: ItemIndex) {
        self.table.insert(hashes, ix);
    }

    fn next_reported(conflict: &NoConflict, before: Option<ItemIndex>) -> Option<ItemIndex> {
        None
    }

    fn position(&self, items: &ItemSet<T>, state: &S, hashes: MapHash, item: &T) {}

    fn blocks_after(&self, items: &ItemSet<T>, state: &S) -> Result<(), AllocError> {
        Ok(())
    }

    fn remove(&mut self, items: &ItemSet<T>, state: &S, ix: ItemIndex) {
        self.table.remove(ix);
    }
}

impl<T, S, E> IndexLaws<T, S> for ByHashMultiOf<E>
where
    E: HashKey<T>,
    S: BuildHasher,
{
    ghost use Rattle.std.proofs.Common.{refl};
    ghost use Rattle.iddqd_hash.proofs.LeastCellsLemmas.{least_cells-grows};
    ghost use Rattle.iddqd_map.specs.PairLaws.{sum_grows};
    ghost use Rattle.iddqd_groups.specs.ByHashMultiLaws.{FilesWithin-kept, FilesWithin-key_kept, FilesWithin-keys_shared};
    ghost use Rattle.iddqd_map.specs.HashLaws.{shares_laws};
    ghost use Rattle.iddqd_map.specs.NoConflict.{never_apart};

    ghost needed_grows = { λ slots more_slots count more wider up.
        sum_grows (least_cells-grows count more up) wider };

    ghost kept_none = { refl };

    ghost same_as_itself = { λ x. record { filed = refl; slots = refl } };

    ghost same_indexes = { λ x y state s same is. FilesWithin-kept E.key_of (hashing_of E.eq E.hash_input S.BuildHasher
        S.Hasher.Hasher state) s x.table y.table same is };

    ghost apart = { λ x state s is. never_apart s };

    ghost modified = { λ x state s ix was item is. FilesWithin-key_kept E.key_of E.eq E.hash_input
        S.BuildHasher S.Hasher.Hasher E.laws E.respects_eq state s x.table is ix was item };

    ghost same_items = { λ x state s t have is. FilesWithin-keys_shared E.key_of E.eq E.hash_input
        S.BuildHasher S.Hasher.Hasher E.laws E.respects_eq state s x.table is t have };

    ghost equivalence = { shares_laws E.key_of E.eq E.laws };
}

impl<T, S, E> PlanLaws<T, S> for ByHashMultiOf<E>
where
    E: HashKey<T>,
    S: BuildHasher,
{
    ghost use Rattle.iddqd_map.specs.NoConflict.{none_named};

    ghost reported = { λ s item at conflicts ix. absurd conflicts };

    ghost reported_some = { λ s item at conflicts. absurd conflicts };

    ghost few_reported = { λ at. none_named };

    ghost same_plans = { λ x y state s item plan same is. is };
}

impl<T, S, E> Moves<T, S> for ByHashMultiOf<E>
where
    E: HashKey<T>,
    S: BuildHasher,
{
    ghost use Rattle.iddqd_map.specs.Files.{IsMoveFor};
    ghost use Rattle.iddqd_map.specs.Hashed.{moves};

    type Taken = NoConflict;

    type MovePlan = Move;

    type MoveBlocks = ();

    ghost taken = { λ s ix item at. ⊥ };

    ghost is_move = { λ state s ix item plan. IsMoveFor E.key_of (hashing_of E.eq E.hash_input S.BuildHasher
        S.Hasher.Hasher state) s ix item plan };

    ghost moves = { moves };

    ghost are_none = { λ blocks. Unit {0} };

    ghost are_enough_for = { λ x plan blocks. Unit {0} };

    fn no_hashes() {}

    fn plan_move(
        &self,
        items: &ItemSet<T>,
        state: &S,
        ix: ItemIndex,
        item: &T,
    ) -> Result<Move, NoConflict> {
        Ok(move_of::<T, E, S>(items, state, ix, item))
    }

    fn blocks_for(&self, items: &ItemSet<T>, state: &S, plan: &Move) -> Result<(), AllocError> {
        Ok(())
    }

    fn commit_move(
        &mut self,
        items: &ItemSet<T>,
        state: &S,
        known: (),
        plan: &Move,
        blocks: (),
        ix: ItemIndex,
        item: &T,
    ) {
        linked_steps::commit_move(&mut self.table, items, plan, ix);
    }
}

impl<T, S, E> Empty<T, S> for ByHashMultiOf<E>
where
    E: HashKey<T>,
    S: BuildHasher,
{
    fn new(alloc: Global) -> ByHashMultiOf<E> {
        ByHashMultiOf {
            table: LinkedTable::new(alloc),
            of: PhantomData,
        }
    }
}

impl<T, S, E> Upkeep<T, S> for ByHashMultiOf<E>
where
    E: HashKey<T>,
    S: BuildHasher,
{
    fn capacity(&self) -> usize {
        self.table.capacity()
    }

    fn with_capacity(alloc: Global, wanted: usize) -> Result<ByHashMultiOf<E>, AllocError> {
        Ok(ByHashMultiOf {
            table: LinkedTable::with_capacity(alloc, wanted)?,
            of: PhantomData,
        })
    }

    fn reserve(
        &mut self,
        items: &ItemSet<T>,
        state: &S,
        additional: usize,
    ) -> Result<(), AllocError> {
        linked_steps::reserve(&mut self.table, items, additional)
    }

    fn shrink_to(&mut self, items: &ItemSet<T>, state: &S, least: usize) -> Result<(), AllocError> {
        linked_steps::shrink_to(&mut self.table, items, least)
    }

    fn clear(&mut self) {
        self.table.clear();
    }

    fn remap(&mut self, remap: &IndexRemap) {
        linked_steps::remap::<T>(&mut self.table, remap);
    }

    fn copied(&self) -> Result<ByHashMultiOf<E>, AllocError> {
        Ok(ByHashMultiOf {
            table: self.table.clone()?,
            of: PhantomData,
        })
    }

    fn validate(
        &self,
        items: &ItemSet<T>,
        state: &S,
        compactness: ValidateCompact,
    ) -> Result<(), ValidateRefusal<ValidationError>> {
        linked_steps::validate(&self.table, items, compactness)
    }
}

impl<T, S, E> ComparesKeys<T, S> for ByHashMultiOf<E>
where
    E: HashKey<T>,
    S: BuildHasher,
{
    fn is_same(item: &T, other: &T) -> bool {
        E::is_same(item, other)
    }
}

impl<T, S, E, Q> GroupedAt<Here, Q, T, S> for ByHashMultiOf<E>
where
    E: HashKey<T>,
    S: BuildHasher,
    Q: ItemHashQuery<T, E>,
{
    ghost use Rattle.iddqd_groups.specs.HashedGroup.{hits_behind};

    ghost stands_for = { Q.stands_for_item };

    ghost behind = { λ x s query ix. hits_behind x.table s (Q.stands_for_item query) ix };

    fn find_any(&self, items: &ItemSet<T>, state: &S, query: Q) -> Option<ItemIndex> {
        find_any::<T, E, S, Q>(&self.table, items, state, query)
    }
}

impl<T, S, E, Q> StepsInGroup<Here, Q, T, S> for ByHashMultiOf<E>
where
    E: HashKey<T>,
    S: BuildHasher,
    Q: ItemHashQuery<T, E>,
{
    fn next_in_group(
        &self,
        items: &ItemSet<T>,
        state: &S,
        query: Q,
        ix: ItemIndex,
    ) -> Option<ItemIndex> {
        next_in_group::<T, E, Q>(&self.table, items, &query, ix)
    }

    fn take_in_group(
        &mut self,
        items: &ItemSet<T>,
        state: &S,
        query: Q,
        ix: ItemIndex,
    ) -> Option<ItemIndex> {
        take_in_group::<T, E, Q>(&mut self.table, items, &query, ix)
    }

    fn modify_group<F: FnMut(&mut T)>(
        &self,
        items: &mut ItemSet<T>,
        state: &S,
        query: Q,
        f: &mut F,
    ) -> usize {
        modify_group::<T, E, S, Q, F>(&self.table, items, state, query, f)
    }
}
