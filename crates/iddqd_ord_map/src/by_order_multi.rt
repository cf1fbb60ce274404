//! A key index in the order of a key that several items may have: the items' indexes in a sorted list, those with equal
//! keys by index.
//!
//! It refuses no item for its key, so an insert searches once: for the place of its index among those with an equal
//! key. Below the capacity it needs no blocks.
//!
//! Invariants, given the store's items:
//! 1. The list has exactly the live indexes, each once.
//! 2. It is sorted by the keys of their items, and by index if these are equal.
//!
//! It is one file, since it is an impl of each trait of key indexes, and no impl can be split.
ghost use Rattle.std.specs.Prelude.{◌≡◌, ◌<◌, ◌≤◌, ℕ, IfSome, IsOk, IfOk, OnErr};
ghost use Rattle.iddqd.specs.{live_count, next_index, removed, IsValid};
ghost use Rattle.iddqd_order.specs.Gap.{gap_blocks};
ghost use Rattle.iddqd_order.specs.Spot.{StandsAt};
ghost use Rattle.iddqd_order.specs.declared.btree_table.spot.Spot.{Spot as SpotInTable};
ghost use Rattle.iddqd_order.specs.MapBTreeTable.{order_of};
ghost use Rattle.iddqd_ord_map.specs.ByOrderMulti.{IsOwnGapFor};
ghost use Rattle.iddqd_by_order.specs.Ordered.{IsSortedScan};
ghost use Rattle.iddqd_keys.specs.Scan.{IsLive, IsKeyAt};
ghost use Rattle.iddqd_keys.specs.KeyWalk.{IsFirstHit, IsNextHit};
ghost use Rattle.iddqd_keys.specs.OrderedQuery.{is_up_to, is_within};
ghost use Rattle.iddqd_map.specs.Ranges.{itself};
ghost use Rattle.iddqd_ord_map.specs.OrderedSteps.{reserved_for};
ghost use Rattle.std.specs.Option.{option_map};
ghost use Rattle.std.specs.Ordering.{on};
ghost use Rattle.std.specs.Range.Bound.{bound_map};

use crate::ordered_move::Move;
use crate::ordered_steps;
use iddqd::index_remap::IndexRemap;
use iddqd::internal::{ValidateCompact, ValidateRefusal, ValidationError};
use iddqd::item_index::ItemIndex;
use iddqd::item_set::ItemSet;
use iddqd_by_order::ordered_next::{first_between, next_between, take_between};
use iddqd_keys::bounds::Bounds;
use iddqd_keys::item_order_query::ItemRangeQuery;
use iddqd_keys::key_kinds::Field;
use iddqd_keys::key_of::{Itself, key_at};
use iddqd_keys::order_key::OrdKey;
use iddqd_map::key_index::{
    Changes, ComparesKeys, Empty, Here, IndexLaws, KeyIndex, Moves, OrderedAt, PlanLaws, StepsAt,
    Upkeep,
};
pub use iddqd_map::no_conflict::NoConflict;
use iddqd_order::btree_table::{Asking, Blocks, Gap, MapBTreeTable, Spot};
use std::alloc::{AllocError, Global};
use std::cmp::Ordering;
use std::marker::PhantomData;

/// A key index in the order of a field that several items may share: of the key, a `K`, that `E` borrows from an item.
pub type ByOrderMulti<E, K> = ByOrderMultiOf<Field<E, K>>;

/// A key index in the order of the key `E`, which several items may have.
#[derive(Drop)]
pub struct ByOrderMultiOf<E> {
    pub(crate) table: MapBTreeTable,
    of: PhantomData<E>,
}

// The place of the next index under an item's key.
fn place_of<T, E>(table: &MapBTreeTable, items: &ItemSet<T>, ix: ItemIndex, item: &T) -> Gap
where
    E: OrdKey<T>,
    requires valid { IsValid items.now.store }
    requires sorted { IsSortedScan E.key_of E.cmp items.now.store (order_of table.now) }
    requires next { ix ≡ next_index items.now.store }
    ensures { IsOwnGapFor E.key_of E.cmp items.now.store table.now item.now result }
{
    let mut asking = Asking::new(
        |at: ItemIndex| -> Ordering
            requires { IsLive items.now.store at }
            ensures { IsKeyAt (λ other. E.cmp (E.key_of item.entry.now) (E.key_of other)) items.entry.now.store at
                result }
        { E::compare(item, key_at::<T, Itself>(items, at)) },
    );
    table.find_own_gap_by(ix, &mut asking)
}

impl<T, S, E> KeyIndex<T, S> for ByOrderMultiOf<E>
where
    E: OrdKey<T>,
{
    ghost use Rattle.std.specs.Prelude.{true};
    ghost use Rattle.std.specs.Ordering.{eq_by_cmp};
    ghost use Rattle.iddqd_order.specs.MapBTreeTable.{HasSameTree};
    ghost use Rattle.iddqd_map.specs.Map.{shares};
    ghost use Rattle.iddqd_map.specs.NoConflict.{never_alike};
    ghost use Rattle.iddqd_ord_map.specs.OrderedSteps.{reserved_for, most_cells};

    type KnownHashes = ();

    ghost Keys = { E.Key };

    ghost keys = { E.key_of };

    ghost alike = { never_alike };

    ghost same_keys = { shares E.key_of (eq_by_cmp E.cmp) };

    ghost indexes = { λ x state s. IsSortedScan E.key_of E.cmp s (order_of x.table) };

    ghost are_known = { λ state item known. Unit {0} };

    ghost capacity = { λ x. reserved_for x.table };

    ghost cells = { λ x. reserved_for x.table };

    ghost most = { most_cells };

    ghost grown = { λ count. 0 };

    ghost kept = { λ slots count. most_cells count };

    ghost needed = { λ slots count. count };

    ghost may_need_memory = { true };

    ghost same = { λ x y. HasSameTree x.table y.table };

    ghost unique_keys = { 0 };
}

impl<T, S, E> Changes<T, S> for ByOrderMultiOf<E>
where
    E: OrdKey<T>,
{
    ghost use Rattle.iddqd_ord_map.specs.OrderedSteps.{HasBlocksAt, HasBlocksAnywhere};
    ghost use Rattle.iddqd_ord_map.specs.ByOrderMulti.{IsOwnGapFor};

    type Conflict = NoConflict;

    type Hashes = ();

    type Position = ();

    type InsertPlan = Gap;

    type Blocks = Blocks;

    ghost conflicts = { λ s item at. ⊥ };

    ghost reports = { λ at ix. ⊥ };

    ghost are_hashes = { λ state item hashes. Unit {0} };

    ghost is_position = { λ x state s item position. Unit {0} };

    ghost is_planned = { λ x state s item gap. IsOwnGapFor E.key_of E.cmp s x.table item gap };

    ghost are_none = { λ blocks. blocks ≡ 0 };

    ghost has_room_for = { λ x gap blocks. HasBlocksAt x.table blocks gap };

    ghost are_enough_after = { λ x blocks. HasBlocksAnywhere x.table blocks };

    fn hashes(state: &S, item: &T) {}

    fn look_up(
        &self,
        items: &ItemSet<T>,
        state: &S,
        hashes: (),
        item: &T,
    ) -> Result<(), NoConflict> {
        Ok(())
    }

    fn plan(&self, items: &ItemSet<T>, state: &S, position: (), ix: ItemIndex, item: &T) -> Gap {
        place_of::<T, E>(&self.table, items, ix, item)
    }

    // It takes no more blocks than the insert needs. The trait doesn't say so, since other key indexes have no blocks.
    fn make_room(&mut self, items: &ItemSet<T>, state: &S, plan: &Gap) -> Result<Blocks, AllocError>
        requires indexed { IsSortedScan E.key_of E.cmp items.now.store (order_of self.old.table) }
        ensures same { self.new ≡ self.old }
        ensures ready { IfOk result (λ blocks. HasBlocksAt self.new.table blocks plan.now) }
        ensures few_blocks { IfOk result (λ blocks. blocks ≤ gap_blocks self.old.table plan.now) }
        ensures needed { OnErr result (0 < gap_blocks self.old.table plan.now) }
        ensures had_room { live_count items.now.store < reserved_for self.old.table → IsOk result }
        ensures none { live_count items.now.store < reserved_for self.old.table → IfOk result (λ blocks. blocks ≡ 0) }
    {
        ordered_steps::blocks_at(&self.table, items, plan)
    }

    fn insert(&mut self, hashes: (), plan: &Gap, blocks: Blocks, ix: ItemIndex) {
        self.table.insert_in(plan, ix, blocks);
    }

    fn next_reported(conflict: &NoConflict, before: Option<ItemIndex>) -> Option<ItemIndex> {
        None
    }

    fn position(&self, items: &ItemSet<T>, state: &S, hashes: (), item: &T) {}

    fn blocks_after(&self, items: &ItemSet<T>, state: &S) -> Result<Blocks, AllocError> {
        ordered_steps::blocks_anywhere(&self.table, items)
    }

    fn remove(&mut self, items: &ItemSet<T>, state: &S, ix: ItemIndex) {
        ordered_steps::remove_live::<T, E>(&mut self.table, items, ix);
    }
}

impl<T, S, E> IndexLaws<T, S> for ByOrderMultiOf<E>
where
    E: OrdKey<T>,
{
    ghost use Rattle.std.proofs.Common.{refl};
    ghost use Rattle.iddqd_map.specs.NoConflict.{never_apart};
    ghost use Rattle.iddqd_ord_map.specs.SortedScanLaws.{IsSortedScan-same_tree, IsSortedScan-modified, IsSortedScan-alike, shares_equivalence};

    ghost needed_grows = { λ slots more_slots count more wider up. up };

    ghost kept_none = { refl };

    ghost same_as_itself = { λ x. record { root = refl; height = refl } };

    ghost same_indexes = { λ x y state s same is.
        IsSortedScan-same_tree E.key_of E.cmp s x.table y.table same is };

    ghost apart = { λ x state s is. never_apart s };

    ghost modified = { λ x state s ix was item is live same.
        IsSortedScan-modified E.key_of E.cmp E.total s (order_of x.table) is ix item was live same };

    ghost same_items = { λ x state s t same is.
        IsSortedScan-alike E.key_of E.cmp E.total s t same (order_of x.table) is };

    ghost equivalence = { shares_equivalence E.key_of E.cmp E.total };
}

impl<T, S, E> PlanLaws<T, S> for ByOrderMultiOf<E>
where
    E: OrdKey<T>,
{
    ghost use Rattle.iddqd_map.specs.NoConflict.{none_named};
    ghost use Rattle.iddqd_ord_map.specs.ByOrderMultiLaws.{IsOwnGapFor-same_tree};

    ghost reported = { λ s item at conflicts ix. absurd conflicts };

    ghost reported_some = { λ s item at conflicts. absurd conflicts };

    ghost few_reported = { λ at. none_named };

    ghost same_plans = { λ x y state s item gap same is.
        IsOwnGapFor-same_tree E.key_of E.cmp s x.table y.table item gap same is };
}

impl<T, S, E> Moves<T, S> for ByOrderMultiOf<E>
where
    E: OrdKey<T>,
{
    ghost use Rattle.iddqd_ord_map.specs.OrderedSteps.{HasBlocksFor, moves};
    ghost use Rattle.iddqd_ord_map.specs.ByOrderMulti.{IsMoveFor};

    type Taken = NoConflict;

    type MovePlan = Move;

    type MoveBlocks = Blocks;

    ghost taken = { λ s ix item at. ⊥ };

    ghost is_move = { λ state s ix item plan. IsMoveFor E.key_of E.cmp s ix item plan };

    ghost moves = { moves };

    ghost are_none = { λ blocks. blocks ≡ 0 };

    ghost are_enough_for = { λ x plan blocks. HasBlocksFor x.table blocks plan };

    fn no_hashes() {}

    fn plan_move(
        &self,
        items: &ItemSet<T>,
        state: &S,
        ix: ItemIndex,
        item: &T,
    ) -> Result<Move, NoConflict> {
        if E::compare(item, key_at::<T, Itself>(items, ix)).is_eq() {
            return Ok(Move::Stays);
        }
        Ok(Move::Moves)
    }

    fn blocks_for(&self, items: &ItemSet<T>, state: &S, plan: &Move) -> Result<Blocks, AllocError> {
        ordered_steps::blocks_for(&self.table, items, plan)
    }

    fn commit_move(
        &mut self,
        items: &ItemSet<T>,
        state: &S,
        known: (),
        plan: &Move,
        blocks: Blocks,
        ix: ItemIndex,
        item: &T,
    ) {
        ordered_steps::commit_move::<T, E>(&mut self.table, items, plan, blocks, ix, item);
    }
}

impl<T, S, E> Empty<T, S> for ByOrderMultiOf<E>
where
    E: OrdKey<T>,
{
    fn new(alloc: Global) -> ByOrderMultiOf<E> {
        ByOrderMultiOf {
            table: MapBTreeTable::new(alloc),
            of: PhantomData,
        }
    }
}

impl<T, S, E> Upkeep<T, S> for ByOrderMultiOf<E>
where
    E: OrdKey<T>,
{
    fn capacity(&self) -> usize {
        ordered_steps::capacity(&self.table)
    }

    fn with_capacity(alloc: Global, wanted: usize) -> Result<ByOrderMultiOf<E>, AllocError> {
        Ok(ByOrderMultiOf {
            table: ordered_steps::with_capacity(alloc, wanted)?,
            of: PhantomData,
        })
    }

    fn reserve(
        &mut self,
        items: &ItemSet<T>,
        state: &S,
        additional: usize,
    ) -> Result<(), AllocError> {
        ordered_steps::reserve(&mut self.table, items, additional)
    }

    fn shrink_to(&mut self, items: &ItemSet<T>, state: &S, least: usize) -> Result<(), AllocError> {
        ordered_steps::shrink_to(&mut self.table, items, least);
        Ok(())
    }

    fn clear(&mut self) {
        self.table.clear();
    }

    fn remap(&mut self, remap: &IndexRemap) {
        ordered_steps::remap::<T>(&mut self.table, remap);
    }

    fn copied(&self) -> Result<ByOrderMultiOf<E>, AllocError> {
        Ok(ByOrderMultiOf {
            table: self.table.clone()?,
            of: PhantomData,
        })
    }

    fn validate(
        &self,
        items: &ItemSet<T>,
        state: &S,
        compactness: ValidateCompact,
    ) -> Result<(), ValidateRefusal<ValidationError>> {
        ordered_steps::validate(&self.table, items, compactness)
    }
}

impl<T, S, E> ComparesKeys<T, S> for ByOrderMultiOf<E>
where
    E: OrdKey<T>,
{
    fn is_same(item: &T, other: &T) -> bool {
        E::compare(item, other) == Ordering::Equal
    }
}

impl<T, S, E, Q> OrderedAt<Here, Q, T, S> for ByOrderMultiOf<E>
where
    E: OrdKey<T>,
    Q: ItemRangeQuery<T, E>,
{
    ghost order = { on E.key_of E.cmp };

    ghost compare = { Q.compare_item };
}

impl<T, S, E, Q> StepsAt<Here, Q, T, S> for ByOrderMultiOf<E>
where
    E: OrdKey<T>,
    Q: ItemRangeQuery<T, E>,
{
    ghost use Rattle.std.proofs.lemmas.Cmp.{on_total};
    ghost use Rattle.iddqd_ord_map.specs.SortedScanLaws.{tied_by_key};

    type Spot = Spot;

    ghost stands = { λ x spot ix. StandsAt x.table spot ix };

    fn first_between(
        &self,
        items: &ItemSet<T>,
        state: &S,
        bounds: &Bounds<Q>,
    ) -> Option<(ItemIndex, Spot)> {
        first_between::<T, E, Q>(&self.table, items, bounds)
    }

    fn next_between(
        &self,
        items: &ItemSet<T>,
        state: &S,
        spot: &mut Spot,
        ix: ItemIndex,
        bounds: &Bounds<Q>,
    ) -> Option<ItemIndex> {
        next_between::<T, E, Q>(&self.table, items, spot, bounds)
    }

    fn take_between(
        &mut self,
        items: &ItemSet<T>,
        state: &S,
        spot: &mut Spot,
        ix: ItemIndex,
        bounds: &Bounds<Q>,
    ) -> Option<ItemIndex> {
        take_between::<T, E, Q>(&mut self.table, items, spot, bounds)
    }

    ghost total = { on_total E.key_of E.total };

    ghost fits = { Q.fits };

    ghost keys_tie = { tied_by_key E.key_of E.cmp E.total };
}
