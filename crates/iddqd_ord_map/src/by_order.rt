//! A key index in the order of one key: the items' indexes in a sorted list, no two with equal keys.
//!
//! An insert goes where its look-up ended, so it compares no further key. `make_room` takes the blocks of memory that
//! it needs; below the capacity it needs none.
//!
//! Invariants, given the store's items:
//! 1. The list has exactly the live indexes, each once.
//! 2. It is sorted by the keys of their items, and no two items have equal keys.
//!
//! It is one file, since it is an impl of each trait of key indexes, and no impl can be split.
ghost use Rattle.std.specs.Prelude.{◌≡◌, ◌<◌, ◌≤◌, ℕ, IfSome, IsOk, IfOk, OnErr};
ghost use Rattle.iddqd.specs.{live_count, removed};
ghost use Rattle.iddqd_order.specs.Gap.{gap_blocks};
ghost use Rattle.iddqd_order.specs.Spot.{StandsAt};
ghost use Rattle.iddqd_order.specs.declared.btree_table.spot.Spot.{Spot as SpotInTable};
ghost use Rattle.iddqd_order.specs.MapBTreeTable.{order_of};
ghost use Rattle.iddqd_ord_map.specs.ByOrder.{LooksPlaceUp};
ghost use Rattle.iddqd_ord_map.specs.OrderedIndexing.{Sorts};
ghost use Rattle.iddqd_by_order.specs.Ordered.{is_equal};
ghost use Rattle.iddqd_keys.specs.Scan.{AnswersScan, IsLive, IsKeyAt};
ghost use Rattle.iddqd_keys.specs.KeyWalk.{IsFirstHit, IsNextHit};
ghost use Rattle.iddqd_keys.specs.OrderedQuery.{is_up_to, is_within};
ghost use Rattle.iddqd_map.specs.KeyIndex.{IsNextReported};
ghost use Rattle.iddqd_map.specs.Ranges.{itself};
ghost use Rattle.iddqd_ord_map.specs.OrderedSteps.{reserved_for};
ghost use Rattle.std.specs.Option.{option_map};
ghost use Rattle.std.specs.Ordering.{on};
ghost use Rattle.std.specs.Range.Bound.{bound_map};

use crate::ordered_move::{Move, plan_move};
use crate::ordered_query::{find_by, take_by};
use crate::ordered_steps;
use iddqd::index_remap::IndexRemap;
use iddqd::internal::{ValidateCompact, ValidateRefusal, ValidationError};
use iddqd::item_index::ItemIndex;
use iddqd::item_set::ItemSet;
use iddqd_by_order::ordered_item::find_same;
use iddqd_by_order::ordered_next::{first_between, next_between, take_between};
use iddqd_keys::bounds::Bounds;
use iddqd_keys::item_order_query::{ItemOrdQuery, ItemRangeQuery};
use iddqd_keys::key_kinds::Field;
use iddqd_keys::key_of::{Itself, key_at};
use iddqd_keys::order_key::OrdKey;
use iddqd_map::key_index::{
    Changes, ComparesKeys, Empty, FindsSame, Here, IndexLaws, KeyIndex, Moves, OrderedAt, PlanLaws,
    ReportsAt, StepsAt, TakesAt, UniqueAt, Upkeep,
};
use iddqd_order::btree_table::{Asking, Blocks, Gap, MapBTreeTable, Spot};
use std::alloc::{AllocError, Global};
use std::cmp::Ordering;
use std::marker::PhantomData;

/// A key index in the order of a field: of the key, a `K`, that `E` borrows from an item.
pub type ByOrder<E, K> = ByOrderOf<Field<E, K>>;

/// A key index in the order of the key `E`.
#[derive(Drop)]
pub struct ByOrderOf<E> {
    pub(crate) table: MapBTreeTable,
    of: PhantomData<E>,
}

// The place of an item's key, or the index of the item that has it.
fn place_of<T, E>(table: &MapBTreeTable, items: &ItemSet<T>, item: &T) -> Result<Gap, ItemIndex>
where
    E: OrdKey<T>,
    requires { Sorts E.key_of E.cmp items.now.store (order_of table.now) }
    ensures { LooksPlaceUp E.key_of E.cmp items.now.store table.now item.now result }
{
    let mut asking = Asking::new(
        |at: ItemIndex| -> Ordering
            requires { IsLive items.now.store at }
            ensures { IsKeyAt (λ other. E.cmp (E.key_of item.entry.now) (E.key_of other)) items.entry.now.store at
                result }
        { E::compare(item, key_at::<T, Itself>(items, at)) },
    );
    table.find_gap_by(&mut asking)
}

impl<T, S, E> KeyIndex<T, S> for ByOrderOf<E>
where
    E: OrdKey<T>,
{
    ghost use Rattle.std.specs.Prelude.{true};
    ghost use Rattle.std.specs.Ordering.{eq_by_cmp};
    ghost use Rattle.iddqd_order.specs.MapBTreeTable.{HasSameTree};
    ghost use Rattle.iddqd_map.specs.Map.{shares};
    ghost use Rattle.iddqd_ord_map.specs.OrderedSteps.{reserved_for, most_cells};

    type KnownHashes = ();

    ghost Keys = { E.Key };

    ghost keys = { E.key_of };

    ghost alike = { shares E.key_of (eq_by_cmp E.cmp) };

    ghost same_keys = { shares E.key_of (eq_by_cmp E.cmp) };

    ghost indexes = { λ x state s. Sorts E.key_of E.cmp s (order_of x.table) };

    ghost are_known = { λ state item known. Unit {0} };

    ghost capacity = { λ x. reserved_for x.table };

    ghost cells = { λ x. reserved_for x.table };

    ghost most = { most_cells };

    ghost grown = { λ count. 0 };

    ghost kept = { λ slots count. most_cells count };

    ghost needed = { λ slots count. count };

    ghost may_need_memory = { true };

    ghost same = { λ x y. HasSameTree x.table y.table };

    ghost unique_keys = { 1 };
}

// The index, if it is greater than `before`.
fn past(at: ItemIndex, before: Option<ItemIndex>) -> Option<ItemIndex>
    ensures { IsNextReported (λ ix. ix ≡ at) before result }
{
    match before {
        Some(before) if at <= before => None,
        _ => Some(at),
    }
}

impl<T, S, E> Changes<T, S> for ByOrderOf<E>
where
    E: OrdKey<T>,
{
    ghost use Rattle.std.specs.Prelude.{Some};
    ghost use Rattle.std.specs.Ordering.{eq_by_cmp};
    ghost use Rattle.iddqd_map.specs.Map.{shares};
    ghost use Rattle.iddqd_ord_map.specs.OrderedSteps.{HasBlocksAt, HasBlocksAnywhere};
    ghost use Rattle.iddqd_ord_map.specs.ByOrder.{IsGapFor};

    type Conflict = ItemIndex;

    type Hashes = ();

    type Position = Gap;

    type InsertPlan = Gap;

    type Blocks = Blocks;

    ghost conflicts = { λ s item at. AnswersScan s (shares E.key_of (eq_by_cmp E.cmp) item) (Some at) };

    ghost reports = { λ at ix. ix ≡ at };

    ghost are_hashes = { λ state item hashes. Unit {0} };

    ghost is_position = { λ x state s item gap. IsGapFor E.key_of E.cmp s x.table item gap };

    ghost is_planned = { λ x state s item gap. IsGapFor E.key_of E.cmp s x.table item gap };

    ghost are_none = { λ blocks. blocks ≡ 0 };

    ghost has_room_for = { λ x gap blocks. HasBlocksAt x.table blocks gap };

    ghost are_enough_after = { λ x blocks. HasBlocksAnywhere x.table blocks };

    fn hashes(state: &S, item: &T) {}

    fn look_up(
        &self,
        items: &ItemSet<T>,
        state: &S,
        hashes: (),
        item: &T,
    ) -> Result<Gap, ItemIndex> {
        place_of::<T, E>(&self.table, items, item)
    }

    fn plan(&self, items: &ItemSet<T>, state: &S, position: Gap, ix: ItemIndex, item: &T) -> Gap {
        position
    }

    // It takes no more blocks than the insert needs. The trait doesn't say so, since other key indexes have no blocks.
    fn make_room(&mut self, items: &ItemSet<T>, state: &S, plan: &Gap) -> Result<Blocks, AllocError>
        requires indexed { Sorts E.key_of E.cmp items.now.store (order_of self.old.table) }
        ensures same { self.new ≡ self.old }
        ensures ready { IfOk result (λ blocks. HasBlocksAt self.new.table blocks plan.now) }
        ensures few_blocks { IfOk result (λ blocks. blocks ≤ gap_blocks self.old.table plan.now) }
        ensures needed { OnErr result (0 < gap_blocks self.old.table plan.now) }
        ensures had_room { live_count items.now.store < reserved_for self.old.table → IsOk result }
        ensures none { live_count items.now.store < reserved_for self.old.table → IfOk result (λ blocks. blocks ≡ 0) }
    {
        ordered_steps::blocks_at(&self.table, items, plan)
    }

    fn insert(&mut self, hashes: (), plan: &Gap, blocks: Blocks, ix: ItemIndex) {
        self.table.insert_in(plan, ix, blocks);
    }

    fn next_reported(conflict: &ItemIndex, before: Option<ItemIndex>) -> Option<ItemIndex> {
        past(*conflict, before)
    }

    fn position(&self, items: &ItemSet<T>, state: &S, hashes: (), item: &T) -> Gap {
        match place_of::<T, E>(&self.table, items, item) {
            Ok(gap) => gap,
            Err(_) => unreachable!(),
        }
    }

    fn blocks_after(&self, items: &ItemSet<T>, state: &S) -> Result<Blocks, AllocError> {
        ordered_steps::blocks_anywhere(&self.table, items)
    }

    fn remove(&mut self, items: &ItemSet<T>, state: &S, ix: ItemIndex) {
        ordered_steps::remove_live::<T, E>(&mut self.table, items, ix);
    }
}

impl<T, S, E> IndexLaws<T, S> for ByOrderOf<E>
where
    E: OrdKey<T>,
{
    ghost use Rattle.std.proofs.Common.{refl};
    ghost use Rattle.iddqd_ord_map.specs.ByOrderLaws.{Sorts-same_tree, Sorts-modified, Sorts-alike};
    ghost use Rattle.iddqd_ord_map.specs.SortedScanLaws.{shares_equivalence};

    ghost needed_grows = { λ slots more_slots count more wider up. up };

    ghost kept_none = { refl };

    ghost same_as_itself = { λ x. record { root = refl; height = refl } };

    ghost same_indexes = { λ x y state s same is. Sorts-same_tree E.key_of E.cmp s x.table y.table same is };

    ghost apart = { λ x state s is. is.in_sync.apart };

    ghost modified = { λ x state s ix was item is live same.
        Sorts-modified E.key_of E.cmp E.total s (order_of x.table) is ix item was live same };

    ghost same_items = { λ x state s t same is.
        Sorts-alike E.key_of E.cmp E.total s t same (order_of x.table) is };

    ghost equivalence = { shares_equivalence E.key_of E.cmp E.total };
}

impl<T, S, E> PlanLaws<T, S> for ByOrderOf<E>
where
    E: OrdKey<T>,
{
    ghost use Rattle.std.proofs.Common.{refl};
    ghost use Rattle.std.specs.Ordering.{eq_by_cmp};
    ghost use Rattle.iddqd_map.specs.Map.{shares};
    ghost use Rattle.iddqd_map.specs.OneKeyLaws.{reported_one, few_one};
    ghost use Rattle.iddqd_ord_map.specs.ByOrderLaws.{IsGapFor-same_tree};

    ghost reported = { λ s item at scan ix. reported_one s (shares E.key_of (eq_by_cmp E.cmp) item) at scan ix };

    ghost reported_some = { λ s item at scan. (at, refl) };

    ghost few_reported = { few_one };

    ghost same_plans = { λ x y state s item gap same is.
        IsGapFor-same_tree E.key_of E.cmp s x.table y.table item gap same is };
}

impl<T, S, E> Moves<T, S> for ByOrderOf<E>
where
    E: OrdKey<T>,
{
    ghost use Rattle.std.specs.Prelude.{◌≢◌, Some, Ok};
    ghost use Rattle.std.specs.Ordering.{eq_by_cmp};
    ghost use Rattle.iddqd_map.specs.Map.{shares};
    ghost use Rattle.iddqd_ord_map.specs.OrderedSteps.{HasBlocksFor, moves};
    ghost use Rattle.iddqd_ord_map.specs.OrderedIndexing.{PlansOrConflicts};

    type Taken = ItemIndex;

    type MovePlan = Move;

    type MoveBlocks = Blocks;

    ghost taken = { λ s ix item at. (at ≢ ix) × AnswersScan s (shares E.key_of (eq_by_cmp E.cmp) item) (Some at) };

    ghost is_move = { λ state s ix item plan. PlansOrConflicts E.key_of E.cmp s ix item (Ok plan) };

    ghost moves = { moves };

    ghost are_none = { λ blocks. blocks ≡ 0 };

    ghost are_enough_for = { λ x plan blocks. HasBlocksFor x.table blocks plan };

    fn no_hashes() {}

    fn plan_move(
        &self,
        items: &ItemSet<T>,
        state: &S,
        ix: ItemIndex,
        item: &T,
    ) -> Result<Move, ItemIndex> {
        plan_move::<T, E>(&self.table, items, ix, item)
    }

    fn blocks_for(&self, items: &ItemSet<T>, state: &S, plan: &Move) -> Result<Blocks, AllocError> {
        ordered_steps::blocks_for(&self.table, items, plan)
    }

    fn commit_move(
        &mut self,
        items: &ItemSet<T>,
        state: &S,
        known: (),
        plan: &Move,
        blocks: Blocks,
        ix: ItemIndex,
        item: &T,
    ) {
        ordered_steps::commit_move::<T, E>(&mut self.table, items, plan, blocks, ix, item);
    }
}

impl<T, S, E> Empty<T, S> for ByOrderOf<E>
where
    E: OrdKey<T>,
{
    fn new(alloc: Global) -> ByOrderOf<E> {
        ByOrderOf {
            table: MapBTreeTable::new(alloc),
            of: PhantomData,
        }
    }
}

impl<T, S, E> Upkeep<T, S> for ByOrderOf<E>
where
    E: OrdKey<T>,
{
    fn capacity(&self) -> usize {
        ordered_steps::capacity(&self.table)
    }

    fn with_capacity(alloc: Global, wanted: usize) -> Result<ByOrderOf<E>, AllocError> {
        Ok(ByOrderOf {
            table: ordered_steps::with_capacity(alloc, wanted)?,
            of: PhantomData,
        })
    }

    fn reserve(
        &mut self,
        items: &ItemSet<T>,
        state: &S,
        additional: usize,
    ) -> Result<(), AllocError> {
        ordered_steps::reserve(&mut self.table, items, additional)
    }

    fn shrink_to(&mut self, items: &ItemSet<T>, state: &S, least: usize) -> Result<(), AllocError> {
        ordered_steps::shrink_to(&mut self.table, items, least);
        Ok(())
    }

    fn clear(&mut self) {
        self.table.clear();
    }

    fn remap(&mut self, remap: &IndexRemap) {
        ordered_steps::remap::<T>(&mut self.table, remap);
    }

    fn copied(&self) -> Result<ByOrderOf<E>, AllocError> {
        Ok(ByOrderOf {
            table: self.table.clone()?,
            of: PhantomData,
        })
    }

    fn validate(
        &self,
        items: &ItemSet<T>,
        state: &S,
        compactness: ValidateCompact,
    ) -> Result<(), ValidateRefusal<ValidationError>> {
        ordered_steps::validate(&self.table, items, compactness)
    }
}

impl<T, S, E> ComparesKeys<T, S> for ByOrderOf<E>
where
    E: OrdKey<T>,
{
    fn is_same(item: &T, other: &T) -> bool {
        E::compare(item, other) == Ordering::Equal
    }
}

impl<T, S, E> FindsSame<T, S> for ByOrderOf<E>
where
    E: OrdKey<T>,
{
    ghost same_are_alike = { λ x y same. same };

    fn find_same(&self, items: &ItemSet<T>, state: &S, item: &T) -> Option<ItemIndex> {
        find_same::<T, E>(&self.table, items, item)
    }
}

impl<T, S, E> ReportsAt<Here, T, S> for ByOrderOf<E>
where
    E: OrdKey<T>,
{
    ghost use Rattle.std.specs.Ordering.{eq_by_cmp};
    ghost use Rattle.iddqd_map.specs.Map.{shares};

    ghost alike_at = { shares E.key_of (eq_by_cmp E.cmp) };

    ghost alike_there = { λ x y shares. shares };

    fn reported_at(conflict: &ItemIndex) -> Option<ItemIndex> {
        Some(*conflict)
    }
}

impl<T, S, E, Q> UniqueAt<Here, Q, T, S> for ByOrderOf<E>
where
    E: OrdKey<T>,
    Q: ItemOrdQuery<T, E>,
{
    ghost stands_for = { λ query. is_equal (Q.compare_item query) };

    ghost has_hash = { λ known. Unit {0} };

    fn find(&self, items: &ItemSet<T>, state: &S, query: Q) -> (Option<ItemIndex>, ()) {
        (find_by::<T, E, Q>(&self.table, items, query), ())
    }
}

impl<T, S, E, Q> TakesAt<Here, Q, T, S> for ByOrderOf<E>
where
    E: OrdKey<T>,
    Q: ItemOrdQuery<T, E>,
{
    fn take(&mut self, items: &ItemSet<T>, state: &S, query: Q) -> Option<ItemIndex> {
        take_by::<T, E, Q>(&mut self.table, items, query)
    }
}

impl<T, S, E, Q> OrderedAt<Here, Q, T, S> for ByOrderOf<E>
where
    E: OrdKey<T>,
    Q: ItemRangeQuery<T, E>,
{
    ghost order = { on E.key_of E.cmp };

    ghost compare = { Q.compare_item };
}

impl<T, S, E, Q> StepsAt<Here, Q, T, S> for ByOrderOf<E>
where
    E: OrdKey<T>,
    Q: ItemRangeQuery<T, E>,
{
    ghost use Rattle.std.proofs.lemmas.Cmp.{on_total};
    ghost use Rattle.iddqd_ord_map.specs.SortedScanLaws.{tied_by_key};

    type Spot = Spot;

    ghost stands = { λ x spot ix. StandsAt x.table spot ix };

    fn first_between(
        &self,
        items: &ItemSet<T>,
        state: &S,
        bounds: &Bounds<Q>,
    ) -> Option<(ItemIndex, Spot)> {
        first_between::<T, E, Q>(&self.table, items, bounds)
    }

    fn next_between(
        &self,
        items: &ItemSet<T>,
        state: &S,
        spot: &mut Spot,
        ix: ItemIndex,
        bounds: &Bounds<Q>,
    ) -> Option<ItemIndex> {
        next_between::<T, E, Q>(&self.table, items, spot, bounds)
    }

    fn take_between(
        &mut self,
        items: &ItemSet<T>,
        state: &S,
        spot: &mut Spot,
        ix: ItemIndex,
        bounds: &Bounds<Q>,
    ) -> Option<ItemIndex> {
        take_between::<T, E, Q>(&mut self.table, items, spot, bounds)
    }

    ghost total = { on_total E.key_of E.total };

    ghost fits = { Q.fits };

    ghost keys_tie = { tied_by_key E.key_of E.cmp E.total };
}
