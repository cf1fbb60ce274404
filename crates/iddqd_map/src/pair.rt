//! A pair of key indexes over a store's items. A call that changes items goes to both; a look-up goes to the one that
//! has the key.
//!
//! Two items share a key if they share a key of the first or of the second key index, and share all keys if they share
//! all of both. Pairs nest, so items can have any number of keys.
//!
//! Invariant: both key indexes index the same store, under the same state of the hasher.
//!
//! It is one file: it is an impl of each trait of key indexes, and no impl can be split.
ghost use Rattle.std.specs.Prelude.{◌≡◌, ◌+◌, ◌≤◌, ◌↔◌, ℕ, List, length, min, Some, IfSome, IsSome};
ghost use Rattle.std.specs.List.{Contains};
ghost use Rattle.std.specs.Option.{option_map};
ghost use Rattle.std.specs.Range.Bound.{bound_map};
ghost use Rattle.iddqd.specs.{removed};
ghost use Rattle.iddqd.specs.Store.{Store};
ghost use Rattle.iddqd_keys.specs.KeyWalk.{IsFirstHit, IsNextHit};
ghost use Rattle.iddqd_keys.specs.OrderedQuery.{is_up_to, is_within};
ghost use Rattle.iddqd_keys.specs.Scan.{IsHit, IsLive};
ghost use Rattle.iddqd_map.specs.KeyIndex.{IsNextReported};
ghost use Rattle.iddqd_map.specs.PairConflict.{IsReportedBy, Reports, first_of, second_of};
ghost use Rattle.iddqd_map.specs.Ranges.{itself};

use crate::key_index::{
    Changes, ComparesKeys, Empty, FindsSame, IndexLaws, KeyIndex, Left, Moves, OrderedAt, PlanLaws,
    ReportsAt, Right, StepsAt, TakesAt, UniqueAt, Upkeep,
};
use crate::pair_conflict::PairConflict;
use crate::pair_hashes::{PairHashes, first_known, second_known};
use crate::reported::lesser;
use iddqd::index_remap::IndexRemap;
use iddqd::internal::{ValidateCompact, ValidateRefusal, ValidationError};
use iddqd::item_index::ItemIndex;
use iddqd::item_set::ItemSet;
use iddqd_keys::bounds::Bounds;
use std::alloc::{AllocError, Global};

/// Two key indexes over the same items.
#[derive(Drop)]
pub struct Pair<A, B> {
    /// The first key index: `Left` names the place of a key in it.
    pub first: A,
    /// The second key index: `Right` names the place of a key in it.
    pub second: B,
}

impl<T, S, A, B> KeyIndex<T, S> for Pair<A, B>
where
    A: KeyIndex<T, S>,
    B: KeyIndex<T, S>,
{
    ghost use Rattle.std.specs.Prelude.{◌||◌, ◌+◌, min};
    ghost use Rattle.iddqd_map.specs.PairHashes.{AreKnownToPair};
    ghost use Rattle.iddqd_map.specs.Several.{either_key, both_keys};

    type KnownHashes = PairHashes<A::KnownHashes, B::KnownHashes>;

    ghost Keys = { A.Keys × B.Keys };

    ghost keys = { λ item. (A.keys item, B.keys item) };

    ghost alike = { either_key A.alike B.alike };

    ghost same_keys = { both_keys A.same_keys B.same_keys };

    ghost indexes = { λ x state s. A.indexes x.first state s × B.indexes x.second state s };

    ghost are_known = { λ state item. AreKnownToPair (A.are_known state item) (B.are_known state item) };

    ghost capacity = { λ x. min (A.capacity x.first) (B.capacity x.second) };

    ghost cells = { λ x. A.cells x.first + B.cells x.second };

    ghost most = { λ n. A.most n + B.most n };

    ghost grown = { λ n. A.grown n + B.grown n };

    ghost kept = { λ slots count. A.kept slots count + B.kept slots count };

    ghost needed = { λ slots count. A.needed slots count + B.needed slots count };

    ghost may_need_memory = { A.may_need_memory || B.may_need_memory };

    ghost same = { λ x y. A.same x.first y.first × B.same x.second y.second };

    ghost unique_keys = { A.unique_keys + B.unique_keys };
}

impl<T, S, A, B> Changes<T, S> for Pair<A, B>
where
    A: Changes<T, S>,
    B: Changes<T, S>,
{
    ghost use Rattle.iddqd_map.specs.PairConflict.{ReportBoth, IsEither, IsReportedBy, first_of, second_of};

    type Conflict = PairConflict<A::Conflict, B::Conflict>;

    type Hashes = (A::Hashes, B::Hashes);

    type Position = (A::Position, B::Position);

    type InsertPlan = (A::InsertPlan, B::InsertPlan);

    type Blocks = (A::Blocks, B::Blocks);

    ghost conflicts = { λ s item at. ReportBoth A.alike B.alike A.conflicts B.conflicts s item (first_of at)
        (second_of at) };

    ghost reports = { λ at. IsEither (IsReportedBy A.reports (first_of at)) (IsReportedBy B.reports (second_of at)) };

    ghost are_hashes = { λ state item hashes. A.are_hashes state item hashes.0 × B.are_hashes state item hashes.1 };

    ghost is_position = { λ x state s item position. A.is_position x.first state s item position.0
        × B.is_position x.second state s item position.1 };

    ghost is_planned = { λ x state s item plan. A.is_planned x.first state s item plan.0
        × B.is_planned x.second state s item plan.1 };

    ghost are_none = { λ blocks. A.are_none blocks.0 × B.are_none blocks.1 };

    ghost has_room_for = { λ x plan blocks. A.has_room_for x.first plan.0 blocks.0
        × B.has_room_for x.second plan.1 blocks.1 };

    ghost are_enough_after = { λ x blocks. A.are_enough_after x.first blocks.0 × B.are_enough_after x.second blocks.1 };

    fn hashes(state: &S, item: &T) -> (A::Hashes, B::Hashes) {
        (A::hashes(state, item), B::hashes(state, item))
    }

    fn look_up(
        &self,
        items: &ItemSet<T>,
        state: &S,
        hashes: (A::Hashes, B::Hashes),
        item: &T,
    ) -> Result<(A::Position, B::Position), PairConflict<A::Conflict, B::Conflict>> {
        let first = self.first.look_up(items, state, hashes.0, item);
        let second = self.second.look_up(items, state, hashes.1, item);
        match first {
            Ok(first) => match second {
                Ok(second) => Ok((first, second)),
                Err(other) => Err(PairConflict::Second(other)),
            },
            Err(one) => Err(first_with(one, second.err())),
        }
    }

    fn plan(
        &self,
        items: &ItemSet<T>,
        state: &S,
        position: (A::Position, B::Position),
        ix: ItemIndex,
        item: &T,
    ) -> (A::InsertPlan, B::InsertPlan) {
        let (first, second) = position;
        (
            self.first.plan(items, state, first, ix, item),
            self.second.plan(items, state, second, ix, item),
        )
    }

    fn make_room(
        &mut self,
        items: &ItemSet<T>,
        state: &S,
        plan: &(A::InsertPlan, B::InsertPlan),
    ) -> Result<(A::Blocks, B::Blocks), AllocError> {
        let first = self.first.make_room(items, state, &plan.0)?;
        let second = self.second.make_room(items, state, &plan.1)?;
        Ok((first, second))
    }

    fn insert(
        &mut self,
        hashes: (A::Hashes, B::Hashes),
        plan: &(A::InsertPlan, B::InsertPlan),
        blocks: (A::Blocks, B::Blocks),
        ix: ItemIndex,
    ) {
        let (first, second) = blocks;
        self.first.insert(hashes.0, &plan.0, first, ix);
        self.second.insert(hashes.1, &plan.1, second, ix);
    }

    fn next_reported(
        conflict: &PairConflict<A::Conflict, B::Conflict>,
        before: Option<ItemIndex>,
    ) -> Option<ItemIndex> {
        let first = next_of::<T, S, A>(conflict.first(), &before);
        let second = next_of::<T, S, B>(conflict.second(), &before);
        lesser(first, second)
    }

    fn position(
        &self,
        items: &ItemSet<T>,
        state: &S,
        hashes: (A::Hashes, B::Hashes),
        item: &T,
    ) -> (A::Position, B::Position) {
        (
            self.first.position(items, state, hashes.0, item),
            self.second.position(items, state, hashes.1, item),
        )
    }

    fn blocks_after(
        &self,
        items: &ItemSet<T>,
        state: &S,
    ) -> Result<(A::Blocks, B::Blocks), AllocError> {
        let first = self.first.blocks_after(items, state)?;
        let second = self.second.blocks_after(items, state)?;
        Ok((first, second))
    }

    fn remove(&mut self, items: &ItemSet<T>, state: &S, ix: ItemIndex) {
        self.first.remove(items, state, ix);
        self.second.remove(items, state, ix);
    }
}

impl<T, S, A, B> IndexLaws<T, S> for Pair<A, B>
where
    A: IndexLaws<T, S>,
    B: IndexLaws<T, S>,
{
    ghost use Rattle.std.proofs.Common.{ap};
    ghost use Rattle.std.proofs.lemmas.Cmp.{and_equiv};
    ghost use Rattle.iddqd_map.specs.PairLaws.{AreApart-either, HaveSameKeys-first, HaveSameKeys-second, sum_none, sum_grows};

    ghost needed_grows = { λ slots more_slots count more wider up.
        sum_grows (A.needed_grows slots more_slots count more wider up)
        (B.needed_grows slots more_slots count more wider up) };

    ghost kept_none = { sum_none A.kept_none B.kept_none };

    ghost same_as_itself = { λ x. (A.same_as_itself x.first, B.same_as_itself x.second) };

    ghost same_indexes = { λ x y state s same is. (
      A.same_indexes x.first y.first state s same.0 is.0,
      B.same_indexes x.second y.second state s same.1 is.1,
    ) };

    ghost apart = { λ x state s is. AreApart-either A.alike B.alike s (A.apart x.first state s is.0)
        (B.apart x.second state s is.1) };

    ghost modified = { λ x state s ix was item is live same. (
      A.modified x.first state s ix was item is.0 live (ap (λ both. both.0) same),
      B.modified x.second state s ix was item is.1 live (ap (λ both. both.1) same),
    ) };

    ghost same_items = { λ x state s t same is. (
      A.same_items x.first state s t (HaveSameKeys-first A.same_keys B.same_keys s t same) is.0,
      B.same_items x.second state s t (HaveSameKeys-second A.same_keys B.same_keys s t same) is.1,
    ) };

    ghost equivalence = { and_equiv A.equivalence B.equivalence };
}

impl<T, S, A, B> PlanLaws<T, S> for Pair<A, B>
where
    A: PlanLaws<T, S>,
    B: PlanLaws<T, S>,
{
    ghost use Rattle.iddqd_map.specs.PairConflict.{IsReportedBy, Reports, first_of, second_of};
    ghost use Rattle.iddqd_map.specs.PairLaws.{reported_by_one, reported_both, reported_some, few_by_one, few_both};

    ghost reported = { λ s item at conflicts ix. reported_both A.alike B.alike s item
        (IsReportedBy A.reports (first_of at))
        (IsReportedBy B.reports (second_of at)) ix
        (reported_by_one A.reports A.alike A.conflicts s item (A.reported s item) (first_of at) conflicts.first ix)
        (reported_by_one B.reports B.alike B.conflicts s item (B.reported s item) (second_of at) conflicts.second ix) };

    ghost reported_some = { λ s item at conflicts. reported_some A.reports B.reports A.conflicts B.conflicts s item
        A.alike B.alike
        (A.reported_some s item) (B.reported_some s item) (first_of at) (second_of at) conflicts };

    ghost few_reported = { λ at. few_both (IsReportedBy A.reports (first_of at)) (IsReportedBy B.reports (second_of at))
        A.unique_keys
        B.unique_keys (few_by_one A.reports A.unique_keys A.few_reported (first_of at))
        (few_by_one B.reports B.unique_keys B.few_reported (second_of at)) };

    ghost same_plans = { λ x y state s item plan same is. (
      A.same_plans x.first y.first state s item plan.0 same.0 is.0,
      B.same_plans x.second y.second state s item plan.1 same.1 is.1,
    ) };
}

impl<T, S, A, B> Moves<T, S> for Pair<A, B>
where
    A: Moves<T, S>,
    B: Moves<T, S>,
{
    ghost use Rattle.std.specs.Prelude.{◌||◌};
    ghost use Rattle.iddqd_map.specs.PairConflict.{ReportBothOther, first_of, second_of};

    type Taken = PairConflict<A::Taken, B::Taken>;

    type MovePlan = (A::MovePlan, B::MovePlan);

    type MoveBlocks = (A::MoveBlocks, B::MoveBlocks);

    ghost taken = { λ s ix item at. ReportBothOther A.alike B.alike A.taken B.taken s ix item (first_of at)
        (second_of at) };

    ghost is_move = { λ state s ix item plan. A.is_move state s ix item plan.0 × B.is_move state s ix item plan.1 };

    ghost moves = { λ plan. A.moves plan.0 || B.moves plan.1 };

    ghost are_none = { λ blocks. A.are_none blocks.0 × B.are_none blocks.1 };

    ghost are_enough_for = { λ x plan blocks. A.are_enough_for x.first plan.0 blocks.0
        × B.are_enough_for x.second plan.1 blocks.1 };

    fn no_hashes() -> PairHashes<A::KnownHashes, B::KnownHashes> {
        PairHashes::Neither
    }

    fn plan_move(
        &self,
        items: &ItemSet<T>,
        state: &S,
        ix: ItemIndex,
        item: &T,
    ) -> Result<(A::MovePlan, B::MovePlan), PairConflict<A::Taken, B::Taken>> {
        let first = self.first.plan_move(items, state, ix, item);
        let second = self.second.plan_move(items, state, ix, item);
        match first {
            Ok(first) => match second {
                Ok(second) => Ok((first, second)),
                Err(other) => Err(PairConflict::Second(other)),
            },
            Err(one) => Err(first_with(one, second.err())),
        }
    }

    fn blocks_for(
        &self,
        items: &ItemSet<T>,
        state: &S,
        plan: &(A::MovePlan, B::MovePlan),
    ) -> Result<(A::MoveBlocks, B::MoveBlocks), AllocError> {
        let first = self.first.blocks_for(items, state, &plan.0)?;
        let second = self.second.blocks_for(items, state, &plan.1)?;
        Ok((first, second))
    }

    fn commit_move(
        &mut self,
        items: &ItemSet<T>,
        state: &S,
        known: PairHashes<A::KnownHashes, B::KnownHashes>,
        plan: &(A::MovePlan, B::MovePlan),
        blocks: (A::MoveBlocks, B::MoveBlocks),
        ix: ItemIndex,
        item: &T,
    ) {
        let (first, second) = blocks;
        let first_hashes = first_known::<T, S, A, B>(known);
        let second_hashes = second_known::<T, S, A, B>(known);
        self.first
            .commit_move(items, state, first_hashes, &plan.0, first, ix, item);
        self.second
            .commit_move(items, state, second_hashes, &plan.1, second, ix, item);
    }
}

impl<T, S, A, B> Empty<T, S> for Pair<A, B>
where
    A: Empty<T, S>,
    B: Empty<T, S>,
{
    fn new(alloc: Global) -> Pair<A, B> {
        Pair {
            first: A::new(alloc),
            second: B::new(alloc),
        }
    }
}

impl<T, S, A, B> Upkeep<T, S> for Pair<A, B>
where
    A: Upkeep<T, S>,
    B: Upkeep<T, S>,
{
    fn capacity(&self) -> usize {
        self.first.capacity().min(self.second.capacity())
    }

    fn with_capacity(alloc: Global, wanted: usize) -> Result<Pair<A, B>, AllocError> {
        Ok(Pair {
            first: A::with_capacity(alloc, wanted)?,
            second: B::with_capacity(alloc, wanted)?,
        })
    }

    fn reserve(
        &mut self,
        items: &ItemSet<T>,
        state: &S,
        additional: usize,
    ) -> Result<(), AllocError> {
        self.first.reserve(items, state, additional)?;
        self.second.reserve(items, state, additional)
    }

    fn shrink_to(&mut self, items: &ItemSet<T>, state: &S, least: usize) -> Result<(), AllocError> {
        let first = self.first.shrink_to(items, state, least);
        let second = self.second.shrink_to(items, state, least);
        first.and(second)
    }

    fn clear(&mut self) {
        self.first.clear();
        self.second.clear();
    }

    fn remap(&mut self, remap: &IndexRemap) {
        self.first.remap(remap);
        self.second.remap(remap);
    }

    fn copied(&self) -> Result<Pair<A, B>, AllocError> {
        Ok(Pair {
            first: self.first.copied()?,
            second: self.second.copied()?,
        })
    }

    fn validate(
        &self,
        items: &ItemSet<T>,
        state: &S,
        compactness: ValidateCompact,
    ) -> Result<(), ValidateRefusal<ValidationError>> {
        self.first.validate(items, state, compactness)?;
        self.second.validate(items, state, compactness)
    }
}

impl<T, S, A, B> ComparesKeys<T, S> for Pair<A, B>
where
    A: ComparesKeys<T, S>,
    B: ComparesKeys<T, S>,
{
    fn is_same(item: &T, other: &T) -> bool {
        A::is_same(item, other) && B::is_same(item, other)
    }
}

// The first key index finds the only item that can share all keys.
impl<T, S, A, B> FindsSame<T, S> for Pair<A, B>
where
    A: FindsSame<T, S>,
    B: ComparesKeys<T, S> + IndexLaws<T, S>,
{
    ghost use Rattle.iddqd_map.specs.PairLaws.{alike_both};

    ghost same_are_alike = { alike_both A.same_keys B.same_keys A.alike A.same_are_alike B.alike };

    fn find_same(&self, items: &ItemSet<T>, state: &S, item: &T) -> Option<ItemIndex> {
        let ix = self.first.find_same(items, state, item)?;
        if B::is_same(item, &items[ix]) {
            Some(ix)
        } else {
            None
        }
    }
}

// What the first reported, and what the second reported if it did.
fn first_with<A, B>(one: A, other: Option<B>) -> PairConflict<A, B>
    ensures first { first_of result ≡ Some one }
    ensures second { second_of result ≡ other }
{
    match other {
        Some(other) => PairConflict::Both(one, other),
        None => PairConflict::First(one),
    }
}

// The next reported index past `before`; `None` if this key index reported nothing.
fn next_of<T, S, X: Changes<T, S>>(
    conflict: Option<X::Conflict>,
    before: &Option<ItemIndex>,
) -> Option<ItemIndex>
    ensures next { IsNextReported (IsReportedBy X.reports conflict) before.now result }
    ensures reported { (s : Store T) (item : T) → Reports X.alike X.conflicts s item conflict → (ix : ℕ)
        → IsReportedBy X.reports conflict ix ↔ IsHit s (X.alike item) ix }
    ensures some { (s : Store T) (item : T) → Reports X.alike X.conflicts s item conflict → IsSome conflict
        → (ix : ℕ) × IsReportedBy X.reports conflict ix }
    ensures few { (l : List ℕ) × (length l ≤ X.unique_keys)
        × ((ix : ℕ) → IsReportedBy X.reports conflict ix → Contains l ix) }
{
    match conflict {
        None => None,
        Some(reported) => X::next_reported(&reported, *before),
    }
}

impl<P, Q, T, S, A, B> UniqueAt<Left<P>, Q, T, S> for Pair<A, B>
where
    A: UniqueAt<P, Q, T, S>,
    B: KeyIndex<T, S>,
{
    ghost use Rattle.iddqd_map.specs.PairHashes.{IsFirst};

    ghost stands_for = { A.UniqueAt.stands_for };

    ghost has_hash = { IsFirst A.UniqueAt.has_hash };

    fn find(
        &self,
        items: &ItemSet<T>,
        state: &S,
        query: Q,
    ) -> (
        Option<ItemIndex>,
        PairHashes<A::KnownHashes, B::KnownHashes>,
    ) {
        let (found, known) = self.first.find(items, state, query);
        (found, PairHashes::First(known))
    }
}

impl<P, Q, T, S, A, B> TakesAt<Left<P>, Q, T, S> for Pair<A, B>
where
    A: TakesAt<P, Q, T, S>,
    B: Changes<T, S>,
{
    fn take(&mut self, items: &ItemSet<T>, state: &S, query: Q) -> Option<ItemIndex> {
        let ix = self.first.take(items, state, query)?;
        self.second.remove(items, state, ix);
        Some(ix)
    }
}

impl<P, Q, T, S, A, B> UniqueAt<Right<P>, Q, T, S> for Pair<A, B>
where
    A: KeyIndex<T, S>,
    B: UniqueAt<P, Q, T, S>,
{
    ghost use Rattle.iddqd_map.specs.PairHashes.{IsSecond};

    ghost stands_for = { B.UniqueAt.stands_for };

    ghost has_hash = { IsSecond B.UniqueAt.has_hash };

    fn find(
        &self,
        items: &ItemSet<T>,
        state: &S,
        query: Q,
    ) -> (
        Option<ItemIndex>,
        PairHashes<A::KnownHashes, B::KnownHashes>,
    ) {
        let (found, known) = self.second.find(items, state, query);
        (found, PairHashes::Second(known))
    }
}

impl<P, Q, T, S, A, B> TakesAt<Right<P>, Q, T, S> for Pair<A, B>
where
    A: Changes<T, S>,
    B: TakesAt<P, Q, T, S>,
{
    fn take(&mut self, items: &ItemSet<T>, state: &S, query: Q) -> Option<ItemIndex> {
        let ix = self.second.take(items, state, query)?;
        self.first.remove(items, state, ix);
        Some(ix)
    }
}

impl<P, T, S, A, B> ReportsAt<Left<P>, T, S> for Pair<A, B>
where
    A: ReportsAt<P, T, S>,
    B: Changes<T, S>,
{
    ghost use Rattle.iddqd_map.specs.PairLaws.{alike_first};

    ghost alike_at = { A.ReportsAt.alike_at };

    ghost alike_there = { λ x y shares. alike_first A.KeyIndex.alike B.KeyIndex.alike x y
        (A.ReportsAt.alike_there x y shares) };

    fn reported_at(conflict: &PairConflict<A::Conflict, B::Conflict>) -> Option<ItemIndex> {
        A::reported_at(&conflict.first()?)
    }
}

impl<P, Q, T, S, A, B> OrderedAt<Left<P>, Q, T, S> for Pair<A, B>
where
    A: OrderedAt<P, Q, T, S>,
    B: KeyIndex<T, S>,
{
    ghost order = { A.OrderedAt.order };

    ghost compare = { A.OrderedAt.compare };
}

impl<P, Q, T, S, A, B> StepsAt<Left<P>, Q, T, S> for Pair<A, B>
where
    A: StepsAt<P, Q, T, S>,
    B: Changes<T, S>,
{
    ghost use Rattle.std.proofs.Common.{ap};

    type Spot = A::Spot;

    ghost stands = { λ x spot ix. A.StepsAt.stands x.first spot ix };

    fn first_between(
        &self,
        items: &ItemSet<T>,
        state: &S,
        bounds: &Bounds<Q>,
    ) -> Option<(ItemIndex, A::Spot)> {
        self.first.first_between(items, state, bounds)
    }

    fn next_between(
        &self,
        items: &ItemSet<T>,
        state: &S,
        spot: &mut A::Spot,
        ix: ItemIndex,
        bounds: &Bounds<Q>,
    ) -> Option<ItemIndex> {
        self.first.next_between(items, state, spot, ix, bounds)
    }

    fn take_between(
        &mut self,
        items: &ItemSet<T>,
        state: &S,
        spot: &mut A::Spot,
        ix: ItemIndex,
        bounds: &Bounds<Q>,
    ) -> Option<ItemIndex> {
        self.second.remove(items, state, ix);
        self.first.take_between(items, state, spot, ix, bounds)
    }

    ghost total = { A.StepsAt.total };

    ghost fits = { A.StepsAt.fits };

    ghost keys_tie = { λ x y same. A.StepsAt.keys_tie x y (ap (λ both. both.0) same) };
}

impl<P, T, S, A, B> ReportsAt<Right<P>, T, S> for Pair<A, B>
where
    A: Changes<T, S>,
    B: ReportsAt<P, T, S>,
{
    ghost use Rattle.iddqd_map.specs.PairLaws.{alike_second};

    ghost alike_at = { B.ReportsAt.alike_at };

    ghost alike_there = { λ x y shares. alike_second A.KeyIndex.alike B.KeyIndex.alike x y
        (B.ReportsAt.alike_there x y shares) };

    fn reported_at(conflict: &PairConflict<A::Conflict, B::Conflict>) -> Option<ItemIndex> {
        B::reported_at(&conflict.second()?)
    }
}

impl<P, Q, T, S, A, B> OrderedAt<Right<P>, Q, T, S> for Pair<A, B>
where
    A: KeyIndex<T, S>,
    B: OrderedAt<P, Q, T, S>,
{
    ghost order = { B.OrderedAt.order };

    ghost compare = { B.OrderedAt.compare };
}

impl<P, Q, T, S, A, B> StepsAt<Right<P>, Q, T, S> for Pair<A, B>
where
    A: Changes<T, S>,
    B: StepsAt<P, Q, T, S>,
{
    ghost use Rattle.std.proofs.Common.{ap};

    type Spot = B::Spot;

    ghost stands = { λ x spot ix. B.StepsAt.stands x.second spot ix };

    fn first_between(
        &self,
        items: &ItemSet<T>,
        state: &S,
        bounds: &Bounds<Q>,
    ) -> Option<(ItemIndex, B::Spot)> {
        self.second.first_between(items, state, bounds)
    }

    fn next_between(
        &self,
        items: &ItemSet<T>,
        state: &S,
        spot: &mut B::Spot,
        ix: ItemIndex,
        bounds: &Bounds<Q>,
    ) -> Option<ItemIndex> {
        self.second.next_between(items, state, spot, ix, bounds)
    }

    fn take_between(
        &mut self,
        items: &ItemSet<T>,
        state: &S,
        spot: &mut B::Spot,
        ix: ItemIndex,
        bounds: &Bounds<Q>,
    ) -> Option<ItemIndex> {
        self.first.remove(items, state, ix);
        self.second.take_between(items, state, spot, ix, bounds)
    }

    ghost total = { B.StepsAt.total };

    ghost fits = { B.StepsAt.fits };

    ghost keys_tie = { λ x y same. B.StepsAt.keys_tie x y (ap (λ both. both.1) same) };
}
