//! What a call goes over that concerns several items of a map: all of them, those within a range of a key in order, or
//! those with one key.
//!
//! A selection is a plain value. `Map` has each such call once, over any selection. A call may remove items as it goes.
//! So nothing is borrowed between two steps: a spot says where the call stands.
//!
//! The trait is one of selections and not of key indexes. A bound on the key index of a deep pair, for each selection,
//! would lead type inference through all its halves.
ghost use Rattle.std.specs.Prelude.{◌≡◌, ◌+◌, true, IfSome};
ghost use Rattle.std.specs.Option.{option_map};
ghost use Rattle.iddqd.specs.{removed};
ghost use Rattle.iddqd.specs.Reads.{IsNextLive};
ghost use Rattle.iddqd_keys.specs.KeyWalk.{SortsWithin};
ghost use Rattle.iddqd_keys.specs.Bounds.{is_in_bounds};
ghost use Rattle.iddqd_keys.specs.OrderedQuery.{is_equal};
ghost use Rattle.iddqd_keys.specs.Scan.{IsHit, itself};
ghost use Rattle.iddqd_map.specs.Groups.{AreHits, listed_from};
ghost use Rattle.iddqd_map.specs.Selection.{hits_behind, live_behind, live_indexes};
ghost use Rattle.iddqd_map.specs.SelectionLaws.{AreHits-live, AreHits-sorted};

use crate::grouped_at::StepsInGroup;
use crate::key_index::{Changes, KeyIndex, StepsAt};
use iddqd::item_index::ItemIndex;
use iddqd::item_set::ItemSet;
use iddqd_keys::bounds::{Bounds, IntoBounds};
use std::marker::PhantomData;

/// Which items of a map a call goes over, and in which order.
pub trait Selection<T, X: KeyIndex<T, S>, S>: Sized + Drop {
    ghost use Rattle.std.specs.Prelude.{ℕ, Bool, List};
    ghost use Rattle.iddqd.specs.Store.{Store};

    /// Where a call stands, beside the index.
    type Spot: Drop;

    // The item is selected.
    ghost selects: { Self → T → Bool };

    // These are the indexes of the selected items, each once, in an order in which a call goes over them.
    ghost lists: { Self → Store T → List ℕ → Type 0 };

    // The index stands at the spot.
    ghost stands: { Self → X → Self.Spot → ℕ → Type 0 };

    // The indexes that come behind this one.
    ghost behind: { Self → X → Store T → ℕ → List ℕ };

    /// The first index, with its spot.
    fn first(&self, indexes: &X, items: &ItemSet<T>, state: &S) -> Option<(ItemIndex, Self::Spot)>
        requires indexed { X.indexes indexes.now state.now items.now.store }
        ensures listed { lists self.now items.now.store
            (listed_from (behind self.now indexes.now items.now.store)
            (option_map (λ (r : ℕ × Self.Spot). r.0) result)) }
        ensures stands { IfSome result (λ r. stands self.now indexes.now r.1 r.0) };

    /// Moves the spot of an index to the next one behind it, and returns that index.
    fn next(
        &self,
        indexes: &X,
        items: &ItemSet<T>,
        state: &S,
        spot: &mut Self::Spot,
        ix: ItemIndex,
    ) -> Option<ItemIndex>
        requires indexed { X.indexes indexes.now state.now items.now.store }
        requires hit { IsHit items.now.store (selects self.now) ix }
        requires stands { stands self.now indexes.now spot.old ix }
        ensures next { behind self.now indexes.now items.now.store ix
            ≡ listed_from (behind self.now indexes.now items.now.store) result }
        ensures stands { IfSome result (stands self.now indexes.now spot.new) };

    /// Removes an index from the key index, and moves its spot as `next` does. It takes no memory.
    fn take(
        &self,
        indexes: &mut X,
        items: &ItemSet<T>,
        state: &S,
        spot: &mut Self::Spot,
        ix: ItemIndex,
    ) -> Option<ItemIndex>
        requires indexed { X.indexes indexes.old state.now items.now.store }
        requires hit { IsHit items.now.store (selects self.now) ix }
        requires stands { stands self.now indexes.old spot.old ix }
        ensures next { behind self.now indexes.old items.now.store ix
            ≡ listed_from (behind self.now indexes.new (removed items.now.store ix)) result }
        ensures stands { IfSome result (stands self.now indexes.new spot.new) }
        ensures indexed { X.indexes indexes.new state.now (removed items.now.store ix) }
        ensures capacity { X.capacity indexes.new ≡ X.capacity indexes.old }
        ensures cells { X.cells indexes.new ≡ X.cells indexes.old };

    // What it lists are the items that it selects, each once.
    ghost hits: { (which : Self) (s : Store T) (indexes : List ℕ) → lists which s indexes
        → AreHits s (selects which) indexes };
}

/// All items, by rising index.
#[derive(Drop)]
pub struct All;

impl<T, X: Changes<T, S>, S> Selection<T, X, S> for All {
    type Spot = ();

    ghost selects = { λ which item. true };

    ghost lists = { λ which s indexes. indexes ≡ live_indexes s };

    ghost stands = { λ which x spot ix. Unit {0} };

    ghost behind = { λ which x s ix. live_behind s ix };

    ghost hits = { λ which s indexes is. AreHits-live s indexes is };

    fn first(&self, indexes: &X, items: &ItemSet<T>, state: &S) -> Option<(ItemIndex, ())> {
        let first = items.next_occupied(ItemIndex::new(0))?;
        Some((first, ()))
    }

    fn next(
        &self,
        indexes: &X,
        items: &ItemSet<T>,
        state: &S,
        spot: &mut (),
        ix: ItemIndex,
    ) -> Option<ItemIndex> {
        next_live(items, ix)
    }

    fn take(
        &self,
        indexes: &mut X,
        items: &ItemSet<T>,
        state: &S,
        spot: &mut (),
        ix: ItemIndex,
    ) -> Option<ItemIndex> {
        indexes.remove(items, state, ix);
        next_live(items, ix)
    }
}

// The first live index behind this one.
fn next_live<T>(items: &ItemSet<T>, ix: ItemIndex) -> Option<ItemIndex>
    ensures { IsNextLive items.now.store (ix + 1) result }
{
    let from = ix.as_u32() as usize + 1;
    if from >= items.slot_count() {
        return None;
    }
    items.next_occupied(ItemIndex::new(from as u32))
}

/// The items whose keys at the place `P` are within bounds, by key and then by index.
#[derive(Drop)]
pub struct KeyRange<P, Q> {
    /// The bounds of the keys.
    pub bounds: Bounds<Q>,
    of: PhantomData<P>,
}

/// The items whose keys at the place `P` are within a range, as `from..to`.
///
/// Cost: a few steps; takes no memory.
pub fn within<P, Q, R: IntoBounds<Q>>(range: R) -> KeyRange<P, Q>
    ensures { result.bounds ≡ R.bounds range }
{
    KeyRange {
        bounds: range.into_bounds(),
        of: PhantomData,
    }
}

impl<P, Q, T, X, S> Selection<T, X, S> for KeyRange<P, Q>
where
    Q: Drop,
    X: StepsAt<P, Q, T, S>,
{
    type Spot = X::Spot;

    ghost selects = { λ which. is_in_bounds X.OrderedAt.compare which.bounds };

    ghost lists = { λ which s indexes.
        SortsWithin itself X.OrderedAt.order (is_in_bounds X.OrderedAt.compare which.bounds) s indexes };

    ghost stands = { λ which x spot ix. X.StepsAt.stands x spot ix };

    ghost behind = { λ which x s ix.
        hits_behind X.OrderedAt.order (is_in_bounds X.OrderedAt.compare which.bounds) s ix };

    ghost hits = { λ which s indexes sorted. AreHits-sorted X.OrderedAt.order X.StepsAt.total
        (is_in_bounds X.OrderedAt.compare which.bounds) s indexes sorted };

    fn first(&self, indexes: &X, items: &ItemSet<T>, state: &S) -> Option<(ItemIndex, X::Spot)> {
        indexes.first_between(items, state, &self.bounds)
    }

    fn next(
        &self,
        indexes: &X,
        items: &ItemSet<T>,
        state: &S,
        spot: &mut X::Spot,
        ix: ItemIndex,
    ) -> Option<ItemIndex> {
        indexes.next_between(items, state, spot, ix, &self.bounds)
    }

    fn take(
        &self,
        indexes: &mut X,
        items: &ItemSet<T>,
        state: &S,
        spot: &mut X::Spot,
        ix: ItemIndex,
    ) -> Option<ItemIndex> {
        indexes.take_between(items, state, spot, ix, &self.bounds)
    }
}

/// The items whose keys at the place `P` compare Equal with a query, by index.
#[derive(Drop)]
pub struct KeyGroup<P, Q> {
    /// What stands for the key.
    pub query: Q,
    of: PhantomData<P>,
}

/// The items whose keys at the place `P` compare Equal with the query. The query is a `&K`, or another query that fits
/// the order of such keys.
///
/// Cost: a few steps; takes no memory.
pub fn equal<P, Q>(query: Q) -> KeyGroup<P, Q>
    ensures { result.query ≡ query }
{
    KeyGroup {
        query,
        of: PhantomData,
    }
}

impl<P, Q, T, X, S> Selection<T, X, S> for KeyGroup<P, Q>
where
    Q: Copy,
    X: StepsAt<P, Q, T, S>,
{
    type Spot = X::Spot;

    ghost selects = { λ which. is_equal (X.OrderedAt.compare which.query) };

    ghost lists = { λ which s indexes.
        SortsWithin itself X.OrderedAt.order (is_equal (X.OrderedAt.compare which.query)) s indexes };

    ghost stands = { λ which x spot ix. X.StepsAt.stands x spot ix };

    ghost behind = { λ which x s ix.
        hits_behind X.OrderedAt.order (is_equal (X.OrderedAt.compare which.query)) s ix };

    ghost hits = { λ which s indexes sorted. AreHits-sorted X.OrderedAt.order X.StepsAt.total
        (is_equal (X.OrderedAt.compare which.query)) s indexes sorted };

    fn first(&self, indexes: &X, items: &ItemSet<T>, state: &S) -> Option<(ItemIndex, X::Spot)> {
        indexes.first_between(items, state, &Bounds::only(self.query))
    }

    fn next(
        &self,
        indexes: &X,
        items: &ItemSet<T>,
        state: &S,
        spot: &mut X::Spot,
        ix: ItemIndex,
    ) -> Option<ItemIndex> {
        indexes.next_between(items, state, spot, ix, &Bounds::only(self.query))
    }

    fn take(
        &self,
        indexes: &mut X,
        items: &ItemSet<T>,
        state: &S,
        spot: &mut X::Spot,
        ix: ItemIndex,
    ) -> Option<ItemIndex> {
        indexes.take_between(items, state, spot, ix, &Bounds::only(self.query))
    }
}

/// The items that have a key by its hash which several items may have, in no particular order.
#[derive(Drop)]
pub struct HashGroup<P, Q> {
    /// What stands for the key.
    pub query: Q,
    of: PhantomData<P>,
}

/// The items that have the key at the place `P` for which the query stands. The query is a `&K`, or another query that
/// stands for such a key.
///
/// Cost: a few steps; takes no memory.
pub fn having<P, Q>(query: Q) -> HashGroup<P, Q>
    ensures { result.query ≡ query }
{
    HashGroup {
        query,
        of: PhantomData,
    }
}

impl<P, Q, T, X, S> Selection<T, X, S> for HashGroup<P, Q>
where
    Q: Copy,
    X: StepsInGroup<P, Q, T, S>,
{
    type Spot = ();

    ghost selects = { λ which. X.GroupedAt.stands_for which.query };

    ghost lists = { λ which s indexes. AreHits s (X.GroupedAt.stands_for which.query) indexes };

    ghost stands = { λ which x spot ix. Unit {0} };

    ghost behind = { λ which x s ix. X.GroupedAt.behind x s which.query ix };

    ghost hits = { λ which s indexes are. are };

    fn first(&self, indexes: &X, items: &ItemSet<T>, state: &S) -> Option<(ItemIndex, ())> {
        Some((indexes.find_any(items, state, self.query)?, ()))
    }

    fn next(
        &self,
        indexes: &X,
        items: &ItemSet<T>,
        state: &S,
        spot: &mut (),
        ix: ItemIndex,
    ) -> Option<ItemIndex> {
        indexes.next_in_group(items, state, self.query, ix)
    }

    fn take(
        &self,
        indexes: &mut X,
        items: &ItemSet<T>,
        state: &S,
        spot: &mut (),
        ix: ItemIndex,
    ) -> Option<ItemIndex> {
        indexes.take_in_group(items, state, self.query, ix)
    }
}
