//! Calls that ask a closure about each item within bounds of a key, and remove those that it rejects.
//!
//! The closure sees each item in place, by key and then by index. A spot in that order says how far the call has come,
//! also where a rejected item was removed. So there is one search, no list of indexes is kept, and no memory is taken.
//! A rejected item goes to a second closure: here it drops the item, in `range_retain_into` it is the caller's.
ghost use Rattle.std.specs.Prelude.{◌≡◌, ◌≤◌, ◌+◌, true, false, IfSome, Some};
ghost use Rattle.std.specs.Fn.{TakesAt, CalledAt};
ghost use Rattle.iddqd.specs.{get, live_count, removed};
ghost use Rattle.std.specs.Range.Bound.{bound_map};
ghost use Rattle.iddqd_keys.specs.Bounds.{is_in_bounds};
ghost use Rattle.iddqd_keys.specs.KeyWalk.{IsNextHit};
ghost use Rattle.iddqd_keys.specs.OrderedQuery.{is_up_to};
ghost use Rattle.iddqd_keys.specs.Scan.{IsLive};
ghost use Rattle.iddqd_map.specs.Bulk.{AsksAndGives, GivesIfRefused};
ghost use Rattle.iddqd_map.specs.KeyIndex.{IsIndexed};
ghost use Rattle.iddqd_map.specs.Map.{room};
ghost use Rattle.iddqd_map.specs.Ranges.{GivesItem, TakesItem, itself};
ghost use Rattle.iddqd_map.specs.RangeRetain.{AsksWithin, KeepsMisses, MayAskWithin, RetainsWithin};

use super::Map;
use super::steps::take_out_between;
use crate::key_index::{KeyIndex, StepsAt};
use iddqd::item_index::ItemIndex;
use iddqd::item_set::ItemSet;
use iddqd_keys::bounds::{Bounds, IntoBounds};

impl<T, X: KeyIndex<T, S>, S> Map<T, X, S> {
    /// Keeps, of the items whose keys at the place are within the bounds, those at which the closure answers true, and
    /// returns how many it removed.
    ///
    /// The closure is called once at each of them, by key and then by index. Those at which it answers false are
    /// removed; all other items stay under their indexes. No memory is taken. It costs one search by that key, for each
    /// item a comparison with the upper bound, and for each removed one a removal from each other table.
    ///
    /// Cost: one search, and for each item a comparison with the upper bound; for each item that goes a removal from
    /// each other table; takes no memory.
    ///
    /// Asks: the closure may be called on these items in turn, once each.
    pub fn retain_range_by<P, Q, R, F: FnMut(&T) -> bool>(&mut self, range: R, mut f: F) -> usize
    where
        T: Drop,
        X: StepsAt<P, Q, T, S>,
        Q: Copy,
        R: IntoBounds<Q>,
        requires { MayAskWithin X.order (is_in_bounds X.compare (R.bounds range)) (TakesAt F.FnMut)
            (CalledAt F.FnMut) f self.old.store }
        ensures asked { (last : F) × RetainsWithin X.order (is_in_bounds X.compare (R.bounds range))
            (CalledAt F.FnMut) f self.old.store self.new.store last }
        ensures others { KeepsMisses self.old.store (is_in_bounds X.compare (R.bounds range)) self.new.store }
        ensures memory { self.new.memory ≡ self.old.memory }
        ensures room { room self.old ≤ room self.new }
        ensures count { result + live_count self.new.store ≡ live_count self.old.store }
    {
        let bounds = range.into_bounds();
        retain_counted::<P, Q, T, S, X, F, _>(
            &mut self.items,
            &mut self.indexes,
            &self.state,
            &bounds,
            &mut f,
            &mut |item: T| drop(item),
        )
    }
}

// Keeps, of the items whose keys are within the bounds, those at which the first closure answers true, passes the
// others to the second, and returns how many these were. The closures stay in the states that their last calls leave.
pub(super) fn retain_counted<P, Q, T, S, X, F: FnMut(&T) -> bool, G: FnMut(T)>(
    items: &mut ItemSet<T>,
    indexes: &mut X,
    state: &S,
    bounds: &Bounds<Q>,
    keep: &mut F,
    gone: &mut G,
) -> usize
where
    X: StepsAt<P, Q, T, S>,
    Q: Copy,
    requires indexed { IsIndexed (X.indexes indexes.old) state.now items.old.store }
    requires can_ask { let within = is_in_bounds X.compare bounds.now in
        AsksWithin X.order within (TakesAt F.FnMut) (CalledAt F.FnMut) keep.old items.old.store }
    requires can_give { let within = is_in_bounds X.compare bounds.now in
        AsksWithin X.order within (TakesItem G.FnMut) (GivesIfRefused G.FnMut) gone.old items.old.store }
    ensures indexed { IsIndexed (X.indexes indexes.new) state.now items.new.store }
    ensures asked { let within = is_in_bounds X.compare bounds.now in
        RetainsWithin X.order within (AsksAndGives G.FnMut (CalledAt F.FnMut)) (keep.old, gone.old)
        items.old.store items.new.store (keep.new, gone.new) }
    ensures others { let within = is_in_bounds X.compare bounds.now in
        KeepsMisses items.old.store within items.new.store }
    ensures count { result + live_count items.new.store ≡ live_count items.old.store }
    ensures limit { items.new.store.limit ≡ items.old.store.limit }
    ensures slots { items.new.capacity ≡ items.old.capacity }
    ensures capacity { X.capacity indexes.new ≡ X.capacity indexes.old }
    ensures cells { X.cells indexes.new ≡ X.cells indexes.old }
{
    let before = items.len();
    retain_within::<P, Q, T, S, X, F, G>(items, indexes, state, bounds, keep, gone);
    before - items.len()
}

// Keeps, of the items whose keys are within the bounds, those at which the first closure answers true, and passes the
// others to the second. The closures stay in the states that their last calls leave.
fn retain_within<P, Q, T, S, X, F: FnMut(&T) -> bool, G: FnMut(T)>(
    items: &mut ItemSet<T>,
    indexes: &mut X,
    state: &S,
    bounds: &Bounds<Q>,
    keep: &mut F,
    gone: &mut G,
)
where
    X: StepsAt<P, Q, T, S>,
    Q: Copy,
    requires indexed { IsIndexed (X.indexes indexes.old) state.now items.old.store }
    requires can_ask { let within = is_in_bounds X.compare bounds.now in
        AsksWithin X.order within (TakesAt F.FnMut) (CalledAt F.FnMut) keep.old items.old.store }
    requires can_give { let within = is_in_bounds X.compare bounds.now in
        AsksWithin X.order within (TakesItem G.FnMut) (GivesIfRefused G.FnMut) gone.old items.old.store }
    ensures indexed { IsIndexed (X.indexes indexes.new) state.now items.new.store }
    ensures asked { let within = is_in_bounds X.compare bounds.now in
        RetainsWithin X.order within (AsksAndGives G.FnMut (CalledAt F.FnMut)) (keep.old, gone.old)
        items.old.store items.new.store (keep.new, gone.new) }
    ensures others { let within = is_in_bounds X.compare bounds.now in
        KeepsMisses items.old.store within items.new.store }
    ensures fewer { live_count items.new.store ≤ live_count items.old.store }
    ensures limit { items.new.store.limit ≡ items.old.store.limit }
    ensures slots { items.new.capacity ≡ items.old.capacity }
    ensures capacity { X.capacity indexes.new ≡ X.capacity indexes.old }
    ensures cells { X.cells indexes.new ≡ X.cells indexes.old }
{
    let Some((first, mut spot)) = indexes.first_between(items, state, bounds) else {
        return;
    };
    let mut next = Some(first);
    while let Some(ix) = next {
        let (_, then) = retain_at::<P, Q, T, S, X, F, G>(
            items, indexes, state, &mut spot, ix, bounds, keep, gone,
        );
        next = then;
    }
}

// Calls the first closure at the item at a live index, and removes the item if the closure answers false: it is passed
// to the second. Returns the answer, and the next index behind it whose item's key is within the bound, to which the
// spot is moved.
fn retain_at<P, Q, T, S, X, F: FnMut(&T) -> bool, G: FnMut(T)>(
    items: &mut ItemSet<T>,
    indexes: &mut X,
    state: &S,
    spot: &mut X::Spot,
    ix: ItemIndex,
    bounds: &Bounds<Q>,
    keep: &mut F,
    gone: &mut G,
) -> (bool, Option<ItemIndex>)
where
    X: StepsAt<P, Q, T, S>,
    Q: Copy,
    requires live { IsLive items.old.store ix }
    requires indexed { IsIndexed (X.indexes indexes.old) state.now items.old.store }
    requires stands { X.stands indexes.old spot.old ix }
    requires takes { (item : T) → get items.old.store ix ≡ Some item → TakesAt F.FnMut keep.old item }
    requires gives { (item : T) → get items.old.store ix ≡ Some item → TakesItem G.FnMut gone.old item }
    ensures asked { (item : T) → get items.old.store ix ≡ Some item → CalledAt F.FnMut keep.old item result.0 keep.new }
    ensures next { IsNextHit itself X.order items.old.store (is_up_to (bound_map X.compare bounds.now.upper)) ix
        result.1 }
    ensures stands { IfSome result.1 (X.stands indexes.new spot.new) }
    ensures indexed { IsIndexed (X.indexes indexes.new) state.now items.new.store }
    ensures kept { result.0 ≡ true → items.new ≡ items.old }
    ensures ungiven { result.0 ≡ true → gone.new ≡ gone.old }
    ensures removed { result.0 ≡ false → items.new ≡ record items.old { store = removed items.old.store ix } }
    ensures given { result.0 ≡ false → (item : T) → get items.old.store ix ≡ Some item →
        GivesItem G.FnMut gone.old item gone.new }
    ensures slots { items.new.capacity ≡ items.old.capacity }
    ensures capacity { X.capacity indexes.new ≡ X.capacity indexes.old }
    ensures cells { X.cells indexes.new ≡ X.cells indexes.old }
{
    let is_kept = match items.get(ix) {
        Some(item) => keep(item),
        None => unreachable!(),
    };
    if is_kept {
        return (
            is_kept,
            indexes.next_between(items, state, spot, ix, bounds),
        );
    }
    let (taken, next) = take_out_between::<P, Q, T, X, S>(items, indexes, state, spot, ix, bounds);
    match taken {
        Some(item) => gone(item),
        None => unreachable!(),
    }
    (is_kept, next)
}
