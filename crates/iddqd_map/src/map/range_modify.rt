//! Calls that modify the items within bounds of a key in place. Their keys stay.
//!
//! The closure sees each item once, by key and then by index. Since keys stay, a spot in that order says how far the
//! call has come. So there is one search, no list of indexes is kept, and no memory is taken.
ghost use Rattle.std.specs.Prelude.{◌≡◌};
ghost use Rattle.iddqd.specs.{live_count};
ghost use Rattle.iddqd_keys.specs.Bounds.{is_in_bounds};
ghost use Rattle.iddqd_keys.specs.OrderedQuery.{is_equal};
ghost use Rattle.iddqd_map.specs.Groups.{CountsHits};
ghost use Rattle.iddqd_map.specs.KeyIndex.{IsIndexed};
ghost use Rattle.iddqd_map.specs.Map.{room};
ghost use Rattle.iddqd_map.specs.ModifyMany.{IsStoredHit, KeepsKeys, MayLeave, ModifiesWithin, TakesMut};
ghost use Rattle.iddqd_map.specs.RangeRetain.{AsksWithin, KeepsMisses, MayAskWithin};

use super::Map;
use super::modify_each::modify_slot;
use crate::key_index::{IndexLaws, KeyIndex, StepsAt};
use iddqd::item_set::ItemSet;
use iddqd_keys::bounds::{Bounds, IntoBounds};

impl<T, X: KeyIndex<T, S>, S> Map<T, X, S> {
    /// Calls the closure with a `&mut` to each item whose key at the place is within the bounds, by key and then by
    /// index, and returns how many there are.
    ///
    /// The caller proves that the closure leaves each of them its keys, as for `modify_at`. All other items stay. No
    /// memory is taken. It costs one search by that key, and for each item a comparison with the upper bound.
    ///
    /// Cost: one search, and for each item a comparison with the upper bound; takes no memory.
    ///
    /// Asks: the closure may be called on each of these items in turn, and leaves each its keys.
    pub fn modify_range_by<P, Q, R, F: FnMut(&mut T)>(&mut self, range: R, mut f: F) -> usize
    where
        X: StepsAt<P, Q, T, S> + IndexLaws<T, S>,
        Q: Copy,
        R: IntoBounds<Q>,
        requires callable { MayAskWithin X.order (is_in_bounds X.compare (R.bounds range))
            (TakesMut F.FnMut) (MayLeave F.FnMut) f self.old.store }
        requires keeps { let within = is_in_bounds X.compare (R.bounds range) in
            KeepsKeys F.FnMut X.keys (IsStoredHit self.old.store within) }
        ensures modified { (last : F) × ModifiesWithin F.FnMut X.order (is_in_bounds X.compare (R.bounds range))
            f self.old.store self.new.store last result }
        ensures counted { CountsHits self.old.store (is_in_bounds X.compare (R.bounds range)) result }
        ensures others { KeepsMisses self.old.store (is_in_bounds X.compare (R.bounds range)) self.new.store }
        ensures memory { self.new.memory ≡ self.old.memory }
        ensures room { room self.new ≡ room self.old }
        ensures count { live_count self.new.store ≡ live_count self.old.store }
    {
        let bounds = range.into_bounds();
        modify_within::<P, Q, T, S, X, F>(
            &mut self.items,
            &self.indexes,
            &self.state,
            &bounds,
            &mut f,
        )
    }

    /// Calls the closure with a `&mut` to each item that has the key for which the query stands, by index, and returns
    /// how many there are. Otherwise it behaves as `modify_range_by`.
    ///
    /// Cost: one search, and for each item a comparison with the upper bound; takes no memory.
    ///
    /// Asks: the closure may be called on each of these items in turn, and leaves each its keys.
    pub fn modify_group_by<P, Q, F: FnMut(&mut T)>(&mut self, query: Q, mut f: F) -> usize
    where
        X: StepsAt<P, Q, T, S> + IndexLaws<T, S>,
        Q: Copy,
        requires callable { MayAskWithin X.order (is_equal (X.compare query)) (TakesMut F.FnMut) (MayLeave F.FnMut) f
            self.old.store }
        requires keeps { KeepsKeys F.FnMut X.keys (IsStoredHit self.old.store (is_equal (X.compare query))) }
        ensures modified { (last : F) × ModifiesWithin F.FnMut X.order (is_equal (X.compare query)) f
            self.old.store self.new.store last result }
        ensures counted { CountsHits self.old.store (is_equal (X.compare query)) result }
        ensures others { KeepsMisses self.old.store (is_equal (X.compare query)) self.new.store }
        ensures memory { self.new.memory ≡ self.old.memory }
        ensures room { room self.new ≡ room self.old }
        ensures count { live_count self.new.store ≡ live_count self.old.store }
    {
        modify_within::<P, Q, T, S, X, F>(
            &mut self.items,
            &self.indexes,
            &self.state,
            &Bounds::only(query),
            &mut f,
        )
    }
}

// Calls the closure with a `&mut` to each item whose key is within the bounds, in order, and returns how many there
// are. The closure stays in the state that its last call leaves.
fn modify_within<P, Q, T, S, X, F: FnMut(&mut T)>(
    items: &mut ItemSet<T>,
    indexes: &X,
    state: &S,
    bounds: &Bounds<Q>,
    f: &mut F,
) -> usize
where
    X: StepsAt<P, Q, T, S> + IndexLaws<T, S>,
    Q: Copy,
    requires indexed { IsIndexed (X.indexes indexes.now) state.now items.old.store }
    requires callable { let within = is_in_bounds X.compare bounds.now in
        AsksWithin X.order within (TakesMut F.FnMut) (MayLeave F.FnMut) f.old items.old.store }
    requires keeps { let within = is_in_bounds X.compare bounds.now in
        KeepsKeys F.FnMut X.keys (IsStoredHit items.old.store within) }
    ensures indexed { IsIndexed (X.indexes indexes.now) state.now items.new.store }
    ensures modified { let within = is_in_bounds X.compare bounds.now in
        ModifiesWithin F.FnMut X.order within f.old items.old.store items.new.store f.new result }
    ensures others { let within = is_in_bounds X.compare bounds.now in
        KeepsMisses items.old.store within items.new.store }
    ensures count { live_count items.new.store ≡ live_count items.old.store }
    ensures limit { items.new.store.limit ≡ items.old.store.limit }
    ensures slots { items.new.capacity ≡ items.old.capacity }
{
    let Some((first, mut spot)) = indexes.first_between(items, state, bounds) else {
        return 0;
    };
    let mut count = 0;
    let mut next = Some(first);
    while let Some(ix) = next {
        modify_slot(items, ix, f);
        count += 1;
        next = indexes.next_between(items, state, &mut spot, ix, bounds);
    }
    count
}
