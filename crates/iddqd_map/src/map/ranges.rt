//! Calls that remove the items whose keys are within bounds of an ordered key.
//!
//! One search of that order finds the first item. Then each item is removed from that order where it stands, and from
//! each other table once. No memory is taken.
ghost use Rattle.std.specs.Prelude.{◌≡◌, ◌≤◌, ◌+◌, Bool};
ghost use Rattle.iddqd.specs.{live_count};
ghost use Rattle.iddqd_keys.specs.Bounds.{is_in_bounds};
ghost use Rattle.iddqd_map.specs.KeyIndex.{IsIndexed};
ghost use Rattle.iddqd_map.specs.Map.{capacity, room};
ghost use Rattle.iddqd_map.specs.Ranges.{LeavesOthers, TakesItem, GivesItem, RemovesAlong};
ghost use Rattle.iddqd_map.specs.RangeRetain.{AsksWithin, MayGiveWithin};

use super::Map;
use super::steps::take_out_between;
use crate::key_index::{KeyIndex, StepsAt};
use iddqd::item_set::ItemSet;
use iddqd_keys::bounds::{Bounds, IntoBounds};

impl<T, X: KeyIndex<T, S>, S> Map<T, X, S> {
    /// Removes the items whose keys at the place are within the bounds, and returns how many there were.
    ///
    /// The closure receives each of them, by key and then by index. No memory is taken. It costs one search by that
    /// key, and for each item a comparison with the upper bound and a removal from each other table.
    ///
    /// Cost: one search, and for each item a comparison with the upper bound and a removal from each other table; takes
    /// no memory.
    ///
    /// Asks: the closure may be called with each of these items in turn.
    pub fn remove_range_by<P, Q, R, F: FnMut(T)>(&mut self, range: R, mut f: F) -> usize
    where
        X: StepsAt<P, Q, T, S>,
        Q: Copy,
        R: IntoBounds<Q>,
        requires { MayGiveWithin X.order (is_in_bounds X.compare (R.bounds range)) F.FnMut f self.old.store }
        ensures left { LeavesOthers self.old.store (is_in_bounds X.compare (R.bounds range)) self.new.store }
        ensures handed { (last : F) × RemovesAlong X.order (is_in_bounds X.compare (R.bounds range))
            (GivesItem F.FnMut) f self.old.store self.new.store last }
        ensures memory { self.new.memory ≡ self.old.memory }
        ensures room { room self.old ≤ room self.new }
        ensures count { result + live_count self.new.store ≡ live_count self.old.store }
        ensures freed { live_count self.old.store ≤ capacity self.old → room self.new ≡ room self.old + result }
    {
        let bounds = range.into_bounds();
        let before = self.items.len();
        remove_within::<P, Q, T, S, X, F>(
            &mut self.items,
            &mut self.indexes,
            &self.state,
            &bounds,
            &mut f,
        );
        before - self.items.len()
    }
}

// Removes the items whose keys are within the bounds, and passes each to the closure. The closure stays in the state
// that its last call leaves.
fn remove_within<P, Q, T, S, X, F: FnMut(T)>(
    items: &mut ItemSet<T>,
    indexes: &mut X,
    state: &S,
    bounds: &Bounds<Q>,
    f: &mut F,
)
where
    X: StepsAt<P, Q, T, S>,
    Q: Copy,
    requires indexed { IsIndexed (X.indexes indexes.old) state.now items.old.store }
    requires can_give { let within = is_in_bounds X.compare bounds.now in
        AsksWithin X.order within (TakesItem F.FnMut) (λ p x (b : Bool) q. GivesItem F.FnMut p x q) f.old
        items.old.store }
    ensures indexed { IsIndexed (X.indexes indexes.new) state.now items.new.store }
    ensures left { let within = is_in_bounds X.compare bounds.now in
        LeavesOthers items.old.store within items.new.store }
    ensures handed { let within = is_in_bounds X.compare bounds.now in
        RemovesAlong X.order within (GivesItem F.FnMut) f.old items.old.store items.new.store f.new }
    ensures fewer { live_count items.new.store ≤ live_count items.old.store }
    ensures limit { items.new.store.limit ≡ items.old.store.limit }
    ensures slots { items.new.capacity ≡ items.old.capacity }
    ensures capacity { X.capacity indexes.new ≡ X.capacity indexes.old }
    ensures cells { X.cells indexes.new ≡ X.cells indexes.old }
{
    let Some((first, mut spot)) = indexes.first_between(items, state, bounds) else {
        return;
    };
    let mut next = Some(first);
    while let Some(ix) = next {
        let (taken, then) = take_out_between::<P, Q, T, X, S>(
            items, indexes, state, &mut spot, ix, bounds,
        );
        match taken {
            Some(item) => f(item),
            None => unreachable!(),
        }
        next = then;
    }
}
