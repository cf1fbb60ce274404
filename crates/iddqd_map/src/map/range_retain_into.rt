//! Calls that ask a closure about each item within bounds of a key, and pass those that it rejects to another closure.
ghost use Rattle.std.specs.Prelude.{◌≡◌, ◌≤◌, ◌+◌};
ghost use Rattle.std.specs.Fn.{TakesAt, CalledAt};
ghost use Rattle.iddqd.specs.{live_count};
ghost use Rattle.iddqd_keys.specs.Bounds.{is_in_bounds};
ghost use Rattle.iddqd_map.specs.Map.{room};
ghost use Rattle.iddqd_map.specs.Ranges.{GivesItem};
ghost use Rattle.iddqd_map.specs.RangeRetain.{GivesRefusedWithin, KeepsMisses, MayAskWithin, MayGiveSomeWithin, RetainsWithin};

use super::Map;
use super::range_retain::retain_counted;
use crate::key_index::{KeyIndex, StepsAt};
use iddqd_keys::bounds::IntoBounds;

impl<T, X: KeyIndex<T, S>, S> Map<T, X, S> {
    /// Keeps, of the items whose keys at the place are within the bounds, those at which the first closure answers
    /// true, passes the others to the second by value, and returns how many these were.
    ///
    /// The first closure is called once at each of them, by key and then by index. An item at which it answers false is
    /// removed at once, and passed to the second. Otherwise it behaves as `retain_range_by`.
    ///
    /// Cost: one search, and for each item a comparison with the upper bound; for each item that goes a removal from
    /// each other table; takes no memory.
    ///
    /// Asks: the first closure may be called on these items in turn, once each, and the second with any of them in
    /// turn.
    pub fn retain_range_into_by<P, Q, R, F: FnMut(&T) -> bool, G: FnMut(T)>(
        &mut self,
        range: R,
        mut f: F,
        mut g: G,
    ) -> usize
    where
        X: StepsAt<P, Q, T, S>,
        Q: Copy,
        R: IntoBounds<Q>,
        requires asked { MayAskWithin X.order (is_in_bounds X.compare (R.bounds range)) (TakesAt F.FnMut)
            (CalledAt F.FnMut) f self.old.store }
        requires given { MayGiveSomeWithin X.order (is_in_bounds X.compare (R.bounds range)) G.FnMut g
            self.old.store }
        ensures asked { (last : F) × RetainsWithin X.order (is_in_bounds X.compare (R.bounds range))
            (CalledAt F.FnMut) f self.old.store self.new.store last }
        ensures given { GivesRefusedWithin X.order (is_in_bounds X.compare (R.bounds range))
            (CalledAt F.FnMut) (GivesItem G.FnMut) f g self.old.store self.new.store }
        ensures others { KeepsMisses self.old.store (is_in_bounds X.compare (R.bounds range)) self.new.store }
        ensures memory { self.new.memory ≡ self.old.memory }
        ensures room { room self.old ≤ room self.new }
        ensures count { result + live_count self.new.store ≡ live_count self.old.store }
    {
        let bounds = range.into_bounds();
        retain_counted::<P, Q, T, S, X, F, G>(
            &mut self.items,
            &mut self.indexes,
            &self.state,
            &bounds,
            &mut f,
            &mut g,
        )
    }
}
