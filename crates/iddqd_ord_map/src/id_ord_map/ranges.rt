//! Calls for the items whose keys are within bounds. They take no memory.
ghost use Rattle.std.specs.Prelude.{◌≡◌, ◌≤◌, ◌+◌};
ghost use Rattle.std.specs.Fn.{TakesAt, CalledAt};
ghost use Rattle.iddqd.specs.{live_count};
ghost use Rattle.iddqd_keys.specs.Bounds.{is_in_bounds};
ghost use Rattle.iddqd_ord_map.specs.ItemOrder.{GivesRefusedBetween, RemovesBetween, RetainsBetween};
ghost use Rattle.std.specs.Ordering.{on};
ghost use Rattle.iddqd_map.specs.Groups.{CountsHits};
ghost use Rattle.iddqd_map.specs.Map.{capacity, room};
ghost use Rattle.iddqd_map.specs.ModifyMany.{IsStoredHit, KeepsKeys, MayLeave, ModifiesWithin, TakesMut};
ghost use Rattle.iddqd_map.specs.RangeRetain.{KeepsMisses, MayAskWithin, MayGiveSomeWithin, MayGiveWithin};
ghost use Rattle.iddqd_map.specs.Ranges.{GivesItem, LeavesOthers};

use super::OrdMapBy;
use iddqd_keys::bounds::IntoBounds;
use iddqd_keys::item_order_query::ItemRangeQuery;
use iddqd_keys::order_key::OrdKey;
use iddqd_map::key_index::Here;

impl<T: Drop, E: OrdKey<T>> OrdMapBy<T, E> {
    /// Removes the items whose keys are within the bounds, and returns how many there were.
    ///
    /// The closure receives each of them, by key. It costs one search, and for each item a comparison with the upper
    /// bound.
    ///
    /// Cost: one search, and for each item a comparison with the upper bound; takes no memory.
    ///
    /// Asks: the closure may be called with each of these items in turn.
    pub fn remove_range<Q: ItemRangeQuery<T, E>, R: IntoBounds<Q>, F: FnMut(T)>(
        &mut self,
        range: R,
        f: F,
    ) -> usize
        requires { MayGiveWithin (on E.key_of E.cmp) (is_in_bounds Q.compare_item (R.bounds range)) F.FnMut f
            self.old.store }
        ensures left { LeavesOthers self.old.store (is_in_bounds Q.compare_item (R.bounds range))
            self.new.store }
        ensures handed { RemovesBetween (on E.key_of E.cmp) Q.compare_item (R.bounds range) (GivesItem F.FnMut) f
            self.old.store self.new.store }
        ensures memory { self.new.memory ≡ self.old.memory }
        ensures room { room self.old ≤ room self.new }
        ensures count { result + live_count self.new.store ≡ live_count self.old.store }
        ensures freed { live_count self.old.store ≤ capacity self.old → room self.new ≡ room self.old + result }
    {
        self.map.remove_range_by::<Here, Q, R, F>(range, f)
    }

    /// Keeps, of the items whose keys are within the bounds, those at which the closure answers true, and returns how
    /// many it removed.
    ///
    /// The closure is called once at each of them, by key. Those at which it answers false are removed; all other items
    /// stay under their indexes. It costs one search, and for each item a comparison with the upper bound.
    ///
    /// Cost: one search, and for each item a comparison with the upper bound; takes no memory.
    ///
    /// Asks: the closure may be called on these items in turn, once each.
    pub fn retain_range<Q: ItemRangeQuery<T, E>, R: IntoBounds<Q>, F: FnMut(&T) -> bool>(
        &mut self,
        range: R,
        f: F,
    ) -> usize
        requires { MayAskWithin (on E.key_of E.cmp) (is_in_bounds Q.compare_item (R.bounds range))
            (TakesAt F.FnMut) (CalledAt F.FnMut) f self.old.store }
        ensures asked { RetainsBetween (on E.key_of E.cmp) Q.compare_item (R.bounds range) (CalledAt F.FnMut) f
            self.old.store self.new.store }
        ensures others { KeepsMisses self.old.store (is_in_bounds Q.compare_item (R.bounds range))
            self.new.store }
        ensures memory { self.new.memory ≡ self.old.memory }
        ensures room { room self.old ≤ room self.new }
        ensures count { result + live_count self.new.store ≡ live_count self.old.store }
    {
        self.map.retain_range_by::<Here, Q, R, F>(range, f)
    }

    /// Keeps, of the items whose keys are within the bounds, those at which the first closure answers true, passes the
    /// others to the second by value, and returns how many these were.
    ///
    /// The first closure is called once at each of them, by key. An item at which it answers false is removed at once,
    /// and passed to the second. Otherwise it behaves as `retain_range`.
    ///
    /// Cost: one search, and for each item a comparison with the upper bound; takes no memory.
    ///
    /// Asks: the first closure may be called on these items in turn, once each, and the second with any of them in
    /// turn.
    pub fn retain_range_into<
        Q: ItemRangeQuery<T, E>,
        R: IntoBounds<Q>,
        F: FnMut(&T) -> bool,
        G: FnMut(T),
    >(&mut self, range: R, keep: F, gone: G) -> usize
        requires asked { MayAskWithin (on E.key_of E.cmp) (is_in_bounds Q.compare_item (R.bounds range))
            (TakesAt F.FnMut) (CalledAt F.FnMut) keep self.old.store }
        requires given { MayGiveSomeWithin (on E.key_of E.cmp) (is_in_bounds Q.compare_item (R.bounds range))
            G.FnMut gone self.old.store }
        ensures asked { RetainsBetween (on E.key_of E.cmp) Q.compare_item (R.bounds range) (CalledAt F.FnMut) keep
            self.old.store self.new.store }
        ensures given { GivesRefusedBetween (on E.key_of E.cmp) Q.compare_item (R.bounds range) (CalledAt F.FnMut)
            G.FnMut keep gone self.old.store self.new.store }
        ensures others { KeepsMisses self.old.store (is_in_bounds Q.compare_item (R.bounds range))
            self.new.store }
        ensures memory { self.new.memory ≡ self.old.memory }
        ensures room { room self.old ≤ room self.new }
        ensures count { result + live_count self.new.store ≡ live_count self.old.store }
    {
        self.map
            .retain_range_into_by::<Here, Q, R, F, G>(range, keep, gone)
    }

    /// Calls the closure with a `&mut` to each item whose key is within the bounds, by key, and returns how many there
    /// are. With `..` these are all items.
    ///
    /// The caller proves that the closure leaves each of them its key, as for `modify`. All other items stay. It takes
    /// no memory. It costs one search, and for each item a comparison with the upper bound.
    ///
    /// Cost: one search, and for each item a comparison with the upper bound; takes no memory.
    ///
    /// Asks: the closure may be called on each of these items in turn, and leaves each its keys.
    pub fn modify_range<Q: ItemRangeQuery<T, E>, R: IntoBounds<Q>, F: FnMut(&mut T)>(
        &mut self,
        keys: R,
        f: F,
    ) -> usize
        requires callable { MayAskWithin (on E.key_of E.cmp) (is_in_bounds Q.compare_item (R.bounds keys))
            (TakesMut F.FnMut) (MayLeave F.FnMut) f self.old.store }
        requires keeps { KeepsKeys F.FnMut E.key_of
            (IsStoredHit self.old.store (is_in_bounds Q.compare_item (R.bounds keys))) }
        ensures modified { (g : F) × ModifiesWithin F.FnMut (on E.key_of E.cmp)
            (is_in_bounds Q.compare_item (R.bounds keys)) f self.old.store self.new.store g result }
        ensures counted { CountsHits self.old.store (is_in_bounds Q.compare_item (R.bounds keys)) result }
        ensures others { KeepsMisses self.old.store (is_in_bounds Q.compare_item (R.bounds keys))
            self.new.store }
        ensures memory { self.new.memory ≡ self.old.memory }
        ensures room { room self.new ≡ room self.old }
        ensures count { live_count self.new.store ≡ live_count self.old.store }
    {
        self.map.modify_range_by::<Here, Q, R, F>(keys, f)
    }
}
