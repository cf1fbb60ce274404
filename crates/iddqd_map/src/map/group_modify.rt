//! Modifies the items of a group by hash in place. Their keys stay.
ghost use Rattle.std.specs.Prelude.{◌≡◌, filter};
ghost use Rattle.iddqd.specs.{live_count};
ghost use Rattle.iddqd.specs.LiveItems.{live_items};
ghost use Rattle.iddqd_map.specs.Groups.{CountsHits};
ghost use Rattle.iddqd_map.specs.Map.{room};
ghost use Rattle.iddqd_map.specs.ModifyMany.{IsStoredHit, KeepsKeys, MayLeave, ModifiesHits, TakesMut};
ghost use Rattle.iddqd_map.specs.RangeRetain.{KeepsMisses};
ghost use Rattle.iddqd_map.specs.Retain.{MayAsk};

use super::Map;
use crate::grouped_at::StepsInGroup;
use crate::key_index::{IndexLaws, KeyIndex};

impl<T, X: KeyIndex<T, S>, S> Map<T, X, S> {
    /// Calls the closure with a `&mut` to each item that has the key for which the query stands, once, in no particular
    /// order, and returns how many there are.
    ///
    /// The caller proves that the closure leaves each of them its keys, as for `modify_at`. All other items stay. No
    /// memory is taken. It costs one look-up, which compares only keys of the same hash, each once.
    ///
    /// Cost: one look-up, which compares only keys of the same hash, each once; takes no memory.
    ///
    /// Asks: the closure may be called on each of these items in turn, and leaves each its keys.
    pub fn modify_hashed_group_by<P, Q, F: FnMut(&mut T)>(&mut self, query: Q, mut f: F) -> usize
    where
        X: StepsInGroup<P, Q, T, S> + IndexLaws<T, S>,
        requires callable { MayAsk (TakesMut F.FnMut) (MayLeave F.FnMut) f
            (filter (X.stands_for query) (live_items self.old.store)) }
        requires keeps { KeepsKeys F.FnMut X.keys (IsStoredHit self.old.store (X.stands_for query)) }
        ensures modified { (last : F) × ModifiesHits F.FnMut (X.stands_for query) f
            self.old.store self.new.store last result }
        ensures counted { CountsHits self.old.store (X.stands_for query) result }
        ensures others { KeepsMisses self.old.store (X.stands_for query) self.new.store }
        ensures memory { self.new.memory ≡ self.old.memory }
        ensures room { room self.new ≡ room self.old }
        ensures count { live_count self.new.store ≡ live_count self.old.store }
    {
        self.indexes
            .modify_group(&mut self.items, &self.state, query, &mut f)
    }
}
