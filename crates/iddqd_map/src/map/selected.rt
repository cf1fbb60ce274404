//! Calls on the items of a selection: they keep some, remove all, or count them.
//!
//! Those that remove are `sweep`, each with closures of its own.
ghost use Rattle.std.specs.Prelude.{◌≡◌, ◌≤◌, ◌+◌, IfOk};
ghost use Rattle.iddqd.specs.{live_count};
ghost use Rattle.iddqd_map.specs.Groups.{CountsHits};
ghost use Rattle.iddqd_map.specs.KeyIndex.{IsIndexed};
ghost use Rattle.iddqd_map.specs.Map.{capacity, room};
ghost use Rattle.iddqd_map.specs.RangeRetain.{KeepsMisses};
ghost use Rattle.iddqd_map.specs.Ranges.{LeavesOthers};
ghost use Rattle.iddqd_map.specs.Sweep.{CalledPairAt, GivesPair, GivesRejected, MayAskAlong, MayGiveAlong, MayGiveSomeAlong, RemovesSelected, RetainsSelected, RetainsUntil, TakesPairAt, goes_on, kept_if_ok};

use super::Map;
use super::sweep::sweep_counted;
use crate::key_index::KeyIndex;
use crate::selection::Selection;
use iddqd::item_index::ItemIndex;
use iddqd::item_set::ItemSet;

impl<T, X: KeyIndex<T, S>, S> Map<T, X, S> {
    /// Keeps, of the items of a selection, those at which the closure answers true, and returns how many it removed.
    ///
    /// The closure is called once at each of them, with its index, in the order of the selection. Those at which it
    /// answers false are removed; all other items stay under their indexes. No memory is taken.
    ///
    /// Cost: one search, and a step for each item of the selection; for each item that goes a removal from each table;
    /// takes no memory.
    ///
    /// Asks: the closure may be called on these items in turn, once each.
    pub fn retain_in<W, F: FnMut(ItemIndex, &T) -> bool>(&mut self, which: W, mut f: F) -> usize
    where
        T: Drop,
        W: Selection<T, X, S>,
        requires { MayAskAlong (W.lists which) (TakesPairAt F.FnMut) (CalledPairAt F.FnMut) f self.old.store }
        ensures asked { (last : F) × RetainsSelected (W.lists which) (CalledPairAt F.FnMut) f self.old.store
            self.new.store last }
        ensures others { KeepsMisses self.old.store (W.selects which) self.new.store }
        ensures memory { self.new.memory ≡ self.old.memory }
        ensures room { room self.old ≤ room self.new }
        ensures count { result + live_count self.new.store ≡ live_count self.old.store }
    {
        let (dropped, _) = sweep_counted(
            &mut self.items,
            &mut self.indexes,
            &self.state,
            &which,
            &mut f,
            &mut |_ix: ItemIndex, item: T| drop(item),
        );
        dropped
    }

    /// Keeps, of the items of a selection, those at which the first closure answers true, passes the others to the
    /// second by value, and returns how many these were.
    ///
    /// The first closure is called once at each of them, with its index, in the order of the selection. An item at
    /// which it answers false is removed at once, and passed to the second with its index. Otherwise it behaves as
    /// `retain_in`.
    ///
    /// Cost: one search, and a step for each item of the selection; for each item that goes a removal from each table;
    /// takes no memory.
    ///
    /// Asks: the first closure may be called on these items in turn, once each, and the second with any of them in
    /// turn.
    pub fn retain_into_in<W, F: FnMut(ItemIndex, &T) -> bool, G: FnMut(ItemIndex, T)>(
        &mut self,
        which: W,
        mut keep: F,
        mut gone: G,
    ) -> usize
    where
        W: Selection<T, X, S>,
        requires asked { MayAskAlong (W.lists which) (TakesPairAt F.FnMut) (CalledPairAt F.FnMut) keep self.old.store }
        requires given { MayGiveSomeAlong (W.lists which) G.FnMut gone self.old.store }
        ensures asked { (last : F) × RetainsSelected (W.lists which) (CalledPairAt F.FnMut) keep self.old.store
            self.new.store last }
        ensures given { GivesRejected (W.lists which) (CalledPairAt F.FnMut) (GivesPair G.FnMut) keep gone
            self.old.store self.new.store }
        ensures others { KeepsMisses self.old.store (W.selects which) self.new.store }
        ensures memory { self.new.memory ≡ self.old.memory }
        ensures room { room self.old ≤ room self.new }
        ensures count { result + live_count self.new.store ≡ live_count self.old.store }
    {
        let (rejected, _) = sweep_counted(
            &mut self.items,
            &mut self.indexes,
            &self.state,
            &which,
            &mut keep,
            &mut gone,
        );
        rejected
    }

    /// Removes the items of a selection, and returns how many there were.
    ///
    /// The closure receives each of them with its index, in the order of the selection. No memory is taken.
    ///
    /// Cost: one search, and for each item of the selection a step and a removal from each table; takes no memory.
    ///
    /// Asks: the closure may be called with each of these items in turn.
    pub fn remove_in<W, F: FnMut(ItemIndex, T)>(&mut self, which: W, mut gone: F) -> usize
    where
        W: Selection<T, X, S>,
        requires { MayGiveAlong (W.lists which) F.FnMut gone self.old.store }
        ensures left { LeavesOthers self.old.store (W.selects which) self.new.store }
        ensures given { (last : F) × RemovesSelected (W.lists which) (GivesPair F.FnMut) gone self.old.store
            self.new.store last }
        ensures memory { self.new.memory ≡ self.old.memory }
        ensures room { room self.old ≤ room self.new }
        ensures count { result + live_count self.new.store ≡ live_count self.old.store }
        ensures freed { live_count self.old.store ≤ capacity self.old → room self.new ≡ room self.old + result }
    {
        let (emptied, _) = sweep_counted(
            &mut self.items,
            &mut self.indexes,
            &self.state,
            &which,
            &mut |_ix: ItemIndex, _item: &T| false,
            &mut gone,
        );
        emptied
    }

    /// Keeps, of the items of a selection, those at which the closure answers `Ok(true)`, and returns how many it
    /// removed. It stops at the first error, and returns that.
    ///
    /// The closure is called once at each of them, with its index, in the order of the selection, until it fails. Those
    /// at which it answered `Ok(false)` are removed, also if a later call fails; all other items stay under their
    /// indexes, the one at which it fails too. No memory is taken.
    ///
    /// Cost: one search, and a step for each item of the selection up to the first error; for each item that goes a
    /// removal from each table; takes no memory.
    ///
    /// Asks: the closure may be called on these items in turn, once each, until it fails.
    pub fn try_retain_in<W, E: Drop, F: FnMut(ItemIndex, &T) -> Result<bool, E>>(
        &mut self,
        which: W,
        mut f: F,
    ) -> Result<usize, E>
    where
        T: Drop,
        W: Selection<T, X, S>,
        requires { MayAskAlong (W.lists which) (TakesPairAt F.FnMut) (goes_on kept_if_ok (CalledPairAt F.FnMut)) f
            self.old.store }
        ensures asked { (last : F) × RetainsUntil (W.lists which) (CalledPairAt F.FnMut) f self.old.store self.new.store
            result last }
        ensures others { KeepsMisses self.old.store (W.selects which) self.new.store }
        ensures memory { self.new.memory ≡ self.old.memory }
        ensures room { room self.old ≤ room self.new }
        ensures count { IfOk result (λ removed. removed + live_count self.new.store ≡ live_count self.old.store) }
    {
        let (removed, stopped) = sweep_counted(
            &mut self.items,
            &mut self.indexes,
            &self.state,
            &which,
            &mut f,
            &mut |_ix: ItemIndex, item: T| drop(item),
        );
        let Some((_, answer)) = stopped else {
            return Ok(removed);
        };
        match answer {
            Err(e) => Err(e),
            Ok(_) => unreachable!(),
        }
    }

    /// How many items a selection has.
    ///
    /// Cost: one search, and a step for each item of the selection; takes no memory.
    pub fn count_in<W>(&self, which: W) -> usize
    where
        W: Selection<T, X, S>,
        ensures { CountsHits self.now.store (W.selects which) result }
    {
        count_along(&self.items, &self.indexes, &self.state, &which)
    }
}

// How many items a selection has.
fn count_along<W, T, S, X>(items: &ItemSet<T>, indexes: &X, state: &S, which: &W) -> usize
where
    X: KeyIndex<T, S>,
    W: Selection<T, X, S>,
    requires indexed { IsIndexed (X.indexes indexes.now) state.now items.now.store }
    ensures { CountsHits items.now.store (W.selects which.now) result }
{
    let Some((first, mut spot)) = which.first(indexes, items, state) else {
        return 0;
    };
    let mut next = Some(first);
    let mut count = 0;
    while let Some(ix) = next {
        next = which.next(indexes, items, state, &mut spot, ix);
        count += 1;
    }
    count
}
