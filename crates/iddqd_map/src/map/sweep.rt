//! Calls that go over a selection of the items, and keep or remove each by what a closure answers.
//!
//! Each call is written once, over any selection: all items, those within a range of a key in order, or those with one
//! key. One loop, `sweep_along`, does the work of all that remove: it shows each item with its index to a closure, and
//! passes what it removes to another. A removed item leaves the map before the closure gets it. No list of indexes is
//! kept, and no memory is taken.
ghost use Rattle.std.specs.Prelude.{◌≡◌, ◌≤◌, ◌+◌, ℕ, true, false, IfSome, Some};
ghost use Rattle.std.specs.Option.{option_map};
ghost use Rattle.iddqd.specs.{get, live_count, removed};
ghost use Rattle.iddqd_keys.specs.Scan.{IsHit, IsLive};
ghost use Rattle.iddqd_map.specs.Groups.{listed_from};
ghost use Rattle.iddqd_map.specs.KeyIndex.{IsIndexed};
ghost use Rattle.iddqd_map.specs.Map.{room};
ghost use Rattle.iddqd_map.specs.RangeRetain.{KeepsMisses};
ghost use Rattle.iddqd_map.specs.Sweep.{CalledPairAt, CanSweepAlong, CanVisit, GivesPair, MayAskAlong, MayGiveSomeAlong, SweepsAlong, SweepsBy, TakesPair, TakesPairAt, goes_on, reads_itself, removes, stops};
ghost use Rattle.iddqd_map.specs.declared.verdict.Verdict.TheVariants.{Stop};

use super::Map;
use crate::key_index::KeyIndex;
use crate::selection::Selection;
use crate::verdict::{Answer, Verdict};
use iddqd::item_index::ItemIndex;
use iddqd::item_set::ItemSet;

/// What a sweep did.
#[derive(Clone, Copy)]
pub struct Swept {
    /// How many items it removed.
    pub removed: usize,
    /// The index of the item at which the closure ended it; `None` if it went over the whole selection.
    pub stopped_at: Option<ItemIndex>,
}

impl<T, X: KeyIndex<T, S>, S> Map<T, X, S> {
    /// Shows each item of a selection to a closure, which answers what becomes of it, and passes those that it removes
    /// to a second one by value.
    ///
    /// The first closure is called once at each item, with its index, in the order of the selection, until it answers
    /// `Stop`. An item at which it answers `Remove` is removed at once, and passed to the second with its index. All
    /// other items stay under their indexes. No memory is taken.
    ///
    /// Cost: one search, and a step for each item of the selection; for each item that goes a removal from each table;
    /// takes no memory.
    ///
    /// Asks: the first closure may be called on these items in turn, once each, until it answers `Stop`, and the second
    /// with any of them in turn.
    pub fn sweep<W, F: FnMut(ItemIndex, &T) -> Verdict, G: FnMut(ItemIndex, T)>(
        &mut self,
        which: W,
        mut ask: F,
        mut gone: G,
    ) -> Swept
    where
        W: Selection<T, X, S>,
        requires asked { MayAskAlong (W.lists which) (TakesPairAt F.FnMut) (goes_on reads_itself (CalledPairAt F.FnMut))
            ask self.old.store }
        requires given { MayGiveSomeAlong (W.lists which) G.FnMut gone self.old.store }
        ensures swept { SweepsBy F.FnMut G.FnMut (W.lists which) ask gone self.old.store self.new.store
            (option_map (λ ix. (ix, Stop)) result.stopped_at) }
        ensures others { KeepsMisses self.old.store (W.selects which) self.new.store }
        ensures memory { self.new.memory ≡ self.old.memory }
        ensures room { room self.old ≤ room self.new }
        ensures count { result.removed + live_count self.new.store ≡ live_count self.old.store }
    {
        let (removed, stopped) = sweep_counted(
            &mut self.items,
            &mut self.indexes,
            &self.state,
            &which,
            &mut ask,
            &mut gone,
        );
        Swept {
            removed,
            stopped_at: index_of(&stopped),
        }
    }
}

// The index at which a call ended, if it did.
fn index_of<R>(stopped: &Option<(ItemIndex, R)>) -> Option<ItemIndex>
    ensures { result ≡ option_map (λ (at : ℕ × R). at.0) stopped.now }
{
    match stopped {
        Some((ix, _)) => Some(*ix),
        None => None,
    }
}

/// Goes over a selection as `sweep` does, by any closure whose answers read as verdicts. Returns how many items it
/// removed, and the index and the answer that ended it. The closures stay in the states that their last calls leave.
pub(super) fn sweep_counted<W, T, S, X, R: Answer, F, G: FnMut(ItemIndex, T)>(
    items: &mut ItemSet<T>,
    indexes: &mut X,
    state: &S,
    which: &W,
    ask: &mut F,
    gone: &mut G,
) -> (usize, Option<(ItemIndex, R)>)
where
    F: FnMut(ItemIndex, &T) -> R,
    X: KeyIndex<T, S>,
    W: Selection<T, X, S>,
    requires indexed { IsIndexed (X.indexes indexes.old) state.now items.old.store }
    requires callable { CanSweepAlong (TakesPairAt F.FnMut) (CalledPairAt F.FnMut) R.reads (TakesPair G.FnMut)
        (GivesPair G.FnMut) (W.lists which.now) ask.old gone.old items.old.store }
    ensures indexed { IsIndexed (X.indexes indexes.new) state.now items.new.store }
    ensures swept { SweepsAlong (CalledPairAt F.FnMut) R.reads (GivesPair G.FnMut) (W.lists which.now) ask.old gone.old
        items.old.store items.new.store result.1 }
    ensures others { KeepsMisses items.old.store (W.selects which.now) items.new.store }
    ensures count { result.0 + live_count items.new.store ≡ live_count items.old.store }
    ensures limit { items.new.store.limit ≡ items.old.store.limit }
    ensures slots { items.new.capacity ≡ items.old.capacity }
    ensures capacity { X.capacity indexes.new ≡ X.capacity indexes.old }
    ensures cells { X.cells indexes.new ≡ X.cells indexes.old }
{
    let before = items.len();
    let stopped = sweep_along(items, indexes, state, which, ask, gone);
    (before - items.len(), stopped)
}

// Goes over a selection as `sweep_counted` does, and returns the index and the answer that ended it.
fn sweep_along<W, T, S, X, R: Answer, F: FnMut(ItemIndex, &T) -> R, G: FnMut(ItemIndex, T)>(
    items: &mut ItemSet<T>,
    indexes: &mut X,
    state: &S,
    which: &W,
    ask: &mut F,
    gone: &mut G,
) -> Option<(ItemIndex, R)>
where
    X: KeyIndex<T, S>,
    W: Selection<T, X, S>,
    requires indexed { IsIndexed (X.indexes indexes.old) state.now items.old.store }
    requires callable { CanSweepAlong (TakesPairAt F.FnMut) (CalledPairAt F.FnMut) R.reads (TakesPair G.FnMut)
        (GivesPair G.FnMut) (W.lists which.now) ask.old gone.old items.old.store }
    ensures indexed { IsIndexed (X.indexes indexes.new) state.now items.new.store }
    ensures swept { SweepsAlong (CalledPairAt F.FnMut) R.reads (GivesPair G.FnMut) (W.lists which.now) ask.old gone.old
        items.old.store items.new.store result }
    ensures others { KeepsMisses items.old.store (W.selects which.now) items.new.store }
    ensures fewer { live_count items.new.store ≤ live_count items.old.store }
    ensures limit { items.new.store.limit ≡ items.old.store.limit }
    ensures slots { items.new.capacity ≡ items.old.capacity }
    ensures capacity { X.capacity indexes.new ≡ X.capacity indexes.old }
    ensures cells { X.cells indexes.new ≡ X.cells indexes.old }
{
    let (first, mut spot) = which.first(indexes, items, state)?;
    let mut next = Some(first);
    while let Some(ix) = next {
        let (answer, then) = visit(items, indexes, state, which, &mut spot, ix, ask, gone);
        if let Verdict::Stop = answer.verdict() {
            return Some((ix, answer));
        }
        next = then;
    }
    None
}

// Calls the first closure at the item at an index of the selection, and keeps or removes the item as it answers: a
// removed one is passed to the second. Returns the answer, and the next index unless that answer ends the call.
fn visit<W, T, S, X, R: Answer, F: FnMut(ItemIndex, &T) -> R, G: FnMut(ItemIndex, T)>(
    items: &mut ItemSet<T>,
    indexes: &mut X,
    state: &S,
    which: &W,
    spot: &mut W::Spot,
    ix: ItemIndex,
    ask: &mut F,
    gone: &mut G,
) -> (R, Option<ItemIndex>)
where
    X: KeyIndex<T, S>,
    W: Selection<T, X, S>,
    requires hit { IsHit items.old.store (W.selects which.now) ix }
    requires indexed { IsIndexed (X.indexes indexes.old) state.now items.old.store }
    requires stands { W.stands which.now indexes.old spot.old ix }
    requires callable { (item : T) → get items.old.store ix ≡ Some item → CanVisit (TakesPairAt F.FnMut)
        (CalledPairAt F.FnMut) R.reads (TakesPair G.FnMut) (GivesPair G.FnMut) ask.old gone.old (ix, item) }
    ensures asked { (item : T) → get items.old.store ix ≡ Some item
        → CalledPairAt F.FnMut ask.old (ix, item) result.0 ask.new }
    ensures next { stops (R.reads result.0) ≡ false → W.behind which.now indexes.old items.old.store ix
        ≡ listed_from (W.behind which.now indexes.new items.new.store) result.1 }
    ensures stands { stops (R.reads result.0) ≡ false → IfSome result.1 (W.stands which.now indexes.new spot.new) }
    ensures indexed { IsIndexed (X.indexes indexes.new) state.now items.new.store }
    ensures kept { removes (R.reads result.0) ≡ false → items.new ≡ items.old }
    ensures ungiven { removes (R.reads result.0) ≡ false → gone.new ≡ gone.old }
    ensures removed { removes (R.reads result.0) ≡ true
        → items.new ≡ record items.old { store = removed items.old.store ix } }
    ensures given { removes (R.reads result.0) ≡ true → (item : T) → get items.old.store ix ≡ Some item →
        GivesPair G.FnMut gone.old (ix, item) gone.new }
    ensures slots { items.new.capacity ≡ items.old.capacity }
    ensures capacity { X.capacity indexes.new ≡ X.capacity indexes.old }
    ensures cells { X.cells indexes.new ≡ X.cells indexes.old }
{
    let answer = match items.get(ix) {
        Some(item) => ask(ix, item),
        None => unreachable!(),
    };
    match answer.verdict() {
        Verdict::Stop => (answer, None),
        Verdict::Keep => {
            let next = which.next(indexes, items, state, spot, ix);
            (answer, next)
        }
        Verdict::Remove => {
            let next = which.take(indexes, items, state, spot, ix);
            pass_on(items, ix, gone);
            (answer, next)
        }
    }
}

// Removes the item at a live index from the store, and passes it to the closure.
fn pass_on<T, G: FnMut(ItemIndex, T)>(items: &mut ItemSet<T>, ix: ItemIndex, gone: &mut G)
    requires live { IsLive items.old.store ix }
    requires given { (item : T) → get items.old.store ix ≡ Some item → TakesPair G.FnMut gone.old (ix, item) }
    ensures given { (item : T) → get items.old.store ix ≡ Some item → GivesPair G.FnMut gone.old (ix, item) gone.new }
    ensures removed { items.new ≡ record items.old { store = removed items.old.store ix } }
{
    match items.remove(ix) {
        Some(item) => gone(ix, item),
        None => unreachable!(),
    }
}
