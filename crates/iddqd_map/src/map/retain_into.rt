//! The items that one closure keeps; the others go to another closure.
ghost use Rattle.std.specs.Prelude.{◌≡◌, ◌≤◌, ◌+◌, Some};
ghost use Rattle.std.specs.Fn.{TakesAt, CalledAt};
ghost use Rattle.iddqd.specs.{get, live_count, removed, room as set_room};
ghost use Rattle.iddqd.specs.LiveItems.{live_items, live_pairs};
ghost use Rattle.iddqd_keys.specs.Scan.{IsLive};
ghost use Rattle.iddqd_map.specs.Bulk.{GivesRefused, GivesSome, MayGiveSome, RetainsInto};
ghost use Rattle.iddqd_map.specs.Map.{room};
ghost use Rattle.iddqd_map.specs.KeyIndex.{IsIndexed};
ghost use Rattle.iddqd_map.specs.Ranges.{GivesItem, TakesItem};
ghost use Rattle.iddqd_map.specs.Retain.{AsksInTurn, MayAskInTurn, Retains, RetainsTo};

use super::Map;
use super::steps::take_out;
use crate::key_index::Changes;
use iddqd::item_index::ItemIndex;
use iddqd::item_set::ItemSet;

impl<T, X: Changes<T, S>, S> Map<T, X, S> {
    /// Keeps exactly the items at which the first closure answers true, passes the others to the second by value, and
    /// returns how many these were.
    ///
    /// The first closure is called once at each item, by rising index. An item at which it answers false is removed at
    /// once, and passed to the second. Otherwise it behaves as `retain`.
    ///
    /// Cost: a step for each slot; for each item that goes a removal from each table; takes no memory.
    ///
    /// Asks: the first closure may be called on these items in turn, once each, and the second with any of them in
    /// turn.
    pub fn retain_into<F: FnMut(&T) -> bool, G: FnMut(T)>(
        &mut self,
        mut keep: F,
        mut gone: G,
    ) -> usize
        requires asked { MayAskInTurn (TakesAt F.FnMut) (CalledAt F.FnMut) keep (live_items self.old.store) }
        requires given { MayGiveSome G.FnMut gone (live_items self.old.store) }
        ensures retained { Retains (CalledAt F.FnMut) keep self.old self.new }
        ensures given { GivesRefused (CalledAt F.FnMut) (GivesItem G.FnMut) keep gone self.old.store self.new.store }
        ensures room { room self.old ≤ room self.new }
        ensures count { result + live_count self.new.store ≡ live_count self.old.store }
    {
        let before = self.items.len();
        retain_in(
            &mut self.items,
            &mut self.indexes,
            &self.state,
            &mut keep,
            &mut gone,
        );
        before - self.items.len()
    }
}

// Keeps the items at which the first closure answers true, and passes each other one to the second at once. The
// closures stay in the states that their last calls leave.
fn retain_in<T, S, X: Changes<T, S>, F: FnMut(&T) -> bool, G: FnMut(T)>(
    items: &mut ItemSet<T>,
    indexes: &mut X,
    state: &S,
    keep: &mut F,
    gone: &mut G,
)
    requires indexed { IsIndexed (X.indexes indexes.old) state.now items.old.store }
    requires asked { AsksInTurn (TakesAt F.FnMut) (CalledAt F.FnMut) keep.old (live_items items.old.store) }
    requires given { GivesSome G.FnMut gone.old (live_items items.old.store) }
    ensures indexed { IsIndexed (X.indexes indexes.new) state.now items.new.store }
    ensures retained { RetainsTo (CalledAt F.FnMut) keep.old items.old.store items.new.store keep.new }
    ensures given { RetainsInto (CalledAt F.FnMut) (GivesItem G.FnMut) (live_pairs items.old.store) keep.old gone.old
        items.old.store items.new.store keep.new gone.new }
    ensures slots { items.new.capacity ≡ items.old.capacity }
    ensures capacity { X.capacity indexes.new ≡ X.capacity indexes.old }
    ensures cells { X.cells indexes.new ≡ X.cells indexes.old }
{
    for at in 0..items.slot_count() {
        let ix = ItemIndex::new(at as u32);
        let Some(item) = items.get(ix) else {
            continue;
        };
        if !keep(item) {
            give_out(items, indexes, state, ix, gone);
        }
    }
}

/// Removes the item at a live index, and passes it to the closure.
pub(super) fn give_out<T, S, X: Changes<T, S>, G: FnMut(T)>(
    items: &mut ItemSet<T>,
    indexes: &mut X,
    state: &S,
    ix: ItemIndex,
    gone: &mut G,
)
    requires live { IsLive items.old.store ix }
    requires map { IsIndexed (X.indexes indexes.old) state.now items.old.store }
    requires given { (item : T) → get items.old.store ix ≡ Some item → TakesItem G.FnMut gone.old item }
    ensures map { IsIndexed (X.indexes indexes.new) state.now items.new.store }
    ensures given { (item : T) → get items.old.store ix ≡ Some item → GivesItem G.FnMut gone.old item gone.new }
    ensures removed { items.new ≡ record items.old { store = removed items.old.store ix } }
    ensures items_room { set_room items.new ≡ set_room items.old + 1 }
    ensures enough { (blocks : X.Blocks) → X.are_enough_after indexes.old blocks
        → X.are_enough_after indexes.new blocks }
    ensures roomy { (plan : X.InsertPlan) (blocks : X.Blocks) → X.are_enough_after indexes.old blocks
        → X.has_room_for indexes.new plan blocks }
    ensures capacity { X.capacity indexes.new ≡ X.capacity indexes.old }
    ensures cells { X.cells indexes.new ≡ X.cells indexes.old }
{
    match take_out(items, indexes, state, ix) {
        Some(item) => gone(item),
        None => unreachable!(),
    }
}
