//! The items that a closure keeps.
ghost use Rattle.std.specs.Prelude.{◌≡◌, ◌≤◌, ◌+◌};
ghost use Rattle.std.specs.Fn.{TakesAt, CalledAt};
ghost use Rattle.iddqd.specs.{live_count};
ghost use Rattle.iddqd.specs.LiveItems.{live_items};
ghost use Rattle.iddqd_map.specs.Map.{room};
ghost use Rattle.iddqd_map.specs.KeyIndex.{IsIndexed};
ghost use Rattle.iddqd_map.specs.Retain.{AsksInTurn, MayAskInTurn, Retains, RetainsTo};

use super::Map;
use super::steps::take_out;
use crate::key_index::Changes;
use iddqd::item_index::ItemIndex;
use iddqd::item_set::ItemSet;

impl<T, X: Changes<T, S>, S> Map<T, X, S> {
    /// Keeps exactly the items at which the closure answers true, under their indexes, and returns how many it removed.
    ///
    /// The closure is called once at each item, by rising index. The items at which it answers false are removed, by
    /// rising index. No memory is taken. It costs a step for each slot, and a look-up by each key for each removed
    /// item.
    ///
    /// Cost: a step for each slot; for each item that goes a removal from each table; takes no memory.
    ///
    /// Asks: the closure may be called on these items in turn, once each.
    pub fn retain<F: FnMut(&T) -> bool>(&mut self, mut f: F) -> usize
    where
        T: Drop,
        requires { MayAskInTurn (TakesAt F.FnMut) (CalledAt F.FnMut) f (live_items self.old.store) }
        ensures retained { Retains (CalledAt F.FnMut) f self.old self.new }
        ensures room { room self.old ≤ room self.new }
        ensures count { result + live_count self.new.store ≡ live_count self.old.store }
    {
        let before = self.items.len();
        retain_in(&mut self.items, &mut self.indexes, &self.state, &mut f);
        before - self.items.len()
    }
}

// Keeps the items at which the closure answers true. The closure stays in the state that its last call leaves. An item
// at which it answers false is removed at once, so no memory is taken.
fn retain_in<T: Drop, S, X: Changes<T, S>, F: FnMut(&T) -> bool>(
    items: &mut ItemSet<T>,
    indexes: &mut X,
    state: &S,
    f: &mut F,
)
    requires indexed { IsIndexed (X.indexes indexes.old) state.now items.old.store }
    requires can_ask { AsksInTurn (TakesAt F.FnMut) (CalledAt F.FnMut) f.old (live_items items.old.store) }
    ensures indexed { IsIndexed (X.indexes indexes.new) state.now items.new.store }
    ensures retained { RetainsTo (CalledAt F.FnMut) f.old items.old.store items.new.store f.new }
    ensures slots { items.new.capacity ≡ items.old.capacity }
    ensures capacity { X.capacity indexes.new ≡ X.capacity indexes.old }
    ensures cells { X.cells indexes.new ≡ X.cells indexes.old }
{
    for at in 0..items.slot_count() {
        let ix = ItemIndex::new(at as u32);
        let Some(item) = items.get(ix) else {
            continue;
        };
        if !f(item) {
            drop(take_out(items, indexes, state, ix));
        }
    }
}
