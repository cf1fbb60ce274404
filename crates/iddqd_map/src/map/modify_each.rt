//! Modifies each item in place. Its keys stay.
//!
//! The closure sees each item once, by rising index. Its index stays where it is in each table, so no key is hashed or
//! compared, and no memory is taken.
ghost use Rattle.std.specs.Prelude.{◌≡◌, ℕ, Some, None};
ghost use Rattle.std.specs.Fn.{CalledAtMut};
ghost use Rattle.iddqd.specs.{get, live_count, rebound};
ghost use Rattle.iddqd.specs.LiveItems.{live_items};
ghost use Rattle.iddqd_map.specs.KeyIndex.{IsIndexed};
ghost use Rattle.iddqd_map.specs.Map.{room};
ghost use Rattle.iddqd_map.specs.ModifyMany.{IsStored, KeepsKeys, MayLeave, ModifiesEach, TakesMut};
ghost use Rattle.iddqd_map.specs.Retain.{AsksInTurn, MayAskInTurn};

use super::Map;
use crate::key_index::IndexLaws;
use iddqd::item_index::ItemIndex;
use iddqd::item_set::ItemSet;

impl<T, X: IndexLaws<T, S>, S> Map<T, X, S> {
    /// Calls the closure with a `&mut` to each item once, by rising index, and returns how many items there are.
    ///
    /// The caller proves that the closure leaves each item its keys, as for `modify_at`. No key is hashed or compared,
    /// and no memory is taken. It costs a step for each slot.
    ///
    /// Cost: a step for each slot; takes no memory.
    ///
    /// Asks: the closure may be called on each of these items in turn, and leaves each its keys.
    pub fn modify_each<F: FnMut(&mut T)>(&mut self, mut f: F) -> usize
        requires callable { MayAskInTurn (TakesMut F.FnMut) (MayLeave F.FnMut) f (live_items self.old.store) }
        requires keeps { KeepsKeys F.FnMut X.keys (IsStored self.old.store) }
        ensures called { result ≡ live_count self.old.store }
        ensures modified { (last : F) × ModifiesEach F.FnMut f self.old.store self.new.store last }
        ensures vacant { (ix : ℕ) → get self.old.store ix ≡ None → get self.new.store ix ≡ None }
        ensures memory { self.new.memory ≡ self.old.memory }
        ensures room { room self.new ≡ room self.old }
        ensures count { live_count self.new.store ≡ live_count self.old.store }
    {
        modify_in(&mut self.items, &self.indexes, &self.state, &mut f);
        self.items.len()
    }
}

// Calls the closure with a `&mut` to each item, by rising index. The closure stays in the state that its last call
// leaves.
fn modify_in<T, S, X: IndexLaws<T, S>, F: FnMut(&mut T)>(
    items: &mut ItemSet<T>,
    indexes: &X,
    state: &S,
    f: &mut F,
)
    requires indexed { IsIndexed (X.indexes indexes.now) state.now items.old.store }
    requires callable { AsksInTurn (TakesMut F.FnMut) (MayLeave F.FnMut) f.old (live_items items.old.store) }
    requires keeps { KeepsKeys F.FnMut X.keys (IsStored items.old.store) }
    ensures indexed { IsIndexed (X.indexes indexes.now) state.now items.new.store }
    ensures modified { ModifiesEach F.FnMut f.old items.old.store items.new.store f.new }
    ensures vacant { (ix : ℕ) → get items.old.store ix ≡ None → get items.new.store ix ≡ None }
    ensures count { live_count items.new.store ≡ live_count items.old.store }
    ensures limit { items.new.store.limit ≡ items.old.store.limit }
    ensures slots { items.new.capacity ≡ items.old.capacity }
{
    for at in 0..items.slot_count() {
        modify_slot(items, ItemIndex::new(at as u32), f);
    }
}

/// Calls the closure with a `&mut` to the item at an index, if there is one.
pub(super) fn modify_slot<T, F: FnMut(&mut T)>(items: &mut ItemSet<T>, ix: ItemIndex, f: &mut F)
    requires { (item : T) → get items.old.store ix ≡ Some item → TakesMut F.FnMut f.old item }
    ensures vacant { get items.old.store ix ≡ None → (items.new ≡ items.old) × (f.new ≡ f.old) }
    ensures called { (item : T) → get items.old.store ix ≡ Some item →
        (left : T) × CalledAtMut F.FnMut f.old item tt f.new left
        × (items.new ≡ record items.old { store = rebound items.old.store ix left }) }
{
    if let Some(item) = items.get_mut(ix) {
        f(item);
    }
}
