//! Gives all items away by value, and leaves the map empty.
ghost use Rattle.std.specs.Prelude.{◌≡◌, ◌≤◌, Bool, Some, None};
ghost use Rattle.std.specs.List.{FoldsTo};
ghost use Rattle.iddqd.specs.{cleared, get, live_count, removed};
ghost use Rattle.iddqd.specs.LiveItems.{live_items};
ghost use Rattle.iddqd_map.specs.Bulk.{MayGiveInTurn};
ghost use Rattle.iddqd_map.specs.Map.{room};
ghost use Rattle.iddqd_map.specs.Ranges.{GivesItem, TakesItem};
ghost use Rattle.iddqd_map.specs.Retain.{AsksInTurn};

use super::Map;
use crate::key_index::Upkeep;
use iddqd::item_index::ItemIndex;
use iddqd::item_set::ItemSet;

impl<T, X: Upkeep<T, S>, S> Map<T, X, S> {
    /// Passes each item to the closure by value, once, by rising index, and returns how many there were. Then the map
    /// is empty, as after `clear`: the next index is 0.
    ///
    /// The map keeps its memory, and takes none. No key is hashed or compared. It costs a step for each slot, and
    /// clearing the tables.
    ///
    /// Cost: a step for each slot, and clearing the tables; takes no memory.
    ///
    /// Asks: the closure may be called with each of these items in turn.
    pub fn drain_into<F: FnMut(T)>(&mut self, mut gone: F) -> usize
    where
        T: Drop,
        requires { MayGiveInTurn F.FnMut gone (live_items self.old.store) }
        ensures given { (last : F) × FoldsTo (GivesItem F.FnMut) gone (live_items self.old.store) last }
        ensures count { result ≡ live_count self.old.store }
        ensures store { self.new.store ≡ cleared self.old.store }
        ensures memory { self.new.memory ≡ self.old.memory }
        ensures room { room self.old ≤ room self.new }
    {
        let count = self.items.len();
        self.indexes.clear();
        give_all(&mut self.items, &mut gone);
        self.items.clear();
        count
    }
}

// Removes each item and passes it to the closure, by rising index. The closure stays in the state that its last call
// leaves.
fn give_all<T, F: FnMut(T)>(items: &mut ItemSet<T>, gone: &mut F)
    requires { AsksInTurn (TakesItem F.FnMut) (λ p x (b : Bool) q. GivesItem F.FnMut p x q) gone.old
        (live_items items.old.store) }
    ensures given { FoldsTo (GivesItem F.FnMut) gone.old (live_items items.old.store) gone.new }
    ensures limit { items.new.store.limit ≡ items.old.store.limit }
    ensures slots { items.new.capacity ≡ items.old.capacity }
{
    for at in 0..items.slot_count() {
        give_slot(items, ItemIndex::new(at as u32), gone);
    }
}

// Removes the item at an index, if there is one, and passes it to the closure.
fn give_slot<T, F: FnMut(T)>(items: &mut ItemSet<T>, ix: ItemIndex, gone: &mut F)
    requires { (item : T) → get items.old.store ix ≡ Some item → TakesItem F.FnMut gone.old item }
    ensures vacant { get items.old.store ix ≡ None → (items.new ≡ items.old) × (gone.new ≡ gone.old) }
    ensures given { (item : T) → get items.old.store ix ≡ Some item →
        GivesItem F.FnMut gone.old item gone.new
        × (items.new ≡ record items.old { store = removed items.old.store ix }) }
{
    if let Some(item) = items.remove(ix) {
        gone(item);
    }
}
