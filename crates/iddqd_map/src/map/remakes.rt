//! Replaces an item by what a closure makes of it, where the closure takes the item itself: for items that own memory.
//!
//! The item leaves the map before the closure is called, and the new one gets its index. So no refusal can put the old
//! item back. `change_by` and `replace_by` keep it.
ghost use Rattle.std.specs.Prelude.{◌≡◌, ◌≤◌, Some, IfOk, IfSome, IfNone, OnOk, OnErr};
ghost use Rattle.iddqd.specs.{get, live_count, next_index, removed};
ghost use Rattle.iddqd_keys.specs.Scan.{IsLive};
ghost use Rattle.iddqd_map.specs.Map.{FindsItem, map_with, room};
ghost use Rattle.iddqd_map.specs.KeyIndex.{IsIndexed};
ghost use Rattle.iddqd_map.specs.Remake.{Remakes, RemakesAt, RemakesIfLive};

use super::Map;
use super::steps::{put_in_room, take_out};
use crate::key_index::{Changes, UniqueAt};
use crate::refusal::InsertRefusal;
use iddqd::item_index::ItemIndex;
use iddqd::item_set::ItemSet;
use std::alloc::AllocError;

impl<T, X: Changes<T, S>, S> Map<T, X, S> {
    /// Replaces the item at an index by what the closure makes of it, and returns the index, which stays; `Ok(None)` if
    /// the index has no item, and then the closure isn't called.
    ///
    /// The new item may have other keys. If another item shares a unique key with it, or memory runs out, it comes
    /// back. The old item is gone then, and its index is the next that an insert takes. It is never refused as full.
    /// Hashed keys need no memory; a key in order needs none up to the capacity. Each index is removed from each table
    /// and inserted again, also where its key stays.
    ///
    /// Cost: a removal from each table; then a look-up and an insertion by each key; takes memory only for a key in
    /// order, and if there are more items than the capacity.
    ///
    /// Asks: the closure may be called with the item.
    pub fn remake_at<F: FnOnce(T) -> T>(
        &mut self,
        ix: ItemIndex,
        f: F,
    ) -> Result<Option<ItemIndex>, InsertRefusal<T, X::Conflict>>
        requires { (item : T) → get self.old.store ix ≡ Some item → F.FnOnce.pre f (item, tt) }
        ensures remakes { RemakesIfLive X.alike X.may_need_memory X.conflicts F.FnOnce f self.old ix result self.new }
        ensures same_index { IfOk result (λ found. IfSome found (λ at. at ≡ ix)) }
        ensures unchanged { IfOk result (λ found. IfNone found (self.new ≡ self.old)) }
        ensures gone { OnErr result (self.new.store ≡ removed self.old.store ix) }
        ensures next { OnErr result (next_index self.new.store ≡ ix) }
        ensures room { room self.old ≤ room self.new }
        ensures count { OnOk result (live_count self.new.store ≡ live_count self.old.store) }
    {
        if self.items.get(ix).is_none() {
            return Ok(None);
        }
        let at = remake(&mut self.items, &mut self.indexes, &self.state, ix, f)?;
        Ok(Some(at))
    }

    /// Replaces the item that has the key by what the closure makes of it, and returns its index; `Ok(None)` if no item
    /// has the key. Otherwise it behaves as `remake_at`.
    ///
    /// Cost: one look-up, a removal from each table; then a look-up and an insertion by each key; takes memory only for
    /// a key in order, and if there are more items than the capacity.
    ///
    /// Asks: the closure may be called with the item.
    pub fn remake_by<P, Q, F: FnOnce(T) -> T>(
        &mut self,
        query: Q,
        f: F,
    ) -> Result<Option<ItemIndex>, InsertRefusal<T, X::Conflict>>
    where
        X: UniqueAt<P, Q, T, S>,
        requires { (item : T) → FindsItem self.old.store (X.stands_for query) (Some item)
            → F.FnOnce.pre f (item, tt) }
        ensures remakes { Remakes X.alike X.may_need_memory X.conflicts F.FnOnce f self.old (X.stands_for query) result
            self.new }
        ensures unchanged { IfOk result (λ found. IfNone found (self.new ≡ self.old)) }
        ensures room { room self.old ≤ room self.new }
        ensures count { OnOk result (live_count self.new.store ≡ live_count self.old.store) }
    {
        let Some(ix) = self.find_by::<P, Q>(query) else {
            return Ok(None);
        };
        self.remake_at(ix, f)
    }
}

// Replaces the item at a live index by what the closure makes of it. The memory for the new item is asked for while the
// old one is there. If there is none, the closure is called all the same, so that there is an item to return.
fn remake<T, X: Changes<T, S>, S, F: FnOnce(T) -> T>(
    items: &mut ItemSet<T>,
    indexes: &mut X,
    state: &S,
    ix: ItemIndex,
    f: F,
) -> Result<ItemIndex, InsertRefusal<T, X::Conflict>>
    requires live { IsLive items.old.store ix }
    requires map { IsIndexed (X.indexes indexes.old) state.now items.old.store }
    requires callable { (item : T) → get items.old.store ix ≡ Some item → F.FnOnce.pre f (item, tt) }
    ensures map { IsIndexed (X.indexes indexes.new) state.now items.new.store }
    ensures remakes { RemakesAt X.alike X.may_need_memory X.conflicts F.FnOnce f
        (map_with items.old (X.capacity indexes.old) (X.cells indexes.old)) ix result
        (map_with items.new (X.capacity indexes.new) (X.cells indexes.new)) }
{
    let blocks = indexes.blocks_after(items, state);
    let made = match take_out(items, indexes, state, ix) {
        Some(item) => f(item),
        None => unreachable!(),
    };
    let hashes = X::hashes(state, &made);
    let position = match indexes.look_up(items, state, hashes, &made) {
        Ok(position) => position,
        Err(at) => return Err(InsertRefusal::Duplicate { item: made, at }),
    };
    match blocks {
        Ok(blocks) => Ok(put_in_room(items, indexes, state, hashes, position, blocks, made)),
        Err(AllocError) => Err(InsertRefusal::Memory(made)),
    }
}
