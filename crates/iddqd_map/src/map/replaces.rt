//! Replaces a stored item by another one, which may have other keys.
ghost use Rattle.std.specs.Prelude.{◌≡◌, Bool, IfSome};
ghost use Rattle.iddqd.specs.{live_count};
ghost use Rattle.iddqd_keys.specs.Scan.{IsLive, AnswersScan};
ghost use Rattle.iddqd_map.specs.Map.{map_with, room};
ghost use Rattle.iddqd_map.specs.Calls.{ReplacesAt, ReplacesIfLive, Replaces};
ghost use Rattle.iddqd_map.specs.KeyIndex.{AreKnownAt, IsIndexed};

use super::Map;
use crate::key_index::Moves;
use crate::refusal::ReplaceRefusal;
use iddqd::item_index::ItemIndex;
use iddqd::item_set::ItemSet;
use std::alloc::AllocError;

impl<T, X: Moves<T, S>, S> Map<T, X, S> {
    /// Replaces the item at an index, and returns the old one; `Missing` if the index has no item.
    ///
    /// The new item may have other keys. It gets the same index. If other items have a key of it, or memory runs out,
    /// it comes back, and nothing changes. A table whose key stays isn't touched. A hashed key needs no memory.
    ///
    /// Cost: a look-up by each key of the new item, and of each key that changes a removal and an insertion; takes
    /// memory only if a key in order changes and there are more items than the capacity.
    pub fn replace_at(&mut self, ix: ItemIndex, item: T) -> Result<T, ReplaceRefusal<T, X::Taken>>
        ensures replaces { ReplacesIfLive X.alike X.same_keys X.may_need_memory X.taken self.old ix item result
            self.new }
        ensures room { room self.new ≡ room self.old }
        ensures count { live_count self.new.store ≡ live_count self.old.store }
    {
        if self.items.get(ix).is_none() {
            return Err(ReplaceRefusal::Missing(item));
        }
        replace(
            &mut self.items,
            &mut self.indexes,
            &self.state,
            X::no_hashes(),
            ix,
            item,
        )
    }
}

// Replaces the item at a live index. All memory is taken before anything is written.
pub(super) fn replace<T, X: Moves<T, S>, S>(
    items: &mut ItemSet<T>,
    indexes: &mut X,
    state: &S,
    known: X::KnownHashes,
    ix: ItemIndex,
    item: T,
) -> Result<T, ReplaceRefusal<T, X::Taken>>
    requires live { IsLive items.old.store ix }
    requires known { AreKnownAt (X.are_known state.now) items.old.store ix known }
    requires map { IsIndexed (X.indexes indexes.old) state.now items.old.store }
    ensures map { IsIndexed (X.indexes indexes.new) state.now items.new.store }
    ensures replaces { ReplacesAt X.alike X.same_keys X.may_need_memory X.taken
        (map_with items.old (X.capacity indexes.old) (X.cells indexes.old)) ix item result
        (map_with items.new (X.capacity indexes.new) (X.cells indexes.new)) }
    ensures room { room (map_with items.new (X.capacity indexes.new) (X.cells indexes.new))
        ≡ room (map_with items.old (X.capacity indexes.old) (X.cells indexes.old)) }
    ensures count { live_count items.new.store ≡ live_count items.old.store }
{
    let plan = match indexes.plan_move(items, state, ix, &item) {
        Ok(plan) => plan,
        Err(at) => return Err(ReplaceRefusal::Duplicate { item, at }),
    };
    let blocks = match indexes.blocks_for(items, state, &plan) {
        Ok(blocks) => blocks,
        Err(AllocError) => return Err(ReplaceRefusal::Memory(item)),
    };
    indexes.commit_move(items, state, known, &plan, blocks, ix, &item);
    Ok(items.replace(ix, item))
}

// Replaces the item that a look-up found.
pub(super) fn replace_found<T, X: Moves<T, S>, S>(
    items: &mut ItemSet<T>,
    indexes: &mut X,
    state: &S,
    known: X::KnownHashes,
    found: Option<ItemIndex>,
    item: T,
) -> Result<T, ReplaceRefusal<T, X::Taken>>
    requires live { IfSome found (IsLive items.old.store) }
    requires known { IfSome found (λ ix. AreKnownAt (X.are_known state.now) items.old.store ix known) }
    requires map { IsIndexed (X.indexes indexes.old) state.now items.old.store }
    ensures map { IsIndexed (X.indexes indexes.new) state.now items.new.store }
    ensures replaces { (test : T → Bool) → AnswersScan items.old.store test found
        → Replaces X.alike X.same_keys X.may_need_memory X.taken
        (map_with items.old (X.capacity indexes.old) (X.cells indexes.old)) test item result
        (map_with items.new (X.capacity indexes.new) (X.cells indexes.new)) }
    ensures room { room (map_with items.new (X.capacity indexes.new) (X.cells indexes.new))
        ≡ room (map_with items.old (X.capacity indexes.old) (X.cells indexes.old)) }
    ensures count { live_count items.new.store ≡ live_count items.old.store }
{
    match found {
        Some(ix) => replace(items, indexes, state, known, ix, item),
        None => Err(ReplaceRefusal::Missing(item)),
    }
}
