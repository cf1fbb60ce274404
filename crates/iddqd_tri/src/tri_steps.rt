//! The steps that the store and the three tables of items with three keys take together.
//!
//! A step borrows the store and the tables apart, since its contract says how much room each of them has left. If
//! nothing clashes, the store makes room first, and returns a handle for the insert, which is used when the tables have
//! taken their memory. If stored items clash with the new one, their removal makes room in the store and in each table,
//! so no memory is taken and nothing can be refused.
ghost use Rattle.std.specs.Prelude.{◌≡◌, ◌≤◌, ◌+◌, ℕ, [], ◌∷◌, map, Some, None, IsSome, IsOk, IfOk, OnOk, IfErr, OnErr, OnSome, IfSome, IfNone};
ghost use Rattle.std.specs.Option.{option_and_then};
ghost use Rattle.iddqd.specs.{get, room, live_count, next_index, inserted, removed, IsFull, IsValid};
ghost use Rattle.iddqd_keys.specs.Scan.{IsLive};
ghost use Rattle.iddqd_tri.specs.Clashes.{AreInOrder, IsOneOf, clashing};
ghost use Rattle.iddqd_keys.specs.Removals.{removed_all};
ghost use Rattle.iddqd_tri.specs.TriState.{maps_without, maps_with, maps_without_all, HoldLive};
ghost use Rattle.iddqd_tri.specs.TriMemory.{SlotsGrow};
ghost use Rattle.iddqd_tri.specs.TriTables.{maps_of, three_hashes, memory_of, tables_memory, HaveRoom, TablesGrow, maps_without_one, removed_one};
ghost use Rattle.iddqd_keys.specs.Removals.{padded};
ghost use Rattle.iddqd_tri.specs.TriCalls.{HasNoPlace};

use crate::clashes::Clashes;
use crate::tri_refusal::TriRefusal;
use crate::tri_tables::{TriHashes, TriTables};
use iddqd::item_index::ItemIndex;
use iddqd::item_set::{GrowError, ItemSet};
use iddqd_keys::tri_hash_item::TriHashItem;
use std::alloc::AllocError;
use std::hash::BuildHasher;

/// Removes the item at an index from the store, and the index from each table, if it is live. It takes
/// no memory.
pub(crate) fn remove_item<T: TriHashItem, S: BuildHasher>(
    items: &mut ItemSet<T>,
    tables: &mut TriTables,
    state: &S,
    ix: ItemIndex,
) -> Option<T>
    requires { HoldLive items.old.store (maps_of tables.old) }
    ensures value { result ≡ get items.old.store ix }
    ensures removed { OnSome result (items.new.store ≡ removed items.old.store ix) }
    ensures taken { OnSome result (maps_of tables.new ≡ maps_without (maps_of tables.old) ix) }
    ensures items_stay { IfNone result (items.new ≡ items.old) }
    ensures tables_stay { IfNone result (tables.new ≡ tables.old) }
    ensures memory { memory_of items.new tables.new ≡ memory_of items.old tables.old }
    ensures room { OnSome result (room items.new ≡ room items.old + 1) }
    ensures tables_room { OnSome result (HaveRoom 1 tables.new) }
{
    let item = items.get(ix)?;
    let hashes = TriHashes::of(state, item);
    tables.remove(hashes, ix);
    items.remove(ix)
}

// Removes the item at a clashing index, if there is one, from the store and the tables.
fn remove_clash<T: TriHashItem, S: BuildHasher>(
    items: &mut ItemSet<T>,
    tables: &mut TriTables,
    state: &S,
    ix: Option<ItemIndex>,
) -> Option<T>
    requires held { HoldLive items.old.store (maps_of tables.old) }
    requires live { IfSome ix (IsLive items.old.store) }
    ensures value { result ≡ option_and_then (get items.old.store) ix }
    ensures removed { items.new.store ≡ removed_one items.old.store ix }
    ensures taken { maps_of tables.new ≡ maps_without_one (maps_of tables.old) ix }
    ensures held { HoldLive items.new.store (maps_of tables.new) }
    ensures memory { memory_of items.new tables.new ≡ memory_of items.old tables.old }
    ensures room { IsSome ix → 1 ≤ room items.new }
    ensures room_stays { room items.old ≤ room items.new }
    ensures tables_room { IsSome ix → HaveRoom 1 tables.new }
    ensures tables_room_stays { HaveRoom 1 tables.old → HaveRoom 1 tables.new }
{
    remove_item(items, tables, state, ix?)
}

// Removes the items at these indexes from the store and the tables, in this order. They come back as a
// tuple: a caller of a function that returns an array of a generic type has to prove that the array
// fits into memory, in one goal with all that the function requires, which is expensive to check.
fn remove_clashes<T: TriHashItem, S: BuildHasher>(
    items: &mut ItemSet<T>,
    tables: &mut TriTables,
    state: &S,
    clashes: Clashes,
) -> (Option<T>, Option<T>, Option<T>)
    requires held { HoldLive items.old.store (maps_of tables.old) }
    requires ordered { AreInOrder clashes.first clashes.second clashes.third }
    requires live { (ix : ℕ) → IsOneOf clashes.first clashes.second clashes.third ix → IsLive items.old.store ix }
    ensures values { result.0 ∷ (result.1 ∷ (result.2 ∷ [])) ≡ padded 3 (map (get items.old.store) (clashing clashes)) }
    ensures removed { items.new.store ≡ removed_all items.old.store (clashing clashes) }
    ensures taken { maps_of tables.new ≡ maps_without_all (maps_of tables.old) (clashing clashes) }
    ensures held { HoldLive items.new.store (maps_of tables.new) }
    ensures memory { memory_of items.new tables.new ≡ memory_of items.old tables.old }
    ensures room { IsSome clashes.first → 1 ≤ room items.new }
    ensures tables_room { IsSome clashes.first → HaveRoom 1 tables.new }
{
    let first = remove_clash(items, tables, state, clashes.first);
    let second = remove_clash(items, tables, state, clashes.second);
    let third = remove_clash(items, tables, state, clashes.third);
    (first, second, third)
}

// Stores an item. There is room for it, so it can't be refused.
fn store_in_room<T>(items: &mut ItemSet<T>, item: T) -> ItemIndex
    requires { 1 ≤ room items.old }
    ensures index { result ≡ next_index items.old.store }
    ensures stored { items.new ≡ record items.old { store = inserted items.old.store item } }
{
    match items.assert_can_grow() {
        Ok(handle) => handle.insert(item),
        Err(_) => unreachable!(),
    }
}

/// Stores an item that clashes with none, and files its index under the hashes. All memory is taken before
/// anything is written.
pub(crate) fn insert_without_clash<T: TriHashItem>(
    items: &mut ItemSet<T>,
    tables: &mut TriTables,
    item: T,
    hashes: TriHashes,
) -> Result<ItemIndex, TriRefusal<T>>
    requires valid { IsValid items.old.store }
    requires held { HoldLive items.old.store (maps_of tables.old) }
    ensures not_full { IsOk result → IsFull items.old.store → ⊥ }
    ensures index { IfOk result (λ ix. ix ≡ next_index items.old.store) }
    ensures stored { OnOk result (items.new.store ≡ inserted items.old.store item) }
    ensures added { OnOk result (maps_of tables.new
        ≡ maps_with (maps_of tables.old) (next_index items.old.store) (three_hashes hashes)) }
    ensures refused { IfErr result (HasNoPlace items.old.store item) }
    ensures items_stay { OnErr result (items.new.store ≡ items.old.store) }
    ensures tables_stay { OnErr result (maps_of tables.new ≡ maps_of tables.old) }
    ensures slots { let live = live_count items.old.store in
        SlotsGrow items.old.store.limit (live + 1) items.old.capacity items.new.capacity }
    ensures memory { TablesGrow 1 tables.old tables.new }
    ensures needed { (back : T) → result ≡ Err (TriRefusal.Memory back)
        → 1 ≤ room items.old → HaveRoom 1 tables.old → ⊥ }
{
    let handle = match items.assert_can_grow() {
        Ok(handle) => handle,
        Err(GrowError::Full) => return Err(TriRefusal::Full(item)),
        Err(GrowError::Memory) => return Err(TriRefusal::Memory(item)),
    };
    if let Err(AllocError) = tables.reserve(1) {
        return Err(TriRefusal::Memory(item));
    }
    let ix = handle.insert(item);
    tables.insert(hashes, ix);
    Ok(ix)
}

/// Removes the items that clash with an item, stores it and files its index under the hashes. It takes no memory.
/// The items that clash come back as `remove_clashes` returns them.
pub(crate) fn replace_clashes<T: TriHashItem, S: BuildHasher>(
    items: &mut ItemSet<T>,
    tables: &mut TriTables,
    state: &S,
    item: T,
    hashes: TriHashes,
    clashes: Clashes,
) -> (ItemIndex, (Option<T>, Option<T>, Option<T>))
    requires valid { IsValid items.old.store }
    requires held { HoldLive items.old.store (maps_of tables.old) }
    requires ordered { AreInOrder clashes.first clashes.second clashes.third }
    requires live { (ix : ℕ) → IsOneOf clashes.first clashes.second clashes.third ix → IsLive items.old.store ix }
    requires some { IsSome clashes.first }
    ensures index { result.0 ≡ next_index (removed_all items.old.store (clashing clashes)) }
    ensures values { let values = padded 3 (map (get items.old.store) (clashing clashes)) in
        result.1.0 ∷ (result.1.1 ∷ (result.1.2 ∷ [])) ≡ values }
    ensures stored { items.new.store ≡ inserted (removed_all items.old.store (clashing clashes)) item }
    ensures added { let left = removed_all items.old.store (clashing clashes) in
        maps_of tables.new
        ≡ maps_with (maps_without_all (maps_of tables.old) (clashing clashes)) (next_index left) (three_hashes hashes) }
    ensures memory { memory_of items.new tables.new ≡ memory_of items.old tables.old }
{
    let removed = remove_clashes(items, tables, state, clashes);
    let ix = store_in_room(items, item);
    tables.insert(hashes, ix);
    (ix, removed)
}
