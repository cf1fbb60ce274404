//! A map of items that have one key each, found by its order.
//!
//! It holds a `Map` with one key index in order, and forwards to it. It is no type name for that `Map`, since its
//! iterators, its `retain` and its equality go in the order of the keys. A look-up, an insert or a removal of one item
//! searches the table once; the comments of calls that search more often, or for many items, say how often they do.
//! Look-ups, removals and iteration take no memory.
ghost use Rattle.std.specs.Prelude.{◌≡◌, ◌≤◌, ◌↔◌, ◌+◌, false, [], min, max, length, None, IsTrue, IsOk, IfOk, IfErr, OnOk, OnErr, OnSome, IfNone, option_copied};
ghost use Rattle.std.specs.Ordering.{eq_by_cmp};
ghost use Rattle.iddqd.specs.{get, live_count, next_index, slot_limit, empty, empty_within, inserted, cleared, IsRemapOf};
ghost use Rattle.iddqd_map.specs.Calls.{Compacts, Inserts, IsDuplicate};
ghost use Rattle.iddqd_map.specs.Map.{empty_map, shares, capacity, room, IsMap, FindsItem, Removes, RemovesAt, RemovesFull};
ghost use Rattle.iddqd_map.specs.Memory.{ReservesItems, ShrinksItems, HasMoreThanNeeded};
ghost use Rattle.iddqd_map.specs.OneKey.{IsReported, OverwritesOne};
ghost use Rattle.iddqd_order.specs.MapBTreeTable.{order_of};
ghost use Rattle.iddqd_ord_map.specs.OrderedSteps.{most_cells};
ghost use Rattle.iddqd_ord_map.specs.OrderedIndexing.{Sorts};
ghost use Rattle.iddqd_by_order.specs.Ordered.{is_equal};
ghost use Rattle.iddqd_keys.specs.Scan.{HasNoHit, AnswersScan};

mod appends;
mod bulk_inserts;
mod checks;
mod clones;
mod equality;
mod into_values;
mod iter;
mod made_with;
mod modifies;
mod range;
mod ranges;
mod remakes;
mod replaces;
mod retain;
mod retain_into;
mod upserts;
mod values;
mod walks;

use crate::by_order::ByOrderOf;
use crate::ordered_query::find_by;
pub use clones::IdOrdClone;
use iddqd::index_remap::IndexRemap;
use iddqd::item_index::ItemIndex;
use iddqd::item_set::ItemSet;
pub use iddqd_keys::id_ord_item::IdOrdItem;
use iddqd_keys::item_order_query::ItemOrdQuery;
use iddqd_keys::key_kinds::ItsKey;
use iddqd_keys::order_key::OrdKey;
use iddqd_map::key_index::Here;
use iddqd_map::map::Map;
use iddqd_map::refusal::{InsertRefusal, OverwriteRefusal};
use iddqd_order::btree_table::MapBTreeTable;
pub use into_values::IntoValues;
pub use iter::Iter;
pub use range::Range;
use std::alloc::{AllocError, Global};
use std::marker::Model;
pub use values::Values;

/// A map of items that say themselves what their key is.
pub type IdOrdMap<T> = OrdMapBy<T, ItsKey<<T as IdOrdItem>::Key>>;

/// Items under stable indexes, which all have different keys. The key `E` is a `Field`, an `ItsKey`, a `Computed`
/// value, a `Reversed` key, a tuple of keys, or an `OrdKey` of your own.
///
/// A contract sees it as the store of its items, and its memory beside that.
#[derive(Drop)]
pub struct OrdMapBy<T: Drop, E: OrdKey<T>> {
    map: Map<T, ByOrderOf<E>, ()>,
}

impl<T: Drop, E: OrdKey<T>> Model for OrdMapBy<T, E> {
    ghost use Rattle.iddqd_map.specs.Map.{MapState, map_code};

    ghost Value = { MapState T };

    ghost coded = { map_code T.code };

    ghost view = { λ m. m.map };

    ghost inverse = { λ m. record { map = m } };
}

impl<T: Drop, E: OrdKey<T>> OrdMapBy<T, E> {
    /// Empty. It may grow to `u32::MAX` items, one for each index but `SENTINEL`.
    ///
    /// Cost: a few steps; takes no memory.
    pub fn new(alloc: Global) -> OrdMapBy<T, E>
        ensures { result ≡ empty_map u32.MAX }
    {
        OrdMapBy::with_limit(alloc, u32::MAX)
    }

    /// Empty, and never with more slots than the limit.
    ///
    /// No call changes the limit.
    ///
    /// Cost: a few steps; takes no memory.
    pub fn with_limit(alloc: Global, limit: u32) -> OrdMapBy<T, E>
        ensures { result ≡ empty_map limit }
    {
        OrdMapBy {
            map: Map::with_limit_and_hasher(alloc, (), limit),
        }
    }

    /// Empty, with memory for `wanted` items. With 0 it takes none.
    ///
    /// Cost: a few steps; takes memory for so many items.
    pub fn with_capacity(alloc: Global, wanted: usize) -> Result<OrdMapBy<T, E>, AllocError>
        ensures contents { IfOk result (λ m. m.store ≡ empty) }
        ensures room { IfOk result (λ m. min wanted slot_limit ≤ room m) }
        ensures slots { IfOk result (λ m. m.memory.slots ≡ wanted) }
        ensures cells { IfOk result (λ m. m.memory.cells ≤ most_cells wanted) }
        ensures none { wanted ≡ 0 → IsOk result }
    {
        Ok(OrdMapBy {
            map: Map::with_capacity_and_hasher(alloc, (), wanted)?,
        })
    }

    /// Empty, never with more slots than the limit, and with memory for `wanted` items or for as many as the limit
    /// allows. If that is 0 it takes none.
    ///
    /// Cost: a few steps; takes memory for so many items.
    pub fn with_limit_and_capacity(
        alloc: Global,
        limit: u32,
        wanted: usize,
    ) -> Result<OrdMapBy<T, E>, AllocError>
        ensures contents { IfOk result (λ m. m.store ≡ empty_within limit) }
        ensures room { IfOk result (λ m. min wanted limit ≤ room m) }
        ensures slots { IfOk result (λ m. m.memory.slots ≡ min wanted limit) }
        ensures cells { IfOk result (λ m. m.memory.cells ≤ most_cells (min wanted limit)) }
        ensures none { min wanted limit ≡ 0 → IsOk result }
    {
        Ok(OrdMapBy {
            map: Map::with_limit_capacity_and_hasher(alloc, (), limit, wanted)?,
        })
    }

    // The items, and the table that sorts them.
    fn parts(&self) -> (&ItemSet<T>, &MapBTreeTable)
        ensures items { result.0.now.store ≡ self.now.store }
        ensures sorted { Sorts E.key_of E.cmp result.0.now.store (order_of result.1.now) }
    {
        let parts = self.map.parts();
        (parts.items, &parts.indexes.table)
    }

    /// The number of items.
    ///
    /// Cost: a few steps; takes no memory.
    pub fn len(&self) -> usize
        ensures value { result ≡ live_count self.now.store }

        // What every map keeps.
        ensures state { IsMap (shares E.key_of (eq_by_cmp E.cmp)) self.now.store }
    {
        self.map.len()
    }

    /// Whether there is no item.
    ///
    /// Cost: a few steps; takes no memory.
    pub fn is_empty(&self) -> bool
        ensures { IsTrue result ↔ (live_count self.now.store ≡ 0) }
    {
        self.map.is_empty()
    }

    /// The index of the item that has the key for which the query stands.
    ///
    /// The query is a `&K` for a field `K`, a tuple of queries for a tuple of keys, or another query that stands for
    /// one key. It is one search of the ordered table, whose contract allows at most 4 + 2d comparisons, where the
    /// number of items has d binary digits. The contract here doesn't count them; tests do.
    ///
    /// Cost: one search; takes no memory.
    pub fn find<Q: ItemOrdQuery<T, E>>(&self, query: Q) -> Option<ItemIndex>
        ensures { AnswersScan self.now.store (is_equal (Q.compare_item query)) result }
    {
        let (items, table) = self.parts();
        find_by::<T, E, Q>(table, items, query)
    }

    /// Whether an item has the key.
    ///
    /// Cost: one search; takes no memory.
    pub fn contains_key<Q: ItemOrdQuery<T, E>>(&self, query: Q) -> bool
        ensures { (result ≡ false) ↔ HasNoHit self.now.store (is_equal (Q.compare_item query)) }
    {
        self.find(query).is_some()
    }

    /// The item that has the key.
    ///
    /// Cost: one search; takes no memory.
    pub fn get<Q: ItemOrdQuery<T, E>>(&self, query: Q) -> Option<&T>
        ensures { FindsItem self.now.store (is_equal (Q.compare_item query)) (option_copied result) }
    {
        self.map.get_at(self.find(query)?)
    }

    /// The item at an index, if there is one.
    ///
    /// Cost: a few steps; takes no memory.
    pub fn get_at(&self, ix: ItemIndex) -> Option<&T>
        ensures { option_copied result ≡ get self.now.store ix }
    {
        self.map.get_at(ix)
    }

    /// Inserts an item whose key no stored item has, and returns its index.
    ///
    /// If there are several reasons for a refusal, the first of these is reported: duplicate, full, out of memory. A
    /// refusal returns the item, and the contents stay. If there is `room`, only a duplicate is refused. The table is
    /// searched once.
    ///
    /// Cost: one search; takes memory only without `room`.
    pub fn insert_unique(&mut self, item: T) -> Result<ItemIndex, InsertRefusal<T, ItemIndex>>
        ensures inserts { let alike = shares E.key_of (eq_by_cmp E.cmp) in
            Inserts alike (λ count. 0) (IsReported alike) self.old item result self.new }
        ensures index { IfOk result (λ ix. ix ≡ next_index self.old.store) }
        ensures stored { OnOk result (self.new.store ≡ inserted self.old.store item) }
        ensures unchanged { OnErr result (self.new.store ≡ self.old.store) }
        ensures count { OnOk result (live_count self.new.store ≡ live_count self.old.store + 1) }
        ensures not_refused { 1 ≤ room self.old → IfErr result IsDuplicate }
        ensures room { OnOk result (1 ≤ room self.old → room self.old ≡ room self.new + 1) }
        ensures room_kept { OnErr result (room self.old ≤ room self.new) }
    {
        self.map.insert_unique(item)
    }

    /// Inserts an item in place of the one that has its key, if one has. Returns the index, and the item that was
    /// removed.
    ///
    /// If an item has its key, it takes no memory and isn't refused. If none has, it inserts as `insert_unique` does,
    /// and may be refused for the same reasons.
    ///
    /// Cost: two searches at most; takes memory only without `room`, and if it removes no item.
    pub fn insert_overwrite(
        &mut self,
        item: T,
    ) -> Result<(ItemIndex, Option<T>), OverwriteRefusal<T>>
        ensures inserts { OverwritesOne (shares E.key_of (eq_by_cmp E.cmp)) (λ count. 0) self.old item result
            self.new }
        ensures one_more { IfOk result (λ put. IfNone put.1
            (live_count self.new.store ≡ live_count self.old.store + 1)) }
        ensures as_many { IfOk result (λ put. OnSome put.1 (live_count self.new.store ≡ live_count self.old.store)) }
        ensures unchanged { OnErr result (self.new.store ≡ self.old.store) }
        ensures not_refused { 1 ≤ room self.old → IsOk result }
        ensures room { IfOk result (λ put. IfNone put.1 (1 ≤ room self.old → room self.old ≡ room self.new + 1)) }
        ensures same_room { IfOk result (λ put. OnSome put.1 (room self.new ≡ room self.old)) }
    {
        match self.map.insert_unique(item) {
            Ok(ix) => Ok((ix, None)),
            Err(InsertRefusal::Duplicate { item, at }) => match self.map.replace_at(at, item) {
                Ok(was) => Ok((at, Some(was))),
                Err(_) => unreachable!(),
            },
            Err(InsertRefusal::Full(item)) => Err(OverwriteRefusal::Full(item)),
            Err(InsertRefusal::Memory(item)) => Err(OverwriteRefusal::Memory(item)),
        }
    }

    /// Removes the item that has the key, and returns it. The table is searched once.
    ///
    /// Cost: one search; takes no memory.
    pub fn remove<Q: ItemOrdQuery<T, E>>(&mut self, query: Q) -> Option<T>
        ensures removes { Removes self.old (is_equal (Q.compare_item query)) result self.new }
        ensures gone { HasNoHit self.new.store (is_equal (Q.compare_item query)) }
        ensures room { room self.old ≤ room self.new }
        ensures count { OnSome result (live_count self.old.store ≡ live_count self.new.store + 1) }
        ensures unchanged { IfNone result (self.new ≡ self.old) }
        ensures freed { OnSome result (live_count self.old.store ≤ capacity self.old
            → room self.new ≡ room self.old + 1) }
    {
        self.map.remove_by::<Here, Q>(query)
    }

    /// Removes the item that has the key, and returns the index that it had, with the item.
    ///
    /// Cost: one search; takes no memory.
    pub fn remove_full<Q: ItemOrdQuery<T, E>>(&mut self, query: Q) -> Option<(ItemIndex, T)>
        ensures removes { RemovesFull self.old (is_equal (Q.compare_item query)) result self.new }
        ensures gone { HasNoHit self.new.store (is_equal (Q.compare_item query)) }
        ensures room { room self.old ≤ room self.new }
        ensures count { OnSome result (live_count self.old.store ≡ live_count self.new.store + 1) }
        ensures unchanged { IfNone result (self.new ≡ self.old) }
        ensures freed { OnSome result (live_count self.old.store ≤ capacity self.old
            → room self.new ≡ room self.old + 1) }
    {
        self.map.remove_full_by::<Here, Q>(query)
    }

    /// Removes the item at an index, if there is one, and returns it.
    ///
    /// Cost: one search; takes no memory.
    pub fn remove_at(&mut self, ix: ItemIndex) -> Option<T>
        ensures removes { RemovesAt self.old ix result self.new }
        ensures value { result ≡ get self.old.store ix }
        ensures gone { get self.new.store ix ≡ None }
        ensures room { room self.old ≤ room self.new }
        ensures count { OnSome result (live_count self.old.store ≡ live_count self.new.store + 1) }
        ensures unchanged { IfNone result (self.new ≡ self.old) }
        ensures freed { OnSome result (live_count self.old.store ≤ capacity self.old
            → room self.new ≡ room self.old + 1) }
    {
        self.map.remove_at(ix)
    }

    /// How many items the reserved memory has room for: 0 if none was reserved, whatever the map holds. Only calls that
    /// shrink lower it.
    ///
    /// Cost: a few steps; takes no memory.
    pub fn capacity(&self) -> usize
        ensures { result ≡ capacity self.now }
    {
        self.map.capacity()
    }

    /// How many inserts need no memory.
    ///
    /// Cost: a few steps; takes no memory.
    pub fn room(&self) -> usize
        ensures { result ≡ room self.now }
    {
        self.map.room()
    }

    /// Makes room for `additional` more inserts, or for as many as the limit allows.
    ///
    /// If there is room already it takes no memory. If memory runs out the items stay, and what was taken is kept.
    ///
    /// Cost: moves what grows; takes memory only if there is less room.
    pub fn reserve(&mut self, additional: usize) -> Result<(), AllocError>
        ensures { ReservesItems most_cells additional self.old result self.new }
    {
        self.map.reserve(additional)
    }

    /// The same as `reserve`, under the name that it has in libraries whose `reserve` can't fail.
    ///
    /// Cost: moves what grows; takes memory only if there is less room.
    pub fn try_reserve(&mut self, additional: usize) -> Result<(), AllocError>
        ensures { ReservesItems most_cells additional self.old result self.new }
    {
        self.reserve(additional)
    }

    /// Gives back the memory that the slots and the table don't need. If a smaller block can't be allocated, the items
    /// stay.
    ///
    /// Cost: moves what shrinks; takes memory for the smaller blocks before it gives the greater ones back.
    pub fn shrink_to_fit(&mut self) -> Result<(), AllocError>
        ensures shrinks { ShrinksItems (λ slots count. most_cells count) 0 self.old result self.new }
        ensures needed { OnErr result (HasMoreThanNeeded (λ slots count. count) 0 self.old self.new) }
    {
        self.map.shrink_to_fit()
    }

    /// Gives back the memory beyond what `least` items need, or the slots and items that there are if these are more.
    /// It fails only if more slots are left than are needed for that, or more is reserved.
    ///
    /// Cost: moves what shrinks; takes memory for the smaller blocks before it gives the greater ones back.
    pub fn shrink_to(&mut self, least: usize) -> Result<(), AllocError>
        ensures shrinks { ShrinksItems (λ slots count. most_cells count) least self.old result self.new }
        ensures needed { OnErr result (HasMoreThanNeeded (λ slots count. count) least self.old self.new) }
    {
        self.map.shrink_to(least)
    }

    /// Forgets all items and all slots, so that the next index is 0. It keeps the memory.
    ///
    /// Cost: drops the items, and clears the table; takes no memory.
    pub fn clear(&mut self)
        ensures store { self.new.store ≡ cleared self.old.store }
        ensures memory { self.new.memory ≡ self.old.memory }
        ensures room { room self.old ≤ room self.new }
    {
        self.map.clear()
    }

    /// Moves every item down to its rank, so that no slot is vacant, and returns the new indexes.
    ///
    /// No key is compared. If no slot is vacant it returns `Identity` and takes no memory. Otherwise it allocates a
    /// list of one index for each slot before any item moves; if memory runs out, nothing changes.
    ///
    /// Cost: a step for each slot and each entry of the table; takes memory for a list of one index for each slot, if
    /// one is vacant.
    pub fn compact(&mut self) -> Result<IndexRemap, AllocError>
        ensures remap { IfOk result (IsRemapOf self.old.store) }
        ensures compacted { OnOk result (Compacts self.old self.new) }
        ensures refused { OnErr result (self.new ≡ self.old) }
        ensures dense { self.old.store.free ≡ [] → IsOk result }
        ensures room { room self.old ≤ room self.new }
    {
        self.map.compact()
    }
}
