//! Reserving memory, giving it back, and compaction.
ghost use Rattle.std.specs.Prelude.{◌≡◌, ◌≤◌, ◌-◌, [], length, min, max, IsOk, IfOk, OnOk, OnErr};
ghost use Rattle.iddqd.specs.{slot_limit, empty, empty_within, cleared, live_count, IsRemapOf};
ghost use Rattle.iddqd_map.specs.Map.{capacity, room};
ghost use Rattle.iddqd_map.specs.Memory.{ReservesItems, ShrinksItems, HasMoreThanNeeded};
ghost use Rattle.iddqd_map.specs.Calls.{Compacts};

use super::Map;
use crate::key_index::{Empty, Upkeep};
use iddqd::hash_builder::DefaultHashBuilder;
use iddqd::index_remap::IndexRemap;
use iddqd::item_set::ItemSet;
use std::alloc::{AllocError, Global};

impl<T, X: Upkeep<T, DefaultHashBuilder>> Map<T, X, DefaultHashBuilder> {
    /// Empty, with the default hasher, and memory for `wanted` items. With 0 it takes no memory.
    ///
    /// Cost: clears the cells of the tables; takes memory for so many items.
    pub fn with_capacity(
        alloc: Global,
        wanted: usize,
    ) -> Result<Map<T, X, DefaultHashBuilder>, AllocError>
    where
        T: Drop,
        ensures contents { IfOk result (λ m. m.store ≡ empty) }
        ensures room { IfOk result (λ m. min wanted slot_limit ≤ room m) }
        ensures slots { IfOk result (λ m. m.memory.slots ≡ wanted) }
        ensures cells { IfOk result (λ m. m.memory.cells ≤ X.most wanted) }
        ensures none { wanted ≡ 0 → IsOk result }
    {
        Map::with_capacity_and_hasher(alloc, DefaultHashBuilder::default(), wanted)
    }
}

impl<T, X> Map<T, X, DefaultHashBuilder>
where
    X: Empty<T, DefaultHashBuilder> + Upkeep<T, DefaultHashBuilder>,
{
    /// Empty, with the default hasher, never with more slots than the limit, and with memory for `wanted` items or for
    /// as many as the limit allows.
    ///
    /// Cost: clears the cells of the tables; takes memory for so many items.
    pub fn with_limit_and_capacity(
        alloc: Global,
        limit: u32,
        wanted: usize,
    ) -> Result<Map<T, X, DefaultHashBuilder>, AllocError>
    where
        T: Drop,
        ensures contents { IfOk result (λ m. m.store ≡ empty_within limit) }
        ensures room { IfOk result (λ m. min wanted limit ≤ room m) }
        ensures slots { IfOk result (λ m. m.memory.slots ≡ min wanted limit) }
        ensures cells { IfOk result (λ m. m.memory.cells ≤ X.most (min wanted limit)) }
        ensures none { min wanted limit ≡ 0 → IsOk result }
    {
        Map::with_limit_capacity_and_hasher(alloc, DefaultHashBuilder::default(), limit, wanted)
    }
}

impl<T, X: Empty<T, S> + Upkeep<T, S>, S> Map<T, X, S> {
    /// Empty, never with more slots than the limit, and with memory for `wanted` items or for as many as the limit
    /// allows. If that is 0 it takes none.
    ///
    /// Cost: clears the cells of the tables; takes memory for so many items.
    pub fn with_limit_capacity_and_hasher(
        alloc: Global,
        state: S,
        limit: u32,
        wanted: usize,
    ) -> Result<Map<T, X, S>, AllocError>
    where
        T: Drop,
        S: Drop,
        ensures contents { IfOk result (λ m. m.store ≡ empty_within limit) }
        ensures room { IfOk result (λ m. min wanted limit ≤ room m) }
        ensures slots { IfOk result (λ m. m.memory.slots ≡ min wanted limit) }
        ensures cells { IfOk result (λ m. m.memory.cells ≤ X.most (min wanted limit)) }
        ensures none { min wanted limit ≡ 0 → IsOk result }
    {
        let mut map = Map::with_limit_and_hasher(alloc, state, limit);
        map.reserve(wanted)?;
        Ok(map)
    }
}

impl<T, X: Upkeep<T, S>, S> Map<T, X, S> {
    /// Empty, with memory for `wanted` items. With 0 it takes none.
    ///
    /// Cost: clears the cells of the tables; takes memory for so many items.
    pub fn with_capacity_and_hasher(
        alloc: Global,
        state: S,
        wanted: usize,
    ) -> Result<Map<T, X, S>, AllocError>
    where
        T: Drop,
        S: Drop,
        ensures contents { IfOk result (λ m. m.store ≡ empty) }
        ensures room { IfOk result (λ m. min wanted slot_limit ≤ room m) }
        ensures slots { IfOk result (λ m. m.memory.slots ≡ wanted) }
        ensures cells { IfOk result (λ m. m.memory.cells ≤ X.most wanted) }
        ensures none { wanted ≡ 0 → IsOk result }
    {
        Ok(Map {
            items: ItemSet::with_capacity(alloc, wanted)?,
            indexes: X::with_capacity(alloc, wanted)?,
            state,
        })
    }

    /// How many items the memory has room for. For an ordered key only reserved memory counts, so with such a key it
    /// may be less than `len`. Only calls that shrink lower it.
    ///
    /// Cost: a few steps; takes no memory.
    pub fn capacity(&self) -> usize
        ensures { result ≡ capacity self.now }
    {
        let slots = self.items.capacity().min(self.items.limit());
        slots.min(self.indexes.capacity())
    }

    /// How many inserts need no memory.
    ///
    /// Cost: a few steps; takes no memory.
    pub fn room(&self) -> usize
        ensures { result ≡ room self.now }
    {
        self.capacity().saturating_sub(self.len())
    }

    /// Makes room for `additional` more inserts, or for as many as the limit allows.
    ///
    /// If there is room already it takes no memory. If memory runs out the items stay, and what was taken is kept.
    ///
    /// Cost: moves what grows; takes memory only if there is less room.
    pub fn reserve(&mut self, additional: usize) -> Result<(), AllocError>
        ensures { ReservesItems X.most additional self.old result self.new }
    {
        let len = self.items.len();
        let more = additional.min(self.items.limit() - len);
        if more <= self.room() {
            return Ok(());
        }
        self.items.reserve_slots(len + more)?;
        self.indexes.reserve(&self.items, &self.state, more)
    }

    /// The same as `reserve`, under the name that it has in libraries whose `reserve` can't fail.
    ///
    /// Cost: moves what grows; takes memory only if there is less room.
    pub fn try_reserve(&mut self, additional: usize) -> Result<(), AllocError>
        ensures { ReservesItems X.most additional self.old result self.new }
    {
        self.reserve(additional)
    }

    /// Gives back the memory that the slots and the tables don't need. If a smaller block can't be allocated, the items
    /// stay.
    ///
    /// Cost: moves what shrinks; takes memory for the smaller blocks before it gives the greater ones back.
    pub fn shrink_to_fit(&mut self) -> Result<(), AllocError>
        ensures shrinks { ShrinksItems X.kept 0 self.old result self.new }
        ensures fits { OnOk result (room self.new ≤ length self.old.store.free) }
        ensures needed { OnErr result (HasMoreThanNeeded X.needed 0 self.old self.new) }
    {
        self.shrink_to(0)
    }

    /// Gives back the memory beyond what `least` items need, or the slots and items that there are if these are more.
    /// It fails only if more slots or cells are left than are needed for that.
    ///
    /// Cost: moves what shrinks; takes memory for the smaller blocks before it gives the greater ones back.
    pub fn shrink_to(&mut self, least: usize) -> Result<(), AllocError>
        ensures shrinks { ShrinksItems X.kept least self.old result self.new }
        ensures fits { OnOk result
            (room self.new ≤ max (least - live_count self.old.store) (length self.old.store.free)) }
        ensures needed { OnErr result (HasMoreThanNeeded X.needed least self.old self.new) }
    {
        let slots = self.items.shrink_capacity_to(least);
        let tables = self.indexes.shrink_to(&self.items, &self.state, least);
        slots.and(tables)
    }
}

impl<T, X: Upkeep<T, S>, S> Map<T, X, S> {
    /// Forgets all items and all slots, so that the next index is 0. It keeps the memory.
    ///
    /// Cost: drops the items, and clears the tables; takes no memory.
    pub fn clear(&mut self)
    where
        T: Drop,
        ensures store { self.new.store ≡ cleared self.old.store }
        ensures memory { self.new.memory ≡ self.old.memory }
        ensures room { room self.old ≤ room self.new }
    {
        self.items.clear();
        self.indexes.clear();
    }

    /// Moves every item down to its rank, so that no slot is vacant, and returns the new indexes.
    ///
    /// No key is hashed or compared. If no slot is vacant it returns `Identity` and takes no memory. Otherwise it
    /// allocates a list of one index for each slot before any item moves; if memory runs out, nothing changes.
    ///
    /// Cost: a step for each slot and each entry of the tables; takes memory for a list of one index for each slot, if
    /// one is vacant.
    pub fn compact(&mut self) -> Result<IndexRemap, AllocError>
    where
        T: Drop,
        ensures remap { IfOk result (IsRemapOf self.old.store) }
        ensures compacted { OnOk result (Compacts self.old self.new) }
        ensures refused { OnErr result (self.new ≡ self.old) }
        ensures dense { self.old.store.free ≡ [] → IsOk result }
        ensures room { room self.old ≤ room self.new }
    {
        let remap = self.items.compact()?;
        self.indexes.remap(&remap);
        Ok(remap)
    }
}
