//! Collections with the default hasher.
//!
//! `new`, `with_limit`, `with_capacity` and `with_limit_and_capacity` take the state of a hasher. The calls here use
//! `DefaultHashBuilder`, whose seed is fixed: it doesn't resist first keys that are chosen to collide.
ghost use Rattle.std.specs.Prelude.{◌≡◌, ◌≤◌, min, IsOk, IfOk};
ghost use Rattle.iddqd.specs.{slot_limit};
ghost use Rattle.iddqd_driver.specs.Keys.{IsDefaultHasher};
ghost use Rattle.iddqd_driver.specs.State.{empty_state, empty_state_within};
ghost use Rattle.iddqd_driver.specs.Memory.{no_memory, room, IsMadeFor};

use super::KeyedItems;
use crate::keyed_item::KeyedItem;
use iddqd::hash_builder::DefaultHashBuilder;
use std::alloc::{AllocError, Global};

impl<T: KeyedItem> KeyedItems<T, DefaultHashBuilder> {
    /// Empty, with the default hasher. It may grow to `u32::MAX` items, one for each index but `SENTINEL`.
    ///
    /// Cost: a few steps; takes no memory.
    pub fn with_default_hasher(alloc: Global) -> KeyedItems<T, DefaultHashBuilder>
        ensures hasher { IsDefaultHasher result.state.hasher }
        ensures state { result.state ≡ empty_state result.state.hasher }
        ensures memory { result.memory ≡ no_memory }
    {
        KeyedItems::new(alloc, DefaultHashBuilder::default())
    }

    /// Empty, with the default hasher, and never with more slots than the limit.
    ///
    /// Cost: a few steps; takes no memory.
    pub fn with_limit_and_default_hasher(
        alloc: Global,
        limit: u32,
    ) -> KeyedItems<T, DefaultHashBuilder>
        ensures hasher { IsDefaultHasher result.state.hasher }
        ensures state { result.state ≡ empty_state_within limit result.state.hasher }
        ensures memory { result.memory ≡ no_memory }
    {
        KeyedItems::with_limit(alloc, DefaultHashBuilder::default(), limit)
    }

    /// Empty, with the default hasher, and memory for that many items, but at most for `u32::MAX`. With 0 it takes no
    /// memory.
    ///
    /// Cost: clears the cells of the tables; takes memory for so many items.
    pub fn with_capacity_and_default_hasher(
        alloc: Global,
        items: usize,
    ) -> Result<KeyedItems<T, DefaultHashBuilder>, AllocError>
        ensures hasher { IfOk result (λ k. IsDefaultHasher k.state.hasher) }
        ensures state { IfOk result (λ k. k.state ≡ empty_state k.state.hasher) }
        ensures room { IfOk result (λ k. min items slot_limit ≤ room k) }
        ensures made { IfOk result (λ k. IsMadeFor (min items slot_limit) k.memory) }
        ensures none { items ≡ 0 → IsOk result }
        ensures no_memory { items ≡ 0 → IfOk result (λ k. k.memory ≡ no_memory) }
    {
        KeyedItems::with_capacity(alloc, DefaultHashBuilder::default(), items)
    }

    /// Empty, with the default hasher, never with more slots than the limit, and with memory for that many items or for
    /// as many as the limit allows. If that is 0 it takes no memory.
    ///
    /// Cost: clears the cells of the tables; takes memory for so many items.
    pub fn with_limit_capacity_and_default_hasher(
        alloc: Global,
        limit: u32,
        items: usize,
    ) -> Result<KeyedItems<T, DefaultHashBuilder>, AllocError>
        ensures hasher { IfOk result (λ k. IsDefaultHasher k.state.hasher) }
        ensures state { IfOk result (λ k. k.state ≡ empty_state_within limit k.state.hasher) }
        ensures room { IfOk result (λ k. min items limit ≤ room k) }
        ensures made { IfOk result (λ k. IsMadeFor (min items limit) k.memory) }
        ensures none { min items limit ≡ 0 → IsOk result }
        ensures no_memory { min items limit ≡ 0 → IfOk result (λ k. k.memory ≡ no_memory) }
    {
        KeyedItems::with_limit_and_capacity(alloc, DefaultHashBuilder::default(), limit, items)
    }
}
