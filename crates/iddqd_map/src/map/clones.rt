//! Copies of a map.
//!
//! Only the items' type says whether a clone has the same keys. So each map with a name of its own, and a mix, has its
//! own `Clone`, which calls this; another `Map` is copied by `copied`.
ghost use Rattle.std.specs.Prelude.{true, ◌≡◌, IfOk};
ghost use Rattle.iddqd_map.specs.Clones.{IsMapClone};

use super::Map;
use crate::key_index::Upkeep;
use std::alloc::AllocError;

impl<T: Clone, X: Upkeep<T, S>, S: Copy> Map<T, X, S> {
    /// A copy: each item is cloned once, under its index, and no key is hashed or compared. If memory runs out, the
    /// clones made so far are dropped.
    ///
    /// Its memory is for exactly the slots that there are, and its tables have no more cells than those of the map.
    /// What was reserved beyond the slots isn't kept.
    ///
    /// Cost: a clone of each item, a step for each slot and cell; takes memory for the slots, and for no more cells
    /// than there are.
    ///
    /// Asks: a clone of an item has the keys of the item.
    pub fn copied(&self) -> Result<Map<T, X, S>, AllocError>
        requires { (x y : T) → T.is_clone x y → X.same_keys x y ≡ true }
        ensures { IfOk result (IsMapClone T.is_clone self.now) }
    {
        Ok(Map {
            items: self.items.clone()?,
            indexes: self.indexes.copied()?,
            state: self.state,
        })
    }
}
