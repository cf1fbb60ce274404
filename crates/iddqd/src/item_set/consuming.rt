//! A set whose items are removed by their indexes.
ghost use Rattle.std.specs.Prelude.{◌≡◌, None};
ghost use Rattle.iddqd.specs.LiveItems.{item_at, KeepsOtherItems};

use crate::item_index::ItemIndex;
use crate::item_set::ItemSlot;
use std::marker::Model;
use std::{fmt, mem};

/// The slots of a set whose items are removed. Nothing can be inserted, so no index is assigned again.
#[derive(Drop)]
pub struct ConsumingItemSet<T> {
    pub(super) slots: Vec<ItemSlot<T>>,
}

impl<T> Model for ConsumingItemSet<T> {
    ghost use Rattle.std.specs.Prelude.{List, Option, map};
    ghost use Rattle.iddqd.specs.Slots.{item_of};

    ghost Value = { List (Option T) };

    ghost view = { λ c. map item_of c.slots.items };
}

impl<T> ConsumingItemSet<T> {
    /// Removes the item at an index and returns it, if it is there. A second call with the index returns `None`.
    ///
    /// It costs the same at each index, and takes no memory.
    pub fn take(&mut self, ix: ItemIndex) -> Option<T>
        ensures value { result ≡ item_at self.old ix }
        ensures taken { item_at self.new ix ≡ None }
        ensures others { KeepsOtherItems ix self.old self.new }
    {
        let slot = self.slots.get_mut(ix.as_u32() as usize)?;
        let vacant = ItemSlot::Vacant {
            next: ItemIndex::SENTINEL,
        };
        match mem::replace(slot, vacant) {
            ItemSlot::Occupied(item) => Some(item),
            ItemSlot::Vacant { .. } => None,
        }
    }
}

impl<T> fmt::Debug for ConsumingItemSet<T> {
    fn fmt<W: fmt::Write>(&self, f: &mut fmt::Formatter<W>) -> fmt::Result {
        f.debug_struct("ConsumingItemSet")
            .field("slots", &self.slots.len())
            .finish()
    }
}
