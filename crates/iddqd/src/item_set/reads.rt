//! Reading a slot, a live index, the next live one, and several at once.
ghost use Rattle.std.specs.Prelude.{◌≡◌, ◌≢◌, ◌<◌, ◌↔◌, ℕ, Some, IsSome, IsTrue, length, slice_index, option_copied};
ghost use Rattle.std.specs.Option.{option_copied_mut};
ghost use Rattle.std.specs.Borrow.{sem, LendsIf};
ghost use Rattle.iddqd.specs.Store.{get};
ghost use Rattle.iddqd.specs.Slots.{item_of};
ghost use Rattle.iddqd.specs.Reads.{IsNextLive, AreFirstLive};

use super::{ItemSet, ItemSlot};
use crate::item_index::ItemIndex;
use std::ops::{Index, IndexMut};

impl<T> ItemSlot<T> {
    ghost use Rattle.iddqd.specs.contracts.item_set.ItemSlot.{the_row};

    /// The item, if it has one.
    pub fn as_ref(&self) -> Option<&T>
        ensures { option_copied result ≡ item_of self.now }
    {
        match self {
            ItemSlot::Occupied(item) => Some(item),
            ItemSlot::Vacant { .. } => None,
        }
    }

    /// The item for writing, if it has one.
    pub fn as_mut(&mut self) -> Option<&mut T>
        ensures* writes_back { sem 𝓛 (LendsIf (the_row T.row) T.row self.entry result ItemSlot.Occupied self.old) }
        ensures value { option_copied_mut result ≡ item_of self.old }
    {
        let ItemSlot::Occupied(item) = self else {
            return None;
        };
        Some(item)
    }

    /// Whether it has an item.
    pub fn is_occupied(&self) -> bool
        ensures { IsTrue result ↔ IsSome (item_of self.now) }
    {
        matches!(self, ItemSlot::Occupied(_))
    }
}

impl<T> ItemSet<T> {
    /// The least live index not below `from`.
    ///
    /// It goes over the slots from there on to the one that it returns, and reads no item.
    pub fn next_occupied(&self, from: ItemIndex) -> Option<ItemIndex>
        ensures { IsNextLive self.now.store from result }
    {
        for at in from.as_u32() as usize..self.slot_count() {
            let ix = ItemIndex::new(at as u32);
            if self.is_live(ix) {
                return Some(ix);
            }
        }
        None
    }

    /// Whether the index at each place is live and no earlier place has the same one.
    ///
    /// It compares each with all before it, and takes no memory.
    pub fn disjoint_valid<const N: usize>(&self, indexes: [ItemIndex; N]) -> [bool; N]
        ensures { AreFirstLive self.now.store indexes.entry result }
    {
        let mut valid = [false; N];
        for place in 0..N {
            valid[place] = self.is_live(indexes[place]) && is_first(&indexes, place);
        }
        valid
    }
}

// Whether no index before the place is the same as the one there.
fn is_first(indexes: &[ItemIndex], place: usize) -> bool
    requires { place < length indexes.now }
    ensures { IsTrue result
        ↔ ((before : ℕ) → before < place → slice_index indexes.now before ≢ slice_index indexes.now place) }
{
    for before in 0..place {
        if indexes[before] == indexes[place] {
            return false;
        }
    }
    true
}

impl<T> Index<ItemIndex> for ItemSet<T> {
    type Output = T;

    ghost can_index = { λ s ix. IsSome (get s.store ix) };

    ghost index_gives = { λ s ix item. get s.store ix ≡ Some item };

    fn index(&self, ix: ItemIndex) -> &T {
        self.get(ix).unwrap()
    }
}

impl<T> IndexMut<ItemIndex> for ItemSet<T> {
    ghost use Rattle.iddqd.specs.Lends.{lends_item};

    fn index_mut(&mut self, ix: ItemIndex) -> &mut T
        requires { IsSome (get self.old.store ix) }
        ensures* writes_back { sem 𝓛 (lends_item T.row self.entry ix result) }
        ensures value { get self.old.store ix ≡ Some result.now }
    {
        self.item_mut(ix)
    }
}
