//! Removals by index. They take no memory.
ghost use Rattle.std.specs.Prelude.{◌≡◌, ◌≤◌, ◌+◌, None, OnSome, IfNone};
ghost use Rattle.iddqd.specs.{get, live_count};
ghost use Rattle.iddqd_map.specs.Map.{RemovesAt, capacity, room};

use super::Map;
use super::steps::take_out;
use crate::key_index::Changes;
use iddqd::item_index::ItemIndex;

impl<T, X: Changes<T, S>, S> Map<T, X, S> {
    /// Removes the item at an index, if there is one, and returns it.
    ///
    /// Cost: a removal from each table; takes no memory.
    pub fn remove_at(&mut self, ix: ItemIndex) -> Option<T>
        ensures removes { RemovesAt self.old ix result self.new }
        ensures value { result ≡ get self.old.store ix }
        ensures gone { get self.new.store ix ≡ None }
        ensures room { room self.old ≤ room self.new }
        ensures count { OnSome result (live_count self.old.store ≡ live_count self.new.store + 1) }
        ensures unchanged { IfNone result (self.new ≡ self.old) }
        ensures freed { OnSome result (live_count self.old.store ≤ capacity self.old
            → room self.new ≡ room self.old + 1) }
    {
        if self.items.get(ix).is_none() {
            return None;
        }
        take_out(&mut self.items, &mut self.indexes, &self.state, ix)
    }
}
