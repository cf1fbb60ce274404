//! A prepared insert: its position is found and its memory is taken.
//!
//! The memory stays with the table if the insert is dropped.
ghost use Rattle.std.specs.Prelude.{◌≡◌, ◌≢◌, ◌≤◌, length, insert, Contains};
ghost use Rattle.iddqd_order.specs.KeyOrder.{InsertsInKeyOrder};
ghost use Rattle.iddqd_order.specs.MapBTreeTable.{sentinel};
ghost use Rattle.iddqd_order_reference.specs.OrderedTable.{order_of, capacity, HasRoom};

use super::OrderedTable;
use iddqd::item_index::ItemIndex;

/// An insert that cannot fail and takes no memory. Dropped, it leaves the table as it was when the insert was prepared.
#[must_use]
pub struct PreparedInsert<'a> {
    pub(super) table: &'a mut OrderedTable,
    pub(super) place: usize,
    pub(super) ix: ItemIndex,
    ghost within: { place ≤ length (order_of table.now) },
    ghost room: { HasRoom table.now },
    ghost absent: { Contains (order_of table.now) ix → ⊥ },
    ghost assigned: { ix ≢ sentinel },
}

impl<'a> PreparedInsert<'a> {
    ghost use Rattle.iddqd_order_reference.specs.PreparedInsert.{table_of, place_of, index_of};

    /// Adds the index at its place, and returns the table. The others keep their order. If the table was in the order
    /// of some keys, and the place is that of the new key, it still is.
    #[tactic(auto, unfolding(crate::specs::PreparedInsert::place_of, crate::specs::PreparedInsert::index_of))]
    pub fn insert(self) -> &'a mut OrderedTable
        ensures same_reference { result.ghost_name ≡ (table_of self.entry).ghost_name }
        ensures inserted { order_of result.now
            ≡ insert (order_of (table_of self.entry).now) (place_of self.entry) (index_of self.entry) }
        ensures in_order { InsertsInKeyOrder (order_of (table_of self.entry).now) (place_of self.entry)
            (index_of self.entry) (order_of result.now) }
        ensures memory { capacity result.now ≡ capacity (table_of self.entry).now }
    {
        let PreparedInsert { table, place, ix } = self;
        table.insert_at(place, ix);
        table
    }
}

impl Drop for PreparedInsert<'_> {
    fn drop(self)
        ensures { self.exit.0.now ≡ self.entry.table.now }
    {
        let PreparedInsert {
            table: _,
            place: _,
            ix: _,
        } = self;
    }
}
