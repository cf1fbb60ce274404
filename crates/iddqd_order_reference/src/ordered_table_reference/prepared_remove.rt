//! A removal whose search is done; it may have missed.
ghost use Rattle.std.specs.Prelude.{◌≡◌, IsTrue, false};
ghost use Rattle.iddqd_order.specs.KeyOrder.{StaysInKeyOrder};
ghost use Rattle.iddqd_order.specs.MapBTreeTable.{without, StandsAt};
ghost use Rattle.iddqd_order_reference.specs.OrderedTable.{order_of, capacity};

use super::OrderedTable;
use iddqd::item_index::ItemIndex;

/// A removal that takes no memory. Dropped, it leaves the table as it was.
#[must_use]
#[derive(Drop)]
pub struct PreparedRemove<'a> {
    pub(super) table: &'a mut OrderedTable,
    pub(super) ix: ItemIndex,
    pub(super) place: Option<usize>,
    ghost there: { StandsAt (order_of table.now) ix place },
}

impl<'a> PreparedRemove<'a> {
    ghost use Rattle.iddqd_order_reference.specs.PreparedRemove.{table_of, is_found, index_of};

    /// Whether the search found the index, so that the removal would remove it.
    #[tactic(auto, unfolding(crate::specs::PreparedRemove::is_found))]
    pub fn is_found(&self) -> bool
        ensures { result ≡ is_found self.now }
    {
        self.place.is_some()
    }

    /// Removes the index if the search found it, and returns whether it did. The others keep their order. If the table
    /// was in the order of some keys, it still is.
    #[tactic(auto, unfolding(crate::specs::PreparedRemove::is_found, crate::specs::PreparedRemove::index_of))]
    pub fn remove(self) -> bool
        ensures found { result ≡ is_found self.entry }
        ensures removed { IsTrue result →
            order_of self.exit.0.now ≡ without (order_of (table_of self.entry).now) (index_of self.entry) }
        ensures kept { result ≡ false → self.exit.0.now ≡ (table_of self.entry).now }
        ensures in_order { StaysInKeyOrder (order_of (table_of self.entry).now) (order_of self.exit.0.now) }
        ensures memory { capacity self.exit.0.now ≡ capacity (table_of self.entry).now }
    {
        let ix = self.ix;
        let place = self.place;
        self.table.remove_found(ix, place)
    }
}
