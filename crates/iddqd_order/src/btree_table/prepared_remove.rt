//! A removal whose search is done; it may have missed.
//!
//! Its contract says what is left as a filter of the list. It names no position, so it would read the same if the table
//! were a sorted vector.
ghost use Rattle.std.specs.Prelude.{◌≡◌, IsTrue, false};
ghost use Rattle.iddqd_order.specs.Gap.{NeedsNoMoreBlocks};
ghost use Rattle.iddqd_order.specs.KeyOrder.{StaysInKeyOrder};
ghost use Rattle.iddqd_order.specs.MapBTreeTable.{order_of, capacity, without, LeadsTo, LeadsTo-prop};

use crate::btree_table::spot::Spot;
use crate::btree_table::table::MapBTreeTable;
use iddqd::item_index::ItemIndex;

/// A removal that takes no memory. Dropped, it leaves the table as it was.
#[must_use]
#[derive(Drop)]
pub struct PreparedBTreeRemove<'a> {
    pub(super) table: &'a mut MapBTreeTable,
    pub(super) ix: ItemIndex,
    pub(super) spot: Option<Spot>,
    ghost there: { LeadsTo table.now ix spot } by { LeadsTo-prop table.now ix spot },
}

impl<'a> PreparedBTreeRemove<'a> {
    ghost use Rattle.iddqd_order.specs.PreparedBTreeRemove.{table_of, is_found, index_of};

    /// Whether the search found the index, so that the removal would remove it.
    #[tactic(auto, unfolding(crate::specs::PreparedBTreeRemove::is_found))]
    pub fn is_found(&self) -> bool
        ensures { result ≡ is_found self.now }
    {
        self.spot.is_some()
    }

    /// Removes the index if the search found it, and returns whether it did. The others keep their order. If the table
    /// was in the order of some keys, it still is.
    ///
    /// Blocks that `blocks_anywhere` allocated before it are still enough for a move, and if the index was removed,
    /// for an insert.
    #[tactic(auto, unfolding(crate::specs::PreparedBTreeRemove::is_found, crate::specs::PreparedBTreeRemove::index_of, crate::specs::MapBTreeTable::capacity))]
    pub fn remove(self) -> bool
        ensures found { result ≡ is_found self.entry }
        ensures removed { IsTrue result →
            order_of self.exit.0.now ≡ without (order_of (table_of self.entry).now) (index_of self.entry) }
        ensures kept { result ≡ false → self.exit.0.now ≡ (table_of self.entry).now }
        ensures in_order { StaysInKeyOrder (order_of (table_of self.entry).now) (order_of self.exit.0.now) }
        ensures no_more_blocks { NeedsNoMoreBlocks (table_of self.entry).now self.exit.0.now }
        ensures memory { capacity self.exit.0.now ≡ capacity (table_of self.entry).now }
    {
        let ix = self.ix;
        let spot = self.spot;
        self.table.remove_found(ix, &spot)
    }
}
