//! A prepared insert: its place is found and its memory is taken.
//!
//! The prepare searches first, since only the path shows how many blocks the insert takes: one for each inner
//! node that it splits, and one for a new root. It allocates the blocks that the spare ones beside the
//! table's tree don't cover; the spare ones stay there until the insert. If memory runs out, or the insert is
//! dropped, the allocated blocks are given back. `B` is a parameter because the check can't track a borrow in a
//! struct that itself owns memory.
ghost use Rattle.std.specs.Prelude.{◌≡◌, ◌≢◌, insert, Contains};
ghost use Rattle.iddqd_order.specs.KeyOrder.{InsertsInKeyOrder};
ghost use Rattle.iddqd_order.specs.MapBTreeTable.{order_of, capacity, fresh_for, sentinel};
ghost use Rattle.iddqd_order.specs.Node.{InGap};
ghost use Rattle.iddqd_order.specs.Tree.{ReachesGapIn, FullIn, ReachesIn-prop, FullIn-prop};

use crate::btree_table::blocks::{Blocks, HoldsBlocks};
use crate::btree_table::gap::Gap;
use crate::btree_table::table::MapBTreeTable;
use iddqd::item_index::ItemIndex;

/// An insert that cannot fail and takes no memory. Dropped, it leaves the table as it was, and gives
/// back its memory.
#[must_use]
pub struct PreparedBTreeInsert<'a, B: HoldsBlocks = Blocks> {
    pub(super) table: &'a mut MapBTreeTable,
    pub(super) gap: Gap,
    pub(super) ix: ItemIndex,
    pub(super) blocks: B,
    ghost goes: { ReachesGapIn table.now.root table.now.height gap.path } by { ReachesIn-prop InGap 0
        table.now.root table.now.height gap.path },
    ghost full_nodes: { FullIn gap.full table.now.root table.now.height gap.path } by { FullIn-prop gap.full
        table.now.root table.now.height gap.path },
    ghost as_many: { B.count blocks ≡ fresh_for table.now gap.full },
    ghost absent: { Contains (order_of table.now) ix → ⊥ },
    ghost assigned: { ix ≢ sentinel },
}

impl<'a> PreparedBTreeInsert<'a> {
    ghost use Rattle.iddqd_order.specs.PreparedBTreeInsert.{table_of, place_of, index_of};

    /// Adds the index at its place, and returns the table. The others keep their order. If the table was in the order
    /// of some keys, and the place is that of the new key, it still is.
    #[tactic(auto, unfolding(crate::specs::PreparedBTreeInsert::place_of, crate::specs::PreparedBTreeInsert::index_of, crate::specs::MapBTreeTable::capacity))]
    pub fn insert(self) -> &'a mut MapBTreeTable
        ensures same_reference { result.ghost_name ≡ (table_of self.entry).ghost_name }
        ensures inserted { order_of result.now
            ≡ insert (order_of (table_of self.entry).now) (place_of self.entry) (index_of self.entry) }
        ensures in_order { InsertsInKeyOrder (order_of (table_of self.entry).now) (place_of self.entry)
            (index_of self.entry) (order_of result.now) }
        ensures memory { capacity result.now ≡ capacity (table_of self.entry).now }
    {
        let PreparedBTreeInsert {
            table,
            gap,
            ix,
            blocks,
        } = self;
        table.insert_at(&gap, ix, blocks);
        table
    }
}

impl<B: HoldsBlocks> Drop for PreparedBTreeInsert<'_, B> {
    fn drop(self)
        ensures { self.exit.0.now ≡ self.entry.table.now }
    {
        let PreparedBTreeInsert {
            table: _,
            gap: _,
            ix: _,
            blocks: _,
        } = self;
    }
}
