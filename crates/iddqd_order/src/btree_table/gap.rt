//! A gap that a search found, for a later insert. It borrows no table.
//!
//! A gap is valid only for the table that it was found in, until that table's tree changes. An insert at a gap asks
//! nothing. It takes no memory but the blocks that it is given, and below the capacity it needs none of them.
ghost use Rattle.std.specs.Prelude.{◌≡◌, ◌≢◌, ◌+◌, ◌≤◌, Some, IsOk, IfOk, Contains, length, insert};
ghost use Rattle.iddqd_order.specs.Gap.{Fits, gap_place, gap_blocks, FindsGap, FindsOwnGap};
ghost use Rattle.iddqd_order.specs.MapBTreeTable.{order_of, capacity, HasRoom, move_blocks, without, sentinel};
ghost use Rattle.iddqd_order.specs.PreparedBTreeMove.{PutsIn};
ghost use Rattle.iddqd_order.specs.Search.{CanSearch, TwoSearchesAsk};

use crate::btree_table::asking::Asking;
use crate::btree_table::blocks::Blocks;
use crate::btree_table::path::Path;
use crate::btree_table::reading::{AsOrdering, ByKey, Reads};
use crate::btree_table::table::MapBTreeTable;
use iddqd::item_index::ItemIndex;
use std::alloc::AllocError;
use std::cmp::Ordering;

/// A place before, between or behind the indexes of a table, where an index can be inserted.
#[derive(Drop)]
pub struct Gap {
    pub(super) path: Path,
    // How many nodes at the lower end of the path are full.
    pub(super) full: usize,
}

#[tactic(auto, unfolding(crate::specs::MapBTreeTable::order_of, crate::specs::MapBTreeTable::capacity))]
impl MapBTreeTable {
    /// `Ok` of the gap where what is sought could be inserted, or `Err` of a stored index at which the asking answers
    /// Equal. Less means that what is sought stands before the stored index.
    ///
    /// It asks at most `4 + 2 * digits(len)` times, and takes no memory.
    pub fn find_gap_by<F: FnMut(ItemIndex) -> Ordering>(
        &self,
        asking: &mut Asking<F>,
    ) -> Result<Gap, ItemIndex>
        requires { CanSearch F.FnMut (order_of self.now) None asking.old }
        ensures { FindsGap F.FnMut (λ r. r) self.now asking.old result asking.new }
    {
        match self.descend(self.insert_start, asking, &AsOrdering, &None) {
            Ok(spot) => Err(self.index_at(&spot)),
            Err(gap) => Ok(gap),
        }
    }

    /// The gap for an index that isn't stored, by answers about the stored ones. If an answer is Equal, the lesser
    /// index comes first.
    ///
    /// It asks at most `4 + 2 * digits(len)` times, and takes no memory.
    pub fn find_own_gap_by<F: FnMut(ItemIndex) -> Ordering>(
        &self,
        ix: ItemIndex,
        asking: &mut Asking<F>,
    ) -> Gap
        requires absent { Contains (order_of self.now) ix → ⊥ }
        requires can_ask { CanSearch F.FnMut (order_of self.now) (Some ix) asking.old }
        ensures { FindsOwnGap F.FnMut (λ r. r) self.now ix asking.old result asking.new }
    {
        self.find_own_gap(ix, asking, &AsOrdering)
    }

    /// No block, which is enough for an insert below the capacity. It takes no memory.
    pub fn no_blocks(&self) -> Blocks
        ensures { result ≡ 0 }
    {
        Blocks::none(self.allocator())
    }

    /// Allocates the blocks for an insert at the gap: none below the capacity.
    pub fn blocks_at(&self, gap: &Gap) -> Result<Blocks, AllocError>
        ensures blocks { IfOk result (λ blocks. blocks ≡ gap_blocks self.now gap.now) }
        ensures roomy { Fits self.now gap.now → HasRoom self.now → gap_blocks self.now gap.now ≡ 0 }
        ensures none { gap_blocks self.now gap.now ≡ 0 → IsOk result }
    {
        self.allocate_blocks(gap.full)
    }

    /// Allocates the blocks for a move to any place, or for an insert after a removal: none up to the capacity.
    pub fn blocks_anywhere(&self) -> Result<Blocks, AllocError>
        ensures blocks { IfOk result (λ blocks. blocks ≡ move_blocks self.now) }
        ensures roomy { length (order_of self.now) ≤ capacity self.now → move_blocks self.now ≡ 0 }
        ensures none { move_blocks self.now ≡ 0 → IsOk result }
    {
        self.allocate_move_blocks()
    }

    /// Inserts the index at the gap. The others keep their order. It asks nothing.
    ///
    /// If the index doesn't belong at the gap, later searches may miss it and other indexes.
    pub fn insert_in(&mut self, gap: &Gap, ix: ItemIndex, blocks: Blocks)
        requires fits { Fits self.old gap.now }
        requires enough { gap_blocks self.old gap.now ≤ blocks }
        requires absent { Contains (order_of self.old) ix → ⊥ }
        requires assigned { ix ≢ sentinel }
        ensures inserted { order_of self.new ≡ insert (order_of self.old) (gap_place self.old gap.now) ix }
        ensures memory { capacity self.new ≡ capacity self.old }
    {
        self.insert_at(gap, ix, blocks);
    }

    /// Removes a stored index and inserts it where its new key belongs. The others keep their order. If keys are
    /// equal, the lesser index comes first.
    ///
    /// The asking answers the keys of the others, and isn't asked about the index itself. It is asked at most
    /// `4 + 2 * digits(len)` times for each key. If the old key doesn't lead to the index, a walk that asks nothing
    /// finds it.
    pub fn move_index<K: Ord + Drop, F: FnMut(ItemIndex) -> K>(
        &mut self,
        ix: ItemIndex,
        old_key: &K,
        new_key: &K,
        asking: &mut Asking<F>,
        blocks: Blocks,
    )
        requires stored { Contains (order_of self.old) ix }
        requires can_search { CanSearch F.FnMut (order_of self.old) (Some ix) asking.old }
        requires enough { move_blocks self.old ≤ blocks }
        ensures asked { TwoSearchesAsk F.FnMut (order_of self.old) (Some ix) asking.old asking.new }
        ensures moved { PutsIn F.FnMut (K.cmp new_key.now) (without (order_of self.old) ix) ix asking.old
            (order_of self.new) }
        ensures memory { capacity self.new ≡ capacity self.old }
    {
        self.move_index_reading(ix, &ByKey(old_key), &ByKey(new_key), asking, blocks);
    }

    /// The same as `move_index`, where `leaving` and `entering` read an answer as the old key and the new one compare
    /// with it.
    pub fn move_index_reading<R, H: Reads<R>, F: FnMut(ItemIndex) -> R>(
        &mut self,
        ix: ItemIndex,
        leaving: &H,
        entering: &H,
        asking: &mut Asking<F>,
        blocks: Blocks,
    )
        requires stored { Contains (order_of self.old) ix }
        requires can_search { CanSearch F.FnMut (order_of self.old) (Some ix) asking.old }
        requires enough { move_blocks self.old ≤ blocks }
        ensures asked { TwoSearchesAsk F.FnMut (order_of self.old) (Some ix) asking.old asking.new }
        ensures moved { PutsIn F.FnMut (H.reading entering.now) (without (order_of self.old) ix) ix asking.old
            (order_of self.new) }
        ensures memory { capacity self.new ≡ capacity self.old }
    {
        self.remove_by_search(ix, asking, leaving);
        self.insert_again(ix, asking, entering, blocks);
    }
}
