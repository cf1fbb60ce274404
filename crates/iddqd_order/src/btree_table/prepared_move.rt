//! A prepared move of a stored index: its memory is taken.
//!
//! Both searches come at the commit, so before it a caller can change what its closures read, such as the item at
//! the index. Up to the capacity a move takes no block, since the index is removed before it is inserted again.
//! Past the capacity the prepare takes as many blocks as any insert into a tree of that height can need: one for
//! each inner node on a path, and one for a new root.
ghost use Rattle.std.specs.Prelude.{true, ◌≡◌, ◌≢◌, ◌<◌, ◌≤◌, Some, IsOk, IfOk, Contains, length};
ghost use Rattle.iddqd_order.specs.MapBTreeTable.{order_of, capacity, spare_blocks, move_blocks, sentinel, without, IsIndexList};
ghost use Rattle.iddqd_order.specs.Search.{CanSearch, SearchAsks, TwoSearchesAsk};

use crate::btree_table::asking::Asking;
use crate::btree_table::blocks::{Blocks, HoldsBlocks};
use crate::btree_table::reading::{AsOrdering, ByKey, Reads};
use crate::btree_table::table::MapBTreeTable;
use iddqd::item_index::ItemIndex;
use std::alloc::AllocError;
use std::cmp::Ordering;

/// A move that cannot fail and takes no memory. Dropped, it leaves the table as it was, and gives back its
/// memory.
#[must_use]
pub struct PreparedBTreeMove<'a, B: HoldsBlocks = Blocks> {
    table: &'a mut MapBTreeTable,
    ix: ItemIndex,
    blocks: B,
    ghost as_many: { B.count blocks ≡ move_blocks table.now },
    ghost stored: { length (without (order_of table.now) ix) < length (order_of table.now) },
    ghost assigned: { ix ≢ sentinel },
}

#[tactic(auto, unfolding(crate::specs::MapBTreeTable::order_of))]
impl MapBTreeTable {
    ghost use Rattle.std.specs.Borrow.{sem};
    ghost use Rattle.iddqd_order.specs.PreparedBTreeMove.{unchanged_if_out_of_memory, PreparesMove, PutsIn};
    ghost use Rattle.iddqd_order.specs.PreparedBTreeMove as prepared_move;

    /// Takes the memory for a move of a stored index to any place. It asks nothing.
    ///
    /// It returns `AllocError` if memory runs out; the contents then stay. Up to the capacity it takes no
    /// memory, and never fails.
    pub fn prepare_move(&mut self, ix: ItemIndex) -> Result<PreparedBTreeMove<'_>, AllocError>
        requires { Contains (order_of self.old) ix }
        ensures* unchanged { sem 𝓛 (unchanged_if_out_of_memory self.entry result) }
        ensures same_reference { IfOk result (λ p. (prepared_move.table_of p).ghost_name ≡ self.entry.ghost_name) }
        ensures prepared { IfOk result (PreparesMove (order_of self.old) ix) }
        ensures memory { IfOk result (λ p. capacity (prepared_move.table_of p).now ≡ capacity self.old) }
        ensures roomy { length (order_of self.old) ≤ capacity self.old → IsOk result }
        ensures no_blocks { length (order_of self.old) ≤ capacity self.old →
            IfOk result (λ p. prepared_move.blocks_of p ≡ 0) }
    {
        let blocks = match self.allocate_move_blocks() {
            Ok(blocks) => blocks,
            Err(AllocError) => return Err(AllocError),
        };
        Ok(PreparedBTreeMove {
            table: self,
            ix,
            blocks,
        })
    }

    // Removes an index. If the search misses it, a walk over all nodes finds it.
    pub(super) fn remove_by_search<R, F: FnMut(ItemIndex) -> R, H: Reads<R>>(
        &mut self,
        ix: ItemIndex,
        asking: &mut Asking<F>,
        how: &H,
    )
        requires { CanSearch F.FnMut (order_of self.old) (Some ix) asking.old }
        ensures indexes { IsIndexList (order_of self.old) }
        ensures removed { order_of self.new ≡ without (order_of self.old) ix }
        ensures no_higher { self.new.height ≤ self.old.height }
        ensures reserved { self.new.reserved ≡ self.old.reserved }
        ensures asked { SearchAsks F.FnMut (order_of self.old) (Some ix) asking.old asking.new }
    {
        let spot = self.find_spot(ix, asking, how);
        if !self.remove_found(ix, &spot) {
            self.remove_by_walk(ix);
        }
    }

    // Inserts a removed index again, at the gap that a search finds for it.
    pub(super) fn insert_again<R, F: FnMut(ItemIndex) -> R, H: Reads<R>>(
        &mut self,
        ix: ItemIndex,
        asking: &mut Asking<F>,
        how: &H,
        blocks: Blocks,
    )
        requires assigned { ix ≢ sentinel }
        requires absent { Contains (order_of self.old) ix → ⊥ }
        requires can_ask { CanSearch F.FnMut (order_of self.old) (Some ix) asking.old }
        requires enough { capacity self.old ≤ length (order_of self.old) → self.old.height < blocks }
        ensures asked { SearchAsks F.FnMut (order_of self.old) (Some ix) asking.old asking.new }
        ensures inserted { PutsIn F.FnMut (H.reading how.now) (order_of self.old) ix asking.old (order_of self.new) }
        ensures reserved { self.new.reserved ≡ self.old.reserved }
    {
        let gap = self.find_own_gap(ix, asking, how);
        self.insert_at(&gap, ix, blocks);
    }
}

impl<'a> PreparedBTreeMove<'a> {
    ghost use Rattle.iddqd_order.specs.PreparedBTreeMove.{table_of, index_of, others_of, PutsIn};

    /// Removes the index, inserts it where `entering` leads, and returns the table. The others keep
    /// their order. If an answer is Equal, the lesser index comes first.
    ///
    /// `leaving` leads to the old place, and `entering` to the new one among the others. Each is asked at most
    /// `4 + 2 * digits(len)` times, and not about the index itself. If `leaving` doesn't lead to the index, a
    /// walk that asks nothing finds it.
    #[tactic(auto, unfolding(crate::specs::PreparedBTreeMove::index_of, crate::specs::MapBTreeTable::capacity))]
    pub fn commit_by<F: FnMut(ItemIndex) -> Ordering, G: FnMut(ItemIndex) -> Ordering>(
        self,
        leaving: &mut Asking<F>,
        entering: &mut Asking<G>,
    ) -> &'a mut MapBTreeTable
        requires leaving { CanSearch F.FnMut (order_of (table_of self).now) (Some (index_of self)) leaving.old }
        requires entering { CanSearch G.FnMut (order_of (table_of self).now) (Some (index_of self)) entering.old }
        ensures same_reference { result.ghost_name ≡ (table_of self.entry).ghost_name }
        ensures leaving_asked { SearchAsks F.FnMut (order_of (table_of self.entry).now) (Some (index_of self.entry))
            leaving.old leaving.new }
        ensures entering_asked { SearchAsks G.FnMut (others_of self.entry) (Some (index_of self.entry))
            entering.old entering.new }
        ensures moved { PutsIn G.FnMut (λ r. r) (others_of self.entry) (index_of self.entry) entering.old
            (order_of result.now) }
        ensures memory { capacity result.now ≡ capacity (table_of self.entry).now }
    {
        let PreparedBTreeMove { table, ix, blocks } = self;
        table.remove_by_search(ix, leaving, &AsOrdering);
        table.insert_again(ix, entering, &AsOrdering, blocks);
        table
    }

    /// Removes the index, inserts it where its new key belongs, and returns the table. The others keep
    /// their order. If keys are equal, the lesser index comes first.
    ///
    /// The asking answers the keys of the others, and isn't asked about the index itself. It is asked at
    /// most `4 + 2 * digits(len)` times for each key. If the old key doesn't lead to the index, a walk
    /// that asks nothing finds it.
    #[tactic(auto, unfolding(crate::specs::PreparedBTreeMove::index_of, crate::specs::MapBTreeTable::capacity))]
    pub fn commit<K: Ord + Drop, F: FnMut(ItemIndex) -> K>(
        self,
        old_key: &K,
        new_key: &K,
        asking: &mut Asking<F>,
    ) -> &'a mut MapBTreeTable
        requires { CanSearch F.FnMut (order_of (table_of self).now) (Some (index_of self)) asking.old }
        ensures same_reference { result.ghost_name ≡ (table_of self.entry).ghost_name }
        ensures asked { TwoSearchesAsk F.FnMut (order_of (table_of self.entry).now) (Some (index_of self.entry))
            asking.old asking.new }
        ensures moved { PutsIn F.FnMut (K.cmp new_key.now) (others_of self.entry) (index_of self.entry) asking.old
            (order_of result.now) }
        ensures memory { capacity result.now ≡ capacity (table_of self.entry).now }
    {
        let PreparedBTreeMove { table, ix, blocks } = self;
        table.remove_by_search(ix, asking, &ByKey(old_key));
        table.insert_again(ix, asking, &ByKey(new_key), blocks);
        table
    }
}

impl<B: HoldsBlocks> Drop for PreparedBTreeMove<'_, B> {
    fn drop(self)
        ensures { self.exit.0.now ≡ self.entry.table.now }
    {
        let PreparedBTreeMove {
            table: _,
            ix: _,
            blocks: _,
        } = self;
    }
}
