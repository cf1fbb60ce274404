//! A search that its caller carries out: the calls of the tree, with the same clauses.
//!
//! The vector has one node, a leaf, whose row is the whole list. So no call goes down.
ghost use Rattle.std.specs.Prelude.{◌≡◌, ◌≢◌, ◌+◌, ◌*◌, ℕ, ◌<◌, ◌≤◌, length, slice_get, insert, Contains, IfSome, IsNone, IsOk, OnOk, OnErr, Some, None, true, false};
ghost use Rattle.iddqd_order.specs.Digits.{bound, row_asks};
ghost use Rattle.iddqd_order.specs.MapBTreeTable.{sentinel, without, StandsAt};
ghost use Rattle.iddqd_order.specs.Search.{CanSearch};
ghost use Rattle.iddqd_order.specs.Shape.{most_levels};
ghost use Rattle.iddqd_order.specs.Stepping.{IsAllBetween, StandsBetween, node_level};
ghost use Rattle.iddqd_order_reference.specs.OrderedTable.{order_of, capacity, HasRoom};
ghost use Rattle.iddqd_order_reference.specs.Stepping.{FindsGap, Fits, HasGap, IsChildAt, IsNode, gap_behind, gap_place, high, low, row_of};

use super::OrderedTable;
use iddqd::item_index::ItemIndex;
use iddqd_order::btree_table::Descent;
use iddqd_order::btree_table::asking::Asking;
use iddqd_order::btree_table::reading::AsOrdering;
use iddqd_order::btree_table::search::search;
use std::alloc::AllocError;
use std::cmp::Ordering;

/// A place before, between or behind the indexes of a table, where an index can be inserted.
#[derive(Clone, Copy, Drop)]
pub struct Gap {
    pub(super) place: usize,
}

#[tactic(auto, unfolding(crate::specs::OrderedTable::order_of, crate::specs::OrderedTable::capacity))]
impl OrderedTable {
    /// The root, where each search begins. All indexes stand below it.
    ///
    /// Cost: constant.
    pub fn enter(&self) -> Descent
        ensures node { IsNode self.now result }
        ensures low { low self.now result ≡ 0 }
        ensures high { high self.now result ≡ length (order_of self.now) }
        ensures asks { row_asks * (node_level result + 1) ≤ bound (length (order_of self.now)) }
        ensures levels { node_level result < most_levels }
    {
        Descent::of([0; 12], 0)
    }

    /// The indexes in the row of a node, in order. `None` if and only if the table has no such node.
    ///
    /// Cost: constant.
    pub fn row(&self, node: &Descent) -> Option<&[ItemIndex]>
        ensures node { IfSome result (λ _. IsNode self.now node.now) }
        ensures none { IsNone result → IsNode self.now node.now → ⊥ }
        ensures row { IfSome result (λ row. row.now ≡ row_of self.now node.now) }
        ensures stands { IfSome result (λ row. StandsBetween (order_of self.now) row.now
            (low self.now node.now) (high self.now node.now)) }
        ensures leaf { IfSome result (λ row. node_level node.now ≡ 0 → IsAllBetween (order_of self.now) row.now
            (low self.now node.now) (high self.now node.now)) }
        ensures levels { IfSome result (λ _. node_level node.now < most_levels) }
    {
        if node.level() > 0 {
            return None;
        }
        Some(&self.items)
    }

    /// Goes down from a node into the child at a place of its row. The only node is a leaf, so it is always false, and
    /// nothing changes.
    ///
    /// Cost: constant.
    pub fn down(&self, node: &mut Descent, place: usize) -> bool
        ensures went { result ≡ true → IsChildAt self.now node.old place node.new }
        ensures stayed { result ≡ false → node.new ≡ node.old }
        ensures refused { result ≡ false → IsNode self.now node.old → 0 < node_level node.old →
            place ≤ length (row_of self.now node.old) → ⊥ }
    {
        let _leaf = (node.level(), place);
        false
    }

    /// The gap at a place of the row of a leaf, for `insert_in`. `None` if and only if the table has no such gap.
    ///
    /// Cost: constant.
    pub fn gap_in(&self, leaf: &Descent, place: usize) -> Option<Gap>
        ensures fits { IfSome result (Fits self.now) }
        ensures place { IfSome result (λ gap. gap_place gap ≡ gap_behind self.now leaf.now place) }
        ensures leaf { IfSome result (λ _. HasGap self.now leaf.now place) }
        ensures within { IfSome result (λ gap. gap_place gap ≤ length (order_of self.now)) }
        ensures none { IsNone result → HasGap self.now leaf.now place → ⊥ }
    {
        let row = self.row(leaf)?;
        if place > row.len() {
            return None;
        }
        Some(Gap { place })
    }

    /// Inserts the index at the gap. The others keep their order. It asks nothing. Below the capacity it takes no
    /// memory and never fails; `AllocError` means that memory ran out, and then nothing changed.
    ///
    /// Cost: a step for each index behind the gap.
    pub fn insert_in(&mut self, gap: &Gap, ix: ItemIndex) -> Result<(), AllocError>
        requires fits { Fits self.old gap.now }
        requires absent { Contains (order_of self.old) ix → ⊥ }
        requires assigned { ix ≢ sentinel }
        ensures inserted { OnOk result (order_of self.new ≡ insert (order_of self.old) (gap_place gap.now) ix) }
        ensures refused { OnErr result (self.new ≡ self.old) }
        ensures roomy { HasRoom self.old → IsOk result }
        ensures memory { HasRoom self.old → capacity self.new ≡ capacity self.old }
    {
        if let Err(error) = self.make_room() {
            return Err(error);
        }
        self.insert_at(gap.place, ix);
        Ok(())
    }

    /// `Ok` of the gap where what is sought could be inserted, or `Err` of a stored index at which the asking answers
    /// Equal, as a caller finds it that has no closure: by `enter`, `row` and `gap_in`.
    ///
    /// Cost: the asks.
    /// Asks: at most `4 + 2 * digits(len)` times.
    pub fn find_gap_by_steps<F: FnMut(ItemIndex) -> Ordering>(
        &self,
        asking: &mut Asking<F>,
    ) -> Result<Gap, ItemIndex>
        requires { CanSearch F.FnMut (order_of self.now) None asking.old }
        ensures { FindsGap F.FnMut (λ r. r) self.now asking.old result asking.new }
    {
        let node = self.enter();
        let Some(row) = self.row(&node) else {
            unreachable!()
        };
        match search(row, asking, &AsOrdering, &None) {
            Ok(hit) => Err(row[hit]),
            Err(place) => match self.gap_in(&node, place) {
                Some(gap) => Ok(gap),
                None => unreachable!(),
            },
        }
    }

    // The position of an index, if it stands at that place of the row of that node.
    fn place_in(&self, node: &Descent, place: usize, ix: ItemIndex) -> Option<usize>
        ensures there { StandsAt (order_of self.now) ix result }
    {
        let row = self.row(node)?;
        if place < row.len() && row[place] == ix {
            return Some(place);
        }
        None
    }

    /// Removes the index, if it is stored: at that place of the row of that node, or, if it doesn't stand there, by a
    /// walk along the list. It takes no memory. The others keep their order.
    ///
    /// Cost: a step for each index.
    pub fn remove_hinted(&mut self, ix: ItemIndex, node: &Descent, place: usize)
        ensures removed { order_of self.new ≡ without (order_of self.old) ix }
        ensures memory { capacity self.new ≡ capacity self.old }
    {
        let there = self.place_in(node, place, ix);
        if !self.remove_found(ix, there) {
            self.remove_exact(ix);
        }
    }

    /// The first index behind a gap of a leaf, with its position. `None` if and only if the table has no such gap, or
    /// no index stands behind it.
    ///
    /// Cost: constant.
    pub fn first_behind(&self, leaf: &Descent, place: usize) -> Option<(ItemIndex, usize)>
        ensures index { IfSome result
            (λ r. slice_get (order_of self.now) (gap_behind self.now leaf.now place) ≡ Some r.0) }
        ensures place { IfSome result (λ r. r.1 ≡ gap_behind self.now leaf.now place) }
        ensures gap { IfSome result (λ _. HasGap self.now leaf.now place) }
        ensures none { IsNone result → HasGap self.now leaf.now place →
            gap_behind self.now leaf.now place ≡ length (order_of self.now) }
    {
        let row = self.row(leaf)?;
        if place >= row.len() {
            return None;
        }
        Some((row[place], place))
    }

    /// The last index before a gap of a leaf, with its position. `None` if and only if the table has no such gap, or no
    /// index stands before it.
    ///
    /// Cost: constant.
    pub fn last_before(&self, leaf: &Descent, place: usize) -> Option<(ItemIndex, usize)>
        ensures index { IfSome result (λ r. slice_get (order_of self.now) r.1 ≡ Some r.0) }
        ensures place { IfSome result (λ r. r.1 + 1 ≡ gap_behind self.now leaf.now place) }
        ensures gap { IfSome result (λ _. HasGap self.now leaf.now place) }
        ensures none { IsNone result → HasGap self.now leaf.now place → gap_behind self.now leaf.now place ≡ 0 }
    {
        let row = self.row(leaf)?;
        if place == 0 || place > row.len() {
            return None;
        }
        Some((row[place - 1], place - 1))
    }
}
