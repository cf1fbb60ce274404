//! Where a caller goes on from a gap that it found by steps: towards either end of the list.
ghost use Rattle.std.specs.Prelude.{◌≡◌, ◌+◌, ℕ, ◌<◌, IfSome, IsNone, Some, drop, length, slice_get, take};
ghost use Rattle.iddqd_order.specs.Cursor.{Stands, gap_of};
ghost use Rattle.iddqd_order.specs.MapBTreeTable.{order_of, spot_place};
ghost use Rattle.iddqd_order.specs.Range.{indexes_ahead};
ghost use Rattle.iddqd_order.specs.Spot.{StandsAt};
ghost use Rattle.iddqd_order.specs.Stepping.{HasGap, gap_behind};

use crate::btree_table::cursor::{Cursor, End};
use crate::btree_table::range::Range;
use crate::btree_table::spot::Spot;
use crate::btree_table::stepping::Descent;
use crate::btree_table::table::MapBTreeTable;
use iddqd::item_index::ItemIndex;

#[tactic(auto, unfolding(crate::specs::MapBTreeTable::order_of))]
impl MapBTreeTable {
    /// The first index behind a gap of a leaf, with its spot. `None` if and only if the table has no such gap, or no
    /// index stands behind it.
    ///
    /// Cost: some steps for each level.
    pub fn first_behind(&self, leaf: &Descent, place: usize) -> Option<(ItemIndex, Spot)>
        ensures index { IfSome result
            (λ r. slice_get (order_of self.now) (gap_behind self.now leaf.now place) ≡ Some r.0) }
        ensures spot { IfSome result (λ r. StandsAt self.now r.1 r.0) }
        ensures place { IfSome result (λ r. spot_place self.now r.1 ≡ gap_behind self.now leaf.now place) }
        ensures gap { IfSome result (λ _. HasGap self.now leaf.now place) }
        ensures none { IsNone result → HasGap self.now leaf.now place →
            gap_behind self.now leaf.now place ≡ length (order_of self.now) }
    {
        let gap = self.gap_in(leaf, place)?;
        let (ix, level) = self.behind(&gap.path)?;
        Some((
            ix,
            Spot {
                path: gap.path,
                level,
            },
        ))
    }

    /// The last index before a gap of a leaf, with its spot. `None` if and only if the table has no such gap, or no
    /// index stands before it.
    ///
    /// Cost: some steps for each level.
    pub fn last_before(&self, leaf: &Descent, place: usize) -> Option<(ItemIndex, Spot)>
        ensures index { IfSome result
            (λ r. slice_get (order_of self.now) (spot_place self.now r.1) ≡ Some r.0) }
        ensures spot { IfSome result (λ r. StandsAt self.now r.1 r.0) }
        ensures place { IfSome result (λ r. spot_place self.now r.1 + 1 ≡ gap_behind self.now leaf.now place) }
        ensures gap { IfSome result (λ _. HasGap self.now leaf.now place) }
        ensures none { IsNone result → HasGap self.now leaf.now place → gap_behind self.now leaf.now place ≡ 0 }
    {
        let Some(mut cursor) = self.cursor_in(leaf, place) else {
            return None;
        };
        let (root, height) = self.tree();
        cursor.next_back(root, height)?;
        let path = cursor.gap();
        let (ix, level) = self.behind(&path)?;
        Some((ix, Spot { path, level }))
    }

    /// All indexes behind a gap of a leaf, in order, from both ends. `None` if and only if the table has no such gap.
    ///
    /// Cost: some steps for each level; of the iterator, constant for most steps.
    pub fn iter_behind(&self, leaf: &Descent, place: usize) -> Option<Range<'_>>
        ensures ahead { IfSome result (λ walk. indexes_ahead walk
            ≡ drop (gap_behind self.now leaf.now place) (order_of self.now)) }
        ensures gap { IfSome result (λ _. HasGap self.now leaf.now place) }
        ensures none { IsNone result → HasGap self.now leaf.now place → ⊥ }
    {
        let Some(front) = self.cursor_in(leaf, place) else {
            return None;
        };
        let back = self.end_cursor(End::Back);
        let (root, height) = self.tree();
        Some(Range::new(root, height, &front, &back))
    }

    /// All indexes before a gap of a leaf, in order, from both ends. `None` if and only if the table has no such gap.
    ///
    /// Cost: some steps for each level; of the iterator, constant for most steps.
    pub fn iter_before(&self, leaf: &Descent, place: usize) -> Option<Range<'_>>
        ensures ahead { IfSome result (λ walk. indexes_ahead walk
            ≡ take (gap_behind self.now leaf.now place) (order_of self.now)) }
        ensures gap { IfSome result (λ _. HasGap self.now leaf.now place) }
        ensures none { IsNone result → HasGap self.now leaf.now place → ⊥ }
    {
        let Some(back) = self.cursor_in(leaf, place) else {
            return None;
        };
        let front = self.end_cursor(End::Front);
        let (root, height) = self.tree();
        Some(Range::new(root, height, &front, &back))
    }

    // The cursor at a gap of a leaf, if the table has that gap.
    pub(super) fn cursor_in(&self, leaf: &Descent, place: usize) -> Option<Cursor<'_>>
        ensures stands { IfSome result (Stands self.now.root self.now.height) }
        ensures place { IfSome result
            (λ cursor. gap_of self.now.root self.now.height cursor ≡ gap_behind self.now leaf.now place) }
        ensures gap { IfSome result (λ _. HasGap self.now leaf.now place) }
        ensures none { IsNone result → HasGap self.now leaf.now place → ⊥ }
    {
        let row = self.row(leaf)?;
        if leaf.level > 0 || place > row.len() {
            return None;
        }
        Some(Cursor {
            path: leaf.path.copied(),
            row,
            at: place,
            leaf_parent: None,
        })
    }
}
