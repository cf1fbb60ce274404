//! Searches of a tree: one walk down from the root, at most four asks a level.
//!
//! A tree with h levels above its leaves has at least `2 * 6^h - 1` indexes. So four asks a level, and one more at the
//! front or two in each of up to three leaves, are within the bound of `4 + 2 * digits(len)`.
ghost use Rattle.std.specs.Prelude.{◌≡◌, ◌≢◌, ℕ, ◌+◌, ◌*◌, ◌<◌, ◌≤◌, Some, None, IfSome, IsNone, Contains, length, slice_index};
ghost use Rattle.std.specs.declared.cmp.Ordering.{Ordering};
ghost use Rattle.iddqd_order.specs.Asking.{closure_of};
ghost use Rattle.iddqd_order.specs.Asks.{CanAskAgain, CanAskEach};
ghost use Rattle.iddqd_order.specs.Cursor.{leaf, leaf_parent};
ghost use Rattle.iddqd_order.specs.Descent.{Descends, FindsIn, Seeks};
ghost use Rattle.iddqd_order.specs.Digits.{row_asks};
ghost use Rattle.iddqd_order.specs.MapBTreeTable.{StandsAt};
ghost use Rattle.iddqd_order.specs.Node.{flat, IsFormed, LeadsToIndex};
ghost use Rattle.iddqd_order.specs.Search.{Askable, CanSearch, SearchesWithin};
ghost use Rattle.iddqd_order.specs.Shape.{most_in_row, most_levels};

use crate::btree_table::asking::Asking;
use crate::btree_table::node::Node;
use crate::btree_table::path::Path;
use crate::btree_table::reading::Reads;
use crate::btree_table::row::{CAPACITY, Row};
use crate::btree_table::search::search;
use iddqd::item_index::ItemIndex;
use std::cmp::Ordering;

impl Node {
    // Searches from this node down, and returns the index that it hits.
    pub(super) fn find<R, F: FnMut(ItemIndex) -> R, H: Reads<R>>(
        &self,
        height: usize,
        asking: &mut Asking<F>,
        how: &H,
    ) -> Option<ItemIndex>
        requires formed { IsFormed height self.now }
        requires can_search { CanSearch F.FnMut (flat height self.now) None asking.old }
        ensures { FindsIn F.FnMut (H.reading how.now) None height self.now asking.old result asking.new }
    {
        let sought = None;
        let mut node = self;
        let mut level = height;
        loop {
            match search_row(&node.row, asking, how, &sought) {
                Ok(i) => return Some(node.row.get(i)),
                Err(i) => {
                    if level == 0 {
                        return None;
                    }
                    level -= 1;
                    node = &node.children[i];
                }
            }
        }
    }

    // Searches from this node down, and records its way in `path`. Returns `Ok` of the level of the index that it hits,
    // or `Err` of how many nodes at the lower end of the path are full.
    pub(super) fn descend<R, F: FnMut(ItemIndex) -> R, H: Reads<R>>(
        &self,
        height: usize,
        asking: &mut Asking<F>,
        how: &H,
        sought: &Option<ItemIndex>,
        path: &mut Path,
    ) -> Result<usize, usize>
        requires formed { IsFormed height self.now }
        requires levels { height < most_levels }
        requires path { length path.old ≡ most_levels }
        requires can_search { CanSearch F.FnMut (flat height self.now) sought.now asking.old }
        ensures path { length path.new ≡ most_levels }
        ensures descends { Descends F.FnMut (H.reading how.now) sought.now (row_asks * (height + 1)) (height + 1)
            height self.now asking.old path.new result asking.new }
    {
        let mut node = self;
        let mut level = height;
        let mut full = height + 1;
        loop {
            full = full_from(&node.row, level, full);
            match search_row(&node.row, asking, how, sought) {
                Ok(i) => {
                    path.set(level, i);
                    return Ok(level);
                }
                Err(i) => {
                    path.set(level, i);
                    if level == 0 {
                        return Err(full);
                    }
                    level -= 1;
                    node = &node.children[i];
                }
            }
        }
    }

    // Searches from this node down, where no answer is read as Equal, and records its way to a gap in `path`. Returns
    // the leaf of that gap, and the node above the leaf, or this node if it is the leaf.
    pub(super) fn seek<R, F: FnMut(ItemIndex) -> R, H: Reads<R>>(
        &self,
        height: usize,
        asking: &mut Asking<F>,
        how: &H,
        path: &mut Path,
    ) -> (&[ItemIndex], &Node)
        requires formed { IsFormed height self.now }
        requires levels { height < most_levels }
        requires path { length path.old ≡ most_levels }
        requires unequal { (r : R) → H.reading how.now r ≢ Ordering.Equal }
        requires can_search { CanSearch F.FnMut (flat height self.now) None asking.old }
        ensures path { length path.new ≡ most_levels }
        ensures seeks { Seeks F.FnMut (H.reading how.now) None height self.now asking.old path.new asking.new }
        ensures leaf { result.0.now ≡ leaf height self.now path.new }
        ensures parent { result.1.now ≡ leaf_parent height self.now path.new }
    {
        let mut above = self;
        let mut node = self;
        let mut level = height;
        loop {
            match search_row(&node.row, asking, how, &None) {
                Ok(_) => unreachable!(),
                Err(i) => {
                    path.set(level, i);
                    if level == 0 {
                        return (node.row.as_slice(), above);
                    }
                    level -= 1;
                    above = node;
                    node = &node.children[i];
                }
            }
        }
    }

    // Finds an index by a walk over all nodes, which asks nothing. Writes the path to the index, and returns its level.
    pub(super) fn locate(&self, height: usize, ix: ItemIndex, path: &mut Path) -> Option<usize>
        requires formed { IsFormed height self.now }
        requires levels { height < most_levels }
        requires path { length path.old ≡ most_levels }
        ensures there { IfSome result (λ l. LeadsToIndex l height self.now path.new ix) }
        ensures missing { IsNone result → Contains (flat height self.now) ix → ⊥ }
        ensures path { length path.new ≡ most_levels }
        ensures above { (l : ℕ) → height < l → slice_index path.new l ≡ slice_index path.old l }
    {
        if let Some(i) = position(self.row.as_slice(), ix) {
            path.set(height, i);
            return Some(height);
        }
        if height == 0 {
            return None;
        }
        for i in 0..self.children.len() {
            path.set(height, i);
            if let Some(level) = self.children[i].locate(height - 1, ix, path) {
                return Some(level);
            }
        }
        None
    }
}

// A walk down keeps in `full` the lowest level so far at which its node isn't full, or the number of levels if all
// nodes so far are full. This returns the new `full` at a node that has this row and level.
#[inline(always)]
pub(super) fn full_from(row: &Row, level: usize, full: usize) -> usize
    requires { level < full }
    ensures above { level ≤ result }
    ensures not_full { length row.now < most_in_row → result ≡ level }
    ensures is_full { most_in_row ≤ length row.now → result ≡ full }
    ensures few { length row.now ≤ most_in_row }
{
    if row.len() < CAPACITY { level } else { full }
}

// Searches a row: the place of what is sought, or of the gap where it would go.
fn search_row<R, F: FnMut(ItemIndex) -> R, H: Reads<R>>(
    row: &Row,
    asking: &mut Asking<F>,
    how: &H,
    sought: &Option<ItemIndex>,
) -> Result<usize, usize>
    requires each { CanAskEach F.FnMut (Askable row.now sought.now) (closure_of asking.old) }
    requires again { CanAskAgain F.FnMut (Askable row.now sought.now) (closure_of asking.old) }
    ensures { SearchesWithin F.FnMut (H.reading how.now) row.now row_asks sought.now asking.old result asking.new }
{
    let items = row.as_slice();
    let _few = row.len();
    search(items, asking, how, sought)
}

// The place of an index in a row, if it is there.
fn position(items: &[ItemIndex], ix: ItemIndex) -> Option<usize>
    ensures there { StandsAt items.now ix result }
    ensures missing { IsNone result → Contains items.now ix → ⊥ }
{
    items.iter().position(|stored| *stored == ix)
}
