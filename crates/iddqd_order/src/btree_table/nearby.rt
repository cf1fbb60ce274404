//! The end of a range is sought near its beginning first.
//!
//! Many ranges are short, as a group of a few equal keys. So the search for the end goes along the leaves from the
//! beginning. It first asks whether the end comes behind the beginning. In each leaf it asks about the last index, and
//! between two leaves about the index that stands there. If the end isn't in the first three leaves, a search from the
//! root finds it.
//!
//! Each leaf costs two asks at most. A tree with h levels above its leaves has so many indexes that the bound of a
//! search leaves room for two asks in each of h + 1 leaves, up to three.
ghost use Rattle.std.specs.Prelude.{◌≡◌, ◌≢◌, ℕ, ◌+◌, ◌*◌, ◌<◌, ◌≤◌, None, Err, IsTrue, false, length};
ghost use Rattle.std.specs.declared.cmp.Ordering.{Ordering};
ghost use Rattle.iddqd_order.specs.Asks.{AsksWithin};
ghost use Rattle.iddqd_order.specs.Cursor.{Stands, gap_of};
ghost use Rattle.iddqd_order.specs.Descent.{walk_asks};
ghost use Rattle.iddqd_order.specs.Digits.{row_asks};
ghost use Rattle.iddqd_order.specs.Nearby.{Advances, Arrives, GoesOn};
ghost use Rattle.iddqd_order.specs.Range.{EndsAt};
ghost use Rattle.iddqd_order.specs.Search.{Askable, CanSearch, Searches, SearchesWithin};
ghost use Rattle.iddqd_order.specs.Tree.{IsTree, in_order};

use crate::btree_table::asking::Asking;
use crate::btree_table::cursor::{Cursor, End};
use crate::btree_table::node::Node;
use crate::btree_table::path::Path;
use crate::btree_table::reading::Reads;
use crate::btree_table::search::{compare, search};
use iddqd::item_index::ItemIndex;
use std::cmp::Ordering;

// In how many leaves of a tree the end of a range is sought before the root is asked: in three, or fewer in a low tree.
fn leaves_near(height: usize) -> usize
    ensures some { 0 < result }
    ensures few { result ≤ height + 1 }
    ensures most { result ≤ 3 }
{
    if height < 2 { height + 1 } else { 3 }
}

impl<'a> Cursor<'a> {
    // The cursor at the gap where what is sought would go, by a walk down from the root.
    pub(super) fn seek<R, F: FnMut(ItemIndex) -> R, H: Reads<R>>(
        root: &'a Option<Node>,
        height: usize,
        asking: &mut Asking<F>,
        how: &H,
    ) -> Cursor<'a>
        requires tree { IsTree root.now height }
        requires unequal { (r : R) → H.reading how.now r ≢ Ordering.Equal }
        requires can_search { CanSearch F.FnMut (in_order root.now height) None asking.old }
        ensures stands { Stands root.now height result }
        ensures searches { SearchesWithin F.FnMut (H.reading how.now) (in_order root.now height)
            (walk_asks root.now height) None asking.old (Err (gap_of root.now height result)) asking.new }
    {
        let Some(node) = root else {
            return Cursor::at_end(root, height, End::Front);
        };
        let mut path = Path::leftmost();
        let (row, above) = node.seek(height, asking, how, &mut path);
        Cursor {
            path,
            row,
            at: path.leaf_place(),
            leaf_parent: if height > 0 { Some(above) } else { None },
        }
    }

    // The cursor at the gap where what is sought would go, or the same cursor if that gap comes before its own. It
    // looks near its own gap first.
    pub(super) fn seek_end<R, F: FnMut(ItemIndex) -> R, H: Reads<R>>(
        &self,
        root: &'a Option<Node>,
        height: usize,
        asking: &mut Asking<F>,
        how: &H,
    ) -> Cursor<'a>
        requires tree { IsTree root.now height }
        requires stands { Stands root.now height self.now }
        requires unequal { (r : R) → H.reading how.now r ≢ Ordering.Equal }
        requires can_search { CanSearch F.FnMut (in_order root.now height) None asking.old }
        ensures stands { Stands root.now height result }
        ensures end { let xs = in_order root.now height in
            EndsAt xs (λ to. Searches F.FnMut (H.reading how.now) xs None asking.old (Err to) asking.new)
            (gap_of root.now height self.now) (gap_of root.now height result) }
    {
        let mut near = self.copied();
        if near.seek_near(root, height, leaves_near(height), asking, how) {
            return near;
        }
        let end = Cursor::seek(root, height, asking, how);
        if end.compare(self, root, height).is_lt() {
            return self.copied();
        }
        end
    }

    // Whether what is sought stands behind the index before the gap, or behind the leaf's first index if the gap is at
    // the leaf's front.
    fn has_passed<R, F: FnMut(ItemIndex) -> R, H: Reads<R>>(
        &self,
        root: &Option<Node>,
        height: usize,
        asking: &mut Asking<F>,
        how: &H,
    ) -> bool
        requires tree { IsTree root.now height }
        requires stands { Stands root.now height self.now }
        requires can_search { CanSearch F.FnMut (in_order root.now height) None asking.old }
        ensures asked { AsksWithin F.FnMut (Askable (in_order root.now height) None) 1 asking.old asking.new }
        ensures advances { IsTrue result → Advances F.FnMut (H.reading how.now) (in_order root.now height) 1
            (gap_of root.now height self.now) asking.old asking.new }
        ensures some { IsTrue result → 1 ≤ length (in_order root.now height) }
    {
        let before = if self.at > 0 { self.at - 1 } else { 0 };
        match self.row.get(before) {
            Some(ix) => compare(asking, how, &None, *ix).is_gt(),
            None => false,
        }
    }

    // Goes on in the leaf to the gap where what is sought would go, and returns true; or, if that is behind the leaf's
    // last index, to the end of the leaf.
    fn seek_in_leaf<R, F: FnMut(ItemIndex) -> R, H: Reads<R>>(
        &mut self,
        root: &Option<Node>,
        height: usize,
        asking: &mut Asking<F>,
        how: &H,
    ) -> bool
        requires tree { IsTree root.now height }
        requires stands { Stands root.now height self.old }
        requires unequal { (r : R) → H.reading how.now r ≢ Ordering.Equal }
        requires can_search { CanSearch F.FnMut (in_order root.now height) None asking.old }
        ensures stands { Stands root.now height self.new }
        ensures ahead { gap_of root.now height self.old ≤ gap_of root.now height self.new }
        ensures arrives { IsTrue result → Arrives F.FnMut (H.reading how.now) (in_order root.now height) (row_asks + 1)
            (gap_of root.now height self.old) (gap_of root.now height self.new) asking.old asking.new }
        ensures goes_on { result ≡ false → GoesOn F.FnMut (H.reading how.now) (in_order root.now height)
            (gap_of root.now height self.old) (gap_of root.now height self.new) asking.old asking.new }
        ensures end { result ≡ false → self.new.at ≡ length self.new.row.now }
    {
        if self.at == self.row.len() {
            return false;
        }
        let last = self.row.len() - 1;
        if compare(asking, how, &None, self.row[last]).is_gt() {
            self.at = last + 1;
            return false;
        }
        let others = &self.row[self.at..last];
        match search(others, asking, how, &None) {
            Ok(_) => unreachable!(),
            Err(i) => {
                self.at += i;
                true
            }
        }
    }

    // At the end of a leaf, goes over the next index, and returns true; or, if what is sought would go before it, or
    // there is none, stays.
    fn seek_over<R, F: FnMut(ItemIndex) -> R, H: Reads<R>>(
        &mut self,
        root: &'a Option<Node>,
        height: usize,
        asking: &mut Asking<F>,
        how: &H,
    ) -> bool
        requires tree { IsTree root.now height }
        requires stands { Stands root.now height self.old }
        requires end { length self.old.row.now ≤ self.old.at }
        requires unequal { (r : R) → H.reading how.now r ≢ Ordering.Equal }
        requires can_search { CanSearch F.FnMut (in_order root.now height) None asking.old }
        ensures stands { Stands root.now height self.new }
        ensures ahead { gap_of root.now height self.old ≤ gap_of root.now height self.new }
        ensures advances { IsTrue result → Advances F.FnMut (H.reading how.now) (in_order root.now height) 1
            (gap_of root.now height self.new) asking.old asking.new }
        ensures arrives { result ≡ false → Arrives F.FnMut (H.reading how.now) (in_order root.now height) 1
            (gap_of root.now height self.old) (gap_of root.now height self.new) asking.old asking.new }
    {
        let here = self.copied();
        let Some(ix) = self.next_leaf(root, height) else {
            return false;
        };
        if compare(asking, how, &None, ix).is_gt() {
            return true;
        }
        *self = here;
        false
    }

    // Goes on to the gap where what is sought would go, and returns true, if that is in the next few leaves.
    fn seek_near<R, F: FnMut(ItemIndex) -> R, H: Reads<R>>(
        &mut self,
        root: &'a Option<Node>,
        height: usize,
        leaves: usize,
        asking: &mut Asking<F>,
        how: &H,
    ) -> bool
        requires tree { IsTree root.now height }
        requires stands { Stands root.now height self.old }
        requires some { 0 < leaves }
        requires unequal { (r : R) → H.reading how.now r ≢ Ordering.Equal }
        requires can_search { CanSearch F.FnMut (in_order root.now height) None asking.old }
        ensures stands { Stands root.now height self.new }
        ensures ahead { gap_of root.now height self.old ≤ gap_of root.now height self.new }
        ensures found { IsTrue result → SearchesWithin F.FnMut (H.reading how.now) (in_order root.now height)
            (row_asks + 2 * leaves) None asking.old (Err (gap_of root.now height self.new)) asking.new }
        ensures some { IsTrue result → 1 ≤ length (in_order root.now height) }
        ensures missed { result ≡ false →
            AsksWithin F.FnMut (Askable (in_order root.now height) None) (2 * leaves) asking.old asking.new }
    {
        if !self.has_passed(root, height, asking, how) {
            return false;
        }
        let mut left = leaves;
        loop {
            if self.seek_in_leaf(root, height, asking, how) {
                return true;
            }
            left -= 1;
            if left == 0 {
                return false;
            }
            if !self.seek_over(root, height, asking, how) {
                return true;
            }
        }
    }
}
