//! An iterator from one gap to the end, or between two gaps.
//!
//! The search for a bound reads Equal as Less, and then ends before all equal keys; or it reads Equal as Greater,
//! and then ends behind them. So of equal keys a range has all or none.
//!
//! The length isn't known, since a node doesn't count what is below it. The iterator has ended when both cursors
//! stand at the same gap.
//!
//! A contract describes a range by two positions, which exist for any answers; if answers rise, they are
//! the bounds. `range_by` includes what is Equal at either bound. To exclude it, let the closure answer Greater in
//! place of Equal at the lower bound, and Less in place of Equal at the upper one.
ghost use Rattle.std.specs.Prelude.{◌≡◌, ◌≢◌, None, length};
ghost use Rattle.std.specs.declared.cmp.Ordering.{Ordering};
ghost use Rattle.std.specs.declared.cmp.Ordering.TheVariants.{Less, Equal, Greater};
ghost use Rattle.iddqd_order.specs.Cursor.{Stands, edge_of, gap_of};
ghost use Rattle.iddqd_order.specs.MapBTreeTable.{order_of};
ghost use Rattle.iddqd_order.specs.Range.{bound_reading, Begins, Ends, EndsAt, IsBoundBy, WalksBetween, WalksBetweenBy, WalksFrom};
ghost use Rattle.iddqd_order.specs.Search.{CanSearch, SearchAsks};
ghost use Rattle.iddqd_order.specs.Tree.{IsTree};

use crate::btree_table::asking::Asking;
use crate::btree_table::cursor::{Cursor, End};
use crate::btree_table::node::Node;
use crate::btree_table::reading::{
    AsOrdering, ByQuery, EqualAsGreater, EqualAsLess, Reads, by_query,
};
use crate::btree_table::table::MapBTreeTable;
use iddqd::item_index::ItemIndex;
use iddqd::map_hash::Comparable;
use std::cmp::Ordering;
use std::iter::{DoubleEndedIterator, FusedIterator};
use std::marker::Model;
use std::ops::Bound;

/// The indexes of a table between two gaps, in its order, from both ends. Once it has ended it stays ended.
///
/// It takes no memory. A step within a leaf takes constant time; a step into another leaf may walk down from the root.
#[derive(Clone, Drop)]
pub struct Range<'a> {
    root: &'a Option<Node>,
    height: usize,
    front: Cursor<'a>,
    back: Cursor<'a>,
}

impl<'a> Model for Range<'a> {
    ghost use Rattle.std.specs.Prelude.{◌≤◌, ℕ, List};
    ghost use Rattle.iddqd_order.specs.Cursor.{Stands, gap_of, part};
    ghost use Rattle.iddqd_order.specs.Tree.{IsTree, in_order};

    ghost Value = { List ℕ };

    ghost view = { λ a. part (gap_of a.root.now a.height a.front) (gap_of a.root.now a.height a.back)
        (in_order a.root.now a.height) };

    ghost invariant = { λ a. IsTree a.root.now a.height
        × Stands a.root.now a.height a.front × Stands a.root.now a.height a.back
        × (gap_of a.root.now a.height a.front ≤ gap_of a.root.now a.height a.back) };
}

#[tactic(auto, unfolding(crate::specs::Range::indexes_ahead))]
impl<'a> Range<'a> {
    ghost use Rattle.std.specs.Prelude.{◌↔◌, ◌≤◌, [], IsTrue};
    ghost use Rattle.iddqd_order.specs.Cursor.{Stands, gap_of, part};
    ghost use Rattle.iddqd_order.specs.Range.{indexes_ahead};
    ghost use Rattle.iddqd_order.specs.Tree.{IsTree, in_order};

    // The indexes of a tree between two gaps.
    pub(super) fn new(
        root: &'a Option<Node>,
        height: usize,
        front: &Cursor<'a>,
        back: &Cursor<'a>,
    ) -> Range<'a>
        requires tree { IsTree root.now height }
        requires front { Stands root.now height front.now }
        requires back { Stands root.now height back.now }
        requires ahead { gap_of root.now height front.now ≤ gap_of root.now height back.now }
        ensures { indexes_ahead result
            ≡ part (gap_of root.now height front.now) (gap_of root.now height back.now) (in_order root.now height) }
    {
        Range {
            root,
            height,
            front: front.copied(),
            back: back.copied(),
        }
    }

    // Whether no index is left. If the places in the leaves differ, as they mostly do, the paths aren't compared.
    fn has_ended(&self) -> bool
        ensures { IsTrue result ↔ (indexes_ahead self.now ≡ []) }
    {
        self.front.at == self.back.at && self.front.path.agrees(&self.back.path, self.height)
    }
}

#[tactic(auto, unfolding(crate::specs::Range::indexes_ahead))]
impl<'a> Iterator for Range<'a> {
    ghost use Rattle.std.specs.Iterator.{YieldsFirst, item_count};
    ghost use Rattle.iddqd_order.specs.Range.{indexes_ahead};

    type Item = ItemIndex;

    ghost next_gives = { YieldsFirst indexes_ahead };

    ghost remaining = { item_count indexes_ahead };

    fn next(&mut self) -> Option<ItemIndex> {
        if self.has_ended() {
            return None;
        }
        self.front.next(self.root, self.height)
    }
}

#[tactic(auto, unfolding(crate::specs::Range::indexes_ahead))]
impl<'a> DoubleEndedIterator for Range<'a> {
    ghost use Rattle.std.specs.Iterator.{YieldsLast};
    ghost use Rattle.iddqd_order.specs.Range.{indexes_ahead};

    ghost next_back_gives = { YieldsLast indexes_ahead };

    fn next_back(&mut self) -> Option<ItemIndex> {
        if self.has_ended() {
            return None;
        }
        self.back.next_back(self.root, self.height)
    }
}

impl<'a> FusedIterator for Range<'a> {}

#[tactic(auto, unfolding(crate::specs::MapBTreeTable::order_of))]
impl MapBTreeTable {
    /// The first index at which the asking doesn't answer Greater, and all behind it. Less means that what is
    /// sought stands before the stored index.
    ///
    /// If answers change, they are the indexes behind some gap. It asks at most
    /// `4 + 2 * digits(len)` times, and takes no memory.
    pub fn iter_from_by<F: FnMut(ItemIndex) -> Ordering>(&self, asking: &mut Asking<F>) -> Range<'_>
        requires { CanSearch F.FnMut (order_of self.now) None asking.old }
        ensures { WalksFrom F.FnMut (λ r. r) Less (order_of self.now) asking.old result asking.new }
    {
        self.walk_from(asking, &AsOrdering, Ordering::Less)
    }

    /// The query's lower bound, which is the first index whose key isn't less than the query, and all behind it.
    /// The asking answers the keys.
    ///
    /// If keys change, they are the indexes behind some gap. It asks at most
    /// `4 + 2 * digits(len)` times, and takes no memory.
    pub fn iter_from<K: Ord + Drop, Q: Comparable<K>, F: FnMut(ItemIndex) -> K>(
        &self,
        query: &Q,
        asking: &mut Asking<F>,
    ) -> Range<'_>
        requires { CanSearch F.FnMut (order_of self.now) None asking.old }
        ensures { WalksFrom F.FnMut (Q.compare query.now) Less (order_of self.now) asking.old result asking.new }
    {
        self.walk_from(asking, &ByQuery(query), Ordering::Less)
    }

    /// The first index at which the asking answers Less, and all behind it. Less means that what is sought stands
    /// before the stored index.
    ///
    /// If answers change, they are the indexes behind some gap. It asks at most
    /// `4 + 2 * digits(len)` times, and takes no memory.
    pub fn iter_after_by<F: FnMut(ItemIndex) -> Ordering>(
        &self,
        asking: &mut Asking<F>,
    ) -> Range<'_>
        requires { CanSearch F.FnMut (order_of self.now) None asking.old }
        ensures { WalksFrom F.FnMut (λ r. r) Greater (order_of self.now) asking.old result asking.new }
    {
        self.walk_from(asking, &AsOrdering, Ordering::Greater)
    }

    /// The query's upper bound, which is the first index whose key is greater than the query, and all behind it.
    /// The asking answers the keys.
    ///
    /// If keys change, they are the indexes behind some gap. It asks at most
    /// `4 + 2 * digits(len)` times, and takes no memory.
    pub fn iter_after<K: Ord + Drop, Q: Comparable<K>, F: FnMut(ItemIndex) -> K>(
        &self,
        query: &Q,
        asking: &mut Asking<F>,
    ) -> Range<'_>
        requires { CanSearch F.FnMut (order_of self.now) None asking.old }
        ensures { WalksFrom F.FnMut (Q.compare query.now) Greater (order_of self.now) asking.old result asking.new }
    {
        self.walk_from(asking, &ByQuery(query), Ordering::Greater)
    }

    /// The indexes from the first at which `from` doesn't answer Greater, up to but not including the first at which
    /// `to` answers Less; none if `to` ends before `from` begins.
    ///
    /// If answers change, they are the indexes between some two gaps. Each asking is asked at most
    /// `4 + 2 * digits(len)` times, and no memory is taken.
    pub fn range_by<F: FnMut(ItemIndex) -> Ordering, G: FnMut(ItemIndex) -> Ordering>(
        &self,
        from: &mut Asking<F>,
        to: &mut Asking<G>,
    ) -> Range<'_>
        requires from { CanSearch F.FnMut (order_of self.now) None from.old }
        requires to { CanSearch G.FnMut (order_of self.now) None to.old }
        ensures { WalksBetweenBy F.FnMut G.FnMut (order_of self.now) from.old to.old result from.new to.new }
    {
        let front = self.find_bound(from, &AsOrdering, Ordering::Less);
        let back = self.find_end(&front, to, &AsOrdering, Ordering::Greater);
        let (root, height) = self.tree();
        Range::new(root, height, &front, &back)
    }

    /// The indexes whose keys are within two bounds; none if the lower bound is above the upper one. The asking
    /// answers the keys.
    ///
    /// If keys change, they are the indexes between some two gaps. It asks at most
    /// `2 * (4 + 2 * digits(len))` times, and takes no memory.
    pub fn range<K: Ord + Drop, Q: Comparable<K>, F: FnMut(ItemIndex) -> K>(
        &self,
        lower: Bound<&Q>,
        upper: Bound<&Q>,
        asking: &mut Asking<F>,
    ) -> Range<'_>
        requires { CanSearch F.FnMut (order_of self.now) None asking.old }
        ensures { WalksBetween F.FnMut (order_of self.now) (bound_reading Q.compare lower.entry)
            (bound_reading Q.compare upper.entry) asking.old result asking.new }
    {
        let (from, to) = (by_query(lower), by_query(upper));
        self.range_reading(from.as_ref(), to.as_ref(), asking)
    }

    /// The same as `range`, where each bound says itself how it reads an answer.
    ///
    /// A bound may be Equal at keys that differ, as a query for the first of several keys is.
    pub fn range_reading<R, H: Reads<R>, F: FnMut(ItemIndex) -> R>(
        &self,
        lower: Bound<&H>,
        upper: Bound<&H>,
        asking: &mut Asking<F>,
    ) -> Range<'_>
        requires { CanSearch F.FnMut (order_of self.now) None asking.old }
        ensures { WalksBetween F.FnMut (order_of self.now) (bound_reading H.reading lower.entry)
            (bound_reading H.reading upper.entry) asking.old result asking.new }
    {
        let front = self.find_lower(lower, asking);
        let back = self.find_upper(&front, upper, asking);
        let (root, height) = self.tree();
        Range::new(root, height, &front, &back)
    }

    // `iter_from_by`, `iter_from`, `iter_after_by` and `iter_after`, generic over how an answer is read. Equal is read
    // as `at_equal`.
    fn walk_from<R, F: FnMut(ItemIndex) -> R, H: Reads<R>>(
        &self,
        asking: &mut Asking<F>,
        how: &H,
        at_equal: Ordering,
    ) -> Range<'_>
        requires can_search { CanSearch F.FnMut (order_of self.now) None asking.old }
        requires unequal { at_equal ≢ Equal }
        ensures { WalksFrom F.FnMut (H.reading how.now) at_equal (order_of self.now) asking.old result asking.new }
    {
        let front = self.find_bound(asking, how, at_equal);
        let (root, height) = self.tree();
        let back = Cursor::at_end(root, height, End::Back);
        Range::new(root, height, &front, &back)
    }

    // The cursor at the gap where a range with this lower bound begins.
    pub(super) fn find_lower<R, H: Reads<R>, F: FnMut(ItemIndex) -> R>(
        &self,
        lower: Bound<&H>,
        asking: &mut Asking<F>,
    ) -> Cursor<'_>
        requires { CanSearch F.FnMut (order_of self.now) None asking.old }
        ensures tree { IsTree self.now.root self.now.height }
        ensures stands { Stands self.now.root self.now.height result }
        ensures asked { SearchAsks F.FnMut (order_of self.now) None asking.old asking.new }
        ensures begins { Begins F.FnMut (order_of self.now) (bound_reading H.reading lower.entry) asking.old
            (gap_of self.now.root self.now.height result) }
    {
        match lower {
            Bound::Included(how) => self.find_bound(asking, how, Ordering::Less),
            Bound::Excluded(how) => self.find_bound(asking, how, Ordering::Greater),
            Bound::Unbounded => self.end_cursor(End::Front),
        }
    }

    // The cursor at the gap where a range with this upper bound ends that begins at `front`.
    fn find_upper<'a, R, H: Reads<R>, F: FnMut(ItemIndex) -> R>(
        &'a self,
        front: &Cursor<'a>,
        upper: Bound<&H>,
        asking: &mut Asking<F>,
    ) -> Cursor<'a>
        requires stands { Stands self.now.root self.now.height front.now }
        requires can_search { CanSearch F.FnMut (order_of self.now) None asking.old }
        ensures stands { Stands self.now.root self.now.height result }
        ensures asked { SearchAsks F.FnMut (order_of self.now) None asking.old asking.new }
        ensures ends { EndsAt (order_of self.now)
            (Ends F.FnMut (order_of self.now) (bound_reading H.reading upper.entry) asking.old)
            (gap_of self.now.root self.now.height front.now) (gap_of self.now.root self.now.height result) }
    {
        match upper {
            Bound::Included(how) => self.find_end(front, asking, how, Ordering::Greater),
            Bound::Excluded(how) => self.find_end(front, asking, how, Ordering::Less),
            Bound::Unbounded => self.end_cursor(End::Back),
        }
    }

    // The cursor at the gap where what is sought would go, with Equal read as `at_equal`.
    #[inline(always)]
    fn find_bound<R, F: FnMut(ItemIndex) -> R, H: Reads<R>>(
        &self,
        asking: &mut Asking<F>,
        how: &H,
        at_equal: Ordering,
    ) -> Cursor<'_>
        requires can_search { CanSearch F.FnMut (order_of self.now) None asking.old }
        requires unequal { at_equal ≢ Equal }
        ensures tree { IsTree self.now.root self.now.height }
        ensures stands { Stands self.now.root self.now.height result }
        ensures asked { SearchAsks F.FnMut (order_of self.now) None asking.old asking.new }
        ensures bound { IsBoundBy F.FnMut (H.reading how.now) at_equal (order_of self.now) asking.old
            (gap_of self.now.root self.now.height result) }
    {
        // No answer is read as Equal.
        let (root, height) = self.tree();
        match at_equal {
            Ordering::Less => Cursor::seek(root, height, asking, &EqualAsLess(how)),
            Ordering::Greater => Cursor::seek(root, height, asking, &EqualAsGreater(how)),
            Ordering::Equal => unreachable!(),
        }
    }

    // The same for the end of a range that begins at `front`: if the end comes before `front`, it is `front`.
    #[inline(always)]
    fn find_end<'a, R, F: FnMut(ItemIndex) -> R, H: Reads<R>>(
        &'a self,
        front: &Cursor<'a>,
        asking: &mut Asking<F>,
        how: &H,
        at_equal: Ordering,
    ) -> Cursor<'a>
        requires stands { Stands self.now.root self.now.height front.now }
        requires can_search { CanSearch F.FnMut (order_of self.now) None asking.old }
        requires unequal { at_equal ≢ Equal }
        ensures stands { Stands self.now.root self.now.height result }
        ensures asked { SearchAsks F.FnMut (order_of self.now) None asking.old asking.new }
        ensures ends { EndsAt (order_of self.now)
            (IsBoundBy F.FnMut (H.reading how.now) at_equal (order_of self.now) asking.old)
            (gap_of self.now.root self.now.height front.now) (gap_of self.now.root self.now.height result) }
    {
        let (root, height) = self.tree();
        match at_equal {
            Ordering::Less => front.seek_end(root, height, asking, &EqualAsLess(how)),
            Ordering::Greater => front.seek_end(root, height, asking, &EqualAsGreater(how)),
            Ordering::Equal => unreachable!(),
        }
    }

    // The cursor at the first or last gap.
    pub(super) fn end_cursor(&self, end: End) -> Cursor<'_>
        ensures tree { IsTree self.now.root self.now.height }
        ensures stands { Stands self.now.root self.now.height result }
        ensures gap { gap_of self.now.root self.now.height result ≡ edge_of end (length (order_of self.now)) }
    {
        let (root, height) = self.tree();
        Cursor::at_end(root, height, end)
    }
}
