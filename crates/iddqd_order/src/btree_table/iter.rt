//! The iterator that borrows a table.
use crate::btree_table::cursor::{Cursor, End};
use crate::btree_table::node::Node;
use iddqd::item_index::ItemIndex;
use std::fmt::{self, Debug, Formatter, Write};
use std::iter::{DoubleEndedIterator, ExactSizeIterator, FusedIterator};
use std::marker::Model;

/// The indexes of a table, in its order, from both ends. Once it has ended it stays ended.
///
/// It takes no memory. A step within a leaf takes constant time; a step into another leaf may walk down from the root.
#[derive(Clone, Drop)]
pub struct Iter<'a> {
    root: &'a Option<Node>,
    height: usize,
    front: Cursor<'a>,
    back: Cursor<'a>,
    left: usize,
}

impl<'a> Model for Iter<'a> {
    ghost use Rattle.std.specs.Prelude.{◌≡◌, ◌+◌, ℕ, List};
    ghost use Rattle.iddqd_order.specs.Cursor.{Stands, next_behind, gap_of};
    ghost use Rattle.iddqd_order.specs.Tree.{IsTree, in_order};

    ghost Value = { List ℕ };

    ghost view = { λ a. next_behind a.left (gap_of a.root.now a.height a.front) (in_order a.root.now a.height) };

    ghost invariant = { λ a. IsTree a.root.now a.height
        × Stands a.root.now a.height a.front × Stands a.root.now a.height a.back
        × (gap_of a.root.now a.height a.front + a.left ≡ gap_of a.root.now a.height a.back) };
}

#[tactic(auto, unfolding(crate::specs::Iter::indexes_left))]
impl<'a> Iter<'a> {
    ghost use Rattle.std.specs.Prelude.{◌≡◌, length};
    ghost use Rattle.iddqd_order.specs.Tree.{IsTree, in_order};
    ghost use Rattle.iddqd_order.specs.Iter.{indexes_left};

    // All indexes of a tree. `len` is their number.
    pub(super) fn new(root: &'a Option<Node>, height: usize, len: usize) -> Iter<'a>
        requires tree { IsTree root.now height }
        requires counted { len ≡ length (in_order root.now height) }
        ensures { indexes_left result ≡ in_order root.now height }
    {
        Iter {
            root,
            height,
            front: Cursor::at_end(root, height, End::Front),
            back: Cursor::at_end(root, height, End::Back),
            left: len,
        }
    }
}

#[tactic(auto, unfolding(crate::specs::Iter::indexes_left))]
impl<'a> Iterator for Iter<'a> {
    ghost use Rattle.std.specs.Prelude.{◌≡◌, Some, IfSome, length};
    ghost use Rattle.std.specs.Iterator.{YieldsFirst, item_count, at_most, UpTo};
    ghost use Rattle.std.specs.Iterator.SizeHint.{IsWithinCount};
    ghost use Rattle.iddqd_order.specs.Iter.{indexes_left};

    type Item = ItemIndex;

    ghost next_gives = { YieldsFirst indexes_left };

    ghost remaining = { item_count indexes_left };

    fn next(&mut self) -> Option<ItemIndex> {
        if self.left == 0 {
            return None;
        }
        self.left -= 1;
        self.front.next(self.root, self.height)
    }

    fn size_hint(&self) -> (usize, Option<usize>)
        ensures lower { IsWithinCount result.0 (at_most (length (indexes_left self.now))) }
        ensures upper { IfSome result.1 (UpTo (at_most (length (indexes_left self.now)))) }
        ensures exact { result ≡ (length (indexes_left self.now), Some (length (indexes_left self.now))) }
    {
        let left = self.len();
        (left, Some(left))
    }
}

#[tactic(auto, unfolding(crate::specs::Iter::indexes_left))]
impl<'a> DoubleEndedIterator for Iter<'a> {
    ghost use Rattle.std.specs.Iterator.{YieldsLast};
    ghost use Rattle.iddqd_order.specs.Iter.{indexes_left};

    ghost next_back_gives = { YieldsLast indexes_left };

    fn next_back(&mut self) -> Option<ItemIndex> {
        if self.left == 0 {
            return None;
        }
        self.left -= 1;
        self.back.next_back(self.root, self.height)
    }
}

#[tactic(auto, unfolding(crate::specs::Iter::indexes_left))]
impl<'a> ExactSizeIterator for Iter<'a> {
    fn len(&self) -> usize {
        self.left
    }
}

impl<'a> FusedIterator for Iter<'a> {}

// The indexes still to come, printed as a list.
#[derive(Drop)]
pub(super) struct Rest<'a, 'b>(pub(super) &'b Iter<'a>);

impl Debug for Rest<'_, '_> {
    fn fmt<W: Write>(&self, f: &mut Formatter<W>) -> fmt::Result {
        f.debug_list().entries(self.0.clone()?).finish()
    }
}

impl Debug for Iter<'_> {
    fn fmt<W: Write>(&self, f: &mut Formatter<W>) -> fmt::Result {
        f.debug_struct("Iter").field("rest", &Rest(self)).finish()
    }
}
