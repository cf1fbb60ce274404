//! The iterator that consumes a table.
//!
//! It owns the tree, so it has no reference into it: each end has a copy of its leaf.
ghost use Rattle.std.specs.Prelude.{◌≡◌, length};
ghost use Rattle.iddqd_order.specs.Cursor.{IsAt, Steps, edge_of, to_gap};
ghost use Rattle.iddqd_order.specs.Tree.{IsTree, in_order, place_in};

use crate::btree_table::cursor::{Cursor, End};
use crate::btree_table::node::Node;
use crate::btree_table::path::Path;
use crate::btree_table::row::Row;
use iddqd::item_index::ItemIndex;
use std::fmt::{self, Debug, Formatter, Write};
use std::iter::{DoubleEndedIterator, ExactSizeIterator, FusedIterator};
use std::marker::Model;

// A cursor with a copy of its leaf. `at` is the gap's place in the leaf. The path's entry for level 0 may be out of
// date, so that a step writes only `at`.
#[derive(Drop)]
struct OwnedCursor {
    path: Path,
    row: Row,
    at: usize,
}

impl OwnedCursor {
    // A cursor at the first or last gap of a tree.
    fn at_end(root: &Option<Node>, height: usize, end: End) -> OwnedCursor
        requires { IsTree root.now height }
        ensures at { IsAt root.now height result.path result.row result.at }
        ensures gap { place_in root.now height (to_gap result.path result.at)
            ≡ edge_of end (length (in_order root.now height)) }
    {
        let cursor = Cursor::at_end(root, height, end);
        OwnedCursor {
            path: cursor.path,
            row: Row::of(cursor.row),
            at: cursor.at,
        }
    }

    // Moves over the next index, and returns it.
    fn next(&mut self, root: &Option<Node>, height: usize) -> Option<ItemIndex>
        requires tree { IsTree root.now height }
        requires at { IsAt root.now height self.old.path self.old.row self.old.at }
        ensures at { IsAt root.now height self.new.path self.new.row self.new.at }
        ensures next { Steps End.Back (in_order root.now height)
            (place_in root.now height (to_gap self.old.path self.old.at))
            result (place_in root.now height (to_gap self.new.path self.new.at)) }
    {
        if self.at < self.row.len() {
            let ix = self.row.get(self.at);
            self.at += 1;
            return Some(ix);
        }
        self.leave_leaf(root, height, End::Back)
    }

    // Moves back over the index before the gap, and returns it.
    fn next_back(&mut self, root: &Option<Node>, height: usize) -> Option<ItemIndex>
        requires tree { IsTree root.now height }
        requires at { IsAt root.now height self.old.path self.old.row self.old.at }
        ensures at { IsAt root.now height self.new.path self.new.row self.new.at }
        ensures next { Steps End.Front (in_order root.now height)
            (place_in root.now height (to_gap self.old.path self.old.at))
            result (place_in root.now height (to_gap self.new.path self.new.at)) }
    {
        if self.at > 0 {
            self.at -= 1;
            return Some(self.row.get(self.at));
        }
        self.leave_leaf(root, height, End::Front)
    }

    // Walks down from the root, moves over the index next to the gap, towards an end, and returns it.
    fn leave_leaf(&mut self, root: &Option<Node>, height: usize, towards: End) -> Option<ItemIndex>
        requires tree { IsTree root.now height }
        requires at { IsAt root.now height self.old.path self.old.row self.old.at }
        ensures at { IsAt root.now height self.new.path self.new.row self.new.at }
        ensures next { Steps towards (in_order root.now height)
            (place_in root.now height (to_gap self.old.path self.old.at))
            result (place_in root.now height (to_gap self.new.path self.new.at)) }
    {
        let Some(node) = root else {
            return None;
        };
        let mut path = self.path;
        path.set(0, self.at);
        let Some(found) = node.step_over(height, &mut path, towards) else {
            return None;
        };
        self.row = Row::of(found.1);
        self.at = path.get(0);
        self.path = path;
        Some(found.0)
    }
}

/// The indexes of a table, in its order, from both ends. Once it has ended it stays ended.
///
/// It takes no memory. A step within a leaf takes constant time; a step into another leaf may walk down from the root.
/// Dropping it gives back the table's memory.
#[derive(Drop)]
pub struct IntoIter {
    root: Option<Node>,
    height: usize,
    front: OwnedCursor,
    back: OwnedCursor,
    left: usize,
}

impl Model for IntoIter {
    ghost use Rattle.std.specs.Prelude.{◌≡◌, ◌+◌, ℕ, List};
    ghost use Rattle.iddqd_order.specs.Cursor.{IsAt, next_behind, to_gap};
    ghost use Rattle.iddqd_order.specs.Tree.{IsTree, in_order, place_in};

    ghost Value = { List ℕ };

    ghost view = { λ a. next_behind a.left
        (place_in a.root a.height (to_gap a.front.path a.front.at)) (in_order a.root a.height) };

    ghost invariant = { λ a. IsTree a.root a.height
        × IsAt a.root a.height a.front.path a.front.row a.front.at
        × IsAt a.root a.height a.back.path a.back.row a.back.at
        × (place_in a.root a.height (to_gap a.front.path a.front.at) + a.left
        ≡ place_in a.root a.height (to_gap a.back.path a.back.at)) };
}

#[tactic(auto, unfolding(crate::specs::IntoIter::indexes_to_come))]
impl IntoIter {
    ghost use Rattle.std.specs.Prelude.{◌≡◌, length};
    ghost use Rattle.iddqd_order.specs.IntoIter.{indexes_to_come};
    ghost use Rattle.iddqd_order.specs.Tree.{IsTree, in_order};

    // All indexes of a tree. `len` is their number.
    pub(super) fn new(root: Option<Node>, height: usize, len: usize) -> IntoIter
        requires tree { IsTree root height }
        requires counted { len ≡ length (in_order root height) }
        ensures { indexes_to_come result ≡ in_order root height }
    {
        let front = OwnedCursor::at_end(&root, height, End::Front);
        let back = OwnedCursor::at_end(&root, height, End::Back);
        IntoIter {
            root,
            height,
            front,
            back,
            left: len,
        }
    }
}

#[tactic(auto, unfolding(crate::specs::IntoIter::indexes_to_come))]
impl Iterator for IntoIter {
    ghost use Rattle.std.specs.Prelude.{◌≡◌, Some, IfSome, length};
    ghost use Rattle.std.specs.Iterator.{YieldsFirst, item_count, at_most, UpTo};
    ghost use Rattle.std.specs.Iterator.SizeHint.{IsWithinCount};
    ghost use Rattle.iddqd_order.specs.IntoIter.{indexes_to_come};

    type Item = ItemIndex;

    ghost next_gives = { YieldsFirst indexes_to_come };

    ghost remaining = { item_count indexes_to_come };

    fn next(&mut self) -> Option<ItemIndex> {
        if self.left == 0 {
            return None;
        }
        self.left -= 1;
        self.front.next(&self.root, self.height)
    }

    fn size_hint(&self) -> (usize, Option<usize>)
        ensures lower { IsWithinCount result.0 (at_most (length (indexes_to_come self.now))) }
        ensures upper { IfSome result.1 (UpTo (at_most (length (indexes_to_come self.now)))) }
        ensures exact { result ≡ (length (indexes_to_come self.now), Some (length (indexes_to_come self.now))) }
    {
        let left = self.len();
        (left, Some(left))
    }
}

#[tactic(auto, unfolding(crate::specs::IntoIter::indexes_to_come))]
impl DoubleEndedIterator for IntoIter {
    ghost use Rattle.std.specs.Iterator.{YieldsLast};
    ghost use Rattle.iddqd_order.specs.IntoIter.{indexes_to_come};

    ghost next_back_gives = { YieldsLast indexes_to_come };

    fn next_back(&mut self) -> Option<ItemIndex> {
        if self.left == 0 {
            return None;
        }
        self.left -= 1;
        self.back.next_back(&self.root, self.height)
    }
}

#[tactic(auto, unfolding(crate::specs::IntoIter::indexes_to_come))]
impl ExactSizeIterator for IntoIter {
    fn len(&self) -> usize {
        self.left
    }
}

impl FusedIterator for IntoIter {}

impl Debug for IntoIter {
    fn fmt<W: Write>(&self, f: &mut Formatter<W>) -> fmt::Result {
        f.debug_struct("IntoIter")
            .field("left", &self.len())
            .finish()
    }
}
