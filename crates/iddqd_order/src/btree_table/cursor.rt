//! A cursor stands at a gap of a tree, and steps towards either end.
//!
//! A cursor keeps the path from the root, and also the leaf, so it descends from the root only for a new leaf. A walk
//! towards the back also keeps the node above the leaf, and descends about once in nine leaves. Descending at each
//! leaf took twice as long for 1,000 indexes, and 1.4 times as long for a million.
ghost use Rattle.std.specs.Prelude.{◌≡◌, ◌↔◌, ℕ, ◌<◌, ◌≤◌, length, slice_index, IfSome, IsNone, IsTrue};
ghost use Rattle.iddqd_order.specs.Cursor.{Agree, AreBeside, AtEdge, Compares, StepsOver, Steps, IsGap, Stands, edge_of, gap_of, leaf_parent, opposite, to_gap};
ghost use Rattle.iddqd_order.specs.Shape.{most_in_row, most_levels};
ghost use Rattle.iddqd_order.specs.declared.btree_table.node.Node.{Node as NodeOf};
ghost use Rattle.iddqd_order.specs.Node.{flat, ReachesGap, IsFormed, place};
ghost use Rattle.iddqd_order.specs.Tree.{IsTree, in_order};

use crate::btree_table::node::Node;
use crate::btree_table::path::Path;
use crate::btree_table::row::Row;
use iddqd::item_index::ItemIndex;
use std::cmp::Ordering;

// An end of the list of all indexes. A walk goes towards one end.
#[derive(Clone, Copy)]
pub(super) enum End {
    Front,
    Back,
}

impl End {
    fn opposite(self) -> End
        ensures { result ≡ opposite self }
    {
        match self {
            End::Front => End::Back,
            End::Back => End::Front,
        }
    }
}

// A gap in a leaf, with the path from the root to the leaf. `at` is the gap's place in the leaf. The path's entry for
// level 0 may be out of date, so that a step writes only `at`.
#[derive(Clone, Copy)]
pub(super) struct Cursor<'a> {
    pub(super) path: Path,
    pub(super) row: &'a [ItemIndex],
    pub(super) at: usize,
    // The node above the leaf, if it is known.
    pub(super) leaf_parent: Option<&'a Node>,
}

impl<'a> Cursor<'a> {
    // A cursor at the first or last gap of a tree.
    pub(super) fn at_end(root: &'a Option<Node>, height: usize, end: End) -> Cursor<'a>
        requires { IsTree root.now height }
        ensures stands { Stands root.now height result }
        ensures gap { gap_of root.now height result ≡ edge_of end (length (in_order root.now height)) }
    {
        let mut path = Path::leftmost();
        match root {
            None => Cursor {
                path,
                row: &[],
                at: 0,
                leaf_parent: None,
            },
            Some(node) => {
                let row = node.edge(height, &mut path, end);
                Cursor {
                    path,
                    row,
                    at: path.get(0),
                    leaf_parent: None,
                }
            }
        }
    }

    // The same cursor.
    pub(super) fn copied(&self) -> Cursor<'a>
        ensures { result ≡ self.now }
    {
        Cursor {
            path: self.path,
            row: self.row,
            at: self.at,
            leaf_parent: self.leaf_parent,
        }
    }

    // Moves over the next index, and returns it.
    pub(super) fn next(&mut self, root: &'a Option<Node>, height: usize) -> Option<ItemIndex>
        requires tree { IsTree root.now height }
        requires stands { Stands root.now height self.old }
        ensures stands { Stands root.now height self.new }
        ensures next { Steps End.Back (in_order root.now height)
            (gap_of root.now height self.old) result (gap_of root.now height self.new) }
    {
        match self.row.get(self.at) {
            Some(ix) => {
                self.at += 1;
                Some(*ix)
            }
            // Taken apart and put together, else each step within a leaf tests once more whether there is an index.
            None => Some(self.next_leaf(root, height)?),
        }
    }

    // Moves back over the index before the gap, and returns it.
    pub(super) fn next_back(&mut self, root: &'a Option<Node>, height: usize) -> Option<ItemIndex>
        requires tree { IsTree root.now height }
        requires stands { Stands root.now height self.old }
        ensures stands { Stands root.now height self.new }
        ensures next { Steps End.Front (in_order root.now height)
            (gap_of root.now height self.old) result (gap_of root.now height self.new) }
    {
        if self.at > 0 {
            self.at -= 1;
            return Some(self.row[self.at]);
        }
        self.leave_leaf(root, height, End::Front)
    }

    // At the end of a leaf, moves over the next index into the next leaf, and returns the index.
    #[inline(never)]
    pub(super) fn next_leaf(&mut self, root: &'a Option<Node>, height: usize) -> Option<ItemIndex>
        requires tree { IsTree root.now height }
        requires stands { Stands root.now height self.old }
        requires end { length self.old.row.now ≤ self.old.at }
        ensures stands { Stands root.now height self.new }
        ensures next { Steps End.Back (in_order root.now height)
            (gap_of root.now height self.old) result (gap_of root.now height self.new) }
    {
        let known = self.leaf_parent;
        if let Some(leaf_parent) = known {
            let place = self.path.get(1);
            if place < leaf_parent.row.len() {
                self.path.set(1, place + 1);
                self.row = leaf_parent.children[place + 1].row.as_slice();
                self.at = 0;
                return Some(leaf_parent.row.get(place));
            }
        }
        self.leave_leaf(root, height, End::Back)
    }

    // Walks down from the root, moves over the index next to the gap, towards an end, and returns it. If there is none,
    // the cursor stays as it is.
    fn leave_leaf(
        &mut self,
        root: &'a Option<Node>,
        height: usize,
        towards: End,
    ) -> Option<ItemIndex>
        requires tree { IsTree root.now height }
        requires gap { IsGap root.now height self.old.path self.old.at }
        ensures stands { IfSome result (λ _. Stands root.now height self.new) }
        ensures unchanged { IsNone result → self.new ≡ self.old }
        ensures next { Steps towards (in_order root.now height)
            (gap_of root.now height self.old) result (gap_of root.now height self.new) }
    {
        let Some(node) = root else {
            return None;
        };
        let mut path = self.gap();
        let Some(found) = node.step_over(height, &mut path, towards) else {
            return None;
        };
        self.row = found.1;
        self.at = path.get(0);
        self.path = path;
        self.leaf_parent = None;
        match towards {
            End::Front => Some(found.0),
            End::Back => {
                self.leaf_parent = node.leaf_parent(height, &path);
                Some(found.0)
            }
        }
    }

    // The path to the gap, with `at` as its entry for level 0.
    pub(super) fn gap(&self) -> Path
        requires { self.now.at ≤ most_in_row }
        ensures { result ≡ to_gap self.now.path self.now.at }
    {
        let mut path = self.path;
        path.set(0, self.at);
        path
    }

    // Compares the place of the gap with that of another cursor's gap.
    pub(super) fn compare(&self, other: &Cursor<'_>, root: &Option<Node>, height: usize) -> Ordering
        requires tree { IsTree root.now height }
        requires stands { Stands root.now height self.now }
        requires other_stands { Stands root.now height other.now }
        ensures { Compares result (gap_of root.now height self.now) (gap_of root.now height other.now) }
    {
        match root {
            None => Ordering::Equal,
            Some(_) => self.gap().compare(&other.gap(), height),
        }
    }
}

impl Path {
    // Whether two paths take the same child at each level above the leaves, from `level` down.
    pub(super) fn agrees(&self, other: &Path, level: usize) -> bool
        requires { level < most_levels }
        ensures { IsTrue result ↔ Agree level self.now other.now }
    {
        level == 0 || self.get(level) == other.get(level) && self.agrees(other, level - 1)
    }

    // Compares the gaps to which two paths go, by their places from `level` down.
    pub(super) fn compare(&self, other: &Path, level: usize) -> Ordering
        requires { level < most_levels }
        ensures { (n : NodeOf) → IsFormed level n → ReachesGap level n self.now → ReachesGap level n other.now →
            Compares result (place level n self.now) (place level n other.now) }
    {
        let here = self.get(level).cmp(&other.get(level));
        if level == 0 || here.is_ne() {
            return here;
        }
        self.compare(other, level - 1)
    }
}

// The place of the gap at an end of a row.
fn edge_place(row: &Row, end: End) -> usize
    ensures { result ≡ edge_of end (length row.now) }
{
    match end {
        End::Front => 0,
        End::Back => row.len(),
    }
}

// In a row of `count` indexes, finds the index next to the gap at `place`, towards an end. Returns the place of that
// index, and the place of the gap on its other side.
fn beside(place: usize, count: usize, towards: End) -> Option<(usize, usize)>
    requires { place ≤ count }
    ensures { AreBeside towards count place result }
{
    match towards {
        End::Front if place > 0 => Some((place - 1, place - 1)),
        End::Back if place < count => Some((place, place + 1)),
        _ => None,
    }
}

impl Node {
    // Extends the path to the first or last gap below this node, and returns the leaf of that gap.
    fn edge(&self, level: usize, path: &mut Path, end: End) -> &[ItemIndex]
        requires formed { IsFormed level self.now }
        requires levels { level < most_levels }
        requires path { length path.old ≡ most_levels }
        ensures edge { AtEdge end level self.now result.now path.new }
        ensures path { length path.new ≡ most_levels }
        ensures above { (m : ℕ) → level < m → slice_index path.new m ≡ slice_index path.old m }
    {
        let place = edge_place(&self.row, end);
        path.set(level, place);
        if level == 0 {
            return self.row.as_slice();
        }
        self.children[place].edge(level - 1, path, end)
    }

    // The node above the leaf to which a path goes. None if this node is the leaf.
    fn leaf_parent(&self, level: usize, path: &Path) -> Option<&Node>
        requires formed { IsFormed level self.now }
        requires levels { level < most_levels }
        requires goes { ReachesGap level self.now path.now }
        ensures { IfSome result (λ k. (0 < level) × (k.now ≡ leaf_parent level self.now path.now)) }
    {
        if level == 0 {
            return None;
        }
        if level == 1 {
            return Some(self);
        }
        self.children[path.get(level)].leaf_parent(level - 1, path)
    }

    // Moves the path's gap over one index, towards an end. Returns that index and the leaf of the new gap. If there is
    // no such index, the path stays as it is.
    pub(super) fn step_over(
        &self,
        level: usize,
        path: &mut Path,
        towards: End,
    ) -> Option<(ItemIndex, &[ItemIndex])>
        requires formed { IsFormed level self.now }
        requires levels { level < most_levels }
        requires path { length path.old ≡ most_levels }
        requires goes { ReachesGap level self.now path.old }
        ensures ended { IsNone result → place level self.now path.old ≡ edge_of towards (length (flat level self.now)) }
        ensures unchanged { IsNone result → path.new ≡ path.old }
        ensures over { IfSome result (λ r. StepsOver towards level self.now path.old r.0 r.1.now path.new) }
        ensures path { length path.new ≡ most_levels }
        ensures above { (m : ℕ) → level < m → slice_index path.new m ≡ slice_index path.old m }
    {
        let place = path.get(level);
        if level == 0 {
            let Some((at, next)) = beside(place, self.row.len(), towards) else {
                return None;
            };
            path.set(0, next);
            return Some((self.row.get(at), self.row.as_slice()));
        }
        if let Some(found) = self.children[place].step_over(level - 1, path, towards) {
            return Some(found);
        }
        let Some((at, next)) = beside(place, self.row.len(), towards) else {
            return None;
        };
        path.set(level, next);
        let row = self.children[next].edge(level - 1, path, towards.opposite());
        Some((self.row.get(at), row))
    }
}
