//! A node of the tree, and insertion into it.
ghost use Rattle.std.specs.Prelude.{◌≡◌, ℕ, ◌+◌, ◌-◌, ◌<◌, ◌≤◌, List, [], ◌∷◌, ◌++◌, length, take, drop, slice_index, vec_len, vec_capacity};
ghost use Rattle.std.specs.List.{insert};
ghost use Rattle.iddqd_order.specs.Node.{row, flat, inners, IsFormed, ReachesGap, place, IsFullBelow, IsPut, IsSpare};
ghost use Rattle.iddqd_order.specs.Reserve.{spare};
ghost use Rattle.iddqd_order.specs.Row.{IsSplit};
ghost use Rattle.iddqd_order.specs.Shape.{most_in_row, least_in_row, most_children, most_levels};

use crate::btree_table::blocks::Blocks;
use crate::btree_table::path::Path;
use crate::btree_table::reserve::{MOST_INDEXES, Reserve};
use crate::btree_table::row::{CAPACITY, Row};
use iddqd::item_index::ItemIndex;
use std::alloc::Global;

/// The most children of a node, and the room of a block.
pub(super) const CHILDREN: usize = CAPACITY + 1;

// A node and all below it. The children lie in one block; a leaf has none.
#[derive(Drop)]
pub(super) struct Node {
    pub(super) row: Row,
    pub(super) children: Vec<Node>,
}

// Moves the node at place `at` and all nodes after it into an empty block.
fn move_tail(from: &mut Vec<Node>, at: usize, to: &mut Vec<Node>)
    requires within { at ≤ vec_len from.old }
    requires empty { to.old.items ≡ [] }
    requires fits { vec_len from.old ≤ vec_capacity to.old + at }
    ensures head { from.new.items ≡ take at from.old.items }
    ensures tail { to.new.items ≡ drop at from.old.items }
    ensures count { vec_len to.new + at ≡ vec_len from.old }
    ensures capacity { vec_capacity from.new ≡ vec_capacity from.old }
    ensures other_capacity { vec_capacity to.new ≡ vec_capacity to.old }
{
    while from.len() > at {
        to.push_reserved(from.take_last());
    }
    to.reverse();
}

// Inserts a node after the i-th of twelve, and moves all but the first `low` of the thirteen into an empty block.
fn split_children(
    children: &mut Vec<Node>,
    low: usize,
    i: usize,
    after: Node,
    upper: &mut Vec<Node>,
)
    requires full { vec_len children.old ≡ most_children }
    requires some { 1 ≤ low }
    requires not_all { low ≤ most_children }
    requires within { i ≤ most_in_row }
    requires empty { upper.old.items ≡ [] }
    requires room { most_children ≤ vec_capacity children.old }
    requires other_room { most_children ≤ vec_capacity upper.old }
    ensures parts { children.new.items ++ upper.new.items ≡ insert children.old.items (i + 1) after }
    ensures low { vec_len children.new ≡ low }
    ensures capacity { most_children ≤ vec_capacity children.new }
    ensures other_capacity { most_children ≤ vec_capacity upper.new }
{
    if i + 1 < low {
        move_tail(children, low - 1, upper);
        let _ = children.insert(i + 1, after);
    } else {
        move_tail(children, low, upper);
        let _ = upper.insert(i + 1 - low, after);
    }
}

// Inserts an index and the child after it into an inner node that isn't full.
fn put_between(row: &mut Row, children: &mut Vec<Node>, i: usize, ix: ItemIndex, after: Node)
    requires within { i ≤ length row.old }
    requires room { length row.old < most_in_row }
    requires one_more { vec_len children.old ≡ length row.old + 1 }
    requires has_room { most_children ≤ vec_capacity children.old }
    ensures row { row.new ≡ insert row.old i ix }
    ensures children { children.new.items ≡ insert children.old.items (i + 1) after }
    ensures has_room { most_children ≤ vec_capacity children.new }
{
    row.insert(i, ix);
    let _ = children.insert(i + 1, after);
}

// Inserts an index and the child after it into a full inner node, and splits the node. Returns the middle index and the
// upper row. The upper children go into the empty block.
fn split_inner(
    row: &mut Row,
    children: &mut Vec<Node>,
    i: usize,
    ix: ItemIndex,
    after: Node,
    upper: &mut Vec<Node>,
) -> (ItemIndex, Row)
    requires within { i ≤ length row.old }
    requires full { length row.old ≡ most_in_row }
    requires one_more { vec_len children.old ≡ most_children }
    requires has_room { most_children ≤ vec_capacity children.old }
    requires spare { IsSpare upper.old }
    ensures split { IsSplit row.old i ix row.new result.0 result.1 }
    ensures parts { children.new.items ++ upper.new.items ≡ insert children.old.items (i + 1) after }
    ensures one_more { vec_len children.new ≡ length row.new + 1 }
    ensures has_room { most_children ≤ vec_capacity children.new }
    ensures other_room { most_children ≤ vec_capacity upper.new }
{
    let (middle, upper_row) = row.split(i, ix);
    split_children(children, row.len() + 1, i, after, upper);
    (middle, upper_row)
}

impl Node {
    // Inserts an index at the path's gap, in a leaf that isn't full.
    pub(super) fn put_in_leaf(&mut self, height: usize, path: &Path, ix: ItemIndex)
        requires levels { height < most_levels }
        requires formed { IsFormed height self.old }
        requires goes { ReachesGap height self.old path.now }
        requires room { IsFullBelow 0 height self.old path.now }
        ensures { IsPut height self.old self.new path.now ix 0 }
    {
        let i = path.get(height);
        if height == 0 {
            self.row.insert(i, ix);
        } else {
            self.children[i].put_in_leaf(height - 1, path, ix)
        }
    }

    // Inserts an index at the path's gap. The nodes below level `full` are full and are split. The node at level `full`
    // takes the index and the child that come up. It takes no memory but the blocks, and uses those of the reserve
    // first.
    pub(super) fn put_through_full(
        &mut self,
        height: usize,
        full: usize,
        path: &Path,
        ix: ItemIndex,
        reserve: &mut Reserve,
        fresh: &mut Blocks,
        alloc: Global,
    )
        requires levels { height < most_levels }
        requires some { 0 < full }
        requires not_all { full ≤ height }
        requires formed { IsFormed height self.old }
        requires goes { ReachesGap height self.old path.now }
        requires full { IsFullBelow full height self.old path.now }
        requires enough { full ≤ (spare reserve.old + fresh.old) + 1 }
        requires fits { reserve.old.inners + full ≤ MOST_INDEXES + 1 }
        ensures put { IsPut height self.old self.new path.now ix (full - 1) }
        ensures counted { reserve.new.inners + 1 ≡ reserve.old.inners + full }
        ensures reserved { reserve.new.reserved ≡ reserve.old.reserved }
    {
        let i = path.get(height);
        if height > full {
            self.children[i].put_through_full(height - 1, full, path, ix, reserve, fresh, alloc)
        } else {
            let (middle, after) = self.children[i].split(
                height - 1,
                path,
                ix,
                reserve,
                fresh,
                alloc,
            );
            put_between(&mut self.row, &mut self.children, i, middle, after)
        }
    }

    // Inserts an index at the path's gap. This node and all nodes below it on the path are full, and each is split.
    // Returns the index and the node that follow this node. It takes no memory but the blocks, and uses those of the
    // reserve first.
    pub(super) fn split(
        &mut self,
        height: usize,
        path: &Path,
        ix: ItemIndex,
        reserve: &mut Reserve,
        fresh: &mut Blocks,
        alloc: Global,
    ) -> (ItemIndex, Node)
        requires levels { height < most_levels }
        requires formed { IsFormed height self.old }
        requires goes { ReachesGap height self.old path.now }
        requires full { IsFullBelow (height + 1) height self.old path.now }
        requires enough { height ≤ spare reserve.old + fresh.old }
        requires fits { reserve.old.inners + height ≤ MOST_INDEXES + 1 }
        ensures items { flat height self.new ++ result.0 ∷ flat height result.1
            ≡ insert (flat height self.old) (place height self.old path.now) ix }
        ensures low { (least_in_row ≤ length (row self.new)) × IsFormed height self.new }
        ensures high { (least_in_row ≤ length (row result.1)) × IsFormed height result.1 }
        ensures inner { inners height self.new + inners height result.1 ≡ inners height self.old + height }
        ensures counted { reserve.new.inners ≡ reserve.old.inners + height }
        ensures reserved { reserve.new.reserved ≡ reserve.old.reserved }
        ensures left { (spare reserve.new + fresh.new) + height ≡ spare reserve.old + fresh.old }
    {
        let i = path.get(height);
        if height == 0 {
            let (middle, row) = self.row.split(i, ix);
            return (
                middle,
                Node {
                    row,
                    children: Vec::new(alloc),
                },
            );
        }
        let (middle, after) = self.children[i].split(height - 1, path, ix, reserve, fresh, alloc);
        let mut children = reserve.take(fresh);
        let (middle, row) = split_inner(
            &mut self.row,
            &mut self.children,
            i,
            middle,
            after,
            &mut children,
        );
        (middle, Node { row, children })
    }
}
