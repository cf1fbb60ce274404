//! Insertion into a tree, which may be empty.
ghost use Rattle.std.specs.Prelude.{◌≡◌, ◌+◌, ◌<◌, ◌≤◌, [], ◌∷◌, length};
ghost use Rattle.std.specs.List.{insert};
ghost use Rattle.iddqd_order.specs.Node.{row, children, child_room, flat, inners, IsFormed, ReachesGap, place, IsFullBelow, IsSpare};
ghost use Rattle.iddqd_order.specs.Reserve.{spare};
ghost use Rattle.iddqd_order.specs.Shape.{most_children, most_levels};
ghost use Rattle.iddqd_order.specs.Tree.{in_order, inners_in, IsTree, ReachesGapIn, place_in, FullIn, blocks_for};

use crate::btree_table::blocks::Blocks;
use crate::btree_table::node::Node;
use crate::btree_table::path::Path;
use crate::btree_table::reserve::{MOST_INDEXES, Reserve};
use crate::btree_table::row::Row;
use iddqd::item_index::ItemIndex;
use std::alloc::Global;
use std::mem;

// Inserts an index at the path's gap, and returns the new height. `full` nodes at the lower end of the path are full.
// It takes no memory but the blocks, and uses those of the reserve first.
pub(super) fn put_in(
    root: &mut Option<Node>,
    height: usize,
    path: &Path,
    full: usize,
    ix: ItemIndex,
    reserve: &mut Reserve,
    fresh: &mut Blocks,
    alloc: Global,
) -> usize
    requires tree { IsTree root.old height }
    requires goes { ReachesGapIn root.old height path.now }
    requires full { FullIn full root.old height path.now }
    requires fits { length (in_order root.old height) ≤ MOST_INDEXES }
    requires enough { blocks_for height full ≤ spare reserve.old + fresh.old }
    requires inners { reserve.old.inners ≡ inners_in root.old height }
    ensures tree { IsTree root.new result }
    ensures items { in_order root.new result
        ≡ insert (in_order root.old height) (place_in root.old height path.now) ix }
    ensures inners { reserve.new.inners ≡ inners_in root.new result }
    ensures reserved { reserve.new.reserved ≡ reserve.old.reserved }
{
    match root {
        None => {
            let mut row = Row::new();
            row.insert(0, ix);
            let children = Vec::new(alloc);
            *root = Some(Node { row, children });
            0
        }
        Some(node) => {
            if full == 0 {
                node.put_in_leaf(height, path, ix);
                height
            } else {
                put_and_split(node, height, path, full, ix, reserve, fresh, alloc)
            }
        }
    }
}

// `put_in`, if the leaf is full.
#[inline(never)]
fn put_and_split(
    node: &mut Node,
    height: usize,
    path: &Path,
    full: usize,
    ix: ItemIndex,
    reserve: &mut Reserve,
    fresh: &mut Blocks,
    alloc: Global,
) -> usize
    requires levels { height < most_levels }
    requires some { 0 < full }
    requires formed { IsFormed height node.old }
    requires goes { ReachesGap height node.old path.now }
    requires full { IsFullBelow full height node.old path.now }
    requires root { 1 ≤ length (row node.old) }
    requires fits { length (flat height node.old) ≤ MOST_INDEXES }
    requires enough { blocks_for height full ≤ spare reserve.old + fresh.old }
    requires inners { reserve.old.inners ≡ inners height node.old }
    ensures levels { result < most_levels }
    ensures formed { IsFormed result node.new }
    ensures root { 1 ≤ length (row node.new) }
    ensures items { flat result node.new ≡ insert (flat height node.old) (place height node.old path.now) ix }
    ensures inners { reserve.new.inners ≡ inners result node.new }
    ensures reserved { reserve.new.reserved ≡ reserve.old.reserved }
{
    if full <= height {
        node.put_through_full(height, full, path, ix, reserve, fresh, alloc);
        return height;
    }
    let (middle, upper) = node.split(height, path, ix, reserve, fresh, alloc);
    let children = reserve.take(fresh);
    grow(node, middle, upper, children);
    height + 1
}

// Puts a new root above two nodes.
fn grow(node: &mut Node, middle: ItemIndex, upper: Node, block: Vec<Node>)
    requires { IsSpare block }
    ensures root_row { row node.new ≡ middle ∷ [] }
    ensures root_children { children node.new ≡ node.old ∷ upper ∷ [] }
    ensures has_room { most_children ≤ child_room node.new }
{
    let mut row = Row::new();
    row.insert(0, middle);
    let lower = mem::replace(
        node,
        Node {
            row,
            children: block,
        },
    );
    node.children.push_reserved(lower);
    node.children.push_reserved(upper);
}
