//! The removal of all indexes, which takes no memory.
//!
//! The blocks of the tree go to the reserve, which keeps as many as it lacks and drops the others.
ghost use Rattle.std.specs.Prelude.{◌≡◌, ◌+◌, ◌≤◌, None};
ghost use Rattle.iddqd_order.specs.Node.{inners, IsFormed};
ghost use Rattle.iddqd_order.specs.Tree.{inners_in, IsTree};

use crate::btree_table::node::Node;
use crate::btree_table::reserve::Reserve;
use std::alloc::Global;

// Drops all nodes. If nothing is reserved, no block has to be kept, and the tree is dropped as a whole.
pub(super) fn clear_in(root: &mut Option<Node>, height: usize, reserve: &mut Reserve, alloc: Global)
    requires tree { IsTree root.old height }
    requires inners { reserve.old.inners ≡ inners_in root.old height }
    ensures emptied { root.new ≡ None }
    ensures inners { reserve.new.inners ≡ 0 }
    ensures reserved { reserve.new.reserved ≡ reserve.old.reserved }
{
    if reserve.reserved() == 0 {
        *root = None;
        *reserve = Reserve::new(alloc);
        return;
    }
    if let Some(node) = root.take() {
        node.dissolve(height, reserve);
    }
}

impl Node {
    // Drops the node and all below it. The block of each inner node goes to the reserve.
    fn dissolve(self, height: usize, reserve: &mut Reserve)
        requires formed { IsFormed height self }
        requires counted { inners height self ≤ reserve.old.inners }
        ensures given { reserve.new.inners + inners height self ≡ reserve.old.inners }
        ensures reserved { reserve.new.reserved ≡ reserve.old.reserved }
    {
        if height == 0 {
            return;
        }
        let Node { mut children, .. } = self;
        while let Some(child) = children.pop() {
            child.dissolve(height - 1, reserve);
        }
        reserve.put_back(children);
    }
}
