//! Copies of a tree.
ghost use Rattle.std.specs.Prelude.{IfOk};
ghost use Rattle.iddqd_order.specs.Copies.{IsCopy, IsTreeCopy};
ghost use Rattle.iddqd_order.specs.Node.{IsFormed};
ghost use Rattle.iddqd_order.specs.Tree.{IsTree};

use crate::btree_table::node::{CHILDREN, Node};
use std::alloc::{AllocError, Global};

// Copies a tree, node by node. If memory runs out, it drops the nodes that it has copied.
pub(super) fn copy_of(
    root: &Option<Node>,
    height: usize,
    alloc: Global,
) -> Result<Option<Node>, AllocError>
    requires { IsTree root.now height }
    ensures { IfOk result (IsTreeCopy height root.now) }
{
    match root {
        None => Ok(None),
        Some(node) => Ok(Some(node.copy(height, alloc)?)),
    }
}

impl Node {
    // Copies a node and all nodes below it.
    fn copy(&self, height: usize, alloc: Global) -> Result<Node, AllocError>
        requires { IsFormed height self.now }
        ensures { IfOk result (IsCopy height self.now) }
    {
        if height == 0 {
            return Ok(Node {
                row: self.row.copy(),
                children: Vec::new(alloc),
            });
        }
        let mut children = Vec::with_capacity(alloc, CHILDREN)?;
        for i in 0..self.children.len() {
            children.push_reserved(self.children[i].copy(height - 1, alloc)?);
        }
        Ok(Node {
            row: self.row.copy(),
            children,
        })
    }
}
