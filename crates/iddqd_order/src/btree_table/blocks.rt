//! Memory for the inner nodes that an insert adds.
ghost use Rattle.std.specs.Prelude.{◌≡◌, ℕ, ◌+◌, ◌<◌, IfOk, IsOk};
ghost use Rattle.iddqd_order.specs.Node.{IsSpare};

use crate::btree_table::node::{CHILDREN, Node};
use std::alloc::{AllocError, Global};
use std::marker::Model;

/// A type whose values hold blocks.
pub trait HoldsBlocks: Drop {
    ghost count: { Self → ℕ };
}

/// Empty blocks, each with room for the children of one node. A contract sees only their number.
#[derive(Drop)]
pub struct Blocks {
    blocks: Vec<Vec<Node>>,
}

impl Model for Blocks {
    ghost use Rattle.std.specs.Prelude.{ℕ, vec_len, All};
    ghost use Rattle.iddqd_order.specs.Node.{IsSpare};

    ghost Value = { ℕ };

    ghost view = { λ b. vec_len b.blocks };

    ghost invariant = { λ b. All IsSpare b.blocks.items };
}

impl HoldsBlocks for Blocks {
    ghost count = { λ b. b };
}

impl Blocks {
    pub(super) fn none(alloc: Global) -> Blocks
        ensures { result ≡ 0 }
    {
        Blocks {
            blocks: Vec::new(alloc),
        }
    }

    // Allocates `count` blocks. For 0 it takes no memory. If memory runs out, it drops the blocks allocated so far.
    pub(super) fn new(count: usize, alloc: Global) -> Result<Blocks, AllocError>
        ensures count { IfOk result (λ blocks. blocks ≡ count) }
        ensures none { count ≡ 0 → IsOk result }
    {
        if count == 0 {
            return Ok(Blocks::none(alloc));
        }
        // The match is for speed. If the call's result were returned as it is, it and each copy of it would lie in
        // memory.
        match Blocks::some(count, alloc) {
            Ok(blocks) => Ok(blocks),
            Err(AllocError) => Err(AllocError),
        }
    }

    // Allocates `count` blocks. If memory runs out, it drops the blocks allocated so far.
    #[inline(never)]
    fn some(count: usize, alloc: Global) -> Result<Blocks, AllocError>
        ensures { IfOk result (λ blocks. blocks ≡ count) }
    {
        let mut blocks = Vec::with_capacity(alloc, count)?;
        while blocks.len() < count {
            let block = Vec::with_capacity(alloc, CHILDREN)?;
            blocks.push_reserved(block);
        }
        Ok(Blocks { blocks })
    }

    // Removes one block and returns it.
    pub(super) fn take(&mut self) -> Vec<Node>
        requires { 0 < self.old }
        ensures spare { IsSpare result }
        ensures left { self.new + 1 ≡ self.old }
    {
        self.blocks.take_last()
    }
}
