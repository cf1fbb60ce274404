//! The empty blocks that a table keeps beside its tree, so that it can hold the indexes that it was made for without
//! asking for memory.
//!
//! With R blocks reserved, there are never fewer than R in the tree and beside it together. A split takes its block
//! from the reserve, as long as that has one. A merge puts a block back if fewer than R would be left. Growth allocates
//! further blocks, and never changes R.
ghost use Rattle.std.specs.Prelude.{◌≡◌, ◌+◌, ◌-◌, ◌<◌, ◌≤◌, [], ◌++◌, All, length, min, max, OnOk, OnErr, vec_len, vec_capacity};
ghost use Rattle.iddqd_order.specs.MapBTreeTable.{needed_blocks, capacity_of};
ghost use Rattle.iddqd_order.specs.Node.{IsSpare};
ghost use Rattle.iddqd_order.specs.Reserve.{spare, most_blocks};

use crate::btree_table::blocks::Blocks;
use crate::btree_table::node::{CHILDREN, Node};
use std::alloc::{AllocError, Global};
use std::marker::Model;

// An inner node below the root has at least six children, and each child has at least five indexes. So each further
// inner node needs at least thirty more indexes.
const INDEXES_OF_A_BLOCK: usize = 30;

// Up to ten indexes never need an inner node. Eleven may: a root with one index over two leaves of five.
const FREE_INDEXES: usize = 10;

// How many indexes there are below `SENTINEL`.
pub(super) const MOST_INDEXES: usize = 4294967295;

/// How many blocks `indexes` indexes need at most.
pub(super) fn needed_blocks(indexes: usize) -> usize
    requires { indexes ≤ capacity_of most_blocks }
    ensures value { result ≡ needed_blocks indexes }
    ensures few { result ≤ most_blocks }
{
    (indexes + (INDEXES_OF_A_BLOCK - FREE_INDEXES - 1)) / INDEXES_OF_A_BLOCK
}

// Adds `count` empty blocks to a list that has room for them. If memory runs out, it drops the blocks added so far.
fn add_blocks(blocks: &mut Vec<Vec<Node>>, count: usize, alloc: Global) -> Result<(), AllocError>
    requires room { vec_len blocks.old + count ≤ vec_capacity blocks.old }
    requires empty { All IsSpare blocks.old.items }
    ensures empty { All IsSpare blocks.new.items }
    ensures added { OnOk result (vec_len blocks.new ≡ vec_len blocks.old + count) }
    ensures refused { OnErr result (vec_len blocks.new ≡ vec_len blocks.old) }
    ensures capacity { vec_capacity blocks.new ≡ vec_capacity blocks.old }
{
    let kept = blocks.len();
    let wanted = kept + count;
    while blocks.len() < wanted {
        match Vec::with_capacity(alloc, CHILDREN) {
            Ok(block) => blocks.push_reserved(block),
            Err(AllocError) => {
                blocks.truncate(kept);
                return Err(AllocError);
            }
        }
    }
    Ok(())
}

/// Empty blocks, each with room for the children of one node, and the count of those in the tree.
#[derive(Drop)]
pub(super) struct Reserve {
    blocks: Vec<Vec<Node>>,
    // How many inner nodes the tree has.
    inners: usize,
    // The least number of blocks in the tree and in the reserve together.
    reserved: usize,
}

impl Model for Reserve {
    ghost use Rattle.std.specs.Prelude.{vec_len, vec_capacity, All};
    ghost use Rattle.iddqd_order.specs.Node.{IsSpare};
    ghost use Rattle.iddqd_order.specs.Reserve.{Reserved, reserved_code, IsReserve};

    ghost Value = { Reserved };

    ghost coded = { reserved_code };

    ghost view = { λ r. record { inners = r.inners; reserved = r.reserved } };

    ghost invariant = { λ r. IsReserve r.blocks r.inners r.reserved };
}

impl Reserve {
    /// The reserve beside an empty tree: no block. It takes no memory.
    pub(super) fn new(alloc: Global) -> Reserve
        ensures { result ≡ record { inners = 0; reserved = 0 } }
    {
        Reserve {
            blocks: Vec::new(alloc),
            inners: 0,
            reserved: 0,
        }
    }

    /// The reserve beside a copy of the tree: no block. It takes no memory.
    pub(super) fn for_copy(&self, alloc: Global) -> Reserve
        ensures { result ≡ record { inners = self.now.inners; reserved = 0 } }
    {
        Reserve {
            blocks: Vec::new(alloc),
            inners: self.inners,
            reserved: 0,
        }
    }

    /// How many blocks are reserved, in the tree and in the reserve together.
    pub(super) fn reserved(&self) -> usize
        ensures value { result ≡ self.now.reserved }
        ensures few { result ≤ most_blocks }
    {
        self.reserved
    }

    /// How many empty blocks the reserve has.
    pub(super) fn spare(&self) -> usize
        ensures { result ≡ spare self.now }
    {
        self.blocks.len()
    }

    /// Removes a block for one more inner node: one of the reserve, or else one of `fresh`.
    pub(super) fn take(&mut self, fresh: &mut Blocks) -> Vec<Node>
        requires some { 0 < spare self.old + fresh.old }
        requires fits { self.old.inners ≤ MOST_INDEXES }
        ensures block { IsSpare result }
        ensures one_more { self.new.inners ≡ self.old.inners + 1 }
        ensures reserved { self.new.reserved ≡ self.old.reserved }
        ensures left { (spare self.new + fresh.new) + 1 ≡ spare self.old + fresh.old }
    {
        self.inners += 1;
        if self.blocks.is_empty() {
            fresh.take()
        } else {
            self.blocks.take_last()
        }
    }

    /// Takes back the block of a removed inner node, and drops it if enough blocks are left without it.
    pub(super) fn put_back(&mut self, block: Vec<Node>)
        requires block { IsSpare block }
        requires some { 1 ≤ self.old.inners }
        ensures one_less { self.new.inners + 1 ≡ self.old.inners }
        ensures reserved { self.new.reserved ≡ self.old.reserved }
    {
        self.inners -= 1;
        if self.inners < self.reserved {
            self.blocks.push_reserved(block);
        }
    }

    /// The number of indexes for which the reserved blocks always suffice.
    pub(super) fn capacity(&self) -> usize
        ensures value { result ≡ capacity_of self.now.reserved }
        ensures few { result ≤ capacity_of most_blocks }
    {
        self.reserved * INDEXES_OF_A_BLOCK + FREE_INDEXES
    }

    /// Raises the reservation to `reserved` blocks; never lowers it. It allocates the blocks that are missing, and room
    /// in the list for all of them. If memory runs out, it drops the blocks allocated so far.
    pub(super) fn raise(&mut self, reserved: usize, alloc: Global) -> Result<(), AllocError>
        requires few { reserved ≤ most_blocks }
        ensures inners { self.new.inners ≡ self.old.inners }
        ensures raised { OnOk result (self.new.reserved ≡ max self.old.reserved reserved) }
        ensures refused { OnErr result (self.new ≡ self.old) }
    {
        if reserved <= self.reserved {
            return Ok(());
        }
        let len = self.blocks.len();
        let spare = reserved.saturating_sub(self.inners);
        self.blocks.reserve_exact(reserved - len)?;
        add_blocks(&mut self.blocks, spare - len, alloc)?;
        self.reserved = reserved;
        Ok(())
    }

    /// Lowers the reservation to `reserved` blocks; never raises it. It gives back the blocks beyond these, and their
    /// room in the list.
    pub(super) fn lower(&mut self, reserved: usize)
        ensures inners { self.new.inners ≡ self.old.inners }
        ensures lowered { self.new.reserved ≡ min self.old.reserved reserved }
    {
        if reserved < self.reserved {
            self.blocks.truncate(reserved.saturating_sub(self.inners));
            self.blocks.shrink_to(reserved);
            self.reserved = reserved;
        }
    }
}
