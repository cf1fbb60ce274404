//! Copies of a table.
ghost use Rattle.std.specs.Prelude.{◌≡◌, length, IfOk, vec_capacity};
ghost use Rattle.iddqd_order_reference.specs.OrderedTable.{order_of, capacity};

use super::OrderedTable;
use iddqd::item_index::ItemIndex;
use std::alloc::{AllocError, Global};

/// A copy has the same indexes in the same order, and room for these alone.
#[tactic(auto, unfolding(crate::specs::OrderedTable::order_of, crate::specs::OrderedTable::capacity))]
impl Clone for OrderedTable {
    ghost use Rattle.std.specs.Prelude.{◌≡◌, length};
    ghost use Rattle.iddqd_order_reference.specs.OrderedTable.{order_of, capacity};

    ghost is_clone = { λ table copy. (order_of copy ≡ order_of table) × (capacity copy ≡ length (order_of table)) };

    fn clone(&self) -> Result<OrderedTable, AllocError> {
        Ok(OrderedTable {
            items: copy_of(*self.items.allocator(), &self.items)?,
        })
    }
}

// The same indexes, in memory for these alone.
fn copy_of(alloc: Global, items: &[ItemIndex]) -> Result<Vec<ItemIndex>, AllocError>
    ensures items { IfOk result (λ copy. copy.items ≡ items.now) }
    ensures capacity { IfOk result (λ copy. vec_capacity copy ≡ length items.now) }
{
    let mut copy = Vec::with_capacity(alloc, items.len())?;
    for ix in items {
        copy.push_reserved(*ix);
    }
    Ok(copy)
}
