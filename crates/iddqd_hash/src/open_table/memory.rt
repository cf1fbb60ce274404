//! Makes the vectors of a table with open addressing, with memory for their items and no more.
//!
//! So the number of cells, which contracts see, measures all of the memory. `resize` and `from_slice` fill a block at
//! once, but promise only that the capacity isn't less than the length, so the two are compared afterwards.
ghost use Rattle.std.specs.Prelude.{◌≡◌, None, IfOk, replicate, vec_len};
ghost use Rattle.iddqd_hash.specs.OpenTable.{slots_of, IsExact};

use super::cell_kinds::Cell;
use std::alloc::{AllocError, Global};

/// The tags of `count` empty cells.
pub fn empty_tags(alloc: Global, count: usize) -> Result<Vec<u8>, AllocError>
    ensures tags { IfOk result (λ tags. tags.items ≡ replicate count 0) }
    ensures len { IfOk result (λ tags. vec_len tags ≡ count) }
    ensures exact { IfOk result IsExact }
{
    let mut tags = Vec::with_capacity(alloc, count)?;
    tags.resize(count, 0)?;
    exactly(tags)
}

/// `count` empty cells.
pub fn empty_cells<T, C: Cell<T>>(alloc: Global, count: usize) -> Result<Vec<C>, AllocError>
    ensures cells { IfOk result (λ cells. slots_of C.slot (replicate count 0) cells.items ≡ replicate count None) }
    ensures len { IfOk result (λ cells. vec_len cells ≡ count) }
    ensures exact { IfOk result IsExact }
{
    let mut cells = Vec::with_capacity(alloc, count)?;
    'empty: for _ in 0..count {
        cells.push_reserved(C::empty());
    }
    Ok(cells)
}

/// A copy of a slice, with memory for its items and no more.
pub fn copied_exactly<T: Copy>(alloc: Global, items: &[T]) -> Result<Vec<T>, AllocError>
    ensures items { IfOk result (λ copy. copy.items ≡ items.now) }
    ensures exact { IfOk result IsExact }
{
    exactly(Vec::from_slice(alloc, items)?)
}

// The same vector, or an error if it has memory for more than its items. A vector that was made for this number of
// items never has.
fn exactly<T: Copy>(items: Vec<T>) -> Result<Vec<T>, AllocError>
    ensures same { IfOk result (λ exact. exact ≡ items) }
    ensures exact { IfOk result IsExact }
{
    if items.capacity() != items.len() {
        return Err(AllocError);
    }
    Ok(items)
}
