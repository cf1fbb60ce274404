//! Clones of a table with open addressing.
ghost use Rattle.std.specs.Prelude.{◌≡◌, ◌≤◌, IfOk, MatchResult, length, vec_len};
ghost use Rattle.std.specs.List.{AllZip};
ghost use Rattle.iddqd_hash.specs.Clones.{IsSlotClone};
ghost use Rattle.iddqd_hash.specs.OpenTable.{slots_of, pairs, IsExact, IsProbed};
ghost use Rattle.iddqd_hash.specs.OpenWalk.{IsMultipleOf16};
ghost use Rattle.iddqd_hash.specs.HashTable.{entries, memory, Rewrites};

use super::OpenHashTable;
use super::cell_kinds::Cell;
use super::cells::pair_at;
use super::memory::{copied_exactly, empty_cells};
use super::places::FullPlaces;
use std::alloc::{AllocError, Global};
use std::marker::PhantomData;

impl<T, C: Cell<T> + Copy> OpenHashTable<T, C> {
    /// A table with the same value. It copies tags and cells as memory.
    ///
    /// `AllocError` means that an allocation failed.
    pub(crate) fn copied(&self) -> Result<OpenHashTable<T, C>, AllocError>
        ensures { IfOk result (λ copy. copy ≡ self.now) }
    {
        let alloc = *self.tags.allocator();
        let tags = copied_exactly(alloc, self.tags.as_slice())?;
        let cells = copied_exactly(alloc, self.cells.as_slice())?;
        Ok(OpenHashTable {
            tags,
            cells,
            len: self.len,
            used: self.used,
            value_type: PhantomData,
        })
    }
}

/// A clone has no more cells than the table. Each pair keeps its place, so none is probed for. If an allocation fails,
/// the clones made so far are dropped.
impl<T: Clone, C: Cell<T> + Drop> Clone for OpenHashTable<T, C> {
    ghost use Rattle.iddqd_hash.specs.HashTable.{entries, Rewrites};

    // The copy has a clone of each value under that value's hash, and no other value.
    ghost is_clone = { λ t copy. Rewrites T.is_clone (entries t) (entries copy) };

    fn clone(&self) -> Result<OpenHashTable<T, C>, AllocError>
        ensures cases { MatchResult result (λ copy. Rewrites T.is_clone (entries self.now) (entries copy)) (λ _. ¬ ⊥) }
        ensures memory { IfOk result (λ copy. memory copy ≤ memory self.now) }
    {
        let alloc = *self.tags.allocator();
        Ok(OpenHashTable {
            tags: copied_exactly(alloc, self.tags.as_slice())?,
            cells: cloned_cells(alloc, self.tags.as_slice(), self.cells.as_slice(), self.len)?,
            len: self.len,
            used: self.used,
            value_type: PhantomData,
        })
    }
}

// The cells of a clone: each value's clone is at the value's place, and the memory is for these cells alone. Going from
// one full cell to the next mispredicts fewer branches than a test of each cell.
fn cloned_cells<T: Clone, C: Cell<T> + Drop>(
    alloc: Global,
    tags: &[u8],
    cells: &[C],
    len: usize,
) -> Result<Vec<C>, AllocError>
    requires sixteens { IsMultipleOf16 (length tags.now) }
    requires probed { IsProbed tags.now (slots_of C.slot tags.now cells.now) }
    requires len { len ≡ length (pairs (slots_of C.slot tags.now cells.now)) }
    ensures clones { IfOk result (λ copies.
        AllZip (IsSlotClone T.is_clone) (slots_of C.slot tags.now cells.now) (slots_of C.slot tags.now copies.items)) }
    ensures len { IfOk result (λ copies. vec_len copies ≡ length cells.now) }
    ensures exact { IfOk result IsExact }
{
    let mut copies: Vec<C> = empty_cells(alloc, cells.len())?;
    let mut places = FullPlaces::new();
    let mut left = len;
    'cloning: while left > 0 {
        let here = places.next(tags);
        left -= 1;
        let pair = pair_at(tags, cells, here);
        let copy = pair.1.clone()?;
        copies[here].fill(pair.0, copy);
    }
    Ok(copies)
}
