//! The check of a linked table's indexes.
ghost use Rattle.std.specs.Prelude.{◌≡◌, ◌≤◌, IfOk, length};
ghost use Rattle.iddqd.specs.Validation.{AreAsExpected, Validates};
ghost use Rattle.iddqd.specs.Store.{sentinel};
ghost use Rattle.iddqd_hash.specs.MapHashTable.{indexes_of};
ghost use Rattle.iddqd_groups.specs.Links.{filed_by};

use super::LinkedTable;
use super::links::{Link, is_present};
use iddqd::internal::{
    TableValidationError, ValidateCompact, ValidateRefusal, validate_hash_indexes,
};
use iddqd::item_index::ItemIndex;
use std::alloc::{AllocError, Global};

impl LinkedTable {
    /// Checks that the table has `expected_len` indexes and, if `compactness` is `Compact`, that they are 0, 1, and so
    /// on.
    ///
    /// It copies the indexes twice, and sorts the second copy, so it can run out of memory.
    pub fn validate(
        &self,
        expected_len: usize,
        compactness: ValidateCompact,
    ) -> Result<(), ValidateRefusal<TableValidationError>>
        ensures { Validates (AreAsExpected compactness expected_len (indexes_of self.now.filed)) result }
    {
        match listed(*self.links.allocator(), &self.links, self.len) {
            Ok(indexes) => {
                validate_hash_indexes(*self.links.allocator(), &indexes, expected_len, compactness)
            }
            Err(error) => Err(ValidateRefusal::Memory(error)),
        }
    }
}

// The indexes that are in the table, in memory of their own.
fn listed(alloc: Global, links: &[Link], len: usize) -> Result<Vec<ItemIndex>, AllocError>
    requires { length links.now ≤ sentinel }
    ensures { IfOk result (λ list. list.items ≡ indexes_of (filed_by links.now)) }
{
    let mut list = Vec::with_capacity(alloc, len)?;
    'listing: for place in 0..links.len() {
        let ix = ItemIndex::new(place as u32);
        if is_present(links, ix) {
            list.push(ix)?;
        }
    }
    Ok(list)
}
