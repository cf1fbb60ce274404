//! The check that a table has the indexes that are expected. By the invariant no index stands in it twice.
ghost use Rattle.std.specs.Prelude.{IfOk};
ghost use Rattle.std.specs.List.Sorted.{IsPermutation};
ghost use Rattle.iddqd.specs.Validation.{AreAsExpected, Validates};
ghost use Rattle.iddqd_hash.specs.MapHashTable.{filed, indexes_of};

use super::MapHashTable;
use iddqd::internal::{
    TableValidationError, ValidateCompact, ValidateRefusal, validate_hash_indexes,
};
use iddqd::item_index::ItemIndex;
use std::alloc::AllocError;

impl MapHashTable {
    /// Checks that there are as many indexes as expected and, if `compactness` is `Compact`, that they are those from 0
    /// on.
    ///
    /// It copies the indexes twice, and sorts the second copy, so it can run out of memory.
    pub fn validate(
        &self,
        expected_len: usize,
        compactness: ValidateCompact,
    ) -> Result<(), ValidateRefusal<TableValidationError>>
        ensures { Validates (AreAsExpected compactness expected_len (indexes_of (filed self.now))) result }
    {
        match self.list() {
            Ok(indexes) => validate_hash_indexes(
                self.table.allocator(),
                &indexes,
                expected_len,
                compactness,
            ),
            Err(error) => Err(ValidateRefusal::Memory(error)),
        }
    }

    // A copy of the indexes.
    fn list(&self) -> Result<Vec<ItemIndex>, AllocError>
        ensures { IfOk result (λ list. IsPermutation (indexes_of (filed self.now)) list.items) }
    {
        let mut list = Vec::with_capacity(self.table.allocator(), self.len())?;
        for ix in self.indexes() {
            list.push_reserved(ix);
        }
        Ok(list)
    }
}
