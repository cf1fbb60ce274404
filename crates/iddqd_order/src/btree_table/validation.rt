//! The check of a table's indexes. By the invariant they are distinct, and none is `SENTINEL`.
ghost use Rattle.std.specs.Prelude.{◌≡◌, ◌↔◌, ◌<◌, All, IfOk, IsOk, IsTrue};
ghost use Rattle.iddqd.specs.Validation.{AreAsExpected, Validates};
ghost use Rattle.iddqd_order.specs.MapBTreeTable.{order_of, IsIndexList};

use crate::btree_table::table::MapBTreeTable;
use iddqd::internal::{
    TableValidationError, ValidateCompact, ValidateRefusal, validate_ordered_indexes,
};
use iddqd::item_index::ItemIndex;
use std::alloc::AllocError;

impl MapBTreeTable {
    /// Checks that the table has `expected_len` indexes and, in `Compact`, that they are 0, 1, ...
    ///
    /// A table that passes takes no memory: it passes even if none is left. Otherwise the indexes are copied for the
    /// text of the error.
    pub fn validate(
        &self,
        expected_len: usize,
        compactness: ValidateCompact,
    ) -> Result<(), ValidateRefusal<TableValidationError>>
        ensures sound { Validates (AreAsExpected compactness expected_len (order_of self.now)) result }
        ensures passes { AreAsExpected compactness expected_len (order_of self.now) → IsOk result }
    {
        if self.is_as_expected(expected_len, compactness) {
            return Ok(());
        }
        match self.list() {
            Ok(indexes) => {
                validate_ordered_indexes(self.allocator(), &indexes, expected_len, compactness)
            }
            Err(error) => Err(ValidateRefusal::Memory(error)),
        }
    }

    // Whether the table has `expected_len` indexes and, in `Compact`, each is below that.
    fn is_as_expected(&self, expected_len: usize, compactness: ValidateCompact) -> bool
        ensures { IsTrue result ↔ AreAsExpected compactness expected_len (order_of self.now) }
    {
        if self.len() != expected_len {
            return false;
        }
        match compactness {
            ValidateCompact::Compact => self.are_below(expected_len),
            ValidateCompact::NonCompact => true,
        }
    }

    // Whether each index is below `end`.
    fn are_below(&self, end: usize) -> bool
        ensures { IsTrue result ↔ All (λ ix. ix < end) (order_of self.now) }
    {
        for ix in self.iter() {
            if ix.as_u32() as usize >= end {
                return false;
            }
        }
        true
    }

    // A copy of the indexes, in their order.
    fn list(&self) -> Result<Vec<ItemIndex>, AllocError>
        ensures all { IfOk result (λ list. list.items ≡ order_of self.now) }
        ensures indexes { IsIndexList (order_of self.now) }
    {
        let walk = self.iter();
        let mut list = Vec::with_capacity(self.allocator(), self.len())?;
        for ix in walk {
            list.push(ix)?;
        }
        Ok(list)
    }
}
