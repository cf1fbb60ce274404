//! The checks of a table's indexes, on a sorted copy of them.
ghost use Rattle.std.specs.Prelude.{◌≡◌, ◌≢◌, ◌<◌, length, nat_eq, slice_index, IfOk, IfErr, MatchOption};
ghost use Rattle.std.specs.List.{Contains, IsDistinct};
ghost use Rattle.std.specs.List.Sorted.{IsPermutation, IsSorted};
ghost use Rattle.std.specs.Ordering.{nat_cmp};
ghost use Rattle.iddqd.specs.Compaction.{numbers};
ghost use Rattle.iddqd.specs.Store.{sentinel};
ghost use Rattle.iddqd.specs.Validation.{AreSound, AreSoundInOrder, IsMemory, Validates};

use super::{TableValidationError, ValidateCompact, ValidateRefusal};
use crate::item_index::ItemIndex;
use std::alloc::{AllocError, Global};

/// Whether a hash table may have these indexes, in any order: as many as expected and distinct, and for `Compact` the
/// numbers from 0 on.
///
/// It sorts a copy.
pub fn validate_hash_indexes(
    alloc: Global,
    indexes: &[ItemIndex],
    expected_len: usize,
    compactness: ValidateCompact,
) -> Result<(), ValidateRefusal<TableValidationError>>
    ensures { Validates (AreSound compactness expected_len indexes.now) result }
{
    check_len(alloc, indexes, expected_len)?;
    let sorted = sorted_copy(alloc, indexes)?;
    match compactness {
        ValidateCompact::Compact => check_hash_places(alloc, &sorted),
        ValidateCompact::NonCompact => check_distinct(alloc, sorted),
    }
}

/// Checks an ordered table's indexes as `validate_hash_indexes` does, and that none is `SENTINEL`.
///
/// It sorts a copy.
pub fn validate_ordered_indexes(
    alloc: Global,
    indexes: &[ItemIndex],
    expected_len: usize,
    compactness: ValidateCompact,
) -> Result<(), ValidateRefusal<TableValidationError>>
    ensures { Validates (AreSoundInOrder compactness expected_len indexes.now) result }
{
    check_len(alloc, indexes, expected_len)?;
    let sorted = sorted_copy(alloc, indexes)?;
    match compactness {
        ValidateCompact::Compact => {
            check_assigned(alloc, indexes)?;
            check_order_places(alloc, &sorted)
        }
        ValidateCompact::NonCompact => {
            check_distinct(alloc, sorted)?;
            check_assigned(alloc, indexes)
        }
    }
}

// Whether there are as many indexes as expected.
fn check_len(
    alloc: Global,
    indexes: &[ItemIndex],
    expected: usize,
) -> Result<(), ValidateRefusal<TableValidationError>>
    ensures { Validates (length indexes.now ≡ expected) result }
{
    let len = indexes.len();
    if len == expected {
        return Ok(());
    }
    Err(refusal(format!(in alloc; "expected length {expected}, was {len}")))
}

fn sorted_copy(
    alloc: Global,
    indexes: &[ItemIndex],
) -> Result<Vec<ItemIndex>, ValidateRefusal<TableValidationError>>
    ensures moved { IfOk result (λ sorted. IsPermutation indexes.now sorted.items) }
    ensures sorted { IfOk result (λ sorted. IsSorted nat_cmp sorted.items) }
    ensures refused { IfErr result IsMemory }
{
    let mut sorted = match Vec::from_slice(alloc, indexes) {
        Ok(sorted) => sorted,
        Err(error) => return Err(ValidateRefusal::Memory(error)),
    };
    sorted.sort_unstable();
    Ok(sorted)
}

// Whether the index at each place is the number of the place.
fn check_hash_places(
    alloc: Global,
    indexes: &[ItemIndex],
) -> Result<(), ValidateRefusal<TableValidationError>>
    ensures { Validates (indexes.now ≡ numbers (length indexes.now)) result }
{
    match first_misplaced(indexes) {
        None => Ok(()),
        Some((place, ix)) => Err(refusal(format!(in alloc;
            "expected value at index {place} to be {place}, was {ix}"
        ))),
    }
}

fn check_order_places(
    alloc: Global,
    indexes: &[ItemIndex],
) -> Result<(), ValidateRefusal<TableValidationError>>
    ensures { Validates (indexes.now ≡ numbers (length indexes.now)) result }
{
    match first_misplaced(indexes) {
        None => Ok(()),
        Some((place, ix)) => Err(refusal(format!(in alloc;
            "value at index {place} should be {place}, was {ix}"
        ))),
    }
}

// The first place whose index isn't the number of the place, and that index.
fn first_misplaced(indexes: &[ItemIndex]) -> Option<(usize, ItemIndex)>
    ensures { MatchOption result
        (indexes.now ≡ numbers (length indexes.now))
        (λ found. indexes.now ≢ numbers (length indexes.now)) }
{
    for (place, ix) in indexes.iter().enumerate() {
        if ix.as_u32() as usize != place {
            return Some((place, *ix));
        }
    }
    None
}

// Whether no index is twice in a sorted list.
fn check_distinct(
    alloc: Global,
    sorted: Vec<ItemIndex>,
) -> Result<(), ValidateRefusal<TableValidationError>>
    requires { IsSorted nat_cmp sorted.items }
    ensures { Validates (IsDistinct nat_eq sorted.items) result }
{
    let len = sorted.len();
    let mut unique = sorted;
    unique.dedup();
    let found = unique.len();
    if found == len {
        return Ok(());
    }
    Err(refusal(format!(in alloc;
        "expected {len} values with no duplicates, but only found {found} values (unique values: {unique:?})"
    )))
}

// Whether no index is `SENTINEL`.
fn check_assigned(
    alloc: Global,
    indexes: &[ItemIndex],
) -> Result<(), ValidateRefusal<TableValidationError>>
    ensures { Validates (Contains indexes.now sentinel → ⊥) result }
{
    if indexes.contains(&ItemIndex::SENTINEL) {
        return Err(refusal(format!(in alloc; "sentinel value should not be stored in map")));
    }
    Ok(())
}

// The error with this text, or `Memory` if memory for the text ran out.
fn refusal(text: Result<String, AllocError>) -> ValidateRefusal<TableValidationError> {
    match text {
        Ok(text) => ValidateRefusal::Invalid(TableValidationError::new(text)),
        Err(error) => ValidateRefusal::Memory(error),
    }
}
