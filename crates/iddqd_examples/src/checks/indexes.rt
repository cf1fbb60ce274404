//! Checks of the indexes of a table.
use super::{assert_words, words};
use iddqd::internal::{ValidateCompact, validate_hash_indexes, validate_ordered_indexes};
use iddqd::item_index::ItemIndex;
use std::alloc::{AllocError, Global};
use std::process::Abort;
use std::test::Fail;

const COMPACT: ValidateCompact = ValidateCompact::Compact;

const NON_COMPACT: ValidateCompact = ValidateCompact::NonCompact;

const END: u32 = u32::MAX;

// The indexes of a table, how many there should be, the mode, and what is told.
type Case = (&'static [u32], usize, ValidateCompact, &'static str);

fn indexes_of(alloc: Global, numbers: &[u32]) -> Result<Vec<ItemIndex>, AllocError> {
    let mut indexes = Vec::new(alloc);
    for number in numbers {
        indexes.push(ItemIndex::new(*number))?;
    }
    Ok(indexes)
}

fn told_of_hashed(
    alloc: Global,
    numbers: &[u32],
    expected: usize,
    mode: ValidateCompact,
) -> Result<String, AllocError> {
    let indexes = indexes_of(alloc, numbers)?;
    words(
        alloc,
        validate_hash_indexes(alloc, &indexes, expected, mode),
    )
}

fn told_of_ordered(
    alloc: Global,
    numbers: &[u32],
    expected: usize,
    mode: ValidateCompact,
) -> Result<String, AllocError> {
    let indexes = indexes_of(alloc, numbers)?;
    words(
        alloc,
        validate_ordered_indexes(alloc, &indexes, expected, mode),
    )
}

// Each check of a hash table's indexes tells what is wanted.
fn assert_hashed(rt: &impl Abort, alloc: Global, cases: &[Case]) -> Result<(), AllocError> {
    for (numbers, expected, mode, want) in cases {
        let told = told_of_hashed(alloc, numbers, *expected, *mode)?;
        assert_words(rt, told.as_str(), want);
    }
    Ok(())
}

// The same of an ordered table's.
fn assert_ordered(rt: &impl Abort, alloc: Global, cases: &[Case]) -> Result<(), AllocError> {
    for (numbers, expected, mode, want) in cases {
        let told = told_of_ordered(alloc, numbers, *expected, *mode)?;
        assert_words(rt, told.as_str(), want);
    }
    Ok(())
}

static SHORT: [Case; 1] = [(&[0], 2, NON_COMPACT, "expected length 2, was 1")];

static LONG: [Case; 1] = [(&[END], 0, NON_COMPACT, "expected length 0, was 1")];

#[test]
fn a_wrong_number_of_indexes_is_told(rt: HostRuntime) -> Result<(), Fail> {
    assert_hashed(&rt, rt.alloc(), &SHORT)?;
    assert_ordered(&rt, rt.alloc(), &LONG)?;
    Ok(())
}

static HASHED_TWICE: [Case; 2] = [
    (
        &[0, 0, 2],
        3,
        NON_COMPACT,
        "expected 3 values with no duplicates, but only found 2 values (unique values: [0, 2])",
    ),
    (
        &[END, END],
        2,
        NON_COMPACT,
        "expected 2 values with no duplicates, but only found 1 values (unique values: [4294967295])",
    ),
];

static ORDERED_TWICE: [Case; 1] = [(
    &[END, END],
    2,
    NON_COMPACT,
    "expected 2 values with no duplicates, but only found 1 values (unique values: [4294967295])",
)];

#[test]
fn an_index_that_stands_twice_is_told(rt: HostRuntime) -> Result<(), Fail> {
    assert_hashed(&rt, rt.alloc(), &HASHED_TWICE)?;
    assert_ordered(&rt, rt.alloc(), &ORDERED_TWICE)?;
    Ok(())
}

static HASHED_GAPS: [Case; 3] = [
    (
        &[0, 0, 2],
        3,
        COMPACT,
        "expected value at index 1 to be 1, was 0",
    ),
    (&[1], 1, COMPACT, "expected value at index 0 to be 0, was 1"),
    (
        &[0, END],
        2,
        COMPACT,
        "expected value at index 1 to be 1, was 4294967295",
    ),
];

static ORDERED_GAPS: [Case; 2] = [
    (
        &[0, 0, 2],
        3,
        COMPACT,
        "value at index 1 should be 1, was 0",
    ),
    (&[1], 1, COMPACT, "value at index 0 should be 0, was 1"),
];

#[test]
fn a_gap_is_told_in_compact_mode(rt: HostRuntime) -> Result<(), Fail> {
    assert_hashed(&rt, rt.alloc(), &HASHED_GAPS)?;
    assert_ordered(&rt, rt.alloc(), &ORDERED_GAPS)?;
    Ok(())
}

static HASHED_SENTINEL: [Case; 1] = [(&[0, END], 2, NON_COMPACT, "ok")];

static ORDERED_SENTINEL: [Case; 2] = [
    (
        &[0, END],
        2,
        COMPACT,
        "sentinel value should not be stored in map",
    ),
    (
        &[0, END],
        2,
        NON_COMPACT,
        "sentinel value should not be stored in map",
    ),
];

#[test]
fn no_ordered_table_stores_the_sentinel(rt: HostRuntime) -> Result<(), Fail> {
    assert_hashed(&rt, rt.alloc(), &HASHED_SENTINEL)?;
    assert_ordered(&rt, rt.alloc(), &ORDERED_SENTINEL)?;
    Ok(())
}
