//! Items that may have no more slots than a limit.
use super::hashers::Constant;
use super::script::assert_within;
use iddqd::hash_builder::DefaultHashBuilder;
use std::alloc::{AllocError, Global};
use std::process::Abort;
use std::test::Fail;

// The script is answered under either hasher.
fn assert_limited(
    rt: &impl Abort,
    alloc: Global,
    limit: u32,
    script: &str,
) -> Result<(), AllocError> {
    assert_within(rt, alloc, DefaultHashBuilder::default(), limit, script)?;
    assert_within(rt, alloc, Constant, limit, script)
}

const NO_SLOT: &str = "\
insert 1 10: Refused(Full(Pair(1, 10)))
find1 1: Found(None)
";

#[test]
fn no_item_is_taken_within_the_limit_0(rt: HostRuntime) -> Result<(), Fail> {
    assert_limited(&rt, rt.alloc(), 0, NO_SLOT)?;
    Ok(())
}

const TWO_SLOTS: &str = "\
insert 1 10: Inserted(0)
insert 2 20: Inserted(1)
insert 3 30: Refused(Full(Pair(3, 30)))
insert 1 40: Refused(Duplicate { item: Pair(1, 40), first: Some(0), second: None })
remove 0: Removed(Some((0, Pair(1, 10))))
insert 3 30: Inserted(0)
";

#[test]
fn a_duplicate_is_reported_before_a_full_store(rt: HostRuntime) -> Result<(), Fail> {
    assert_limited(&rt, rt.alloc(), 2, TWO_SLOTS)?;
    Ok(())
}

const COMPACTED_AND_CLEARED: &str = "\
insert 1 10: Inserted(0)
insert 2 20: Inserted(1)
remove 0: Removed(Some((0, Pair(1, 10))))
compact: Compacted(Permuted([4294967295, 0]))
insert 3 30: Inserted(1)
insert 4 40: Refused(Full(Pair(4, 40)))
clear: Cleared
insert 4 40: Inserted(0)
";

#[test]
fn a_limit_survives_compact_and_clear(rt: HostRuntime) -> Result<(), Fail> {
    assert_limited(&rt, rt.alloc(), 2, COMPACTED_AND_CLEARED)?;
    Ok(())
}
