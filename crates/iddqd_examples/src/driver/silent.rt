//! Items whose keys change without the tables being updated.
use super::hashers::Constant;
use super::script::{assert_calls, assert_script, assert_within};
use iddqd_driver::keyed_items::KeyedItems;
use std::alloc::{AllocError, Global};
use std::process::Abort;
use std::test::Fail;

const SECOND_KEY: &str = "\
insert 1 10: Inserted(0)
insert 2 20: Inserted(1)
insert 3 30: Inserted(2)
overwrite 0 1 99: Overwritten(Ok(Pair(1, 10)))
walk: Walked([0, 1, 2])
find2 10: Found(None)
remove 0: Removed(Some((0, Pair(1, 99))))
walk: Walked([1, 2])
validate gaps yes: ok
";

#[test]
fn an_index_with_another_second_key_keeps_its_place_until_its_removal(
    rt: HostRuntime,
) -> Result<(), Fail> {
    assert_script(&rt, rt.alloc(), SECOND_KEY)?;
    Ok(())
}

const SAME_HASH: &str = "\
insert 1 10: Inserted(0)
overwrite 0 5 10: Overwritten(Ok(Pair(1, 10)))
find1 5: Found(Some(0))
find1 1: Found(None)
insert 1 11: Inserted(1)
";

#[test]
fn another_first_key_of_the_same_hash_is_found(rt: HostRuntime) -> Result<(), Fail> {
    assert_within(&rt, rt.alloc(), Constant, u32::MAX, SAME_HASH)?;
    Ok(())
}

const BOTH_KEYS: &str = "\
insert 1 10: Inserted(0)
insert 2 20: Inserted(1)
insert 3 30: Inserted(2)
overwrite 0 9 99: Overwritten(Ok(Pair(1, 10)))
remove 0: Removed(Some((0, Pair(9, 99))))
find1 9: Found(None)
find2 99: Found(None)
walk: Walked([1, 2])
";

#[test]
fn an_item_with_both_keys_changed_is_removed(rt: HostRuntime) -> Result<(), Fail> {
    assert_script(&rt, rt.alloc(), BOTH_KEYS)?;
    Ok(())
}

const EMPTY_BETWEEN: &str = "\
insert 1 10: Inserted(0)
insert 2 20: Inserted(1)
overwrite 0 1 99: Overwritten(Ok(Pair(1, 10)))
remove 0: Removed(Some((0, Pair(1, 99))))
remove 1: Removed(Some((1, Pair(2, 20))))
insert 3 30: Inserted(1)
insert 4 5: Inserted(0)
walk: Walked([0, 1])
find2 5: Found(Some(0))
find2 99: Found(None)
";

#[test]
fn answers_are_exact_again_once_the_store_was_empty(rt: HostRuntime) -> Result<(), Fail> {
    assert_script(&rt, rt.alloc(), EMPTY_BETWEEN)?;
    Ok(())
}

const FIRST_KEY: &str = "\
insert 1 10: Inserted(0)
insert 2 20: Inserted(1)
overwrite 0 7 10: Overwritten(Ok(Pair(1, 10)))
find2 10: Found(Some(0))
insert 9 10: Refused(Duplicate { item: Pair(9, 10), first: None, second: Some(0) })
";

#[test]
fn an_index_with_another_first_key_is_found_by_its_second(rt: HostRuntime) -> Result<(), Fail> {
    assert_script(&rt, rt.alloc(), FIRST_KEY)?;
    Ok(())
}

const INSERTS: &str = "\
insert 1 10: Inserted(0)
insert 2 20: Inserted(1)
insert 3 30: Inserted(2)
validate gaps yes: ok
";

const OVERWRITE_0: &str = "\
overwrite 0 11 99: Overwritten(Ok(Pair(1, 10)))
validate gaps yes: ok
";

const OVERWRITE_1: &str = "\
overwrite 1 12 98: Overwritten(Ok(Pair(2, 20)))
validate gaps yes: ok
";

const OVERWRITE_2: &str = "\
overwrite 2 13 97: Overwritten(Ok(Pair(3, 30)))
validate gaps yes: ok
";

const REMOVALS: &str = "\
remove 0: Removed(Some((0, Pair(11, 99))))
validate gaps yes: ok
remove 1: Removed(Some((1, Pair(12, 98))))
validate gaps yes: ok
remove 2: Removed(Some((2, Pair(13, 97))))
validate gaps yes: ok
insert 9 90: Inserted(2)
validate gaps yes: ok
";

fn assert_parts(rt: &impl Abort, alloc: Global, parts: &[&str]) -> Result<(), AllocError> {
    let mut items = KeyedItems::new(alloc, Constant);
    for part in parts {
        assert_calls(rt, alloc, &mut items, part)?;
    }
    Ok(())
}

#[test]
fn items_of_one_hash_whose_keys_changed_in_any_order_are_removed(
    rt: HostRuntime,
) -> Result<(), Fail> {
    for [first, second, third] in [
        [OVERWRITE_0, OVERWRITE_1, OVERWRITE_2],
        [OVERWRITE_0, OVERWRITE_2, OVERWRITE_1],
        [OVERWRITE_1, OVERWRITE_0, OVERWRITE_2],
        [OVERWRITE_1, OVERWRITE_2, OVERWRITE_0],
        [OVERWRITE_2, OVERWRITE_0, OVERWRITE_1],
        [OVERWRITE_2, OVERWRITE_1, OVERWRITE_0],
    ] {
        let parts = [INSERTS, first, second, third, REMOVALS];
        assert_parts(&rt, rt.alloc(), parts.as_slice())?;
    }
    Ok(())
}
