//! Inserts, look-ups and walks where no key changes silently.
use super::script::assert_script;
use std::test::Fail;

const DUPLICATES: &str = "\
insert 1 10: Inserted(0)
insert 2 20: Inserted(1)
find1 1: Found(Some(0))
find2 20: Found(Some(1))
find1 9: Found(None)
insert 1 99: Refused(Duplicate { item: Pair(1, 99), first: Some(0), second: None })
insert 99 10: Refused(Duplicate { item: Pair(99, 10), first: None, second: Some(0) })
validate compact no: ok
";

#[test]
fn a_key_that_is_there_refuses_an_item(rt: HostRuntime) -> Result<(), Fail> {
    assert_script(&rt, rt.alloc(), DUPLICATES)?;
    Ok(())
}

const UNORDERED: &str = "\
insert 1 1: Inserted(0)
insert 20 20: Inserted(1)
insert 10 10: Inserted(2)
get 0: Some(Pair(1, 1))
get 1: Some(Pair(20, 20))
get 2: Some(Pair(10, 10))
walk: Walked([0, 2, 1])
";

#[test]
fn a_walk_goes_by_second_keys(rt: HostRuntime) -> Result<(), Fail> {
    assert_script(&rt, rt.alloc(), UNORDERED)?;
    Ok(())
}
