//! Compaction of the store and both tables.
use super::script::assert_script;
use std::test::Fail;

// The name 4294967295 is that of an index which was vacant.
const RENAMED: &str = "\
insert 1 30: Inserted(0)
insert 2 20: Inserted(1)
insert 3 10: Inserted(2)
remove1 2: Removed(Some((1, Pair(2, 20))))
walk: Walked([2, 0])
compact: Compacted(Permuted([0, 4294967295, 1]))
walk: Walked([1, 0])
find1 3: Found(Some(1))
find2 30: Found(Some(0))
compact: Compacted(Identity)
walk: Walked([1, 0])
";

#[test]
fn a_compaction_renames_by_rank_and_a_second_one_nothing(rt: HostRuntime) -> Result<(), Fail> {
    assert_script(&rt, rt.alloc(), RENAMED)?;
    Ok(())
}
