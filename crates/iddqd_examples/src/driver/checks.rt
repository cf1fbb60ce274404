//! Checks by look-ups, and the text of a table's error.
use super::hashers::Sum;
use super::script::{assert_answer, assert_within};
use iddqd::internal::{TableValidationError, ValidationError};
use std::test::Fail;

const CHANGED_FIRST_KEY: &str = "\
insert 1 10: Inserted(0)
overwrite 0 5 10: Overwritten(Ok(Pair(1, 10)))
validate compact yes: ok
validate compact no: KeyedItems index 0 is not found by its first key
";

#[test]
fn a_check_without_chaos_looks_first_keys_up(rt: HostRuntime) -> Result<(), Fail> {
    assert_within(&rt, rt.alloc(), Sum(0), u32::MAX, CHANGED_FIRST_KEY)?;
    Ok(())
}

#[test]
fn an_error_of_a_table_prints_its_name_and_its_text(rt: HostRuntime) -> Result<(), Fail> {
    let text = String::from_str(rt.alloc(), "expected length 2, was 1")?;
    let error = ValidationError::Table {
        name: "first",
        error: TableValidationError::new(text),
    };
    let want = "validation error in table first: expected length 2, was 1";
    assert_answer(&rt, &format!(in rt.alloc(); "{error}")?, want, "printing");
    Ok(())
}
