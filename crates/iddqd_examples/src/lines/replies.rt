//! Lines that are answered, one by one.
use iddqd_lines::serve::serve;
use iddqd_lines::sink::WriteSink;
use iddqd_lines::source::ReadSource;
use std::alloc::{AllocError, Global};
use std::process::Abort;
use std::test::Fail;

/// The program answers the input so.
fn assert_replies(rt: &impl Abort, alloc: Global, input: &str, want: &str) {
    let mut replies = Vec::new(alloc);
    let mut source = ReadSource::new(input.as_bytes());
    let answer = serve(alloc, &mut source, &mut WriteSink::new(&mut replies));
    assert!(rt; answer == Ok(()), "{answer:?}");
    assert!(rt;
        replies.as_slice() == want.as_bytes(),
        "{replies:?} to {input}"
    );
}

const NO_NUMBERS: &str = "\
get1 4294967295
get1 4294967296
get1  1

remove 4294967295
";

#[test]
fn a_line_that_is_no_command_is_a_bad_line(rt: HostRuntime) {
    let want = "none\nbad line\nbad line\nbad line\nnone\n";
    assert_replies(&rt, rt.alloc(), NO_NUMBERS, want);
}

const DUPLICATES: &str = "\
insert 1 10 100
insert 1 10 7
insert 2 10 7
remove 0
insert 2 10 7
";

#[test]
fn a_duplicate_names_the_records_with_its_keys(rt: HostRuntime) {
    let want = "inserted 0\nduplicate 0 0\nduplicate - 0\n0 1 10 100\ninserted 0\n";
    assert_replies(&rt, rt.alloc(), DUPLICATES, want);
}

// A look-up of the first key 1, written with so many zeros before it, after an insert of that key.
fn find_with_zeros(alloc: Global, zeros: u32) -> Result<String, AllocError> {
    let mut lines = String::from_str(alloc, "insert 1 10 100\nget1 ")?;
    for _ in 0..zeros {
        lines.push_str("0")?;
    }
    lines.push_str("1\n")?;
    Ok(lines)
}

// Beside the zeros the line has 6 bytes.
#[test]
fn a_line_of_more_than_128_bytes_is_a_bad_line(rt: HostRuntime) -> Result<(), Fail> {
    let longest = find_with_zeros(rt.alloc(), 122)?;
    assert_replies(
        &rt,
        rt.alloc(),
        longest.as_str(),
        "inserted 0\n0 1 10 100\n",
    );
    let longer = find_with_zeros(rt.alloc(), 123)?;
    assert_replies(&rt, rt.alloc(), longer.as_str(), "inserted 0\nbad line\n");
    Ok(())
}

const WALKS: &str = "\
insert 5 50 1
insert 6 40 2
insert 7 60 3
walk
remove2 50
insert 8 50 4
get2 50
walk
";

#[test]
fn a_walk_goes_by_second_keys(rt: HostRuntime) {
    let want = "inserted 0\ninserted 1\ninserted 2\n1 0 2\n0 5 50 1\ninserted 0\n0 8 50 4\n1 0 2\n";
    assert_replies(&rt, rt.alloc(), WALKS, want);
}

const OVERWRITES: &str = "\
insert 1 10 100
overwrite 0 1 10 7
get1 1
get2 10
clear
get1 1
insert 2 2 2
";

#[test]
fn an_overwrite_gives_the_old_record(rt: HostRuntime) {
    let want = "inserted 0\n0 1 10 100\n0 1 10 7\n0 1 10 7\ncleared\nnone\ninserted 0\n";
    assert_replies(&rt, rt.alloc(), OVERWRITES, want);
}

/// Lines that leave no slot vacant.
pub(super) const DENSE: &str = "\
insert 1 10 100
insert 2 20 200
insert 1 99 0
get2 20
remove 0
insert 3 5 300
walk
compact
";

/// The replies to them.
pub(super) const DENSE_REPLIES: &str = "\
inserted 0
inserted 1
duplicate 0 -
1 2 20 200
0 1 10 100
inserted 0
0 1
identity
";

#[test]
fn a_compaction_without_a_vacant_slot_is_the_identity(rt: HostRuntime) {
    assert_replies(&rt, rt.alloc(), DENSE, DENSE_REPLIES);
}

const VACANT: &str = "\
insert 1 10 1
insert 2 20 2
insert 3 30 3
remove1 2
validate
compact
get1 3
overwrite 9 1 1 1
hello
clear
walk
";

const VACANT_REPLIES: &str = "\
inserted 0
inserted 1
inserted 2
1 2 20 2
ItemSet is not compact: 1 vacant slots
permuted 0 - 1
1 3 30 3
none
bad line
cleared
empty
";

#[test]
fn a_vacant_slot_is_reported_and_compacted(rt: HostRuntime) {
    assert_replies(&rt, rt.alloc(), VACANT, VACANT_REPLIES);
}
