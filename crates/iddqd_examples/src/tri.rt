//! `TriItems`, by scripts of calls: a line is a call, a colon and the answer as it prints for debugging.
use crate::driver::hashers::Constant;
use crate::driver::script::{assert_answer, halves, ix, printed, words};
use iddqd::hash_builder::DefaultHashBuilder;
use iddqd::item_index::ItemIndex;
use iddqd_keys::key_of::KeyQuery;
use iddqd_tri::tri_items::{TriItem, TriItems};
use iddqd_tri::tri_refusal::TriRefusal;
use std::alloc::{AllocError, Global};
use std::hash::BuildHasher;
use std::process::Abort;
use std::test::Fail;

/// Three keys.
#[derive(Clone, Copy, Debug)]
struct Trio(u32, u32, u32);

impl TriItem for Trio {
    type Key1 = u32;

    type Key2 = u32;

    type Key3 = u32;

    ghost first_key = { λ trio. trio.0 };

    ghost second_key = { λ trio. trio.1 };

    ghost third_key = { λ trio. trio.2 };

    fn key1(&self) -> &u32 {
        &self.0
    }

    fn key2(&self) -> &u32 {
        &self.1
    }

    fn key3(&self) -> &u32 {
        &self.2
    }
}

// The calls that change the items stand alone, so that each is proved once.

fn insert<S: BuildHasher>(
    items: &mut TriItems<Trio, S>,
    item: Trio,
) -> Result<(ItemIndex, [Option<Trio>; 3]), TriRefusal<Trio>> {
    items.insert_overwrite(item)
}

fn remove<S: BuildHasher>(items: &mut TriItems<Trio, S>, ix: ItemIndex) -> Option<Trio> {
    items.remove(ix)
}

// What the call answers, printed.
fn answer<S: BuildHasher>(
    rt: &impl Abort,
    alloc: Global,
    items: &mut TriItems<Trio, S>,
    call: &str,
) -> Result<String, AllocError> {
    let (verb, [a, b, c]) = words(rt, call);
    match verb {
        "insert" => printed(alloc, &insert(items, Trio(a, b, c))),
        "remove" => printed(alloc, &remove(items, ix(a))),
        "find1" => printed(alloc, &items.find1(&a)),
        "find2" => printed(alloc, &items.find2(&a)),
        "find3" => printed(alloc, &items.find3(&a)),
        "get" => printed(alloc, &items.get(ix(a)).copied()),
        "len" => printed(alloc, &items.len()),
        _ => panic!(rt; "{call} is no call"),
    }
}

// From no items under that hasher and within that limit the calls answer so.
fn assert_under<S: BuildHasher + Copy>(
    rt: &impl Abort,
    alloc: Global,
    hasher: S,
    limit: u32,
    script: &str,
) -> Result<(), AllocError> {
    let mut items = TriItems::with_limit(alloc, hasher, limit);
    for line in script.lines() {
        let (call, want) = halves(rt, line);
        let answer = answer(rt, alloc, &mut items, call)?;
        assert_answer(rt, &answer, want, line);
    }
    Ok(())
}

// The script is answered under either hasher.
fn assert_within(
    rt: &impl Abort,
    alloc: Global,
    limit: u32,
    script: &str,
) -> Result<(), AllocError> {
    assert_under(rt, alloc, DefaultHashBuilder::default(), limit, script)?;
    assert_under(rt, alloc, Constant, limit, script)
}

const TWO_CONFLICTS: &str = "\
insert 1 1 1: Ok((0, [None, None, None]))
insert 2 2 2: Ok((1, [None, None, None]))
insert 3 3 3: Ok((2, [None, None, None]))
insert 1 2 9: Ok((1, [Some(Trio(1, 1, 1)), Some(Trio(2, 2, 2)), None]))
find1 1: Some(1)
find2 2: Some(1)
find3 9: Some(1)
find3 1: None
len: 2
";

#[test]
fn an_item_replaces_two_that_share_a_key_with_it(rt: HostRuntime) -> Result<(), Fail> {
    assert_within(&rt, rt.alloc(), u32::MAX, TWO_CONFLICTS)?;
    Ok(())
}

const EQUAL: &str = "\
insert 1 1 1: Ok((0, [None, None, None]))
insert 1 1 1: Ok((0, [Some(Trio(1, 1, 1)), None, None]))
";

#[test]
fn an_item_replaces_its_equal_at_the_same_index(rt: HostRuntime) -> Result<(), Fail> {
    assert_within(&rt, rt.alloc(), u32::MAX, EQUAL)?;
    Ok(())
}

const THREE_CONFLICTS: &str = "\
insert 1 1 1: Ok((0, [None, None, None]))
insert 2 2 2: Ok((1, [None, None, None]))
insert 3 3 3: Ok((2, [None, None, None]))
insert 3 1 2: Ok((2, [Some(Trio(1, 1, 1)), Some(Trio(2, 2, 2)), Some(Trio(3, 3, 3))]))
len: 1
insert 7 7 7: Ok((1, [None, None, None]))
insert 8 8 8: Ok((0, [None, None, None]))
";

#[test]
fn replaced_items_come_back_by_rising_index(rt: HostRuntime) -> Result<(), Fail> {
    assert_within(&rt, rt.alloc(), u32::MAX, THREE_CONFLICTS)?;
    Ok(())
}

const ONE_SLOT: &str = "\
insert 1 1 1: Ok((0, [None, None, None]))
insert 2 2 2: Err(Full(Trio(2, 2, 2)))
insert 1 5 5: Ok((0, [Some(Trio(1, 1, 1)), None, None]))
find2 1: None
find3 5: Some(0)
";

#[test]
fn a_full_store_takes_an_item_that_replaces_another(rt: HostRuntime) -> Result<(), Fail> {
    assert_within(&rt, rt.alloc(), 1, ONE_SLOT)?;
    Ok(())
}

const NO_CONFLICT: &str = "\
insert 1 1 1: Ok((0, [None, None, None]))
insert 2 2 2: Ok((1, [None, None, None]))
insert 3 3 3: Ok((2, [None, None, None]))
find1 1: Some(0)
find2 1: Some(0)
find3 1: Some(0)
find1 2: Some(1)
find2 2: Some(1)
find3 2: Some(1)
get 2: Some(Trio(3, 3, 3))
";

#[test]
fn an_item_without_a_conflict_leaves_the_others_found(rt: HostRuntime) -> Result<(), Fail> {
    assert_within(&rt, rt.alloc(), u32::MAX, NO_CONFLICT)?;
    Ok(())
}

// Where a number is as each key, found by a query.
fn find_by<S: BuildHasher>(items: &TriItems<Trio, S>, number: u32) -> [Option<ItemIndex>; 3] {
    let query = KeyQuery(&number);
    [
        items.find1_by(&query),
        items.find2_by(&query),
        items.find3_by(&query),
    ]
}

#[test]
fn a_query_finds_an_item_by_each_key(rt: HostRuntime) -> Result<(), Fail> {
    let mut items = TriItems::new(rt.alloc(), DefaultHashBuilder::default());
    assert!(rt; items.is_empty());
    assert!(rt; insert(&mut items, Trio(7, 8, 9)).is_ok());
    assert!(rt; find_by(&items, 7) == [Some(ix(0)), None, None]);
    assert!(rt; find_by(&items, 8) == [None, Some(ix(0)), None]);
    assert!(rt; find_by(&items, 9) == [None, None, Some(ix(0))]);
    Ok(())
}

#[test]
fn a_refusal_returns_the_item(rt: HostRuntime) -> Result<(), Fail> {
    let mut items = TriItems::with_limit(rt.alloc(), DefaultHashBuilder::default(), 0);
    let back = match insert(&mut items, Trio(7, 8, 9)) {
        Ok(_) => None,
        Err(refusal) => Some(refusal.into_item()),
    };
    assert!(rt; matches!(back, Some(Trio(7, 8, 9))));
    Ok(())
}

// Takes memory for so many more, and tells for how many items there is memory then, and for how many more.
fn sizes_after<S: BuildHasher>(
    items: &mut TriItems<Trio, S>,
    more: usize,
) -> Result<(usize, usize), AllocError> {
    items.reserve(more)?;
    items.try_reserve(more)?;
    Ok((items.capacity(), items.room()))
}

// Gives back the memory past so many items, and then all that the items don't need.
fn shrink<S: BuildHasher>(items: &mut TriItems<Trio, S>, least: usize) -> Result<(), AllocError> {
    items.shrink_to(least)?;
    items.shrink_to_fit()
}

#[test]
fn a_capacity_counts_the_items_and_the_room(rt: HostRuntime) -> Result<(), Fail> {
    let mut items = TriItems::with_capacity(rt.alloc(), DefaultHashBuilder::default(), 2)?;
    assert!(rt; insert(&mut items, Trio(7, 8, 9)).is_ok());
    let (capacity, room) = sizes_after(&mut items, 3)?;
    assert!(rt; capacity >= 4);
    assert!(rt; capacity - 1 == room);
    shrink(&mut items, 2)?;
    assert!(rt; items.capacity() == 1);
    Ok(())
}
