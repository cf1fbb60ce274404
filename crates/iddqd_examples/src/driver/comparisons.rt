//! How often calls compare keys among a thousand items.
use super::counted::{Counts, Item, NONE, Own, first_of, item_of, second_of};
use super::script::ix;
use iddqd::item_index::ItemIndex;
use iddqd_driver::keyed_items::KeyedItems;
use std::alloc::AllocError;
use std::cell::Cell;
use std::process::Abort;
use std::rc::Rc;
use std::test::Fail;

type Items = KeyedItems<Item, Own>;

/// A call over items that have the numbers below 1000 as both keys.
#[derive(Clone, Copy, Debug)]
enum Call {
    Find1(u32),
    Find2(u32),
    Insert(u32),
    Remove2(u32),
}

// The index that the call answers.
fn answer(
    counts: &Rc<Cell<Counts>>,
    items: &mut Items,
    call: Call,
) -> Result<Option<ItemIndex>, AllocError> {
    Ok(match call {
        Call::Find1(number) => items.find1(&first_of(counts, number)?),
        Call::Find2(number) => items.find2(&second_of(counts, number)?),
        Call::Insert(number) => items.insert(item_of(counts, number)?).ok(),
        Call::Remove2(number) => removed(items.remove2(&second_of(counts, number)?), number),
    })
}

// The index of the item that was removed, if its keys are the number.
fn removed(removed: Option<(ItemIndex, Item)>, number: u32) -> Option<ItemIndex> {
    match removed {
        Some((ix, item)) => item.has(number).then_some(ix),
        None => None,
    }
}

// Each call, the index that it answers, and how often it may compare first and second keys.
const CALLS: [(Call, Option<u32>, u32, u32); 6] = [
    (Call::Find1(500), Some(500), 1, 0),
    (Call::Find1(1000), None, 0, 0),
    (Call::Find2(500), Some(500), 0, 24),
    (Call::Find2(1000), None, 0, 24),
    (Call::Insert(1000), Some(1000), u32::MAX, 48),
    (Call::Remove2(500), Some(500), u32::MAX, 48),
];

fn insert_thousand(
    rt: &impl Abort,
    counts: &Rc<Cell<Counts>>,
    items: &mut Items,
) -> Result<(), AllocError> {
    for number in 0..1000 {
        let is_inserted = answer(counts, items, Call::Insert(number))? == Some(ix(number));
        assert!(rt; is_inserted, "at {number}");
    }
    Ok(())
}

fn assert_calls(
    rt: &impl Abort,
    counts: &Rc<Cell<Counts>>,
    items: &mut Items,
) -> Result<(), AllocError> {
    for (call, want, most_first, most_second) in CALLS {
        counts.set(NONE);
        let is_right = answer(counts, items, call)? == want.map(ix);
        let taken = counts.get();
        let is_few = taken.is_within(most_first, most_second);
        assert!(rt; is_right && is_few, "{taken:?} at {call:?}");
    }
    Ok(())
}

#[test]
fn calls_among_a_thousand_items_compare_few_keys(rt: HostRuntime) -> Result<(), Fail> {
    let counts = Rc::new(rt.alloc(), Cell::new(NONE))?;
    let mut items = KeyedItems::new(rt.alloc(), Own(0));
    insert_thousand(&rt, &counts, &mut items)?;
    assert_calls(&rt, &counts, &mut items)?;
    Ok(())
}
