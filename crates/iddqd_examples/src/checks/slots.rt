//! Checks of slots and of the chain of vacant ones.
use super::{assert_words, words};
use iddqd::internal::{ValidateCompact, validate_slots};
use iddqd::item_index::ItemIndex;
use iddqd::item_set::{ItemSet, ItemSlot};
use std::alloc::{AllocError, Global};
use std::process::Abort;
use std::test::Fail;

// Slots, of which each has an item, or names the next vacant one; the head of the chain; how many items there should
// be; and what is told.
type Case = (&'static [Option<u32>], u32, u32, &'static str);

const ITEM: Option<u32> = None;

const LAST: Option<u32> = Some(u32::MAX);

fn slot_of(link: Option<u32>) -> ItemSlot<u32> {
    match link {
        Some(next) => ItemSlot::Vacant {
            next: ItemIndex::new(next),
        },
        None => ItemSlot::Occupied(0),
    }
}

fn slots_of(alloc: Global, links: &[Option<u32>]) -> Result<Vec<ItemSlot<u32>>, AllocError> {
    let mut slots = Vec::new(alloc);
    for link in links {
        slots.push(slot_of(*link))?;
    }
    Ok(slots)
}

fn told_of(
    alloc: Global,
    links: &[Option<u32>],
    head: u32,
    len: u32,
    mode: ValidateCompact,
) -> Result<String, AllocError> {
    let slots = slots_of(alloc, links)?;
    let head = ItemIndex::new(head);
    words(alloc, validate_slots(alloc, &slots, head, len, mode))
}

// Each check tells what is wanted.
fn assert_told(
    rt: &impl Abort,
    alloc: Global,
    cases: &[Case],
    mode: ValidateCompact,
) -> Result<(), AllocError> {
    for (links, head, len, want) in cases {
        let told = told_of(alloc, links, *head, *len, mode)?;
        assert_words(rt, told.as_str(), want);
    }
    Ok(())
}

static CYCLES: [Case; 3] = [
    (
        &[Some(0)],
        0,
        0,
        "ItemSet free chain cycles or overshoots: walked 2 vacant slots, expected 1",
    ),
    (
        &[Some(1), Some(0)],
        0,
        0,
        "ItemSet free chain cycles or overshoots: walked 3 vacant slots, expected 2",
    ),
    (
        &[LAST, Some(1)],
        1,
        0,
        "ItemSet free chain cycles or overshoots: walked 3 vacant slots, expected 2",
    ),
];

#[test]
fn a_chain_that_comes_back_is_told(rt: HostRuntime) -> Result<(), Fail> {
    assert_told(&rt, rt.alloc(), &CYCLES, ValidateCompact::NonCompact)?;
    Ok(())
}

static STRAYS: [Case; 6] = [
    (
        &[ITEM, LAST],
        0,
        1,
        "ItemSet free chain points at occupied slot 0",
    ),
    (
        &[LAST, LAST],
        0,
        0,
        "ItemSet free chain length 1 disagrees with vacant-slot count 2",
    ),
    (&[LAST], 5, 0, "ItemSet free chain has out-of-range index 5"),
    (
        &[Some(2), ITEM],
        0,
        1,
        "ItemSet free chain has out-of-range index 2",
    ),
    (
        &[Some(1), ITEM],
        0,
        1,
        "ItemSet free chain points at occupied slot 1",
    ),
    (&[], 0, 0, "ItemSet free chain has out-of-range index 0"),
];

#[test]
fn a_chain_that_leaves_the_vacant_slots_is_told(rt: HostRuntime) -> Result<(), Fail> {
    assert_told(&rt, rt.alloc(), &STRAYS, ValidateCompact::NonCompact)?;
    Ok(())
}

static MISCOUNTED: [Case; 1] = [(
    &[ITEM],
    u32::MAX,
    2,
    "ItemSet len (2) disagrees with occupied-slot count (1)",
)];

#[test]
fn a_wrong_number_of_items_is_told(rt: HostRuntime) -> Result<(), Fail> {
    assert_told(&rt, rt.alloc(), &MISCOUNTED, ValidateCompact::NonCompact)?;
    Ok(())
}

static SOUND: [Case; 1] = [(&[LAST, ITEM, Some(0)], 2, 1, "ok")];

static NOT_COMPACT: [Case; 1] = [(
    &[LAST, ITEM, Some(0)],
    2,
    1,
    "ItemSet is not compact: 2 vacant slots",
)];

#[test]
fn vacant_slots_are_told_in_compact_mode_alone(rt: HostRuntime) -> Result<(), Fail> {
    assert_told(&rt, rt.alloc(), &SOUND, ValidateCompact::NonCompact)?;
    assert_told(&rt, rt.alloc(), &NOT_COMPACT, ValidateCompact::Compact)?;
    Ok(())
}

// What a set of two slots, of which the first is vacant, is answered where no slot may be.
fn told_of_a_gap(alloc: Global, set: &mut ItemSet<u32>) -> Result<String, AllocError> {
    for item in [7, 8] {
        if let Ok(handle) = set.assert_can_grow() {
            handle.insert(item);
        }
    }
    set.remove(ItemIndex::new(0));
    words(alloc, set.validate(ValidateCompact::Compact))
}

#[test]
fn a_set_with_a_vacant_slot_is_not_compact(rt: HostRuntime) -> Result<(), Fail> {
    let told = told_of_a_gap(rt.alloc(), &mut ItemSet::new(rt.alloc()))?;
    let want = "ItemSet is not compact: 1 vacant slots";
    assert_words(&rt, told.as_str(), want);
    Ok(())
}
