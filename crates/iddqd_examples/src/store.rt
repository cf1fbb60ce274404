//! The store: which index an item gets, and what its calls answer and leave.
mod compaction;
mod copies;
mod reads;
mod sizes;
mod slots;

use iddqd::index_remap::IndexRemap;
use iddqd::item_index::ItemIndex;
use iddqd::item_set::{GrowError, ItemSet};

// The new name of a slot that was vacant.
const VACANT: ItemIndex = ItemIndex::SENTINEL;

fn ix(number: u32) -> ItemIndex {
    ItemIndex::new(number)
}

fn insert(set: &mut ItemSet<u32>, item: u32) -> Result<ItemIndex, GrowError> {
    Ok(set.assert_can_grow()?.insert(item))
}

// Whether each item, inserted in turn, gets the index beside it.
fn inserts(set: &mut ItemSet<u32>, wanted: &[(u32, u32)]) -> bool {
    for (item, at) in wanted {
        if insert(set, *item) != Ok(ix(*at)) {
            return false;
        }
    }
    true
}

// Whether the removal of each index, in turn, gives what is beside it.
fn removes(set: &mut ItemSet<u32>, wanted: &[(u32, Option<u32>)]) -> bool {
    for (at, item) in wanted {
        if set.remove(ix(*at)) != *item {
            return false;
        }
    }
    true
}

// Whether each index has the item beside it.
fn has(set: &ItemSet<u32>, wanted: &[(u32, Option<u32>)]) -> bool {
    for (at, item) in wanted {
        if set.get(ix(*at)).copied() != *item {
            return false;
        }
    }
    true
}

// Whether a compaction gives the old slots these names.
fn permutes(set: &mut ItemSet<u32>, wanted: &[ItemIndex]) -> bool {
    match set.compact() {
        Ok(IndexRemap::Permuted(names)) => names.as_slice() == wanted,
        _ => false,
    }
}

// Makes an empty set one of six slots, of which 1, 3 and 5 are vacant, and tells whether each call answered as it
// should.
fn has_gaps(set: &mut ItemSet<u32>) -> bool {
    inserts(set, &[(0, 0), (10, 1), (20, 2), (30, 3), (40, 4), (50, 5)])
        && removes(set, &[(1, Some(10)), (3, Some(30)), (5, Some(50))])
}
