//! Walks, look-ups of live indexes, and writes.
use super::{has, has_gaps, inserts, ix};
use iddqd::item_index::ItemIndex;
use iddqd::item_set::ItemSet;

// Whether the walk over the values tells before each of five steps how many are left, and stays ended.
fn counts_values_down(set: &ItemSet<u32>) -> bool {
    let mut walk = set.values();
    for (left, want) in [
        (3, Some(0)),
        (2, Some(20)),
        (1, Some(40)),
        (0, None),
        (0, None),
    ] {
        if walk.len() != left || walk.next().copied() != want {
            return false;
        }
    }
    true
}

fn walks_over_values(set: &mut ItemSet<u32>) -> bool {
    has_gaps(set) && counts_values_down(set)
}

#[test]
fn a_walk_over_values_tells_how_many_are_left(rt: HostRuntime) {
    assert!(rt; walks_over_values(&mut ItemSet::new(rt.alloc())));
}

// Adds one to each item, by the next live index.
fn add_one_to_each(set: &mut ItemSet<u32>) {
    let mut from = ix(0);
    for _ in 0..set.slot_count() {
        let Some(at) = set.next_occupied(from) else {
            return;
        };
        if let Some(item) = set.get_mut(at) {
            *item = item.saturating_add(1);
        }
        from = ix(at.as_u32().saturating_add(1));
    }
}

fn writes_each_item(set: &mut ItemSet<u32>) -> bool {
    let is_made = has_gaps(set);
    add_one_to_each(set);
    is_made && has(set, &[(0, Some(1)), (2, Some(21)), (4, Some(41))]) && inserts(set, &[(50, 5)])
}

#[test]
fn each_item_is_written_by_the_next_live_index(rt: HostRuntime) {
    assert!(rt; writes_each_item(&mut ItemSet::new(rt.alloc())));
}

fn skips_vacant_slots(set: &mut ItemSet<u32>) -> bool {
    has_gaps(set)
        && set.next_occupied(ix(0)) == Some(ix(0))
        && set.next_occupied(ix(1)) == Some(ix(2))
        && set.next_occupied(ix(5)).is_none()
        && set.next_occupied(ItemIndex::SENTINEL).is_none()
}

#[test]
fn the_next_live_index_skips_vacant_slots(rt: HostRuntime) {
    assert!(rt; skips_vacant_slots(&mut ItemSet::new(rt.alloc())));
}

fn has_first_live(set: &mut ItemSet<u32>) -> bool {
    let indexes = [ix(0), ix(0), ix(1), ix(9), ix(2)];
    has_gaps(set) && set.disjoint_valid(indexes) == [true, false, false, false, true]
}

#[test]
fn the_first_of_equal_live_indexes_is_valid(rt: HostRuntime) {
    assert!(rt; has_first_live(&mut ItemSet::new(rt.alloc())));
}

// Whether the brackets read and write the next live index from 1 on.
fn doubles_the_next_item(set: &mut ItemSet<u32>) -> bool {
    let is_made = has_gaps(set);
    let Some(at) = set.next_occupied(ix(1)) else {
        return false;
    };
    let item = set[at];
    set[at] = item.saturating_mul(2);
    is_made && at == ix(2) && set[at] == 40
}

#[test]
fn brackets_read_and_write_a_live_index(rt: HostRuntime) {
    assert!(rt; doubles_the_next_item(&mut ItemSet::new(rt.alloc())));
}
