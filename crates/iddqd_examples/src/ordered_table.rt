//! The ordered tables: where an index goes, and how often a search asks. Where a function says `T: Table`, the tree and
//! the sorted vector run it with the same values.
mod asks;
mod calls;
mod hashes;
mod keys;
mod lying;
mod names;
mod ranges;
mod retains;
mod thousand;
mod vector;

use calls::Table;
use iddqd::item_index::ItemIndex;
use iddqd_order::btree_table::Asking;
use std::alloc::AllocError;
use std::cmp::Ordering;
use std::process::Abort;

// Adds an index where the answers lead. It is not stored yet.
fn insert_by<T: Table, F: FnMut(ItemIndex) -> Ordering>(
    rt: &impl Abort,
    table: &mut T,
    ix: u32,
    answer: F,
) -> Result<(), AllocError>
    requires { (f : F) (x : _) → F.pre f x }
{
    let ix = ItemIndex::new(ix);
    assert!(rt; ix != ItemIndex::SENTINEL);
    assert!(rt; !table.has(ix));
    let mut asking = Asking::new(answer);
    table.add_by(ix, &mut asking)
}

// Adds an index by these answers in turn, and says how often it was asked.
fn insert_told<T: Table>(
    rt: &impl Abort,
    table: &mut T,
    ix: u32,
    odd: Ordering,
    even: Ordering,
) -> Result<u32, AllocError> {
    let mut asks = 0u32;
    insert_by(rt, table, ix, |_| {
        asks = asks.wrapping_add(1);
        if asks % 2 == 1 { odd } else { even }
    })?;
    Ok(asks)
}

// Removes an index by these answers in turn, and says whether it was found and how often it was asked.
fn remove_told<T: Table>(table: &mut T, ix: u32, odd: Ordering, even: Ordering) -> (bool, u32) {
    let mut asks = 0u32;
    let mut asking = Asking::new(|_: ItemIndex| {
        asks = asks.wrapping_add(1);
        if asks % 2 == 1 { odd } else { even }
    });
    let is_removed = table.take_by(ItemIndex::new(ix), &mut asking);
    (is_removed, asks)
}

// Finds by these answers in turn, and says how often it was asked.
fn find_told<T: Table>(table: &T, odd: Ordering, even: Ordering) -> (Option<ItemIndex>, u32) {
    let mut asks = 0u32;
    let mut asking = Asking::new(|_: ItemIndex| {
        asks = asks.wrapping_add(1);
        if asks % 2 == 1 { odd } else { even }
    });
    let found = table.hit_by(&mut asking);
    (found, asks)
}

// Adds the indexes behind those of a table, in that order.
fn append<T: Table>(rt: &impl Abort, table: &mut T, indexes: &[u32]) -> Result<(), AllocError> {
    for ix in indexes {
        insert_told(rt, table, *ix, Ordering::Greater, Ordering::Greater)?;
    }
    Ok(())
}

// Adds the indexes below `len`, each by that answer alone: they rise by Greater, and fall by Less.
fn fill<T: Table>(
    rt: &impl Abort,
    table: &mut T,
    len: u32,
    answer: Ordering,
) -> Result<(), AllocError> {
    for ix in 0..len {
        insert_told(rt, table, ix, answer, answer)?;
    }
    Ok(())
}

// 4 and twice the number of binary digits of the length.
fn bound(len: usize) -> u32 {
    let digits = usize::BITS - len.leading_zeros();
    4 + 2 * digits
}

// Whether the table is in that order.
fn has_order<T: Table>(table: &T, expected: &[u32]) -> bool {
    let mut rest = expected.iter();
    let is_beginning = table.all(|ix| match rest.next() {
        Some(number) => *number == ix.as_u32(),
        None => false,
    });
    is_beginning && rest.next().is_none()
}
