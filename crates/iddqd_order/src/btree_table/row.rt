//! The row of indexes that a node itself holds.
ghost use Rattle.std.specs.Prelude.{◌≡◌, ℕ, ◌+◌, ◌-◌, ◌<◌, ◌≤◌, List, [], ◌∷◌, ◌++◌, length, take, drop, slice_index, slice_set};
ghost use Rattle.std.specs.List.{insert, remove};
ghost use Rattle.iddqd_order.specs.Row.{IsSplit};
ghost use Rattle.iddqd_order.specs.Shape.{most_in_row};

use iddqd::item_index::ItemIndex;
use std::marker::Model;

/// The most indexes of a row.
pub(super) const CAPACITY: usize = 11;

// The fewest indexes of a row, except in the root.
pub(super) const LEAST: usize = 5;

// A list of at most eleven indexes, in an array.
#[derive(Drop)]
pub(super) struct Row {
    items: [ItemIndex; CAPACITY],
    len: u8,
}

impl Model for Row {
    ghost Value = { List ℕ };

    ghost view = { λ a. take a.len a.items };

    ghost invariant = { λ a. (length a.items ≡ most_in_row) × (a.len ≤ most_in_row) };
}

impl Row {
    pub(super) fn new() -> Row
        ensures { result ≡ [] }
    {
        Row {
            items: [ItemIndex::new(0); CAPACITY],
            len: 0,
        }
    }

    pub(super) fn of(from: &[ItemIndex]) -> Row
        requires { length from.now ≤ most_in_row }
        ensures { result ≡ from.now }
    {
        let count = from.len() as u8;
        let mut items = [ItemIndex::new(0); CAPACITY];
        items[..count as usize].copy_from_slice(from);
        Row { items, len: count }
    }

    pub(super) fn len(&self) -> usize
        ensures length { result ≡ length self.now }
        ensures within { result ≤ most_in_row }
    {
        self.len as usize
    }

    pub(super) fn as_slice(&self) -> &[ItemIndex]
        ensures { result.now ≡ self.now }
    {
        &self.items[..self.len as usize]
    }

    pub(super) fn slice_from(&self, at: usize) -> &[ItemIndex]
        requires { at ≤ length self.now }
        ensures { result.now ≡ drop at self.now }
    {
        let items = self.as_slice();
        &items[at..]
    }

    pub(super) fn get(&self, at: usize) -> ItemIndex
        requires { at < length self.now }
        ensures { result ≡ slice_index self.now at }
    {
        let items = &self.items;
        items[at]
    }

    pub(super) fn set(&mut self, at: usize, ix: ItemIndex)
        requires { at < length self.old }
        ensures { self.new ≡ slice_set self.old at ix }
    {
        let items = &mut self.items;
        items[at] = ix;
    }

    pub(super) fn copy(&self) -> Row
        ensures { result ≡ self.now }
    {
        Row {
            items: self.items,
            len: self.len,
        }
    }

    pub(super) fn insert(&mut self, at: usize, ix: ItemIndex)
        requires in_bounds { at ≤ length self.old }
        requires room { length self.old < most_in_row }
        ensures { self.new ≡ insert self.old at ix }
    {
        if at == self.len() {
            self.push(ix);
            return;
        }
        move_up(&mut self.items, at);
        self.items[at] = ix;
        self.len += 1;
    }

    pub(super) fn push(&mut self, ix: ItemIndex)
        requires { length self.old < most_in_row }
        ensures { self.new ≡ self.old ++ ix ∷ [] }
    {
        let len = self.len as usize;
        self.items[len] = ix;
        self.len += 1;
    }

    pub(super) fn remove(&mut self, at: usize) -> ItemIndex
        requires { at < length self.old }
        ensures value { result ≡ slice_index self.old at }
        ensures items { self.new ≡ remove self.old at }
    {
        let ix = self.get(at);
        move_down(&mut self.items, at);
        self.len -= 1;
        ix
    }

    // Moves the index at place `at` and all indexes after it to a new row.
    pub(super) fn split_off(&mut self, at: usize) -> Row
        requires { at ≤ length self.old }
        ensures head { self.new ≡ take at self.old }
        ensures tail { result ≡ drop at self.old }
    {
        let upper = Row::of(self.slice_from(at));
        self.len = at as u8;
        upper
    }

    pub(super) fn append(&mut self, other: &Row)
        requires { length self.old + length other.now ≤ most_in_row }
        ensures { self.new ≡ self.old ++ other.now }
    {
        let len = self.len as usize;
        let more = other.len as usize;
        let items = &mut self.items[..];
        items[len..len + more].copy_from_slice(&other.items[..more]);
        self.len += other.len;
    }

    // Inserts an index into a full row and splits the row. Returns the middle index and the upper row.
    pub(super) fn split(&mut self, at: usize, ix: ItemIndex) -> (ItemIndex, Row)
        requires full { length self.old ≡ most_in_row }
        requires in_bounds { at ≤ length self.old }
        ensures { IsSplit self.old at ix self.new result.0 result.1 }
    {
        if at <= LEAST {
            let upper = self.split_off(LEAST);
            if at == LEAST {
                return (ix, upper);
            }
            let middle = self.remove(LEAST - 1);
            self.insert(at, ix);
            (middle, upper)
        } else {
            let mut upper = self.split_off(LEAST + 1);
            if at == LEAST + 1 {
                return (ix, upper);
            }
            let middle = upper.remove(0);
            upper.insert(at - (LEAST + 2), ix);
            (middle, upper)
        }
    }
}

// Moves each item from the place on one place up. The last one is lost.
//
// It writes all items, so the processor has no branch to guess. With `copy_within`, whose length changes from call to
// call, an insert into a map of 1,000 items takes 5 % longer, and a removal 6 %.
#[inline(always)]
fn move_up(items: &mut [ItemIndex; CAPACITY], at: usize)
    requires { length items.old ≡ most_in_row }
    ensures length { length items.new ≡ most_in_row }
    ensures below { (k : ℕ) → k ≤ at → slice_index items.new k ≡ slice_index items.old k }
    ensures above { (k : ℕ) → at < k → k < most_in_row → slice_index items.new k ≡ slice_index items.old (k - 1) }
{
    let was = *items;
    for i in 1..CAPACITY {
        items[i] = if i > at { was[i - 1] } else { was[i] };
    }
}

// Moves each item behind the place one place down. The item at the place is lost. It writes all, as `move_up` does.
#[inline(always)]
fn move_down(items: &mut [ItemIndex; CAPACITY], at: usize)
    requires { length items.old ≡ most_in_row }
    ensures length { length items.new ≡ most_in_row }
    ensures below { (k : ℕ) → k < at → slice_index items.new k ≡ slice_index items.old k }
    ensures above { (k : ℕ) → at ≤ k → k + 1 < most_in_row
        → slice_index items.new k ≡ slice_index items.old (k + 1) }
{
    let was = *items;
    for i in 1..CAPACITY {
        items[i - 1] = if i > at { was[i] } else { was[i - 1] };
    }
}
