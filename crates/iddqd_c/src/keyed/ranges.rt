//! The items in the order of their second keys and then of their indexes, by buffers.
//!
//! No pointer into the table is held between two calls. A caller goes on from the place of the last row that it got, up
//! or down.
ghost use Rattle.std.specs.Prelude.{◌≡◌, ◌≢◌, ◌∷◌, [], Some, filter, IfSome, IfNone};
ghost use Rattle.iddqd_codes.specs.declared.TheConstants.{OK};
ghost use Rattle.iddqd_c.specs.Held.{ReadsKeyed};
ghost use Rattle.iddqd_c.specs.Ranges.{WritesRange, GetsFirst, GetsLast, along, bound_of, ends_behind, is_above, is_below, lies_at, lies_before, lies_behind, lies_between, starts_at};
ghost use Rattle.iddqd_c.specs.Rows.{FillsRows, row_of};
ghost use Rattle.std.specs.Range.Bound.{bound_map};
ghost use Rattle.iddqd_c.specs.declared.entry.Direction.TheVariants.{Up, Down};

use crate::entry::{BySecond, Direction, End, Entry, IN, OPEN, Row};
use crate::handle::{CTable, put, take};
use crate::table::Table;
use iddqd::item_index::ItemIndex;
use iddqd_by_order::ordered_walk::Range;
use iddqd_codes::{HANDLE, MISSING, OK};
use iddqd_ord_map::in_order::InOrder;
use std::alloc::Global;
use std::ops::Bound;

/// Writes the rows of the items between two ends, in the order of their second keys and then of their indexes, until
/// the buffer is full; and how many these are.
///
/// It costs a search for each end that there is, and a step for each item with the second key of the lower end that
/// lies before it.
#[unsafe(no_mangle)]
pub extern "C" fn iddqd_keyed_range(
    t: &mut CTable,
    alloc: Global,
    from: &End,
    to: &End,
    rows: &mut [Row],
    count: &mut usize,
) -> u32
    ensures writes { ReadsKeyed (WritesRange Up from.now to.now result count.new rows.old rows.new)
        t.old.handle.value result }
    ensures same { t.new.handle.value ≡ t.old.handle.value }
    ensures state { t.new.state ≡ t.old.state }
    ensures closed { t.old.state ≢ 1 → t.new ≡ t.old }
    ensures kept { result ≢ OK → (rows.new ≡ rows.old) × (count.new ≡ count.old) }
{
    if t.state != 1 {
        return HANDLE;
    }
    let table = take(t, alloc);
    let answer = range(table.as_ref(), Direction::Up, from, to, rows, count);
    put(t, table);
    answer
}

/// Writes the rows of the items between two ends as `iddqd_keyed_range` does, in the other direction: from the upper
/// end on.
#[unsafe(no_mangle)]
pub extern "C" fn iddqd_keyed_range_down(
    t: &mut CTable,
    alloc: Global,
    from: &End,
    to: &End,
    rows: &mut [Row],
    count: &mut usize,
) -> u32
    ensures writes { ReadsKeyed (WritesRange Down from.now to.now result count.new rows.old rows.new)
        t.old.handle.value result }
    ensures same { t.new.handle.value ≡ t.old.handle.value }
    ensures state { t.new.state ≡ t.old.state }
    ensures closed { t.old.state ≢ 1 → t.new ≡ t.old }
    ensures kept { result ≢ OK → (rows.new ≡ rows.old) × (count.new ≡ count.old) }
{
    if t.state != 1 {
        return HANDLE;
    }
    let table = take(t, alloc);
    let answer = range(table.as_ref(), Direction::Down, from, to, rows, count);
    put(t, table);
    answer
}

/// Writes the rows of the items that have a second key and an index that is at least `index`, in the order of their
/// indexes, until the buffer is full; and how many these are.
///
/// It costs two searches, and a step for each item with that second key and a lesser index.
#[unsafe(no_mangle)]
pub extern "C" fn iddqd_keyed_group(
    t: &mut CTable,
    alloc: Global,
    second: u64,
    index: u32,
    rows: &mut [Row],
    count: &mut usize,
) -> u32
    ensures writes { ReadsKeyed (WritesRange Up (starts_at second index) (ends_behind second) result count.new
        rows.old rows.new) t.old.handle.value result }
    ensures same { t.new.handle.value ≡ t.old.handle.value }
    ensures state { t.new.state ≡ t.old.state }
    ensures closed { t.old.state ≢ 1 → t.new ≡ t.old }
    ensures kept { result ≢ OK → (rows.new ≡ rows.old) × (count.new ≡ count.old) }
{
    if t.state != 1 {
        return HANDLE;
    }
    let from = End {
        second,
        index,
        side: IN,
    };
    let to = End {
        second,
        index: ItemIndex::SENTINEL.as_u32(),
        side: IN,
    };
    let table = take(t, alloc);
    let answer = range(table.as_ref(), Direction::Up, &from, &to, rows, count);
    put(t, table);
    answer
}

fn range(
    table: &Table,
    direction: Direction,
    from: &End,
    to: &End,
    rows: &mut [Row],
    count: &mut usize,
) -> u32
    ensures writes { ReadsKeyed (WritesRange direction from.now to.now result count.new rows.old rows.new)
        (Some table.now) result }
    ensures kept { result ≢ OK → (rows.new ≡ rows.old) × (count.new ≡ count.old) }
{
    match table {
        Table::Unique(keyed) => {
            let range = keyed
                .entries
                .range_by::<BySecond, _, _>((bound(from), bound(to)));
            *count = fill(range, direction, from, to, rows);
            OK
        }
        Table::Shared(keyed) => {
            let range = keyed
                .entries
                .range_by::<BySecond, _, _>((bound(from), bound(to)));
            *count = fill(range, direction, from, to, rows);
            OK
        }
        Table::Index(_) | Table::Layer(_) => HANDLE,
    }
}

// What an end says of second keys alone.
fn bound(end: &End) -> Bound<&u64>
    ensures { bound_map (λ second. second.now) result ≡ bound_of end.now }
{
    if end.side == OPEN {
        Bound::Unbounded
    } else {
        Bound::Included(&end.second)
    }
}

// Writes the rows of the first entries of a range that lie between the ends, as many as there is room for, and returns
// how many these are.
fn fill(
    mut range: Range<'_, Entry>,
    direction: Direction,
    from: &End,
    to: &End,
    rows: &mut [Row],
) -> usize
    ensures { FillsRows (filter (lies_between from.now to.now) (along direction range.entry)) result rows.old
        rows.new }
{
    for at in 0..rows.len() {
        match next_between(&mut range, direction, from, to) {
            Some(next) => rows[at] = Row::of(next.0, next.1),
            None => return at,
        }
    }
    rows.len()
}

// The next entry of a range that lies between the ends.
fn next_between<'a>(
    range: &mut Range<'a, Entry>,
    direction: Direction,
    from: &End,
    to: &End,
) -> Option<(ItemIndex, &'a Entry)>
    ensures next { IfSome result (λ next. filter (lies_between from.now to.now) (along direction range.old)
        ≡ (next.0, next.1.now) ∷ filter (lies_between from.now to.now) (along direction range.new)) }
    ensures none { IfNone result (filter (lies_between from.now to.now) (along direction range.old) ≡ []) }
{
    'passing: while let Some((ix, entry)) = step(range, direction) {
        if lies_between(ix, entry, from, to) {
            return Some((ix, entry));
        }
    }
    None
}

// The next entry of a range in a direction.
fn step<'a>(range: &mut Range<'a, Entry>, direction: Direction) -> Option<(ItemIndex, &'a Entry)>
    ensures next { IfSome result (λ next. along direction range.old
        ≡ (next.0, next.1.now) ∷ along direction range.new) }
    ensures none { IfNone result (along direction range.old ≡ []) }
{
    match direction {
        Direction::Up => range.next(),
        Direction::Down => range.next_back(),
    }
}

// Whether an entry lies between two ends.
fn lies_between(ix: ItemIndex, entry: &Entry, from: &End, to: &End) -> bool
    ensures { result ≡ lies_between from.now to.now (ix, entry.now) }
{
    is_above(from, ix, entry) && is_below(to, ix, entry)
}

// Whether an end lets an entry in, as the lower one of a range.
fn is_above(end: &End, ix: ItemIndex, entry: &Entry) -> bool
    ensures { result ≡ is_above end.now (ix, entry.now) }
{
    end.side == OPEN || lies_behind(end, ix, entry) || end.side == IN && lies_at(end, ix, entry)
}

// Whether an end lets an entry in, as the upper one.
fn is_below(end: &End, ix: ItemIndex, entry: &Entry) -> bool
    ensures { result ≡ is_below end.now (ix, entry.now) }
{
    end.side == OPEN || lies_before(end, ix, entry) || end.side == IN && lies_at(end, ix, entry)
}

// Whether an entry lies before a place, behind it, or at it.
fn lies_before(place: &End, ix: ItemIndex, entry: &Entry) -> bool
    ensures { result ≡ lies_before place.now (ix, entry.now) }
{
    entry.second < place.second || entry.second == place.second && ix.as_u32() < place.index
}

fn lies_behind(place: &End, ix: ItemIndex, entry: &Entry) -> bool
    ensures { result ≡ lies_behind place.now (ix, entry.now) }
{
    place.second < entry.second || entry.second == place.second && place.index < ix.as_u32()
}

fn lies_at(place: &End, ix: ItemIndex, entry: &Entry) -> bool
    ensures { result ≡ lies_at place.now (ix, entry.now) }
{
    entry.second == place.second && ix.as_u32() == place.index
}

/// The row of the first item in the order of second keys and then of indexes.
#[unsafe(no_mangle)]
pub extern "C" fn iddqd_keyed_first(t: &mut CTable, alloc: Global, row: &mut Row) -> u32
    ensures gets { ReadsKeyed (GetsFirst result row.new) t.old.handle.value result }
    ensures same { t.new.handle.value ≡ t.old.handle.value }
    ensures state { t.new.state ≡ t.old.state }
    ensures closed { t.old.state ≢ 1 → t.new ≡ t.old }
    ensures kept { result ≢ OK → row.new ≡ row.old }
{
    if t.state != 1 {
        return HANDLE;
    }
    let table = take(t, alloc);
    let answer = first(table.as_ref(), row);
    put(t, table);
    answer
}

fn first(table: &Table, row: &mut Row) -> u32
    ensures gets { ReadsKeyed (GetsFirst result row.new) (Some table.now) result }
    ensures kept { result ≢ OK → row.new ≡ row.old }
{
    match table {
        Table::Unique(keyed) => match keyed.entries.first_by::<BySecond>() {
            Some(at) => report(at.0, at.1, row),
            None => MISSING,
        },
        Table::Shared(keyed) => match keyed.entries.first_by::<BySecond>() {
            Some(at) => report(at.0, at.1, row),
            None => MISSING,
        },
        Table::Index(_) | Table::Layer(_) => HANDLE,
    }
}

/// The row of the last item in the order of second keys and then of indexes.
#[unsafe(no_mangle)]
pub extern "C" fn iddqd_keyed_last(t: &mut CTable, alloc: Global, row: &mut Row) -> u32
    ensures gets { ReadsKeyed (GetsLast result row.new) t.old.handle.value result }
    ensures same { t.new.handle.value ≡ t.old.handle.value }
    ensures state { t.new.state ≡ t.old.state }
    ensures closed { t.old.state ≢ 1 → t.new ≡ t.old }
    ensures kept { result ≢ OK → row.new ≡ row.old }
{
    if t.state != 1 {
        return HANDLE;
    }
    let table = take(t, alloc);
    let answer = last(table.as_ref(), row);
    put(t, table);
    answer
}

fn last(table: &Table, row: &mut Row) -> u32
    ensures gets { ReadsKeyed (GetsLast result row.new) (Some table.now) result }
    ensures kept { result ≢ OK → row.new ≡ row.old }
{
    match table {
        Table::Unique(keyed) => match keyed.entries.last_by::<BySecond>() {
            Some(at) => report(at.0, at.1, row),
            None => MISSING,
        },
        Table::Shared(keyed) => match keyed.entries.last_by::<BySecond>() {
            Some(at) => report(at.0, at.1, row),
            None => MISSING,
        },
        Table::Index(_) | Table::Layer(_) => HANDLE,
    }
}

// Writes the row of an entry.
fn report(ix: ItemIndex, entry: &Entry, row: &mut Row) -> u32
    ensures done { result ≡ OK }
    ensures row { row.new ≡ row_of ix entry.now }
{
    *row = Row::of(ix, entry);
    OK
}
