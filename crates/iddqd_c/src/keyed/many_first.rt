//! Look-ups of many first keys in one call. They copy no key and take no memory.
ghost use Rattle.std.specs.Prelude.{◌≡◌, ◌≢◌, ◌≤◌, Some, length};
ghost use Rattle.iddqd_codes.specs.declared.TheConstants.{OK};
ghost use Rattle.iddqd_c.specs.Entries.{AnswersFirst, AnswersSpan, FindsManyFirst, FillsAnswers, spans};
ghost use Rattle.iddqd_c.specs.Held.{ReadsKeyed};

use super::finds::find_first;
use crate::entry::{Entry, Row};
use crate::handle::{CTable, put, take};
use crate::table::{Keyed, Table};
use iddqd_codes::{HANDLE, OK, SMALL};
use iddqd_map::key_index::KeyIndex;
use std::alloc::Global;
use std::hash::RandomState;

/// Writes for each of the first keys the row of its item, or [`Row::none`] if no item has it. The bytes of the keys
/// stand one after the other: a key begins where the one before it ends, and the first at 0. A key whose end lies
/// before its start or past the bytes is answered as missing. If the buffer has fewer places than there are keys,
/// nothing is done.
#[unsafe(no_mangle)]
pub extern "C" fn iddqd_keyed_find_many1(
    t: &mut CTable,
    alloc: Global,
    bytes: &[u8],
    ends: &[usize],
    rows: &mut [Row],
) -> u32
    ensures finds { ReadsKeyed (FindsManyFirst bytes.now ends.now result rows.old rows.new)
        t.old.handle.value result }
    ensures same { t.new.handle.value ≡ t.old.handle.value }
    ensures state { t.new.state ≡ t.old.state }
    ensures closed { t.old.state ≢ 1 → t.new ≡ t.old }
    ensures kept { result ≢ OK → rows.new ≡ rows.old }
{
    if t.state != 1 {
        return HANDLE;
    }
    let table = take(t, alloc);
    let answer = find_many(table.as_ref(), bytes, ends, rows);
    put(t, table);
    answer
}

fn find_many(table: &Table, bytes: &[u8], ends: &[usize], rows: &mut [Row]) -> u32
    ensures finds { ReadsKeyed (FindsManyFirst bytes.now ends.now result rows.old rows.new) (Some table.now)
        result }
    ensures kept { result ≢ OK → rows.new ≡ rows.old }
{
    match table {
        Table::Unique(keyed) => find_all(keyed, bytes, ends, rows),
        Table::Shared(keyed) => find_all(keyed, bytes, ends, rows),
        Table::Index(_) | Table::Layer(_) => HANDLE,
    }
}

fn find_all<B>(keyed: &Keyed<B>, bytes: &[u8], ends: &[usize], rows: &mut [Row]) -> u32
where
    B: KeyIndex<Entry, RandomState>,
    ensures finds { FindsManyFirst bytes.now ends.now result rows.old rows.new keyed.now.entries }
    ensures kept { result ≢ OK → rows.new ≡ rows.old }
{
    if rows.len() < ends.len() {
        return SMALL;
    }
    fill(keyed, bytes, ends, rows);
    OK
}

// Writes a row for each of the keys that end at these offsets.
fn fill<B>(keyed: &Keyed<B>, bytes: &[u8], ends: &[usize], rows: &mut [Row])
where
    B: KeyIndex<Entry, RandomState>,
    requires { length ends.now ≤ length rows.old }
    ensures { FillsAnswers (AnswersSpan keyed.now.entries bytes.now) (spans ends.now) rows.old rows.new }
{
    let mut start = 0;
    for at in 0..ends.len() {
        let end = ends[at];
        rows[at] = answer(keyed, bytes, start, end);
        start = end;
    }
}

// The row of the item with the first key in this span, or the one for none.
fn answer<B>(keyed: &Keyed<B>, bytes: &[u8], start: usize, end: usize) -> Row
where
    B: KeyIndex<Entry, RandomState>,
    ensures { AnswersSpan keyed.now.entries bytes.now (start, end) result }
{
    if start <= end && end <= bytes.len() {
        find(keyed, &bytes[start..end])
    } else {
        Row::none()
    }
}

// The row of the item whose first key has these bytes, or the one for none.
fn find<B: KeyIndex<Entry, RandomState>>(keyed: &Keyed<B>, key: &[u8]) -> Row
    ensures { AnswersFirst keyed.now.entries key.now result }
{
    let mut row = Row::none();
    find_first(keyed, key, &mut row);
    row
}
