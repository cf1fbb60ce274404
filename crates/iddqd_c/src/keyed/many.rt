//! Look-ups of many second keys in one call.
ghost use Rattle.std.specs.Prelude.{◌≡◌, ◌≢◌, ◌≤◌, Some, length};
ghost use Rattle.iddqd_codes.specs.declared.TheConstants.{OK};
ghost use Rattle.iddqd_c.specs.Entries.{AnswersSecond, FindsMany, FillsAnswers};
ghost use Rattle.iddqd_c.specs.Held.{ReadsKeyed};

use super::finds::find_second;
use crate::entry::Row;
use crate::handle::{CTable, put, take};
use crate::second_key::SecondKey;
use crate::table::{Keyed, Table};
use iddqd_codes::{HANDLE, OK, SMALL};
use std::alloc::Global;

/// Writes for each of the second keys the row that `iddqd_keyed_find2` would, or [`Row::none`] if no item has it. If
/// the buffer has fewer places than there are keys, nothing is done.
#[unsafe(no_mangle)]
pub extern "C" fn iddqd_keyed_find_many(
    t: &mut CTable,
    alloc: Global,
    seconds: &[u64],
    rows: &mut [Row],
) -> u32
    ensures finds { ReadsKeyed (FindsMany seconds.now result rows.old rows.new) t.old.handle.value result }
    ensures same { t.new.handle.value ≡ t.old.handle.value }
    ensures state { t.new.state ≡ t.old.state }
    ensures closed { t.old.state ≢ 1 → t.new ≡ t.old }
    ensures kept { result ≢ OK → rows.new ≡ rows.old }
{
    if t.state != 1 {
        return HANDLE;
    }
    let table = take(t, alloc);
    let answer = find_many(table.as_ref(), seconds, rows);
    put(t, table);
    answer
}

fn find_many(table: &Table, seconds: &[u64], rows: &mut [Row]) -> u32
    ensures finds { ReadsKeyed (FindsMany seconds.now result rows.old rows.new) (Some table.now) result }
    ensures kept { result ≢ OK → rows.new ≡ rows.old }
{
    match table {
        Table::Unique(keyed) => find_all(keyed, seconds, rows),
        Table::Shared(keyed) => find_all(keyed, seconds, rows),
        Table::Index(_) | Table::Layer(_) => HANDLE,
    }
}

fn find_all<B: SecondKey>(keyed: &Keyed<B>, seconds: &[u64], rows: &mut [Row]) -> u32
    ensures finds { FindsMany seconds.now result rows.old rows.new keyed.now.entries }
    ensures kept { result ≢ OK → rows.new ≡ rows.old }
{
    if rows.len() < seconds.len() {
        return SMALL;
    }
    fill(keyed, seconds, rows);
    OK
}

// Writes a row for each of the second keys.
fn fill<B: SecondKey>(keyed: &Keyed<B>, seconds: &[u64], rows: &mut [Row])
    requires { length seconds.now ≤ length rows.old }
    ensures { FillsAnswers (AnswersSecond keyed.now.entries) seconds.now rows.old rows.new }
{
    for at in 0..seconds.len() {
        rows[at] = answer(keyed, seconds[at]);
    }
}

// The row for this second key, or the one for none.
fn answer<B: SecondKey>(keyed: &Keyed<B>, second: u64) -> Row
    ensures { AnswersSecond keyed.now.entries second result }
{
    let mut row = Row::none();
    find_second(keyed, second, &mut row);
    row
}
