//! The check that look-ups find what the table holds.
ghost use Rattle.std.specs.Prelude.{◌≡◌, ◌≢◌, Some};
ghost use Rattle.iddqd_c.specs.Entries.{SaysSound};
ghost use Rattle.iddqd_c.specs.Held.{ReadsEach};

use crate::entry::Entry;
use crate::handle::{CTable, put, take};
use crate::second_key::SecondKey;
use crate::table::{Keyed, Table};
use iddqd::internal::{ValidateCompact, ValidateRefusal};
use iddqd_codes::{HANDLE, MEMORY, OK, UNSOUND};
use iddqd_map::key_index::Upkeep;
use std::alloc::Global;
use std::hash::RandomState;

/// Whether each item is found by both of its keys, and no two items share a key that is unique. It takes memory, and
/// time as sorting does.
///
/// Every table is sound whose memory nothing else has written to, so `UNSOUND` is never returned where the duties of
/// the header are kept.
#[unsafe(no_mangle)]
pub extern "C" fn iddqd_keyed_validate(t: &mut CTable, alloc: Global) -> u32
    ensures says { ReadsEach (λ taken. SaysSound taken result) t.old.handle.value result }
    ensures same { t.new.handle.value ≡ t.old.handle.value }
    ensures state { t.new.state ≡ t.old.state }
    ensures closed { t.old.state ≢ 1 → t.new ≡ t.old }
{
    if t.state != 1 {
        return HANDLE;
    }
    let table = take(t, alloc);
    let answer = validate(table.as_ref());
    put(t, table);
    answer
}

fn validate(table: &Table) -> u32
    ensures says { ReadsEach (λ taken. SaysSound taken result) (Some table.now) result }
{
    match table {
        Table::Unique(keyed) => check(keyed),
        Table::Shared(keyed) => check(keyed),
        Table::Index(_) | Table::Layer(_) => HANDLE,
    }
}

fn check<B: SecondKey + Upkeep<Entry, RandomState>>(keyed: &Keyed<B>) -> u32
    ensures { SaysSound B.taken result keyed.now.entries }
{
    // Its contract has what every map keeps, which that of the check lacks.
    let _count = keyed.entries.len();
    match keyed.entries.validate(ValidateCompact::NonCompact) {
        Ok(()) => OK,
        Err(ValidateRefusal::Invalid(_)) => UNSOUND,
        Err(ValidateRefusal::Memory(_)) => MEMORY,
    }
}
