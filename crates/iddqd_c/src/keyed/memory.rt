//! Memory that is taken before it is needed.
ghost use Rattle.std.specs.Prelude.{◌≡◌, ◌≢◌, ◌+◌, Some};
ghost use Rattle.iddqd_codes.specs.declared.TheConstants.{OK};
ghost use Rattle.iddqd_hash.specs.Sizes.{most_cells};
ghost use Rattle.iddqd_c.specs.Entries.{CountsRoom, Reserves, ReservesCells};
ghost use Rattle.iddqd_c.specs.Held.{ChangesKeyed, ReadsKeyed};

use crate::entry::Entry;
use crate::handle::{CTable, put, take};
use crate::table::{Keyed, Table};
use iddqd_codes::{HANDLE, MEMORY, OK};
use iddqd_map::key_index::Upkeep;
use std::alloc::{AllocError, Global};
use std::hash::RandomState;

/// Makes room in the table for so many more items, or for as many as there can be. Memory for their first keys isn't
/// taken.
#[unsafe(no_mangle)]
pub extern "C" fn iddqd_keyed_reserve(t: &mut CTable, alloc: Global, additional: usize) -> u32
    ensures reserves { ChangesKeyed (Reserves additional result) t.old.handle.value result t.new.handle.value }
    ensures state { t.new.state ≡ t.old.state }
    ensures closed { t.old.state ≢ 1 → t.new ≡ t.old }
{
    if t.state != 1 {
        return HANDLE;
    }
    let mut table = take(t, alloc);
    let answer = reserve(table.as_mut(), additional);
    put(t, table);
    answer
}

fn reserve(table: &mut Table, additional: usize) -> u32
    ensures reserves { ChangesKeyed (Reserves additional result) (Some table.old) result (Some table.new) }
{
    match table {
        Table::Unique(keyed) => reserve_for(keyed, additional),
        Table::Shared(keyed) => reserve_for(keyed, additional),
        Table::Index(_) | Table::Layer(_) => HANDLE,
    }
}

fn reserve_for<B: Upkeep<Entry, RandomState>>(keyed: &mut Keyed<B>, additional: usize) -> u32
    ensures { ReservesCells (λ count. most_cells count + B.most count) additional result keyed.old.entries
        keyed.new.entries }
{
    match keyed.entries.reserve(additional) {
        Ok(()) => OK,
        Err(AllocError) => MEMORY,
    }
}

/// How many inserts the table needs no memory for. The copy of a first key needs some in any case.
#[unsafe(no_mangle)]
pub extern "C" fn iddqd_keyed_room(t: &mut CTable, alloc: Global, count: &mut usize) -> u32
    ensures counts { ReadsKeyed (CountsRoom result count.new) t.old.handle.value result }
    ensures same { t.new.handle.value ≡ t.old.handle.value }
    ensures state { t.new.state ≡ t.old.state }
    ensures closed { t.old.state ≢ 1 → t.new ≡ t.old }
    ensures kept { result ≢ OK → count.new ≡ count.old }
{
    if t.state != 1 {
        return HANDLE;
    }
    let table = take(t, alloc);
    let answer = room(table.as_ref(), count);
    put(t, table);
    answer
}

fn room(table: &Table, count: &mut usize) -> u32
    ensures counts { ReadsKeyed (CountsRoom result count.new) (Some table.now) result }
    ensures kept { result ≢ OK → count.new ≡ count.old }
{
    match table {
        Table::Unique(keyed) => {
            *count = keyed.entries.room();
            OK
        }
        Table::Shared(keyed) => {
            *count = keyed.entries.room();
            OK
        }
        Table::Index(_) | Table::Layer(_) => HANDLE,
    }
}
