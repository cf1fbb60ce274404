//! Items under two keys, for C: bytes that are looked up by their hash, and a number that is looked up by its order.
//!
//! A table of either kind is a map of the items: with unique second keys, or with second keys that several items may
//! share. Each function serves both. The one that C calls takes the table out of its handle and puts it back; the one
//! behind it finds out the kind; and the one behind that is generic over the key index of the second keys. Every answer
//! is that of a scan of all items, by the invariant of the map.
ghost use Rattle.std.specs.Prelude.{◌≡◌, ◌≢◌, ◌⊎◌, ◌↔◌, Some};
ghost use Rattle.iddqd_map.specs.Map.{empty_map};
ghost use Rattle.iddqd_codes.specs.declared.TheConstants.{OK, MEMORY, HANDLE};
ghost use Rattle.iddqd_c.specs.Entries.{Clears, Counts};
ghost use Rattle.iddqd_c.specs.Held.{ReadsKeyed, ChangesKeyed, HoldsShared, HoldsUnique};

mod bytes;
pub(crate) mod compaction;
pub(crate) mod finds;
mod groups;
pub(crate) mod inserts;
mod many;
mod many_first;
mod memory;
mod ranges;
mod removes;
mod replaces;
mod validation;
mod values;

use crate::entry::Entry;
use crate::handle::{CTable, make, put, take};
use crate::table::{Keyed, Table};
use iddqd_byte_keys::Seed;
use iddqd_codes::{HANDLE, MEMORY, OK};
use iddqd_map::key_index::Upkeep;
use iddqd_map::map::Map;
use std::alloc::Global;
use std::hash::RandomState;

/// Makes an empty table of items with unique second keys, where the handle is zero.
///
/// The seed is 16 bytes that nobody who picks keys knows, as two numbers. It decides nothing but time: with a seed that
/// is known, keys can be chosen so that each look-up passes all of them.
#[unsafe(no_mangle)]
pub extern "C" fn iddqd_keyed_new(t: &mut CTable, alloc: Global, seed1: u64, seed2: u64) -> u32
    ensures codes { (result ≡ OK) ⊎ (result ≡ MEMORY) ⊎ (result ≡ HANDLE) }
    ensures handle { (result ≡ HANDLE) ↔ (t.old.state ≢ 0) }
    ensures made { result ≡ OK → HoldsUnique (λ m. m ≡ empty_map u32.MAX) t.new.handle.value }
    ensures open { result ≡ OK → t.new.state ≡ 1 }
    ensures kept { result ≢ OK → t.new ≡ t.old }
{
    let Ok(hasher) = RandomState::new(&Seed { seed1, seed2 }) else {
        return if t.state == 0 { MEMORY } else { HANDLE };
    };
    let entries = Map::with_hasher(alloc, hasher);
    make(t, alloc, Table::Unique(Keyed::of(entries)))
}

/// Makes an empty table of items that may share their second keys; otherwise as `iddqd_keyed_new`.
#[unsafe(no_mangle)]
pub extern "C" fn iddqd_keyed_new_shared(
    t: &mut CTable,
    alloc: Global,
    seed1: u64,
    seed2: u64,
) -> u32
    ensures codes { (result ≡ OK) ⊎ (result ≡ MEMORY) ⊎ (result ≡ HANDLE) }
    ensures handle { (result ≡ HANDLE) ↔ (t.old.state ≢ 0) }
    ensures made { result ≡ OK → HoldsShared (λ m. m ≡ empty_map u32.MAX) t.new.handle.value }
    ensures open { result ≡ OK → t.new.state ≡ 1 }
    ensures kept { result ≢ OK → t.new ≡ t.old }
{
    let Ok(hasher) = RandomState::new(&Seed { seed1, seed2 }) else {
        return if t.state == 0 { MEMORY } else { HANDLE };
    };
    let entries = Map::with_hasher(alloc, hasher);
    make(t, alloc, Table::Shared(Keyed::of(entries)))
}

/// The number of items.
#[unsafe(no_mangle)]
pub extern "C" fn iddqd_keyed_len(t: &mut CTable, alloc: Global, count: &mut usize) -> u32
    ensures counts { ReadsKeyed (Counts result count.new) t.old.handle.value result }
    ensures same { t.new.handle.value ≡ t.old.handle.value }
    ensures state { t.new.state ≡ t.old.state }
    ensures closed { t.old.state ≢ 1 → t.new ≡ t.old }
    ensures kept { result ≢ OK → count.new ≡ count.old }
{
    if t.state != 1 {
        return HANDLE;
    }
    let table = take(t, alloc);
    let answer = len(table.as_ref(), count);
    put(t, table);
    answer
}

fn len(table: &Table, count: &mut usize) -> u32
    ensures counts { ReadsKeyed (Counts result count.new) (Some table.now) result }
    ensures kept { result ≢ OK → count.new ≡ count.old }
{
    match table {
        Table::Unique(keyed) => {
            *count = keyed.entries.len();
            OK
        }
        Table::Shared(keyed) => {
            *count = keyed.entries.len();
            OK
        }
        Table::Index(_) | Table::Layer(_) => HANDLE,
    }
}

/// Forgets all items, so that the next index is 0. The memory stays.
#[unsafe(no_mangle)]
pub extern "C" fn iddqd_keyed_clear(t: &mut CTable, alloc: Global) -> u32
    ensures clears { ChangesKeyed (Clears result) t.old.handle.value result t.new.handle.value }
    ensures state { t.new.state ≡ t.old.state }
    ensures closed { t.old.state ≢ 1 → t.new ≡ t.old }
{
    if t.state != 1 {
        return HANDLE;
    }
    let mut table = take(t, alloc);
    let answer = clear(table.as_mut());
    put(t, table);
    answer
}

fn clear(table: &mut Table) -> u32
    ensures clears { ChangesKeyed (Clears result) (Some table.old) result (Some table.new) }
{
    match table {
        Table::Unique(keyed) => clear_entries(keyed),
        Table::Shared(keyed) => clear_entries(keyed),
        Table::Index(_) | Table::Layer(_) => HANDLE,
    }
}

fn clear_entries<B: Upkeep<Entry, RandomState>>(keyed: &mut Keyed<B>) -> u32
    ensures { Clears result keyed.old.entries keyed.new.entries }
{
    keyed.entries.clear();
    OK
}
