//! Changes of values. They hash and compare no key, and take no memory.
ghost use Rattle.std.specs.Prelude.{◌≡◌, ◌≢◌, Some};
ghost use Rattle.iddqd_c.specs.Entries.{SetsValue, with_value};
ghost use Rattle.iddqd_c.specs.Held.{ChangesKeyed};

use crate::entry::Entry;
use crate::handle::{CTable, put, take};
use crate::second_key::SecondKey;
use crate::table::{Keyed, Table};
use iddqd::item_index::ItemIndex;
use iddqd_codes::{HANDLE, MISSING, OK};
use iddqd_map::key_index::IndexLaws;
use std::alloc::Global;
use std::hash::RandomState;

/// Sets the value of the item at an index.
#[unsafe(no_mangle)]
pub extern "C" fn iddqd_keyed_set_value(
    t: &mut CTable,
    alloc: Global,
    index: u32,
    value: u64,
) -> u32
    ensures sets { ChangesKeyed (SetsValue index value result) t.old.handle.value result t.new.handle.value }
    ensures state { t.new.state ≡ t.old.state }
    ensures closed { t.old.state ≢ 1 → t.new ≡ t.old }
{
    if t.state != 1 {
        return HANDLE;
    }
    let mut table = take(t, alloc);
    let answer = set_value(table.as_mut(), index, value);
    put(t, table);
    answer
}

fn set_value(table: &mut Table, index: u32, value: u64) -> u32
    ensures sets { ChangesKeyed (SetsValue index value result) (Some table.old) result (Some table.new) }
{
    match table {
        Table::Unique(keyed) => set(keyed, ItemIndex::new(index), value),
        Table::Shared(keyed) => set(keyed, ItemIndex::new(index), value),
        Table::Index(_) | Table::Layer(_) => HANDLE,
    }
}

fn set<B: SecondKey + IndexLaws<Entry, RandomState>>(
    keyed: &mut Keyed<B>,
    ix: ItemIndex,
    value: u64,
) -> u32
    ensures { SetsValue ix value result keyed.old.entries keyed.new.entries }
{
    let change = |entry: &mut Entry|
        ensures { entry.new ≡ with_value entry.old value }
    { entry.value = value };
    match keyed.entries.modify_at(ix, change) {
        Some(()) => OK,
        None => MISSING,
    }
}
