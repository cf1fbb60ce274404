//! Compaction: afterwards no slot is vacant.
ghost use Rattle.std.specs.Prelude.{◌≡◌, ◌≢◌, ◌≤◌, ◌++◌, Some, length, map, drop};
ghost use Rattle.iddqd.specs.{numbers, slot_limit};
ghost use Rattle.iddqd_codes.specs.declared.TheConstants.{OK, SMALL};
ghost use Rattle.iddqd_c.specs.Compacting.{CompactsInto, name_in};
ghost use Rattle.iddqd_c.specs.Held.{ChangesKeyed};

use crate::entry::Entry;
use crate::handle::{CTable, put, take};
use crate::table::{Keyed, Table};
use iddqd::index_remap::IndexRemap;
use iddqd::item_index::ItemIndex;
use iddqd_codes::{HANDLE, MEMORY, OK, SMALL};
use iddqd_map::key_index::Upkeep;
use std::alloc::{AllocError, Global};
use std::hash::RandomState;

/// Moves every item down to its rank, so that no slot is vacant, and writes the new index of each old slot to the
/// buffer, `SENTINEL` for a vacant one; and how many slots there were. If the buffer has fewer places than there are
/// slots, it writes their number alone.
#[unsafe(no_mangle)]
pub extern "C" fn iddqd_keyed_compact(
    t: &mut CTable,
    alloc: Global,
    indexes: &mut [u32],
    count: &mut usize,
) -> u32
    ensures compacts { ChangesKeyed (CompactsInto result count.new indexes.old indexes.new)
        t.old.handle.value result t.new.handle.value }
    ensures state { t.new.state ≡ t.old.state }
    ensures closed { t.old.state ≢ 1 → t.new ≡ t.old }
    ensures indexes_kept { result ≢ OK → indexes.new ≡ indexes.old }
    ensures count_kept { result ≢ OK → result ≢ SMALL → count.new ≡ count.old }
{
    if t.state != 1 {
        return HANDLE;
    }
    let mut table = take(t, alloc);
    let answer = compact(table.as_mut(), indexes, count);
    put(t, table);
    answer
}

fn compact(table: &mut Table, indexes: &mut [u32], count: &mut usize) -> u32
    ensures compacts { ChangesKeyed (CompactsInto result count.new indexes.old indexes.new)
        (Some table.old) result (Some table.new) }
    ensures indexes_kept { result ≢ OK → indexes.new ≡ indexes.old }
    ensures count_kept { result ≢ OK → result ≢ SMALL → count.new ≡ count.old }
{
    match table {
        Table::Unique(keyed) => close_up(keyed, indexes, count),
        Table::Shared(keyed) => close_up(keyed, indexes, count),
        Table::Index(_) | Table::Layer(_) => HANDLE,
    }
}

// The compaction of entries whose second keys go by `B`.
fn close_up<B>(keyed: &mut Keyed<B>, indexes: &mut [u32], count: &mut usize) -> u32
where
    B: Upkeep<Entry, RandomState>,
    ensures compacts { CompactsInto result count.new indexes.old indexes.new keyed.old.entries keyed.new.entries }
    ensures indexes_kept { result ≢ OK → indexes.new ≡ indexes.old }
    ensures count_kept { result ≢ OK → result ≢ SMALL → count.new ≡ count.old }
{
    let slots = keyed.entries.parts().items.slot_count();
    if indexes.len() < slots {
        *count = slots;
        return SMALL;
    }
    match keyed.entries.compact() {
        Ok(remap) => {
            *count = slots;
            write_all(&remap, slots, indexes);
            OK
        }
        Err(AllocError) => MEMORY,
    }
}

// Writes the new index of each of the first slots.
pub(crate) fn write_all(remap: &IndexRemap, slots: usize, indexes: &mut [u32])
    requires fits { slots ≤ length indexes.old }
    requires few { slots ≤ slot_limit }
    ensures { indexes.new ≡ map (name_in remap.now) (numbers slots) ++ drop slots indexes.old }
{
    for at in 0..slots {
        indexes[at] = new_index(remap, at as u32);
    }
}

// The new index of a slot, `SENTINEL` for one that isn't listed.
fn new_index(remap: &IndexRemap, slot: u32) -> u32
    ensures { result ≡ name_in remap.now slot }
{
    match remap {
        IndexRemap::Identity => slot,
        IndexRemap::Permuted(names) => match names.get(slot as usize) {
            Some(name) => name.as_u32(),
            None => ItemIndex::SENTINEL.as_u32(),
        },
    }
}
