//! Compaction of a layer: afterwards no slot is vacant.
ghost use Rattle.std.specs.Prelude.{◌≡◌, ◌≢◌, Some};
ghost use Rattle.iddqd_codes.specs.declared.TheConstants.{OK, SMALL};
ghost use Rattle.iddqd_c.specs.Held.{ChangesLayer};
ghost use Rattle.iddqd_c.specs.Layers.{CompactsLayer};

use crate::handle::{CTable, put, take};
use crate::keyed::compaction::write_all;
use crate::table::Table;
use iddqd_codes::{HANDLE, MEMORY, OK, SMALL};
use iddqd_layer::layer::Layer;
use std::alloc::{AllocError, Global};

/// Gives each live index its rank as its new name, so that no slot is vacant, and writes the new index of each old slot
/// to the buffer, `SENTINEL` for a vacant one; and how many slots there were. If the buffer has fewer places than there
/// are slots, it writes their number alone.
#[unsafe(no_mangle)]
pub extern "C" fn iddqd_layer_compact(
    t: &mut CTable,
    alloc: Global,
    indexes: &mut [u32],
    count: &mut usize,
) -> u32
    ensures compacts { ChangesLayer (CompactsLayer result count.new indexes.old indexes.new)
        t.old.handle.value result t.new.handle.value }
    ensures state { t.new.state ≡ t.old.state }
    ensures closed { t.old.state ≢ 1 → t.new ≡ t.old }
    ensures indexes_kept { result ≢ OK → indexes.new ≡ indexes.old }
    ensures count_kept { result ≢ OK → result ≢ SMALL → count.new ≡ count.old }
{
    if t.state != 1 {
        return HANDLE;
    }
    let mut table = take(t, alloc);
    let answer = compact(table.as_mut(), indexes, count);
    put(t, table);
    answer
}

fn compact(table: &mut Table, indexes: &mut [u32], count: &mut usize) -> u32
    ensures compacts { ChangesLayer (CompactsLayer result count.new indexes.old indexes.new)
        (Some table.old) result (Some table.new) }
    ensures indexes_kept { result ≢ OK → indexes.new ≡ indexes.old }
    ensures count_kept { result ≢ OK → result ≢ SMALL → count.new ≡ count.old }
{
    match table {
        Table::Layer(layer) => close_up(layer, indexes, count),
        Table::Unique(_) | Table::Shared(_) | Table::Index(_) => HANDLE,
    }
}

fn close_up(layer: &mut Layer, indexes: &mut [u32], count: &mut usize) -> u32
    ensures compacts { CompactsLayer result count.new indexes.old indexes.new layer.old layer.new }
    ensures indexes_kept { result ≢ OK → indexes.new ≡ indexes.old }
    ensures count_kept { result ≢ OK → result ≢ SMALL → count.new ≡ count.old }
{
    let _live = layer.len();
    let slots = layer.slots();
    if indexes.len() < slots {
        *count = slots;
        return SMALL;
    }
    match layer.compact() {
        Ok(remap) => {
            *count = slots;
            write_all(&remap, slots, indexes);
            OK
        }
        Err(AllocError) => MEMORY,
    }
}
