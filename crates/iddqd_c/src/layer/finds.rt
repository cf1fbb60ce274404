//! Look-ups in a hashed key of a layer.
ghost use Rattle.std.specs.Prelude.{◌≡◌, ◌≢◌, ◌≤◌, Some, length};
ghost use Rattle.iddqd_codes.specs.declared.TheConstants.{OK};
ghost use Rattle.iddqd_hash.specs.MapHashTable.{filed};
ghost use Rattle.std.specs.FinMap as finite;
ghost use Rattle.iddqd_c.specs.Held.{ReadsLayer};
ghost use Rattle.iddqd_c.specs.Layers.{ListsIndexes, ReadsHashed};

use crate::handle::{CTable, put, take};
use crate::index::write;
use crate::numbers::mix;
use crate::table::Table;
use iddqd::map_hash::MapHash;
use iddqd_codes::{HANDLE, KEY, OK};
use iddqd_hash::hash_table::MapHashTable;
use std::alloc::Global;

/// Writes the indexes under a hash in the table of a hashed key until the buffer is full; and how many there are, also
/// past the buffer.
#[unsafe(no_mangle)]
pub extern "C" fn iddqd_layer_under(
    t: &mut CTable,
    alloc: Global,
    key: u32,
    hash: u64,
    indexes: &mut [u32],
    count: &mut usize,
) -> u32
    ensures lists { ReadsLayer (ReadsHashed (ListsIndexes hash result count.new indexes.old indexes.new) key result)
        t.old.handle.value result }
    ensures same { t.new.handle.value ≡ t.old.handle.value }
    ensures state { t.new.state ≡ t.old.state }
    ensures closed { t.old.state ≢ 1 → t.new ≡ t.old }
    ensures kept { result ≢ OK → (indexes.new ≡ indexes.old) × (count.new ≡ count.old) }
{
    if t.state != 1 {
        return HANDLE;
    }
    let table = take(t, alloc);
    let answer = under(table.as_ref(), key, hash, indexes, count);
    put(t, table);
    answer
}

fn under(table: &Table, key: u32, hash: u64, indexes: &mut [u32], count: &mut usize) -> u32
    ensures lists { ReadsLayer (ReadsHashed (ListsIndexes hash result count.new indexes.old indexes.new) key result)
        (Some table.now) result }
    ensures kept { result ≢ OK → (indexes.new ≡ indexes.old) × (count.new ≡ count.old) }
{
    match table {
        Table::Layer(layer) => match layer.hashed(key as usize) {
            Some(filed) => {
                *count = list(filed, hash, indexes);
                OK
            }
            None => KEY,
        },
        Table::Unique(_) | Table::Shared(_) | Table::Index(_) => HANDLE,
    }
}

// Writes the indexes under a hash as far as the buffer goes, and returns how many there are.
fn list(filed: &MapHashTable, hash: u64, indexes: &mut [u32]) -> usize
    ensures { ListsIndexes hash OK result indexes.old indexes.new filed.now }
{
    let mut found = filed.indexes_under(MapHash::new(mix(hash)));
    for at in 0..filed.len() {
        match found.next() {
            Some(ix) => write(indexes, at, ix.as_u32()),
            None => return at,
        }
    }
    filed.len()
}
