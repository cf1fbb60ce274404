//! The first keys, by buffers.
ghost use Rattle.std.specs.Prelude.{◌≡◌, ◌≢◌, Some};
ghost use Rattle.iddqd_codes.specs.declared.TheConstants.{OK, SMALL};
ghost use Rattle.iddqd_c.specs.Entries.{WritesKey};
ghost use Rattle.iddqd_c.specs.Held.{ReadsKeyed};
ghost use Rattle.iddqd_c.specs.Rows.{CopiesBytes};

use crate::entry::Entry;
use crate::handle::{CTable, put, take};
use crate::table::{Keyed, Table};
use iddqd::item_index::ItemIndex;
use iddqd_codes::{HANDLE, MISSING, OK, SMALL};
use iddqd_map::key_index::KeyIndex;
use std::alloc::Global;
use std::hash::RandomState;

/// Writes the first key of the item at an index to the buffer, and how many bytes it has. If the buffer is too short,
/// it writes the number alone.
#[unsafe(no_mangle)]
pub extern "C" fn iddqd_keyed_key(
    t: &mut CTable,
    alloc: Global,
    index: u32,
    key: &mut [u8],
    len: &mut usize,
) -> u32
    ensures writes { ReadsKeyed (WritesKey index result len.new key.old key.new) t.old.handle.value result }
    ensures same { t.new.handle.value ≡ t.old.handle.value }
    ensures state { t.new.state ≡ t.old.state }
    ensures closed { t.old.state ≢ 1 → t.new ≡ t.old }
    ensures key_kept { result ≢ OK → key.new ≡ key.old }
    ensures len_kept { result ≢ OK → result ≢ SMALL → len.new ≡ len.old }
{
    if t.state != 1 {
        return HANDLE;
    }
    let table = take(t, alloc);
    let answer = key_at(table.as_ref(), index, key, len);
    put(t, table);
    answer
}

fn key_at(table: &Table, index: u32, key: &mut [u8], len: &mut usize) -> u32
    ensures writes { ReadsKeyed (WritesKey index result len.new key.old key.new) (Some table.now) result }
    ensures key_kept { result ≢ OK → key.new ≡ key.old }
    ensures len_kept { result ≢ OK → result ≢ SMALL → len.new ≡ len.old }
{
    match table {
        Table::Unique(keyed) => write(keyed, ItemIndex::new(index), key, len),
        Table::Shared(keyed) => write(keyed, ItemIndex::new(index), key, len),
        Table::Index(_) | Table::Layer(_) => HANDLE,
    }
}

fn write<B>(keyed: &Keyed<B>, ix: ItemIndex, key: &mut [u8], len: &mut usize) -> u32
where
    B: KeyIndex<Entry, RandomState>,
    ensures writes { WritesKey ix result len.new key.old key.new keyed.now.entries }
    ensures key_kept { result ≢ OK → key.new ≡ key.old }
    ensures len_kept { result ≢ OK → result ≢ SMALL → len.new ≡ len.old }
{
    match keyed.entries.get_at(ix) {
        Some(entry) => copy(entry.first.bytes.as_slice(), key, len),
        None => MISSING,
    }
}

// Copies bytes to the start of a buffer, if it has places for all of them, and writes how many they are.
fn copy(bytes: &[u8], key: &mut [u8], len: &mut usize) -> u32
    ensures copies { CopiesBytes bytes.now result len.new key.old key.new }
    ensures key_kept { result ≢ OK → key.new ≡ key.old }
    ensures len_kept { result ≢ OK → result ≢ SMALL → len.new ≡ len.old }
{
    *len = bytes.len();
    if bytes.len() > key.len() {
        return SMALL;
    }
    key[..bytes.len()].copy_from_slice(bytes);
    OK
}
