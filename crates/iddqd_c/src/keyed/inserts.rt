//! The insert.
//!
//! It copies the first key and then inserts, so that each key is hashed once and looked up once. If there is no memory
//! for the copy, it looks both keys up to find out why the item can't be inserted. So a duplicate and a full table are
//! reported where there is no memory, too.
ghost use Rattle.std.specs.Prelude.{◌≡◌, ◌≢◌, ◌↔◌, Some, IsSome, true};
ghost use Rattle.iddqd.specs.Store.{IsFull, Store};
ghost use Rattle.iddqd_keys.specs.Scan.{AnswersScan};
ghost use Rattle.iddqd_map.specs.PairConflict.{Reports, second_of};
ghost use Rattle.iddqd_codes.specs.declared.TheConstants.{OK, DUPLICATE};
ghost use Rattle.iddqd_c.specs.Entries.{InsertsAt, RefusesAt, SaysRefusal, TakesMemory};
ghost use Rattle.iddqd_c.specs.Held.{ChangesEach, ChangesKeyed};
ghost use Rattle.iddqd_c.specs.Rows.{number_of};
ghost use Rattle.iddqd_c.specs.declared.entry.Entry.{Entry};

use crate::entry::{ByFirst, Conflict, Entry};
use crate::handle::{CTable, put, take};
use crate::second_key::SecondKey;
use crate::table::{Keyed, Table};
use iddqd::item_index::ItemIndex;
use iddqd_byte_keys::{ByteKey, ByteKeyQuery};
use iddqd_codes::{DUPLICATE, FULL, HANDLE, MEMORY, OK};
use iddqd_map::key_index::IndexLaws;
use iddqd_map::pair_conflict::PairConflict;
use iddqd_map::refusal::InsertRefusal;
use std::alloc::Global;
use std::hash::RandomState;

/// Inserts an item with a copy of the key, if no item stands in its way, and writes its index. For a duplicate it
/// writes the indexes of the items that stand in its way.
#[unsafe(no_mangle)]
pub extern "C" fn iddqd_keyed_insert(
    t: &mut CTable,
    alloc: Global,
    key: &[u8],
    second: u64,
    value: u64,
    at: &mut u32,
    found: &mut Conflict,
) -> u32
    ensures inserts { ChangesEach (λ taken. InsertsAt taken key.now second value result at.new found.new)
        t.old.handle.value result t.new.handle.value }
    ensures memory { ChangesKeyed TakesMemory t.old.handle.value result t.new.handle.value }
    ensures state { t.new.state ≡ t.old.state }
    ensures closed { t.old.state ≢ 1 → t.new ≡ t.old }
    ensures at_kept { result ≢ OK → at.new ≡ at.old }
    ensures found_kept { result ≢ DUPLICATE → found.new ≡ found.old }
{
    if t.state != 1 {
        return HANDLE;
    }
    let mut table = take(t, alloc);
    let answer = insert(table.as_mut(), alloc, key, second, value, at, found);
    put(t, table);
    answer
}

fn insert(
    table: &mut Table,
    alloc: Global,
    key: &[u8],
    second: u64,
    value: u64,
    at: &mut u32,
    found: &mut Conflict,
) -> u32
    ensures inserts { ChangesEach (λ taken. InsertsAt taken key.now second value result at.new found.new)
        (Some table.old) result (Some table.new) }
    ensures memory { ChangesKeyed TakesMemory (Some table.old) result (Some table.new) }
    ensures at_kept { result ≢ OK → at.new ≡ at.old }
    ensures found_kept { result ≢ DUPLICATE → found.new ≡ found.old }
{
    match table {
        Table::Unique(keyed) => store(keyed, alloc, key, second, value, at, found),
        Table::Shared(keyed) => store(keyed, alloc, key, second, value, at, found),
        Table::Index(_) | Table::Layer(_) => HANDLE,
    }
}

// The insert into entries whose second keys go by `B`.
fn store<B: SecondKey + IndexLaws<Entry, RandomState>>(
    keyed: &mut Keyed<B>,
    alloc: Global,
    key: &[u8],
    second: u64,
    value: u64,
    at: &mut u32,
    found: &mut Conflict,
) -> u32
    ensures inserts { InsertsAt B.taken key.now second value result at.new found.new keyed.old.entries
        keyed.new.entries }
    ensures memory { TakesMemory keyed.old.entries keyed.new.entries }
    ensures at_kept { result ≢ OK → at.new ≡ at.old }
    ensures found_kept { result ≢ DUPLICATE → found.new ≡ found.old }
{
    let Ok(bytes) = Vec::from_slice(alloc, key) else {
        return without_copy(keyed, key, second, found);
    };
    let new = Entry {
        first: ByteKey { bytes },
        second,
        value,
    };
    // Its contract has that the store is valid, which that of the insert lacks.
    let _count = keyed.entries.len();
    match keyed.entries.insert_unique(new) {
        Ok(ix) => {
            *at = ix.as_u32();
            OK
        }
        Err(refusal) => report::<B>(&refusal, found),
    }
}

// The code of a refusal; of a duplicate also the indexes that it reports.
fn report<B: SecondKey>(
    refusal: &InsertRefusal<Entry, PairConflict<ItemIndex, B::Conflict>>,
    found: &mut Conflict,
) -> u32
    ensures says { SaysRefusal B.alike B.conflicts B.taken result found.new refusal.now }
    ensures found_kept { result ≢ DUPLICATE → found.new ≡ found.old }
{
    match refusal {
        InsertRefusal::Duplicate { at, .. } => {
            *found = conflict_of(at.first(), second_in_the_way::<B>(at));
            DUPLICATE
        }
        InsertRefusal::Full(_) => FULL,
        InsertRefusal::Memory(_) => MEMORY,
    }
}

// Why an item can't be inserted for whose first key there is no memory.
fn without_copy<B: SecondKey + IndexLaws<Entry, RandomState>>(
    keyed: &Keyed<B>,
    key: &[u8],
    second: u64,
    found: &mut Conflict,
) -> u32
    ensures refuses { RefusesAt B.taken key.now second result found.new keyed.now.entries }
    ensures found_kept { result ≢ DUPLICATE → found.new ≡ found.old }
{
    let first_at = keyed
        .entries
        .find_by::<ByFirst, _>(ByteKeyQuery { bytes: key });
    let second_at = in_the_way(keyed, second);
    if first_at.is_some() || second_at.is_some() {
        *found = conflict_of(first_at, second_at);
        return DUPLICATE;
    }
    if is_full(keyed) {
        return FULL;
    }
    MEMORY
}

/// The index of the entry that stands in the way of another one with this second key.
pub(super) fn in_the_way<B: SecondKey>(keyed: &Keyed<B>, second: u64) -> Option<ItemIndex>
    ensures { AnswersScan keyed.now.entries.store (B.taken second) result }
{
    let parts = keyed.entries.parts();
    parts
        .indexes
        .second
        .in_the_way(parts.items, parts.state, second)
}

// Whether no index is left.
fn is_full<B: IndexLaws<Entry, RandomState>>(keyed: &Keyed<B>) -> bool
    ensures { (result ≡ true) ↔ IsFull keyed.now.entries.store }
{
    keyed.entries.len() == keyed.entries.parts().items.limit()
}

// The index that the map reports by the second key of an item, if it reports one.
fn second_in_the_way<B: SecondKey>(at: &PairConflict<ItemIndex, B::Conflict>) -> Option<ItemIndex>
    ensures answers { (s : Store Entry) (entry : Entry) → Reports B.alike B.conflicts s entry (second_of at.now)
        → AnswersScan s (B.taken entry.second) result }
    ensures some { IsSome (second_of at.now) → IsSome result }
{
    match at.second() {
        Some(at) => Some(B::reported(&at)),
        None => None,
    }
}

// The indexes of the items that stand in the way, as C reads them.
pub(super) fn conflict_of(first: Option<ItemIndex>, second: Option<ItemIndex>) -> Conflict
    ensures first { result.first ≡ number_of first }
    ensures second { result.second ≡ number_of second }
{
    Conflict {
        first: first.unwrap_or(ItemIndex::SENTINEL).as_u32(),
        second: second.unwrap_or(ItemIndex::SENTINEL).as_u32(),
    }
}
