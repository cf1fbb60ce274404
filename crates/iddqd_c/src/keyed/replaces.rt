//! The replacement of an item by one with other keys.
//!
//! It looks both keys up before it copies the first one, so a duplicate is reported without memory. The call that
//! replaces the item looks them up again.
ghost use Rattle.std.specs.Prelude.{◌≡◌, ◌≢◌, Some, Bool};
ghost use Rattle.iddqd_keys.specs.Scan.{AnswersScan};
ghost use Rattle.iddqd.specs.Store.{Store};
ghost use Rattle.iddqd_map.specs.Several.{AnswersOther};
ghost use Rattle.iddqd_codes.specs.declared.TheConstants.{DUPLICATE};
ghost use Rattle.iddqd_c.specs.Held.{ChangesEach};
ghost use Rattle.iddqd_c.specs.Replacing.{Replaces};
ghost use Rattle.iddqd_c.specs.declared.entry.Entry.{Entry};

use super::inserts::{conflict_of, in_the_way};
use crate::entry::{ByFirst, Conflict, Entry};
use crate::handle::{CTable, put, take};
use crate::second_key::SecondKey;
use crate::table::{Keyed, Table};
use iddqd::item_index::ItemIndex;
use iddqd_byte_keys::{ByteKey, ByteKeyQuery};
use iddqd_codes::{DUPLICATE, HANDLE, MEMORY, MISSING, OK};
use iddqd_map::key_index::Moves;
use std::alloc::Global;
use std::hash::RandomState;

/// Replaces the item at an index by one with a copy of the key, unless another item stands in the way of it. The index
/// stays. For a duplicate it writes the indexes of the other items that stand in the way.
#[unsafe(no_mangle)]
pub extern "C" fn iddqd_keyed_replace(
    t: &mut CTable,
    alloc: Global,
    index: u32,
    key: &[u8],
    second: u64,
    value: u64,
    found: &mut Conflict,
) -> u32
    ensures replaces { ChangesEach (λ taken. Replaces taken index key.now second value result found.new)
        t.old.handle.value result t.new.handle.value }
    ensures state { t.new.state ≡ t.old.state }
    ensures closed { t.old.state ≢ 1 → t.new ≡ t.old }
    ensures found_kept { result ≢ DUPLICATE → found.new ≡ found.old }
{
    if t.state != 1 {
        return HANDLE;
    }
    let mut table = take(t, alloc);
    let answer = replace(table.as_mut(), alloc, index, key, second, value, found);
    put(t, table);
    answer
}

fn replace(
    table: &mut Table,
    alloc: Global,
    index: u32,
    key: &[u8],
    second: u64,
    value: u64,
    found: &mut Conflict,
) -> u32
    ensures replaces { ChangesEach (λ taken. Replaces taken index key.now second value result found.new)
        (Some table.old) result (Some table.new) }
    ensures found_kept { result ≢ DUPLICATE → found.new ≡ found.old }
{
    let ix = ItemIndex::new(index);
    match table {
        Table::Unique(keyed) => rebind(keyed, alloc, ix, key, second, value, found),
        Table::Shared(keyed) => rebind(keyed, alloc, ix, key, second, value, found),
        Table::Index(_) | Table::Layer(_) => HANDLE,
    }
}

// The replacement in entries whose second keys go by `B`.
fn rebind<B: SecondKey + Moves<Entry, RandomState>>(
    keyed: &mut Keyed<B>,
    alloc: Global,
    ix: ItemIndex,
    key: &[u8],
    second: u64,
    value: u64,
    found: &mut Conflict,
) -> u32
    ensures replaces { Replaces B.SecondKey.taken ix key.now second value result found.new keyed.old.entries
        keyed.new.entries }
    ensures found_kept { result ≢ DUPLICATE → found.new ≡ found.old }
{
    if keyed.entries.get_at(ix).is_none() {
        return MISSING;
    }
    let first_at = other_than(
        ix,
        keyed
            .entries
            .find_by::<ByFirst, _>(ByteKeyQuery { bytes: key }),
    );
    let second_at = other_than(ix, in_the_way(keyed, second));
    if first_at.is_some() || second_at.is_some() {
        *found = conflict_of(first_at, second_at);
        return DUPLICATE;
    }
    let Ok(bytes) = Vec::from_slice(alloc, key) else {
        return MEMORY;
    };
    let new = Entry {
        first: ByteKey { bytes },
        second,
        value,
    };
    match keyed.entries.replace_at(ix, new) {
        Ok(_was) => OK,
        // The index is live, and no other item stands in the way, so no other reason is left.
        Err(_refusal) => MEMORY,
    }
}

// The index that a look-up hit, if it isn't `ix`.
fn other_than(ix: ItemIndex, found: Option<ItemIndex>) -> Option<ItemIndex>
    ensures { (s : Store Entry) (test : Entry → Bool) → AnswersScan s test found → AnswersOther s test ix result }
{
    let at = found?;
    if at == ix { None } else { Some(at) }
}
