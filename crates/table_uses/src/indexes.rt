//! Callers of the table of indexes.
ghost use Rattle.std.specs.Prelude.{◌≡◌, ◌≢◌, ◌==◌, ◌<◌, ◌^◌, ℕ, Some, IfOk, IsSome, length, slice_index};
ghost use Rattle.std.specs.Bool.{OnTrue, OnFalse};
ghost use Rattle.std.specs.Hash as fed;
ghost use Rattle.std.specs.FinMap as finite;
ghost use Rattle.iddqd.specs.MapHash.{hash_one};
ghost use Rattle.iddqd_hash.specs.MapHashTable.{filed, FindsWhere};

use iddqd::item_index::ItemIndex;
use iddqd::map_hash::Same;
use iddqd_hash::hash_table::MapHashTable;
use std::alloc::{AllocError, Global};
use std::hash::BuildHasher;

/// An index for each key, under the hash of the key.
pub fn file_all<S: BuildHasher>(
    alloc: Global,
    state: &S,
    keys: &[u32],
) -> Result<MapHashTable, AllocError>
    requires { length keys.now < 2 ^ 32 }
    ensures { IfOk result (λ table. (ix : ℕ) → IsSome (finite.get (filed table) ix) → ix < length keys.now) }
{
    let mut table = MapHashTable::new(alloc);
    prove!(table.is_empty());
    for place in 0..keys.len() {
        table.try_reserve(1)?;
        let hash = table.compute_hash(state, &keys[place]);
        table.insert_prehashed_unchecked(hash, ItemIndex::new(place as u32));
    }
    Ok(table)
}

/// An index under the number's hash whose key is the number; `None` if and only if there is none.
pub fn find_number<S: BuildHasher>(
    table: &MapHashTable,
    state: &S,
    keys: &[u32],
    number: u32,
) -> Option<ItemIndex>
    requires { (ix : ℕ) → IsSome (finite.get (filed table.now) ix) → ix < length keys.now }
    ensures { FindsWhere (λ ix. number == slice_index keys.now ix)
        (hash_one S.BuildHasher S.Hasher.Hasher state.now (fed.u32 number)) (filed table.now) result }
{
    table.find_index(
        state,
        &Same(&number),
        |ix: ItemIndex|
            requires { ix < length keys.now }
            ensures { result.now ≡ slice_index keys.entry.now ix }
        { &keys[ix.as_u32() as usize] },
    )
}

/// Removes the index if it is filed under the hash.
pub fn remove_filed(table: &mut MapHashTable, hash: u64, ix: ItemIndex) -> bool
    ensures removed { OnTrue result ((finite.get (filed table.old) ix ≡ Some hash)
        × (filed table.new ≡ finite.remove (filed table.old) ix)) }
    ensures missed { OnFalse result ((finite.get (filed table.old) ix ≢ Some hash) × (table.new ≡ table.old)) }
{
    match table.find_entry_by_hash(hash, |stored| stored.as_u32() == ix.as_u32()) {
        Ok(entry) => {
            entry.remove();
            true
        }
        Err(()) => false,
    }
}
