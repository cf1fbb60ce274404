//! A hash table of a store's indexes, under the hashes of one key of the items.
//!
//! The hasher's state belongs to the map, since several tables may share one state. `hash_of` and `query_hash` compute
//! a hash under that state, and every other call is handed that hash, so a key is hashed once. To insert, call the
//! table's own `try_reserve` and `insert_prehashed_unchecked`.
ghost use Rattle.std.specs.Prelude.{◌≡◌, ◌+◌, IsSome};
ghost use Rattle.std.specs.FinMap as finite;
ghost use Rattle.iddqd.specs.MapHash.{hash_one};
ghost use Rattle.iddqd_hash.specs.HashTable.{room, KeepsMemory};
ghost use Rattle.iddqd_hash.specs.{filed};
ghost use Rattle.iddqd_keys.specs.Scan.{IsLive, IsKeyAt};
ghost use Rattle.iddqd_by_hash.specs.Hashed.{AreLive, AsksAt, LooksUp, Takes};

use crate::borrowed_key_query::BorrowedKeyQuery;
use iddqd::item_index::ItemIndex;
use iddqd::item_set::ItemSet;
use iddqd::map_hash::{Equivalent, MapHash};
use iddqd_hash::hash_table::MapHashTable;
use iddqd_keys::key_of::{KeyOf, key_at};
use std::hash::{BuildHasher, Hash};

/// The hash of the key of an item under a hasher's state.
pub fn hash_of<T, E, S>(state: &S, item: &T) -> MapHash
where
    E: KeyOf<T>,
    E::Key: Hash,
    S: BuildHasher,
    ensures { result ≡ hash_one S.BuildHasher S.Hasher.Hasher state.now (E.Key.hash_input (E.key_of item.now)) }
{
    MapHash::new(state.hash_one(E::key(item)))
}

/// The hash of a query. If the query is a `HashQuery`, the keys that it stands for have this hash too.
pub fn query_hash<Q: Hash + Copy, S: BuildHasher>(state: &S, query: Q) -> MapHash
    ensures { result ≡ hash_one S.BuildHasher S.Hasher.Hasher state.now (Q.hash_input query) }
{
    MapHash::new(state.hash_one(query))
}

/// An index that is filed under `hash` and whose item's key matches the query, or `None` if there is none.
///
/// It reads only keys of indexes under that hash, each at most once. Everything up to the comparison with the
/// first candidate is inlined: without that, a look-up takes up to 50 % longer.
#[inline(always)]
pub fn find<T, E, Q>(
    table: &MapHashTable,
    items: &ItemSet<T>,
    hash: MapHash,
    query: &Q,
) -> Option<ItemIndex>
where
    E: KeyOf<T>,
    Q: Equivalent<E::Key>,
    requires { AreLive items.now.store (filed table.now) }
    ensures { LooksUp E.key_of items.now.store (filed table.now) hash (Q.equivalent query.now) result }
{
    table.find_index_prehashed(
        hash,
        &BorrowedKeyQuery(query),
        |at: ItemIndex|
            requires { IsLive items.now.store at }
            ensures { IsKeyAt E.key_of items.entry.now.store at result.now }
        { key_at::<T, E>(items, at) },
    )
}

/// Finds as `find` does, and removes the index from the table, by one search. It takes no memory.
pub fn take<T, E, Q>(
    table: &mut MapHashTable,
    items: &ItemSet<T>,
    hash: MapHash,
    query: &Q,
) -> Option<ItemIndex>
where
    E: KeyOf<T>,
    Q: Equivalent<E::Key>,
    requires { AreLive items.now.store (filed table.old) }
    ensures found { LooksUp E.key_of items.now.store (filed table.old) hash (Q.equivalent query.now) result }
    ensures taken { Takes (filed table.old) result (filed table.new) }
    ensures memory { KeepsMemory table.old table.new }
{
    let found = table.find_entry_by_hash(
        hash.hash(),
        |at: ItemIndex| -> bool
            requires { IsLive items.now.store at }
            ensures { AsksAt E.key_of items.entry.now.store (Q.equivalent query.entry.now) at result }
        { query.equivalent(key_at::<T, E>(items, at)) },
    );
    match found {
        Ok(entry) => {
            let ix = entry.get();
            entry.remove();
            Some(ix)
        }
        Err(()) => None,
    }
}

/// Removes an index from the table, whatever its key is now: by a look-up under the hash, or by a scan of the table if
/// that misses. It takes no memory.
pub fn remove_index(table: &mut MapHashTable, hash: MapHash, ix: ItemIndex)
    requires { IsSome (finite.get (filed table.old) ix) }
    ensures taken { filed table.new ≡ finite.remove (filed table.old) ix }
    ensures memory { KeepsMemory table.old table.new }
    ensures room { room table.new ≡ room table.old + 1 }
{
    let found = table.find_entry_by_hash(hash.hash(), |at| at == ix);
    match found {
        Ok(entry) => entry.remove(),
        Err(()) => table.remove_by_index(ix),
    }
}
