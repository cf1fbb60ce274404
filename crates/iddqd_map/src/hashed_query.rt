//! Look-ups in a table of hashes that indexes a store, by any query.
//!
//! If each live index is filed under the hash of its item's key as it is now, and no two items share a key, a look-up
//! returns what a scan would.
ghost use Rattle.std.specs.Prelude.{◌≡◌};
ghost use Rattle.iddqd.specs.{hash_one};
ghost use Rattle.iddqd_hash.specs.{filed};
ghost use Rattle.iddqd_hash.specs.HashTable.{KeepsMemory};
ghost use Rattle.iddqd_keys.specs.Scan.{AnswersScan};
ghost use Rattle.iddqd_by_hash.specs.Hashed.{hashing_of, Takes};
ghost use Rattle.iddqd_map.specs.Indexing.{Indexes};
ghost use Rattle.iddqd_map.specs.Map.{shares};

use iddqd::item_index::ItemIndex;
use iddqd::item_set::ItemSet;
use iddqd::map_hash::MapHash;
use iddqd_by_hash::hashed_item;
use iddqd_hash::hash_table::MapHashTable;
use iddqd_keys::hash_key::HashKey;
use iddqd_keys::item_hash_query::ItemHashQuery;
use std::hash::BuildHasher;

/// The index of the item that has the key for which the query stands, whose hash was computed before.
///
/// It is inlined: a look-up that called it took one and a half times as many instructions.
#[inline(always)]
pub fn find_under<T, E, S, Q>(
    table: &MapHashTable,
    items: &ItemSet<T>,
    state: &S,
    hash: MapHash,
    query: Q,
) -> Option<ItemIndex>
where
    E: HashKey<T>,
    S: BuildHasher,
    Q: ItemHashQuery<T, E>,
    requires hash { hash ≡ hash_one S.BuildHasher S.Hasher.Hasher state.now (Q.key_hash_input query) }
    requires indexed { Indexes E.key_of (hashing_of E.eq E.hash_input S.BuildHasher S.Hasher.Hasher state.now)
        items.now.store (filed table.now) }
    ensures { AnswersScan items.now.store (Q.stands_for_item query) result }
{
    hashed_item::find::<T, E, Q>(table, items, hash, query)
}

/// Finds as `find_under` does, and removes the index from the table, by one search. It takes no memory.
pub fn take_by<T, E, S, Q>(
    table: &mut MapHashTable,
    items: &ItemSet<T>,
    state: &S,
    query: Q,
) -> Option<ItemIndex>
where
    E: HashKey<T>,
    S: BuildHasher,
    Q: ItemHashQuery<T, E>,
    requires { Indexes E.key_of (hashing_of E.eq E.hash_input S.BuildHasher S.Hasher.Hasher state.now)
        items.now.store (filed table.old) }
    ensures found { AnswersScan items.now.store (Q.stands_for_item query) result }
    ensures taken { Takes (filed table.old) result (filed table.new) }
    ensures memory { KeepsMemory table.old table.new }
{
    let hash = hashed_item::query_hash::<T, E, S, Q>(state, query);
    hashed_item::take::<T, E, Q>(table, items, hash, query)
}

/// The index of the item that has this key of an item, whose hash was computed before.
pub fn find_item<T, E, S>(
    table: &MapHashTable,
    items: &ItemSet<T>,
    state: &S,
    hash: MapHash,
    item: &T,
) -> Option<ItemIndex>
where
    E: HashKey<T>,
    S: BuildHasher,
    requires hash { let hashing = hashing_of E.eq E.hash_input S.BuildHasher S.Hasher.Hasher state.now in
        hash ≡ hashing.hash_of (E.key_of item.now) }
    requires indexed { Indexes E.key_of (hashing_of E.eq E.hash_input S.BuildHasher S.Hasher.Hasher state.now)
        items.now.store (filed table.now) }
    ensures { AnswersScan items.now.store (shares E.key_of E.eq item.now) result }
{
    hashed_item::find_same::<T, E>(table, items, hash, item)
}
