//! A hash table of a store's indexes, under the hashes of a key that is read in place.
//!
//! These are the calls of `hashed` for keys that need no value of their own: a query is compared with whole items.
//! `hashed` stays beside them for `KeyedItems` and `TriItems`, whose queries are any `Equivalent` of a borrowed key,
//! with no laws.
ghost use Rattle.std.specs.Prelude.{◌≡◌};
ghost use Rattle.iddqd.specs.MapHash.{hash_one};
ghost use Rattle.iddqd_hash.specs.{filed};
ghost use Rattle.iddqd_hash.specs.HashTable.{KeepsMemory};
ghost use Rattle.iddqd_keys.specs.Scan.{itself};
ghost use Rattle.iddqd_by_hash.specs.Hashed.{AreLive, LooksUp, Takes};

use crate::hashed;
use iddqd::item_index::ItemIndex;
use iddqd::item_set::ItemSet;
use iddqd::map_hash::{Equivalent, MapHash};
use iddqd_hash::hash_table::MapHashTable;
use iddqd_keys::hash_key::HashKey;
use iddqd_keys::item_hash_query::ItemHashQuery;
use iddqd_keys::key_of::Itself;
use std::hash::{BuildHasher, Hasher};
use std::marker::PhantomData;

// A query for a key `E`, which is compared with items.
#[derive(Drop)]
struct ByItem<E, Q> {
    query: Q,
    by: PhantomData<E>,
}

impl<T, E: HashKey<T>, Q: ItemHashQuery<T, E>> Equivalent<T> for ByItem<E, Q> {
    ghost equivalent = { λ q. Q.stands_for_item q.query };

    fn equivalent(&self, item: &T) -> bool {
        self.query.stands_for_item(item)
    }
}

// The key `E` of an item, which is compared with those of other items.
#[derive(Drop)]
struct KeyOfItem<'a, T, E> {
    item: &'a T,
    by: PhantomData<E>,
}

impl<'a, T, E: HashKey<T>> Equivalent<T> for KeyOfItem<'a, T, E> {
    ghost equivalent = { λ q other. E.eq (E.key_of q.item.now) (E.key_of other) };

    fn equivalent(&self, other: &T) -> bool {
        E::is_same(self.item, other)
    }
}

/// The hash of the key of an item under a hasher's state.
pub fn hash_of<T, E: HashKey<T>, S: BuildHasher>(state: &S, item: &T) -> MapHash
    ensures { result ≡ hash_one S.BuildHasher S.Hasher.Hasher state.now (E.hash_input (E.key_of item.now)) }
{
    let mut hasher = state.build_hasher();
    E::hash(item, &mut hasher);
    MapHash::new(hasher.finish())
}

/// The hash of a query, which is that of each key for which it stands.
pub fn query_hash<T, E, S, Q>(state: &S, query: Q) -> MapHash
where
    E: HashKey<T>,
    S: BuildHasher,
    Q: ItemHashQuery<T, E>,
    ensures { result ≡ hash_one S.BuildHasher S.Hasher.Hasher state.now (Q.key_hash_input query) }
{
    let mut hasher = state.build_hasher();
    query.hash_as_key(&mut hasher);
    MapHash::new(hasher.finish())
}

/// An index that is filed under `hash` and whose item's key the query stands for, or `None` if there is none.
///
/// It reads only items of indexes under that hash, each at most once.
#[inline(always)]
pub fn find<T, E, Q>(
    table: &MapHashTable,
    items: &ItemSet<T>,
    hash: MapHash,
    query: Q,
) -> Option<ItemIndex>
where
    E: HashKey<T>,
    Q: ItemHashQuery<T, E>,
    requires { AreLive items.now.store (filed table.now) }
    ensures { LooksUp itself items.now.store (filed table.now) hash (Q.stands_for_item query) result }
{
    let query = ByItem::<E, Q> {
        query,
        by: PhantomData,
    };
    hashed::find::<T, Itself, ByItem<E, Q>>(table, items, hash, &query)
}

/// Finds as `find` does, and removes the index from the table, by one search. It takes no memory.
pub fn take<T, E, Q>(
    table: &mut MapHashTable,
    items: &ItemSet<T>,
    hash: MapHash,
    query: Q,
) -> Option<ItemIndex>
where
    E: HashKey<T>,
    Q: ItemHashQuery<T, E>,
    requires { AreLive items.now.store (filed table.old) }
    ensures found { LooksUp itself items.now.store (filed table.old) hash (Q.stands_for_item query) result }
    ensures taken { Takes (filed table.old) result (filed table.new) }
    ensures memory { KeepsMemory table.old table.new }
{
    let query = ByItem::<E, Q> {
        query,
        by: PhantomData,
    };
    hashed::take::<T, Itself, ByItem<E, Q>>(table, items, hash, &query)
}

/// An index that is filed under `hash` and whose item has the key of this one, or `None` if there is none.
///
/// It reads only items of indexes under that hash, each at most once.
#[inline(always)]
pub fn find_same<T, E: HashKey<T>>(
    table: &MapHashTable,
    items: &ItemSet<T>,
    hash: MapHash,
    item: &T,
) -> Option<ItemIndex>
    requires { AreLive items.now.store (filed table.now) }
    ensures { LooksUp itself items.now.store (filed table.now) hash
        (λ other. E.eq (E.key_of item.now) (E.key_of other)) result }
{
    let query = KeyOfItem::<T, E> {
        item,
        by: PhantomData,
    };
    hashed::find::<T, Itself, KeyOfItem<T, E>>(table, items, hash, &query)
}
