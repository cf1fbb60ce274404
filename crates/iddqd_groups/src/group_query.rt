//! Look-ups by any query in a linked table that indexes a store: several items may have the key.
ghost use Rattle.std.specs.Prelude.{◌≡◌, length};
ghost use Rattle.iddqd.specs.{live_count};
ghost use Rattle.iddqd_by_hash.specs.Hashed.{hashing_of};
ghost use Rattle.iddqd_map.specs.Files.{Files};
ghost use Rattle.iddqd_map.specs.Groups.{AreHits};

use crate::hashed_group::{Group, group_of};
use crate::linked_table::LinkedTable;
use iddqd::item_set::ItemSet;
use iddqd_by_hash::hashed_item::query_hash;
use iddqd_keys::hash_key::HashKey;
use iddqd_keys::item_hash_query::ItemHashQuery;
use std::hash::BuildHasher;

/// The indexes whose items have the key for which the query stands, each once, in no order that a caller can rely on.
///
/// It compares the query only with keys of the same hash, with none twice, and takes no memory.
pub fn group_by<'t, T, E, S, Q>(
    table: &'t LinkedTable,
    items: &'t ItemSet<T>,
    state: &S,
    query: Q,
) -> Group<'t, T, E, Q>
where
    E: HashKey<T>,
    S: BuildHasher,
    Q: ItemHashQuery<T, E>,
    requires { Files E.key_of (hashing_of E.eq E.hash_input S.BuildHasher S.Hasher.Hasher state.now)
        items.now.store table.now.filed }
    ensures hits { AreHits items.now.store (Q.stands_for_item query) result.rest }
    ensures bound { result.bound ≡ live_count items.now.store }
{
    let hash = query_hash::<T, E, S, Q>(state, query);
    group_of::<T, E, Q>(table, items, hash, query)
}

/// How many indexes are left. It goes over all of them.
pub fn count_left<T, E: HashKey<T>, Q: ItemHashQuery<T, E>>(group: Group<'_, T, E, Q>) -> usize
    ensures { result ≡ length group.entry.rest }
{
    // The bound has 64 bits, so the count fits.
    match group.size_hint().1 {
        Some(_most) => group.count(),
        None => unreachable!(),
    }
}
