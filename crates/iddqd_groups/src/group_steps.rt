//! Steps along a group: the items of a linked table's store that have one key.
//!
//! The indexes under the hash of the key are one chain, and those of items with another key are passed over. Between
//! two steps nothing is borrowed, so an index may be removed.
ghost use Rattle.std.specs.Prelude.{◌≡◌, ◌+◌, ◌≤◌, ℕ, Bool, Contains, IsSome};
ghost use Rattle.std.specs.FinMap as finite;
ghost use Rattle.iddqd_by_hash.specs.Hashed.{AreLive, hashing_of};
ghost use Rattle.iddqd_groups.specs.HashedGroup.{StepsPast, hits_among, hits_behind};
ghost use Rattle.iddqd_groups.specs.LinkedTable.{KeepsLinkMemory, behind};
ghost use Rattle.iddqd_map.specs.Files.{Files};
ghost use Rattle.iddqd_map.specs.Groups.{AreHits, FindsSome, listed_from};

use crate::linked_table::LinkedTable;
use iddqd::item_index::ItemIndex;
use iddqd::item_set::ItemSet;
use iddqd_by_hash::hashed_item::query_hash;
use iddqd_keys::hash_key::HashKey;
use iddqd_keys::item_hash_query::ItemHashQuery;
use std::hash::BuildHasher;

/// The index of some item that has the key for which the query stands: the one that comes before all others of them.
pub fn find_any<T, E, S, Q>(
    table: &LinkedTable,
    items: &ItemSet<T>,
    state: &S,
    query: Q,
) -> Option<ItemIndex>
where
    E: HashKey<T>,
    S: BuildHasher,
    Q: ItemHashQuery<T, E>,
    requires { Files E.key_of (hashing_of E.eq E.hash_input S.BuildHasher S.Hasher.Hasher state.now)
        items.now.store table.now.filed }
    ensures some { FindsSome items.now.store (Q.stands_for_item query) result }
    ensures group { AreHits items.now.store (Q.stands_for_item query)
        (listed_from (hits_behind table.now items.now.store (Q.stands_for_item query)) result) }
{
    let hash = query_hash::<T, E, S, Q>(state, query);
    first_from::<T, E, Q>(table, items, &query, table.first_under(hash))
}

/// The next index behind this one whose item has the key for which the query stands.
pub fn next_in_group<T, E, Q>(
    table: &LinkedTable,
    items: &ItemSet<T>,
    query: &Q,
    ix: ItemIndex,
) -> Option<ItemIndex>
where
    E: HashKey<T>,
    Q: ItemHashQuery<T, E>,
    requires live { AreLive items.now.store table.now.filed }
    requires present { IsSome (finite.get table.now.filed ix) }
    ensures { let behind = hits_behind table.now items.now.store (Q.stands_for_item query.now) in
        behind ix ≡ listed_from behind result }
{
    first_from::<T, E, Q>(table, items, query, table.next_under(ix))
}

/// Removes an index. Returns the next one behind it whose item has the key for which the query stands.
pub fn take_in_group<T, E, Q>(
    table: &mut LinkedTable,
    items: &ItemSet<T>,
    query: &Q,
    ix: ItemIndex,
) -> Option<ItemIndex>
where
    E: HashKey<T>,
    Q: ItemHashQuery<T, E>,
    requires live { AreLive items.now.store table.old.filed }
    requires present { IsSome (finite.get table.old.filed ix) }
    ensures next { StepsPast table.old items.now.store (Q.stands_for_item query.now) ix table.new result }
    ensures removed { table.new.filed ≡ finite.remove table.old.filed ix }
    ensures memory { KeepsLinkMemory table.old table.new }
    ensures slots { table.new.slots ≡ table.old.slots }
{
    let next = next_in_group::<T, E, Q>(table, items, query, ix);
    table.remove(ix);
    next
}

// The first index, of this one and those behind it, whose item has the key.
fn first_from<T, E, Q>(
    table: &LinkedTable,
    items: &ItemSet<T>,
    query: &Q,
    from: Option<ItemIndex>,
) -> Option<ItemIndex>
where
    E: HashKey<T>,
    Q: ItemHashQuery<T, E>,
    requires live { AreLive items.now.store table.now.filed }
    requires present { (j : ℕ) → Contains (listed_from (behind table.now) from) j
        → IsSome (finite.get table.now.filed j) }
    ensures { hits_among items.now.store (Q.stands_for_item query.now) (listed_from (behind table.now) from)
        ≡ listed_from (hits_behind table.now items.now.store (Q.stands_for_item query.now)) result }
{
    let mut at = from;
    while let Some(ix) = at {
        if query.stands_for_item(&items[ix]) {
            return Some(ix);
        }
        at = table.next_under(ix);
    }
    None
}
