//! Modifies the items of a group in place.
//!
//! The table's iterator borrows the table alone, so an item may change once its index was read. Its key is compared
//! before that, and no index comes twice.
ghost use Rattle.std.specs.Prelude.{◌≡◌, ◌≤◌, ℕ, Contains, Some, false, filter, length, nat_eq, true};
ghost use Rattle.std.specs.Fn.{CalledAtMut};
ghost use Rattle.std.specs.List.{IsDistinct};
ghost use Rattle.iddqd.specs.{IsValid, get, live_count, rebound};
ghost use Rattle.iddqd.specs.LiveItems.{live_items};
ghost use Rattle.iddqd.specs.Store.{sentinel};
ghost use Rattle.iddqd_by_hash.specs.Hashed.{hashing_of};
ghost use Rattle.iddqd_groups.specs.HashedGroup.{hits_among};
ghost use Rattle.iddqd_hash.specs.Asks.{CanAsk};
ghost use Rattle.iddqd_keys.specs.KeyWalk.{pairs_at};
ghost use Rattle.iddqd_keys.specs.Scan.{IsLive};
ghost use Rattle.iddqd_map.specs.Files.{Files};
ghost use Rattle.iddqd_map.specs.ModifyMany.{CallsAlong, MayLeave, ModifiesHits, TakesMut, WasCalled};
ghost use Rattle.iddqd_map.specs.RangeRetain.{KeepsMisses};

use crate::linked_table::{LinkedIndexes, LinkedTable};
use iddqd::item_index::ItemIndex;
use iddqd::item_set::ItemSet;
use iddqd_by_hash::hashed_item::query_hash;
use iddqd_keys::hash_key::HashKey;
use iddqd_keys::item_hash_query::ItemHashQuery;
use std::hash::BuildHasher;

/// Calls the closure with a `&mut` to each item that has the key for which the query stands, once, and returns how many
/// there are. The closure stays in the state that its last call leaves.
pub fn modify_group<T, E, S, Q, F: FnMut(&mut T)>(
    table: &LinkedTable,
    items: &mut ItemSet<T>,
    state: &S,
    query: Q,
    f: &mut F,
) -> usize
where
    E: HashKey<T>,
    S: BuildHasher,
    Q: ItemHashQuery<T, E>,
    requires valid { IsValid items.old.store }
    requires files { Files E.key_of (hashing_of E.eq E.hash_input S.BuildHasher S.Hasher.Hasher state.now)
        items.old.store table.now.filed }
    requires callable { CanAsk (TakesMut F.FnMut) (MayLeave F.FnMut) f.old
        (filter (Q.stands_for_item query) (live_items items.old.store)) }
    ensures modified { ModifiesHits F.FnMut (Q.stands_for_item query) f.old items.old.store items.new.store f.new
        result }
    ensures others { KeepsMisses items.old.store (Q.stands_for_item query) items.new.store }
    ensures count { live_count items.new.store ≡ live_count items.old.store }
    ensures limit { items.new.store.limit ≡ items.old.store.limit }
    ensures slots { items.new.capacity ≡ items.old.capacity }
{
    let hash = query_hash::<T, E, S, Q>(state, query);
    let indexes = table.indexes_under(hash);
    // The bound has 64 bits, so the count fits.
    match indexes.size_hint().1 {
        Some(_most) => modify_hits::<T, E, Q, F>(indexes, items, &query, f),
        None => unreachable!(),
    }
}

// Does that for the items at these indexes.
fn modify_hits<T, E, Q, F: FnMut(&mut T)>(
    mut indexes: LinkedIndexes<'_>,
    items: &mut ItemSet<T>,
    query: &Q,
    f: &mut F,
) -> usize
where
    E: HashKey<T>,
    Q: ItemHashQuery<T, E>,
    requires valid { IsValid items.old.store }
    requires few { length indexes.rest ≤ sentinel }
    requires once { IsDistinct nat_eq indexes.rest }
    requires live { (ix : ℕ) → Contains indexes.rest ix → IsLive items.old.store ix }
    requires callable { CanAsk (TakesMut F.FnMut) (MayLeave F.FnMut) f.old
        (filter (Q.stands_for_item query.now) (live_items items.old.store)) }
    ensures calls { CallsAlong F.FnMut
        (pairs_at items.old.store (hits_among items.old.store (Q.stands_for_item query.now) indexes.entry.rest)) f.old
        items.old.store items.new.store f.new }
    ensures each { (ix : ℕ) (was : T) → Contains indexes.entry.rest ix → get items.old.store ix ≡ Some was
        → Q.stands_for_item query.now was ≡ true → WasCalled F.FnMut was (get items.new.store ix) }
    ensures counted { result ≡ length (hits_among items.old.store (Q.stands_for_item query.now) indexes.entry.rest) }
    ensures others { KeepsMisses items.old.store (Q.stands_for_item query.now) items.new.store }
    ensures count { live_count items.new.store ≡ live_count items.old.store }
    ensures limit { items.new.store.limit ≡ items.old.store.limit }
    ensures slots { items.new.capacity ≡ items.old.capacity }
{
    let mut count = 0;
    while let Some(ix) = indexes.next() {
        if modify_hit::<T, E, Q, F>(items, ix, query, f) {
            count += 1;
        }
    }
    count
}

// Calls the closure with a `&mut` to the item at the index if that has the key for which the query stands, and answers
// whether it has.
fn modify_hit<T, E, Q, F: FnMut(&mut T)>(
    items: &mut ItemSet<T>,
    ix: ItemIndex,
    query: &Q,
    f: &mut F,
) -> bool
where
    E: HashKey<T>,
    Q: ItemHashQuery<T, E>,
    requires { (item : T) → get items.old.store ix ≡ Some item → Q.stands_for_item query.now item ≡ true
        → TakesMut F.FnMut f.old item }
    ensures test { (item : T) → get items.old.store ix ≡ Some item → result ≡ Q.stands_for_item query.now item }
    ensures passed { result ≡ false → (items.new ≡ items.old) × (f.new ≡ f.old) }
    ensures called { (item : T) → get items.old.store ix ≡ Some item → result ≡ true →
        (left : T) × CalledAtMut F.FnMut f.old item tt f.new left
        × (items.new ≡ record items.old { store = rebound items.old.store ix left }) }
{
    let Some(item) = items.get_mut(ix) else {
        return false;
    };
    if !query.stands_for_item(item) {
        return false;
    }
    f(item);
    true
}
