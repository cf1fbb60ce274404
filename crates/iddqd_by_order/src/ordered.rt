//! A table of indexes beside a store, in the order of a key, ties by index.
//!
//! Keys may change silently. Then the list may be out of order: a search may miss, but it never hits an index whose
//! item's key doesn't compare Equal now, and `remove_index` still removes an index.
//!
//! `KeyedItems` inserts through `entry`, which finds the place, or the index that has the key, by one search. The entry
//! borrows the table and not the store, so the store may change before the index is inserted. `Map` inserts at a `Gap`
//! of the table.
//!
//! In `iddqd_by_hash` it is a premise that a query stands for one key; here it is a law of `Comparable`.
ghost use Rattle.std.specs.Prelude.{◌≡◌};
ghost use Rattle.iddqd_order.specs.{NeedsNoMoreBlocks, capacity, entry_table, order_of, without};
ghost use Rattle.iddqd_keys.specs.Scan.{IsLive, IsKeyAt};
ghost use Rattle.iddqd_by_order.specs.Ordered.{AreLive, IsEntryOf, Holds, LooksUp, Takes};

use iddqd::item_index::ItemIndex;
use iddqd::item_set::ItemSet;
use iddqd::map_hash::Comparable;
use iddqd_keys::key_of::{KeyOf, key_at};
use iddqd_order::btree_table::{Asking, Entry, MapBTreeTable};
use std::cmp::Ordering;

/// The index of an item whose key the query compares Equal with.
///
/// It is one search of the table, by `find_by`. The contract of that call allows 4 + 2d comparisons, where the number
/// of indexes in the table has d binary digits; the contract here doesn't count them.
pub fn find<T, E, Q>(table: &MapBTreeTable, items: &ItemSet<T>, query: &Q) -> Option<ItemIndex>
where
    E: KeyOf<T>,
    E::Key: Ord,
    Q: Comparable<E::Key>,
    requires { Holds items.now.store (order_of table.now) }
    ensures { LooksUp E.key_of E.Key.cmp items.now.store (order_of table.now) (Q.compare query.now) result }
{
    let mut asking = Asking::new(
        |at: ItemIndex| -> Ordering
            requires { IsLive items.now.store at }
            ensures { IsKeyAt (λ item. Q.compare query.entry.now (E.key_of item)) items.entry.now.store at result }
        { query.compare(key_at::<T, E>(items, at)) },
    );
    table.find_by(&mut asking)
}

/// The occupied entry of the index that `find` would return, or else a vacant entry at the place where an index with
/// that key belongs.
///
/// It is one search of the table, as `find`, and takes no memory.
pub fn entry<'t, T, E, Q>(table: &'t mut MapBTreeTable, items: &ItemSet<T>, query: &Q) -> Entry<'t>
where
    E: KeyOf<T>,
    E::Key: Ord,
    Q: Comparable<E::Key>,
    requires { Holds items.now.store (order_of table.old) }
    ensures same_reference { (entry_table result).ghost_name ≡ table.entry.ghost_name }
    ensures table { (entry_table result).now ≡ table.old }
    ensures made { IsEntryOf E.key_of E.Key.cmp items.now.store (order_of table.old) (Q.compare query.now) result }
{
    let mut asking = Asking::new(
        |at: ItemIndex| -> Ordering
            requires { IsLive items.now.store at }
            ensures { IsKeyAt (λ item. Q.compare query.entry.now (E.key_of item)) items.entry.now.store at result }
        { query.compare(key_at::<T, E>(items, at)) },
    );
    table.entry_by(&mut asking)
}

/// Finds as `find` does, and removes the index from the table, by one search. It takes no memory.
pub fn take<T, E, Q>(table: &mut MapBTreeTable, items: &ItemSet<T>, query: &Q) -> Option<ItemIndex>
where
    E: KeyOf<T>,
    E::Key: Ord,
    Q: Comparable<E::Key>,
    requires { Holds items.now.store (order_of table.old) }
    ensures found { LooksUp E.key_of E.Key.cmp items.now.store (order_of table.old) (Q.compare query.now) result }
    ensures taken { Takes (order_of table.old) result (order_of table.new) }
    ensures memory { capacity table.new ≡ capacity table.old }
{
    match entry::<T, E, Q>(table, items, query) {
        Entry::Occupied(entry) => Some(entry.remove()),
        Entry::Vacant(_) => None,
    }
}

/// Removes a live index from the table, whatever its key is now: by a search for the key, or by a scan if the search
/// misses. It takes no memory.
///
/// Blocks that `blocks_anywhere` of the table allocated before it are still enough for a move, and if the index was in
/// the table, for an insert.
pub fn remove_index<T, E>(table: &mut MapBTreeTable, items: &ItemSet<T>, ix: ItemIndex)
where
    E: KeyOf<T>,
    E::Key: Ord,
    requires live { IsLive items.now.store ix }
    requires all_live { AreLive items.now.store (order_of table.old) }
    ensures taken { order_of table.new ≡ without (order_of table.old) ix }
    ensures no_more_blocks { NeedsNoMoreBlocks table.old table.new }
    ensures memory { capacity table.new ≡ capacity table.old }
{
    let key = key_at::<T, E>(items, ix);
    let mut asking = Asking::new(
        |at: ItemIndex|
            requires { IsLive items.now.store at }
            ensures { IsKeyAt E.key_of items.entry.now.store at result.now }
        { key_at::<T, E>(items, at) },
    );
    let is_removed = table.prepare_remove(ix, &key, &mut asking).remove();
    if !is_removed {
        table.remove_exact(ix);
    }
}
