//! Iterates over the indexes of the items whose keys match a query, where several items may have one key.
//!
//! A linked table has the indexes under each hash as one chain. So the iterator reads no index under another hash.
ghost use Rattle.std.specs.Prelude.{◌≡◌, ◌≤◌, ⊤, ℕ, Contains, Some, IfSome, length};
ghost use Rattle.std.specs.FinMap as finite;
ghost use Rattle.std.specs.Iterator.{YieldsFirst, MakesProgress, item_count, at_most, UpTo};
ghost use Rattle.std.specs.Iterator.SizeHint.{IsWithinCount};
ghost use Rattle.iddqd.specs.Store.{sentinel};
ghost use Rattle.iddqd_keys.specs.Scan.{IsLive, itself};
ghost use Rattle.iddqd_by_hash.specs.Hashed.{AreLive};
ghost use Rattle.iddqd_groups.specs.HashedGroup.{FindsFirst, IsGroupOf};
ghost use Rattle.iddqd_groups.specs.Upcoming.{rest_of, LowersBoundFurther};

use crate::linked_table::{LinkedIndexes, LinkedTable};
use iddqd::item_index::ItemIndex;
use iddqd::item_set::ItemSet;
use iddqd::map_hash::MapHash;
use iddqd_keys::hash_key::HashKey;
use iddqd_keys::item_hash_query::ItemHashQuery;
use std::fmt;
use std::iter::FusedIterator;
use std::marker::{Model, PhantomData};

/// An iterator over the indexes that are filed under a hash and whose items have the key for which a query stands: each
/// once, in no order that a caller can rely on. It is fused.
///
/// A contract sees the indexes that are left, `rest`, and the upper bound of its `size_hint`, `bound`. The bound is the
/// number of indexes in the table, less those whose keys were read. It takes no memory, and reads only keys of indexes
/// under that hash, each once.
#[derive(Drop)]
pub struct Group<'a, T, E: HashKey<T>, Q: ItemHashQuery<T, E>> {
    indexes: LinkedIndexes<'a>,
    items: &'a ItemSet<T>,
    query: Q,
    key: PhantomData<E>,
}

impl<'a, T, E: HashKey<T>, Q: ItemHashQuery<T, E>> Model for Group<'a, T, E, Q> {
    ghost use Rattle.std.specs.Prelude.{ℕ, Contains};
    ghost use Rattle.iddqd_keys.specs.Scan.{IsLive, itself};
    ghost use Rattle.iddqd_groups.specs.HashedGroup.{hits_among};
    ghost use Rattle.iddqd_groups.specs.Upcoming.{Upcoming};

    ghost Value = { Upcoming };

    ghost view = { λ it. record {
      rest = hits_among it.items.now.store (Q.stands_for_item it.query) it.indexes.rest;
      bound = it.indexes.bound;
    } };

    ghost invariant = { λ it. (ix : ℕ) → Contains it.indexes.rest ix → IsLive it.items.now.store ix };
}

/// The indexes that are filed under `hash` and whose items have the key for which the query stands, each once.
///
/// It reads no key. The iterator reads only keys of indexes under that hash, each once.
pub fn group_of<'a, T, E, Q>(
    table: &'a LinkedTable,
    items: &'a ItemSet<T>,
    hash: MapHash,
    query: Q,
) -> Group<'a, T, E, Q>
where
    E: HashKey<T>,
    Q: ItemHashQuery<T, E>,
    requires { AreLive items.now.store table.now.filed }
    ensures group { IsGroupOf itself items.now.store table.now.filed hash (Q.stands_for_item query) result.rest }
    ensures bound { result.bound ≡ finite.len table.now.filed }
{
    Group {
        indexes: table.indexes_under(hash),
        items,
        query,
        key: PhantomData,
    }
}

impl<'a, T, E: HashKey<T>, Q: ItemHashQuery<T, E>> Iterator for Group<'a, T, E, Q> {
    type Item = ItemIndex;

    ghost next_gives = { YieldsFirst rest_of };

    ghost remaining = { item_count rest_of };

    fn next(&mut self) -> Option<ItemIndex>
        ensures steps { YieldsFirst rest_of self.old result self.new }
        ensures goes { MakesProgress (λ _. ⊤) (item_count rest_of) self.old result self.new }
        ensures bound { LowersBoundFurther self.old result self.new }
    {
        next_hit::<T, E, Q>(&mut self.indexes, self.items, &self.query)
    }

    fn size_hint(&self) -> (usize, Option<usize>)
        ensures lower { IsWithinCount result.0 (at_most (length self.now.rest)) }
        ensures upper { IfSome result.1 (UpTo (at_most (length self.now.rest))) }
        ensures bound { result ≡ (0, Some self.now.bound) }

        // There are no more indexes than that.
        ensures few { IfSome result.1 (λ most. most ≤ sentinel) }
    {
        self.indexes.size_hint()
    }
}

impl<'a, T, E: HashKey<T>, Q: ItemHashQuery<T, E>> FusedIterator for Group<'a, T, E, Q> {}

impl<'a, T, E: HashKey<T>, Q: ItemHashQuery<T, E>> fmt::Debug for Group<'a, T, E, Q> {
    fn fmt<W: fmt::Write>(&self, f: &mut fmt::Formatter<W>) -> fmt::Result {
        write!(f, "Group")
    }
}

// Advances `indexes` past the first one whose item has the key for which the query stands, and returns that index.
fn next_hit<T, E, Q>(
    indexes: &mut LinkedIndexes<'_>,
    items: &ItemSet<T>,
    query: &Q,
) -> Option<ItemIndex>
where
    E: HashKey<T>,
    Q: ItemHashQuery<T, E>,
    requires { (ix : ℕ) → Contains indexes.old.rest ix → IsLive items.now.store ix }
    ensures live { (ix : ℕ) → Contains indexes.new.rest ix → IsLive items.now.store ix }
    ensures first { FindsFirst items.now.store (Q.stands_for_item query.now)
        indexes.old.rest result indexes.new.rest }
    ensures bound { LowersBoundFurther indexes.old result indexes.new }
{
    'passing: while let Some(ix) = indexes.next() {
        if query.stands_for_item(&items[ix]) {
            return Some(ix);
        }
    }
    None
}
