//! A map of items that have one key each, found by its hash: a [`Map`] whose key index is one table.
//!
//! All calls that name no key are `Map`'s, but for `insert_overwrite`. It is here, beside the calls that name the key;
//! each of these is the call of `Map` at the place `Here`. They are those of a `HashMapBy`, which takes any key that is
//! read in place; an `IdHashMap` is one by the key that its items name.
ghost use Rattle.std.specs.Prelude.{◌≡◌, ◌≤◌, ◌↔◌, ◌+◌, false, Some, Ok, option_copied, IsOk, IfOk, OnErr, OnSome, IfNone};
ghost use Rattle.iddqd.specs.{live_count};
ghost use Rattle.iddqd_hash.specs.Sizes.{most_cells};
ghost use Rattle.iddqd_keys.specs.Scan.{HasNoHit, AnswersScan};
ghost use Rattle.iddqd_keys.specs.KeyKeeping.{KeepsKey};
ghost use Rattle.iddqd_map.specs.Map.{capacity, room, shares, FindsItem, Removes, RemovesFull};
ghost use Rattle.iddqd_map.specs.Calls.{MayChange};
ghost use Rattle.iddqd_map.specs.Modify.{Modifies};
ghost use Rattle.iddqd_map.specs.OneKey.{ChangesOne, OverwritesOne, ReplacesOne};

mod clones;
mod prints;

use crate::by_hash::ByHashOf;
use crate::key_index::Here;
use crate::map::Map;
use crate::refusal::{InsertRefusal, OverwriteRefusal, ReplaceRefusal};
pub use clones::IdHashClone;
use iddqd::hash_builder::DefaultHashBuilder;
use iddqd::item_index::ItemIndex;
use iddqd_keys::hash_key::HashKey;
pub use iddqd_keys::id_hash_item::IdHashItem;
use iddqd_keys::item_hash_query::ItemHashQuery;
use iddqd_keys::key_kinds::ItsKey;
use std::hash::BuildHasher;

/// A table by the key.
pub type IdIndex<T> = ByHashOf<ItsKey<<T as IdHashItem>::Key>>;

/// Items under stable indexes, which all have different keys `E`.
///
/// The key is a `Field`, an `ItsKey`, a `Computed` value, a `HashKey` of your own, or a tuple of keys:
/// `HashMapBy<Artifact, (Field<Name, String>, Field<Version, String>)>`.
pub type HashMapBy<T, E, S = DefaultHashBuilder> = Map<T, ByHashOf<E>, S>;

/// Items under stable indexes, which all have different keys.
pub type IdHashMap<T, S = DefaultHashBuilder> = Map<T, IdIndex<T>, S>;

impl<T, E: HashKey<T>, S: BuildHasher> Map<T, ByHashOf<E>, S> {
    /// The index of the item that has the key for which the query stands.
    ///
    /// For a field the query is a `&K`, or another query that stands for such a key; for a tuple of keys it is the
    /// tuple of their queries. Only keys of the same hash are compared with it.
    ///
    /// Cost: one look-up; takes no memory.
    pub fn find<Q: ItemHashQuery<T, E>>(&self, query: Q) -> Option<ItemIndex>
        ensures { AnswersScan self.now.store (Q.stands_for_item query) result }
    {
        self.find_by::<Here, Q>(query)
    }

    /// Whether an item has the key.
    ///
    /// Cost: one look-up; takes no memory.
    pub fn contains_key<Q: ItemHashQuery<T, E>>(&self, query: Q) -> bool
        ensures { (result ≡ false) ↔ HasNoHit self.now.store (Q.stands_for_item query) }
    {
        self.contains_by::<Here, Q>(query)
    }

    /// The item that has the key.
    ///
    /// Cost: one look-up; takes no memory.
    pub fn get<Q: ItemHashQuery<T, E>>(&self, query: Q) -> Option<&T>
        ensures { FindsItem self.now.store (Q.stands_for_item query) (option_copied result) }
    {
        self.get_by::<Here, Q>(query)
    }

    /// Removes the item that has the key, and returns it.
    ///
    /// Cost: one look-up, and a removal from each table; takes no memory.
    pub fn remove<Q: ItemHashQuery<T, E>>(&mut self, query: Q) -> Option<T>
        ensures removes { Removes self.old (Q.stands_for_item query) result self.new }
        ensures gone { HasNoHit self.new.store (Q.stands_for_item query) }
        ensures room { room self.old ≤ room self.new }
        ensures count { OnSome result (live_count self.old.store ≡ live_count self.new.store + 1) }
        ensures unchanged { IfNone result (self.new ≡ self.old) }
        ensures freed { OnSome result (live_count self.old.store ≤ capacity self.old
            → room self.new ≡ room self.old + 1) }
    {
        self.remove_by::<Here, Q>(query)
    }

    /// Removes the item that has the key, and returns the index that it had, with the item.
    ///
    /// Cost: one look-up, and a removal from each table; takes no memory.
    pub fn remove_full<Q: ItemHashQuery<T, E>>(&mut self, query: Q) -> Option<(ItemIndex, T)>
        ensures removes { RemovesFull self.old (Q.stands_for_item query) result self.new }
        ensures gone { HasNoHit self.new.store (Q.stands_for_item query) }
        ensures room { room self.old ≤ room self.new }
        ensures count { OnSome result (live_count self.old.store ≡ live_count self.new.store + 1) }
        ensures unchanged { IfNone result (self.new ≡ self.old) }
        ensures freed { OnSome result (live_count self.old.store ≤ capacity self.old
            → room self.new ≡ room self.old + 1) }
    {
        self.remove_full_by::<Here, Q>(query)
    }

    /// Replaces the item that has the key, and returns the old one.
    ///
    /// The new item may have another key. It gets the same index. If another item has its key, it comes back, and
    /// nothing changes. It takes no memory, and touches no table whose key stays.
    ///
    /// Cost: one look-up; then a look-up by each key of the new item, and of each key that changes a removal and an
    /// insertion; takes memory only if a key in order changes and there are more items than the capacity.
    pub fn replace<Q: ItemHashQuery<T, E>>(
        &mut self,
        query: Q,
        item: T,
    ) -> Result<T, ReplaceRefusal<T, ItemIndex>>
        ensures replaces { ReplacesOne (shares E.key_of E.eq) self.old
            (Q.stands_for_item query) item result self.new }
        ensures room { room self.new ≡ room self.old }
        ensures count { live_count self.new.store ≡ live_count self.old.store }
    {
        self.replace_by::<Here, Q>(query, item)
    }

    /// Replaces the item that has the key by what the closure makes of it, and returns the old item; `None` if no item
    /// has the key.
    ///
    /// The closure is called at most once, and not at all if no item has the key. Otherwise it behaves as `replace`.
    ///
    /// Cost: one look-up; then a look-up by each key of the new item, and of each key that changes a removal and an
    /// insertion; takes memory only if a key in order changes and there are more items than the capacity.
    ///
    /// Asks: the closure may be called on the item that has the key.
    pub fn change<Q: ItemHashQuery<T, E>, F: FnOnce(&T) -> T>(
        &mut self,
        query: Q,
        f: F,
    ) -> Result<Option<T>, ReplaceRefusal<T, ItemIndex>>
        requires { MayChange F.FnOnce f self.old.store (Q.stands_for_item query) }
        ensures changes { ChangesOne (shares E.key_of E.eq) F.FnOnce f self.old
            (Q.stands_for_item query) result self.new }
        ensures room { room self.new ≡ room self.old }
        ensures count { live_count self.new.store ≡ live_count self.old.store }
    {
        self.change_by::<Here, Q, F>(query, f)
    }

    /// Calls the closure with a `&mut` to the item that has the key, as `modify_at` does; if no item has the key, it
    /// returns `None` and doesn't call the closure. It is one look-up.
    ///
    /// Cost: one look-up; takes no memory.
    ///
    /// Asks: the closure may be called on the item, and leaves it its keys.
    pub fn modify<Q: ItemHashQuery<T, E>, R, F: FnOnce(&mut T) -> R>(
        &mut self,
        query: Q,
        f: F,
    ) -> Option<R>
        requires { let named = Q.stands_for_item query in
            KeepsKey F.FnOnce f E.key_of (λ item. FindsItem self.old.store named (Some item)) }
        ensures modifies { Modifies F.FnOnce f self.old (Q.stands_for_item query) result self.new }
        ensures room { room self.old ≤ room self.new }
    {
        self.modify_by::<Here, Q, R, F>(query, f)
    }

    /// Inserts an item in place of the one that has its key, if one has. Returns the index, and the item that was
    /// removed.
    ///
    /// If an item has its key, it takes no memory and isn't refused. If none has, it inserts as `insert_unique` does,
    /// and may be refused for the same reasons.
    ///
    /// Cost: one look-up and one insertion by each key, of which each is hashed once; of each item that it removes a
    /// removal from each table; takes memory only without `room`, and if it removes no item.
    pub fn insert_overwrite(
        &mut self,
        item: T,
    ) -> Result<(ItemIndex, Option<T>), OverwriteRefusal<T>>
        ensures inserts { OverwritesOne (shares E.key_of E.eq) most_cells self.old item result self.new }
        ensures one_more { IfOk result (λ put. IfNone put.1
            (live_count self.new.store ≡ live_count self.old.store + 1)) }
        ensures as_many { IfOk result (λ put. OnSome put.1 (live_count self.new.store ≡ live_count self.old.store)) }
        ensures unchanged { OnErr result (self.new.store ≡ self.old.store) }
        ensures not_refused { 1 ≤ room self.old → IsOk result }
        ensures room { IfOk result (λ put. IfNone put.1 (1 ≤ room self.old → room self.old ≡ room self.new + 1)) }
        ensures same_room { IfOk result (λ put. OnSome put.1 (room self.new ≡ room self.old)) }
    {
        match self.insert_unique(item) {
            Ok(ix) => Ok((ix, None)),
            Err(InsertRefusal::Duplicate { item, at }) => Ok((at, self.stand_in(at, item))),
            Err(InsertRefusal::Full(item)) => Err(OverwriteRefusal::Full(item)),
            Err(InsertRefusal::Memory(item)) => Err(OverwriteRefusal::Memory(item)),
        }
    }

    // Replaces the item at an index by one that has the same key.
    fn stand_in(&mut self, at: ItemIndex, item: T) -> Option<T>
        requires only { AnswersScan self.old.store (shares E.key_of E.eq item) (Some at) }
        ensures stands { (was : T) × (result ≡ Some was)
            × OverwritesOne (shares E.key_of E.eq) most_cells self.old item (Ok (at, Some was)) self.new }
        ensures count { live_count self.new.store ≡ live_count self.old.store }
        ensures room { room self.new ≡ room self.old }
    {
        match self.replace_at(at, item) {
            Ok(was) => Some(was),
            Err(_) => unreachable!(),
        }
    }
}
