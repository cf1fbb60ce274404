//! Calls that name a hashed key by its number: `find1(query)`.
//!
//! They are those of a map that has a key at the place `First`, and so on: of a `BiHashMap` and of a `TriHashMap`.
ghost use Rattle.std.specs.Prelude.{◌≡◌, ◌↔◌, ◌≤◌, ◌+◌, false, option_copied, OnSome, IfNone};
ghost use Rattle.iddqd.specs.{live_count};
ghost use Rattle.iddqd_keys.specs.Scan.{HasNoHit, AnswersScan};
ghost use Rattle.iddqd_keys.specs.KeyKeeping.{KeepsKey};
ghost use Rattle.iddqd_map.specs.Map.{capacity, room, FindsItem, Removes};
ghost use Rattle.iddqd_map.specs.Calls.{MayChange, Replaces, ChangesByCall};
ghost use Rattle.iddqd_map.specs.Modify.{Modifies};

use super::Map;
use crate::key_index::{First, IndexLaws, KeyIndex, Moves, Second, TakesAt, Third, UniqueAt};
use crate::refusal::ReplaceRefusal;
use iddqd::item_index::ItemIndex;

impl<T, X: KeyIndex<T, S>, S> Map<T, X, S> {
    /// The index of the item that has the first key for which the query stands.
    ///
    /// The query is a `&T::Key1`, or another query that stands for such a key. Only keys of the same hash are compared
    /// with it.
    ///
    /// Cost: one look-up; takes no memory.
    pub fn find1<Q>(&self, query: Q) -> Option<ItemIndex>
    where
        X: UniqueAt<First, Q, T, S>,
        ensures { AnswersScan self.now.store (X.stands_for query) result }
    {
        self.find_by::<First, Q>(query)
    }

    /// Whether an item has the first key.
    ///
    /// Cost: one look-up; takes no memory.
    pub fn contains_key1<Q>(&self, query: Q) -> bool
    where
        X: UniqueAt<First, Q, T, S>,
        ensures { (result ≡ false) ↔ HasNoHit self.now.store (X.stands_for query) }
    {
        self.contains_by::<First, Q>(query)
    }

    /// The item that has the first key.
    ///
    /// Cost: one look-up; takes no memory.
    pub fn get1<Q>(&self, query: Q) -> Option<&T>
    where
        X: UniqueAt<First, Q, T, S>,
        ensures { FindsItem self.now.store (X.stands_for query) (option_copied result) }
    {
        self.get_by::<First, Q>(query)
    }

    /// Removes the item that has the first key, and returns it.
    ///
    /// Cost: one look-up, and a removal from each table; takes no memory.
    pub fn remove1<Q>(&mut self, query: Q) -> Option<T>
    where
        X: TakesAt<First, Q, T, S>,
        ensures removes { Removes self.old (X.stands_for query) result self.new }
        ensures gone { HasNoHit self.new.store (X.stands_for query) }
        ensures room { room self.old ≤ room self.new }
        ensures count { OnSome result (live_count self.old.store ≡ live_count self.new.store + 1) }
        ensures unchanged { IfNone result (self.new ≡ self.old) }
        ensures freed { OnSome result (live_count self.old.store ≤ capacity self.old
            → room self.new ≡ room self.old + 1) }
    {
        self.remove_by::<First, Q>(query)
    }

    /// Replaces the item that has the first key, and returns the old one.
    ///
    /// The new item may have other keys. It gets the same index. If other items have a key of it, it comes back, and
    /// nothing changes. It touches no table whose key stays, and takes no memory if all keys go by their hashes.
    ///
    /// Cost: one look-up; then a look-up by each key of the new item, and of each key that changes a removal and an
    /// insertion; takes memory only if a key in order changes and there are more items than the capacity.
    pub fn replace1<Q>(&mut self, query: Q, item: T) -> Result<T, ReplaceRefusal<T, X::Taken>>
    where
        X: UniqueAt<First, Q, T, S> + Moves<T, S>,
        ensures replaces { Replaces X.alike X.same_keys X.may_need_memory X.taken self.old
            (X.stands_for query) item result self.new }
        ensures room { room self.new ≡ room self.old }
        ensures count { live_count self.new.store ≡ live_count self.old.store }
    {
        self.replace_by::<First, Q>(query, item)
    }

    /// Replaces the item that has the first key by what the closure makes of it, and returns the old item; `None` if no
    /// item has the key.
    ///
    /// The closure is called at most once, and not at all if no item has the key. Otherwise it behaves as `replace1`.
    ///
    /// Cost: one look-up; then a look-up by each key of the new item, and of each key that changes a removal and an
    /// insertion; takes memory only if a key in order changes and there are more items than the capacity.
    ///
    /// Asks: the closure may be called on the item that has the key.
    pub fn change1<Q, F: FnOnce(&T) -> T>(
        &mut self,
        query: Q,
        f: F,
    ) -> Result<Option<T>, ReplaceRefusal<T, X::Taken>>
    where
        X: UniqueAt<First, Q, T, S> + Moves<T, S>,
        requires { MayChange F.FnOnce f self.old.store (X.stands_for query) }
        ensures changes { ChangesByCall X.alike X.same_keys X.may_need_memory X.taken F.FnOnce f self.old
            (X.stands_for query) result self.new }
        ensures room { room self.new ≡ room self.old }
        ensures count { live_count self.new.store ≡ live_count self.old.store }
    {
        self.change_by::<First, Q, F>(query, f)
    }

    /// Calls the closure with a `&mut` to the item that has the first key, as `modify_at` does; if no item has the key,
    /// it returns `None` and doesn't call the closure. It is one look-up.
    ///
    /// Cost: one look-up; takes no memory.
    ///
    /// Asks: the closure may be called on the item, and leaves it its keys.
    pub fn modify1<Q, R, F: FnOnce(&mut T) -> R>(&mut self, query: Q, f: F) -> Option<R>
    where
        X: UniqueAt<First, Q, T, S> + IndexLaws<T, S>,
        requires { KeepsKey F.FnOnce f X.keys (λ item. FindsItem self.old.store (X.stands_for query) (Some item)) }
        ensures modifies { Modifies F.FnOnce f self.old (X.stands_for query) result self.new }
        ensures room { room self.old ≤ room self.new }
    {
        self.modify_by::<First, Q, R, F>(query, f)
    }

    /// The index of the item that has the second key for which the query stands, found as `find1` finds it.
    ///
    /// Cost: one look-up; takes no memory.
    pub fn find2<Q>(&self, query: Q) -> Option<ItemIndex>
    where
        X: UniqueAt<Second, Q, T, S>,
        ensures { AnswersScan self.now.store (X.stands_for query) result }
    {
        self.find_by::<Second, Q>(query)
    }

    /// Whether an item has the second key.
    ///
    /// Cost: one look-up; takes no memory.
    pub fn contains_key2<Q>(&self, query: Q) -> bool
    where
        X: UniqueAt<Second, Q, T, S>,
        ensures { (result ≡ false) ↔ HasNoHit self.now.store (X.stands_for query) }
    {
        self.contains_by::<Second, Q>(query)
    }

    /// The item that has the second key.
    ///
    /// Cost: one look-up; takes no memory.
    pub fn get2<Q>(&self, query: Q) -> Option<&T>
    where
        X: UniqueAt<Second, Q, T, S>,
        ensures { FindsItem self.now.store (X.stands_for query) (option_copied result) }
    {
        self.get_by::<Second, Q>(query)
    }

    /// Removes the item that has the second key, and returns it.
    ///
    /// Cost: one look-up, and a removal from each table; takes no memory.
    pub fn remove2<Q>(&mut self, query: Q) -> Option<T>
    where
        X: TakesAt<Second, Q, T, S>,
        ensures removes { Removes self.old (X.stands_for query) result self.new }
        ensures gone { HasNoHit self.new.store (X.stands_for query) }
        ensures room { room self.old ≤ room self.new }
        ensures count { OnSome result (live_count self.old.store ≡ live_count self.new.store + 1) }
        ensures unchanged { IfNone result (self.new ≡ self.old) }
        ensures freed { OnSome result (live_count self.old.store ≤ capacity self.old
            → room self.new ≡ room self.old + 1) }
    {
        self.remove_by::<Second, Q>(query)
    }

    /// Replaces the item that has the second key, as `replace1` does.
    ///
    /// Cost: one look-up; then a look-up by each key of the new item, and of each key that changes a removal and an
    /// insertion; takes memory only if a key in order changes and there are more items than the capacity.
    pub fn replace2<Q>(&mut self, query: Q, item: T) -> Result<T, ReplaceRefusal<T, X::Taken>>
    where
        X: UniqueAt<Second, Q, T, S> + Moves<T, S>,
        ensures replaces { Replaces X.alike X.same_keys X.may_need_memory X.taken self.old
            (X.stands_for query) item result self.new }
        ensures room { room self.new ≡ room self.old }
        ensures count { live_count self.new.store ≡ live_count self.old.store }
    {
        self.replace_by::<Second, Q>(query, item)
    }

    /// Replaces the item that has the second key by what the closure makes of it, as `change1` does.
    ///
    /// Cost: one look-up; then a look-up by each key of the new item, and of each key that changes a removal and an
    /// insertion; takes memory only if a key in order changes and there are more items than the capacity.
    ///
    /// Asks: the closure may be called on the item that has the key.
    pub fn change2<Q, F: FnOnce(&T) -> T>(
        &mut self,
        query: Q,
        f: F,
    ) -> Result<Option<T>, ReplaceRefusal<T, X::Taken>>
    where
        X: UniqueAt<Second, Q, T, S> + Moves<T, S>,
        requires { MayChange F.FnOnce f self.old.store (X.stands_for query) }
        ensures changes { ChangesByCall X.alike X.same_keys X.may_need_memory X.taken F.FnOnce f self.old
            (X.stands_for query) result self.new }
        ensures room { room self.new ≡ room self.old }
        ensures count { live_count self.new.store ≡ live_count self.old.store }
    {
        self.change_by::<Second, Q, F>(query, f)
    }

    /// Calls the closure with a `&mut` to the item that has the second key, as `modify1` does.
    ///
    /// Cost: one look-up; takes no memory.
    ///
    /// Asks: the closure may be called on the item, and leaves it its keys.
    pub fn modify2<Q, R, F: FnOnce(&mut T) -> R>(&mut self, query: Q, f: F) -> Option<R>
    where
        X: UniqueAt<Second, Q, T, S> + IndexLaws<T, S>,
        requires { KeepsKey F.FnOnce f X.keys (λ item. FindsItem self.old.store (X.stands_for query) (Some item)) }
        ensures modifies { Modifies F.FnOnce f self.old (X.stands_for query) result self.new }
        ensures room { room self.old ≤ room self.new }
    {
        self.modify_by::<Second, Q, R, F>(query, f)
    }

    /// The index of the item that has the third key for which the query stands, found as `find1` finds it.
    ///
    /// Cost: one look-up; takes no memory.
    pub fn find3<Q>(&self, query: Q) -> Option<ItemIndex>
    where
        X: UniqueAt<Third, Q, T, S>,
        ensures { AnswersScan self.now.store (X.stands_for query) result }
    {
        self.find_by::<Third, Q>(query)
    }

    /// Whether an item has the third key.
    ///
    /// Cost: one look-up; takes no memory.
    pub fn contains_key3<Q>(&self, query: Q) -> bool
    where
        X: UniqueAt<Third, Q, T, S>,
        ensures { (result ≡ false) ↔ HasNoHit self.now.store (X.stands_for query) }
    {
        self.contains_by::<Third, Q>(query)
    }

    /// The item that has the third key.
    ///
    /// Cost: one look-up; takes no memory.
    pub fn get3<Q>(&self, query: Q) -> Option<&T>
    where
        X: UniqueAt<Third, Q, T, S>,
        ensures { FindsItem self.now.store (X.stands_for query) (option_copied result) }
    {
        self.get_by::<Third, Q>(query)
    }

    /// Removes the item that has the third key, and returns it.
    ///
    /// Cost: one look-up, and a removal from each table; takes no memory.
    pub fn remove3<Q>(&mut self, query: Q) -> Option<T>
    where
        X: TakesAt<Third, Q, T, S>,
        ensures removes { Removes self.old (X.stands_for query) result self.new }
        ensures gone { HasNoHit self.new.store (X.stands_for query) }
        ensures room { room self.old ≤ room self.new }
        ensures count { OnSome result (live_count self.old.store ≡ live_count self.new.store + 1) }
        ensures unchanged { IfNone result (self.new ≡ self.old) }
        ensures freed { OnSome result (live_count self.old.store ≤ capacity self.old
            → room self.new ≡ room self.old + 1) }
    {
        self.remove_by::<Third, Q>(query)
    }

    /// Replaces the item that has the third key, as `replace1` does.
    ///
    /// Cost: one look-up; then a look-up by each key of the new item, and of each key that changes a removal and an
    /// insertion; takes memory only if a key in order changes and there are more items than the capacity.
    pub fn replace3<Q>(&mut self, query: Q, item: T) -> Result<T, ReplaceRefusal<T, X::Taken>>
    where
        X: UniqueAt<Third, Q, T, S> + Moves<T, S>,
        ensures replaces { Replaces X.alike X.same_keys X.may_need_memory X.taken self.old
            (X.stands_for query) item result self.new }
        ensures room { room self.new ≡ room self.old }
        ensures count { live_count self.new.store ≡ live_count self.old.store }
    {
        self.replace_by::<Third, Q>(query, item)
    }

    /// Replaces the item that has the third key by what the closure makes of it, as `change1` does.
    ///
    /// Cost: one look-up; then a look-up by each key of the new item, and of each key that changes a removal and an
    /// insertion; takes memory only if a key in order changes and there are more items than the capacity.
    ///
    /// Asks: the closure may be called on the item that has the key.
    pub fn change3<Q, F: FnOnce(&T) -> T>(
        &mut self,
        query: Q,
        f: F,
    ) -> Result<Option<T>, ReplaceRefusal<T, X::Taken>>
    where
        X: UniqueAt<Third, Q, T, S> + Moves<T, S>,
        requires { MayChange F.FnOnce f self.old.store (X.stands_for query) }
        ensures changes { ChangesByCall X.alike X.same_keys X.may_need_memory X.taken F.FnOnce f self.old
            (X.stands_for query) result self.new }
        ensures room { room self.new ≡ room self.old }
        ensures count { live_count self.new.store ≡ live_count self.old.store }
    {
        self.change_by::<Third, Q, F>(query, f)
    }

    /// Calls the closure with a `&mut` to the item that has the third key, as `modify1` does.
    ///
    /// Cost: one look-up; takes no memory.
    ///
    /// Asks: the closure may be called on the item, and leaves it its keys.
    pub fn modify3<Q, R, F: FnOnce(&mut T) -> R>(&mut self, query: Q, f: F) -> Option<R>
    where
        X: UniqueAt<Third, Q, T, S> + IndexLaws<T, S>,
        requires { KeepsKey F.FnOnce f X.keys (λ item. FindsItem self.old.store (X.stands_for query) (Some item)) }
        ensures modifies { Modifies F.FnOnce f self.old (X.stands_for query) result self.new }
        ensures room { room self.old ≤ room self.new }
    {
        self.modify_by::<Third, Q, R, F>(query, f)
    }
}
