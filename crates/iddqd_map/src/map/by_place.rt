//! Calls that name a unique key by its place in the key index: `find_by::<Here, _>(query)`.
//!
//! A map with a name of its own has the same calls under the names of its keys.
ghost use Rattle.std.specs.Prelude.{◌≡◌, ◌↔◌, ◌≤◌, ◌+◌, false, option_copied, OnSome, IfNone};
ghost use Rattle.iddqd.specs.{live_count};
ghost use Rattle.iddqd_keys.specs.Scan.{HasNoHit, AnswersScan};
ghost use Rattle.iddqd_keys.specs.KeyKeeping.{KeepsKey};
ghost use Rattle.iddqd_map.specs.Map.{capacity, room, FindsItem, Removes, RemovesFull};
ghost use Rattle.iddqd_map.specs.Calls.{MayChange, Replaces, ChangesByCall};
ghost use Rattle.iddqd_map.specs.Modify.{Modifies};

use super::Map;
use super::changes::change_found;
use super::replaces::replace_found;
use crate::key_index::{IndexLaws, KeyIndex, Moves, TakesAt, UniqueAt};
use crate::refusal::ReplaceRefusal;
use iddqd::item_index::ItemIndex;

impl<T, X: KeyIndex<T, S>, S> Map<T, X, S> {
    /// The index of the item that has the key for which the query stands.
    ///
    /// The query is a `&K`, or another query that stands for such a key. By hash, it is hashed once, and compared only
    /// with keys of the same hash; by order, it is one search.
    ///
    /// Cost: one look-up; takes no memory.
    pub fn find_by<P, Q>(&self, query: Q) -> Option<ItemIndex>
    where
        X: UniqueAt<P, Q, T, S>,
        ensures { AnswersScan self.now.store (X.stands_for query) result }
    {
        let (found, _) = self.indexes.find(&self.items, &self.state, query);
        found
    }

    /// Whether an item has the key.
    ///
    /// Cost: one look-up; takes no memory.
    pub fn contains_by<P, Q>(&self, query: Q) -> bool
    where
        X: UniqueAt<P, Q, T, S>,
        ensures { (result ≡ false) ↔ HasNoHit self.now.store (X.stands_for query) }
    {
        self.find_by::<P, Q>(query).is_some()
    }

    /// The item that has the key.
    ///
    /// Cost: one look-up; takes no memory.
    pub fn get_by<P, Q>(&self, query: Q) -> Option<&T>
    where
        X: UniqueAt<P, Q, T, S>,
        ensures { FindsItem self.now.store (X.stands_for query) (option_copied result) }
    {
        self.items.get(self.find_by::<P, Q>(query)?)
    }

    /// Removes the item that has the key, and returns it.
    ///
    /// Cost: one look-up, and a removal from each table; takes no memory.
    pub fn remove_by<P, Q>(&mut self, query: Q) -> Option<T>
    where
        X: TakesAt<P, Q, T, S>,
        ensures removes { Removes self.old (X.stands_for query) result self.new }
        ensures gone { HasNoHit self.new.store (X.stands_for query) }
        ensures room { room self.old ≤ room self.new }
        ensures count { OnSome result (live_count self.old.store ≡ live_count self.new.store + 1) }
        ensures unchanged { IfNone result (self.new ≡ self.old) }
        ensures freed { OnSome result (live_count self.old.store ≤ capacity self.old
            → room self.new ≡ room self.old + 1) }
    {
        match self.remove_full_by::<P, Q>(query) {
            Some((_, item)) => Some(item),
            None => None,
        }
    }

    /// Removes the item that has the key, and returns the index that it had, with the item.
    ///
    /// Cost: one look-up, and a removal from each table; takes no memory.
    #[inline(always)]
    pub fn remove_full_by<P, Q>(&mut self, query: Q) -> Option<(ItemIndex, T)>
    where
        X: TakesAt<P, Q, T, S>,
        ensures removes { RemovesFull self.old (X.stands_for query) result self.new }
        ensures gone { HasNoHit self.new.store (X.stands_for query) }
        ensures room { room self.old ≤ room self.new }
        ensures count { OnSome result (live_count self.old.store ≡ live_count self.new.store + 1) }
        ensures unchanged { IfNone result (self.new ≡ self.old) }
        ensures freed { OnSome result (live_count self.old.store ≤ capacity self.old
            → room self.new ≡ room self.old + 1) }
    {
        let ix = self.indexes.take(&self.items, &self.state, query)?;
        match self.items.remove(ix) {
            Some(item) => Some((ix, item)),
            None => unreachable!(),
        }
    }

    /// Replaces the item that has the key, and returns it. Otherwise it behaves as `replace_at`.
    ///
    /// By hash, what the look-up computed isn't computed again.
    ///
    /// Cost: one look-up; then a look-up by each key of the new item, and of each key that changes a removal and an
    /// insertion; takes memory only if a key in order changes and there are more items than the capacity.
    pub fn replace_by<P, Q>(&mut self, query: Q, item: T) -> Result<T, ReplaceRefusal<T, X::Taken>>
    where
        X: UniqueAt<P, Q, T, S> + Moves<T, S>,
        ensures replaces { Replaces X.alike X.same_keys X.may_need_memory X.taken self.old
            (X.stands_for query) item result self.new }
        ensures room { room self.new ≡ room self.old }
        ensures count { live_count self.new.store ≡ live_count self.old.store }
    {
        let (found, known) = self.indexes.find(&self.items, &self.state, query);
        replace_found(
            &mut self.items,
            &mut self.indexes,
            &self.state,
            known,
            found,
            item,
        )
    }

    /// Replaces the item that has the key by what the closure makes of it, and returns the old item; `None` if no item
    /// has the key.
    ///
    /// The closure is called at most once, and not at all if no item has the key. Otherwise it behaves as `replace_by`.
    ///
    /// Cost: one look-up; then a look-up by each key of the new item, and of each key that changes a removal and an
    /// insertion; takes memory only if a key in order changes and there are more items than the capacity.
    ///
    /// Asks: the closure may be called on the item that has the key.
    pub fn change_by<P, Q, F: FnOnce(&T) -> T>(
        &mut self,
        query: Q,
        f: F,
    ) -> Result<Option<T>, ReplaceRefusal<T, X::Taken>>
    where
        X: UniqueAt<P, Q, T, S> + Moves<T, S>,
        requires { MayChange F.FnOnce f self.old.store (X.stands_for query) }
        ensures changes { ChangesByCall X.alike X.same_keys X.may_need_memory X.taken F.FnOnce f self.old
            (X.stands_for query) result self.new }
        ensures room { room self.new ≡ room self.old }
        ensures count { live_count self.new.store ≡ live_count self.old.store }
    {
        let (found, known) = self.indexes.find(&self.items, &self.state, query);
        change_found(
            &mut self.items,
            &mut self.indexes,
            &self.state,
            known,
            found,
            f,
        )
    }

    /// Calls the closure with a `&mut` to the item that has the key, as `modify_at` does; if no item has the key, it
    /// returns `None` and doesn't call the closure. It is one look-up.
    ///
    /// Cost: one look-up; takes no memory.
    ///
    /// Asks: the closure may be called on the item, and leaves it its keys.
    pub fn modify_by<P, Q, R, F: FnOnce(&mut T) -> R>(&mut self, query: Q, f: F) -> Option<R>
    where
        X: UniqueAt<P, Q, T, S> + IndexLaws<T, S>,
        requires { KeepsKey F.FnOnce f X.keys (λ item. FindsItem self.old.store (X.stands_for query) (Some item)) }
        ensures modifies { Modifies F.FnOnce f self.old (X.stands_for query) result self.new }
        ensures room { room self.old ≤ room self.new }
    {
        self.modify_live(self.find_by::<P, Q>(query)?, f)
    }
}
