//! Calls that insert an item unless one has its key: then they modify that one, or return its index.
ghost use Rattle.std.specs.Prelude.{◌≡◌, ◌≤◌, ℕ, true, Ok, Some, IfOk, IfErr, OnErr};
ghost use Rattle.iddqd.specs.{get};
ghost use Rattle.iddqd_keys.specs.Scan.{HasNoHit, IsHit, IsLive};
ghost use Rattle.iddqd_map.specs.Calls.{Inserts, IsDuplicate};
ghost use Rattle.iddqd_map.specs.Map.{FindsItem, room};
ghost use Rattle.iddqd_map.specs.Upsert.{InsertsMade, IsCallableWith, LeavesKey, MergesAt};

use super::Map;
use crate::key_index::{Changes, IndexLaws, ReportsAt, UniqueAt};
use crate::refusal::InsertRefusal;
use iddqd::item_index::ItemIndex;

impl<T, X: Changes<T, S>, S> Map<T, X, S> {
    /// Calls the closure with a `&mut` to the item that shares the key at the place with the new item, and with the new
    /// item. If no item shares that key, it inserts the new item. It returns the index of the item that was modified or
    /// inserted.
    ///
    /// Where an item shares that key, it doesn't matter whether others share further keys, since the new item isn't
    /// stored; the caller proves that the closure leaves the stored one its keys. If no item shares it, the new one is
    /// refused as by `insert_unique`. Each key of the new item is hashed once and looked up once.
    ///
    /// Cost: one look-up and one insertion by each key, of which each is hashed once; takes memory only without `room`.
    ///
    /// Asks: the closure may be called with the stored item and the new one, and leaves the stored one its keys.
    pub fn modify_or_insert_by<P, F: FnOnce(&mut T, T)>(
        &mut self,
        item: T,
        f: F,
    ) -> Result<ItemIndex, InsertRefusal<T, X::Conflict>>
    where
        X: IndexLaws<T, S> + ReportsAt<P, T, S>,
        requires callable { IsCallableWith F.FnOnce f item
            (λ was. FindsItem self.old.store (X.alike_at item) (Some was)) }
        requires keeps { LeavesKey F.FnOnce f item X.keys
            (λ was. FindsItem self.old.store (X.alike_at item) (Some was)) }
        ensures modifies { (ix : ℕ) → IsHit self.old.store (X.alike_at item) ix →
            (result ≡ Ok ix) × MergesAt F.FnOnce f item self.old ix self.new }
        ensures inserts { HasNoHit self.old.store (X.alike_at item) →
            Inserts X.alike X.grown X.conflicts self.old item result self.new }
        ensures unchanged { OnErr result (self.new.store ≡ self.old.store) }
        ensures not_refused { 1 ≤ room self.old → IfErr result IsDuplicate }
    {
        match self.insert_unique(item) {
            Ok(ix) => Ok(ix),
            Err(InsertRefusal::Duplicate { item, at }) => match X::reported_at(&at) {
                Some(ix) => {
                    self.merge_at(ix, item, f);
                    Ok(ix)
                }
                None => Err(InsertRefusal::Duplicate { item, at }),
            },
            Err(InsertRefusal::Full(item)) => Err(InsertRefusal::Full(item)),
            Err(InsertRefusal::Memory(item)) => Err(InsertRefusal::Memory(item)),
        }
    }

    /// The index of the item that has the key for which the query stands; if no item has it, of the item that the
    /// closure makes, which is inserted. The caller proves that what the closure makes has that key.
    ///
    /// The closure is called at most once, and not at all if an item has the key. What it makes is refused as
    /// `insert_unique` refuses an item. An index that is found costs one look-up; an insert costs one look-up more than
    /// `insert_unique` does.
    ///
    /// Cost: one look-up; for an insert what `insert_unique` costs beside it; takes memory only without `room`.
    ///
    /// Asks: where no item has the key, the closure may be called, and what it makes has the key.
    pub fn find_or_insert_with<P, Q, F: FnOnce() -> T>(
        &mut self,
        query: Q,
        make: F,
    ) -> Result<ItemIndex, InsertRefusal<T, X::Conflict>>
    where
        X: UniqueAt<P, Q, T, S>,
        requires callable { HasNoHit self.old.store (X.stands_for query) → F.FnOnce.pre make tt }
        requires key { (item : T) → F.FnOnce.post make tt item → X.stands_for query item ≡ true }
        ensures found { (ix : ℕ) → IsHit self.old.store (X.stands_for query) ix →
            (result ≡ Ok ix) × (self.new ≡ self.old) }
        ensures inserts { HasNoHit self.old.store (X.stands_for query) →
            InsertsMade X.alike X.grown X.conflicts F.FnOnce make self.old result self.new }
        ensures hit { IfOk result (IsHit self.new.store (X.stands_for query)) }
        ensures unchanged { OnErr result (self.new.store ≡ self.old.store) }
        ensures not_refused { 1 ≤ room self.old → IfErr result IsDuplicate }
    {
        if let Some(ix) = self.find_by::<P, Q>(query) {
            return Ok(ix);
        }
        self.insert_unique(make())
    }
}

impl<T, X: IndexLaws<T, S>, S> Map<T, X, S> {
    // Calls the closure with a `&mut` to the item at a live index and with another item.
    fn merge_at<F: FnOnce(&mut T, T)>(&mut self, ix: ItemIndex, item: T, f: F)
        requires live { IsLive self.old.store ix }
        requires callable { IsCallableWith F.FnOnce f item (λ was. get self.old.store ix ≡ Some was) }
        requires keeps { LeavesKey F.FnOnce f item X.keys (λ was. get self.old.store ix ≡ Some was) }
        ensures { MergesAt F.FnOnce f item self.old ix self.new }
    {
        match self.items.get_mut(ix) {
            Some(was) => f(was, item),
            None => unreachable!(),
        }
    }
}
