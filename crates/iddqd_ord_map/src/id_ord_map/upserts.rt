//! Calls that insert an item unless one has its key: then they modify that one, or return its index.
ghost use Rattle.std.specs.Prelude.{◌≡◌, ◌≤◌, ℕ, true, Ok, Some, IfOk, IfErr, OnErr};
ghost use Rattle.iddqd_by_order.specs.Ordered.{is_equal};
ghost use Rattle.iddqd_keys.specs.Scan.{HasNoHit, IsHit};
ghost use Rattle.iddqd_map.specs.Calls.{IsDuplicate};
ghost use Rattle.iddqd_map.specs.Map.{FindsItem, room};
ghost use Rattle.iddqd_map.specs.Upsert.{IsCallableWith, LeavesKey, MergesAt};
ghost use Rattle.iddqd_ord_map.specs.OrdMap.{InsertsInOrder, InsertsMadeInOrder};
ghost use Rattle.iddqd_ord_map.specs.OrderedIndexing.{alike_in_order};

use super::OrdMapBy;
use iddqd::item_index::ItemIndex;
use iddqd_keys::item_order_query::ItemOrdQuery;
use iddqd_keys::order_key::OrdKey;
use iddqd_map::key_index::Here;
use iddqd_map::refusal::InsertRefusal;

impl<T: Drop, E: OrdKey<T>> OrdMapBy<T, E> {
    /// Calls the closure with a `&mut` to the item that has the key of the new item, and with the new item. If no item
    /// has its key, it inserts the new item. It returns the index of the item that was modified or inserted.
    ///
    /// The caller proves that the closure leaves the stored item its key. If no item has the key, the new one is
    /// refused as by `insert_unique`. The table is searched once.
    ///
    /// Cost: one search; takes memory only without `room`.
    ///
    /// Asks: the closure may be called with the stored item and the new one, and leaves the stored one its keys.
    pub fn modify_or_insert<F: FnOnce(&mut T, T)>(
        &mut self,
        item: T,
        f: F,
    ) -> Result<ItemIndex, InsertRefusal<T, ItemIndex>>
        requires callable { IsCallableWith F.FnOnce f item
            (λ was. FindsItem self.old.store (alike_in_order E.key_of E.cmp item) (Some was)) }
        requires keeps { LeavesKey F.FnOnce f item E.key_of
            (λ was. FindsItem self.old.store (alike_in_order E.key_of E.cmp item) (Some was)) }
        ensures modifies { (ix : ℕ) → IsHit self.old.store (alike_in_order E.key_of E.cmp item) ix →
            (result ≡ Ok ix) × MergesAt F.FnOnce f item self.old ix self.new }
        ensures inserts { HasNoHit self.old.store (alike_in_order E.key_of E.cmp item) →
            InsertsInOrder E.key_of E.cmp self.old item result self.new }
        ensures unchanged { OnErr result (self.new.store ≡ self.old.store) }
        ensures not_refused { 1 ≤ room self.old → IfErr result IsDuplicate }
    {
        self.map.modify_or_insert_by::<Here, F>(item, f)
    }

    /// The index of the item that has the key for which the query stands; if no item has it, of the item that the
    /// closure makes, which is inserted. The caller proves that what the closure makes has that key.
    ///
    /// The closure is called at most once, and not at all if an item has the key. What it makes is refused as
    /// `insert_unique` refuses an item. An index that is found costs one search, an insert two.
    ///
    /// Cost: one search; for an insert two; takes memory only without `room`.
    ///
    /// Asks: where no item has the key, the closure may be called, and what it makes has the key.
    pub fn find_or_insert_with<Q: ItemOrdQuery<T, E>, F: FnOnce() -> T>(
        &mut self,
        query: Q,
        make: F,
    ) -> Result<ItemIndex, InsertRefusal<T, ItemIndex>>
        requires callable { HasNoHit self.old.store (is_equal (Q.compare_item query)) → F.FnOnce.pre make tt }
        requires key { (item : T) → F.FnOnce.post make tt item → is_equal (Q.compare_item query) item ≡ true }
        ensures found { (ix : ℕ) → IsHit self.old.store (is_equal (Q.compare_item query)) ix →
            (result ≡ Ok ix) × (self.new ≡ self.old) }
        ensures inserts { HasNoHit self.old.store (is_equal (Q.compare_item query)) →
            InsertsMadeInOrder E.key_of E.cmp F.FnOnce make self.old result self.new }
        ensures hit { IfOk result (IsHit self.new.store (is_equal (Q.compare_item query))) }
        ensures unchanged { OnErr result (self.new.store ≡ self.old.store) }
        ensures not_refused { 1 ≤ room self.old → IfErr result IsDuplicate }
    {
        self.map.find_or_insert_with::<Here, Q, F>(query, make)
    }
}
