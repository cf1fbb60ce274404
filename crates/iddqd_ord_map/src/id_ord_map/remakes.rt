//! Replaces an item by what a closure makes of it, where the closure takes the item itself: for items that own memory.
ghost use Rattle.std.specs.Prelude.{◌≡◌, ◌≤◌, Some, IfOk, IfSome, IfNone, OnOk, OnErr};
ghost use Rattle.iddqd.specs.{get, live_count, next_index, removed};
ghost use Rattle.iddqd_by_order.specs.Ordered.{is_equal};
ghost use Rattle.iddqd_map.specs.Map.{FindsItem, room};
ghost use Rattle.iddqd_ord_map.specs.OrdMap.{RemakesInOrder, RemakesInOrderIfLive};

use super::OrdMapBy;
use iddqd::item_index::ItemIndex;
use iddqd_keys::item_order_query::ItemOrdQuery;
use iddqd_keys::order_key::OrdKey;
use iddqd_map::key_index::Here;
use iddqd_map::refusal::InsertRefusal;

impl<T: Drop, E: OrdKey<T>> OrdMapBy<T, E> {
    /// Replaces the item that has the key by what the closure makes of it, and returns its index, which stays;
    /// `Ok(None)` if no item has the key, and then the closure isn't called.
    ///
    /// The new item may have another key. If another item has that one, or memory runs out, it comes back. The old item
    /// is gone then, and its index is the next that an insert takes. It is never refused as full, and within the
    /// capacity it takes no memory. It costs three searches. `replace` and `change` keep the old item.
    ///
    /// Cost: three searches; takes memory only if there are more items than the capacity.
    ///
    /// Asks: the closure may be called with the item.
    pub fn remake<Q: ItemOrdQuery<T, E>, F: FnOnce(T) -> T>(
        &mut self,
        query: Q,
        f: F,
    ) -> Result<Option<ItemIndex>, InsertRefusal<T, ItemIndex>>
        requires { (item : T) → FindsItem self.old.store (is_equal (Q.compare_item query)) (Some item)
            → F.FnOnce.pre f (item, tt) }
        ensures remakes { RemakesInOrder E.key_of E.cmp F.FnOnce f self.old (is_equal (Q.compare_item query)) result
            self.new }
        ensures unchanged { IfOk result (λ found. IfNone found (self.new ≡ self.old)) }
        ensures room { room self.old ≤ room self.new }
        ensures count { OnOk result (live_count self.new.store ≡ live_count self.old.store) }
    {
        self.map.remake_by::<Here, Q, F>(query, f)
    }

    /// Replaces the item at an index by what the closure makes of it; `Ok(None)` if the index has no item. Otherwise it
    /// behaves as `remake`.
    ///
    /// Cost: two searches; takes memory only if there are more items than the capacity.
    ///
    /// Asks: the closure may be called with the item.
    pub fn remake_at<F: FnOnce(T) -> T>(
        &mut self,
        ix: ItemIndex,
        f: F,
    ) -> Result<Option<ItemIndex>, InsertRefusal<T, ItemIndex>>
        requires { (item : T) → get self.old.store ix ≡ Some item → F.FnOnce.pre f (item, tt) }
        ensures remakes { RemakesInOrderIfLive E.key_of E.cmp F.FnOnce f self.old ix result self.new }
        ensures same_index { IfOk result (λ found. IfSome found (λ at. at ≡ ix)) }
        ensures unchanged { IfOk result (λ found. IfNone found (self.new ≡ self.old)) }
        ensures gone { OnErr result (self.new.store ≡ removed self.old.store ix) }
        ensures next { OnErr result (next_index self.new.store ≡ ix) }
        ensures room { room self.old ≤ room self.new }
        ensures count { OnOk result (live_count self.new.store ≡ live_count self.old.store) }
    {
        self.map.remake_at(ix, f)
    }
}
