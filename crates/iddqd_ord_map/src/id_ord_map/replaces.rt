//! An item is replaced by one that may have another key.
ghost use Rattle.std.specs.Fn.{FnOnceReturnsAt};
ghost use Rattle.std.specs.Borrow.{Bor};
ghost use Rattle.std.specs.Prelude.{◌≡◌, Some};
ghost use Rattle.iddqd.specs.{get, live_count};
ghost use Rattle.iddqd_map.specs.Calls.{MayChange};
ghost use Rattle.iddqd_map.specs.Map.{room};
ghost use Rattle.iddqd_ord_map.specs.OrdMap.{ReplacesInOrder, ReplacesInOrderIfLive, ChangesInOrder};
ghost use Rattle.iddqd_by_order.specs.Ordered.{is_equal};
ghost use Rattle.iddqd_keys.specs.Scan.{IsLive};

use super::OrdMapBy;
use super::iter::item_at;
use iddqd::item_index::ItemIndex;
use iddqd_keys::item_order_query::ItemOrdQuery;
use iddqd_keys::order_key::OrdKey;
use iddqd_map::refusal::ReplaceRefusal;

impl<T: Drop, E: OrdKey<T>> OrdMapBy<T, E> {
    /// Replaces the item that has the key, and returns the old one.
    ///
    /// The new item may have another key. It gets the same index. If no item has the key (`Missing`), another item has
    /// the new item's key, or memory runs out, the new item comes back, and the map stays as it was. If the key stays
    /// the table isn't touched. Up to the capacity no memory is needed.
    ///
    /// Cost: one search; then one search for the new item's key; if the key changes, a removal and an insertion of its
    /// index; takes memory only if a key in order changes and there are more items than the capacity.
    pub fn replace<Q: ItemOrdQuery<T, E>>(
        &mut self,
        query: Q,
        item: T,
    ) -> Result<T, ReplaceRefusal<T, ItemIndex>>
        ensures replaces { ReplacesInOrder E.key_of E.cmp self.old
            (is_equal (Q.compare_item query)) item result self.new }
        ensures room { room self.new ≡ room self.old }
        ensures count { live_count self.new.store ≡ live_count self.old.store }
    {
        let Some(ix) = self.find(query) else {
            return Err(ReplaceRefusal::Missing(item));
        };
        self.map.replace_at(ix, item)
    }

    /// Replaces the item at an index, and returns the old one.
    ///
    /// If there is none it refuses with `Missing`. Otherwise it behaves as `replace`.
    ///
    /// Cost: one search for the new item's key; if the key changes, a removal and an insertion of its index; takes
    /// memory only if a key in order changes and there are more items than the capacity.
    pub fn replace_at(&mut self, ix: ItemIndex, item: T) -> Result<T, ReplaceRefusal<T, ItemIndex>>
        ensures replaces { ReplacesInOrderIfLive E.key_of E.cmp self.old ix item result self.new }
        ensures room { room self.new ≡ room self.old }
        ensures count { live_count self.new.store ≡ live_count self.old.store }
    {
        self.map.replace_at(ix, item)
    }

    /// Replaces the item that has the key by what the closure makes of it, and returns the old item; `None` if no item
    /// has the key.
    ///
    /// The closure is called at most once, and not at all if no item has the key. Otherwise it behaves as `replace`.
    ///
    /// Cost: one search; then one search for the new item's key; if the key changes, a removal and an insertion of its
    /// index; takes memory only if a key in order changes and there are more items than the capacity.
    ///
    /// Asks: the closure may be called on the item that has the key.
    pub fn change<Q: ItemOrdQuery<T, E>, F: FnOnce(&T) -> T>(
        &mut self,
        query: Q,
        f: F,
    ) -> Result<Option<T>, ReplaceRefusal<T, ItemIndex>>
        requires { MayChange F.FnOnce f self.old.store (is_equal (Q.compare_item query)) }
        ensures changes { ChangesInOrder E.key_of E.cmp (FnOnceReturnsAt F.FnOnce f) self.old
            (is_equal (Q.compare_item query)) result self.new }
        ensures room { room self.new ≡ room self.old }
        ensures count { live_count self.new.store ≡ live_count self.old.store }
    {
        let Some(ix) = self.find(query) else {
            return Ok(None);
        };
        let item = self.made(ix, f);
        let was = self.map.replace_at(ix, item)?;
        Ok(Some(was))
    }

    // What the closure makes of the item at a live index.
    fn made<F: FnOnce(&T) -> T>(&self, ix: ItemIndex, f: F) -> T
        requires live { IsLive self.now.store ix }
        requires callable { (item : Bor T) → get self.now.store ix ≡ Some item.now → F.FnOnce.pre f (item, tt) }
        ensures { (was : T) × (get self.now.store ix ≡ Some was) × FnOnceReturnsAt F.FnOnce f was result }
    {
        let (items, _) = self.parts();
        f(item_at(items, ix))
    }
}
