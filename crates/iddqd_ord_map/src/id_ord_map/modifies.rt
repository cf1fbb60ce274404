//! An item is modified in place, and keeps its key.
ghost use Rattle.std.specs.Prelude.{◌≡◌, Some};
ghost use Rattle.iddqd.specs.{get};
ghost use Rattle.iddqd_map.specs.Map.{FindsItem};
ghost use Rattle.iddqd_map.specs.Modify.{Modifies, ModifiesAt};
ghost use Rattle.iddqd_keys.specs.KeyKeeping.{KeepsKey};
ghost use Rattle.iddqd_by_order.specs.Ordered.{is_equal};

use super::OrdMapBy;
use iddqd::item_index::ItemIndex;
use iddqd_keys::item_order_query::ItemOrdQuery;
use iddqd_keys::order_key::OrdKey;

impl<T: Drop, E: OrdKey<T>> OrdMapBy<T, E> {
    /// Calls the closure with a `&mut` to the item that has the key, and returns what the closure returns; if no item
    /// has the key, it returns `None` and doesn't call the closure.
    ///
    /// The caller proves that the closure leaves the item its key. So the table stays as it is: the call is one look-up
    /// and takes no memory. To change a key, use `replace` or `change`.
    ///
    /// Cost: one search; takes no memory.
    ///
    /// Asks: the closure may be called on the item, and leaves it its keys.
    pub fn modify<Q: ItemOrdQuery<T, E>, R, F: FnOnce(&mut T) -> R>(
        &mut self,
        query: Q,
        f: F,
    ) -> Option<R>
        requires { let named = is_equal (Q.compare_item query) in
            KeepsKey F.FnOnce f E.key_of (λ item. FindsItem self.old.store named (Some item)) }
        ensures { Modifies F.FnOnce f self.old (is_equal (Q.compare_item query)) result self.new }
    {
        let ix = self.find(query)?;
        self.map.modify_live(ix, f)
    }

    /// Calls the closure with a `&mut` to the item at an index, as `modify` does; if there is no item at the index, it
    /// returns `None` and doesn't call the closure. No key is compared.
    ///
    /// Cost: a few steps; takes no memory.
    ///
    /// Asks: the closure may be called on the item, and leaves it its keys.
    pub fn modify_at<R, F: FnOnce(&mut T) -> R>(&mut self, ix: ItemIndex, f: F) -> Option<R>
        requires { KeepsKey F.FnOnce f E.key_of (λ item. get self.old.store ix ≡ Some item) }
        ensures { ModifiesAt F.FnOnce f self.old ix result self.new }
    {
        self.map.modify_live(ix, f)
    }
}
