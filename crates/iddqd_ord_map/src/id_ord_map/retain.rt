//! The items that a closure keeps.
//!
//! The closure is called in the order of the table, which stays as it is until the last call. An item at which it
//! answers false is removed from the store at once, and goes to a second closure: that of `retain` drops it, those of
//! `retain_into` and `drain_into` are the caller's. Then one pass over the table removes the indexes that have no item.
//! So no key is compared, and each pass costs a step for each item.
ghost use Rattle.std.specs.Prelude.{◌≡◌, ◌≤◌, ◌+◌, Some, map, filter, is_some};
ghost use Rattle.std.specs.Cmp.{IsTotalOrder};
ghost use Rattle.std.specs.Fn.{TakesAt, CalledAt};
ghost use Rattle.iddqd.specs.{get, live_count, removed, IsValid};
ghost use Rattle.iddqd_map.specs.Bulk.{AsksAndGives, TakesBoth};
ghost use Rattle.iddqd_map.specs.Ranges.{GivesItem, TakesItem};
ghost use Rattle.iddqd_map.specs.Retain.{AsksInTurn};
ghost use Rattle.iddqd_order.specs.MapBTreeTable.{order_of, capacity};
ghost use Rattle.iddqd_by_order.specs.Ordered.{Holds};
ghost use Rattle.iddqd_ord_map.specs.OrderedIndexing.{Sorts};
ghost use Rattle.iddqd_ord_map.specs.KeyOrder.{IsKeyWalk};
ghost use Rattle.iddqd_keys.specs.KeyWalk.{pairs_at};
ghost use Rattle.iddqd_keys.specs.Scan.{IsLive};
ghost use Rattle.iddqd_ord_map.specs.Retain.{AsksAlong, MayAskAlong, RetainsAlong, RetainsAlongTo};

use super::OrdMapBy;
use super::iter::item_at;
use iddqd::item_index::ItemIndex;
use iddqd::item_set::ItemSet;
use iddqd_keys::order_key::OrdKey;
use iddqd_map::map::Map;
use iddqd_order::btree_table::MapBTreeTable;
use std::mem;

impl<T: Drop, E: OrdKey<T>> OrdMapBy<T, E> {
    /// Keeps exactly the items at which the closure answers true, under their indexes, and returns how many it removed.
    ///
    /// The closure is called once at each item, in the order of the keys. The items at which it answers false are
    /// removed, in this order. No memory is taken, no key is compared, and it costs a few steps for each item.
    ///
    /// Cost: a few steps for each item; takes no memory.
    ///
    /// Asks: the closure may be called on these items in turn, once each.
    pub fn retain<F: FnMut(&T) -> bool>(&mut self, mut f: F) -> usize
        requires { MayAskAlong (IsKeyWalk E.key_of E.cmp) (TakesAt F.FnMut) (CalledAt F.FnMut) f self.old.store }
        ensures retained { RetainsAlong (IsKeyWalk E.key_of E.cmp) (CalledAt F.FnMut) f self.old self.new }
        ensures count { result + live_count self.new.store ≡ live_count self.old.store }
    {
        self.retain_with(&mut f, &mut |item: T| drop(item))
    }

    // Keeps exactly the items at which the first closure answers true, passes the others to the second, and returns how
    // many these were. The closures stay in the states that their last calls leave. A call is cheaper to check since
    // there are two conditions; the first always holds.
    pub(super) fn retain_with<F: FnMut(&T) -> bool, G: FnMut(T)>(
        &mut self,
        keep: &mut F,
        gone: &mut G,
    ) -> usize
        requires ordered { IsTotalOrder E.cmp }
        requires can_ask { AsksAlong (IsKeyWalk E.key_of E.cmp) (TakesBoth G.FnMut (TakesAt F.FnMut))
            (AsksAndGives G.FnMut (CalledAt F.FnMut)) (keep.old, gone.old) self.old.store }
        ensures retained { RetainsAlongTo (IsKeyWalk E.key_of E.cmp) (AsksAndGives G.FnMut (CalledAt F.FnMut))
            (keep.old, gone.old) self.old.store self.new.store (keep.new, gone.new) }
        ensures memory { self.new.memory ≡ self.old.memory }
        ensures count { result + live_count self.new.store ≡ live_count self.old.store }
    {
        let before = self.len();
        let (_, table) = self.parts();
        let none = Map::with_limit_and_hasher(table.allocator(), (), 0);
        let (mut items, mut index, state) = mem::replace(&mut self.map, none).into_parts();
        retain_in::<T, E, F, G>(&mut items, &mut index.table, keep, gone);
        let removed = before - items.len();
        self.map = Map::from_parts(items, index, state);
        removed
    }
}

// Keeps the items at which the first closure answers true, and passes the others to the second. The closures stay in
// the states that their last calls leave.
fn retain_in<T, E: OrdKey<T>, F: FnMut(&T) -> bool, G: FnMut(T)>(
    items: &mut ItemSet<T>,
    table: &mut MapBTreeTable,
    keep: &mut F,
    gone: &mut G,
)
    requires valid { IsValid items.old.store }
    requires sorted { Sorts E.key_of E.cmp items.old.store (order_of table.old) }
    requires can_ask { AsksAlong (IsKeyWalk E.key_of E.cmp) (TakesBoth G.FnMut (TakesAt F.FnMut))
        (AsksAndGives G.FnMut (CalledAt F.FnMut)) (keep.old, gone.old) items.old.store }
    ensures valid { IsValid items.new.store }
    ensures sorted { Sorts E.key_of E.cmp items.new.store (order_of table.new) }
    ensures retained { RetainsAlongTo (IsKeyWalk E.key_of E.cmp) (AsksAndGives G.FnMut (CalledAt F.FnMut))
        (keep.old, gone.old) items.old.store items.new.store (keep.new, gone.new) }
    ensures fewer { live_count items.new.store ≤ live_count items.old.store }
    ensures slots { items.new.capacity ≡ items.old.capacity }
    ensures memory { capacity table.new ≡ capacity table.old }
{
    remove_refused(items, table, keep, gone);
    forget_removed(items, table);
}

// Removes the items at which the first closure answers false, and passes them to the second. Their indexes stay in the
// table.
fn remove_refused<T, F: FnMut(&T) -> bool, G: FnMut(T)>(
    items: &mut ItemSet<T>,
    table: &MapBTreeTable,
    keep: &mut F,
    gone: &mut G,
)
    requires valid { IsValid items.old.store }
    requires held { Holds items.old.store (order_of table.now) }
    requires can_ask { AsksInTurn (TakesBoth G.FnMut (TakesAt F.FnMut)) (AsksAndGives G.FnMut (CalledAt F.FnMut))
        (keep.old, gone.old) (map (λ pair. pair.1) (pairs_at items.old.store (order_of table.now))) }
    ensures valid { IsValid items.new.store }
    ensures retained { RetainsAlongTo (λ s pairs. pairs ≡ pairs_at s (order_of table.now))
        (AsksAndGives G.FnMut (CalledAt F.FnMut))
        (keep.old, gone.old) items.old.store items.new.store (keep.new, gone.new) }
    ensures slots { items.new.capacity ≡ items.old.capacity }
{
    for ix in table.iter() {
        if !keep(item_at(items, ix)) {
            give_out(items, ix, gone);
        }
    }
}

// Removes the item at a live index, and passes it to the closure.
fn give_out<T, G: FnMut(T)>(items: &mut ItemSet<T>, ix: ItemIndex, gone: &mut G)
    requires live { IsLive items.old.store ix }
    requires takes { (item : T) → get items.old.store ix ≡ Some item → TakesItem G.FnMut gone.old item }
    ensures given { (item : T) → get items.old.store ix ≡ Some item → GivesItem G.FnMut gone.old item gone.new }
    ensures removed { items.new ≡ record items.old { store = removed items.old.store ix } }
{
    match items.remove(ix) {
        Some(item) => gone(item),
        None => unreachable!(),
    }
}

// Removes the indexes that have no item from the table. It takes no memory.
fn forget_removed<T>(items: &ItemSet<T>, table: &mut MapBTreeTable)
    ensures forgot { order_of table.new ≡ filter (λ ix. is_some (get items.now.store ix)) (order_of table.old) }
    ensures memory { capacity table.new ≡ capacity table.old }
{
    table.retain(|ix| items.get(ix).is_some());
}
