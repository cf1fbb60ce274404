//! Iterators over a map in the order of the keys, and the items at its ends. They take no memory.
ghost use Rattle.std.specs.Prelude.{◌≡◌, ◌≤◌, ◌+◌, length, option_copied, OnSome, IfNone};
ghost use Rattle.std.specs.declared.cmp.Ordering.TheVariants.{Less, Greater};
ghost use Rattle.iddqd.specs.{live_count};
ghost use Rattle.iddqd_keys.specs.Bounds.{is_in_bounds};
ghost use Rattle.std.specs.Ordering.{on};
ghost use Rattle.iddqd_map.specs.Map.{capacity, room};
ghost use Rattle.iddqd_map.specs.Ranges.{itself};
ghost use Rattle.iddqd_ord_map.specs.ByOrder.{FindsGreatest, FindsLeast};
ghost use Rattle.iddqd_ord_map.specs.KeyOrder.{AreInKeyOrder, FindsEnd, IsKeyWalk, IsWalkWithin, PopsEnd};

use super::{IdOrdItem, IdOrdMap, IntoValues, Iter, OrdMapBy, Range, Values};
use crate::ordered_query::range_by;
use iddqd::item_index::ItemIndex;
use iddqd_keys::bounds::IntoBounds;
use iddqd_keys::item_order_query::ItemRangeQuery;
use iddqd_keys::order_key::OrdKey;
use std::fmt;

impl<T: Drop, E: OrdKey<T>> OrdMapBy<T, E> {
    /// The live indexes with their items, in the order of the keys, from both ends.
    ///
    /// Cost: a step for each item; takes no memory.
    pub fn iter(&self) -> Iter<'_, T>
        ensures walk { IsKeyWalk E.key_of E.cmp self.now.store result }
        ensures len { length result ≡ live_count self.now.store }
    {
        let (items, table) = self.parts();
        Iter {
            indexes: table.iter(),
            items,
        }
    }

    /// The items, in the order of the keys, from both ends.
    ///
    /// Cost: a step for each item; takes no memory.
    pub fn values(&self) -> Values<'_, T>
        ensures items { AreInKeyOrder E.key_of E.cmp self.now.store result }
        ensures len { length result ≡ live_count self.now.store }
    {
        Values { pairs: self.iter() }
    }

    /// The items by value, in the order of the keys, from both ends.
    ///
    /// Cost: a step for each item; takes no memory.
    pub fn into_values(self) -> IntoValues<T>
        ensures items { AreInKeyOrder E.key_of E.cmp self.store result }
        ensures len { length result ≡ live_count self.store }
    {
        let (items, index, _) = self.map.into_parts();
        IntoValues {
            indexes: index.table.into_iter(),
            items: items.into_consuming(),
        }
    }

    /// The live indexes with their items whose keys are within the range, in the order of the keys, from both ends:
    /// none if its lower bound is above its upper one.
    ///
    /// It is one search of the table for each bound that there is, as `find`.
    ///
    /// Cost: one search for each bound that there is, then a step for each item; takes no memory.
    pub fn range<Q: ItemRangeQuery<T, E>, R: IntoBounds<Q>>(&self, range: R) -> Range<'_, T>
        ensures { let within = is_in_bounds Q.compare_item (R.bounds range) in
            IsWalkWithin itself (on E.key_of E.cmp) within self.now.store result }
    {
        let (items, table) = self.parts();
        Range::new(
            range_by::<T, E, Q>(table, items, &range.into_bounds()),
            items,
        )
    }

    /// The item with the least key.
    ///
    /// Cost: a few steps; takes no memory.
    pub fn first(&self) -> Option<&T>
        ensures { FindsEnd E.key_of E.cmp Less self.now.store (option_copied result) }
    {
        let (items, table) = self.parts();
        items.get(table.first()?)
    }

    /// The item with the greatest key.
    ///
    /// Cost: a few steps; takes no memory.
    pub fn last(&self) -> Option<&T>
        ensures { FindsEnd E.key_of E.cmp Greater self.now.store (option_copied result) }
    {
        let (items, table) = self.parts();
        items.get(table.last()?)
    }

    // The index of the item with the least key.
    fn first_index(&self) -> Option<ItemIndex>
        ensures { FindsLeast E.key_of E.cmp self.now.store result }
    {
        let (_, table) = self.parts();
        table.first()
    }

    // The index of the item with the greatest key.
    fn last_index(&self) -> Option<ItemIndex>
        ensures { FindsGreatest E.key_of E.cmp self.now.store result }
    {
        let (_, table) = self.parts();
        table.last()
    }

    /// Removes the item with the least key, and returns it.
    ///
    /// Cost: one search; takes no memory.
    pub fn pop_first(&mut self) -> Option<T>
        ensures pops { PopsEnd E.key_of E.cmp Less self.old result self.new }
        ensures room { room self.old ≤ room self.new }
        ensures count { OnSome result (live_count self.old.store ≡ live_count self.new.store + 1) }
        ensures unchanged { IfNone result (self.new ≡ self.old) }
        ensures freed { OnSome result (live_count self.old.store ≤ capacity self.old
            → room self.new ≡ room self.old + 1) }
    {
        let ix = self.first_index()?;
        self.map.remove_at(ix)
    }

    /// Removes the item with the greatest key, and returns it.
    ///
    /// Cost: one search; takes no memory.
    pub fn pop_last(&mut self) -> Option<T>
        ensures pops { PopsEnd E.key_of E.cmp Greater self.old result self.new }
        ensures room { room self.old ≤ room self.new }
        ensures count { OnSome result (live_count self.old.store ≡ live_count self.new.store + 1) }
        ensures unchanged { IfNone result (self.new ≡ self.old) }
        ensures freed { OnSome result (live_count self.old.store ≤ capacity self.old
            → room self.new ≡ room self.old + 1) }
    {
        let ix = self.last_index()?;
        self.map.remove_at(ix)
    }
}

/// As `into_values`: each item, in the order of the keys.
impl<T: Drop, E: OrdKey<T>> IntoIterator for OrdMapBy<T, E> {
    type Item = T;

    type IntoIter = IntoValues<T>;

    ghost into_iter_gives = { λ m items. AreInKeyOrder E.key_of E.cmp m.store items };

    fn into_iter(self) -> IntoValues<T> {
        self.into_values()
    }
}

/// As `iter`: each index with its item, in the order of the keys.
impl<'a, T: Drop, E: OrdKey<T>> IntoIterator for &'a OrdMapBy<T, E> {
    type Item = (ItemIndex, &'a T);

    type IntoIter = Iter<'a, T>;

    ghost into_iter_gives = { λ m pairs. IsKeyWalk E.key_of E.cmp m.now.store pairs };

    fn into_iter(self) -> Iter<'a, T> {
        self.iter()
    }
}

/// Each key with its item, as maps are printed, in the order of the keys.
impl<T: IdOrdItem + fmt::Debug> fmt::Debug for IdOrdMap<T>
where
    T::Key: fmt::Debug,
{
    fn fmt<W: fmt::Write>(&self, f: &mut fmt::Formatter<W>) -> fmt::Result {
        let mut out = f.debug_map();
        for item in self.values() {
            out.entry(item.key(), item);
        }
        out.finish()
    }
}
