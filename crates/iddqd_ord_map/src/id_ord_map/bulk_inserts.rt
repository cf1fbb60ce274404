//! Inserts the items of an iterator, or puts them in place of those that have their keys.
ghost use Rattle.std.specs.Prelude.{◌≡◌, ◌+◌, ℕ, Some, IfOk, IfErr, IsOk, length};
ghost use Rattle.std.specs.Array.Iter.{IntoIterFitsInMemory};
ghost use Rattle.std.specs.Iterator.{IsFinite, IsNearerEnd, UpTo};
ghost use Rattle.iddqd.specs.{empty, get, live_count};
ghost use Rattle.iddqd_map.specs.Bulk.{inserted_all, inserted_count};
ghost use Rattle.iddqd_map.specs.BulkOverwrite.{HandsOver, MayDisplace, overwritten_count};
ghost use Rattle.iddqd_map.specs.Calls.{IsDuplicate};
ghost use Rattle.iddqd_map.specs.Map.{room};
ghost use Rattle.iddqd_map.specs.Sweep.{GivesPair};
ghost use Rattle.iddqd_ord_map.specs.OrdMap.{InsertsFromInOrder, MakesOfInOrder, OverwritesFromInOrder, RefusesOneInOrder};

use super::OrdMapBy;
use iddqd::item_index::ItemIndex;
use iddqd_keys::order_key::OrdKey;
use iddqd_map::map::Map;
use iddqd_map::refusal::{InsertRefusal, Stopped, StoppedOverwrite};
use std::alloc::Global;

impl<T: Drop, E: OrdKey<T>> OrdMapBy<T, E> {
    /// A map of these items, each inserted as by `insert_unique`, in turn.
    ///
    /// The first refusal is returned, and then all other items are dropped.
    ///
    /// Cost: an `insert_unique` for each item. Memory is reserved at once for all of them; if it runs out, the items
    /// are inserted all the same, as far as there is memory.
    ///
    /// Asks: an iterator over the array fits in memory, which the check finds at a given type and length.
    pub fn from_array<const N: usize>(
        alloc: Global,
        items: [T; N],
    ) -> Result<OrdMapBy<T, E>, InsertRefusal<T, ItemIndex>>
        requires { IntoIterFitsInMemory T.row N.row }
        ensures items { IfOk result (λ map. map.store ≡ inserted_all empty items) }
        ensures count { IfOk result (λ map. live_count map.store ≡ length items) }
        ensures memory { IfOk result (MakesOfInOrder E.key_of E.cmp items) }
        ensures refused { IfErr result (RefusesOneInOrder E.key_of E.cmp items) }
    {
        Ok(OrdMapBy {
            map: Map::from_array_with_hasher(alloc, (), items)?,
        })
    }

    /// Inserts the items of an iterator in turn, up to the first that is refused, and returns how many there were.
    ///
    /// Each is inserted as by `insert_unique`. A refusal comes back with its item, with the number of items that were
    /// inserted before it, and with the rest of the iterator; the items that were inserted stay. Memory is reserved at
    /// once for as many items as the lower bound of `size_hint`, or as the limit allows; if it runs out, the items are
    /// inserted all the same, as far as there is memory.
    ///
    /// Cost: an `insert_unique` for each item; reserves memory for the lower bound of `size_hint` at once, then takes
    /// it as an insert does.
    ///
    /// Asks: `next` may be called on the iterator.
    pub fn insert_all<I: Iterator<Item = T>>(
        &mut self,
        iter: I,
    ) -> Result<usize, Stopped<T, ItemIndex, I>>
        requires { I.can_next iter }
        ensures inserts { InsertsFromInOrder E.key_of E.cmp I.next_gives I.remaining iter self.old result self.new }
        ensures count { live_count self.new.store ≡ live_count self.old.store + inserted_count result }
        ensures others { (ix : ℕ) (item : T) → get self.old.store ix ≡ Some item → get self.new.store ix ≡ Some item }
        ensures not_refused { UpTo (I.remaining iter) (room self.old)
            → IfErr result (λ stopped. IsDuplicate stopped.refusal) }
        ensures goes_on { IfErr result (λ stopped. I.can_next stopped.rest) }
        ensures nearer { IsFinite (I.remaining iter)
            → IfErr result (λ stopped. IsNearerEnd I.can_next I.remaining iter stopped.rest) }
    {
        self.map.insert_all(iter)
    }

    /// Inserts the items of an iterator in turn, each in place of those that share a key with it, up to the first that
    /// is refused, and returns how many were inserted.
    ///
    /// A stored item that has the key of an item is first removed, and passed to the closure by value, with the index
    /// that it had. An item that was inserted before may be displaced, too. One that displaces another is refused only
    /// if memory runs out and the table has more indexes than its capacity, before anything is removed. Each other one
    /// is refused as by `insert_unique`. A refusal comes back with its item, with the number of items that were
    /// inserted before it, and with the rest of the iterator; the items that were inserted stay. If there is `room` for
    /// all that the iterator can give, nothing is refused. Memory is reserved as by `insert_all`.
    ///
    /// Cost: an `insert_overwrite` for each item; reserves memory for the lower bound of `size_hint` at once, then
    /// takes it as that call does.
    ///
    /// Asks: `next` may be called until the iterator ends; its number of items fits a `usize`; the closure may be
    /// called with any item in turn.
    pub fn overwrite_all<I: Iterator<Item = T>, G: FnMut(ItemIndex, T)>(
        &mut self,
        iter: I,
        gone: G,
    ) -> Result<usize, StoppedOverwrite<T, I>>
        requires next { I.can_next iter }
        requires fits { UpTo (I.remaining iter) usize.MAX }
        requires given { MayDisplace I.next_gives G.FnMut iter gone self.old.store }
        ensures overwrites { OverwritesFromInOrder E.key_of E.cmp (GivesPair G.FnMut) I.next_gives I.remaining iter
            self.old gone result self.new }
        ensures handed { (last : G) × HandsOver (GivesPair G.FnMut) gone last self.old.store self.new.store
            (overwritten_count result) }
        ensures not_refused { UpTo (I.remaining iter) (room self.old) → IsOk result }
        ensures goes_on { IfErr result (λ stopped. I.can_next stopped.rest) }
        ensures nearer { IfErr result (λ stopped. IsNearerEnd I.can_next I.remaining iter stopped.rest) }
    {
        self.map.overwrite_all(iter, gone)
    }
}
