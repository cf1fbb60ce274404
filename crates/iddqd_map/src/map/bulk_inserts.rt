//! Inserts the items of an iterator.
ghost use Rattle.std.specs.Prelude.{◌≡◌, ◌+◌, ℕ, List, Some, IfOk, IfErr, IfSome, length};
ghost use Rattle.std.specs.Array.Iter.{IntoIterFitsInMemory};
ghost use Rattle.std.specs.Iterator.{IsFinite, IsNearerEnd, UpTo};
ghost use Rattle.iddqd.specs.{IsValid, empty, get, live_count};
ghost use Rattle.iddqd_map.specs.Bulk.{InsertsFrom, InsertsNext, InsertsUntil, MakesOf, RefusesOneOf, inserted_all, inserted_count};
ghost use Rattle.iddqd_map.specs.Calls.{IsDuplicate};
ghost use Rattle.iddqd_map.specs.Map.{room};

use super::Map;
use crate::key_index::{Changes, Empty, Upkeep};
use crate::refusal::{InsertRefusal, Stopped};
use iddqd::hash_builder::DefaultHashBuilder;
use iddqd::item_index::ItemIndex;
use std::alloc::Global;

impl<T, X> Map<T, X, DefaultHashBuilder>
where
    X: Changes<T, DefaultHashBuilder>,
    X: Empty<T, DefaultHashBuilder>,
    X: Upkeep<T, DefaultHashBuilder>,
{
    /// A map of these items, with the default hasher, each inserted as by `insert_unique`, in turn.
    ///
    /// The first refusal is returned, and then all other items are dropped.
    ///
    /// Cost: an `insert_unique` for each item. Memory is reserved at once for all of them; if it runs out, the items
    /// are inserted all the same, as far as there is memory.
    ///
    /// Asks: an iterator over the array fits in memory, which the check finds at a given type and length.
    pub fn from_array<const N: usize>(
        alloc: Global,
        items: [T; N],
    ) -> Result<Map<T, X, DefaultHashBuilder>, InsertRefusal<T, X::Conflict>>
    where
        T: Drop,
        requires { IntoIterFitsInMemory T.row N.row }
        ensures items { IfOk result (λ map. map.store ≡ inserted_all empty items) }
        ensures count { IfOk result (λ map. live_count map.store ≡ length items) }
        ensures memory { IfOk result (MakesOf X.alike X.grown X.most items) }
        ensures refused { IfErr result (RefusesOneOf X.alike X.grown X.conflicts items) }
    {
        Map::from_array_with_hasher(alloc, DefaultHashBuilder::default(), items)
    }
}

impl<T, X: Changes<T, S> + Empty<T, S> + Upkeep<T, S>, S> Map<T, X, S> {
    /// `from_array`, with this hasher.
    ///
    /// Cost: an `insert_unique` for each item; reserves memory for all at once, and takes none beyond that unless it
    /// ran out.
    ///
    /// Asks: an iterator over the array fits in memory, which the check finds at a given type and length.
    pub fn from_array_with_hasher<const N: usize>(
        alloc: Global,
        state: S,
        items: [T; N],
    ) -> Result<Map<T, X, S>, InsertRefusal<T, X::Conflict>>
    where
        T: Drop,
        S: Drop,
        requires { IntoIterFitsInMemory T.row N.row }
        ensures items { IfOk result (λ map. map.store ≡ inserted_all empty items) }
        ensures count { IfOk result (λ map. live_count map.store ≡ length items) }
        ensures memory { IfOk result (MakesOf X.alike X.grown X.most items) }
        ensures refused { IfErr result (RefusesOneOf X.alike X.grown X.conflicts items) }
    {
        let mut map = Map::with_hasher(alloc, state);
        let _reserved = map.reserve(N);
        let mut iter = items.into_iter();
        match map.insert_each(&mut iter) {
            None => Ok(map),
            Some(refusal) => Err(refusal),
        }
    }
}

impl<T, X: Changes<T, S> + Upkeep<T, S>, S> Map<T, X, S> {
    /// Inserts the items of an iterator in turn, up to the first that is refused, and returns how many there were.
    ///
    /// Each is inserted as by `insert_unique`. A refusal comes back with its item, with the number of items that were
    /// inserted before it, and with the rest of the iterator; the items that were inserted stay. Memory is reserved at
    /// once for as many items as the lower bound of `size_hint`, or as the limit allows; if it runs out, the items are
    /// inserted all the same, as far as there is memory.
    ///
    /// Cost: an `insert_unique` for each item; reserves memory for the lower bound of `size_hint` at once, then takes
    /// it as an insert does.
    ///
    /// Asks: `next` may be called on the iterator.
    pub fn insert_all<I: Iterator<Item = T>>(
        &mut self,
        mut iter: I,
    ) -> Result<usize, Stopped<T, X::Conflict, I>>
        requires { I.can_next iter }
        ensures inserts { InsertsFrom I.next_gives X.alike X.grown X.conflicts I.remaining X.most iter self.old result
            self.new }
        ensures count { live_count self.new.store ≡ live_count self.old.store + inserted_count result }
        ensures others { (ix : ℕ) (item : T) → get self.old.store ix ≡ Some item → get self.new.store ix ≡ Some item }
        ensures not_refused { UpTo (I.remaining iter) (room self.old)
            → IfErr result (λ stopped. IsDuplicate stopped.refusal) }
        ensures goes_on { IfErr result (λ stopped. I.can_next stopped.rest) }
        ensures nearer { IsFinite (I.remaining iter)
            → IfErr result (λ stopped. IsNearerEnd I.can_next I.remaining iter stopped.rest) }
    {
        let before = self.len();
        let (least, _) = iter.size_hint();
        let _reserved = self.reserve(least);
        let refusal = self.insert_each(&mut iter);
        let inserted = self.len() - before;
        match refusal {
            None => Ok(inserted),
            Some(refusal) => Err(Stopped {
                inserted,
                refusal,
                rest: iter,
            }),
        }
    }

    // Inserts the items of an iterator in turn, up to the first refusal, which it returns.
    fn insert_each<I: Iterator<Item = T>>(
        &mut self,
        iter: &mut I,
    ) -> Option<InsertRefusal<T, X::Conflict>>
        requires can { I.can_next iter.old }
        requires valid { IsValid self.old.store }
        ensures inserts { (items : List T) × InsertsUntil I.next_gives X.alike X.grown X.conflicts iter.old
            self.old items result iter.new self.new }
        ensures not_refused { UpTo (I.remaining iter.old) (room self.old) → IfSome result IsDuplicate }
        ensures goes_on { IfSome result (λ refusal. I.can_next iter.new) }
        ensures nearer { IsFinite (I.remaining iter.old)
            → IfSome result (λ refusal. IsNearerEnd I.can_next I.remaining iter.old iter.new) }
    {
        while let Some(answer) = self.insert_next(iter) {
            if let Err(refusal) = answer {
                return Some(refusal);
            }
        }
        None
    }

    // Inserts the next item of an iterator; `None` at its end. A function of its own, since the check takes a loop over
    // `next` to end by its iterator: the loop above ends by the map's limit.
    fn insert_next<I: Iterator<Item = T>>(
        &mut self,
        iter: &mut I,
    ) -> Option<Result<ItemIndex, InsertRefusal<T, X::Conflict>>>
        requires { I.can_next iter.old }
        ensures { InsertsNext I.next_gives X.alike X.grown X.conflicts I.can_next I.remaining iter.old self.old result
            iter.new self.new }
    {
        match iter.next() {
            Some(item) => Some(self.insert_unique(item)),
            None => None,
        }
    }
}
