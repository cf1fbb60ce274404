//! Moves the items of another map into a map.
//!
//! Room for an item is made while it is still in the other map. Once it is removed there, nothing can fail, so no item
//! is ever put back.
ghost use Rattle.std.specs.Prelude.{◌≡◌, ◌≤◌, ◌+◌, ℕ, Option, Some, Ok, Err, IsOk, IfErr, OnOk};
ghost use Rattle.iddqd.specs.{IsFull, get, live_count};
ghost use Rattle.iddqd.specs.declared.item_set.GrowError.TheVariants.{Full};
ghost use Rattle.iddqd_map.specs.Append.{Appends, AppendsItem, EachConflicts, GivesMove, KeepsOrMoves, MayReport, ReportsIfMoved, ReportsMoves, TakesMove, moved_count};
ghost use Rattle.iddqd_map.specs.Map.{room};

use super::Map;
use super::inserts::{NotReady, prepare};
use super::steps::{store_in_room, take_out};
use crate::key_index::{Changes, IndexLaws, PlanLaws};
use crate::refusal::StoppedAppend;
use iddqd::item_index::ItemIndex;
use iddqd::item_set::GrowError;

impl<T, X: IndexLaws<T, S> + PlanLaws<T, S> + Changes<T, S>, S> Map<T, X, S> {
    /// Moves the items of another map into this one, by rising index, and returns how many were moved. For each of them
    /// it calls the closure with the index that the item had there and the one that it has here.
    ///
    /// Each is inserted as by `insert_unique`. An item that shares a unique key with one of this map stays in the other
    /// map, and the call goes on. It stops at the first item that is refused since this map is full or memory ran out,
    /// and returns why, with the number of those before. What stays in the other map stays under its index. The other
    /// map may have another limit and another hasher, and keeps its memory.
    ///
    /// Each key of an item is hashed once and looked up once in this map; an item that is moved costs a removal by its
    /// index in the other. It costs a step for each slot of the other map.
    ///
    /// Cost: a step for each slot of the other map; for each item an `insert_unique` here, and for each that is moved a
    /// removal there; takes memory as each insert does.
    ///
    /// Asks: the closure may be called with any two indexes.
    pub fn append<F: FnMut(ItemIndex, ItemIndex)>(
        &mut self,
        other: &mut Map<T, X, S>,
        mut moved: F,
    ) -> Result<usize, StoppedAppend>
        requires { MayReport F.FnMut moved }
        ensures appends { Appends X.alike X.grown self.old other.old result self.new other.new }
        ensures reported { (last : F) × ReportsMoves (GivesMove F.FnMut) moved last other.old.store self.new.store
            other.new.store (moved_count result) }
        ensures count { live_count self.new.store ≡ live_count self.old.store + moved_count result }
        ensures left { live_count other.new.store + moved_count result ≡ live_count other.old.store }
        ensures others { (ix : ℕ) (item : T) → get self.old.store ix ≡ Some item → get self.new.store ix ≡ Some item }
        ensures stay { (ix : ℕ) (item : T) → get other.new.store ix ≡ Some item → get other.old.store ix ≡ Some item }
        ensures kept { KeepsOrMoves other.old.store other.new.store self.new.store }
        ensures conflicts { IsOk result → EachConflicts X.alike self.new.store other.new.store }
        ensures full { IfErr result (λ stopped. stopped.error ≡ Full → IsFull self.new.store) }
        ensures not_refused { live_count other.old.store ≤ room self.old → IsOk result }
    {
        let before = self.len();
        for at in 0..other.items.slot_count() {
            let from = ItemIndex::new(at as u32);
            if let Err(error) = self.append_reported(other, from, &mut moved) {
                return Err(StoppedAppend {
                    moved: self.len() - before,
                    error,
                });
            }
        }
        Ok(self.len() - before)
    }

    // Moves the item at an index of another map as `append_at` does, and calls the closure with the move.
    fn append_reported<F: FnMut(ItemIndex, ItemIndex)>(
        &mut self,
        other: &mut Map<T, X, S>,
        from: ItemIndex,
        moved: &mut F,
    ) -> Result<(), GrowError>
        requires { (at : ℕ) → TakesMove F.FnMut moved.old (from, at) }
        ensures moved { OnOk result ((to : Option ℕ)
            × AppendsItem X.alike X.grown from (get other.old.store from) self.old other.old (Ok to) self.new other.new
            × ReportsIfMoved (GivesMove F.FnMut) from to moved.old moved.new) }
        ensures refused { IfErr result (λ error. (moved.new ≡ moved.old)
            × AppendsItem X.alike X.grown from (get other.old.store from) self.old other.old (Err error) self.new
            other.new) }
    {
        if let Some(to) = self.append_at(other, from)? {
            moved(from, to);
        }
        Ok(())
    }

    // Moves the item at an index of another map, if there is one, unless it shares a unique key with an item of this
    // map. Returns its index here, if it was moved.
    fn append_at(
        &mut self,
        other: &mut Map<T, X, S>,
        ix: ItemIndex,
    ) -> Result<Option<ItemIndex>, GrowError>
        ensures { AppendsItem X.alike X.grown ix (get other.old.store ix) self.old other.old result self.new other.new }
    {
        let Some(item) = other.items.get(ix) else {
            return Ok(None);
        };
        let hashes = X::hashes(&self.state, item);
        match prepare(
            &mut self.items,
            &mut self.indexes,
            &self.state,
            hashes,
            item,
        ) {
            Ok((plan, blocks, next)) => {
                match take_out(&mut other.items, &mut other.indexes, &other.state, ix) {
                    Some(item) => {
                        self.indexes.insert(hashes, &plan, blocks, next);
                        store_in_room(&mut self.items, item);
                    }
                    None => unreachable!(),
                }
                Ok(Some(next))
            }
            Err(NotReady::Conflict(_)) => Ok(None),
            Err(NotReady::Refused(error)) => Err(error),
        }
    }
}
