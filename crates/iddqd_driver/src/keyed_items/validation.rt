//! The check that store and tables are sound, and that each item is found.
//!
//! Every value keeps store and tables sound and paired. So a check by scans fails for two reasons only: memory ran out,
//! or the mode was `Compact` and a slot is vacant. Each part is checked all the same, for those who change this crate.
//!
//! If every item is found by its second key, the ordered table is sorted: a search that finds each of two neighbours
//! has compared both with one key between them. Likewise no two items share a key if each is found. But which keys a
//! look-up compares is no part of its contract. So a check by keys also compares neighbours of the ordered table, and
//! looks for another index with the same first key. Then its contract says that both tables are in sync.
ghost use Rattle.std.specs.Prelude.{◌≡◌, ◌↔◌, ◌<◌, length, Some, IsTrue, IsOk, IfErr, MatchResult};
ghost use Rattle.std.specs.declared.cmp.Ordering.TheVariants.{Less};
ghost use Rattle.iddqd.specs.{get};
ghost use Rattle.iddqd.specs.Validation.{Allows, IsMemory, Tells, Validates, not_compact_text};
ghost use Rattle.iddqd_hash.specs.{filed};
ghost use Rattle.iddqd_order.specs.{order_of};
ghost use Rattle.iddqd_keys.specs.Scan.{IsLive, IsHit, passes_by};
ghost use Rattle.iddqd_by_hash.specs.Hashed as by_hash;
ghost use Rattle.iddqd_by_order.specs.Ordered as by_order;
ghost use Rattle.iddqd_driver.specs.State.{IsPaired};
ghost use Rattle.iddqd_driver.specs.KeyIndexes.{FirstKeysInSync, AreInSync};
ghost use Rattle.iddqd_driver.specs.Validation.{AreStored, IsFoundAlone, HasLesserHit, KeysRise, by_key, with_table_name};

use super::{Keyed, KeyedItems};
use crate::keyed_item::{First, KeyedItem, Second};
use iddqd::internal::{
    TableValidationError, ValidateChaos, ValidateCompact, ValidateRefusal, ValidationError,
};
use iddqd::item_index::ItemIndex;
use iddqd::item_set::ItemSet;
use iddqd::map_hash::MapHash;
use iddqd_hash::hash_table::MapHashTable;
use iddqd_keys::key_of::key_at;
use iddqd_order::btree_table::MapBTreeTable;
use std::alloc::{AllocError, Global};
use std::hash::BuildHasher;

impl<T: KeyedItem, S: BuildHasher> KeyedItems<T, S> {
    /// Whether store and tables are sound in the mode, and each item is found.
    ///
    /// With `ValidateChaos::Yes` each index is searched for by a scan of both tables, which always finds it. With `No`
    /// it is looked up by the keys that its item has now, which may miss if `overwrite` changed a key; `Ok` means that
    /// both tables are in sync. The first check that fails is reported: of the store, of each table, of each item by
    /// rising index.
    ///
    /// Memory is taken for two copies of the hash table's indexes, one of which is sorted, and for the text of a
    /// refusal. With `Yes` the cost grows as the square of the number of items, with `No` as sorting does.
    ///
    /// Cost: as sorting the indexes, and a look-up of each item; with `ValidateChaos::Yes` a scan for each; takes
    /// memory for two lists of indexes, and for the text of a refusal.
    pub fn validate(
        &self,
        compactness: ValidateCompact,
        chaos: ValidateChaos,
    ) -> Result<(), ValidateRefusal<ValidationError>>
        ensures paired { IsPaired self.now.state }

        // In every state it is Ok only if the mode allows the vacant slots; if the mode doesn't, the error says so,
        // unless memory for its text runs out.
        ensures allowed { IsOk result → Allows compactness (length self.now.state.store.free) }
        ensures not_compact { (Allows compactness (length self.now.state.store.free) → ⊥)
            → IfErr result (Tells (not_compact_text (length self.now.state.store.free))) }

        // By scans, and also if both tables are in sync, it is Ok if and only if the mode allows the vacant slots,
        // unless memory runs out.
        ensures by_scans { chaos ≡ ValidateChaos.Yes
            → Validates (Allows compactness (length self.now.state.store.free)) result }
        ensures in_sync { AreInSync ⟦<Self as Keyed>⟧.keys self.now.state
            → Validates (Allows compactness (length self.now.state.store.free)) result }

        // By keys it is Ok only if both tables are in sync.
        ensures by_keys { chaos ≡ ValidateChaos.No → IsOk result
            → AreInSync ⟦<Self as Keyed>⟧.keys self.now.state }
    {
        self.items.validate(compactness)?;
        let len = self.items.len();
        of_table("first", self.filed.validate(len, compactness))?;
        of_table("second", self.order.validate(len, compactness))?;
        match chaos {
            ValidateChaos::Yes => {
                check_stored(self.alloc, &self.items, &self.filed, &self.order)
            }
            ValidateChaos::No => self.check_by_keys(),
        }
    }

    // Whether both tables are in sync.
    fn check_by_keys(&self) -> Result<(), ValidateRefusal<ValidationError>>
        ensures by_keys { IsOk result → AreInSync ⟦<Self as Keyed>⟧.keys self.now.state }
        ensures in_sync { AreInSync ⟦<Self as Keyed>⟧.keys self.now.state → IfErr result IsMemory }
    {
        self.check_found()?;
        check_order::<T>(self.alloc, &self.items, &self.order)
    }

    // Whether each item is found by the keys that it has now, and no two share the first one.
    fn check_found(&self) -> Result<(), ValidateRefusal<ValidationError>>
        ensures by_keys { IsOk result → FirstKeysInSync ⟦<Self as Keyed>⟧.keys self.now.state }
        ensures in_sync { AreInSync ⟦<Self as Keyed>⟧.keys self.now.state → IfErr result IsMemory }
    {
        for (ix, item) in self.items.iter() {
            if !self.is_found1(ix, item) {
                return Err(refusal(format!(in self.alloc;
                    "KeyedItems index {ix} is not found by its first key"
                )));
            }
            if self.find2(item.key2()) != Some(ix) {
                return Err(refusal(format!(in self.alloc;
                    "KeyedItems index {ix} is not found by its second key"
                )));
            }
        }
        Ok(())
    }

    // Whether the item at an index is found by its first key, and no lesser index has an equal one under its hash.
    fn is_found1(&self, ix: ItemIndex, item: &T) -> bool
        ensures found { IsTrue result
            → IsFoundAlone ⟦<Self as Keyed>⟧.keys self.now.state ix (T.first_key item.now) }
        ensures in_sync { FirstKeysInSync ⟦<Self as Keyed>⟧.keys self.now.state
            → get self.now.state.store ix ≡ Some item.now → IsTrue result }
    {
        let (hash, found) = self.hash_and_find(item.key1());
        if found != Some(ix) {
            return false;
        }
        !has_lesser::<T>(&self.filed, &self.items, hash, item.key1(), ix)
    }
}

// Whether a lesser index is filed under the hash, and its item has the first key.
#[tactic(auto, using(crate::proofs::InSyncLemmas::next_is_filed))]
fn has_lesser<T: KeyedItem>(
    table: &MapHashTable,
    items: &ItemSet<T>,
    hash: MapHash,
    key: &T::Key1,
    ix: ItemIndex,
) -> bool
    requires { by_hash.AreLive items.now.store (filed table.now) }
    ensures { IsTrue result
        ↔ HasLesserHit items.now.store (filed table.now) hash (passes_by T.first_key (T.Key1.eq key.now)) ix }
{
    for at in table.indexes_under(hash) {
        if is_lesser_hit::<T>(items, key, at, ix) {
            return true;
        }
    }
    false
}

// Whether one index is less than another, and its item has the first key.
fn is_lesser_hit<T: KeyedItem>(
    items: &ItemSet<T>,
    key: &T::Key1,
    at: ItemIndex,
    ix: ItemIndex,
) -> bool
    requires { IsLive items.now.store at }
    ensures { IsTrue result ↔ (at < ix) × IsHit items.now.store (passes_by T.first_key (T.Key1.eq key.now)) at }
{
    at < ix && *key == *key_at::<T, First>(items, at)
}

// Whether the second keys rise along the ordered table.
fn check_order<T: KeyedItem>(
    alloc: Global,
    items: &ItemSet<T>,
    order: &MapBTreeTable,
) -> Result<(), ValidateRefusal<ValidationError>>
    requires { by_order.AreLive items.now.store (order_of order.now) }
    ensures { Validates (KeysRise T.second_key T.Key2.cmp items.now.store (order_of order.now)) result }
{
    let mut walk = order.iter();
    let Some(first) = walk.next() else {
        return Ok(());
    };
    let mut before = first;
    for ix in walk {
        if !is_below::<T>(items, before, ix) {
            return Err(refusal(format!(in alloc;
                "KeyedItems index {ix} is not found by its second key"
            )));
        }
        before = ix;
    }
    Ok(())
}

// Whether the second key at one live index is less than that at another.
fn is_below<T: KeyedItem>(items: &ItemSet<T>, before: ItemIndex, ix: ItemIndex) -> bool
    requires before { IsLive items.now.store before }
    requires ix { IsLive items.now.store ix }
    ensures { IsTrue result ↔ (by_key T.second_key T.Key2.cmp items.now.store before ix ≡ Less) }
{
    let key = key_at::<T, Second>(items, before);
    key.cmp(key_at::<T, Second>(items, ix)).is_lt()
}

// Whether both tables have each live index, by scans of them.
fn check_stored<T>(
    alloc: Global,
    items: &ItemSet<T>,
    first: &MapHashTable,
    second: &MapBTreeTable,
) -> Result<(), ValidateRefusal<ValidationError>>
    ensures { Validates (AreStored items.now.store (filed first.now) (order_of second.now)) result }
{
    for (ix, _) in items.iter() {
        if !first.contains_index(ix) {
            return Err(refusal(format!(in alloc;
                "KeyedItems index {ix} is not stored in table first"
            )));
        }
        if !second.contains_index(ix) {
            return Err(refusal(format!(in alloc;
                "KeyedItems index {ix} is not stored in table second"
            )));
        }
    }
    Ok(())
}

// The result of a table's check, with the table's name in an error.
fn of_table(
    name: &'static str,
    answer: Result<(), ValidateRefusal<TableValidationError>>,
) -> Result<(), ValidateRefusal<ValidationError>>
    ensures { result ≡ with_table_name name.entry answer }
{
    match answer {
        Ok(()) => Ok(()),
        Err(ValidateRefusal::Invalid(error)) => {
            Err(ValidateRefusal::Invalid(ValidationError::Table { name, error }))
        }
        Err(ValidateRefusal::Memory(error)) => Err(ValidateRefusal::Memory(error)),
    }
}

// The error with this text, or `Memory` if memory for the text ran out.
fn refusal(text: Result<String, AllocError>) -> ValidateRefusal<ValidationError>
    ensures { MatchResult text
        (λ text. result ≡ ValidateRefusal.Invalid (ValidationError.General text))
        (λ error. result ≡ ValidateRefusal.Memory error) }
{
    match text {
        Ok(text) => ValidateRefusal::Invalid(ValidationError::general(text)),
        Err(error) => ValidateRefusal::Memory(error),
    }
}
