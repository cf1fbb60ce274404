//! Second keys that are unique, and second keys that several entries may share.
//!
//! A function that inserts, replaces or looks up is written once, over entries whose second keys go by a key index `B`.
//! What of it depends on the kind is a method here. Their contracts speak of entries and numbers, so no caller has to
//! know how a key index compares or what it reports.
ghost use Rattle.std.specs.Prelude.{◌≡◌};
ghost use Rattle.iddqd_keys.specs.Scan.{AnswersScan};
ghost use Rattle.iddqd_c.specs.Entries.{FindsLeast};
ghost use Rattle.iddqd_c.specs.Keys.{has_second};

use crate::entry::{Entry, Shared, Unique};
use iddqd::item_index::ItemIndex;
use iddqd::item_set::ItemSet;
use iddqd_keys::bounds::Bounds;
use iddqd_map::key_index::{Changes, Here, StepsAt, UniqueAt};
use iddqd_map::no_conflict::NoConflict;
use std::hash::RandomState;

/// A key index of second keys, which are unique or shared.
pub trait SecondKey: Changes<Entry, RandomState> {
    ghost use Rattle.std.specs.Prelude.{ℕ, Bool, Some};
    ghost use Rattle.iddqd.specs.Store.{Store};
    ghost use Rattle.iddqd_c.specs.declared.entry.Entry.{Entry};

    // Which entries stand in the way of another one with this second key.
    ghost taken: { ℕ → Entry → Bool };

    /// The index that a conflict by the second key reports.
    fn reported(at: &Self::Conflict) -> ItemIndex
        ensures { (s : Store Entry) (entry : Entry) → Self.Changes.conflicts s entry at.now
            → AnswersScan s (taken entry.second) (Some result) };

    /// The index of the entry that stands in the way of another one with this second key.
    fn in_the_way(
        &self,
        items: &ItemSet<Entry>,
        state: &RandomState,
        second: u64,
    ) -> Option<ItemIndex>
        requires indexed { Self.KeyIndex.indexes self.now state.now items.now.store }
        ensures { AnswersScan items.now.store (taken second) result };

    /// The least index of the entries that have this second key. It is one search.
    fn least(&self, items: &ItemSet<Entry>, state: &RandomState, second: u64) -> Option<ItemIndex>
        requires indexed { Self.KeyIndex.indexes self.now state.now items.now.store }
        ensures { FindsLeast items.now.store (has_second second) result };

    // An entry is refused by its second key as `taken` says, the table of second keys takes no cells for an insert, and
    // it files an entry by no more than its second key.
    ghost alike_is_taken: { (x y : Entry) → Self.KeyIndex.alike x y ≡ taken x.second y };

    ghost grows_by_none: { (count : ℕ) → Self.KeyIndex.grown count ≡ 0 };

    ghost files_by_second: { (x y : Entry) → x.second ≡ y.second → Self.KeyIndex.keys x ≡ Self.KeyIndex.keys y };
}

impl SecondKey for Unique {
    ghost use Rattle.std.proofs.Common.{refl};
    ghost use Rattle.iddqd_c.specs.Keys.{has_second};

    ghost taken = { has_second };

    fn reported(at: &ItemIndex) -> ItemIndex {
        *at
    }

    fn in_the_way(
        &self,
        items: &ItemSet<Entry>,
        state: &RandomState,
        second: u64,
    ) -> Option<ItemIndex> {
        let (found, _) = UniqueAt::<Here, &u64, Entry, RandomState>::find(
            self, items, state, &second,
        );
        found
    }

    fn least(&self, items: &ItemSet<Entry>, state: &RandomState, second: u64) -> Option<ItemIndex> {
        let (found, _) = UniqueAt::<Here, &u64, Entry, RandomState>::find(
            self, items, state, &second,
        );
        found
    }

    ghost alike_is_taken = { λ x y. refl };

    ghost grows_by_none = { λ count. refl };

    ghost files_by_second = { λ x y same. same };
}

impl SecondKey for Shared {
    ghost use Rattle.std.proofs.Common.{refl};
    ghost use Rattle.iddqd_c.specs.Keys.{never};

    ghost taken = { never };

    fn reported(at: &NoConflict) -> ItemIndex {
        ItemIndex::SENTINEL
    }

    fn in_the_way(
        &self,
        items: &ItemSet<Entry>,
        state: &RandomState,
        second: u64,
    ) -> Option<ItemIndex> {
        None
    }

    fn least(&self, items: &ItemSet<Entry>, state: &RandomState, second: u64) -> Option<ItemIndex> {
        let bounds = Bounds::only(&second);
        match StepsAt::<Here, &u64, Entry, RandomState>::first_between(
            self, items, state, &bounds,
        ) {
            Some(at) => Some(at.0),
            None => None,
        }
    }

    ghost alike_is_taken = { λ x y. refl };

    ghost grows_by_none = { λ count. refl };

    ghost files_by_second = { λ x y same. same };
}
