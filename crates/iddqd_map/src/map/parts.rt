//! A map's parts, borrowed: for look-ups that one key index has.
//!
//! Invariants:
//! 1. The key index has exactly the live indexes of the store, each where its item's keys belong under the state.
ghost use Rattle.std.specs.Prelude.{◌≡◌};

use crate::key_index::KeyIndex;
use crate::pair::Pair;
use iddqd::item_set::ItemSet;
use std::marker::Model;

/// The parts of a map, borrowed. A contract sees the store of its items.
///
/// By `left` and `right` one gets to the key index of one key, which has look-ups of its own.
#[derive(Drop)]
pub struct Parts<'a, T, X: KeyIndex<T, S>, S> {
    /// The items.
    pub items: &'a ItemSet<T>,
    /// What they are found by.
    pub indexes: &'a X,
    /// The state of the hasher.
    pub state: &'a S,
}

impl<'a, T, X: KeyIndex<T, S>, S> Model for Parts<'a, T, X, S> {
    ghost use Rattle.iddqd.specs.Store.{Store, store_code};

    ghost Value = { Store T };

    ghost coded = { store_code T.code };

    ghost view = { λ p. p.items.now.store };

    ghost invariant = { λ p. X.indexes p.indexes.now p.state.now p.items.now.store };
}

impl<'a, T, S, A: KeyIndex<T, S>, B: KeyIndex<T, S>> Parts<'a, T, Pair<A, B>, S> {
    /// The parts with the first key index of the pair alone.
    ///
    /// Cost: a few steps; takes no memory.
    pub fn left(self) -> Parts<'a, T, A, S>
        ensures { result ≡ self.entry }
    {
        Parts {
            items: self.items,
            indexes: &self.indexes.first,
            state: self.state,
        }
    }

    /// The parts with the second key index of the pair alone.
    ///
    /// Cost: a few steps; takes no memory.
    pub fn right(self) -> Parts<'a, T, B, S>
        ensures { result ≡ self.entry }
    {
        Parts {
            items: self.items,
            indexes: &self.indexes.second,
            state: self.state,
        }
    }
}
