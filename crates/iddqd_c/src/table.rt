//! What a handle may hold.
ghost use Rattle.std.specs.Prelude.{◌≡◌};

use crate::entry::{Entries, Entry, Shared, Unique};
use crate::numbers::Numbers;
use iddqd_layer::layer::Layer;
use iddqd_map::key_index::KeyIndex;
use std::hash::{DefaultHasher, RandomState};
use std::marker::PhantomData;

/// A table of one of these kinds.
#[derive(Drop)]
pub enum Table {
    /// Items under two keys of which no two items share either.
    Unique(Keyed<Unique>),
    /// Items under two keys of which several may share the second.
    Shared(Keyed<Shared>),
    /// Numbers under hashes: of the caller's own records, say.
    Index(Numbers),
    /// Indexes of records of the caller's own, under hashed and ordered keys.
    Layer(Layer),
}

/// Entries whose second keys go by the key index `B`.
///
/// It names the hasher that a `RandomState` makes: the check of functions that move a table has to know that type, and
/// finds it in no parameter of the map.
#[derive(Drop)]
pub struct Keyed<B: KeyIndex<Entry, RandomState>> {
    pub entries: Entries<B>,
    of: PhantomData<DefaultHasher>,
}

impl<B: KeyIndex<Entry, RandomState>> Keyed<B> {
    /// A table of these entries.
    pub fn of(entries: Entries<B>) -> Keyed<B>
        ensures { result.entries ≡ entries }
    {
        Keyed {
            entries,
            of: PhantomData,
        }
    }
}
