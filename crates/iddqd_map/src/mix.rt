//! How a map by a mix of keys prints, and its copies.
//!
//! A mix is a `Pair` of key indexes. Each of the maps that have names of their own says this itself, since it prints
//! its items by their keys, and names the keys that a clone has to share.
use crate::key_index::{KeyIndex, Upkeep};
use crate::map::Map;
use crate::pair::Pair;
use std::alloc::AllocError;
use std::fmt;

/// Items whose clones have the same keys, as the key index `X` compares them, so that a map of them can be cloned
/// without a look-up.
///
/// No method is to be written. `same_keys` shows it, for each key in turn.
pub trait CloneFor<X: KeyIndex<Self, S>, S>: Sized + Clone {
    ghost use Rattle.std.specs.Prelude.{◌≡◌, true};

    ghost same_keys: { (x y : Self) → Self.is_clone x y → X.same_keys x y ≡ true };
}

/// Each item is cloned once, under its index, and no key is hashed or compared. The copy has memory for exactly the
/// slots that there are, and no more cells than the map. If memory runs out, the clones made so far are dropped.
impl<T, A, B, S> Clone for Map<T, Pair<A, B>, S>
where
    T: CloneFor<Pair<A, B>, S>,
    A: Upkeep<T, S>,
    B: Upkeep<T, S>,
    S: Copy,
{
    ghost use Rattle.iddqd_map.specs.Clones.{IsMapClone};

    ghost is_clone = { IsMapClone T.is_clone };

    fn clone(&self) -> Result<Map<T, Pair<A, B>, S>, AllocError> {
        self.copied()
    }
}

/// It prints as a map of the items by their indexes, by rising index.
impl<T, A, B, S> fmt::Debug for Map<T, Pair<A, B>, S>
where
    T: fmt::Debug,
    A: KeyIndex<T, S>,
    B: KeyIndex<T, S>,
{
    fn fmt<W: fmt::Write>(&self, f: &mut fmt::Formatter<W>) -> fmt::Result {
        let mut out = f.debug_map();
        for (ix, item) in self.iter() {
            out.entry(&ix, item);
        }
        out.finish()
    }
}
