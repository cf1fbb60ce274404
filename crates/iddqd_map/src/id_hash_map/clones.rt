//! Copies of a map.
use super::{IdHashItem, IdIndex};
use crate::map::Map;
use std::alloc::AllocError;
use std::hash::BuildHasher;

/// Items whose clones have the same key, so that a map of them can be cloned without a look-up.
///
/// No method is to be written. For a derived `Clone` `ghost same_key = { Prim.search rules };` shows it.
pub trait IdHashClone: IdHashItem + Clone {
    ghost use Rattle.std.specs.Prelude.{IsTrue};

    ghost same_key: { (x y : Self) → Self.is_clone x y → IsTrue (Self.Key.eq (Self.key_of x) (Self.key_of y)) };
}

/// Each item is cloned once, under its index, and no key is hashed or compared. The copy has memory for exactly the
/// slots that there are, and no more cells than the map. If memory runs out, the clones made so far are dropped.
impl<T: IdHashClone, S: BuildHasher + Copy> Clone for Map<T, IdIndex<T>, S> {
    ghost use Rattle.iddqd_map.specs.Clones.{IsMapClone};

    ghost is_clone = { IsMapClone T.is_clone };

    fn clone(&self) -> Result<Map<T, IdIndex<T>, S>, AllocError> {
        self.copied()
    }
}
