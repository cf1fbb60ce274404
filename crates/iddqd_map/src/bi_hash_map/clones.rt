//! Copies of a map.
use super::BiIndex;
use super::item::BiHashItem;
use crate::map::Map;
use std::alloc::AllocError;
use std::hash::BuildHasher;

/// Items whose clones have the same keys, so that a map of them can be cloned without a look-up.
///
/// No method is to be written. For a derived `Clone` `ghost same_key1 = { Prim.search rules };` shows it.
pub trait BiHashClone: BiHashItem + Clone {
    ghost use Rattle.std.specs.Prelude.{IsTrue};

    ghost same_key1: { (x y : Self) → Self.is_clone x y
        → IsTrue (Self.Key1.eq (Self.first_key x) (Self.first_key y)) };

    ghost same_key2: { (x y : Self) → Self.is_clone x y
        → IsTrue (Self.Key2.eq (Self.second_key x) (Self.second_key y)) };
}

/// Each item is cloned once, under its index, and no key is hashed or compared. The copy has memory for exactly the
/// slots that there are, and no more cells than the map. If memory runs out, the clones made so far are dropped.
impl<T: BiHashClone, S: BuildHasher + Copy> Clone for Map<T, BiIndex<T>, S> {
    ghost use Rattle.iddqd_map.specs.Clones.{IsMapClone};

    ghost is_clone = { IsMapClone T.is_clone };

    fn clone(&self) -> Result<Map<T, BiIndex<T>, S>, AllocError> {
        self.copied()
    }
}
