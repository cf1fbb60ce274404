//! Copies of a map.
use super::TriIndex;
use crate::map::Map;
use iddqd_keys::tri_hash_item::TriHashItem;
use std::alloc::AllocError;
use std::hash::BuildHasher;

/// Items whose clones have the same keys, so that a map of them can be cloned without a look-up.
///
/// No method is to be written. For a derived `Clone` `ghost same_key1 = { Prim.search rules };` shows it.
pub trait TriHashClone: TriHashItem + Clone {
    ghost use Rattle.std.specs.Prelude.{IsTrue};

    ghost same_key1: { (x y : Self) → Self.is_clone x y
        → IsTrue (Self.Key1.eq (Self.first_key x) (Self.first_key y)) };

    ghost same_key2: { (x y : Self) → Self.is_clone x y
        → IsTrue (Self.Key2.eq (Self.second_key x) (Self.second_key y)) };

    ghost same_key3: { (x y : Self) → Self.is_clone x y
        → IsTrue (Self.Key3.eq (Self.third_key x) (Self.third_key y)) };
}

/// Each item is cloned once, under its index, and no key is hashed or compared. The copy has memory for exactly the
/// slots that there are, and no more cells than the map. If memory runs out, the clones made so far are dropped.
impl<T: TriHashClone, S: BuildHasher + Copy> Clone for Map<T, TriIndex<T>, S> {
    ghost use Rattle.iddqd_map.specs.Clones.{IsMapClone};

    ghost is_clone = { IsMapClone T.is_clone };

    fn clone(&self) -> Result<Map<T, TriIndex<T>, S>, AllocError> {
        self.copied()
    }
}
