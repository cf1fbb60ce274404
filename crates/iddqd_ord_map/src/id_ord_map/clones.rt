//! Copies of a map.
use super::{IdOrdItem, IdOrdMap, OrdMapBy};
use std::alloc::AllocError;

/// Items whose clones have the same key, so that a map of them can be cloned without a look-up.
///
/// No method is to be written. For a derived `Clone` `ghost same_key = { Prim.search rules };` shows it, or at a key
/// that is text `same_text` of `TextLaws` of `iddqd_maps`.
pub trait IdOrdClone: IdOrdItem + Clone {
    ghost use Rattle.std.specs.Prelude.{◌≡◌};
    ghost use Rattle.std.specs.declared.cmp.Ordering.TheVariants.{Equal};

    ghost same_key: { (x y : Self) → Self.is_clone x y → Self.Key.cmp (Self.key_of x) (Self.key_of y) ≡ Equal };
}

/// Each item is cloned once, under its index, and no key is compared. The copy has memory for exactly the slots that
/// there are, and its table has no more in reserve than the map's. If memory runs out, the clones made so far are
/// dropped.
impl<T: IdOrdClone> Clone for IdOrdMap<T> {
    ghost use Rattle.iddqd_map.specs.Clones.{IsMapClone};

    ghost is_clone = { IsMapClone T.is_clone };

    #[tactic(auto, using(crate::proofs::CloneLemmas::clones_are_alike))]
    fn clone(&self) -> Result<IdOrdMap<T>, AllocError> {
        Ok(OrdMapBy {
            map: self.map.copied()?,
        })
    }
}
