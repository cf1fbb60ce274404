//! The check of a map's parts, which the invariant makes sound.
ghost use Rattle.std.specs.Prelude.{length, IfErr};
ghost use Rattle.iddqd.specs.{Allows, Validates};
ghost use Rattle.iddqd.specs.Validation.{Tells, not_compact_text};

use super::OrdMapBy;
use iddqd::internal::{ValidateCompact, ValidateRefusal, ValidationError};
use iddqd_keys::order_key::OrdKey;

impl<T: Drop, E: OrdKey<T>> OrdMapBy<T, E> {
    /// Whether store and table are sound, as they are in every map; for `Compact`, whether no slot is vacant.
    ///
    /// Memory is taken only for the text of a refusal.
    ///
    /// Cost: a step for each slot and each index; takes memory only for the text of a refusal.
    pub fn validate(
        &self,
        compactness: ValidateCompact,
    ) -> Result<(), ValidateRefusal<ValidationError>>
        ensures allows { Validates (Allows compactness (length self.now.store.free)) result }
        ensures not_compact { (Allows compactness (length self.now.store.free) → ⊥)
            → IfErr result (Tells (not_compact_text (length self.now.store.free))) }
    {
        self.map.validate(compactness)
    }
}
