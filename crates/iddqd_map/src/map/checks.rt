//! The check of a map's parts, which the invariant makes sound.
ghost use Rattle.std.specs.Prelude.{length, IfErr};
ghost use Rattle.iddqd.specs.{Allows, Validates};
ghost use Rattle.iddqd.specs.Validation.{Tells, not_compact_text};

use super::Map;
use crate::key_index::Upkeep;
use iddqd::internal::{ValidateCompact, ValidateRefusal, ValidationError};

impl<T, X: Upkeep<T, S>, S> Map<T, X, S> {
    /// Checks that store and tables are sound, as they are in every map; with `Compact`, also that no slot is vacant.
    ///
    /// Memory may run out for the check of a hash table, which copies its indexes twice and sorts the second copy, and
    /// for the text of a refusal. The check of an ordered table takes none if the table passes.
    ///
    /// Cost: a step for each slot, and sorting the indexes of each hash table; takes memory for two lists of these, and
    /// for the text of a refusal.
    pub fn validate(
        &self,
        compactness: ValidateCompact,
    ) -> Result<(), ValidateRefusal<ValidationError>>
        ensures allows { Validates (Allows compactness (length self.now.store.free)) result }
        ensures not_compact { (Allows compactness (length self.now.store.free) → ⊥)
            → IfErr result (Tells (not_compact_text (length self.now.store.free))) }
    {
        if let Err(refusal) = self.items.validate(compactness) {
            return Err(refusal);
        }
        self.indexes.validate(&self.items, &self.state, compactness)
    }
}
