//! The check of a set's own slots, which the invariant makes sound.
ghost use Rattle.std.specs.Prelude.{◌↔◌, length, IsOk, IfErr};
ghost use Rattle.iddqd.specs.Validation.{Allows, Tells, not_compact_text};

use super::ItemSet;
use crate::internal::{ValidateCompact, ValidateRefusal, ValidationError, validate_slots};

impl<T> ItemSet<T> {
    /// Whether the slots are sound, as they are in every set; for `Compact`, whether none is vacant.
    ///
    /// It costs at most two steps for each slot. It takes memory only for the text of a refusal.
    pub fn validate(
        &self,
        compactness: ValidateCompact,
    ) -> Result<(), ValidateRefusal<ValidationError>>
        ensures allows { IsOk result ↔ Allows compactness (length self.now.store.free) }
        ensures not_compact { IfErr result (Tells (not_compact_text (length self.now.store.free))) }
    {
        validate_slots(
            *self.slots.allocator(),
            &self.slots,
            self.free_head,
            self.len,
            compactness,
        )
    }
}
