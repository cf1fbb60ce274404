//! Clones of a table of indexes.
ghost use Rattle.std.specs.Prelude.{◌≡◌, IfOk, MatchResult};
ghost use Rattle.iddqd_hash.specs.MapHashTable.{filed};

use super::MapHashTable;
use std::alloc::AllocError;

/// A clone has as much memory as the table.
impl Clone for MapHashTable {
    ghost use Rattle.std.specs.Prelude.{◌≡◌};
    ghost use Rattle.iddqd_hash.specs.MapHashTable.{filed};

    ghost is_clone = { λ t copy. filed copy ≡ filed t };

    fn clone(&self) -> Result<MapHashTable, AllocError>
        ensures cases { MatchResult result (λ copy. filed copy ≡ filed self.now) (λ _. ¬ ⊥) }
        ensures same { IfOk result (λ copy. copy ≡ self.now) }
    {
        Ok(MapHashTable {
            table: self.table.copied()?,
        })
    }
}
