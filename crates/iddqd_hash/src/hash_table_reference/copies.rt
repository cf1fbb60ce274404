//! Clones of the reference table.
ghost use Rattle.std.specs.Prelude.{◌≡◌, ◌≤◌, length, IfOk, MatchResult, vec_capacity};
ghost use Rattle.std.specs.List.{AllZip};
ghost use Rattle.iddqd_hash.specs.HashTable.{entries, memory, Rewrites};

use super::HashTable;
use std::alloc::{AllocError, Global};

/// A clone has no more memory than the table. If an allocation fails, the clones made so far are dropped.
impl<T: Clone> Clone for HashTable<T> {
    ghost use Rattle.iddqd_hash.specs.HashTable.{entries, Rewrites};

    // The copy has a clone of each value under that value's hash, and no other value.
    ghost is_clone = { λ t copy. Rewrites T.is_clone (entries t) (entries copy) };

    fn clone(&self) -> Result<HashTable<T>, AllocError>
        ensures cases { MatchResult result (λ copy. Rewrites T.is_clone (entries self.now) (entries copy)) (λ _. ¬ ⊥) }
        ensures memory { IfOk result (λ copy. memory copy ≤ memory self.now) }
    {
        Ok(HashTable {
            pairs: cloned_pairs(*self.pairs.allocator(), &self.pairs)?,
        })
    }
}

// A clone of each value under its hash, in memory for these pairs alone.
fn cloned_pairs<T: Clone>(alloc: Global, pairs: &[(u64, T)]) -> Result<Vec<(u64, T)>, AllocError>
    ensures clones { IfOk result
        (λ copies. AllZip (λ e w. (w.0 ≡ e.0) × T.is_clone e.1 w.1) pairs.now copies.items) }
    ensures capacity { IfOk result (λ copies. vec_capacity copies ≡ length pairs.now) }
{
    let mut copies = Vec::with_capacity(alloc, pairs.len())?;
    for pair in pairs {
        copies.push_reserved(pair.clone()?);
    }
    Ok(copies)
}
