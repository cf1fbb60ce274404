//! Copies of a linked table.
ghost use Rattle.std.specs.Prelude.{◌≡◌, ◌≤◌, IfOk, MatchResult, length, vec_capacity};

use super::LinkedTable;
use super::links::Link;
use std::alloc::{AllocError, Global};

/// A copy has the same indexes, and memory for no more links than there are.
impl Clone for LinkedTable {
    ghost use Rattle.std.specs.Prelude.{◌≡◌};

    ghost is_clone = { λ t copy. copy.filed ≡ t.filed };

    fn clone(&self) -> Result<LinkedTable, AllocError>
        ensures cases { MatchResult result (λ copy. copy.filed ≡ self.now.filed) (λ _. ¬ ⊥) }
        ensures slots { IfOk result (λ copy. copy.slots ≡ self.now.slots) }
        ensures few { IfOk result (λ copy. copy.memory ≤ self.now.memory) }
    {
        Ok(LinkedTable {
            heads: self.heads.clone()?,
            links: copied_links(*self.links.allocator(), &self.links)?,
            len: self.len,
        })
    }
}

// A copy of the links, in a vector whose capacity is exactly their number.
fn copied_links(alloc: Global, links: &[Link]) -> Result<Vec<Link>, AllocError>
    ensures links { IfOk result (λ copies. copies.items ≡ links.now) }
    ensures capacity { IfOk result (λ copies. vec_capacity copies ≡ length links.now) }
{
    let mut copies = Vec::with_capacity(alloc, links.len())?;
    for link in links {
        copies.push_reserved(*link);
    }
    Ok(copies)
}
