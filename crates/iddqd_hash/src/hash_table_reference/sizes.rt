//! How the reference table reserves memory, and gives it back.
ghost use Rattle.std.specs.Prelude.{◌≡◌, [], length, IfOk};
ghost use Rattle.std.specs.List.Sorted.{IsPermutation};
ghost use Rattle.iddqd_hash.specs.HashTable.{entries};
ghost use Rattle.iddqd_hash.specs.Sizes.{Reserves, TakesRoom, Shrinks};

use super::HashTable;
use std::alloc::{AllocError, Global};

impl<T> HashTable<T> {
    /// An empty table with room for `capacity` pairs. With 0 it takes no memory.
    pub fn with_capacity(alloc: Global, capacity: usize) -> Result<HashTable<T>, AllocError>
        ensures empty { IfOk result (λ t. entries t ≡ []) }
        ensures memory { TakesRoom capacity result }
    {
        Ok(HashTable {
            pairs: Vec::with_capacity(alloc, capacity)?,
        })
    }

    /// The same as `try_reserve`. Unlike `reserve` of Rust's collections it returns an error if memory runs out.
    pub fn reserve(&mut self, additional: usize) -> Result<(), AllocError>
        ensures contents { IsPermutation (entries self.old) (entries self.new) }
        ensures memory { Reserves additional self.old result self.new }
    {
        self.try_reserve(additional)
    }

    /// Gives back the memory that the pairs don't need.
    ///
    /// If the smaller memory can't be allocated, the pairs stay. If none is needed, it can't fail.
    pub fn shrink_to_fit(&mut self) -> Result<(), AllocError>
        ensures contents { IsPermutation (entries self.old) (entries self.new) }
        ensures memory { Shrinks 0 (length (entries self.old)) self.old result self.new }
    {
        self.shrink_to(0)
    }

    /// Gives back memory that is needed neither for the pairs in the table nor for a table of `least` pairs.
    ///
    /// If the smaller memory can't be allocated, the pairs stay. If none is needed, it can't fail.
    pub fn shrink_to(&mut self, least: usize) -> Result<(), AllocError>
        ensures contents { IsPermutation (entries self.old) (entries self.new) }
        ensures memory { Shrinks least (length (entries self.old)) self.old result self.new }
    {
        let wanted = least.max(self.pairs.len());
        self.pairs.shrink_to(wanted);
        if wanted < self.pairs.capacity() {
            return Err(AllocError);
        }
        Ok(())
    }

    /// Drops a table that has no pair, and gives back its memory. The type of its values needn't be `Drop`.
    pub fn destroy_empty(self)
        requires { entries self ≡ [] }
    {
        self.pairs.destroy_empty();
    }
}
