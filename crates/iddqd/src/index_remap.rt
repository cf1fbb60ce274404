//! The new index of each old one, after a set was compacted.
ghost use Rattle.std.specs.Prelude.{◌≡◌, ◌↔◌, IsTrue};
ghost use Rattle.iddqd.specs.Compaction.{CanRemap, remapped};
ghost use Rattle.iddqd.specs.declared.index_remap.IndexRemap.TheVariants.{Identity};

use crate::item_index::ItemIndex;
use std::alloc::AllocError;

/// The new index of each old one.
#[derive(Debug, PartialEq, Eq, Drop)]
pub enum IndexRemap {
    /// Every index is unchanged.
    Identity,
    /// The new index of each old slot, or `SENTINEL` for a slot that was vacant.
    Permuted(Vec<ItemIndex>),
}

impl Clone for IndexRemap {
    ghost use Rattle.iddqd.specs.Compaction.{IsRemapClone};

    ghost is_clone = { IsRemapClone };

    fn clone(&self) -> Result<IndexRemap, AllocError> {
        match self {
            IndexRemap::Identity => Ok(IndexRemap::Identity),
            IndexRemap::Permuted(names) => Ok(IndexRemap::Permuted(names.clone()?)),
        }
    }
}

impl IndexRemap {
    /// Whether it is `Identity`: every index is unchanged, so there is no list.
    pub fn is_identity(&self) -> bool
        ensures { IsTrue result ↔ (self.now ≡ Identity) }
    {
        matches!(self, IndexRemap::Identity)
    }

    /// Whether the old index has a new one: in `Permuted`, if it was live when the set was compacted; in `Identity`,
    /// always.
    pub fn can_remap(&self, old: ItemIndex) -> bool
        ensures { IsTrue result ↔ CanRemap self.now old }
    {
        match self {
            IndexRemap::Identity => true,
            IndexRemap::Permuted(names) => match names.get(old.as_u32() as usize) {
                Some(name) => *name != ItemIndex::SENTINEL,
                None => false,
            },
        }
    }

    /// The new index of an old one, if `can_remap` holds of it.
    pub fn remap(&self, old: ItemIndex) -> ItemIndex
        requires { CanRemap self.now old }
        ensures { result ≡ remapped self.now old }
    {
        match self {
            IndexRemap::Identity => old,
            IndexRemap::Permuted(names) => names[old.as_u32() as usize],
        }
    }
}
