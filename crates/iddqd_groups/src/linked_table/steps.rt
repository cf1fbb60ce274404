//! Steps along the indexes under a hash. Between two steps nothing is borrowed, so an index may be removed.
ghost use Rattle.std.specs.Prelude.{◌≡◌, ℕ, Contains, IsSome};
ghost use Rattle.std.specs.FinMap as finite;
ghost use Rattle.iddqd_groups.specs.LinkedTable.{behind};
ghost use Rattle.iddqd_groups.specs.Links.{AreUnder};
ghost use Rattle.iddqd_map.specs.Groups.{listed_from};

use super::LinkedTable;
use super::links::place_of;
use iddqd::item_index::ItemIndex;
use iddqd::map_hash::MapHash;

impl LinkedTable {
    /// The index under a hash that comes before all others under it.
    pub fn first_under(&self, hash: MapHash) -> Option<ItemIndex>
        ensures { AreUnder self.now.filed hash (listed_from (behind self.now) result) }
    {
        self.heads.indexes_under(hash).next()
    }

    /// The index that comes behind this one under its hash. It reads one link.
    pub fn next_under(&self, ix: ItemIndex) -> Option<ItemIndex>
        requires { IsSome (finite.get self.now.filed ix) }
        ensures next { behind self.now ix ≡ listed_from (behind self.now) result }
        ensures alike { (j : ℕ) → Contains (behind self.now ix) j
            → finite.get self.now.filed j ≡ finite.get self.now.filed ix }
    {
        let next = self.links[place_of(ix)].next;
        if next == ItemIndex::SENTINEL {
            None
        } else {
            Some(next)
        }
    }
}
