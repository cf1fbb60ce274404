//! Compaction of a linked table: each index gets its new name. That takes no memory.
ghost use Rattle.std.specs.Prelude.{◌≡◌, ◌≢◌, ◌≤◌, ◌<◌, ℕ, IsSome, vec_len, vec_capacity};
ghost use Rattle.std.specs.FinMap as finite;
ghost use Rattle.iddqd.specs.Compaction.{CanRemap, remapped};
ghost use Rattle.iddqd.specs.Store.{sentinel};
ghost use Rattle.iddqd_hash.specs.MapHashTable.{HaveOwnNames, Renames};
ghost use Rattle.iddqd_groups.specs.LinkedTable.{KeepsLinkMemory};
ghost use Rattle.iddqd_groups.specs.Links.{filed_by, next_of, prev_of, renamed, AreNeighbours, RenamesLinks};

use super::LinkedTable;
use super::links::{Link, is_present, put, take};
use iddqd::index_remap::IndexRemap;
use iddqd::item_index::ItemIndex;

impl LinkedTable {
    /// Gives each index its new name; its hash stays. The new names must be 0, 1, and so on, one for each index, and
    /// none may be greater than the old name. The array of links is then cut to one link for each index.
    ///
    /// It takes no memory. It takes a step for each link and one for each cell of the hash table, or none if the remap
    /// is `Identity`.
    pub fn remap_indexes(&mut self, remap: &IndexRemap)
        requires can_remap { (ix : ℕ) → IsSome (finite.get self.old.filed ix) → CanRemap remap.now ix }
        requires distinct { HaveOwnNames (remapped remap.now) self.old.filed }
        requires never_up { (ix : ℕ) → IsSome (finite.get self.old.filed ix) → remapped remap.now ix ≤ ix }
        requires dense { (ix : ℕ) → IsSome (finite.get self.old.filed ix)
            → remapped remap.now ix < finite.len self.old.filed }
        ensures renamed { Renames (remapped remap.now) self.old.filed self.new.filed }
        ensures memory { KeepsLinkMemory self.old self.new }
        ensures slots { self.new.slots ≡ finite.len self.new.filed }
    {
        self.heads.remap_indexes(remap);
        rename_links(&mut self.links, remap);
        self.links.truncate(self.len);
    }
}

// Moves each link to the new name of its index, and renames the neighbours in it. It goes by rising index, and no new
// name is greater than the old one, so no link is overwritten before it was moved.
fn rename_links(links: &mut Vec<Link>, remap: &IndexRemap)
    requires small { vec_len links.old ≤ sentinel }
    requires neighbours { AreNeighbours (filed_by links.old.items) (next_of links.old.items) (prev_of links.old.items) }
    requires can_remap { (ix : ℕ) → IsSome (finite.get (filed_by links.old.items) ix) → CanRemap remap.now ix }
    requires distinct { HaveOwnNames (remapped remap.now) (filed_by links.old.items) }
    requires never_up { (ix : ℕ) → IsSome (finite.get (filed_by links.old.items) ix) → remapped remap.now ix ≤ ix }
    ensures renamed { RenamesLinks (remapped remap.now) links.old.items links.new.items }
    ensures len { vec_len links.new ≡ vec_len links.old }
    ensures capacity { vec_capacity links.new ≡ vec_capacity links.old }
{
    if remap.is_identity() {
        return;
    }
    'renaming: for place in 0..links.len() {
        let ix = ItemIndex::new(place as u32);
        if is_present(links, ix) {
            let link = take(links, ix);
            let renamed = Link {
                hash: link.hash,
                next: new_name(remap, link.next),
                prev: new_name(remap, link.prev),
            };
            put(links, remap.remap(ix), renamed);
        }
    }
}

// The new name of a neighbour, or `SENTINEL` if there is none.
fn new_name(remap: &IndexRemap, ix: ItemIndex) -> ItemIndex
    requires { ix ≢ sentinel → CanRemap remap.now ix }
    ensures { result ≡ renamed (remapped remap.now) ix }
{
    if ix == ItemIndex::SENTINEL {
        return ix;
    }
    remap.remap(ix)
}
