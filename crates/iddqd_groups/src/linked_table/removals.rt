//! Removals from a linked table. They take no memory.
ghost use Rattle.std.specs.Prelude.{◌≡◌, ◌≢◌, ◌<◌, ◌≤◌, ◌+◌, ℕ, Contains, IsSome, Some, None, vec_len, vec_capacity};
ghost use Rattle.std.specs.FinMap as finite;
ghost use Rattle.iddqd_hash.specs.{filed};
ghost use Rattle.iddqd_hash.specs.HashTable.{capacity, memory};
ghost use Rattle.iddqd.specs.Store.{sentinel};
ghost use Rattle.iddqd_groups.specs.LinkedTable.{AreHeadsOf, KeepsLinkMemory, behind};
ghost use Rattle.iddqd_groups.specs.Links.{filed_by, heads_after, next_of, prev_of};

use super::LinkedTable;
use super::links::{Link, set_next_if_any, set_prev_if_any, take};
use iddqd::item_index::ItemIndex;
use iddqd::map_hash::MapHash;
use iddqd_by_hash::hashed::remove_index;
use iddqd_hash::hash_table::MapHashTable;

impl LinkedTable {
    /// Removes an index. It computes no hash, takes no memory, and costs the same however many indexes share the hash.
    pub fn remove(&mut self, ix: ItemIndex)
        requires { IsSome (finite.get self.old.filed ix) }
        ensures removed { self.new.filed ≡ finite.remove self.old.filed ix }
        ensures memory { KeepsLinkMemory self.old self.new }
        ensures slots { self.new.slots ≡ self.old.slots }
        ensures behind { (j : ℕ) → Contains (behind self.old ix) j → behind self.new j ≡ behind self.old j }
        ensures apart { (j : ℕ) → Contains (behind self.old ix) j → (k : ℕ) → Contains (behind self.old j) k → k ≢ ix }
        ensures one_less { finite.len self.new.filed + 1 ≡ finite.len self.old.filed }
        ensures inside { ix < self.new.slots }
        ensures holds_all { finite.len self.old.filed ≤ self.old.capacity }
    {
        unlink(&mut self.heads, &mut self.links, ix);
        self.len -= 1;
    }
}

// Takes an index out of the chain that it is in.
fn unlink(heads: &mut MapHashTable, links: &mut Vec<Link>, ix: ItemIndex)
    requires linked { AreHeadsOf (filed heads.old) links.old.items }
    requires present { IsSome (finite.get (filed_by links.old.items) ix) }
    ensures linked { AreHeadsOf (filed heads.new) links.new.items }
    ensures filed { filed_by links.new.items ≡ finite.remove (filed_by links.old.items) ix }
    ensures next { (j : ℕ) → j ≢ sentinel → j ≢ ix → j ≢ prev_of links.old.items ix
        → next_of links.new.items j ≡ next_of links.old.items j }
    ensures heads_capacity { capacity heads.new ≡ capacity heads.old }
    ensures heads_memory { memory heads.new ≡ memory heads.old }
    ensures len { vec_len links.new ≡ vec_len links.old }
    ensures capacity { vec_capacity links.new ≡ vec_capacity links.old }
{
    let link = take(links, ix);
    set_next_if_any(links, link.prev, link.next);
    set_prev_if_any(links, link.next, link.prev);
    if link.prev == ItemIndex::SENTINEL {
        replace_head(heads, MapHash::new(link.hash), ix, link.next);
    }
}

// Replaces a head by the index that follows it, or removes it if none follows.
fn replace_head(heads: &mut MapHashTable, hash: MapHash, head: ItemIndex, next: ItemIndex)
    requires head { finite.get (filed heads.old) head ≡ Some hash }
    requires new { finite.get (filed heads.old) next ≡ None }
    ensures heads { filed heads.new ≡ heads_after (filed heads.old) head hash next }
    ensures capacity { capacity heads.new ≡ capacity heads.old }
    ensures memory { memory heads.new ≡ memory heads.old }
{
    remove_index(heads, hash, head);
    if next != ItemIndex::SENTINEL {
        heads.insert_prehashed_unchecked(hash, next);
    }
}
