//! A table of indexes under hashes. Many indexes may share a hash.
//!
//! The hash table `heads` has one index of each hash, the head. The others with that hash are linked behind it, by an
//! array whose element i is the link of index i. So an insert and a removal cost the same however many indexes share
//! the hash, and a walk over them reads no other. If all these indexes stood in the hash table itself, an insert or a
//! removal might step over every index with that hash.
//!
//! An index keeps its hash in its link, so a removal computes none.
//!
//! Invariants:
//!
//! 1. b is the next index of a if and only if a is the previous index of b; they then have the same hash;
//! 2. the heads are exactly the indexes that have no previous index, each under its hash;
//! 3. no two heads have the same hash, so the indexes under a hash are one chain;
//! 4. no chain is a cycle;
//! 5. `len` counts the indexes, `heads` has the capacity for `len` entries, and the array has at most `u32::MAX` links.
ghost use Rattle.std.specs.Prelude.{◌≡◌, ◌≢◌, ◌≤◌, ◌<◌, ◌+◌, ℕ, [], max, Some, None, IsSome, vec_len, vec_capacity};
ghost use Rattle.std.specs.FinMap as finite;
ghost use Rattle.iddqd.specs.Store.{sentinel};
ghost use Rattle.iddqd_hash.specs.{filed};
ghost use Rattle.iddqd_hash.specs.HashTable.{capacity, memory, room};
ghost use Rattle.iddqd_groups.specs.LinkedTable.{AreHeadsOf, KeepsLinkMemory};
ghost use Rattle.iddqd_groups.specs.Links.{filed_by, next_of, prev_of, next_behind, prev_behind};

mod copies;
mod indexes;
mod links;
mod removals;
mod renames;
mod sizes;
mod steps;
mod validation;

use iddqd::item_index::ItemIndex;
use iddqd::map_hash::MapHash;
use iddqd_hash::hash_table::MapHashTable;
pub use indexes::LinkedIndexes;
use links::{Link, place_of, put, set_next, set_prev_if_any};
use std::alloc::Global;
use std::marker::Model;

/// Indexes under hashes, each index once. Many may share a hash.
///
/// A contract sees five things: the hash of each index (`filed`), the index that comes behind each in an iteration
/// (`nexts`), the length of the array of links (`slots`), the capacity, and how many cells and links the memory holds
/// (`memory`).
#[derive(Drop)]
pub struct LinkedTable {
    // The first index of each hash.
    heads: MapHashTable,
    // Element i is the link of index i, which need not be in the table. Only `clear` and `remap_indexes` shorten it.
    links: Vec<Link>,
    // How many indexes there are.
    len: usize,
}

impl Model for LinkedTable {
    ghost use Rattle.std.specs.Prelude.{◌+◌, min, vec_len, vec_capacity};
    ghost use Rattle.iddqd_hash.specs.{filed};
    ghost use Rattle.iddqd_hash.specs.HashTable.{capacity, memory};
    ghost use Rattle.iddqd_groups.specs.Links.{filed_by};
    ghost use Rattle.iddqd_groups.specs.LinkedTable.{LinkedState, linked_code, nexts_of, IsLinkedTable};

    ghost Value = { LinkedState };

    ghost coded = { linked_code };

    ghost view = { λ t. record {
      filed = filed_by t.links.items;
      nexts = nexts_of t.links.items;
      slots = vec_len t.links;
      capacity = min (capacity t.heads) (vec_capacity t.links);
      memory = memory t.heads + vec_capacity t.links;
    } };

    ghost invariant = { λ t. IsLinkedTable (filed t.heads) (capacity t.heads) t.links.items t.len };
}

impl LinkedTable {
    /// An empty table. It takes no memory.
    pub fn new(alloc: Global) -> LinkedTable
        ensures { result ≡ record { filed = finite.empty; nexts = []; slots = 0; capacity = 0; memory = 0 } }
    {
        LinkedTable {
            heads: MapHashTable::new(alloc),
            links: Vec::new(alloc),
            len: 0,
        }
    }

    /// The number of indexes.
    pub fn len(&self) -> usize
        ensures count { result ≡ finite.len self.now.filed }
        ensures fits { result ≤ self.now.slots }
    {
        self.len
    }

    /// How many indexes the table can hold without more memory.
    pub fn capacity(&self) -> usize
        ensures value { result ≡ self.now.capacity }
        ensures holds_all { finite.len self.now.filed ≤ result }
    {
        self.heads.capacity().min(self.links.capacity())
    }

    /// Adds an index under a hash. It takes no memory, and costs the same however many indexes share the hash.
    ///
    /// `ix` must have a link in the array already (`ix < slots`), or else `ix`, `slots` and the number of indexes must
    /// be equal: then the array gets one link more.
    pub fn insert(&mut self, hash: MapHash, ix: ItemIndex)
        requires room { finite.len self.old.filed < self.old.capacity }
        requires in_turn { self.old.slots ≤ ix → ix ≡ finite.len self.old.filed }
        requires not_sentinel { ix ≢ sentinel }
        requires new { finite.get self.old.filed ix ≡ None }
        ensures added { self.new.filed ≡ finite.insert self.old.filed ix hash }
        ensures memory { KeepsLinkMemory self.old self.new }
        ensures slots { self.new.slots ≡ max self.old.slots (ix + 1) }
    {
        prove!(self.heads.capacity() - self.heads.room() == self.heads.len());
        link(&mut self.heads, &mut self.links, hash, ix);
        self.len += 1;
    }

    /// Removes every index, and keeps the memory.
    pub fn clear(&mut self)
        ensures { self.new ≡ record self.old { filed = finite.empty; nexts = []; slots = 0 } }
    {
        self.heads.clear();
        self.links.clear();
        self.len = 0;
    }
}

// Links an index under a hash: behind the head, or as the head if there is none.
fn link(heads: &mut MapHashTable, links: &mut Vec<Link>, hash: MapHash, ix: ItemIndex)
    requires linked { AreHeadsOf (filed heads.old) links.old.items }
    requires room { 1 ≤ room heads.old }
    requires in_turn { ix ≤ vec_len links.old }
    requires roomy { ix < vec_capacity links.old }
    requires not_sentinel { ix ≢ sentinel }
    requires new { finite.get (filed_by links.old.items) ix ≡ None }
    ensures linked { AreHeadsOf (filed heads.new) links.new.items }
    ensures filed { filed_by links.new.items ≡ finite.insert (filed_by links.old.items) ix hash }
    ensures heads_capacity { capacity heads.new ≡ capacity heads.old }
    ensures heads_memory { memory heads.new ≡ memory heads.old }
    ensures len { vec_len links.new ≡ max (vec_len links.old) (ix + 1) }
    ensures capacity { vec_capacity links.new ≡ vec_capacity links.old }
{
    match heads.indexes_under(hash).next() {
        Some(head) => insert_behind(links, head, hash, ix),
        None => {
            heads.insert_prehashed_unchecked(hash, ix);
            let alone = Link {
                hash: hash.hash(),
                next: ItemIndex::SENTINEL,
                prev: ItemIndex::SENTINEL,
            };
            put(links, ix, alone);
        }
    }
}

// Links an index behind the head of its hash.
fn insert_behind(links: &mut Vec<Link>, head: ItemIndex, hash: MapHash, ix: ItemIndex)
    requires in_turn { ix ≤ vec_len links.old }
    requires roomy { ix < vec_capacity links.old }
    requires new { finite.get (filed_by links.old.items) ix ≡ None }
    requires head { finite.get (filed_by links.old.items) head ≡ Some hash }
    requires follower { next_of links.old.items head ≢ sentinel
        → IsSome (finite.get (filed_by links.old.items) (next_of links.old.items head)) }
    ensures filed { filed_by links.new.items ≡ finite.insert (filed_by links.old.items) ix hash }
    ensures next { (j : ℕ) → next_of links.new.items j
        ≡ next_behind head ix (next_of links.old.items head) (next_of links.old.items) j }
    ensures prev { (j : ℕ) → j ≢ sentinel → prev_of links.new.items j
        ≡ prev_behind head ix (next_of links.old.items head) (prev_of links.old.items) j }
    ensures len { vec_len links.new ≡ max (vec_len links.old) (ix + 1) }
    ensures capacity { vec_capacity links.new ≡ vec_capacity links.old }
{
    let next = links[place_of(head)].next;
    let link = Link {
        hash: hash.hash(),
        next,
        prev: head,
    };
    put(links, ix, link);
    set_next(links, head, ix);
    set_prev_if_any(links, next, ix);
}
