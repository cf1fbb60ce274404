//! A list of distinct indexes in an order that only closures know, as a sorted vector: the reference for
//! `MapBTreeTable`. Both run the same tests.
//!
//! The calls that both tables have promise the same of the indexes and of the asks, clause by clause, and none requires
//! that the answers fit an order. The vector is the list itself, so the proof of these clauses is about lists alone.
//! Both search by the same function: the tree in each row, and this table in the whole vector. The maps use the tree,
//! since an insert or a removal here moves all indexes behind its position.
//!
//! What always holds:
//!
//! 1. The indexes are distinct, and none of them is `SENTINEL` (`IsIndexList`). Whether they are in order depends on
//!    the closures, so no invariant speaks of it.
//! 2. A [`PreparedInsert`] has a position within the list and room for one more index; its index is not stored, and
//!    is not `SENTINEL`.
//! 3. If a [`PreparedRemove`] has a position, its index stands there.
//!
//! `prepare_insert` compares the length with the capacity first, since std's vector doesn't promise that its capacity
//! stays if it suffices.
//!
//! But for guards, iterator, `retain` and copies it is one file, to be read beside the contracts of the tree.
ghost use Rattle.std.specs.Prelude.{◌≡◌, ◌≢◌, ◌↔◌, ℕ, ◌-◌, ◌<◌, ◌≤◌, [], length, map, slice_get, slice_index, is_some, IfOk, IsOk, IsSome, OnErr, Contains, insert, IsTrue, false, Some, None};
ghost use Rattle.std.specs.declared.cmp.Ordering.{Ordering};
ghost use Rattle.iddqd.specs.Compaction.{CanRemap, remapped};
ghost use Rattle.iddqd_order.specs.MapBTreeTable.{without, sentinel, IsIndexList, StandsAt};
ghost use Rattle.iddqd_order_reference.specs.OrderedTable.{order_of, capacity, HasRoom};
ghost use Rattle.iddqd_order.specs.Search.{CanSearch, SearchAsks, IsSteadyRising, Searches, Finds};

mod copies;
mod iter;
mod prepared_insert;
mod prepared_remove;
mod retain;
pub mod stepping;

use iddqd::index_remap::IndexRemap;
use iddqd::item_index::ItemIndex;
use iddqd::map_hash::Comparable;
use iddqd_order::btree_table::asking::Asking;
use iddqd_order::btree_table::reading::{AsOrdering, ByKey, ByQuery, Reads};
use iddqd_order::btree_table::search::search;
pub use iter::Iter;
pub use prepared_insert::PreparedInsert;
pub use prepared_remove::PreparedRemove;
use retain::retain_in;
use std::alloc::{AllocError, Global};
use std::cmp::Ordering;
use std::marker::Model;

/// A list of distinct indexes, none of them `SENTINEL`, in a vector.
///
/// A contract sees the list by `order_of`. The closures that order it may answer anything: each call
/// keeps the list distinct. `retain`, `clear` and `remap_indexes` may change all indexes; any other call
/// adds or removes at most one. Each search asks only about stored indexes, at most `4 + 2 * d`
/// times, where d is the number of binary digits of the length.
///
/// These calls may take memory, and no others: `prepare_insert`, `prepare_insert_by` and `clone`. The capacity is
/// how many indexes the table holds without taking memory.
#[derive(Debug, Drop)]
pub struct OrderedTable {
    items: Vec<ItemIndex>,
}

impl Model for OrderedTable {
    ghost use Rattle.std.specs.Prelude.{vec_capacity};
    ghost use Rattle.iddqd_order.specs.MapBTreeTable.{IsIndexList};
    ghost use Rattle.iddqd_order_reference.specs.OrderedTable.{Listing};

    ghost Value = { Listing };

    ghost view = { λ t. record { indexes = t.items.items; memory = vec_capacity t.items } };

    ghost invariant = { λ t. IsIndexList t.items.items };
}

#[tactic(auto, unfolding(crate::specs::OrderedTable::order_of, crate::specs::OrderedTable::capacity, crate::specs::OrderedIter::indexes_left))]
impl OrderedTable {
    ghost use Rattle.std.specs.Borrow.{sem};
    ghost use Rattle.iddqd_order.specs.Asks.{CanAsk};
    ghost use Rattle.iddqd_order_reference.specs.OrderedIter.{indexes_left};
    ghost use Rattle.iddqd_order_reference.specs.PreparedInsert.{unchanged_if_out_of_memory, PreparesInsert};
    ghost use Rattle.iddqd_order_reference.specs.PreparedInsert as prepared_insert;
    ghost use Rattle.iddqd_order_reference.specs.PreparedRemove.{PreparesRemoval};
    ghost use Rattle.iddqd_order_reference.specs.PreparedRemove as prepared_remove;
    ghost use Rattle.iddqd_order.specs.Retain.{Retains};

    /// An empty table. It takes no memory.
    pub fn new(alloc: Global) -> OrderedTable
        ensures empty { order_of result ≡ [] }
        ensures memory { capacity result ≡ 0 }
    {
        OrderedTable {
            items: Vec::new(alloc),
        }
    }

    /// The number of indexes. They are distinct, and none is `SENTINEL`.
    pub fn len(&self) -> usize
        ensures length { result ≡ length (order_of self.now) }
        ensures indexes { IsIndexList (order_of self.now) }
    {
        self.items.len()
    }

    /// Whether no index is stored.
    pub fn is_empty(&self) -> bool
        ensures { IsTrue result ↔ (order_of self.now ≡ []) }
    {
        self.items.is_empty()
    }

    /// How many indexes the table can hold without asking for memory.
    pub fn capacity(&self) -> usize
        ensures { result ≡ capacity self.now }
    {
        self.items.capacity()
    }

    /// The first index in the table's order.
    pub fn first(&self) -> Option<ItemIndex>
        ensures { result ≡ slice_get (order_of self.now) 0 }
    {
        self.items.first().copied()
    }

    /// The last index in the table's order.
    pub fn last(&self) -> Option<ItemIndex>
        ensures { result ≡ slice_get (order_of self.now) (length (order_of self.now) - 1) }
    {
        self.items.last().copied()
    }

    /// The indexes in the table's order. It takes no memory.
    pub fn iter(&self) -> Iter<'_>
        ensures left { indexes_left result ≡ order_of self.now }
        ensures indexes { IsIndexList (order_of self.now) }
    {
        Iter { rest: &self.items }
    }

    /// Whether the index is stored, by a walk along the list that asks nothing.
    pub fn contains_index(&self, ix: ItemIndex) -> bool
        ensures { IsTrue result ↔ Contains (order_of self.now) ix }
    {
        self.items.contains(&ix)
    }

    /// Keeps exactly the indexes at which `f` answers true, in their order.
    ///
    /// `f` is asked about each index once, in the table's order. No memory is taken or given back.
    pub fn retain<F: FnMut(ItemIndex) -> bool>(&mut self, mut f: F)
        requires { CanAsk F.FnMut (Contains (order_of self.old)) f }
        ensures kept { Retains F.FnMut f (order_of self.old) (order_of self.new) }
        ensures memory { capacity self.new ≡ capacity self.old }
    {
        retain_in(&mut self.items, &mut f);
    }

    /// Removes all indexes. It takes no memory, and keeps what the table has.
    pub fn clear(&mut self)
        ensures empty { order_of self.new ≡ [] }
        ensures memory { capacity self.new ≡ capacity self.old }
    {
        self.items.clear();
    }

    /// A stored index at which the asking answers Equal. Less means that what is sought stands
    /// before the stored index.
    ///
    /// If answers change, the hit is some stored index. It asks at most
    /// `4 + 2 * digits(len)` times, and takes no memory.
    pub fn find_by<F: FnMut(ItemIndex) -> Ordering>(
        &self,
        asking: &mut Asking<F>,
    ) -> Option<ItemIndex>
        requires { CanSearch F.FnMut (order_of self.now) None asking.old }
        ensures { Finds F.FnMut (λ r. r) (order_of self.now) asking.old result asking.new }
    {
        self.find(asking, &AsOrdering)
    }

    /// A stored index whose key compares Equal with the query. The asking answers the keys.
    ///
    /// If keys change, the hit is some stored index. It asks at most
    /// `4 + 2 * digits(len)` times, and takes no memory.
    pub fn find_index<K: Ord + Drop, Q: Comparable<K>, F: FnMut(ItemIndex) -> K>(
        &self,
        query: &Q,
        asking: &mut Asking<F>,
    ) -> Option<ItemIndex>
        requires { CanSearch F.FnMut (order_of self.now) None asking.old }
        ensures { Finds F.FnMut (Q.compare query.now) (order_of self.now) asking.old result asking.new }
    {
        self.find(asking, &ByQuery(query))
    }

    // `find_by` and `find_index`, generic over how an answer is read.
    fn find<R, F: FnMut(ItemIndex) -> R, H: Reads<R>>(
        &self,
        asking: &mut Asking<F>,
        how: &H,
    ) -> Option<ItemIndex>
        requires { CanSearch F.FnMut (order_of self.now) None asking.old }
        ensures { Finds F.FnMut (H.reading how.now) (order_of self.now) asking.old result asking.new }
    {
        match self.search_in(asking, how, &None) {
            Ok(place) => Some(self.index_at(place)),
            Err(_) => None,
        }
    }

    // The search of all calls that search: the position of what is sought, or of the gap where it would go.
    fn search_in<R, F: FnMut(ItemIndex) -> R, H: Reads<R>>(
        &self,
        asking: &mut Asking<F>,
        how: &H,
        sought: &Option<ItemIndex>,
    ) -> Result<usize, usize>
        requires { CanSearch F.FnMut (order_of self.now) sought.now asking.old }
        ensures { Searches F.FnMut (H.reading how.now) (order_of self.now) sought.now asking.old result asking.new }
    {
        search(&self.items, asking, how, sought)
    }

    // The index at a position.
    fn index_at(&self, place: usize) -> ItemIndex
        requires { place < length (order_of self.now) }
        ensures { result ≡ slice_index (order_of self.now) place }
    {
        let items = &self.items;
        items[place]
    }

    /// Takes the memory for an insert, and finds its place by the answers. If an answer is Equal, the
    /// lesser index comes first.
    ///
    /// It asks at most `4 + 2 * digits(len)` times, and returns `AllocError` if memory runs out; the
    /// contents then stay. Below the capacity it takes no memory, and never fails.
    pub fn prepare_insert_by<F: FnMut(ItemIndex) -> Ordering>(
        &mut self,
        ix: ItemIndex,
        asking: &mut Asking<F>,
    ) -> Result<PreparedInsert<'_>, AllocError>
        requires assigned { ix ≢ sentinel }
        requires absent { Contains (order_of self.old) ix → ⊥ }
        requires can_ask { CanSearch F.FnMut (order_of self.old) (Some ix) asking.old }
        ensures* unchanged { sem 𝓛 (unchanged_if_out_of_memory self.entry result) }
        ensures same_reference { IfOk result (λ p. (prepared_insert.table_of p).ghost_name ≡ self.entry.ghost_name) }
        ensures asked { SearchAsks F.FnMut (order_of self.old) (Some ix) asking.old asking.new }
        ensures prepared { IfOk result (PreparesInsert F.FnMut (λ r. r) (order_of self.old) ix asking.old) }
        ensures has_room { IfOk result (λ p. HasRoom (prepared_insert.table_of p).now) }
        ensures memory { IfOk result (λ p. capacity self.old ≤ capacity (prepared_insert.table_of p).now) }
        ensures roomy { HasRoom self.old → IsOk result }
        ensures no_memory { HasRoom self.old →
            IfOk result (λ p. capacity (prepared_insert.table_of p).now ≡ capacity self.old) }
    {
        self.prepare(ix, asking, &AsOrdering)
    }

    /// Takes the memory for an insert, and finds its place by comparing the query with the keys that the asking
    /// answers. If keys are equal, the lesser index comes first.
    ///
    /// It asks at most `4 + 2 * digits(len)` times, and returns `AllocError` if memory runs out; the
    /// contents then stay. Below the capacity it takes no memory, and never fails.
    pub fn prepare_insert<K: Ord + Drop, Q: Comparable<K>, F: FnMut(ItemIndex) -> K>(
        &mut self,
        ix: ItemIndex,
        query: &Q,
        asking: &mut Asking<F>,
    ) -> Result<PreparedInsert<'_>, AllocError>
        requires assigned { ix ≢ sentinel }
        requires absent { Contains (order_of self.old) ix → ⊥ }
        requires can_ask { CanSearch F.FnMut (order_of self.old) (Some ix) asking.old }
        ensures* unchanged { sem 𝓛 (unchanged_if_out_of_memory self.entry result) }
        ensures same_reference { IfOk result (λ p. (prepared_insert.table_of p).ghost_name ≡ self.entry.ghost_name) }
        ensures asked { SearchAsks F.FnMut (order_of self.old) (Some ix) asking.old asking.new }
        ensures prepared { IfOk result
            (PreparesInsert F.FnMut (Q.compare query.now) (order_of self.old) ix asking.old) }
        ensures has_room { IfOk result (λ p. HasRoom (prepared_insert.table_of p).now) }
        ensures memory { IfOk result (λ p. capacity self.old ≤ capacity (prepared_insert.table_of p).now) }
        ensures roomy { HasRoom self.old → IsOk result }
        ensures no_memory { HasRoom self.old →
            IfOk result (λ p. capacity (prepared_insert.table_of p).now ≡ capacity self.old) }
    {
        self.prepare(ix, asking, &ByQuery(query))
    }

    // `prepare_insert_by` and `prepare_insert`, generic over how an answer is read.
    fn prepare<R, F: FnMut(ItemIndex) -> R, H: Reads<R>>(
        &mut self,
        ix: ItemIndex,
        asking: &mut Asking<F>,
        how: &H,
    ) -> Result<PreparedInsert<'_>, AllocError>
        requires assigned { ix ≢ sentinel }
        requires absent { Contains (order_of self.old) ix → ⊥ }
        requires can_ask { CanSearch F.FnMut (order_of self.old) (Some ix) asking.old }
        ensures* unchanged { sem 𝓛 (unchanged_if_out_of_memory self.entry result) }
        ensures same_reference { IfOk result (λ p. (prepared_insert.table_of p).ghost_name ≡ self.entry.ghost_name) }
        ensures asked { SearchAsks F.FnMut (order_of self.old) (Some ix) asking.old asking.new }
        ensures prepared { IfOk result (PreparesInsert F.FnMut (H.reading how.now) (order_of self.old) ix asking.old) }
        ensures has_room { IfOk result (λ p. HasRoom (prepared_insert.table_of p).now) }
        ensures memory { IfOk result (λ p. capacity self.old ≤ capacity (prepared_insert.table_of p).now) }
        ensures roomy { HasRoom self.old → IsOk result }
        ensures no_memory { HasRoom self.old →
            IfOk result (λ p. capacity (prepared_insert.table_of p).now ≡ capacity self.old) }
    {
        if let Err(error) = self.make_room() {
            return Err(error);
        }
        match self.search_in(asking, how, &Some(ix)) {
            Ok(_) => unreachable!(),
            Err(gap) => Ok(PreparedInsert {
                table: self,
                place: gap,
                ix,
            }),
        }
    }

    // Makes room for one more index.
    fn make_room(&mut self) -> Result<(), AllocError>
        ensures kept { order_of self.new ≡ order_of self.old }
        ensures room { IsOk result → HasRoom self.new }
        ensures never_less { capacity self.old ≤ capacity self.new }
        ensures refused { OnErr result (self.new ≡ self.old) }
        ensures roomy { HasRoom self.old → IsOk result }
        ensures no_memory { HasRoom self.old → self.new ≡ self.old }
    {
        if self.items.len() < self.items.capacity() {
            return Ok(());
        }
        self.items.reserve(1)
    }

    /// Searches for a stored index by the answers, to remove it. If an answer is Equal, the lesser index
    /// comes first. The index itself is not asked about.
    ///
    /// It asks at most `4 + 2 * digits(len)` times, and takes no memory. If the search misses
    /// the index, so does the removal; it misses `SENTINEL` with no ask.
    pub fn prepare_remove_by<F: FnMut(ItemIndex) -> Ordering>(
        &mut self,
        ix: ItemIndex,
        asking: &mut Asking<F>,
    ) -> PreparedRemove<'_>
        requires { CanSearch F.FnMut (order_of self.old) (Some ix) asking.old }
        ensures same_reference { (prepared_remove.table_of result).ghost_name ≡ self.entry.ghost_name }
        ensures table { (prepared_remove.table_of result).now ≡ self.old }
        ensures prepared { PreparesRemoval F.FnMut (λ r. r) (order_of self.old) ix asking.old result asking.new }
    {
        self.prepare_removal(ix, asking, &AsOrdering)
    }

    /// Searches for a stored index by `key`, which is its key, to remove it. If keys are equal, the lesser index
    /// comes first. The asking answers the keys, and is not asked about the index itself.
    ///
    /// It asks at most `4 + 2 * digits(len)` times, and takes no memory. If the search misses
    /// the index, so does the removal; it misses `SENTINEL` with no ask.
    pub fn prepare_remove<K: Ord + Drop, F: FnMut(ItemIndex) -> K>(
        &mut self,
        ix: ItemIndex,
        key: &K,
        asking: &mut Asking<F>,
    ) -> PreparedRemove<'_>
        requires { CanSearch F.FnMut (order_of self.old) (Some ix) asking.old }
        ensures same_reference { (prepared_remove.table_of result).ghost_name ≡ self.entry.ghost_name }
        ensures table { (prepared_remove.table_of result).now ≡ self.old }
        ensures prepared { PreparesRemoval F.FnMut (K.cmp key.now) (order_of self.old) ix asking.old result asking.new }
    {
        self.prepare_removal(ix, asking, &ByKey(key))
    }

    // `prepare_remove_by` and `prepare_remove`, generic over how an answer is read.
    fn prepare_removal<R, F: FnMut(ItemIndex) -> R, H: Reads<R>>(
        &mut self,
        ix: ItemIndex,
        asking: &mut Asking<F>,
        how: &H,
    ) -> PreparedRemove<'_>
        requires { CanSearch F.FnMut (order_of self.old) (Some ix) asking.old }
        ensures same_reference { (prepared_remove.table_of result).ghost_name ≡ self.entry.ghost_name }
        ensures table { (prepared_remove.table_of result).now ≡ self.old }
        ensures prepared { PreparesRemoval F.FnMut (H.reading how.now) (order_of self.old) ix
            asking.old result asking.new }
    {
        let place = self.find_place(ix, asking, how);
        PreparedRemove {
            table: self,
            ix,
            place,
        }
    }

    // The position of an index, if the search finds it.
    fn find_place<R, F: FnMut(ItemIndex) -> R, H: Reads<R>>(
        &self,
        ix: ItemIndex,
        asking: &mut Asking<F>,
        how: &H,
    ) -> Option<usize>
        requires { CanSearch F.FnMut (order_of self.now) (Some ix) asking.old }
        ensures there { StandsAt (order_of self.now) ix result }
        ensures stored { IsSome result → Contains (order_of self.now) ix }
        ensures asked { SearchAsks F.FnMut (order_of self.now) (Some ix) asking.old asking.new }
        ensures missing { ix ≡ sentinel → result ≡ None }
        ensures unasked { ix ≡ sentinel → asking.new ≡ asking.old }
        ensures rising { (answer : ℕ → Ordering) →
            IsSteadyRising F.FnMut (order_of self.now) (Some ix) (H.reading how.now) answer asking.old →
            Contains (order_of self.now) ix → IsSome result }
    {
        self.stores_no_sentinel();
        if ix == ItemIndex::SENTINEL {
            return None;
        }
        self.search_in(asking, how, &Some(ix)).ok()
    }

    // For proofs alone: `SENTINEL` is not stored. It does nothing.
    fn stores_no_sentinel(&self)
        ensures { Contains (order_of self.now) sentinel → ⊥ }
    {
        let _items = &self.items;
    }

    /// Removes the index, if it is stored, by a walk along the list. It asks nothing and takes no
    /// memory. The others keep their order.
    pub fn remove_exact(&mut self, ix: ItemIndex)
        ensures removed { order_of self.new ≡ without (order_of self.old) ix }
        ensures memory { capacity self.new ≡ capacity self.old }
    {
        self.items.retain(|stored| *stored != ix);
    }

    /// Gives each index its new name in its place. It asks nothing and takes no memory. With `Identity` it
    /// returns at once.
    pub fn remap_indexes(&mut self, remap: &IndexRemap)
        requires can_remap { (ix : ℕ) → Contains (order_of self.old) ix → CanRemap remap.now ix }
        requires distinct { (i j : ℕ) → Contains (order_of self.old) i → Contains (order_of self.old) j →
            remapped remap.now i ≡ remapped remap.now j → i ≡ j }
        ensures renamed { order_of self.new ≡ map (remapped remap.now) (order_of self.old) }
        ensures memory { capacity self.new ≡ capacity self.old }
    {
        if remap.is_identity() {
            return;
        }
        for ix in self.items.iter_mut() {
            *ix = remap.remap(*ix);
        }
    }

    // Adds `ix` at a position. There is room.
    fn insert_at(&mut self, place: usize, ix: ItemIndex)
        requires within { place ≤ length (order_of self.old) }
        requires room { HasRoom self.old }
        requires absent { Contains (order_of self.old) ix → ⊥ }
        requires assigned { ix ≢ sentinel }
        ensures inserted { order_of self.new ≡ insert (order_of self.old) place ix }
        ensures memory { capacity self.new ≡ capacity self.old }
    {
        match self.items.insert(place, ix) {
            Ok(()) => (),
            Err(_) => unreachable!(),
        }
    }

    // Removes `ix` if its position is known, and returns whether it is.
    fn remove_found(&mut self, ix: ItemIndex, place: Option<usize>) -> bool
        requires { StandsAt (order_of self.old) ix place }
        ensures found { result ≡ is_some place }
        ensures removed { IsTrue result → order_of self.new ≡ without (order_of self.old) ix }
        ensures kept { result ≡ false → self.new ≡ self.old }
        ensures memory { capacity self.new ≡ capacity self.old }
    {
        match place {
            Some(place) => {
                self.remove_at(ix, place);
                true
            }
            None => false,
        }
    }

    // Removes `ix`, which stands at this position.
    fn remove_at(&mut self, ix: ItemIndex, place: usize)
        requires within { place < length (order_of self.old) }
        requires there { slice_index (order_of self.old) place ≡ ix }
        ensures removed { order_of self.new ≡ without (order_of self.old) ix }
        ensures memory { capacity self.new ≡ capacity self.old }
    {
        self.items.remove(place);
    }
}
