//! The table: a tree of distinct indexes, searched from the root down.
//!
//! The table's calls are one file: most are a search and a few lines, beside a contract. How the search walks and how
//! the tree changes stands in other modules.
ghost use Rattle.std.specs.Prelude.{◌≡◌, ◌≢◌, ◌↔◌, ℕ, ◌+◌, ◌-◌, ◌<◌, ◌≤◌, List, [], length, map, slice_get, slice_index, is_some, IfOk, IsOk, IsSome, Contains, insert, IsTrue, true, false, Some, None};
ghost use Rattle.std.specs.List.{remove};
ghost use Rattle.std.specs.declared.cmp.Ordering.{Ordering};
ghost use Rattle.iddqd.specs.Compaction.{CanRemap, remapped};
ghost use Rattle.iddqd_order.specs.Asks.{AsksWithin};
ghost use Rattle.iddqd_order.specs.Descent.{EndsIn};
ghost use Rattle.iddqd_order.specs.Gap.{FindsOwnGap, NeedsNoMoreBlocks, gap_place};
ghost use Rattle.iddqd_order.specs.MapBTreeTable.{order_of, capacity, HasRoom, spare_blocks, fresh_for, move_blocks, without, sentinel, IsIndexList, IsSpot, LeadsTo, spot_place};
ghost use Rattle.iddqd_order.specs.Shape.{most_levels, free_indexes};
ghost use Rattle.iddqd_order.specs.Tree.{IsTree, ReachesGapIn, place_in, FullIn, ReachesIndexIn, place_at_level_in, blocks_for};
ghost use Rattle.iddqd_order.specs.Search.{Askable, CanSearch, SearchAsks, IsSteady, IsSteadyRising, IsPlace, Finds, with_ties};

use crate::btree_table::asking::Asking;
use crate::btree_table::blocks::Blocks;
use crate::btree_table::clearing::clear_in;
use crate::btree_table::copies::copy_of;
use crate::btree_table::cursor::{Cursor, End};
use crate::btree_table::front::Start;
use crate::btree_table::gap::Gap;
use crate::btree_table::into_iter::IntoIter;
use crate::btree_table::iter::{Iter, Rest};
use crate::btree_table::node::Node;
use crate::btree_table::path::Path;
use crate::btree_table::prepared_insert::PreparedBTreeInsert;
use crate::btree_table::prepared_remove::PreparedBTreeRemove;
use crate::btree_table::reading::{AsOrdering, ByKey, ByQuery, Reads};
use crate::btree_table::removal::{GoesOn, Nowhere, remove_in};
use crate::btree_table::renaming::rename_in;
use crate::btree_table::reserve::{MOST_INDEXES, Reserve};
use crate::btree_table::retain::retain_in;
use crate::btree_table::spot::Spot;
use crate::btree_table::state::State;
use crate::btree_table::tree::put_in;
use iddqd::hash_builder::DefaultHashBuilder;
use iddqd::index_remap::IndexRemap;
use iddqd::item_index::ItemIndex;
use iddqd::map_hash::{Comparable, MapHash};
use std::alloc::{AllocError, Global};
use std::cmp::Ordering;
use std::fmt;
use std::hash::{BuildHasher, Hash};
use std::marker::Model;

/// A list of distinct indexes, none of them `SENTINEL`.
///
/// A contract sees the list by `order_of`. The closures that order it may answer anything: each call
/// keeps the list distinct. `retain`, `clear` and `remap_indexes` may change all indexes; any other call
/// adds, removes or moves at most one. Each search asks only about stored indexes, at most `4 + 2 * d`
/// times, where d is the number of binary digits of the length.
///
/// These calls may take memory, and no others: `prepare_insert`, `prepare_insert_by`,
/// `VacantEntry::prepare`, `prepare_move`, `blocks_at`, `blocks_anywhere`, `with_capacity`, `reserve`,
/// `try_reserve`, `clone` and `validate`. The capacity is how many indexes the table holds without taking
/// memory. A table from `new` has capacity ten, and only the calls that reserve or shrink change it.
#[derive(Drop)]
pub struct MapBTreeTable {
    root: Option<Node>,
    // How many levels lie above the leaves.
    height: usize,
    pub(super) len: usize,
    // The empty blocks beside the tree.
    pub(super) reserve: Reserve,
    state: State,
    pub(super) alloc: Global,
    // Where the search of the next insert starts: at the front if the last insert went there, or near there.
    pub(super) insert_start: Start,
}

impl Model for MapBTreeTable {
    ghost use Rattle.iddqd_order.specs.MapBTreeTable.{Order};
    ghost use Rattle.iddqd_order.specs.Tree.{IsTable};
    ghost use Rattle.std.specs.Coded.{codes};
    ghost use Rattle.iddqd_order.specs.contracts.btree_table.node.Node as node;

    ghost Value = { Order };

    ghost coded = { Prim.hlevel (codes, node.the_row.coded) };

    ghost view = { λ t. record { root = t.root; height = t.height; reserved = t.reserve.reserved } };

    ghost invariant = { λ t. IsTable t.root t.height t.len t.reserve.inners };
}

#[tactic(auto, unfolding(crate::specs::MapBTreeTable::order_of, crate::specs::MapBTreeTable::capacity))]
impl MapBTreeTable {
    ghost use Rattle.std.specs.Borrow.{sem};
    ghost use Rattle.iddqd_order.specs.Asks.{CanAsk};
    ghost use Rattle.iddqd_order.specs.IntoIter.{indexes_to_come};
    ghost use Rattle.iddqd_order.specs.Iter.{indexes_left};
    ghost use Rattle.iddqd_order.specs.PreparedBTreeInsert.{unchanged_if_out_of_memory, PreparesInsert};
    ghost use Rattle.iddqd_order.specs.PreparedBTreeInsert as prepared_insert;
    ghost use Rattle.iddqd_order.specs.PreparedBTreeRemove.{PreparesRemoval};
    ghost use Rattle.iddqd_order.specs.PreparedBTreeRemove as prepared_remove;
    ghost use Rattle.iddqd_order.specs.Retain.{Retains};
    ghost use Rattle.iddqd_order.specs.State.{default_hash};
    ghost use Rattle.std.specs.Hash.BuildHasherDefault.{initial_hasher};
    ghost use Rattle.std.specs.Hash.FoldHasher.{initial};

    /// An empty table. It takes no memory, and can hold ten indexes without any.
    pub fn new(alloc: Global) -> MapBTreeTable
        ensures empty { order_of result ≡ [] }
        ensures memory { capacity result ≡ free_indexes }
    {
        MapBTreeTable {
            root: None,
            height: 0,
            len: 0,
            reserve: Reserve::new(alloc),
            state: State::new(),
            alloc,
            insert_start: Start::Root,
        }
    }

    /// The number of indexes. They are distinct, and none is `SENTINEL`.
    pub fn len(&self) -> usize
        ensures length { result ≡ length (order_of self.now) }
        ensures indexes { IsIndexList (order_of self.now) }
    {
        self.len
    }

    /// Whether no index is stored.
    pub fn is_empty(&self) -> bool
        ensures { IsTrue result ↔ (order_of self.now ≡ []) }
    {
        self.len == 0
    }

    /// The first index in the table's order.
    pub fn first(&self) -> Option<ItemIndex>
        ensures { result ≡ slice_get (order_of self.now) 0 }
    {
        Cursor::at_end(&self.root, self.height, End::Front).next(&self.root, self.height)
    }

    /// The last index in the table's order.
    pub fn last(&self) -> Option<ItemIndex>
        ensures { result ≡ slice_get (order_of self.now) (length (order_of self.now) - 1) }
    {
        Cursor::at_end(&self.root, self.height, End::Back).next_back(&self.root, self.height)
    }

    /// The indexes in the table's order. It takes no memory.
    pub fn iter(&self) -> Iter<'_>
        ensures left { indexes_left result ≡ order_of self.now }
        ensures indexes { IsIndexList (order_of self.now) }
    {
        Iter::new(&self.root, self.height, self.len)
    }

    /// Consumes the table and returns its indexes in order. It takes no memory.
    pub fn into_iter(self) -> IntoIter
        ensures to_come { indexes_to_come result ≡ order_of self }
        ensures indexes { IsIndexList (order_of self) }
    {
        let MapBTreeTable {
            root,
            height,
            len,
            ..
        } = self;
        IntoIter::new(root, height, len)
    }

    /// Whether the index is stored, by a walk along the list that asks nothing.
    pub fn contains_index(&self, ix: ItemIndex) -> bool
        ensures { IsTrue result ↔ Contains (order_of self.now) ix }
    {
        self.locate(ix).is_some()
    }

    // The spot of an index, by a walk that asks nothing.
    pub(super) fn locate(&self, ix: ItemIndex) -> Option<Spot>
        ensures there { LeadsTo self.now ix result }
        ensures found { IsTrue (is_some result) ↔ Contains (order_of self.now) ix }
    {
        let Some(root) = &self.root else {
            return None;
        };
        let mut path = Path::leftmost();
        let level = root.locate(self.height, ix, &mut path)?;
        Some(Spot { path, level })
    }

    /// Keeps exactly the indexes at which `f` answers true, in their order.
    ///
    /// `f` is asked about each index once, in the table's order. No memory is taken. Each kept index is written
    /// once, at its new position. Then the last indexes are removed one by one, each at the cost of a search.
    pub fn retain<F: FnMut(ItemIndex) -> bool>(&mut self, mut f: F)
        requires { CanAsk F.FnMut (Contains (order_of self.old)) f }
        ensures kept { Retains F.FnMut f (order_of self.old) (order_of self.new) }
        ensures memory { capacity self.new ≡ capacity self.old }
    {
        let (height, len) = retain_in(
            &mut self.root,
            self.height,
            self.len,
            &mut f,
            &mut self.reserve,
        );
        self.height = height;
        self.len = len;
    }

    /// The table's own build hasher, which is the default one in every table. It orders nothing: `state` and
    /// `compute_hash` are kept because iddqd's table has them.
    pub fn state(&self) -> &DefaultHashBuilder
        ensures { initial_hasher result.now ≡ initial }
    {
        self.state.builder()
    }

    /// The hash of the key under the table's own build hasher.
    pub fn compute_hash<K: Hash + Drop>(&self, key: K) -> MapHash
        ensures { result ≡ default_hash (K.hash_input key) }
    {
        MapHash::new(self.state().hash_one(key))
    }

    /// Removes all indexes. It takes no memory, and keeps the blocks that are reserved.
    pub fn clear(&mut self)
        ensures empty { order_of self.new ≡ [] }
        ensures memory { capacity self.new ≡ capacity self.old }
    {
        clear_in(&mut self.root, self.height, &mut self.reserve, self.alloc);
        self.height = 0;
        self.len = 0;
    }

    /// A stored index at which the asking answers Equal. Less means that what is sought stands
    /// before the stored index.
    ///
    /// If answers change, the hit is some stored index. It asks at most
    /// `4 + 2 * digits(len)` times, and takes no memory.
    pub fn find_by<F: FnMut(ItemIndex) -> Ordering>(
        &self,
        asking: &mut Asking<F>,
    ) -> Option<ItemIndex>
        requires { CanSearch F.FnMut (order_of self.now) None asking.old }
        ensures { Finds F.FnMut (λ r. r) (order_of self.now) asking.old result asking.new }
    {
        self.find(asking, &AsOrdering)
    }

    /// A stored index whose key compares Equal with the query. The asking answers the keys.
    ///
    /// If keys change, the hit is some stored index. It asks at most
    /// `4 + 2 * digits(len)` times, and takes no memory.
    pub fn find_index<K: Ord + Drop, Q: Comparable<K>, F: FnMut(ItemIndex) -> K>(
        &self,
        query: &Q,
        asking: &mut Asking<F>,
    ) -> Option<ItemIndex>
        requires { CanSearch F.FnMut (order_of self.now) None asking.old }
        ensures { Finds F.FnMut (Q.compare query.now) (order_of self.now) asking.old result asking.new }
    {
        self.find(asking, &ByQuery(query))
    }

    // `find_by` and `find_index`, generic over how an answer is read.
    fn find<R, F: FnMut(ItemIndex) -> R, H: Reads<R>>(
        &self,
        asking: &mut Asking<F>,
        how: &H,
    ) -> Option<ItemIndex>
        requires { CanSearch F.FnMut (order_of self.now) None asking.old }
        ensures { Finds F.FnMut (H.reading how.now) (order_of self.now) asking.old result asking.new }
    {
        let Some(root) = &self.root else {
            return None;
        };
        root.find(self.height, asking, how)
    }

    /// Finds the place of an insert by the answers, and takes the memory for it. If an answer is Equal, the
    /// lesser index comes first.
    ///
    /// It asks at most `4 + 2 * digits(len)` times, and returns `AllocError` if memory runs out; the
    /// contents then stay. Below the capacity it takes no memory, and never fails.
    pub fn prepare_insert_by<F: FnMut(ItemIndex) -> Ordering>(
        &mut self,
        ix: ItemIndex,
        asking: &mut Asking<F>,
    ) -> Result<PreparedBTreeInsert<'_>, AllocError>
        requires assigned { ix ≢ sentinel }
        requires absent { Contains (order_of self.old) ix → ⊥ }
        requires can_ask { CanSearch F.FnMut (order_of self.old) (Some ix) asking.old }
        ensures* unchanged { sem 𝓛 (unchanged_if_out_of_memory self.entry result) }
        ensures same_reference { IfOk result (λ p. (prepared_insert.table_of p).ghost_name ≡ self.entry.ghost_name) }
        ensures asked { SearchAsks F.FnMut (order_of self.old) (Some ix) asking.old asking.new }
        ensures prepared { IfOk result (PreparesInsert F.FnMut (λ r. r) (order_of self.old) ix asking.old) }
        ensures memory { IfOk result (λ p. capacity (prepared_insert.table_of p).now ≡ capacity self.old) }
        ensures roomy { HasRoom self.old → IsOk result }
        ensures no_blocks { HasRoom self.old → IfOk result (λ p. prepared_insert.blocks_of p ≡ 0) }
    {
        self.prepare(ix, asking, &AsOrdering)
    }

    /// Finds the place of an insert by comparing the query with the keys, and takes the memory for it. If they
    /// are equal, the lesser index comes first. The asking answers the keys.
    ///
    /// It asks at most `4 + 2 * digits(len)` times, and returns `AllocError` if memory runs out; the
    /// contents then stay. Below the capacity it takes no memory, and never fails.
    pub fn prepare_insert<K: Ord + Drop, Q: Comparable<K>, F: FnMut(ItemIndex) -> K>(
        &mut self,
        ix: ItemIndex,
        query: &Q,
        asking: &mut Asking<F>,
    ) -> Result<PreparedBTreeInsert<'_>, AllocError>
        requires assigned { ix ≢ sentinel }
        requires absent { Contains (order_of self.old) ix → ⊥ }
        requires can_ask { CanSearch F.FnMut (order_of self.old) (Some ix) asking.old }
        ensures* unchanged { sem 𝓛 (unchanged_if_out_of_memory self.entry result) }
        ensures same_reference { IfOk result (λ p. (prepared_insert.table_of p).ghost_name ≡ self.entry.ghost_name) }
        ensures asked { SearchAsks F.FnMut (order_of self.old) (Some ix) asking.old asking.new }
        ensures prepared { IfOk result
            (PreparesInsert F.FnMut (Q.compare query.now) (order_of self.old) ix asking.old) }
        ensures memory { IfOk result (λ p. capacity (prepared_insert.table_of p).now ≡ capacity self.old) }
        ensures roomy { HasRoom self.old → IsOk result }
        ensures no_blocks { HasRoom self.old → IfOk result (λ p. prepared_insert.blocks_of p ≡ 0) }
    {
        self.prepare(ix, asking, &ByQuery(query))
    }

    // `prepare_insert_by` and `prepare_insert`, generic over how an answer is read.
    fn prepare<R, F: FnMut(ItemIndex) -> R, H: Reads<R>>(
        &mut self,
        ix: ItemIndex,
        asking: &mut Asking<F>,
        how: &H,
    ) -> Result<PreparedBTreeInsert<'_>, AllocError>
        requires assigned { ix ≢ sentinel }
        requires absent { Contains (order_of self.old) ix → ⊥ }
        requires can_ask { CanSearch F.FnMut (order_of self.old) (Some ix) asking.old }
        ensures* unchanged { sem 𝓛 (unchanged_if_out_of_memory self.entry result) }
        ensures same_reference { IfOk result (λ p. (prepared_insert.table_of p).ghost_name ≡ self.entry.ghost_name) }
        ensures asked { SearchAsks F.FnMut (order_of self.old) (Some ix) asking.old asking.new }
        ensures prepared { IfOk result (PreparesInsert F.FnMut (H.reading how.now) (order_of self.old) ix asking.old) }
        ensures memory { IfOk result (λ p. capacity (prepared_insert.table_of p).now ≡ capacity self.old) }
        ensures roomy { HasRoom self.old → IsOk result }
        ensures no_blocks { HasRoom self.old → IfOk result (λ p. prepared_insert.blocks_of p ≡ 0) }
    {
        let gap = self.find_own_gap(ix, asking, how);
        let blocks = match self.allocate_blocks(gap.full) {
            Ok(blocks) => blocks,
            Err(AllocError) => return Err(AllocError),
        };
        Ok(PreparedBTreeInsert {
            table: self,
            gap,
            ix,
            blocks,
        })
    }

    // The gap for an index that isn't stored.
    pub(super) fn find_own_gap<R, F: FnMut(ItemIndex) -> R, H: Reads<R>>(
        &self,
        ix: ItemIndex,
        asking: &mut Asking<F>,
        how: &H,
    ) -> Gap
        requires absent { Contains (order_of self.now) ix → ⊥ }
        requires can_ask { CanSearch F.FnMut (order_of self.now) (Some ix) asking.old }
        ensures { FindsOwnGap F.FnMut (H.reading how.now) self.now ix asking.old result asking.new }
    {
        match self.descend(self.insert_start, asking, how, &Some(ix)) {
            Ok(_) => unreachable!(),
            Err(gap) => gap,
        }
    }

    // Finds the spot of what is sought, or else the gap where it would go. It asks once if it starts at the front and
    // what is sought goes there.
    pub(super) fn descend<R, F: FnMut(ItemIndex) -> R, H: Reads<R>>(
        &self,
        start: Start,
        asking: &mut Asking<F>,
        how: &H,
        sought: &Option<ItemIndex>,
    ) -> Result<Spot, Gap>
        requires { CanSearch F.FnMut (order_of self.now) sought.now asking.old }
        ensures ends { EndsIn F.FnMut (H.reading how.now) sought.now self.now asking.old result asking.new }
        ensures one_ask { start ≡ Start.Front → (answer : ℕ → Ordering) →
            IsSteady F.FnMut (order_of self.now) sought.now (H.reading how.now) answer asking.old →
            1 ≤ length (order_of self.now) →
            with_ties sought.now answer (slice_index (order_of self.now) 0) ≡ Ordering.Less →
            AsksWithin F.FnMut (Askable (order_of self.now) sought.now) 1 asking.old asking.new }
    {
        let mut path = Path::leftmost();
        let Some(root) = &self.root else {
            return Err(Gap { path, full: 0 });
        };
        if let Some(full) = root.try_front(start, self.height, asking, how, sought, &path) {
            return Err(Gap { path, full });
        }
        match root.descend(self.height, asking, how, sought, &mut path) {
            Ok(level) => Ok(Spot { path, level }),
            Err(full) => Err(Gap { path, full }),
        }
    }

    // Allocates the blocks for a move: none up to the capacity, and beyond it as many as any insert into a tree of this
    // height can need.
    pub(super) fn allocate_move_blocks(&self) -> Result<Blocks, AllocError>
        ensures indexes { IsIndexList (order_of self.now) }
        ensures blocks { IfOk result (λ blocks. blocks ≡ move_blocks self.now) }
        ensures few { move_blocks self.now ≤ most_levels }
        ensures roomy { length (order_of self.now) ≤ capacity self.now → move_blocks self.now ≡ 0 }
        ensures none { move_blocks self.now ≡ 0 → IsOk result }
    {
        let count = if self.len > self.capacity() {
            self.height + 1
        } else {
            0
        };
        Blocks::new(count, self.alloc)
    }

    // Allocates the blocks that an insert through `full` full nodes needs beyond the spare ones.
    pub(super) fn allocate_blocks(&self, full: usize) -> Result<Blocks, AllocError>
        ensures blocks { IfOk result (λ blocks. blocks ≡ fresh_for self.now full) }
        ensures few { full ≤ self.now.height + 1 → fresh_for self.now full ≤ most_levels }
        ensures roomy { (path : List ℕ) → ReachesGapIn self.now.root self.now.height path →
            FullIn full self.now.root self.now.height path → full ≤ self.now.height + 1 →
            HasRoom self.now → fresh_for self.now full ≡ 0 }
        ensures none { fresh_for self.now full ≡ 0 → IsOk result }
    {
        let count = if full > self.height {
            full
        } else {
            full.saturating_sub(1)
        };
        Blocks::new(count.saturating_sub(self.reserve.spare()), self.alloc)
    }

    /// Searches for a stored index by the answers, to remove it. If an answer is Equal, the lesser index
    /// comes first. The index itself is not asked about.
    ///
    /// It asks at most `4 + 2 * digits(len)` times, and takes no memory. If the search misses
    /// the index, so does the removal; it misses `SENTINEL` with no ask.
    pub fn prepare_remove_by<F: FnMut(ItemIndex) -> Ordering>(
        &mut self,
        ix: ItemIndex,
        asking: &mut Asking<F>,
    ) -> PreparedBTreeRemove<'_>
        requires { CanSearch F.FnMut (order_of self.old) (Some ix) asking.old }
        ensures same_reference { (prepared_remove.table_of result).ghost_name ≡ self.entry.ghost_name }
        ensures table { (prepared_remove.table_of result).now ≡ self.old }
        ensures prepared { PreparesRemoval F.FnMut (λ r. r) (order_of self.old) ix asking.old result asking.new }
    {
        self.prepare_removal(ix, asking, &AsOrdering)
    }

    /// Searches for a stored index by `key`, which is its key, to remove it. If keys are equal, the lesser index
    /// comes first. The asking answers the keys, and is not asked about the index itself.
    ///
    /// It asks at most `4 + 2 * digits(len)` times, and takes no memory. If the search misses
    /// the index, so does the removal; it misses `SENTINEL` with no ask.
    pub fn prepare_remove<K: Ord + Drop, F: FnMut(ItemIndex) -> K>(
        &mut self,
        ix: ItemIndex,
        key: &K,
        asking: &mut Asking<F>,
    ) -> PreparedBTreeRemove<'_>
        requires { CanSearch F.FnMut (order_of self.old) (Some ix) asking.old }
        ensures same_reference { (prepared_remove.table_of result).ghost_name ≡ self.entry.ghost_name }
        ensures table { (prepared_remove.table_of result).now ≡ self.old }
        ensures prepared { PreparesRemoval F.FnMut (K.cmp key.now) (order_of self.old) ix asking.old result asking.new }
    {
        self.prepare_removal(ix, asking, &ByKey(key))
    }

    // `prepare_remove_by` and `prepare_remove`, generic over how an answer is read.
    fn prepare_removal<R, F: FnMut(ItemIndex) -> R, H: Reads<R>>(
        &mut self,
        ix: ItemIndex,
        asking: &mut Asking<F>,
        how: &H,
    ) -> PreparedBTreeRemove<'_>
        requires { CanSearch F.FnMut (order_of self.old) (Some ix) asking.old }
        ensures same_reference { (prepared_remove.table_of result).ghost_name ≡ self.entry.ghost_name }
        ensures table { (prepared_remove.table_of result).now ≡ self.old }
        ensures prepared { PreparesRemoval F.FnMut (H.reading how.now) (order_of self.old) ix
            asking.old result asking.new }
    {
        let spot = self.find_spot(ix, asking, how);
        PreparedBTreeRemove {
            table: self,
            ix,
            spot,
        }
    }

    // The spot of an index, if the search finds it.
    pub(super) fn find_spot<R, F: FnMut(ItemIndex) -> R, H: Reads<R>>(
        &self,
        ix: ItemIndex,
        asking: &mut Asking<F>,
        how: &H,
    ) -> Option<Spot>
        requires { CanSearch F.FnMut (order_of self.now) (Some ix) asking.old }
        ensures there { LeadsTo self.now ix result }
        ensures stored { IsSome result → Contains (order_of self.now) ix }
        ensures asked { SearchAsks F.FnMut (order_of self.now) (Some ix) asking.old asking.new }
        ensures missing { ix ≡ sentinel → result ≡ None }
        ensures unasked { ix ≡ sentinel → asking.new ≡ asking.old }
        ensures indexes { IsIndexList (order_of self.now) }
        ensures rising { (answer : ℕ → Ordering) →
            IsSteadyRising F.FnMut (order_of self.now) (Some ix) (H.reading how.now) answer asking.old →
            Contains (order_of self.now) ix → IsSome result }
    {
        // An empty table stores no index, and no table stores `SENTINEL`.
        if self.len == 0 || ix == ItemIndex::SENTINEL {
            return None;
        }
        match self.descend(Start::Root, asking, how, &Some(ix)) {
            Ok(spot) => Some(spot),
            Err(_) => None,
        }
    }

    /// Removes the index, if it is stored, by a walk along the list. It asks nothing and takes no
    /// memory. The others keep their order.
    ///
    /// Blocks that `blocks_anywhere` allocated before it are still enough for a move, and if an index was
    /// removed, for an insert.
    pub fn remove_exact(&mut self, ix: ItemIndex)
        ensures removed { order_of self.new ≡ without (order_of self.old) ix }
        ensures no_more_blocks { NeedsNoMoreBlocks self.old self.new }
        ensures memory { capacity self.new ≡ capacity self.old }
    {
        self.remove_by_walk(ix)
    }

    // Removes `ix`, if it is stored, by a walk along the list.
    pub(super) fn remove_by_walk(&mut self, ix: ItemIndex)
        ensures removed { order_of self.new ≡ without (order_of self.old) ix }
        ensures no_higher { self.new.height ≤ self.old.height }
        ensures reserved { self.new.reserved ≡ self.old.reserved }
    {
        let spot = self.locate(ix);
        self.remove_found(ix, &spot);
    }

    /// Gives each index its new name in its place. It asks nothing and takes no memory. With `Identity` it
    /// returns at once.
    pub fn remap_indexes(&mut self, remap: &IndexRemap)
        requires can_remap { (ix : ℕ) → Contains (order_of self.old) ix → CanRemap remap.now ix }
        requires distinct { (i j : ℕ) → Contains (order_of self.old) i → Contains (order_of self.old) j →
            remapped remap.now i ≡ remapped remap.now j → i ≡ j }
        ensures renamed { order_of self.new ≡ map (remapped remap.now) (order_of self.old) }
        ensures memory { capacity self.new ≡ capacity self.old }
    {
        if remap.is_identity() {
            return;
        }
        Self::names_fit(remap);
        rename_in(&mut self.root, self.height, remap);
    }

    // For proofs alone: each new name fits in 32 bits. Its loop changes nothing.
    fn names_fit(remap: &IndexRemap)
        ensures { (ix : ℕ) → ix ≤ MOST_INDEXES → CanRemap remap.now ix → remapped remap.now ix ≤ MOST_INDEXES }
    {
        if let IndexRemap::Permuted(names) = remap {
            for name in names {
                let _number = name.as_u32();
            }
        }
    }

    // The index at a spot.
    pub(super) fn index_at(&self, spot: &Spot) -> ItemIndex
        requires { IsSpot self.now spot.now }
        ensures { result ≡ slice_index (order_of self.now) (spot_place self.now spot.now) }
    {
        let Some(root) = &self.root else {
            unreachable!()
        };
        root.index_on(self.height, &spot.path, spot.level)
    }

    // The root of the tree, and how many levels lie above its leaves.
    pub(super) fn tree(&self) -> (&Option<Node>, usize)
        ensures root { result.0.now ≡ self.now.root }
        ensures height { result.1 ≡ self.now.height }
        ensures tree { IsTree self.now.root self.now.height }
    {
        (&self.root, self.height)
    }

    // Inserts `ix` at the gap. It uses the spare blocks first.
    pub(super) fn insert_at(&mut self, gap: &Gap, ix: ItemIndex, mut fresh: Blocks)
        requires goes { ReachesGapIn self.old.root self.old.height gap.now.path }
        requires full { FullIn gap.now.full self.old.root self.old.height gap.now.path }
        requires enough { blocks_for self.old.height gap.now.full ≤ spare_blocks self.old + fresh }
        requires absent { Contains (order_of self.old) ix → ⊥ }
        requires assigned { ix ≢ sentinel }
        ensures inserted { order_of self.new
            ≡ insert (order_of self.old) (gap_place self.old gap.now) ix }
        ensures reserved { self.new.reserved ≡ self.old.reserved }
    {
        let _number = ix.as_u32();
        self.insert_start = Start::after(&gap.path);
        let height = self.height;
        let alloc = self.alloc;
        self.height = put_in(
            &mut self.root,
            height,
            &gap.path,
            gap.full,
            ix,
            &mut self.reserve,
            &mut fresh,
            alloc,
        );
        self.len += 1;
    }

    // Removes `ix` if its spot is known, and returns whether it is.
    pub(super) fn remove_found(&mut self, ix: ItemIndex, spot: &Option<Spot>) -> bool
        requires { LeadsTo self.old ix spot.now }
        ensures found { result ≡ is_some spot.now }
        ensures removed { IsTrue result → order_of self.new ≡ without (order_of self.old) ix }
        ensures kept { result ≡ false → self.new ≡ self.old }
        ensures no_higher { self.new.height ≤ self.old.height }
        ensures reserved { self.new.reserved ≡ self.old.reserved }
    {
        match spot {
            Some(spot) => {
                self.remove_at(spot);
                true
            }
            None => false,
        }
    }

    // Removes the index at a spot, and returns it.
    pub(super) fn remove_at(&mut self, spot: &Spot) -> ItemIndex
        requires { IsSpot self.old spot.now }
        ensures index { result ≡ slice_index (order_of self.old) (spot_place self.old spot.now) }
        ensures removed { order_of self.new ≡ without (order_of self.old) result }
        ensures no_higher { self.new.height ≤ self.old.height }
        ensures reserved { self.new.reserved ≡ self.old.reserved }
    {
        let mut path = spot.path.copied();
        self.remove_along::<Nowhere>(&mut path, spot.level)
    }

    // Removes the index to which the path goes at the level, sends the path on as `G` says, and returns the index.
    pub(super) fn remove_along<G: GoesOn>(&mut self, path: &mut Path, level: usize) -> ItemIndex
        requires holds { ReachesIndexIn level self.old.root self.old.height path.old }
        requires path { length path.old ≡ most_levels }
        ensures within { place_at_level_in level self.old.root self.old.height path.old < length (order_of self.old) }
        ensures index { result ≡ slice_index (order_of self.old)
            (place_at_level_in level self.old.root self.old.height path.old) }
        ensures removed { order_of self.new ≡ without (order_of self.old) result }
        ensures items { order_of self.new ≡ remove (order_of self.old)
            (place_at_level_in level self.old.root self.old.height path.old) }
        ensures goes { G.to_gap ≡ true → ReachesGapIn self.new.root self.new.height path.new }
        ensures place { G.to_gap ≡ true → place_in self.new.root self.new.height path.new
            ≡ place_at_level_in level self.old.root self.old.height path.old }
        ensures path { length path.new ≡ most_levels }
        ensures no_higher { self.new.height ≤ self.old.height }
        ensures reserved { self.new.reserved ≡ self.old.reserved }
    {
        let (ix, height) = remove_in::<G>(
            &mut self.root,
            self.height,
            path,
            level,
            &mut self.reserve,
        );
        self.height = height;
        self.len -= 1;
        ix
    }
}

// The copy reserves nothing. If memory runs out, the nodes copied so far are dropped.
#[tactic(auto, unfolding(crate::specs::MapBTreeTable::order_of, crate::specs::MapBTreeTable::capacity))]
impl Clone for MapBTreeTable {
    ghost is_clone = { λ table copy. (order_of copy ≡ order_of table) × (capacity copy ≡ free_indexes) };

    fn clone(&self) -> Result<MapBTreeTable, AllocError> {
        Ok(MapBTreeTable {
            root: copy_of(&self.root, self.height, self.alloc)?,
            height: self.height,
            len: self.len,
            reserve: self.reserve.for_copy(self.alloc),
            state: self.state,
            alloc: self.alloc,
            insert_start: self.insert_start,
        })
    }
}

impl fmt::Debug for MapBTreeTable {
    fn fmt<W: fmt::Write>(&self, f: &mut fmt::Formatter<W>) -> fmt::Result {
        let walk = self.iter();
        f.debug_struct("MapBTreeTable")
            .field("items", &Rest(&walk))
            .finish()
    }
}

impl MapBTreeTable {
    /// Where the table's memory comes from.
    pub fn allocator(&self) -> Global {
        self.alloc
    }
}
