//! Where a search by answers alone ends: at a stored index, or at a gap.
//!
//! An entry keeps the path of its search, so removing its index, or inserting one at its gap, asks nothing.
//! An Equal answer is a hit, so ties aren't broken by index.
ghost use Rattle.std.specs.Prelude.{◌≡◌, ◌≢◌, ◌+◌, ◌≤◌, None, IsOk, IfOk, Contains};
ghost use Rattle.iddqd_order.specs.MapBTreeTable.{order_of, capacity, HasRoom, without, sentinel};
ghost use Rattle.iddqd_order.specs.Node.{AtIndex, InGap};
ghost use Rattle.iddqd_order.specs.Search.{CanSearch};
ghost use Rattle.iddqd_order.specs.Tree.{ReachesGapIn, FullIn, ReachesIndexIn, ReachesIn-prop, FullIn-prop};

use crate::btree_table::asking::Asking;
use crate::btree_table::gap::Gap;
use crate::btree_table::prepared_insert::PreparedBTreeInsert;
use crate::btree_table::reading::{AsOrdering, ByQuery, Reads};
use crate::btree_table::spot::Spot;
use crate::btree_table::table::MapBTreeTable;
use iddqd::item_index::ItemIndex;
use iddqd::map_hash::Comparable;
use std::alloc::AllocError;
use std::cmp::Ordering;

/// Where a search ended: at a stored index, or at a gap. Dropped, it leaves the table as it was.
#[derive(Drop)]
pub enum Entry<'a> {
    /// The search hit a stored index.
    Occupied(OccupiedEntry<'a>),
    /// The search ended at a gap.
    Vacant(VacantEntry<'a>),
}

/// A stored index of a table. Dropped, it leaves the table as it was.
#[derive(Drop)]
pub struct OccupiedEntry<'a> {
    table: &'a mut MapBTreeTable,
    spot: Spot,
    ghost holds: { ReachesIndexIn spot.level table.now.root table.now.height spot.path } by { ReachesIn-prop AtIndex
        spot.level table.now.root table.now.height spot.path },
}

/// A gap of a table, where an index can be inserted. Dropped, it leaves the table as it was.
#[derive(Drop)]
pub struct VacantEntry<'a> {
    pub(super) table: &'a mut MapBTreeTable,
    pub(super) gap: Gap,
    ghost goes: { ReachesGapIn table.now.root table.now.height gap.path } by { ReachesIn-prop InGap 0
        table.now.root table.now.height gap.path },
    ghost full_nodes: { FullIn gap.full table.now.root table.now.height gap.path } by { FullIn-prop gap.full
        table.now.root table.now.height gap.path },
    ghost levels: { gap.full ≤ table.now.height + 1 },
}

impl MapBTreeTable {
    ghost use Rattle.iddqd_order.specs.Entry.{entry_table, FindsEntry};

    /// The entry of a stored index at which the asking answers Equal, or else of the gap where what is sought
    /// could be inserted. Less means that what is sought stands before the stored index.
    ///
    /// If answers change, the entry has some stored index or some gap. It asks at most
    /// `4 + 2 * digits(len)` times, and takes no memory.
    pub fn entry_by<F: FnMut(ItemIndex) -> Ordering>(&mut self, asking: &mut Asking<F>) -> Entry<'_>
        requires { CanSearch F.FnMut (order_of self.old) None asking.old }
        ensures same_reference { (entry_table result).ghost_name ≡ self.entry.ghost_name }
        ensures table { (entry_table result).now ≡ self.old }
        ensures made { FindsEntry F.FnMut (λ r. r) (order_of self.old) asking.old result asking.new }
    {
        self.make_entry(asking, &AsOrdering)
    }

    /// The entry of a stored index whose key compares Equal with the query, or else of the gap where an index with
    /// such a key could be inserted. The asking answers the keys.
    ///
    /// If keys change, the entry has some stored index or some gap. It asks at most
    /// `4 + 2 * digits(len)` times, and takes no memory.
    pub fn entry<K: Ord + Drop, Q: Comparable<K>, F: FnMut(ItemIndex) -> K>(
        &mut self,
        query: &Q,
        asking: &mut Asking<F>,
    ) -> Entry<'_>
        requires { CanSearch F.FnMut (order_of self.old) None asking.old }
        ensures same_reference { (entry_table result).ghost_name ≡ self.entry.ghost_name }
        ensures table { (entry_table result).now ≡ self.old }
        ensures made { FindsEntry F.FnMut (Q.compare query.now) (order_of self.old) asking.old result asking.new }
    {
        self.make_entry(asking, &ByQuery(query))
    }

    // `entry_by` and `entry`, generic over how an answer is read.
    fn make_entry<R, F: FnMut(ItemIndex) -> R, H: Reads<R>>(
        &mut self,
        asking: &mut Asking<F>,
        how: &H,
    ) -> Entry<'_>
        requires { CanSearch F.FnMut (order_of self.old) None asking.old }
        ensures same_reference { (entry_table result).ghost_name ≡ self.entry.ghost_name }
        ensures table { (entry_table result).now ≡ self.old }
        ensures made { FindsEntry F.FnMut (H.reading how.now) (order_of self.old) asking.old result asking.new }
    {
        match self.descend(self.insert_start, asking, how, &None) {
            Ok(spot) => Entry::Occupied(OccupiedEntry { table: self, spot }),
            Err(gap) => Entry::Vacant(VacantEntry { table: self, gap }),
        }
    }
}

impl<'a> OccupiedEntry<'a> {
    ghost use Rattle.iddqd_order.specs.Entry.{occupied_table, entry_index};

    /// The index, by one walk down. It asks nothing.
    #[tactic(auto, unfolding(crate::specs::Entry::entry_index))]
    pub fn get(&self) -> ItemIndex
        ensures { result ≡ entry_index self.now }
    {
        self.table.index_at(&self.spot)
    }

    /// Removes the index, and returns it. It asks nothing and takes no memory. The others keep
    /// their order.
    #[tactic(auto, unfolding(crate::specs::Entry::entry_index, crate::specs::MapBTreeTable::order_of, crate::specs::MapBTreeTable::capacity))]
    pub fn remove(self) -> ItemIndex
        ensures index { result ≡ entry_index self.entry }
        ensures removed { order_of self.exit.0.now
            ≡ without (order_of (occupied_table self.entry).now) (entry_index self.entry) }
        ensures memory { capacity self.exit.0.now ≡ capacity (occupied_table self.entry).now }
    {
        let spot = self.spot;
        self.table.remove_at(&spot)
    }
}

impl<'a> VacantEntry<'a> {
    ghost use Rattle.std.specs.Borrow.{sem};
    ghost use Rattle.iddqd_order.specs.Entry.{vacant_table, PreparesFill};
    ghost use Rattle.iddqd_order.specs.PreparedBTreeInsert as prepared_insert;

    /// Takes the memory for an insert of `ix` at the gap. It asks nothing.
    ///
    /// It returns `AllocError` if memory runs out; the contents then stay. Below the capacity it takes no
    /// memory, and never fails. If the index doesn't belong at the gap, later searches may miss it and other
    /// indexes.
    #[tactic(auto, unfolding(crate::specs::MapBTreeTable::order_of))]
    pub fn prepare(self, ix: ItemIndex) -> Result<PreparedBTreeInsert<'a>, AllocError>
        requires assigned { ix ≢ sentinel }
        requires absent { Contains (order_of (vacant_table self).now) ix → ⊥ }
        ensures* unchanged { sem 𝓛 (prepared_insert.unchanged_if_out_of_memory (vacant_table self.entry) result) }
        ensures same_reference { IfOk result
            (λ p. (prepared_insert.table_of p).ghost_name ≡ (vacant_table self.entry).ghost_name) }
        ensures prepared { IfOk result (PreparesFill self.entry ix) }
        ensures memory { IfOk result
            (λ p. capacity (prepared_insert.table_of p).now ≡ capacity (vacant_table self.entry).now) }
        ensures roomy { HasRoom (vacant_table self.entry).now → IsOk result }
        ensures no_blocks { HasRoom (vacant_table self.entry).now →
            IfOk result (λ p. prepared_insert.blocks_of p ≡ 0) }
    {
        let VacantEntry { table, gap } = self;
        let blocks = match table.allocate_blocks(gap.full) {
            Ok(blocks) => blocks,
            Err(AllocError) => return Err(AllocError),
        };
        Ok(PreparedBTreeInsert {
            table,
            gap,
            ix,
            blocks,
        })
    }
}
