//! The steps that key indexes in the order of a key share, whether several items may have one key or not.
//!
//! A table holds ten indexes without any memory. They aren't counted: the capacity of a key index is what the reserved
//! blocks hold, and ten more indexes fit always. The blocks that an insert or a move needs are a value of their own;
//! below the capacity an insert needs none.
ghost use Rattle.std.specs.Prelude.{◌≡◌, ◌+◌, ◌<◌, ◌≤◌, [], true, false, min, max, length, map, IsOk, IfOk, OnOk, OnErr};
ghost use Rattle.iddqd.specs.{live_count, rebound, IsValid, Allows, Validates};
ghost use Rattle.iddqd.specs.Compaction.{rank, IsRemapOf};
ghost use Rattle.iddqd.specs.Store.{Store};
ghost use Rattle.iddqd_order.specs.Gap.{Fits, gap_blocks};
ghost use Rattle.iddqd_order.specs.MapBTreeTable.{HasSameTree, order_of, move_blocks, without, capacity as table_capacity};
ghost use Rattle.iddqd_order.specs.declared.btree_table.gap.Gap.{Gap as PlaceInTable};
ghost use Rattle.iddqd_by_order.specs.Ordered.{Holds, IsSortedScan};
ghost use Rattle.iddqd_keys.specs.Scan.{IsLive};
ghost use Rattle.iddqd_ord_map.specs.OrderedSteps.{reserved_for, most_cells, moves, HasBlocksAt, HasBlocksAnywhere, HasBlocksFor, StaysByKey};

use crate::ordered_move::{Move, relocate};
use iddqd::index_remap::IndexRemap;
use iddqd::internal::{ValidateCompact, ValidateRefusal, ValidationError};
use iddqd::item_index::ItemIndex;
use iddqd::item_set::ItemSet;
use iddqd_by_order::ordered_item::remove_index;
use iddqd_keys::order_key::OrdKey;
use iddqd_order::btree_table::{Blocks, Gap, MapBTreeTable};
use std::alloc::{AllocError, Global};

// The number of indexes that a table holds without reserved memory.
const FREE_INDEXES: usize = 10;

/// How many indexes the reserved blocks hold.
pub fn capacity(table: &MapBTreeTable) -> usize
    ensures { result ≡ reserved_for table.now }
{
    table.capacity().saturating_sub(FREE_INDEXES)
}

/// An empty table whose reserved blocks hold `wanted` indexes. With 0 it takes no memory.
pub fn with_capacity(alloc: Global, wanted: usize) -> Result<MapBTreeTable, AllocError>
    ensures empty { IfOk result (λ t. order_of t ≡ []) }
    ensures capacity { IfOk result (λ t. wanted ≤ reserved_for t) }
    ensures few { IfOk result (λ t. reserved_for t ≤ most_cells wanted) }
    ensures succeeds { wanted ≡ 0 → IsOk result }
{
    if wanted > usize::MAX - FREE_INDEXES {
        return Err(AllocError);
    }
    MapBTreeTable::with_capacity(alloc, wanted + FREE_INDEXES)
}

/// Makes room for `additional` more indexes than there are items. If there is room it takes no memory.
pub fn reserve<T>(
    table: &mut MapBTreeTable,
    items: &ItemSet<T>,
    additional: usize,
) -> Result<(), AllocError>
    requires { Holds items.now.store (order_of table.old) }
    ensures contents { HasSameTree table.old table.new }
    ensures reserved { OnOk result (live_count items.now.store + additional ≤ reserved_for table.new) }
    ensures had_room { live_count items.now.store + additional ≤ reserved_for table.old
        → IsOk result × (table.new ≡ table.old) }
    ensures capacity_at_least { reserved_for table.old ≤ reserved_for table.new }
    ensures few { reserved_for table.new
        ≤ reserved_for table.old + most_cells (live_count items.now.store + additional) }
{
    // The capacity has 64 bits, so there is no room for that many.
    let _capacity = table.capacity();
    if additional > usize::MAX - FREE_INDEXES {
        return Err(AllocError);
    }
    table.try_reserve(additional + FREE_INDEXES)
}

/// Gives back the blocks beyond what `least` indexes need, or those that there are if these are more.
pub fn shrink_to<T>(table: &mut MapBTreeTable, items: &ItemSet<T>, least: usize)
    requires { Holds items.now.store (order_of table.old) }
    ensures contents { HasSameTree table.old table.new }
    ensures never_more { reserved_for table.new ≤ reserved_for table.old }
    ensures capacity_at_least { min (reserved_for table.old) (max least (live_count items.now.store))
        ≤ reserved_for table.new }
    ensures shrunk { reserved_for table.new ≤ most_cells (max least (live_count items.now.store)) }
{
    let indexes = least.max(table.len());
    if indexes < table.capacity().saturating_sub(FREE_INDEXES) {
        table.shrink_to(indexes + FREE_INDEXES);
    }
}

/// Takes the blocks of an insert at a place: those that it needs beyond the spare ones, and no more. If there is room
/// it takes no memory.
pub fn blocks_at<T>(
    table: &MapBTreeTable,
    items: &ItemSet<T>,
    gap: &Gap,
) -> Result<Blocks, AllocError>
    requires { Holds items.now.store (order_of table.now) }
    ensures ready { IfOk result (λ blocks. HasBlocksAt table.now blocks gap.now) }
    ensures few { IfOk result (λ blocks. blocks ≤ gap_blocks table.now gap.now) }
    ensures needed { OnErr result (0 < gap_blocks table.now gap.now) }
    ensures had_room { live_count items.now.store < reserved_for table.now → IsOk result }
    ensures none { live_count items.now.store < reserved_for table.now → IfOk result (λ blocks. blocks ≡ 0) }
{
    if table.len() < table.capacity() {
        return Ok(table.no_blocks());
    }
    table.blocks_at(gap)
}

/// Takes the blocks of a move, or of an insert that comes after a removal. Up to the capacity it takes no memory.
pub fn blocks_anywhere<T>(table: &MapBTreeTable, items: &ItemSet<T>) -> Result<Blocks, AllocError>
    requires { Holds items.now.store (order_of table.now) }
    ensures enough { IfOk result (HasBlocksAnywhere table.now) }
    ensures few { IfOk result (λ blocks. blocks ≤ move_blocks table.now) }
    ensures none { live_count items.now.store ≤ reserved_for table.now → IfOk result (λ blocks. blocks ≡ 0) }
    ensures past { OnErr result (reserved_for table.now < live_count items.now.store) }
{
    table.blocks_anywhere()
}

/// Takes the blocks of a planned move. Up to the capacity it takes no memory, nor if the key stays.
pub fn blocks_for<T>(
    table: &MapBTreeTable,
    items: &ItemSet<T>,
    plan: &Move,
) -> Result<Blocks, AllocError>
    requires { Holds items.now.store (order_of table.now) }
    ensures enough { IfOk result (λ blocks. HasBlocksFor table.now blocks plan.now) }
    ensures few { IfOk result (λ blocks. blocks ≤ move_blocks table.now) }
    ensures none { live_count items.now.store ≤ reserved_for table.now → IfOk result (λ blocks. blocks ≡ 0) }
    ensures stays { moves plan.now ≡ false → IfOk result (λ blocks. blocks ≡ 0) }
    ensures moves { OnErr result (moves plan.now ≡ true) }
    ensures past { OnErr result (reserved_for table.now < live_count items.now.store) }
{
    match plan {
        Move::Stays => Ok(table.no_blocks()),
        Move::Moves => blocks_anywhere(table, items),
    }
}

/// Removes a live index. An insert after it needs at most as many blocks as a move before it. It takes no memory.
pub fn remove_live<T, E>(table: &mut MapBTreeTable, items: &ItemSet<T>, ix: ItemIndex)
where
    E: OrdKey<T>,
    requires live { IsLive items.now.store ix }
    requires held { Holds items.now.store (order_of table.old) }
    ensures taken { order_of table.new ≡ without (order_of table.old) ix }
    ensures memory { table_capacity table.new ≡ table_capacity table.old }
    ensures no_more { move_blocks table.new ≤ move_blocks table.old }
    ensures enough { (gap : PlaceInTable) → Fits table.new gap → gap_blocks table.new gap ≤ move_blocks table.old }
{
    remove_index::<T, E>(table, items, ix);
}

/// Carries out the planned move of a live index to the place of the item's key, with the blocks that it needs. It takes
/// no memory.
pub fn commit_move<T, E>(
    table: &mut MapBTreeTable,
    items: &ItemSet<T>,
    plan: &Move,
    blocks: Blocks,
    ix: ItemIndex,
    item: &T,
)
where
    E: OrdKey<T>,
    requires live { IsLive items.now.store ix }
    requires sorted { IsSortedScan E.key_of E.cmp items.now.store (order_of table.old) }
    requires stays { StaysByKey E.key_of E.cmp items.now.store ix item.now plan.now }
    requires enough { HasBlocksFor table.old blocks plan.now }
    ensures moved { IsSortedScan E.key_of E.cmp (rebound items.now.store ix item.now) (order_of table.new) }
    ensures memory { table_capacity table.new ≡ table_capacity table.old }
{
    match plan {
        Move::Stays => (),
        Move::Moves => relocate::<T, E>(table, items, ix, item, blocks),
    }
}

/// Replaces each index by its new one. It takes no memory.
pub fn remap<T>(table: &mut MapBTreeTable, remap: &IndexRemap)
    requires { (s : Store T) × Holds s (order_of table.old) × IsValid s × IsRemapOf s remap.now }
    ensures renamed { (s : Store T) → Holds s (order_of table.old) → IsValid s → IsRemapOf s remap.now →
        order_of table.new ≡ map (rank s) (order_of table.old) }
    ensures memory { table_capacity table.new ≡ table_capacity table.old }
{
    table.remap_indexes(remap);
}

/// Checks the table. It is sound by the conditions, so this passes and takes no memory.
pub fn validate<T>(
    table: &MapBTreeTable,
    items: &ItemSet<T>,
    compactness: ValidateCompact,
) -> Result<(), ValidateRefusal<ValidationError>>
    requires valid { IsValid items.now.store }
    requires allowed { Allows compactness (length items.now.store.free) }
    requires held { Holds items.now.store (order_of table.now) }
    ensures { Validates (Allows compactness (length items.now.store.free)) result }
{
    match table.validate(items.len(), compactness) {
        Ok(()) => Ok(()),
        Err(ValidateRefusal::Invalid(error)) => {
            let name = "keys";
            Err(ValidateRefusal::Invalid(ValidationError::Table { name, error }))
        }
        Err(ValidateRefusal::Memory(error)) => Err(ValidateRefusal::Memory(error)),
    }
}
