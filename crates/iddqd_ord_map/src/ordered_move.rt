//! How an ordered table changes when the item at a live index is replaced by one that may have another key.
//!
//! The move is planned first. If the key stays, nothing is looked up. If it changes and is unique, the new key is
//! looked up once. Then the index is moved with memory that was taken before, while its old item is still in the
//! store.
ghost use Rattle.std.specs.Prelude.{◌≡◌, ◌≤◌};
ghost use Rattle.iddqd.specs.{rebound};
ghost use Rattle.iddqd_order.specs.MapBTreeTable.{order_of, capacity, move_blocks};
ghost use Rattle.iddqd_by_order.specs.Ordered.{IsSortedScan};
ghost use Rattle.iddqd_keys.specs.Scan.{IsLive, IsKeyAt};
ghost use Rattle.iddqd_map.specs.Ranges.{itself};
ghost use Rattle.iddqd_ord_map.specs.OrderedIndexing.{PlansOrConflicts, Sorts};

use iddqd::item_index::ItemIndex;
use iddqd::item_set::ItemSet;
use iddqd_by_order::ordered_item::find_same;
use iddqd_keys::key_of::{Itself, key_at};
use iddqd_keys::order_key::OrdKey;
use iddqd_order::btree_table::{Asking, Blocks, MapBTreeTable, Reads};
use std::cmp::Ordering;
use std::marker::PhantomData;

/// Whether a live index moves in an ordered table when its item is replaced.
#[derive(Clone, Copy)]
pub enum Move {
    /// The key stays, and so does the index.
    Stays,
    /// The key changes: the index is removed, and inserted again where the new key belongs.
    Moves,
}

/// Plans the move of a live index whose item is to be replaced by this one. If another item has the new key, it returns
/// that item's index.
///
/// It compares the new key with the old one. Only if they differ, it looks the new key up, once.
pub fn plan_move<T, E>(
    table: &MapBTreeTable,
    items: &ItemSet<T>,
    ix: ItemIndex,
    item: &T,
) -> Result<Move, ItemIndex>
where
    E: OrdKey<T>,
    requires live { IsLive items.now.store ix }
    requires sorted { Sorts E.key_of E.cmp items.now.store (order_of table.now) }
    ensures { PlansOrConflicts E.key_of E.cmp items.now.store ix item.now result }
{
    if E::compare(item, key_at::<T, Itself>(items, ix)).is_eq() {
        return Ok(Move::Stays);
    }
    match find_same::<T, E>(table, items, item) {
        Some(at) => Err(at),
        None => Ok(Move::Moves),
    }
}

/// Moves a live index to the place of this item's key, ties by index. It takes no memory but the blocks.
pub fn relocate<T, E>(
    table: &mut MapBTreeTable,
    items: &ItemSet<T>,
    ix: ItemIndex,
    item: &T,
    blocks: Blocks,
)
where
    E: OrdKey<T>,
    requires live { IsLive items.now.store ix }
    requires sorted { IsSortedScan E.key_of E.cmp items.now.store (order_of table.old) }
    requires enough { move_blocks table.old ≤ blocks }
    ensures moved { IsSortedScan E.key_of E.cmp (rebound items.now.store ix item.now) (order_of table.new) }
    ensures memory { capacity table.new ≡ capacity table.old }
{
    let leaving = ByItsKey::<T, E> {
        item: key_at::<T, Itself>(items, ix),
        of: PhantomData,
    };
    let entering = ByItsKey::<T, E> {
        item,
        of: PhantomData,
    };
    let mut asking = Asking::new(
        |at: ItemIndex|
            requires { IsLive items.now.store at }
            ensures { IsKeyAt itself items.entry.now.store at result.now }
        { key_at::<T, Itself>(items, at) },
    );
    table.move_index_reading(ix, &leaving, &entering, &mut asking, blocks);
}

// An item whose key `E` is compared with the keys of the items that the table's closure borrows.
#[derive(Drop)]
struct ByItsKey<'a, T, E> {
    item: &'a T,
    of: PhantomData<E>,
}

impl<'a, 'b, T, E: OrdKey<T>> Reads<&'b T> for ByItsKey<'a, T, E> {
    ghost reading = { λ by other. E.cmp (E.key_of by.item.now) (E.key_of other.now) };

    fn read(&self, other: &'b T) -> Ordering {
        E::compare(self.item, other)
    }
}
