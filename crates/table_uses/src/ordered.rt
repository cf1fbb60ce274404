//! Callers of the table of indexes in an order.
ghost use Rattle.std.specs.Prelude.{◌≡◌, ◌≢◌, ℕ, ◌<◌, None, Some, All, Contains, IfNone, IfSome, IsNone, IfOk, OnOk, OnErr, insert, length, slice_index, IsTrue, false};
ghost use Rattle.std.specs.Ordering.{nat_cmp};
ghost use Rattle.std.specs.declared.cmp.Ordering.TheVariants.{Less};
ghost use Rattle.iddqd.specs.Compaction.{CanRemap, remapped};
ghost use Rattle.iddqd_order.specs.KeyOrder.{IsInKeyOrder};
ghost use Rattle.iddqd_order.specs.MapBTreeTable.{order_of, capacity, without, sentinel};
ghost use Rattle.iddqd_order.specs.PreparedBTreeMove.{PutsIn};
ghost use Rattle.iddqd_order.specs.Search.{CanSearch};
ghost use Rattle.table_uses.specs.Ordered.{IfRising, KeepsKeyOrder, MeetsEqual, PutsInGap};

use iddqd::index_remap::IndexRemap;
use iddqd::item_index::ItemIndex;
use iddqd::map_hash::Same;
use iddqd_order::btree_table::{Asking, Entry, MapBTreeTable};
use std::alloc::AllocError;
use std::cmp::Ordering;

/// The index of a number, in a table that is in order by the numbers at its indexes; `None` if and only if none of them
/// has it.
pub fn find_number(table: &MapBTreeTable, numbers: &[u32], sought: u32) -> Option<ItemIndex>
    requires live { All (λ ix. ix < length numbers.now) (order_of table.now) }
    requires in_order { IsInKeyOrder nat_cmp (slice_index numbers.now) (order_of table.now) }
    ensures hit { IfSome result (λ ix. slice_index numbers.now ix ≡ sought) }
    ensures miss { IsNone result →
        All (λ ix. slice_index numbers.now ix ≢ sought) (order_of table.now) }
{
    let mut asking = Asking::new(
        |ix: ItemIndex|
            requires { ix < length numbers.now }
            ensures { result.now ≡ slice_index numbers.entry.now ix }
        { &numbers[ix.as_u32() as usize] },
    );
    table.find_index(&Same(&sought), &mut asking)
}

/// Adds an index at the place of its number, ties by index. A table that is in order by the numbers stays so.
pub fn add_number(
    table: &mut MapBTreeTable,
    numbers: &[u32],
    ix: ItemIndex,
) -> Result<(), AllocError>
    requires live { All (λ at. at < length numbers.now) (order_of table.old) }
    requires own { ix < length numbers.now }
    requires assigned { ix ≢ sentinel }
    requires absent { Contains (order_of table.old) ix → ⊥ }
    requires in_order { IsInKeyOrder nat_cmp (slice_index numbers.now) (order_of table.old) }
    ensures added { OnOk result ((at : ℕ) × (order_of table.new ≡ insert (order_of table.old) at ix)) }
    ensures in_order { OnOk result (IsInKeyOrder nat_cmp (slice_index numbers.now) (order_of table.new)) }
    ensures refused { OnErr result (order_of table.new ≡ order_of table.old) }
{
    let number = numbers[ix.as_u32() as usize];
    let mut asking = Asking::new(
        |at: ItemIndex|
            requires { at < length numbers.now }
            ensures { result.now ≡ slice_index numbers.entry.now at }
        { &numbers[at.as_u32() as usize] },
    );
    table
        .prepare_insert(ix, &Same(&number), &mut asking)?
        .insert();
    Ok(())
}

/// Removes a stored index, which is found by its number. A table that is in order by the numbers stays so.
pub fn take_number(table: &mut MapBTreeTable, numbers: &[u32], ix: ItemIndex)
    requires live { All (λ at. at < length numbers.now) (order_of table.old) }
    requires stored { Contains (order_of table.old) ix }
    requires in_order { IsInKeyOrder nat_cmp (slice_index numbers.now) (order_of table.old) }
    ensures taken { order_of table.new ≡ without (order_of table.old) ix }
    ensures in_order { IsInKeyOrder nat_cmp (slice_index numbers.now) (order_of table.new) }
{
    let number = numbers[ix.as_u32() as usize];
    let mut asking = Asking::new(
        |at: ItemIndex|
            requires { at < length numbers.now }
            ensures { result ≡ slice_index numbers.entry.now at }
        { numbers[at.as_u32() as usize] },
    );
    table.prepare_remove(ix, &number, &mut asking).remove();
}

/// Adds an index at the place to which the answers lead. If they rise, that is its place in order, ties by index.
pub fn add_by<F: FnMut(ItemIndex) -> Ordering>(
    table: &mut MapBTreeTable,
    ix: ItemIndex,
    asking: &mut Asking<F>,
) -> Result<(), AllocError>
    requires assigned { ix ≢ sentinel }
    requires absent { Contains (order_of table.old) ix → ⊥ }
    requires can_ask { CanSearch F.FnMut (order_of table.old) (Some ix) asking.old }
    ensures added { OnOk result
        (PutsIn F.FnMut (λ r. r) (order_of table.old) ix asking.old (order_of table.new)) }
    ensures refused { OnErr result (order_of table.new ≡ order_of table.old) }
{
    table.prepare_insert_by(ix, asking)?.insert();
    Ok(())
}

/// Adds an index. There is room for it, so memory can't run out.
pub fn add_in_room<F: FnMut(ItemIndex) -> Ordering>(
    table: &mut MapBTreeTable,
    ix: ItemIndex,
    asking: &mut Asking<F>,
)
    requires assigned { ix ≢ sentinel }
    requires absent { Contains (order_of table.old) ix → ⊥ }
    requires can_ask { CanSearch F.FnMut (order_of table.old) (Some ix) asking.old }
    requires room { length (order_of table.old) < capacity table.old }
    ensures added { (at : ℕ) × (order_of table.new ≡ insert (order_of table.old) at ix) }
    ensures memory { capacity table.new ≡ capacity table.old }
{
    match table.prepare_insert_by(ix, asking) {
        Ok(prepared) => {
            prepared.insert();
        }
        Err(AllocError) => unreachable!(),
    }
}

/// Adds an index at the place to which the answers lead, unless one of them is Equal, and returns whether it did.
pub fn add_if_new<F: FnMut(ItemIndex) -> Ordering>(
    table: &mut MapBTreeTable,
    ix: ItemIndex,
    asking: &mut Asking<F>,
) -> Result<bool, AllocError>
    requires assigned { ix ≢ sentinel }
    requires absent { Contains (order_of table.old) ix → ⊥ }
    requires can_ask { CanSearch F.FnMut (order_of table.old) None asking.old }
    ensures added { IfOk result (λ is_new. IsTrue is_new →
        PutsInGap F.FnMut (order_of table.old) ix asking.old (order_of table.new)) }
    ensures met { IfOk result (λ is_new. is_new ≡ false →
        MeetsEqual F.FnMut (order_of table.old) asking.old) }
    ensures kept { IfOk result (λ is_new. is_new ≡ false → table.new ≡ table.old) }
    ensures refused { OnErr result (order_of table.new ≡ order_of table.old) }
{
    match table.entry_by(asking) {
        Entry::Occupied(_entry) => Ok(false),
        Entry::Vacant(entry) => {
            entry.prepare(ix)?.insert();
            Ok(true)
        }
    }
}

/// Both inserts are prepared before either commits: so both tables gain the index, or neither.
pub fn add_to_both<F: FnMut(ItemIndex) -> Ordering, G: FnMut(ItemIndex) -> Ordering>(
    one: &mut MapBTreeTable,
    other: &mut MapBTreeTable,
    ix: ItemIndex,
    first: &mut Asking<F>,
    second: &mut Asking<G>,
) -> Result<(), AllocError>
    requires assigned { ix ≢ sentinel }
    requires absent_first { Contains (order_of one.old) ix → ⊥ }
    requires absent_second { Contains (order_of other.old) ix → ⊥ }
    requires can_ask_first { CanSearch F.FnMut (order_of one.old) (Some ix) first.old }
    requires can_ask_second { CanSearch G.FnMut (order_of other.old) (Some ix) second.old }
    ensures first { OnOk result ((at : ℕ) × (order_of one.new ≡ insert (order_of one.old) at ix)) }
    ensures second { OnOk result ((at : ℕ) × (order_of other.new ≡ insert (order_of other.old) at ix)) }
    ensures refused { OnErr result ((order_of one.new ≡ order_of one.old) × (order_of other.new ≡ order_of other.old)) }
{
    let prepared_first = one.prepare_insert_by(ix, first)?;
    let prepared_second = other.prepare_insert_by(ix, second)?;
    prepared_first.insert();
    prepared_second.insert();
    Ok(())
}

/// Moves a stored index from the place to which `leaving` leads to the place to which `entering` leads.
pub fn move_by<F: FnMut(ItemIndex) -> Ordering, G: FnMut(ItemIndex) -> Ordering>(
    table: &mut MapBTreeTable,
    ix: ItemIndex,
    leaving: &mut Asking<F>,
    entering: &mut Asking<G>,
) -> Result<(), AllocError>
    requires stored { Contains (order_of table.old) ix }
    requires can_leave { CanSearch F.FnMut (order_of table.old) (Some ix) leaving.old }
    requires can_enter { CanSearch G.FnMut (order_of table.old) (Some ix) entering.old }
    ensures moved { OnOk result
        (PutsIn G.FnMut (λ r. r) (without (order_of table.old) ix) ix entering.old (order_of table.new)) }
    ensures refused { OnErr result (order_of table.new ≡ order_of table.old) }
{
    table.prepare_move(ix)?.commit_by(leaving, entering);
    Ok(())
}

/// Removes the index, and returns whether the answers led to it: if they rise, they lead to it if it is stored.
pub fn take_by<F: FnMut(ItemIndex) -> Ordering>(
    table: &mut MapBTreeTable,
    ix: ItemIndex,
    asking: &mut Asking<F>,
) -> bool
    requires { CanSearch F.FnMut (order_of table.old) (Some ix) asking.old }
    ensures stored { IsTrue result → Contains (order_of table.old) ix }
    ensures taken { IsTrue result → order_of table.new ≡ without (order_of table.old) ix }
    ensures kept { result ≡ false → order_of table.new ≡ order_of table.old }
    ensures rising { IfRising F.FnMut (order_of table.old) (Some ix) asking.old
        (λ _. Contains (order_of table.old) ix → IsTrue result) }
{
    table.prepare_remove_by(ix, asking).remove()
}

/// If the new indexes rise with the old ones and have their keys, the table stays in order.
pub fn rename_in_order(table: &mut MapBTreeTable, remap: &IndexRemap)
    requires named { (ix : ℕ) → Contains (order_of table.old) ix → CanRemap remap.now ix }
    requires rising { (i j : ℕ) → Contains (order_of table.old) i → Contains (order_of table.old) j →
        i < j → remapped remap.now i < remapped remap.now j }
    ensures { KeepsKeyOrder remap.now (order_of table.old) (order_of table.new) }
{
    table.remap_indexes(remap);
}

/// The first index behind what is sought, if the answers rise; `None` if and only if there is none.
pub fn first_after<F: FnMut(ItemIndex) -> Ordering>(
    table: &MapBTreeTable,
    asking: &mut Asking<F>,
) -> Option<ItemIndex>
    requires { CanSearch F.FnMut (order_of table.now) None asking.old }
    ensures found { IfRising F.FnMut (order_of table.now) None asking.old
        (λ answer. IfSome result (λ ix. answer ix ≡ Less)) }
    ensures none { IfRising F.FnMut (order_of table.now) None asking.old
        (λ answer. IfNone result (All (λ ix. answer ix ≢ Less) (order_of table.now))) }
{
    table.iter_after_by(asking).next()
}
