//! New names for the indexes of a table.
ghost use Rattle.std.specs.Prelude.{◌≡◌, ℕ, IsTrue, IfSome, All, Contains};
ghost use Rattle.iddqd.specs.Compaction.{CanRemap, remapped};
ghost use Rattle.iddqd_order.specs.MapBTreeTable.{order_of};

use super::{append, has_order};
use iddqd::index_remap::IndexRemap;
use iddqd::item_index::ItemIndex;
use iddqd_order::btree_table::MapBTreeTable;
use std::alloc::{AllocError, Global};
use std::process::Abort;
use std::test::Fail;

// The new name of an index that has one.
fn name_of(remap: &IndexRemap, ix: ItemIndex) -> Option<ItemIndex>
    ensures { IfSome result (λ name. CanRemap remap.now ix × (name ≡ remapped remap.now ix)) }
{
    if remap.can_remap(ix) {
        Some(remap.remap(ix))
    } else {
        None
    }
}

// Whether the index has a name, and each other stored index another one.
fn has_own_name(table: &MapBTreeTable, remap: &IndexRemap, ix: ItemIndex) -> bool
    ensures named { IsTrue result → CanRemap remap.now ix }
    ensures own { IsTrue result →
        All (λ j. remapped remap.now ix ≡ remapped remap.now j → ix ≡ j) (order_of table.now) }
{
    let Some(name) = name_of(remap, ix) else {
        return false;
    };
    for other in table.iter() {
        match name_of(remap, other) {
            Some(another) if another != name || other == ix => (),
            _ => return false,
        }
    }
    true
}

// Whether each stored index has a name of its own.
fn have_own_names(table: &MapBTreeTable, remap: &IndexRemap) -> bool
    ensures named { IsTrue result → All (CanRemap remap.now) (order_of table.now) }
    ensures own { IsTrue result →
        All (λ i. All (λ j. remapped remap.now i ≡ remapped remap.now j → i ≡ j) (order_of table.now))
        (order_of table.now) }
{
    for ix in table.iter() {
        if !has_own_name(table, remap, ix) {
            return false;
        }
    }
    true
}

// Renames the indexes where each has a name of its own, and tells whether it did.
fn rename(table: &mut MapBTreeTable, remap: &IndexRemap) -> bool {
    if !have_own_names(table, remap) {
        return false;
    }
    table.remap_indexes(remap);
    true
}

// The names of five old slots, two of which were vacant.
fn names(alloc: Global) -> Result<IndexRemap, AllocError> {
    let vacant = ItemIndex::SENTINEL;
    let [first, second, third] = [ItemIndex::new(0), ItemIndex::new(1), ItemIndex::new(2)];
    Ok(IndexRemap::Permuted(vec![in alloc; first, vacant, second, vacant, third]?))
}

fn gives_new_names(
    rt: &impl Abort,
    table: &mut MapBTreeTable,
    remap: &IndexRemap,
) -> Result<bool, AllocError> {
    append(rt, table, &[0, 2, 4])?;
    let is_rising = rename(table, remap) && has_order(table, &[0, 1, 2]);
    table.clear();
    append(rt, table, &[4, 0, 2])?;
    Ok(is_rising && rename(table, remap) && has_order(table, &[2, 0, 1]))
}

#[test]
fn each_index_gets_its_new_name_in_its_place(rt: HostRuntime) -> Result<(), Fail> {
    let remap = names(rt.alloc())?;
    assert!(rt; gives_new_names(&rt, &mut MapBTreeTable::new(rt.alloc()), &remap)?);
    Ok(())
}
