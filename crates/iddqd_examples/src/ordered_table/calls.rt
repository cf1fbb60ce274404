//! The calls that both ordered tables have, so that an example runs on each.
ghost use Rattle.std.specs.Prelude.{◌≢◌, ◌↔◌, ℕ, List, Some, None, Contains, IsTrue};
ghost use Rattle.iddqd.specs.Compaction.{sentinel};
ghost use Rattle.iddqd_order.specs.Asks.{CanAsk};
ghost use Rattle.iddqd_order.specs.MapBTreeTable as tree;
ghost use Rattle.iddqd_order_reference.specs.OrderedTable as vector;
ghost use Rattle.iddqd_order.specs.Search.{CanSearch};

use iddqd::item_index::ItemIndex;
use iddqd::map_hash::Comparable;
use iddqd_order::btree_table::{Asking, MapBTreeTable};
use iddqd_order_reference::ordered_table_reference::OrderedTable;
use std::alloc::AllocError;
use std::cmp::Ordering;

// An ordered table. A name differs from that of the table's call if the call does.
pub(super) trait Table {
    // The indexes in the table's order.
    ghost order: { Self → List ℕ };

    fn count(&self) -> usize;

    fn has(&self, ix: ItemIndex) -> bool
        ensures { IsTrue result ↔ Contains (order self.now) ix };

    // Whether `f` answers true about each index. It is asked about them in the table's order, up to the first false.
    fn all<F: FnMut(ItemIndex) -> bool>(&self, f: F) -> bool
        requires { (f : F) (ix : _) → F.pre f ix };

    fn hit_by<F: FnMut(ItemIndex) -> Ordering>(&self, asking: &mut Asking<F>) -> Option<ItemIndex>
        requires { CanSearch F.FnMut (order self.now) None asking.old };

    fn hit<K: Ord + Drop, Q: Comparable<K>, F: FnMut(ItemIndex) -> K>(
        &self,
        query: &Q,
        asking: &mut Asking<F>,
    ) -> Option<ItemIndex>
        requires { CanSearch F.FnMut (order self.now) None asking.old };

    // Prepares an insert and carries it out.
    fn add_by<F: FnMut(ItemIndex) -> Ordering>(
        &mut self,
        ix: ItemIndex,
        asking: &mut Asking<F>,
    ) -> Result<(), AllocError>
        requires assigned { ix ≢ sentinel }
        requires absent { Contains (order self.old) ix → ⊥ }
        requires can_ask { CanSearch F.FnMut (order self.old) (Some ix) asking.old };

    fn add<K: Ord + Drop, Q: Comparable<K>, F: FnMut(ItemIndex) -> K>(
        &mut self,
        ix: ItemIndex,
        query: &Q,
        asking: &mut Asking<F>,
    ) -> Result<(), AllocError>
        requires assigned { ix ≢ sentinel }
        requires absent { Contains (order self.old) ix → ⊥ }
        requires can_ask { CanSearch F.FnMut (order self.old) (Some ix) asking.old };

    // Prepares a removal, and tells whether the search found the index. The removal is dropped.
    fn leads_to<F: FnMut(ItemIndex) -> Ordering>(
        &mut self,
        ix: ItemIndex,
        asking: &mut Asking<F>,
    ) -> bool
        requires { CanSearch F.FnMut (order self.old) (Some ix) asking.old };

    // Prepares a removal and carries it out.
    fn take_by<F: FnMut(ItemIndex) -> Ordering>(
        &mut self,
        ix: ItemIndex,
        asking: &mut Asking<F>,
    ) -> bool
        requires { CanSearch F.FnMut (order self.old) (Some ix) asking.old };

    fn take<K: Ord + Drop, F: FnMut(ItemIndex) -> K>(
        &mut self,
        ix: ItemIndex,
        key: &K,
        asking: &mut Asking<F>,
    ) -> bool
        requires { CanSearch F.FnMut (order self.old) (Some ix) asking.old };

    fn take_exact(&mut self, ix: ItemIndex);

    fn keep<F: FnMut(ItemIndex) -> bool>(&mut self, f: F)
        requires { CanAsk F.FnMut (Contains (order self.old)) f };
}

impl Table for MapBTreeTable {
    ghost order = { tree.order_of };

    fn count(&self) -> usize {
        self.len()
    }

    fn has(&self, ix: ItemIndex) -> bool {
        self.contains_index(ix)
    }

    fn all<F: FnMut(ItemIndex) -> bool>(&self, f: F) -> bool {
        self.iter().all(f)
    }

    fn hit_by<F: FnMut(ItemIndex) -> Ordering>(&self, asking: &mut Asking<F>) -> Option<ItemIndex> {
        self.find_by(asking)
    }

    fn hit<K: Ord + Drop, Q: Comparable<K>, F: FnMut(ItemIndex) -> K>(
        &self,
        query: &Q,
        asking: &mut Asking<F>,
    ) -> Option<ItemIndex> {
        self.find_index(query, asking)
    }

    fn add_by<F: FnMut(ItemIndex) -> Ordering>(
        &mut self,
        ix: ItemIndex,
        asking: &mut Asking<F>,
    ) -> Result<(), AllocError> {
        self.prepare_insert_by(ix, asking)?.insert();
        Ok(())
    }

    fn add<K: Ord + Drop, Q: Comparable<K>, F: FnMut(ItemIndex) -> K>(
        &mut self,
        ix: ItemIndex,
        query: &Q,
        asking: &mut Asking<F>,
    ) -> Result<(), AllocError> {
        self.prepare_insert(ix, query, asking)?.insert();
        Ok(())
    }

    fn leads_to<F: FnMut(ItemIndex) -> Ordering>(
        &mut self,
        ix: ItemIndex,
        asking: &mut Asking<F>,
    ) -> bool {
        self.prepare_remove_by(ix, asking).is_found()
    }

    fn take_by<F: FnMut(ItemIndex) -> Ordering>(
        &mut self,
        ix: ItemIndex,
        asking: &mut Asking<F>,
    ) -> bool {
        self.prepare_remove_by(ix, asking).remove()
    }

    fn take<K: Ord + Drop, F: FnMut(ItemIndex) -> K>(
        &mut self,
        ix: ItemIndex,
        key: &K,
        asking: &mut Asking<F>,
    ) -> bool {
        self.prepare_remove(ix, key, asking).remove()
    }

    fn take_exact(&mut self, ix: ItemIndex) {
        self.remove_exact(ix);
    }

    fn keep<F: FnMut(ItemIndex) -> bool>(&mut self, f: F) {
        self.retain(f);
    }
}

impl Table for OrderedTable {
    ghost order = { vector.order_of };

    fn count(&self) -> usize {
        self.len()
    }

    fn has(&self, ix: ItemIndex) -> bool {
        self.contains_index(ix)
    }

    fn all<F: FnMut(ItemIndex) -> bool>(&self, f: F) -> bool {
        self.iter().all(f)
    }

    fn hit_by<F: FnMut(ItemIndex) -> Ordering>(&self, asking: &mut Asking<F>) -> Option<ItemIndex> {
        self.find_by(asking)
    }

    fn hit<K: Ord + Drop, Q: Comparable<K>, F: FnMut(ItemIndex) -> K>(
        &self,
        query: &Q,
        asking: &mut Asking<F>,
    ) -> Option<ItemIndex> {
        self.find_index(query, asking)
    }

    fn add_by<F: FnMut(ItemIndex) -> Ordering>(
        &mut self,
        ix: ItemIndex,
        asking: &mut Asking<F>,
    ) -> Result<(), AllocError> {
        self.prepare_insert_by(ix, asking)?.insert();
        Ok(())
    }

    fn add<K: Ord + Drop, Q: Comparable<K>, F: FnMut(ItemIndex) -> K>(
        &mut self,
        ix: ItemIndex,
        query: &Q,
        asking: &mut Asking<F>,
    ) -> Result<(), AllocError> {
        self.prepare_insert(ix, query, asking)?.insert();
        Ok(())
    }

    fn leads_to<F: FnMut(ItemIndex) -> Ordering>(
        &mut self,
        ix: ItemIndex,
        asking: &mut Asking<F>,
    ) -> bool {
        self.prepare_remove_by(ix, asking).is_found()
    }

    fn take_by<F: FnMut(ItemIndex) -> Ordering>(
        &mut self,
        ix: ItemIndex,
        asking: &mut Asking<F>,
    ) -> bool {
        self.prepare_remove_by(ix, asking).remove()
    }

    fn take<K: Ord + Drop, F: FnMut(ItemIndex) -> K>(
        &mut self,
        ix: ItemIndex,
        key: &K,
        asking: &mut Asking<F>,
    ) -> bool {
        self.prepare_remove(ix, key, asking).remove()
    }

    fn take_exact(&mut self, ix: ItemIndex) {
        self.remove_exact(ix);
    }

    fn keep<F: FnMut(ItemIndex) -> bool>(&mut self, f: F) {
        self.retain(f);
    }
}
