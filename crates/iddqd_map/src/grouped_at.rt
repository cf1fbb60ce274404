//! A key by its hash that several items may have, at a place of a key index: the items that have one key are a group.
ghost use Rattle.std.specs.Prelude.{◌≡◌, filter};
ghost use Rattle.iddqd.specs.{IsValid, live_count, removed};
ghost use Rattle.iddqd.specs.LiveItems.{live_items};
ghost use Rattle.iddqd_hash.specs.Asks.{CanAsk};
ghost use Rattle.iddqd_keys.specs.Scan.{IsHit};
ghost use Rattle.iddqd_map.specs.Groups.{AreHits, FindsSome, listed_from};
ghost use Rattle.iddqd_map.specs.ModifyMany.{MayLeave, ModifiesHits, TakesMut};
ghost use Rattle.iddqd_map.specs.RangeRetain.{KeepsMisses};

use crate::key_index::{Changes, KeyIndex, Left, Right};
use crate::pair::Pair;
use iddqd::item_index::ItemIndex;
use iddqd::item_set::ItemSet;

/// A key index with a key by its hash at the place `P`, which several items may have, found by queries `Q`.
pub trait GroupedAt<P, Q, T, S>: KeyIndex<T, S> {
    ghost use Rattle.std.specs.Prelude.{ℕ, Bool, List};
    ghost use Rattle.iddqd.specs.Store.{Store};

    // The query stands for the key of the item.
    ghost stands_for: { Q → T → Bool };

    // The indexes of the group that come behind this index, in the order in which the steps give them.
    ghost behind: { Self → Store T → Q → ℕ → List ℕ };

    /// The index of some item that has the key for which the query stands, by one look-up. It comes before all others
    /// of the group.
    fn find_any(&self, items: &ItemSet<T>, state: &S, query: Q) -> Option<ItemIndex>
        requires indexed { Self.KeyIndex.indexes self.now state.now items.now.store }
        ensures some { FindsSome items.now.store (stands_for query) result }
        ensures group { AreHits items.now.store (stands_for query)
            (listed_from (behind self.now items.now.store query) result) };
}

/// A key index that goes along a group by hash at the place `P`, and modifies or removes items as it goes.
///
/// A call that goes along a group may remove items. So nothing is borrowed between two steps. Of the three methods of
/// such a call `find_any` alone looks the key up; `next_in_group` and `take_in_group` go on from an index.
pub trait StepsInGroup<P, Q, T, S>: GroupedAt<P, Q, T, S> {
    /// The next index of the group behind this one.
    fn next_in_group(
        &self,
        items: &ItemSet<T>,
        state: &S,
        query: Q,
        ix: ItemIndex,
    ) -> Option<ItemIndex>
        requires indexed { Self.KeyIndex.indexes self.now state.now items.now.store }
        requires hit { IsHit items.now.store (Self.GroupedAt.stands_for query) ix }
        ensures { Self.GroupedAt.behind self.now items.now.store query ix
            ≡ listed_from (Self.GroupedAt.behind self.now items.now.store query) result };

    /// Removes an index of the group, and returns the next one behind it. It takes no memory.
    fn take_in_group(
        &mut self,
        items: &ItemSet<T>,
        state: &S,
        query: Q,
        ix: ItemIndex,
    ) -> Option<ItemIndex>
        requires indexed { Self.KeyIndex.indexes self.old state.now items.now.store }
        requires hit { IsHit items.now.store (Self.GroupedAt.stands_for query) ix }
        ensures next { Self.GroupedAt.behind self.old items.now.store query ix
            ≡ listed_from (Self.GroupedAt.behind self.new (removed items.now.store ix) query) result }
        ensures indexed { Self.KeyIndex.indexes self.new state.now (removed items.now.store ix) }
        ensures capacity { Self.KeyIndex.capacity self.new ≡ Self.KeyIndex.capacity self.old }
        ensures cells { Self.KeyIndex.cells self.new ≡ Self.KeyIndex.cells self.old };

    /// Calls the closure with a `&mut` to each item that has the key for which the query stands, once, in no particular
    /// order, and returns how many there are. The closure stays in the state that its last call leaves.
    ///
    /// It costs one look-up, takes no memory, and changes nothing but these items.
    fn modify_group<F: FnMut(&mut T)>(
        &self,
        items: &mut ItemSet<T>,
        state: &S,
        query: Q,
        f: &mut F,
    ) -> usize
        requires valid { IsValid items.old.store }
        requires indexed { Self.KeyIndex.indexes self.now state.now items.old.store }
        requires callable { CanAsk (TakesMut F.FnMut) (MayLeave F.FnMut) f.old
            (filter (Self.GroupedAt.stands_for query) (live_items items.old.store)) }
        ensures modified { ModifiesHits F.FnMut (Self.GroupedAt.stands_for query) f.old items.old.store
            items.new.store f.new result }
        ensures others { KeepsMisses items.old.store (Self.GroupedAt.stands_for query) items.new.store }
        ensures count { live_count items.new.store ≡ live_count items.old.store }
        ensures limit { items.new.store.limit ≡ items.old.store.limit }
        ensures slots { items.new.capacity ≡ items.old.capacity };
}

impl<P, Q, T, S, A, B> GroupedAt<Left<P>, Q, T, S> for Pair<A, B>
where
    A: GroupedAt<P, Q, T, S>,
    B: KeyIndex<T, S>,
{
    ghost stands_for = { A.GroupedAt.stands_for };

    ghost behind = { λ x s query ix. A.GroupedAt.behind x.first s query ix };

    fn find_any(&self, items: &ItemSet<T>, state: &S, query: Q) -> Option<ItemIndex> {
        self.first.find_any(items, state, query)
    }
}

impl<P, Q, T, S, A, B> StepsInGroup<Left<P>, Q, T, S> for Pair<A, B>
where
    A: StepsInGroup<P, Q, T, S>,
    B: Changes<T, S>,
{
    fn next_in_group(
        &self,
        items: &ItemSet<T>,
        state: &S,
        query: Q,
        ix: ItemIndex,
    ) -> Option<ItemIndex> {
        self.first.next_in_group(items, state, query, ix)
    }

    fn take_in_group(
        &mut self,
        items: &ItemSet<T>,
        state: &S,
        query: Q,
        ix: ItemIndex,
    ) -> Option<ItemIndex> {
        self.second.remove(items, state, ix);
        self.first.take_in_group(items, state, query, ix)
    }

    fn modify_group<F: FnMut(&mut T)>(
        &self,
        items: &mut ItemSet<T>,
        state: &S,
        query: Q,
        f: &mut F,
    ) -> usize {
        self.first.modify_group(items, state, query, f)
    }
}

impl<P, Q, T, S, A, B> GroupedAt<Right<P>, Q, T, S> for Pair<A, B>
where
    A: KeyIndex<T, S>,
    B: GroupedAt<P, Q, T, S>,
{
    ghost stands_for = { B.GroupedAt.stands_for };

    ghost behind = { λ x s query ix. B.GroupedAt.behind x.second s query ix };

    fn find_any(&self, items: &ItemSet<T>, state: &S, query: Q) -> Option<ItemIndex> {
        self.second.find_any(items, state, query)
    }
}

impl<P, Q, T, S, A, B> StepsInGroup<Right<P>, Q, T, S> for Pair<A, B>
where
    A: Changes<T, S>,
    B: StepsInGroup<P, Q, T, S>,
{
    fn next_in_group(
        &self,
        items: &ItemSet<T>,
        state: &S,
        query: Q,
        ix: ItemIndex,
    ) -> Option<ItemIndex> {
        self.second.next_in_group(items, state, query, ix)
    }

    fn take_in_group(
        &mut self,
        items: &ItemSet<T>,
        state: &S,
        query: Q,
        ix: ItemIndex,
    ) -> Option<ItemIndex> {
        self.first.remove(items, state, ix);
        self.second.take_in_group(items, state, query, ix)
    }

    fn modify_group<F: FnMut(&mut T)>(
        &self,
        items: &mut ItemSet<T>,
        state: &S,
        query: Q,
        f: &mut F,
    ) -> usize {
        self.second.modify_group(items, state, query, f)
    }
}
