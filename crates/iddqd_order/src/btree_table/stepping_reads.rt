//! Reading on from a gap by buffers, for a caller that keeps no iterator between two calls.
ghost use Rattle.std.specs.Prelude.{◌≡◌, ◌+◌, IfSome, IsNone, drop, reverse, take};
ghost use Rattle.iddqd_order.specs.Buffers.{Fills, ReadsOn};
ghost use Rattle.iddqd_order.specs.Cursor.{Stands, Steps, gap_of};
ghost use Rattle.iddqd_order.specs.MapBTreeTable.{order_of};
ghost use Rattle.iddqd_order.specs.Stepping.{HasGap, gap_behind, leaf_gap, leaf_place};
ghost use Rattle.iddqd_order.specs.Tree.{IsTree, in_order};

use crate::btree_table::cursor::{Cursor, End};
use crate::btree_table::node::Node;
use crate::btree_table::stepping::Descent;
use crate::btree_table::table::MapBTreeTable;
use iddqd::item_index::ItemIndex;

#[tactic(auto, unfolding(crate::specs::MapBTreeTable::order_of))]
impl MapBTreeTable {
    /// Writes the numbers of the indexes behind a gap of a leaf, in order, until the buffer is full, and moves the gap
    /// behind the last of them. Returns how many they are. `None`, and nothing changes, if and only if the table has no
    /// such gap.
    ///
    /// The place in the leaf of the new gap is that of the path at level 0. So a caller that goes on from there reads
    /// the whole list by buffers, as long as the tree stays.
    ///
    /// Cost: some steps for each level; then constant for most indexes.
    pub fn read_behind(
        &self,
        leaf: &mut Descent,
        place: usize,
        numbers: &mut [u32],
    ) -> Option<usize>
        ensures reads { IfSome result (λ count. Fills (drop (gap_behind self.now leaf.old place) (order_of self.now))
            count numbers.old numbers.new) }
        ensures moved { IfSome result (λ count. leaf_gap self.now leaf.new
            ≡ gap_behind self.now leaf.old place + count) }
        ensures gap { IfSome result (λ _. HasGap self.now leaf.old place) }
        ensures new_gap { IfSome result (λ _. HasGap self.now leaf.new (leaf_place leaf.new)) }
        ensures none { IsNone result → HasGap self.now leaf.old place → ⊥ }
        ensures kept { IsNone result → (leaf.new ≡ leaf.old) × (numbers.new ≡ numbers.old) }
    {
        self.read_on(leaf, place, End::Back, numbers)
    }

    /// Writes the numbers of the indexes before a gap of a leaf, from the last one down, until the buffer is full, and
    /// moves the gap before the last that it wrote. Otherwise as `read_behind`.
    ///
    /// Cost: some steps for each level; then constant for most indexes.
    pub fn read_before(
        &self,
        leaf: &mut Descent,
        place: usize,
        numbers: &mut [u32],
    ) -> Option<usize>
        ensures reads { IfSome result (λ count.
            Fills (reverse (take (gap_behind self.now leaf.old place) (order_of self.now)))
            count numbers.old numbers.new) }
        ensures moved { IfSome result (λ count. leaf_gap self.now leaf.new + count
            ≡ gap_behind self.now leaf.old place) }
        ensures gap { IfSome result (λ _. HasGap self.now leaf.old place) }
        ensures new_gap { IfSome result (λ _. HasGap self.now leaf.new (leaf_place leaf.new)) }
        ensures none { IsNone result → HasGap self.now leaf.old place → ⊥ }
        ensures kept { IsNone result → (leaf.new ≡ leaf.old) × (numbers.new ≡ numbers.old) }
    {
        self.read_on(leaf, place, End::Front, numbers)
    }

    // `read_behind` and `read_before`, by the end towards which it goes.
    fn read_on(
        &self,
        leaf: &mut Descent,
        place: usize,
        towards: End,
        numbers: &mut [u32],
    ) -> Option<usize>
        ensures reads { IfSome result (λ count. ReadsOn towards (order_of self.now)
            (gap_behind self.now leaf.old place) count numbers.old numbers.new (leaf_gap self.now leaf.new)) }
        ensures gap { IfSome result (λ _. HasGap self.now leaf.old place) }
        ensures new_gap { IfSome result (λ _. HasGap self.now leaf.new (leaf_place leaf.new)) }
        ensures none { IsNone result → HasGap self.now leaf.old place → ⊥ }
        ensures kept { IsNone result → (leaf.new ≡ leaf.old) × (numbers.new ≡ numbers.old) }
    {
        let Some(mut cursor) = self.cursor_in(leaf, place) else {
            return None;
        };
        let (root, height) = self.tree();
        let count = cursor.read(root, height, towards, numbers);
        leaf.path = cursor.gap();
        leaf.level = 0;
        Some(count)
    }
}

impl<'a> Cursor<'a> {
    // Moves over the next indexes towards an end, as many as the buffer has places for, and writes their numbers.
    fn read(
        &mut self,
        root: &'a Option<Node>,
        height: usize,
        towards: End,
        numbers: &mut [u32],
    ) -> usize
        requires tree { IsTree root.now height }
        requires stands { Stands root.now height self.old }
        ensures stands { Stands root.now height self.new }
        ensures reads { ReadsOn towards (in_order root.now height) (gap_of root.now height self.old) result
            numbers.old numbers.new (gap_of root.now height self.new) }
    {
        for at in 0..numbers.len() {
            match self.step(root, height, towards) {
                Some(ix) => numbers[at] = ix.as_u32(),
                None => return at,
            }
        }
        numbers.len()
    }

    // Moves over the next index towards an end, and returns it.
    fn step(&mut self, root: &'a Option<Node>, height: usize, towards: End) -> Option<ItemIndex>
        requires tree { IsTree root.now height }
        requires stands { Stands root.now height self.old }
        ensures stands { Stands root.now height self.new }
        ensures next { Steps towards (in_order root.now height)
            (gap_of root.now height self.old) result (gap_of root.now height self.new) }
    {
        match towards {
            End::Back => self.next(root, height),
            End::Front => self.next_back(root, height),
        }
    }
}
