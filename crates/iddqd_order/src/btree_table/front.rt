//! Where a search starts: an insert tries the gap before all indexes first if the last insert went there.
//!
//! That costs a walk down that asks nothing, and one ask, which the bound of a search leaves room for. So inserts in
//! falling order ask once each, however many indexes there are. If what is sought doesn't go before all indexes, the
//! search goes on at the root.
ghost use Rattle.std.specs.Prelude.{◌≡◌, ◌↔◌, ℕ, ◌+◌, ◌<◌, ◌≤◌, Err, IfSome, IsSome, length, slice_index};
ghost use Rattle.std.specs.declared.cmp.Ordering.{Ordering};
ghost use Rattle.iddqd_order.specs.Asks.{AsksWithin};
ghost use Rattle.iddqd_order.specs.Cursor.{IsBehind};
ghost use Rattle.iddqd_order.specs.Descent.{Descends};
ghost use Rattle.iddqd_order.specs.Node.{row, flat, IsFormed, IsFullBelow};
ghost use Rattle.iddqd_order.specs.Search.{Askable, CanSearch, IsSteady, with_ties};
ghost use Rattle.iddqd_order.specs.Shape.{most_levels};

use crate::btree_table::asking::Asking;
use crate::btree_table::descent::full_from;
use crate::btree_table::node::Node;
use crate::btree_table::path::Path;
use crate::btree_table::reading::Reads;
use crate::btree_table::search::compare;
use iddqd::item_index::ItemIndex;
use std::cmp::Ordering;

/// Where a search starts.
#[derive(Clone, Copy)]
pub(super) enum Start {
    /// At the root.
    Root,
    /// At the gap before all indexes, and then at the root.
    Front,
}

impl Start {
    // Where the next insert's search starts, after an insert at the gap of this path. The lowest two places of a path
    // to the gap before all indexes are 0. The front is a guess, since other paths begin like this too, and a wrong
    // guess costs one ask. To look at all twelve places took thirty instructions.
    pub(super) fn after(path: &Path) -> Start
        ensures { result ≡ Start.Front ↔ (slice_index path.now 0 ≡ 0) × (slice_index path.now 1 ≡ 0) }
    {
        if path.get(0) == 0 && path.get(1) == 0 {
            Start::Front
        } else {
            Start::Root
        }
    }
}

impl Node {
    // The first index below this node, and how many nodes at the lower end of the leftmost path are full. `full` is
    // what `full_from` gave for the nodes above this one.
    fn front(&self, level: usize, full: usize) -> (ItemIndex, usize)
        requires formed { IsFormed level self.now }
        requires some { 1 ≤ length (row self.now) }
        requires above { level < full }
        ensures first { IsBehind (flat level self.now) 0 result.0 }
        ensures full { (path : _) → ((l : ℕ) → l ≤ level → slice_index path l ≡ 0) →
            IsFullBelow result.1 level self.now path × (level < result.1 → result.1 ≡ full) }
    {
        let here = full_from(&self.row, level, full);
        if level == 0 {
            return (self.row.get(0), here);
        }
        self.children[0].front(level - 1, here)
    }

    // Tries the gap before all indexes, if the search starts at the front. If what is sought goes there, it returns how
    // many nodes at the lower end of the leftmost path are full. It asks once, or not at all if the search starts at
    // the root.
    pub(super) fn try_front<R, F: FnMut(ItemIndex) -> R, H: Reads<R>>(
        &self,
        start: Start,
        height: usize,
        asking: &mut Asking<F>,
        how: &H,
        sought: &Option<ItemIndex>,
        path: &Path,
    ) -> Option<usize>
        requires formed { IsFormed height self.now }
        requires levels { height < most_levels }
        requires some { 1 ≤ length (row self.now) }
        requires first { (l : ℕ) → slice_index path.now l ≡ 0 }
        requires can_search { CanSearch F.FnMut (flat height self.now) sought.now asking.old }
        ensures asked { AsksWithin F.FnMut (Askable (flat height self.now) sought.now) 1 asking.old asking.new }
        ensures unasked { start ≡ Start.Root → asking.new ≡ asking.old }
        ensures front { IfSome result (λ full. Descends F.FnMut (H.reading how.now) sought.now 1 (height + 1)
            height self.now asking.old path.now (Err full) asking.new) }
        ensures found { start ≡ Start.Front → (answer : ℕ → Ordering) →
            IsSteady F.FnMut (flat height self.now) sought.now (H.reading how.now) answer asking.old →
            with_ties sought.now answer (slice_index (flat height self.now) 0) ≡ Ordering.Less → IsSome result }
    {
        match start {
            Start::Root => None,
            Start::Front => {
                let (first, full) = self.front(height, height + 1);
                match compare(asking, how, sought, first) {
                    Ordering::Less => Some(full),
                    _ => None,
                }
            }
        }
    }
}
