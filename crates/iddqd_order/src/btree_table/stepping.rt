//! A search that its caller carries out, a node at a time.
//!
//! The caller reads the row of a node, compares what it seeks with records of its own, and says at which place of the
//! row it goes on. So a table can be searched from where no closure can be passed, as over a boundary to C. Between two
//! calls the caller keeps a [`Descent`]: plain data that borrows no table. Each call checks it against the tree as it
//! is then: one that is stale or made up is refused, or names some node.
//!
//! All indexes below a node stand together in the table's list. The clauses say between which two gaps, and that going
//! down narrows these to what stands between two neighbours in the row. That suffices for
//! [`find_gap_by_steps`](MapBTreeTable::find_gap_by_steps), which is written by the public calls alone.
ghost use Rattle.std.specs.Prelude.{◌≡◌, ◌+◌, ◌*◌, ℕ, ◌<◌, ◌≤◌, length, IfSome, IsNone, None, true, false};
ghost use Rattle.iddqd_order.specs.Digits.{bound, row_asks};
ghost use Rattle.iddqd_order.specs.Gap.{FindsGap, Fits, gap_place};
ghost use Rattle.iddqd_order.specs.MapBTreeTable.{LeadsTo, capacity, order_of, without};
ghost use Rattle.iddqd_order.specs.Node.{IsFormed, IsFullBelow, ReachesGap};
ghost use Rattle.iddqd_order.specs.Search.{CanSearch};
ghost use Rattle.iddqd_order.specs.Shape.{most_levels, most_in_row};
ghost use Rattle.iddqd_order.specs.Stepping.{GoesTo, HasGap, IsAllBetween, IsChildAt, IsNode, StandsBetween, gap_behind, high, low, node_at, node_by, node_level, node_places, row_of};
ghost use Rattle.iddqd_order.specs.Tree.{FullIn, IsTree, ReachesGapIn};

use crate::btree_table::asking::Asking;
use crate::btree_table::descent::full_from;
use crate::btree_table::gap::Gap;
use crate::btree_table::node::Node;
use crate::btree_table::path::Path;
use crate::btree_table::reading::AsOrdering;
use crate::btree_table::search::search;
use crate::btree_table::spot::Spot;
use crate::btree_table::table::MapBTreeTable;
use iddqd::item_index::ItemIndex;
use std::cmp::Ordering;

/// A node of a table, by the path to it from the root. It borrows no table, and may name no node of one.
#[derive(Clone, Copy)]
pub struct Descent {
    pub(super) path: Path,
    pub(super) level: usize,
}

impl Descent {
    /// The node to which a path with these places goes, from the root down to a level. Any numbers are safe.
    ///
    /// Cost: constant.
    pub fn of(places: [u8; 12], level: usize) -> Descent
        ensures { result ≡ node_by places level }
    {
        Descent {
            path: Path::of(places),
            level,
        }
    }

    /// The place that the path takes at each level.
    ///
    /// Cost: constant.
    pub fn places(&self) -> [u8; 12]
        ensures { result ≡ node_places self.now }
    {
        self.path.places()
    }

    /// How many levels lie below the node: none below a leaf.
    ///
    /// Cost: constant.
    pub fn level(&self) -> usize
        ensures { result ≡ node_level self.now }
    {
        self.level
    }
}

#[tactic(auto, unfolding(crate::specs::MapBTreeTable::order_of, crate::specs::MapBTreeTable::capacity))]
impl MapBTreeTable {
    /// The root, where each search begins. All indexes stand below it.
    ///
    /// Cost: constant.
    pub fn enter(&self) -> Descent
        ensures node { IsNode self.now result }
        ensures low { low self.now result ≡ 0 }
        ensures high { high self.now result ≡ length (order_of self.now) }
        ensures asks { row_asks * (node_level result + 1) ≤ bound (length (order_of self.now)) }
        ensures levels { node_level result < most_levels }
    {
        let (_, height) = self.tree();
        Descent {
            path: Path::leftmost(),
            level: height,
        }
    }

    /// The indexes in the row of a node, in order, at most eleven. `None` if and only if the table has no such node.
    ///
    /// Cost: a step for each level above the node.
    pub fn row(&self, node: &Descent) -> Option<&[ItemIndex]>
        ensures node { IfSome result (λ _. IsNode self.now node.now) }
        ensures none { IsNone result → IsNode self.now node.now → ⊥ }
        ensures row { IfSome result (λ row. row.now ≡ row_of self.now node.now) }
        ensures few { IfSome result (λ row. length row.now ≤ most_in_row) }
        ensures stands { IfSome result (λ row. StandsBetween (order_of self.now) row.now
            (low self.now node.now) (high self.now node.now)) }
        ensures leaf { IfSome result (λ row. node_level node.now ≡ 0 → IsAllBetween (order_of self.now) row.now
            (low self.now node.now) (high self.now node.now)) }
        ensures levels { IfSome result (λ _. node_level node.now < most_levels) }
    {
        let (root, height) = self.tree();
        let Some(root) = root else {
            return if node.level == 0 { Some(&[]) } else { None };
        };
        let found = root.node_on(height, &node.path, node.level)?;
        Some(found.row.as_slice())
    }

    /// Goes down from a node into the child at a place of its row. False, and nothing changes, if and only if the table
    /// has no such child: it has no such node, or the node is a leaf, or its row has no such place.
    ///
    /// Cost: a step for each level above the node.
    pub fn down(&self, node: &mut Descent, place: usize) -> bool
        ensures went { result ≡ true → IsChildAt self.now node.old place node.new }
        ensures stayed { result ≡ false → node.new ≡ node.old }
        ensures refused { result ≡ false → IsNode self.now node.old → 0 < node_level node.old →
            place ≤ length (row_of self.now node.old) → ⊥ }
    {
        let Some(row) = self.row(node) else {
            return false;
        };
        if node.level == 0 || place > row.len() {
            return false;
        }
        let _tree = self.tree();
        node.path.set(node.level, place);
        node.level -= 1;
        true
    }

    /// The same as `down`, and the row of the child, by one walk. `None`, and nothing changes, where `down` is false.
    ///
    /// Cost: a step for each level above the child.
    pub fn down_to_row(&self, node: &mut Descent, place: usize) -> Option<&[ItemIndex]>
        ensures went { IfSome result (λ _. IsChildAt self.now node.old place node.new) }
        ensures row { IfSome result (λ row. row.now ≡ row_of self.now node.new) }
        ensures few { IfSome result (λ row. length row.now ≤ most_in_row) }
        ensures stayed { IsNone result → node.new ≡ node.old }
        ensures refused { IsNone result → IsNode self.now node.old → 0 < node_level node.old →
            place ≤ length (row_of self.now node.old) → ⊥ }
    {
        let (root, height) = self.tree();
        let Some(root) = root else {
            return None;
        };
        let above = root.node_on(height, &node.path, node.level)?;
        if node.level == 0 || place > above.row.len() {
            return None;
        }
        let child = &above.children[place];
        node.path.set(node.level, place);
        node.level -= 1;
        Some(child.row.as_slice())
    }

    /// The gap at a place of the row of a leaf, for [`insert_in`](MapBTreeTable::insert_in). `None` if and only if the
    /// table has no such gap.
    ///
    /// Cost: two steps for each level.
    pub fn gap_in(&self, leaf: &Descent, place: usize) -> Option<Gap>
        ensures fits { IfSome result (Fits self.now) }
        ensures place { IfSome result (λ gap. gap_place self.now gap ≡ gap_behind self.now leaf.now place) }
        ensures leaf { IfSome result (λ _. HasGap self.now leaf.now place) }
        ensures within { IfSome result (λ gap. gap_place self.now gap ≤ length (order_of self.now)) }
        ensures none { IsNone result → HasGap self.now leaf.now place → ⊥ }
    {
        let row = self.row(leaf)?;
        if leaf.level > 0 || place > row.len() {
            return None;
        }
        let mut path = leaf.path.copied();
        path.set(0, place);
        let (root, height) = self.tree();
        let full = fullness_in(root, height, &path);
        Some(Gap { path, full })
    }

    /// The same as `find_gap_by`, as a caller carries it out that has no closure: by `enter`, `row`, `down` and
    /// `gap_in`.
    ///
    /// Cost: some steps for each pair of levels.
    /// Asks: at most `4 + 2 * digits(len)` times.
    pub fn find_gap_by_steps<F: FnMut(ItemIndex) -> Ordering>(
        &self,
        asking: &mut Asking<F>,
    ) -> Result<Gap, ItemIndex>
        requires { CanSearch F.FnMut (order_of self.now) None asking.old }
        ensures { FindsGap F.FnMut (λ r. r) self.now asking.old result asking.new }
    {
        let mut node = self.enter();
        loop {
            let Some(row) = self.row(&node) else {
                unreachable!()
            };
            match search(row, asking, &AsOrdering, &None) {
                Ok(hit) => return Err(row[hit]),
                Err(place) => {
                    if node.level() == 0 {
                        return match self.gap_in(&node, place) {
                            Some(gap) => Ok(gap),
                            None => unreachable!(),
                        };
                    }
                    if !self.down(&mut node, place) {
                        unreachable!();
                    }
                }
            }
        }
    }

    // The spot of an index, if it stands at that place of the row of that node.
    fn spot_in(&self, node: &Descent, place: usize, ix: ItemIndex) -> Option<Spot>
        ensures there { LeadsTo self.now ix result }
    {
        let row = self.row(node)?;
        if place >= row.len() {
            return None;
        }
        let _tree = self.tree();
        let mut path = node.path.copied();
        path.set(node.level, place);
        if row[place] == ix {
            return Some(Spot {
                path,
                level: node.level,
            });
        }
        None
    }

    /// Removes the index, if it is stored: at that place of the row of that node, or, if it doesn't stand there, by a
    /// walk along the list. It takes no memory. The others keep their order.
    ///
    /// Cost: some steps for each level; if the hint is wrong, a step for each index.
    pub fn remove_hinted(&mut self, ix: ItemIndex, node: &Descent, place: usize)
        ensures removed { order_of self.new ≡ without (order_of self.old) ix }
        ensures memory { capacity self.new ≡ capacity self.old }
    {
        let spot = self.spot_in(node, place, ix);
        if !self.remove_found(ix, &spot) {
            self.remove_exact(ix);
        }
    }
}

// How many nodes at the lower end of a path to a gap are full.
fn fullness_in(root: &Option<Node>, height: usize, path: &Path) -> usize
    requires tree { IsTree root.now height }
    requires goes { ReachesGapIn root.now height path.now }
    ensures full { FullIn result root.now height path.now }
    ensures levels { result ≤ height + 1 }
{
    match root {
        None => 0,
        Some(root) => root.fullness(height, path, height + 1),
    }
}

impl Node {
    // The node to which a path goes at a level, if it goes to one.
    fn node_on(&self, height: usize, path: &Path, level: usize) -> Option<&Node>
        requires formed { IsFormed height self.now }
        requires levels { height < most_levels }
        ensures goes { IfSome result (λ _. GoesTo level height self.now path.now) }
        ensures node { IfSome result (λ n. n.now ≡ node_at level height self.now path.now) }
        ensures formed { IfSome result (λ n. IsFormed level n.now) }
        ensures none { IsNone result → GoesTo level height self.now path.now → ⊥ }
    {
        if level > height {
            return None;
        }
        if level == height {
            return Some(self);
        }
        let place = path.get(height);
        if place >= self.children.len() {
            return None;
        }
        self.children[place].node_on(height - 1, path, level)
    }

    // How many nodes at the lower end of a path to a gap are full. If all are, it is `full`.
    fn fullness(&self, height: usize, path: &Path, full: usize) -> usize
        requires formed { IsFormed height self.now }
        requires levels { height < most_levels }
        requires goes { ReachesGap height self.now path.now }
        requires above { height < full }
        ensures full { IsFullBelow result height self.now path.now }
        ensures all { height < result → result ≡ full }
    {
        let full = full_from(&self.row, height, full);
        if height == 0 {
            return full;
        }
        let place = path.get(height);
        self.children[place].fullness(height - 1, path, full)
    }
}
