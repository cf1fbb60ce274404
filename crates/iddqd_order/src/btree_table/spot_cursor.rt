//! A cursor that stands at an index, and steps from one index to the next.
//!
//! It holds no reference, so the tree may change its indexes between two steps.
ghost use Rattle.std.specs.Prelude.{◌≡◌, ℕ, ◌+◌, ◌<◌, ◌≤◌, length, [], slice_index, slice_set, Some, None};
ghost use Rattle.iddqd_order.specs.Node.{row, flat, inners, IsFormed, ReachesIndex, place_at_level};
ghost use Rattle.iddqd_order.specs.Shape.{most_levels};
ghost use Rattle.iddqd_order.specs.SpotCursor.{IsSpotCursor, StepsToNext, SamePlaces};

use crate::btree_table::node::Node;
use crate::btree_table::path::Path;
use crate::btree_table::row::Row;
use crate::btree_table::spot::Spot;
use iddqd::item_index::ItemIndex;

// Where an index is stored, and its place in the whole list.
#[derive(Clone, Copy)]
pub(super) struct SpotCursor {
    pub(super) spot: Spot,
    pub(super) place: usize,
}

impl SpotCursor {
    // A cursor at the first index.
    pub(super) fn first() -> SpotCursor
        ensures path { length result.spot.path ≡ most_levels }
        ensures places { (l : ℕ) → slice_index result.spot.path l ≡ 0 }
        ensures level { result.spot.level ≡ 0 }
        ensures place { result.place ≡ 0 }
    {
        SpotCursor {
            spot: Spot {
                path: Path::leftmost(),
                level: 0,
            },
            place: 0,
        }
    }

    // Returns the index at which the cursor stands, and moves the cursor to the next one.
    pub(super) fn step(&mut self, root: &Node, height: usize) -> ItemIndex
        requires formed { IsFormed height root.now }
        requires levels { height < most_levels }
        requires stands { IsSpotCursor height root.now self.old }
        requires more { self.old.place < length (flat height root.now) }
        requires few { length (flat height root.now) ≤ usize.MAX }
        ensures index { result ≡ slice_index (flat height root.now) self.old.place }
        ensures stands { IsSpotCursor height root.now self.new }
        ensures place { self.new.place ≡ self.old.place + 1 }
    {
        let (ix, next) = root.step(height, &mut self.spot.path, self.spot.level);
        self.spot.level = next.unwrap_or(0);
        self.place += 1;
        ix
    }

    // Replaces the index at which the cursor stands, and moves the cursor to the next one.
    pub(super) fn replace(&mut self, root: &mut Node, height: usize, ix: ItemIndex)
        requires formed { IsFormed height root.old }
        requires levels { height < most_levels }
        requires stands { IsSpotCursor height root.old self.old }
        requires more { self.old.place < length (flat height root.old) }
        requires few { length (flat height root.old) ≤ usize.MAX }
        ensures items { flat height root.new ≡ slice_set (flat height root.old) self.old.place ix }
        ensures formed { IsFormed height root.new }
        ensures same_length { length (row root.new) ≡ length (row root.old) }
        ensures inners { inners height root.new ≡ inners height root.old }
        ensures same_places { SamePlaces height root.old root.new }
        ensures stands { IsSpotCursor height root.new self.new }
        ensures place { self.new.place ≡ self.old.place + 1 }
    {
        let here = self.spot;
        self.step(root, height);
        root.replace(height, &here.path, here.level, ix);
    }
}

impl Node {
    // Returns the index to which a path goes at a level, and moves the path to the next index. It also returns the
    // level of that next index. If there is none below this node, it returns None, and the path stays as it is.
    pub(super) fn step(
        &self,
        height: usize,
        path: &mut Path,
        level: usize,
    ) -> (ItemIndex, Option<usize>)
        requires formed { IsFormed height self.now }
        requires levels { height < most_levels }
        requires path { length path.old ≡ most_levels }
        requires holds { ReachesIndex level height self.now path.old }
        ensures index { result.0 ≡ slice_index (flat height self.now) (place_at_level level height self.now path.old) }
        ensures next { StepsToNext height self.now level path.old result.1 path.new }
        ensures path { length path.new ≡ most_levels }
        ensures above { (l : ℕ) → height < l → slice_index path.new l ≡ slice_index path.old l }
        ensures ended { result.1 ≡ None → path.new ≡ path.old }
    {
        let mut next = None;
        let mut node = self;
        let mut at = height;
        while at > level {
            let i = path.get(at);
            next = level_behind(&node.row, i, at, next);
            at -= 1;
            node = &node.children[i];
        }
        let i = path.get(at);
        let ix = node.row.get(i);
        if at > 0 {
            path.set_and_zero_below(at, i + 1);
            return (ix, Some(0));
        }
        if i + 1 < node.row.len() {
            path.set(0, i + 1);
            return (ix, Some(0));
        }
        (ix, next)
    }

    // The index to which a path goes at a level.
    pub(super) fn index_on(&self, height: usize, path: &Path, level: usize) -> ItemIndex
        requires formed { IsFormed height self.now }
        requires levels { height < most_levels }
        requires holds { ReachesIndex level height self.now path.now }
        ensures { result ≡ slice_index (flat height self.now) (place_at_level level height self.now path.now) }
    {
        let i = path.get(height);
        if height > level {
            return self.children[i].index_on(height - 1, path, level);
        }
        self.row.get(i)
    }

    // Replaces the index to which a path goes at a level.
    pub(super) fn replace(&mut self, height: usize, path: &Path, level: usize, ix: ItemIndex)
        requires formed { IsFormed height self.old }
        requires levels { height < most_levels }
        requires holds { ReachesIndex level height self.old path.now }
        ensures items { flat height self.new
            ≡ slice_set (flat height self.old) (place_at_level level height self.old path.now) ix }
        ensures formed { IsFormed height self.new }
        ensures same_length { length (row self.new) ≡ length (row self.old) }
        ensures inners { inners height self.new ≡ inners height self.old }
        ensures same_places { SamePlaces height self.old self.new }
    {
        let i = path.get(height);
        if height > level {
            self.children[i].replace(height - 1, path, level, ix);
            return;
        }
        self.row.set(i, ix);
    }
}

// The level of the index behind the i-th child of a node that has this row and level; if there is none, what was found
// above.
#[inline(always)]
fn level_behind(row: &Row, i: usize, level: usize, above: Option<usize>) -> Option<usize>
    ensures here { i < length row.now → result ≡ Some level }
    ensures above { length row.now ≤ i → result ≡ above }
{
    if i < row.len() { Some(level) } else { above }
}
