//! Removal from a node, which takes no memory.
//!
//! It repairs nodes on the way back up: a child left with four indexes takes one from a neighbour, or is merged
//! with it. A descent without this repair, for leaves that stay large enough, saved 1 % of a random removal, so
//! there is none.
//!
//! If two inner nodes are merged, the block of the second goes to the reserve.
//!
//! If the next index is wanted, the path then goes on to the gap where the index stood. Mending keeps the gaps of a
//! node's children in their order, so that gap is counted through before it, and looked for after it. A removal from an
//! `IdOrdMap` of 1,000 items, which needs none of that, would take 4 % more instructions with it.
//!
//! It is one file, since nodes are mended after removals alone.
ghost use Rattle.std.specs.Prelude.{◌≡◌, ◌↔◌, ℕ, Bool, true, false, List, ◌+◌, ◌-◌, ◌<◌, ◌≤◌, [], ◌∷◌, ◌++◌, length, slice_index, slice_index_or, option_to_list, vec_capacity, IsSome, min};
ghost use Rattle.std.specs.List.{remove};
ghost use Rattle.iddqd_order.specs.Shape.{most_in_row, least_in_row, most_children, most_levels};
ghost use Rattle.iddqd_order.specs.declared.btree_table.node.Node.{Node};
ghost use Rattle.iddqd_order.specs.Node.{row, children, child_room, row as row_of, flat, inners, place, IsFormed, ReachesGap, ReachesIndex, place_at_level};
ghost use Rattle.iddqd_order.specs.Removal.{MayLackOne, IsMended, IsEmptied, LeadsBelow, gaps_before, inners_of, place_below, Recounts};
ghost use Rattle.iddqd_order.specs.Tree.{in_order, inners_in, place_in, IsTree, ReachesGapIn, ReachesIndexIn, place_at_level_in};

use crate::btree_table::node::Node;
use crate::btree_table::path::Path;
use crate::btree_table::reserve::Reserve;
use crate::btree_table::row::{LEAST, Row};
use iddqd::item_index::ItemIndex;

// Where the path of a removal goes on to. If it is nowhere, the path goes to no place that means anything.
pub(super) trait GoesOn {
    // It goes on to the gap where the index stood; else nowhere.
    ghost to_gap: { Bool };

    // Mends the i-th child of a node at level `height` if it has one index too few. If the path goes to a gap, it goes
    // on to the same.
    fn mend(
        row: &mut Row,
        children: &mut Vec<Node>,
        i: usize,
        height: usize,
        path: &mut Path,
        reserve: &mut Reserve,
    )
        requires inner { 0 < height }
        requires levels { height < most_levels }
        requires lacks { MayLackOne (height - 1) i row.old children.old.items }
        requires some { 1 ≤ reserve.old.inners }
        requires leads { to_gap ≡ true → LeadsBelow height children.old.items path.old }
        requires path { length path.old ≡ most_levels }
        ensures mended { IsMended (height - 1) row.old children.old.items row.new children.new.items }
        ensures counted { Recounts reserve.old reserve.new (inners_of (height - 1) children.old.items)
            (inners_of (height - 1) children.new.items) }
        ensures capacity { vec_capacity children.new ≡ vec_capacity children.old }
        ensures leads { to_gap ≡ true → LeadsBelow height children.new.items path.new }
        ensures place { to_gap ≡ true → (d e : Node) → place_below height row.new children.new.items d path.new
            ≡ place_below height row.old children.old.items e path.old }
        ensures path { length path.new ≡ most_levels }
        ensures above { (m : ℕ) → height < m → slice_index path.new m ≡ slice_index path.old m };
}

// The next index is wanted: the path goes on to the gap.
pub(super) enum ToGap {}

impl GoesOn for ToGap {
    ghost to_gap = { true };

    fn mend(
        row: &mut Row,
        children: &mut Vec<Node>,
        i: usize,
        height: usize,
        path: &mut Path,
        reserve: &mut Reserve,
    ) {
        mend_along(row, children, i, height, path, reserve);
    }
}

// No next index is wanted.
pub(super) enum Nowhere {}

impl GoesOn for Nowhere {
    ghost to_gap = { false };

    fn mend(
        row: &mut Row,
        children: &mut Vec<Node>,
        i: usize,
        _height: usize,
        _path: &mut Path,
        reserve: &mut Reserve,
    ) {
        mend(row, children, i, reserve);
    }
}

// Removes the index to which the path goes at the level, and sends the path on as `G` says. Returns the index and the
// new height. It takes no memory.
pub(super) fn remove_in<G: GoesOn>(
    root: &mut Option<Node>,
    height: usize,
    path: &mut Path,
    level: usize,
    reserve: &mut Reserve,
) -> (ItemIndex, usize)
    requires tree { IsTree root.old height }
    requires holds { ReachesIndexIn level root.old height path.old }
    requires path { length path.old ≡ most_levels }
    requires inners { reserve.old.inners ≡ inners_in root.old height }
    ensures index { result.0
        ≡ slice_index (in_order root.old height) (place_at_level_in level root.old height path.old) }
    ensures goes { G.to_gap ≡ true → ReachesGapIn root.new result.1 path.new }
    ensures place { G.to_gap ≡ true →
        place_in root.new result.1 path.new ≡ place_at_level_in level root.old height path.old }
    ensures path { length path.new ≡ most_levels }
    ensures inners { reserve.new.inners ≡ inners_in root.new result.1 }
    ensures reserved { reserve.new.reserved ≡ reserve.old.reserved }
    ensures no_higher { result.1 ≤ height }
    ensures tree { IsTree root.new result.1 }
    ensures items { in_order root.new result.1
        ≡ remove (in_order root.old height) (place_at_level_in level root.old height path.old) }
{
    let Some(node) = root else { unreachable!() };
    let removed = node.remove::<G>(height, path, level, reserve);
    if node.row.len() > 0 {
        return (removed, height);
    }
    (removed, drop_empty_root(root, height, reserve))
}

// Drops a root without indexes, and returns the new height. The root's only child, if there is one, becomes the root,
// and the old root's block goes to the reserve. A path to a gap still goes there.
pub(super) fn drop_empty_root(
    root: &mut Option<Node>,
    height: usize,
    reserve: &mut Reserve,
) -> usize
    requires emptied { IsEmptied root.old height }
    requires inners { reserve.old.inners ≡ inners_in root.old height }
    ensures inners { reserve.new.inners ≡ inners_in root.new result }
    ensures reserved { reserve.new.reserved ≡ reserve.old.reserved }
    ensures no_higher { result ≤ height }
    ensures tree { IsTree root.new result }
    ensures items { in_order root.new result ≡ in_order root.old height }
    ensures goes { (p : List ℕ) → ReachesGapIn root.old height p → ReachesGapIn root.new result p }
    ensures places { (p : List ℕ) → ReachesGapIn root.old height p →
        place_in root.new result p ≡ place_in root.old height p }
{
    let Some(Node { mut children, .. }) = root.take() else {
        return height;
    };
    let Some(child) = children.pop() else {
        return 0;
    };
    *root = Some(child);
    reserve.put_back(children);
    height.saturating_sub(1)
}

impl Node {
    // Removes the index to which the path goes at the level, sends the path on as `G` says, and returns the index. This
    // node may then hold one index fewer.
    pub(super) fn remove<G: GoesOn>(
        &mut self,
        height: usize,
        path: &mut Path,
        level: usize,
        reserve: &mut Reserve,
    ) -> ItemIndex
        requires levels { height < most_levels }
        requires some { 1 ≤ length (row self.old) }
        requires formed { IsFormed height self.old }
        requires holds { ReachesIndex level height self.old path.old }
        requires path { length path.old ≡ most_levels }
        requires counted { inners height self.old ≤ reserve.old.inners }
        ensures index { result ≡ slice_index (flat height self.old) (place_at_level level height self.old path.old) }
        ensures counted { Recounts reserve.old reserve.new (inners height self.old) (inners height self.new) }
        ensures items { flat height self.new
            ≡ remove (flat height self.old) (place_at_level level height self.old path.old) }
        ensures formed { IsFormed height self.new }
        ensures fewer { length (row self.old) ≤ length (row self.new) + 1 }
        ensures goes { G.to_gap ≡ true → ReachesGap height self.new path.new }
        ensures place { G.to_gap ≡ true →
            place height self.new path.new ≡ place_at_level level height self.old path.old }
        ensures path { length path.new ≡ most_levels }
        ensures above { (m : ℕ) → height < m → slice_index path.new m ≡ slice_index path.old m }
    {
        let i = path.get(height);
        if height == 0 {
            return self.row.remove(i);
        }
        let removed = if height == level {
            let here = self.row.get(i);
            let last = self.children[i].remove_last(height - 1, reserve);
            self.row.set(i, last);
            path.set_and_zero_below(height, i + 1);
            here
        } else {
            self.children[i].remove::<G>(height - 1, path, level, reserve)
        };
        G::mend(&mut self.row, &mut self.children, i, height, path, reserve);
        removed
    }

    // Removes the last index below this node, and returns it. This node may then hold one index fewer.
    pub(super) fn remove_last(&mut self, height: usize, reserve: &mut Reserve) -> ItemIndex
        requires some { 1 ≤ length (row self.old) }
        requires formed { IsFormed height self.old }
        requires counted { inners height self.old ≤ reserve.old.inners }
        ensures counted { Recounts reserve.old reserve.new (inners height self.old) (inners height self.new) }
        ensures items { flat height self.old ≡ flat height self.new ++ result ∷ [] }
        ensures formed { IsFormed height self.new }
        ensures fewer { length (row self.old) ≤ length (row self.new) + 1 }
    {
        let count = self.row.len();
        if height == 0 {
            return self.row.remove(count - 1);
        }
        let last = self.children[count].remove_last(height - 1, reserve);
        mend(&mut self.row, &mut self.children, count, reserve);
        last
    }

    // Removes the last index, and the last child if there is one, and returns them.
    fn take_last(&mut self) -> (ItemIndex, Option<Node>)
        requires { 0 < length (row self.old) }
        ensures row { row self.old ≡ row self.new ++ result.0 ∷ [] }
        ensures children { children self.old ≡ children self.new ++ option_to_list result.1 }
        ensures child { IsSome result.1 ↔ (0 < length (children self.old)) }
        ensures room { child_room self.new ≡ child_room self.old }
    {
        let last = self.row.len() - 1;
        let ix = self.row.remove(last);
        (ix, self.children.pop())
    }

    // Removes the first index, and the first child if there is one, and returns them.
    fn take_first(&mut self) -> (ItemIndex, Option<Node>)
        requires { 0 < length (row self.old) }
        ensures row { row self.old ≡ result.0 ∷ row self.new }
        ensures children { children self.old ≡ option_to_list result.1 ++ children self.new }
        ensures child { IsSome result.1 ↔ (0 < length (children self.old)) }
        ensures room { child_room self.new ≡ child_room self.old }
    {
        let ix = self.row.remove(0);
        if self.children.is_empty() {
            return (ix, None);
        }
        (ix, Some(self.children.remove(0)))
    }

    // Puts an index, and a child if there is one, before the others.
    fn put_first(&mut self, ix: ItemIndex, child: Option<Node>)
        requires fits { length (row self.old) < most_in_row }
        requires room { length (option_to_list child) + length (children self.old) ≤ child_room self.old }
        ensures row { row self.new ≡ ix ∷ row self.old }
        ensures children { children self.new ≡ option_to_list child ++ children self.old }
        ensures room { child_room self.old ≤ child_room self.new }
    {
        self.row.insert(0, ix);
        if let Some(child) = child {
            let _ = self.children.insert(0, child);
        }
    }

    // Puts an index, and a child if there is one, after the others.
    fn put_last(&mut self, ix: ItemIndex, child: Option<Node>)
        requires fits { length (row self.old) < most_in_row }
        requires room { length (option_to_list child) + length (children self.old) ≤ child_room self.old }
        ensures row { row self.new ≡ row self.old ++ ix ∷ [] }
        ensures children { children self.new ≡ children self.old ++ option_to_list child }
        ensures room { child_room self.old ≤ child_room self.new }
    {
        self.row.push(ix);
        if let Some(child) = child {
            let _ = self.children.push(child);
        }
    }

    // Appends an index and then all of another node. If that node has children, its block goes to the reserve.
    fn join(&mut self, middle: ItemIndex, other: Node, reserve: &mut Reserve)
        requires fits { length (row self.old) + length (row other) < most_in_row }
        requires room { length (children self.old) + length (children other) ≤ child_room self.old }
        requires block { 0 < length (children other) → most_children ≤ child_room other }
        requires some { 1 ≤ reserve.old.inners }
        ensures row { row self.new ≡ row self.old ++ middle ∷ row other }
        ensures children { children self.new ≡ children self.old ++ children other }
        ensures room { child_room self.old ≤ child_room self.new }
        ensures given { reserve.new.inners + min 1 (length (children other)) ≡ reserve.old.inners }
        ensures reserved { reserve.new.reserved ≡ reserve.old.reserved }
    {
        let Node { row, mut children } = other;
        self.row.push(middle);
        self.row.append(&row);
        if children.is_empty() {
            return;
        }
        let _ = self.children.append(&mut children);
        reserve.put_back(children);
    }
}

// Mends the i-th child of a node at level `height`, as `mend` does. The path goes on to the same gap.
fn mend_along(
    row: &mut Row,
    children: &mut Vec<Node>,
    i: usize,
    height: usize,
    path: &mut Path,
    reserve: &mut Reserve,
)
    requires inner { 0 < height }
    requires levels { height < most_levels }
    requires lacks { MayLackOne (height - 1) i row.old children.old.items }
    requires some { 1 ≤ reserve.old.inners }
    requires leads { LeadsBelow height children.old.items path.old }
    requires path { length path.old ≡ most_levels }
    ensures mended { IsMended (height - 1) row.old children.old.items row.new children.new.items }
    ensures counted { Recounts reserve.old reserve.new (inners_of (height - 1) children.old.items)
        (inners_of (height - 1) children.new.items) }
    ensures capacity { vec_capacity children.new ≡ vec_capacity children.old }
    ensures leads { LeadsBelow height children.new.items path.new }
    ensures place { (d e : Node) → place_below height row.new children.new.items d path.new
        ≡ place_below height row.old children.old.items e path.old }
    ensures path { length path.new ≡ most_levels }
    ensures above { (m : ℕ) → height < m → slice_index path.new m ≡ slice_index path.old m }
{
    if children[i].row.len() >= LEAST {
        return;
    }
    let gap = number_of_gap(children.as_slice(), path.get(height), path.get(height - 1));
    fill_up(row, children, i, reserve);
    let (at, place) = gap_of_number(children.as_slice(), gap);
    path.set(height, at);
    path.set(height - 1, place);
}

// The number of the gap `place` of the child `at`, if the gaps of all children are counted through.
fn number_of_gap(children: &[Node], at: usize, place: usize) -> usize
    requires at { at ≤ most_in_row }
    requires within { at ≤ length children.now }
    requires few { (j : ℕ) → (d : Node) → j < at → length (row (slice_index_or children.now j d)) ≤ most_in_row }
    requires place { place ≤ most_in_row }
    ensures { result ≡ gaps_before at children.now + place }
{
    let mut gaps = place;
    for i in 0..at {
        gaps += children[i].row.len() + 1;
    }
    gaps
}

// The child and the place of the gap that has a number.
fn gap_of_number(children: &[Node], number: usize) -> (usize, usize)
    requires { number < gaps_before (length children.now) children.now }
    ensures within { result.0 < length children.now }
    ensures place { (d : Node) → result.1 ≤ length (row (slice_index_or children.now result.0 d)) }
    ensures number { gaps_before result.0 children.now + result.1 ≡ number }
{
    let mut place = number;
    let mut at = 0;
    while place > children[at].row.len() {
        place -= children[at].row.len() + 1;
        at += 1;
    }
    (at, place)
}

// Mends the i-th child if it has one index too few.
fn mend(row: &mut Row, children: &mut Vec<Node>, i: usize, reserve: &mut Reserve)
    requires lacks { (h : ℕ) × MayLackOne h i row.old children.old.items }
    requires some { 1 ≤ reserve.old.inners }
    ensures mended { (h : ℕ) → MayLackOne h i row.old children.old.items →
        IsMended h row.old children.old.items row.new children.new.items }
    ensures counted { (h : ℕ) → MayLackOne h i row.old children.old.items →
        Recounts reserve.old reserve.new (inners_of h children.old.items) (inners_of h children.new.items) }
    ensures capacity { vec_capacity children.new ≡ vec_capacity children.old }
{
    if children[i].row.len() < LEAST {
        fill_up(row, children, i, reserve);
    }
}

// The i-th child has one index too few. Gives it an index from a child beside it, or merges the two.
#[inline(never)]
fn fill_up(row: &mut Row, children: &mut Vec<Node>, i: usize, reserve: &mut Reserve)
    requires lacks { (h : ℕ) × MayLackOne h i row.old children.old.items }
    requires too_few { (d : Node) → length (row_of (slice_index_or children.old.items i d)) < least_in_row }
    requires some { 1 ≤ reserve.old.inners }
    ensures mended { (h : ℕ) → MayLackOne h i row.old children.old.items →
        IsMended h row.old children.old.items row.new children.new.items }
    ensures counted { (h : ℕ) → MayLackOne h i row.old children.old.items →
        Recounts reserve.old reserve.new (inners_of h children.old.items) (inners_of h children.new.items) }
    ensures capacity { vec_capacity children.new ≡ vec_capacity children.old }
{
    if i > 0 {
        if children[i - 1].row.len() > LEAST {
            borrow_left(row, children, i - 1);
        } else {
            merge(row, children, i - 1, reserve);
        }
    } else if children[1].row.len() > LEAST {
        borrow_right(row, children, 0);
    } else {
        merge(row, children, 0, reserve);
    }
}

// Child `left + 1` has one index too few. Moves the index before that child down into it, and the last index of child
// `left` up.
fn borrow_left(row: &mut Row, children: &mut Vec<Node>, left: usize)
    requires lacks { (h : ℕ) × MayLackOne h (left + 1) row.old children.old.items }
    requires more { (d : Node) → least_in_row < length (row_of (slice_index_or children.old.items left d)) }
    requires too_few { (d : Node) → length (row_of (slice_index_or children.old.items (left + 1) d)) < least_in_row }
    ensures mended { (h : ℕ) → MayLackOne h (left + 1) row.old children.old.items →
        IsMended h row.old children.old.items row.new children.new.items }
    ensures inners { (h : ℕ) → inners_of h children.new.items ≡ inners_of h children.old.items }
    ensures capacity { vec_capacity children.new ≡ vec_capacity children.old }
{
    let (last, moved) = children[left].take_last();
    let middle = row.get(left);
    row.set(left, last);
    children[left + 1].put_first(middle, moved);
}

// Child `left` has one index too few. Moves the index after that child down into it, and the first index of child
// `left + 1` up.
fn borrow_right(row: &mut Row, children: &mut Vec<Node>, left: usize)
    requires lacks { (h : ℕ) × MayLackOne h left row.old children.old.items }
    requires within { left < length row.old }
    requires more { (d : Node) → least_in_row < length (row_of (slice_index_or children.old.items (left + 1) d)) }
    requires too_few { (d : Node) → length (row_of (slice_index_or children.old.items left d)) < least_in_row }
    ensures mended { (h : ℕ) → MayLackOne h left row.old children.old.items →
        IsMended h row.old children.old.items row.new children.new.items }
    ensures inners { (h : ℕ) → inners_of h children.new.items ≡ inners_of h children.old.items }
    ensures capacity { vec_capacity children.new ≡ vec_capacity children.old }
{
    let (first, moved) = children[left + 1].take_first();
    let middle = row.get(left);
    row.set(left, first);
    children[left].put_last(middle, moved);
}

// Merges child `left`, the index after it and the next child into one child.
fn merge(row: &mut Row, children: &mut Vec<Node>, left: usize, reserve: &mut Reserve)
    requires lacks { (h : ℕ) × ((i : ℕ) × ((left ≤ i) × ((i ≤ left + 1) × MayLackOne h i row.old children.old.items))) }
    requires within { left < length row.old }
    requires few { (d : Node) → length (row_of (slice_index_or children.old.items left d))
        + length (row_of (slice_index_or children.old.items (left + 1) d)) < most_in_row }
    requires some { 1 ≤ reserve.old.inners }
    ensures mended { (h i : ℕ) → left ≤ i → i ≤ left + 1 → MayLackOne h i row.old children.old.items →
        IsMended h row.old children.old.items row.new children.new.items }
    ensures counted { (h i : ℕ) → left ≤ i → i ≤ left + 1 → MayLackOne h i row.old children.old.items →
        Recounts reserve.old reserve.new (inners_of h children.old.items) (inners_of h children.new.items) }
    ensures capacity { vec_capacity children.new ≡ vec_capacity children.old }
{
    let middle = row.remove(left);
    let other = children.remove(left + 1);
    children[left].join(middle, other, reserve);
}
