//! The indexes that a closure keeps, gathered in place.
//!
//! The closure is asked about an index before another one is written in its place. Then the last indexes are
//! removed, one by one. The closure is passed by reference, so that contracts can name its last state: it isn't
//! called again after the last index.
//!
//! It could read from a copy of each leaf, and leave all indexes before the first dropped one as they are. That
//! would take 0.85 of the time if half of the indexes stay, and 0.25 if all do, but isn't done.
ghost use Rattle.std.specs.Prelude.{◌≡◌, ℕ, ◌+◌, ◌-◌, ◌<◌, ◌≤◌, length, take, Contains};
ghost use Rattle.iddqd_order.specs.Asks.{CanAsk};
ghost use Rattle.iddqd_order.specs.Node.{row, flat, inners, IsFormed};
ghost use Rattle.iddqd_order.specs.Retain.{RetainsTo};
ghost use Rattle.iddqd_order.specs.Shape.{most_levels};
ghost use Rattle.iddqd_order.specs.Tree.{in_order, inners_in, IsTree};

use crate::btree_table::node::Node;
use crate::btree_table::removal::drop_empty_root;
use crate::btree_table::reserve::Reserve;
use crate::btree_table::spot_cursor::SpotCursor;
use iddqd::item_index::ItemIndex;

// Keeps the indexes at which `f` answers true, in their order. Returns the new height and how many indexes are
// kept. It takes no memory.
pub(super) fn retain_in<F: FnMut(ItemIndex) -> bool>(
    root: &mut Option<Node>,
    height: usize,
    len: usize,
    f: &mut F,
    reserve: &mut Reserve,
) -> (usize, usize)
    requires tree { IsTree root.old height }
    requires counted { len ≡ length (in_order root.old height) }
    requires inners { reserve.old.inners ≡ inners_in root.old height }
    requires can_ask { CanAsk F.FnMut (Contains (in_order root.old height)) f.old }
    ensures tree { IsTree root.new result.0 }
    ensures counted { result.1 ≡ length (in_order root.new result.0) }
    ensures inners { reserve.new.inners ≡ inners_in root.new result.0 }
    ensures reserved { reserve.new.reserved ≡ reserve.old.reserved }
    ensures kept { RetainsTo F.FnMut f.old (in_order root.old height) (in_order root.new result.0) f.new }
{
    let mut kept = 0;
    if let Some(node) = root {
        kept = gather(node, height, len, f);
    }
    (cut_off(root, height, len - kept, reserve), kept)
}

// Moves the indexes at which `f` answers true to the front, in their order, and returns how many they are. `f` is
// asked about each index before another one is written in its place.
fn gather<F: FnMut(ItemIndex) -> bool>(
    root: &mut Node,
    height: usize,
    len: usize,
    f: &mut F,
) -> usize
    requires formed { IsFormed height root.old }
    requires some { 1 ≤ length (row root.old) }
    requires levels { height < most_levels }
    requires counted { len ≡ length (flat height root.old) }
    requires can_ask { CanAsk F.FnMut (Contains (flat height root.old)) f.old }
    ensures formed { IsFormed height root.new }
    ensures some { 1 ≤ length (row root.new) }
    ensures counted { length (flat height root.new) ≡ len }
    ensures inners { inners height root.new ≡ inners height root.old }
    ensures within { result ≤ len }
    ensures kept { RetainsTo F.FnMut f.old (flat height root.old) (take result (flat height root.new)) f.new }
{
    let mut from = SpotCursor::first();
    let mut to = SpotCursor::first();
    while from.place < len {
        let ix = from.step(root, height);
        if f(ix) {
            to.replace(root, height, ix);
        }
    }
    to.place
}

// Removes the last `count` indexes, and returns the new height.
fn cut_off(root: &mut Option<Node>, height: usize, count: usize, reserve: &mut Reserve) -> usize
    requires tree { IsTree root.old height }
    requires within { count ≤ length (in_order root.old height) }
    requires inners { reserve.old.inners ≡ inners_in root.old height }
    ensures inners { reserve.new.inners ≡ inners_in root.new result }
    ensures reserved { reserve.new.reserved ≡ reserve.old.reserved }
    ensures tree { IsTree root.new result }
    ensures items { in_order root.new result
        ≡ take (length (in_order root.old height) - count) (in_order root.old height) }
{
    let mut new_height = height;
    for _i in 0..count {
        new_height = take_last(root, new_height, reserve);
    }
    new_height
}

// Removes the last index, and returns the new height. It takes no memory.
fn take_last(root: &mut Option<Node>, height: usize, reserve: &mut Reserve) -> usize
    requires tree { IsTree root.old height }
    requires some { 1 ≤ length (in_order root.old height) }
    requires inners { reserve.old.inners ≡ inners_in root.old height }
    ensures inners { reserve.new.inners ≡ inners_in root.new result }
    ensures reserved { reserve.new.reserved ≡ reserve.old.reserved }
    ensures tree { IsTree root.new result }
    ensures items { in_order root.new result ≡ take (length (in_order root.old height) - 1) (in_order root.old height) }
{
    if let Some(node) = root {
        node.remove_last(height, reserve);
        if node.row.len() > 0 {
            return height;
        }
    }
    drop_empty_root(root, height, reserve)
}
