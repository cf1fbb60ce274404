//! New names for the indexes of a tree, each in its place.
ghost use Rattle.std.specs.Prelude.{◌≡◌, ◌≤◌, ℕ, length, map, All, vec_capacity};
ghost use Rattle.iddqd.specs.Compaction.{CanRemap, remapped};
ghost use Rattle.iddqd_order.specs.Node.{row, flat, inners, IsFormed};
ghost use Rattle.iddqd_order.specs.Tree.{in_order, inners_in, IsTree};

use crate::btree_table::node::Node;
use crate::btree_table::row::Row;
use iddqd::index_remap::IndexRemap;

// Gives each index its new name in its place. It takes no memory.
pub(super) fn rename_in(root: &mut Option<Node>, height: usize, remap: &IndexRemap)
    requires tree { IsTree root.old height }
    requires can_remap { All (CanRemap remap.now) (in_order root.old height) }
    ensures tree { IsTree root.new height }
    ensures items { in_order root.new height ≡ map (remapped remap.now) (in_order root.old height) }
    ensures inners { inners_in root.new height ≡ inners_in root.old height }
{
    if let Some(node) = root {
        node.rename(height, remap);
    }
}

impl Node {
    // Gives each index in this node and below it its new name.
    fn rename(&mut self, height: usize, remap: &IndexRemap)
        requires formed { IsFormed height self.old }
        requires can_remap { All (CanRemap remap.now) (flat height self.old) }
        ensures formed { IsFormed height self.new }
        ensures same_length { length (row self.new) ≡ length (row self.old) }
        ensures items { flat height self.new ≡ map (remapped remap.now) (flat height self.old) }
        ensures inners { inners height self.new ≡ inners height self.old }
    {
        rename_row(&mut self.row, remap);
        if height == 0 {
            return;
        }
        for i in 0..self.children.len() {
            self.children[i].rename(height - 1, remap);
        }
    }
}

// Gives each index of a row its new name.
fn rename_row(row: &mut Row, remap: &IndexRemap)
    requires { All (CanRemap remap.now) row.old }
    ensures { row.new ≡ map (remapped remap.now) row.old }
{
    for i in 0..row.len() {
        row.set(i, remap.remap(row.get(i)));
    }
}
