//! The way to a place in an ordered table, as plain data that may cross to another language.
ghost use Rattle.std.specs.Prelude.{◌≡◌, slice_index};
ghost use Rattle.iddqd_layer.specs.Layer.{descent_of};

use iddqd_order::btree_table::Descent;

/// The way from the root of a table down to a node: the place at each level above it, and its level. In the node itself
/// the place is that of a gap or of an index of its row. Any numbers are safe.
#[repr(C)]
#[derive(Clone, Copy, Debug, Drop)]
pub struct Way {
    /// The place at each level.
    pub places: [u8; 12],
    /// How many levels lie below the node.
    pub level: u32,
}

impl Way {
    /// The node to which it leads.
    ///
    /// Cost: constant.
    pub fn descent(&self) -> Descent
        ensures { result ≡ descent_of self.now }
    {
        Descent::of(self.places, self.level as usize)
    }

    // The place in the row of a leaf.
    pub(crate) fn place(&self) -> usize
        ensures { result ≡ slice_index self.now.places 0 }
    {
        let places = &self.places;
        places[0] as usize
    }

    // The place in the row of its node; 0 if there is no such level.
    pub(crate) fn place_at_level(&self) -> usize {
        let level = self.level as usize;
        if level < 12 {
            let places = &self.places;
            places[level] as usize
        } else {
            0
        }
    }
}
