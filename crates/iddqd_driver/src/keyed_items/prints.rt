//! How a collection prints: as a map of its items by their indexes.
use super::KeyedItems;
use crate::keyed_item::KeyedItem;
use std::fmt;
use std::hash::BuildHasher;

/// It prints as a map of the items by their indexes, by rising index.
impl<T: KeyedItem + fmt::Debug, S: BuildHasher> fmt::Debug for KeyedItems<T, S> {
    fn fmt<W: fmt::Write>(&self, f: &mut fmt::Formatter<W>) -> fmt::Result {
        let mut out = f.debug_map();
        for (ix, item) in self.iter() {
            out.entry(&ix, item);
        }
        out.finish()
    }
}
