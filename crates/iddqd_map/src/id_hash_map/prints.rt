//! How a map prints: as a map of its items by their keys.
use super::{IdHashItem, IdIndex};
use crate::map::Map;
use std::fmt;
use std::hash::BuildHasher;

/// It prints as a map of the items by their keys, by rising index.
impl<T: IdHashItem + fmt::Debug, S: BuildHasher> fmt::Debug for Map<T, IdIndex<T>, S>
where
    T::Key: fmt::Debug,
{
    fn fmt<W: fmt::Write>(&self, f: &mut fmt::Formatter<W>) -> fmt::Result {
        let mut out = f.debug_map();
        for item in self.values() {
            out.entry(item.key(), item);
        }
        out.finish()
    }
}
