//! How a map prints: as a map of its items by their keys, which print as a map too.
use super::{TriHashItem, TriIndex};
use crate::map::Map;
use crate::word::Word;
use std::fmt;
use std::hash::BuildHasher;

// The three keys of an item.
#[derive(Drop)]
struct Keys<'a, T: TriHashItem>(&'a T);

impl<'a, T: TriHashItem> fmt::Debug for Keys<'a, T>
where
    T::Key1: fmt::Debug,
    T::Key2: fmt::Debug,
    T::Key3: fmt::Debug,
{
    fn fmt<W: fmt::Write>(&self, f: &mut fmt::Formatter<W>) -> fmt::Result {
        f.debug_map()
            .entry(&Word("k1"), self.0.key1())
            .entry(&Word("k2"), self.0.key2())
            .entry(&Word("k3"), self.0.key3())
            .finish()
    }
}

/// It prints as a map of the items by their keys, by rising index.
impl<T: TriHashItem + fmt::Debug, S: BuildHasher> fmt::Debug for Map<T, TriIndex<T>, S>
where
    T::Key1: fmt::Debug,
    T::Key2: fmt::Debug,
    T::Key3: fmt::Debug,
{
    fn fmt<W: fmt::Write>(&self, f: &mut fmt::Formatter<W>) -> fmt::Result {
        let mut out = f.debug_map();
        for item in self.values() {
            out.entry(&Keys(item), item);
        }
        out.finish()
    }
}
