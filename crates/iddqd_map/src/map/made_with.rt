//! An empty map where only an allocator is given, as `or_default` of std's maps gives one.
use super::Map;
use crate::key_index::Empty;
use std::alloc::Global;
use std::default::{Default, MadeWith};

/// The map of `with_hasher`, with the default value of the hasher. It takes no memory.
impl<T, X: Empty<T, S>, S: Default> MadeWith<Global> for Map<T, X, S> {
    ghost use Rattle.std.specs.Prelude.{◌≡◌};
    ghost use Rattle.iddqd.specs.Store.{slot_limit};
    ghost use Rattle.iddqd_map.specs.Map.{empty_map};

    ghost is_made_with = { λ m. m ≡ empty_map slot_limit };

    fn made_with(alloc: Global) -> Map<T, X, S> {
        Map::with_hasher(alloc, S::default())
    }
}
