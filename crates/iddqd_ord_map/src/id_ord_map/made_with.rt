//! An empty map where only an allocator is given, as `or_default` of std's maps gives one.
use super::OrdMapBy;
use iddqd_keys::order_key::OrdKey;
use std::alloc::Global;
use std::default::MadeWith;

/// The map of `new`. It takes no memory.
impl<T: Drop, E: OrdKey<T>> MadeWith<Global> for OrdMapBy<T, E> {
    ghost use Rattle.std.specs.Prelude.{◌≡◌};
    ghost use Rattle.iddqd.specs.Store.{slot_limit};
    ghost use Rattle.iddqd_map.specs.Map.{empty_map};

    ghost is_made_with = { λ m. m ≡ empty_map slot_limit };

    fn made_with(alloc: Global) -> OrdMapBy<T, E> {
        OrdMapBy::new(alloc)
    }
}
