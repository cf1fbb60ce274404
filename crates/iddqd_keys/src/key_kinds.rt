//! Types that name a key of an item, and of which no value is made: a field, the one key that the item's trait names, a
//! value that is computed from the item, or another key in the reversed order.
//!
//! A key of several fields is named by a tuple of such types, as `(Field<Name, String>, Field<Version, String>)`.
ghost use Rattle.std.specs.Prelude.{◌≡◌};

use std::marker::PhantomData;

/// The field, a `K`, that `E`, a [`crate::key_of::KeyOf`], borrows from the item.
pub struct Field<E, K> {
    of: PhantomData<E>,
    by: PhantomData<K>,
}

/// The one key, a `K`, that an item's trait names: where it goes by its hash that of an
/// [`crate::id_hash_item::IdHashItem`], in order that of an [`crate::id_ord_item::IdOrdItem`].
pub struct ItsKey<K> {
    by: PhantomData<K>,
}

/// The value, a `K`, that `E`, a [`ComputedKey`], computes from the item.
pub struct Computed<E, K> {
    of: PhantomData<E>,
    by: PhantomData<K>,
}

/// The key `E`, the greatest first.
pub struct Reversed<E> {
    of: PhantomData<E>,
}

/// A key that is computed from the item. Implement it for an enum without variants, as `enum Year {}`.
///
/// It is computed anew each time that it is hashed or compared.
pub trait ComputedKey<T> {
    /// The type of the key.
    type Key: Drop;

    ghost key_of: { T → Self.Key };

    /// Computes the key.
    fn key(item: &T) -> Self::Key
        ensures { result ≡ key_of item.now };
}
