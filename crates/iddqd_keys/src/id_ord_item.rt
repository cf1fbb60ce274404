//! Items with one key that goes by its order, and the queries for it.
//!
//! As in `id_hash_item`, the bounds of the key's type are stated as seldom as can be. The queries state `K: Ord`, since
//! over `T::Key` their impl and that of [`crate::starts_with::StartsWith`] are refused as conflicting.
ghost use Rattle.std.specs.Prelude.{◌≡◌};
ghost use Rattle.iddqd_keys.specs.OrderedQuery.{FitsOrder-query, IsOneKey-query};

use crate::item_order_query::{ItemOrdQuery, ItemRangeQuery};
use crate::key_kinds::ItsKey;
use crate::order_key::OrdKey;
use crate::order_query::OrdQuery;
use std::cmp::Ordering;

/// An item with a key, which is a function of the item's value.
pub trait IdOrdItem: Drop {
    /// The key.
    type Key: Ord;

    ghost key_of: { Self → Self.Key };

    /// The key of the item.
    fn key(&self) -> &Self::Key
        ensures { result.now ≡ key_of self.now };
}

impl<T: IdOrdItem> OrdKey<T> for ItsKey<T::Key> {
    ghost Key = { T.Key };

    ghost key_of = { T.IdOrdItem.key_of };

    ghost cmp = { T.Key.cmp };

    ghost total = { T.Key.total };

    fn compare(item: &T, other: &T) -> Ordering {
        item.key().cmp(other.key())
    }
}

impl<T: IdOrdItem<Key = K>, K: Ord, Q: OrdQuery<K>> ItemRangeQuery<T, ItsKey<K>> for Q {
    ghost compare_item = { λ q x. Q.OrdQuery.compare q (T.IdOrdItem.key_of x) };

    ghost fits = { λ q. FitsOrder-query T.IdOrdItem.key_of K.cmp (Q.OrdQuery.compare q) (Q.lawful q) };

    fn compare_item(&self, item: &T) -> Ordering {
        self.compare(item.key())
    }
}

impl<T: IdOrdItem<Key = K>, K: Ord, Q: OrdQuery<K>> ItemOrdQuery<T, ItsKey<K>> for Q {
    ghost one_key = { λ q. IsOneKey-query T.IdOrdItem.key_of K.cmp (Q.OrdQuery.compare q) (Q.lawful q) };
}
