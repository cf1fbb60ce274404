//! The beginning of a text as a query.
ghost use Rattle.std.specs.Prelude.{◌≡◌};
ghost use Rattle.std.specs.String.{string_bytes};
ghost use Rattle.iddqd_keys.specs.Beginnings.{begin_cmp, FitsOrder-begin};

use crate::id_ord_item::IdOrdItem;
use crate::item_order_query::ItemRangeQuery;
use crate::key_kinds::{Field, ItsKey};
use crate::key_of::KeyOf;
use std::alloc::Allocator;
use std::cmp::Ordering;

/// A query for all texts that begin with this one, in the order of a `String`.
#[derive(Clone, Copy, Debug)]
pub struct StartsWith<'a>(pub &'a str);

// How a text compares with as many bytes of another, from its beginning on.
fn compare_beginning(beginning: &str, text: &str) -> Ordering
    ensures { result ≡ begin_cmp beginning.now text.now }
{
    let (sought, bytes) = (beginning.as_bytes(), text.as_bytes());
    let is_longer = sought.len() < bytes.len();
    if is_longer {
        sought.cmp(&bytes[..sought.len()])
    } else {
        sought.cmp(bytes)
    }
}

impl<'a, T, E: KeyOf<T, Key = String<A>>, A: Allocator> ItemRangeQuery<T, Field<E, String<A>>>
    for StartsWith<'a> {
    ghost compare_item = { λ q item. begin_cmp q.0.now (string_bytes (E.key_of item)) };

    ghost fits = { λ q. FitsOrder-begin (λ item. string_bytes (E.key_of item)) q.0.now };

    fn compare_item(&self, item: &T) -> Ordering {
        compare_beginning(self.0, E::key(item).as_str())
    }
}

impl<'a, T: IdOrdItem<Key = String<A>>, A: Allocator> ItemRangeQuery<T, ItsKey<String<A>>>
    for StartsWith<'a> {
    ghost compare_item = { λ q item. begin_cmp q.0.now (string_bytes (T.IdOrdItem.key_of item)) };

    ghost fits = { λ q. FitsOrder-begin (λ item. string_bytes (T.IdOrdItem.key_of item)) q.0.now };

    fn compare_item(&self, item: &T) -> Ordering {
        compare_beginning(self.0, item.key().as_str())
    }
}
