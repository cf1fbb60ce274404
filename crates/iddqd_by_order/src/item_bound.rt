//! A bound that reads items, by which an ordered table is searched.
ghost use Rattle.std.specs.Prelude.{◌≡◌};
ghost use Rattle.std.specs.Range.Bound.{bound_map};

use iddqd_keys::item_order_query::ItemRangeQuery;
use iddqd_keys::order_key::OrdKey;
use iddqd_order::btree_table::Reads;
use std::cmp::Ordering;
use std::marker::PhantomData;
use std::ops::Bound;

// A query for the key `E`, which is compared with items that the table's closure borrows.
#[derive(Drop)]
pub(crate) struct ByItem<E, Q> {
    pub(crate) query: Q,
    of: PhantomData<E>,
}

impl<'b, T, E: OrdKey<T>, Q: ItemRangeQuery<T, E>> Reads<&'b T> for ByItem<E, Q> {
    ghost reading = { λ by item. Q.compare_item by.query item.now };

    fn read(&self, item: &'b T) -> Ordering {
        self.query.compare_item(item)
    }
}

// The same bound, with its query wrapped in `ByItem`.
pub(crate) fn by_item<E, Q>(bound: Bound<Q>) -> Bound<ByItem<E, Q>>
    ensures { bound_map (λ by. by.query) result ≡ bound }
{
    match bound {
        Bound::Included(query) => Bound::Included(ByItem {
            query,
            of: PhantomData,
        }),
        Bound::Excluded(query) => Bound::Excluded(ByItem {
            query,
            of: PhantomData,
        }),
        Bound::Unbounded => Bound::Unbounded,
    }
}
