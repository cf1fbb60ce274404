//! Queries for borrowed keys.
use iddqd::map_hash::Equivalent;

/// Makes a query for `K` a query for `&K`. The table compares its query with keys that are borrowed from items.
#[derive(Clone, Copy)]
pub struct BorrowedKeyQuery<'a, Q>(pub &'a Q);

impl<'a, 'b, K, Q: Equivalent<K>> Equivalent<&'b K> for BorrowedKeyQuery<'a, Q> {
    ghost equivalent = { λ q k. Q.equivalent q.0.now k.now };

    fn equivalent(&self, key: &&'b K) -> bool {
        self.0.equivalent(*key)
    }
}
