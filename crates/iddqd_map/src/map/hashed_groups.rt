//! Look-ups of a group: the items with one hashed key that several items may have.
ghost use Rattle.std.specs.Prelude.{◌≡◌, ◌↔◌, false};
ghost use Rattle.iddqd_keys.specs.Scan.{HasNoHit};
ghost use Rattle.iddqd_map.specs.Groups.{FindsSome};

use super::Map;
use crate::grouped_at::GroupedAt;
use crate::key_index::KeyIndex;
use iddqd::item_index::ItemIndex;

impl<T, X: KeyIndex<T, S>, S> Map<T, X, S> {
    /// The index of some item that has the key for which the query stands; `None` if and only if no item has it.
    ///
    /// The query is a `&K`, or another query that stands for such a key. Only keys of the same hash are compared with
    /// it.
    ///
    /// Cost: one look-up; takes no memory.
    pub fn find_any_by<P, Q>(&self, query: Q) -> Option<ItemIndex>
    where
        X: GroupedAt<P, Q, T, S>,
        ensures { FindsSome self.now.store (X.stands_for query) result }
    {
        self.indexes.find_any(&self.items, &self.state, query)
    }

    /// Whether any item has the key.
    ///
    /// Cost: one look-up; takes no memory.
    pub fn contains_any_by<P, Q>(&self, query: Q) -> bool
    where
        X: GroupedAt<P, Q, T, S>,
        ensures { (result ≡ false) ↔ HasNoHit self.now.store (X.stands_for query) }
    {
        self.find_any_by::<P, Q>(query).is_some()
    }
}
