//! Equality of maps: by keys and items, under whatever indexes these are.
ghost use Rattle.std.specs.Prelude.{◌≡◌};
ghost use Rattle.std.specs.Ordering.{eq_of_both};
ghost use Rattle.std.specs.List.{list_any};
ghost use Rattle.iddqd.specs.LiveItems.{live_items};

use super::Map;
use crate::key_index::FindsSame;

impl<T: PartialEq, X: FindsSame<T, S>, S> Map<T, X, S> {
    // Whether an equal item is stored under the same keys.
    fn has(&self, item: &T) -> bool
        ensures { result ≡ list_any (eq_of_both X.same_keys T.eq item.now) (live_items self.now.store) }
    {
        match self.indexes.find_same(&self.items, &self.state, item) {
            Some(ix) => *item == self.items[ix],
            None => false,
        }
    }
}

/// Two maps are equal if they have equally many items, and each item of one equals the one with the same keys in the
/// other. It looks up each item of one map at most once, only by its first key, and compares the other keys.
impl<T: PartialEq, X: FindsSame<T, S>, S> PartialEq for Map<T, X, S> {
    ghost use Rattle.iddqd_map.specs.Equality.{has_same_items};
    ghost use Rattle.iddqd_map.specs.EqualityLaws.{map_laws};

    ghost eq = { λ m n. has_same_items (eq_of_both X.same_keys T.eq) m.store n.store };

    ghost laws = { map_laws X.same_keys T.eq X.equivalence T.laws };

    fn eq(&self, other: &Map<T, X, S>) -> bool {
        self.len() == other.len() && self.values().all(|item| other.has(item))
    }
}

impl<T: Eq, X: FindsSame<T, S>, S> Eq for Map<T, X, S> {
    ghost use Rattle.iddqd_map.specs.EqualityLaws.{map_equivalence};

    ghost laws = { map_equivalence X.same_keys T.eq X.equivalence T.Eq.laws };
}
