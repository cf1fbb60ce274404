//! Equality of maps: by their items in the order of the keys, under whatever indexes these are.
ghost use Rattle.std.specs.Prelude.{◌≡◌};
ghost use Rattle.std.specs.Cmp.Lexicographic.{pointwise};

use super::OrdMapBy;
use iddqd_keys::order_key::OrdKey;

/// Two maps are equal that have equal items in the order of their keys. No key is compared.
impl<T: Drop + PartialEq, E: OrdKey<T>> PartialEq for OrdMapBy<T, E> {
    ghost use Rattle.std.specs.Cmp.{on_per};
    ghost use Rattle.std.specs.Cmp.Lexicographic.{lists_per};
    ghost use Rattle.iddqd_ord_map.specs.Equality.{items_in_order};

    ghost eq = { λ m n. pointwise T.eq (items_in_order E.key_of E.cmp m.store)
        (items_in_order E.key_of E.cmp n.store) };

    ghost laws = { on_per (λ m. items_in_order E.key_of E.cmp m.store) (lists_per T.PartialEq.laws) };

    fn eq(&self, other: &OrdMapBy<T, E>) -> bool {
        self.values().eq(other.values())
    }
}

impl<T: Drop + Eq, E: OrdKey<T>> Eq for OrdMapBy<T, E> {
    ghost use Rattle.std.specs.Cmp.{on_equiv};
    ghost use Rattle.std.specs.Cmp.Lexicographic.{lists_equiv};
    ghost use Rattle.iddqd_ord_map.specs.Equality.{items_in_order};

    ghost laws = { on_equiv (λ m. items_in_order E.key_of E.cmp m.store) (lists_equiv T.Eq.laws) };
}
