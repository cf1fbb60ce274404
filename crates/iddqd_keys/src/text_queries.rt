//! Queries for the other owned texts and slices of std: a `&str` for a `BoxedStr`, an `RcStr`, an `ArcStr` and a
//! `CowStr`, and a `&[T]` for a `BoxedSlice`. They look up as they do for a `String` and a `Vec`, by hash or in order.
ghost use Rattle.std.specs.Prelude.{◌≡◌};
ghost use Rattle.std.proofs.Common.{ap};
ghost use Rattle.std.specs.Arc.{arc_str_bytes};
ghost use Rattle.std.specs.Box.{boxed_slice_items, boxed_str_bytes};
ghost use Rattle.std.specs.Cmp.Lexicographic.{bytes_decides, lists_equiv, lists_total, nat_list_cmp_total, nat_list_eq_equiv, pointwise, slice_cmp};
ghost use Rattle.std.specs.Cow.{cow_str_bytes};
ghost use Rattle.std.specs.Hash as fed;
ghost use Rattle.std.specs.Hash.{items_Alike};
ghost use Rattle.std.specs.Ordering.{nat_cmp};
ghost use Rattle.std.specs.Rc.{rc_str_bytes};
ghost use Rattle.std.specs.Str.{bytes_eq};
ghost use Rattle.iddqd_keys.specs.OrderedQuery.{IsQuery-key, IsQuery-on};

use crate::hash_query::HashQuery;
use crate::order_query::OrdQuery;
use std::alloc::Allocator;
use std::borrow::CowStr;
use std::boxed::{BoxedSlice, BoxedStr};
use std::cmp::Ordering;
use std::hash::Hash;
use std::rc::RcStr;
use std::sync::ArcStr;

impl<A: Allocator> HashQuery<BoxedStr<A>> for &str {
    ghost stands_for = { λ q k. bytes_eq q.now (boxed_str_bytes k) };

    ghost same_hash = { λ q k same. ap fed.str ((bytes_decides q.now (boxed_str_bytes k)).0 same) };

    ghost same_key = { λ q x y. nat_list_eq_equiv.congr q.now (boxed_str_bytes x) (boxed_str_bytes y) };

    fn stands_for(&self, key: &BoxedStr<A>) -> bool {
        *self == key.as_str()
    }
}

impl<A: Allocator> OrdQuery<BoxedStr<A>> for &str {
    ghost compare = { λ q k. slice_cmp nat_cmp q.now (boxed_str_bytes k) };

    ghost lawful = { λ q. IsQuery-on boxed_str_bytes (slice_cmp nat_cmp) (slice_cmp nat_cmp q.now)
        (IsQuery-key (slice_cmp nat_cmp) nat_list_cmp_total q.now) };

    fn compare(&self, key: &BoxedStr<A>) -> Ordering {
        (*self).cmp(key.as_str())
    }
}

impl<A: Allocator> HashQuery<RcStr<A>> for &str {
    ghost stands_for = { λ q k. bytes_eq q.now (rc_str_bytes k) };

    ghost same_hash = { λ q k same. ap fed.str ((bytes_decides q.now (rc_str_bytes k)).0 same) };

    ghost same_key = { λ q x y. nat_list_eq_equiv.congr q.now (rc_str_bytes x) (rc_str_bytes y) };

    fn stands_for(&self, key: &RcStr<A>) -> bool {
        *self == key.as_str()
    }
}

impl<A: Allocator> OrdQuery<RcStr<A>> for &str {
    ghost compare = { λ q k. slice_cmp nat_cmp q.now (rc_str_bytes k) };

    ghost lawful = { λ q. IsQuery-on rc_str_bytes (slice_cmp nat_cmp) (slice_cmp nat_cmp q.now)
        (IsQuery-key (slice_cmp nat_cmp) nat_list_cmp_total q.now) };

    fn compare(&self, key: &RcStr<A>) -> Ordering {
        (*self).cmp(key.as_str())
    }
}

impl<A: Allocator> HashQuery<ArcStr<A>> for &str {
    ghost stands_for = { λ q k. bytes_eq q.now (arc_str_bytes k) };

    ghost same_hash = { λ q k same. ap fed.str ((bytes_decides q.now (arc_str_bytes k)).0 same) };

    ghost same_key = { λ q x y. nat_list_eq_equiv.congr q.now (arc_str_bytes x) (arc_str_bytes y) };

    fn stands_for(&self, key: &ArcStr<A>) -> bool {
        *self == key.as_str()
    }
}

impl<A: Allocator> OrdQuery<ArcStr<A>> for &str {
    ghost compare = { λ q k. slice_cmp nat_cmp q.now (arc_str_bytes k) };

    ghost lawful = { λ q. IsQuery-on arc_str_bytes (slice_cmp nat_cmp) (slice_cmp nat_cmp q.now)
        (IsQuery-key (slice_cmp nat_cmp) nat_list_cmp_total q.now) };

    fn compare(&self, key: &ArcStr<A>) -> Ordering {
        (*self).cmp(key.as_str())
    }
}

impl<'b, A: Allocator> HashQuery<CowStr<'b, A>> for &str {
    ghost stands_for = { λ q k. bytes_eq q.now (cow_str_bytes k) };

    ghost same_hash = { λ q k same. ap fed.str ((bytes_decides q.now (cow_str_bytes k)).0 same) };

    ghost same_key = { λ q x y. nat_list_eq_equiv.congr q.now (cow_str_bytes x) (cow_str_bytes y) };

    fn stands_for(&self, key: &CowStr<'b, A>) -> bool {
        *self == key.as_str()
    }
}

impl<'b, A: Allocator> OrdQuery<CowStr<'b, A>> for &str {
    ghost compare = { λ q k. slice_cmp nat_cmp q.now (cow_str_bytes k) };

    ghost lawful = { λ q. IsQuery-on cow_str_bytes (slice_cmp nat_cmp) (slice_cmp nat_cmp q.now)
        (IsQuery-key (slice_cmp nat_cmp) nat_list_cmp_total q.now) };

    fn compare(&self, key: &CowStr<'b, A>) -> Ordering {
        (*self).cmp(key.as_str())
    }
}

impl<T: Eq + Hash, A: Allocator> HashQuery<BoxedSlice<T, A>> for &[T] {
    ghost stands_for = { λ q k. pointwise T.eq q.now (boxed_slice_items k) };

    ghost same_hash = { λ q k. (items_Alike (record { fed = T.respects_eq })).fed q.now (boxed_slice_items k) };

    ghost same_key = { λ q x y. (lists_equiv T.Eq.laws).congr q.now (boxed_slice_items x) (boxed_slice_items y) };

    fn stands_for(&self, key: &BoxedSlice<T, A>) -> bool {
        let items = key.as_slice();
        **self == *items
    }
}

impl<T: Ord, A: Allocator> OrdQuery<BoxedSlice<T, A>> for &[T] {
    ghost compare = { λ q k. slice_cmp T.cmp q.now (boxed_slice_items k) };

    ghost lawful = { λ q. IsQuery-on boxed_slice_items (slice_cmp T.cmp) (slice_cmp T.cmp q.now)
        (IsQuery-key (slice_cmp T.cmp) (lists_total T.total) q.now) };

    fn compare(&self, key: &BoxedSlice<T, A>) -> Ordering {
        self.cmp(&key.as_slice())
    }
}
