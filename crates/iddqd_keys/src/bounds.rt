//! The two bounds of a range of keys, as one value.
//!
//! A call that takes a range takes any [`IntoBounds`]: a range of queries as `from..to`, `from..=to`, `from..`, `..to`,
//! `..=to` or `..`, a pair of `Bound`s, or [`Bounds`]. A range isn't asked to be forward: a lower bound above the upper
//! one selects nothing.
//!
//! It is a trait of its own, since std's `RangeBounds` borrows its ends, and says nothing of a `RangeInclusive` that
//! was iterated to its end.
ghost use Rattle.std.specs.Prelude.{◌≡◌};
ghost use Rattle.std.specs.Range.{range_inclusive_end, range_inclusive_start};
ghost use Rattle.std.specs.declared.ops.Bound.TheVariants.{Excluded, Included, Unbounded};
ghost use Rattle.iddqd_keys.specs.declared.bounds.Bounds.{Bounds};

use std::ops::{Bound, Range, RangeFrom, RangeFull, RangeInclusive, RangeTo, RangeToInclusive};

/// A lower and an upper bound, each a query or none.
#[derive(Clone, Copy, Drop)]
pub struct Bounds<Q> {
    /// Where the range begins.
    pub lower: Bound<Q>,
    /// Where it ends.
    pub upper: Bound<Q>,
}

impl<Q> Bounds<Q> {
    /// What compares Equal with the query: a group.
    pub fn only(query: Q) -> Bounds<Q>
    where
        Q: Copy,
        ensures { result ≡ record { lower = Included query; upper = Included query } }
    {
        Bounds {
            lower: Bound::Included(query),
            upper: Bound::Included(query),
        }
    }

    /// The bounds that a range stands for.
    pub fn of<R: IntoBounds<Q>>(range: R) -> Bounds<Q>
        ensures { result ≡ R.bounds range }
    {
        range.into_bounds()
    }
}

/// A range of queries `Q`.
pub trait IntoBounds<Q>: Sized {
    // The bounds that it stands for.
    ghost bounds: { Self → Bounds Q };

    /// The bounds that it stands for.
    fn into_bounds(self) -> Bounds<Q>
        ensures { result ≡ bounds self };
}

impl<Q> IntoBounds<Q> for Bounds<Q> {
    ghost bounds = { λ bounds. bounds };

    fn into_bounds(self) -> Bounds<Q> {
        self
    }
}

// `from..to`: without the item at `to`.
impl<Q> IntoBounds<Q> for Range<Q> {
    ghost bounds = { λ range. record { lower = Included range.start; upper = Excluded range.end } };

    fn into_bounds(self) -> Bounds<Q> {
        Bounds {
            lower: Bound::Included(self.start),
            upper: Bound::Excluded(self.end),
        }
    }
}

// `from..=to`. Its two ends count, also if it was iterated over.
impl<Q> IntoBounds<Q> for RangeInclusive<Q> {
    ghost bounds = { λ range. record {
      lower = Included (range_inclusive_start range);
      upper = Included (range_inclusive_end range);
    } };

    fn into_bounds(self) -> Bounds<Q> {
        let (first, last) = self.into_inner();
        Bounds {
            lower: Bound::Included(first),
            upper: Bound::Included(last),
        }
    }
}

// `from..`
impl<Q> IntoBounds<Q> for RangeFrom<Q> {
    ghost bounds = { λ range. record { lower = Included range.start; upper = Unbounded } };

    fn into_bounds(self) -> Bounds<Q> {
        let RangeFrom { start } = self;
        Bounds {
            lower: Bound::Included(start),
            upper: Bound::Unbounded,
        }
    }
}

// `..to`
impl<Q> IntoBounds<Q> for RangeTo<Q> {
    ghost bounds = { λ range. record { lower = Unbounded; upper = Excluded range.end } };

    fn into_bounds(self) -> Bounds<Q> {
        let RangeTo { end } = self;
        Bounds {
            lower: Bound::Unbounded,
            upper: Bound::Excluded(end),
        }
    }
}

// `..=to`
impl<Q> IntoBounds<Q> for RangeToInclusive<Q> {
    ghost bounds = { λ range. record { lower = Unbounded; upper = Included range.end } };

    fn into_bounds(self) -> Bounds<Q> {
        let RangeToInclusive { end } = self;
        Bounds {
            lower: Bound::Unbounded,
            upper: Bound::Included(end),
        }
    }
}

// `..`: all keys.
impl<Q> IntoBounds<Q> for RangeFull {
    ghost bounds = { λ range. record { lower = Unbounded; upper = Unbounded } };

    fn into_bounds(self) -> Bounds<Q> {
        Bounds {
            lower: Bound::Unbounded,
            upper: Bound::Unbounded,
        }
    }
}

impl<Q> IntoBounds<Q> for (Bound<Q>, Bound<Q>) {
    ghost bounds = { λ range. record { lower = range.0; upper = range.1 } };

    fn into_bounds(self) -> Bounds<Q> {
        Bounds {
            lower: self.0,
            upper: self.1,
        }
    }
}
