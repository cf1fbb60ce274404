//! The indexes that clash with an item, from what the look-ups of its three keys returned.
//!
//! Three comparisons of two put the indexes in order, and of two equal ones one is dropped.
ghost use Rattle.std.specs.Prelude.{◌≡◌, ◌↔◌, ℕ, None, IsTrue};
ghost use Rattle.iddqd_tri.specs.Clashes.{IsBefore, AreInOrder, IsOneOf, IsOneOfTwo, clashing};

use iddqd::item_index::ItemIndex;

/// At most three indexes, in rising order; the options after them are `None`.
#[derive(Clone, Copy)]
pub(crate) struct Clashes {
    pub(crate) first: Option<ItemIndex>,
    pub(crate) second: Option<ItemIndex>,
    pub(crate) third: Option<ItemIndex>,
}

impl Clashes {
    /// The indexes that were found, each once.
    pub(crate) fn of(
        first: Option<ItemIndex>,
        second: Option<ItemIndex>,
        third: Option<ItemIndex>,
    ) -> Clashes
        ensures ordered { AreInOrder result.first result.second result.third }
        ensures same { (ix : ℕ) →
            IsOneOf result.first result.second result.third ix ↔ IsOneOf first second third ix }
    {
        let (first, second) = in_order(first, second);
        let (first, third) = in_order(first, third);
        let (second, third) = in_order(second, third);
        Clashes {
            first,
            second,
            third,
        }
    }

    /// Whether there is none.
    pub(crate) fn is_empty(&self) -> bool
        ensures { IsTrue result ↔ (self.now.first ≡ None) }
    {
        self.first.is_none()
    }
}

// The lesser index before the greater, an index before `None`, and of two equal ones only one.
fn in_order(
    one: Option<ItemIndex>,
    other: Option<ItemIndex>,
) -> (Option<ItemIndex>, Option<ItemIndex>)
    ensures ordered { IsBefore result.0 result.1 }
    ensures same { (ix : ℕ) → IsOneOfTwo result.0 result.1 ix ↔ IsOneOfTwo one other ix }
{
    let (Some(x), Some(y)) = (one, other) else {
        return if one.is_none() {
            (other, None)
        } else {
            (one, None)
        };
    };
    if x == y {
        (one, None)
    } else if y < x {
        (other, one)
    } else {
        (one, other)
    }
}
