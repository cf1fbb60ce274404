//! Which items have keys of a refused one.
ghost use Rattle.std.specs.Prelude.{◌≡◌, ◌⊎◌, ◌↔◌, IsTrue, IsSome};
ghost use Rattle.iddqd_map.specs.TwoKeys.{two_clashes, two_moves};

use iddqd::item_index::{ItemIndex, OrDash};
use iddqd_by_hash::hashed_move::Move;
use std::fmt;

/// For each key of an item, the index of the other item that has it, if one has.
///
/// It prints as `0 -`.
#[derive(Clone, Copy, Debug, PartialEq, Eq)]
pub struct BiClash {
    /// The index of the item that has the first key.
    pub key1: Option<ItemIndex>,
    /// The index of the item that has the second key.
    pub key2: Option<ItemIndex>,
}

impl BiClash {
    /// Whether an item has one of the keys.
    pub fn is_some(&self) -> bool
        ensures { IsTrue result ↔ (IsSome self.now.key1 ⊎ IsSome self.now.key2) }
    {
        self.key1.is_some() || self.key2.is_some()
    }
}

// Puts the look-ups of both keys of an item together: `Ok` if neither found an item.
pub(super) fn clash_of(key1: Option<ItemIndex>, key2: Option<ItemIndex>) -> Result<(), BiClash>
    ensures { result ≡ two_clashes key1 key2 }
{
    let clash = BiClash { key1, key2 };
    if clash.is_some() { Err(clash) } else { Ok(()) }
}

// Puts the plans of both tables together: both moves, or the items that have one of the keys.
pub(super) fn both_moves(
    first: Result<Move, ItemIndex>,
    second: Result<Move, ItemIndex>,
) -> Result<(Move, Move), BiClash>
    ensures { result ≡ two_moves first second }
{
    match (first, second) {
        (Ok(first), Ok(second)) => Ok((first, second)),
        (first, second) => Err(BiClash {
            key1: first.err(),
            key2: second.err(),
        }),
    }
}

impl fmt::Display for BiClash {
    ghost use Rattle.std.specs.Prelude.{◌++◌, codes, Some};
    ghost use Rattle.iddqd.specs.{index_or_dash};

    ghost output = { λ clash. Some (index_or_dash clash.key1 ++ codes " " ++ index_or_dash clash.key2) };

    fn fmt<W: fmt::Write>(&self, f: &mut fmt::Formatter<W>) -> fmt::Result {
        write!(f, "{} {}", OrDash(self.key1), OrDash(self.key2))
    }
}
