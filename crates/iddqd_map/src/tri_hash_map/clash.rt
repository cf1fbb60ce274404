//! Which items have keys of a refused one.
ghost use Rattle.std.specs.Prelude.{◌≡◌, ◌↔◌, IsTrue};
ghost use Rattle.iddqd_map.specs.ThreeKeys.{ReportsSome, three_clashes, three_moves};

use iddqd::item_index::{ItemIndex, OrDash};
use iddqd_by_hash::hashed_move::Move;
use std::fmt;

/// For each key of an item, the index of the other item that has it, if one has.
///
/// It prints as `0 - 1`.
#[derive(Clone, Copy, Debug, PartialEq, Eq)]
pub struct TriClash {
    /// The index of the item that has the first key.
    pub key1: Option<ItemIndex>,
    /// The index of the item that has the second key.
    pub key2: Option<ItemIndex>,
    /// The index of the item that has the third key.
    pub key3: Option<ItemIndex>,
}

impl TriClash {
    /// Whether an item has one of the keys.
    pub fn is_some(&self) -> bool
        ensures { IsTrue result ↔ ReportsSome self.now }
    {
        self.key1.is_some() || self.key2.is_some() || self.key3.is_some()
    }
}

// Puts the look-ups of all three keys of an item together: `Ok` if none found an item.
pub(super) fn clash_of(
    key1: Option<ItemIndex>,
    key2: Option<ItemIndex>,
    key3: Option<ItemIndex>,
) -> Result<(), TriClash>
    ensures { result ≡ three_clashes key1 key2 key3 }
{
    let clash = TriClash { key1, key2, key3 };
    if clash.is_some() { Err(clash) } else { Ok(()) }
}

// Puts the plans of all three tables together: the moves, or the items that have one of the keys.
pub(super) fn all_moves(
    first: Result<Move, ItemIndex>,
    second: Result<Move, ItemIndex>,
    third: Result<Move, ItemIndex>,
) -> Result<(Move, (Move, Move)), TriClash>
    ensures { result ≡ three_moves first second third }
{
    match (first, second, third) {
        (Ok(first), Ok(second), Ok(third)) => Ok((first, (second, third))),
        (first, second, third) => Err(TriClash {
            key1: first.err(),
            key2: second.err(),
            key3: third.err(),
        }),
    }
}

impl fmt::Display for TriClash {
    ghost use Rattle.std.specs.Prelude.{◌++◌, codes, Some};
    ghost use Rattle.iddqd.specs.{index_or_dash};

    ghost output = { λ clash. Some
        (index_or_dash clash.key1 ++ codes " " ++ index_or_dash clash.key2 ++ codes " " ++ index_or_dash clash.key3) };

    fn fmt<W: fmt::Write>(&self, f: &mut fmt::Formatter<W>) -> fmt::Result {
        let (first, second, third) = (OrDash(self.key1), OrDash(self.key2), OrDash(self.key3));
        write!(f, "{first} {second} {third}")
    }
}
