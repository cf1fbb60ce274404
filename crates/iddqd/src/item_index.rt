//! Numbers that name the items of an `ItemSet`.
//!
//! Clauses write `sentinel` for the number of `SENTINEL`: they can't name a constant of a type with a model.
ghost use Rattle.std.specs.Prelude.{◌≡◌, ◌<◌, SomeIff};
ghost use Rattle.iddqd.specs.Store.{sentinel};

use std::cmp::Ordering;
use std::fmt;
use std::hash::{Hash, Hasher};
use std::marker::Model;

/// The index of an item: the number of its slot.
///
/// It is a `u32` in memory and for every comparison, and prints as one. [`ItemIndex::SENTINEL`] is
/// never assigned to an item.
#[derive(Clone, Copy, Default)]
pub struct ItemIndex(u32);

impl Model for ItemIndex {
    ghost use Rattle.std.specs.Prelude.{ℕ};

    ghost Value = { ℕ };

    ghost view = { λ i. i.0 };

    ghost inverse = { λ n. record { 0 = n } };
}

impl ItemIndex {
    /// The largest index that can be assigned to an item: the one before `SENTINEL`.
    pub const MAX_VALID: ItemIndex = ItemIndex(4294967294);

    /// The end of the chain of vacant slots. No item has it.
    pub const SENTINEL: ItemIndex = ItemIndex(4294967295);

    /// The index with this number.
    pub const fn new(value: u32) -> ItemIndex
        ensures { result ≡ value }
    {
        ItemIndex(value)
    }

    /// The number of the index.
    pub const fn as_u32(self) -> u32
        ensures { result ≡ self }
    {
        self.0
    }

    /// The index of the slot that comes after `slots` others, if it can be assigned.
    pub fn of_slot(slots: usize) -> Option<ItemIndex>
        ensures { SomeIff result (slots < sentinel) slots }
    {
        if slots <= ItemIndex::MAX_VALID.0 as usize {
            Some(ItemIndex(slots as u32))
        } else {
            None
        }
    }
}

// Equality, order and hash are written out so that their members say what they are: those of u32.
impl PartialEq for ItemIndex {
    ghost use Rattle.std.specs.Prelude.{nat_eq};
    ghost use Rattle.std.proofs.Common.{rules};

    ghost eq = { nat_eq };

    ghost laws = { Prim.search rules };

    fn eq(&self, other: &ItemIndex) -> bool {
        self.0 == other.0
    }
}

impl Eq for ItemIndex {
    ghost use Rattle.std.proofs.Common.{rules};

    ghost laws = { Prim.search rules };
}

impl Ord for ItemIndex {
    ghost use Rattle.std.specs.Ordering.{nat_cmp};
    ghost use Rattle.std.proofs.Common.{rules};

    ghost cmp = { nat_cmp };

    ghost total = { Prim.search rules };

    ghost matches_partial_cmp = { Prim.search rules };

    ghost matches_eq = { Prim.search rules };

    fn cmp(&self, other: &ItemIndex) -> Ordering {
        self.0.cmp(&other.0)
    }
}

impl PartialOrd for ItemIndex {
    ghost use Rattle.std.specs.Ordering.{nat_cmp, as_partial_cmp};
    ghost use Rattle.std.proofs.Common.{rules};

    ghost partial_cmp = { as_partial_cmp nat_cmp };

    ghost laws = { Prim.search rules };

    fn partial_cmp(&self, other: &ItemIndex) -> Option<Ordering> {
        Some(self.cmp(other))
    }
}

impl Hash for ItemIndex {
    ghost use Rattle.std.specs.Hash as fed;
    ghost use Rattle.std.proofs.Common.{rules};

    ghost hash_input = { fed.u32 };

    ghost respects_eq = { Prim.search rules };

    fn hash<H: Hasher>(&self, state: &mut H) {
        self.0.hash(state);
    }
}

impl fmt::Display for ItemIndex {
    ghost use Rattle.std.specs.Fmt.{decimal};
    ghost use Rattle.std.specs.Prelude.{Some};

    ghost output = { λ i. Some (decimal i) };

    fn fmt<W: fmt::Write>(&self, f: &mut fmt::Formatter<W>) -> fmt::Result {
        fmt::Display::fmt(&self.0, f)
    }
}

impl fmt::Debug for ItemIndex {
    ghost use Rattle.std.specs.Fmt.{decimal};
    ghost use Rattle.std.specs.Prelude.{Some};

    ghost debug_output = { λ i. Some (decimal i) };

    fn fmt<W: fmt::Write>(&self, f: &mut fmt::Formatter<W>) -> fmt::Result {
        fmt::Debug::fmt(&self.0, f)
    }
}

/// An optional index, printed as a dash if there is none.
#[derive(Clone, Copy)]
pub struct OrDash(pub Option<ItemIndex>);

impl fmt::Display for OrDash {
    ghost use Rattle.std.specs.Prelude.{Some};
    ghost use Rattle.iddqd.specs.OrDash.{index_or_dash};

    ghost output = { λ index. Some (index_or_dash index.0) };

    fn fmt<W: fmt::Write>(&self, f: &mut fmt::Formatter<W>) -> fmt::Result {
        match self.0 {
            Some(ix) => write!(f, "{ix}"),
            None => write!(f, "-"),
        }
    }
}
