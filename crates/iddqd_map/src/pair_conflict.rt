//! What a pair of key indexes reports of an item that shares keys with others.
ghost use Rattle.std.specs.Prelude.{◌≡◌};
ghost use Rattle.iddqd_map.specs.PairConflict.{first_of, second_of};

use std::fmt;

/// The conflicts that the two key indexes of a pair reported.
///
/// It prints those of the first and then those of the second, with a dash in place of none, as `0 -`.
#[derive(Clone, Copy, Debug, PartialEq, Eq, Drop)]
pub enum PairConflict<A, B> {
    /// Only those of the first.
    First(A),
    /// Only those of the second.
    Second(B),
    /// Those of both.
    Both(A, B),
}

impl<A: fmt::Display, B: fmt::Display> fmt::Display for PairConflict<A, B> {
    ghost use Rattle.iddqd_map.specs.PairConflict.{pair_conflict_text};

    ghost output = { pair_conflict_text A.output B.output };

    fn fmt<W: fmt::Write>(&self, f: &mut fmt::Formatter<W>) -> fmt::Result {
        match self {
            PairConflict::First(one) => write!(f, "{one} -"),
            PairConflict::Second(other) => write!(f, "- {other}"),
            PairConflict::Both(one, other) => write!(f, "{one} {other}"),
        }
    }
}

impl<A: Copy, B: Copy> PairConflict<A, B> {
    /// What the first reported, if it did.
    pub fn first(&self) -> Option<A>
        ensures { result ≡ first_of self.now }
    {
        match *self {
            PairConflict::First(one) => Some(one),
            PairConflict::Both(one, _) => Some(one),
            PairConflict::Second(_) => None,
        }
    }

    /// What the second reported, if it did.
    pub fn second(&self) -> Option<B>
        ensures { result ≡ second_of self.now }
    {
        match *self {
            PairConflict::Second(other) => Some(other),
            PairConflict::Both(_, other) => Some(other),
            PairConflict::First(_) => None,
        }
    }
}
