//! What a key index reports of a key that several items may have: nothing.
use std::fmt;

/// The conflict of an item by a key that several items may have: there is none. It prints as `-`.
#[derive(Clone, Copy, Debug, PartialEq, Eq)]
pub struct NoConflict;

impl fmt::Display for NoConflict {
    ghost use Rattle.std.specs.Prelude.{codes, Some};

    ghost output = { λ _. Some (codes "-") };

    fn fmt<W: fmt::Write>(&self, f: &mut fmt::Formatter<W>) -> fmt::Result {
        write!(f, "-")
    }
}
