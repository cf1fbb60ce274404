//! Why an item with three keys was not inserted.
ghost use Rattle.std.specs.Prelude.{◌≡◌};
ghost use Rattle.iddqd_tri.specs.TriRefusal.{tri_refusal_item};

use std::error::Error;
use std::fmt;

/// Why an item was not inserted. The item comes back.
#[derive(Debug, PartialEq, Eq, Drop)]
pub enum TriRefusal<T> {
    /// None of its keys was found, and there are as many items as the limit allows.
    Full(T),
    /// None of its keys was found, the store is not full, and memory ran out.
    Memory(T),
}

impl<T> TriRefusal<T> {
    /// The item that was refused.
    pub fn into_item(self) -> T
        ensures { result ≡ tri_refusal_item self }
    {
        match self {
            TriRefusal::Full(item) => item,
            TriRefusal::Memory(item) => item,
        }
    }
}

impl<T> fmt::Display for TriRefusal<T> {
    ghost use Rattle.std.specs.Prelude.{Some};
    ghost use Rattle.iddqd_tri.specs.TriRefusal.{tri_refusal_text};

    ghost output = { λ refusal. Some (tri_refusal_text refusal) };

    fn fmt<W: fmt::Write>(&self, f: &mut fmt::Formatter<W>) -> fmt::Result {
        match self {
            TriRefusal::Full(_) => write!(f, "full"),
            TriRefusal::Memory(_) => write!(f, "no memory"),
        }
    }
}

impl<T: fmt::Debug + Drop> Error for TriRefusal<T> {}
