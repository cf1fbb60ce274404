//! Checks of raw parts: of the slots and the chain of a store, and of the indexes of a table.
//!
//! The parts may be anything: no index has to be in range, and no chain has to end. The first check that fails is
//! reported as a text, which takes memory; if memory runs out, the refusal is `Memory`.
mod indexes;
mod slots;

pub use indexes::{validate_hash_indexes, validate_ordered_indexes};
pub use slots::validate_slots;
use std::alloc::AllocError;
use std::error::Error;
use std::fmt;
use std::marker::Model;

/// Whether a store may have vacant slots, and so a table gaps between its indexes.
#[derive(Clone, Copy, Debug, PartialEq, Eq)]
pub enum ValidateCompact {
    /// It may not: the indexes are the numbers from 0 on.
    Compact,
    /// It may.
    NonCompact,
}

/// Whether keys may have changed silently, so that look-ups by key may miss.
#[derive(Clone, Copy, Debug, PartialEq, Eq)]
pub enum ValidateChaos {
    /// They may: each index is searched for by a scan.
    Yes,
    /// They have not: each index is looked up by its keys.
    No,
}

/// What is wrong, in words: the first check that failed.
#[derive(Debug, Drop)]
pub enum ValidationError {
    /// A check of the table with this name failed.
    Table {
        name: &'static str,
        error: TableValidationError,
    },
    /// Anything else.
    General(String),
}

impl ValidationError {
    ghost use Rattle.std.specs.Prelude.{◌≡◌};

    /// The error with this text, not about a table.
    pub fn general(text: String) -> ValidationError
        ensures { result ≡ ValidationError.General text }
    {
        Self::General(text)
    }
}

impl fmt::Display for ValidationError {
    ghost use Rattle.std.specs.Prelude.{Some};
    ghost use Rattle.iddqd.specs.Validation.{error_text};

    ghost output = { λ error. Some (error_text error) };

    fn fmt<W: fmt::Write>(&self, f: &mut fmt::Formatter<W>) -> fmt::Result {
        match self {
            ValidationError::Table { name, error } => {
                write!(f, "validation error in table {name}: {error}")
            }
            ValidationError::General(text) => write!(f, "{text}"),
        }
    }
}

impl Error for ValidationError {}

/// What is wrong with a table's indexes, in words. A contract sees the words.
#[derive(Debug, Drop)]
pub struct TableValidationError(String);

impl Model for TableValidationError {
    ghost use Rattle.std.specs.Prelude.{ℕ, List};
    ghost use Rattle.std.specs.String.{string_bytes};

    ghost Value = { List ℕ };

    ghost view = { λ error. string_bytes error.0 };
}

impl TableValidationError {
    ghost use Rattle.std.specs.Prelude.{◌≡◌};
    ghost use Rattle.std.specs.String.{string_bytes};

    /// The error with this text.
    pub fn new(text: String) -> TableValidationError
        ensures { result ≡ string_bytes text }
    {
        TableValidationError(text)
    }
}

impl fmt::Display for TableValidationError {
    ghost use Rattle.std.specs.Prelude.{Some};

    ghost output = { λ text. Some text };

    fn fmt<W: fmt::Write>(&self, f: &mut fmt::Formatter<W>) -> fmt::Result {
        let text = self.0.as_str();
        write!(f, "{text}")
    }
}

impl Error for TableValidationError {}

/// Why parts were not found sound.
#[derive(Debug, Drop)]
pub enum ValidateRefusal<E> {
    /// A check failed.
    Invalid(E),
    /// Memory ran out: for a sorted copy, or for the text of an error.
    Memory(AllocError),
}
