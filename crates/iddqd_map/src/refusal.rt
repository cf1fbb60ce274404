//! Why a map refuses an item. Each refusal returns the item, and the items of the map stay, with three exceptions. The
//! old item of `remake_at` and `remake_by` is gone, since their closure has got it. `insert_all`, `overwrite_all`
//! and `append` keep what they did with the items before. `from_array` drops all other items.
ghost use Rattle.std.specs.Prelude.{◌≡◌};
ghost use Rattle.iddqd_map.specs.Refusal.{insert_refusal_item, overwrite_refusal_item, replace_refusal_item};

use iddqd::item_set::GrowError;
use std::error::Error;
use std::fmt;

/// Why an item was not inserted. The item comes back.
#[derive(Debug, PartialEq, Eq, Drop)]
pub enum InsertRefusal<T, C> {
    /// Stored items have some of its unique keys; `at` has their indexes.
    Duplicate { item: T, at: C },
    /// No stored item has one of its unique keys, and there are as many items as the limit allows.
    Full(T),
    /// No stored item has one of its unique keys, the limit isn't reached, and memory ran out.
    Memory(T),
}

/// Why an insert that overwrites refused an item. The item comes back.
#[derive(Debug, PartialEq, Eq, Drop)]
pub enum OverwriteRefusal<T> {
    /// No stored item has one of its unique keys, and there are as many items as the limit allows.
    Full(T),
    /// Memory ran out. The limit isn't reached, or a stored item has one of its unique keys.
    Memory(T),
}

/// Why an item was not replaced. The new one comes back.
#[derive(Debug, PartialEq, Eq, Drop)]
pub enum ReplaceRefusal<T, C> {
    /// There is no item to replace.
    Missing(T),
    /// Other items have some unique keys of the new one; `at` has their indexes.
    Duplicate { item: T, at: C },
    /// No other item has a unique key of the new one, and memory ran out.
    Memory(T),
}

/// A refusal of one of many items, and what is left of their iterator.
#[derive(Drop)]
pub struct Stopped<T, C, I> {
    /// How many items were inserted.
    pub inserted: usize,
    /// Why the next item was not inserted. It comes back.
    pub refusal: InsertRefusal<T, C>,
    /// The items after that one.
    pub rest: I,
}

/// A refusal of one of many items by a call that overwrites, and what is left of their iterator.
#[derive(Drop)]
pub struct StoppedOverwrite<T, I> {
    /// How many items were inserted.
    pub inserted: usize,
    /// Why the next item was not inserted. It comes back.
    pub refusal: OverwriteRefusal<T>,
    /// The items after that one.
    pub rest: I,
}

/// Why `append` stopped at an item, which stays in the other map.
#[derive(Clone, Copy, Debug, PartialEq, Eq)]
pub struct StoppedAppend {
    /// How many items were moved.
    pub moved: usize,
    /// Why the next one wasn't: the map is full, or memory ran out.
    pub error: GrowError,
}

impl<T, C: Drop> InsertRefusal<T, C> {
    /// The item that was not inserted.
    pub fn into_item(self) -> T
        ensures { result ≡ insert_refusal_item self }
    {
        match self {
            InsertRefusal::Duplicate { item, .. } => item,
            InsertRefusal::Full(item) => item,
            InsertRefusal::Memory(item) => item,
        }
    }
}

impl<T> OverwriteRefusal<T> {
    /// The item that was refused.
    pub fn into_item(self) -> T
        ensures { result ≡ overwrite_refusal_item self }
    {
        match self {
            OverwriteRefusal::Full(item) => item,
            OverwriteRefusal::Memory(item) => item,
        }
    }
}

impl<T, C: Drop> ReplaceRefusal<T, C> {
    /// The item that was to replace another one.
    pub fn into_item(self) -> T
        ensures { result ≡ replace_refusal_item self }
    {
        match self {
            ReplaceRefusal::Missing(item) => item,
            ReplaceRefusal::Duplicate { item, .. } => item,
            ReplaceRefusal::Memory(item) => item,
        }
    }
}

impl<T, C: fmt::Display> fmt::Display for InsertRefusal<T, C> {
    ghost use Rattle.iddqd_map.specs.Refusal.{insert_refusal_text};

    ghost output = { insert_refusal_text C.output };

    fn fmt<W: fmt::Write>(&self, f: &mut fmt::Formatter<W>) -> fmt::Result {
        match self {
            InsertRefusal::Duplicate { at, .. } => write!(f, "duplicate {at}"),
            InsertRefusal::Full(_) => write!(f, "full"),
            InsertRefusal::Memory(_) => write!(f, "no memory"),
        }
    }
}

impl<T> fmt::Display for OverwriteRefusal<T> {
    ghost use Rattle.std.specs.Prelude.{Some};
    ghost use Rattle.iddqd_map.specs.Refusal.{overwrite_refusal_text};

    ghost output = { λ refusal. Some (overwrite_refusal_text refusal) };

    fn fmt<W: fmt::Write>(&self, f: &mut fmt::Formatter<W>) -> fmt::Result {
        match self {
            OverwriteRefusal::Full(_) => write!(f, "full"),
            OverwriteRefusal::Memory(_) => write!(f, "no memory"),
        }
    }
}

impl<T, C: fmt::Display> fmt::Display for ReplaceRefusal<T, C> {
    ghost use Rattle.iddqd_map.specs.Refusal.{replace_refusal_text};

    ghost output = { replace_refusal_text C.output };

    fn fmt<W: fmt::Write>(&self, f: &mut fmt::Formatter<W>) -> fmt::Result {
        match self {
            ReplaceRefusal::Missing(_) => write!(f, "missing"),
            ReplaceRefusal::Duplicate { at, .. } => write!(f, "duplicate {at}"),
            ReplaceRefusal::Memory(_) => write!(f, "no memory"),
        }
    }
}

impl<T: fmt::Debug + Drop, C: fmt::Debug + fmt::Display + Drop> Error for InsertRefusal<T, C> {}

impl<T: fmt::Debug + Drop> Error for OverwriteRefusal<T> {}

impl<T: fmt::Debug + Drop, C: fmt::Debug + fmt::Display + Drop> Error for ReplaceRefusal<T, C> {}
