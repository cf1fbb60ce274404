//! A registry of names: a name is registered once, and has its number for ever.
//!
//! It stands on a map, and its clauses don't speak of that: a registry is the list of its names, in which the place of
//! a name is its number. Since no name leaves it, numbers count up from 0 without a gap.
ghost use Rattle.std.specs.Prelude.{◌≡◌, ◌↔◌, ◌++◌, ◌∷◌, [], ℕ, Some, Contains, IsOk, IfOk, IfErr, OnErr, length, slice_get};
ghost use Rattle.std.specs.String.{string_bytes};
ghost use Rattle.uses.specs.Registry.{TellsWhy};

use iddqd_maps::id_hash_map::{IdHashItem, IdHashMap};
use iddqd_maps::item_index::ItemIndex;
use iddqd_maps::refusal::InsertRefusal;
use std::alloc::{AllocError, Global};
use std::marker::Model;

/// A name that was registered.
#[derive(Drop)]
pub struct Entry {
    name: String,
}

impl IdHashItem for Entry {
    type Key = String;

    ghost key_of = { λ entry. entry.name };

    fn key(&self) -> &String {
        &self.name
    }
}

/// Names with their numbers.
///
/// A contract sees it as the list of the names, in the order of their numbers.
#[derive(Drop)]
pub struct Registry {
    entries: IdHashMap<Entry>,
}

impl Model for Registry {
    ghost use Rattle.std.specs.Prelude.{ℕ, List};
    ghost use Rattle.uses.specs.Registry.{names_of, IsDense};

    ghost Value = { List (List ℕ) };

    ghost view = { λ r. names_of r.entries.store.items };

    ghost invariant = { λ r. IsDense r.entries.store };
}

/// Why a name wasn't registered.
#[derive(Clone, Copy, Debug)]
pub enum RegisterError {
    /// It has this number.
    Taken(ItemIndex),
    /// It is new, and there are as many names as there are numbers.
    Full,
    /// It is new, and memory ran out.
    Memory,
}

impl Registry {
    /// No names. It takes no memory.
    pub fn new(alloc: Global) -> Registry
        ensures { result ≡ [] }
    {
        Registry {
            entries: IdHashMap::new(alloc),
        }
    }

    /// Registers a name, which is new, under the next number.
    pub fn register(&mut self, name: String) -> Result<ItemIndex, RegisterError>
        ensures number { IfOk result (λ number. number ≡ length self.old) }
        ensures registered { IfOk result (λ _. self.new ≡ self.old ++ string_bytes name ∷ []) }
        ensures was_new { IsOk result → Contains self.old (string_bytes name) → ⊥ }
        ensures refused { IfErr result (TellsWhy self.old (string_bytes name)) }
        ensures unchanged { OnErr result (self.new ≡ self.old) }
    {
        match self.entries.insert_unique(Entry { name }) {
            Ok(number) => Ok(number),
            Err(InsertRefusal::Duplicate { at, .. }) => Err(RegisterError::Taken(at)),
            Err(InsertRefusal::Full(_)) => Err(RegisterError::Full),
            Err(InsertRefusal::Memory(_)) => Err(RegisterError::Memory),
        }
    }

    /// The number of a name.
    pub fn resolve(&self, name: &str) -> Option<ItemIndex>
        ensures { (number : ℕ) → (result ≡ Some number) ↔ (slice_get self.now number ≡ Some name.now) }
    {
        self.entries.find(name)
    }
}

fn script(alloc: Global, registry: &mut Registry) -> Result<String, AllocError> {
    let first = registry.register(String::from_str(alloc, "ada")?);
    let second = registry.register(String::from_str(alloc, "bo")?);
    let third = registry.register(String::from_str(alloc, "ada")?);
    let found = (registry.resolve("bo"), registry.resolve("cy"));
    format!(in alloc; "registry: {first:?}, {second:?}, {third:?}, {found:?}")
}

/// What the calls answer.
pub fn line(alloc: Global) -> Result<String, AllocError> {
    script(alloc, &mut Registry::new(alloc))
}
