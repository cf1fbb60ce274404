//! Hash tables, which keep each value with the full hash that it was inserted under.
//!
//! [`open_table::OpenHashTable`] has open addressing. [`hash_table_reference::HashTable`] has the same calls over a
//! plain list, with the same contract but for `shrink_to`; both run the same tests. [`hash_table::MapHashTable`] is
//! built on `OpenHashTable`: it files each index of a store under the hash of its key, and holds no key.
//!
//! `shrink_to` of `OpenHashTable` and of `MapHashTable` has two clauses more, `needed` and `enough`. They compare the
//! table's cells with `least_cells`, the least number of cells that has room for so many pairs: none, or a power of two
//! from sixteen on. The list has no cells beside its pairs: for n pairs it needs memory for n. So its clause `memory`
//! says already that a refusal leaves more memory than is needed, and its capacity is its memory.
#![tactic(auto)]

pub mod hash_table;
pub mod hash_table_reference;
pub mod open_table;
mod table_entry;
