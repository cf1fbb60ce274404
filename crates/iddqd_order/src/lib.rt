//! An ordered table of indexes, searched by a closure that is asked about stored indexes.
//!
//! The closure may answer anything, and differently at each call. The table still keeps each index once,
//! and a logarithm bounds the number of asks of a search.
//!
//! [`btree_table::MapBTreeTable`] is a tree. `OrderedTable` of `iddqd_order_reference` is a sorted vector. Its calls to
//! search, add and remove have the same contract of the indexes and of the asks. Both run the same tests.
#![tactic(auto)]

pub mod btree_table;
