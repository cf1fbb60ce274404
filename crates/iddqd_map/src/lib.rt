//! Maps written once: a store of items, and what they are found by.
//!
//! [`map::Map`] is a store with a [`key_index::KeyIndex`]: a [`by_hash::ByHash`] has one key by its hash, and a
//! [`pair::Pair`] puts two key indexes together. `iddqd_groups` has one for a key that several items may have.
//! Three maps have names of their own: [`id_hash_map::IdHashMap`], [`bi_hash_map::BiHashMap`] and
//! [`tri_hash_map::TriHashMap`], with one, two and three keys.
#![tactic(auto)]

pub mod bi_hash_map;
pub mod by_hash;
pub mod grouped_at;
pub mod hashed_plan;
mod hashed_query;
mod hashed_steps;
pub mod id_hash_map;
pub mod key_index;
pub mod map;
pub mod mix;
pub mod no_conflict;
pub mod pair;
pub mod pair_conflict;
pub mod pair_hashes;
pub mod refusal;
mod reported;
pub mod selection;
pub mod tri_hash_map;
pub mod verdict;
mod word;
