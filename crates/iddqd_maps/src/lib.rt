//! Maps whose keys live inside their values: a store of items, and a table for each key.
//!
//! Four maps have names of their own. A map with any other mix of keys is a [`map::Map`] by a [`pair::Pair`] of key
//! indexes. Each is a [`by_hash::ByHash`] or a [`by_order::ByOrder`]; a [`by_hash_multi::ByHashMulti`] or a
//! [`by_order_multi::ByOrderMulti`], whose key several items may have; or a pair again.
//!
//! A key is one field, a computed value, or several keys in turn ([`key_kinds`]); [`id_hash_map::HashMapBy`] and its
//! like take any.
//!
//! A contract sees a map as items in slots under stable indexes, no two of which share a unique key. No call gives
//! a stored item another key without updating the tables, so a look-up always answers as a scan of all items would.
//!
//! What callers name of the crates below is re-exported here. First come the maps, the traits of their items, the kinds
//! of key, and what calls return; then what a mix of keys is made of; then the modules. The iterators but `GroupItems`
//! stand in their modules, since those of hashed maps and those in order have the same names.
#![tactic(auto)]

// The maps.
pub use iddqd_map::bi_hash_map::{BiHashMap, BiHashMapBy};
pub use iddqd_map::id_hash_map::{HashMapBy, IdHashMap};
pub use iddqd_map::map::Map;
pub use iddqd_map::tri_hash_map::{TriHashMap, TriHashMapBy};
pub use iddqd_ord_map::id_ord_map::{IdOrdMap, OrdMapBy};

// What items implement, or a type that names one of their keys.
pub use iddqd_keys::key_kinds::ComputedKey;
pub use iddqd_keys::key_of::KeyOf;
pub use iddqd_map::bi_hash_map::BiHashItem;
pub use iddqd_map::id_hash_map::IdHashItem;
pub use iddqd_map::mix::CloneFor;
pub use iddqd_map::tri_hash_map::TriHashItem;
pub use iddqd_ord_map::id_ord_map::IdOrdItem;

// Kinds of key, queries for them, and ranges of queries.
pub use iddqd_keys::bounds::{Bounds, IntoBounds};
pub use iddqd_keys::item_order_query::{Part, Prefix};
pub use iddqd_keys::key_kinds::{Computed, Field, ItsKey, Reversed};
pub use iddqd_keys::starts_with::StartsWith;

// Indexes, refusals, and what else calls take or return.
pub use iddqd::internal::{
    TableValidationError, ValidateCompact, ValidateRefusal, ValidationError,
};
pub use iddqd::item_index::ItemIndex;
pub use iddqd_groups::in_groups::GroupItems;
pub use iddqd_map::bi_hash_map::BiClash;
pub use iddqd_map::map::Parts;
pub use iddqd_map::map::sweep::Swept;
pub use iddqd_map::no_conflict::NoConflict;
pub use iddqd_map::pair_conflict::PairConflict;
pub use iddqd_map::refusal::{
    InsertRefusal, OverwriteRefusal, ReplaceRefusal, Stopped, StoppedAppend, StoppedOverwrite,
};
pub use iddqd_map::tri_hash_map::TriClash;
pub use iddqd_map::verdict::Verdict;

// Which items a call goes over.
pub use iddqd_map::selection::{All, Selection, equal, having, within};

// The key indexes of a mix, the places of its keys, and the traits with its calls in order and on groups.
pub use iddqd_groups::by_hash_multi::{ByHashMulti, ByHashMultiOf};
pub use iddqd_groups::in_groups::InGroups;
pub use iddqd_map::by_hash::{ByHash, ByHashOf};
pub use iddqd_map::key_index::{First, Here, Left, Right, Second, Third};
pub use iddqd_map::pair::Pair;
pub use iddqd_ord_map::by_order::{ByOrder, ByOrderOf};
pub use iddqd_ord_map::by_order_multi::{ByOrderMulti, ByOrderMultiOf};
pub use iddqd_ord_map::in_order::InOrder;
pub use iddqd_ord_map::ordered_parts::OrderedParts;

// Traits of keys, of queries and of key indexes, and the default hasher.
pub use iddqd::hash_builder::DefaultHashBuilder;
pub use iddqd_keys::hash_key::HashKey;
pub use iddqd_keys::hash_query::HashQuery;
pub use iddqd_keys::item_hash_query::ItemHashQuery;
pub use iddqd_keys::item_order_query::{ItemOrdQuery, ItemRangeQuery};
pub use iddqd_keys::order_key::OrdKey;
pub use iddqd_keys::order_query::OrdQuery;
pub use iddqd_map::key_index::KeyIndex;

// Modules, for what else they have, as iterators.
pub use iddqd::{
    hash_builder as hash_builder, index_remap as index_remap, item_index as item_index,
    item_set as item_set,
};
pub use iddqd_by_order::ordered_walk as ordered_walk;
pub use iddqd_groups::{
    by_hash_multi as by_hash_multi, hashed_group as hashed_group, in_groups as in_groups,
};
pub use iddqd_keys::{
    bounds as bounds, hash_key as hash_key, hash_query as hash_query,
    item_hash_query as item_hash_query, item_order_query as item_order_query,
    key_kinds as key_kinds, key_of as key_of, order_key as order_key, order_query as order_query,
    starts_with as starts_with,
};
pub use iddqd_map::{
    bi_hash_map as bi_hash_map, by_hash as by_hash, grouped_at as grouped_at,
    id_hash_map as id_hash_map, key_index as key_index, map as map, mix as mix,
    no_conflict as no_conflict, pair as pair, pair_conflict as pair_conflict, refusal as refusal,
    selection as selection, tri_hash_map as tri_hash_map, verdict as verdict,
};
pub use iddqd_ord_map::{
    by_order as by_order, by_order_multi as by_order_multi, id_ord_map as id_ord_map,
    in_order as in_order, ordered_parts as ordered_parts, ranges_at as ranges_at,
};
pub use iddqd_order::btree_table as btree_table;
