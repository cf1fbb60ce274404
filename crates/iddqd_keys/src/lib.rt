//! Keys of a store's items, and queries for them.
//!
//! A type of which no value is made names a key: a field ([`key_of::KeyOf`]), an item's one key, a computed value,
//! several keys in turn, or a key in the reversed order ([`key_kinds`]). A query stands for keys by their hash
//! ([`hash_query::HashQuery`]) or by their order ([`order_query::OrdQuery`]), or for items by their keys
//! ([`item_hash_query`], [`item_order_query`]). The definitions say what a look-up in a table in sync answers: what a
//! scan of all items would.
#![tactic(auto)]

pub mod bounds;
pub mod hash_key;
pub mod hash_query;
pub mod id_hash_item;
pub mod id_ord_item;
pub mod item_hash_query;
pub mod item_order_query;
pub mod key_kinds;
pub mod key_of;
pub mod order_key;
pub mod order_query;
pub mod starts_with;
pub mod text_queries;
pub mod tri_hash_item;
