//! A key index in the order of a key, and a map by it.
#![tactic(auto)]

pub mod by_order;
pub mod by_order_multi;
pub mod id_ord_map;
pub mod in_order;
pub mod ordered_move;
pub mod ordered_parts;
pub mod ordered_query;
pub mod ordered_steps;
pub mod ranges_at;
