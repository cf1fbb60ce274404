//! Items with two keys each, and commands over them.
//!
//! [`keyed_items::KeyedItems`] keeps items that contain their two keys, and obeys one command at a time
//! or a list of them.
#![tactic(auto)]

pub mod command;
pub mod keyed_item;
pub mod keyed_items;
