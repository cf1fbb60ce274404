//! Items with two or three keys, commands over them, and the line protocol.
//!
//! [`keyed_items::KeyedItems`] keeps items with two keys, which may change without its tables being updated, and obeys
//! commands. [`tri_items::TriItems`] keeps items with three keys. [`serve::serve`] reads commands from lines and
//! answers each with a line, from a [`source::Source`] to a [`sink::Sink`].
//!
//! It re-exports the crates `iddqd_driver`, `iddqd_tri` and `iddqd_lines`, and the module `tri_hash_item` of
//! `iddqd_keys`. `iddqd_tri` stands on neither of the other two, so it can be proved at the same time.
#![tactic(auto)]

pub use iddqd_driver::{command as command, keyed_item as keyed_item, keyed_items as keyed_items};
pub use iddqd_keys::tri_hash_item as tri_hash_item;
pub use iddqd_lines::{record as record, serve as serve, sink as sink, source as source};
pub use iddqd_tri::{tri_items as tri_items, tri_refusal as tri_refusal};
