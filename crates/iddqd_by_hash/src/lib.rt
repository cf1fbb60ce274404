//! Look-ups and removals by one key of a store's items, in a hash table of the store's indexes, and how an entry
//! changes when an item is replaced.
//!
//! Each call that reads or changes a table is handed the table, and the store if it reads keys. So a map can have both
//! as plain fields. A type parameter `E` names the key: in `hashed` a borrowed field, in `hashed_item` any key.
#![tactic(auto)]

mod borrowed_key_query;
pub mod hashed;
pub mod hashed_item;
pub mod hashed_move;
