//! What the functions for C return.
#![tactic(auto)]

/// It is done.
pub const OK: u32 = 0;

/// No item has the key, or the index isn't live. Nothing changed.
pub const MISSING: u32 = 1;

/// An item has a key of the new one that no two items may have. Nothing changed.
pub const DUPLICATE: u32 = 2;

/// There are as many items as there can be. Nothing changed.
pub const FULL: u32 = 3;

/// Memory ran out. No item changed.
pub const MEMORY: u32 = 4;

/// The handle holds no table, or one of another kind or of another library; of a function that makes a table: the
/// handle isn't zero. Nothing changed.
pub const HANDLE: u32 = 5;

/// The buffer is too short. Nothing was written to it, and nothing changed.
pub const SMALL: u32 = 6;

/// A check failed: an item isn't found by one of its keys, or two items share one.
pub const UNSOUND: u32 = 7;

/// There are not as many hashes as hashed keys, or not as many ways as ordered keys; of a function that makes a layer:
/// more than sixteen keys of one kind were asked for. Nothing changed.
pub const COUNT: u32 = 8;

/// The layer has no key of that number. Nothing changed.
pub const KEY: u32 = 9;

/// The way leads to no node, child or gap of the table as it is now. Nothing changed.
pub const WAY: u32 = 10;
