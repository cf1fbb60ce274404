//! `KeyedItems`, by scripts of calls and as wholes.
pub(crate) mod calls;
mod checks;
mod compaction;
mod comparisons;
mod counted;
pub(crate) mod hashers;
mod inserts;
mod limits;
pub(crate) mod pair;
pub(crate) mod script;
mod silent;
mod whole;
