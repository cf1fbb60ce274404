//! A list of distinct indexes in an order that only closures know.
//!
//! No table holds keys. Each search takes an [`Asking`](asking::Asking), which is asked about
//! stored indexes and counts how often. `Less` means that what is sought stands before the index.
//!
//! A node owns its children, so definitions recurse over it. Two other layouts were rejected: nodes in one
//! vector, linked by numbers, were up to a fifth faster in large tables, but need an invariant that relates
//! numbers to nodes; a sorted vector shifts its elements at each change. Rows are searched by halves, since an
//! ask costs what the caller's comparison costs. The count of asks is ghost data; only `Asking::new` and `ask`
//! set it.
//!
//! Each inner node owns one block of memory. A tree of n indexes has at most `(n + 19) / 30` inner nodes,
//! since each but the root has at least six children and five indexes. So with R blocks reserved, in the
//! tree and beside it, no insert up to `30 * R + 10` indexes needs another block, whatever was added and
//! removed before. This number is the capacity.
pub mod asking;
mod blocks;
mod clearing;
mod copies;
mod cursor;
mod descent;
pub mod entry;
mod front;
pub mod gap;
pub mod into_iter;
pub mod iter;
mod memory;
mod nearby;
mod node;
mod path;
pub mod prepared_insert;
pub mod prepared_move;
pub mod prepared_remove;
pub mod range;
pub mod reading;
mod removal;
mod renaming;
mod reserve;
mod retain;
mod row;
pub mod search;
pub mod spot;
mod spot_cursor;
mod state;
pub mod stepping;
mod stepping_reads;
mod stepping_walks;
pub mod table;
mod tree;
mod validation;

pub use asking::Asking;
pub use blocks::Blocks;
pub use entry::{Entry, OccupiedEntry, VacantEntry};
pub use gap::Gap;
pub use into_iter::IntoIter;
pub use iter::Iter;
pub use prepared_insert::PreparedBTreeInsert;
pub use prepared_move::PreparedBTreeMove;
pub use prepared_remove::PreparedBTreeRemove;
pub use range::Range;
pub use reading::Reads;
pub use spot::Spot;
pub use stepping::Descent;
pub use table::MapBTreeTable;
