//! The index layer alone, for records that lie elsewhere: which indexes are live, and for each key a table of them.
//!
//! The owner of the records keeps them in memory of its own, and hashes and compares its own keys. So no call here
//! takes a closure. A look-up by hash gives the indexes under a hash. A search in order is carried out by the owner, a
//! node at a time, and an insert gets the place where it ended, as a [`Way`](way::Way).
//!
//! How many keys there are is chosen when a [`Layer`](layer::Layer) is made. Whatever its owner answers, each table has
//! each live index exactly once, and no other. That look-ups find what they should is up to the owner: it holds if
//! equal keys have equal hashes and the comparisons are those of one order.
#![tactic(auto)]

mod hashed_keys;
pub mod layer;
mod ordered_keys;
pub mod refusal;
pub mod run;
pub mod way;
