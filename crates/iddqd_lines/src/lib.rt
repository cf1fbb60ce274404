//! The line protocol over records of two keys and a value.
//!
//! [`serve::serve`] reads commands from lines and answers each with a line.
#![tactic(auto)]

mod digits;
mod line;
mod line_buffer;
pub mod record;
mod replies;
pub mod serve;
pub mod sink;
pub mod source;
mod split;
