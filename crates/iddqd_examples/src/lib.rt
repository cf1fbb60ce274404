//! Each worked example of the specification is a test, and so is a caller of each call that no other crate makes.
//!
//! The gate proves the tests, which shows that callers can meet the conditions of the calls. It also runs them, which
//! shows that the calls answer as the examples say. The library itself is empty.
#![tactic(auto)]

#[cfg(test)]
mod checks;
#[cfg(test)]
mod driver;
#[cfg(test)]
mod hash_tables;
#[cfg(test)]
mod lines;
#[cfg(test)]
mod ordered_table;
#[cfg(test)]
mod store;
#[cfg(test)]
mod tri;
