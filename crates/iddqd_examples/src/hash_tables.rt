//! The hash tables: what is found under a hash, and how often a look-up asks.
//!
//! The values are numbers, and letters as their codes.
mod agreement;
mod entries;
mod found;
mod linear;
mod many;
mod map;
mod open;
mod plain;
mod sizes;

const A: u32 = 97;

const B: u32 = 98;

const C: u32 = 99;

const D: u32 = 100;

const E: u32 = 101;
