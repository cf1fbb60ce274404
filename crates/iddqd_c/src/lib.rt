//! Proved tables for programs in C, C++, Rust and other languages.
//!
//! A static library: `include/iddqd.h` declares its functions, and `docs/FROM_C.md` says what of them is proved. A
//! caller holds a table by a handle of two words ([`handle::CTable`]), which begins as zeros. Every function that uses
//! a table takes it out of its handle, makes its calls, and puts it back, so that what the handle holds after one
//! function is what the next one finds. None of them has a condition: for a handle that is closed, or holds a
//! table of another kind, they return an error code ([`iddqd_codes`]).
//!
//! Each function is in parts. The one that C calls takes and puts the table; the one behind it finds out the kind of
//! the table. They are two since what is known of the table is lost where branches join before it is put back. Of keyed
//! items a third one is generic over the key index of the second keys.
#![tactic(auto)]

mod calls;
mod entry;
mod handle;
mod index;
mod keyed;
mod layer;
mod numbers;
mod second_key;
mod table;
mod version;
