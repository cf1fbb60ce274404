//! Keys of bytes, and what they are looked up by.
//!
//! Both pass all bytes to the hasher in one call. The `Hash` of a `Vec<u8>` passes each byte in a call of its own, and
//! takes more than five times the instructions for 16 bytes.
#![tactic(auto)]

ghost use Rattle.std.specs.Prelude.{[], ◌∷◌};
ghost use Rattle.std.proofs.Common.{ap};
ghost use Rattle.std.specs.Cmp.{on_equiv, partial_equiv_from_equiv};
ghost use Rattle.std.specs.Cmp.Lexicographic.{bytes_decides, nat_list_eq_equiv};
ghost use Rattle.std.specs.Str.{bytes_eq};

mod seed;

use iddqd_keys::hash_query::HashQuery;
pub use seed::Seed;
use std::hash::{Hash, Hasher};

/// A key: any bytes.
#[derive(Drop)]
pub struct ByteKey {
    pub bytes: Vec<u8>,
}

impl PartialEq for ByteKey {
    ghost eq = { λ x y. bytes_eq x.bytes.items y.bytes.items };

    ghost laws = { partial_equiv_from_equiv (on_equiv (λ key. key.bytes.items) nat_list_eq_equiv) };

    fn eq(&self, other: &ByteKey) -> bool {
        self.bytes.as_slice() == other.bytes.as_slice()
    }
}

impl Eq for ByteKey {
    ghost laws = { on_equiv (λ key. key.bytes.items) nat_list_eq_equiv };
}

impl Hash for ByteKey {
    ghost hash_input = { λ key. key.bytes.items ∷ [] };

    ghost respects_eq = { λ x y same. ap (λ bytes. bytes ∷ []) ((bytes_decides x.bytes.items y.bytes.items).0 same) };

    fn hash<H: Hasher>(&self, state: &mut H) {
        state.write(self.bytes.as_slice());
    }
}

/// Stands for the key with these bytes, in a buffer of the caller's.
#[derive(Clone, Copy)]
pub struct ByteKeyQuery<'a> {
    pub bytes: &'a [u8],
}

impl PartialEq for ByteKeyQuery<'_> {
    ghost eq = { λ x y. bytes_eq x.bytes.now y.bytes.now };

    ghost laws = { partial_equiv_from_equiv (on_equiv (λ query. query.bytes.now) nat_list_eq_equiv) };

    fn eq(&self, other: &Self) -> bool {
        self.bytes == other.bytes
    }
}

impl Eq for ByteKeyQuery<'_> {
    ghost laws = { on_equiv (λ query. query.bytes.now) nat_list_eq_equiv };
}

impl Hash for ByteKeyQuery<'_> {
    ghost hash_input = { λ query. query.bytes.now ∷ [] };

    ghost respects_eq = { λ x y same. ap (λ bytes. bytes ∷ []) ((bytes_decides x.bytes.now y.bytes.now).0 same) };

    fn hash<H: Hasher>(&self, state: &mut H) {
        state.write(self.bytes);
    }
}

impl HashQuery<ByteKey> for ByteKeyQuery<'_> {
    ghost stands_for = { λ query key. bytes_eq query.bytes.now key.bytes.items };

    ghost same_hash = { λ query key same.
        ap (λ bytes. bytes ∷ []) ((bytes_decides query.bytes.now key.bytes.items).0 same) };

    ghost same_key = { λ query x y. nat_list_eq_equiv.congr query.bytes.now x.bytes.items y.bytes.items };

    fn stands_for(&self, key: &ByteKey) -> bool {
        self.bytes == key.bytes.as_slice()
    }
}
