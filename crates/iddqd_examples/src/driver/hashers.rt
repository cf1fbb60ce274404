//! Hashers whose hashes can be foretold.
ghost use Rattle.std.specs.Prelude.{◌+◌, ◌%◌, ◌^◌};
ghost use Rattle.std.specs.List.{fold};

use std::hash::{BuildHasher, Hasher};

/// A hasher that gives every key the hash 7.
#[derive(Clone, Copy)]
pub(crate) struct Constant;

impl Hasher for Constant {
    ghost write = { λ h _. h };

    ghost finish = { λ _. 7 };

    fn finish(&self) -> u64 {
        7
    }

    fn write(&mut self, _bytes: &[u8]) {}
}

impl BuildHasher for Constant {
    type Hasher = Constant;

    ghost build_hasher = { λ s. s };

    fn build_hasher(&self) -> Constant {
        *self
    }
}

/// A hasher that sums the bytes that are written to it.
#[derive(Clone, Copy)]
pub(crate) struct Sum(pub(crate) u64);

impl Hasher for Sum {
    ghost write = { λ h bytes. record { 0 = fold (λ sum byte. (sum + byte) % 2 ^ 64) h.0 bytes } };

    ghost finish = { λ h. h.0 };

    fn finish(&self) -> u64 {
        self.0
    }

    fn write(&mut self, bytes: &[u8]) {
        for byte in bytes {
            self.0 = self.0.wrapping_add(u64::from(*byte));
        }
    }
}

impl BuildHasher for Sum {
    type Hasher = Sum;

    ghost build_hasher = { λ s. s };

    fn build_hasher(&self) -> Sum {
        *self
    }
}
