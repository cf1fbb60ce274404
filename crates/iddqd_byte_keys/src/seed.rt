//! The seed of a hash of byte keys, as a caller hands it over.
ghost use Rattle.std.specs.Prelude.{◌≡◌, ◌++◌, IsOk, drop, length, take};
ghost use Rattle.iddqd_byte_keys.specs.Seed.{seed_bytes};

use std::io;
use std::random::RandomSource;

/// A seed of 16 bytes as two numbers, and the source of random bytes that a `RandomState` asks for.
#[derive(Clone, Copy)]
pub struct Seed {
    pub seed1: u64,
    pub seed2: u64,
}

impl RandomSource for Seed {
    /// Fills a buffer with the bytes of the seed, the lowest first. Behind 16 bytes a longer one stays as it was.
    fn fill_bytes(&self, buf: &mut [u8]) -> io::Result<()>
        ensures filled { buf.new ≡ take (length buf.old) (seed_bytes self.now) ++ drop 16 buf.old }
        ensures done { IsOk result }
    {
        let bytes = ((self.seed1 as u128) << 64 | self.seed2 as u128).to_le_bytes();
        let count = buf.len().min(16);
        buf[..count].copy_from_slice(&bytes[..count]);
        Ok(())
    }
}
