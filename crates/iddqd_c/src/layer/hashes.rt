//! Hashes of a layer's callers, mixed as those of an index are.
ghost use Rattle.std.specs.Prelude.{◌≡◌, ◌≤◌, ◌++◌, drop, length, map};
ghost use Rattle.iddqd_c.specs.Mixing.{mixed};

use crate::numbers::mix;

// Writes each hash, mixed, to its place of the other slice.
pub(crate) fn mix_each(hashes: &[u64], to: &mut [u64])
    requires { length hashes.now ≤ length to.old }
    ensures { to.new ≡ map mixed hashes.now ++ drop (length hashes.now) to.old }
{
    for at in 0..hashes.len() {
        to[at] = mix(hashes[at]);
    }
}
