//! Bytes split at the first occurrence of a byte.
ghost use Rattle.std.specs.Prelude.{◌≡◌, ◌==◌, MatchOption, position};
ghost use Rattle.iddqd_lines.specs.Split.{HasNo, IsSplitAt};

// The first position of the byte.
fn find_byte(bytes: &[u8], byte: u8) -> Option<usize>
    ensures { result ≡ position (λ b. b == byte) bytes.now }
{
    bytes.iter().position(|b| *b == byte)
}

/// The bytes before the first such byte, and those after it.
pub(crate) fn split_at_first(bytes: &[u8], byte: u8) -> Option<(&[u8], &[u8])>
    ensures { MatchOption result (HasNo byte bytes.now) (λ parts. IsSplitAt byte bytes.now parts.0.now parts.1.now) }
{
    match find_byte(bytes, byte) {
        Some(at) => Some((&bytes[..at], &bytes[at + 1..])),
        None => None,
    }
}
