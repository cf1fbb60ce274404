//! Where the bytes of lines come from.
ghost use Rattle.std.specs.Prelude.{◌≡◌, ℕ, Bool, List, Option, false};
ghost use Rattle.std.specs.Io.{ReadsAtMost};
ghost use Rattle.std.specs.Io.KnownBytes.{ReadConsumes};
ghost use Rattle.iddqd_lines.specs.Stream.{FailsOnErr};

use std::io::Read;

/// Gives bytes, and remembers whether a read has failed.
pub trait Source {
    // The bytes that are left, if they are known.
    ghost left: { Self → Option (List ℕ) };

    ghost has_failed: { Self → Bool };

    /// Removes bytes from the front, and returns how many. 0 bytes for a buffer that isn't empty mean the end.
    ///
    /// An error removes none, and the source has failed from then on.
    fn read(&mut self, buf: &mut [u8]) -> Result<usize, ()>
        ensures bound { ReadsAtMost result buf.new }
        ensures bytes { ReadConsumes (left self.old) (left self.new) result buf.new }
        ensures failed { FailsOnErr (has_failed self.old) result (has_failed self.new) };

    /// Whether a read has failed.
    fn failed(&self) -> bool
        ensures { result ≡ has_failed self.now };
}

/// A source over any reader. An interruption is an error like any other.
#[derive(Drop)]
pub struct ReadSource<R> {
    reader: R,
    failed: bool,
}

impl<R: Read> ReadSource<R> {
    /// The source of what the reader has left.
    pub fn new(reader: R) -> ReadSource<R>
        ensures left { ⟦<ReadSource<R> as Source>⟧.left result ≡ R.remaining reader }
        ensures not_failed { ⟦<ReadSource<R> as Source>⟧.has_failed result ≡ false }
    {
        ReadSource {
            reader,
            failed: false,
        }
    }
}

impl<R: Read> Source for ReadSource<R> {
    ghost left = { λ s. R.remaining s.reader };

    ghost has_failed = { λ s. s.failed };

    fn read(&mut self, buf: &mut [u8]) -> Result<usize, ()> {
        match self.reader.read(buf) {
            Ok(count) => Ok(count),
            Err(_) => {
                self.failed = true;
                Err(())
            }
        }
    }

    fn failed(&self) -> bool {
        self.failed
    }
}
