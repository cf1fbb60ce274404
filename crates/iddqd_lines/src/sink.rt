//! Where the bytes of replies go.
ghost use Rattle.std.specs.Prelude.{◌≡◌, ◌<◌, ℕ, Bool, List, Option, length, IfOk, false};
ghost use Rattle.std.specs.Io.{WritesAtMost};
ghost use Rattle.std.specs.Io.KnownBytes.{WriteAppends};
ghost use Rattle.iddqd_lines.specs.Stream.{FailsOnErr};

use std::io::Write;

/// Takes bytes, and remembers whether a write has failed.
pub trait Sink {
    // The bytes that were written, if they are known.
    ghost written: { Self → Option (List ℕ) };

    ghost has_failed: { Self → Bool };

    /// Appends a prefix of the bytes, of at least one byte if there is one, and returns its length.
    ///
    /// An error appends none, and the sink has failed from then on.
    fn write(&mut self, bytes: &[u8]) -> Result<usize, ()>
        ensures bound { WritesAtMost result bytes.now }
        ensures bytes { WriteAppends (written self.old) (written self.new) result bytes.now }
        ensures some { 0 < length bytes.now → IfOk result (λ n. 0 < n) }
        ensures failed { FailsOnErr (has_failed self.old) result (has_failed self.new) };

    /// Whether a write has failed.
    fn failed(&self) -> bool
        ensures { result ≡ has_failed self.now };
}

/// A sink over any writer. A writer that takes 0 of some bytes has failed.
#[derive(Drop)]
pub struct WriteSink<W> {
    writer: W,
    failed: bool,
}

impl<W: Write> WriteSink<W> {
    /// The sink that appends to what the writer holds.
    pub fn new(writer: W) -> WriteSink<W>
        ensures written { ⟦<WriteSink<W> as Sink>⟧.written result ≡ W.contents writer }
        ensures not_failed { ⟦<WriteSink<W> as Sink>⟧.has_failed result ≡ false }
    {
        WriteSink {
            writer,
            failed: false,
        }
    }
}

impl<W: Write> Sink for WriteSink<W> {
    ghost written = { λ s. W.contents s.writer };

    ghost has_failed = { λ s. s.failed };

    fn write(&mut self, bytes: &[u8]) -> Result<usize, ()> {
        match self.writer.write(bytes) {
            Ok(0) if !bytes.is_empty() => {
                self.failed = true;
                Err(())
            }
            Ok(count) => Ok(count),
            Err(_) => {
                self.failed = true;
                Err(())
            }
        }
    }

    fn failed(&self) -> bool {
        self.failed
    }
}
