//! Sources and sinks that move few bytes a call, and may fail.
ghost use Rattle.std.specs.Prelude.{None};

use iddqd_lines::sink::Sink;
use iddqd_lines::source::Source;
use std::alloc::Global;

/// Gives so many bytes a read at most. At the end of them it may fail.
#[derive(Drop)]
pub(super) struct StepSource<'a> {
    rest: &'a [u8],
    step: usize,
    fails_at_end: bool,
    failed: bool,
}

impl StepSource<'_> {
    pub(super) fn new(bytes: &[u8], step: usize, fails_at_end: bool) -> StepSource<'_> {
        StepSource {
            rest: bytes,
            step,
            fails_at_end,
            failed: false,
        }
    }
}

impl Source for StepSource<'_> {
    ghost left = { λ s. None };

    ghost has_failed = { λ s. s.failed };

    fn read(&mut self, buf: &mut [u8]) -> Result<usize, ()> {
        if self.rest.is_empty() && self.fails_at_end {
            self.failed = true;
            return Err(());
        }
        let count = self.rest.len().min(self.step).min(buf.len());
        let (given, rest) = self.rest.split_at(count);
        buf[..count].copy_from_slice(given);
        self.rest = rest;
        Ok(count)
    }

    fn failed(&self) -> bool {
        self.failed
    }
}

/// Takes so many bytes a write at most. With none it fails at each write.
#[derive(Drop)]
pub(super) struct StepSink {
    taken: Vec<u8>,
    step: usize,
    failed: bool,
}

impl StepSink {
    pub(super) fn new(alloc: Global, step: usize) -> StepSink {
        StepSink {
            taken: Vec::new(alloc),
            step,
            failed: false,
        }
    }

    pub(super) fn taken(&self) -> &[u8] {
        self.taken.as_slice()
    }
}

impl Sink for StepSink {
    ghost written = { λ s. None };

    ghost has_failed = { λ s. s.failed };

    fn write(&mut self, bytes: &[u8]) -> Result<usize, ()> {
        let count = bytes.len().min(self.step);
        let is_refused = count == 0 && !bytes.is_empty();
        if is_refused || self.taken.extend_from_slice(&bytes[..count]).is_err() {
            self.failed = true;
            return Err(());
        }
        Ok(count)
    }

    fn failed(&self) -> bool {
        self.failed
    }
}
