//! The line that goes on in the next block.
ghost use Rattle.std.specs.Prelude.{◌≡◌, ◌↔◌, ◌++◌, [], Some, None, IsTrue, MatchOption};
ghost use Rattle.std.specs.Option.{option_and_then};
ghost use Rattle.iddqd_lines.specs.Serve.{kept_line};

use crate::line::MAX_LINE;
use std::marker::Model;

/// The beginning of a line that goes on in the next block: at most its first `MAX_LINE` bytes, and whether it has more.
///
/// A longer line is no request, so its other bytes are forgotten. A contract sees the line so far, or `None` once it is
/// longer than `MAX_LINE`.
#[derive(Drop)]
pub(crate) struct LineBuffer {
    bytes: [u8; MAX_LINE],
    len: usize,
    has_more: bool,
}

impl Model for LineBuffer {
    ghost use Rattle.std.specs.Prelude.{List, ℕ, Option, Some, None, IsTrue, take, ◌≡◌, ◌≤◌, if◌then◌else◌};
    ghost use Rattle.iddqd_lines.specs.declared.line.TheConstants.{MAX_LINE};

    ghost Value = { Option (List ℕ) };

    ghost view = { λ l. if l.has_more then None else Some (take l.len l.bytes) };

    ghost invariant = { λ l. (l.len ≤ MAX_LINE) × (IsTrue l.has_more → l.len ≡ MAX_LINE) };
}

impl LineBuffer {
    /// No byte.
    pub(crate) fn new() -> LineBuffer
        ensures { result ≡ Some [] }
    {
        LineBuffer {
            bytes: [0; MAX_LINE],
            len: 0,
            has_more: false,
        }
    }

    /// Whether no line has begun.
    pub(crate) fn is_empty(&self) -> bool
        ensures { IsTrue result ↔ (self.now ≡ Some []) }
    {
        self.len == 0
    }

    /// The line so far, or `None` once it is longer than `MAX_LINE`.
    pub(crate) fn whole(&self) -> Option<&[u8]>
        ensures { MatchOption result (self.now ≡ None) (λ line. self.now ≡ Some line.now) }
    {
        if self.has_more {
            return None;
        }
        Some(&self.bytes[..self.len])
    }

    /// Forgets the line.
    pub(crate) fn clear(&mut self)
        ensures { self.new ≡ Some [] }
    {
        self.len = 0;
        self.has_more = false;
    }

    /// Appends these bytes to the line.
    pub(crate) fn extend(&mut self, bytes: &[u8])
        ensures { self.new ≡ option_and_then (λ line. kept_line (line ++ bytes.now)) self.old }
    {
        let kept = bytes.len().min(MAX_LINE - self.len);
        let end = self.len + kept;
        self.bytes[self.len..end].copy_from_slice(&bytes[..kept]);
        self.len = end;
        self.has_more |= kept < bytes.len();
    }
}
