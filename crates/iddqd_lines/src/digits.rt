//! The decimal digits of a number.
ghost use Rattle.std.specs.Prelude.{◌≡◌, ◌<◌, ◌∷◌, [], length};
ghost use Rattle.std.specs.Fmt.{decimal};

use std::marker::Model;

/// The most decimal digits of a number of 32 bits.
pub(crate) const MAX_DIGITS: usize = 10;

/// The decimal digits of a number, as ASCII.
#[derive(Drop)]
pub(crate) struct Digits {
    bytes: [u8; MAX_DIGITS],
    // Where the digits begin. They go up to the end.
    start: usize,
}

impl Model for Digits {
    ghost use Rattle.std.specs.Prelude.{List, ℕ, drop, ◌≤◌};
    ghost use Rattle.iddqd_lines.specs.declared.digits.TheConstants.{MAX_DIGITS};

    ghost Value = { List ℕ };

    ghost view = { λ d. drop d.start d.bytes };

    ghost invariant = { λ d. d.start ≤ MAX_DIGITS };
}

impl Digits {
    /// The digits of a number.
    pub(crate) fn of(number: u32) -> Digits
        ensures { result ≡ decimal number }
    {
        let mut digits = Digits {
            bytes: [0; MAX_DIGITS],
            start: MAX_DIGITS,
        };
        let mut rest = number;
        while rest >= 10 {
            digits.put_front(b'0' + (rest % 10) as u8);
            rest /= 10;
        }
        digits.put_front(b'0' + rest as u8);
        digits
    }

    /// The digits as text.
    pub(crate) fn as_slice(&self) -> &[u8]
        ensures { result.now ≡ self.now }
    {
        &self.bytes[self.start..]
    }

    fn put_front(&mut self, digit: u8)
        requires { length self.old < MAX_DIGITS }
        ensures { self.new ≡ digit ∷ self.old }
    {
        self.start -= 1;
        self.bytes[self.start] = digit;
    }
}
