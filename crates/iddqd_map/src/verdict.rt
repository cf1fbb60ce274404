//! What a closure answers at an item of a selection.
ghost use Rattle.std.specs.Prelude.{◌≡◌};
ghost use Rattle.iddqd_map.specs.Sweep.{kept_if, kept_if_ok};

/// What becomes of an item that a call has shown to a closure.
#[derive(Clone, Copy)]
pub enum Verdict {
    /// The item stays, and the call goes on.
    Keep,
    /// The item is removed, and the call goes on.
    Remove,
    /// The item stays, and the call ends.
    Stop,
}

/// An answer of a closure, as one of three verdicts.
pub(crate) trait Answer: Sized + Drop {
    ghost use Rattle.iddqd_map.specs.declared.verdict.Verdict.{Verdict};

    ghost reads: { Self → Verdict };

    /// The verdict as which it reads.
    fn verdict(&self) -> Verdict
        ensures { result ≡ reads self.now };
}

impl Answer for Verdict {
    ghost reads = { λ verdict. verdict };

    fn verdict(&self) -> Verdict {
        *self
    }
}

impl Answer for bool {
    ghost reads = { kept_if };

    fn verdict(&self) -> Verdict {
        if *self {
            Verdict::Keep
        } else {
            Verdict::Remove
        }
    }
}

impl<E: Drop> Answer for Result<bool, E> {
    ghost reads = { kept_if_ok };

    fn verdict(&self) -> Verdict {
        match self {
            Ok(kept) => kept.verdict(),
            Err(_) => Verdict::Stop,
        }
    }
}
