//! The checks of raw parts: the first one that fails is told in words.
mod indexes;
mod slots;

use iddqd::internal::ValidateRefusal;
use std::alloc::{AllocError, Global};
use std::fmt::Display;
use std::process::Abort;

// What a check tells, which is `ok` where the parts are sound.
fn words<E: Display + Drop>(
    alloc: Global,
    answer: Result<(), ValidateRefusal<E>>,
) -> Result<String, AllocError> {
    match answer {
        Ok(()) => String::from_str(alloc, "ok"),
        Err(ValidateRefusal::Invalid(error)) => format!(in alloc; "{error}"),
        Err(ValidateRefusal::Memory(error)) => Err(error),
    }
}

// What is told is what is wanted.
fn assert_words(rt: &impl Abort, told: &str, want: &str) {
    assert!(rt; told == want, "{told}");
}
