//! A box as a raw pointer, and back.
//!
//! A program in another language can hold a pointer and no box. A `RawBox` owns what the box owned, by its model alone,
//! since a pointer owns nothing. So its two calls have proofs by hand, and their callers need none. Whoever hands the
//! pointer out casts it, since the type of what lies there may not cross.
#![tactic(auto)]

ghost use Rattle.std.specs.Prelude.{◌≡◌};
ghost use Rattle.std.specs.Box.Ownership.{box_owns};

use std::alloc::Allocator;
use std::marker::Model;

/// A box taken apart: the pointer to its value, and the allocator that frees it.
///
/// It isn't `Drop`, so it can't be forgotten by mistake.
pub struct RawBox<T, A: Allocator> {
    pub at: *mut T,
    pub alloc: A,
    pub ghost value: { T },
}

impl<T, A: Allocator> Model for RawBox<T, A> {
    ghost also_owns = { λ raw. box_owns (A.dealloc_token raw.alloc) T.row raw.at raw.value };
}

impl<T: Drop, A: Allocator> RawBox<T, A> {
    /// Takes the box apart. Its value stays where it lies.
    pub fn of(whole: Box<T, A>) -> RawBox<T, A>
        ensures { result.value ≡ whole.value }
    {
        let (at, alloc) = Box::into_raw_with_allocator(whole);
        RawBox { at, alloc }
    }

    /// The box again.
    pub fn into_box(self) -> Box<T, A>
        ensures { result.value ≡ self.value }
    {
        let RawBox { at, alloc } = self;
        unsafe { Box::from_raw(alloc, at) }
    }
}
