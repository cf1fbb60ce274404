//! A walk over the full cells of a table, by the tags of sixteen at a time.
//!
//! 1. A mask has a bit for each of sixteen places: whether it is full and the walk hasn't come to it. Each step clears
//!    the lowest bit that is set.
//! 2. The caller knows how many pairs are left, and takes no step if there is none. So the walk never tests for its
//!    end.
ghost use Rattle.std.specs.Prelude.{◌≡◌, ◌+◌, ◌-◌, ◌≤◌, ◌<◌, length, slice_index};
ghost use Rattle.iddqd_hash.specs.OpenTable.{NoneFull};
ghost use Rattle.iddqd_hash.specs.OpenWalk.{IsAhead, IsMultipleOf16, SomeFull};

use super::lanes::full_places;

/// How far a walk over the full places of a table has come.
#[derive(Drop)]
pub struct FullPlaces {
    // The place after the last one that the walk came to. Only contracts read it.
    pub at: usize,
    // The end of the sixteen places that the mask is for.
    pub end: usize,
    // Which of them are full and still ahead. The lowest bit is for the first one.
    pub mask: u64,
}

impl FullPlaces {
    /// A walk from the first place on.
    pub fn new() -> FullPlaces
        ensures at { result.at ≡ 0 }
        ensures end { result.end ≡ 0 }
        ensures mask { result.mask ≡ 0 }
    {
        FullPlaces {
            at: 0,
            end: 0,
            mask: 0,
        }
    }

    /// The next full place.
    #[inline(always)]
    pub fn next(&mut self, tags: &[u8]) -> usize
        requires sixteens { IsMultipleOf16 (length tags.now) }
        requires ahead { IsAhead tags.now self.old.at self.old.end self.old.mask }
        requires some { SomeFull tags.now self.old.at }
        ensures onward { self.old.at ≤ result }
        ensures inside { result < length tags.now }
        ensures gaps { NoneFull tags.now self.old.at (result - self.old.at) }
        ensures full { 128 ≤ slice_index tags.now result }
        ensures behind { self.new.at ≡ result + 1 }
        ensures ahead { IsAhead tags.now self.new.at self.new.end self.new.mask }
    {
        'sixteens: while self.mask == 0 {
            self.mask = full_places(tags, self.end);
            self.at = self.end;
            self.end += 16;
        }
        let here = self.end - 16 + self.mask.trailing_zeros() as usize;
        self.mask &= self.mask - 1;
        self.at = here + 1;
        here
    }
}
