//! Tests of sixteen tags at a time.
ghost use Rattle.std.specs.Int.{w64, trailing_zeros};
ghost use Rattle.std.specs.Prelude.{if◌then◌else◌, ◌==◌, ◌≡◌, ◌+◌, ◌<◌, ◌≤◌, true, length, slice_index};
ghost use Rattle.iddqd_hash.specs.OpenTable.{is_stop, NoStops, AllFull};
ghost use Rattle.iddqd_hash.specs.OpenWalk.{full_mask};

use std::simd::prelude::*;

/// How many of the sixteen places from `at` on come before the first one that is empty or has the tag, or 0 if there
/// are fewer than sixteen.
pub fn run_of_others(tags: &[u8], at: usize, tag: u8) -> usize
    requires { at < length tags.now }
    ensures inside { at + result ≤ length tags.now }
    ensures others { NoStops tag tags.now at result }
{
    if tags.len() - at >= 16 {
        first_stop(tags, at, tag)
    } else {
        0
    }
}

/// How many of the sixteen places from `at` on come before the first one that is empty or has the tag: 16 if there is
/// no such one.
pub fn first_stop(tags: &[u8], at: usize, tag: u8) -> usize
    requires { at + 16 ≤ length tags.now }
    ensures inside { at + result ≤ length tags.now }
    ensures others { NoStops tag tags.now at result }
    ensures stop { result < 16 → is_stop tag (slice_index tags.now (at + result)) ≡ true }
{
    let lanes = u8x16::from_slice(&tags[at..]);
    let stops = lanes.simd_eq(u8x16::splat(tag)) | lanes.simd_eq(u8x16::splat(0));
    first_set(stops.to_bitmask())
}

/// How many of the sixteen places from `at` on come before the first one that isn't full, or 0 if there are fewer than
/// sixteen.
pub fn run_of_full(tags: &[u8], at: usize) -> usize
    requires { at < length tags.now }
    ensures inside { at + result ≤ length tags.now }
    ensures full { AllFull tags.now at result }
{
    if tags.len() - at >= 16 {
        first_free(tags, at)
    } else {
        0
    }
}

fn first_free(tags: &[u8], at: usize) -> usize
    requires { at + 16 ≤ length tags.now }
    ensures inside { at + result ≤ length tags.now }
    ensures full { AllFull tags.now at result }
{
    let lanes = u8x16::from_slice(&tags[at..]);
    first_set(lanes.simd_lt(u8x16::splat(128)).to_bitmask())
}

/// Which of the sixteen places from `at` on are full: a bit for each, the lowest for the first.
pub fn full_places(tags: &[u8], at: usize) -> u64
    requires { at + 16 ≤ length tags.now }
    ensures { result ≡ full_mask tags.now at (at + 16) }
{
    let lanes = u8x16::from_slice(&tags[at..]);
    lanes.simd_ge(u8x16::splat(128)).to_bitmask()
}

// The number of the lowest bit that is set, or 16 if none is.
fn first_set(mask: u64) -> usize
    ensures { result ≡ (if mask == 0 then 16 else trailing_zeros w64 mask) }
{
    if mask == 0 {
        16
    } else {
        mask.trailing_zeros() as usize
    }
}
