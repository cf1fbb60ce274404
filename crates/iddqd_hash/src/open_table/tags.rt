//! The tags of a table with open addressing, a byte for each cell, and probes over them.
//!
//! 1. Tag 0: the cell is empty.
//! 2. Tag 1 (`MARK`): the cell is marked, since its pair was removed.
//! 3. Tag 2 (`PENDING`): the cell has a pair that a rebuild has yet to place.
//! 4. A tag from 128 on: the cell is full. The other seven bits of the tag are the top seven bits of the hash.
//!
//! A place is the number of a cell. A probe goes from the home of a hash by steps of one, from the last place on to the
//! first, up to an empty cell.
ghost use Rattle.std.specs.Prelude.{◌≡◌, ◌+◌, ◌<◌, ◌≤◌, ◌%◌, true, length, slice_index, IfSome};
ghost use Rattle.iddqd_hash.specs.OpenTable.{tag_of, has_pair, limit_of, usable_of, is_stop, IsPowerOfTwo, HasEmpty, Skips, IsFree};
ghost use Rattle.iddqd_hash.specs.OpenRebuild.{IsPastFull};
ghost use Rattle.iddqd_hash.specs.Sizes.{most_cells};

use crate::open_table::lanes::{first_stop, run_of_full, run_of_others};

/// Up to this number of cells a probe begins with sixteen tags. In a larger table it begins with the home's tag alone:
/// there a cell is mostly in no cache, and the processor fetches the home's cell before it has the tag.
pub const LARGE: usize = 65536;

/// The tag of a cell from which a pair was removed.
pub const MARK: u8 = 1;

/// The tag of a full cell whose pair has this hash.
pub fn tag_of(hash: u64) -> u8
    ensures { result ≡ tag_of hash }
{
    (hash >> 57) as u8 + 128
}

/// Whether the cell with this tag has a pair: it is full, or pending during a rebuild.
#[inline(always)]
pub fn has_pair(tag: u8) -> bool
    ensures { result ≡ has_pair tag }
{
    tag > MARK
}

/// The place where a probe for the hash begins.
pub fn home_of(hash: u64, count: usize) -> usize
    requires { IsPowerOfTwo count }
    ensures { result ≡ hash % count }
{
    hash as usize & (count - 1)
}

/// The place after another. The first comes after the last.
pub fn next(at: usize, count: usize) -> usize
    requires power { IsPowerOfTwo count }
    requires inside { at < count }
    ensures { result ≡ (at + 1) % count }
{
    (at + 1) & (count - 1)
}

/// The first place from the home of the hash on that isn't full.
pub fn free_place(tags: &[u8], hash: u64) -> usize
    requires power { IsPowerOfTwo (length tags.now) }
    requires ends { HasEmpty tags.now }
    ensures free { IsFree tags.now result }
    ensures past_full { IsPastFull tags.now hash result }
{
    free_from(tags, hash, first_place(tags, hash))
}

/// The same place, for a table in which few cells are full and whose tags were just written. There the home is mostly
/// free, and a read of sixteen tags would wait for the writes.
pub fn free_near_home(tags: &[u8], hash: u64) -> usize
    requires power { IsPowerOfTwo (length tags.now) }
    requires ends { HasEmpty tags.now }
    ensures free { IsFree tags.now result }
    ensures past_full { IsPastFull tags.now hash result }
{
    free_from(tags, hash, home_of(hash, tags.len()))
}

// The first place from `from` on that isn't full.
#[inline(always)]
fn free_from(tags: &[u8], hash: u64, from: usize) -> usize
    requires power { IsPowerOfTwo (length tags.now) }
    requires ends { HasEmpty tags.now }
    requires past_full { IsPastFull tags.now hash from }
    requires inside { from < length tags.now }
    ensures free { IsFree tags.now result }
    ensures past_full { IsPastFull tags.now hash result }
{
    let count = tags.len();
    let mut at = from;
    while tags[at] >= 128 {
        at = past_full(tags, next(at, count));
    }
    at
}

// The home, or a place after it that a probe comes to past full cells alone.
fn first_place(tags: &[u8], hash: u64) -> usize
    requires power { IsPowerOfTwo (length tags.now) }
    ensures { IsPastFull tags.now hash result }
{
    let home = home_of(hash, tags.len());
    if tags.len() > LARGE {
        home
    } else {
        past_full(tags, home)
    }
}

// Skips full places from `at` on, at most sixteen.
fn past_full(tags: &[u8], at: usize) -> usize
    requires power { IsPowerOfTwo (length tags.now) }
    requires inside { at < length tags.now }
    ensures { IsPastFull tags.now at result }
{
    (at + run_of_full(tags, at)) & (tags.len() - 1)
}

/// Skips places from `at` on that aren't empty and have another tag, at most sixteen. The first comes after the last.
pub fn past_others(tags: &[u8], at: usize, tag: u8) -> usize
    requires power { IsPowerOfTwo (length tags.now) }
    requires inside { at < length tags.now }
    ensures { Skips tags.now tag at result }
{
    (at + run_of_others(tags, at, tag)) & (tags.len() - 1)
}

/// The first of the sixteen places from `at` on that is empty or has the tag. `None` if there is no such one, or if
/// there are fewer than sixteen places.
pub fn near_stop(tags: &[u8], at: usize, tag: u8) -> Option<usize>
    requires power { IsPowerOfTwo (length tags.now) }
    requires inside { at < length tags.now }
    ensures inside { IfSome result (λ place. place < length tags.now) }
    ensures skips { IfSome result (λ place. Skips tags.now tag at place) }
    ensures stop { IfSome result (λ place. is_stop tag (slice_index tags.now place) ≡ true) }
{
    if tags.len() - at < 16 {
        return None;
    }
    let run = first_stop(tags, at, tag);
    if run < 16 { Some(at + run) } else { None }
}

/// How many of `count` cells may be full or marked: seven of eight.
pub fn limit_of(count: usize) -> usize
    ensures { result ≡ limit_of count }
{
    count / 8 * 7
}

/// How many pairs `count` cells may have: thirteen of sixteen.
pub fn usable_of(count: usize) -> usize
    ensures { result ≡ usable_of count }
{
    count / 16 * 13
}

/// The least number of cells that may have `needed` pairs. `None` if these would be more than 2^59 cells.
pub fn count_for(needed: usize) -> Option<usize>
    requires { 0 < needed }
    ensures power { IfSome result (λ count. IsPowerOfTwo count) }
    ensures fits { IfSome result (λ count. needed ≤ usable_of count) }
    ensures few { IfSome result (λ count. count ≤ most_cells needed) }
{
    for exponent in 4..60u32 {
        let count = 1usize << exponent;
        if needed <= usable_of(count) {
            return Some(count);
        }
    }
    None
}
