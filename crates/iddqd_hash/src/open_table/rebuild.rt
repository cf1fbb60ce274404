//! Rebuilds a table in the cells that it has: every pair is placed anew, and no mark is left. No memory is taken.
//!
//! First the tag of every full cell becomes `PENDING`, and every mark becomes the tag of an empty cell. Then each
//! pending pair is taken out of its cell and put into the first cell from its home that is empty or pending. If that
//! cell is pending, its own pair is taken out in exchange and placed next.
//!
//! A placed pair never moves again, and a probe for its hash comes to it past placed pairs alone: this is what
//! `IsPartlyPlaced` says. Each exchange leaves one pending tag fewer, so the exchanges end. The full hashes are kept
//! beside the values, so no value is hashed again.
ghost use Rattle.std.specs.Prelude.{◌≡◌, ◌≢◌, ◌<◌, ◌≤◌, ℕ, count_by, Some, None, IsSome, length, slice_index, slice_set};
ghost use Rattle.std.specs.List.Sorted.{IsPermutation};
ghost use Rattle.iddqd_hash.specs.OpenTable.{tag_of, limit_of, is_used, slots_of, slot_at, pairs, IsPowerOfTwo, IsProbed};
ghost use Rattle.iddqd_hash.specs.OpenRebuild.{pending, IsPartlyPlaced, NoNewPending};

use crate::open_table::cell_kinds::Cell;
use crate::open_table::cells::{put, take};
use crate::open_table::tags::{free_place, limit_of, tag_of};

// The tag of a cell whose pair isn't placed yet.
const PENDING: u8 = 2;

/// Rebuilds the table if no more cells may be full or marked. Returns how many are full or marked afterwards.
///
/// They are below the limit then, so one more pair may be added.
pub fn rebuild_at_limit<T, C: Cell<T>>(
    tags: &mut [u8],
    cells: &mut [C],
    used: usize,
    len: usize,
) -> usize
    requires power { IsPowerOfTwo (length tags.old) }
    requires probed { IsProbed tags.old (slots_of C.slot tags.old cells.old) }
    requires used { used ≡ count_by is_used tags.old }
    requires len { len ≡ length (pairs (slots_of C.slot tags.old cells.old)) }
    requires fits { len < limit_of (length tags.old) }
    ensures moved { IsPermutation (pairs (slots_of C.slot tags.old cells.old))
        (pairs (slots_of C.slot tags.new cells.new)) }
    ensures probed { IsProbed tags.new (slots_of C.slot tags.new cells.new) }
    ensures used { result ≡ count_by is_used tags.new }
    ensures limited { result < limit_of (length tags.old) }
{
    if used < limit_of(tags.len()) {
        return used;
    }
    rebuild(tags, cells);
    len
}

// Places every pair again in the same cells, and leaves no mark. It costs a walk over the cells, and a probe for each
// pair.
#[cold]
#[inline(never)]
fn rebuild<T, C: Cell<T>>(tags: &mut [u8], cells: &mut [C])
    requires power { IsPowerOfTwo (length tags.old) }
    requires probed { IsProbed tags.old (slots_of C.slot tags.old cells.old) }
    requires fits { length (pairs (slots_of C.slot tags.old cells.old)) ≤ limit_of (length tags.old) }
    ensures moved { IsPermutation (pairs (slots_of C.slot tags.old cells.old))
        (pairs (slots_of C.slot tags.new cells.new)) }
    ensures probed { IsProbed tags.new (slots_of C.slot tags.new cells.new) }
    ensures unmarked { count_by is_used tags.new ≡ length (pairs (slots_of C.slot tags.new cells.new)) }
{
    reset_tags(tags);
    for at in 0..tags.len() {
        if tags[at] != PENDING {
            continue;
        }
        place_pending(tags, cells, at);
    }
}

// Makes every full cell pending, and every marked one empty.
fn reset_tags(tags: &mut [u8])
    ensures full { (k : ℕ) → 128 ≤ slice_index tags.old k → slice_index tags.new k ≡ pending }
    ensures others { (k : ℕ) → slice_index tags.old k < 128 → slice_index tags.new k ≡ 0 }
{
    for at in 0..tags.len() {
        tags[at] = reset_tag(tags[at]);
    }
}

// The tag that a rebuild gives to a cell at its start.
fn reset_tag(tag: u8) -> u8
    ensures full { 128 ≤ tag → result ≡ pending }
    ensures others { tag < 128 → result ≡ 0 }
{
    if tag >= 128 { PENDING } else { 0 }
}

// Places the pair of a pending cell, then the pair whose pending cell it took, and so on.
fn place_pending<T, C: Cell<T>>(tags: &mut [u8], cells: &mut [C], at: usize)
    requires power { IsPowerOfTwo (length tags.old) }
    requires partly_placed { IsPartlyPlaced tags.old (slots_of C.slot tags.old cells.old) }
    requires fits { length (pairs (slots_of C.slot tags.old cells.old)) ≤ limit_of (length tags.old) }
    requires inside { at < length tags.old }
    requires pending { slice_index tags.old at ≡ pending }
    ensures moved { IsPermutation (pairs (slots_of C.slot tags.old cells.old))
        (pairs (slots_of C.slot tags.new cells.new)) }
    ensures partly_placed { IsPartlyPlaced tags.new (slots_of C.slot tags.new cells.new) }
    ensures not_pending { slice_index tags.new at ≢ pending }
    ensures none_new { NoNewPending tags.old tags.new }
{
    let (mut hash, mut value) = take(tags, cells, at, 0);
    let mut place = free_place(tags, hash);
    'placing: while tags[place] == PENDING {
        (hash, value) = replace_pair(tags, cells, place, hash, value);
        place = free_place(tags, hash);
    }
    put(tags, cells, place, hash, value);
}

// Puts a pair into a cell that has one, and returns the pair that it had.
fn replace_pair<T, C: Cell<T>>(
    tags: &mut [u8],
    cells: &mut [C],
    place: usize,
    hash: u64,
    value: T,
) -> (u64, T)
    requires inside { place < length tags.old }
    requires same_length { length cells.old ≡ length tags.old }
    requires some { IsSome (slot_at (slots_of C.slot tags.old cells.old) place) }
    ensures pair { slot_at (slots_of C.slot tags.old cells.old) place ≡ Some result }
    ensures tags { tags.new ≡ slice_set tags.old place (tag_of hash) }
    ensures slots { slots_of C.slot tags.new cells.new
        ≡ slice_set (slots_of C.slot tags.old cells.old) place (Some (hash, value)) }
{
    tags[place] = tag_of(hash);
    cells[place].replace(hash, value)
}
