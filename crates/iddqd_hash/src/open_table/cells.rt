//! Look-ups and changes in the cells of a table with open addressing, by their tags.
ghost use Rattle.std.specs.Prelude.{◌≡◌, ◌+◌, ◌<◌, ◌≤◌, ◌%◌, vec_len, count_by, Some, None, IsSome, IfSome, length, replicate, slice_index, slice_set};
ghost use Rattle.std.specs.Fn.{TakesAt, CalledAt, FnReturnsAt};
ghost use Rattle.std.specs.List.{Contains};
ghost use Rattle.std.specs.Option.{option_map};
ghost use Rattle.std.specs.List.Sorted.{IsPermutation};
ghost use Rattle.iddqd_hash.specs.Asks.{CanAsk, RetainsPairsTo};
ghost use Rattle.iddqd_hash.specs.HashTable.{under, value_of, values, Rewrites};
ghost use Rattle.iddqd_hash.specs.OpenWalk.{IsMultipleOf16};
ghost use Rattle.iddqd_hash.specs.OpenTable.{tag_of, limit_of, is_used, hashes_of, has_pair, slots_of, slot_at, pairs, IsPowerOfTwo, HasEmpty, IsProbed, FindsNext, FindsSlot};

use crate::open_table::cell_kinds::Cell;
use crate::open_table::places::FullPlaces;
use crate::open_table::tags::{
    LARGE, MARK, free_near_home, has_pair, home_of, near_stop, next, past_others, tag_of,
};

/// The pair in a full cell.
#[inline(always)]
pub(super) fn pair_at<'a, T, C: Cell<T>>(tags: &[u8], cells: &'a [C], place: usize) -> (u64, &'a T)
    requires inside { place < length tags.now }
    requires probed { IsProbed tags.now (slots_of C.slot tags.now cells.now) }
    requires full { 128 ≤ slice_index tags.now place }
    ensures { slot_at (slots_of C.slot tags.now cells.now) place ≡ Some (result.0, result.1.now) }
{
    prove!(tags[place] >= 128);
    cells[place].pair()
}

/// The first place from `from` on that has a pair under the hash, or `None` if an empty cell comes first.
#[inline(always)]
pub(super) fn next_match<T, C: Cell<T>>(
    tags: &[u8],
    cells: &[C],
    from: usize,
    hash: u64,
) -> Option<usize>
    requires power { IsPowerOfTwo (length tags.now) }
    requires ends { HasEmpty tags.now }
    requires probed { IsProbed tags.now (slots_of C.slot tags.now cells.now) }
    requires inside { from < length tags.now }
    ensures { FindsNext tags.now (slots_of C.slot tags.now cells.now) hash from result }
{
    let count = tags.len();
    let tag = tag_of(hash);
    let mut at = past_others(tags, from, tag);
    while tags[at] != 0 {
        if tags[at] == tag && pair_at(tags, cells, at).0 == hash {
            return Some(at);
        }
        at = past_others(tags, next(at, count), tag);
    }
    None
}

// The same, out of line, for the rare look-up whose first value doesn't match. So the code of a look-up that ends at
// its first value is short, and the processor works on more look-ups at a time.
#[cold]
#[inline(never)]
fn later_match<T, C: Cell<T>>(tags: &[u8], cells: &[C], from: usize, hash: u64) -> Option<usize>
    requires power { IsPowerOfTwo (length tags.now) }
    requires ends { HasEmpty tags.now }
    requires probed { IsProbed tags.now (slots_of C.slot tags.now cells.now) }
    requires inside { from < length tags.now }
    ensures { FindsNext tags.now (slots_of C.slot tags.now cells.now) hash from result }
{
    next_match(tags, cells, from, hash)
}

/// The same answer as `next_match`. The place is mostly near, so the first stop is tried before the loop.
#[inline(always)]
pub(super) fn near_match<T, C: Cell<T>>(
    tags: &[u8],
    cells: &[C],
    from: usize,
    hash: u64,
) -> Option<usize>
    requires power { IsPowerOfTwo (length tags.now) }
    requires ends { HasEmpty tags.now }
    requires probed { IsProbed tags.now (slots_of C.slot tags.now cells.now) }
    requires inside { from < length tags.now }
    ensures { FindsNext tags.now (slots_of C.slot tags.now cells.now) hash from result }
{
    let tag = tag_of(hash);
    if tags.len() > LARGE {
        if tags[from] == tag && pair_at(tags, cells, from).0 == hash {
            return Some(from);
        }
    } else if let Some(near) = near_stop(tags, from, tag) {
        if tags[near] != tag {
            return None;
        }
        if pair_at(tags, cells, near).0 == hash {
            return Some(near);
        }
    }
    next_match(tags, cells, from, hash)
}

/// The place and the value of the pair that a look-up hits.
#[inline(always)]
pub(super) fn find_cell<'a, T, C: Cell<T>, F: FnMut(&T) -> bool>(
    tags: &[u8],
    cells: &'a [C],
    hash: u64,
    mut eq: F,
) -> Option<(usize, &'a T)>
    requires power { IsPowerOfTwo (length tags.now) }
    requires ends { HasEmpty tags.now }
    requires probed { IsProbed tags.now (slots_of C.slot tags.now cells.now) }
    requires callable { CanAsk (TakesAt F.FnMut) (CalledAt F.FnMut) eq
        (under hash (pairs (slots_of C.slot tags.now cells.now))) }
    ensures place { FindsSlot (CalledAt F.FnMut) eq hash (slots_of C.slot tags.now cells.now)
        (option_map (λ found. found.0) result) }
    ensures value { IfSome result
        (λ found. slot_at (slots_of C.slot tags.now cells.now) found.0 ≡ Some (hash, found.1.now)) }
{
    let mut found = near_match(tags, cells, home_of(hash, tags.len()), hash);
    while let Some(place) = found {
        let value = pair_at(tags, cells, place).1;
        if eq(value) {
            return Some((place, value));
        }
        found = later_match(tags, cells, next(place, tags.len()), hash);
    }
    None
}

/// Puts a pair into a cell that has none.
pub(super) fn put<T, C: Cell<T>>(
    tags: &mut [u8],
    cells: &mut [C],
    place: usize,
    hash: u64,
    value: T,
)
    requires inside { place < length tags.old }
    requires same_length { length cells.old ≡ length tags.old }
    requires free { slot_at (slots_of C.slot tags.old cells.old) place ≡ None }
    ensures tags { tags.new ≡ slice_set tags.old place (tag_of hash) }
    ensures slots { slots_of C.slot tags.new cells.new
        ≡ slice_set (slots_of C.slot tags.old cells.old) place (Some (hash, value)) }
{
    tags[place] = tag_of(hash);
    cells[place].fill(hash, value);
}

/// Removes the pair of a cell that has one, and returns it. `tag` is the cell's new tag: 0, as of an empty cell, or
/// `MARK`.
pub(super) fn take<T, C: Cell<T>>(
    tags: &mut [u8],
    cells: &mut [C],
    place: usize,
    tag: u8,
) -> (u64, T)
    requires inside { place < length tags.old }
    requires same_length { length cells.old ≡ length tags.old }
    requires some { IsSome (slot_at (slots_of C.slot tags.old cells.old) place) }
    requires tag { tag ≤ 1 }
    ensures pair { slot_at (slots_of C.slot tags.old cells.old) place ≡ Some result }
    ensures tags { tags.new ≡ slice_set tags.old place tag }
    ensures slots { slots_of C.slot tags.new cells.new
        ≡ slice_set (slots_of C.slot tags.old cells.old) place None }
{
    tags[place] = tag;
    cells[place].take()
}

/// Moves every pair of the old cells into the new ones, which are empty.
pub(super) fn move_cells<T, C: Cell<T>>(
    old_tags: &[u8],
    old: &mut Vec<C>,
    tags: &mut [u8],
    cells: &mut [C],
)
    requires same_length { vec_len old.old ≡ length old_tags.now }
    requires power { IsPowerOfTwo (length tags.old) }
    requires no_tag { tags.old ≡ replicate (length tags.old) 0 }
    requires no_pair { slots_of C.slot tags.old cells.old ≡ replicate (length tags.old) None }
    requires fits { length (pairs (slots_of C.slot old_tags.now old.old.items)) ≤ limit_of (length tags.old) }
    ensures none_left { vec_len old.new ≡ 0 }
    ensures moved { IsPermutation (pairs (slots_of C.slot old_tags.now old.old.items))
        (pairs (slots_of C.slot tags.new cells.new)) }
    ensures probed { IsProbed tags.new (slots_of C.slot tags.new cells.new) }
    ensures unmarked { count_by is_used tags.new ≡ length (pairs (slots_of C.slot tags.new cells.new)) }
{
    'moving: while let Some(cell) = old.pop() {
        if let Some((hash, value)) = cell.into_pair(has_pair(old_tags[old.len()])) {
            let place = free_near_home(tags, hash);
            put(tags, cells, place, hash, value);
        }
    }
}

/// Asks once about each of the `len` values, removes those about which `f` answers `false`, and returns how many.
pub(super) fn retain_cells<T: Drop, C: Cell<T>, F: FnMut(&T) -> bool>(
    tags: &mut [u8],
    cells: &mut [C],
    len: usize,
    f: &mut F,
) -> usize
    requires sixteens { IsMultipleOf16 (length tags.old) }
    requires probed { IsProbed tags.old (slots_of C.slot tags.old cells.old) }
    requires len { len ≡ length (pairs (slots_of C.slot tags.old cells.old)) }
    requires callable { CanAsk (TakesAt F.FnMut) (CalledAt F.FnMut) f.old
        (values (pairs (slots_of C.slot tags.old cells.old))) }
    ensures kept { RetainsPairsTo (CalledAt F.FnMut) f.old (pairs (slots_of C.slot tags.old cells.old))
        (pairs (slots_of C.slot tags.new cells.new)) f.new }
    ensures probed { IsProbed tags.new (slots_of C.slot tags.new cells.new) }
    ensures marked { count_by is_used tags.new ≡ count_by is_used tags.old }
    ensures counted { result + length (pairs (slots_of C.slot tags.new cells.new))
        ≡ length (pairs (slots_of C.slot tags.old cells.old)) }
{
    let mut places = FullPlaces::new();
    let mut left = len;
    let mut removed = 0;
    'asking: while left > 0 {
        let here = places.next(tags);
        left -= 1;
        if f(pair_at(tags, cells, here).1) {
            continue;
        }
        take(tags, cells, here, MARK);
        removed += 1;
    }
    removed
}

/// Replaces each of the `len` values by what `f` returns for it.
pub(super) fn rewrite_cells<T: Drop, C: Cell<T>, F: Fn(&T) -> T>(
    tags: &[u8],
    cells: &mut [C],
    len: usize,
    f: F,
)
    requires sixteens { IsMultipleOf16 (length tags.now) }
    requires probed { IsProbed tags.now (slots_of C.slot tags.now cells.old) }
    requires len { len ≡ length (pairs (slots_of C.slot tags.now cells.old)) }
    requires callable { (v : _) → Contains (values (pairs (slots_of C.slot tags.now cells.old))) v.now → F.pre f v }
    ensures rewritten { Rewrites (FnReturnsAt F.Fn f) (pairs (slots_of C.slot tags.now cells.old))
        (pairs (slots_of C.slot tags.now cells.new)) }
    ensures same_hashes { hashes_of (slots_of C.slot tags.now cells.new)
        ≡ hashes_of (slots_of C.slot tags.now cells.old) }
{
    let mut places = FullPlaces::new();
    let mut left = len;
    'rewriting: while left > 0 {
        let here = places.next(tags);
        left -= 1;
        let (hash, value) = pair_at(tags, cells, here);
        let answer = f(value);
        cells[here].replace(hash, answer);
    }
}

/// Drops every pair. The caller clears the tags.
pub(super) fn clear_cells<T: Drop, C: Cell<T>>(cells: &mut [C])
    ensures { slots_of C.slot (replicate (length cells.old) 0) cells.new ≡ replicate (length cells.old) None }
{
    for at in 0..cells.len() {
        cells[at].clear();
    }
}

/// Makes every tag that of an empty cell.
pub(super) fn clear_tags(tags: &mut [u8])
    ensures { tags.new ≡ replicate (length tags.old) 0 }
{
    tags.fill(0);
}
