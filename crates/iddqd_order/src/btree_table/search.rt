//! The search of a row by halves, and of the whole vector of `iddqd_order_reference`. All calls that search use it.
//!
//! Four asks search fifteen indexes, and a row has at most eleven. To go along a row from the left was faster
//! for keys that are numbers, but asked up to eleven times. The `match` compares two indexes only if the answer
//! is Equal; `Ordering::then` compared them at each ask.
ghost use Rattle.std.specs.Prelude.{◌≡◌, ◌≢◌, ℕ, ◌+◌, ◌*◌, ◌<◌, ◌≤◌, List, Contains, Some, None, length};
ghost use Rattle.std.specs.declared.cmp.Ordering.{Ordering};
ghost use Rattle.iddqd_order.specs.Asking.{closure_of};
ghost use Rattle.iddqd_order.specs.Asks.{AsksWithin, CanAskAgain, CanAskEach, Steady};
ghost use Rattle.iddqd_order.specs.Digits.{digits};
ghost use Rattle.iddqd_order.specs.Search.{Askable, SearchesWithin, with_ties};

use crate::btree_table::asking::Asking;
use crate::btree_table::reading::Reads;
use iddqd::item_index::ItemIndex;
use std::cmp::Ordering;

// Compares what is sought with the stored index `at`. It asks once, or not at all if `at` itself is sought.
pub(super) fn compare<R, F: FnMut(ItemIndex) -> R, H: Reads<R>>(
    asking: &mut Asking<F>,
    how: &H,
    sought: &Option<ItemIndex>,
    at: ItemIndex,
) -> Ordering
    requires any { sought.now ≡ None → F.pre (closure_of asking.old) at }
    requires other { (ix : ℕ) → sought.now ≡ Some ix → at ≢ ix → F.pre (closure_of asking.old) at }
    ensures asks { (xs : List ℕ) → Contains xs at →
        AsksWithin F.FnMut (Askable xs sought.now) 1 asking.old asking.new }
    ensures steady { (xs : List ℕ) (answer : ℕ → Ordering) → Contains xs at →
        Steady F.FnMut (Askable xs sought.now) (H.reading how.now) answer (closure_of asking.old) →
        result ≡ with_ties sought.now answer at }
    ensures itself { result ≡ Ordering.Equal → (ix : ℕ) → sought.now ≡ Some ix → at ≡ ix }
    ensures unequal { sought.now ≡ None → ((r : R) → H.reading how.now r ≢ Ordering.Equal) → result ≢ Ordering.Equal }
{
    match *sought {
        None => how.read(asking.ask(at)),
        Some(ix) => {
            if at == ix {
                Ordering::Equal
            } else {
                match how.read(asking.ask(at)) {
                    Ordering::Equal => ix.cmp(&at),
                    other => other,
                }
            }
        }
    }
}

/// Searches a slice of indexes by halves: the position of what is sought, or of the gap where it would go.
///
/// It asks at most as often as the slice's length has binary digits, about indexes of the slice alone. Less means that
/// what is sought stands before the index. An index that is sought is not asked about, and if an answer is Equal, the
/// lesser of the two comes first. The answers may be anything, and differ from call to call.
#[inline(always)]
pub fn search<R, F: FnMut(ItemIndex) -> R, H: Reads<R>>(
    items: &[ItemIndex],
    asking: &mut Asking<F>,
    how: &H,
    sought: &Option<ItemIndex>,
) -> Result<usize, usize>
    requires each { CanAskEach F.FnMut (Askable items.now sought.now) (closure_of asking.old) }
    requires again { CanAskAgain F.FnMut (Askable items.now sought.now) (closure_of asking.old) }
    ensures { let most = digits (length items.now) in
        SearchesWithin F.FnMut (H.reading how.now) items.now most sought.now asking.old result asking.new }
{
    let mut low = 0;
    let mut high = items.len();
    while low < high {
        let middle = (low + high) / 2;
        match compare(asking, how, sought, items[middle]) {
            Ordering::Less => high = middle,
            Ordering::Equal => return Ok(middle),
            Ordering::Greater => low = middle + 1,
        }
    }
    Err(low)
}
