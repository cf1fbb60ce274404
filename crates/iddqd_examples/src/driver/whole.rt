//! Collections as wholes: printed, gone over and taken apart.
ghost use Rattle.std.specs.Prelude.{◌≡◌, ◌++◌, ◌∷◌, List, [], Some, IfSome, IfNone, IfOk, map, nat_eq};
ghost use Rattle.std.specs.List.{list_any};
ghost use Rattle.iddqd.specs.{get, live_items, slot_count};

use super::hashers::Sum;
use super::pair::Pair;
use super::script::{assert_answer, ix, printed};
use iddqd::item_index::ItemIndex;
use iddqd_driver::keyed_items::KeyedItems;
use std::alloc::{AllocError, Global};
use std::process::Abort;
use std::test::Fail;

type Pairs = KeyedItems<Pair, Sum>;

// Whether a pair has this first number.
fn has_first(pairs: &Pairs, first: u32) -> bool
    ensures { result ≡ list_any (λ (pair : Pair). nat_eq pair.0 first) (live_items pairs.now.state.store) }
{
    pairs.values().any(|pair| pair.0 == first)
}

// The first numbers, by rising index.
fn firsts(alloc: Global, pairs: Pairs) -> Result<Vec<u32>, AllocError>
    ensures { IfOk result (λ firsts. firsts.items ≡ map (λ pair. pair.0) (live_items pairs.state.store)) }
{
    let mut firsts = Vec::with_capacity(alloc, pairs.len())?;
    for pair in pairs {
        firsts.push_reserved(pair.0);
    }
    Ok(firsts)
}

// The pair with the greatest index.
fn last(pairs: Pairs) -> Option<Pair>
    ensures last { IfSome result (λ last. (rest : List Pair) × (live_items pairs.state.store ≡ rest ++ last ∷ [])) }
    ensures none { IfNone result (live_items pairs.state.store ≡ []) }
{
    pairs.into_values().next_back()
}

// An index whose pair has this first number.
fn index_of(pairs: &Pairs, first: u32) -> Option<ItemIndex>
    ensures { IfSome result (λ ix. (pair : Pair) × (get pairs.now.state.store ix ≡ Some pair) × (pair.0 ≡ first)) }
{
    for (ix, pair) in pairs {
        if pair.0 == first {
            return Some(ix);
        }
    }
    None
}

// The number that the hasher starts with.
fn start(pairs: &Pairs) -> u64
    ensures { result ≡ pairs.now.state.hasher.0 }
{
    pairs.hasher().0
}

// The number of slots, and how many there can be at most.
fn slots(pairs: &Pairs) -> (usize, usize)
    ensures slots { result.0 ≡ slot_count pairs.now.state.store }
    ensures limit { result.1 ≡ pairs.now.state.store.limit }
{
    (pairs.slot_count(), pairs.limit())
}

// Three pairs at 0, 1 and 2, whose second numbers fall.
fn three(rt: &impl Abort, alloc: Global) -> Pairs {
    let mut pairs = KeyedItems::new(alloc, Sum(7));
    for number in 0..3 {
        let inserted = pairs.insert(Pair(number, 9 - number));
        assert!(rt; inserted == Ok(ix(number)));
    }
    pairs
}

fn assert_found(rt: &impl Abort, pairs: &mut Pairs) {
    assert!(rt; start(pairs) == 7 && has_first(pairs, 1) && !has_first(pairs, 5));
    assert!(rt; pairs.overwrite(ix(1), Pair(5, 8)).is_ok());
    assert!(rt; !has_first(pairs, 1) && has_first(pairs, 5));
    assert!(rt; index_of(pairs, 5) == Some(ix(1)) && index_of(pairs, 1).is_none());
}

#[test]
fn iterators_show_what_an_overwrite_left(rt: HostRuntime) -> Result<(), Fail> {
    assert_found(&rt, &mut three(&rt, rt.alloc()));
    Ok(())
}

#[test]
fn a_collection_prints_its_pairs_by_rising_index(rt: HostRuntime) -> Result<(), Fail> {
    let text = printed(rt.alloc(), &three(&rt, rt.alloc()))?;
    assert_answer(
        &rt,
        &text,
        "{0: Pair(0, 9), 1: Pair(1, 8), 2: Pair(2, 7)}",
        "printing",
    );
    Ok(())
}

#[test]
fn three_pairs_are_in_three_slots(rt: HostRuntime) -> Result<(), Fail> {
    let (slots, limit) = slots(&three(&rt, rt.alloc()));
    assert!(rt; slots == 3 && limit >= slots);
    Ok(())
}

#[test]
fn pairs_come_out_by_rising_index(rt: HostRuntime) -> Result<(), Fail> {
    assert!(rt; last(three(&rt, rt.alloc())) == Some(Pair(2, 7)));
    let firsts = firsts(rt.alloc(), three(&rt, rt.alloc()))?;
    assert!(rt; firsts.as_slice() == [0, 1, 2].as_slice());
    Ok(())
}
