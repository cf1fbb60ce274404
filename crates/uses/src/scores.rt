//! A map in the order of its keys: its ends, the items whose keys are between two bounds, and many at once.
ghost use Rattle.std.specs.Prelude.{◌≡◌, ◌<◌, ℕ, IsOk};
ghost use Rattle.std.specs.Iterator.{UpTo};
ghost use Rattle.std.specs.Ordering.{nat_cmp};
ghost use Rattle.iddqd_maps.specs.BulkOverwrite.{HandsOver, overwritten_count};
ghost use Rattle.iddqd_maps.specs.Store.{live_count, slot_limit};
ghost use Rattle.iddqd_maps.specs.Drops.{Drops};
ghost use Rattle.iddqd_maps.specs.KeyOrder.{IsWalkWithin};
ghost use Rattle.iddqd_maps.specs.Map.{empty_map, room};
ghost use Rattle.iddqd_maps.specs.OrdMap.{OverwritesFromInOrder};
ghost use Rattle.iddqd_maps.specs.Ranges.{itself};
ghost use Rattle.iddqd_maps.specs.Sweep.{GivesPair, TakesPair};
ghost use Rattle.uses.specs.Scores.{by_hour, is_between};
ghost use Rattle.uses.specs.declared.scores.Score.{Score};

use iddqd_maps::ItemIndex;
use iddqd_maps::id_ord_map::{IdOrdItem, IdOrdMap, Range};
use iddqd_maps::refusal::StoppedOverwrite;
use std::alloc::{AllocError, Global};
use std::default::MadeWith;

/// A score at an hour. No two are of the same hour.
#[derive(Clone, Copy)]
pub struct Score {
    pub hour: u32,
    pub points: u32,
}

impl IdOrdItem for Score {
    type Key = u32;

    ghost key_of = { λ score. score.hour };

    fn key(&self) -> &u32 {
        &self.hour
    }
}

/// The sum of the points from one hour on, up to another one.
pub fn points(scores: &IdOrdMap<Score>, from: u32, below: u32) -> u32 {
    let mut sum: u32 = 0;
    for (_, score) in scores.range(&from..&below) {
        sum = sum.saturating_add(score.points);
    }
    sum
}

/// The scores between two hours with their indexes, the earliest first.
pub fn between(scores: &IdOrdMap<Score>, from: u32, to: u32) -> Range<'_, Score>
    ensures { IsWalkWithin itself by_hour (is_between from to) scores.now.store result }
{
    scores.range(&from..=&to)
}

/// Forgets the scores of the hours before one, and returns how many are left. It takes no memory.
pub fn forget_before(scores: &mut IdOrdMap<Score>, hour: u32) -> usize
    ensures dropped { Drops (λ score. score.hour < hour) scores.old.store scores.new.store }
    ensures count { result ≡ live_count scores.new.store }
    ensures memory { scores.new.memory ≡ scores.old.memory }
{
    scores.remove_range(..&hour, |_score| ());
    scores.len()
}

/// Enters scores in turn, each in place of the one of its hour, up to the first that is refused: it comes back with the
/// rest. Those that were replaced go to the closure. With room for all of them none is refused.
pub fn enter_all<I: Iterator<Item = Score>, F: FnMut(ItemIndex, Score)>(
    scores: &mut IdOrdMap<Score>,
    entries: I,
    gone: F,
) -> Result<usize, StoppedOverwrite<Score, I>>
    requires next { I.can_next entries }
    requires fits { UpTo (I.remaining entries) usize.MAX }
    requires given { (p : F) (entry : ℕ × Score) → TakesPair F.FnMut p entry }
    ensures entered { OverwritesFromInOrder (λ score. score.hour) nat_cmp (GivesPair F.FnMut) I.next_gives
        I.remaining entries scores.old gone result scores.new }
    ensures handed { (last : F) × HandsOver (GivesPair F.FnMut) gone last scores.old.store scores.new.store
        (overwritten_count result) }
    ensures all { UpTo (I.remaining entries) (room scores.old) → IsOk result }
{
    scores.overwrite_all(entries, gone)
}

/// The scores of somebody who has none yet.
pub fn none_yet(alloc: Global) -> IdOrdMap<Score>
    ensures { result ≡ empty_map slot_limit }
{
    MadeWith::made_with(alloc)
}

fn script(scores: &mut IdOrdMap<Score>) -> (u32, Option<u32>, usize) {
    for hour in [9, 7, 8] {
        let _ = scores.insert_unique(Score {
            hour,
            points: 10 + hour,
        });
    }
    let first = match scores.first() {
        Some(score) => Some(score.hour),
        None => None,
    };
    (points(scores, 8, 10), first, forget_before(scores, 8))
}

/// What the calls answer.
pub fn line(alloc: Global) -> Result<String, AllocError> {
    let (sum, first, left) = script(&mut IdOrdMap::new(alloc));
    format!(in alloc; "scores: {sum}, {first:?}, {left}")
}
