//! A board of scores: further calls of an `IdOrdMap`, beside those of `scores` and `words`, and what each promises.
//! They stand in one file, longer than others, since all are of one map.
ghost use Rattle.std.specs.Prelude.{◌≡◌, ◌⊎◌, ◌≤◌, ◌<◌, ◌+◌, ◌↔◌, ℕ, Ok, false, true, length, max, min, None, Some, IfOk, IfErr, IfSome, IfNone, OnOk, OnErr, IsOk};
ghost use Rattle.std.specs.Ordering.{nat_cmp, eq_by_cmp};
ghost use Rattle.std.specs.declared.cmp.Ordering.TheVariants.{Less, Greater};
ghost use Rattle.std.specs.Iterator.{UpTo};
ghost use Rattle.iddqd_maps.specs.Append.{EachConflicts, moved_count};
ghost use Rattle.iddqd_maps.specs.Bulk.{inserted_all, inserted_count};
ghost use Rattle.iddqd_maps.specs.Calls.{IsDuplicate};
ghost use Rattle.iddqd_maps.specs.Compaction.{compacted};
ghost use Rattle.iddqd_maps.specs.Groups.{CountsHits};
ghost use Rattle.iddqd_maps.specs.KeyOrder.{AreInKeyOrder, FindsEnd, IsKeyWalk, PopsEnd};
ghost use Rattle.iddqd_maps.specs.Map.{FindsItem, Removes, RemovesAt, RemovesFull, RemovesHit, capacity, empty_map, room};
ghost use Rattle.iddqd_maps.specs.OneKey.{IsTaken};
ghost use Rattle.iddqd_maps.specs.Ranges.{TakesItem};
ghost use Rattle.iddqd_maps.specs.Scan.{AnswersScan, HasNoHit, IsHit};
ghost use Rattle.iddqd_maps.specs.Sizes.{insertable};
ghost use Rattle.iddqd_maps.specs.Store.{cleared, empty, empty_within, get, inserted, live_count, next_index, rebound, removed, slot_count, slot_limit};
ghost use Rattle.iddqd_maps.specs.Validation.{Tells, Validates, not_compact_text};
ghost use Rattle.iddqd_maps.specs.Drops.{Drops};
ghost use Rattle.uses.specs.Exchanges.{Exchanges, ExchangesIfFound, IsWhyGoneAt, IsWhyGoneBy, IsWhyNot, IsWhyNotAdded, IsWhyNotAt, IsWhyNotChanged, IsWhyNotTakenOver, TakesOverOne};
ghost use Rattle.uses.specs.Intake.{AddsAll, AddsUntil, IsHandedOnly};
ghost use Rattle.uses.specs.Scores.{HandsOnByHour, has_hour, is_from, same_hour, unscored, with_hour, with_points};
ghost use Rattle.uses.specs.declared.scores.Score.{Score};
ghost use Rattle.uses.specs.Updates.{Updates, UpdatesAll, UpdatesAt, UpdatesHit, UpdatesItem};

use crate::scores::Score;
use iddqd_maps::id_ord_map::{IdOrdMap, IntoValues, Iter, Values};
use iddqd_maps::item_index::ItemIndex;
use iddqd_maps::refusal::{
    InsertRefusal, OverwriteRefusal, ReplaceRefusal, Stopped, StoppedAppend,
};
use iddqd_maps::{ValidateCompact, ValidateRefusal, ValidationError};
use std::alloc::{AllocError, Global};

type Board = IdOrdMap<Score>;

type Replaced = Result<Score, ReplaceRefusal<Score, ItemIndex>>;

/// A board of at most so many scores.
pub fn within(alloc: Global, limit: u32) -> Board
    ensures { result ≡ empty_map limit }
{
    IdOrdMap::with_limit(alloc, limit)
}

/// A board of these three scores, unless two of them are of one hour.
pub fn of_three(alloc: Global, scores: [Score; 3]) -> Result<Board, InsertRefusal<Score, ItemIndex>>
    ensures scores { IfOk result (λ board. board.store ≡ inserted_all empty scores) }
    ensures count { IfOk result (λ board. live_count board.store ≡ 3) }
{
    IdOrdMap::from_array(alloc, scores)
}

/// An empty board with room for so many scores, or for as many as there are indexes.
pub fn with_room(alloc: Global, scores: usize) -> Result<Board, AllocError>
    ensures none { IfOk result (λ board. board.store ≡ empty) }
    ensures room { IfOk result (λ board. min scores slot_limit ≤ room board) }
{
    IdOrdMap::with_capacity(alloc, scores)
}

/// An empty board of at most so many scores, with room for so many of them.
pub fn within_with_room(alloc: Global, limit: u32, scores: usize) -> Result<Board, AllocError>
    ensures none { IfOk result (λ board. board.store ≡ empty_within limit) }
    ensures room { IfOk result (λ board. min scores limit ≤ room board) }
{
    IdOrdMap::with_limit_and_capacity(alloc, limit, scores)
}

/// Makes room for so many more scores, and returns how many can come without memory.
pub fn make_room(board: &mut Board, more: usize) -> Result<usize, AllocError>
    ensures room { IfOk result (λ count. min more (insertable board.old.store) ≤ count) }
    ensures unchanged { board.new.store ≡ board.old.store }
{
    board.reserve(more)?;
    Ok(board.room())
}

/// Makes room for so many more scores. If memory runs out, the scores stay.
pub fn widen(board: &mut Board, more: usize) -> Result<(), AllocError>
    ensures room { OnOk result (min more (insertable board.old.store) ≤ room board.new) }
    ensures unchanged { board.new.store ≡ board.old.store }
{
    board.try_reserve(more)
}

/// Gives back the memory beyond what so many scores need, or those that there are if these are more.
pub fn keep_room(board: &mut Board, scores: usize) -> Result<(), AllocError>
    ensures unchanged { board.new.store ≡ board.old.store }
    ensures slots { OnOk result (board.new.memory.slots ≤ max scores (slot_count board.old.store)) }
{
    board.shrink_to(scores)
}

/// Closes the gaps, gives back the memory past the scores, and returns for how many scores memory is still reserved. If
/// memory runs out for it, the scores stay as they were, or the gaps are closed already.
pub fn pack(board: &mut Board) -> Result<usize, AllocError>
    ensures scores { OnOk result (board.new.store ≡ compacted board.old.store) }
    ensures slots { OnOk result (board.new.memory.slots ≤ slot_count board.new.store) }
    ensures capacity { IfOk result (λ count. count ≡ capacity board.new) }
    ensures refused { OnErr result
        ((board.new ≡ board.old) ⊎ (board.new.store ≡ compacted board.old.store)) }
{
    board.compact()?;
    board.shrink_to_fit()?;
    Ok(board.capacity())
}

/// Forgets all scores, and returns whether none is left.
pub fn clear_out(board: &mut Board) -> bool
    ensures scores { board.new.store ≡ cleared board.old.store }
    ensures empty { result ≡ true }
{
    board.clear();
    board.is_empty()
}

/// Whether no slot is vacant, or how many are. It may run out of memory.
pub fn check(board: &Board) -> Result<(), ValidateRefusal<ValidationError>>
    ensures dense { Validates (length board.now.store.free ≡ 0) result }
    ensures message { IfErr result (Tells (not_compact_text (length board.now.store.free))) }
{
    board.validate(ValidateCompact::Compact)
}

/// Whether there is a score of an hour.
pub fn has_hour(board: &Board, hour: u32) -> bool
    ensures { (result ≡ false) ↔ HasNoHit board.now.store (λ score. eq_by_cmp nat_cmp hour score.hour) }
{
    board.contains_key(&hour)
}

/// The index of the score of an hour.
pub fn place(board: &Board, hour: u32) -> Option<ItemIndex>
    ensures { AnswersScan board.now.store (λ score. eq_by_cmp nat_cmp hour score.hour) result }
{
    board.find(&hour)
}

/// The score of an hour.
pub fn of_hour(board: &Board, hour: u32) -> Option<Score>
    ensures { FindsItem board.now.store (λ score. eq_by_cmp nat_cmp hour score.hour) result }
{
    board.get(&hour).copied()
}

/// The score at an index.
pub fn score_at(board: &Board, ix: ItemIndex) -> Option<Score>
    ensures { result ≡ get board.now.store ix }
{
    board.get_at(ix).copied()
}

/// The score of the last hour.
pub fn latest(board: &Board) -> Option<Score>
    ensures { FindsEnd (λ score. score.hour) nat_cmp Greater board.now.store result }
{
    board.last().copied()
}

/// The indexes with their scores, by rising hour.
pub fn places(board: &Board) -> Iter<'_, Score>
    ensures { IsKeyWalk (λ score. score.hour) nat_cmp board.now.store result }
{
    board.iter()
}

/// The scores, by rising hour.
pub fn scores(board: &Board) -> Values<'_, Score>
    ensures { AreInKeyOrder (λ score. score.hour) nat_cmp board.now.store result }
{
    board.values()
}

/// The scores by value, by rising hour.
pub fn into_scores(board: Board) -> IntoValues<Score>
    ensures { AreInKeyOrder (λ score. score.hour) nat_cmp board.store result }
{
    board.into_values()
}

/// Sets the score of its hour, and hands back what that was.
pub fn set(
    board: &mut Board,
    score: Score,
) -> Result<(ItemIndex, Option<Score>), OverwriteRefusal<Score>>
    ensures set { IfOk result (λ set. TakesOverOne same_hour score board.old set.0 set.1 board.new) }
    ensures refused { IfErr result (IsWhyNotTakenOver same_hour score board.old) }
    ensures unchanged { OnErr result (board.new.store ≡ board.old.store) }
{
    board.insert_overwrite(score)
}

/// Gives the score of an hour so many points; none exactly where there is none.
pub fn mark(board: &mut Board, hour: u32, points: u32) -> Option<()>
    ensures { Updates board.old (has_hour hour) (with_points points) result board.new }
{
    board.modify(&hour, |score| score.points = points)
}

/// The same of the score at an index.
pub fn mark_at(board: &mut Board, ix: ItemIndex, points: u32) -> Option<()>
    ensures { UpdatesAt board.old ix (with_points points) result board.new }
{
    board.modify_at(ix, |score| score.points = points)
}

/// Puts a score in the place of that of an hour, which is handed back. It is refused where there is none, or another
/// one is of its hour, or memory ran out, which comes only past the capacity.
pub fn exchange(board: &mut Board, hour: u32, score: Score) -> Replaced
    ensures exchanged { IfOk result (λ was. Exchanges same_hour (has_hour hour) score board.old was board.new) }
    ensures refused { IfErr result (IsWhyNot (IsTaken same_hour) true (has_hour hour) score board.old) }
    ensures unchanged { OnErr result (board.new ≡ board.old) }
{
    board.replace(&hour, score)
}

/// Puts a score in the place of that at an index, in the same way.
pub fn exchange_at(board: &mut Board, ix: ItemIndex, score: Score) -> Replaced
    ensures was { IfOk result (λ was. get board.old.store ix ≡ Some was) }
    ensures exchanged { OnOk result (board.new.store ≡ rebound board.old.store ix score) }
    ensures refused { IfErr result (IsWhyNotAt (IsTaken same_hour) true ix score board.old) }
    ensures unchanged { OnErr result (board.new ≡ board.old) }
{
    board.replace_at(ix, score)
}

/// Moves the score of an hour to another one, and hands back what it was; none exactly where there is no such score. It
/// is refused where another one is of that hour, or memory ran out, which comes only past the capacity.
pub fn move_to(
    board: &mut Board,
    hour: u32,
    other: u32,
) -> Result<Option<Score>, ReplaceRefusal<Score, ItemIndex>>
    ensures moved { IfOk result
        (λ found. ExchangesIfFound same_hour (has_hour hour) (with_hour other) board.old found board.new) }
    ensures refused { IfErr result
        (IsWhyNotChanged (IsTaken same_hour) true (has_hour hour) (with_hour other) board.old) }
    ensures unchanged { OnErr result (board.new ≡ board.old) }
{
    board.change(
        &hour,
        |score| Score {
            hour: other,
            ..*score
        },
    )
}

/// Takes the score of an hour. All others stay.
pub fn take(board: &mut Board, hour: u32) -> Option<Score>
    ensures { Removes board.old (λ score. eq_by_cmp nat_cmp hour score.hour) result board.new }
{
    board.remove(&hour)
}

/// Takes the score of an hour, and says which index it had. All others stay.
pub fn take_full(board: &mut Board, hour: u32) -> Option<(ItemIndex, Score)>
    ensures { RemovesFull board.old (λ score. eq_by_cmp nat_cmp hour score.hour) result board.new }
{
    board.remove_full(&hour)
}

/// Takes the score at an index. All others stay.
pub fn take_at(board: &mut Board, ix: ItemIndex) -> Option<Score>
    ensures { RemovesAt board.old ix result board.new }
{
    board.remove_at(ix)
}

/// Takes the score of the first hour. All others stay.
pub fn take_first(board: &mut Board) -> Option<Score>
    ensures { PopsEnd (λ score. score.hour) nat_cmp Less board.old result board.new }
{
    board.pop_first()
}

/// Takes the score of the last hour. All others stay.
pub fn take_last(board: &mut Board) -> Option<Score>
    ensures { PopsEnd (λ score. score.hour) nat_cmp Greater board.old result board.new }
{
    board.pop_last()
}

/// Forgets the scores up to an hour that have fewer points than so many, and returns how many they were. All others
/// stay. It takes no memory.
pub fn forget_low(board: &mut Board, hour: u32, least: u32) -> usize
    ensures dropped { Drops (λ score. (score.hour ≤ hour) × (score.points < least))
        board.old.store board.new.store }
    ensures count { result + live_count board.new.store ≡ live_count board.old.store }
    ensures memory { board.new.memory ≡ board.old.memory }
{
    board.retain_range(..=&hour, |score| score.points >= least)
}

/// Forgets the scores up to an hour that have fewer points than so many, and returns how many they were. What the
/// closure gets are such scores. All others stay. It takes no memory.
pub fn hand_on_low<F: FnMut(Score)>(board: &mut Board, hour: u32, least: u32, gone: F) -> usize
    requires { (p : F) (score : Score) → TakesItem F.FnMut p score }
    ensures dropped { Drops (λ score. (score.hour ≤ hour) × (score.points < least))
        board.old.store board.new.store }
    ensures handed { IsHandedOnly F.FnMut (λ score. (score.hour ≤ hour) × (score.points < least)) gone }
    ensures count { result + live_count board.new.store ≡ live_count board.old.store }
    ensures memory { board.new.memory ≡ board.old.memory }
{
    board.retain_range_into(..=&hour, |score| score.points >= least, gone)
}

/// Keeps the scores with at least so many points, passes the others to the closure, by hour (the clause `given` of the
/// call says so), and returns how many they were. It takes no memory.
pub fn keep_high<F: FnMut(Score)>(board: &mut Board, least: u32, gone: F) -> usize
    requires { (p : F) (score : Score) → TakesItem F.FnMut p score }
    ensures stay { (ix : ℕ) (score : Score) → (get board.new.store ix ≡ Some score)
        ↔ ((get board.old.store ix ≡ Some score) × (least ≤ score.points)) }
    ensures count { result + live_count board.new.store ≡ live_count board.old.store }
    ensures memory { board.new.memory ≡ board.old.memory }
{
    board.retain_into(|score| score.points >= least, gone)
}

/// Empties the board: it passes each score to the closure, by hour, and returns how many there were. The board keeps
/// its memory, and takes none.
pub fn empty_into<F: FnMut(Score)>(board: &mut Board, gone: F) -> usize
    requires { (p : F) (score : Score) → TakesItem F.FnMut p score }
    ensures handed { HandsOnByHour F.FnMut gone board.old.store }
    ensures count { result ≡ live_count board.old.store }
    ensures emptied { board.new.store ≡ cleared board.old.store }
    ensures memory { board.new.memory ≡ board.old.memory }
{
    board.drain_into(gone)
}

/// Voids the scores of an hour and of later ones, and returns how many they are. It takes no memory.
pub fn void_from(board: &mut Board, hour: u32) -> usize
    ensures void { UpdatesAll board.old.store (is_from hour) (with_points 0) board.new.store }
    ensures counted { CountsHits board.old.store (is_from hour) result }
    ensures memory { board.new.memory ≡ board.old.memory }
{
    board.modify_range(&hour.., |score| score.points = 0)
}

/// Gives the score of its hour the points of this one, or adds this one if there is none. It is refused only then.
pub fn enter(board: &mut Board, score: Score) -> Result<ItemIndex, InsertRefusal<Score, ItemIndex>>
    ensures index { (ix : ℕ) → IsHit board.old.store (same_hour score) ix → result ≡ Ok ix }
    ensures given { (ix : ℕ) → IsHit board.old.store (same_hour score) ix →
        UpdatesItem board.old.store ix (with_points score.points) board.new.store }
    ensures added { HasNoHit board.old.store (same_hour score) → OnOk result
        (board.new.store ≡ inserted board.old.store score) }
    ensures place { HasNoHit board.old.store (same_hour score) → IfOk result (λ ix. ix ≡ next_index board.old.store) }
    ensures refused { IfErr result (IsWhyNotAdded same_hour score board.old) }
    ensures unchanged { OnErr result (board.new.store ≡ board.old.store) }
{
    board.modify_or_insert(score, |was, new| was.points = new.points)
}

/// Adds scores in turn, up to the first that is refused: it comes back with the rest.
pub fn add_all<I: Iterator<Item = Score>>(
    board: &mut Board,
    scores: I,
) -> Result<usize, Stopped<Score, ItemIndex, I>>
    requires { I.can_next scores }
    ensures all { IfOk result (λ count. AddsAll I.next_gives scores board.old.store count board.new.store) }
    ensures refused { IfErr result
        (λ stopped. AddsUntil I.next_gives scores board.old.store stopped board.new.store) }
    ensures count { live_count board.new.store ≡ live_count board.old.store + inserted_count result }
    ensures others { (ix : ℕ) (score : Score) → get board.old.store ix ≡ Some score
        → get board.new.store ix ≡ Some score }
    ensures taken { UpTo (I.remaining scores) (room board.old)
        → IfErr result (λ stopped. IsDuplicate stopped.refusal) }
{
    board.insert_all(scores)
}

/// Moves the scores of another board into this one, up to the first for which this one is full or memory runs out, and
/// returns how many were moved. Those whose hour has a score here stay on the other board.
pub fn take_in(board: &mut Board, other: &mut Board) -> Result<usize, StoppedAppend>
    ensures count { live_count board.new.store ≡ live_count board.old.store + moved_count result }
    ensures left { live_count other.new.store + moved_count result ≡ live_count other.old.store }
    ensures others { (ix : ℕ) (score : Score) → get board.old.store ix ≡ Some score
        → get board.new.store ix ≡ Some score }
    ensures scored { IsOk result → EachConflicts same_hour board.new.store other.new.store }
    ensures all { live_count other.old.store ≤ room board.old → IsOk result }
{
    board.append(other, |_from, _to| ())
}

/// The index of the score of an hour; if there is none, of one without points, which is added.
pub fn hour_or_new(
    board: &mut Board,
    hour: u32,
) -> Result<ItemIndex, InsertRefusal<Score, ItemIndex>>
    ensures there { IfOk result (IsHit board.new.store (has_hour hour)) }
    ensures found { (ix : ℕ) → IsHit board.old.store (has_hour hour) ix →
        (result ≡ Ok ix) × (board.new ≡ board.old) }
    ensures added { HasNoHit board.old.store (has_hour hour) → OnOk result
        (board.new.store ≡ inserted board.old.store (unscored hour)) }
    ensures refused { IfErr result (IsWhyNotAdded same_hour (unscored hour) board.old) }
    ensures unchanged { OnErr result (board.new.store ≡ board.old.store) }
{
    board.find_or_insert_with(&hour, || Score { hour, points: 0 })
}

/// Moves the score of an hour to another one, as `move_to` does, and returns its index. If another one is of that hour,
/// or memory ran out, it is returned, and is on the board no longer.
pub fn shift(
    board: &mut Board,
    hour: u32,
    other: u32,
) -> Result<Option<ItemIndex>, InsertRefusal<Score, ItemIndex>>
    ensures shifted { IfOk result (λ found. IfSome found
        (λ ix. UpdatesHit board.old.store (has_hour hour) ix (with_hour other) board.new.store)) }
    ensures missing { IfOk result (λ found. IfNone found (HasNoHit board.old.store (has_hour hour))) }
    ensures unchanged { IfOk result (λ found. IfNone found (board.new ≡ board.old)) }
    ensures refused { IfErr result
        (IsWhyGoneBy same_hour true (has_hour hour) (with_hour other) board.old) }
    ensures gone { OnErr result
        ((was : Score) × RemovesHit board.old (has_hour hour) was board.new) }
{
    board.remake(
        &hour,
        |score| Score {
            hour: other,
            ..score
        },
    )
}

/// The same of the score at an index.
pub fn shift_at(
    board: &mut Board,
    ix: ItemIndex,
    other: u32,
) -> Result<Option<ItemIndex>, InsertRefusal<Score, ItemIndex>>
    ensures shifted { IfOk result (λ found. IfSome found
        (λ at. (at ≡ ix) × UpdatesItem board.old.store ix (with_hour other) board.new.store)) }
    ensures missing { IfOk result (λ found. IfNone found (get board.old.store ix ≡ None)) }
    ensures unchanged { IfOk result (λ found. IfNone found (board.new ≡ board.old)) }
    ensures refused { IfErr result (IsWhyGoneAt same_hour true ix (with_hour other) board.old) }
    ensures gone { OnErr result (board.new.store ≡ removed board.old.store ix) }
{
    board.remake_at(
        ix,
        |score| Score {
            hour: other,
            ..score
        },
    )
}

// Whether there is a score of an hour, how many points the last one has, whether one moved to another hour, and whether
// a third was given points.
fn changed(board: &mut Board) -> (bool, u32, bool, bool) {
    for (hour, points) in [(3, 30), (1, 10), (2, 5)] {
        let _ = set(board, Score { hour, points });
    }
    let last = latest(board).map_or(0, |score| score.points);
    (
        has_hour(board, 2),
        last,
        move_to(board, 2, 4).is_ok(),
        mark(board, 1, 50).is_some(),
    )
}

fn script(alloc: Global, board: &mut Board) -> Result<String, AllocError> {
    let changed = changed(board);
    let void = void_from(board, 4);
    let low = forget_low(board, 4, 20);
    let first = take_first(board).map_or(0, |score| score.points);
    let left = board.len();
    format!(in alloc; "board: {changed:?}, {void}, {low}, {first}, {left}")
}

/// What the calls answer.
pub fn line(alloc: Global) -> Result<String, AllocError> {
    script(alloc, &mut IdOrdMap::new(alloc))
}
