//! What the items of a store are found by: a table by one key, or several tables.
//!
//! A key index has each live index of a store, and no two items share a unique key. A leaf has one table by one key; a
//! pair has two key indexes. A map is a store with a key index, so each call of a map is written once, however many
//! keys its items have. A hasher's state belongs to the map, since several tables may share one.
//!
//! A call that takes memory does so before anything is written.
//!
//! - To insert: `look_up` finds the position for the item, or the items that share a key with it; `plan` adds what
//!   depends on its index; `make_room` takes the memory; then `insert` can't fail.
//! - To overwrite: `blocks_after` takes the memory, if any is needed; `remove` removes the index of each item that
//!   shares a key; then `position`, `plan` and `insert` can't fail.
//! - To move: `plan_move` finds how the index must move, or the other items that share a key; `blocks_for` takes the
//!   memory, if any is needed; then `commit_move` can't fail.
//!
//! What is planned is plain data: it borrows nothing, and owns no memory. The blocks that an ordered table needs for
//! one index beyond its capacity are a value of their own, which the insert or the move consumes. So beyond its
//! capacity no key index holds memory for a call to come.
//!
//! The trait `KeyIndex` says what a key index holds, and has no methods. The calls are traits over it. `Changes` has
//! those that insert, overwrite and remove, `Moves` those that replace, each with the types by which it plans; `Empty`
//! only makes a key index, and `Upkeep` and `ComparesKeys` stand beside them. For a key at a place `UniqueAt` and
//! `GroupedAt` find, and `TakesAt` and `StepsInGroup` over them remove. For a key in order `OrderedAt` has the order
//! alone, and `StepsAt` over it the calls. So a look-up needs only the method that it calls and no type of a plan, and
//! an insert no law: the laws are `IndexLaws` and `PlanLaws`. That keeps callers cheap. The proof of a caller pays for
//! each method, and for each type with a bound, of each trait to which its bounds lead, once for each path to it, and
//! at a pair for both halves. So calls that are planned by the same types are one trait: a trait more would be paid on
//! each path.
//!
//! The laws stand apart since they are proved by laws of the keys. In a trait without methods only a member that names
//! something of another trait counts as a law, and may be proved so.
//!
//! The traits are one file, since they are read together. More than half of its lines are contracts and laws.
ghost use Rattle.std.specs.Prelude.{◌≡◌, ◌≢◌, ◌≤◌, ◌+◌, ◌<◌, true, false, min, max, length, IsOk, IfOk, OnOk, OnErr, IfSome};
ghost use Rattle.std.specs.Option.{option_map};
ghost use Rattle.std.specs.Range.Bound.{bound_map};
ghost use Rattle.iddqd.specs.{next_index, removed, rebound, sentinel, live_count, slot_count, IsValid, Allows, Validates};
ghost use Rattle.iddqd_keys.specs.Bounds.{is_in_bounds};
ghost use Rattle.iddqd_keys.specs.KeyWalk.{IsFirstHit, IsNextHit};
ghost use Rattle.iddqd_keys.specs.OrderedQuery.{is_up_to};
ghost use Rattle.iddqd_keys.specs.Scan.{AnswersScan, IsLive, HasNoHit};
ghost use Rattle.iddqd_map.specs.Ranges.{itself};
ghost use Rattle.iddqd_map.specs.KeyIndex.{AreKnownAt, IndexesNone, IsNextOf, IsPlannedForOne, StaysPlanned, IndexesOneMore, IsRemapOfSome, IndexesCompacted, IndexesAllOf, IsNextReported, FindsPosition, FindsMove, TakesFound};

use iddqd::index_remap::IndexRemap;
use iddqd::internal::{ValidateCompact, ValidateRefusal, ValidationError};
use iddqd::item_index::ItemIndex;
use iddqd::item_set::ItemSet;
use iddqd_keys::bounds::Bounds;
use std::alloc::{AllocError, Global};
use std::marker::PhantomData;

/// A table of a store's indexes by one key, or several tables by several keys.
///
/// A contract sees its memory as two numbers: `capacity`, how many indexes it can hold without more memory, and
/// `cells`: the cells and links of its hash tables, and the indexes for which its ordered tables have reserved memory.
/// Below the capacity `make_room` takes no memory. Only `with_capacity`, `reserve`, `shrink_to` and `make_room` change
/// either number.
pub trait KeyIndex<T, S>: Sized + Drop {
    ghost use Rattle.std.specs.Prelude.{ℕ, Bool, Some};
    ghost use Rattle.iddqd.specs.Store.{Store};

    /// Those hashes of a stored item's keys that a look-up has computed already.
    type KnownHashes: Copy;

    // The keys of an item.
    ghost Keys: { Type 0 };

    ghost keys: { T → Self.Keys };

    // The items share a unique key.
    ghost alike: { T → T → Bool };

    // They share all keys.
    ghost same_keys: { T → T → Bool };

    // It indexes the store, under the state of a hasher.
    ghost indexes: { Self → S → Store T → Type 0 };

    // Each hash that is known is that of the item's key in its table, under the state of a hasher.
    ghost are_known: { S → T → Self.KnownHashes → Type 0 };

    // How many indexes it can hold without more memory, and how much it holds.
    ghost capacity: { Self → ℕ };

    ghost cells: { Self → ℕ };

    // The most cells that it takes for a number of indexes.
    ghost most: { ℕ → ℕ };

    // The most by which the cells grow in an insert that leaves so many indexes. Of an ordered table it is 0, since the
    // blocks that growth takes aren't reserved.
    ghost grown: { ℕ → ℕ };

    // The most cells that a shrink leaves, for a number of slots and a number of indexes.
    ghost kept: { ℕ → ℕ → ℕ };

    // The fewest cells that do for a number of slots and a number of indexes.
    ghost needed: { ℕ → ℕ → ℕ };

    // An insert after a removal may need memory, if there are more indexes than the capacity.
    ghost may_need_memory: { Bool };

    // The two have the same indexes at the same keys; their memory may differ.
    ghost same: { Self → Self → Type 0 };

    // How many items an item can be alike to: no more than there are keys.
    ghost unique_keys: { ℕ };
}

/// What an insert, an overwrite or a removal is planned by, and asks of a key index.
pub trait Changes<T, S>: KeyIndex<T, S> {
    ghost use Rattle.std.specs.Prelude.{ℕ, List, ◌↔◌};
    ghost use Rattle.iddqd.specs.Store.{Store};
    ghost use Rattle.std.specs.List.{Contains};
    ghost use Rattle.iddqd_keys.specs.Scan.{IsHit};

    /// The items that an item is alike to: at least one.
    type Conflict: Copy;
    /// The hashes of an item's keys.
    type Hashes: Copy;
    /// The position for an item that is alike to none, before its index is known.
    type Position: Drop;
    /// The position for an item under its index.
    type InsertPlan: Drop;
    /// The memory that was taken for one insert, beyond that of the tables.
    type Blocks: Drop;

    ghost conflicts: { Store T → T → Self.Conflict → Type 0 };

    // The conflict reports this index.
    ghost reports: { Self.Conflict → ℕ → Type 0 };

    ghost are_hashes: { S → T → Self.Hashes → Type 0 };

    ghost is_position: { Self → S → Store T → T → Self.Position → Type 0 };

    ghost is_planned: { Self → S → Store T → T → Self.InsertPlan → Type 0 };

    // No memory was taken.
    ghost are_none: { Self.Blocks → Type 0 };

    // With the blocks there is room for the planned insert.
    ghost has_room_for: { Self → Self.InsertPlan → Self.Blocks → Type 0 };

    // They are enough for any insert that comes after a removal.
    ghost are_enough_after: { Self → Self.Blocks → Type 0 };

    /// Hashes the keys of an item, each once.
    fn hashes(state: &S, item: &T) -> Self::Hashes
        ensures { Self.are_hashes state.now item.now result };

    /// Finds the position for an item, or the items that it is alike to. It takes no memory.
    fn look_up(
        &self,
        items: &ItemSet<T>,
        state: &S,
        hashes: Self::Hashes,
        item: &T,
    ) -> Result<Self::Position, Self::Conflict>
        requires hashed { Self.are_hashes state.now item.now hashes }
        requires indexed { Self.indexes self.now state.now items.now.store }
        ensures { FindsPosition Self.alike (Self.is_position self.now state.now) Self.conflicts items.now.store item.now
            result };

    /// The position for an item under the next index.
    fn plan(
        &self,
        items: &ItemSet<T>,
        state: &S,
        position: Self::Position,
        ix: ItemIndex,
        item: &T,
    ) -> Self::InsertPlan
        requires valid { IsValid items.now.store }
        requires indexed { Self.indexes self.now state.now items.now.store }
        requires position { Self.is_position self.now state.now items.now.store item.now position }
        requires next { ix ≡ next_index items.now.store }
        ensures { Self.is_planned self.now state.now items.now.store item.now result };

    /// Takes the memory of a planned insert, and returns what of it isn't in the tables yet. The plan still holds after
    /// it, as does any other. If there is room, it takes none.
    ///
    /// `contents` and `planned` are what `same` would say by its laws. So an insert leads to no law.
    fn make_room(
        &mut self,
        items: &ItemSet<T>,
        state: &S,
        plan: &Self::InsertPlan,
    ) -> Result<Self::Blocks, AllocError>
        requires indexed { Self.indexes self.old state.now items.now.store }
        ensures contents { IndexesAllOf (Self.indexes self.old) (Self.indexes self.new) }
        ensures planned { StaysPlanned (Self.is_planned self.old) (Self.is_planned self.new) }
        ensures ready { IfOk result (Self.has_room_for self.new plan.now) }
        ensures had_room { live_count items.now.store < Self.capacity self.old → IsOk result × (self.new ≡ self.old) }
        ensures none { live_count items.now.store < Self.capacity self.old → IfOk result Self.are_none }
        ensures capacity_at_least { Self.capacity self.old ≤ Self.capacity self.new }
        ensures few { Self.cells self.new ≤ Self.cells self.old + Self.grown (live_count items.now.store + 1) };

    /// Inserts an index as planned. It takes no memory.
    fn insert(
        &mut self,
        hashes: Self::Hashes,
        plan: &Self::InsertPlan,
        blocks: Self::Blocks,
        ix: ItemIndex,
    )
        requires room { Self.has_room_for self.old plan.now blocks }
        requires next { IsNextOf (Self.indexes self.old) ix }
        requires assigned { ix ≢ sentinel }
        requires planned { IsPlannedForOne (λ state s item. Self.is_planned self.old state s item plan.now) }
        ensures indexed { IndexesOneMore Self.alike Self.are_hashes hashes (Self.is_planned self.old) plan.now
            (Self.indexes self.old) ix (Self.indexes self.new) }
        ensures capacity { Self.capacity self.new ≡ Self.capacity self.old }
        ensures cells { Self.cells self.new ≡ Self.cells self.old };

    /// The least reported index that is greater than `before`; the least of all if `before` is `None`.
    fn next_reported(conflict: &Self::Conflict, before: Option<ItemIndex>) -> Option<ItemIndex>
        ensures next { IsNextReported (Self.reports conflict.now) before result }
        ensures reported { (s : Store T) (item : T) → Self.conflicts s item conflict.now → (ix : ℕ)
            → Self.reports conflict.now ix ↔ IsHit s (Self.alike item) ix }
        ensures some { (s : Store T) (item : T) → Self.conflicts s item conflict.now
            → (ix : ℕ) × Self.reports conflict.now ix }
        ensures few { (l : List ℕ) × (length l ≤ Self.unique_keys)
            × ((ix : ℕ) → Self.reports conflict.now ix → Contains l ix) };

    /// The position for an item that is alike to none.
    fn position(
        &self,
        items: &ItemSet<T>,
        state: &S,
        hashes: Self::Hashes,
        item: &T,
    ) -> Self::Position
        requires hashed { Self.are_hashes state.now item.now hashes }
        requires indexed { Self.indexes self.now state.now items.now.store }
        requires apart { HasNoHit items.now.store (Self.alike item.now) }
        ensures { Self.is_position self.now state.now items.now.store item.now result };

    /// Takes the memory for an insert that comes after a removal. Up to the capacity it takes none.
    fn blocks_after(&self, items: &ItemSet<T>, state: &S) -> Result<Self::Blocks, AllocError>
        requires indexed { Self.indexes self.now state.now items.now.store }
        ensures enough { IfOk result (Self.are_enough_after self.now) }
        ensures none { live_count items.now.store ≤ Self.capacity self.now → IfOk result Self.are_none }
        ensures may_need_memory { OnErr result (Self.may_need_memory ≡ true) }
        ensures past { OnErr result (Self.capacity self.now < live_count items.now.store) };

    /// Removes a live index. It takes no memory. What was taken for an insert after a removal is still enough for it.
    fn remove(&mut self, items: &ItemSet<T>, state: &S, ix: ItemIndex)
        requires live { IsLive items.now.store ix }
        requires indexed { Self.indexes self.old state.now items.now.store }
        ensures indexed { Self.indexes self.new state.now (removed items.now.store ix) }
        ensures capacity { Self.capacity self.new ≡ Self.capacity self.old }
        ensures cells { Self.cells self.new ≡ Self.cells self.old }
        ensures enough { (blocks : Self.Blocks) → Self.are_enough_after self.old blocks
            → Self.are_enough_after self.new blocks }
        ensures roomy { (plan : Self.InsertPlan) (blocks : Self.Blocks) → Self.are_enough_after self.old blocks
            → Self.has_room_for self.new plan blocks };
}

/// The laws of a key index.
pub trait IndexLaws<T, S>: KeyIndex<T, S> {
    ghost use Rattle.std.specs.Prelude.{ℕ, Some};
    ghost use Rattle.std.specs.Cmp.{IsEquivalence};
    ghost use Rattle.iddqd.specs.Store.{Store, get};
    ghost use Rattle.iddqd_keys.specs.Scan.{AreApart};
    ghost use Rattle.iddqd_map.specs.KeyIndex.{HaveSameKeys};

    // If there are no slots and no indexes, a shrink leaves nothing.
    ghost kept_none: { Self.kept 0 0 ≡ 0 };

    // More slots and more indexes need no fewer cells.
    ghost needed_grows: { (slots more_slots count more : ℕ) → slots ≤ more_slots → count ≤ more
        → Self.needed slots count ≤ Self.needed more_slots more };

    // `same` is reflexive. Of two key indexes that are the same, the second indexes each store that the first does.
    ghost same_as_itself: { (x : Self) → Self.same x x };

    ghost same_indexes: { (x y : Self) (state : S) (s : Store T) → Self.same x y → Self.indexes x state s
        → Self.indexes y state s };

    // No two items are alike.
    ghost apart: { (x : Self) (state : S) (s : Store T) → Self.indexes x state s → AreApart Self.alike s };

    // A key index still indexes its store after an item was modified and kept its keys, and it indexes any store whose
    // items have the same keys.
    ghost modified: { (x : Self) (state : S) (s : Store T) (ix : ℕ) (was item : T) → Self.indexes x state s
        → get s ix ≡ Some was → Self.keys item ≡ Self.keys was → Self.indexes x state (rebound s ix item) };

    ghost same_items: { (x : Self) (state : S) (s t : Store T) → HaveSameKeys Self.same_keys s t
        → Self.indexes x state s → Self.indexes x state t };

    // To share all keys is an equivalence.
    ghost equivalence: { IsEquivalence Self.same_keys };
}

/// The laws of what is planned.
pub trait PlanLaws<T, S>: Changes<T, S> {
    ghost use Rattle.std.specs.Prelude.{ℕ, List, ◌↔◌};
    ghost use Rattle.std.specs.List.{Contains};
    ghost use Rattle.iddqd.specs.Store.{Store};
    ghost use Rattle.iddqd_keys.specs.Scan.{IsHit};

    // A conflict reports the stored items that share a key with the item, and no others.
    ghost reported: { (s : Store T) (item : T) (at : Self.Conflict) → Self.conflicts s item at → (ix : ℕ)
        → Self.reports at ix ↔ IsHit s (Self.alike item) ix };

    // At least one is reported, and never more than there are keys.
    ghost reported_some: { (s : Store T) (item : T) (at : Self.Conflict) → Self.conflicts s item at
        → (ix : ℕ) × Self.reports at ix };

    ghost few_reported: { (at : Self.Conflict) → (l : List ℕ) × (length l ≤ Self.unique_keys)
        × ((ix : ℕ) → Self.reports at ix → Contains l ix) };

    // What was planned by a key index is planned by one that is the same.
    ghost same_plans: { (x y : Self) (state : S) (s : Store T) (item : T) (plan : Self.InsertPlan) → Self.same x y
        → Self.is_planned x state s item plan → Self.is_planned y state s item plan };
}

/// What a replacement of an item asks of a key index: how its index moves, the memory for that, and the move.
pub trait Moves<T, S>: KeyIndex<T, S> {
    ghost use Rattle.std.specs.Prelude.{ℕ, Bool};
    ghost use Rattle.iddqd.specs.Store.{Store};

    /// The items, other than the one that is replaced, that an item is alike to.
    type Taken: Copy;
    /// How a live index must move if its item is replaced.
    type MovePlan: Drop;
    /// The memory that was taken for one move, beyond that of the tables.
    type MoveBlocks: Drop;

    // It reports the items, other than the one at the index, that this item is alike to.
    ghost taken: { Store T → ℕ → T → Self.Taken → Type 0 };

    ghost is_move: { S → Store T → ℕ → T → Self.MovePlan → Type 0 };

    // Some table has to move the index.
    ghost moves: { Self.MovePlan → Bool };

    // No memory was taken.
    ghost are_none: { Self.MoveBlocks → Type 0 };

    // They are enough for the planned move.
    ghost are_enough_for: { Self → Self.MovePlan → Self.MoveBlocks → Type 0 };

    /// The value for no hash: no look-up computed one.
    fn no_hashes() -> Self::KnownHashes
        ensures { (state : S) (item : T) → Self.are_known state item result };

    /// How a live index must move if its item is replaced by this one; or the other items that share a key with it.
    fn plan_move(
        &self,
        items: &ItemSet<T>,
        state: &S,
        ix: ItemIndex,
        item: &T,
    ) -> Result<Self::MovePlan, Self::Taken>
        requires live { IsLive items.now.store ix }
        requires indexed { Self.indexes self.now state.now items.now.store }
        ensures { FindsMove Self.alike Self.same_keys (Self.is_move state.now) Self.moves Self.taken items.now.store ix
            item.now result };

    /// Takes the memory of a planned move. Up to the capacity it takes none, nor if all keys stay.
    fn blocks_for(
        &self,
        items: &ItemSet<T>,
        state: &S,
        plan: &Self::MovePlan,
    ) -> Result<Self::MoveBlocks, AllocError>
        requires indexed { Self.indexes self.now state.now items.now.store }
        ensures enough { IfOk result (Self.are_enough_for self.now plan.now) }
        ensures none { live_count items.now.store ≤ Self.capacity self.now → IfOk result Self.are_none }
        ensures stays { Self.moves plan.now ≡ false → IfOk result Self.are_none }
        ensures moves { OnErr result (Self.moves plan.now ≡ true) }
        ensures may_need_memory { OnErr result (Self.may_need_memory ≡ true) }
        ensures past { OnErr result (Self.capacity self.now < live_count items.now.store) };

    /// Moves a live index as planned, while the store still has its old item. It takes no memory.
    ///
    /// `known` has the hashes of old keys that a look-up computed, so that they aren't computed again. Under a wrong
    /// hash the old entry would be missed, and its table scanned.
    fn commit_move(
        &mut self,
        items: &ItemSet<T>,
        state: &S,
        known: Self::KnownHashes,
        plan: &Self::MovePlan,
        blocks: Self::MoveBlocks,
        ix: ItemIndex,
        item: &T,
    )
        requires live { IsLive items.now.store ix }
        requires indexed { Self.indexes self.old state.now items.now.store }
        requires known { AreKnownAt (Self.are_known state.now) items.now.store ix known }
        requires planned { Self.is_move state.now items.now.store ix item.now plan.now }
        requires enough { Self.are_enough_for self.old plan.now blocks }
        ensures indexed { Self.indexes self.new state.now (rebound items.now.store ix item.now) }
        ensures capacity { Self.capacity self.new ≡ Self.capacity self.old }
        ensures cells { Self.cells self.new ≡ Self.cells self.old };
}

/// Makes a key index that has no indexes. It is a trait of its own, so that a caller who only makes a map pays neither
/// for `Upkeep` nor for `IndexLaws`.
pub trait Empty<T, S>: KeyIndex<T, S> {
    /// A key index of a store without items. It takes no memory.
    fn new(alloc: Global) -> Self
        ensures none { IndexesNone (Self.indexes result) }
        ensures capacity { Self.capacity result ≡ 0 }
        ensures cells { Self.cells result ≡ 0 };
}

/// What concerns a key index as a whole: it is made with room, resized, cleared, copied and checked, and its indexes
/// are renamed.
pub trait Upkeep<T, S>: IndexLaws<T, S> {
    /// How many indexes it can hold without more memory.
    fn capacity(&self) -> usize
        ensures { result ≡ Self.capacity self.now };

    /// A key index of a store without items that can hold `wanted` indexes. With 0 it takes no memory.
    fn with_capacity(alloc: Global, wanted: usize) -> Result<Self, AllocError>
        ensures none { IfOk result (λ x. IndexesNone (Self.indexes x)) }
        ensures capacity { IfOk result (λ x. wanted ≤ Self.capacity x) }
        ensures few { IfOk result (λ x. Self.cells x ≤ Self.most wanted) }
        ensures succeeds { wanted ≡ 0 → IsOk result };

    /// Makes room for `additional` more indexes. If there is room it takes no memory.
    fn reserve(
        &mut self,
        items: &ItemSet<T>,
        state: &S,
        additional: usize,
    ) -> Result<(), AllocError>
        requires indexed { Self.indexes self.old state.now items.now.store }
        ensures contents { Self.same self.old self.new }
        ensures reserved { OnOk result (live_count items.now.store + additional ≤ Self.capacity self.new) }
        ensures had_room { live_count items.now.store + additional ≤ Self.capacity self.old
            → IsOk result × (self.new ≡ self.old) }
        ensures capacity_at_least { Self.capacity self.old ≤ Self.capacity self.new }
        ensures few { Self.cells self.new ≤ Self.cells self.old + Self.most (live_count items.now.store + additional) };

    /// Gives back the memory beyond what `least` indexes need, or the slots and indexes that there are if these are
    /// more.
    ///
    /// The contents may have to move to a smaller block, for which memory may run out.
    fn shrink_to(&mut self, items: &ItemSet<T>, state: &S, least: usize) -> Result<(), AllocError>
        requires indexed { Self.indexes self.old state.now items.now.store }
        ensures contents { Self.same self.old self.new }
        ensures never_more { Self.cells self.new ≤ Self.cells self.old }
        ensures capacity_at_least { min (Self.capacity self.old) (max least (live_count items.now.store))
            ≤ Self.capacity self.new }
        ensures shrunk { OnOk result (Self.cells self.new
            ≤ Self.kept (max least (slot_count items.now.store)) (max least (live_count items.now.store))) }
        ensures refused { OnErr result (max least (live_count items.now.store) < Self.cells self.new) }
        ensures needed { let kept = min (Self.capacity self.old) (max least (live_count items.now.store)) in
            OnErr result (Self.needed (max (slot_count items.now.store) kept) kept < Self.cells self.new) }
        ensures enough { let kept = min (Self.capacity self.old) (max least (live_count items.now.store)) in
            Self.needed (max (slot_count items.now.store) kept) kept ≤ Self.cells self.new }
        ensures succeeds { Self.kept (max least (slot_count items.now.store))
            (max least (live_count items.now.store)) ≡ 0 → IsOk result };

    /// Forgets every index, and keeps the memory.
    fn clear(&mut self)
        ensures none { IndexesNone (Self.indexes self.new) }
        ensures capacity { Self.capacity self.new ≡ Self.capacity self.old }
        ensures cells { Self.cells self.new ≡ Self.cells self.old };

    /// Replaces each index by its new one. It takes no memory.
    fn remap(&mut self, remap: &IndexRemap)
        requires names { IsRemapOfSome (Self.indexes self.old) remap.now }
        ensures indexed { IndexesCompacted (Self.indexes self.old) remap.now (Self.indexes self.new) }
        ensures capacity { Self.capacity self.new ≡ Self.capacity self.old }
        ensures cells { Self.cells self.new ≡ Self.cells self.old };

    /// A copy that indexes the same stores, with at most as many cells.
    fn copied(&self) -> Result<Self, AllocError>
        ensures contents { IfOk result (λ copy. IndexesAllOf (Self.indexes self.now) (Self.indexes copy)) }
        ensures few { IfOk result (λ copy. Self.cells copy ≤ Self.cells self.now) };

    /// Checks the tables. They are sound by the conditions, so this fails only if memory for a sorted copy of the
    /// indexes runs out.
    fn validate(
        &self,
        items: &ItemSet<T>,
        state: &S,
        compactness: ValidateCompact,
    ) -> Result<(), ValidateRefusal<ValidationError>>
        requires valid { IsValid items.now.store }
        requires allowed { Allows compactness (length items.now.store.free) }
        requires indexed { Self.indexes self.now state.now items.now.store }
        ensures { Validates (Allows compactness (length items.now.store.free)) result };
}

/// A key index that compares all keys of two items.
pub trait ComparesKeys<T, S>: KeyIndex<T, S> {
    /// Whether the items share all keys.
    fn is_same(item: &T, other: &T) -> bool
        ensures { result ≡ Self.same_keys item.now other.now };
}

/// A key index that finds the one item that shares all keys with another: its first key is unique.
pub trait FindsSame<T, S>: IndexLaws<T, S> {
    ghost use Rattle.std.specs.Prelude.{true};

    /// The index of the item that shares all keys with this one.
    fn find_same(&self, items: &ItemSet<T>, state: &S, item: &T) -> Option<ItemIndex>
        requires indexed { Self.indexes self.now state.now items.now.store }
        ensures { AnswersScan items.now.store (Self.same_keys item.now) result };

    // Items that share all keys share one.
    ghost same_are_alike: { (x y : T) → Self.same_keys x y ≡ true → Self.alike x y ≡ true };
}

/// The place of the key of a key index that has one key.
pub enum Here {}

/// The place `P` in the first key index of a pair.
pub struct Left<P> {
    of: PhantomData<P>,
}

/// The place `P` in the second key index of a pair.
pub struct Right<P> {
    of: PhantomData<P>,
}

/// The place of the first key of a key index that has several tables of its own: a `BiIndex` or a `TriIndex`.
pub enum First {}

/// The place of its second key.
pub enum Second {}

/// The place of its third key.
pub enum Third {}

/// A key index with a unique key at the place `P`, found by queries `Q`.
pub trait UniqueAt<P, Q, T, S>: KeyIndex<T, S> {
    ghost use Rattle.std.specs.Prelude.{Bool};

    // The query stands for the key of the item.
    ghost stands_for: { Q → T → Bool };

    // The hash of the key at the place is known, if that key has one.
    ghost has_hash: { Self.KnownHashes → Type 0 };

    /// The index of the item that has the key for which the query stands, and the hashes that were computed for that:
    /// each is one of that item, and a move of the item takes them.
    fn find(
        &self,
        items: &ItemSet<T>,
        state: &S,
        query: Q,
    ) -> (Option<ItemIndex>, Self::KnownHashes)
        requires indexed { Self.KeyIndex.indexes self.now state.now items.now.store }
        ensures found { AnswersScan items.now.store (stands_for query) result.0 }
        ensures known { IfSome result.0 (λ ix. AreKnownAt (Self.KeyIndex.are_known state.now) items.now.store ix
            result.1) }
        ensures hashed { has_hash result.1 };
}

/// A key index that removes an index by a unique key at the place `P`.
pub trait TakesAt<P, Q, T, S>: UniqueAt<P, Q, T, S> {
    /// Finds as `find` does, and removes the index, by one search by that key. It takes no memory.
    fn take(&mut self, items: &ItemSet<T>, state: &S, query: Q) -> Option<ItemIndex>
        requires indexed { Self.KeyIndex.indexes self.old state.now items.now.store }
        ensures found { AnswersScan items.now.store (Self.UniqueAt.stands_for query) result }
        ensures taken { TakesFound (Self.KeyIndex.indexes self.new) state.now items.now.store result }
        ensures capacity { Self.KeyIndex.capacity self.new ≡ Self.KeyIndex.capacity self.old }
        ensures cells { Self.KeyIndex.cells self.new ≡ Self.KeyIndex.cells self.old };
}

/// A key index that reads from a conflict which item shares the unique key at the place `P`.
pub trait ReportsAt<P, T, S>: Changes<T, S> {
    ghost use Rattle.std.specs.Prelude.{Bool, true};
    ghost use Rattle.iddqd.specs.Store.{Store};

    // The items share the key at the place.
    ghost alike_at: { T → T → Bool };

    /// The index of the item that shares the key at the place; `None` if none does.
    fn reported_at(conflict: &Self::Conflict) -> Option<ItemIndex>
        ensures { (s : Store T) (item : T) → Self.Changes.conflicts s item conflict.now
            → AnswersScan s (alike_at item) result };

    // Items that share that key share a unique key.
    ghost alike_there: { (x y : T) → alike_at x y ≡ true → Self.KeyIndex.alike x y ≡ true };
}

/// A key index with a key by its order at the place `P`, unique or not, and queries `Q` that fit that order.
pub trait OrderedAt<P, Q, T, S>: KeyIndex<T, S> {
    ghost use Rattle.std.specs.declared.cmp.Ordering.{Ordering};

    // How two items compare by that key.
    ghost order: { T → T → Ordering };

    // How the query compares with an item's key.
    ghost compare: { Q → T → Ordering };
}

/// A key index that goes along the order of the key at the place `P`, and removes indexes as it goes.
///
/// A call that goes along the order may remove items. So nothing is borrowed between two steps: a spot says where an
/// index stands, and only `first_between` searches.
pub trait StepsAt<P, Q, T, S>: OrderedAt<P, Q, T, S> {
    ghost use Rattle.std.specs.Prelude.{ℕ};
    ghost use Rattle.std.specs.Cmp.{IsTotalOrder};
    ghost use Rattle.std.specs.declared.cmp.Ordering.TheVariants.{Equal};
    ghost use Rattle.iddqd_keys.specs.OrderedQuery.{FitsOrder};

    /// Where an index stands in the order.
    type Spot: Drop;

    // The index stands at the spot.
    ghost stands: { Self → Self.Spot → ℕ → Type 0 };

    /// The first index whose item has a key within the bounds, by key and then by index, with its spot.
    fn first_between(
        &self,
        items: &ItemSet<T>,
        state: &S,
        bounds: &Bounds<Q>,
    ) -> Option<(ItemIndex, Self::Spot)>
        requires indexed { Self.KeyIndex.indexes self.now state.now items.now.store }
        ensures first { IsFirstHit itself Self.OrderedAt.order items.now.store
            (is_in_bounds Self.OrderedAt.compare bounds.now)
            (option_map (λ (r : ℕ × Self.Spot). r.0) result) }
        ensures stands { IfSome result (λ r. stands self.now r.1 r.0) };

    /// Moves the spot of a live index to the next one behind it, by key and then by index, and returns that index, if
    /// its item's key is within the upper bound.
    fn next_between(
        &self,
        items: &ItemSet<T>,
        state: &S,
        spot: &mut Self::Spot,
        ix: ItemIndex,
        bounds: &Bounds<Q>,
    ) -> Option<ItemIndex>
        requires live { IsLive items.now.store ix }
        requires indexed { Self.KeyIndex.indexes self.now state.now items.now.store }
        requires stands { stands self.now spot.old ix }
        ensures next { IsNextHit itself Self.OrderedAt.order items.now.store
            (is_up_to (bound_map Self.OrderedAt.compare bounds.now.upper)) ix result }
        ensures stands { IfSome result (stands self.now spot.new) };

    /// Removes a live index, and moves its spot as `next_between` does. It takes no memory.
    fn take_between(
        &mut self,
        items: &ItemSet<T>,
        state: &S,
        spot: &mut Self::Spot,
        ix: ItemIndex,
        bounds: &Bounds<Q>,
    ) -> Option<ItemIndex>
        requires live { IsLive items.now.store ix }
        requires indexed { Self.KeyIndex.indexes self.old state.now items.now.store }
        requires stands { stands self.old spot.old ix }
        ensures next { IsNextHit itself Self.OrderedAt.order items.now.store
            (is_up_to (bound_map Self.OrderedAt.compare bounds.now.upper)) ix result }
        ensures stands { IfSome result (stands self.new spot.new) }
        ensures indexed { Self.KeyIndex.indexes self.new state.now (removed items.now.store ix) }
        ensures capacity { Self.KeyIndex.capacity self.new ≡ Self.KeyIndex.capacity self.old }
        ensures cells { Self.KeyIndex.cells self.new ≡ Self.KeyIndex.cells self.old };

    // The order is total, and each query fits it. A query may be Equal at keys that differ.
    ghost total: { IsTotalOrder Self.OrderedAt.order };

    ghost fits: { (query : Q) → FitsOrder Self.OrderedAt.order (Self.OrderedAt.compare query) };

    // Items with the same keys compare Equal.
    ghost keys_tie: { (x y : T) → Self.KeyIndex.keys x ≡ Self.KeyIndex.keys y → Self.OrderedAt.order x y ≡ Equal };
}
