//! A stock of parts in an `IdHashMap`, an item for each kind. A duplicate is merged, parts are taken and exchanged, and
//! memory isn't refused where room was reserved ahead.
//!
//! The map's own hasher is quick, and its seed is fixed. Keys that strangers choose want one whose seed is drawn anew,
//! as std's `RandomState`. A hasher of one's own is two traits, and its ghost members say what it computes.
ghost use Rattle.std.specs.Prelude.{◌≡◌, ◌⊎◌, ◌≤◌, ◌==◌, ◌↔◌, ◌+◌, ◌*◌, ◌%◌, ◌^◌, ℕ, false, true, length, min, Some, IsOk, IfOk, IfErr, IfSome, OnOk, OnErr};
ghost use Rattle.std.specs.List.{fold};
ghost use Rattle.iddqd_maps.specs.Bulk.{inserted_all};
ghost use Rattle.iddqd_maps.specs.Compaction.{compacted};
ghost use Rattle.iddqd_maps.specs.LiveItems.{live_items, live_pairs};
ghost use Rattle.iddqd_maps.specs.Map.{FindsItem, IsOnly, RemovesAt, empty_map, room};
ghost use Rattle.iddqd_maps.specs.OneKey.{IsTaken};
ghost use Rattle.iddqd_maps.specs.Scan.{HasNoHit, IsHit};
ghost use Rattle.iddqd_maps.specs.Sizes.{insertable};
ghost use Rattle.iddqd_maps.specs.Store.{IsFull, cleared, empty, empty_within, get, inserted, live_count, next_index, rebound, slot_limit};
ghost use Rattle.iddqd_maps.specs.Validation.{Tells, Validates, not_compact_text};
ghost use Rattle.uses.specs.Exchanges.{Exchanges, IsWhyNot, IsWhyNotAt, IsWhyNotTakenOver, TakesOverOne};
ghost use Rattle.uses.specs.Stock.{has_kind, same_kind, sum_of, with_count};
ghost use Rattle.uses.specs.Updates.{UpdatesAt};
ghost use Rattle.uses.specs.declared.stock.Part.{Part};

use iddqd_maps::item_set::{IntoValues, Iter, Values};
use iddqd_maps::{
    Here, IdHashItem, IdHashMap, InsertRefusal, ItemIndex, OverwriteRefusal, ReplaceRefusal,
    ValidateCompact, ValidateRefusal, ValidationError,
};
use std::alloc::{AllocError, Global};
use std::hash::{BuildHasher, Hasher, RandomState};
use std::io;
use std::random::RandomSource;

/// So many parts of a kind.
#[derive(Clone, Copy, Debug)]
pub struct Part {
    pub kind: u32,
    pub count: u32,
}

impl IdHashItem for Part {
    type Key = u32;

    ghost key_of = { λ part. part.kind };

    fn key(&self) -> &u32 {
        &self.kind
    }
}

/// A hasher that takes the bytes as the digits of a number to the base 31.
#[derive(Clone, Copy)]
pub struct Base31(u64);

impl Hasher for Base31 {
    ghost write = { λ h bytes. record { 0 = fold (λ sum byte. (sum * 31 % 2 ^ 64 + byte) % 2 ^ 64) h.0 bytes } };

    ghost finish = { λ h. h.0 };

    fn finish(&self) -> u64 {
        self.0
    }

    fn write(&mut self, bytes: &[u8]) {
        for byte in bytes {
            self.0 = self.0.wrapping_mul(31).wrapping_add(u64::from(*byte));
        }
    }
}

impl BuildHasher for Base31 {
    type Hasher = Base31;

    ghost build_hasher = { λ s. s };

    fn build_hasher(&self) -> Base31 {
        *self
    }
}

type Stock = IdHashMap<Part>;

/// A stock whose kinds strangers choose: the seed is drawn from the system.
pub fn guarded(rt: &impl RandomSource, alloc: Global) -> io::Result<IdHashMap<Part, RandomState>> {
    Ok(IdHashMap::with_hasher(alloc, RandomState::new(rt)?))
}

/// A stock for at most so many kinds.
pub fn within(alloc: Global, limit: u32) -> Stock
    ensures { result ≡ empty_map limit }
{
    IdHashMap::with_limit(alloc, limit)
}

/// An empty stock with room for so many kinds, or for as many as there are indexes.
pub fn with_room(alloc: Global, kinds: usize) -> Result<Stock, AllocError>
    ensures none { IfOk result (λ stock. stock.store ≡ empty) }
    ensures room { IfOk result (λ stock. min kinds slot_limit ≤ room stock) }
{
    IdHashMap::with_capacity(alloc, kinds)
}

/// An empty stock for at most so many kinds, with room for so many of them.
pub fn within_with_room(alloc: Global, limit: u32, kinds: usize) -> Result<Stock, AllocError>
    ensures none { IfOk result (λ stock. stock.store ≡ empty_within limit) }
    ensures room { IfOk result (λ stock. min kinds limit ≤ room stock) }
{
    IdHashMap::with_limit_and_capacity(alloc, limit, kinds)
}

/// A stock of two parts, unless they are of one kind or memory runs out.
pub fn of_two(alloc: Global, parts: [Part; 2]) -> Result<Stock, InsertRefusal<Part, ItemIndex>>
    ensures parts { IfOk result (λ stock. stock.store ≡ inserted_all empty parts) }
    ensures count { IfOk result (λ stock. live_count stock.store ≡ 2) }
{
    IdHashMap::from_array(alloc, parts)
}

/// An empty stock with room for so many kinds, under a hasher of one's own.
pub fn hashed_with_room(
    alloc: Global,
    kinds: usize,
    hasher: Base31,
) -> Result<IdHashMap<Part, Base31>, AllocError>
    ensures none { IfOk result (λ stock. stock.store ≡ empty) }
    ensures room { IfOk result (λ stock. min kinds slot_limit ≤ room stock) }
{
    IdHashMap::with_capacity_and_hasher(alloc, hasher, kinds)
}

/// A stock for at most so many kinds, under a hasher of one's own.
pub fn hashed_within(alloc: Global, limit: u32, hasher: Base31) -> IdHashMap<Part, Base31>
    ensures { result ≡ empty_map limit }
{
    IdHashMap::with_limit_and_hasher(alloc, hasher, limit)
}

/// Adds a part, or returns the index of the part of its kind. The caller has reserved room, so neither the limit nor
/// memory refuses it.
pub fn add(stock: &mut Stock, part: Part) -> Result<ItemIndex, ItemIndex>
    requires { 1 ≤ room stock.old }
    ensures index { IfOk result (λ ix. ix ≡ next_index stock.old.store) }
    ensures stored { OnOk result (stock.new.store ≡ inserted stock.old.store part) }
    ensures refused { IfErr result (IsHit stock.old.store (same_kind part)) }
    ensures unchanged { OnErr result (stock.new.store ≡ stock.old.store) }
{
    match stock.insert_unique(part) {
        Ok(ix) => Ok(ix),
        Err(InsertRefusal::Duplicate { at, .. }) => Err(at),
        Err(InsertRefusal::Full(_)) | Err(InsertRefusal::Memory(_)) => unreachable!(),
    }
}

/// Adds a part, or as many as it has to those of its kind. The part comes back if none is of its kind, and there are as
/// many kinds as the limit allows or there is no memory.
pub fn merge(stock: &mut Stock, part: Part) -> Result<(), Part>
    ensures added { HasNoHit stock.old.store (same_kind part) → OnOk result
        (stock.new.store ≡ inserted stock.old.store part) }
    ensures taken { (ix : ℕ) (was : Part) → IsOnly stock.old.store (same_kind part) ix was → IsOk result }
    ensures merged { (ix : ℕ) (was : Part) → IsOnly stock.old.store (same_kind part) ix was →
        stock.new.store ≡ rebound stock.old.store ix (sum_of part was) }
    ensures refused { IfErr result (λ back. (back ≡ part) × HasNoHit stock.old.store (same_kind part)
        × (IsFull stock.old.store ⊎ (room stock.old ≡ 0))) }
    ensures unchanged { OnErr result (stock.new.store ≡ stock.old.store) }
{
    match stock.modify_or_insert_by::<Here, _>(part, |was, more| {
        was.count = was.count.saturating_add(more.count)
    }) {
        Ok(_) => Ok(()),
        Err(InsertRefusal::Duplicate { .. }) => unreachable!(),
        Err(InsertRefusal::Full(item)) => Err(item),
        Err(InsertRefusal::Memory(item)) => Err(item),
    }
}

/// The part of a kind, which has that kind; none exactly where there is none.
pub fn part_of_kind(stock: &Stock, kind: u32) -> Option<Part>
    ensures found { FindsItem stock.now.store (λ part. kind == part.kind) result }
    ensures kind { IfSome result (λ part. part.kind ≡ kind) }
{
    stock.get(&kind).copied()
}

/// Whether the parts stand under the indexes from 0 on, or why not.
pub fn check(stock: &Stock) -> Result<(), ValidateRefusal<ValidationError>>
    ensures dense { Validates (length stock.now.store.free ≡ 0) result }
    ensures message { IfErr result (Tells (not_compact_text (length stock.now.store.free))) }
{
    stock.validate(ValidateCompact::Compact)
}

/// Makes room for so many more kinds, and returns how many can come without memory.
pub fn make_room(stock: &mut Stock, more: usize) -> Result<usize, AllocError>
    ensures room { IfOk result (λ count. min more (insertable stock.old.store) ≤ count) }
    ensures unchanged { stock.new.store ≡ stock.old.store }
{
    stock.reserve(more)?;
    Ok(stock.room())
}

/// Closes the gaps, and gives back all memory that the parts don't need. If memory runs out for it, the parts stay as
/// they were, or the gaps are closed already.
pub fn pack(stock: &mut Stock) -> Result<(), AllocError>
    ensures parts { OnOk result (stock.new.store ≡ compacted stock.old.store) }
    ensures memory { OnOk result (room stock.new ≡ 0) }
    ensures refused { OnErr result
        ((stock.new ≡ stock.old) ⊎ (stock.new.store ≡ compacted stock.old.store)) }
{
    stock.compact()?;
    stock.shrink_to_fit()
}

/// Forgets all parts, and returns whether none is left.
pub fn clear_out(stock: &mut Stock) -> bool
    ensures parts { stock.new.store ≡ cleared stock.old.store }
    ensures memory { room stock.old ≤ room stock.new }
    ensures empty { result ≡ true }
{
    stock.clear();
    stock.is_empty()
}

/// Whether the stock has an item of this kind, even if its count is 0.
pub fn has_kind(stock: &Stock, kind: u32) -> bool
    ensures { (result ≡ false) ↔ HasNoHit stock.now.store (λ part. kind == part.kind) }
{
    stock.contains_key(&kind)
}

/// The part at an index.
pub fn part_at(stock: &Stock, ix: ItemIndex) -> Option<Part>
    ensures { result ≡ get stock.now.store ix }
{
    stock.get_at(ix).copied()
}

/// Sets how many parts of a kind there are, and hands back what there were.
pub fn set(
    stock: &mut Stock,
    part: Part,
) -> Result<(ItemIndex, Option<Part>), OverwriteRefusal<Part>>
    ensures set { IfOk result (λ set. TakesOverOne same_kind part stock.old set.0 set.1 stock.new) }
    ensures refused { IfErr result (IsWhyNotTakenOver same_kind part stock.old) }
    ensures unchanged { OnErr result (stock.new.store ≡ stock.old.store) }
{
    stock.insert_overwrite(part)
}

/// Sets the count of the item at an index; returns `None` if and only if no item is there.
pub fn count_at(stock: &mut Stock, ix: ItemIndex, count: u32) -> Option<()>
    ensures { UpdatesAt stock.old ix (with_count count) result stock.new }
{
    stock.modify_at(ix, |part| part.count = count)
}

/// Puts a part in the place of that of a kind, which is handed back. It is refused exactly where there is none, or
/// another part is of the new one's kind.
pub fn exchange(
    stock: &mut Stock,
    kind: u32,
    part: Part,
) -> Result<Part, ReplaceRefusal<Part, ItemIndex>>
    ensures exchanged { IfOk result
        (λ was. Exchanges same_kind (has_kind kind) part stock.old was stock.new) }
    ensures refused { IfErr result (IsWhyNot (IsTaken same_kind) false (has_kind kind) part stock.old) }
    ensures unchanged { OnErr result (stock.new ≡ stock.old) }
{
    stock.replace(&kind, part)
}

/// Puts a part in the place of that at an index, in the same way.
pub fn exchange_at(
    stock: &mut Stock,
    ix: ItemIndex,
    part: Part,
) -> Result<Part, ReplaceRefusal<Part, ItemIndex>>
    ensures was { IfOk result (λ was. get stock.old.store ix ≡ Some was) }
    ensures exchanged { OnOk result (stock.new.store ≡ rebound stock.old.store ix part) }
    ensures refused { IfErr result (IsWhyNotAt (IsTaken same_kind) false ix part stock.old) }
    ensures unchanged { OnErr result (stock.new ≡ stock.old) }
{
    stock.replace_at(ix, part)
}

/// Takes the part at an index, if there is one. All others stay.
pub fn take_at(stock: &mut Stock, ix: ItemIndex) -> Option<Part>
    ensures { RemovesAt stock.old ix result stock.new }
{
    stock.remove_at(ix)
}

/// The indexes with their parts.
pub fn places(stock: &Stock) -> Iter<'_, Part>
    ensures { result ≡ live_pairs stock.now.store }
{
    stock.iter()
}

/// The parts, in the order of their indexes.
pub fn parts(stock: &Stock) -> Values<'_, Part>
    ensures { result ≡ live_items stock.now.store }
{
    stock.values()
}

/// The parts by value, in the order of their indexes.
pub fn into_parts(stock: Stock) -> IntoValues<Part>
    ensures { result ≡ live_items stock.store }
{
    stock.into_values()
}

fn script(alloc: Global, stock: &mut Stock) -> Result<String, AllocError> {
    let first = merge(stock, Part { kind: 4, count: 2 });
    let second = merge(stock, Part { kind: 4, count: 3 });
    let count = part_of_kind(stock, 4);
    let is_dense = check(stock).is_ok();
    format!(in alloc; "stock: {first:?}, {second:?}, {count:?}, {is_dense}")
}

/// What the calls answer.
pub fn line(alloc: Global) -> Result<String, AllocError> {
    script(alloc, &mut within(alloc, 2))
}

// How many parts of a kind there are after they were added, under any hasher.
fn count_under<S: BuildHasher>(stock: &mut IdHashMap<Part, S>) -> Option<u32> {
    let kind = 90_125;
    let _ = stock.insert_unique(Part { kind, count: 7 });
    match stock.get(&kind) {
        Some(part) => Some(part.count),
        None => None,
    }
}

/// What is found under a hasher of this module and under one with a drawn seed.
pub fn hashed_line(rt: &impl RandomSource, alloc: Global) -> Result<String, AllocError> {
    let own = count_under(&mut IdHashMap::with_hasher(alloc, Base31(7)));
    let drawn = match guarded(rt, alloc) {
        Ok(mut stock) => count_under(&mut stock),
        Err(_) => None,
    };
    format!(in alloc; "stock under other hashers: {own:?}, {drawn:?}")
}
