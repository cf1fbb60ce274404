//! Lockers and their holders in a `BiHashMap`: the calls that name one of two keys, but for `change1` and `change2`,
//! which `seats` has, and what an insert reports of the keys.
ghost use Rattle.std.specs.Prelude.{◌≡◌, ◌≤◌, ◌==◌, ◌↔◌, false, min, IfOk, IfErr, OnOk, OnErr};
ghost use Rattle.iddqd_maps.specs.Map.{FindsItem, Removes};
ghost use Rattle.iddqd_maps.specs.Scan.{AnswersScan, HasNoHit};
ghost use Rattle.iddqd_maps.specs.Sizes.{insertable};
ghost use Rattle.iddqd_maps.specs.Store.{inserted};
ghost use Rattle.iddqd_maps.specs.TwoKeys.{AreTaken};
ghost use Rattle.uses.specs.Exchanges.{Exchanges, IsWhyNot, IsWhyNotTakenOver, TakesOver};
ghost use Rattle.uses.specs.Lockers.{has_holder, has_number, opened_at, same_holder, same_number, share_key, taken_keys, IsWhyNotHandedOut};
ghost use Rattle.uses.specs.Updates.{Updates};

use iddqd_maps::bi_hash_map::{BiClash, BiHashItem, BiHashMap};
use iddqd_maps::item_index::ItemIndex;
use iddqd_maps::refusal::{InsertRefusal, OverwriteRefusal, ReplaceRefusal};
use std::alloc::{AllocError, Global};

/// A locker. No two have the same number or the same holder.
#[derive(Clone, Copy)]
pub struct Locker {
    pub number: u32,
    pub holder: u32,
    /// When it was opened; 0 if it never was.
    pub opened: u32,
}

impl BiHashItem for Locker {
    type Key1 = u32;

    type Key2 = u32;

    ghost first_key = { λ locker. locker.number };

    ghost second_key = { λ locker. locker.holder };

    fn key1(&self) -> &u32 {
        &self.number
    }

    fn key2(&self) -> &u32 {
        &self.holder
    }
}

type Lockers = BiHashMap<Locker>;

type Replaced = Result<Locker, ReplaceRefusal<Locker, BiClash>>;

/// Why a locker wasn't handed out.
#[derive(Clone, Copy, Debug)]
pub enum HandOutError {
    /// A locker has the number.
    NumberTaken,
    /// The holder has a locker.
    HolderTaken,
    /// A locker has the number, and the holder has that one or another.
    BothTaken,
    /// There are as many lockers as the limit allows.
    Full,
    /// There was no room for another locker, and memory ran out.
    Memory,
}

/// Hands a locker out, or says which of its keys are taken.
pub fn hand_out(lockers: &mut Lockers, locker: Locker) -> Result<(), HandOutError>
    ensures new_number { OnOk result (HasNoHit lockers.old.store (has_number locker.number)) }
    ensures new_holder { OnOk result (HasNoHit lockers.old.store (has_holder locker.holder)) }
    ensures handed_out { OnOk result (lockers.new.store ≡ inserted lockers.old.store locker) }
    ensures refused { IfErr result (IsWhyNotHandedOut locker.number locker.holder lockers.old) }
    ensures unchanged { OnErr result (lockers.new.store ≡ lockers.old.store) }
{
    match lockers.insert_unique(locker) {
        Ok(_) => Ok(()),
        Err(InsertRefusal::Duplicate { at, .. }) => Err(taken(&at)),
        Err(InsertRefusal::Full(_)) => Err(HandOutError::Full),
        Err(InsertRefusal::Memory(_)) => Err(HandOutError::Memory),
    }
}

// Which keys are taken. At least one is.
fn taken(at: &BiClash) -> HandOutError
    ensures { result ≡ taken_keys at.now.key1 at.now.key2 }
{
    match (at.key1, at.key2) {
        (Some(_), Some(_)) => HandOutError::BothTaken,
        (Some(_), None) => HandOutError::NumberTaken,
        (None, _) => HandOutError::HolderTaken,
    }
}

/// Makes room for so many more lockers, and returns how many can come without memory.
pub fn make_room(lockers: &mut Lockers, more: usize) -> Result<usize, AllocError>
    ensures room { IfOk result (λ count. min more (insertable lockers.old.store) ≤ count) }
    ensures unchanged { lockers.new.store ≡ lockers.old.store }
{
    lockers.try_reserve(more)?;
    Ok(lockers.room())
}

/// Whether there is a locker of this number, and whether somebody has one.
pub fn are_taken(lockers: &Lockers, number: u32, holder: u32) -> (bool, bool)
    ensures number { (result.0 ≡ false) ↔ HasNoHit lockers.now.store (λ locker. number == locker.number) }
    ensures holder { (result.1 ≡ false) ↔ HasNoHit lockers.now.store (λ locker. holder == locker.holder) }
{
    (
        lockers.contains_key1(&number),
        lockers.contains_key2(&holder),
    )
}

/// The indexes of the locker of this number and of that of a holder.
pub fn places(lockers: &Lockers, number: u32, holder: u32) -> BiClash
    ensures number { AnswersScan lockers.now.store (λ locker. number == locker.number) result.key1 }
    ensures holder { AnswersScan lockers.now.store (λ locker. holder == locker.holder) result.key2 }
{
    BiClash {
        key1: lockers.find1(&number),
        key2: lockers.find2(&holder),
    }
}

/// The locker of this number.
pub fn numbered(lockers: &Lockers, number: u32) -> Option<Locker>
    ensures { FindsItem lockers.now.store (λ locker. number == locker.number) result }
{
    lockers.get1(&number).copied()
}

/// The locker that somebody has.
pub fn held_by(lockers: &Lockers, holder: u32) -> Option<Locker>
    ensures { FindsItem lockers.now.store (λ locker. holder == locker.holder) result }
{
    lockers.get2(&holder).copied()
}

/// Hands a locker out, and takes those back that have its number or its holder. If one has, it takes no memory. It is
/// refused only where none has, and there are as many lockers as the limit allows or there is no memory.
pub fn hand_over(
    lockers: &mut Lockers,
    locker: Locker,
) -> Result<(ItemIndex, [Option<(ItemIndex, Locker)>; 2]), OverwriteRefusal<Locker>>
    ensures handed { IfOk result
        (λ handed. TakesOver share_key 2 locker lockers.old handed.0 handed.1 lockers.new) }
    ensures refused { IfErr result (IsWhyNotTakenOver share_key locker lockers.old) }
    ensures unchanged { OnErr result (lockers.new.store ≡ lockers.old.store) }
{
    lockers.insert_overwrite(locker)
}

/// Notes when the locker of this number was opened; none exactly where there is none. With the time 0 it counts as
/// never opened.
pub fn open(lockers: &mut Lockers, number: u32, time: u32) -> Option<()>
    ensures { Updates lockers.old (has_number number) (opened_at time) result lockers.new }
{
    lockers.modify1(&number, |locker| locker.opened = time)
}

/// The same of the locker that somebody has.
pub fn open_by(lockers: &mut Lockers, holder: u32, time: u32) -> Option<()>
    ensures { Updates lockers.old (has_holder holder) (opened_at time) result lockers.new }
{
    lockers.modify2(&holder, |locker| locker.opened = time)
}

/// Puts a locker in the place of that of a number, which is handed back. It is refused exactly where there is none, or
/// another locker has its number or its holder.
pub fn exchange(lockers: &mut Lockers, number: u32, locker: Locker) -> Replaced
    ensures exchanged { IfOk result
        (λ was. Exchanges share_key (has_number number) locker lockers.old was lockers.new) }
    ensures refused { IfErr result
        (IsWhyNot (AreTaken same_number same_holder) false (has_number number) locker lockers.old) }
    ensures unchanged { OnErr result (lockers.new ≡ lockers.old) }
{
    lockers.replace1(&number, locker)
}

/// Puts a locker in the place of that of a holder, in the same way.
pub fn exchange_of(lockers: &mut Lockers, holder: u32, locker: Locker) -> Replaced
    ensures exchanged { IfOk result
        (λ was. Exchanges share_key (has_holder holder) locker lockers.old was lockers.new) }
    ensures refused { IfErr result
        (IsWhyNot (AreTaken same_number same_holder) false (has_holder holder) locker lockers.old) }
    ensures unchanged { OnErr result (lockers.new ≡ lockers.old) }
{
    lockers.replace2(&holder, locker)
}

/// Takes the locker of this number out. All others stay.
pub fn take(lockers: &mut Lockers, number: u32) -> Option<Locker>
    ensures { Removes lockers.old (λ locker. number == locker.number) result lockers.new }
{
    lockers.remove1(&number)
}

/// Takes the locker of a holder out. All others stay.
pub fn take_of(lockers: &mut Lockers, holder: u32) -> Option<Locker>
    ensures { Removes lockers.old (λ locker. holder == locker.holder) result lockers.new }
{
    lockers.remove2(&holder)
}

fn handed_out(lockers: &mut Lockers, number: u32, holder: u32) -> Result<(), HandOutError> {
    let opened = 0;
    hand_out(
        lockers,
        Locker {
            number,
            holder,
            opened,
        },
    )
}

fn script(alloc: Global, lockers: &mut Lockers) -> Result<String, AllocError> {
    let first = handed_out(lockers, 7, 1);
    let second = handed_out(lockers, 7, 2);
    let third = handed_out(lockers, 8, 1);
    let opened = open_by(lockers, 1, 900).is_some();
    let taken = (take(lockers, 7).is_some(), take_of(lockers, 1).is_some());
    format!(in alloc; "lockers: {first:?}, {second:?}, {third:?}, {opened}, {taken:?}")
}

/// What the calls answer.
pub fn line(alloc: Global) -> Result<String, AllocError> {
    script(alloc, &mut BiHashMap::new(alloc))
}
