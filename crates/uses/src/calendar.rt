//! Appointments in `KeyedItems`, which promises exact answers only while no `overwrite` has changed a key.
//!
//! Nothing here calls `overwrite`, and a `Calendar` says so by two ghost fields: both tables are in sync. `new` starts
//! so, and each call keeps it, so that no clause has to ask for it. A look-up there finds an appointment exactly where
//! there is one, and a booking is refused exactly where a key is taken. The functions on a `Diary` have no such fields.
//! So a clause of theirs that says where a look-up misses asks whether the table is in sync.
ghost use Rattle.std.specs.Prelude.{◌≡◌, ◌≢◌, ◌↔◌, ◌≤◌, Some, None, Err, IsTrue, IfSome, IfOk, OnOk, OnErr, MatchOption, min};
ghost use Rattle.std.specs.Bool.{OnTrue, OnFalse};
ghost use Rattle.std.proofs.Props.{props};
ghost use Rattle.iddqd_maps.specs.LiveItems.{live_pairs};
ghost use Rattle.iddqd_keyed.specs.Scan.{AnswersScan, IsHit};
ghost use Rattle.iddqd_keyed.specs.Store.{inserted, live_count, slot_count};
ghost use Rattle.iddqd_keyed.specs.{capacity, empty_state, empty_state_within, no_memory, room, reservable};
ghost use Rattle.iddqd_keyed.specs.{IsInSync, first_key_index, second_key_index, indexes_left};
ghost use Rattle.uses.specs.Calendar.{starts_at, Cancels, HasConflict, HasNone, HasOne, IsBooked};
ghost use Rattle.uses.specs.declared.calendar.Appointment.{Appointment};
ghost use Rattle.uses.specs.declared.calendar.BookingError.TheVariants.{Taken};

use iddqd_keyed::keyed_item::KeyedItem;
use iddqd_keyed::keyed_items::{InsertRefusal, Keyed, KeyedItems};
use iddqd_maps::btree_table;
use iddqd_maps::hash_builder::DefaultHashBuilder;
use iddqd_maps::item_index::ItemIndex;
use iddqd_maps::item_set::Iter;
use std::alloc::{AllocError, Global};

/// An appointment. Numbers are unique, and no two start at the same minute.
#[derive(Clone, Copy, Debug)]
pub struct Appointment {
    pub number: u32,
    pub start: u32,
    pub minutes: u32,
}

impl KeyedItem for Appointment {
    type Key1 = u32;

    type Key2 = u32;

    ghost first_key = { λ appointment. appointment.number };

    ghost second_key = { λ appointment. appointment.start };

    fn key1(&self) -> &u32 {
        &self.number
    }

    fn key2(&self) -> &u32 {
        &self.start
    }
}

type Appointments = KeyedItems<Appointment, DefaultHashBuilder>;

/// Appointments by their numbers, and in the order of their starts.
#[derive(Drop)]
pub struct Calendar {
    pub booked: Appointments,
    ghost by_number: { IsInSync (first_key_index ⟦<Appointments as Keyed>⟧.keys) booked.state },
    ghost by_start: { IsInSync
        (second_key_index ⟦<Appointments as Keyed>⟧.keys) booked.state } by { Prim.hlevel props },
}

/// Why an appointment wasn't booked.
#[derive(Clone, Copy, Debug)]
pub enum BookingError {
    /// Another one has its number or its start.
    Taken,
    /// There are as many as there are indexes.
    Full,
    /// There is no memory.
    Memory,
}

impl Calendar {
    /// No appointments. It takes no memory.
    pub fn new(alloc: Global) -> Calendar
        ensures { (a : Appointment) → IsBooked result.booked.state.store a → ⊥ }
    {
        Calendar {
            booked: KeyedItems::new(alloc, DefaultHashBuilder::default()),
        }
    }

    /// Books an appointment, unless its number or its start is taken.
    pub fn book(&mut self, appointment: Appointment) -> Result<(), BookingError>
        ensures taken { (result ≡ Err Taken) ↔ HasConflict self.old.booked.state.store appointment }
        ensures booked { OnOk result (self.new.booked.state.store ≡ inserted self.old.booked.state.store appointment) }
        ensures unchanged { OnErr result (self.new.booked.state ≡ self.old.booked.state) }
    {
        match self.booked.insert(appointment) {
            Ok(_) => Ok(()),
            Err(InsertRefusal::Duplicate { .. }) => Err(BookingError::Taken),
            Err(InsertRefusal::Full(_)) => Err(BookingError::Full),
            Err(InsertRefusal::Memory(_)) => Err(BookingError::Memory),
        }
    }

    /// The appointment with this number, exactly where there is one.
    pub fn numbered(&self, number: u32) -> Option<Appointment>
        ensures { (a : Appointment) → (result ≡ Some a)
            ↔ (IsBooked self.now.booked.state.store a × (a.number ≡ number)) }
    {
        match self.booked.find1(&number) {
            Some(ix) => self.booked.get(ix).copied(),
            None => None,
        }
    }

    /// The appointment that starts then, exactly where there is one.
    pub fn starting(&self, start: u32) -> Option<Appointment>
        ensures { (a : Appointment) → (result ≡ Some a) ↔ (IsBooked self.now.booked.state.store a × (a.start ≡ start)) }
    {
        match self.booked.find2(&start) {
            Some(ix) => self.booked.get(ix).copied(),
            None => None,
        }
    }

    /// Cancels the appointment with this number, and hands it back. The others stay.
    pub fn cancel(&mut self, number: u32) -> Option<Appointment>
        ensures cancelled { (a : Appointment) →
            (result ≡ Some a) ↔ (IsBooked self.old.booked.state.store a × (a.number ≡ number)) }
        ensures others { (a : Appointment) →
            IsBooked self.new.booked.state.store a ↔ (IsBooked self.old.booked.state.store a × (a.number ≢ number)) }
    {
        match self.booked.remove1(&number) {
            Some((_, appointment)) => Some(appointment),
            None => None,
        }
    }

    /// The indexes of the appointments in the order of their starts.
    pub fn agenda(&self) -> btree_table::Iter<'_>
        ensures order { indexes_left result ≡ self.now.booked.state.order }
        ensures sorted { let key_index = second_key_index ⟦<Appointments as Keyed>⟧.keys in
            key_index.Lists self.now.booked.state.store (indexes_left result) }
    {
        self.booked.walk()
    }
}

/// The same appointments without the ghost fields.
type Diary = KeyedItems<Appointment>;

/// How many appointments there are.
pub fn count(diary: &Diary) -> usize
    ensures { result ≡ live_count diary.now.state.store }
{
    diary.len()
}

/// Whether there is none.
pub fn is_free(diary: &Diary) -> bool
    ensures { IsTrue result ↔ (live_count diary.now.state.store ≡ 0) }
{
    diary.is_empty()
}

/// The indexes with their appointments.
pub fn pages(diary: &Diary) -> Iter<'_, Appointment>
    ensures { result ≡ live_pairs diary.now.state.store }
{
    diary.iter()
}

/// The index of an appointment that starts then. While the table of starts is in sync, it is the one, and none exactly
/// where no appointment does.
pub fn page(diary: &Diary, start: u32) -> Option<ItemIndex>
    ensures found { IfSome result (IsHit diary.now.state.store (starts_at start)) }
    ensures in_order { IsInSync (second_key_index ⟦<Diary as Keyed>⟧.keys) diary.now.state →
        AnswersScan diary.now.state.store (starts_at start) result }
{
    diary.find2(&start)
}

/// Whether an appointment has this number. While the table of numbers is in sync, it answers false only where none has.
pub fn has_number(diary: &Diary, number: u32) -> bool
    ensures found { OnTrue result (HasOne diary.now.state.store (λ a. a.number ≡ number)) }
    ensures missed { IsInSync (first_key_index ⟦<Diary as Keyed>⟧.keys) diary.now.state →
        OnFalse result (HasNone diary.now.state.store (λ a. a.number ≡ number)) }
{
    let found = diary.find1(&number);
    found.is_some()
}

/// Whether an appointment starts then. While the table of starts is in sync, it answers false only where none does.
pub fn is_taken(diary: &Diary, start: u32) -> bool
    ensures found { OnTrue result (HasOne diary.now.state.store (λ a. a.start ≡ start)) }
    ensures missed { IsInSync (second_key_index ⟦<Diary as Keyed>⟧.keys) diary.now.state →
        OnFalse result (HasNone diary.now.state.store (λ a. a.start ≡ start)) }
{
    let found = diary.find2(&start);
    found.is_some()
}

/// An appointment that starts then. While the table of starts is in sync, it is none only where no appointment does.
pub fn starting(diary: &Diary, start: u32) -> Option<Appointment>
    ensures found { IfSome result (λ a. IsBooked diary.now.state.store a × (a.start ≡ start)) }
    ensures missed { IsInSync (second_key_index ⟦<Diary as Keyed>⟧.keys) diary.now.state →
        result ≡ None → HasNone diary.now.state.store (λ a. a.start ≡ start) }
{
    match diary.find2(&start) {
        Some(ix) => diary.get(ix).copied(),
        None => None,
    }
}

/// Removes an appointment that starts then, and returns it with its index. All others stay. While the table of starts
/// is in sync, it is none only where no appointment starts then.
pub fn cancel(diary: &mut Diary, start: u32) -> Option<(ItemIndex, Appointment)>
    ensures cancelled { MatchOption result (diary.new.state ≡ diary.old.state)
        (λ taken. Cancels start diary.old.state taken diary.new.state) }
    ensures missed { IsInSync (second_key_index ⟦<Diary as Keyed>⟧.keys) diary.old.state →
        result ≡ None → HasNone diary.old.state.store (λ a. a.start ≡ start) }
    ensures memory { diary.new.memory ≡ diary.old.memory }
{
    diary.remove2(&start)
}

/// An empty diary with room for so many appointments.
pub fn with_room(alloc: Global, appointments: u32) -> Result<Diary, AllocError>
    ensures none { IfOk result (λ diary. diary.state ≡ empty_state diary.state.hasher) }
    ensures room { IfOk result (λ diary. appointments ≤ room diary) }
{
    KeyedItems::with_capacity_and_default_hasher(alloc, appointments as usize)
}

/// The same under a hasher with a seed of one's own.
pub fn with_room_and_hasher(
    alloc: Global,
    hasher: DefaultHashBuilder,
    appointments: u32,
) -> Result<Diary, AllocError>
    ensures none { IfOk result (λ diary. diary.state ≡ empty_state hasher) }
    ensures room { IfOk result (λ diary. appointments ≤ room diary) }
{
    KeyedItems::with_capacity(alloc, hasher, appointments as usize)
}

/// The same for at most so many appointments.
pub fn within_with_room_and_hasher(
    alloc: Global,
    hasher: DefaultHashBuilder,
    limit: u32,
    appointments: u32,
) -> Result<Diary, AllocError>
    ensures none { IfOk result (λ diary. diary.state ≡ empty_state_within limit hasher) }
    ensures room { IfOk result (λ diary. min appointments limit ≤ room diary) }
{
    KeyedItems::with_limit_and_capacity(alloc, hasher, limit, appointments as usize)
}

/// The same with the default hasher.
pub fn within_with_room(alloc: Global, limit: u32, appointments: u32) -> Result<Diary, AllocError>
    ensures none { IfOk result (λ diary. diary.state ≡ empty_state_within limit diary.state.hasher) }
    ensures room { IfOk result (λ diary. min appointments limit ≤ room diary) }
{
    KeyedItems::with_limit_capacity_and_default_hasher(alloc, limit, appointments as usize)
}

/// An empty diary, which takes no memory.
pub fn empty(alloc: Global) -> Diary
    ensures state { result.state ≡ empty_state result.state.hasher }
    ensures memory { result.memory ≡ no_memory }
{
    KeyedItems::with_default_hasher(alloc)
}

/// An empty diary for at most so many appointments, which takes no memory.
pub fn within(alloc: Global, limit: u32) -> Diary
    ensures state { result.state ≡ empty_state_within limit result.state.hasher }
    ensures memory { result.memory ≡ no_memory }
{
    KeyedItems::with_limit_and_default_hasher(alloc, limit)
}

/// How many appointments it can hold without asking for memory.
pub fn size(diary: &Diary) -> usize
    ensures { result ≡ capacity diary.now }
{
    diary.capacity()
}

/// How many more it can hold without asking for memory.
pub fn left(diary: &Diary) -> usize
    ensures { result ≡ room diary.now }
{
    diary.room()
}

/// Books an appointment where there is room, so that no memory is taken, and returns whether it was booked. If not,
/// nothing changes.
pub fn book(diary: &mut Diary, appointment: Appointment) -> bool
    requires { 1 ≤ room diary.old }
    ensures booked { OnTrue result (diary.new.state.store ≡ inserted diary.old.state.store appointment) }
    ensures unchanged { OnFalse result (diary.new.state ≡ diary.old.state) }
    ensures memory { diary.new.memory ≡ diary.old.memory }
{
    match diary.insert(appointment) {
        Ok(_) => true,
        Err(InsertRefusal::Memory(_)) => unreachable!(),
        Err(_) => false,
    }
}

/// Makes room for so many more appointments.
pub fn widen(diary: &mut Diary, more: usize) -> Result<(), AllocError>
    ensures room { OnOk result (reservable more diary.old ≤ room diary.new) }
    ensures unchanged { diary.new.state ≡ diary.old.state }
{
    diary.reserve(more)
}

/// The same, as another call says it.
pub fn try_widen(diary: &mut Diary, more: usize) -> Result<(), AllocError>
    ensures room { OnOk result (reservable more diary.old ≤ room diary.new) }
    ensures unchanged { diary.new.state ≡ diary.old.state }
{
    diary.try_reserve(more)
}

/// Gives back the memory that the appointments and the vacant slots don't need.
pub fn trim(diary: &mut Diary) -> Result<(), AllocError>
    ensures slots { OnOk result (diary.new.memory.slots ≤ slot_count diary.old.state.store) }
    ensures unchanged { diary.new.state ≡ diary.old.state }
{
    diary.shrink_to_fit()
}

/// The same, but keeps what it can hold up to so many.
pub fn trim_to(diary: &mut Diary, least: usize) -> Result<(), AllocError>
    ensures capacity { min (capacity diary.old) least ≤ capacity diary.new }
    ensures unchanged { diary.new.state ≡ diary.old.state }
{
    diary.shrink_to(least)
}

// The numbers in the order of the starts, each behind a space.
fn numbers(alloc: Global, calendar: &Calendar) -> Result<String, AllocError> {
    let mut numbers = String::new(alloc);
    for ix in calendar.agenda() {
        let Some(appointment) = calendar.booked.get(ix) else {
            continue;
        };
        numbers.push_str(" ")?;
        numbers.push_str(&appointment.number.to_string(alloc)?)?;
    }
    Ok(numbers)
}

fn script(alloc: Global, calendar: &mut Calendar) -> Result<String, AllocError> {
    let mut answers = [Ok(()); 4];
    for (i, (number, start)) in [(7, 900), (8, 840), (7, 930), (9, 840)]
        .into_iter()
        .enumerate()
    {
        answers[i] = calendar.book(Appointment {
            number,
            start,
            minutes: 30,
        });
    }
    let order = numbers(alloc, calendar)?;
    let cancelled = calendar.cancel(8).is_some();
    let found = (calendar.numbered(7).is_some(), calendar.starting(840));
    format!(in alloc; "calendar: {answers:?},{order}, {cancelled}, {found:?}")
}

/// What the calls answer.
pub fn line(alloc: Global) -> Result<String, AllocError> {
    script(alloc, &mut Calendar::new(alloc))
}
