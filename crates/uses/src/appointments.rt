//! Appointments by their rooms and starts, in that order: all of a room are a group, by the first part of the key.
ghost use Rattle.std.specs.Prelude.{◌≡◌, ◌+◌, IfOk, IfErr, OnOk, OnErr};
ghost use Rattle.iddqd_maps.specs.Drops.{Drops};
ghost use Rattle.iddqd_maps.specs.InOrder.{IteratesInOrder};
ghost use Rattle.iddqd_maps.specs.Map.{FindsItem};
ghost use Rattle.iddqd_maps.specs.Store.{inserted, live_count, next_index};
ghost use Rattle.uses.specs.Appointments.{by_room, is_at, is_in, is_in_from, same_place};
ghost use Rattle.uses.specs.Exchanges.{IsWhyNotAdded};

use iddqd_maps::by_order::ByOrderOf;
use iddqd_maps::in_order::InOrder;
use iddqd_maps::item_index::ItemIndex;
use iddqd_maps::item_order_query::{Part, Prefix};
use iddqd_maps::key_index::Here;
use iddqd_maps::key_kinds::Field;
use iddqd_maps::key_of::KeyOf;
use iddqd_maps::map::Map;
use iddqd_maps::ordered_walk::Range;
use iddqd_maps::refusal::InsertRefusal;
use iddqd_maps::selection::equal;
use std::alloc::{AllocError, Global};

/// An appointment. No two are in one room at one time.
#[derive(Clone, Copy, Debug)]
pub struct Appointment {
    pub room: u32,
    pub start: u32,
    pub guest: u64,
}

/// Names the room.
pub enum Room {}

impl KeyOf<Appointment> for Room {
    type Key = u32;

    ghost key_of = { λ appointment. appointment.room };

    fn key(appointment: &Appointment) -> &u32 {
        &appointment.room
    }
}

/// Names the start.
pub enum Start {}

impl KeyOf<Appointment> for Start {
    type Key = u32;

    ghost key_of = { λ appointment. appointment.start };

    fn key(appointment: &Appointment) -> &u32 {
        &appointment.start
    }
}

/// Appointments in the order of their rooms, and of their starts in each room.
pub type Appointments = Map<Appointment, ByOrderOf<(Field<Room, u32>, Field<Start, u32>)>>;

/// Adds an appointment, unless there is one in its room at its start.
pub fn add(
    appointments: &mut Appointments,
    appointment: Appointment,
) -> Result<ItemIndex, InsertRefusal<Appointment, ItemIndex>>
    ensures index { IfOk result (λ ix. ix ≡ next_index appointments.old.store) }
    ensures stored { OnOk result (appointments.new.store ≡ inserted appointments.old.store appointment) }
    ensures refused { IfErr result (IsWhyNotAdded same_place appointment appointments.old) }
    ensures unchanged { OnErr result (appointments.new.store ≡ appointments.old.store) }
{
    appointments.insert_unique(appointment)
}

/// The appointment in a room at a time.
pub fn at(appointments: &Appointments, room: u32, start: u32) -> Option<Appointment>
    ensures { FindsItem appointments.now.store (is_at room start) result }
{
    appointments.get_by::<Here, _>((&room, &start)).copied()
}

/// The appointments in a room with their indexes, the earliest first.
pub fn in_room(appointments: &Appointments, room: u32) -> Range<'_, Appointment>
    ensures { IteratesInOrder by_room (is_in room) appointments.now.store result }
{
    appointments.group_by::<Here, _>(Prefix(&room))
}

/// The appointments in a room from a time on with their indexes, the earliest first.
pub fn in_room_from(appointments: &Appointments, room: u32, start: u32) -> Range<'_, Appointment>
    ensures { IteratesInOrder by_room (is_in_from room start) appointments.now.store result }
{
    let (from, to) = (Part::Both(&room, &start), Part::First(&room));
    appointments.range_by::<Here, _, _>(from..=to)
}

/// Removes the appointments in a room, and returns how many they were. It takes no memory.
pub fn close_room(appointments: &mut Appointments, room: u32) -> usize
    ensures dropped { Drops (λ appointment. appointment.room ≡ room) appointments.old.store appointments.new.store }
    ensures count { result + live_count appointments.new.store ≡ live_count appointments.old.store }
    ensures memory { appointments.new.memory ≡ appointments.old.memory }
{
    appointments.remove_in(equal::<Here, _>(Prefix(&room)), |_ix, _appointment| ())
}

fn added(appointments: &mut Appointments, room: u32, start: u32) -> bool {
    let guest = 7;
    add(appointments, Appointment { room, start, guest }).is_ok()
}

fn script(alloc: Global, appointments: &mut Appointments) -> Result<String, AllocError> {
    let added = (
        added(appointments, 2, 9),
        added(appointments, 1, 14),
        added(appointments, 1, 9),
        added(appointments, 1, 14),
    );
    let found = (
        at(appointments, 1, 14).is_some(),
        at(appointments, 14, 1).is_some(),
    );
    let walks = (
        in_room(appointments, 1).next().is_some(),
        in_room_from(appointments, 1, 10).next().is_some(),
    );
    let closed = close_room(appointments, 1);
    format!(in alloc; "appointments: {added:?}, {found:?}, {walks:?}, {closed}")
}

/// What the calls answer.
pub fn line(alloc: Global) -> Result<String, AllocError> {
    script(alloc, &mut Map::new(alloc))
}
