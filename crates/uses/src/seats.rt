//! Seats in a `TriHashMap`, which have three unique keys of plain numbers. A seat that is found by any of them may get
//! another key, and keeps its index. The third key finds, updates, exchanges and removes a seat, as the first two of a
//! locker do.
ghost use Rattle.std.specs.Prelude.{◌≡◌, ◌==◌, ◌↔◌, false, IfOk, IfErr, OnErr};
ghost use Rattle.iddqd_maps.specs.Map.{FindsItem, Removes};
ghost use Rattle.iddqd_maps.specs.Scan.{AnswersScan, HasNoHit};
ghost use Rattle.iddqd_maps.specs.ThreeKeys.{AreTaken};
ghost use Rattle.uses.specs.Exchanges.{Exchanges, ExchangesIfFound, IsWhyNot, IsWhyNotChanged, IsWhyNotTakenOver, TakesOver};
ghost use Rattle.uses.specs.Seats.{has_guest, has_place, has_ticket, same_guest, same_place, same_ticket, share_key, with_guest, with_payment, with_place, with_ticket};
ghost use Rattle.uses.specs.Updates.{Updates};

use iddqd_maps::{ItemIndex, OverwriteRefusal, ReplaceRefusal, TriClash, TriHashItem, TriHashMap};
use std::alloc::{AllocError, Global};

/// A seat. No two have the place, the guest or the ticket of another.
#[derive(Clone, Copy, Debug)]
pub struct Seat {
    pub place: u32,
    pub guest: u32,
    pub ticket: u32,
    pub is_paid: bool,
}

impl TriHashItem for Seat {
    type Key1 = u32;

    type Key2 = u32;

    type Key3 = u32;

    ghost first_key = { λ seat. seat.place };

    ghost second_key = { λ seat. seat.guest };

    ghost third_key = { λ seat. seat.ticket };

    fn key1(&self) -> &u32 {
        &self.place
    }

    fn key2(&self) -> &u32 {
        &self.guest
    }

    fn key3(&self) -> &u32 {
        &self.ticket
    }
}

type Seats = TriHashMap<Seat>;

type Refusal = ReplaceRefusal<Seat, TriClash>;

/// Whether there is such a ticket.
pub fn is_sold(seats: &Seats, ticket: u32) -> bool
    ensures { (result ≡ false) ↔ HasNoHit seats.now.store (λ seat. ticket == seat.ticket) }
{
    seats.contains_key3(&ticket)
}

/// The index of the seat of a ticket.
pub fn index_of(seats: &Seats, ticket: u32) -> Option<ItemIndex>
    ensures { AnswersScan seats.now.store (λ seat. ticket == seat.ticket) result }
{
    seats.find3(&ticket)
}

/// The seat of a ticket.
pub fn of_ticket(seats: &Seats, ticket: u32) -> Option<Seat>
    ensures { FindsItem seats.now.store (λ seat. ticket == seat.ticket) result }
{
    seats.get3(&ticket).copied()
}

/// Notes that the seat of a ticket is paid; none exactly where there is no such ticket.
pub fn pay_ticket(seats: &mut Seats, ticket: u32) -> Option<()>
    ensures { Updates seats.old (has_ticket ticket) with_payment result seats.new }
{
    seats.modify3(&ticket, |seat| seat.is_paid = true)
}

/// Puts a seat in the place of that of a ticket, which is handed back. It is refused exactly where there is none, or
/// another seat has its place, its guest or its ticket.
pub fn exchange_ticket(seats: &mut Seats, ticket: u32, seat: Seat) -> Result<Seat, Refusal>
    ensures exchanged { IfOk result (λ was. Exchanges share_key (has_ticket ticket) seat seats.old was seats.new) }
    ensures refused { IfErr result
        (IsWhyNot (AreTaken same_place same_guest same_ticket) false (has_ticket ticket) seat seats.old) }
    ensures unchanged { OnErr result (seats.new ≡ seats.old) }
{
    seats.replace3(&ticket, seat)
}

/// Gives a seat out, and takes those back that have its place, its guest or its ticket, each with
/// the index that it had. If one has, it takes no memory.
/// It is refused only where none has, and there are as many seats as the limit allows or there is no memory.
pub fn give_out(
    seats: &mut Seats,
    seat: Seat,
) -> Result<(ItemIndex, [Option<(ItemIndex, Seat)>; 3]), OverwriteRefusal<Seat>>
    ensures given { IfOk result (λ given. TakesOver share_key 3 seat seats.old given.0 given.1 seats.new) }
    ensures refused { IfErr result (IsWhyNotTakenOver share_key seat seats.old) }
    ensures unchanged { OnErr result (seats.new.store ≡ seats.old.store) }
{
    seats.insert_overwrite(seat)
}

/// Gives the seat at a place to another guest, and returns what it was; none exactly where there is no such seat. It is
/// refused exactly where the guest has another seat.
pub fn give_to(seats: &mut Seats, place: u32, guest: u32) -> Result<Option<Seat>, Refusal>
    ensures given { IfOk result
        (λ found. ExchangesIfFound share_key (has_place place) (with_guest guest) seats.old found seats.new) }
    ensures refused { IfErr result
        (IsWhyNotChanged (AreTaken same_place same_guest same_ticket) false
        (has_place place) (with_guest guest) seats.old) }
    ensures unchanged { OnErr result (seats.new ≡ seats.old) }
{
    seats.change1(&place, |seat| Seat { guest, ..*seat })
}

/// Gives a guest another ticket, and returns what the seat was; none exactly where the guest has no seat. It is refused
/// exactly where another seat has the ticket.
pub fn reissue(seats: &mut Seats, guest: u32, ticket: u32) -> Result<Option<Seat>, Refusal>
    ensures reissued { IfOk result
        (λ found. ExchangesIfFound share_key (has_guest guest) (with_ticket ticket) seats.old found seats.new) }
    ensures refused { IfErr result
        (IsWhyNotChanged (AreTaken same_place same_guest same_ticket) false
        (has_guest guest) (with_ticket ticket) seats.old) }
    ensures unchanged { OnErr result (seats.new ≡ seats.old) }
{
    seats.change2(&guest, |seat| Seat { ticket, ..*seat })
}

/// Moves the holder of a ticket to another place, and returns what the seat was; none exactly where there is no such
/// ticket. It is refused exactly where another seat has the place.
pub fn move_to(seats: &mut Seats, ticket: u32, place: u32) -> Result<Option<Seat>, Refusal>
    ensures moved { IfOk result
        (λ found. ExchangesIfFound share_key (has_ticket ticket) (with_place place) seats.old found seats.new) }
    ensures refused { IfErr result
        (IsWhyNotChanged (AreTaken same_place same_guest same_ticket) false
        (has_ticket ticket) (with_place place) seats.old) }
    ensures unchanged { OnErr result (seats.new ≡ seats.old) }
{
    seats.change3(&ticket, |seat| Seat { place, ..*seat })
}

/// Takes the seat of a ticket out. All others stay.
pub fn take_ticket(seats: &mut Seats, ticket: u32) -> Option<Seat>
    ensures { Removes seats.old (λ seat. ticket == seat.ticket) result seats.new }
{
    seats.remove3(&ticket)
}

// The guest of the seat before, or why it stays.
fn outcome(answer: &Result<Option<Seat>, Refusal>) -> Result<u32, &'static str> {
    match answer {
        Ok(Some(seat)) => Ok(seat.guest),
        Ok(None) | Err(ReplaceRefusal::Missing(_)) => Err("there is no such seat"),
        Err(ReplaceRefusal::Duplicate { .. }) => Err("taken"),
        Err(ReplaceRefusal::Memory(_)) => Err("no memory"),
    }
}

fn script(alloc: Global, seats: &mut Seats) -> Result<String, AllocError> {
    for (place, guest, ticket) in [(1, 10, 100), (2, 20, 200)] {
        let is_paid = false;
        let seat = Seat {
            place,
            guest,
            ticket,
            is_paid,
        };
        let _ = give_out(seats, seat);
    }
    let given = outcome(&give_to(seats, 1, 11));
    let reissued = outcome(&reissue(seats, 10, 101));
    let taken = outcome(&move_to(seats, 100, 2));
    let moved = outcome(&move_to(seats, 100, 3));
    let seat = of_ticket(seats, 100);
    format!(in alloc; "seats: {given:?}, {reissued:?}, {taken:?}, {moved:?}, {seat:?}")
}

/// What the calls answer.
pub fn line(alloc: Global) -> Result<String, AllocError> {
    script(alloc, &mut TriHashMap::new(alloc))
}
