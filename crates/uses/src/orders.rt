//! Orders in maps with one key each: a queue by the day, on which many may be due; accounts by the customer, who may
//! have many; and an intake by the number.
//!
//! The calls are those of a mix, as `ledger` is one, at the place `Here`. They stand in one file, longer than others,
//! since all three maps have the same items.
ghost use Rattle.std.specs.Prelude.{◌≡◌, ◌==◌, ◌≤◌, ◌<◌, ◌+◌, ◌↔◌, ℕ, Ok, Some, None, true, false, length, filter, nat_le, IfOk, IfErr, IfSome, IfNone, OnOk, OnErr, OnSome, IsOk};
ghost use Rattle.std.specs.Iterator.{UpTo};
ghost use Rattle.std.specs.Option.{option_map};
ghost use Rattle.iddqd_maps.specs.Append.{EachConflicts, GivesMove, KeepsOrMoves, ReportsMoves, TakesMove, moved_count};
ghost use Rattle.iddqd_maps.specs.Bulk.{inserted_count};
ghost use Rattle.iddqd_maps.specs.BulkOverwrite.{HandsOver, overwritten_count};
ghost use Rattle.iddqd_maps.specs.Calls.{IsDuplicate};
ghost use Rattle.iddqd_maps.specs.Drops.{Drops};
ghost use Rattle.iddqd_maps.specs.Groups.{CountsHits, FindsSome};
ghost use Rattle.iddqd_maps.specs.InGroups.{ListsHits};
ghost use Rattle.iddqd_maps.specs.InOrder.{shown, FindsLast, IteratesInOrder, ListsInOrder, PopsFirst, PopsLast};
ghost use Rattle.iddqd_maps.specs.Iter.{indexes_left};
ghost use Rattle.iddqd_maps.specs.LiveItems.{live_pairs};
ghost use Rattle.iddqd_maps.specs.Map.{empty_map, room};
ghost use Rattle.iddqd_maps.specs.OrderedQuery.{is_equal};
ghost use Rattle.iddqd_maps.specs.Range.{indexes_ahead};
ghost use Rattle.iddqd_maps.specs.Ranges.{TakesItem};
ghost use Rattle.iddqd_maps.specs.Sweep.{GivesPair, TakesPair};
ghost use Rattle.iddqd_maps.specs.Scan.{HasNoHit, IsHit};
ghost use Rattle.iddqd_maps.specs.Sweep.{TakesPair};
ghost use Rattle.iddqd_maps.specs.Store.{cleared, get, inserted, live_count, slot_limit};
ghost use Rattle.uses.specs.Exchanges.{IsWhyNotAdded};
ghost use Rattle.uses.specs.Intake.{AddsAll, AddsUntil, IsHandedOnly, IsHandedWithIndexes};
ghost use Rattle.uses.specs.Ledger.{by_day, halved, has_number, is_due_before, is_due_between, is_due_from, is_due_on, shares_number, unpriced, IsDueFirst};
ghost use Rattle.uses.specs.Updates.{UpdatesAll};
ghost use Rattle.uses.specs.declared.ledger.Order.{Order};

use crate::ledger::{Customer, Day, Number, Order};
use iddqd_maps::id_ord_map::Iter;
use iddqd_maps::ordered_walk::Range;
use iddqd_maps::ranges_at::RangesAt;
use iddqd_maps::selection::{equal, having};
use iddqd_maps::{
    ByHash, ByHashMulti, ByOrderMulti, Field, GroupItems, Here, InGroups, InOrder, InsertRefusal,
    ItemIndex, Map, OrderedParts, Stopped, StoppedAppend, StoppedOverwrite, btree_table,
};
use std::alloc::{AllocError, Global};
use std::default::MadeWith;

/// Orders in the order of the days on which they are due.
pub type Queue = Map<Order, ByOrderMulti<Day, u32>>;

/// Orders by their customers.
pub type Accounts = Map<Order, ByHashMulti<Customer, u32>>;

/// Orders by their numbers.
pub type Intake = Map<Order, ByHash<Number, u64>>;

type ByDay = Here;

type ByCustomer = Here;

type ByNumber = Here;

/// The orders of a day with their indexes, the least index first.
pub fn orders_of_day(queue: &Queue, day: u32) -> Range<'_, Order>
    ensures { IteratesInOrder by_day (is_due_on day) queue.now.store result }
{
    queue.group_by::<ByDay, _>(&day)
}

/// The orders of a day and of later ones with their indexes, by day and then by index.
pub fn orders_from(queue: &Queue, day: u32) -> Range<'_, Order>
    ensures { IteratesInOrder by_day (is_due_from day) queue.now.store result }
{
    queue.range_by::<ByDay, _, _>(&day..)
}

/// The orders from one day on that are due before another one with their indexes, by day and then by index.
pub fn orders_between(queue: &Queue, from: u32, before: u32) -> Range<'_, Order>
    ensures { IteratesInOrder by_day (is_due_between from before) queue.now.store result }
{
    queue.range_by::<ByDay, _, _>(&from..&before)
}

/// All orders with their indexes, by day and then by index.
pub fn orders_by_day(queue: &Queue) -> Iter<'_, Order>
    ensures items { IteratesInOrder by_day (λ order. true) queue.now.store result }
    ensures len { length result ≡ live_count queue.now.store }
{
    queue.iter_by::<ByDay>()
}

/// An order that is due first: none is due before it.
pub fn first_due(queue: &Queue) -> Option<Order>
    ensures first { IfSome result (λ order. (ix : ℕ) × IsDueFirst queue.now.store ix order) }
    ensures none { IfNone result (live_count queue.now.store ≡ 0) }
{
    match queue.first_by::<ByDay>() {
        Some((_, order)) => Some(*order),
        None => None,
    }
}

/// The order that is due last with its index; of those of one day, the one with the greatest index.
pub fn last_due(queue: &Queue) -> Option<(ItemIndex, &Order)>
    ensures { FindsLast by_day queue.now.store (option_map shown result) }
{
    queue.last_by::<ByDay>()
}

/// Removes the order that is due first, and returns it; of those of one day, the one with the least index. It takes no
/// memory.
pub fn take_first_due(queue: &mut Queue) -> Option<Order>
    ensures taken { PopsFirst by_day queue.old result queue.new }
    ensures count { OnSome result (live_count queue.old.store ≡ live_count queue.new.store + 1) }
{
    queue.pop_first_by::<ByDay>()
}

/// Removes the order that is due last, and returns it; of those of one day, the one with the greatest index. It takes
/// no memory.
pub fn take_last_due(queue: &mut Queue) -> Option<Order>
    ensures taken { PopsLast by_day queue.old result queue.new }
    ensures count { OnSome result (live_count queue.old.store ≡ live_count queue.new.store + 1) }
{
    queue.pop_last_by::<ByDay>()
}

/// The indexes of all orders, by day and then by index.
pub fn indexes_by_day(queue: &Queue) -> btree_table::Iter<'_>
    ensures { ListsInOrder by_day (λ order. true) queue.now.store (indexes_left result) }
{
    queue.parts().iter()
}

/// The indexes of the orders that are due before a day, by day and then by index.
pub fn indexes_before<'a>(queue: &'a Queue, day: &u32) -> btree_table::Range<'a>
    ensures { ListsInOrder by_day (is_due_before day.now) queue.now.store (indexes_ahead result) }
{
    queue.parts().range(..day)
}

/// Whether an order is due on a day, by one search.
pub fn is_due(queue: &Queue, day: u32) -> bool
    ensures { (result ≡ false) ↔ HasNoHit queue.now.store (is_due_on day) }
{
    queue.parts().contains_key(&day)
}

/// The indexes of the orders of a day, by index.
pub fn indexes_of_day<'a>(queue: &'a Queue, day: &u32) -> btree_table::Range<'a>
    ensures { ListsInOrder by_day (is_due_on day.now) queue.now.store (indexes_ahead result) }
{
    queue.parts().group(day)
}

/// How many orders are due on a day.
pub fn count_of_day(queue: &Queue, day: u32) -> usize
    ensures { CountsHits queue.now.store (is_due_on day) result }
{
    queue.count_by::<ByDay, _>(&day)
}

/// Removes those orders of a day that come to less than so much, and returns how many they were. It takes no memory.
pub fn drop_small(queue: &mut Queue, day: u32, least: u64) -> usize
    ensures dropped { Drops (λ order. (order.day ≡ day) × (order.amount < least))
        queue.old.store queue.new.store }
    ensures count { result + live_count queue.new.store ≡ live_count queue.old.store }
    ensures memory { queue.new.memory ≡ queue.old.memory }
{
    queue.retain_in(equal::<ByDay, _>(&day), |_ix, order| order.amount >= least)
}

/// Removes those orders up to a day that come to less than so much, and returns how many they were. It takes no
/// memory.
pub fn drop_small_until(queue: &mut Queue, day: u32, least: u64) -> usize
    ensures dropped { Drops (λ order. (order.day ≤ day) × (order.amount < least))
        queue.old.store queue.new.store }
    ensures count { result + live_count queue.new.store ≡ live_count queue.old.store }
    ensures memory { queue.new.memory ≡ queue.old.memory }
{
    queue.retain_range_by::<ByDay, _, _, _>(..=&day, |order| order.amount >= least)
}

/// Halves the amount of each order, and returns how many orders there are. It takes no memory.
pub fn halve_all(queue: &mut Queue) -> usize
    ensures halved { UpdatesAll queue.old.store (λ order. true) halved queue.new.store }
    ensures all { result ≡ live_count queue.old.store }
    ensures memory { queue.new.memory ≡ queue.old.memory }
{
    queue.modify_each(|order| order.amount /= 2)
}

/// Halves the amounts of the orders of a day and of later ones, and returns how many they are. It takes no memory.
pub fn halve_from(queue: &mut Queue, day: u32) -> usize
    ensures halved { UpdatesAll queue.old.store (is_due_from day) halved queue.new.store }
    ensures counted { CountsHits queue.old.store (is_due_from day) result }
    ensures memory { queue.new.memory ≡ queue.old.memory }
{
    queue.modify_range_by::<ByDay, _, _, _>(&day.., |order| order.amount /= 2)
}

/// Halves the amounts of the orders of a day, and returns how many they are. It takes no memory.
pub fn halve_day(queue: &mut Queue, day: u32) -> usize
    ensures halved { UpdatesAll queue.old.store (is_due_on day) halved queue.new.store }
    ensures counted { CountsHits queue.old.store (is_due_on day) result }
    ensures memory { queue.new.memory ≡ queue.old.memory }
{
    queue.modify_group_by::<ByDay, _, _>(&day, |order| order.amount /= 2)
}

/// Removes those orders of a day that come to less than so much, and returns how many they were. What the closure gets
/// are such orders, each with its index. It takes no memory.
pub fn hand_on_small<F: FnMut(ItemIndex, Order)>(
    queue: &mut Queue,
    day: u32,
    least: u64,
    gone: F,
) -> usize
    requires { (p : F) (pair : ℕ × Order) → TakesPair F.FnMut p pair }
    ensures dropped { Drops (λ order. (order.day ≡ day) × (order.amount < least))
        queue.old.store queue.new.store }
    ensures handed { IsHandedWithIndexes F.FnMut queue.old.store
        (λ order. (order.day ≡ day) × (order.amount < least)) gone }
    ensures count { result + live_count queue.new.store ≡ live_count queue.old.store }
    ensures memory { queue.new.memory ≡ queue.old.memory }
{
    queue.retain_into_in(
        equal::<ByDay, _>(&day),
        |_ix, order| order.amount >= least,
        gone,
    )
}

/// Removes those orders up to a day that come to less than so much, and returns how many they were. What the closure
/// gets are such orders. It takes no memory.
pub fn hand_on_small_until<F: FnMut(Order)>(
    queue: &mut Queue,
    day: u32,
    least: u64,
    gone: F,
) -> usize
    requires { (p : F) (order : Order) → TakesItem F.FnMut p order }
    ensures dropped { Drops (λ order. (order.day ≤ day) × (order.amount < least))
        queue.old.store queue.new.store }
    ensures handed { IsHandedOnly F.FnMut (λ order. (order.day ≤ day) × (order.amount < least)) gone }
    ensures count { result + live_count queue.new.store ≡ live_count queue.old.store }
    ensures memory { queue.new.memory ≡ queue.old.memory }
{
    queue.retain_range_into_by::<ByDay, _, _, _, _>(..=&day, |order| order.amount >= least, gone)
}

/// The items of any map in the order of a key, and beside them those with one key: both are in one order.
pub fn all_and_group<P, Q, T, X, S>(map: &Map<T, X, S>, query: Q) -> (Iter<'_, T>, Range<'_, T>)
where
    X: RangesAt<P, Q, T, S>,
    Q: Copy,
    ensures all { IteratesInOrder X.sorts_by (λ item. true) map.now.store result.0 }
    ensures group { IteratesInOrder X.sorts_by (is_equal (X.compare query)) map.now.store result.1 }
{
    (map.iter_by::<P>(), map.group_by::<P, Q>(query))
}

/// The orders of a customer with their indexes, each once, in no particular order.
pub fn orders_of<'a>(
    accounts: &'a Accounts,
    customer: &'a u32,
) -> GroupItems<'a, Order, Field<Customer, u32>, &'a u32>
    ensures { ListsHits (λ order. customer.now == order.customer) accounts.now.store result }
{
    accounts.hashed_group_by::<ByCustomer, _>(customer)
}

/// How many orders a customer has.
pub fn count_of(accounts: &Accounts, customer: u32) -> usize
    ensures { CountsHits accounts.now.store (λ order. customer == order.customer) result }
{
    accounts.count_hashed_group_by::<ByCustomer, _>(&customer)
}

/// The index of some order of a customer: none exactly where the customer has none.
pub fn any_order_of(accounts: &Accounts, customer: u32) -> Option<ItemIndex>
    ensures { FindsSome accounts.now.store (λ order. customer == order.customer) result }
{
    accounts.find_any_by::<ByCustomer, _>(&customer)
}

/// Whether a customer has an order.
pub fn has_order(accounts: &Accounts, customer: u32) -> bool
    ensures { (result ≡ false) ↔ HasNoHit accounts.now.store (λ order. customer == order.customer) }
{
    accounts.contains_any_by::<ByCustomer, _>(&customer)
}

/// Removes the orders of a customer, and returns how many they were. It takes no memory.
pub fn forget(accounts: &mut Accounts, customer: u32) -> usize
    ensures dropped { Drops (λ order. order.customer ≡ customer) accounts.old.store accounts.new.store }
    ensures count { result + live_count accounts.new.store ≡ live_count accounts.old.store }
    ensures memory { accounts.new.memory ≡ accounts.old.memory }
{
    accounts.remove_in(having::<ByCustomer, _>(&customer), |_ix, _order| ())
}

/// Removes those orders of a customer that come to less than so much, and returns how many they were. It takes no
/// memory.
pub fn drop_small_of(accounts: &mut Accounts, customer: u32, least: u64) -> usize
    ensures dropped { Drops (λ order. (order.customer ≡ customer) × (order.amount < least))
        accounts.old.store accounts.new.store }
    ensures count { result + live_count accounts.new.store ≡ live_count accounts.old.store }
    ensures memory { accounts.new.memory ≡ accounts.old.memory }
{
    accounts.retain_in(
        having::<ByCustomer, _>(&customer),
        |_ix, order| order.amount >= least,
    )
}

/// Removes those orders of a customer that come to less than so much, and returns how many they were. What the closure
/// gets are such orders, each with its index. It takes no memory.
pub fn hand_on_small_of<F: FnMut(ItemIndex, Order)>(
    accounts: &mut Accounts,
    customer: u32,
    least: u64,
    gone: F,
) -> usize
    requires { (p : F) (pair : ℕ × Order) → TakesPair F.FnMut p pair }
    ensures dropped { Drops (λ order. (order.customer ≡ customer) × (order.amount < least))
        accounts.old.store accounts.new.store }
    ensures handed { IsHandedWithIndexes F.FnMut accounts.old.store
        (λ order. (order.customer ≡ customer) × (order.amount < least)) gone }
    ensures count { result + live_count accounts.new.store ≡ live_count accounts.old.store }
    ensures memory { accounts.new.memory ≡ accounts.old.memory }
{
    accounts.retain_into_in(
        having::<ByCustomer, _>(&customer),
        |_ix, order| order.amount >= least,
        gone,
    )
}

/// Halves the amounts of a customer's orders, and returns how many they are. It takes no memory.
pub fn halve_of(accounts: &mut Accounts, customer: u32) -> usize
    ensures halved { UpdatesAll accounts.old.store (λ order. customer == order.customer) halved accounts.new.store }
    ensures counted { CountsHits accounts.old.store (λ order. customer == order.customer) result }
    ensures memory { accounts.new.memory ≡ accounts.old.memory }
{
    accounts.modify_hashed_group_by::<ByCustomer, _, _>(&customer, |order| order.amount /= 2)
}

/// The index of the order with this number; if there is none, of one of this customer and day that comes to nothing,
/// which is added.
pub fn number_or_new(
    intake: &mut Intake,
    number: u64,
    customer: u32,
    day: u32,
) -> Result<ItemIndex, InsertRefusal<Order, ItemIndex>>
    ensures there { IfOk result (IsHit intake.new.store (has_number number)) }
    ensures found { (ix : ℕ) → IsHit intake.old.store (has_number number) ix →
        (result ≡ Ok ix) × (intake.new ≡ intake.old) }
    ensures added { HasNoHit intake.old.store (has_number number) →
        OnOk result (intake.new.store ≡ inserted intake.old.store (unpriced number customer day)) }
    ensures refused { IfErr result
        (IsWhyNotAdded shares_number (unpriced number customer day) intake.old) }
    ensures unchanged { OnErr result (intake.new.store ≡ intake.old.store) }
{
    intake.find_or_insert_with::<ByNumber, _, _>(
        &number,
        || Order {
            number,
            customer,
            day,
            amount: 0,
        },
    )
}

/// Adds orders in turn, up to the first that is refused: it comes back with the rest.
pub fn add_all<I: Iterator<Item = Order>>(
    intake: &mut Intake,
    orders: I,
) -> Result<usize, Stopped<Order, ItemIndex, I>>
    requires { I.can_next orders }
    ensures all { IfOk result (λ count. AddsAll I.next_gives orders intake.old.store count intake.new.store) }
    ensures refused { IfErr result
        (λ stopped. AddsUntil I.next_gives orders intake.old.store stopped intake.new.store) }
    ensures count { live_count intake.new.store ≡ live_count intake.old.store + inserted_count result }
    ensures others { (ix : ℕ) (order : Order) → get intake.old.store ix ≡ Some order
        → get intake.new.store ix ≡ Some order }
    ensures taken { UpTo (I.remaining orders) (room intake.old)
        → IfErr result (λ stopped. IsDuplicate stopped.refusal) }
{
    intake.insert_all(orders)
}

/// Takes orders in turn, up to the first that is refused: it comes back with the rest. An order that was there before
/// still is, under its index, or went to the closure. With room for all of them none is refused.
pub fn renew_all<I: Iterator<Item = Order>, F: FnMut(ItemIndex, Order)>(
    intake: &mut Intake,
    orders: I,
    gone: F,
) -> Result<usize, StoppedOverwrite<Order, I>>
    requires next { I.can_next orders }
    requires fits { UpTo (I.remaining orders) usize.MAX }
    requires given { (p : F) (entry : ℕ × Order) → TakesPair F.FnMut p entry }
    ensures handed { (last : F) × HandsOver (GivesPair F.FnMut) gone last intake.old.store intake.new.store
        (overwritten_count result) }
    ensures all { UpTo (I.remaining orders) (room intake.old) → IsOk result }
{
    intake.overwrite_all(orders, gone)
}

/// An intake without orders.
pub fn blank(alloc: Global) -> Intake
    ensures { result ≡ empty_map slot_limit }
{
    MadeWith::made_with(alloc)
}

/// Moves the orders of another intake into this one, up to the first for which this one is full or memory runs out, and
/// returns how many were moved. Those whose number is taken stay in the other intake. The closure gets the index that
/// an order had there, and the one that it has here.
pub fn take_over<F: FnMut(ItemIndex, ItemIndex)>(
    intake: &mut Intake,
    other: &mut Intake,
    moved: F,
) -> Result<usize, StoppedAppend>
    requires { (p : F) (move : ℕ × ℕ) → TakesMove F.FnMut p move }
    ensures moved { (last : F) × ReportsMoves (GivesMove F.FnMut) moved last other.old.store intake.new.store
        other.new.store (moved_count result) }
    ensures count { live_count intake.new.store ≡ live_count intake.old.store + moved_count result }
    ensures left { live_count other.new.store + moved_count result ≡ live_count other.old.store }
    ensures kept { KeepsOrMoves other.old.store other.new.store intake.new.store }
    ensures taken { IsOk result → EachConflicts shares_number intake.new.store other.new.store }
    ensures all { live_count other.old.store ≤ room intake.old → IsOk result }
{
    intake.append(other, moved)
}

/// Empties the intake, and returns how many orders there were. It keeps its memory, and takes none.
pub fn close(intake: &mut Intake) -> usize
    ensures count { result ≡ live_count intake.old.store }
    ensures emptied { intake.new.store ≡ cleared intake.old.store }
    ensures memory { intake.new.memory ≡ intake.old.memory }
{
    intake.drain_into(|_order| ())
}

/// Removes the orders that were due before a day, and returns how many they were. It takes no memory.
pub fn write_off(intake: &mut Intake, day: u32) -> usize
    ensures stay { live_pairs intake.new.store
        ≡ filter (λ pair. nat_le day pair.1.day) (live_pairs intake.old.store) }
    ensures count { result + live_count intake.new.store ≡ live_count intake.old.store }
    ensures memory { intake.new.memory ≡ intake.old.memory }
{
    intake.retain_into(|order| order.day >= day, |_order| ())
}

fn order(number: u64, customer: u32, day: u32) -> Order {
    let amount = 10 * (number % 10);
    Order {
        number,
        customer,
        day,
        amount,
    }
}

// How many of a day there are, how many were halved and dropped, whether there were a first and a last, and how many
// are left.
fn queue_script(queue: &mut Queue) -> (usize, usize, usize, bool, bool, usize) {
    for (number, day) in [(1, 20), (2, 10), (3, 20), (4, 30)] {
        let _ = queue.insert_unique(order(number, 7, day));
    }
    (
        count_of_day(queue, 20),
        halve_from(queue, 20),
        drop_small_until(queue, 20, 10),
        first_due(queue).is_some(),
        take_last_due(queue).is_some(),
        orders_by_day(queue).len(),
    )
}

// How many orders a customer has, and whether another one has some.
fn accounts_script(accounts: &mut Accounts) -> (usize, bool, bool) {
    for (number, customer) in [(1, 7), (2, 8), (3, 7)] {
        let _ = accounts.insert_unique(order(number, customer, 10));
    }
    (
        count_of(accounts, 7),
        has_order(accounts, 9),
        any_order_of(accounts, 8).is_some(),
    )
}

// Whether a number was found or added, twice, and how many there were at the end.
fn intake_script(intake: &mut Intake) -> (bool, bool, usize) {
    (
        number_or_new(intake, 3, 7, 10).is_ok(),
        number_or_new(intake, 3, 8, 20).is_ok(),
        close(intake),
    )
}

/// What the calls answer.
pub fn line(alloc: Global) -> Result<String, AllocError> {
    let queue = queue_script(&mut Map::new(alloc));
    let accounts = accounts_script(&mut Map::new(alloc));
    let intake = intake_script(&mut Map::new(alloc));
    format!(in alloc; "orders: {queue:?}, {accounts:?}, {intake:?}")
}
