//! A dispatch of orders by four keys: their numbers and customers by hash, their days and amounts in order. Each call
//! goes over a selection: all orders, those within a range of days or amounts, or those of a customer.
ghost use Rattle.std.specs.Prelude.{◌≡◌, ◌==◌, ◌≤◌, ◌<◌, ◌+◌, true, IfOk};
ghost use Rattle.iddqd_maps.specs.Drops.{Drops};
ghost use Rattle.iddqd_maps.specs.Groups.{CountsHits};
ghost use Rattle.iddqd_maps.specs.Store.{live_count};
ghost use Rattle.iddqd_maps.specs.Sweep.{TakesPair};
ghost use Rattle.uses.specs.Ledger.{is_due_between, is_due_on};
ghost use Rattle.uses.specs.declared.ledger.Order.{Order};

use crate::ledger::{Customer, Day, Number, Order};
use iddqd_maps::selection::{All, equal, having, within};
use iddqd_maps::{
    ByHash, ByHashMulti, ByOrderMulti, Here, ItemIndex, KeyOf, Left, Map, Pair, Right, Verdict,
};
use std::alloc::{AllocError, Global};

/// Names the amount.
pub enum Amount {}

impl KeyOf<Order> for Amount {
    type Key = u64;

    ghost key_of = { λ order. order.amount };

    fn key(order: &Order) -> &u64 {
        &order.amount
    }
}

type Hashed = Pair<ByHash<Number, u64>, ByHashMulti<Customer, u32>>;

type Ordered = Pair<ByOrderMulti<Day, u32>, ByOrderMulti<Amount, u64>>;

/// Orders by their numbers, customers, days and amounts.
pub type Dispatch = Map<Order, Pair<Hashed, Ordered>>;

type ByCustomer = Left<Right<Here>>;

type ByDay = Right<Left<Here>>;

type ByAmount = Right<Right<Here>>;

/// How many orders are due from one day on, and before another one.
pub fn count_between(dispatch: &Dispatch, from: u32, before: u32) -> usize
    ensures { CountsHits dispatch.now.store (is_due_between from before) result }
{
    dispatch.count_in(within::<ByDay, _, _>(&from..&before))
}

/// How many orders a customer has.
pub fn count_of(dispatch: &Dispatch, customer: u32) -> usize
    ensures { CountsHits dispatch.now.store (λ order. customer == order.customer) result }
{
    dispatch.count_in(having::<ByCustomer, _>(&customer))
}

/// Removes the orders that come to less than so much, and returns how many they were. It takes no memory.
pub fn drop_small(dispatch: &mut Dispatch, least: u64) -> usize
    ensures count { result + live_count dispatch.new.store ≡ live_count dispatch.old.store }
    ensures memory { dispatch.new.memory ≡ dispatch.old.memory }
{
    dispatch.remove_in(within::<ByAmount, _, _>(..&least), |_ix, _order| ())
}

/// Removes the orders of a day, and returns how many they were. It takes no memory.
pub fn close_day(dispatch: &mut Dispatch, day: u32) -> usize
    ensures dropped { Drops (λ order. order.day ≡ day) dispatch.old.store dispatch.new.store }
    ensures count { result + live_count dispatch.new.store ≡ live_count dispatch.old.store }
{
    dispatch.remove_in(equal::<ByDay, _>(&day), |_ix, _order| ())
}

/// Removes those orders of a customer that come to less than so much, and returns how many they were. It takes no
/// memory.
pub fn drop_small_of(dispatch: &mut Dispatch, customer: u32, least: u64) -> usize
    ensures dropped { Drops (λ order. (order.customer ≡ customer) × (order.amount < least))
        dispatch.old.store dispatch.new.store }
    ensures count { result + live_count dispatch.new.store ≡ live_count dispatch.old.store }
    ensures memory { dispatch.new.memory ≡ dispatch.old.memory }
{
    dispatch.retain_in(
        having::<ByCustomer, _>(&customer),
        |_ix, order| order.amount >= least,
    )
}

/// Removes the orders up to a day that come to less than so much, and returns how many they were. The closure gets each
/// with its index.
pub fn hand_on_small<F: FnMut(ItemIndex, Order)>(
    dispatch: &mut Dispatch,
    day: u32,
    least: u64,
    gone: F,
) -> usize
    requires { (p : F) (pair : _) → TakesPair F.FnMut p pair }
    ensures count { result + live_count dispatch.new.store ≡ live_count dispatch.old.store }
    ensures memory { dispatch.new.memory ≡ dispatch.old.memory }
{
    dispatch.retain_into_in(
        within::<ByDay, _, _>(..=&day),
        |_ix, order| order.amount >= least,
        gone,
    )
}

/// Removes the orders without an amount, up to the first one with the number 0: its index comes back.
pub fn drop_empty(dispatch: &mut Dispatch) -> Result<usize, ItemIndex>
    ensures count { IfOk result
        (λ removed. removed + live_count dispatch.new.store ≡ live_count dispatch.old.store) }
    ensures memory { dispatch.new.memory ≡ dispatch.old.memory }
{
    dispatch.try_retain_in(All, |ix, order| {
        if order.number == 0 {
            Err(ix)
        } else {
            Ok(order.amount != 0)
        }
    })
}

/// Removes the orders with the least amounts, up to the first that is due on a day, and returns the index of that one.
pub fn take_least_until(dispatch: &mut Dispatch, day: u32) -> Option<ItemIndex>
    ensures memory { dispatch.new.memory ≡ dispatch.old.memory }
{
    let swept = dispatch.sweep(
        within::<ByAmount, &u64, _>(..),
        |_ix, order| {
            if order.day == day {
                Verdict::Stop
            } else {
                Verdict::Remove
            }
        },
        |_ix, _order| (),
    );
    swept.stopped_at
}

fn script(alloc: Global, dispatch: &mut Dispatch) -> Result<String, AllocError> {
    for (number, customer, day, amount) in [
        (1, 7, 10, 5),
        (2, 8, 20, 40),
        (3, 7, 20, 30),
        (4, 9, 10, 20),
        (5, 9, 30, 0),
    ] {
        let _ = dispatch.insert_unique(Order {
            number,
            customer,
            day,
            amount,
        });
    }
    let counts = (count_between(dispatch, 10, 20), count_of(dispatch, 7));
    let empty = drop_empty(dispatch).ok();
    let small = (drop_small_of(dispatch, 7, 10), drop_small(dispatch, 1));
    let mut handed = 0;
    let some = hand_on_small(dispatch, 10, 30, |_ix, order| handed = order.number);
    let stopped = take_least_until(dispatch, 20).map(|ix| ix.as_u32());
    let closed = close_day(dispatch, 20);
    format!(in alloc;
        "dispatch: {counts:?}, {empty:?}, {small:?}, {some} {handed}, {stopped:?}, {closed}"
    )
}

/// What the calls answer.
pub fn line(alloc: Global) -> Result<String, AllocError> {
    script(alloc, &mut Map::new(alloc))
}
