//! A mix with equal keys: orders by their numbers, by their customers, and in the order of their days. Many orders may
//! have one customer, and many may be due on one day. `orders` has the calls on each of these keys alone.
ghost use Rattle.std.specs.Prelude.{◌≡◌, ◌==◌, ◌<◌, ◌+◌, IfOk, IfErr, OnOk, OnErr};
ghost use Rattle.std.proofs.Common.{rules};
ghost use Rattle.iddqd_maps.specs.Groups.{AreHits};
ghost use Rattle.iddqd_maps.specs.Scan.{HasNoHit};
ghost use Rattle.iddqd_maps.specs.Store.{inserted, live_count, next_index};
ghost use Rattle.iddqd_maps.specs.Drops.{Drops};
ghost use Rattle.uses.specs.Exchanges.{IsWhyNotAdded};
ghost use Rattle.uses.specs.Ledger.{shares_number};
ghost use Rattle.uses.specs.declared.ledger.Order.{Order};

use iddqd_maps::hashed_group::Group;
use iddqd_maps::{
    ByHash, ByHashMulti, ByHashMultiOf, ByOrderMulti, CloneFor, DefaultHashBuilder, Field, Here,
    InsertRefusal, ItemIndex, KeyOf, Map, NoConflict, Pair, PairConflict, Right,
};
use std::alloc::{AllocError, Global};

/// An order. No two have the same number; many may have one customer, and many may be due on one day.
#[derive(Clone, Copy, Debug)]
pub struct Order {
    pub number: u64,
    pub customer: u32,
    pub day: u32,
    pub amount: u64,
}

/// Names the number.
pub enum Number {}

impl KeyOf<Order> for Number {
    type Key = u64;

    ghost key_of = { λ order. order.number };

    fn key(order: &Order) -> &u64 {
        &order.number
    }
}

/// Names the customer.
pub enum Customer {}

impl KeyOf<Order> for Customer {
    type Key = u32;

    ghost key_of = { λ order. order.customer };

    fn key(order: &Order) -> &u32 {
        &order.customer
    }
}

/// Names the day.
pub enum Day {}

impl KeyOf<Order> for Day {
    type Key = u32;

    ghost key_of = { λ order. order.day };

    fn key(order: &Order) -> &u32 {
        &order.day
    }
}

/// The order that has the number of a refused one. A customer or a day never conflicts.
pub type Taken = PairConflict<ItemIndex, PairConflict<NoConflict, NoConflict>>;

type Shared = Pair<ByHashMulti<Customer, u32>, ByOrderMulti<Day, u32>>;

type ByDay = Right<Right<Here>>;

type Keys = Pair<ByHash<Number, u64>, Shared>;

/// Orders by their numbers, by their customers, and in the order of their days.
pub type Ledger = Map<Order, Keys>;

impl CloneFor<Keys, DefaultHashBuilder> for Order {
    ghost same_keys = { Prim.search rules };
}

/// A copy of the ledger, with each order under its index.
pub fn copy_of(ledger: &Ledger) -> Result<Ledger, AllocError>
    ensures { IfOk result (λ copy. copy.store ≡ ledger.now.store) }
{
    ledger.clone()
}

/// Adds an order, unless another one has its number.
pub fn add(ledger: &mut Ledger, order: Order) -> Result<ItemIndex, InsertRefusal<Order, Taken>>
    ensures index { IfOk result (λ ix. ix ≡ next_index ledger.old.store) }
    ensures unlike { OnOk result (HasNoHit ledger.old.store (shares_number order)) }
    ensures stored { OnOk result (ledger.new.store ≡ inserted ledger.old.store order) }
    ensures refused { IfErr result (IsWhyNotAdded shares_number order ledger.old) }
    ensures unchanged { OnErr result (ledger.new.store ≡ ledger.old.store) }
{
    ledger.insert_unique(order)
}

/// The indexes of a customer's orders, each once, in no particular order.
pub fn indexes_of<'a>(
    ledger: &'a Ledger,
    customer: &'a u32,
) -> Group<'a, Order, Field<Customer, u32>, &'a u32>
    ensures { AreHits ledger.now.store (λ order. customer.now == order.customer) result.rest }
{
    ByHashMultiOf::group(ledger.parts().right().left(), customer)
}

/// Removes the orders of earlier days, and returns how many they were. It takes no memory.
pub fn close_before(ledger: &mut Ledger, day: u32) -> usize
    ensures dropped { Drops (λ order. order.day < day) ledger.old.store ledger.new.store }
    ensures count { result + live_count ledger.new.store ≡ live_count ledger.old.store }
    ensures memory { ledger.new.memory ≡ ledger.old.memory }
{
    ledger.remove_range_by::<ByDay, _, _, _>(..&day, |_order| ())
}

fn added(ledger: &mut Ledger, number: u64, customer: u32, day: u32) -> bool {
    let amount = 10;
    add(
        ledger,
        Order {
            number,
            customer,
            day,
            amount,
        },
    )
    .is_ok()
}

fn script(alloc: Global, ledger: &mut Ledger) -> Result<String, AllocError> {
    let added = (
        added(ledger, 1, 7, 20),
        added(ledger, 2, 7, 10),
        added(ledger, 3, 8, 20),
        added(ledger, 3, 9, 30),
    );
    let gone = close_before(ledger, 20);
    let left = (
        indexes_of(ledger, &7).next().is_some(),
        indexes_of(ledger, &9).next().is_some(),
    );
    format!(in alloc; "ledger: {added:?}, {gone}, {left:?}")
}

/// What the calls answer.
pub fn line(alloc: Global) -> Result<String, AllocError> {
    script(alloc, &mut Map::new(alloc))
}
