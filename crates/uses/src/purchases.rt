//! Purchases of each customer, from the newest to the oldest.
ghost use Rattle.std.specs.Prelude.{◌≡◌, ◌+◌};
ghost use Rattle.iddqd_maps.specs.Drops.{Drops};
ghost use Rattle.iddqd_maps.specs.InOrder.{IteratesInOrder};
ghost use Rattle.iddqd_maps.specs.Store.{live_count};
ghost use Rattle.uses.specs.Purchases.{is_of, newest_first};
ghost use Rattle.uses.specs.declared.purchases.Purchase.{Purchase};

use iddqd_maps::by_order_multi::ByOrderMultiOf;
use iddqd_maps::in_order::InOrder;
use iddqd_maps::item_order_query::Prefix;
use iddqd_maps::key_index::Here;
use iddqd_maps::key_kinds::{Field, Reversed};
use iddqd_maps::key_of::KeyOf;
use iddqd_maps::map::Map;
use iddqd_maps::ordered_walk::Range;
use iddqd_maps::selection::equal;
use std::alloc::{AllocError, Global};

/// A purchase. A customer may have many on one day.
#[derive(Clone, Copy, Debug)]
pub struct Purchase {
    pub number: u64,
    pub customer: u32,
    pub day: u32,
}

/// Names the customer.
pub enum Customer {}

impl KeyOf<Purchase> for Customer {
    type Key = u32;

    ghost key_of = { λ purchase. purchase.customer };

    fn key(purchase: &Purchase) -> &u32 {
        &purchase.customer
    }
}

/// Names the day.
pub enum Day {}

impl KeyOf<Purchase> for Day {
    type Key = u32;

    ghost key_of = { λ purchase. purchase.day };

    fn key(purchase: &Purchase) -> &u32 {
        &purchase.day
    }
}

type NewestFirst = ByOrderMultiOf<(Field<Customer, u32>, Reversed<Field<Day, u32>>)>;

type ByCustomer = Here;

/// Purchases by customer, the newest first.
pub type Purchases = Map<Purchase, NewestFirst>;

/// The purchases of a customer with their indexes, from the newest to the oldest.
pub fn newest_of(purchases: &Purchases, customer: u32) -> Range<'_, Purchase>
    ensures { IteratesInOrder newest_first (is_of customer) purchases.now.store result }
{
    purchases.group_by::<ByCustomer, _>(Prefix(&customer))
}

/// Removes the purchases of a customer on a day, and returns how many they were. It takes no memory.
pub fn undo(purchases: &mut Purchases, customer: u32, day: u32) -> usize
    ensures dropped { Drops (λ purchase. (purchase.customer ≡ customer) × (purchase.day ≡ day))
        purchases.old.store purchases.new.store }
    ensures count { result + live_count purchases.new.store ≡ live_count purchases.old.store }
    ensures memory { purchases.new.memory ≡ purchases.old.memory }
{
    purchases.remove_in(
        equal::<ByCustomer, _>((&customer, &day)),
        |_ix, _purchase| (),
    )
}

fn newest_day(purchases: &Purchases, customer: u32) -> u32 {
    match newest_of(purchases, customer).next() {
        Some((_, purchase)) => purchase.day,
        None => 0,
    }
}

fn script(alloc: Global, purchases: &mut Purchases) -> Result<String, AllocError> {
    for (number, customer, day) in [(1, 7, 10), (2, 7, 30), (3, 8, 40), (4, 7, 20)] {
        let _ = purchases.insert_unique(Purchase {
            number,
            customer,
            day,
        });
    }
    let newest = newest_day(purchases, 7);
    let undone = (undo(purchases, 7, 30), newest_day(purchases, 7));
    format!(in alloc; "purchases: {newest}, {undone:?}")
}

/// What the calls answer.
pub fn line(alloc: Global) -> Result<String, AllocError> {
    script(alloc, &mut Map::new(alloc))
}
