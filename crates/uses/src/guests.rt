//! Guests by their names. Those who came early are dismissed, and the closure that says so pushes the arrival of each
//! guest into a list that has room for as many as there are.
ghost use Rattle.std.specs.Prelude.{◌≡◌, ◌+◌, ◌<◌, ◌≤◌, filter, nat_le, vec_len, vec_capacity};
ghost use Rattle.iddqd_maps.specs.LiveItems.{live_pairs};
ghost use Rattle.iddqd_maps.specs.Store.{live_count};

use iddqd_maps::id_hash_map::{IdHashItem, IdHashMap};
use std::alloc::{AllocError, Global};

/// A guest. No two have the same name.
#[derive(Drop)]
pub struct Guest {
    pub name: String,
    pub arrival: u32,
}

impl IdHashItem for Guest {
    type Key = String;

    ghost key_of = { λ guest. guest.name };

    fn key(&self) -> &String {
        &self.name
    }
}

/// Adds the arrival of each guest to a list that has room for them. Removes the guests who came before that time, and
/// returns how many they were. It takes no memory.
pub fn dismiss(guests: &mut IdHashMap<Guest>, time: u32, arrivals: &mut Vec<u32>) -> usize
    requires { vec_len arrivals.old + live_count guests.old.store ≤ vec_capacity arrivals.old }
    ensures stay { live_pairs guests.new.store
        ≡ filter (λ pair. nat_le time pair.1.arrival) (live_pairs guests.old.store) }
    ensures count { result + live_count guests.new.store ≡ live_count guests.old.store }
    ensures memory { guests.new.memory ≡ guests.old.memory }
{
    // `push_reserved` requires room for one more, and after the last guest there may be none.
    guests.retain(
        |guest|
            requires { vec_len arrivals.now < vec_capacity arrivals.now }
        {
            arrivals.push_reserved(guest.arrival);
            time <= guest.arrival
        },
    )
}

fn script(alloc: Global, guests: &mut IdHashMap<Guest>) -> Result<String, AllocError> {
    for (name, arrival) in [("ada", 30), ("bo", 10), ("cy", 20)] {
        let name = String::from_str(alloc, name)?;
        let _ = guests.insert_unique(Guest { name, arrival });
    }
    let mut arrivals = Vec::with_capacity(alloc, guests.len())?;
    let dismissed = dismiss(guests, 20, &mut arrivals);
    format!(in alloc; "guests: {arrivals:?}, {dismissed}")
}

/// What the calls answer.
pub fn line(alloc: Global) -> Result<String, AllocError> {
    script(alloc, &mut IdHashMap::new(alloc))
}
