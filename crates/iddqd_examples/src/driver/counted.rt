//! Items whose keys count how often they are compared.
ghost use Rattle.std.specs.Prelude.{◌==◌, ◌≡◌, length, nat_le, if◌then◌else◌};
ghost use Rattle.std.specs.Hash as fed;
ghost use Rattle.std.specs.Int.{w32, from_le_bytes};
ghost use Rattle.std.specs.Ordering.{nat_cmp, on, as_partial_cmp};
ghost use Rattle.std.specs.Cmp.{partial_order_from_own_ties};
ghost use Rattle.std.specs.Cmp.Rules.{comparing, hashing};
ghost use Rattle.std.proofs.Common.{rules};

use iddqd_driver::keyed_item::KeyedItem;
use std::alloc::AllocError;
use std::cell::Cell;
use std::cmp::Ordering;
use std::hash::{BuildHasher, Hash, Hasher};
use std::rc::Rc;

/// A hasher that gives each number of 32 bits its own hash: the number.
#[derive(Clone, Copy)]
pub(super) struct Own(pub(super) u32);

impl Hasher for Own {
    ghost write = { λ h bytes. record { 0 = if nat_le 4 (length bytes) then from_le_bytes w32 bytes else h.0 } };

    ghost finish = { λ h. h.0 };

    fn finish(&self) -> u64 {
        u64::from(self.0)
    }

    fn write(&mut self, bytes: &[u8]) {
        if bytes.len() >= 4 {
            self.0 = u32::from_le_bytes([bytes[0], bytes[1], bytes[2], bytes[3]]);
        }
    }
}

impl BuildHasher for Own {
    type Hasher = Own;

    ghost build_hasher = { λ s. s };

    fn build_hasher(&self) -> Own {
        *self
    }
}

/// How often first keys were compared, and second keys by equality and by order.
#[derive(Clone, Copy, Debug)]
pub(super) struct Counts {
    first_equal: u32,
    second_equal: u32,
    second_order: u32,
}

/// Nothing was compared.
pub(super) const NONE: Counts = Counts {
    first_equal: 0,
    second_equal: 0,
    second_order: 0,
};

impl Counts {
    /// First keys were compared at most so often, and second keys by their order alone, at most so often.
    pub(super) fn is_within(&self, most_first: u32, most_second: u32) -> bool {
        self.first_equal <= most_first && self.second_order <= most_second && self.second_equal == 0
    }
}

/// A first key: its value is the number alone.
#[derive(Drop)]
pub(super) struct First {
    number: u32,
    counts: Rc<Cell<Counts>>,
}

impl PartialEq for First {
    ghost eq = { λ a b. a.number == b.number };

    ghost laws = { Prim.search (comparing, rules) };

    fn eq(&self, other: &First) -> bool {
        let counts = self.counts.get();
        self.counts.set(Counts {
            first_equal: counts.first_equal.saturating_add(1),
            ..counts
        });
        self.number == other.number
    }
}

impl Eq for First {
    ghost laws = { Prim.search (comparing, rules) };
}

impl Hash for First {
    ghost hash_input = { λ a. fed.u32 a.number };

    ghost respects_eq = { Prim.search (hashing, rules) };

    fn hash<H: Hasher>(&self, state: &mut H) {
        self.number.hash(state);
    }
}

/// A second key: its value is the number alone.
#[derive(Drop)]
pub(super) struct Second {
    number: u32,
    counts: Rc<Cell<Counts>>,
}

impl PartialEq for Second {
    ghost eq = { λ a b. a.number == b.number };

    ghost laws = { Prim.search (comparing, rules) };

    fn eq(&self, other: &Second) -> bool {
        let counts = self.counts.get();
        self.counts.set(Counts {
            second_equal: counts.second_equal.saturating_add(1),
            ..counts
        });
        self.number == other.number
    }
}

impl Eq for Second {
    ghost laws = { Prim.search (comparing, rules) };
}

impl Ord for Second {
    ghost cmp = { on (λ a. a.number) nat_cmp };

    ghost total = { Prim.search (comparing, rules) };

    ghost matches_partial_cmp = { Prim.search (comparing, rules) };

    ghost matches_eq = { Prim.search (comparing, rules) };

    fn cmp(&self, other: &Second) -> Ordering {
        let counts = self.counts.get();
        self.counts.set(Counts {
            second_order: counts.second_order.saturating_add(1),
            ..counts
        });
        self.number.cmp(&other.number)
    }
}

impl PartialOrd for Second {
    ghost partial_cmp = { as_partial_cmp (on (λ a. a.number) nat_cmp) };

    ghost laws = { partial_order_from_own_ties (Prim.search (comparing, rules)) (Prim.search (comparing, rules)) };

    fn partial_cmp(&self, other: &Second) -> Option<Ordering> {
        Some(self.cmp(other))
    }
}

#[derive(Drop)]
pub(super) struct Item {
    first: First,
    second: Second,
}

impl Item {
    /// Whether both keys are the number.
    pub(super) fn has(&self, number: u32) -> bool {
        self.first.number == number && self.second.number == number
    }
}

impl KeyedItem for Item {
    type Key1 = First;

    type Key2 = Second;

    ghost first_key = { λ i. i.first };

    ghost second_key = { λ i. i.second };

    fn key1(&self) -> &First {
        &self.first
    }

    fn key2(&self) -> &Second {
        &self.second
    }
}

/// The item whose keys are both the number.
pub(super) fn item_of(counts: &Rc<Cell<Counts>>, number: u32) -> Result<Item, AllocError> {
    let first = first_of(counts, number)?;
    let second = second_of(counts, number)?;
    Ok(Item { first, second })
}

pub(super) fn first_of(counts: &Rc<Cell<Counts>>, number: u32) -> Result<First, AllocError> {
    let counts = counts.clone()?;
    Ok(First { number, counts })
}

pub(super) fn second_of(counts: &Rc<Cell<Counts>>, number: u32) -> Result<Second, AllocError> {
    let counts = counts.clone()?;
    Ok(Second { number, counts })
}
