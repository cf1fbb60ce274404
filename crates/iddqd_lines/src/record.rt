//! What the program keeps.
use iddqd_driver::keyed_item::KeyedItem;

/// Two keys and a value.
#[derive(Clone, Copy, Debug, PartialEq, Eq)]
pub struct Record {
    pub first: u32,
    pub second: u32,
    pub value: u32,
}

impl KeyedItem for Record {
    type Key1 = u32;

    type Key2 = u32;

    ghost first_key = { λ r. r.first };

    ghost second_key = { λ r. r.second };

    fn key1(&self) -> &u32 {
        &self.first
    }

    fn key2(&self) -> &u32 {
        &self.second
    }
}
