//! What keyed items are, and how they cross to C.
ghost use Rattle.std.specs.Prelude.{◌≡◌};
ghost use Rattle.iddqd_c.specs.Rows.{no_row, row_of};

use iddqd::item_index::ItemIndex;
use iddqd_byte_keys::ByteKey;
use iddqd_keys::key_of::KeyOf;
use iddqd_map::by_hash::ByHash;
use iddqd_map::key_index::{Here, Left, Right};
use iddqd_map::map::Map;
use iddqd_map::pair::Pair;
use iddqd_ord_map::by_order::ByOrder;
use iddqd_ord_map::by_order_multi::ByOrderMulti;
use std::hash::RandomState;

/// A value under two keys: the first is of bytes, which no other item has, and looked up by its hash; the second is a
/// number, and looked up by its order.
#[derive(Drop)]
pub struct Entry {
    pub first: ByteKey,
    pub second: u64,
    pub value: u64,
}

/// Names the first key.
pub enum First {}

impl KeyOf<Entry> for First {
    type Key = ByteKey;

    ghost key_of = { λ entry. entry.first };

    fn key(entry: &Entry) -> &ByteKey {
        &entry.first
    }
}

/// Names the second key.
pub enum Second {}

impl KeyOf<Entry> for Second {
    type Key = u64;

    ghost key_of = { λ entry. entry.second };

    fn key(entry: &Entry) -> &u64 {
        &entry.second
    }
}

/// The second key by its order, where no two items share one.
pub type Unique = ByOrder<Second, u64>;

/// The second key by its order, where several items may share one.
pub type Shared = ByOrderMulti<Second, u64>;

/// The place of the first key.
pub type ByFirst = Left<Here>;

/// The place of the second key.
pub type BySecond = Right<Here>;

/// Entries by the hash of their first keys, and by a key index `B` of their second keys. First keys may come from
/// strangers, so their hash is SipHash under a seed.
pub type Entries<B> = Map<Entry, Pair<ByHash<First, ByteKey>, B>, RandomState>;

/// What C reads of an entry, beside its first key: 24 bytes, of which the last four are padding.
#[repr(C)]
#[derive(Clone, Copy)]
pub struct Row {
    pub second: u64,
    pub value: u64,
    pub index: u32,
}

impl Row {
    /// The row of an entry at an index.
    pub fn of(ix: ItemIndex, entry: &Entry) -> Row
        ensures { result ≡ row_of ix entry.now }
    {
        Row {
            second: entry.second,
            value: entry.value,
            index: ix.as_u32(),
        }
    }

    /// The row for no entry: its index is `SENTINEL`.
    pub fn none() -> Row
        ensures { result ≡ no_row }
    {
        Row {
            second: 0,
            value: 0,
            index: ItemIndex::SENTINEL.as_u32(),
        }
    }
}

/// The indexes of the items that stand in the way of a new one: by its first key and by its second, `SENTINEL` for
/// none. The item that a new one would replace isn't reported.
#[repr(C)]
#[derive(Clone, Copy)]
pub struct Conflict {
    pub first: u32,
    pub second: u32,
}

/// An end of a range in the order of second keys and then of indexes: 16 bytes.
///
/// Of a place it says whether an item there is in the range; or there is no end at this side.
#[repr(C)]
#[derive(Clone, Copy)]
pub struct End {
    pub second: u64,
    pub index: u32,
    /// `OPEN`, `IN` or `OUT`. Any other number means `OUT`.
    pub side: u32,
}

/// There is no end at this side.
pub const OPEN: u32 = 0;

/// An item at the place is in the range.
pub const IN: u32 = 1;

/// An item at the place is out of the range.
pub const OUT: u32 = 2;

/// Which way a range is written.
#[derive(Clone, Copy)]
pub enum Direction {
    Up,
    Down,
}
