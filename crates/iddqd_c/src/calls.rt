//! Callers: what one function answers decides what the next one does.
//!
//! C doesn't call these. They stand here since no crate stands above a static library. Their contracts are proved from
//! the contracts of the functions alone, as that of any caller could be.
ghost use Rattle.std.specs.Prelude.{◌≡◌, ◌≢◌};
ghost use Rattle.iddqd_codes.specs.declared.TheConstants.{OK, MISSING, DUPLICATE};
ghost use Rattle.iddqd_c.specs.Entries.{FindsFirst, InsertsAt};
ghost use Rattle.iddqd_c.specs.Held.{ChangesEach, ReadsKeyed};

use crate::entry::{Conflict, Row};
use crate::handle::CTable;
use crate::keyed::finds::iddqd_keyed_find1;
use crate::keyed::inserts::iddqd_keyed_insert;
use std::alloc::Global;

/// Looks a first key up and inserts an item with it. Returns the codes of both.
pub fn find_then_insert(
    t: &mut CTable,
    alloc: Global,
    key: &[u8],
    second: u64,
    value: u64,
    row: &mut Row,
    at: &mut u32,
    found: &mut Conflict,
) -> (u32, u32)
    ensures found { result.0 ≡ OK → (result.1 ≡ DUPLICATE) × (found.new.first ≡ row.new.index) }
    ensures finds { ReadsKeyed (FindsFirst key.now result.0 row.new) t.old.handle.value result.0 }
    ensures inserts { ChangesEach (λ taken. InsertsAt taken key.now second value result.1 at.new found.new)
        t.old.handle.value result.1 t.new.handle.value }
    ensures state { t.new.state ≡ t.old.state }
{
    let looked_up = iddqd_keyed_find1(t, alloc, key, row);
    let inserted = iddqd_keyed_insert(t, alloc, key, second, value, at, found);
    (looked_up, inserted)
}

/// Inserts an item and looks its first key up. Returns the codes of both.
pub fn insert_then_find(
    t: &mut CTable,
    alloc: Global,
    key: &[u8],
    second: u64,
    value: u64,
    at: &mut u32,
    row: &mut Row,
) -> (u32, u32)
    ensures found { result.0 ≡ OK → (result.1 ≡ OK)
        × (row.new ≡ record { second = second; value = value; index = at.new }) }
    ensures state { t.new.state ≡ t.old.state }
{
    let mut found = Conflict {
        first: 0,
        second: 0,
    };
    let inserted = iddqd_keyed_insert(t, alloc, key, second, value, at, &mut found);
    let looked_up = iddqd_keyed_find1(t, alloc, key, row);
    (inserted, looked_up)
}
