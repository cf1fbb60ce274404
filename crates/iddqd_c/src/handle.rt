//! A table behind a pointer that C keeps.
//!
//! `seal`, `unseal`, `empty` and `close` are the only functions that touch the pointer; the first three have proofs by
//! hand. A handle isn't `Drop`, so none is dropped with a table in it: only `close` drops a handle, and requires that
//! it is empty. The box that `take` hands out can be forgotten, which no clause refuses: the tests of `tests/exports`
//! count blocks.
//!
//! What always holds:
//! 1. `fits`: the state is `OPEN` if and only if the handle owns a table. A handle of another library has another
//!    state, so it owns nothing here and isn't touched.
ghost use Rattle.std.specs.Prelude.{◌≡◌, ◌≢◌, ◌⊎◌, ◌↔◌, Option, None, Some, IsSome};
ghost use Rattle.std.specs.Coded.{coded_option};
ghost use Rattle.std.proofs.Props.{props};
ghost use Rattle.iddqd_codes.specs.declared.TheConstants.{OK, MEMORY, HANDLE};
ghost use Rattle.iddqd_c.specs.declared.table.Table.{Table};
ghost use Rattle.iddqd_c.specs.contracts.table.Table as table;

use crate::table::Table;
use iddqd_codes::{HANDLE, MEMORY, OK};
use iddqd_raw_box::RawBox;
use std::alloc::Global;
use std::marker::Model;

/// The state of a handle without a table: all of its bytes are zero.
const CLOSED: u64 = 0;

/// The state of a handle with a table.
const OPEN: u64 = 1;

/// Where a table lies, or nothing.
#[repr(C)]
pub struct Handle {
    at: *mut u8,
    alloc: Global,
    pub ghost value: { Option Table } by { coded_option (table.the_row).coded },
}

impl Model for Handle {
    ghost use Rattle.iddqd_c.specs.Parked.{parked};
    ghost use Rattle.iddqd_c.specs.contracts.table.Table.{the_row};

    ghost also_owns = { λ h. parked the_row h.alloc h.at h.value };
}

// Owns what the box owned.
fn seal(raw: RawBox<Table, Global>) -> Handle
    ensures { result.value ≡ Some raw.value }
{
    let RawBox { at, alloc } = raw;
    Handle {
        at: at as *mut u8,
        alloc,
    }
}

// Gives the table back.
fn unseal(handle: Handle) -> RawBox<Table, Global>
    requires { IsSome handle.value }
    ensures { handle.value ≡ Some result.value }
{
    let Handle { at, alloc } = handle;
    RawBox {
        at: at as *mut Table,
        alloc,
    }
}

// Owns nothing.
fn empty(alloc: Global) -> Handle
    ensures { result.value ≡ None }
{
    Handle {
        at: std::ptr::null_mut(),
        alloc,
    }
}

// Drops a handle that owns nothing.
fn close(handle: Handle)
    requires { handle.value ≡ None }
{
    let Handle { at: _, alloc: _ } = handle;
}

/// A table, or none: what C holds. All zero bytes are none.
#[repr(C)]
pub struct CTable {
    pub handle: Handle,
    pub state: u64,
    ghost fits: { (state ≡ 1) ↔ IsSome handle.value } by { Prim.hlevel props },
}

/// Makes a table, where the handle is zero.
pub(crate) fn make(t: &mut CTable, alloc: Global, table: Table) -> u32
    ensures codes { (result ≡ OK) ⊎ (result ≡ MEMORY) ⊎ (result ≡ HANDLE) }
    ensures handle { (result ≡ HANDLE) ↔ (t.old.state ≢ 0) }
    ensures made { result ≡ OK → (t.new.handle.value ≡ Some table) × (t.new.state ≡ 1) }
    ensures kept { result ≢ OK → t.new ≡ t.old }
{
    if t.state != CLOSED {
        return HANDLE;
    }
    match Box::new(alloc, table) {
        Ok(whole) => {
            put(t, whole);
            OK
        }
        Err(_) => MEMORY,
    }
}

/// Takes the table out of its handle, and leaves none there.
pub(crate) fn take(t: &mut CTable, alloc: Global) -> Box<Table>
    requires { t.old.state ≡ 1 }
    ensures table { t.old.handle.value ≡ Some result.value }
    ensures none { t.new.handle.value ≡ None }
    ensures state { t.new.state ≡ 0 }
{
    let was = std::mem::replace(
        t,
        CTable {
            handle: empty(alloc),
            state: CLOSED,
        },
    );
    let CTable { handle, state: _ } = was;
    unseal(handle).into_box()
}

/// Puts a table into a handle that has none.
pub(crate) fn put(t: &mut CTable, whole: Box<Table>)
    requires { t.old.handle.value ≡ None }
    ensures table { t.new.handle.value ≡ Some whole.value }
    ensures state { t.new.state ≡ 1 }
{
    let was = std::mem::replace(
        t,
        CTable {
            handle: seal(RawBox::of(whole)),
            state: OPEN,
        },
    );
    let CTable { handle, state: _ } = was;
    close(handle);
}

/// Frees the table, if the handle holds one. The handle is then zero, and a call on it answers `HANDLE`.
#[unsafe(no_mangle)]
pub extern "C" fn iddqd_free(t: &mut CTable, alloc: Global)
    ensures none { t.new.handle.value ≡ None }
    ensures zero { t.old.state ≡ 1 → t.new.state ≡ 0 }
    ensures other { t.old.state ≢ 1 → t.new ≡ t.old }
{
    if t.state == OPEN {
        let _table = take(t, alloc);
    }
}
