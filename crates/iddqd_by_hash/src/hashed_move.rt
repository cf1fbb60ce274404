//! What a table does when the item at a live index is replaced, maybe by one with another key.
//!
//! The removal of the old entry leaves the room that the insert of the new one takes, so a move takes no memory and
//! can't fail. A map plans what each of its tables does before it changes any of them.
ghost use Rattle.std.specs.Prelude.{◌≡◌, IsSome};
ghost use Rattle.std.specs.FinMap as finite;
ghost use Rattle.iddqd_hash.specs.{filed};
ghost use Rattle.iddqd_hash.specs.HashTable.{KeepsMemory};
ghost use Rattle.iddqd_by_hash.specs.HashedMove.{IfStays, moved};

use crate::hashed;
use iddqd::item_index::ItemIndex;
use iddqd::map_hash::MapHash;
use iddqd_hash::hash_table::MapHashTable;

/// How the entry of a live index must change if its item is replaced.
#[derive(Clone, Copy)]
pub enum Move {
    /// The key stays, and so the table stays as it is.
    Stays,
    /// The index goes under this hash, that of the new key.
    To(MapHash),
}

/// Changes the entry of a live index as it was planned. It takes no memory.
///
/// `from` should be the hash that the index is stored under. If it isn't, the table is scanned.
pub fn commit_move(table: &mut MapHashTable, from: MapHash, plan: &Move, ix: ItemIndex)
    requires filed { IsSome (finite.get (filed table.old) ix) }
    ensures moved { filed table.new ≡ moved (filed table.old) ix plan.now }
    ensures memory { KeepsMemory table.old table.new }
    ensures untouched { IfStays plan.now (table.new ≡ table.old) }
{
    if let Move::To(to) = plan {
        hashed::remove_index(table, from, ix);
        table.insert_prehashed_unchecked(*to, ix);
    }
}
