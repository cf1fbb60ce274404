//! Plans the move of a live index whose item is to be replaced by one that may have another key: by one look-up of the
//! new key, or by none if the key stays.
ghost use Rattle.iddqd_hash.specs.{filed};
ghost use Rattle.iddqd_keys.specs.Scan.{IsLive};
ghost use Rattle.iddqd_by_hash.specs.Hashed.{hashing_of};
ghost use Rattle.iddqd_map.specs.Files.{IsMoveFor};
ghost use Rattle.iddqd_map.specs.Indexing.{Indexes, PlansOrConflicts};

use iddqd::item_index::ItemIndex;
use iddqd::item_set::ItemSet;
use iddqd_by_hash::hashed_item::{find_same, hash_of};
use iddqd_by_hash::hashed_move::Move;
use iddqd_hash::hash_table::MapHashTable;
use iddqd_keys::hash_key::HashKey;
use std::hash::BuildHasher;

/// Plans the move of a live index whose item is to be replaced by this one. If another item has the new key, it returns
/// that item's index.
///
/// It compares the new key with the old one. Only if they differ, it hashes the new key and looks it up, once.
pub fn plan_move<T, E, S>(
    table: &MapHashTable,
    items: &ItemSet<T>,
    state: &S,
    ix: ItemIndex,
    item: &T,
) -> Result<Move, ItemIndex>
where
    E: HashKey<T>,
    S: BuildHasher,
    requires live { IsLive items.now.store ix }
    requires indexed { Indexes E.key_of (hashing_of E.eq E.hash_input S.BuildHasher S.Hasher.Hasher state.now)
        items.now.store (filed table.now) }
    ensures { PlansOrConflicts E.key_of (hashing_of E.eq E.hash_input S.BuildHasher S.Hasher.Hasher state.now)
        items.now.store ix item.now result }
{
    match move_of::<T, E, S>(items, state, ix, item) {
        Move::Stays => Ok(Move::Stays),
        Move::To(hash) => match find_same::<T, E>(table, items, hash, item) {
            Some(at) => Err(at),
            None => Ok(Move::To(hash)),
        },
    }
}

/// Plans the move of a live index whose item is to be replaced by this one. Other items may have the new key.
///
/// It compares the new key with the old one. Only if they differ, it hashes the new key, once.
pub fn move_of<T, E, S>(items: &ItemSet<T>, state: &S, ix: ItemIndex, item: &T) -> Move
where
    E: HashKey<T>,
    S: BuildHasher,
    requires { IsLive items.now.store ix }
    ensures { IsMoveFor E.key_of (hashing_of E.eq E.hash_input S.BuildHasher S.Hasher.Hasher state.now)
        items.now.store ix item.now result }
{
    if E::is_same(item, &items[ix]) {
        return Move::Stays;
    }
    Move::To(hash_of::<T, E, S>(state, item))
}
