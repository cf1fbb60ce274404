//! Replaces an item by what a closure makes of it.
ghost use Rattle.std.specs.Prelude.{◌≡◌, Bool, Some, IfSome};
ghost use Rattle.std.specs.Borrow.{Bor};
ghost use Rattle.std.specs.Fn.{FnOnceReturnsAt};
ghost use Rattle.iddqd.specs.{get, live_count};
ghost use Rattle.iddqd_keys.specs.Scan.{IsLive, AnswersScan};
ghost use Rattle.iddqd_map.specs.Map.{map_with, room};
ghost use Rattle.iddqd_map.specs.Calls.{Changes};
ghost use Rattle.iddqd_map.specs.KeyIndex.{AreKnownAt, IsIndexed};

use super::replaces::replace;
use crate::key_index::Moves;
use crate::refusal::ReplaceRefusal;
use iddqd::item_index::ItemIndex;
use iddqd::item_set::ItemSet;

// Replaces the item that a look-up found by what the closure makes of it. If none was found, it returns `None`, and
// doesn't call the closure.
pub(super) fn change_found<T, X: Moves<T, S>, S, F: FnOnce(&T) -> T>(
    items: &mut ItemSet<T>,
    indexes: &mut X,
    state: &S,
    known: X::KnownHashes,
    found: Option<ItemIndex>,
    f: F,
) -> Result<Option<T>, ReplaceRefusal<T, X::Taken>>
    requires callable { IfSome found (λ ix. (item : Bor T) → get items.old.store ix ≡ Some item.now → F.pre f item) }
    requires live { IfSome found (IsLive items.old.store) }
    requires known { IfSome found (λ ix. AreKnownAt (X.are_known state.now) items.old.store ix known) }
    requires map { IsIndexed (X.indexes indexes.old) state.now items.old.store }
    ensures map { IsIndexed (X.indexes indexes.new) state.now items.new.store }
    ensures changes { (test : T → Bool) → AnswersScan items.old.store test found
        → Changes X.alike X.same_keys X.may_need_memory X.taken (FnOnceReturnsAt F.FnOnce f)
        (map_with items.old (X.capacity indexes.old) (X.cells indexes.old)) test result
        (map_with items.new (X.capacity indexes.new) (X.cells indexes.new)) }
    ensures room { room (map_with items.new (X.capacity indexes.new) (X.cells indexes.new))
        ≡ room (map_with items.old (X.capacity indexes.old) (X.cells indexes.old)) }
    ensures count { live_count items.new.store ≡ live_count items.old.store }
{
    let Some(ix) = found else {
        return Ok(None);
    };
    let item = f(&items[ix]);
    let was = replace(items, indexes, state, known, ix, item)?;
    Ok(Some(was))
}
