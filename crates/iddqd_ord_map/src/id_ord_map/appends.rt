//! Moves the items of another map into a map.
ghost use Rattle.std.specs.Prelude.{◌≡◌, ◌≤◌, ◌+◌, ℕ, Some, IsOk, IfErr};
ghost use Rattle.iddqd.specs.{IsFull, get, live_count};
ghost use Rattle.iddqd.specs.declared.item_set.GrowError.TheVariants.{Full};
ghost use Rattle.iddqd_map.specs.Append.{EachConflicts, GivesMove, KeepsOrMoves, MayReport, ReportsMoves, moved_count};
ghost use Rattle.iddqd_map.specs.Map.{room};
ghost use Rattle.iddqd_ord_map.specs.OrdMap.{AppendsInOrder};
ghost use Rattle.iddqd_ord_map.specs.OrderedIndexing.{alike_in_order};

use super::OrdMapBy;
use iddqd::item_index::ItemIndex;
use iddqd_keys::order_key::OrdKey;
use iddqd_map::refusal::StoppedAppend;

impl<T: Drop, E: OrdKey<T>> OrdMapBy<T, E> {
    /// Moves the items of another map into this one, by rising index, and returns how many were moved. For each of them
    /// it calls the closure with the index that the item had there and the one that it has here.
    ///
    /// Each is inserted as by `insert_unique`. An item whose key is in this map stays in the other map, and the call
    /// goes on. It stops at the first item that is refused since this map is full or memory ran out, and returns why,
    /// with the number of those before. What stays in the other map stays under its index. The other map may have
    /// another limit, and keeps its memory.
    ///
    /// The key of each item is looked up once in this map; an item that is moved costs a removal by its index in the
    /// other. It costs a step for each slot of the other map.
    ///
    /// Cost: a step for each slot of the other map; for each item one search here, and for each that is moved one
    /// there; takes memory as each insert does.
    ///
    /// Asks: the closure may be called with any two indexes.
    pub fn append<F: FnMut(ItemIndex, ItemIndex)>(
        &mut self,
        other: &mut OrdMapBy<T, E>,
        moved: F,
    ) -> Result<usize, StoppedAppend>
        requires { MayReport F.FnMut moved }
        ensures appends { AppendsInOrder E.key_of E.cmp self.old other.old result self.new other.new }
        ensures reported { (last : F) × ReportsMoves (GivesMove F.FnMut) moved last other.old.store self.new.store
            other.new.store (moved_count result) }
        ensures count { live_count self.new.store ≡ live_count self.old.store + moved_count result }
        ensures left { live_count other.new.store + moved_count result ≡ live_count other.old.store }
        ensures others { (ix : ℕ) (item : T) → get self.old.store ix ≡ Some item → get self.new.store ix ≡ Some item }
        ensures stay { (ix : ℕ) (item : T) → get other.new.store ix ≡ Some item → get other.old.store ix ≡ Some item }
        ensures kept { KeepsOrMoves other.old.store other.new.store self.new.store }
        ensures conflicts { IsOk result
            → EachConflicts (alike_in_order E.key_of E.cmp) self.new.store other.new.store }
        ensures full { IfErr result (λ stopped. stopped.error ≡ Full → IsFull self.new.store) }
        ensures not_refused { live_count other.old.store ≤ room self.old → IsOk result }
    {
        self.map.append(&mut other.map, moved)
    }
}
