//! Calls that pass items to a closure by value, in the order of the keys: those that another closure rejects, or all.
ghost use Rattle.std.specs.Prelude.{◌≡◌, ◌≤◌, ◌+◌};
ghost use Rattle.std.specs.Fn.{TakesAt, CalledAt};
ghost use Rattle.iddqd.specs.{cleared, live_count};
ghost use Rattle.iddqd_map.specs.Map.{room};
ghost use Rattle.iddqd_map.specs.Ranges.{GivesItem};
ghost use Rattle.iddqd_ord_map.specs.KeyOrder.{IsKeyWalk};
ghost use Rattle.iddqd_ord_map.specs.Retain.{GivesAlong, GivesRefusedAlong, MayAskAlong, MayGiveAlong, MayGiveSomeAlong, RetainsAlong};

use super::OrdMapBy;
use iddqd_keys::order_key::OrdKey;

impl<T: Drop, E: OrdKey<T>> OrdMapBy<T, E> {
    /// Keeps exactly the items at which the first closure answers true, passes the others to the second by value, and
    /// returns how many these were.
    ///
    /// The first closure is called once at each item, in the order of the keys. An item at which it answers false is
    /// removed at once, and passed to the second. Otherwise it behaves as `retain`.
    ///
    /// Cost: a few steps for each item; takes no memory.
    ///
    /// Asks: the first closure may be called on these items in turn, once each, and the second with any of them in
    /// turn.
    pub fn retain_into<F: FnMut(&T) -> bool, G: FnMut(T)>(
        &mut self,
        mut keep: F,
        mut gone: G,
    ) -> usize
        requires asked { MayAskAlong (IsKeyWalk E.key_of E.cmp) (TakesAt F.FnMut) (CalledAt F.FnMut) keep
            self.old.store }
        requires given { MayGiveSomeAlong (IsKeyWalk E.key_of E.cmp) G.FnMut gone self.old.store }
        ensures retained { RetainsAlong (IsKeyWalk E.key_of E.cmp) (CalledAt F.FnMut) keep self.old self.new }
        ensures given { GivesRefusedAlong (IsKeyWalk E.key_of E.cmp) (CalledAt F.FnMut) (GivesItem G.FnMut) keep gone
            self.old.store self.new.store }
        ensures room { room self.old ≤ room self.new }
        ensures count { result + live_count self.new.store ≡ live_count self.old.store }
    {
        self.retain_with(&mut keep, &mut gone)
    }

    /// Passes each item to the closure by value, once, in the order of the keys, and returns how many there were. Then
    /// the map is empty, as after `clear`: the next index is 0.
    ///
    /// The map keeps its memory, and takes none. No key is compared. It costs a few steps for each item.
    ///
    /// Cost: a few steps for each item; takes no memory.
    ///
    /// Asks: the closure may be called with each of these items in turn.
    pub fn drain_into<F: FnMut(T)>(&mut self, mut gone: F) -> usize
        requires { MayGiveAlong (IsKeyWalk E.key_of E.cmp) F.FnMut gone self.old.store }
        ensures given { GivesAlong (IsKeyWalk E.key_of E.cmp) (GivesItem F.FnMut) gone self.old.store }
        ensures count { result ≡ live_count self.old.store }
        ensures store { self.new.store ≡ cleared self.old.store }
        ensures memory { self.new.memory ≡ self.old.memory }
        ensures room { room self.old ≤ room self.new }
    {
        let count = self.len();
        self.retain_with(&mut |_item: &T| false, &mut gone);
        self.clear();
        count
    }
}
