//! Modifies an item in place. Its keys stay.
ghost use Rattle.std.specs.Prelude.{◌≡◌, ◌≤◌, Some};
ghost use Rattle.std.specs.Borrow.{MutBor};
ghost use Rattle.iddqd.specs.{get};
ghost use Rattle.iddqd_keys.specs.KeyKeeping.{KeepsKey};
ghost use Rattle.iddqd_map.specs.Map.{room};
ghost use Rattle.iddqd_map.specs.Modify.{ModifiesAt};

use super::Map;
use crate::key_index::IndexLaws;
use iddqd::item_index::ItemIndex;

impl<T, X: IndexLaws<T, S>, S> Map<T, X, S> {
    /// Calls the closure with a `&mut` to the item at an index, and returns what the closure returns; if the index has
    /// no item, it returns `None` and doesn't call the closure.
    ///
    /// The caller proves that the closure leaves the item its keys. So the tables stay as they are: the call hashes no
    /// key and takes no memory. To change a key, use `replace_at` and its like.
    ///
    /// Cost: a few steps; takes no memory.
    ///
    /// Asks: the closure may be called on the item, and leaves it its keys.
    pub fn modify_at<R, F: FnOnce(&mut T) -> R>(&mut self, ix: ItemIndex, f: F) -> Option<R>
        requires { KeepsKey F.FnOnce f X.keys (λ item. get self.old.store ix ≡ Some item) }
        ensures modifies { ModifiesAt F.FnOnce f self.old ix result self.new }
        ensures room { room self.old ≤ room self.new }
    {
        self.modify_live(ix, f)
    }

    /// Does what `modify_at` does. The clause `callable` repeats a part of `keeps`; with both, a call is much cheaper
    /// to check.
    ///
    /// Cost: a few steps; takes no memory.
    ///
    /// Asks: the closure may be called on the item, and leaves it its keys.
    pub fn modify_live<R, F: FnOnce(&mut T) -> R>(&mut self, ix: ItemIndex, f: F) -> Option<R>
        requires callable { (item : MutBor T) → get self.old.store ix ≡ Some item.now → F.FnOnce.pre f (item, tt) }
        requires keeps { KeepsKey F.FnOnce f X.keys (λ item. get self.old.store ix ≡ Some item) }
        ensures modifies { ModifiesAt F.FnOnce f self.old ix result self.new }
        ensures room { room self.old ≤ room self.new }
    {
        let item = self.items.get_mut(ix)?;
        Some(f(item))
    }
}
