//! The indexes that a closure keeps, gathered at the front of the vector.
ghost use Rattle.std.specs.Prelude.{◌≡◌, Contains, vec_capacity};
ghost use Rattle.iddqd_order.specs.Asks.{CanAsk};
ghost use Rattle.iddqd_order.specs.Retain.{RetainsTo};

use iddqd::item_index::ItemIndex;

// Keeps the indexes at which `f` answers true, in their order. `f` is asked about each index before another one is
// written in its place.
pub(super) fn retain_in<F: FnMut(ItemIndex) -> bool>(items: &mut Vec<ItemIndex>, f: &mut F)
    requires { CanAsk F.FnMut (Contains items.old.items) f.old }
    ensures kept { RetainsTo F.FnMut f.old items.old.items items.new.items f.new }
    ensures capacity { vec_capacity items.new ≡ vec_capacity items.old }
{
    let mut kept = 0;
    for at in 0..items.len() {
        let ix = items[at];
        if f(ix) {
            items[kept] = ix;
            kept += 1;
        }
    }
    items.truncate(kept);
}
