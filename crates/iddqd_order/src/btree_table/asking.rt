//! A closure that is called only by `ask`, which counts the calls.
ghost use Rattle.std.specs.Prelude.{◌≡◌, ℕ, ◌+◌};
ghost use Rattle.std.specs.Borrow.{ftrue};

use iddqd::item_index::ItemIndex;
use std::marker::Model;

// A number that only proofs see. It takes no bytes.
#[derive(Drop)]
struct Count {
    pub ghost total: { ℕ },
}

impl Model for Count {
    ghost also_owns = { λ _. ftrue };
}

impl Count {
    fn new() -> Count
        ensures { result.total ≡ 0 }
    {
        Count {}
    }

    fn next(&self) -> Count
        ensures { result.total ≡ self.now.total + 1 }
    {
        Count {}
    }
}

/// A closure that is asked about indexes, and the number of asks.
///
/// Contracts see the number; it takes no bytes and no time.
#[derive(Drop)]
pub struct Asking<F> {
    closure: F,
    asks: Count,
}

#[tactic(auto, unfolding(crate::specs::Asking::closure_of, crate::specs::Asking::ask_count))]
impl<F> Asking<F> {
    ghost use Rattle.iddqd_order.specs.Asking.{closure_of, ask_count};

    /// Takes a closure, with no ask counted yet.
    pub fn new<R>(closure: F) -> Asking<F>
    where
        F: FnMut(ItemIndex) -> R,
        ensures closure { closure_of result ≡ closure }
        ensures count { ask_count result ≡ 0 }
    {
        Asking {
            closure,
            asks: Count::new(),
        }
    }

    /// Calls the closure, which may answer anything, and counts the call.
    pub fn ask<R>(&mut self, ix: ItemIndex) -> R
    where
        F: FnMut(ItemIndex) -> R,
        requires { F.pre (closure_of self.old) ix }
        ensures answered { F.step (closure_of self.old) ix result (closure_of self.new) }
        ensures count { ask_count self.new ≡ ask_count self.old + 1 }
    {
        self.asks = self.asks.next();
        (self.closure)(ix)
    }
}
