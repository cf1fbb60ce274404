//! The table's own hasher.
//!
//! It orders nothing: `state` and `compute_hash` are kept because iddqd's table has them.
ghost use Rattle.std.specs.Prelude.{◌≡◌};
ghost use Rattle.std.specs.Hash.BuildHasherDefault.{initial_hasher};
ghost use Rattle.std.specs.Hash.FoldHasher.{initial};

use iddqd::hash_builder::DefaultHashBuilder;

// The default build hasher, which is the same in every table.
#[derive(Clone, Copy)]
pub(super) struct State {
    builder: DefaultHashBuilder,
    ghost fixed: { initial_hasher builder ≡ initial },
}

impl State {
    pub(super) fn new() -> State {
        State {
            builder: DefaultHashBuilder::default(),
        }
    }

    pub(super) fn builder(&self) -> &DefaultHashBuilder
        ensures { initial_hasher result.now ≡ initial }
    {
        &self.builder
    }
}
