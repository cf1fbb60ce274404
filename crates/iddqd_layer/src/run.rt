//! Lists of calls. Whatever they are, each is answered as its clauses say, and each table has each live index exactly
//! once, and no other, before and after each.
ghost use Rattle.std.specs.Prelude.{◌≡◌, ◌≤◌, ◌+◌, false, IfOk, OnErr};
ghost use Rattle.iddqd_layer.specs.Layer.{FitsItsMemory, room};
ghost use Rattle.iddqd_layer.specs.Run.{Answers, Run, Step, is_shrink, used_by};

use crate::layer::Layer;
use crate::refusal::Refusal;
use crate::way::Way;
use iddqd::index_remap::IndexRemap;
use iddqd::item_index::ItemIndex;
use std::alloc::{AllocError, Global};

/// A call that changes a layer.
#[derive(Drop)]
pub enum Command {
    /// `reserve` for so many more indexes.
    Reserve(usize),
    /// `insert` with these hashes and ways.
    Insert(Vec<u64>, Vec<Way>),
    /// `remove` of an index with these hashes and ways.
    Remove(ItemIndex, Vec<u64>, Vec<Way>),
    /// `rehash` of an index in the table of a hashed key, from one hash to another.
    Rehash(ItemIndex, usize, u64, u64),
    /// `shrink_to` so many indexes.
    ShrinkTo(usize),
    /// `clear`.
    Clear,
    /// `compact`.
    Compact,
}

/// What a call returned.
#[derive(Debug, Drop)]
pub enum Reply {
    /// By `Reserve`: there is room.
    Reserved,
    /// By `Insert`: the index, or why there is none.
    Inserted(Result<ItemIndex, Refusal>),
    /// By `Remove`: whether the index was live.
    Removed(bool),
    /// By `Rehash`: whether the index is live and there is such a key.
    Rehashed(bool),
    /// By `ShrinkTo`.
    Shrunk,
    /// By `Clear`.
    Cleared,
    /// By `Compact`: the new names.
    Compacted(IndexRemap),
    /// By `Reserve`, `ShrinkTo` or `Compact`: memory ran out.
    NoMemory,
}

impl Layer {
    /// Makes one call.
    ///
    /// Cost: that of the call.
    pub fn step(&mut self, command: &Command) -> Reply
        ensures { Step self.old command.now result self.new }
    {
        // The counts are for the proof: whoever has one knows that the tables are paired with the store.
        let _before = self.len();
        let reply = self.obey(command);
        let _after = self.len();
        reply
    }

    // What `step` does.
    fn obey(&mut self, command: &Command) -> Reply
        ensures answers { Answers self.old command.now result self.new }
        ensures fits { FitsItsMemory self.old → FitsItsMemory self.new }
        ensures room { is_shrink command.now ≡ false → room self.old ≤ room self.new + used_by result }
    {
        match command {
            Command::Reserve(additional) => match self.reserve(*additional) {
                Ok(()) => Reply::Reserved,
                Err(AllocError) => Reply::NoMemory,
            },
            Command::Insert(hashes, ways) => Reply::Inserted(self.insert(hashes, ways)),
            Command::Remove(ix, hashes, ways) => Reply::Removed(self.remove(*ix, hashes, ways)),
            Command::Rehash(ix, key, from, to) => {
                Reply::Rehashed(self.rehash(*ix, *key, *from, *to))
            }
            Command::ShrinkTo(least) => match self.shrink_to(*least) {
                Ok(()) => Reply::Shrunk,
                Err(AllocError) => Reply::NoMemory,
            },
            Command::Clear => {
                self.clear();
                Reply::Cleared
            }
            Command::Compact => match self.compact() {
                Ok(remap) => Reply::Compacted(remap),
                Err(AllocError) => Reply::NoMemory,
            },
        }
    }

    /// Makes calls in turn, and returns what each returned.
    ///
    /// The memory of the list of replies is taken first. If it runs out, no call was made.
    ///
    /// Cost: a `step` for each call; takes memory for the replies, and as each step does.
    pub fn run(&mut self, alloc: Global, commands: &[Command]) -> Result<Vec<Reply>, AllocError>
        ensures run { IfOk result (λ replies. Run self.old commands.now replies.items self.new) }
        ensures refused { OnErr result (self.new ≡ self.old) }
    {
        // For the proof too.
        let _before = self.len();
        let mut replies = Vec::with_capacity(alloc, commands.len())?;
        for command in commands {
            replies.push_reserved(self.step(command));
        }
        Ok(replies)
    }
}
