//! The calls of `KeyedItems`, each in a function of its own, so that each is proved once.
use super::pair::Pair;
use iddqd::internal::{ValidateChaos, ValidateCompact, ValidateRefusal};
use iddqd::item_index::ItemIndex;
use iddqd_driver::command::{Command, Reply};
use iddqd_driver::keyed_items::KeyedItems;
use std::alloc::{AllocError, Global};
use std::hash::BuildHasher;

pub(super) fn insert<S: BuildHasher>(items: &mut KeyedItems<Pair, S>, item: Pair) -> Reply<Pair> {
    match items.insert(item) {
        Ok(ix) => Reply::Inserted(ix),
        Err(refusal) => Reply::Refused(refusal),
    }
}

pub(super) fn find1<S: BuildHasher>(items: &KeyedItems<Pair, S>, key: u32) -> Option<ItemIndex> {
    items.find1(&key)
}

pub(super) fn find2<S: BuildHasher>(items: &KeyedItems<Pair, S>, key: u32) -> Option<ItemIndex> {
    items.find2(&key)
}

pub(super) fn get<S: BuildHasher>(items: &KeyedItems<Pair, S>, ix: ItemIndex) -> Option<Pair> {
    items.get(ix).copied()
}

pub(super) fn remove<S: BuildHasher>(
    items: &mut KeyedItems<Pair, S>,
    ix: ItemIndex,
) -> Option<(ItemIndex, Pair)> {
    match items.remove(ix) {
        Some(item) => Some((ix, item)),
        None => None,
    }
}

pub(super) fn remove1<S: BuildHasher>(
    items: &mut KeyedItems<Pair, S>,
    key: u32,
) -> Option<(ItemIndex, Pair)> {
    items.remove1(&key)
}

pub(super) fn remove2<S: BuildHasher>(
    items: &mut KeyedItems<Pair, S>,
    key: u32,
) -> Option<(ItemIndex, Pair)> {
    items.remove2(&key)
}

pub(super) fn overwrite<S: BuildHasher>(
    items: &mut KeyedItems<Pair, S>,
    ix: ItemIndex,
    item: Pair,
) -> Result<Pair, Pair> {
    items.overwrite(ix, item)
}

pub(super) fn compact<S: BuildHasher>(items: &mut KeyedItems<Pair, S>) -> Reply<Pair> {
    match items.compact() {
        Ok(remap) => Reply::Compacted(remap),
        Err(AllocError) => Reply::NoMemory,
    }
}

pub(super) fn clear<S: BuildHasher>(items: &mut KeyedItems<Pair, S>) -> Reply<Pair> {
    items.clear();
    Reply::Cleared
}

pub(super) fn walk<S: BuildHasher>(
    alloc: Global,
    items: &KeyedItems<Pair, S>,
) -> Result<Vec<ItemIndex>, AllocError> {
    let mut indexes = Vec::new(alloc);
    for ix in items.walk() {
        indexes.push(ix)?;
    }
    Ok(indexes)
}

/// The text of a check: `ok`, or that of the error.
pub(super) fn validate<S: BuildHasher>(
    alloc: Global,
    items: &KeyedItems<Pair, S>,
    compactness: ValidateCompact,
    chaos: ValidateChaos,
) -> Result<String, AllocError> {
    match items.validate(compactness, chaos) {
        Ok(()) => String::from_str(alloc, "ok"),
        Err(ValidateRefusal::Invalid(error)) => format!(in alloc; "{error}"),
        Err(ValidateRefusal::Memory(error)) => Err(error),
    }
}

/// The replies to the commands, or none where memory for them is refused.
pub(super) fn run<S: BuildHasher>(
    items: &mut KeyedItems<Pair, S>,
    commands: Vec<Command<Pair>>,
) -> Option<Vec<Reply<Pair>>> {
    items.run(commands).ok()
}
