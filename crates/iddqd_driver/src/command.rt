//! Commands to keyed items, and the replies to them.
//!
//! `Command` has no `Debug` and no equality: a derive would require them of the item, and not of its keys' types.
//! `Reply` has both.
use crate::keyed_item::KeyedItem;
use crate::keyed_items::InsertRefusal;
use iddqd::index_remap::IndexRemap;
use iddqd::item_index::ItemIndex;

/// A command to keyed items.
#[derive(Drop)]
pub enum Command<T: KeyedItem> {
    /// Insert an item, if neither of its keys is found.
    Insert(T),
    /// Find the item with this first key.
    Find1(T::Key1),
    /// Find the item with this second key.
    Find2(T::Key2),
    /// Remove the item at an index.
    Remove(ItemIndex),
    /// Remove the item with this first key.
    Remove1(T::Key1),
    /// Remove the item with this second key.
    Remove2(T::Key2),
    /// Replace the item at a live index, whatever the keys of both items. Neither table is updated.
    Overwrite(ItemIndex, T),
    /// Move every item down to its rank, so that no slot is vacant.
    Compact,
    /// Forget all items and all slots.
    Clear,
    /// List all indexes, in the order of the ordered table.
    Walk,
}

/// The reply to a command.
#[derive(Debug, PartialEq, Eq, Drop)]
pub enum Reply<T> {
    /// To `Insert`: the index of the item.
    Inserted(ItemIndex),
    /// To `Insert`: the item was refused.
    Refused(InsertRefusal<T>),
    /// To a find.
    Found(Option<ItemIndex>),
    /// To a removal: the item that was removed, and its index.
    Removed(Option<(ItemIndex, T)>),
    /// To `Overwrite`: the item that was replaced, or the given one if the index isn't live.
    Overwritten(Result<T, T>),
    /// To `Compact`: the new index of each old one.
    Compacted(IndexRemap),
    /// To `Clear`.
    Cleared,
    /// To `Walk`: all indexes.
    Walked(Vec<ItemIndex>),
    /// To `Compact` or `Walk`: memory for the reply ran out.
    NoMemory,
}
