//! Replies, gathered in one block before they are written.
ghost use Rattle.std.specs.Prelude.{◌≡◌, ◌++◌, ◌∷◌, ◌+◌, ◌<◌, ◌≤◌, [], length, codes, OnOk};
ghost use Rattle.std.specs.Fmt.{decimal};
ghost use Rattle.std.specs.List.{flat_map};
ghost use Rattle.iddqd_lines.specs.Line.{line_feed, record_text, found_text, removed_text, overwritten_text};
ghost use Rattle.iddqd_lines.specs.Line.{walk_text, remap_text, text_of};
ghost use Rattle.iddqd.specs.{index_or_dash};
ghost use Rattle.iddqd_driver.specs.{refusal_text};
ghost use Rattle.iddqd_lines.specs.Replies.{Sends, Puts, spaced, spaced_name};

use crate::digits::{Digits, MAX_DIGITS};
use crate::line::{LINE_FEED, SPACE};
use crate::record::Record;
use crate::sink::Sink;
use iddqd::index_remap::IndexRemap;
use iddqd::item_index::ItemIndex;
use iddqd_driver::command::Reply;
use iddqd_driver::keyed_items::{InsertRefusal, KeyedItems};
use std::hash::BuildHasher;
use std::marker::Model;

/// How many bytes of replies wait at most.
const BLOCK: usize = 8192;

/// The most bytes that are put between two checks for room: a reply's line without its list, or one
/// index of a list, with the line feed.
pub(crate) const MAX_REPLY: usize = 64;

// `MAX_REPLY` without the line feed.
const MAX_TEXT: usize = MAX_REPLY - 1;

/// The replies that wait to be written.
#[derive(Drop)]
pub(crate) struct Replies {
    bytes: [u8; BLOCK],
    len: usize,
}

impl Model for Replies {
    ghost use Rattle.std.specs.Prelude.{List, ℕ, take, ◌≤◌};
    ghost use Rattle.iddqd_lines.specs.declared.replies.TheConstants.{BLOCK};

    ghost Value = { List ℕ };

    ghost view = { λ r. take r.len r.bytes };

    ghost invariant = { λ r. r.len ≤ BLOCK };
}

/// Writes all bytes, or a prefix of them if the sink fails.
pub(crate) fn write_all<O: Sink>(output: &mut O, bytes: &[u8]) -> Result<(), ()>
    ensures { Sends O.Sink output.old [] bytes.now result output.new [] }
{
    let mut at = 0;
    while at < bytes.len() {
        at += output.write(&bytes[at..])?;
    }
    Ok(())
}

impl Replies {
    /// No reply.
    pub(crate) fn new() -> Replies
        ensures { result ≡ [] }
    {
        Replies {
            bytes: [0; BLOCK],
            len: 0,
        }
    }

    /// Writes all that waits.
    pub(crate) fn flush<O: Sink>(&mut self, output: &mut O) -> Result<(), ()>
        ensures none_waits { OnOk result (self.new ≡ []) }
        ensures sends { Sends O.Sink output.old self.old [] result output.new self.new }
    {
        write_all(output, &self.bytes[..self.len])?;
        self.len = 0;
        Ok(())
    }

    // Makes room for one more reply: if there is none, it writes those that wait.
    fn make_room<O: Sink>(&mut self, output: &mut O) -> Result<(), ()>
        ensures room { OnOk result (length self.new + MAX_REPLY ≤ BLOCK) }
        ensures sends { Sends O.Sink output.old self.old [] result output.new self.new }
    {
        if self.len <= BLOCK - MAX_REPLY {
            return Ok(());
        }
        self.flush(output)
    }

    /// Appends the reply's line, over the items as the command left them; `named` is the index that an overwrite named.
    /// If there is no room, it first writes what waits, also within a long list.
    pub(crate) fn put_reply<S: BuildHasher, O: Sink>(
        &mut self,
        items: &KeyedItems<Record, S>,
        named: Option<ItemIndex>,
        reply: &Reply<Record>,
        output: &mut O,
    ) -> Result<(), ()>
        ensures { let text = text_of items.now.state.store named reply.now in
            Sends O.Sink output.old self.old (text ++ line_feed ∷ []) result output.new self.new }
    {
        self.make_room(output)?;
        self.put_words(items, named, reply, output)?;
        self.put(LINE_FEED);
        Ok(())
    }

    // The reply without its line feed.
    fn put_words<S: BuildHasher, O: Sink>(
        &mut self,
        items: &KeyedItems<Record, S>,
        named: Option<ItemIndex>,
        reply: &Reply<Record>,
        output: &mut O,
    ) -> Result<(), ()>
        requires { length self.old + MAX_REPLY ≤ BLOCK }
        ensures room { OnOk result (length self.new < BLOCK) }
        ensures sends { let text = text_of items.now.state.store named reply.now in
            Sends O.Sink output.old self.old text result output.new self.new }
    {
        match reply {
            Reply::Compacted(remap) => return self.put_remap(remap, output),
            Reply::Walked(indexes) => return self.put_walk(indexes, output),
            Reply::Inserted(ix) => self.put_inserted(*ix),
            Reply::Refused(refusal) => self.put_refusal(refusal),
            Reply::Found(found) => self.put_found(items, *found),
            Reply::Removed(removed) => self.put_removed(removed),
            Reply::Overwritten(outcome) => self.put_overwritten(named, outcome),
            Reply::Cleared => self.put_bytes(b"cleared"),
            Reply::NoMemory => self.put_bytes(b"no memory"),
        }
        Ok(())
    }

    // The indexes, with one space between.
    fn put_walk<O: Sink>(&mut self, indexes: &[ItemIndex], output: &mut O) -> Result<(), ()>
        requires { length self.old + MAX_REPLY ≤ BLOCK }
        ensures room { OnOk result (length self.new < BLOCK) }
        ensures sends { Sends O.Sink output.old self.old (walk_text indexes.now) result output.new self.new }
    {
        match indexes.split_first() {
            Some((first, rest)) => {
                self.put_number(first.as_u32());
                self.put_indexes(rest, output)
            }
            None => {
                self.put_bytes(b"empty");
                Ok(())
            }
        }
    }

    // The new indexes.
    fn put_remap<O: Sink>(&mut self, remap: &IndexRemap, output: &mut O) -> Result<(), ()>
        requires { length self.old + MAX_REPLY ≤ BLOCK }
        ensures room { OnOk result (length self.new < BLOCK) }
        ensures sends { Sends O.Sink output.old self.old (remap_text remap.now) result output.new self.new }
    {
        match remap {
            IndexRemap::Identity => {
                self.put_bytes(b"identity");
                Ok(())
            }
            IndexRemap::Permuted(names) => {
                self.put_bytes(b"permuted");
                self.put_names(names, output)
            }
        }
    }

    // The new indexes, with a space before each. It makes room before each, and behind the last.
    fn put_names<O: Sink>(&mut self, names: &[ItemIndex], output: &mut O) -> Result<(), ()>
        ensures room { OnOk result (length self.new + MAX_REPLY ≤ BLOCK) }
        ensures sends { Sends O.Sink output.old self.old (flat_map spaced_name names.now) result output.new self.new }
    {
        for name in names {
            self.make_room(output)?;
            self.put_name(*name);
        }
        self.make_room(output)
    }

    // The indexes, with a space before each. It makes room before each, and behind the last.
    fn put_indexes<O: Sink>(&mut self, indexes: &[ItemIndex], output: &mut O) -> Result<(), ()>
        ensures room { OnOk result (length self.new + MAX_REPLY ≤ BLOCK) }
        ensures sends { Sends O.Sink output.old self.old (flat_map spaced indexes.now) result output.new self.new }
    {
        for ix in indexes {
            self.make_room(output)?;
            self.put_spaced(*ix);
        }
        self.make_room(output)
    }

    /// Appends a line of this text, which is shorter than a reply may be. If there is no room, it first writes what
    /// waits.
    pub(crate) fn put_line<O: Sink>(&mut self, text: &[u8], output: &mut O) -> Result<(), ()>
        requires { length text.now < MAX_REPLY }
        ensures { Sends O.Sink output.old self.old (text.now ++ line_feed ∷ []) result output.new self.new }
    {
        self.make_room(output)?;
        self.put_bytes(text);
        self.put_bytes(b"\n");
        Ok(())
    }

    // The index of a new item.
    fn put_inserted(&mut self, ix: ItemIndex)
        requires { length self.old + MAX_REPLY ≤ BLOCK }
        ensures { Puts MAX_TEXT self.old (codes "inserted " ++ decimal ix) self.new }
    {
        self.put_bytes(b"inserted ");
        self.put_number(ix.as_u32());
    }

    // The index that was found and its record, if there is one.
    fn put_found<S: BuildHasher>(&mut self, items: &KeyedItems<Record, S>, found: Option<ItemIndex>)
        requires { length self.old + MAX_REPLY ≤ BLOCK }
        ensures { Puts MAX_TEXT self.old (found_text items.now.state.store found) self.new }
    {
        let Some(ix) = found else {
            self.put_bytes(b"none");
            return;
        };
        match items.get(ix) {
            Some(record) => self.put_record(ix, record),
            None => self.put_bytes(b"none"),
        }
    }

    // The index and the record that were removed, if there were any.
    fn put_removed(&mut self, removed: &Option<(ItemIndex, Record)>)
        requires { length self.old + MAX_REPLY ≤ BLOCK }
        ensures { Puts MAX_TEXT self.old (removed_text removed.now) self.new }
    {
        match removed {
            Some((ix, record)) => self.put_record(*ix, record),
            None => self.put_bytes(b"none"),
        }
    }

    // Why an item was refused.
    fn put_refusal(&mut self, refusal: &InsertRefusal<Record>)
        requires { length self.old + MAX_REPLY ≤ BLOCK }
        ensures { Puts MAX_TEXT self.old (refusal_text refusal.now) self.new }
    {
        match refusal {
            InsertRefusal::Duplicate { first, second, .. } => {
                self.put_bytes(b"duplicate ");
                self.put_index(first);
                self.put(SPACE);
                self.put_index(second);
            }
            InsertRefusal::Full(_) => self.put_bytes(b"full"),
            InsertRefusal::Memory(_) => self.put_bytes(b"no memory"),
        }
    }

    // The index that an overwrite named and the record that it had, or that it isn't live.
    fn put_overwritten(&mut self, named: Option<ItemIndex>, outcome: &Result<Record, Record>)
        requires { length self.old + MAX_REPLY ≤ BLOCK }
        ensures { Puts MAX_TEXT self.old (overwritten_text named outcome.now) self.new }
    {
        match (named, outcome) {
            (Some(ix), Ok(was)) => self.put_record(ix, was),
            _ => self.put_bytes(b"none"),
        }
    }

    // An index and its record.
    fn put_record(&mut self, ix: ItemIndex, entry: &Record)
        requires { length self.old + MAX_REPLY ≤ BLOCK }
        ensures { Puts MAX_TEXT self.old (record_text ix entry.now) self.new }
    {
        self.put_number(ix.as_u32());
        self.put(SPACE);
        self.put_number(entry.first);
        self.put(SPACE);
        self.put_number(entry.second);
        self.put(SPACE);
        self.put_number(entry.value);
    }

    // An index, or a dash for none.
    fn put_index(&mut self, ix: &Option<ItemIndex>)
        requires { length self.old + MAX_DIGITS ≤ BLOCK }
        ensures { Puts MAX_DIGITS self.old (index_or_dash ix.now) self.new }
    {
        match ix {
            Some(ix) => self.put_number(ix.as_u32()),
            None => self.put(b'-'),
        }
    }

    // An index with a space before it.
    fn put_spaced(&mut self, ix: ItemIndex)
        requires { length self.old + MAX_REPLY ≤ BLOCK }
        ensures { Puts MAX_TEXT self.old (spaced ix) self.new }
    {
        self.put_bytes(b" ");
        self.put_number(ix.as_u32());
    }

    // A new index, or a dash for a slot that was vacant, with a space before it.
    fn put_name(&mut self, name: ItemIndex)
        requires { length self.old + MAX_REPLY ≤ BLOCK }
        ensures { Puts MAX_TEXT self.old (spaced_name name) self.new }
    {
        self.put(SPACE);
        if name == ItemIndex::SENTINEL {
            self.put(b'-');
        } else {
            self.put_number(name.as_u32());
        }
    }

    fn put_number(&mut self, number: u32)
        requires { length self.old + MAX_DIGITS ≤ BLOCK }
        ensures { Puts MAX_DIGITS self.old (decimal number) self.new }
    {
        self.put_bytes(Digits::of(number).as_slice());
    }

    fn put_bytes(&mut self, bytes: &[u8])
        requires { length self.old + length bytes.now ≤ BLOCK }
        ensures { Puts (length bytes.now) self.old bytes.now self.new }
    {
        for byte in bytes {
            self.put(*byte);
        }
    }

    fn put(&mut self, byte: u8)
        requires { length self.old < BLOCK }
        ensures { Puts 1 self.old (byte ∷ []) self.new }
    {
        self.bytes[self.len] = byte;
        self.len += 1;
    }
}
