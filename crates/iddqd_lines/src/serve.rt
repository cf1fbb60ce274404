//! The program: lines in, replies out.
//!
//! The input is read and the replies are written in blocks of fixed size, so the loop takes no memory of its own. A
//! line that ends in the block in which it began is read in place. If a line goes on in the next block, its first 128
//! bytes are kept, the most that a request may have, and whether it has more.
//!
//! Replies are written when the block has no room for one more, before each read, and at the end: so a person who types
//! sees each answer at once, and a pipe gets large writes.
ghost use Rattle.std.specs.Prelude.{◌≡◌, ◌∷◌, ◌++◌, [], List, ℕ, ◌<◌, length, Some, OnOk, IfSome, false};
ghost use Rattle.std.specs.Option.{option_and_then};
ghost use Rattle.iddqd_driver.specs.State.{empty_state};
ghost use Rattle.iddqd_lines.specs.Line.{lines_of, request_of};
ghost use Rattle.iddqd_lines.specs.Program.{hash_u32, ServesUntil, FailsAt};
ghost use Rattle.iddqd_driver.specs.Keys.{IsDefaultHasher};
ghost use Rattle.iddqd_lines.specs.Serve.{moment, kept_line, IsKept, Obeys, Feeds, RepliesTo};
ghost use Rattle.iddqd_lines.specs.declared.line.Request.TheVariants.{Run, Validate};
ghost use Rattle.iddqd_lines.specs.Stream.{FailsOnErr};

use crate::line::{LINE_FEED, Request, named_index, parse};
use crate::line_buffer::LineBuffer;
use crate::record::Record;
use crate::replies::Replies;
use crate::sink::Sink;
use crate::source::Source;
use crate::split::split_at_first;
use iddqd::hash_builder::DefaultHashBuilder;
use iddqd::internal::{ValidateChaos, ValidateCompact, ValidateRefusal, ValidationError};
use iddqd_driver::command::Command;
use iddqd_driver::keyed_items::KeyedItems;
use std::alloc::Global;
use std::fmt;
use std::hash::BuildHasher;

/// How many bytes are read at once.
const BLOCK: usize = 8192;

/// Why `serve` stopped before the end of its input.
#[derive(Clone, Copy, Debug, PartialEq, Eq)]
pub enum ServeFault {
    /// A read failed, or the reads were used up. The replies to all whole lines before that were written, and a line
    /// that had begun wasn't obeyed.
    Read,
    /// The sink failed. A prefix of the replies to the lines that were obeyed was written.
    Write,
}

impl fmt::Display for ServeFault {
    ghost use Rattle.std.specs.Prelude.{Some};
    ghost use Rattle.iddqd_lines.specs.Program.{fault_text};

    ghost output = { λ fault. Some (fault_text fault) };

    fn fmt<W: fmt::Write>(&self, f: &mut fmt::Formatter<W>) -> fmt::Result {
        match self {
            ServeFault::Read => write!(f, "read failed"),
            ServeFault::Write => write!(f, "write failed"),
        }
    }
}

/// Obeys each line of the input, and answers each with a line.
///
/// It keeps records of three numbers, the first two of which are the keys, and knows these lines:
///
/// - `insert 1 10 100` inserts a record: `inserted 0`, `duplicate 0 -`, `full` or `no memory`.
/// - `get1 1` and `get2 10` find a record by its first and by its second key: `0 1 10 100` or `none`.
/// - `remove 0`, `remove1 1` and `remove2 10` remove the record at an index, with a first key and with
///   a second key, and are answered as a find.
/// - `overwrite 0 5 10 1` replaces the record at the index, whatever the keys, and updates neither table: the
///   index and the old record, as `0 1 10 100`, or `none`. If it changes a first key, a look-up by the new key may miss
///   the record, and an insert may accept the new key again, until no record is left. If it changes a second key, a
///   look-up by second key may miss any record, and an insert may accept a second key that is there, for as long. What
///   a look-up finds still has the key. `walk` lists the index where it was.
/// - `clear` forgets all records: `cleared`.
/// - `walk` lists the indexes in the order of the second keys: `1 0 2`, `empty` or `no memory`.
/// - `compact` moves the records, in the order of their indexes, to the indexes from 0 on, and lists the new
///   index of each old one: `identity`, `permuted 0 - 1` with a dash for a vacant slot, or `no memory`.
/// - `validate` checks that the indexes of the records are those from 0 on, and in both tables: `ok`, `ItemSet is not
///   compact: 1 vacant slots`, or `no memory`. It goes over both tables once for each record.
///
/// Every other line is answered `bad line`. All replies are written before the next read. It ends at the first read or
/// write that fails, and, as at a failed read, after 18446744073709551615 reads without an end.
pub fn serve<I: Source, O: Sink>(
    alloc: Global,
    input: &mut I,
    output: &mut O,
) -> Result<(), ServeFault>
    requires reads { I.has_failed input.old ≡ false }
    requires writes { O.has_failed output.old ≡ false }

    // If the bytes of source and sink are known, each line has its reply, up to the end or the fault.
    ensures serves { IfSome (I.left input.old)
        (λ bytes. ServesUntil result bytes (I.left input.new) (O.written output.old) (O.written output.new)) }

    // At the end of the input neither has failed. At `Write` only the sink has. At `Read` the sink hasn't, and the
    // source has if its bytes are known and fewer than 18446744073709551615.
    ensures faults { FailsAt result (I.left input.old) (I.has_failed input.new) (O.has_failed output.new) }
{
    let mut items = KeyedItems::with_default_hasher(alloc);
    let mut partial = LineBuffer::new();
    let mut replies = Replies::new();
    let mut block = [0; BLOCK];
    serve_blocks(
        &mut items,
        &mut partial,
        &mut block,
        &mut replies,
        input,
        output,
    )
}

// Works on borrowed values: a function that owns them is expensive to check.
fn serve_blocks<I: Source, O: Sink>(
    items: &mut KeyedItems<Record, DefaultHashBuilder>,
    partial: &mut LineBuffer,
    block: &mut [u8],
    replies: &mut Replies,
    input: &mut I,
    output: &mut O,
) -> Result<(), ServeFault>
    requires hasher { IsDefaultHasher items.old.state.hasher }
    requires no_item { items.old.state ≡ empty_state items.old.state.hasher }
    requires no_line { partial.old ≡ Some [] }
    requires no_reply { replies.old ≡ [] }
    requires room { 0 < length block.old }
    requires reads { I.has_failed input.old ≡ false }
    requires writes { O.has_failed output.old ≡ false }
    ensures serves { IfSome (I.left input.old)
        (λ bytes. ServesUntil result bytes (I.left input.new) (O.written output.old) (O.written output.new)) }
    ensures faults { FailsAt result (I.left input.old) (I.has_failed input.new) (O.has_failed output.new) }
{
    'reads: for _ in 0..u64::MAX {
        let Ok(()) = replies.flush(output) else {
            return Err(ServeFault::Write);
        };
        let Ok(count) = input.read(block) else {
            return Err(ServeFault::Read);
        };
        if count == 0 {
            let Ok(()) = finish(items, partial, replies, output) else {
                return Err(ServeFault::Write);
            };
            return Ok(());
        }
        let bytes = &block[..count];
        let Ok(()) = feed(items, partial, bytes, replies, output) else {
            return Err(ServeFault::Write);
        };
    }
    match replies.flush(output) {
        Ok(()) => Err(ServeFault::Read),
        Err(()) => Err(ServeFault::Write),
    }
}

// Obeys the lines that these bytes end, and keeps what they begin. The error `()` is a failed write.
fn feed<S: BuildHasher, O: Sink>(
    items: &mut KeyedItems<Record, S>,
    partial: &mut LineBuffer,
    bytes: &[u8],
    replies: &mut Replies,
    output: &mut O,
) -> Result<(), ()>
    ensures feeds { let hash = hash_u32 S.BuildHasher S.Hasher.Hasher in
        let old = moment items.old.state output.old replies.old in
        let new = moment items.new.state output.new replies.new in
        (line : List ℕ) → IsKept partial.old line → Feeds hash O.Sink old line bytes.now result new partial.new }
    ensures failed { FailsOnErr (O.has_failed output.old) result (O.has_failed output.new) }
{
    let mut rest = bytes;
    while let Some((end, after)) = split_at_first(rest, LINE_FEED) {
        end_line(items, partial, end, replies, output)?;
        rest = after;
    }
    partial.extend(rest);
    Ok(())
}

// Obeys the line that has begun and ends with these bytes.
fn end_line<S: BuildHasher, O: Sink>(
    items: &mut KeyedItems<Record, S>,
    partial: &mut LineBuffer,
    end: &[u8],
    replies: &mut Replies,
    output: &mut O,
) -> Result<(), ()>
    ensures obeys { let hash = hash_u32 S.BuildHasher S.Hasher.Hasher in
        let old = moment items.old.state output.old replies.old in
        let new = moment items.new.state output.new replies.new in
        (line : List ℕ) → partial.old ≡ kept_line line → Obeys hash O.Sink old ((line ++ end.now) ∷ []) result new }
    ensures forgets { OnOk result (partial.new ≡ Some []) }
    ensures failed { FailsOnErr (O.has_failed output.old) result (O.has_failed output.new) }
{
    if partial.is_empty() {
        return obey(items, parse(end), replies, output);
    }
    partial.extend(end);
    obey(items, request_in(partial), replies, output)?;
    partial.clear();
    Ok(())
}

// At the end of the input: obeys the line that has begun, if one has, and writes all replies.
fn finish<S: BuildHasher, O: Sink>(
    items: &mut KeyedItems<Record, S>,
    last: &LineBuffer,
    replies: &mut Replies,
    output: &mut O,
) -> Result<(), ()>
    ensures obeys { let hash = hash_u32 S.BuildHasher S.Hasher.Hasher in
        let old = moment items.old.state output.old replies.old in
        let new = moment items.new.state output.new replies.new in
        (line : List ℕ) → IsKept last.now line → Obeys hash O.Sink old (lines_of line) result new }
    ensures none_waits { OnOk result (replies.new ≡ []) }
    ensures failed { FailsOnErr (O.has_failed output.old) result (O.has_failed output.new) }
{
    if last.is_empty() {
        return replies.flush(output);
    }
    obey(items, request_in(last), replies, output)?;
    replies.flush(output)
}

// The request that the line so far is, if it is one.
fn request_in(partial: &LineBuffer) -> Option<Request<Command<Record>>>
    ensures { result ≡ option_and_then request_of partial.now }
{
    parse(partial.whole()?)
}

// Answers a line that is this request. A line that is no request is a bad line.
fn obey<S: BuildHasher, O: Sink>(
    items: &mut KeyedItems<Record, S>,
    request: Option<Request<Command<Record>>>,
    replies: &mut Replies,
    output: &mut O,
) -> Result<(), ()>
    ensures obeys { let hash = hash_u32 S.BuildHasher S.Hasher.Hasher in
        let old = moment items.old.state output.old replies.old in
        let new = moment items.new.state output.new replies.new in
        (line : List ℕ) → request ≡ request_of line → Obeys hash O.Sink old (line ∷ []) result new }
    ensures failed { FailsOnErr (O.has_failed output.old) result (O.has_failed output.new) }
{
    let Some(request) = request else {
        return replies.put_line(b"bad line", output);
    };
    match request {
        Request::Run(command) => run(items, command, replies, output),
        Request::Validate => check(items, replies, output),
    }
}

// Obeys a command, and answers with the words of its reply.
fn run<S: BuildHasher, O: Sink>(
    items: &mut KeyedItems<Record, S>,
    command: Command<Record>,
    replies: &mut Replies,
    output: &mut O,
) -> Result<(), ()>
    ensures { let old = moment items.old.state output.old replies.old in
        let new = moment items.new.state output.new replies.new in
        RepliesTo (hash_u32 S.BuildHasher S.Hasher.Hasher) O.Sink old (Run command) result new }
{
    let named = named_index(&command);
    let reply = items.step(command);
    replies.put_reply(items, named, &reply, output)
}

// Answers with the outcome of a check. Store and tables are always sound, so only vacant slots can be wrong.
fn check<S: BuildHasher, O: Sink>(
    items: &KeyedItems<Record, S>,
    replies: &mut Replies,
    output: &mut O,
) -> Result<(), ()>
    ensures { let old = moment items.now.state output.old replies.old in
        let new = moment items.now.state output.new replies.new in
        RepliesTo (hash_u32 S.BuildHasher S.Hasher.Hasher) O.Sink old Validate result new }
{
    match items.validate(ValidateCompact::Compact, ValidateChaos::Yes) {
        Ok(()) => replies.put_line(b"ok", output),
        Err(ValidateRefusal::Invalid(ValidationError::General(text))) => {
            replies.put_line(text.as_bytes(), output)
        }
        Err(ValidateRefusal::Invalid(ValidationError::Table { .. })) => unreachable!(),
        Err(ValidateRefusal::Memory(_)) => replies.put_line(b"no memory", output),
    }
}
