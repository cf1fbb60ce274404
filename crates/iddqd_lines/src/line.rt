//! Lines, read as requests.
ghost use Rattle.std.specs.Prelude.{◌≡◌, ◌∷◌, []};
ghost use Rattle.std.specs.List.{slice_split};
ghost use Rattle.std.specs.Option.{option_map};
ghost use Rattle.iddqd_lines.specs.Line.{is_space, words_in, number_and_rest, command_for, command_of};
ghost use Rattle.iddqd_lines.specs.Line.{record_of, record_commands, index_commands, named, request_of, overwritten_index};

use crate::record::Record;
use crate::split::split_at_first;
use iddqd::item_index::ItemIndex;
use iddqd_driver::command::Command;

/// What ends a line.
pub(crate) const LINE_FEED: u8 = b'\n';

/// What separates two words.
pub(crate) const SPACE: u8 = b' ';

/// The most bytes of a line that is a request.
pub(crate) const MAX_LINE: usize = 128;

// The most numbers that a verb takes.
const MAX_NUMBERS: usize = 4;

/// What a line asks for.
#[derive(Drop)]
pub(crate) enum Request<C> {
    /// To obey a command.
    Run(C),
    /// To check the items; a vacant slot fails the check.
    Validate,
}

/// The request that a line is, if it is one.
pub(crate) fn parse(line: &[u8]) -> Option<Request<Command<Record>>>
    ensures { result ≡ request_of line.now }
{
    if line == b"validate".as_slice() {
        return Some(Request::Validate);
    }
    Some(Request::Run(command_in(line)?))
}

// The command that a line is. The line is split once, into a verb and the numbers behind it.
fn command_in(line: &[u8]) -> Option<Command<Record>>
    ensures { result ≡ command_of line.now }
{
    if line.len() > MAX_LINE {
        return None;
    }
    let (verb, mut behind) = split_word(line);
    let mut numbers = [0; MAX_NUMBERS];
    let mut count = 0;
    'words: while let Some(words) = behind {
        if count == MAX_NUMBERS {
            return None;
        }
        let (number, others) = split_number(words)?;
        numbers[count] = number;
        count += 1;
        behind = others;
    }
    command(verb, &numbers[..count])
}

/// The index that an overwrite names.
pub(crate) fn named_index(command: &Command<Record>) -> Option<ItemIndex>
    ensures { result ≡ overwritten_index command.now }
{
    match command {
        Command::Overwrite(ix, _) => Some(*ix),
        _ => None,
    }
}

// The command of a verb and its numbers.
fn command(verb: &[u8], numbers: &[u32]) -> Option<Command<Record>>
    ensures { result ≡ command_for verb.now numbers.now }
{
    match numbers {
        [] => lone_command(verb),
        [number] => number_command(verb, *number),
        [_, _] => None,
        [first, second, value] => record_command(verb, record(*first, *second, *value)),
        [ix, first, second, value] => {
            index_command(verb, ItemIndex::new(*ix), record(*first, *second, *value))
        }
        _ => None,
    }
}

// The command of a verb that stands alone.
fn lone_command(verb: &[u8]) -> Option<Command<Record>>
    ensures { result ≡ command_for verb.now [] }
{
    if verb == b"walk".as_slice() {
        Some(Command::Walk)
    } else if verb == b"compact".as_slice() {
        Some(Command::Compact)
    } else if verb == b"clear".as_slice() {
        Some(Command::Clear)
    } else {
        None
    }
}

// The command of a verb and one number.
fn number_command(verb: &[u8], number: u32) -> Option<Command<Record>>
    ensures { result ≡ command_for verb.now (number ∷ []) }
{
    if verb == b"get1".as_slice() {
        Some(Command::Find1(number))
    } else if verb == b"get2".as_slice() {
        Some(Command::Find2(number))
    } else if verb == b"remove".as_slice() {
        Some(Command::Remove(ItemIndex::new(number)))
    } else if verb == b"remove1".as_slice() {
        Some(Command::Remove1(number))
    } else if verb == b"remove2".as_slice() {
        Some(Command::Remove2(number))
    } else {
        None
    }
}

// The command of a verb and a record.
fn record_command(verb: &[u8], item: Record) -> Option<Command<Record>>
    ensures { result ≡ named verb.now (record_commands item) }
{
    if verb == b"insert".as_slice() {
        Some(Command::Insert(item))
    } else {
        None
    }
}

// The command of a verb, an index and a record.
fn index_command(verb: &[u8], ix: ItemIndex, item: Record) -> Option<Command<Record>>
    ensures { result ≡ named verb.now (index_commands ix item) }
{
    if verb == b"overwrite".as_slice() {
        Some(Command::Overwrite(ix, item))
    } else {
        None
    }
}

fn record(first: u32, second: u32, value: u32) -> Record
    ensures { result ≡ record_of first second value }
{
    Record {
        first,
        second,
        value,
    }
}

// The first word, and what follows the space after it.
fn split_word(words: &[u8]) -> (&[u8], Option<&[u8]>)
    ensures { slice_split is_space words.now ≡ result.0.now ∷ words_in result.1 }
{
    match split_at_first(words, SPACE) {
        Some((word, rest)) => (word, Some(rest)),
        None => (words, None),
    }
}

// The number that the first word is, and what follows the space after it. It reads the word once.
fn split_number(words: &[u8]) -> Option<(u32, Option<&[u8]>)>
    ensures { option_map (λ read. (read.0, words_in read.1)) result
        ≡ number_and_rest (slice_split is_space words.now) }
{
    let mut value = 0;
    let mut len = 0;
    'word: while len < words.len() && words[len] != SPACE {
        let byte = words[len];
        if !byte.is_ascii_digit() {
            return None;
        }
        value = 10 * value + u64::from(byte - b'0');
        if value > u64::from(u32::MAX) {
            return None;
        }
        len += 1;
    }
    if len == 0 {
        return None;
    }
    if len == words.len() {
        return Some((value as u32, None));
    }
    Some((value as u32, Some(&words[len + 1..])))
}
