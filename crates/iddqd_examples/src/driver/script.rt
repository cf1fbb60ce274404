//! Scripts of calls, and the answers to them.
//!
//! A line is a call, a colon and the answer as it prints for debugging:
//!
//! ```text
//! insert 1 10: Inserted(0)
//! overwrite 0 5 10: Overwritten(Ok(Pair(1, 10)))
//! validate compact yes: ok
//! ```
//!
//! The numbers are those of the call: an index, a key, or the first and the second key of an item. A check names its
//! modes: `compact` or `gaps`, and whether keys may have changed silently.
use super::calls::{
    clear, compact, find1, find2, get, insert, overwrite, remove, remove1, remove2, run, validate,
    walk,
};
use super::pair::Pair;
use iddqd::hash_builder::DefaultHashBuilder;
use iddqd::internal::{ValidateChaos, ValidateCompact};
use iddqd::item_index::ItemIndex;
use iddqd_driver::command::{Command, Reply};
use iddqd_driver::keyed_items::KeyedItems;
use std::alloc::{AllocError, Global};
use std::fmt::Debug;
use std::hash::BuildHasher;
use std::process::Abort;

pub(crate) fn ix(number: u32) -> ItemIndex {
    ItemIndex::new(number)
}

/// The call of a line, and its answer.
pub(crate) fn halves<'a>(rt: &impl Abort, line: &'a str) -> (&'a str, &'a str) {
    match line.split_once(": ") {
        Some(halves) => halves,
        None => panic!(rt; "no answer in {line}"),
    }
}

/// The verb of a call and its numbers, with 0 for each that it lacks.
pub(crate) fn words<'a>(rt: &impl Abort, call: &'a str) -> (&'a str, [u32; 3]) {
    match call.split_once(' ') {
        Some((verb, rest)) => (verb, numbers(rt, rest)),
        None => (call, [0; 3]),
    }
}

// The numbers of a text of digits and spaces.
fn numbers(rt: &impl Abort, text: &str) -> [u32; 3] {
    let mut numbers = [0u32; 3];
    let mut place = 0usize;
    for byte in text.as_bytes() {
        let digit = byte.wrapping_sub(b'0');
        match numbers.get_mut(place) {
            Some(number) if digit < 10 => {
                *number = number.wrapping_mul(10).wrapping_add(u32::from(digit));
            }
            Some(_) if *byte == b' ' => place = place.wrapping_add(1),
            _ => panic!(rt; "{text} is no three numbers"),
        }
    }
    numbers
}

// The modes of a check.
fn modes(rt: &impl Abort, names: &str) -> (ValidateCompact, ValidateChaos) {
    match names {
        "compact yes" => (ValidateCompact::Compact, ValidateChaos::Yes),
        "compact no" => (ValidateCompact::Compact, ValidateChaos::No),
        "gaps yes" => (ValidateCompact::NonCompact, ValidateChaos::Yes),
        "gaps no" => (ValidateCompact::NonCompact, ValidateChaos::No),
        _ => panic!(rt; "{names} are no modes"),
    }
}

fn command(rt: &impl Abort, call: &str) -> Command<Pair> {
    let (verb, [a, b, c]) = words(rt, call);
    match verb {
        "insert" => Command::Insert(Pair(a, b)),
        "find1" => Command::Find1(a),
        "find2" => Command::Find2(a),
        "remove" => Command::Remove(ix(a)),
        "remove1" => Command::Remove1(a),
        "remove2" => Command::Remove2(a),
        "overwrite" => Command::Overwrite(ix(a), Pair(b, c)),
        "compact" => Command::Compact,
        "clear" => Command::Clear,
        "walk" => Command::Walk,
        _ => panic!(rt; "{call} is no call"),
    }
}

// Whether there is a command for the call.
fn is_command(call: &str) -> bool {
    !call.starts_with("get ") && !call.starts_with("validate ")
}

// What the call of that name answers to the command.
fn reply<S: BuildHasher>(
    alloc: Global,
    items: &mut KeyedItems<Pair, S>,
    command: Command<Pair>,
) -> Result<Reply<Pair>, AllocError> {
    Ok(match command {
        Command::Insert(item) => insert(items, item),
        Command::Find1(key) => Reply::Found(find1(items, key)),
        Command::Find2(key) => Reply::Found(find2(items, key)),
        Command::Remove(ix) => Reply::Removed(remove(items, ix)),
        Command::Remove1(key) => Reply::Removed(remove1(items, key)),
        Command::Remove2(key) => Reply::Removed(remove2(items, key)),
        Command::Overwrite(ix, item) => Reply::Overwritten(overwrite(items, ix, item)),
        Command::Compact => compact(items),
        Command::Clear => clear(items),
        Command::Walk => Reply::Walked(walk(alloc, items)?),
    })
}

/// What the value prints for debugging.
pub(crate) fn printed<T: Debug>(alloc: Global, value: &T) -> Result<String, AllocError> {
    format!(in alloc; "{value:?}")
}

// What the call answers, printed.
fn answer<S: BuildHasher>(
    rt: &impl Abort,
    alloc: Global,
    items: &mut KeyedItems<Pair, S>,
    call: &str,
) -> Result<String, AllocError> {
    if let Some(names) = call.strip_prefix("validate ") {
        let (compactness, chaos) = modes(rt, names);
        return validate(alloc, items, compactness, chaos);
    }
    if !is_command(call) {
        let (_, [number, _, _]) = words(rt, call);
        return printed(alloc, &get(items, ix(number)));
    }
    printed(alloc, &reply(alloc, items, command(rt, call))?)
}

/// The answer is the one that the line wants.
pub(crate) fn assert_answer(rt: &impl Abort, answer: &String, want: &str, line: &str) {
    assert!(rt; answer.as_str() == want, "{answer} to {line}");
}

/// Each call of the script has its answer.
pub(super) fn assert_calls<S: BuildHasher>(
    rt: &impl Abort,
    alloc: Global,
    items: &mut KeyedItems<Pair, S>,
    script: &str,
) -> Result<(), AllocError> {
    for line in script.lines() {
        let (call, want) = halves(rt, line);
        let answer = answer(rt, alloc, items, call)?;
        assert_answer(rt, &answer, want, line);
    }
    Ok(())
}

fn commands(
    rt: &impl Abort,
    alloc: Global,
    script: &str,
) -> Result<Vec<Command<Pair>>, AllocError> {
    let mut commands = Vec::new(alloc);
    for line in script.lines() {
        let (call, _) = halves(rt, line);
        if is_command(call) {
            commands.push(command(rt, call))?;
        }
    }
    Ok(commands)
}

fn assert_replies(
    rt: &impl Abort,
    alloc: Global,
    replies: &[Reply<Pair>],
    script: &str,
) -> Result<(), AllocError> {
    let mut replies = replies.iter();
    for line in script.lines() {
        let (call, want) = halves(rt, line);
        if !is_command(call) {
            continue;
        }
        let Some(reply) = replies.next() else {
            panic!(rt; "no reply to {line}");
        };
        assert_answer(rt, &printed(alloc, reply)?, want, line);
    }
    assert!(rt; replies.next().is_none());
    Ok(())
}

/// A run of the script's commands has their answers.
fn assert_run<S: BuildHasher>(
    rt: &impl Abort,
    alloc: Global,
    items: &mut KeyedItems<Pair, S>,
    script: &str,
) -> Result<(), AllocError> {
    let commands = commands(rt, alloc, script)?;
    let Some(replies) = run(items, commands) else {
        panic!(rt; "memory was refused");
    };
    assert_replies(rt, alloc, replies.as_slice(), script)
}

/// From no items under that hasher and within that limit the calls answer so; once all is cleared, so does a run of
/// their commands.
pub(super) fn assert_within<S: BuildHasher + Copy>(
    rt: &impl Abort,
    alloc: Global,
    hasher: S,
    limit: u32,
    script: &str,
) -> Result<(), AllocError> {
    let mut items = KeyedItems::with_limit(alloc, hasher, limit);
    assert_calls(rt, alloc, &mut items, script)?;
    items.clear();
    assert_run(rt, alloc, &mut items, script)
}

/// The script is answered under the hasher of the program.
pub(super) fn assert_script(
    rt: &impl Abort,
    alloc: Global,
    script: &str,
) -> Result<(), AllocError> {
    assert_within(rt, alloc, DefaultHashBuilder::default(), u32::MAX, script)
}
