//! An issue tracker: issues by project and number, by assignee, and in each project from the newest to the oldest.
#![tactic(auto)]

use iddqd_maps::{
    ByHashMulti, ByHashOf, ByOrderMultiOf, Field, Here, InGroups, InOrder, InsertRefusal, KeyOf,
    Left, Map, Pair, Part, Reversed, Right,
};
use std::alloc::Global;
use std::io;
use std::ops::Bound;

/// An issue. No two of a project have the same number.
#[derive(Drop)]
struct Issue {
    project: u32,
    number: u32,
    assignee: u32,
    changed: u64,
    title: String,
}

// A type without values names each field that is a key, or a part of one.
enum Project {}

impl KeyOf<Issue> for Project {
    type Key = u32;

    ghost key_of = { λ issue. issue.project };

    fn key(issue: &Issue) -> &u32 {
        &issue.project
    }
}

enum Number {}

impl KeyOf<Issue> for Number {
    type Key = u32;

    ghost key_of = { λ issue. issue.number };

    fn key(issue: &Issue) -> &u32 {
        &issue.number
    }
}

enum Assignee {}

impl KeyOf<Issue> for Assignee {
    type Key = u32;

    ghost key_of = { λ issue. issue.assignee };

    fn key(issue: &Issue) -> &u32 {
        &issue.assignee
    }
}

enum Changed {}

impl KeyOf<Issue> for Changed {
    type Key = u64;

    ghost key_of = { λ issue. issue.changed };

    fn key(issue: &Issue) -> &u64 {
        &issue.changed
    }
}

// One issue has a project and a number; many have an assignee. In a project the newest come first.
type ById = ByHashOf<(Field<Project, u32>, Field<Number, u32>)>;

type ByAssignee = ByHashMulti<Assignee, u32>;

type Newest = ByOrderMultiOf<
    (
        Field<Project, u32>,
        Reversed<Field<Changed, u64>>,
        Field<Number, u32>,
    ),
>;

type Tracker = Map<Issue, Pair<ById, Pair<ByAssignee, Newest>>>;

// The place of each key in that pair of pairs.
type Id = Left<Here>;

type Whose = Right<Left<Here>>;

type When = Right<Right<Here>>;

/// Where a page ends: when its last issue was changed, and the number of that one.
type Place = (u64, u32);

/// The place in front of all issues, of which none has the number 0.
const NEWEST: Place = (u64::MAX, 0);

/// Files an issue, and says what came of it.
fn file(tracker: &mut Tracker, issue: Issue) -> &'static str {
    match tracker.insert_unique(issue) {
        Ok(_) => "filed",
        Err(InsertRefusal::Duplicate { .. }) => "the number is taken",
        Err(InsertRefusal::Full(_)) => "there are too many issues",
        Err(InsertRefusal::Memory(_)) => "out of memory",
    }
}

/// Gives an issue to somebody else, and returns whether there is such an issue. If memory ran out, the issue is
/// returned, and the tracker has it no longer.
fn assign(
    tracker: &mut Tracker,
    (project, number): (u32, u32),
    assignee: u32,
    changed: u64,
) -> Result<bool, Issue> {
    let assigned = tracker.remake_by::<Id, _, _>(
        (&project, &number),
        |issue| Issue {
            assignee,
            changed,
            ..issue
        },
    );
    match assigned {
        Ok(found) => Ok(found.is_some()),
        Err(refusal) => Err(refusal.into_item()),
    }
}

/// Prints at most `size` issues of a project behind a place, the newest first, and returns the place of the last one.
fn print_page(
    rt: &impl Print,
    tracker: &Tracker,
    project: u32,
    behind: Place,
    size: usize,
) -> io::Result<Place> {
    let from = Part::Both(&project, (&behind.0, &behind.1));
    let to = Part::First(&project);
    let page = (Bound::Excluded(from), Bound::Included(to));
    let mut place = behind;
    for (_, issue) in tracker.range_by::<When, _, _>(page).take(size) {
        println!(rt; "{}/{} {}", issue.project, issue.number, issue.title)?;
        place = (issue.changed, issue.number);
    }
    Ok(place)
}

fn new_issue(alloc: Global, number: u32, changed: u64, title: &str) -> io::Result<Issue> {
    let title = String::from_str(alloc, title)?;
    let (project, assignee) = (1, 7);
    Ok(Issue {
        project,
        number,
        assignee,
        changed,
        title,
    })
}

fn run(rt: &impl Print, alloc: Global, tracker: &mut Tracker) -> io::Result<()> {
    let first = file(tracker, new_issue(alloc, 1, 100, "no reply at the end")?);
    let second = file(tracker, new_issue(alloc, 2, 200, "a typo")?);
    let third = file(tracker, new_issue(alloc, 2, 300, "another typo")?);
    let fourth = file(tracker, new_issue(alloc, 3, 300, "slow at start")?);
    println!(rt; "{first}, {second}, {third}, {fourth}")?;
    let last = print_page(rt, tracker, 1, NEWEST, 2)?;
    println!(rt; "next page:")?;
    let _ = print_page(rt, tracker, 1, last, 2)?;
    let is_assigned = assign(tracker, (1, 1), 8, 400).is_ok_and(|found| found);
    println!(rt; "assigned: {is_assigned}; left to 7:")?;
    for (_, issue) in tracker.hashed_group_by::<Whose, _>(&7) {
        println!(rt; "{}", issue.title)?;
    }
    Ok(())
}

fn main(rt: HostRuntime) -> io::Result<()> {
    let alloc = rt.alloc();
    run(&rt, alloc, &mut Tracker::new(alloc))
}
