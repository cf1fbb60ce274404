//! Callers of the maps and of keyed items, a module each. All are proved. The program prints what the calls of each
//! answer.
#![tactic(auto)]

mod appointments;
mod artifacts;
mod board;
mod calendar;
mod devices;
mod dispatch;
mod guests;
mod handles;
mod ledger;
mod lockers;
mod orders;
mod people;
mod purchases;
mod registry;
mod scores;
mod seats;
mod sessions;
mod stock;
mod users;
mod words;

use std::alloc::{AllocError, Global};
use std::io;
use std::process::ExitCode;
use std::random::RandomSource;

fn print(rt: &impl Print, line: Result<String, AllocError>) -> io::Result<()> {
    match line {
        Ok(line) => println!(rt; "{line}"),
        Err(AllocError) => println!(rt; "no memory"),
    }
}

// What callers answer whose keys aren't one field.
fn print_keys(rt: &impl Print, alloc: Global) -> io::Result<()> {
    print(rt, artifacts::line(alloc))?;
    print(rt, handles::line(alloc))?;
    print(rt, appointments::line(alloc))?;
    print(rt, people::line(alloc))?;
    print(rt, purchases::line(alloc))
}

fn print_all(rt: &(impl Print + RandomSource), alloc: Global) -> io::Result<()> {
    print(rt, users::line(alloc))?;
    print(rt, stock::line(alloc))?;
    print(rt, stock::hashed_line(rt, alloc))?;
    print(rt, lockers::line(alloc))?;
    print(rt, guests::line(alloc))?;
    print(rt, scores::line(alloc))?;
    print(rt, board::line(alloc))?;
    print(rt, words::line(alloc))?;
    print(rt, seats::line(alloc))?;
    print(rt, devices::line(alloc))?;
    print(rt, sessions::line(alloc))?;
    print(rt, ledger::line(alloc))?;
    print(rt, orders::line(alloc))?;
    print(rt, dispatch::line(alloc))?;
    print(rt, calendar::line(alloc))?;
    print(rt, registry::line(alloc))?;
    print_keys(rt, alloc)
}

fn main(rt: HostRuntime) -> ExitCode {
    match print_all(&rt, rt.alloc()) {
        Ok(()) => ExitCode::SUCCESS,
        Err(_) => ExitCode::FAILURE,
    }
}
