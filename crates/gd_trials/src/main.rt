//! Trials of a book and of an office, for what no contract says of them: that a call succeeds once memory is there, and how long it
//! takes.
//!
//! `gd_trials day` makes each of the eight calls in a small gas day of a book. Where a call finds no memory it is made once more.
//! After each call a row tells the call, or `OutOfMemory`; how many events the history has; how many nominations were
//! accepted, and of how many dekatherms; the cycle that is frozen, or 0; and for how many cycles the board has a posting.
//!
//! `gd_trials office` opens an office of two books and a session of each, makes each call of a session, accepted and
//! refused, and two rounds of the desks, holds all receipts against the books and closes the sessions. Where a call finds no
//! memory it is made once more, and so is a round of the desks in which a slot has no desk. After each call a row tells the call,
//! the name of a refusal, `OutOfMemory`, `NoThread` or, where no desk is handed back, `NoDesks`; then of each slot how many events
//! its history has, the cycle that is frozen, or 0, and for how many cycles its board has a posting; and then of each open session
//! how many calls were accepted, how many nominations, and of how many dekatherms. `gd_trials all` makes both trials.
//!
//! `gd_trials events` posts 1,000,000 capacities, and `gd_trials lines` nominates 20,000 lines ten times each, freezes and
//! publishes. Rows tell what was done, and in how many microseconds; `events` also tells the bytes of an event.
//!
//! The exit status is 2 where the word is another one, or where a trial comes to no end.
#![tactic(auto)]

mod calls;
mod day;
mod desks;
mod ends;
mod held;
mod load;
mod office;
mod opening;
mod rows;
mod settling;
mod told;
mod types;

use crate::opening::Fault;
use std::alloc::Global;
use std::env;
use std::process::ExitCode;
use std::rt::Env;
use std::sync::Wait;
use std::thread::Threads;
use std::time::Clock;

/// The first word of the command line.
fn word_of(rt: &(impl Env + Alloc<A = Global>)) -> Result<String, Fault> {
    env::args(rt)?.nth(1).ok_or(Fault::Unmade)
}

/// The word that the command line names, read once more where that finds no memory.
fn word(rt: &(impl Env + Alloc<A = Global>)) -> Result<String, Fault> {
    word_of(rt).or_else(|_| word_of(rt))
}

/// Makes a book's day and an office's calls.
fn both(rt: &(impl Threads + Wait + Clock + Print + Sync), alloc: Global) -> Result<(), Fault> {
    day::run(rt, alloc)?;
    office::run(rt, alloc)
}

/// Makes the trial of a word.
fn trial(
    rt: &(impl Threads + Wait + Clock + Print + Sync),
    alloc: Global,
    word: &str,
) -> Result<(), Fault> {
    match word {
        "day" => day::run(rt, alloc),
        "office" => office::run(rt, alloc),
        "all" => both(rt, alloc),
        "events" => load::events(rt, alloc),
        "lines" => load::lines(rt, alloc),
        _ => Err(Fault::Unmade),
    }
}

fn main(rt: HostRuntime) -> ExitCode {
    let Ok(word) = word(&rt) else {
        return ExitCode::from(2);
    };
    match trial(&rt, rt.alloc(), word.as_str()) {
        Ok(()) => ExitCode::SUCCESS,
        Err(_) => ExitCode::from(2),
    }
}
