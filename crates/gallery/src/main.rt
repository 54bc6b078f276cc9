//! Programs on the locks, each with its theorem (docs/GALLERY.md).
#![tactic(auto)]

mod accounts;
mod connections;
mod crew;
mod dinner;
mod latch;
mod map;
mod memo;
mod queue;
mod readers;
mod tasks;

use accounts::Totals;
use lot_command::{Failure, report};
use std::alloc::Global;
use std::fmt::Write as _;
use std::process::ExitCode;

fn main(rt: HostRuntime) -> ExitCode {
    let alloc = rt.alloc();
    let outcomes = [
        line(alloc, "came", latch::run(&rt, alloc)),
        line(alloc, "taken", queue::run(&rt, alloc)),
        line(alloc, "used", connections::run(&rt, alloc)),
        line(alloc, "counted", map::run(&rt, alloc)),
        two(alloc, accounts::run(&rt, alloc)),
        line(alloc, "known", memo::run(&rt, alloc)),
        line(alloc, "eaten", dinner::run(&rt, alloc)),
        line(alloc, "alike", readers::run(&rt, alloc)),
        line(alloc, "done", tasks::run(&rt, alloc)),
    ];
    let mut worst = 0;
    for outcome in outcomes {
        let status = report(outcome, &mut rt.stdout(), &mut rt.stderr());
        worst = worst.max(status);
    }
    ExitCode::from(worst)
}

/// What the accounts print: their sum, and what was moved.
fn two(alloc: Global, outcome: Result<Totals, Failure>) -> Result<String, Failure> {
    let Totals { sum, moved } = outcome?;
    let mut text = String::new(alloc);
    writeln!(text, "sum {sum} moved {moved}")?;
    Ok(text)
}

/// What a program prints: a word, and the number that it came to.
fn line(alloc: Global, word: &str, outcome: Result<u64, Failure>) -> Result<String, Failure> {
    let number = outcome?;
    let mut text = String::new(alloc);
    writeln!(text, "{word} {number}")?;
    Ok(text)
}
