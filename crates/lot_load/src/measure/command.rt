//! The command line: what is run and written, and with which status it ends.
use super::crew::run;
use super::keys::{keys_of, measure_keys};
use super::plan::plan_of;
use lot_command::{Failure, report};
use std::alloc::Global;
use std::io::Write;
use std::sync::Wait;
use std::thread::Threads;
use std::time::Clock;

/// Runs the command that the words spell and writes its line; without words nothing. Answers the exit status.
pub fn run_command<T: Threads + Wait + Clock + Sync, W: Write, E: Write>(
    rt: &T,
    alloc: Global,
    words: &[&str],
    out: &mut W,
    faults: &mut E,
) -> u8 {
    if words.is_empty() {
        return 0;
    }
    report(text_of(rt, alloc, words), out, faults)
}

fn text_of<T: Threads + Wait + Clock + Sync>(
    rt: &T,
    alloc: Global,
    words: &[&str],
) -> Result<String, Failure> {
    if let ["keys", numbers @ ..] = words {
        let keys = keys_of(numbers).ok_or(Failure::BadCommandLine)?;
        return measure_keys(rt, alloc, &keys)?.line(alloc, words);
    }
    let plan = plan_of(words).ok_or(Failure::BadCommandLine)?;
    run(rt, alloc, &plan)?.line(alloc, &plan, words)
}
