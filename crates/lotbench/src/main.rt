//! `lotbench` runs one piece of work on the locks and prints how long it took, on one line:
//!
//! - `lotbench count THREADS LOCKS ROUNDS`: each thread locks a lock by chance, adds one to its number and unlocks, so
//!   many times.
//! - `lotbench share THREADS MILLIS`: the same on one lock, for so long; how often the threads got it that got it least
//!   and most often.
//! - `lotbench relay PRODUCERS CONSUMERS ROUNDS`: producers put into a buffer, consumers take from it, and both wait on
//!   conditions.
//! - `lotbench wait THREADS HELD OUTSIDE MILLIS`: how long it takes from asking for a lock to owning it, where each
//!   thread holds it for so many nanoseconds and stays outside for so many.
//! - `lotbench fair THREADS LOCKS HELD OUTSIDE MILLIS WAY`: the longest wait, how long a wait is that goes on at a
//!   moment drawn by chance, and how evenly the threads share the rounds, on locks by chance that are held for so
//!   many nanoseconds, where WAY says that they are let go by the `clock`, `never` fairly or `always` fairly.
//! - `lotbench notify THREADS ROUNDS`: each thread notifies one on a condition, where nobody waits.
//! - `lotbench turns THREADS ROUNDS`: each thread waits for its turn on a condition of its own, and notifies the next.
//! - `lotbench permits THREADS PERMITS ROUNDS`: each thread gets a permit of one semaphore and gives it back.
//! - `lotbench keys THREADS KEYS ROUNDS`: a lot of many locks is opened, its threads register one after the other while
//!   one sleeps, lock and unlock locks by chance, and it is closed; how long each takes, and from an unlock to its
//!   sleeper.
//! - `lotbench start THREADS LOCKS`: a lot is opened and started, all its threads register, and it is closed.
//!
//! Without words it prints nothing. It stands on `lot_load`, which does the work, and on `lot_command`, which reads the
//! words and tells what came of them.
#![tactic(auto)]

use lot_command::{with_words, words};
use lot_load::measure::run_command;
use std::process::ExitCode;

fn main(rt: HostRuntime) -> ExitCode {
    let alloc = rt.alloc();
    let measure = |words: &[&str]| -> u8 {
        run_command(&rt, alloc, words, &mut rt.stdout(), &mut rt.stderr())
    };
    ExitCode::from(with_words(alloc, words(&rt, alloc), &mut rt.stderr(), measure))
}
