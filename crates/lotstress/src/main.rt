//! `lotstress` runs locks under load, and schedules through the proved model:
//!
//! - `lotstress count THREADS LOCKS ROUNDS SEED`: workers lock, count and unlock; prints what each lock counted.
//! - `lotstress relay THREADS ROUNDS SEED`: producers put numbers into a buffer, consumers take them, and both wait on
//!   conditions; prints what was put and taken, and whether the conditions' ledger is balanced.
//! - `lotstress pool THREADS PERMITS ROUNDS SEED`: workers share the permits of a semaphore; prints how many rounds
//!   were done, and whether never more workers than permits were in.
//! - `lotstress many THREADS KEYS ROUNDS SEED`: workers lock one of many keys, count and unlock; prints what all keys
//!   counted, and how many rounds were done.
//! - `lotstress contend THREADS LOCKS ROUNDS SEED`: workers count under locks of which some are hotter than others;
//!   prints what all locks counted, how many rounds were done, and the locks that were waited for most.
//! - `lotstress replay FILE`: runs a script of events and prints the state that it leaves.
//! - `lotstress witness FILE`: says whether a script that says what was seen is a run of the model.
//!
//! It stands on `lot_load`, which runs them, and on `lot_command`, which reads the words and tells what came of them.
#![tactic(auto)]

use lot_command::{with_words, words};
use lot_load::run_command;
use std::fs::File;
use std::process::ExitCode;

fn main(rt: HostRuntime) -> ExitCode {
    let alloc = rt.alloc();
    let run = |words: &[&str]| -> u8 {
        let file = match words {
            ["replay" | "witness", path] => File::open(&rt, *path).ok(),
            _ => None,
        };
        let (mut out, mut faults) = (rt.stdout(), rt.stderr());
        run_command(&rt, alloc, words, file, &mut out, &mut faults)
    };
    ExitCode::from(with_words(alloc, words(&rt, alloc), &mut rt.stderr(), run))
}
