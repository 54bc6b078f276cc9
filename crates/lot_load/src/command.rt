//! The command line: what is run, what is written where, and with which status it ends.
ghost use Rattle.std.specs.Prelude.{◌≤◌, IfSome};
ghost use Rattle.lot_load.specs.declared.spread.TheConstants.{MOST_LOCKS};

use crate::count::{Counting, count};
use crate::gate::OpenGate;
use crate::many::many;
use crate::pool::{Pooling, pool};
use crate::relay::{Relaying, relay};
use crate::replay::replay;
use crate::spread::{Draw, MOST_LOCKS, Spreading};
use crate::witness::witness;
use lot_command::{Failure, number, report, text_of};
use lot_core::{MAX_KEYS, MAX_THREADS};
use std::alloc::Global;
use std::io::{Read, Write};
use std::sync::Wait;
use std::thread::Threads;

/// The greatest number of rounds of one thread.
const MAX_ROUNDS: u64 = 10_000;

/// The greatest number of permits.
const MAX_PERMITS: u64 = 9_999;

/// What `--help` prints.
const USAGE: &str = "\
lotstress count THREADS LOCKS ROUNDS SEED     threads count under locks; what each lock counted, and the sum
lotstress relay THREADS ROUNDS SEED           producers and consumers at a buffer; what was put and taken
lotstress pool THREADS PERMITS ROUNDS SEED    threads share permits; the rounds, and whether too many were in
lotstress many THREADS KEYS ROUNDS SEED       threads count under many locks; what they counted, and their rounds
lotstress contend THREADS LOCKS ROUNDS SEED   threads count under locks, some of them hot; which were waited for most
lotstress replay FILE                         a script of the model; the state that it leaves
lotstress witness FILE                        a script that says what was seen; whether it is a run of the model

THREADS 1 to 256 (of relay 2 to 256), LOCKS 1 to 1024, PERMITS 1 to 9999, ROUNDS 0 to 10000, SEED below 2^64;
KEYS 1 to 10000000. Numbers are decimal digits, with no sign and no leading zero.
Status: 0; 1 for words or a file that can't be taken, or an output that can't be written; 2 where the model refuses an
event, or it saw otherwise; 3 for want of memory, or where a thread can't be started.
";

/// Runs the command that the words spell, and answers its exit status: 0, or that of the failure whose text is written
/// to `faults`. Nothing is written to `out` then, unless it is `out` that fails. `file` is the file that `replay` or
/// `witness` names, where it could be opened. The one word `--help` asks what the commands are.
pub fn run_command<T: Threads + Wait + Sync, F: Read + Drop, W: Write, E: Write>(
    rt: &T,
    alloc: Global,
    words: &[&str],
    file: Option<F>,
    out: &mut W,
    faults: &mut E,
) -> u8 {
    let outcome = answer(rt, alloc, words, file);
    report(outcome, out, faults)
}

fn answer<T: Threads + Wait + Sync, F: Read + Drop>(
    rt: &T,
    alloc: Global,
    words: &[&str],
    file: Option<F>,
) -> Result<String, Failure> {
    if let ["replay" | "witness", _] = words {
        return match file {
            Some(file) => answer_of(alloc, words[0], file),
            None => Err(Failure::CannotReadFile),
        };
    }
    drop(file);
    if let ["--help"] = words {
        return text_of(alloc, USAGE);
    }
    run(rt, alloc, words)
}

/// What the command of this name says of its file.
fn answer_of<F: Read + Drop>(alloc: Global, command: &str, file: F) -> Result<String, Failure> {
    match command {
        "replay" => replay(alloc, file),
        _ => witness(alloc, file),
    }
}

fn run<T: Threads + Wait + Sync>(rt: &T, alloc: Global, words: &[&str]) -> Result<String, Failure> {
    let bad = Failure::BadCommandLine;
    let [command, numbers @ ..] = words else {
        return Err(bad);
    };
    match *command {
        "count" => count(rt, alloc, &OpenGate, &counting(numbers).ok_or(bad)?),
        "relay" => relay(rt, alloc, &OpenGate, &relaying(numbers).ok_or(bad)?),
        "pool" => pool(rt, alloc, &OpenGate, &pooling(numbers).ok_or(bad)?),
        "many" => {
            let many_locks = spreading(numbers, MOST_LOCKS).ok_or(bad)?;
            many(rt, alloc, &many_locks, Draw::Evenly)
        }
        "contend" => {
            let few_locks = spreading(numbers, MAX_KEYS).ok_or(bad)?;
            many(rt, alloc, &few_locks, Draw::Hot)
        }
        _ => Err(bad),
    }
}

fn counting(numbers: &[&str]) -> Option<Counting> {
    let Spreading {
        threads,
        locks,
        rounds,
        seed,
    } = spreading(numbers, MAX_KEYS)?;
    Some(Counting {
        threads,
        locks,
        rounds,
        seed,
    })
}

fn relaying(numbers: &[&str]) -> Option<Relaying> {
    let [threads, rounds, seed] = numbers else {
        return None;
    };
    Some(Relaying {
        threads: number(threads, 2, MAX_THREADS as u64)? as usize,
        rounds: number(rounds, 0, MAX_ROUNDS)?,
        seed: number(seed, 0, u64::MAX)?,
    })
}

fn pooling(numbers: &[&str]) -> Option<Pooling> {
    let [threads, permits, rounds, seed] = numbers else {
        return None;
    };
    Some(Pooling {
        threads: number(threads, 1, MAX_THREADS as u64)? as usize,
        permits: number(permits, 1, MAX_PERMITS)? as u32,
        rounds: number(rounds, 0, MAX_ROUNDS)?,
        seed: number(seed, 0, u64::MAX)?,
    })
}

/// With at most so many locks.
fn spreading(numbers: &[&str], most: usize) -> Option<Spreading>
    requires { most ≤ MOST_LOCKS }
    ensures { IfSome result (λ spreading. spreading.locks ≤ most) }
{
    let [threads, locks, rounds, seed] = numbers else {
        return None;
    };
    Some(Spreading {
        threads: number(threads, 1, MAX_THREADS as u64)? as usize,
        locks: number(locks, 1, most as u64)? as usize,
        rounds: number(rounds, 0, MAX_ROUNDS)?,
        seed: number(seed, 0, u64::MAX)?,
    })
}
