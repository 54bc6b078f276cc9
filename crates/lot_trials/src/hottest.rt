//! What `contend` of the program prints: what was counted, and the locks that were waited for most.

use crate::asserts::{failed, is_so};
use crate::texts::{check_refusals, check_runs, printed};
use std::alloc::Global;
use std::process::Abort;
use std::sync::Wait;
use std::thread::Threads;

/// Where one thread counts, or none does, nobody parks: no lock is told of.
static ALONE: [(&str, &str, &str); 5] = [
    (
        "one thread",
        "contend 1 4 10 7",
        "locks 4 total 10\nsum 10\n",
    ),
    (
        "one lock",
        "contend 1 1 100 18446744073709551615",
        "locks 1 total 100\nsum 100\n",
    ),
    (
        "most locks",
        "contend 1 1024 10 0",
        "locks 1024 total 10\nsum 10\n",
    ),
    ("no rounds", "contend 2 1 0 0", "locks 1 total 0\nsum 0\n"),
    (
        "no rounds of most threads",
        "contend 256 3 0 1",
        "locks 3 total 0\nsum 0\n",
    ),
];

static WRONG: [(&str, &str); 10] = [
    ("contend of no threads", "contend 0 1 1 1"),
    ("contend of 257 threads", "contend 257 1 1 1"),
    ("contend of no locks", "contend 1 0 1 1"),
    ("contend of 1025 locks", "contend 1 1025 1 1"),
    ("contend of 10001 rounds", "contend 1 1 10001 1"),
    (
        "contend of a seed of 2^64",
        "contend 1 1 1 18446744073709551616",
    ),
    ("contend with a leading zero", "contend 1 01 1 1"),
    ("contend with a letter", "contend 1 1 1x 1"),
    ("contend without a seed", "contend 1 1 1"),
    ("contend with a word too many", "contend 1 1 1 1 1"),
];

#[test]
fn nobody_waits_where_one_thread_counts(rt: HostRuntime) {
    check_refusals(&rt, rt.alloc(), &WRONG);
    check_runs(&rt, rt.alloc(), &ALONE);
}

/// Several threads, and what is counted of them.
static SEVERAL: [(&str, &str, &str); 4] = [
    (
        "two threads on one lock",
        "contend 2 1 200 7",
        "locks 1 total 400\nsum 400\n",
    ),
    (
        "eight threads on four locks",
        "contend 8 4 100 1",
        "locks 4 total 800\nsum 800\n",
    ),
    (
        "four threads on sixteen locks",
        "contend 4 16 200 7",
        "locks 16 total 800\nsum 800\n",
    ),
    (
        "64 threads on most locks",
        "contend 64 1024 10 9",
        "locks 1024 total 640\nsum 640\n",
    ),
];

/// How many locks are told of at most.
const MOST_TOLD: usize = 8;

/// What a line tells of a lock: how many parked, how many were taken from its wait queue, and how many were handed it.
fn numbers_of(line: &str) -> Option<(u64, u64, u64)> {
    let (_, rest) = line.split_once(" parked ")?;
    let (parked, rest) = rest.split_once(" taken ")?;
    let (taken, rest) = rest.split_once(" handed ")?;
    let (handed, _) = rest.split_once(" again ")?;
    Some((
        parked.parse::<u64>().ok()?,
        taken.parse::<u64>().ok()?,
        handed.parse::<u64>().ok()?,
    ))
}

/// How many parked on the lock of this line: some, all of whom were taken. Of these some were handed the lock, or none.
fn parked_in(rt: &impl Abort, line: &str) -> u64 {
    let Some((parked, taken, handed)) = numbers_of(line) else {
        failed(rt, "a line without its numbers")
    };
    is_so(rt, parked == taken && handed <= taken && parked > 0, line);
    parked
}

/// The lines of the locks begin with the hottest.
fn are_in_order(rt: &impl Abort, text: &str, name: &str) {
    let mut before = u64::MAX;
    let mut told = 0usize;
    for line in text.lines() {
        let parked = parked_in(rt, line);
        is_so(rt, parked <= before, name);
        before = parked;
        told = told.saturating_add(1);
    }
    is_so(rt, told <= MOST_TOLD, name);
}

/// Runs the line: what is counted is printed first, and then a line for each of the hottest locks.
fn check_hot<R: Threads + Wait + Sync + Abort>(
    rt: &R,
    alloc: Global,
    name: &str,
    line: &str,
    head: &str,
) {
    let out = printed(rt, alloc, name, line);
    let Ok(text) = str::from_utf8(out.as_slice()) else {
        failed(rt, "no text was printed")
    };
    match text.strip_prefix(head) {
        Some(lines) => are_in_order(rt, lines, name),
        None => failed(rt, name),
    }
}

#[test]
fn the_hottest_locks_are_told_first(rt: HostRuntime) {
    for (name, line, head) in &SEVERAL {
        check_hot(&rt, rt.alloc(), name, line, head);
    }
}
