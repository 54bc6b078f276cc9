//! The program's texts and statuses.

use crate::asserts::{equal, failed, is_so, same_status, same_text};
use lot_load::run_command;
use std::alloc::{AllocError, Global};
use std::io;
use std::io::Write;
use std::ops::Range;
use std::process::Abort;
use std::sync::Wait;
use std::test::Fail;
use std::thread::Threads;

/// Runs the words, with the file, and compares what is written and the status.
pub(crate) fn check<R: Threads + Wait + Sync + Abort>(
    rt: &R,
    alloc: Global,
    name: &str,
    words: &[&str],
    file: Option<&[u8]>,
    want: (&str, &str, u8),
) {
    let mut out = Vec::new(alloc);
    let mut faults = Vec::new(alloc);
    let status = run_command(rt, alloc, words, file, &mut out, &mut faults);
    same_text(rt, out.as_slice(), want.0, name);
    same_text(rt, faults.as_slice(), want.1, name);
    same_status(rt, status, want.2, name);
}

/// The words of a line, one space between each two, or the test fails. Between two spaces an empty word lies.
fn words_of<'a>(rt: &impl Abort, alloc: Global, line: &'a str) -> Vec<&'a str> {
    let mut words = Vec::new(alloc);
    for word in line.split(' ') {
        is_so(rt, words.push(word).is_ok(), "there is memory");
    }
    words
}

/// What the line prints. It ends well, and tells no fault.
pub(crate) fn printed<R: Threads + Wait + Sync + Abort>(
    rt: &R,
    alloc: Global,
    name: &str,
    line: &str,
) -> Vec<u8> {
    let words = words_of(rt, alloc, line);
    let file: Option<&[u8]> = None;
    let (mut out, mut faults) = (Vec::new(alloc), Vec::new(alloc));
    let status = run_command(rt, alloc, words.as_slice(), file, &mut out, &mut faults);
    same_status(rt, status, 0, name);
    same_text(rt, faults.as_slice(), "", name);
    out
}

/// Runs the command with this file, and compares what is written and the status.
pub(crate) fn check_file<R: Threads + Wait + Sync + Abort>(
    rt: &R,
    alloc: Global,
    command: &str,
    name: &str,
    file: &[u8],
    want: (&str, &str, u8),
) {
    check(rt, alloc, name, &[command, "f"], Some(file), want);
}

/// Runs the command with the script of each row, and compares what is printed. It ends well, and tells no fault.
pub(crate) fn check_scripts<R: Threads + Wait + Sync + Abort>(
    rt: &R,
    alloc: Global,
    command: &str,
    rows: &[(&str, &str, &str)],
) {
    for (name, script, out) in rows {
        check_file(rt, alloc, command, name, script.as_bytes(), (*out, "", 0));
    }
}

/// Runs the command with the script of each row, and compares the fault and the status. It prints nothing.
pub(crate) fn check_refused<R: Threads + Wait + Sync + Abort>(
    rt: &R,
    alloc: Global,
    command: &str,
    rows: &[(&str, &str, &str, u8)],
) {
    for (name, script, fault, status) in rows {
        let want = ("", *fault, *status);
        check_file(rt, alloc, command, name, script.as_bytes(), want);
    }
}

/// A script of its first line and then another, so many times.
pub(crate) fn long_script(
    alloc: Global,
    opening: &str,
    line: &str,
    lines: u32,
) -> Result<String, AllocError> {
    let mut script = String::from_str(alloc, opening)?;
    for _ in 0..lines {
        script.push_str(line)?;
    }
    Ok(script)
}

/// The words are no command line.
fn are_refused<R: Threads + Wait + Sync + Abort>(
    rt: &R,
    alloc: Global,
    name: &str,
    words: &[&str],
) {
    let want = ("", "bad command line\n", 1);
    check(rt, alloc, name, words, None, want);
}

/// The line of each row is no command line.
pub(crate) fn check_refusals<R: Threads + Wait + Sync + Abort>(
    rt: &R,
    alloc: Global,
    rows: &[(&str, &str)],
) {
    for (name, line) in rows {
        let words = words_of(rt, alloc, line);
        are_refused(rt, alloc, name, words.as_slice());
    }
}

/// Runs the line of each row, and compares what is printed.
pub(crate) fn check_runs<R: Threads + Wait + Sync + Abort>(
    rt: &R,
    alloc: Global,
    rows: &[(&str, &str, &str)],
) {
    for (name, line, out) in rows {
        let words = words_of(rt, alloc, line);
        check(rt, alloc, name, words.as_slice(), None, (*out, "", 0));
    }
}

/// The same ten times, since threads take other turns each time.
fn check_runs_often<R: Threads + Wait + Sync + Abort>(
    rt: &R,
    alloc: Global,
    rows: &[(&str, &str, &str)],
) {
    for _ in 0..10u8 {
        check_runs(rt, alloc, rows);
    }
}

static WRONG_WORDS: [(&str, &str); 27] = [
    ("unknown command", "sleep 1"),
    ("replay without a file", "replay"),
    ("replay of two files", "replay a b"),
    ("count without a seed", "count 2 1 1000"),
    ("count with a word too many", "count 2 1 1000 7 7"),
    ("no threads", "count 0 1 1 0"),
    ("257 threads", "count 257 1 1 0"),
    ("no locks", "count 1 0 1 0"),
    ("1025 locks", "count 1 1025 1 0"),
    ("10001 rounds", "count 2 1 10001 0"),
    ("a leading zero", "count 2 1 01 0"),
    ("a sign", "count +2 1 1 0"),
    ("an empty word", "count  1 1 0"),
    ("a letter", "count 2 1 1x 0"),
    ("a seed of 2^64", "count 2 1 1 18446744073709551616"),
    ("relay of one thread", "relay 1 3 1"),
    ("relay of no threads", "relay 0 3 1"),
    ("relay of 257 threads", "relay 257 3 1"),
    ("relay of 10001 rounds", "relay 2 10001 1"),
    ("relay without a seed", "relay 2 3"),
    ("relay with a word too many", "relay 2 3 1 1"),
    ("relay with a leading zero", "relay 02 3 1"),
    ("relay with a letter", "relay 2 3x 1"),
    (
        "relay with a seed of 2^64",
        "relay 2 3 18446744073709551616",
    ),
    ("help with a word too many", "--help count"),
    ("help of one command", "count --help"),
    ("help without its dashes", "help"),
];

#[test]
fn wrong_words_are_refused(rt: HostRuntime) {
    are_refused(&rt, rt.alloc(), "no words", &[]);
    check_refusals(&rt, rt.alloc(), &WRONG_WORDS);
}

/// The commands, as one of the lines that help prints begins.
static COMMANDS: [&str; 7] = [
    "lotstress count THREADS LOCKS ROUNDS SEED ",
    "lotstress relay THREADS ROUNDS SEED ",
    "lotstress pool THREADS PERMITS ROUNDS SEED ",
    "lotstress many THREADS KEYS ROUNDS SEED ",
    "lotstress contend THREADS LOCKS ROUNDS SEED ",
    "lotstress replay FILE ",
    "lotstress witness FILE ",
];

#[test]
fn help_tells_each_command(rt: HostRuntime) {
    let out = printed(&rt, rt.alloc(), "help", "--help");
    let Ok(text) = str::from_utf8(out.as_slice()) else {
        failed(&rt, "help is no text")
    };
    for command in &COMMANDS {
        let is_told = text.lines().any(|line| line.starts_with(*command));
        is_so(&rt, is_told, command);
    }
}

static COUNTS: [(&str, &str, &str); 7] = [
    (
        "two threads",
        "count 2 1 1000 7",
        "lock 0 total 2000\nsum 2000\n",
    ),
    ("no rounds", "count 2 1 0 0", "lock 0 total 0\nsum 0\n"),
    (
        "three threads",
        "count 3 1 5 1",
        "lock 0 total 15\nsum 15\n",
    ),
    (
        "two locks",
        "count 3 2 5 1",
        "lock 0 total 8\nlock 1 total 7\nsum 15\n",
    ),
    ("one thread", "count 1 1 3 0", "lock 0 total 3\nsum 3\n"),
    (
        "64 threads",
        "count 64 1 100 7",
        "lock 0 total 6400\nsum 6400\n",
    ),
    (
        "three locks",
        "count 8 3 1000 1",
        "lock 0 total 2667\nlock 1 total 2667\nlock 2 total 2666\nsum 8000\n",
    ),
];

#[test]
fn all_rounds_are_counted(rt: HostRuntime) {
    check_runs_often(&rt, rt.alloc(), &COUNTS);
}

static RELAYS: [(&str, &str, &str); 6] = [
    (
        "two producers and two consumers",
        "relay 4 10 3",
        "put 20\ntaken 20\nsum 110\nbalanced\n",
    ),
    (
        "nothing to relay",
        "relay 2 0 9",
        "put 0\ntaken 0\nsum 0\nbalanced\n",
    ),
    (
        "a consumer more",
        "relay 5 3 1",
        "put 6\ntaken 6\nsum 12\nbalanced\n",
    ),
    (
        "one of each",
        "relay 2 1000 7",
        "put 1000\ntaken 1000\nsum 500500\nbalanced\n",
    ),
    (
        "the greatest seed",
        "relay 3 5 18446744073709551615",
        "put 5\ntaken 5\nsum 15\nbalanced\n",
    ),
    (
        "64 threads",
        "relay 64 500 7",
        "put 16000\ntaken 16000\nsum 4008000\nbalanced\n",
    ),
];

#[test]
fn all_numbers_are_relayed(rt: HostRuntime) {
    check_runs_often(&rt, rt.alloc(), &RELAYS);
}

static POOLS: [(&str, &str, &str); 4] = [
    (
        "four threads on two permits",
        "pool 4 2 10 1",
        "done 40\nwithin\n",
    ),
    (
        "nothing to do",
        "pool 2 9999 0 18446744073709551615",
        "done 0\nwithin\n",
    ),
    (
        "64 threads on one permit",
        "pool 64 1 100 7",
        "done 6400\nwithin\n",
    ),
    (
        "eight threads on three permits",
        "pool 8 3 1000 1",
        "done 8000\nwithin\n",
    ),
];

static WRONG_POOLS: [(&str, &str); 6] = [
    ("pool of no permits", "pool 4 0 1 1"),
    ("pool of 10000 permits", "pool 4 10000 1 1"),
    ("pool of no threads", "pool 0 1 1 1"),
    ("pool of 257 threads", "pool 257 1 1 1"),
    ("pool without a seed", "pool 4 1 1"),
    ("pool with a word too many", "pool 4 1 1 1 1"),
];

#[test]
fn permits_are_shared(rt: HostRuntime) {
    check_refusals(&rt, rt.alloc(), &WRONG_POOLS);
    check_runs_often(&rt, rt.alloc(), &POOLS);
}

/// As many threads as there may be.
static MOST_THREADS: [(&str, &str, &str); 2] = [
    (
        "256 threads that count",
        "count 256 1 2 9",
        "lock 0 total 512\nsum 512\n",
    ),
    (
        "256 threads that relay",
        "relay 256 1 0",
        "put 128\ntaken 128\nsum 128\nbalanced\n",
    ),
];

#[test]
fn most_threads(rt: HostRuntime) {
    check_runs(&rt, rt.alloc(), &MOST_THREADS);
}

/// Pushes the line of the key or the thread of this number.
fn push_line(out: &mut String, kind: &str, number: u16, end: &str) -> Result<(), AllocError> {
    writeln!(out, "{kind} {number} {end}")?;
    Ok(())
}

/// Pushes the line of each of these keys or threads.
pub(crate) fn push_lines(
    out: &mut String,
    kind: &str,
    numbers: Range<u16>,
    end: &str,
) -> Result<(), AllocError> {
    for number in numbers {
        push_line(out, kind, number, end)?;
    }
    Ok(())
}

#[test]
fn most_threads_and_locks(rt: HostRuntime) -> Result<(), Fail> {
    let mut want = String::new(rt.alloc());
    push_lines(&mut want, "lock", 0..1024, "total 0")?;
    want.push_str("sum 0\n")?;
    for threads in ["64", "256"] {
        let words = ["count", threads, "1024", "0", "18446744073709551615"];
        let want = (want.as_str(), "", 0);
        check(&rt, rt.alloc(), threads, &words, None, want);
    }
    Ok(())
}

/// A writer that takes nothing.
#[derive(Drop)]
struct Full;

impl Write for Full {
    fn write(&mut self, _buf: &[u8]) -> io::Result<usize> {
        Ok(0)
    }

    fn flush(&mut self) -> io::Result<()> {
        Ok(())
    }
}

/// Takes all bytes, and counts the writes.
#[derive(Drop)]
struct Counted {
    bytes: Vec<u8>,
    writes: u64,
}

impl Write for Counted {
    fn write(&mut self, buf: &[u8]) -> io::Result<usize> {
        self.writes = self.writes.saturating_add(1);
        self.bytes.write(buf)
    }

    fn flush(&mut self) -> io::Result<()> {
        Ok(())
    }
}

/// The status of a `count` whose output takes nothing.
fn count_into_full<R: Threads + Wait + Sync + Abort>(
    rt: &R,
    alloc: Global,
    faults: &mut Counted,
) -> u8 {
    let file: Option<&[u8]> = None;
    let words = ["count", "1", "1", "0", "0"];
    run_command(rt, alloc, &words, file, &mut Full, faults)
}

#[test]
fn output_that_cannot_be_written(rt: HostRuntime) {
    let mut faults = Counted {
        bytes: Vec::new(rt.alloc()),
        writes: 0,
    };
    let status = count_into_full(&rt, rt.alloc(), &mut faults);
    same_text(&rt, faults.bytes.as_slice(), "cannot write\n", "faults");
    equal(&rt, faults.writes, 1);
    equal(&rt, status, 1);
}
