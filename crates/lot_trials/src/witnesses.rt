//! `lotstress witness`: its texts and statuses.

use crate::texts::{check, check_file, check_refused, check_scripts, long_script};
use std::alloc::Global;
use std::process::Abort;
use std::sync::Wait;
use std::test::Fail;
use std::thread::Threads;

/// A witness, and what is printed of it.
static WITNESSES: [(&str, &str, &str); 6] = [
    ("nothing_happened", "open 1 1 0\n", "events 0\nwitnessed\n"),
    (
        "handoff",
        "open 2 1 0\ntake 0 0 true\ntake 1 0 false\nmark 1 0 done\npark 1 0 true\npass 0 0 1 0 1\n",
        "events 5\nwitnessed\n",
    ),
    (
        "marked_and_passed_to_nobody",
        "open 2 1 0\ntry 0 0 true\ntake 1 0 false\nmark 1 0 done\nfree 0 0 false\npass 0 0 0 0 -\npark 1 0 false\n",
        "events 6\nwitnessed\n",
    ),
    (
        "called",
        "open 2 1 1\ntake 0 0 true\nenlist 0 1 0 done\nfree 0 0 true\nlook 1 1 true\ncall 1 1 0 1\ntake 0 0 true\n",
        "events 6\nwitnessed\n",
    ),
    (
        "swept",
        "open 2 1 1\ntake 0 0 true\nenlist 0 1 0 done\nfree 0 0 true\nlower 1 1 done\nsweep 1 1 1\nsome 1 1 2 1 0\n",
        "events 6\nwitnessed\n",
    ),
    (
        "permit_passed_on",
        "open 2 1 0 1\nstake 0 1 true\nstake 1 1 false\nsmark 1 1 done\nspark 1 1 true\nsfree 0 1 false\nspass 0 1 0 1\nsclear 0 1 done\n",
        "events 7\nwitnessed\n",
    ),
];

/// A witness that is refused, the fault, and the status.
static REFUSED_WITNESSES: [(&str, &str, &str, u8); 7] = [
    (
        "an_unheld_lock_that_was_missed",
        "open 1 1 0\ntake 0 0 false\n",
        "event 1 saw otherwise\n",
        2,
    ),
    (
        "handed_to_another",
        "open 3 1 0\ntake 0 0 true\ntake 1 0 false\nmark 1 0 done\npark 1 0 true\npass 0 0 1 0 2\n",
        "event 5 saw otherwise\n",
        2,
    ),
    (
        "one_called_more",
        "open 2 1 1\ntake 0 0 true\nenlist 0 1 0 done\nfree 0 0 true\ncall 1 1 0 2\n",
        "event 4 saw otherwise\n",
        2,
    ),
    (
        "freed_by_another",
        "open 2 1 0\ntake 0 0 true\nfree 1 0 true\ntake 0 0 true\n",
        "event 2 refused\n",
        2,
    ),
    ("bad_limits", "open 0 1 0\n", "bad limits\n", 1),
    (
        "bad_line_before_bad_limits",
        "open 257 1 0\ntake 0 0\n",
        "bad script line 2\n",
        1,
    ),
    (
        "bad_line_before_a_refused_event",
        "open 1 1 0\nfree 0 0 true\ntake 0 0 0\n",
        "bad script line 3\n",
        1,
    ),
];

/// Judges the witness, and compares what is written and the status.
fn judge<R: Threads + Wait + Sync + Abort>(
    rt: &R,
    alloc: Global,
    name: &str,
    witness: &str,
    want: (&str, &str, u8),
) {
    check_file(rt, alloc, "witness", name, witness.as_bytes(), want);
}

#[test]
fn witnesses_are_judged(rt: HostRuntime) {
    check_scripts(&rt, rt.alloc(), "witness", &WITNESSES);
    check_refused(&rt, rt.alloc(), "witness", &REFUSED_WITNESSES);
    let want = ("", "cannot read file\n", 1);
    check(
        &rt,
        rt.alloc(),
        "no such file",
        &["witness", "f"],
        None,
        want,
    );
}

/// Second lines that are no lines of a witness that opens one lock, one condition and one semaphore.
static BAD_LINES: [&str; 14] = [
    "take 0 0",
    "take 0 0 ",
    "take 0 0 done",
    "take 0 0 1",
    "take 0 0 True",
    "take 0 0  true",
    "take 0 0 true ",
    "take true",
    "mark 0 0 -",
    "pass 0 0 0 0 true",
    "pass 0 0 0 0 00",
    "call 0 1 0 10000",
    "call 0 1 0 -",
    "",
];

#[test]
fn what_an_event_cannot_see_is_no_line(rt: HostRuntime) -> Result<(), Fail> {
    let alloc = rt.alloc();
    let want = ("", "bad script line 2\n", 1);
    for line in &BAD_LINES {
        let witness = format!(in alloc; "open 1 1 1 1\n{line}\n")?;
        judge(&rt, alloc, line, witness.as_str(), want);
    }
    judge(&rt, alloc, "cut", "open 1 1 0\ntake 0 0 true", want);
    let want = ("", "bad script line 1\n", 1);
    judge(&rt, alloc, "empty", "", want);
    judge(&rt, alloc, "opening", "open 1 1 0 true\n", want);
    Ok(())
}

#[test]
fn longest_witnesses(rt: HostRuntime) -> Result<(), Fail> {
    let alloc = rt.alloc();
    let opening = "open 1 1 1\n";
    let line = "look 0 1 false\n";
    let longest = long_script(alloc, opening, line, 99_999)?;
    let want = ("events 99999\nwitnessed\n", "", 0);
    judge(&rt, alloc, "longest", longest.as_str(), want);
    let longer = long_script(alloc, opening, line, 100_000)?;
    let want = ("", "bad script line 100001\n", 1);
    judge(&rt, alloc, "a line too many", longer.as_str(), want);
    Ok(())
}
