//! What `replay` of the program prints of scripts, and which files it can't read.

use crate::asserts::equal_in;
use crate::texts::{check, check_file, check_refused, check_scripts, long_script, push_lines};
use lot_load::run_command;
use std::alloc::{AllocError, Global};
use std::process::Abort;
use std::sync::Wait;
use std::test::Fail;
use std::thread::Threads;

/// A script, and what is printed of it.
static REPLAYS: [(&str, &str, &str); 13] = [
    (
        "opening",
        "open 1 1 0\n",
        "lock 0 word 0 owner - line -\nthread 0 calm\n",
    ),
    (
        "handoff",
        "open 2 1 0\ntake 0 0\ntake 1 0\nmark 1 0\npark 1 0\npass 0 0 1 0\n",
        "lock 0 word 3 owner 1 line -\nthread 0 calm\nthread 1 calm\n",
    ),
    (
        "handoff_then_release",
        "open 2 1 0\ntake 0 0\ntake 1 0\nmark 1 0\npark 1 0\npass 0 0 1 0\npass 1 0 0 0\n",
        "lock 0 word 0 owner - line -\nthread 0 calm\nthread 1 calm\n",
    ),
    (
        "barging_past_a_sleeper",
        "open 4 1 0\ntake 0 0\ntake 1 0\nmark 1 0\npark 1 0\ntake 2 0\npark 2 0\npass 0 0 0 1\ntake 3 0\n",
        "lock 0 word 3 owner 3 line 2\nthread 0 calm\nthread 1 wants 0\nthread 2 wants 0\nthread 3 calm\n",
    ),
    (
        "notified_before_it_sleeps",
        "open 2 1 1\ntake 0 0\nenlist 0 1 0\ncall 1 1 0\nfree 0 0\ntake 0 0\n",
        "lock 0 word 1 owner 0 line -\ncond 1 flag 0 line -\nthread 0 calm\nthread 1 calm\n",
    ),
    (
        "enlisted_while_the_flag_was_lowered",
        "open 3 1 1\nlower 1 1\ntake 2 0\nenlist 2 1 0\nsweep 1 1\n",
        "lock 0 word 1 owner 2 line -\ncond 1 flag 1 line -\nthread 0 calm\nthread 1 calm\nthread 2 bed 1 0\n",
    ),
    (
        "the_next_call_clears_the_flag",
        "open 3 1 1\nlower 1 1\ntake 2 0\nenlist 2 1 0\nsweep 1 1\ncall 0 1 0\n",
        "lock 0 word 1 owner 2 line -\ncond 1 flag 0 line -\nthread 0 calm\nthread 1 calm\nthread 2 bed 1 0\n",
    ),
    (
        "marked_and_released_meanwhile",
        "open 3 1 0\ntake 0 0\ntake 1 0\nmark 1 0\npass 0 0 0 0\ntake 2 0\npark 1 0\n",
        "lock 0 word 1 owner 2 line -\nthread 0 calm\nthread 1 wants 0\nthread 2 calm\n",
    ),
    (
        "three_rest",
        "open 4 1 1\ntake 0 0\nenlist 0 1 0\nfree 0 0\ntake 1 0\nenlist 1 1 0\nfree 1 0\ntake 2 0\nenlist 2 1 0\nfree 2 0\n",
        "lock 0 word 0 owner - line -\ncond 1 flag 1 line 0,1,2\nthread 0 rest 1 0\nthread 1 rest 1 0\nthread 2 rest 1 0\nthread 3 calm\n",
    ),
    (
        "all_are_swept",
        "open 4 1 1\ntake 0 0\nenlist 0 1 0\nfree 0 0\ntake 1 0\nenlist 1 1 0\nfree 1 0\ntake 2 0\nenlist 2 1 0\nfree 2 0\nlower 3 1\nsweep 3 1\n",
        "lock 0 word 0 owner - line -\ncond 1 flag 0 line -\nthread 0 rest 1 0\nthread 1 rest 1 0\nthread 2 rest 1 0\nthread 3 calm\n",
    ),
    (
        "between_lower_and_sweep",
        "open 4 1 1\ntake 0 0\nenlist 0 1 0\nfree 0 0\ntake 1 0\nenlist 1 1 0\nfree 1 0\ntake 2 0\nenlist 2 1 0\nfree 2 0\nlower 3 1\n",
        "lock 0 word 0 owner - line -\ncond 1 flag 0 line 0,1,2\nthread 0 rest 1 0\nthread 1 rest 1 0\nthread 2 rest 1 0\nthread 3 sweeps 1\n",
    ),
    (
        "wait_notified_by_the_next_owner",
        "open 2 1 1\ntake 0 0\nenlist 0 1 0\ntake 1 0\nmark 1 0\npark 1 0\npass 0 0 1 0\ncall 1 1 0\npass 1 0 0 0\ntake 0 0\n",
        "lock 0 word 1 owner 0 line -\ncond 1 flag 0 line -\nthread 0 calm\nthread 1 calm\n",
    ),
    (
        "sweep_takes_who_came_after_the_lowering",
        "open 3 1 1\ntake 0 0\nenlist 0 1 0\nfree 0 0\nlower 1 1\ntake 2 0\nenlist 2 1 0\nfree 2 0\nsweep 1 1\ncall 1 1 0\n",
        "lock 0 word 0 owner - line -\ncond 1 flag 0 line -\nthread 0 rest 1 0\nthread 1 calm\nthread 2 rest 1 0\n",
    ),
];

/// A script that is refused, the fault, and the status.
static REFUSED_REPLAYS: [(&str, &str, &str, u8); 19] = [
    (
        "more_has_to_be_said",
        "open 4 1 0\ntake 0 0\ntake 1 0\nmark 1 0\npark 1 0\ntake 2 0\npark 2 0\npass 0 0 0 0\ntake 3 0\n",
        "event 7 refused\n",
        2,
    ),
    (
        "free_without_the_lock",
        "open 1 1 0\nfree 0 0\n",
        "event 1 refused\n",
        2,
    ),
    (
        "two_spaces",
        "open 1 1 0\ntry 0  0\n",
        "bad script line 2\n",
        1,
    ),
    ("too_many_threads", "open 257 1 0\n", "bad limits\n", 1),
    ("empty_file", "", "bad script line 1\n", 1),
    (
        "sweeping_thread_is_not_calm",
        "open 2 1 1\nlower 0 1\ntry 0 0\n",
        "event 2 refused\n",
        2,
    ),
    ("no_line_feed", "open 1 1 0", "bad script line 1\n", 1),
    ("leading_zero", "open 01 1 0\n", "bad script line 1\n", 1),
    ("five_digits", "open 10000 1 0\n", "bad script line 1\n", 1),
    (
        "carriage_return",
        "open 1 1 0\r\n",
        "bad script line 1\n",
        1,
    ),
    (
        "flag_of_two",
        "open 1 1 0\npass 0 0 2 0\n",
        "bad script line 2\n",
        1,
    ),
    ("empty_line", "open 1 1 0\n\n", "bad script line 2\n", 1),
    (
        "bad_line_before_bad_limits",
        "open 257 1 0\nzzz\n",
        "bad script line 2\n",
        1,
    ),
    ("no_threads", "open 0 1 0\n", "bad limits\n", 1),
    ("no_locks", "open 1 0 5\n", "bad limits\n", 1),
    ("far_too_many_threads", "open 9999 1 0\n", "bad limits\n", 1),
    ("too_many_keys", "open 64 2 1023\n", "bad limits\n", 1),
    (
        "thread_out_of_range",
        "open 1 1 0\ntry 1 0\n",
        "event 1 refused\n",
        2,
    ),
    (
        "key_out_of_range",
        "open 1 1 0\ntry 0 1\n",
        "event 1 refused\n",
        2,
    ),
];

#[test]
fn scripts_are_replayed(rt: HostRuntime) {
    check_scripts(&rt, rt.alloc(), "replay", &REPLAYS);
    check_refused(&rt, rt.alloc(), "replay", &REFUSED_REPLAYS);
}

/// The same with notifications by count.
static SOME: [(&str, &str, &str); 2] = [
    (
        "two_are_notified",
        "open 4 1 1\ntake 0 0\nenlist 0 1 0\nfree 0 0\ntake 1 0\nenlist 1 1 0\nfree 1 0\ntake 2 0\nenlist 2 1 0\nfree 2 0\nsome 3 1 2 1\n",
        "lock 0 word 0 owner - line -\ncond 1 flag 1 line 2\nthread 0 rest 1 0\nthread 1 rest 1 0\nthread 2 rest 1 0\nthread 3 calm\n",
    ),
    (
        "the_third_is_notified_too",
        "open 4 1 1\ntake 0 0\nenlist 0 1 0\nfree 0 0\ntake 1 0\nenlist 1 1 0\nfree 1 0\ntake 2 0\nenlist 2 1 0\nfree 2 0\nsome 3 1 2 1\nsome 3 1 2 0\n",
        "lock 0 word 0 owner - line -\ncond 1 flag 0 line -\nthread 0 rest 1 0\nthread 1 rest 1 0\nthread 2 rest 1 0\nthread 3 calm\n",
    ),
];

static REFUSED_SOME: [(&str, &str, &str, u8); 2] = [
    (
        "who_is_left_has_to_be_said",
        "open 4 1 1\ntake 0 0\nenlist 0 1 0\nfree 0 0\ntake 1 0\nenlist 1 1 0\nfree 1 0\ntake 2 0\nenlist 2 1 0\nfree 2 0\nsome 3 1 2 0\n",
        "event 10 refused\n",
        2,
    ),
    (
        "nobody_is_no_count",
        "open 4 1 1\ntake 0 0\nenlist 0 1 0\nfree 0 0\ntake 1 0\nenlist 1 1 0\nfree 1 0\ntake 2 0\nenlist 2 1 0\nfree 2 0\nsome 3 1 0 1\n",
        "event 10 refused\n",
        2,
    ),
];

#[test]
fn notifications_by_count_are_replayed(rt: HostRuntime) {
    check_scripts(&rt, rt.alloc(), "replay", &SOME);
    check_refused(&rt, rt.alloc(), "replay", &REFUSED_SOME);
}

/// The same with semaphores.
static PERMITS: [(&str, &str, &str); 2] = [
    (
        "permit_passed_on",
        "open 2 1 0 1\nstake 0 1\nstake 1 1\nsmark 1 1\nspark 1 1\nspass 0 1 0\n",
        "lock 0 word 0 owner - line -\nsem 1 left 1 out 0 parked 0 line -\nthread 0 calm\nthread 1 seeks 1\n",
    ),
    (
        "permit_taken_then",
        "open 2 1 0 1\nstake 0 1\nstake 1 1\nsmark 1 1\nspark 1 1\nspass 0 1 0\nstake 1 1\n",
        "lock 0 word 0 owner - line -\nsem 1 left 0 out 1 parked 0 line -\nthread 0 calm\nthread 1 calm\n",
    ),
];

static REFUSED_PERMITS: [(&str, &str, &str, u8); 1] = [(
    "permit_that_is_not_out",
    "open 1 1 0 0\nsfree 0 1\n",
    "event 1 refused\n",
    2,
)];

#[test]
fn permits_are_replayed(rt: HostRuntime) {
    check_scripts(&rt, rt.alloc(), "replay", &PERMITS);
    check_refused(&rt, rt.alloc(), "replay", &REFUSED_PERMITS);
}

/// Replays a script of so many lines after the first.
fn check_long_script<R: Threads + Wait + Sync + Abort>(
    rt: &R,
    alloc: Global,
    name: &str,
    lines: u32,
    want: (&str, &str, u8),
) -> Result<(), AllocError> {
    let script = long_script(alloc, "open 1 1 0\n", "try 0 0\n", lines)?;
    check_file(rt, alloc, "replay", name, script.as_bytes(), want);
    Ok(())
}

#[test]
fn longest_scripts(rt: HostRuntime) -> Result<(), Fail> {
    let alloc = rt.alloc();
    let owned = "lock 0 word 1 owner 0 line -\nthread 0 calm\n";
    check_long_script(&rt, alloc, "longest script", 99_999, (owned, "", 0))?;
    let fault = "bad script line 100001\n";
    check_long_script(&rt, alloc, "a line too many", 100_000, ("", fault, 1))?;
    Ok(())
}

/// What is printed of 64 threads and 1024 keys, of which so many are locks and the others conditions, where nothing has
/// happened.
fn state_of_keys(alloc: Global, locks: u16) -> Result<String, AllocError> {
    let mut state = String::new(alloc);
    push_lines(&mut state, "lock", 0..locks, "word 0 owner - line -")?;
    push_lines(&mut state, "cond", locks..1024, "flag 0 line -")?;
    push_lines(&mut state, "thread", 0..64, "calm")?;
    Ok(state)
}

/// Replays a script that opens 64 threads and 1024 keys, of which so many are locks.
fn check_keys<R: Threads + Wait + Sync + Abort>(
    rt: &R,
    alloc: Global,
    script: &str,
    locks: u16,
) -> Result<(), AllocError> {
    let state = state_of_keys(alloc, locks)?;
    let want = (state.as_str(), "", 0);
    check_file(rt, alloc, "replay", script, script.as_bytes(), want);
    Ok(())
}

#[test]
fn most_keys(rt: HostRuntime) -> Result<(), Fail> {
    check_keys(&rt, rt.alloc(), "open 64 1 1023\n", 1)?;
    check_keys(&rt, rt.alloc(), "open 64 1024 0\n", 1024)?;
    Ok(())
}

/// The lines of a script in which a thread gets a lock past a sleeper.
static BARGING: [&str; 9] = [
    "open 4 1 0\n",
    "take 0 0\n",
    "take 1 0\n",
    "mark 1 0\n",
    "park 1 0\n",
    "take 2 0\n",
    "park 2 0\n",
    "pass 0 0 0 1\n",
    "take 3 0\n",
];

/// Pushes the line of this number, and replays the script that is cut behind each of its bytes but the last.
fn push_cut_line<R: Threads + Wait + Sync + Abort>(
    rt: &R,
    alloc: Global,
    script: &mut String,
    line: &str,
    number: usize,
) -> Result<(), AllocError> {
    let fault = format!(in alloc; "bad script line {number}\n")?;
    for c in line.chars() {
        script.push(c)?;
        if c != '\n' {
            refused(
                rt,
                alloc,
                script.as_str(),
                script.as_bytes(),
                fault.as_str(),
            );
        }
    }
    Ok(())
}

/// `replay` of this script ends well and tells no fault.
fn is_replayed<R: Threads + Wait + Sync + Abort>(rt: &R, alloc: Global, script: &str) {
    let mut out = Vec::new(alloc);
    let mut faults = Vec::new(alloc);
    let file = Some(script.as_bytes());
    let status = run_command(rt, alloc, &["replay", "f"], file, &mut out, &mut faults);
    equal_in(rt, (status, faults.len()), (0, 0), script);
}

// A script that is cut within a line has a bad last line; one that is cut behind a line is a script.
#[test]
fn a_cut_script_is_answered_for_each_byte(rt: HostRuntime) -> Result<(), Fail> {
    let mut script = String::new(rt.alloc());
    for (i, line) in BARGING.iter().enumerate() {
        push_cut_line(&rt, rt.alloc(), &mut script, line, i + 1)?;
        is_replayed(&rt, rt.alloc(), script.as_str());
    }
    Ok(())
}

/// `replay` of a file with these bytes says that much.
fn refused<R: Threads + Wait + Sync + Abort>(
    rt: &R,
    alloc: Global,
    name: &str,
    bytes: &[u8],
    fault: &str,
) {
    check_file(rt, alloc, "replay", name, bytes, ("", fault, 1));
}

/// `replay` of a file of so many empty lines says that much.
fn empty_lines_refused<R: Threads + Wait + Sync + Abort>(
    rt: &R,
    alloc: Global,
    name: &str,
    lines: usize,
    fault: &str,
) -> Result<(), AllocError> {
    let bytes = vec![in alloc; b'\n'; lines]?;
    refused(rt, alloc, name, bytes.as_slice(), fault);
    Ok(())
}

#[test]
fn unreadable_files(rt: HostRuntime) -> Result<(), Fail> {
    let alloc = rt.alloc();
    let fault = "cannot read file\n";
    let want = ("", fault, 1);
    check(&rt, alloc, "no such file", &["replay", "f"], None, want);
    let not_text = b"open 1 1 0\n\xff\n".as_slice();
    refused(&rt, alloc, "not UTF-8", not_text, fault);
    empty_lines_refused(&rt, alloc, "4,000,001 bytes", 4_000_001, fault)?;
    let bad = "bad script line 1\n";
    empty_lines_refused(&rt, alloc, "4,000,000 bytes", 4_000_000, bad)?;
    Ok(())
}
