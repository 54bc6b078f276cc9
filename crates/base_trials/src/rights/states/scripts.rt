//! Scripts and printed states: worked examples, bad lines, and texts that are cut.

use crate::asserts::{equal, equal_in};
use lot_core::{CoreFault, MAX_LINES, Script, ScriptFault, State, parse_script, print_state};
use std::alloc::{AllocError, Global};
use std::process::Abort;
use std::test::Fail;

// The printed state after the script, or the number of its first event that is not allowed.
fn replayed(alloc: Global, text: &str) -> Result<Result<String, usize>, Fail> {
    let script = parse_script(alloc, text)?;
    replayed_script(alloc, &script)
}

fn replayed_script(alloc: Global, script: &Script) -> Result<Result<String, usize>, Fail> {
    let mut state = State::open_with(
        alloc,
        script.threads,
        script.locks,
        script.conds,
        &script.permits,
    )?;
    match state.run(&script.events) {
        Ok(()) => Ok(Ok(print_state(alloc, &state)?)),
        Err((i, CoreFault::NotEnabled)) => Ok(Err(i)),
        Err((_, fault)) => Err(Fail::from(fault)),
    }
}

// The script leaves a state of which this is printed, or the test fails.
fn expect_printed(
    rt: &impl Abort,
    alloc: Global,
    text: &str,
    printed: &str,
    name: &str,
) -> Result<(), Fail> {
    let answer = replayed(alloc, text)?.ok().ok_or("an event was refused")?;
    equal_in(rt, answer.as_str(), printed, name);
    Ok(())
}

// The event of this number is the first that is refused, or the test fails.
fn expect_refused(
    rt: &impl Abort,
    alloc: Global,
    text: &str,
    event: usize,
    name: &str,
) -> Result<(), Fail> {
    let answer = replayed(alloc, text)?;
    equal_in(rt, answer.err(), Some(event), name);
    Ok(())
}

/// A script, and what is printed of the state that it leaves.
static PRINTED: [(&str, &str, &str); 12] = [
    (
        "opening",
        "open 1 1 0\n",
        "lock 0 word 0 owner - line -\nthread 0 calm\n",
    ),
    (
        "handoff",
        "open 2 1 0\ntake 0 0\ntake 1 0\nmark 1 0\npark 1 0\npass 0 0 1 0\n",
        "lock 0 word 3 owner 1 line -\nthread 0 calm\nthread 1 calm\n",
    ),
    (
        "barging_past_a_sleeper",
        "open 4 1 0\ntake 0 0\ntake 1 0\nmark 1 0\npark 1 0\ntake 2 0\npark 2 0\npass 0 0 0 1\ntake 3 0\n",
        "lock 0 word 3 owner 3 line 2\nthread 0 calm\nthread 1 wants 0\nthread 2 wants 0\nthread 3 calm\n",
    ),
    (
        "lowered_before_the_sweep",
        "open 4 1 1\ntake 0 0\nenlist 0 1 0\nfree 0 0\ntake 1 0\nenlist 1 1 0\nfree 1 0\ntake 2 0\nenlist 2 1 0\nfree 2 0\nlower 3 1\n",
        "lock 0 word 0 owner - line -\ncond 1 flag 0 line 0,1,2\nthread 0 rest 1 0\nthread 1 rest 1 0\nthread 2 rest 1 0\nthread 3 sweeps 1\n",
    ),
    (
        "two_of_three_are_called",
        "open 4 1 1\ntake 0 0\nenlist 0 1 0\nfree 0 0\ntake 1 0\nenlist 1 1 0\nfree 1 0\ntake 2 0\nenlist 2 1 0\nfree 2 0\nsome 3 1 2 1\n",
        "lock 0 word 0 owner - line -\ncond 1 flag 1 line 2\nthread 0 rest 1 0\nthread 1 rest 1 0\nthread 2 rest 1 0\nthread 3 calm\n",
    ),
    (
        "two_of_one_are_called",
        "open 4 1 1\ntake 0 0\nenlist 0 1 0\nfree 0 0\ntake 1 0\nenlist 1 1 0\nfree 1 0\ntake 2 0\nenlist 2 1 0\nfree 2 0\nsome 3 1 2 1\nsome 3 1 2 0\n",
        "lock 0 word 0 owner - line -\ncond 1 flag 0 line -\nthread 0 rest 1 0\nthread 1 rest 1 0\nthread 2 rest 1 0\nthread 3 calm\n",
    ),
    (
        "a_permit_is_passed_to_a_sleeper",
        "open 2 1 0 1\nstake 0 1\nstake 1 1\nsmark 1 1\nspark 1 1\nspass 0 1 0\n",
        "lock 0 word 0 owner - line -\nsem 1 left 1 out 0 parked 0 line -\nthread 0 calm\nthread 1 seeks 1\n",
    ),
    (
        "the_woken_sleeper_takes_it",
        "open 2 1 0 1\nstake 0 1\nstake 1 1\nsmark 1 1\nspark 1 1\nspass 0 1 0\nstake 1 1\n",
        "lock 0 word 0 owner - line -\nsem 1 left 0 out 1 parked 0 line -\nthread 0 calm\nthread 1 calm\n",
    ),
    (
        "nobody_is_queued_on_an_unheld_lock",
        "open 3 1 0\ntake 0 0\ntake 1 0\nmark 1 0\npark 1 0\ntake 2 0\npass 0 0 0 1\npark 2 0\n",
        "lock 0 word 2 owner - line -\nthread 0 calm\nthread 1 wants 0\nthread 2 wants 0\n",
    ),
    (
        "nobody_is_queued_on_an_unmarked_lock",
        "open 2 1 0\ntake 0 0\ntake 1 0\npark 1 0\n",
        "lock 0 word 1 owner 0 line -\nthread 0 calm\nthread 1 wants 0\n",
    ),
    (
        "nobody_is_queued_on_an_unmarked_semaphore",
        "open 2 1 0 1\nstake 0 1\nstake 1 1\nspark 1 1\n",
        "lock 0 word 0 owner - line -\nsem 1 left 0 out 1 parked 0 line -\nthread 0 calm\nthread 1 seeks 1\n",
    ),
    (
        "nobody_is_queued_where_a_permit_is_left",
        "open 2 1 0 1\nstake 0 1\nstake 1 1\nsmark 1 1\nspass 0 1 1\nspark 1 1\n",
        "lock 0 word 0 owner - line -\nsem 1 left 1 out 0 parked 1 line -\nthread 0 calm\nthread 1 seeks 1\n",
    ),
];

/// A script, and the number of its first refused event, counted from 0.
static REFUSED: [(&str, &str, usize); 5] = [
    ("look_at_a_lock", "open 1 1 0\nlook 0 0\n", 0),
    ("free_twice", "open 1 1 0\ntry 0 0\nfree 0 0\nfree 0 0\n", 2),
    (
        "more_has_to_be_said_where_one_is_left",
        "open 4 1 1\ntake 0 0\nenlist 0 1 0\nfree 0 0\ntake 1 0\nenlist 1 1 0\nfree 1 0\ntake 2 0\nenlist 2 1 0\nfree 2 0\nsome 3 1 2 0\n",
        9,
    ),
    (
        "none_are_called",
        "open 4 1 1\ntake 0 0\nenlist 0 1 0\nfree 0 0\ntake 1 0\nenlist 1 1 0\nfree 1 0\ntake 2 0\nenlist 2 1 0\nfree 2 0\nsome 3 1 0 1\n",
        9,
    ),
    ("no_permit_to_give_back", "open 1 1 0 0\nsfree 0 1\n", 0),
];

#[test]
fn nothing_answers_no_memory_for_nothing(rt: HostRuntime) -> Result<(), Fail> {
    for (name, text, printed) in &PRINTED {
        expect_printed(&rt, rt.alloc(), text, printed, name)?;
    }
    for (name, text, event) in &REFUSED {
        expect_refused(&rt, rt.alloc(), text, *event, name)?;
    }
    Ok(())
}

/// A text that is no script, and the number of its first bad line.
static BAD: [(&str, usize); 13] = [
    ("", 1),
    ("open 01 1 0\n", 1),
    ("open 10000 1 0\n", 1),
    ("open 1 1 0\r\n", 1),
    ("open 1 1\n", 1),
    ("open 1 1 0 01\n", 1),
    ("open 1 1 0 1 \n", 1),
    ("open 1 1 0\n\n", 2),
    ("open 1 1 0\ntry 0  0\n", 2),
    ("open 1 1 0\npass 0 0 2 0\n", 2),
    ("open 1 1 1\nsome 0 1 1\n", 2),
    ("open 1 1 1\ncall 0 1 1 1\n", 2),
    ("open 257 1 0\nzzz\n", 2),
];

fn expect_fault(rt: &impl Abort, alloc: Global, text: &str, wanted: Option<ScriptFault>) {
    let fault = parse_script(alloc, text).err();
    equal_in(rt, fault, wanted, text);
}

#[test]
fn the_first_bad_line_is_named(rt: HostRuntime) {
    for (text, line) in &BAD {
        expect_fault(&rt, rt.alloc(), text, Some(ScriptFault::BadLine(*line)));
    }
}

/// A release that lets a barger in past a sleeper, and the state after each of its lines.
static BARGING: [(&str, &str); 9] = [
    (
        "open 4 1 0\n",
        "lock 0 word 0 owner - line -\nthread 0 calm\nthread 1 calm\nthread 2 calm\nthread 3 calm\n",
    ),
    (
        "take 0 0\n",
        "lock 0 word 1 owner 0 line -\nthread 0 calm\nthread 1 calm\nthread 2 calm\nthread 3 calm\n",
    ),
    (
        "take 1 0\n",
        "lock 0 word 1 owner 0 line -\nthread 0 calm\nthread 1 wants 0\nthread 2 calm\nthread 3 calm\n",
    ),
    (
        "mark 1 0\n",
        "lock 0 word 3 owner 0 line -\nthread 0 calm\nthread 1 wants 0\nthread 2 calm\nthread 3 calm\n",
    ),
    (
        "park 1 0\n",
        "lock 0 word 3 owner 0 line 1\nthread 0 calm\nthread 1 wants 0\nthread 2 calm\nthread 3 calm\n",
    ),
    (
        "take 2 0\n",
        "lock 0 word 3 owner 0 line 1\nthread 0 calm\nthread 1 wants 0\nthread 2 wants 0\nthread 3 calm\n",
    ),
    (
        "park 2 0\n",
        "lock 0 word 3 owner 0 line 1,2\nthread 0 calm\nthread 1 wants 0\nthread 2 wants 0\nthread 3 calm\n",
    ),
    (
        "pass 0 0 0 1\n",
        "lock 0 word 2 owner - line 2\nthread 0 calm\nthread 1 wants 0\nthread 2 wants 0\nthread 3 calm\n",
    ),
    (
        "take 3 0\n",
        "lock 0 word 3 owner 3 line 2\nthread 0 calm\nthread 1 wants 0\nthread 2 wants 0\nthread 3 calm\n",
    ),
];

// What is wrong with a script that is cut: within a line, it has a bad last line; behind a line, nothing.
fn fault_of_cut(text: &str, lines: usize) -> Option<ScriptFault> {
    if text.ends_with('\n') {
        None
    } else {
        Some(ScriptFault::BadLine(lines))
    }
}

// Pushes the line of this number, and looks at the text before each of its bytes.
fn push_line(
    rt: &impl Abort,
    alloc: Global,
    text: &mut String,
    line: &str,
    number: usize,
) -> Result<(), Fail> {
    for c in line.chars() {
        let wanted = fault_of_cut(text.as_str(), number);
        expect_fault(rt, alloc, text.as_str(), wanted);
        text.push(c)?;
    }
    Ok(())
}

#[test]
fn a_cut_text_is_answered_for_each_byte(rt: HostRuntime) -> Result<(), Fail> {
    let mut text = String::new(rt.alloc());
    for (i, (line, printed)) in BARGING.iter().enumerate() {
        push_line(&rt, rt.alloc(), &mut text, line, i + 1)?;
        expect_printed(&rt, rt.alloc(), text.as_str(), printed, text.as_str())?;
    }
    Ok(())
}

// A script of so many lines.
fn script_of(alloc: Global, lines: usize) -> Result<String, AllocError> {
    let mut text = String::from_str(alloc, "open 1 1 1\n")?;
    for _ in 1..lines {
        text.push_str("look 0 1\n")?;
    }
    Ok(text)
}

// The script has so many events, and each is made, or the test fails.
fn expect_made(rt: &impl Abort, alloc: Global, text: &str, events: usize) -> Result<(), Fail> {
    let script = parse_script(alloc, text)?;
    equal(rt, script.events.len(), events);
    let mut state = State::open(alloc, script.threads, script.locks, script.conds)?;
    equal(rt, state.run(&script.events), Ok(()));
    Ok(())
}

#[test]
fn a_script_has_at_most_its_lines(rt: HostRuntime) -> Result<(), Fail> {
    let mut text = script_of(rt.alloc(), MAX_LINES)?;
    expect_made(&rt, rt.alloc(), text.as_str(), MAX_LINES - 1)?;
    text.push_str("look 0 1\n")?;
    let fault = parse_script(rt.alloc(), &text).err();
    equal(&rt, fault, Some(ScriptFault::BadLine(MAX_LINES + 1)));
    Ok(())
}
