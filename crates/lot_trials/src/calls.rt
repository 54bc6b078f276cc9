//! Calls of one thread, where memory may be refused: a journal's, and those that read a script, make its events and
//! print the state.

use crate::asserts::{equal, failed, is_so};
use lot_core::{CoreFault, Event, Script, ScriptFault, State, parse_script, print_state};
use lot_journal::{Journal, JournalFault};
use lot_load::counter::{Add, Counter};
use std::alloc::Global;
use std::fmt::Debug;
use std::process::Abort;
use std::test::*;

/// Memory was refused where it may be, and nothing else.
fn is_refusal<F: PartialEq + Debug + Copy>(
    rt: &impl Abort,
    is_ample: bool,
    fault: F,
    no_memory: F,
) {
    is_so(rt, !is_ample, "memory may be refused");
    equal(rt, fault, no_memory);
}

/// The call that was refused, made again.
fn add_again(rt: &impl Abort, journal: &mut Journal<Counter>) -> u64 {
    match journal.call(0, Add(1)) {
        Ok(total) => total,
        Err(_) => failed(rt, "refused again"),
    }
}

/// The total, and how many calls were made.
fn shown(journal: &Journal<Counter>) -> (u64, usize) {
    (journal.object().total, journal.history().len())
}

/// Calls once. Where memory is refused, the journal is as before, and the next call is made.
fn add_one(rt: &impl Abort, journal: &mut Journal<Counter>, is_ample: bool) -> u64 {
    let before = shown(journal);
    match journal.call(0, Add(1)) {
        Ok(total) => total,
        Err(fault) => {
            is_refusal(rt, is_ample, fault, JournalFault::NoMemory);
            equal(rt, shown(journal), before);
            add_again(rt, journal)
        }
    }
}

/// So many calls, that the list of calls grows several times.
fn add_often(rt: &impl Abort, alloc: Global, is_ample: bool) {
    let opening = Counter { total: 0 };
    let mut journal = Journal::new(alloc, opening, opening);
    for before in 0..40u64 {
        equal(rt, add_one(rt, &mut journal, is_ample), before + 1);
    }
    equal(rt, journal.history().len(), 40);
}

/// A script of nine lines in which all kinds of keys have lines, and the state that it leaves.
const SCRIPT: &str =
    "open 3 1 1 0\ntake 0 0\nenlist 0 1 0\ntake 1 0\nmark 1 0\npark 1 0\nstake 2 2\nsmark 2 2\nspark 2 2\n";

const STATE: &str =
    "lock 0 word 3 owner 0 line 1\ncond 1 flag 1 line 0\nsem 2 left 0 out 0 parked 1 line 2\nthread 0 bed 1 0\nthread 1 wants 0\nthread 2 seeks 2\n";

/// The script, where memory was refused once.
fn parsed_again(rt: &impl Abort, alloc: Global) -> Script {
    match parse_script(alloc, SCRIPT) {
        Ok(script) => script,
        Err(_) => failed(rt, "refused again"),
    }
}

/// The script, also where memory was refused once.
fn parsed(rt: &impl Abort, alloc: Global, is_ample: bool) -> Script {
    match parse_script(alloc, SCRIPT) {
        Ok(script) => script,
        Err(fault) => {
            is_refusal(rt, is_ample, fault, ScriptFault::NoMemory);
            parsed_again(rt, alloc)
        }
    }
}

fn open_script(alloc: Global, script: &Script) -> Result<State, CoreFault> {
    let permits = script.permits.as_slice();
    State::open_with(alloc, script.threads, script.locks, script.conds, permits)
}

/// The opening state, where memory was refused once.
fn opened_again(rt: &impl Abort, alloc: Global, script: &Script) -> State {
    match open_script(alloc, script) {
        Ok(state) => state,
        Err(_) => failed(rt, "refused again"),
    }
}

/// The opening state, also where memory was refused once.
fn opened(rt: &impl Abort, alloc: Global, script: &Script, is_ample: bool) -> State {
    match open_script(alloc, script) {
        Ok(state) => state,
        Err(fault) => {
            is_refusal(rt, is_ample, fault, CoreFault::NoMemory);
            opened_again(rt, alloc, script)
        }
    }
}

/// Makes the event. Where memory is refused, nothing is changed, and the event is made again.
fn step(rt: &impl Abort, state: &mut State, event: Event, is_ample: bool) {
    match state.step(event) {
        Ok(_) => {}
        Err(fault) => {
            is_refusal(rt, is_ample, fault, CoreFault::NoMemory);
            is_so(rt, state.step(event).is_ok(), "it is made again");
        }
    }
}

/// What is printed of the state is this, unless memory was refused.
fn is_printed(rt: &impl Abort, alloc: Global, state: &State, is_ample: bool) {
    match print_state(alloc, state) {
        Ok(text) => equal(rt, text.as_str(), STATE),
        Err(fault) => is_refusal(rt, is_ample, fault, CoreFault::NoMemory),
    }
}

/// Reads the script, makes its events and prints the state.
fn replay(rt: &impl Abort, alloc: Global, is_ample: bool) {
    let script = parsed(rt, alloc, is_ample);
    let mut state = opened(rt, alloc, &script, is_ample);
    for event in script.events.iter() {
        step(rt, &mut state, *event, is_ample);
    }
    is_printed(rt, alloc, &state, is_ample);
}

#[test]
fn a_refused_call_changes_nothing(rt: HostRuntime) {
    add_often(&rt, rt.alloc(), false);
    replay(&rt, rt.alloc(), false);
}

#[test]
fn no_call_is_refused_for_nothing(rt: HostRuntime) {
    add_often(&rt, rt.alloc(), true);
    replay(&rt, rt.alloc(), true);
}
