//! What the bars of a run show of its threads is what the model's printed state says of them, after each event.

use crate::asserts::{failed, is_as_told, is_so};
use lot_core::{Event, Point, Script, State, parse_script, print_state};
use lot_draw::marks::{Bar, Right, Told};
use lot_draw::run::Run;
use std::alloc::Global;
use std::fmt::Write as _;
use std::process::Abort;

/// Scripts that come by every point, every line and every way out of one.
static SCRIPTS: [&str; 6] = [
    "open 4 1 0\ntake 0 0\ntake 1 0\nmark 1 0\npark 1 0\ntake 2 0\npark 2 0\npass 0 0 0 1\ntake 3 0\n",
    "open 3 1 0\ntake 0 0\ntake 1 0\nmark 1 0\npark 1 0\ntake 2 0\npark 2 0\npass 0 0 1 0\nfree 1 0\npass 1 0 1 0\n",
    "open 4 1 1\ntake 0 0\nenlist 0 1 0\nfree 0 0\ntake 1 0\nenlist 1 1 0\nfree 1 0\ntake 2 0\nenlist 2 1 0\nlower 3 1\nsweep 3 1\nfree 2 0\ntake 0 0\n",
    "open 5 2 2\ntake 0 0\nenlist 0 2 0\nfree 0 0\ntake 1 1\nenlist 1 3 1\ntake 2 0\nenlist 2 2 0\nfree 2 0\nlook 4 2\nsome 4 2 1 1\ncall 4 3 0\nfree 1 1\ntry 4 0\nlower 3 2\ntake 0 0\nmark 0 0\npark 0 0\npass 4 0 1 0\n",
    "open 4 1 0 2 0\nstake 0 1\nstake 0 1\nstake 1 1\nsmark 1 1\nspark 1 1\nstake 2 1\nspark 2 1\nspass 0 1 1\nsfree 0 1\nstake 3 1\nspark 1 1\nspass 3 1 1\nstake 2 1\nspass 2 1 0\nstake 1 1\nsclear 0 1\nsfree 1 1\n",
    "open 2 3 0\ntry 0 0\ntry 0 1\ntry 0 2\nfree 0 1\ntry 1 1\ntry 0 1\nfree 1 1\ntry 0 1\n",
];

// What the bars tell of the end of a run with so many events. Those that reach the end say how its threads stand there,
// and what they have.

/// Who has the lock.
fn owner(bars: &[Bar], events: usize, lock: usize) -> Option<usize> {
    for bar in bars {
        if bar.to == events
            && let Told::Has(Right::Lock { lock: had }) = bar.told
            && had == lock
        {
            return Some(bar.thread);
        }
    }
    None
}

/// How many permits of the semaphore are out.
fn taken(bars: &[Bar], events: usize, sem: usize) -> usize {
    let mut taken: usize = 0;
    for bar in bars {
        if bar.to == events
            && let Told::Has(Right::Permit { sem: had }) = bar.told
            && had == sem
        {
            taken = taken.saturating_add(1);
        }
    }
    taken
}

fn point_of(bars: &[Bar], events: usize, thread: usize) -> Point {
    for bar in bars {
        if bar.to == events
            && bar.thread == thread
            && let Told::Stands(stand) = bar.told
        {
            return stand.point;
        }
    }
    Point::Calm
}

fn is_in_line(bar: &Bar, key: usize) -> bool {
    match bar.told {
        Told::Stands(stand) => stand.line() == Some(key),
        Told::Has(_) => false,
    }
}

/// Since which event the thread has been in the key's line. Bars stand in the order in which they end.
fn queued_since(bars: &[Bar], events: usize, thread: usize, key: usize) -> usize {
    let mut since = events;
    for place in 0..bars.len() {
        let bar = &bars[bars.len() - 1 - place];
        if bar.thread == thread && bar.to == since && is_in_line(bar, key) {
            since = bar.from;
        }
    }
    since
}

/// No thread has this number.
const NO_THREAD: usize = usize::MAX;

/// Who has been in the key's line since this event. No two threads come to it by one event: where two bars say so, the
/// answer is the number of no thread.
fn queued(bars: &[Bar], events: usize, key: usize, since: usize) -> Option<usize> {
    let mut queued = None;
    for bar in bars {
        if bar.to == events
            && is_in_line(bar, key)
            && queued_since(bars, events, bar.thread, key) == since
        {
            queued = match queued {
                None => Some(bar.thread),
                Some(_) => Some(NO_THREAD),
            };
        }
    }
    queued
}

// The printed state as the bars tell it, with a `?` for each digit of which they tell nothing.

fn push(rt: &impl Abort, out: &mut String, text: &str) {
    if out.push_str(text).is_err() {
        failed(rt, "no memory")
    }
}

fn push_number(rt: &impl Abort, out: &mut String, name: &str, number: usize) {
    if write!(out, "{name}{number}").is_err() {
        failed(rt, "no memory")
    }
}

fn push_point(rt: &impl Abort, out: &mut String, point: Point) {
    match point {
        Point::Calm => push(rt, out, " calm"),
        Point::Wants { lock } => push_number(rt, out, " wants ", lock),
        Point::Bed { cond, lock } => {
            push_number(rt, out, " bed ", cond);
            push_number(rt, out, " ", lock);
        }
        Point::Rest { cond, lock } => {
            push_number(rt, out, " rest ", cond);
            push_number(rt, out, " ", lock);
        }
        Point::Sweeps { cond } => push_number(rt, out, " sweeps ", cond),
        Point::Seeks { sem } => push_number(rt, out, " seeks ", sem),
    }
}

fn push_threads(rt: &impl Abort, out: &mut String, bars: &[Bar], events: usize, threads: usize) {
    for thread in 0..threads {
        push_number(rt, out, "thread ", thread);
        push_point(rt, out, point_of(bars, events, thread));
        push(rt, out, "\n");
    }
}

fn push_owner(rt: &impl Abort, out: &mut String, owner: Option<usize>) {
    match owner {
        Some(owner) => push_number(rt, out, " word ? owner ", owner),
        None => push(rt, out, " word ? owner -"),
    }
}

/// One thread more, if there is one, of a line that begins there in the text.
fn push_next(rt: &impl Abort, out: &mut String, line: usize, thread: Option<usize>) {
    let Some(thread) = thread else {
        return;
    };
    if out.len() == line {
        push_number(rt, out, " line ", thread);
    } else {
        push_number(rt, out, ",", thread);
    }
}

/// Who is in the key's line, first come first.
fn push_line(rt: &impl Abort, out: &mut String, bars: &[Bar], events: usize, key: usize) {
    let line = out.len();
    for since in 0..events.saturating_add(1) {
        push_next(rt, out, line, queued(bars, events, key, since));
    }
    if out.len() == line {
        push(rt, out, " line -");
    }
    push(rt, out, "\n");
}

/// The key's line, up to who is in the line of the key. Locks come first, then conditions, then semaphores.
fn push_key(
    rt: &impl Abort,
    out: &mut String,
    bars: &[Bar],
    events: usize,
    key: usize,
    locks: usize,
    conds: usize,
) {
    if key < locks {
        push_number(rt, out, "lock ", key);
        push_owner(rt, out, owner(bars, events, key));
    } else if key < locks.saturating_add(conds) {
        push_number(rt, out, "cond ", key);
        push(rt, out, " flag ?");
    } else {
        push_number(rt, out, "sem ", key);
        push_number(rt, out, " left ? out ", taken(bars, events, key));
        push(rt, out, " parked ?");
    }
}

fn push_keys(rt: &impl Abort, out: &mut String, bars: &[Bar], script: &Script) {
    let events = script.events.len();
    let keys = script
        .locks
        .saturating_add(script.conds)
        .saturating_add(script.permits.len());
    for key in 0..keys {
        push_key(rt, out, bars, events, key, script.locks, script.conds);
        push_line(rt, out, bars, events, key);
    }
}

/// Makes the events, of which the run sees each, and ends the run there.
fn runs_to_its_end(state: &mut State, run: &mut Run, events: &[Event]) -> bool {
    for event in events {
        let Ok(seen) = state.step(*event) else {
            return false;
        };
        if run.see(*event, seen).is_err() {
            return false;
        }
    }
    run.end().is_ok()
}

/// Compares what the bars tell of the end of the script's run with what is printed of the state there.
fn compare<R: Abort>(rt: &R, alloc: Global, script: &Script, bars: &[Bar], state: &State) {
    let Ok(printed) = print_state(alloc, state) else {
        failed(rt, "no memory")
    };
    let mut told = String::new(alloc);
    push_keys(rt, &mut told, bars, script);
    push_threads(rt, &mut told, bars, script.events.len(), script.threads);
    is_as_told(rt, printed.as_str(), told.as_str());
}

/// Compares the end of the script's run.
fn compare_run<R: Abort>(rt: &R, alloc: Global, script: &Script) {
    let Ok(mut state) = State::open_with(
        alloc,
        script.threads,
        script.locks,
        script.conds,
        script.permits.as_slice(),
    ) else {
        failed(rt, "no state")
    };
    let Ok(mut run) = Run::new(alloc, script.threads) else {
        failed(rt, "no memory")
    };
    let is_run = runs_to_its_end(&mut state, &mut run, script.events.as_slice());
    is_so(rt, is_run, "the events are made");
    compare(rt, alloc, script, run.bars.as_slice(), &state);
}

/// Compares the end of the script's run, and then of each run that ends with fewer of its events.
fn compare_runs<R: Abort>(rt: &R, alloc: Global, text: &str) {
    let Ok(mut script) = parse_script(alloc, text) else {
        failed(rt, "no script")
    };
    for _ in 0..script.events.len() + 1 {
        compare_run(rt, alloc, &script);
        script.events.pop();
    }
}

#[test]
fn runs_agree_with_printed_states(rt: HostRuntime) {
    for text in &SCRIPTS {
        compare_runs(&rt, rt.alloc(), text);
    }
}
