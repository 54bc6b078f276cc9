//! What no clause says: that calls succeed where memory is ample, and that the texts of the worked
//! examples come out as they should.

use crate::asserts::{equal, equal_in, is_so, is_so_in};
use lot_core::{CoreFault, Event, Seen, State};
use std::alloc::Global;
use std::process::Abort;
use std::test::Fail;

mod random;
mod scripts;
mod sound;

// Why no state is opened with so many threads, locks and conditions, where none is.
fn fault_of(alloc: Global, limits: (usize, usize, usize)) -> Option<CoreFault> {
    let (threads, locks, conds) = limits;
    State::open(alloc, threads, locks, conds).err()
}

#[test]
fn opening_keeps_to_the_limits(rt: HostRuntime) {
    for limits in [(1, 1, 0), (256, 1, 1023), (256, 1024, 0)] {
        is_so_in(&rt, fault_of(rt.alloc(), limits).is_none(), limits);
    }
    for limits in [
        (0, 1, 0),
        (1, 0, 5),
        (257, 1, 0),
        (9999, 1, 0),
        (256, 2, 1023),
    ] {
        let fault = fault_of(rt.alloc(), limits);
        equal_in(&rt, fault, Some(CoreFault::BadLimits), limits);
    }
}

#[test]
fn semaphores_are_keys_too(rt: HostRuntime) {
    let opened = State::open_with(rt.alloc(), 256, 1, 1021, &[0, 9999]);
    is_so(&rt, opened.is_ok(), "it is opened");
    let refused = State::open_with(rt.alloc(), 256, 1, 1022, &[0, 9999]).err();
    equal(&rt, refused, Some(CoreFault::BadLimits));
}

// Makes the events, and the thread of each sees this of it.
fn expect_seen(rt: &impl Abort, state: &mut State, events: &[(Event, Seen)]) {
    for (event, seen) in events {
        equal_in(rt, state.step(*event), Ok(*seen), *event);
    }
}

#[test]
fn a_semaphore_event_answers_what_its_thread_sees(rt: HostRuntime) -> Result<(), Fail> {
    let mut state = State::open_with(rt.alloc(), 2, 1, 0, &[1])?;
    let events = [
        (Event::SemTake { thread: 0, key: 1 }, Seen::Bool(true)),
        (Event::SemTake { thread: 1, key: 1 }, Seen::Bool(false)),
        (Event::SemMark { thread: 1, key: 1 }, Seen::Done),
        (Event::SemPark { thread: 1, key: 1 }, Seen::Bool(true)),
        (Event::SemFree { thread: 0, key: 1 }, Seen::Bool(false)),
        (
            Event::SemPass {
                thread: 0,
                key: 1,
                more: true,
            },
            Seen::Sleeper(Some(1)),
        ),
        (Event::SemClear { thread: 0, key: 1 }, Seen::Done),
        (Event::SemTake { thread: 1, key: 1 }, Seen::Bool(true)),
        (Event::SemFree { thread: 1, key: 1 }, Seen::Bool(true)),
    ];
    expect_seen(&rt, &mut state, &events);
    Ok(())
}

// The thread goes into the line of the condition 1, with the lock 0.
fn enlist(thread: usize) -> Event {
    Event::Enlist {
        thread,
        key: 1,
        lock: 0,
    }
}

// The thread hands the lock 0 to the only one in its line.
fn hand_over(thread: usize) -> Event {
    Event::Pass {
        thread,
        key: 0,
        fair: true,
        more: false,
    }
}

// The thread takes so many from the line of the condition 1.
fn call(thread: usize, count: usize) -> Event {
    Event::Call {
        thread,
        key: 1,
        count,
        more: true,
    }
}

#[test]
fn an_event_answers_what_its_thread_sees(rt: HostRuntime) -> Result<(), Fail> {
    let mut state = State::open(rt.alloc(), 2, 1, 1)?;
    let events = [
        (Event::Try { thread: 0, key: 0 }, Seen::Bool(true)),
        (Event::Take { thread: 1, key: 0 }, Seen::Bool(false)),
        (Event::Mark { thread: 1, key: 0 }, Seen::Done),
        (Event::Park { thread: 1, key: 0 }, Seen::Bool(true)),
        (Event::Free { thread: 0, key: 0 }, Seen::Bool(false)),
        (enlist(0), Seen::Done),
        (hand_over(0), Seen::Sleeper(Some(1))),
        (Event::Look { thread: 1, key: 1 }, Seen::Bool(true)),
        (call(1, 2), Seen::Count(1)),
        (call(1, 1), Seen::Count(0)),
        (Event::Lower { thread: 1, key: 1 }, Seen::Done),
        (Event::Sweep { thread: 1, key: 1 }, Seen::Count(0)),
    ];
    expect_seen(&rt, &mut state, &events);
    Ok(())
}
