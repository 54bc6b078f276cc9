//! Threads that wait on a condition and are notified, in the running code: they wait in an order that is made by hand,
//! and some are held before they sleep.

use crate::schedules::{come, leave, on_lot};
use crate::steps::{Memory, Step};
use lot_sync::Released;
use std::alloc::Global;
use std::process::Abort;
use std::sync::Wait;
use std::test::*;
use std::thread::Threads;

/// The lot's first condition.
pub(crate) const COND: usize = 14;

/// The lot's last condition, which lies in the bucket of the first where there are 12 buckets.
const LAST: usize = 26;

/// A thread is taken that is queued on the condition and owns its lock still: it lets the lock go, does not sleep, and
/// gets it again.
static TAKEN_BEFORE_ITS_SLEEP: [(usize, Step); 11] = [
    (0, Step::Register(0)),
    (0, Step::Lock(0)),
    (0, Step::WaitAtGate(COND)),
    (1, Step::AwaitLine(COND, 1)),
    (1, Step::Word(0, 1)),
    (1, Step::Register(1)),
    (1, Step::NotifyOne(COND, 0, true)),
    (1, Step::Line(COND, 0)),
    (1, Step::NotifyOne(COND, 0, false)),
    (1, Step::Word(0, 1)),
    (1, Step::OpenGate),
];

#[test]
fn notifications_are_answered(rt: HostRuntime) {
    on_lot(
        &rt,
        rt.alloc(),
        2,
        &[&TAKEN_BEFORE_ITS_SLEEP, leave(2)],
        (1, 0),
        Memory::Ample,
    );
}

/// A wait hands the lock to the thread in its line, which takes the waiting thread from the condition's line: that one
/// gets the lock again.
static HANDED_BY_A_WAIT: [(usize, Step); 12] = [
    (0, Step::Register(0)),
    (0, Step::Lock(0)),
    (0, Step::WaitAtGate(COND)),
    (2, Step::AwaitLine(COND, 1)),
    (1, Step::Register(1)),
    (1, Step::Sleep(0)),
    (2, Step::AwaitLine(0, 1)),
    (2, Step::OpenGate),
    (1, Step::Word(0, 3)),
    (1, Step::NotifyOne(COND, 0, true)),
    (1, Step::Line(COND, 0)),
    (1, Step::LetGo),
];

#[test]
fn a_wait_hands_its_lock_over(rt: HostRuntime) {
    on_lot(
        &rt,
        rt.alloc(),
        2,
        &[&HANDED_BY_A_WAIT, leave(2)],
        (1, 0),
        Memory::Ample,
    );
}

/// A thread that sleeps on the condition has let its lock go, and gets it again when it is taken. The flag is clear
/// then.
static LETS_GO: [(usize, Step); 14] = [
    (0, Step::Register(0)),
    (0, Step::Lock(0)),
    (0, Step::Wait(COND, 5)),
    (1, Step::AwaitLine(COND, 1)),
    (1, Step::AwaitFree(0)),
    (1, Step::Register(1)),
    (1, Step::TryLock(0, true)),
    (1, Step::Line(COND, 1)),
    (1, Step::Unlock(0, Released::Quiet)),
    (1, Step::HasWaiters(COND, true)),
    (1, Step::NotifyOne(COND, 0, true)),
    (1, Step::Line(COND, 0)),
    (1, Step::HasWaiters(COND, false)),
    (1, Step::NotifyOne(COND, 0, false)),
];

#[test]
fn a_wait_lets_go(rt: HostRuntime) {
    on_lot(
        &rt,
        rt.alloc(),
        2,
        &[&LETS_GO, leave(2)],
        (1, 0),
        Memory::Ample,
    );
}

/// The thread registers and waits on the condition. So many are in the line then.
fn comes_to_wait(thread: usize, cond: usize, line: usize) -> [(usize, Step); 4] {
    [
        (thread, Step::Register(thread)),
        (thread, Step::Lock(0)),
        (thread, Step::Wait(cond, 0)),
        (0, Step::AwaitLine(cond, line)),
    ]
}

/// A thread registers and makes the first rows; then three come to wait, the other rows notify all of them, and all
/// leave.
fn on_three_waits<T: Threads + Wait + Sync + Abort>(
    rt: &T,
    alloc: Global,
    first: &'static [(usize, Step)],
    then: &'static [(usize, Step)],
) {
    let parts = [
        come(1),
        first,
        &comes_to_wait(1, COND, 1),
        &comes_to_wait(2, COND, 2),
        &comes_to_wait(3, COND, 3),
        then,
        leave(4),
    ];
    on_lot(rt, alloc, 4, &parts, (3, 0), Memory::Ample);
}

static NOBODY_WAITS: [(usize, Step); 3] = [
    (0, Step::HasWaiters(COND, false)),
    (0, Step::NotifyOne(COND, 0, false)),
    (0, Step::NotifyAll(COND, 0)),
];

/// One is taken, then the other two, then nobody.
static ONE_AND_ALL: [(usize, Step); 7] = [
    (0, Step::HasWaiters(COND, true)),
    (0, Step::NotifyOne(COND, 0, true)),
    (0, Step::Line(COND, 2)),
    (0, Step::NotifyAll(COND, 2)),
    (0, Step::HasWaiters(COND, false)),
    (0, Step::NotifyOne(COND, 0, false)),
    (0, Step::NotifyAll(COND, 0)),
];

#[test]
fn waits_are_notified(rt: HostRuntime) {
    on_three_waits(&rt, rt.alloc(), &NOBODY_WAITS, &ONE_AND_ALL);
}

/// All are taken at once; then nobody waits.
static ALL_AT_ONCE: [(usize, Step); 4] = [
    (0, Step::HasWaiters(COND, true)),
    (0, Step::NotifyAll(COND, 3)),
    (0, Step::HasWaiters(COND, false)),
    (0, Step::NotifyAll(COND, 0)),
];

#[test]
fn three_waits_are_notified_at_once(rt: HostRuntime) {
    on_three_waits(&rt, rt.alloc(), &[], &ALL_AT_ONCE);
}

/// Alone in their bucket, two are taken, then the other one, then nobody.
static BY_COUNT: [(usize, Step); 3] = [
    (0, Step::NotifySome(COND, 2, (2, true))),
    (0, Step::NotifySome(COND, 5, (1, false))),
    (0, Step::NotifySome(COND, 1, (0, false))),
];

#[test]
fn waits_are_notified_by_count(rt: HostRuntime) {
    on_three_waits(&rt, rt.alloc(), &[], &BY_COUNT);
}

/// Two conditions in one bucket with a waiting thread each: the flag stays until nobody else is in the bucket, or
/// nobody is taken.
static TWO_CONDITIONS: [(usize, Step); 4] = [
    (0, Step::Size(12)),
    (0, Step::NotifySome(LAST, 4, (1, true))),
    (0, Step::NotifySome(LAST, 4, (0, false))),
    (0, Step::NotifySome(COND, 256, (1, false))),
];

#[test]
fn a_flag_stays_while_others_wait(rt: HostRuntime) {
    let parts = [
        come(1),
        &comes_to_wait(1, COND, 1),
        &comes_to_wait(2, LAST, 1),
        &TWO_CONDITIONS,
        leave(3),
    ];
    on_lot(&rt, rt.alloc(), 4, &parts, (1, 1), Memory::Ample);
}
