//! Places to sleep.
use super::askings::{ASKINGS, QUIET_ASKINGS, is_within};
use crate::asserts::is_so;
use lot_records::Record;
use std::process::Abort;
use std::sync::Wait;
use std::sync::atomic::{AtomicU64, Ordering};
use std::thread;
use std::thread::Threads;

// A sleeper's flags: it is about to sleep; it slept.
#[derive(Drop)]
struct Flags {
    before: AtomicU64,
    after: AtomicU64,
}

fn lowered() -> Flags {
    Flags {
        before: AtomicU64::new(0),
        after: AtomicU64::new(0),
    }
}

const RAISED: u64 = 1;

fn raise(flag: &AtomicU64) {
    flag.store(RAISED, Ordering::SeqCst);
}

fn sleep_between<W: Wait>(rt: &W, record: &Record, flags: &Flags) {
    raise(&flags.before);
    record.sleep_once(rt);
    raise(&flags.after);
}

// Whether a thread is found asleep there.
fn is_asleep_within(record: &Record, askings: u64) -> bool {
    for _ in 0..askings {
        if record.is_asleep() {
            return true;
        }
        thread::yield_now();
    }
    false
}

// Whether a sleeper of this record fell asleep and stayed so without a wake, and ended its sleep after one.
fn sleeps_and_wakes<R: Threads + Wait + Abort + Sync>(rt: &R, record: &Record) -> (bool, bool) {
    sleeps_between(rt, record, &lowered())
}

fn sleeps_between<R: Threads + Wait + Abort + Sync>(
    rt: &R,
    record: &Record,
    flags: &Flags,
) -> (bool, bool) {
    thread::scope(thread::scope_env(), rt, |scope| -> (bool, bool) {
        let sleeper = move || sleep_between(rt, record, flags);
        is_so(rt, scope.spawn(sleeper).is_ok(), "it starts");
        is_so(
            rt,
            is_within(&flags.before, RAISED, ASKINGS),
            "it is about to sleep",
        );
        let slept = is_asleep_within(record, ASKINGS);
        let early = is_within(&flags.after, RAISED, QUIET_ASKINGS);
        record.wake(rt);
        (slept && !early, is_within(&flags.after, RAISED, ASKINGS))
    })
}

#[test]
fn a_sleeper_sleeps(rt: HostRuntime) {
    let (slept, _woke) = sleeps_and_wakes(&rt, &Record::new());
    is_so(&rt, slept, "it sleeps until it is woken");
}

#[test]
fn a_wake_wakes(rt: HostRuntime) {
    let (_slept, woke) = sleeps_and_wakes(&rt, &Record::default());
    is_so(&rt, woke, "the wake ends its sleep");
}

// Whether a sleep that begins after a wake ends.
fn wakes_beforehand<R: Threads + Wait + Abort + Sync>(
    rt: &R,
    record: &Record,
    flags: &Flags,
) -> bool {
    record.wake(rt);
    thread::scope(thread::scope_env(), rt, |scope| -> bool {
        let sleeper = move || sleep_between(rt, record, flags);
        is_so(rt, scope.spawn(sleeper).is_ok(), "it starts");
        is_within(&flags.after, RAISED, ASKINGS)
    })
}

#[test]
fn a_wake_before_the_sleep_is_kept(rt: HostRuntime) {
    let record = Record::new();
    let flags = lowered();
    is_so(
        &rt,
        wakes_beforehand(&rt, &record, &flags),
        "the wake is kept",
    );
}
