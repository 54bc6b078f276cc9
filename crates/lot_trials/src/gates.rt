//! Workers of the program that are held at a gate.

use crate::asserts::{equal, same_text};
use lot_load::count::{Counting, count_with};
use lot_load::gate::{Gate, Point};
use lot_load::relay::{Relaying, relay_with};
use std::process::Abort;
use std::sync::atomic::{AtomicU64, Ordering};
use std::thread;

/// How often a held worker asks before it gives up.
const ASKINGS: u64 = 10_000_000;

/// A flag that one worker raises, and whether another that was held for it gave up.
#[derive(Drop)]
struct Flag {
    raised: AtomicU64,
    missed: AtomicU64,
}

impl Flag {
    fn lowered() -> Flag {
        Flag {
            raised: AtomicU64::new(0),
            missed: AtomicU64::new(0),
        }
    }

    fn raise(&self) {
        self.raised.store(1, Ordering::SeqCst);
    }

    /// Asks until the flag is raised, or notes that it was missed.
    fn await_raised(&self) {
        for _ in 0..ASKINGS {
            if self.raised.load(Ordering::SeqCst) != 0 {
                return;
            }
            thread::yield_now();
        }
        self.missed.store(1, Ordering::SeqCst);
    }
}

/// Holds worker 0 in its first round, where it owns its lock, until worker 1 owns its own there.
#[derive(Drop)]
struct Meeting {
    arrived: Flag,
}

impl Gate for Meeting {
    fn reached(&self, worker: usize, round: u64, point: Point) {
        if round != 0 || point != Point::Owning {
            return;
        }
        if worker == 1 {
            self.arrived.raise();
            return;
        }
        self.arrived.await_raised();
    }
}

/// Holds the consumer, worker 1, before its first lock, until the producer, worker 0, has owned the lock in its fourth
/// round.
#[derive(Drop)]
struct Filled {
    full: Flag,
}

impl Gate for Filled {
    fn reached(&self, worker: usize, round: u64, point: Point) {
        if worker == 0 && round == 3 && point == Point::BeforeRelease {
            self.full.raise();
        }
        if worker != 1 || round != 0 || point != Point::BeforeLock {
            return;
        }
        self.full.await_raised();
    }
}

/// A run past a gate, at which nothing was missed, wrote this and ended well.
fn went_past(rt: &impl Abort, flag: &Flag, run: (&[u8], u8), want: &str) {
    equal(rt, flag.missed.load(Ordering::SeqCst), 0);
    same_text(rt, run.0, want, "output");
    equal(rt, run.1, 0);
}

#[test]
fn producer_fills_the_buffer_first(rt: HostRuntime) {
    let filled = Filled {
        full: Flag::lowered(),
    };
    let relaying = Relaying {
        threads: 2,
        rounds: 9,
        seed: 7,
    };
    let (mut out, mut faults) = (Vec::new(rt.alloc()), Vec::new(rt.alloc()));
    let status = relay_with(&rt, rt.alloc(), &filled, &relaying, &mut out, &mut faults);
    let want = "put 9\ntaken 9\nsum 45\nbalanced\n";
    went_past(&rt, &filled.full, (out.as_slice(), status), want);
}

#[test]
fn two_workers_meet(rt: HostRuntime) {
    let meeting = Meeting {
        arrived: Flag::lowered(),
    };
    let counting = Counting {
        threads: 2,
        locks: 2,
        rounds: 10,
        seed: 7,
    };
    let (mut out, mut faults) = (Vec::new(rt.alloc()), Vec::new(rt.alloc()));
    let status = count_with(&rt, rt.alloc(), &meeting, &counting, &mut out, &mut faults);
    let want = "lock 0 total 10\nlock 1 total 10\nsum 20\n";
    went_past(&rt, &meeting.arrived, (out.as_slice(), status), want);
}
