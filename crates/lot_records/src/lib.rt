//! Places to sleep, one for each thread number of a parking lot.
//!
//! A wake carries no fact and may come for nothing: why a sleeper goes on is said by its letter, which
//! it looks for after each sleep. A wake that comes before the sleep is kept, so it is not lost.
//!
//! To put a thread to sleep and to wake it costs the system more than a few yields, and many wakes come
//! sooner: so a thread yields a little before it sleeps, and whoever wakes one that does not sleep yet
//! leaves the system alone.
//!
//! | Call | The word before | The word after |
//! |---|---|---|
//! | `wake` | asleep | woken, and the system is asked to end the sleep |
//! | `wake` | idle or woken | woken |
//! | `sleep_once` | woken | idle, and the call returns |
//! | `sleep_once` | idle | asleep, and the thread sleeps until somebody wakes it |
#![tactic(auto)]

use std::sync::Wait;
use std::sync::atomic::{AtomicU64, Ordering};
use std::thread;

const IDLE: u64 = 0;

const WOKEN: u64 = 1;

const ASLEEP: u64 = 2;

/// How often a thread yields before it sleeps.
const YIELDS: u32 = 20;

/// A place where one thread at a time sleeps, as the `ThreadData` of WTF's parking lot.
///
/// The sleeper calls `sleep_once` until what it waits for has come; whoever brings that calls `wake`.
#[derive(Drop)]
pub struct Record {
    state: AtomicU64,
}

impl Record {
    pub fn new() -> Record {
        Record {
            state: AtomicU64::new(IDLE),
        }
    }

    /// Sleeps until a wake comes, or returns at once where one came since the last sleep ended.
    pub fn sleep_once<W: Wait>(&self, rt: &W) {
        if self.is_woken_soon() {
            return;
        }
        for _ in rt.forever() {
            if self.has_been_woken() {
                return;
            }
            let sleeps = self
                .state
                .compare_exchange(IDLE, ASLEEP, Ordering::SeqCst, Ordering::SeqCst);
            if sleeps.is_ok() {
                self.state.park(rt, ASLEEP as u32);
            }
        }
    }

    /// Whether the thread sleeps, or is about to ask the system for it, at some moment of this call. It is an
    /// observation, of which nothing is promised.
    pub fn is_asleep(&self) -> bool {
        self.state.load(Ordering::SeqCst) == ASLEEP
    }

    /// Whether a wake comes within a few yields.
    fn is_woken_soon(&self) -> bool {
        for _ in 0..YIELDS {
            if self.has_been_woken() {
                return true;
            }
            thread::yield_now();
        }
        false
    }

    /// Whether a wake has come, which then counts no more.
    fn has_been_woken(&self) -> bool {
        self.state.load(Ordering::SeqCst) != IDLE
            && self.state.swap(IDLE, Ordering::SeqCst) == WOKEN
    }

    /// Ends the sleep of the thread that sleeps here, or else the next one. The system is asked only where the thread
    /// sleeps, or is about to.
    pub fn wake<W: Wait>(&self, _rt: &W) {
        if self.state.swap(WOKEN, Ordering::SeqCst) == ASLEEP {
            self.state.wake_one();
        }
    }
}

impl Default for Record {
    fn default() -> Record {
        Record::new()
    }
}
