//! Steps that threads take one after the other.
use std::sync::atomic::{AtomicU64, Ordering};
use std::thread;

/// How often a thread asks whether its step has come.
const ASKINGS: u64 = 10_000_000;

#[derive(Drop)]
pub struct Steps {
    made: AtomicU64,
}

impl Steps {
    pub fn new() -> Steps {
        Steps {
            made: AtomicU64::new(0),
        }
    }

    /// One more is made.
    pub fn make(&self) {
        self.made.fetch_add(1, Ordering::SeqCst);
    }

    /// Waits until so many are made. Answers whether they are: it asks a bounded number of times, since a thread that
    /// can't be started makes none.
    pub fn await_made(&self, steps: u64) -> bool {
        for _ in 0..ASKINGS {
            if self.made.load(Ordering::SeqCst) >= steps {
                return true;
            }
            thread::yield_now();
        }
        false
    }
}
