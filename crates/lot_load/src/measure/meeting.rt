//! How the threads of a crew begin and end together.
use std::sync::atomic::{AtomicU64, Ordering};
use std::thread;

/// How often a thread asks whether all are here.
const ASKINGS: u64 = 10_000_000;

#[derive(Drop)]
pub struct Meeting {
    threads: u64,
    here: AtomicU64,
    over: AtomicU64,
}

impl Meeting {
    /// A meeting of so many threads, of which none is here yet.
    pub fn new(threads: u64) -> Meeting {
        Meeting {
            threads,
            here: AtomicU64::new(0),
            over: AtomicU64::new(0),
        }
    }

    /// Waits until all threads are here. It asks a bounded number of times, since a thread that can't be started
    /// never comes.
    pub fn join(&self) {
        self.here.fetch_add(1, Ordering::SeqCst);
        for _ in 0..ASKINGS {
            if self.here.load(Ordering::SeqCst) >= self.threads {
                return;
            }
            thread::yield_now();
        }
    }

    /// Tells all threads to end.
    pub fn end(&self) {
        self.over.store(1, Ordering::SeqCst);
    }

    #[inline(always)]
    pub fn is_over(&self) -> bool {
        self.over.load(Ordering::SeqCst) != 0
    }
}
