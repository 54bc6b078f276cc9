//! The steps of a schedule, its lot's sizes, and what its threads share.
use crate::asserts::is_so;
use crate::counts::ASKINGS;
use lot_sync::{Freed, Released};
use std::process::Abort;
use std::sync::atomic::{AtomicU64, Ordering};
use std::thread;

/// The lot of a schedule has so many locks.
pub(crate) const LOCKS: usize = 14;

/// It has so many conditions, and their numbers follow those of the locks.
pub(crate) const CONDS: usize = 13;

/// It has a semaphore of two permits and one of one. Their numbers follow those of the conditions.
pub(crate) const PERMITS: [u32; 2] = [2, 1];

/// What one thread does in a row, or looks for. The words of releases and calls are 7.
#[derive(Clone, Copy)]
pub(crate) enum Step {
    /// Registers, and is given the pass of this number.
    Register(usize),
    /// Registers beside another that does, and is given any pass: the next row is made meanwhile.
    RegisterBeside,
    /// Registers, and is refused since all passes are out.
    Full,
    /// Gives its pass back.
    Leave,
    /// Gets this lock.
    Lock(usize),
    /// The same, and sleeps before: the next row is made meanwhile.
    Sleep(usize),
    /// The same, but looks for its letter only after the gate was opened; it goes to sleep so many times.
    SleepAtGate(usize, u64),
    /// Gets this lock by `try_lock`, or doesn't.
    TryLock(usize, bool),
    /// Finds so many behind its lock, and leaves one more.
    Raise(u64),
    /// Lets its lock go by `unlock` at this moment, and this becomes of it.
    Unlock(u64, Released),
    /// Lets its lock go by `unlock_asking` at this moment, for which it asks so many times, and this becomes of it.
    UnlockAsking(u64, u64, Released),
    /// Raises a flag while it owns a lock, and looks for that of another thread that does: the next row is made
    /// meanwhile.
    Meet,
    /// Lets the first of its two locks go at moment 0, and this becomes of it.
    UnlockFirst(Released),
    /// Lets its lock go by `unlock_fairly` at moment 0, and this becomes of it.
    UnlockFairly(Released),
    /// Lets its lock go by `unlock_unparked`, or has it still.
    UnlockUnparked(bool),
    /// Lets its lock go at moment 0, whatever becomes of it.
    LetGo,
    /// Waits on this condition, with a release of its lock at this moment, and lets the lock go when it has it again.
    /// The next row is made meanwhile.
    Wait(usize, u64),
    /// The same at moment 5, but it lets the lock go only after the gate was opened.
    WaitAtGate(usize),
    /// Notifies one on this condition at this moment, and takes somebody or nobody.
    NotifyOne(usize, u64, bool),
    /// Notifies so many at most, takes so many, and leaves the flag set or not.
    NotifySome(usize, usize, (usize, bool)),
    /// Notifies all, and takes so many.
    NotifyAll(usize, usize),
    /// The condition's flag is set, or not.
    HasWaiters(usize, bool),
    /// Gets a permit of this semaphore.
    Acquire(usize),
    /// The same, and sleeps before: the next row is made meanwhile.
    SleepFor(usize),
    /// Gets a permit of this semaphore by `try_acquire`, or none is left.
    TryAcquire(usize, bool),
    /// Gives its last permit back at this moment, and this becomes of it.
    Release(u64, Freed),
    /// The threads that are held at the gate may go on.
    OpenGate,
    /// The word of this lock: 1 where it is held, and 2 more where it is parked.
    Word(usize, u64),
    /// So many are in the line of this key.
    Line(usize, usize),
    /// So many come to be in the line of this key.
    AwaitLine(usize, usize),
    /// Nobody owns this lock any more.
    AwaitFree(usize),
    /// The table has so many buckets.
    Size(usize),
    /// It has the one number of buckets or the other.
    EitherSize(usize, usize),
}

impl Step {
    /// Whether the next row is made while the thread sleeps.
    pub(crate) fn sleeps(self) -> bool {
        match self {
            Step::Sleep(_) | Step::SleepAtGate(_, _) | Step::SleepFor(_) => true,
            Step::Wait(_, _) | Step::WaitAtGate(_) | Step::RegisterBeside | Step::Meet => true,
            _ => false,
        }
    }
}

/// Whether requests for memory, and starts of threads, may be refused.
#[derive(Clone, Copy, PartialEq, Eq)]
pub(crate) enum Memory {
    Ample,
    MayBeRefused,
}

/// A request was refused, which it may be, or the test fails.
pub(crate) fn may_be_refused(rt: &impl Abort, memory: Memory) {
    is_so(
        rt,
        memory == Memory::MayBeRefused,
        "a request may be refused here",
    );
}

/// What the threads of a schedule share.
#[derive(Drop)]
pub(crate) struct Progress {
    pub(crate) memory: Memory,
    /// Raised when a thread could not be started: the others let go of what they have, and leave.
    pub(crate) given_up: AtomicU64,
    /// The number of the row that is made next.
    pub(crate) next_row: AtomicU64,
    /// Raised when those that are held at the gate may go on.
    pub(crate) gate: AtomicU64,
    /// How many flags were raised by threads that own a lock.
    pub(crate) met: AtomicU64,
}

/// Waits until all rows before this one are made, asking a bounded number of times, or the test fails. False where the
/// schedule is given up.
pub(crate) fn may_be_made(rt: &impl Abort, progress: &Progress, row: usize) -> bool {
    for _ in 0..ASKINGS {
        if progress.next_row.load(Ordering::SeqCst) == row as u64 {
            return true;
        }
        if progress.given_up.load(Ordering::SeqCst) != 0 {
            return false;
        }
        thread::yield_now();
    }
    panic!(rt; "row {row} is never made")
}

/// The row was made, or its thread sleeps: the next one may be made.
pub(crate) fn allow_next(progress: &Progress) {
    progress.next_row.fetch_add(1, Ordering::SeqCst);
}
