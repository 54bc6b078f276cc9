//! The seventeen events, what a thread sees of its own, and the points at which a thread can stand.

/// Where a thread stands between two events.
#[derive(Clone, Copy, Debug, PartialEq, Eq)]
pub enum Point {
    /// It wants nothing, or owns what it wanted.
    Calm,
    /// It tries to get the lock, or is queued on it.
    Wants { lock: usize },
    /// It was enlisted on the condition and has not let the lock go.
    Bed { cond: usize, lock: usize },
    /// It was enlisted on the condition once and has let the lock go.
    Rest { cond: usize, lock: usize },
    /// It has lowered the condition's flag and has not swept its line.
    Sweeps { cond: usize },
    /// It seeks a permit of the semaphore, or is queued on it.
    Seeks { sem: usize },
}

/// One single access of one thread to the word of one key.
///
/// Keys count the locks first, the conditions behind them and the semaphores last, from 0, as
/// threads do. An event with a number out of range is no error of its own: `State::step` of
/// `lot_core` refuses it. After WTF's `LockAlgorithm` (Try to Pass) and
/// `Condition` (Enlist to Sweep); those of semaphores are made after them.
#[derive(Clone, Copy, Debug, PartialEq, Eq)]
pub enum Event {
    /// Gets the lock where it is unheld, and wants nothing where it is held.
    Try {
        thread: usize,
        key: usize,
    },
    /// Gets the lock where it is unheld, and wants it where it is held.
    Take {
        thread: usize,
        key: usize,
    },
    /// Marks a held lock as parked.
    Mark {
        thread: usize,
        key: usize,
    },
    /// Goes last in the lock's line where the lock is held and parked.
    Park {
        thread: usize,
        key: usize,
    },
    /// Lets the lock go where it is not parked.
    Free {
        thread: usize,
        key: usize,
    },
    /// Lets a parked lock go: to the first of its line where the pass is fair, else to whoever
    /// comes. `more` says that others may wait behind that first.
    Pass {
        thread: usize,
        key: usize,
        fair: bool,
        more: bool,
    },
    /// Goes last in the condition's line and sets its flag, while it has the lock.
    Enlist {
        thread: usize,
        key: usize,
        lock: usize,
    },
    /// Reads the condition's flag.
    Look {
        thread: usize,
        key: usize,
    },
    /// Takes the first `count` of the condition's line, or all where they are fewer, and clears the
    /// flag where no `more` may wait or nobody was there. A Call takes at least one, and at most as
    /// many as a state may have threads.
    Call {
        thread: usize,
        key: usize,
        count: usize,
        more: bool,
    },
    /// Clears the condition's flag before a sweep.
    Lower {
        thread: usize,
        key: usize,
    },
    /// Takes the whole line of the condition.
    Sweep {
        thread: usize,
        key: usize,
    },
    /// Takes a permit of the semaphore where one is left, and seeks one where none is.
    SemTake {
        thread: usize,
        key: usize,
    },
    /// Marks a semaphore of which no permit is left as parked.
    SemMark {
        thread: usize,
        key: usize,
    },
    /// Goes last in the semaphore's line where no permit is left and it is parked.
    SemPark {
        thread: usize,
        key: usize,
    },
    /// Gives a permit back where the semaphore is not parked.
    SemFree {
        thread: usize,
        key: usize,
    },
    /// Gives a permit back and takes the first of the line, which may then take the permit. `more`
    /// says that others may wait behind that first.
    SemPass {
        thread: usize,
        key: usize,
        more: bool,
    },
    /// Clears the parked bit of a semaphore on which nobody is queued.
    SemClear {
        thread: usize,
        key: usize,
    },
}

/// What a thread sees of the event that it makes.
#[derive(Clone, Copy, Debug, PartialEq, Eq)]
pub enum Seen {
    /// Whether a lock was got (Try, Take), queued on (Park) or let go (Free), or the flag (Look);
    /// whether a permit was got (SemTake), queued for (SemPark) or given back (SemFree).
    Bool(bool),
    /// Nothing (Mark, Enlist, Lower, SemMark, SemClear).
    Done,
    /// The thread that was taken from a line (Pass, SemPass).
    Sleeper(Option<usize>),
    /// How many threads were taken from a line (Call, Sweep).
    Count(usize),
}
