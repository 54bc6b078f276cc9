/// When an operation happens, as its caller says: `now` in nanoseconds, and a random word.
#[derive(Clone, Copy, Debug, PartialEq, Eq)]
pub struct Moment {
    pub now: u64,
    pub word: u64,
}

/// What was taken from a queue, and whether more may wait and it is time to be fair.
#[derive(Clone, Copy, Debug, PartialEq, Eq)]
pub struct Dequeued {
    pub thread: Option<usize>,
    /// Somebody was taken and the queue is not empty; who is left may wait on another key.
    pub more: bool,
    /// Somebody was taken and should be handed what it waits for.
    pub fair: bool,
}
