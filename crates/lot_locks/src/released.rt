//! What an unlock answers.

/// What became of a lock that was let go.
#[derive(Clone, Copy, Debug, PartialEq, Eq)]
pub enum Released {
    /// Nobody was parked.
    Quiet,
    /// The lock was marked as parked, but its line was empty.
    Nobody,
    /// The first thread of the line was woken, and tries again.
    Woke,
    /// The first thread of the line was woken, and owns the lock.
    Handed,
}
