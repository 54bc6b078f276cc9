//! Why a lot could not be opened, and why a thread got no pass.

/// Why a lot could not be opened. Tested in this order.
#[derive(Clone, Copy, Debug, PartialEq, Eq, thiserror::Error)]
pub enum OpenFault {
    /// There have to be 1 to [`MAX_THREADS`](lot_core::MAX_THREADS) threads.
    #[error("bad number of threads")]
    BadThreads = 1,
    /// There has to be a lock, and there may be at most [`MAX_KEYS`](lot_core::MAX_KEYS) locks, conditions and
    /// semaphores together; of `open_many` at most [`MOST_KEYS`](lot_rights::MOST_KEYS), and at most
    /// [`MOST_CONDS`](crate::MOST_CONDS) conditions among them.
    #[error("bad number of keys")]
    BadKeys = 2,
    /// A request for memory was refused.
    #[error("no memory")]
    NoMemory = 3,
}

/// Why a thread got no pass.
#[derive(Clone, Copy, Debug, PartialEq, Eq, thiserror::Error)]
pub enum RegisterFault {
    /// All passes are out.
    #[error("all passes are out")]
    Full = 1,
    /// A request for memory was refused.
    #[error("no memory")]
    NoMemory = 2,
}
