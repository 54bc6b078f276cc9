//! What can go wrong.
use std::alloc::AllocError;
use thiserror::Error;

/// Why a call was not made.
#[derive(Clone, Copy, Debug, PartialEq, Eq, Error)]
pub enum JournalFault {
    /// A request for memory was refused.
    #[error("no memory")]
    NoMemory = 1,
}

impl From<AllocError> for JournalFault {
    fn from(_error: AllocError) -> JournalFault {
        JournalFault::NoMemory
    }
}
