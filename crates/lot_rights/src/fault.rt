//! What can go wrong.
use thiserror::Error;

/// Why a table of words was not opened.
#[derive(Debug, Drop, Error)]
pub enum WordsFault {
    /// A request for memory was refused.
    #[error("no memory")]
    NoMemory = 1,
}
