//! A value that is its own legal history: an object of one thread together with all calls that were ever made on it.
//!
//! Put a `Journal` behind a lock, and any object that one thread can use is shared: the rule that the lock keeps
//! (`Keeps` of `lot_words`) says that replaying the history from the opening object gives each reply and ends at the
//! object.
//!
//! | | |
//! |---|---|
//! | `Sequential` | an object of one thread: what a call replies, and what the object is after it |
//! | `Entry` | one call: its thread, the call, its reply |
//! | `Journal` | the opening object, the entries of all calls in order, and the object now |
//!
//! Read `specs/Legal` first (a legal history), then `specs/Journal` (how a journal grows, what of it belongs to a
//! thread, what a call does). `laws` says what a legal history means to a caller.
#![tactic(auto)]

pub mod entry;
mod fault;
pub mod journal;
pub mod laws;
pub mod sequential;

pub use entry::Entry;
pub use fault::JournalFault;
pub use journal::Journal;
pub use sequential::Sequential;
