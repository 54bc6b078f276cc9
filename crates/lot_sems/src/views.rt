//! What contracts see of the rights: what a pass knows of its permits, and what a root knows of its line.
//! No value of these types is made by running code.
use std::collections::LinkedList;

/// What a thread's pass knows, beside its thread and the entries that were made with it.
pub struct SemPassView {
    /// The semaphore of which the thread seeks a permit, or on which it is queued.
    pub seeks: Option<u64>,
    /// It was queued, and has not collected its letter.
    pub asleep: bool,
    /// By key: how many permits of the semaphore are out with the thread.
    pub out: LinkedList<u64>,
}

/// What a semaphore's root knows, beside its key and its entries.
pub struct SemRootView {
    /// The threads that are queued on the semaphore, first to come first.
    pub line: LinkedList<u64>,
    /// The thread whose letter is owed, if any.
    pub owes: Option<u64>,
}
