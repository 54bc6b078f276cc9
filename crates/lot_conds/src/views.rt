//! What contracts see of the rights: what a pass knows of its conditions, and what a root knows of its line.
//! No value of these types is made by running code.
use std::collections::LinkedList;

/// What a thread's pass knows, beside its thread and the entries that were made with it.
pub struct CondPassView {
    /// The condition that the thread is enlisted on, until it has collected its letter.
    pub out: Option<u64>,
    /// The condition whose flag the thread has lowered, and which it has yet to sweep.
    pub sweeps: Option<u64>,
    /// By key: how many sleepers the thread took from the condition's line.
    pub called: LinkedList<u64>,
    /// By key: how many of the thread's own waits found their letter.
    pub woken: LinkedList<u64>,
}

/// What a condition's root knows, beside its key and its entries.
pub struct CondRootView {
    /// The threads that are queued on the condition, first to come first.
    pub line: LinkedList<u64>,
    /// The threads that were taken from the line, and are owed a letter.
    pub owes: LinkedList<u64>,
}

/// How many threads, locks and conditions a table has. The conditions' numbers follow the locks'.
#[derive(Drop, Clone, Copy)]
pub struct Size {
    pub threads: u64,
    pub locks: u64,
    pub conds: u64,
}
