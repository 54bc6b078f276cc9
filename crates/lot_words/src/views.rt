//! What contracts see of the rights: what a pass knows of its locks and their values, and what a root knows of its
//! line. No value of these types is made by running code.
use std::collections::LinkedList;

/// Of one lock, to one pass: not held, held, or held and found parked by `free`.
pub enum Hold {
    NotHeld,
    Held,
    FoundParked,
}

/// Where the value of a lock is, to the pass that holds it: in its slot, out, or on its way.
pub enum Place<V> {
    InSlot(V),
    Out,
    Moving,
}

/// What a thread's pass knows, beside its thread and the entries that were made with it.
pub struct LockPassView<V> {
    /// By lock.
    pub holds: LinkedList<Hold>,
    /// The lock that the thread tries to get, or is queued on.
    pub aim: Option<u64>,
    /// It was queued, and has not collected its letter.
    pub asleep: bool,
    /// By lock. It tells nothing where the pass doesn't hold the lock.
    pub places: LinkedList<Place<V>>,
    /// By lock: the opening value, until the pass gets the lock; then the value that it found, and when it let the lock
    /// go, the one that it left.
    pub seen: LinkedList<V>,
}

/// What a lock's root knows, beside its key and its entries.
pub struct LockRootView {
    /// The threads that are queued on the lock, first to come first.
    pub line: LinkedList<u64>,
    /// The thread and the token of the letter that is owed, if any.
    pub owes: Option<(u64, u64)>,
}

/// How many threads and locks a table has.
#[derive(Drop, Clone, Copy)]
pub struct Size {
    pub threads: u64,
    pub locks: u64,
}
