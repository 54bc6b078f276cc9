//! What contracts see of rights. No value of these types is made by running code.
use lot_core::{Event, Seen};
use std::collections::LinkedList;
use std::marker::{Model, PhantomData};

/// One single access to a word, as the history tells it.
pub enum Access {
    /// An event of the model, and what was seen of it.
    Makes(Event, Seen),
    /// A letter was posted: the key whose root owed it, the thread, and the token.
    Posts(u64, u64, u64),
    /// A thread looked for its letter: the thread, and the token where a letter lay, which it then has collected.
    Collects(u64, Option<u64>),
    /// A thread found the word of a key to be this number, and left it so: the thread, the key, the number.
    Finds(u64, u64, u64),
    /// A thread counted, with a key's root in hand: the thread, the key, how many had been told by then that they were
    /// taken from its line, how many of these were handed the lock, and how many were in its line.
    Counts(u64, u64, u64, u64, u64),
}

/// An access that was made, and how many were made before it in the whole table.
pub struct Entry {
    pub at: u64,
    pub access: Access,
}

/// A thread's pass.
pub struct PassRight<P> {
    /// The number of the thread.
    pub thread: u64,
    /// The entries of the accesses that were made with this pass, in their order.
    pub made: LinkedList<Entry>,
    /// What it knows beside that.
    pub own: P,
}

/// The root of a key.
pub struct RootRight<R> {
    /// The number of the key.
    pub key: u64,
    /// The entries of the accesses that were made with this root alone, in their order.
    pub made: LinkedList<Entry>,
    /// What it knows beside that.
    pub own: R,
}

/// A right: the pass of a thread, or the root of a key.
pub enum Right<P, R> {
    Pass(PassRight<P>),
    Root(RootRight<R>),
}

/// Names what a right knows where a type is asked for. It has no field but a false fact, so no value of it is made, and
/// the type of a table does not spell out what its rights know.
pub struct Knowledge<T> {
    of: PhantomData<T>,
    ghost none: { ⊥ },
}

impl<T> Model for Knowledge<T> {
    ghost Value = { T };

    ghost view = { λ s. absurd s.none };
}
