//! The journal of an object.
ghost use Rattle.std.specs.Prelude.{◌≡◌, ◌≢◌, ℕ, [], ◌∷◌, ◌++◌, IfOk, OnErr};

use crate::entry::Entry;
use crate::fault::JournalFault;
use crate::sequential::Sequential;
use lot_words::Keeps;
use std::alloc::Global;
use std::collections::LinkedList;
use std::marker::Model;

/// An object with the history of all calls that were made on it, and the object that it began with.
///
/// Make one for each lock by `new`, and let the lock's owner `call`: what it puts back then keeps the rule, has grown,
/// and has the calls of the other threads unchanged.
#[derive(Drop)]
pub struct Journal<O: Sequential> {
    opening: O,
    history: Vec<Entry<O::Call, O::Reply>>,
    object: O,
}

impl<O: Sequential> Model for Journal<O> {
    ghost use Rattle.lot_journal.specs.Journal.{JournalView};

    ghost Value = { JournalView O O.Call O.Reply };

    ghost view = { λ s. record { opening = s.opening; history = s.history.items; object = s.object } };
}

impl<O: Sequential> Keeps for Journal<O> {
    ghost use Rattle.lot_journal.specs.Journal.{IsLegalJournal, GoesOn, calls_of, goes_on_itself, goes_on_on};

    /// The entries of one thread, in order. Contracts see this type as the list itself; no value of it is made.
    type Part = LinkedList<Entry<O::Call, O::Reply>>;

    ghost keeps = { λ key journal. IsLegalJournal O.after O.reply journal };

    ghost grows = { GoesOn };

    ghost part = { calls_of };

    ghost grows_itself = { goes_on_itself };

    ghost grows_on = { goes_on_on };
}

impl<O: Sequential> Journal<O> {
    ghost use Rattle.lot_journal.specs.Journal.{IsLegalJournal, GoesOn, calls_of, IsCalled};

    /// A journal with no calls yet. The two objects have to be equal; the first is kept unchanged as the opening
    /// object. Later calls take their memory from `alloc`.
    ///
    /// `let journal = Journal::new(alloc, Counter { total: 0 }, Counter { total: 0 });`
    pub fn new(alloc: Global, opening: O, object: O) -> Journal<O>
        requires { opening ≡ object }
        ensures { result ≡ record { opening = opening; history = []; object = opening } }
    {
        Journal {
            opening,
            history: Vec::new(alloc),
            object,
        }
    }

    /// Makes the call on the object for the thread, and adds it with its reply to the end of the history.
    ///
    /// `NoMemory`: there was no room for the entry, and nothing changed.
    ///
    /// `let total = held.value_mut().call(pass.thread(), Add(1))?;`
    pub fn call(&mut self, thread: usize, call: O::Call) -> Result<O::Reply, JournalFault>
        ensures made { IfOk result (λ reply. IsCalled O.after O.reply self.old thread call reply self.new) }
        ensures refused { OnErr result (self.new ≡ self.old) }
        ensures legal { IsLegalJournal O.after O.reply self.old → IsLegalJournal O.after O.reply self.new }
        ensures grown { GoesOn self.old self.new }
        ensures others { (t : ℕ) → t ≢ thread → calls_of t self.old ≡ calls_of t self.new }
        ensures own { IfOk result
            (λ reply. calls_of thread self.new ≡ calls_of thread self.old
            ++ record { thread = thread; call = call; reply = reply } ∷ []) }
    {
        self.history.reserve(1)?;
        let reply = self.object.apply(&call);
        let entry = Entry {
            thread,
            call,
            reply,
        };
        self.history.push_reserved(entry);
        Ok(reply)
    }

    /// The object now, to be read: `journal.object().total`. Only a call changes it.
    pub fn object(&self) -> &O
        ensures { result.now ≡ self.now.object }
    {
        &self.object
    }

    /// The entries of all calls, first to last: `journal.history().last()` is the newest.
    pub fn history(&self) -> &[Entry<O::Call, O::Reply>]
        ensures { result.now ≡ self.now.history }
    {
        self.history.as_slice()
    }
}
