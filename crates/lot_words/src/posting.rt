//! Letters, by which a thread is told that it was taken from a line.
ghost use Rattle.std.specs.Prelude.{◌≡◌, ◌<◌, MatchOption, Some, None};
ghost use Rattle.lot_rights.specs.declared.views.Access.TheVariants.{Posts};
ghost use Rattle.lot_rights.specs.Steps.{RootNotes};
ghost use Rattle.lot_words.specs.Calls.{paid_root, FoundNone, Collected};

use crate::keeps::Keeps;
use crate::kind::{LockPass, LockRoot};
use crate::words::LockWords;
use lot_rights::{Numbered, word_of_key};
use std::marker::Brand;

impl<V: Keeps> LockWords<V> {
    /// Posts the letter that the root owes, by one store, while the bucket of the lock is still locked.
    pub fn post(&self, root: LockRoot<V>, thread: usize, token: u32) -> LockRoot<V>
        requires table { root.table ≡ self.now.table }
        requires owes { root.own.owes ≡ Some (thread, token) }
        ensures table { result.table ≡ root.table }
        ensures posted { RootNotes root (paid_root root.own) (Posts root.key thread token) result }
    {
        let words = &self.words;
        words.post::<Brand, Numbered>(root, thread, token)
    }

    /// Collects the pass's letter, by one swap, and answers its token where a letter lay: 0 where the thread may try
    /// again, 1 where the lock was handed to it. A pass that does not sleep has no letter. A thread that sleeps calls
    /// it until a letter lies; what wakes it tells nothing.
    pub fn collect(&self, pass: LockPass<V>) -> (LockPass<V>, Option<u32>)
        requires { pass.table ≡ self.now.table }
        ensures table { result.0.table ≡ pass.table }
        ensures letter { MatchOption result.1 (FoundNone pass result.0)
            (λ token. Collected V.Keeps pass token result.0) }
    {
        let words = &self.words;
        words.collect::<Brand>(pass)
    }

    /// The lock's word as it was just now: bit 1 says held and bit 2 parked. It is an observation, of which nothing is
    /// promised.
    #[inline(always)]
    pub fn bits(&self, key: usize) -> u64
        requires { key < self.now.size.locks }
    {
        self.words.peek(word_of_key(key))
    }
}
