//! Letters, by which a thread is told that it was taken from a line.
ghost use Rattle.std.specs.Prelude.{◌≡◌, MatchOption};
ghost use Rattle.lot_rights.specs.declared.views.Access.TheVariants.{Posts};
ghost use Rattle.lot_rights.specs.Steps.{RootNotes};
ghost use Rattle.lot_whole.specs.Calls.{OwesLetter, paid, FoundNone, Collected};

use crate::kind::{LotLyingRoot, LotPass};
use crate::words::LotWords;
use lot_rights::Lying;
use lot_words::Keeps;
use std::marker::Brand;

impl<V: Keeps> LotWords<V> {
    /// Posts a letter that the root of a key owes, by one store, while the bucket of the key is still locked. The store
    /// is the same for keys of all kinds, so a root that lies without its number will do.
    pub fn post(&self, root: LotLyingRoot<V>, thread: usize, token: u32) -> LotLyingRoot<V>
        requires table { root.table ≡ self.now.table }
        requires owes { OwesLetter root.own thread token }
        ensures table { result.table ≡ root.table }
        ensures posted { RootNotes root (paid root.own thread) (Posts root.key thread token) result }
    {
        let words = &self.words;
        words.post::<Brand, Lying>(root, thread, token)
    }

    /// Collects the pass's letter, by one swap, and answers its token where a letter lay. Whose letter it is the pass
    /// tells: of a lock, with token 0 where the thread may try again, and 1 where the lock was handed to it; of a
    /// condition, whose wait has ended; or of a semaphore, with which it may try again. A pass that is away nowhere
    /// has no letter. A thread that sleeps calls it until a letter lies; what wakes it tells nothing.
    pub fn collect(&self, pass: LotPass<V>) -> (LotPass<V>, Option<u32>)
        requires { pass.table ≡ self.now.table }
        ensures table { result.0.table ≡ pass.table }
        ensures letter { MatchOption result.1 (FoundNone pass result.0)
            (λ token. Collected V.Keeps pass token result.0) }
    {
        let words = &self.words;
        words.collect::<Brand>(pass)
    }
}
