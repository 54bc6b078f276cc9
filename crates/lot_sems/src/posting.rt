//! Letters, by which a thread is told that it was taken from a line.
ghost use Rattle.std.specs.Prelude.{◌≡◌, MatchOption, Some};
ghost use Rattle.lot_rights.specs.declared.views.Access.TheVariants.{Posts};
ghost use Rattle.lot_rights.specs.Steps.{RootNotes};
ghost use Rattle.lot_sems.specs.World.{IsAmong};
ghost use Rattle.lot_sems.specs.Calls.{paid_root, FoundNone, Collected};

use crate::kind::{SemPass, SemRoot};
use crate::words::SemWords;
use lot_rights::{Numbered, word_of_key};
use std::marker::Brand;

/// The token of all letters of semaphores.
const TOKEN: u32 = 0;

impl SemWords {
    /// Posts the letter that the root owes, by one store, while the bucket of the semaphore is still locked.
    pub fn post(&self, root: SemRoot, thread: usize) -> SemRoot
        requires table { root.table ≡ self.now.table }
        requires owes { root.own.owes ≡ Some thread }
        ensures table { result.table ≡ root.table }
        ensures posted { RootNotes root (paid_root root.own) (Posts root.key thread 0) result }
    {
        let words = &self.words;
        words.post::<Brand, Numbered>(root, thread, TOKEN)
    }

    /// Collects the pass's letter, by one swap, and answers its token, which is 0, where a letter lay: the thread was
    /// taken from the semaphore's line, and may try again. A pass that does not sleep has no letter. A thread that
    /// sleeps calls it until a letter lies; what wakes it tells nothing.
    pub fn collect(&self, pass: SemPass) -> (SemPass, Option<u32>)
        requires { pass.table ≡ self.now.table }
        ensures table { result.0.table ≡ pass.table }
        ensures letter { MatchOption result.1 (FoundNone pass result.0)
            (λ token. Collected pass token result.0) }
    {
        let words = &self.words;
        words.collect::<Brand>(pass)
    }

    /// The semaphore's word as it was just now: twice the permits that are left, and 1 more where it is marked as
    /// parked. It is an observation, of which nothing is promised.
    #[inline(always)]
    pub fn bits(&self, key: usize) -> u64
        requires { IsAmong self.now.size key }
    {
        self.words.peek(word_of_key(key))
    }
}
