//! Queueing on a condition, and letters.
ghost use Rattle.std.specs.Prelude.{◌≡◌, MatchOption};
ghost use Rattle.std.specs.List.{Contains};
ghost use Rattle.lot_core.specs.Parts.{IsAmongConds};
ghost use Rattle.lot_events.specs.declared.events.Event.TheVariants.{Enlist};
ghost use Rattle.lot_events.specs.declared.events.Seen.TheVariants.{Done};
ghost use Rattle.lot_rights.specs.declared.views.Access.TheVariants.{Makes, Posts};
ghost use Rattle.lot_rights.specs.Steps.{Notes, RootNotes};
ghost use Rattle.lot_conds.specs.Calls.{IsCalm, enlisted, enlisted_root, paid_root, FoundNone, Collected};

use crate::kind::{CondPass, CondRoot};
use crate::words::{CondWords, HAS_WAITERS};
use lot_rights::{Numbered, word_of_key};
use std::marker::Brand;

/// The token of all letters of conditions.
const TOKEN: u32 = 0;

impl CondWords {
    /// Queues the thread last on the root's condition and sets its flag, by one store: the validation of WTF's
    /// `Condition::wait`, which runs while the bucket of the condition is locked. The event is Enlist. It stands in the
    /// history with lock 0; which lock the thread has the caller alone knows, since it makes no difference to the
    /// condition (`laws::an_enlist_is_so_with_each_lock`).
    pub fn enlist(&self, pass: CondPass, root: CondRoot) -> (CondPass, CondRoot)
        requires table { (pass.table ≡ self.now.table) × (root.table ≡ self.now.table) }
        requires calm { IsCalm pass.own }
        ensures table { (result.0.table ≡ pass.table) × (result.1.table ≡ root.table) }
        ensures event { Notes pass (enlisted pass.own root.key)
            (Makes (Enlist pass.thread root.key 0) Done) result.0 }
        ensures root { result.1 ≡ record root { own = enlisted_root root.own pass.thread } }
    {
        let words = &self.words;
        let word = root.word();
        words.store_both::<Brand, ()>(pass, root, word, HAS_WAITERS, ())
    }

    /// Posts a letter that the root owes, by one store, while the bucket of the condition is still locked.
    pub fn post(&self, root: CondRoot, thread: usize) -> CondRoot
        requires table { root.table ≡ self.now.table }
        requires owes { Contains root.own.owes thread }
        ensures table { result.table ≡ root.table }
        ensures posted { RootNotes root (paid_root root.own thread)
            (Posts root.key thread 0) result }
    {
        let words = &self.words;
        words.post::<Brand, Numbered>(root, thread, TOKEN)
    }

    /// Collects the pass's letter, by one swap, and answers its token, which is 0, where a letter lay: the thread was
    /// taken from the condition's line, and its wait has ended. A pass that is out nowhere has no letter. A thread that
    /// waits calls it until a letter lies; what wakes it tells nothing.
    pub fn collect(&self, pass: CondPass) -> (CondPass, Option<u32>)
        requires { pass.table ≡ self.now.table }
        ensures table { result.0.table ≡ pass.table }
        ensures letter { MatchOption result.1 (FoundNone pass result.0)
            (λ token. Collected pass token result.0) }
    {
        let words = &self.words;
        words.collect::<Brand>(pass)
    }

    /// The condition's flag as it was just now, 0 or 1. It is an observation, of which nothing is promised.
    #[inline(always)]
    pub fn bits(&self, key: usize) -> u64
        requires { IsAmongConds self.now.size.locks self.now.size.conds key }
    {
        self.words.peek(word_of_key(key))
    }
}
