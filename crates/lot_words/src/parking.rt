//! Queueing on a lock.
ghost use Rattle.std.specs.Prelude.{false, ◌≡◌, Some};
ghost use Rattle.lot_events.specs.declared.events.Event.TheVariants.{Park};
ghost use Rattle.lot_events.specs.declared.events.Seen.TheVariants.{Bool as Saw};
ghost use Rattle.lot_rights.specs.declared.views.Access.TheVariants.{Makes};
ghost use Rattle.lot_rights.specs.Steps.{Notes};
ghost use Rattle.lot_words.specs.Calls.{parked_pass, parked_root};

use crate::keeps::Keeps;
use crate::kind::{LockPass, LockRoot};
use crate::words::{HELD_AND_PARKED, LockWords};
use std::marker::Brand;

impl<V: Keeps> LockWords<V> {
    /// Queues the thread last on the root's lock where the lock is held and parked, by one load, and says whether it
    /// did: the validation of WTF's `Lock::lockSlow`, which runs while the bucket of the lock is locked. The event is
    /// Park.
    pub fn park(&self, pass: LockPass<V>, root: LockRoot<V>) -> (LockPass<V>, LockRoot<V>, bool)
        requires table { (pass.table ≡ self.now.table) × (root.table ≡ self.now.table) }
        requires calm { (pass.own.asleep ≡ false) × (pass.own.aim ≡ Some root.key) }
        ensures table { (result.0.table ≡ pass.table) × (result.1.table ≡ root.table) }
        ensures event { Notes pass (parked_pass pass.own result.2)
            (Makes (Park pass.thread root.key) (Saw result.2)) result.0 }
        ensures root { result.1 ≡ record root { own = parked_root root.own pass.thread result.2 } }
    {
        let words = &self.words;
        let word = root.word();
        let (pass, root, found) = words.load_both::<Brand, ()>(pass, root, word, ());
        (pass, root, found == HELD_AND_PARKED)
    }
}
