//! Queueing on a semaphore.
ghost use Rattle.std.specs.Prelude.{◌≡◌};
ghost use Rattle.lot_events.specs.declared.events.Event.TheVariants.{SemPark};
ghost use Rattle.lot_events.specs.declared.events.Seen.TheVariants.{Bool as Saw};
ghost use Rattle.lot_rights.specs.declared.views.Access.TheVariants.{Makes};
ghost use Rattle.lot_rights.specs.Steps.{Notes};
ghost use Rattle.lot_sems.specs.Calls.{IsSeeking, parked_pass, parked_root};

use crate::kind::{SemPass, SemRoot};
use crate::words::{PARKED, SemWords};
use std::marker::Brand;

impl SemWords {
    /// Queues the thread last on the root's semaphore where no permit is left and it is marked as parked, by one load,
    /// and says whether it did: the validation of a park, which runs while the bucket of the semaphore is locked. The
    /// event is SemPark.
    pub fn park(&self, pass: SemPass, root: SemRoot) -> (SemPass, SemRoot, bool)
        requires table { (pass.table ≡ self.now.table) × (root.table ≡ self.now.table) }
        requires seeks { IsSeeking pass.own root.key }
        ensures table { (result.0.table ≡ pass.table) × (result.1.table ≡ root.table) }
        ensures entry { Notes pass (parked_pass pass.own result.2)
            (Makes (SemPark pass.thread root.key) (Saw result.2)) result.0 }
        ensures root { result.1 ≡ record root { own = parked_root root.own pass.thread result.2 } }
    {
        let words = &self.words;
        let word = root.word();
        let (pass, root, found) = words.load_both::<Brand, ()>(pass, root, word, ());
        (pass, root, found == PARKED)
    }
}
