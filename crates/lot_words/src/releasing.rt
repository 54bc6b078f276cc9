//! Letting a lock go.
ghost use Rattle.std.specs.Prelude.{true, false, ◌≡◌, ◌<◌, MatchBool, None};
ghost use Rattle.lot_events.specs.declared.events.Event.TheVariants.{Free, Pass};
ghost use Rattle.lot_events.specs.declared.events.Seen.TheVariants.{Bool as Saw, Sleeper};
ghost use Rattle.lot_core.specs.Steps.{SaysMore, first as first_of};
ghost use Rattle.lot_rights.specs.declared.views.Access.TheVariants.{Makes};
ghost use Rattle.lot_rights.specs.Steps.{Notes};
ghost use Rattle.lot_words.specs.World.{Holds, HoldsParked};
ghost use Rattle.lot_words.specs.Values.{IsIn};
ghost use Rattle.lot_words.specs.Calls.{finding_parked, letting_go, passed_root, word_left};

use crate::keeps::Keeps;
use crate::kind::{LockPass, LockRoot};
use crate::words::{HELD, LockWords, PARKED, UNHELD};
use lot_rights::word_of_key;
use std::marker::Brand;

/// The word of a lock that is let go, of whose line this was the first.
#[inline(always)]
fn word_after(first: Option<usize>, more: bool) -> u64
    ensures { result ≡ word_left first more }
{
    match first {
        None => UNHELD,
        Some(_) => { if more { PARKED } else { UNHELD } }
    }
}

impl<V: Keeps> LockWords<V> {
    /// Lets the lock go where nobody is marked as parked on it, by one compare-exchange, and says whether it did: the
    /// fast path of WTF's `Lock::unlock`. Where it did not, the lock is still held, and `pass_on` may follow. The event
    /// is Free.
    #[inline(always)]
    pub fn free(&self, pass: LockPass<V>, key: usize) -> (LockPass<V>, bool)
        requires table { pass.table ≡ self.now.table }
        requires key { key < self.now.size.locks }
        requires holds { (pass.own.asleep ≡ false) × (pass.own.aim ≡ None) × Holds pass.own key }
        requires lies { (y : V) × IsIn pass.own key y }
        ensures table { result.0.table ≡ pass.table }
        ensures event { MatchBool result.1
            ((y : V) → IsIn pass.own key y → Notes pass (letting_go pass.own key y)
            (Makes (Free pass.thread key) (Saw true)) result.0)
            (Notes pass (finding_parked pass.own key)
            (Makes (Free pass.thread key) (Saw false)) result.0) }
    {
        let words = &self.words;
        let word = word_of_key(key);
        let (pass, found) = words.compare_exchange::<Brand, usize>(pass, word, HELD, UNHELD, key);
        (pass, found == HELD)
    }

    /// Passes on a lock that `free` found parked, by one access, while the bucket of the lock is locked: the callback
    /// of WTF's `Lock::unlockSlow`. `first` is the first of the line. Where the pass is fair, that thread gets the
    /// lock: its word stays, by one load. Else the lock is let go by one store, marked as parked where more threads may
    /// wait. The root then owes that thread a letter, with token 1 where the pass is fair and else 0. The event is
    /// Pass.
    ///
    /// Where two threads or more are in the line and the pass isn't fair, `more` has to be true; a pass to nobody can't
    /// be fair.
    pub fn pass_on(
        &self,
        pass: LockPass<V>,
        root: LockRoot<V>,
        first: Option<usize>,
        fair: bool,
        more: bool,
    ) -> (LockPass<V>, LockRoot<V>)
        requires table { (pass.table ≡ self.now.table) × (root.table ≡ self.now.table) }
        requires holds { (pass.own.asleep ≡ false) × (pass.own.aim ≡ None)
            × HoldsParked pass.own root.key }
        requires lies { (y : V) × IsIn pass.own root.key y }
        requires first { (first_of root.own.line ≡ first) × (root.own.owes ≡ None) }
        requires more { fair ≡ false → SaysMore root.own.line more }
        requires fair { first ≡ None → fair ≡ false }
        ensures table { (result.0.table ≡ pass.table) × (result.1.table ≡ root.table) }
        ensures event { (y : V) → IsIn pass.own root.key y
            → Notes pass (letting_go pass.own root.key y)
            (Makes (Pass pass.thread root.key fair more) (Sleeper first)) result.0 }
        ensures root { result.1 ≡ record root { own = passed_root root.own fair root.own.line } }
    {
        let words = &self.words;
        let word = root.word();
        let left = word_after(first, more);
        if fair {
            let (pass, root, _) = words.load_both::<Brand, bool>(pass, root, word, more);
            (pass, root)
        } else {
            words.store_both::<Brand, bool>(pass, root, word, left, more)
        }
    }
}
