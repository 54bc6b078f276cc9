//! Letting a lock go, and the value that it guards.
ghost use Rattle.std.specs.Prelude.{true, false, ◌≡◌, ◌<◌, MatchBool, None};
ghost use mathlib.Core.Option.{some};
ghost use lib.ListN.{get_elem?};
ghost use Rattle.lot_events.specs.declared.events.Event.TheVariants.{Free, Pass};
ghost use Rattle.lot_events.specs.declared.events.Seen.TheVariants.{Bool as Saw, Sleeper};
ghost use Rattle.lot_core.specs.Steps.{SaysMore, first as first_of};
ghost use Rattle.lot_rights.specs.declared.views.Access.TheVariants.{Makes};
ghost use Rattle.lot_words.specs.World.{Holds, HoldsParked};
ghost use Rattle.lot_words.specs.Values.{IsIn, IsOut, HasSeen, MayBecome, MayLie, IsAtHome, in_slot, place_of};
ghost use Rattle.lot_words.specs.Calls.{finding_parked, letting_go, passed_root, word_left};
ghost use Rattle.lot_words.specs.declared.views.Place.{Place};
ghost use Rattle.lot_words.specs.declared.views.Place.TheVariants.{InSlot, Out};
ghost use Rattle.lot_whole.specs.Family.{lock};
ghost use Rattle.lot_whole.specs.Standing.{MayLetGo, IsLockRoot, as_lock};
ghost use Rattle.lot_whole.specs.Calls.{NotesIn, RootIs, placed_in};

use crate::kind::{LotPass, LotRoot};
use crate::words::{HELD, LOCK_PARKED, LotWords, UNHELD};
use lot_rights::word_of_key;
use lot_words::Keeps;
use std::marker::Brand;

/// The word of a lock that is let go, of whose line this was the first.
#[inline(always)]
fn word_after(first: Option<usize>, more: bool) -> u64
    ensures { result ≡ word_left first more }
{
    match first {
        None => UNHELD,
        Some(_) => { if more { LOCK_PARKED } else { UNHELD } }
    }
}

impl<V: Keeps> LotWords<V> {
    /// Lets the lock go where nobody is marked as parked on it, by one compare-exchange, and says whether it did: the
    /// fast path of WTF's `Lock::unlock`, and the action before sleep of a wait. Where it did not, the lock is still
    /// held, and `pass_on` may follow. The event is Free.
    #[inline(always)]
    pub fn free(&self, pass: LotPass<V>, key: usize) -> (LotPass<V>, bool)
        requires table { pass.table ≡ self.now.table }
        requires key { key < self.now.size.locks }
        requires may { MayLetGo pass.own key }
        requires holds { Holds pass.own.locks key }
        requires lies { (y : V) × IsIn pass.own.locks key y }
        ensures table { result.0.table ≡ pass.table }
        ensures event { MatchBool result.1
            ((y : V) → IsIn pass.own.locks key y → NotesIn lock pass (letting_go pass.own.locks key y)
            (Makes (Free pass.thread key) (Saw true)) result.0)
            (NotesIn lock pass (finding_parked pass.own.locks key)
            (Makes (Free pass.thread key) (Saw false)) result.0) }
    {
        let words = &self.words;
        let word = word_of_key(key);
        let (pass, found) = words.compare_exchange::<Brand, usize>(pass, word, HELD, UNHELD, key);
        (pass, found == HELD)
    }

    /// Passes on a lock that `free` found parked, by one access, while the bucket of the lock is locked: the callback
    /// of WTF's `Lock::unlockSlow`. `first` is the first of the line. Where the pass is fair, that thread gets the
    /// lock: its word stays, by one load. Else the lock is let go by one store, marked as parked where more threads
    /// may wait. The root then owes that thread a letter, with token 1 where the pass is fair and else 0. The event
    /// is Pass.
    ///
    /// Where two threads or more are in the line and the pass isn't fair, `more` has to be true; a pass to nobody
    /// can't be fair.
    pub fn pass_on(
        &self,
        pass: LotPass<V>,
        root: LotRoot<V>,
        first: Option<usize>,
        fair: bool,
        more: bool,
    ) -> (LotPass<V>, LotRoot<V>)
        requires table { (pass.table ≡ self.now.table) × (root.table ≡ self.now.table) }
        requires lock { IsLockRoot root.own }
        requires may { MayLetGo pass.own root.key }
        requires holds { HoldsParked pass.own.locks root.key }
        requires lies { (y : V) × IsIn pass.own.locks root.key y }
        requires first { (first_of (as_lock root.own).line ≡ first) × ((as_lock root.own).owes ≡ None) }
        requires more { fair ≡ false → SaysMore (as_lock root.own).line more }
        requires fair { first ≡ None → fair ≡ false }
        ensures table { (result.0.table ≡ pass.table) × (result.1.table ≡ root.table) }
        ensures event { (y : V) → IsIn pass.own.locks root.key y
            → NotesIn lock pass (letting_go pass.own.locks root.key y)
            (Makes (Pass pass.thread root.key fair more) (Sleeper first)) result.0 }
        ensures root { RootIs lock root
            (passed_root (as_lock root.own) fair (as_lock root.own).line) result.1 }
    {
        let words = &self.words;
        let word = root.word();
        let left = word_after(first, more);
        if fair {
            let (pass, root, _) = words.load_both::<Brand, bool>(pass, root, word, more);
            (pass, root)
        } else {
            words.store_both::<Brand, bool>(pass, root, word, left, more)
        }
    }

    /// Takes the lock's value out of its slot. The lock stays held, and nobody else sees that the value is out.
    #[inline]
    pub fn value_out(&self, pass: LotPass<V>, key: usize) -> (LotPass<V>, V)
        requires table { pass.table ≡ self.now.table }
        requires key { key < self.now.size.locks }
        requires holds { Holds pass.own.locks key }
        requires lies { (y : V) × IsIn pass.own.locks key y }
        ensures pass { (result.0.table ≡ pass.table)
            × (result.0 ≡ record pass { own = placed_in pass.own key Out }) }
        ensures value { IsIn pass.own.locks key result.1 }
        ensures out { IsOut result.0.own.locks key }
    {
        let (pass, found) = self.exchange_value(pass, key, None);
        let Some(value) = found else { unreachable!() };
        (pass, value)
    }

    /// Puts a value into the lock's slot, out of which the pass took one. It keeps the caller's rule, has grown from
    /// the value that the pass found when it got the lock, and has the other threads' parts of that.
    #[inline]
    pub fn value_in(&self, pass: LotPass<V>, key: usize, value: V) -> LotPass<V>
        requires table { pass.table ≡ self.now.table }
        requires key { key < self.now.size.locks }
        requires holds { Holds pass.own.locks key × IsOut pass.own.locks key }
        requires lawful { (x : V) × HasSeen pass.own.locks key x × MayBecome V.Keeps key pass.thread x value }
        ensures pass { (result.table ≡ pass.table)
            × (result ≡ record pass { own = placed_in pass.own key (InSlot value) }) }
        ensures lies { IsIn result.own.locks key value }
    {
        let (pass, found) = self.exchange_value(pass, key, Some(value));
        let None = found else { unreachable!() };
        pass
    }

    // What lies in the slot is known to the pass, and what comes into it may lie there.
    #[inline]
    fn exchange_value(
        &self,
        pass: LotPass<V>,
        key: usize,
        new: Option<V>,
    ) -> (LotPass<V>, Option<V>)
        requires table { pass.table ≡ self.now.table }
        requires key { key < self.now.size.locks }
        requires holds { Holds pass.own.locks key }
        requires home { (place : Place V) × (get_elem? pass.own.locks.places key ≡ some place) × IsAtHome place }
        requires lawful { (x : V) → HasSeen pass.own.locks key x
            → MayLie V.Keeps key pass.thread x (place_of new) }
        ensures pass { (result.0.table ≡ pass.table)
            × (result.0 ≡ record pass { own = placed_in pass.own key (place_of new) }) }
        ensures found { (place : Place V) → get_elem? pass.own.locks.places key ≡ some place
            → result.1 ≡ in_slot place }
    {
        let words = &self.words;
        words.exchange::<Brand, ()>(pass, key, new, ())
    }
}
