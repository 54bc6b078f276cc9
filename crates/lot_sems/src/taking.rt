//! Taking a permit: a look at the semaphore's word, and one compare-exchange of it where a permit is left.
ghost use Rattle.std.specs.Prelude.{◌≡◌, ◌≢◌, ℕ, MatchBool};
ghost use Rattle.lot_events.specs.declared.events.Event.TheVariants.{SemMark};
ghost use Rattle.lot_events.specs.declared.events.Seen.TheVariants.{Done};
ghost use Rattle.lot_rights.specs.declared.views.Access.TheVariants.{Makes, Finds};
ghost use Rattle.lot_rights.specs.Steps.{Notes};
ghost use Rattle.lot_sems.specs.World.{IsAmong};
ghost use Rattle.lot_sems.specs.Calls.{IsCalm, MayTake, IsSeeking, IsAnyLeft, Tries, Takes, TakesFrom, taken_after};

use crate::kind::SemPass;
use crate::words::{NONE_LEFT, PARKED, PERMIT, SemWords};
use lot_rights::word_of_key;
use std::marker::Brand;

/// What came of a try to take a permit.
#[derive(Clone, Copy, Debug, Drop, PartialEq)]
pub enum Taken {
    /// The thread has one permit more.
    Got,
    /// A look found that no permit is left.
    Empty,
    /// A look found a permit, and the exchange that followed found another word than the look. Nothing changed, and it
    /// may be tried again.
    Busy,
}

impl Taken {
    /// What came of an exchange, which was made or not.
    #[inline(always)]
    pub fn after(made: bool) -> Taken
        ensures { result ≡ taken_after made }
    {
        if made { Taken::Got } else { Taken::Busy }
    }
}

impl SemWords {
    /// Takes a permit where one is left, and else leaves all as it was. A look finds no permit: Empty; else one
    /// compare-exchange takes one from the word that was seen: Got, or Busy where it found another. The event is
    /// SemTake, and made for a permit that was got alone.
    #[inline(always)]
    pub fn try_take(&self, pass: SemPass, key: usize) -> (SemPass, Taken)
        requires table { pass.table ≡ self.now.table }
        requires key { IsAmong self.now.size key }
        requires calm { IsCalm pass.own }
        ensures table { result.0.table ≡ pass.table }
        ensures entries { Tries pass key result.1 result.0 }
    {
        let words = &self.words;
        let (pass, was) = words.load::<Brand, usize>(pass, word_of_key(key), key);
        if was < PERMIT {
            return (pass, Taken::Empty);
        }
        self.take_from(pass, key, was)
    }

    /// Takes a permit where one is left, as `try_take` does; where the look finds none, the thread seeks one from now
    /// on: the first step of getting a permit, and each further try. The event is SemTake. A thread that sleeps can't
    /// take.
    #[inline(always)]
    pub fn take(&self, pass: SemPass, key: usize) -> (SemPass, Taken)
        requires table { pass.table ≡ self.now.table }
        requires key { IsAmong self.now.size key }
        requires may { MayTake pass.own key }
        ensures table { result.0.table ≡ pass.table }
        ensures entries { Takes pass key result.1 result.0 }
    {
        let words = &self.words;
        let (pass, seen) = words.load::<Brand, usize>(pass, word_of_key(key), key);
        if seen < PERMIT {
            return (pass, Taken::Empty);
        }
        self.take_from(pass, key, seen)
    }

    /// Takes a permit from the word that a look found, by one compare-exchange: Got, or Busy where it found another
    /// word. The event is SemTake.
    #[inline(always)]
    fn take_from(&self, pass: SemPass, key: usize, seen: u64) -> (SemPass, Taken)
        requires table { pass.table ≡ self.now.table }
        requires key { IsAmong self.now.size key }
        requires may { MayTake pass.own key }
        requires left { IsAnyLeft seen }
        ensures table { result.0.table ≡ pass.table }
        ensures entry { TakesFrom pass key seen result.1 result.0 }
    {
        let words = &self.words;
        let (pass, found) = words.compare_exchange::<Brand, usize>(
            pass,
            word_of_key(key),
            seen,
            seen - PERMIT,
            key,
        );
        (pass, Taken::after(found == seen))
    }

    /// Marks a semaphore of which no permit is left as parked, by one compare-exchange, and says whether it did. The
    /// event is SemMark; where the word was another, the entry says which. A thread that is about to park calls it, as
    /// in WTF's `Lock::lockSlow`.
    pub fn mark(&self, pass: SemPass, key: usize) -> (SemPass, bool)
        requires table { pass.table ≡ self.now.table }
        requires key { IsAmong self.now.size key }
        requires seeks { IsSeeking pass.own key }
        ensures table { result.0.table ≡ pass.table }
        ensures entry { MatchBool result.1
            (Notes pass pass.own (Makes (SemMark pass.thread key) Done) result.0)
            ((word : ℕ) × (word ≢ 0) × Notes pass pass.own (Finds pass.thread key word) result.0) }
    {
        let words = &self.words;
        let word = word_of_key(key);
        let (pass, found) = words.compare_exchange::<Brand, usize>(
            pass, word, NONE_LEFT, PARKED, key,
        );
        (pass, found == NONE_LEFT)
    }
}
