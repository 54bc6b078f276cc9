//! Getting a lock: one access of its word.
ghost use Rattle.std.specs.Prelude.{true, false, ◌≡◌, ◌≢◌, ℕ, ◌<◌, MatchBool, None, Some};
ghost use Rattle.lot_events.specs.declared.events.Event.TheVariants.{Try, Take, Mark};
ghost use Rattle.lot_events.specs.declared.events.Seen.TheVariants.{Bool as Saw, Done};
ghost use Rattle.lot_rights.specs.declared.views.Access.TheVariants.{Makes, Finds};
ghost use Rattle.lot_rights.specs.Steps.{Notes};
ghost use Rattle.lot_words.specs.Calls.{Aims, wanting, GetsBy};

use crate::keeps::Keeps;
use crate::kind::LockPass;
use crate::words::{HELD, HELD_AND_PARKED, LockWords, UNHELD};
use lot_rights::word_of_key;
use std::marker::Brand;

impl<V: Keeps> LockWords<V> {
    /// Gets the lock where it is unheld, and else leaves all as it was: WTF's `Lock::tryLock`. The event is Try.
    #[inline(always)]
    pub fn try_take(&self, pass: LockPass<V>, key: usize) -> (LockPass<V>, bool)
        requires table { pass.table ≡ self.now.table }
        requires key { key < self.now.size.locks }
        requires calm { (pass.own.asleep ≡ false) × (pass.own.aim ≡ None) }
        ensures table { result.0.table ≡ pass.table }
        ensures event { MatchBool result.1
            (GetsBy V.Keeps pass key (Makes (Try pass.thread key) (Saw true)) result.0)
            (Notes pass pass.own (Makes (Try pass.thread key) (Saw false)) result.0) }
    {
        let words = &self.words;
        let (pass, was) = words.fetch_or::<Brand, usize>(pass, word_of_key(key), HELD, key);
        (pass, was & HELD == 0)
    }

    /// Gets the lock where it is unheld, and else the thread wants it from now on: the first step of WTF's
    /// `Lock::lock`, and each further try of its slow path. The event is Take. A thread that sleeps can't take.
    #[inline(always)]
    pub fn take(&self, pass: LockPass<V>, key: usize) -> (LockPass<V>, bool)
        requires table { pass.table ≡ self.now.table }
        requires key { key < self.now.size.locks }
        requires calm { (pass.own.asleep ≡ false) × Aims pass.own key }
        ensures table { result.0.table ≡ pass.table }
        ensures event { MatchBool result.1
            (GetsBy V.Keeps pass key (Makes (Take pass.thread key) (Saw true)) result.0)
            (Notes pass (wanting pass.own key)
            (Makes (Take pass.thread key) (Saw false)) result.0) }
    {
        let words = &self.words;
        let (pass, found) = words.fetch_or::<Brand, usize>(pass, word_of_key(key), HELD, key);
        (pass, found & HELD == 0)
    }

    /// Gets the lock where its word is 0, by one compare-exchange; the event is Take. Else no event is made, and the
    /// pass is as it was. The answer is the word as it was, as the entry says too. A `lock` begins so: where nobody
    /// owns the lock and nobody is parked, that is its one access.
    #[inline(always)]
    pub fn take_free(&self, pass: LockPass<V>, key: usize) -> (LockPass<V>, u64)
        requires table { pass.table ≡ self.now.table }
        requires key { key < self.now.size.locks }
        requires calm { (pass.own.asleep ≡ false) × Aims pass.own key }
        ensures table { result.0.table ≡ pass.table }
        ensures got { result.1 ≡ 0 → GetsBy V.Keeps pass key (Makes (Take pass.thread key) (Saw true)) result.0 }
        ensures missed { result.1 ≢ 0 → Notes pass pass.own (Finds pass.thread key result.1) result.0 }
    {
        let words = &self.words;
        words.compare_exchange::<Brand, usize>(pass, word_of_key(key), UNHELD, HELD, key)
    }

    /// Marks a held, unparked lock as parked, by one compare-exchange, and says whether it did. The event is Mark;
    /// where the word was another, the entry says which. A thread that wants the lock, and is about to park, calls it,
    /// as WTF's `Lock::lockSlow` does.
    pub fn mark(&self, pass: LockPass<V>, key: usize) -> (LockPass<V>, bool)
        requires table { pass.table ≡ self.now.table }
        requires key { key < self.now.size.locks }
        requires calm { (pass.own.asleep ≡ false) × (pass.own.aim ≡ Some key) }
        ensures table { result.0.table ≡ pass.table }
        ensures entry { MatchBool result.1
            (Notes pass pass.own (Makes (Mark pass.thread key) Done) result.0)
            ((word : ℕ) × (word ≢ 1) × Notes pass pass.own (Finds pass.thread key word) result.0) }
    {
        let words = &self.words;
        let word = word_of_key(key);
        let (pass, found) = words.compare_exchange::<Brand, usize>(
            pass,
            word,
            HELD,
            HELD_AND_PARKED,
            key,
        );
        (pass, found == HELD)
    }
}
