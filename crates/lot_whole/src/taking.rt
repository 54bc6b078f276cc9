//! Getting a lock: one access of its word.
ghost use Rattle.std.specs.Prelude.{true, false, ◌≡◌, ◌≢◌, ℕ, ◌<◌, MatchBool};
ghost use Rattle.lot_events.specs.declared.events.Event.TheVariants.{Try, Take, Mark, Park};
ghost use Rattle.lot_events.specs.declared.events.Seen.TheVariants.{Bool as Saw, Done};
ghost use Rattle.lot_rights.specs.declared.views.Access.TheVariants.{Makes};
ghost use Rattle.lot_words.specs.Calls.{wanting, parked_pass, parked_root};
ghost use Rattle.lot_whole.specs.Family.{lock};
ghost use Rattle.lot_whole.specs.Standing.{IsIdle, MayTake, MayWant, MayLineUp, IsLockRoot, as_lock};
ghost use Rattle.lot_whole.specs.Calls.{NotesIn, FindsOf, RootIs, GetsBy};

use crate::kind::{LotPass, LotRoot};
use crate::words::{HELD, HELD_AND_PARKED, LotWords, UNHELD};
use lot_rights::word_of_key;
use lot_words::Keeps;
use std::marker::Brand;

impl<V: Keeps> LotWords<V> {
    /// Gets the lock where it is unheld, and else leaves all as it was: WTF's `Lock::tryLock`. The event is Try.
    #[inline(always)]
    pub fn try_take(&self, pass: LotPass<V>, key: usize) -> (LotPass<V>, bool)
        requires table { pass.table ≡ self.now.table }
        requires key { key < self.now.size.locks }
        requires idle { IsIdle pass.own }
        ensures table { result.0.table ≡ pass.table }
        ensures event { MatchBool result.1
            (GetsBy V.Keeps pass key (Makes (Try pass.thread key) (Saw true)) result.0)
            (NotesIn lock pass pass.own.locks (Makes (Try pass.thread key) (Saw false)) result.0) }
    {
        let words = &self.words;
        let (pass, was) = words.fetch_or::<Brand, usize>(pass, word_of_key(key), HELD, key);
        (pass, was & HELD == 0)
    }

    /// Gets the lock where it is unheld, and else the thread wants it from now on: the first step of WTF's
    /// `Lock::lock`, and each further try of its slow path, also of a thread that rests on a condition. The event is
    /// Take. A thread that sleeps can't take, and one that stands idle has only keys that lie below the lock.
    #[inline(always)]
    pub fn take(&self, pass: LotPass<V>, key: usize) -> (LotPass<V>, bool)
        requires table { pass.table ≡ self.now.table }
        requires key { key < self.now.size.locks }
        requires may { MayWant V.above pass.own key }
        ensures table { result.0.table ≡ pass.table }
        ensures event { MatchBool result.1
            (GetsBy V.Keeps pass key (Makes (Take pass.thread key) (Saw true)) result.0)
            (NotesIn lock pass (wanting pass.own.locks key)
            (Makes (Take pass.thread key) (Saw false)) result.0) }
    {
        let words = &self.words;
        let (pass, found) = words.fetch_or::<Brand, usize>(pass, word_of_key(key), HELD, key);
        (pass, found & HELD == 0)
    }

    /// Gets the lock where its word is 0, by one compare-exchange; the event is Take. Else no event is made, and the
    /// pass is as it was. The answer is the word as it was, as the entry says too. A `lock` begins so: where nobody
    /// owns the lock and nobody is parked, that is its one access.
    #[inline(always)]
    pub fn take_free(&self, pass: LotPass<V>, key: usize) -> (LotPass<V>, u64)
        requires table { pass.table ≡ self.now.table }
        requires key { key < self.now.size.locks }
        requires may { MayTake pass.own key }
        ensures table { result.0.table ≡ pass.table }
        ensures got { result.1 ≡ 0 → GetsBy V.Keeps pass key (Makes (Take pass.thread key) (Saw true)) result.0 }
        ensures missed { result.1 ≢ 0 → FindsOf pass key result.1 result.0 }
    {
        let words = &self.words;
        words.compare_exchange::<Brand, usize>(pass, word_of_key(key), UNHELD, HELD, key)
    }

    /// Marks a held, unparked lock as parked, by one compare-exchange, and says whether it did. The event is Mark;
    /// where the word was another, the entry says which. A thread that wants the lock, and is about to park, calls
    /// it, as WTF's `Lock::lockSlow` does.
    pub fn mark(&self, pass: LotPass<V>, key: usize) -> (LotPass<V>, bool)
        requires table { pass.table ≡ self.now.table }
        requires key { key < self.now.size.locks }
        requires may { MayLineUp pass.own key }
        ensures table { result.0.table ≡ pass.table }
        ensures entry { MatchBool result.1
            (NotesIn lock pass pass.own.locks (Makes (Mark pass.thread key) Done) result.0)
            ((word : ℕ) × (word ≢ 1) × FindsOf pass key word result.0) }
    {
        let words = &self.words;
        let word = word_of_key(key);
        let (pass, found) = words.compare_exchange::<Brand, usize>(
            pass,
            word,
            HELD,
            HELD_AND_PARKED,
            key,
        );
        (pass, found == HELD)
    }

    /// Queues the thread last on the root's lock where the lock is held and parked, by one load, and says whether it
    /// did: the validation of WTF's `Lock::lockSlow`, which runs while the bucket of the lock is locked. The event is
    /// Park.
    pub fn park(&self, pass: LotPass<V>, root: LotRoot<V>) -> (LotPass<V>, LotRoot<V>, bool)
        requires table { (pass.table ≡ self.now.table) × (root.table ≡ self.now.table) }
        requires lock { IsLockRoot root.own }
        requires may { MayLineUp pass.own root.key }
        ensures table { (result.0.table ≡ pass.table) × (result.1.table ≡ root.table) }
        ensures event { NotesIn lock pass (parked_pass pass.own.locks result.2)
            (Makes (Park pass.thread root.key) (Saw result.2)) result.0 }
        ensures root { RootIs lock root
            (parked_root (as_lock root.own) pass.thread result.2) result.1 }
    {
        let words = &self.words;
        let word = root.word();
        let (pass, root, found) = words.load_both::<Brand, ()>(pass, root, word, ());
        (pass, root, found == HELD_AND_PARKED)
    }
}
