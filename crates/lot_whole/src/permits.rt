//! Permits: taken, queued for, and given back.
ghost use Rattle.std.specs.Prelude.{true, ◌≡◌, ◌≢◌, ℕ, [], MatchBool, None};
ghost use Rattle.lot_events.specs.declared.events.Event.TheVariants.{SemMark, SemPark, SemPass as Passes, SemClear};
ghost use Rattle.lot_events.specs.declared.events.Seen.TheVariants.{Bool as Saw, Done, Sleeper};
ghost use Rattle.lot_core.specs.Steps.{SaysMore, first as first_of};
ghost use Rattle.lot_rights.specs.declared.views.Access.TheVariants.{Makes};
ghost use Rattle.lot_sems.specs.Calls.{IsAnyLeft, one_permit_less, parked_pass, parked_root, passed_root, raise_of};
ghost use Rattle.lot_whole.specs.Family.{sem, IsKeyIn};
ghost use Rattle.lot_whole.specs.Standing.{IsIdle, MayTakePermit, MayWantPermit, MaySeek, MayGive, IsSemRoot, as_sem};
ghost use Rattle.lot_whole.specs.Calls.{NotesIn, FindsOf, RootIs, TakesFrom, TriesPermit, TakesPermit, FreesPermit};

use crate::kind::{LotPass, LotRoot};
use crate::words::{LotWords, NONE_LEFT, PERMIT, SEM_PARKED};
use lot_rights::word_of_key;
use lot_sems::Taken;
use lot_words::Keeps;
use std::marker::Brand;

/// All bits of a word but the parked bit.
const ALL_BUT_PARKED: u64 = u64::MAX - 1;

/// What is added to the word of a semaphore of which a permit comes back, and of whose line this was the first: the
/// permit, less the parked bit where nobody may be left behind that thread.
#[inline(always)]
fn raise(first: Option<usize>, more: bool) -> u64
    ensures { result ≡ raise_of first more }
{
    match first {
        None => PERMIT,
        Some(_) => { if more { PERMIT } else { PERMIT - SEM_PARKED } }
    }
}

impl<V: Keeps> LotWords<V> {
    /// Takes a permit where one is left, and else leaves all as it was: a look, and where that found a permit, one
    /// compare-exchange of the word that was seen. Busy is answered where the exchange found another word. The event
    /// is SemTake.
    #[inline(always)]
    pub fn try_take_permit(&self, pass: LotPass<V>, key: usize) -> (LotPass<V>, Taken)
        requires table { pass.table ≡ self.now.table }
        requires key { IsKeyIn self.now.size sem key }
        requires idle { IsIdle pass.own }
        ensures table { result.0.table ≡ pass.table }
        ensures entries { TriesPermit pass key result.1 result.0 }
    {
        let words = &self.words;
        let (pass, was) = words.load::<Brand, usize>(pass, word_of_key(key), key);
        if was < PERMIT {
            return (pass, Taken::Empty);
        }
        self.take_from(pass, key, was)
    }

    /// Takes a permit where one is left, as `try_take_permit` does; where the look finds none, the thread seeks one
    /// from now on: the first step of getting a permit, and each further try. The event is SemTake. A thread that
    /// sleeps can't take, and one that stands idle has only keys that lie below the semaphore.
    #[inline(always)]
    pub fn take_permit(&self, pass: LotPass<V>, key: usize) -> (LotPass<V>, Taken)
        requires table { pass.table ≡ self.now.table }
        requires key { IsKeyIn self.now.size sem key }
        requires may { MayWantPermit V.above pass.own key }
        ensures table { result.0.table ≡ pass.table }
        ensures entries { TakesPermit pass key result.1 result.0 }
    {
        let words = &self.words;
        let (pass, seen) = words.load::<Brand, usize>(pass, word_of_key(key), key);
        if seen < PERMIT {
            return (pass, Taken::Empty);
        }
        self.take_from(pass, key, seen)
    }

    /// Takes a permit from the word that a look found, by one compare-exchange: Got, or Busy where it found another
    /// word. The event is SemTake.
    #[inline(always)]
    fn take_from(&self, pass: LotPass<V>, key: usize, seen: u64) -> (LotPass<V>, Taken)
        requires table { pass.table ≡ self.now.table }
        requires key { IsKeyIn self.now.size sem key }
        requires may { MayTakePermit pass.own key }
        requires left { IsAnyLeft seen }
        ensures table { result.0.table ≡ pass.table }
        ensures entry { TakesFrom pass key seen result.1 result.0 }
    {
        let words = &self.words;
        let (pass, found) = words.compare_exchange::<Brand, usize>(
            pass,
            word_of_key(key),
            seen,
            seen - PERMIT,
            key,
        );
        (pass, Taken::after(found == seen))
    }

    /// Marks a semaphore of which no permit is left as parked, by one compare-exchange, and says whether it did. The
    /// event is SemMark; where the word was another, the entry says which. A thread that is about to park calls it,
    /// as in WTF's `Lock::lockSlow`.
    pub fn mark_permit(&self, pass: LotPass<V>, key: usize) -> (LotPass<V>, bool)
        requires table { pass.table ≡ self.now.table }
        requires key { IsKeyIn self.now.size sem key }
        requires seeks { MaySeek pass.own key }
        ensures table { result.0.table ≡ pass.table }
        ensures entry { MatchBool result.1
            (NotesIn sem pass pass.own.sems (Makes (SemMark pass.thread key) Done) result.0)
            ((word : ℕ) × (word ≢ 0) × FindsOf pass key word result.0) }
    {
        let words = &self.words;
        let word = word_of_key(key);
        let (pass, found) = words.compare_exchange::<Brand, usize>(
            pass, word, NONE_LEFT, SEM_PARKED, key,
        );
        (pass, found == NONE_LEFT)
    }

    /// Queues the thread last on the root's semaphore where no permit is left and it is marked as parked, by one
    /// load, and says whether it did: the validation of a park, which runs while the bucket of the semaphore is
    /// locked. The event is SemPark.
    pub fn park_permit(&self, pass: LotPass<V>, root: LotRoot<V>) -> (LotPass<V>, LotRoot<V>, bool)
        requires table { (pass.table ≡ self.now.table) × (root.table ≡ self.now.table) }
        requires sem { IsSemRoot root.own }
        requires seeks { MaySeek pass.own root.key }
        ensures table { (result.0.table ≡ pass.table) × (result.1.table ≡ root.table) }
        ensures entry { NotesIn sem pass (parked_pass pass.own.sems result.2)
            (Makes (SemPark pass.thread root.key) (Saw result.2)) result.0 }
        ensures root { RootIs sem root
            (parked_root (as_sem root.own) pass.thread result.2) result.1 }
    {
        let words = &self.words;
        let word = root.word();
        let (pass, root, found) = words.load_both::<Brand, ()>(pass, root, word, ());
        (pass, root, found == SEM_PARKED)
    }

    /// Gives a permit back where nobody is marked as parked, and says whether it did: the fast path of a release. It
    /// is a look, and where that found nobody marked, one compare-exchange of the word that was seen. Where somebody
    /// is marked, or the exchange found another word, the thread still has the permit, and `pass_permit` may follow.
    /// The event is SemFree.
    #[inline(always)]
    pub fn free_permit(&self, pass: LotPass<V>, key: usize) -> (LotPass<V>, bool)
        requires table { pass.table ≡ self.now.table }
        requires key { IsKeyIn self.now.size sem key }
        requires may { MayGive pass.own key }
        ensures table { result.0.table ≡ pass.table }
        ensures entries { FreesPermit pass key result.1 result.0 }
    {
        let words = &self.words;
        let word = word_of_key(key);
        let (pass, seen) = words.load::<Brand, usize>(pass, word, key);
        if seen & SEM_PARKED != 0 {
            return (pass, false);
        }
        let (pass, found) = words.compare_exchange::<Brand, usize>(
            pass,
            word,
            seen,
            seen.wrapping_add(PERMIT),
            key,
        );
        (pass, found == seen)
    }

    /// Gives a permit back, by one fetch-add, while the bucket of the semaphore is locked. `first` is the first of
    /// the line, to whom the root then owes a letter, with which that thread may try again; the parked bit goes where
    /// there was one and no more threads may wait. With an empty line the bit stays, and `clear` may follow. The
    /// event is SemPass.
    ///
    /// Where two threads or more are in the line, `more` has to be true.
    pub fn pass_permit(
        &self,
        pass: LotPass<V>,
        root: LotRoot<V>,
        first: Option<usize>,
        more: bool,
    ) -> (LotPass<V>, LotRoot<V>)
        requires table { (pass.table ≡ self.now.table) × (root.table ≡ self.now.table) }
        requires sem { IsSemRoot root.own }
        requires may { MayGive pass.own root.key }
        requires first { (first_of (as_sem root.own).line ≡ first) × ((as_sem root.own).owes ≡ None) }
        requires more { SaysMore (as_sem root.own).line more }
        ensures table { (result.0.table ≡ pass.table) × (result.1.table ≡ root.table) }
        ensures entry { NotesIn sem pass (one_permit_less pass.own.sems root.key)
            (Makes (Passes pass.thread root.key more) (Sleeper first)) result.0 }
        ensures root { RootIs sem root
            (passed_root (as_sem root.own) (as_sem root.own).line) result.1 }
    {
        let words = &self.words;
        let word = root.word();
        let given = raise(first, more);
        let (pass, root, _) = words.fetch_add_both::<Brand, bool>(pass, root, word, given, more);
        (pass, root)
    }

    /// Clears the parked bit of a semaphore in whose line nobody is, by one fetch-and, while the bucket of the
    /// semaphore is locked. The event is SemClear.
    pub fn clear(&self, pass: LotPass<V>, root: LotRoot<V>) -> (LotPass<V>, LotRoot<V>)
        requires table { (pass.table ≡ self.now.table) × (root.table ≡ self.now.table) }
        requires sem { IsSemRoot root.own }
        requires idle { IsIdle pass.own }
        requires nobody { (as_sem root.own).line ≡ [] }
        ensures table { (result.0.table ≡ pass.table) × (result.1.table ≡ root.table) }
        ensures entry { NotesIn sem pass pass.own.sems
            (Makes (SemClear pass.thread root.key) Done) result.0 }
        ensures root { result.1 ≡ root }
    {
        let words = &self.words;
        let word = root.word();
        let (pass, root, _) = words.fetch_and_both::<Brand, ()>(
            pass,
            root,
            word,
            ALL_BUT_PARKED,
            (),
        );
        (pass, root)
    }
}
