//! Giving a permit back.
ghost use Rattle.std.specs.Prelude.{◌≡◌, [], None};
ghost use Rattle.lot_events.specs.declared.events.Event.TheVariants.{SemPass as Passes, SemClear};
ghost use Rattle.lot_events.specs.declared.events.Seen.TheVariants.{Done, Sleeper};
ghost use Rattle.lot_core.specs.Steps.{SaysMore, first as first_of};
ghost use Rattle.lot_rights.specs.declared.views.Access.TheVariants.{Makes};
ghost use Rattle.lot_rights.specs.Steps.{Notes};
ghost use Rattle.lot_sems.specs.World.{IsAmong};
ghost use Rattle.lot_sems.specs.Calls.{IsCalm, MayGive, Frees, one_permit_less, passed_root, raise_of};

use crate::kind::{SemPass, SemRoot};
use crate::words::{PARKED, PERMIT, SemWords};
use lot_rights::word_of_key;
use std::marker::Brand;

/// All bits of a word but the parked bit.
const ALL_BUT_PARKED: u64 = u64::MAX - 1;

/// What is added to the word of a semaphore of which a permit comes back, and of whose line this was the first: the
/// permit, less the parked bit where nobody may be left behind that thread.
#[inline(always)]
fn raise(first: Option<usize>, more: bool) -> u64
    ensures { result ≡ raise_of first more }
{
    match first {
        None => PERMIT,
        Some(_) => { if more { PERMIT } else { PERMIT - PARKED } }
    }
}

impl SemWords {
    /// Gives a permit back where nobody is marked as parked, and says whether it did: the fast path of a release. It is
    /// a look, and where that found nobody marked, one compare-exchange of the word that was seen. Where somebody is
    /// marked, or the exchange found another word, the thread still has the permit, and `pass_on` may follow. The event
    /// is SemFree.
    #[inline(always)]
    pub fn free(&self, pass: SemPass, key: usize) -> (SemPass, bool)
        requires table { pass.table ≡ self.now.table }
        requires key { IsAmong self.now.size key }
        requires may { MayGive pass.own key }
        ensures table { result.0.table ≡ pass.table }
        ensures entries { Frees pass key result.1 result.0 }
    {
        let words = &self.words;
        let word = word_of_key(key);
        let (pass, seen) = words.load::<Brand, usize>(pass, word, key);
        if seen & PARKED != 0 {
            return (pass, false);
        }
        let (pass, found) = words.compare_exchange::<Brand, usize>(
            pass,
            word,
            seen,
            seen.wrapping_add(PERMIT),
            key,
        );
        (pass, found == seen)
    }

    /// Gives a permit back, by one fetch-add, while the bucket of the semaphore is locked. `first` is the first of the
    /// line, to whom the root then owes a letter, with which that thread may try again; the parked bit goes where there
    /// was one and no more threads may wait. With an empty line the bit stays, and `clear` may follow. The event is
    /// SemPass.
    ///
    /// Where two threads or more are in the line, `more` has to be true.
    pub fn pass_on(
        &self,
        pass: SemPass,
        root: SemRoot,
        first: Option<usize>,
        more: bool,
    ) -> (SemPass, SemRoot)
        requires table { (pass.table ≡ self.now.table) × (root.table ≡ self.now.table) }
        requires may { MayGive pass.own root.key }
        requires first { (first_of root.own.line ≡ first) × (root.own.owes ≡ None) }
        requires more { SaysMore root.own.line more }
        ensures table { (result.0.table ≡ pass.table) × (result.1.table ≡ root.table) }
        ensures entry { Notes pass (one_permit_less pass.own root.key)
            (Makes (Passes pass.thread root.key more) (Sleeper first)) result.0 }
        ensures root { result.1 ≡ record root { own = passed_root root.own root.own.line } }
    {
        let words = &self.words;
        let word = root.word();
        let given = raise(first, more);
        let (pass, root, _) = words.fetch_add_both::<Brand, bool>(pass, root, word, given, more);
        (pass, root)
    }

    /// Clears the parked bit of a semaphore in whose line nobody is, by one fetch-and, while the bucket of the
    /// semaphore is locked. The event is SemClear.
    pub fn clear(&self, pass: SemPass, root: SemRoot) -> (SemPass, SemRoot)
        requires table { (pass.table ≡ self.now.table) × (root.table ≡ self.now.table) }
        requires calm { IsCalm pass.own }
        requires nobody { root.own.line ≡ [] }
        ensures table { (result.0.table ≡ pass.table) × (result.1.table ≡ root.table) }
        ensures entry { Notes pass pass.own
            (Makes (SemClear pass.thread root.key) Done) result.0 }
        ensures root { result.1 ≡ root }
    {
        let words = &self.words;
        let word = root.word();
        let (pass, root, _) = words.fetch_and_both::<Brand, ()>(
            pass,
            root,
            word,
            ALL_BUT_PARKED,
            (),
        );
        (pass, root)
    }
}
