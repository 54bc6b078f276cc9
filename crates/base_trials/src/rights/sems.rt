//! Schedules of three threads' calls on one semaphore with one permit, made by hand in one thread, with the words that
//! they leave. The semaphore's number is 1, since one key comes before it.
ghost use Rattle.std.specs.Prelude.{◌≡◌, ℕ, ◌<◌, [], ◌∷◌, MatchBool, Some, None};
ghost use Rattle.std.specs.List.{All, Any};
ghost use Rattle.lot_core.specs.Sound.{IsSoundSemaphorePart};
ghost use Rattle.lot_rights.specs.Shown.{PassShown, RootShown};
ghost use Rattle.base_trials.specs.SemSchedules.{IsOne, IsOf, IsFree, Has, Seeks, Sleeps, HasLine, AreIdle};
ghost use Rattle.lot_sems.specs.declared.views.SemPassView.{SemPassView};
ghost use Rattle.lot_sems.specs.declared.views.SemRootView.{SemRootView};
ghost use Rattle.lot_sems.specs.World.{IsAmong, permits_of};
ghost use Rattle.lot_sems.specs.Calls.{MayTake};
ghost use Rattle.lot_sems.specs.declared.taking.Taken.TheVariants.{Got, Empty};
ghost use Rattle.lot_sems.specs.Closing.{IsToldTo};

use crate::asserts::{answer_is, bits_are, letter_is};
use crate::taking::take_three;
use lot_sems::laws::every_run_is_sound;
use lot_sems::{SemPass, SemRoot, SemWords, Taken};
use std::process::Abort;
use std::test::*;

/// The passes of three threads, and the root of the semaphore.
type Rights = (SemPass, SemPass, SemPass, SemRoot);

/// The semaphore, on which three threads make their calls.
#[derive(Drop)]
struct OneSem<'a, R> {
    rt: &'a R,
    words: &'a SemWords,
    ghost one: { IsOne words.now.size },
}

impl<R: Abort> OneSem<'_, R> {
    // Takes a permit, or finds none, and seeks one.
    fn take(&self, pass: SemPass, wanted: Taken) -> SemPass
        requires pass { IsOf self.now.words.now.table pass.thread pass × MayTake pass.own 1 }
        ensures got { wanted ≡ Got → Has self.now.words.now.table pass.thread result }
        ensures empty { wanted ≡ Empty → Seeks self.now.words.now.table pass.thread result }
    {
        let (pass, taken) = self.words.take(pass, 1);
        taken_is(self.rt, taken, wanted);
        pass
    }

    // Gives a permit back, unless somebody is marked as parked.
    fn free(&self, pass: SemPass, wanted: bool) -> SemPass
        requires { Has self.now.words.now.table pass.thread pass }
        ensures { MatchBool wanted (IsFree self.now.words.now.table pass.thread result)
            (Has self.now.words.now.table pass.thread result) }
    {
        let (pass, freed) = self.words.free(pass, 1);
        answer_is(self.rt, freed, wanted);
        pass
    }

    // Marks the semaphore as parked, where no permit is left and it is not marked already.
    fn mark(&self, pass: SemPass, wanted: bool) -> SemPass
        requires { Seeks self.now.words.now.table pass.thread pass }
        ensures { Seeks self.now.words.now.table pass.thread result }
    {
        let (pass, marked) = self.words.mark(pass, 1);
        answer_is(self.rt, marked, wanted);
        pass
    }

    // Queues the thread, where no permit is left.
    fn lie_down(&self, pass: SemPass, root: SemRoot) -> (SemPass, SemRoot)
        requires pass { Seeks self.now.words.now.table pass.thread pass }
        requires root { HasLine self.now.words.now.table [] root }
        ensures pass { Sleeps self.now.words.now.table pass.thread result.0 }
        ensures root { HasLine self.now.words.now.table (pass.thread ∷ []) result.1 }
    {
        let (pass, root, queued) = self.words.park(pass, root);
        answer_is(self.rt, queued, true);
        (pass, root)
    }

    // Looks for a letter: where one lies there, the thread may try again.
    fn collect(&self, pass: SemPass, wanted: Option<u32>) -> SemPass
        requires { Sleeps self.now.words.now.table pass.thread pass }
        ensures none { wanted ≡ None → Sleeps self.now.words.now.table pass.thread result }
        ensures some { wanted ≡ Some 0 → Seeks self.now.words.now.table pass.thread result }
    {
        let (pass, letter) = self.words.collect(pass);
        letter_is(self.rt, letter, wanted);
        pass
    }

    // The word of the semaphore is this.
    fn word_is(&self, bits: u64) {
        bits_are(self.rt, self.words.bits(1), bits);
    }

    // The first has the permit; the second sleeps, is woken by the first, and finds that the third came first.
    fn one_permit(&self, rights: Rights) -> Rights
        requires { AreIdle self.now.words.now.table rights.0 rights.1 rights.2 rights.3 }
        ensures { AreIdle self.now.words.now.table result.0 result.1 result.2 result.3 }
    {
        let (zero, one, two, root) = rights;
        self.word_is(2);
        let zero = self.take(zero, Taken::Got);
        let one = self.take(one, Taken::Empty);
        self.word_is(0);
        let one = self.mark(one, true);
        let (one, root) = self.lie_down(one, root);
        self.word_is(1);
        let zero = self.free(zero, false);
        let (zero, root) = self.words.pass_on(zero, root, Some(1), false);
        self.word_is(2);
        let one = self.collect(one, None);
        let root = self.words.post(root, 1);
        let one = self.collect(one, Some(0));
        let two = self.take(two, Taken::Got);
        let one = self.take(one, Taken::Empty);
        let two = self.free(two, true);
        let one = self.take(one, Taken::Got);
        self.word_is(0);
        let one = self.free(one, true);
        self.word_is(2);
        (zero, one, two, root)
    }

    // Two sleep. The first release wakes one of them and leaves the bit for the other, whom the second wakes.
    fn two_sleepers(&self, rights: Rights) -> Rights
        requires { AreIdle self.now.words.now.table rights.0 rights.1 rights.2 rights.3 }
        ensures { AreIdle self.now.words.now.table result.0 result.1 result.2 result.3 }
    {
        let (zero, one, two, root) = rights;
        let zero = self.take(zero, Taken::Got);
        let one = self.take(one, Taken::Empty);
        let two = self.take(two, Taken::Empty);
        let one = self.mark(one, true);
        let two = self.mark(two, false);
        let (one, root) = self.lie_down(one, root);
        let (two, root, queued) = self.words.park(two, root);
        answer_is(self.rt, queued, true);
        let (zero, root) = self.words.pass_on(zero, root, Some(1), true);
        self.word_is(3);
        let root = self.words.post(root, 1);
        let one = self.collect(one, Some(0));
        let one = self.take(one, Taken::Got);
        self.word_is(1);
        let (one, root) = self.words.pass_on(one, root, Some(2), false);
        self.word_is(2);
        let root = self.words.post(root, 2);
        let two = self.collect(two, Some(0));
        let two = self.take(two, Taken::Got);
        let two = self.free(two, true);
        (zero, one, two, root)
    }

    // A thread that is about to park finds that a permit came back, and the bit is cleared.
    fn late_release(&self, rights: Rights) -> Rights
        requires { AreIdle self.now.words.now.table rights.0 rights.1 rights.2 rights.3 }
        ensures { AreIdle self.now.words.now.table result.0 result.1 result.2 result.3 }
    {
        let (zero, one, two, root) = rights;
        let (zero, taken) = self.words.try_take(zero, 1);
        taken_is(self.rt, taken, Taken::Got);
        let (one, taken) = self.words.try_take(one, 1);
        taken_is(self.rt, taken, Taken::Empty);
        let one = self.take(one, Taken::Empty);
        let one = self.mark(one, true);
        let (zero, root) = self.words.pass_on(zero, root, None, true);
        self.word_is(3);
        let (one, root, queued) = self.words.park(one, root);
        answer_is(self.rt, queued, false);
        let (zero, root) = self.words.clear(zero, root);
        self.word_is(2);
        let one = self.take(one, Taken::Got);
        let one = self.free(one, true);
        (zero, one, two, root)
    }
}

// What became of a try is this, or the test fails.
fn taken_is(rt: &impl Abort, taken: Taken, wanted: Taken)
    ensures { taken ≡ wanted }
{
    assert_eq!(rt; taken, wanted);
}

// Ends the table: the history that is told of leaves a sound part of the model.
fn close_soundly(words: SemWords, passes: Vec<SemPass>, roots: Vec<SemRoot>)
    requires table { All (λ (p : PassShown SemPassView). p.table ≡ words.table) passes.items
        × All (λ (q : RootShown SemRootView). q.table ≡ words.table) roots.items }
    requires passes { (t : ℕ) → t < words.size.threads
        → Any (λ (p : PassShown SemPassView). p.thread ≡ t) passes.items }
    requires roots { (k : ℕ) → IsAmong words.size k → Any (λ (q : RootShown SemRootView). q.key ≡ k) roots.items }
    ensures { (told : IsToldTo words.size passes.items roots.items)
        × IsSoundSemaphorePart words.size.threads (permits_of words.size) told.recounted.part }
{
    every_run_is_sound();
    words.close(passes, roots);
}

#[test]
fn a_permit_goes_round(rt: HostRuntime) -> Result<(), Fail> {
    let permits = vec![in rt.alloc(); 1; 1]?;
    let (words, mut passes, mut roots) = SemWords::open(rt.alloc(), 3, 1, permits)?;
    let (zero, one, two) = take_three(&mut passes);
    let root = roots.take_last();
    let sem = OneSem {
        rt: &rt,
        words: &words,
    };
    let rights = sem.one_permit((zero, one, two, root));
    let rights = sem.two_sleepers(rights);
    let (zero, one, two, root) = sem.late_release(rights);
    passes.push_reserved(zero);
    passes.push_reserved(one);
    passes.push_reserved(two);
    roots.push_reserved(root);
    close_soundly(words, passes, roots);
    Ok(())
}
