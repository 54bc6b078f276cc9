//! Schedules of two threads' calls on two locks, made by hand in one thread, with the words that they leave.
ghost use Rattle.std.specs.Prelude.{false, ◌≡◌, ◌<◌, ◌≤◌, [], ◌∷◌, length, slice_set, IfOk, MatchBool, Some, None};
ghost use Rattle.lot_words.specs.declared.views.Hold.TheVariants.{NotHeld, Held};
ghost use Rattle.lot_core.specs.Steps.{first as first_of};
ghost use Rattle.lot_words.specs.Calls.{passed_root, Aims};
ghost use Rattle.base_trials.specs.LockSchedules.{IsPass, IsCalm, HasNothing, Wants, Sleeps, Owns, MayFree, MayPass};
ghost use Rattle.base_trials.specs.LockSchedules.{IsRoot, Gets, ComesToWant, StaysCalm, LetsGo, FindsParked};
ghost use Rattle.base_trials.specs.LockSchedules.{AreFresh, AreBack};

use super::owners::{close_soundly, collect_any, take_any};
use super::tally::Tally;
use crate::asserts::{answer_is, bits_are, equal, letter_is};
use lot_core::MAX_THREADS;
use lot_words::{LockPass, LockRoot, LockWords};
use std::alloc::{AllocError, Global};
use std::process::Abort;
use std::test::*;

type Pass = LockPass<Tally>;

/// The passes of two threads, and the root of a lock.
type Rights = (Pass, Pass, LockRoot<Tally>);

/// Two locks, on which two threads make their calls.
#[derive(Drop)]
struct TwoLocks<'a, R> {
    rt: &'a R,
    words: &'a LockWords<Tally>,
    ghost two: { words.now.size.locks ≡ 2 },
}

impl<R: Abort> TwoLocks<'_, R> {
    // The lock is taken, and is got or not: then it is wanted from now on.
    fn take(&self, pass: Pass, key: usize, wanted: bool) -> Pass
        requires key { key < 2 }
        requires pass { IsPass self.now.words.now.table pass.thread pass }
        requires may { (pass.own.asleep ≡ false) × Aims pass.own key }
        ensures pass { IsPass self.now.words.now.table pass.thread result }
        ensures answer { MatchBool wanted (Gets pass.own key result.own) (ComesToWant pass.own key result.own) }
    {
        let (pass, got) = take_any(self.words, pass, key);
        answer_is(self.rt, got, wanted);
        pass
    }

    // It is tried, and is got or not.
    fn try_take(&self, pass: Pass, key: usize, wanted: bool) -> Pass
        requires key { key < 2 }
        requires pass { IsPass self.now.words.now.table pass.thread pass × IsCalm pass.own }
        ensures pass { IsPass self.now.words.now.table pass.thread result }
        ensures answer { MatchBool wanted (Gets pass.own key result.own) (StaysCalm pass.own result.own) }
    {
        let (pass, got) = self.words.try_take(pass, key);
        answer_is(self.rt, got, wanted);
        pass
    }

    // Finds this in the lock, and adds one.
    fn count(&self, pass: Pass, key: usize, found: u64) -> Pass
        requires found { found < 1000 }
        requires key { key < 2 }
        requires pass { IsPass self.now.words.now.table pass.thread pass × Owns pass.own key }
        ensures pass { IsPass self.now.words.now.table pass.thread result × MayFree result.own key }
        ensures holds { result.own.holds ≡ pass.own.holds }
    {
        let (pass, tally) = self.words.value_out(pass, key);
        bits_are(self.rt, tally.total, found);
        self.words.value_in(pass, key, Tally { total: found + 1 })
    }

    // Lets the lock go, unless it is found parked.
    fn free(&self, pass: Pass, key: usize, wanted: bool) -> Pass
        requires key { key < 2 }
        requires pass { IsPass self.now.words.now.table pass.thread pass × MayFree pass.own key }
        ensures pass { IsPass self.now.words.now.table pass.thread result }
        ensures answer { MatchBool wanted (LetsGo pass.own key result.own) (FindsParked pass.own key result.own) }
    {
        let (pass, freed) = self.words.free(pass, key);
        answer_is(self.rt, freed, wanted);
        pass
    }

    // Marks the held lock as parked, and goes into its line, which is empty.
    fn lie_down(&self, pass: Pass, root: LockRoot<Tally>, key: usize) -> (Pass, LockRoot<Tally>)
        requires key { key < 2 }
        requires pass { IsPass self.now.words.now.table pass.thread pass × Wants pass.own key }
        requires root { IsRoot self.now.words.now.table key [] root }
        ensures pass { IsPass self.now.words.now.table pass.thread result.0 × Sleeps result.0.own key }
        ensures holds { result.0.own.holds ≡ pass.own.holds }
        ensures root { IsRoot self.now.words.now.table key (pass.thread ∷ []) result.1 }
    {
        let (pass, marked) = self.words.mark(pass, key);
        answer_is(self.rt, marked, true);
        let (pass, root, queued) = self.words.park(pass, root);
        answer_is(self.rt, queued, true);
        (pass, root)
    }

    // Passes the lock on, where at most one is in the line.
    fn pass_on(
        &self,
        pass: Pass,
        root: LockRoot<Tally>,
        first: Option<usize>,
        fair: bool,
    ) -> (Pass, LockRoot<Tally>)
        requires pass { IsPass self.now.words.now.table pass.thread pass × MayPass pass.own root.key }
        requires root { (root.table ≡ self.now.words.now.table) × (length root.own.line ≤ 1) × (root.own.owes ≡ None) }
        requires first { first_of root.own.line ≡ first }
        requires fair { first ≡ None → fair ≡ false }
        ensures pass { IsPass self.now.words.now.table pass.thread result.0 × IsCalm result.0.own }
        ensures holds { result.0.own.holds ≡ slice_set pass.own.holds root.key NotHeld }
        ensures root { (result.1.table ≡ self.now.words.now.table) × (result.1.key ≡ root.key)
            × (result.1.own ≡ passed_root root.own fair root.own.line) }
    {
        self.words.pass_on(pass, root, first, fair, false)
    }

    fn collect(&self, pass: Pass, key: usize) -> (Pass, Option<u32>)
        requires pass { IsPass self.now.words.now.table pass.thread pass × Sleeps pass.own key }
        requires key { key < 2 }
        ensures pass { IsPass self.now.words.now.table pass.thread result.0 }
        ensures barging { result.1 ≡ Some 0 → Wants result.0.own key
            × (result.0.own.holds ≡ pass.own.holds) }
        ensures handed { result.1 ≡ Some 1 → Owns result.0.own key
            × (result.0.own.holds ≡ slice_set pass.own.holds key Held) }
        ensures none { result.1 ≡ None → Sleeps result.0.own key × (result.0.own.holds ≡ pass.own.holds) }
    {
        collect_any(self.words, pass)
    }

    // The word of the lock is this.
    fn word_is(&self, key: usize, bits: u64)
        requires { key < 2 }
    {
        bits_are(self.rt, self.words.bits(key), bits);
    }

    // Two threads take the lock 0, one after the other: the first hands it to the second, which sleeps by then.
    fn hand_over(&self, rights: Rights) -> Rights
        requires { AreFresh self.now.words.now.table 0 rights.0 rights.1 rights.2 }
        ensures { AreBack self.now.words.now.table 0 result.0 result.1 result.2 }
    {
        let (zero, one, root) = rights;
        self.word_is(0, 0);
        let zero = self.take(zero, 0, true);
        self.word_is(0, 1);
        let zero = self.count(zero, 0, 7);
        let one = self.try_take(one, 0, false);
        let one = self.take(one, 0, false);
        self.word_is(0, 1);
        let (one, root) = self.lie_down(one, root, 0);
        self.word_is(0, 3);
        let (one, letter) = self.collect(one, 0);
        letter_is(self.rt, letter, None);
        let zero = self.free(zero, 0, false);
        let (zero, root) = self.pass_on(zero, root, Some(1), true);
        self.word_is(0, 3);
        let root = self.words.post(root, 1, 1);
        let (one, letter) = self.collect(one, 0);
        letter_is(self.rt, letter, Some(1));
        let one = self.count(one, 0, 8);
        let one = self.free(one, 0, false);
        let (one, root) = self.pass_on(one, root, None, false);
        self.word_is(0, 0);
        (zero, one, root)
    }

    // The lock 1 is passed on unfairly, to a sleeper: another barges in between, and the sleeper, which was told that
    // it may try again, finds the lock held. It comes back to park once more, when the lock is free by then, and takes
    // it.
    fn barge_in(&self, rights: Rights) -> Rights
        requires { AreFresh self.now.words.now.table 1 rights.0 rights.1 rights.2 }
        ensures { AreBack self.now.words.now.table 1 result.0 result.1 result.2 }
    {
        let (zero, one, root) = rights;
        let zero = self.try_take(zero, 1, true);
        let zero = self.count(zero, 1, 40);
        let one = self.take(one, 1, false);
        let (one, root) = self.lie_down(one, root, 1);
        let zero = self.free(zero, 1, false);
        let (zero, root) = self.pass_on(zero, root, Some(1), false);
        self.word_is(1, 0);
        let zero = self.take(zero, 1, true);
        let root = self.words.post(root, 1, 0);
        let (one, letter) = self.collect(one, 1);
        letter_is(self.rt, letter, Some(0));
        let one = self.take(one, 1, false);
        let zero = self.free(zero, 1, true);
        self.word_is(1, 0);
        let (one, marked) = self.words.mark(one, 1);
        answer_is(self.rt, marked, false);
        let (one, root, queued) = self.words.park(one, root);
        answer_is(self.rt, queued, false);
        let one = self.take(one, 1, true);
        let one = self.free(one, 1, true);
        (zero, one, root)
    }

    // The last of 256 threads gets a lock that is free, counts, and lets it go.
    fn visit(&self, pass: Pass) -> Pass
        requires { HasNothing self.now.words.now.table 255 pass }
        ensures { HasNothing self.now.words.now.table 255 result }
    {
        let pass = self.take(pass, 0, true);
        self.word_is(0, 1);
        let pass = self.count(pass, 0, 7);
        let pass = self.free(pass, 0, true);
        self.word_is(0, 0);
        pass
    }
}

// What lies behind the two locks.
fn two_tallies(alloc: Global) -> Result<Vec<Tally>, AllocError>
    ensures { IfOk result (λ values. values.items ≡ record { total = 7 } ∷ record { total = 40 } ∷ []) }
{
    let mut values = Vec::with_capacity(alloc, 2)?;
    values.push_reserved(Tally { total: 7 });
    values.push_reserved(Tally { total: 40 });
    Ok(values)
}

#[test]
fn handing_over_and_barging(rt: HostRuntime) -> Result<(), Fail> {
    let values = two_tallies(rt.alloc())?;
    let Ok((words, mut passes, mut roots)) = LockWords::open(rt.alloc(), 2, values) else {
        return Err("no memory".into());
    };
    let one = passes.take_last();
    let zero = passes.take_last();
    let second = roots.take_last();
    let first = roots.take_last();
    let locks = TwoLocks {
        rt: &rt,
        words: &words,
    };
    let (zero, one, first) = locks.hand_over((zero, one, first));
    let (zero, one, second) = locks.barge_in((zero, one, second));
    let (zero, one) = words.check_apart(zero, one);
    passes.push_reserved(zero);
    passes.push_reserved(one);
    roots.push_reserved(first);
    roots.push_reserved(second);
    let mut values = close_soundly(words, passes, roots);
    equal(&rt, values.take_last().total, 41);
    equal(&rt, values.take_last().total, 9);
    Ok(())
}

// A table for as many threads as there may be, of which the last comes.
#[test]
fn the_last_of_256_threads_gets_a_lock(rt: HostRuntime) -> Result<(), Fail> {
    let values = two_tallies(rt.alloc())?;
    let Ok((words, mut passes, roots)) = LockWords::open(rt.alloc(), MAX_THREADS, values) else {
        return Err("no memory".into());
    };
    equal(&rt, passes.len(), 256);
    let last = passes.take_last();
    equal(&rt, last.thread(), 255);
    let locks = TwoLocks {
        rt: &rt,
        words: &words,
    };
    let last = locks.visit(last);
    passes.push_reserved(last);
    let mut values = close_soundly(words, passes, roots);
    equal(&rt, values.take_last().total, 40);
    equal(&rt, values.take_last().total, 8);
    Ok(())
}
