//! A lock is handed over while the table of buckets grows, on a lot for five threads. Three of them have passes.
ghost use Rattle.std.specs.Prelude.{◌≡◌, ℕ, ◌<◌, ◌≤◌, Some, None, IsSomeAnd};
ghost use Rattle.base_trials.specs.Calm.{IsCalm, HasIt};

use crate::asserts::{equal, failed};
use crate::kinds::asserts::count_is;
use crate::kinds::gates::Gated;
use crate::kinds::locks::OnGated;
use crate::kinds::tables::{CalmThree, Pass};
use crate::park::askings::await_line;
use crate::rights::tally::Tally;
use lot_locks::{Locks, Released};
use lot_park::{AtOnce, Grown};
use lot_scheme::LotName;
use lot_seeking::{Look, get_or_park};
use std::process::Abort;
use std::sync::Wait;
use std::thread;
use std::thread::Threads;

impl<N: LotName<Tally> + Send, R: Wait> OnGated<'_, N, R> {
    // Sleeps in the line of the lock until it has it.
    fn own(&self, pass: Pass<N>) -> Pass<N>
        requires thread { pass.thread < 5 }
        requires pass { (t : ℕ) × IsCalm t pass }
        ensures { (t : ℕ) → IsCalm t pass → HasIt t 0 result }
    {
        get_or_park::<Gated<Tally, N>, Locks, R, AtOnce>(
            self.rt,
            self.lot,
            pass,
            0,
            Look::Taken,
            &AtOnce,
        )
    }
}

impl<N: LotName<Tally> + Send, R: Wait + Abort> OnGated<'_, N, R> {
    // The word of the lock is this, and so many are in its line.
    fn lock_is(&self, word: u64, line: usize) {
        self.word_is(word);
        count_is(self.rt, self.lot.line_length(self.rt, 0), line);
    }

    // The table of buckets grows so for so many threads.
    fn grows(&self, threads: usize, from: usize, to: usize)
        requires { threads ≤ 5 }
    {
        match self.lot.ensure(self.rt, threads) {
            Ok(served) => equal(self.rt, served.grown(), Grown::Grew(from, to)),
            Err(_refused) => failed(self.rt, "no memory"),
        }
    }

    // Thread 0, which has the lock: hands it to the first of two sleepers, who is held before it finds its letter. The
    // table grows, and then that one goes on.
    fn hands_over(&self, here: &mut Option<Pass<N>>)
        requires has { IsSomeAnd here.old (HasIt 0 0) }
        ensures { IsSomeAnd here.new (IsCalm 0) }
    {
        let pass = here.take().unwrap();
        await_line(self.rt, self.lot, 0, 2);
        let pass = self.release(pass, true, Released::Handed);
        self.lock_is(3, 1);
        self.grows(5, 12, 30);
        self.lock_is(3, 1);
        self.lot.scheme().open_gate();
        give_back(here, pass);
    }

    // Thread 1, the first in the line: the lock is handed to it, and the second is still in the line. It lets the lock
    // go.
    fn is_handed(&self, here: &mut Option<Pass<N>>)
        requires calm { IsSomeAnd here.old (IsCalm 1) }
        ensures { IsSomeAnd here.new (IsCalm 1) }
    {
        let pass = here.take().unwrap();
        let pass = self.own(pass);
        self.lock_is(3, 1);
        let pass = self.release(pass, false, Released::Woke);
        give_back(here, pass);
    }

    // Thread 2, the second in the line: it is woken by that.
    fn is_woken(&self, here: &mut Option<Pass<N>>)
        requires calm { IsSomeAnd here.old (IsCalm 2) }
        ensures { IsSomeAnd here.new (IsCalm 2) }
    {
        let pass = here.take().unwrap();
        await_line(self.rt, self.lot, 0, 1);
        let pass = self.own(pass);
        let pass = self.release(pass, false, Released::Quiet);
        give_back(here, pass);
    }
}

// A right that was lent to a thread comes back: a closure can't hold it.
fn give_back<N: LotName<Tally> + Send>(here: &mut Option<Pass<N>>, pass: Pass<N>)
    requires { here.old ≡ None }
    ensures { here.new ≡ Some pass }
{
    match here.replace(pass) {
        None => {}
        Some(_) => unreachable!(),
    }
}

impl<N: LotName<Tally> + Send + Sync, R: Threads + Wait + Abort + Sync> OnGated<'_, N, R> {
    // Both sleepers at once.
    fn sleep_side_by_side(&self, one: &mut Option<Pass<N>>, two: &mut Option<Pass<N>>)
        requires calm { IsSomeAnd one.old (IsCalm 1) × IsSomeAnd two.old (IsCalm 2) }
        ensures { IsSomeAnd one.new (IsCalm 1) × IsSomeAnd two.new (IsCalm 2) }
    {
        let mut handed = ||
            requires calm { IsSomeAnd one.now (IsCalm 1) }
            ensures { IsSomeAnd one.exit.now (IsCalm 1) }
        { self.is_handed(one) };
        let mut woken = ||
            requires calm { IsSomeAnd two.now (IsCalm 2) }
            ensures { IsSomeAnd two.exit.now (IsCalm 2) }
        { self.is_woken(two) };
        thread::join_mut(self.rt, &mut handed, &mut woken);
    }

    // Both sleepers, whose rights are lent.
    fn both_sleep(&self, here: &mut Option<(Pass<N>, Pass<N>)>)
        requires calm { IsSomeAnd here.old (λ p. IsCalm 1 p.0 × IsCalm 2 p.1) }
        ensures { IsSomeAnd here.new (λ p. IsCalm 1 p.0 × IsCalm 2 p.1) }
    {
        let (one, two) = here.take().unwrap();
        let mut one = Some(one);
        let mut two = Some(two);
        self.sleep_side_by_side(&mut one, &mut two);
        match here.replace((one.unwrap(), two.unwrap())) {
            None => {}
            Some(_) => unreachable!(),
        }
    }

    // All three at once.
    fn side_by_side(&self, owner: &mut Option<Pass<N>>, sleepers: &mut Option<(Pass<N>, Pass<N>)>)
        requires has { IsSomeAnd owner.old (HasIt 0 0) }
        requires calm { IsSomeAnd sleepers.old (λ p. IsCalm 1 p.0 × IsCalm 2 p.1) }
        ensures owner { IsSomeAnd owner.new (IsCalm 0) }
        ensures sleepers { IsSomeAnd sleepers.new (λ p. IsCalm 1 p.0 × IsCalm 2 p.1) }
    {
        let mut hands = ||
            requires has { IsSomeAnd owner.now (HasIt 0 0) }
            ensures { IsSomeAnd owner.exit.now (IsCalm 0) }
        { self.hands_over(owner) };
        let mut sleep = ||
            requires calm { IsSomeAnd sleepers.now (λ p. IsCalm 1 p.0 × IsCalm 2 p.1) }
            ensures { IsSomeAnd sleepers.exit.now (λ p. IsCalm 1 p.0 × IsCalm 2 p.1) }
        { self.both_sleep(sleepers) };
        thread::join_mut(self.rt, &mut hands, &mut sleep);
    }

    // Thread 0 gets the lock, and the two others come into its line, one after the other.
    pub(crate) fn handed_while_it_grows(&self, three: CalmThree<N>) -> CalmThree<N> {
        self.grows(2, 3, 12);
        let CalmThree { zero, one, two } = three;
        let mut owner = Some(self.take(zero, true));
        let mut sleepers = Some((one, two));
        self.side_by_side(&mut owner, &mut sleepers);
        equal(self.rt, self.lot.scheme().found(), 2);
        self.lock_is(0, 0);
        let zero = owner.unwrap();
        let (one, two) = sleepers.unwrap();
        CalmThree { zero, one, two }
    }
}
