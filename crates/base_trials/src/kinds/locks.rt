//! Schedules on a lot whose scheme is the test's own: a parking that comes too late, and a lock that is handed over
//! while the table of buckets grows.
ghost use Rattle.std.specs.Prelude.{◌≡◌, ℕ, ◌<◌, [], MatchBool};
ghost use Rattle.base_trials.specs.Calm.{IsCalm, IsFor, Wants, HasIt};
ghost use Rattle.base_trials.specs.Opened.{IsOpened};
ghost use Rattle.base_trials.specs.Waits.{IsSmall, IsSmallLot};

use crate::asserts::{answer_is, bits_are, failed, is_so, opened_lot};
use crate::kinds::asserts::{count_is, parked_is, released_is};
use crate::kinds::gates::{Gated, GatedLot};
use crate::kinds::tables::{
    CalmThree, EARLY, Opened, Pass, close_words, deal, gather, name_roots, open_words, unname_roots,
};
use crate::rights::tally::Tally;
use lot_locks::{Locks, Released, let_go};
use lot_park::{BeforeSleep, Parked};
use lot_scheme::{LotName, LotScheme};
use lot_seeking::seeking::park;
use std::alloc::Global;
use std::marker::Brand;
use std::process::Abort;
use std::sync::Wait;
use std::test::*;
use std::thread::Threads;

// How many threads the parking lot is for. Three of them have rights on the lock.
const LOT_THREADS: usize = 5;

// A thread fails here: it was queued where it should not be.
#[derive(Drop)]
struct Never<'a, R> {
    rt: &'a R,
}

impl<R: Abort> BeforeSleep for Never<'_, R> {
    fn run(&self) {
        failed(self.rt, "a thread sleeps on a lock that is not parked")
    }
}

/// A lot for five threads, of two locks and a condition, on which three threads take lock 0.
#[derive(Drop)]
pub(crate) struct OnGated<'a, N: LotName<Tally> + Send, R> {
    pub(crate) rt: &'a R,
    pub(crate) lot: &'a GatedLot<N>,
    ghost small: { IsSmallLot 5 N.locks N.conds N.first_sem lot.now.threads lot.now.keys },
}

impl<N: LotName<Tally> + Send, R: Wait + Abort> OnGated<'_, N, R> {
    // The lock is free, and is got; or it is held, and is wanted from now on.
    pub(crate) fn take(&self, pass: Pass<N>, wanted: bool) -> Pass<N>
        requires pass { (t : ℕ) × IsFor t 0 pass }
        ensures { (t : ℕ) → IsFor t 0 pass → MatchBool wanted (HasIt t 0 result) (Wants t 0 result) }
    {
        let (pass, got) = self.lot.scheme().inner().take(pass, 0);
        answer_is(self.rt, got, wanted);
        pass
    }

    // The lock is held, and is marked as parked.
    fn mark(&self, pass: Pass<N>) -> Pass<N>
        requires pass { (t : ℕ) × Wants t 0 pass }
        ensures { (t : ℕ) → Wants t 0 pass → Wants t 0 result }
    {
        let (pass, marked) = self.lot.scheme().inner().mark(pass, 0);
        is_so(self.rt, marked, "the lock is held");
        pass
    }

    // Lets the lock go at moment 0, and this becomes of it.
    pub(crate) fn release(&self, pass: Pass<N>, fair: bool, wanted: Released) -> Pass<N>
        requires pass { (t : ℕ) × HasIt t 0 pass }
        ensures { (t : ℕ) → HasIt t 0 pass → IsCalm t result }
    {
        let (pass, released) = let_go(self.rt, self.lot, pass, 0, EARLY, fair);
        released_is(self.rt, released, wanted);
        pass
    }

    // Its parking comes too late: it is not queued, and still wants the lock.
    fn park_in_vain(&self, pass: Pass<N>) -> Pass<N>
        requires thread { pass.thread < 3 }
        requires pass { (t : ℕ) × Wants t 0 pass }
        ensures { (t : ℕ) → Wants t 0 pass → Wants t 0 result }
    {
        let (pass, parked) = park::<Gated<Tally, N>, Locks, R, Never<'_, R>>(
            self.rt,
            self.lot,
            pass,
            0,
            &Never { rt: self.rt },
        );
        parked_is(self.rt, parked, Parked::Invalid);
        pass
    }

    // The word of the lock is this.
    pub(crate) fn word_is(&self, wanted: u64) {
        bits_are(self.rt, self.lot.scheme().inner().lock_bits(0), wanted);
    }

    // The lock is marked by thread 1, let go, and got by thread 2 before thread 1 parks: the parking is invalid, the
    // line is as it was, and thread 1 goes on trying until it has the lock.
    fn too_late(&self, three: CalmThree<N>) -> CalmThree<N> {
        let CalmThree { zero, one, two } = three;
        let zero = self.take(zero, true);
        let one = self.take(one, false);
        let one = self.mark(one);
        self.word_is(3);
        let zero = self.release(zero, false, Released::Nobody);
        let two = self.take(two, true);
        self.word_is(1);
        let one = self.park_in_vain(one);
        self.word_is(1);
        count_is(self.rt, self.lot.line_length(self.rt, 0), 0);
        let one = self.take(one, false);
        let two = self.release(two, false, Released::Quiet);
        let one = self.take(one, true);
        let one = self.release(one, false, Released::Quiet);
        CalmThree { zero, one, two }
    }
}

/// What is played on a lot.
#[derive(Clone, Copy)]
enum Schedule {
    LateParking,
    Handoff,
}

impl<N: LotName<Tally> + Send + Sync, R: Threads + Wait + Abort + Sync> OnGated<'_, N, R> {
    fn played(&self, three: CalmThree<N>, schedule: Schedule) -> CalmThree<N> {
        match schedule {
            Schedule::LateParking => self.too_late(three),
            Schedule::Handoff => self.handed_while_it_grows(three),
        }
    }
}

// Plays on a lot, and closes it.
fn play<N: LotName<Tally> + Send + Sync, R: Threads + Wait + Abort + Sync>(
    rt: &R,
    alloc: Global,
    opened: Opened,
    schedule: Schedule,
)
    requires opened { IsOpened 2 1 N.opening.locks opened.0.table opened.0.size opened.1.items opened.2.items }
    requires named { (N.threads ≡ 3) × (N.permits ≡ []) × IsSmall N.locks N.conds N.first_sem }
{
    let (words, mut passes, mut roots) = opened;
    let (zero, one, two) = deal::<N>(&mut passes);
    let named = name_roots::<N>(rt, alloc, &mut roots);
    let scheme = Gated::new(LotScheme::new(words, 2, 3));
    let (lot, mut back) = opened_lot(rt, alloc, LOT_THREADS, named, scheme);
    let on_gated = OnGated { rt, lot: &lot };
    let CalmThree { zero, one, two } = on_gated.played(CalmThree { zero, one, two }, schedule);
    gather(&mut passes, zero, one, two);
    let words = lot.close(rt, &mut back).into_inner().into_words();
    unname_roots(&mut roots, back);
    count_is(rt, close_words::<N>(words, passes, roots), 2);
}

fn try_on_a_lot<R: Threads + Wait + Abort + Sync>(
    rt: &R,
    alloc: Global,
    schedule: Schedule,
) -> Result<(), Fail> {
    let opened = open_words(alloc, 2, 1)?;
    play::<Brand, R>(rt, alloc, opened, schedule);
    Ok(())
}

#[test]
fn a_late_parking_is_invalid(rt: HostRuntime) -> Result<(), Fail> {
    try_on_a_lot(&rt, rt.alloc(), Schedule::LateParking)
}

#[test]
fn a_handoff_outlives_a_growth_of_the_parking_lot(rt: HostRuntime) -> Result<(), Fail> {
    try_on_a_lot(&rt, rt.alloc(), Schedule::Handoff)
}
