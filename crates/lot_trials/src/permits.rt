//! Permits of a lot, and the fair moments of buckets that releases of permits and notifications move on.
ghost use Rattle.std.specs.Prelude.{◌≡◌, ◌≤◌, length};
ghost use Rattle.lot_scheme.specs.SemCalls.{opening_permits};
ghost use Rattle.lot_sync.specs.Lot.{OwnsNone, permits_with};
ghost use Rattle.lot_sync.specs.Opened.{IsNamed};

use crate::asserts::{copies, equal, failed};
use crate::counts::Count;
use crate::passes::{enter, start};
use crate::schedules::{come, leave, on_lot};
use crate::steps::{Memory, Step};
use crate::waits::COND;
use lot_calls::finish;
use lot_sync::{Freed, Lot, LotName, Moment, Opened, Pass, Released};
use std::alloc::Global;
use std::marker::Brand;
use std::process::Abort;
use std::sync::Wait;
use std::test::*;

/// The semaphore of two permits.
const PAIR: usize = 27;

/// The semaphore of one permit.
const SINGLE: usize = 28;

/// Where there are so many buckets, a condition and a semaphore share theirs with a lock.
const BUCKETS: usize = 12;

/// In a new bucket it is time to be fair at this moment, and after it at none up to 12.
const FAIR: u64 = 5;

/// Two permits for two passes, and then both for one: none is left for a third.
static TWO_PERMITS: [(usize, Step); 10] = [
    (0, Step::TryAcquire(PAIR, true)),
    (1, Step::TryAcquire(PAIR, true)),
    (2, Step::TryAcquire(PAIR, false)),
    (1, Step::Release(0, Freed::Quiet)),
    (0, Step::Acquire(PAIR)),
    (2, Step::TryAcquire(PAIR, false)),
    (0, Step::Release(0, Freed::Quiet)),
    (2, Step::TryAcquire(PAIR, true)),
    (0, Step::Release(0, Freed::Quiet)),
    (2, Step::Release(0, Freed::Quiet)),
];

#[test]
fn try_acquire_succeeds(rt: HostRuntime) {
    let parts = [come(3), &TWO_PERMITS, leave(3)];
    on_lot(&rt, rt.alloc(), 3, &parts, (0, 0), Memory::Ample);
}

/// One pass gets both permits, and finds that none is left.
static BOTH_FOR_ONE: [(usize, Step); 5] = [
    (0, Step::TryAcquire(PAIR, true)),
    (0, Step::TryAcquire(PAIR, true)),
    (0, Step::TryAcquire(PAIR, false)),
    (0, Step::Release(0, Freed::Quiet)),
    (0, Step::Release(0, Freed::Quiet)),
];

#[test]
fn one_pass_gets_both_permits(rt: HostRuntime) {
    let parts = [come(1), &BOTH_FOR_ONE, leave(1)];
    on_lot(&rt, rt.alloc(), 1, &parts, (0, 0), Memory::Ample);
}

/// The one permit is given back at moment 0 while another thread sleeps for it, which gets it.
static WOKEN_FOR_A_PERMIT: [(usize, Step); 6] = [
    (0, Step::Acquire(SINGLE)),
    (1, Step::SleepFor(SINGLE)),
    (0, Step::AwaitLine(SINGLE, 1)),
    (0, Step::Release(0, Freed::Woke)),
    (1, Step::Line(SINGLE, 0)),
    (1, Step::Release(0, Freed::Quiet)),
];

#[test]
fn a_release_wakes_a_sleeper_at_moment_0(rt: HostRuntime) {
    let parts = [come(2), &WOKEN_FOR_A_PERMIT, leave(2)];
    on_lot(&rt, rt.alloc(), 2, &parts, (0, 0), Memory::Ample);
}

/// The one permit is given back at the fair moment while another thread sleeps for it, and a waiting thread is notified
/// then. After each of these the next fair moment of the bucket was moved on: a lock in it on which another thread
/// sleeps is let go at 12, and not handed over.
static MOMENTS: [(usize, Step); 20] = [
    (0, Step::Acquire(SINGLE)),
    (1, Step::SleepFor(SINGLE)),
    (0, Step::AwaitLine(SINGLE, 1)),
    (0, Step::Release(FAIR, Freed::Woke)),
    (1, Step::Release(0, Freed::Quiet)),
    (0, Step::Size(BUCKETS)),
    (0, Step::Lock(SINGLE % BUCKETS)),
    (1, Step::Sleep(SINGLE % BUCKETS)),
    (0, Step::AwaitLine(SINGLE % BUCKETS, 1)),
    (0, Step::Unlock(12, Released::Woke)),
    (1, Step::Unlock(0, Released::Quiet)),
    (1, Step::Lock(0)),
    (1, Step::Wait(COND, 0)),
    (0, Step::AwaitLine(COND, 1)),
    (0, Step::NotifyOne(COND, FAIR, true)),
    (0, Step::Lock(COND % BUCKETS)),
    (1, Step::Sleep(COND % BUCKETS)),
    (0, Step::AwaitLine(COND % BUCKETS, 1)),
    (0, Step::Unlock(12, Released::Woke)),
    (1, Step::Unlock(0, Released::Quiet)),
];

#[test]
fn permits_and_their_moments(rt: HostRuntime) {
    let parts = [come(2), &MOMENTS, leave(2)];
    on_lot(&rt, rt.alloc(), 2, &parts, (1, 0), Memory::Ample);
}

/// Shows that the semaphore, of which two passes hold a permit each, opened with two at least. It changes nothing.
fn two_of_two<N: LotName<Count> + Send + Sync>(
    lot: &Lot<Count, N>,
    first: Pass<Count, N>,
    second: Pass<Count, N>,
    key: usize,
) -> (Pass<Count, N>, Pass<Count, N>)
    requires both { (1 ≤ permits_with first key) × (1 ≤ permits_with second key) }
    ensures same { (result.0 ≡ first) × (result.1 ≡ second) }
    ensures two { 2 ≤ opening_permits N.first_sem N.permits key }
{
    lot.check_permits(first, second)
}

/// Two passes get a permit of semaphore 1 each, and give it back.
fn hold_both<N: LotName<Count> + Send + Sync, T: Wait + Abort>(
    rt: &T,
    lot: &Lot<Count, N>,
    first: Pass<Count, N>,
    second: Pass<Count, N>,
) -> (Pass<Count, N>, Pass<Count, N>)
    requires sizes { (lot.now.locks ≡ 1) × (lot.now.conds ≡ 0) × (lot.now.sems ≡ 1) }
    requires free { OwnsNone first × OwnsNone second }
    ensures { OwnsNone result.0 × OwnsNone result.1 }
{
    let moment = Moment { now: 0, word: 0 };
    let (first, one) = lot.acquire(rt, first, 1);
    let (second, two) = lot.acquire(rt, second, 1);
    equal(rt, lot.permits_left(1), 0);
    let (first, second) = two_of_two(lot, first, second, 1);
    let (first, _) = lot.release(rt, first, one, moment);
    let (second, _) = lot.release(rt, second, two, moment);
    (first, second)
}

/// Starts the lot, of one lock and one semaphore, lets two passes hold its permits, and closes it.
fn play<N: LotName<Count> + Send + Sync, T: Wait + Abort>(
    rt: &T,
    alloc: Global,
    opened: Opened<Count>,
)
    requires named { IsNamed N.LotName opened }
    requires sizes { (opened.threads ≡ 2) × (length opened.values ≡ 1) × (opened.conds ≡ 0)
        × (length opened.permits ≡ 1) }
{
    let (lot, passes) = start::<Count, N, T>(rt, alloc, 2, opened);
    let first = enter(rt, &lot);
    let second = enter(rt, &lot);
    equal(rt, lot.permits_left(1), 2);
    let (first, second) = hold_both(rt, &lot, first, second);
    lot.leave(rt, first);
    lot.leave(rt, second);
    equal(rt, finish(rt, lot, passes).0.len(), 1);
}

#[test]
fn two_passes_hold_both_permits(rt: HostRuntime) {
    let values = copies(&rt, rt.alloc(), Count { n: 7 }, 1);
    match Lot::<Count, Brand>::open_with(rt.alloc(), 2, values, 0, &[2]) {
        Ok(opened) => play::<Brand, HostRuntime>(&rt, rt.alloc(), opened),
        Err(_) => failed(&rt, "not opened"),
    }
}
