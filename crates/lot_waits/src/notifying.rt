//! Taking threads from a condition's line, as WTF's `Condition::notifyOne` and `Condition::notifyAll` do, and several
//! of them at once.
ghost use Rattle.std.specs.Prelude.{◌≡◌, ℕ, ◌<◌, ◌≤◌, Bool, true, length, []};
ghost use Rattle.lot_core.specs.Steps.{IsCallCount};
ghost use Rattle.lot_park.specs.Parking.{Tells, TellsCount};
ghost use Rattle.lot_waits.specs.Notifying.{Dequeues, DequeuesAll, one_of, one_if};

use crate::steps::CondSteps;
use lot_park::{Moment, ParkingLot, Token, UnparkResult};
use std::sync::Wait;

/// The token of all letters of conditions.
const TAKEN: Token = Token(0);

/// Takes the first thread of the condition's line, and answers whether one was there.
#[cold]
#[inline(never)]
pub(crate) fn call_one<S: CondSteps, R: Wait>(
    rt: &R,
    parking: &ParkingLot<S>,
    pass: S::Pass,
    cond: usize,
    moment: Moment,
) -> (S::Pass, bool)
    requires key { cond < parking.now.keys }
    requires may { S.may_call pass cond }
    ensures { (more : Bool) × (more ≡ true → 0 < one_if result.1) × S.calls pass cond 1 (one_if result.1) more result.0 }
{
    let scheme = parking.scheme();
    let (pass, told) = parking.unpark_one(
        rt,
        cond,
        moment,
        pass,
        |pass: S::Pass, root: S::Root, told: UnparkResult| -> (S::Pass, S::Root, Token)
            requires key { (S.Root.view root).key ≡ cond }
            requires may { S.may_call pass (S.Root.view root).key }
            requires clear { (S.Root.view root).owes ≡ [] }
            requires told { (now : ℕ) × Tells (S.Root.view root).line now told }
            ensures pass { S.calls pass (S.Root.view root).key 1 (one_of told.thread) told.more result.0 }
            ensures root { Dequeues S.Root.view 1 root result.1 }
            ensures token { result.2.0 ≡ 0 }
        {
            let taken = count_of(told.thread);
            let (pass, root) = scheme.call_first(pass, root, cond, 1, taken, told.more);
            (pass, root, TAKEN)
        },
    );
    (pass, told.thread.is_some())
}

fn count_of(taken: Option<usize>) -> usize
    ensures { result ≡ one_of taken }
{
    match taken {
        Some(_) => 1,
        None => 0,
    }
}

/// Takes the first `count` threads of the condition's line, or all where they are fewer, and answers how many they
/// were.
#[cold]
#[inline(never)]
pub(crate) fn call_some<S: CondSteps, R: Wait>(
    rt: &R,
    parking: &ParkingLot<S>,
    pass: S::Pass,
    cond: usize,
    count: usize,
) -> (S::Pass, usize)
    requires key { cond < parking.now.keys }
    requires may { S.may_call pass cond }
    requires count { IsCallCount count }
    ensures pass { (more : Bool) × (more ≡ true → 0 < result.1) × S.calls pass cond count result.1 more result.0 }
    ensures most { result.1 ≤ count }
{
    let scheme = parking.scheme();
    parking.unpark_count(
        rt,
        cond,
        count,
        pass,
        |pass: S::Pass, root: S::Root, taken: usize, more: bool| -> (S::Pass, S::Root)
            requires key { (S.Root.view root).key ≡ cond }
            requires may { S.may_call pass (S.Root.view root).key }
            requires clear { (S.Root.view root).owes ≡ [] }
            requires count { IsCallCount count }
            requires told { (threads : ℕ) × TellsCount threads count (S.Root.view root).line taken more }
            ensures pass { S.calls pass (S.Root.view root).key count taken more result.0 }
            ensures root { Dequeues S.Root.view count root result.1 }
        { scheme.call_first(pass, root, cond, count, taken, more) },
    )
}

/// Takes all threads of the condition's line, whose flag the pass has lowered, and answers how many they were.
#[cold]
#[inline(never)]
pub(crate) fn sweep_line<S: CondSteps, R: Wait>(
    rt: &R,
    parking: &ParkingLot<S>,
    pass: S::Pass,
    cond: usize,
) -> (S::Pass, usize)
    requires key { cond < parking.now.keys }
    requires may { S.may_sweep pass cond }
    ensures { S.sweeps pass cond result.1 result.0 }
{
    let scheme = parking.scheme();
    parking.unpark_all(
        rt,
        cond,
        pass,
        |pass: S::Pass, root: S::Root, count: usize| -> (S::Pass, S::Root)
            requires key { (S.Root.view root).key ≡ cond }
            requires may { S.may_sweep pass (S.Root.view root).key }
            requires clear { (S.Root.view root).owes ≡ [] }
            requires count { count ≡ length (S.Root.view root).line }
            ensures pass { S.sweeps pass (S.Root.view root).key count result.0 }
            ensures root { DequeuesAll S.Root.view root result.1 }
        { scheme.sweep_all(pass, root, cond, count) },
    )
}
