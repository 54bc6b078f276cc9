//! One thread waits once on a condition, and another notifies it: what the ledger tells then, and that the notification
//! came before the letter that the wait collected, concluded from the contracts of the public calls alone.
ghost use Rattle.std.specs.Prelude.{◌≡◌, ◌≤◌, ◌<◌, [], ◌∷◌, length, vec_len, vec_capacity};
ghost use Rattle.lot_sync.specs.Lot.{OwnsNone, rested};
ghost use Rattle.lot_sync.specs.Opened.{IsNamed};
ghost use Rattle.lot_trials.specs.Order.{IsUnused, WaitsOnce, CallsOnce, IsNotifiedFirst};

use crate::asserts::{copies, equal, failed};
use crate::counts::ASKINGS;
use crate::pairs::{close_both, work_both};
use crate::passes::{enter, open, start};
use crate::values::Number;
use lot_sync::{Ledger, Lot, LotName, Moment, Opened, Pass};
use std::alloc::Global;
use std::marker::Brand;
use std::process::Abort;
use std::sync::Wait;
use std::test::*;
use std::thread;
use std::thread::Threads;

/// The one condition: its number follows that of the one lock.
const COND: usize = 1;

/// Waits once on the condition, with lock 0: one wait more has ended, nothing else is counted, and nobody was notified.
fn wait_once<N: LotName<Number> + Send + Sync, T: Wait>(
    rt: &T,
    lot: &Lot<Number, N>,
    pass: Pass<Number, N>,
) -> Pass<Number, N>
    requires sizes { (lot.now.locks ≡ 1) × (lot.now.conds ≡ 1) }
    requires free { OwnsNone pass }
    ensures { WaitsOnce lot.now pass result }
{
    let moment = Moment { now: 0, word: 7 };
    let (pass, held) = lot.lock(rt, pass, 0);
    let (pass, held) = lot.wait(rt, pass, held, COND, moment);
    let (pass, _) = lot.unlock(rt, pass, held, moment);
    pass
}

/// Notifies one, asking a bounded number of times until somebody was taken: one sleeper more was taken, nothing else is
/// counted, and nobody was notified but by these calls.
fn call_once<N: LotName<Number> + Send + Sync, T: Wait + Abort>(
    rt: &T,
    lot: &Lot<Number, N>,
    mut pass: Pass<Number, N>,
) -> Pass<Number, N>
    requires sizes { (lot.now.locks ≡ 1) × (lot.now.conds ≡ 1) }
    requires free { OwnsNone pass }
    ensures { CallsOnce lot.now pass result }
{
    for _ in 0..ASKINGS {
        let (asked, took) = lot.notify_one(rt, pass, COND, Moment { now: 0, word: 7 });
        if took {
            return asked;
        }
        pass = asked;
        thread::yield_now();
    }
    failed(rt, "nobody waits")
}

/// The two passes of a lot wait and notify, and the lot is closed with them. The ledger tells of one sleeper that was
/// taken and of one wait that ended, and in the one history of the lot the notification comes before the letter that
/// the wait collected.
fn tally<N: LotName<Number> + Send + Sync, T: Threads + Wait + Sync + Abort>(
    rt: &T,
    lot: Lot<Number, N>,
    first: Pass<Number, N>,
    second: Pass<Number, N>,
    passes: Vec<Pass<Number, N>>,
) -> Ledger
    requires sizes { (lot.threads ≡ 2) × (N.threads ≡ 2) × (lot.locks ≡ 1) × (lot.conds ≡ 1) }
    requires unused { IsUnused 1 (rested first) × IsUnused 1 (rested second) }
    requires threads { (first.thread < 2) × (second.thread < 2) }
    requires free { OwnsNone first × OwnsNone second }
    requires room { (vec_len passes ≡ 0) × (2 ≤ vec_capacity passes) }
    ensures ledger { (result.called.items ≡ 1 ∷ []) × (result.woken.items ≡ 1 ∷ []) }
    ensures order { IsNotifiedFirst N.LotName first.thread second.thread 1 }
{
    let waits = |pass: Pass<Number, N>| -> Pass<Number, N>
        requires { (lot.locks ≡ 1) × (lot.conds ≡ 1) × OwnsNone pass }
        ensures { WaitsOnce lot pass result }
    { wait_once(rt, &lot, pass) };
    let calls = |pass: Pass<Number, N>| -> Pass<Number, N>
        requires { (lot.locks ≡ 1) × (lot.conds ≡ 1) × OwnsNone pass }
        ensures { CallsOnce lot pass result }
    { call_once(rt, &lot, pass) };
    let (first, second) = work_both(rt, &waits, &calls, first, second);
    lot_whole::laws::letters_follow();
    close_both(rt, lot, first, second, passes).1
}

/// Starts the lot, whose passes were never out, and looks at what is counted.
fn play<N: LotName<Number> + Send + Sync, T: Threads + Wait + Sync + Abort>(
    rt: &T,
    alloc: Global,
    opened: Opened<Number>,
)
    requires named { IsNamed N.LotName opened }
    requires sizes { (opened.threads ≡ 2) × (length opened.values ≡ 1) × (opened.conds ≡ 1) }
{
    let (lot, passes) = start::<Number, N, T>(rt, alloc, 2, opened);
    let first = enter(rt, &lot);
    let second = enter(rt, &lot);
    let ledger = tally(rt, lot, first, second, passes);
    equal(rt, ledger.called.as_slice(), [1].as_slice());
    equal(rt, ledger.woken.as_slice(), [1].as_slice());
}

#[test]
fn one_wait_and_one_notification_are_counted(rt: HostRuntime) {
    let values = copies(&rt, rt.alloc(), Number { n: 7 }, 1);
    let opened = open(&rt, rt.alloc(), 2, values, 1);
    play::<Brand, HostRuntime>(&rt, rt.alloc(), opened);
}
