//! Calls that are made of several, in running code: they wait only where the value is not as wanted, and let a lock go
//! at their caller's moment.
ghost use Rattle.std.specs.Prelude.{◌≡◌, ◌≤◌, ◌<◌, length};
ghost use Rattle.lot_sync.specs.Holding.{Holding};
ghost use Rattle.lot_sync.specs.Lot.{OwnsNone};
ghost use Rattle.lot_sync.specs.Opened.{IsNamed};

use crate::asserts::{copies, equal, failed, is_so, started};
use crate::counts::{
    Count, Gathered, await_count, await_line, call_one, end, own, raise, release, try_own,
};
use crate::passes::{enter, open, start};
use lot_calls::{lock_until, wait_until, with_lock};
use lot_sync::{Held, Lot, LotName, Moment, Opened, Pass};
use std::alloc::Global;
use std::marker::Brand;
use std::process::Abort;
use std::sync::Wait;
use std::sync::atomic::{AtomicU64, Ordering};
use std::test::*;
use std::thread;
use std::thread::Threads;

/// A lot of two threads has one lock, with a count, and one condition.
const LOCK: usize = 0;

const COND: usize = 1;

/// Nothing is handed over at this moment.
const NOW: Moment = Moment { now: 0, word: 7 };

/// Gets the lock when the count is so much: what a caller has of `lock_until`.
fn own_at<N: LotName<Count> + Send + Sync, T: Wait>(
    rt: &T,
    lot: &Lot<Count, N>,
    pass: Pass<Count, N>,
    count: u64,
) -> (Pass<Count, N>, Held<Count, N>)
    requires sizes { (lot.now.locks ≡ 1) × (lot.now.conds ≡ 1) }
    requires free { OwnsNone pass }
    ensures key { result.1.key ≡ 0 }
    ensures holding { Holding (λ x y. x.n ≤ y.n) result.0 result.1 }
{
    lock_until(rt, lot, pass, LOCK, COND, NOW, |found: &Count| {
        found.n >= count
    })
}

/// The same, by `lock` and `wait_until`.
fn own_then<N: LotName<Count> + Send + Sync, T: Wait + Abort>(
    rt: &T,
    lot: &Lot<Count, N>,
    pass: Pass<Count, N>,
    count: u64,
) -> (Pass<Count, N>, Held<Count, N>)
    requires sizes { (lot.now.locks ≡ 1) × (lot.now.conds ≡ 1) }
    requires free { OwnsNone pass }
    ensures key { result.1.key ≡ 0 }
    ensures holding { Holding (λ x y. x.n ≤ y.n) result.0 result.1 }
{
    let (pass, held) = lot.lock(rt, pass, LOCK);
    wait_until(rt, lot, pass, held, COND, NOW, |found: &Count| {
        found.n >= count
    })
}

/// Wants the count 7, which it finds, by the one call and the other, and then 9.
fn wait_for_more<N: LotName<Count> + Send + Sync, T: Wait + Abort>(rt: &T, lot: &Lot<Count, N>)
    requires sizes { (lot.now.locks ≡ 1) × (lot.now.conds ≡ 1) }
{
    let (pass, held) = own_at(rt, lot, enter(rt, lot), 7);
    let (pass, _) = release(rt, lot, pass, held, 0);
    let (pass, held) = own_then(rt, lot, pass, 7);
    let (pass, _) = release(rt, lot, pass, held, 0);
    let (pass, held) = own_then(rt, lot, pass, 9);
    let (pass, _) = release(rt, lot, pass, held, 0);
    lot.leave(rt, pass);
}

/// Finds so much when the other thread waits, leaves one more, and notifies it.
fn raise_for_one<N: LotName<Count> + Send + Sync, T: Wait + Abort>(
    rt: &T,
    lot: &Lot<Count, N>,
    wanted: u64,
)
    requires sizes { (lot.now.locks ≡ 1) × (lot.now.conds ≡ 1) }
{
    await_line(rt, lot, COND, 1);
    let pass = enter(rt, lot);
    let (pass, held) = own(rt, lot, pass, LOCK);
    let (pass, held) = raise(rt, pass, held, wanted);
    let (pass, _) = release(rt, lot, pass, held, 0);
    let (pass, took) = call_one(rt, lot, pass, COND, 0);
    is_so(rt, took, "the other thread waits");
    lot.leave(rt, pass);
}

/// One thread waits for more than there is, and the other raises the count twice, and notifies it each time.
fn wait_and_raise<N: LotName<Count> + Send + Sync, T: Threads + Wait + Sync + Abort>(
    rt: &T,
    lot: &Lot<Count, N>,
)
    requires sizes { (lot.now.locks ≡ 1) × (lot.now.conds ≡ 1) }
{
    thread::scope(
        thread::scope_env(),
        rt,
        |scope|
            requires { (lot.now.locks ≡ 1) × (lot.now.conds ≡ 1) }
        {
            let waits = move ||
                requires { (lot.now.locks ≡ 1) × (lot.now.conds ≡ 1) }
            { wait_for_more(rt, lot) };
            started(rt, scope.spawn(waits).is_ok());
            raise_for_one(rt, lot, 7);
            raise_for_one(rt, lot, 8);
        },
    );
}

/// Gets the lock behind the thread that has it, and lets it go when the gate is open.
fn own_behind<N: LotName<Count> + Send + Sync, T: Wait + Abort>(
    rt: &T,
    lot: &Lot<Count, N>,
    has: &AtomicU64,
    gate: &AtomicU64,
)
    requires sizes { (lot.now.locks ≡ 1) × (lot.now.conds ≡ 1) }
{
    let pass = enter(rt, lot);
    await_count(rt, has, 1);
    let (pass, held) = own(rt, lot, pass, LOCK);
    await_count(rt, gate, 1);
    let (pass, _) = release(rt, lot, pass, held, 0);
    lot.leave(rt, pass);
}

/// Visits the lock until a thread sleeps for it, and lets it go at a moment at which it is handed over: it is never
/// free.
fn visit_and_hand_over<N: LotName<Count> + Send + Sync, T: Wait + Abort>(
    rt: &T,
    lot: &Lot<Count, N>,
    has: &AtomicU64,
    gate: &AtomicU64,
)
    requires sizes { (lot.now.locks ≡ 1) × (lot.now.conds ≡ 1) }
{
    let pass = enter(rt, lot);
    let visit = |count: &mut Count|
        requires { lot.now.locks ≡ 1 }
        ensures { count.new ≡ count.old }
    {
        has.store(1, Ordering::SeqCst);
        await_line(rt, lot, LOCK, 1);
        *count = *count;
    };
    let (pass, ()) = with_lock(rt, lot, pass, LOCK, Moment { now: 5, word: 7 }, visit);
    match try_own(lot, pass, LOCK) {
        (pass, None) => {
            gate.store(1, Ordering::SeqCst);
            lot.leave(rt, pass);
        }
        (_pass, Some(_held)) => failed(rt, "the lock was not handed over"),
    }
}

/// One thread visits the lock, and hands it to the other.
fn visit_and_wait<N: LotName<Count> + Send + Sync, T: Threads + Wait + Sync + Abort>(
    rt: &T,
    lot: &Lot<Count, N>,
)
    requires sizes { (lot.now.locks ≡ 1) × (lot.now.conds ≡ 1) }
{
    let has = AtomicU64::new(0);
    let gate = AtomicU64::new(0);
    let (has, gate) = (&has, &gate);
    thread::scope(
        thread::scope_env(),
        rt,
        |scope|
            requires { (lot.now.locks ≡ 1) × (lot.now.conds ≡ 1) }
        {
            let behind = move ||
                requires { (lot.now.locks ≡ 1) × (lot.now.conds ≡ 1) }
            { own_behind(rt, lot, has, gate) };
            started(rt, scope.spawn(behind).is_ok());
            visit_and_hand_over(rt, lot, has, gate);
        },
    );
}

/// What two threads do.
#[derive(Clone, Copy)]
enum Deeds {
    Waits,
    Visits,
}

/// Starts the lot and plays. So many waits ended then.
fn play<N: LotName<Count> + Send + Sync, T: Threads + Wait + Sync + Abort>(
    rt: &T,
    alloc: Global,
    opened: Opened<Count>,
    what: Deeds,
) -> u64
    requires named { IsNamed N.LotName opened }
    requires sizes { (opened.threads ≡ 2) × (length opened.values ≡ 1) × (opened.conds ≡ 1) }
{
    let (lot, passes) = start::<Count, N, T>(rt, alloc, 2, opened);
    match what {
        Deeds::Waits => wait_and_raise(rt, &lot),
        Deeds::Visits => visit_and_wait(rt, &lot),
    }
    let (_, ledger) = end(rt, lot, passes, 2, Gathered::Left);
    ledger.woken[0]
}

fn on_count<T: Threads + Wait + Sync + Abort>(rt: &T, alloc: Global, what: Deeds) -> u64 {
    let values = copies(rt, alloc, Count { n: 7 }, 1);
    let opened = open(rt, alloc, 2, values, 1);
    play::<Brand, T>(rt, alloc, opened, what)
}

#[test]
fn waits_begin_only_where_the_value_is_not_as_wanted(rt: HostRuntime) {
    equal(&rt, on_count(&rt, rt.alloc(), Deeds::Waits), 2);
}

#[test]
fn a_visit_ends_at_its_moment(rt: HostRuntime) {
    equal(&rt, on_count(&rt, rt.alloc(), Deeds::Visits), 0);
}
