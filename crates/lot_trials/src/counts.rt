//! A lot whose values are counts: its calls, and what the tests have of them.
ghost use Rattle.std.specs.Prelude.{◌≡◌, ◌+◌, ◌≤◌, ◌<◌, ◌≢◌, ℕ, MatchOption, vec_len, vec_capacity};
ghost use Rattle.std.specs.List.{All, Any};
ghost use Rattle.lot_core.specs.Steps.{IsCallCount};
ghost use Rattle.lot_sync.specs.Lot.{PassView, OwnsNone, IsCond};
ghost use Rattle.lot_sync.specs.Holding.{Holding, HoldingBoth};

use crate::asserts::{equal, failed, is_so};
use crate::passes::{enter, take_pass};
use lot_sync::{
    BeforeSleep, Held, Ledger, Lot, LotName, Moment, Pass, RegisterFault, Released, Tally,
};
use lot_words::Keeps;
use std::process::Abort;
use std::sync::Wait;
use std::sync::atomic::{AtomicU64, Ordering};
use std::thread;

/// A count that never falls.
#[derive(Clone, Copy)]
pub(crate) struct Count {
    pub(crate) n: u64,
}

impl Keeps for Count {
    ghost use Rattle.std.specs.Prelude.{◌≤◌};
    ghost use Rattle.std.proofs.Common.{le_refl, le_trans};

    type Part = ();

    ghost keeps = { λ key count. Unit {0} };

    ghost grows = { λ old new. old.n ≤ new.n };

    ghost part = { λ thread count. tt };

    ghost grows_itself = { λ count. le_refl count.n };

    ghost grows_on = { λ x y z p q. le_trans p q };
}

/// How often a test asks before it fails.
pub(crate) const ASKINGS: u64 = 10_000_000;

/// `lock`, and what the test has of it.
pub(crate) fn own<N: LotName<Count> + Send + Sync, C: Tally + Send, T: Wait>(
    rt: &T,
    lot: &Lot<Count, N, C>,
    pass: Pass<Count, N>,
    key: usize,
) -> (Pass<Count, N>, Held<Count, N>)
    requires key { key < lot.now.locks }
    requires free { OwnsNone pass }
    ensures key { result.1.key ≡ key }
    ensures holding { Holding (λ x y. x.n ≤ y.n) result.0 result.1 }
{
    lot.lock(rt, pass, key)
}

/// `unlock` at a moment.
pub(crate) fn release<N: LotName<Count> + Send + Sync, C: Tally + Send, T: Wait>(
    rt: &T,
    lot: &Lot<Count, N, C>,
    pass: Pass<Count, N>,
    held: Held<Count, N>,
    now: u64,
) -> (Pass<Count, N>, Released)
    requires key { held.key < lot.now.locks }
    requires holding { Holding (λ x y. x.n ≤ y.n) pass held }
    ensures { OwnsNone result.0 }
{
    lot.unlock(rt, pass, held, Moment { now, word: 7 })
}

/// `unlock_asking`, with the moment that it gets, and how often it asked for it.
pub(crate) fn release_asking<N: LotName<Count> + Send + Sync, T: Wait>(
    rt: &T,
    lot: &Lot<Count, N>,
    pass: Pass<Count, N>,
    held: Held<Count, N>,
    now: u64,
) -> (Pass<Count, N>, Released, u64)
    requires key { held.key < lot.now.locks }
    requires holding { Holding (λ x y. x.n ≤ y.n) pass held }
    ensures { OwnsNone result.0 }
{
    let askings = AtomicU64::new(0);
    let (pass, released) = lot.unlock_asking(rt, pass, held, || {
        askings.fetch_add(1, Ordering::SeqCst);
        Moment { now, word: 7 }
    });
    (pass, released, askings.load(Ordering::SeqCst))
}

/// `unlock_fairly` at moment 0.
pub(crate) fn release_fairly<N: LotName<Count> + Send + Sync, C: Tally + Send, T: Wait>(
    rt: &T,
    lot: &Lot<Count, N, C>,
    pass: Pass<Count, N>,
    held: Held<Count, N>,
) -> (Pass<Count, N>, Released)
    requires key { held.key < lot.now.locks }
    requires holding { Holding (λ x y. x.n ≤ y.n) pass held }
    ensures { OwnsNone result.0 }
{
    lot.unlock_fairly(rt, pass, held, Moment { now: 0, word: 7 })
}

/// `try_lock`, and what the test has of it.
pub(crate) fn try_own<N: LotName<Count> + Send + Sync>(
    lot: &Lot<Count, N>,
    pass: Pass<Count, N>,
    key: usize,
) -> (Pass<Count, N>, Option<Held<Count, N>>)
    requires key { key < lot.now.locks }
    requires free { OwnsNone pass }
    ensures { MatchOption result.1 (OwnsNone result.0)
        (λ held. (held.key ≡ key) × Holding (λ x y. x.n ≤ y.n) result.0 held) }
{
    lot.try_lock(pass, key)
}

/// `unlock_unparked`, and what the test has of it.
pub(crate) fn free<N: LotName<Count> + Send + Sync>(
    lot: &Lot<Count, N>,
    pass: Pass<Count, N>,
    held: Held<Count, N>,
) -> (Pass<Count, N>, Option<Held<Count, N>>)
    requires key { held.key < lot.now.locks }
    requires holding { Holding (λ x y. x.n ≤ y.n) pass held }
    ensures { MatchOption result.1 (OwnsNone result.0)
        (λ back. (back.key ≡ held.key) × Holding (λ x y. x.n ≤ y.n) result.0 back) }
{
    lot.unlock_unparked(pass, held)
}

/// The word of a lock, where nobody else changes it: 1 where it is held, and 2 more where it is parked.
pub(crate) fn word<N: LotName<Count> + Send + Sync>(lot: &Lot<Count, N>, key: usize) -> u64
    requires { key < lot.now.locks }
{
    u64::from(lot.is_held(key)) + 2 * u64::from(lot.is_parked(key))
}

/// Waits until so many are in the line of the lock, the condition or the semaphore, asking a bounded number of times,
/// or the test fails.
pub(crate) fn await_line<N: LotName<Count> + Send + Sync, C: Tally + Send, T: Wait + Abort>(
    rt: &T,
    lot: &Lot<Count, N, C>,
    key: usize,
    count: usize,
)
    requires { key < lot.now.locks + lot.now.conds + lot.now.sems }
{
    for _ in 0..ASKINGS {
        if lot.line_length(rt, key) == count {
            return;
        }
        thread::yield_now();
    }
    panic!(rt; "{count} never are in the line of {key}")
}

/// Waits until so many flags are raised, asking a bounded number of times, or the test fails.
pub(crate) fn await_count(rt: &impl Abort, raised: &AtomicU64, count: u64) {
    for _ in 0..ASKINGS {
        if raised.load(Ordering::SeqCst) >= count {
            return;
        }
        thread::yield_now();
    }
    failed(rt, "a flag is never raised")
}

/// A thread waits here, queued, until the gate is open.
#[derive(Drop)]
struct AtGate<'a, T> {
    rt: &'a T,
    gate: &'a AtomicU64,
    /// How often it came here.
    runs: AtomicU64,
}

/// A thread that has not come there yet.
fn before_gate<'a, T>(rt: &'a T, gate: &'a AtomicU64) -> AtGate<'a, T> {
    AtGate {
        rt,
        gate,
        runs: AtomicU64::new(0),
    }
}

impl<T: Wait + Abort> BeforeSleep for AtGate<'_, T> {
    fn run(&self) {
        self.runs.fetch_add(1, Ordering::SeqCst);
        await_count(self.rt, self.gate, 1);
    }
}

/// `lock` of a thread that looks for its letter only after the gate was opened, and what the test has of it, with how
/// often it came there.
pub(crate) fn own_at_gate<N: LotName<Count> + Send + Sync, T: Wait + Abort>(
    rt: &T,
    lot: &Lot<Count, N>,
    pass: Pass<Count, N>,
    key: usize,
    gate: &AtomicU64,
) -> (Pass<Count, N>, Held<Count, N>, u64)
    requires key { key < lot.now.locks }
    requires free { OwnsNone pass }
    ensures key { result.1.key ≡ key }
    ensures holding { Holding (λ x y. x.n ≤ y.n) result.0 result.1 }
{
    let before = before_gate(rt, gate);
    let (pass, held) = lot.lock_after(rt, pass, key, &before);
    (pass, held, before.runs.load(Ordering::SeqCst))
}

/// `lock` of a second lock, and what the test has of it.
pub(crate) fn own_second<N: LotName<Count> + Send + Sync, T: Wait>(
    rt: &T,
    lot: &Lot<Count, N>,
    pass: Pass<Count, N>,
    first: Held<Count, N>,
    key: usize,
) -> (Pass<Count, N>, Held<Count, N>, Held<Count, N>)
    requires key { (key < lot.now.locks) × (key ≢ first.key) }
    requires holding { Holding (λ x y. x.n ≤ y.n) pass first }
    ensures keys { (result.1.key ≡ first.key) × (result.2.key ≡ key) }
    ensures both { HoldingBoth (λ x y. x.n ≤ y.n) result.0 result.1 result.2 }
{
    let (pass, second) = lot.lock(rt, pass, key);
    (pass, first, second)
}

/// `unlock` of the first of two locks at moment 0, and what the test has of it.
pub(crate) fn release_first<N: LotName<Count> + Send + Sync, T: Wait>(
    rt: &T,
    lot: &Lot<Count, N>,
    pass: Pass<Count, N>,
    first: Held<Count, N>,
    second: Held<Count, N>,
) -> (Pass<Count, N>, Held<Count, N>, Released)
    requires key { first.key < lot.now.locks }
    requires both { HoldingBoth (λ x y. x.n ≤ y.n) pass first second }
    ensures same { result.1 ≡ second }
    ensures holding { Holding (λ x y. x.n ≤ y.n) result.0 result.1 }
{
    let (pass, released) = lot.unlock(rt, pass, first, Moment { now: 0, word: 7 });
    (pass, second, released)
}

/// `wait` at a moment, and what the test has of it.
pub(crate) fn wait_once<N: LotName<Count> + Send + Sync, T: Wait>(
    rt: &T,
    lot: &Lot<Count, N>,
    pass: Pass<Count, N>,
    held: Held<Count, N>,
    cond: usize,
    now: u64,
) -> (Pass<Count, N>, Held<Count, N>)
    requires key { held.key < lot.now.locks }
    requires cond { IsCond lot.now cond }
    requires holding { Holding (λ x y. x.n ≤ y.n) pass held }
    ensures key { result.1.key ≡ held.key }
    ensures holding { Holding (λ x y. x.n ≤ y.n) result.0 result.1 }
{
    lot.wait(rt, pass, held, cond, Moment { now, word: 7 })
}

/// `wait` of a thread that is queued, and goes on only after the gate was opened, and what the test has of it, with how
/// often it came there.
pub(crate) fn wait_at_gate<N: LotName<Count> + Send + Sync, T: Wait + Abort>(
    rt: &T,
    lot: &Lot<Count, N>,
    pass: Pass<Count, N>,
    held: Held<Count, N>,
    cond: usize,
    gate: &AtomicU64,
) -> (Pass<Count, N>, Held<Count, N>, u64)
    requires key { held.key < lot.now.locks }
    requires cond { IsCond lot.now cond }
    requires holding { Holding (λ x y. x.n ≤ y.n) pass held }
    ensures key { result.1.key ≡ held.key }
    ensures holding { Holding (λ x y. x.n ≤ y.n) result.0 result.1 }
{
    let moment = Moment { now: 5, word: 7 };
    let before = before_gate(rt, gate);
    let (pass, held) = lot.wait_after(rt, pass, held, cond, moment, &before);
    (pass, held, before.runs.load(Ordering::SeqCst))
}

/// `notify_one` at a moment, and what the test has of it.
pub(crate) fn call_one<N: LotName<Count> + Send + Sync, T: Wait>(
    rt: &T,
    lot: &Lot<Count, N>,
    pass: Pass<Count, N>,
    cond: usize,
    now: u64,
) -> (Pass<Count, N>, bool)
    requires cond { IsCond lot.now cond }
    requires free { OwnsNone pass }
    ensures free { OwnsNone result.0 }
{
    lot.notify_one(rt, pass, cond, Moment { now, word: 7 })
}

/// `notify_one` by the owner of a lock, and what the test has of it.
pub(crate) fn call_owning<N: LotName<Count> + Send + Sync, T: Wait>(
    rt: &T,
    lot: &Lot<Count, N>,
    pass: Pass<Count, N>,
    held: Held<Count, N>,
    cond: usize,
) -> (Pass<Count, N>, Held<Count, N>, bool)
    requires cond { IsCond lot.now cond }
    requires holding { Holding (λ x y. x.n ≤ y.n) pass held }
    ensures same { result.1 ≡ held }
    ensures holding { Holding (λ x y. x.n ≤ y.n) result.0 held }
{
    let (pass, took) = lot.notify_one(rt, pass, cond, Moment { now: 0, word: 7 });
    (pass, held, took)
}

/// `notify_all`, and what the test has of it.
pub(crate) fn call_all<N: LotName<Count> + Send + Sync, T: Wait>(
    rt: &T,
    lot: &Lot<Count, N>,
    pass: Pass<Count, N>,
    cond: usize,
) -> (Pass<Count, N>, usize)
    requires cond { IsCond lot.now cond }
    requires free { OwnsNone pass }
    ensures free { OwnsNone result.0 }
{
    lot.notify_all(rt, pass, cond)
}

/// `notify_some`, and what the test has of it: how many were taken, and whether the flag is set then.
pub(crate) fn call_some<N: LotName<Count> + Send + Sync, T: Wait>(
    rt: &T,
    lot: &Lot<Count, N>,
    pass: Pass<Count, N>,
    cond: usize,
    count: usize,
) -> (Pass<Count, N>, (usize, bool))
    requires cond { IsCond lot.now cond }
    requires count { IsCallCount count }
    requires free { OwnsNone pass }
    ensures free { OwnsNone result.0 }
{
    let (pass, taken) = lot.notify_some(rt, pass, cond, count);
    let (pass, has) = lot.has_waiters(pass, cond);
    (pass, (taken, has))
}

/// Whether nobody comes to own the lock, asked a bounded number of times.
pub(crate) fn is_free<N: LotName<Count> + Send + Sync>(lot: &Lot<Count, N>, key: usize) -> bool
    requires { key < lot.now.locks }
{
    for _ in 0..ASKINGS {
        if !lot.is_held(key) {
            return true;
        }
        thread::yield_now();
    }
    false
}

/// Finds so many in the lock that it owns, and leaves one more.
pub(crate) fn raise<N: LotName<Count> + Send + Sync>(
    rt: &impl Abort,
    pass: Pass<Count, N>,
    mut held: Held<Count, N>,
    wanted: u64,
) -> (Pass<Count, N>, Held<Count, N>)
    requires holding { Holding (λ x y. x.n ≤ y.n) pass held }
    ensures key { result.1.key ≡ held.key }
    ensures holding { Holding (λ x y. x.n ≤ y.n) result.0 result.1 }
{
    let found = held.value().n;
    equal(rt, found, wanted);
    is_so(rt, found < 1000, "few have raised it");
    *held.value_mut() = Count { n: found + 1 };
    (pass, held)
}

/// How a test gets all passes of a lot, by number.
#[derive(Clone, Copy)]
pub(crate) enum Gathered {
    Left,
    /// In a table that grows as threads register.
    Registered,
    /// In a table that has this size all along.
    RegisteredAt(usize),
}

fn next_pass<N: LotName<Count> + Send + Sync, T: Wait + Abort>(
    rt: &T,
    lot: &mut Lot<Count, N>,
    thread: usize,
    how: Gathered,
) -> Pass<Count, N>
    ensures same { lot.new ≡ lot.old }
    ensures thread { result.thread ≡ thread }
    ensures free { OwnsNone result }
{
    let size = match how {
        Gathered::Left => return take_pass(rt, lot, thread),
        Gathered::Registered => wanted_size(thread),
        Gathered::RegisteredAt(size) => size,
    };
    let pass = enter(rt, lot);
    equal(rt, lot.table_size(rt), size);
    let given = pass.thread();
    if given == thread {
        pass
    } else {
        panic!(rt; "thread {given} was given before {thread}")
    }
}

fn gather<N: LotName<Count> + Send + Sync, T: Wait + Abort>(
    rt: &T,
    lot: &mut Lot<Count, N>,
    passes: &mut Vec<Pass<Count, N>>,
    threads: usize,
    how: Gathered,
)
    requires { (vec_len passes.old ≡ 0) × (threads ≤ vec_capacity passes.old) }
    ensures same { lot.new ≡ lot.old }
    ensures count { vec_len passes.new ≡ threads }
    ensures all { (t : ℕ) → t < threads → Any (λ (p : PassView Count). p.thread ≡ t) passes.new.items }
    ensures free { All OwnsNone passes.new.items }
{
    for thread in 0..threads {
        let pass = next_pass(rt, lot, thread, how);
        passes.push_reserved(pass);
    }
}

/// All passes are in, each once.
pub(crate) fn end<N: LotName<Count> + Send + Sync, T: Wait + Abort>(
    rt: &T,
    mut lot: Lot<Count, N>,
    mut passes: Vec<Pass<Count, N>>,
    threads: usize,
    how: Gathered,
) -> (Vec<Count>, Ledger)
    requires threads { lot.threads ≡ threads }
    requires room { (vec_len passes ≡ 0) × (threads ≤ vec_capacity passes) }
    ensures ledger { (vec_len result.1.called ≡ lot.conds) × (vec_len result.1.woken ≡ lot.conds) }
{
    gather(rt, &mut lot, &mut passes, threads, how);
    match lot.take_left(rt) {
        Some(_pass) => failed(rt, "a pass was left twice"),
        None => {}
    }
    match lot.register(rt) {
        Ok(_pass) => failed(rt, "a pass was given twice"),
        Err(fault) => equal(rt, fault, RegisterFault::Full),
    }
    lot.close(rt, passes)
}

/// The sizes of the table, each with the first thread number that it serves, where passes are given one by one.
const SIZES: [(usize, usize); 8] = [
    (0, 3),
    (1, 12),
    (4, 30),
    (10, 66),
    (22, 138),
    (46, 282),
    (94, 570),
    (190, 1146),
];

/// The size that the table has when the pass of this number was given.
fn wanted_size(thread: usize) -> usize {
    let mut wanted = 0;
    for (first, size) in SIZES {
        if thread >= first {
            wanted = size;
        }
    }
    wanted
}
