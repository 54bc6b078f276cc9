//! Threads that sleep while others register, and how long it takes from an unlock to the thread that slept.
ghost use Rattle.std.specs.Prelude.{◌<◌};
ghost use Rattle.lot_sync.specs.Lot.{OwnsNone};

use super::clock::{now, spend};
use super::rounds::{Random, key_of};
use super::stages::Told;
use super::steps::Steps;
use super::times::Times;
use super::turns::NEVER_FAIR;
use super::value::Number;
use lot_sync::{Lot, LotName, Pass};
use std::alloc::Global;
use std::sync::Wait;
use std::sync::atomic::{AtomicU64, Ordering};
use std::thread;
use std::time::Clock;

/// How often a thread asks whether another is parked.
const ASKINGS: u64 = 10_000_000;

/// How often a thread sleeps and is woken.
const SLEEPS: u64 = 100;

/// A thread sleeps when it has asked for a held lock so many nanoseconds ago.
const ASLEEP_AFTER: u64 = 200_000;

/// One thread: it registers when its turn has come, and stays until all have.
pub fn register_in_turn<N: LotName<Number> + Send, T: Wait + Clock>(
    rt: &T,
    lot: &Lot<Number, N>,
    steps: &Steps,
    threads: usize,
    worker: usize,
) -> Told
    requires { 0 < lot.now.locks }
{
    let _ = steps.await_made(worker as u64);
    let begin = now(rt);
    let registered = lot.register(rt);
    let took = now(rt).wrapping_sub(begin);
    let Ok(pass) = registered else {
        steps.make();
        return Told::Registered(took);
    };
    let pass = stay(rt, lot, steps, threads, worker, pass);
    lot.leave(rt, pass);
    Told::Registered(took)
}

/// Stays until all have registered: the first owns lock 0 meanwhile, and the second sleeps for it. The third registers
/// when the second is parked.
fn stay<N: LotName<Number> + Send, T: Wait>(
    rt: &T,
    lot: &Lot<Number, N>,
    steps: &Steps,
    threads: usize,
    worker: usize,
    pass: Pass<Number, N>,
) -> Pass<Number, N>
    requires locks { 0 < lot.now.locks }
    requires free { OwnsNone pass }
    ensures { OwnsNone result }
{
    match worker {
        0 => {
            let (owner, held) = lot.lock(rt, pass, 0);
            steps.make();
            if threads > 1 {
                await_parked(lot);
                steps.make();
            }
            let _ = steps.await_made(threads as u64);
            let (free, _) = lot.unlock(rt, owner, held, NEVER_FAIR);
            free
        }
        1 => {
            let (owner, held) = lot.lock(rt, pass, 0);
            let (free, _) = lot.unlock(rt, owner, held, NEVER_FAIR);
            free
        }
        _ => {
            steps.make();
            let _ = steps.await_made(threads as u64);
            pass
        }
    }
}

/// Waits until somebody is parked on lock 0. It asks a bounded number of times.
fn await_parked<N: LotName<Number> + Send>(lot: &Lot<Number, N>)
    requires { 0 < lot.now.locks }
{
    for _ in 0..ASKINGS {
        if lot.is_parked(0) {
            return;
        }
        thread::yield_now();
    }
}

/// Owns a lock by chance until the other sleeps for it, and lets it go, so many times.
pub fn wake<N: LotName<Number> + Send, T: Wait + Clock>(
    rt: &T,
    lot: &Lot<Number, N>,
    steps: &Steps,
    unlocked: &AtomicU64,
) -> Told
    requires { 0 < lot.now.locks }
{
    let Ok(mut pass) = lot.register(rt) else {
        return Told::Nothing;
    };
    let mut random = Random::new(1);
    for round in 0..SLEEPS {
        let (owner, held) = lot.lock(rt, pass, key_of(random.next(), lot.locks()));
        steps.make();
        let _ = steps.await_made(3 * round + 2);
        spend(rt, ASLEEP_AFTER);
        unlocked.store(now(rt), Ordering::SeqCst);
        let (free, _) = lot.unlock(rt, owner, held, NEVER_FAIR);
        pass = free;
        if !steps.await_made(3 * round + 3) {
            break;
        }
    }
    lot.leave(rt, pass);
    Told::Nothing
}

/// Asks for the same locks when the other owns them. Answers how long after each unlock it owned the lock.
pub fn sleep<N: LotName<Number> + Send, T: Wait + Clock>(
    rt: &T,
    alloc: Global,
    lot: &Lot<Number, N>,
    steps: &Steps,
    unlocked: &AtomicU64,
) -> Told
    requires { 0 < lot.now.locks }
{
    let Ok(mut times) = Times::new(alloc) else {
        return Told::Nothing;
    };
    let Ok(mut pass) = lot.register(rt) else {
        return Told::Nothing;
    };
    let mut random = Random::new(1);
    for round in 0..SLEEPS {
        if !steps.await_made(3 * round + 1) {
            break;
        }
        steps.make();
        let (owner, held) = lot.lock(rt, pass, key_of(random.next(), lot.locks()));
        let owned = now(rt);
        let (free, _) = lot.unlock(rt, owner, held, NEVER_FAIR);
        pass = free;
        times.note(owned.wrapping_sub(unlocked.load(Ordering::SeqCst)));
        steps.make();
    }
    lot.leave(rt, pass);
    Told::Slept(times)
}
