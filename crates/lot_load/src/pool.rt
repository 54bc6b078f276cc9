//! `pool`: threads that share some permits, and count under a lock how many have one at a time.
ghost use Rattle.std.specs.Prelude.{◌≡◌, ◌≤◌, ℕ, length};
ghost use Rattle.lot_core.specs.declared.state.TheConstants.{MAX_THREADS};
ghost use Rattle.lot_sync.specs.Lot.{Owns, OwnsNone};
ghost use Rattle.lot_sync.specs.Opened.{IsNamed};

use crate::gate::{Gate, Point};
use crate::inside::{Going, Inside};
use crate::workers::{moment, open, outcome, push_lines};
use lot_calls::{finish_with, start_with_passes, work_together};
use lot_command::Failure;
use lot_sync::{Lot, LotName, Moment, Opened, Pass};
use std::alloc::Global;
use std::marker::Brand;
use std::sync::Wait;
use std::thread::Threads;

/// The key of the lock that guards the count.
const COUNT: usize = 0;

/// The key of the semaphore, after the lock's.
const POOL: usize = 1;

/// How many threads, how many permits they share, how many rounds of each thread, and the seed of the random words.
#[derive(Drop)]
pub struct Pooling {
    pub threads: usize,
    pub permits: u32,
    pub rounds: u64,
    pub seed: u64,
    ghost threads_fit: { (1 ≤ threads) × (threads ≤ MAX_THREADS) },
}

/// How many rounds were done, and whether never more workers than permits were in, printed. The gate can hold the
/// workers.
pub fn pool<T: Threads + Wait + Sync, G: Gate + Sync>(
    rt: &T,
    alloc: Global,
    gate: &G,
    pooling: &Pooling,
) -> Result<String, Failure> {
    let mut counts = Vec::with_capacity(alloc, 1)?;
    counts.push_reserved(Inside::new());
    let permits = [pooling.permits];
    let opened = open(alloc, pooling.threads, counts, 0, &permits)?;
    run::<Brand, T, G>(rt, alloc, gate, pooling, opened)
}

/// Starts the lot, lets the workers run, and prints what was counted.
fn run<N: LotName<Inside> + Send + Sync, T: Threads + Wait + Sync, G: Gate + Sync>(
    rt: &T,
    alloc: Global,
    gate: &G,
    pooling: &Pooling,
    opened: Opened<Inside>,
) -> Result<String, Failure>
    requires named { IsNamed N.LotName opened }
    requires sizes { (opened.threads ≡ pooling.now.threads) × (length opened.values ≡ 1) × (opened.conds ≡ 0)
        × (length opened.permits ≡ 1) }
{
    let Ok((lot, passes)) = start_with_passes::<Inside, N, T>(rt, alloc, pooling.threads, opened)
    else {
        return Err(Failure::NoMemory);
    };
    let go = |pass: Pass<Inside, N>| -> Pass<Inside, N>
        requires { (lot.locks ≡ 1) × (lot.conds ≡ 0) × (lot.sems ≡ 1) × OwnsNone pass }
        ensures { OwnsNone result }
    { work(rt, &lot, gate, pooling, pass) };
    let (passes, worked) = work_together(rt, &go, passes);
    let (counts, _) = finish_with(rt, lot, passes);
    outcome(worked, false)?;
    print(alloc, &counts[0], pooling.permits)
}

/// One worker, with all its rounds.
fn work<N: LotName<Inside> + Send + Sync, T: Wait, G: Gate>(
    rt: &T,
    lot: &Lot<Inside, N>,
    gate: &G,
    pooling: &Pooling,
    mut pass: Pass<Inside, N>,
) -> Pass<Inside, N>
    requires sizes { (lot.now.locks ≡ 1) × (lot.now.conds ≡ 0) × (lot.now.sems ≡ 1) }
    requires free { OwnsNone pass }
    ensures { OwnsNone result }
{
    let worker = pass.thread();
    for round in 0..pooling.rounds {
        pass = go_round(rt, lot, gate, pooling, worker, round, pass);
    }
    pass
}

/// One round of a worker: it gets a permit, counts itself in and out again, and gives the permit back.
fn go_round<N: LotName<Inside> + Send + Sync, T: Wait, G: Gate>(
    rt: &T,
    lot: &Lot<Inside, N>,
    gate: &G,
    pooling: &Pooling,
    worker: usize,
    round: u64,
    pass: Pass<Inside, N>,
) -> Pass<Inside, N>
    requires sizes { (lot.now.locks ≡ 1) × (lot.now.conds ≡ 0) × (lot.now.sems ≡ 1) }
    requires free { OwnsNone pass }
    ensures { OwnsNone result }
{
    let moment = moment(pooling.seed, worker as u64, round);
    gate.reached(worker, round, Point::BeforeLock);
    let (pass, permit) = lot.acquire(rt, pass, POOL);
    gate.reached(worker, round, Point::Owning);
    let pass = count(rt, lot, pass, Going::In, moment);
    let pass = count(rt, lot, pass, Going::Out, moment);
    gate.reached(worker, round, Point::BeforeRelease);
    let (pass, _) = lot.release(rt, pass, permit, moment);
    pass
}

/// Counts the worker in, or out again.
fn count<N: LotName<Inside> + Send + Sync, T: Wait>(
    rt: &T,
    lot: &Lot<Inside, N>,
    pass: Pass<Inside, N>,
    going: Going,
    moment: Moment,
) -> Pass<Inside, N>
    requires sizes { lot.now.locks ≡ 1 }
    requires free { (k : ℕ) → ¬ Owns pass k }
    ensures free { (k : ℕ) → ¬ Owns result k }
    ensures same { (result.thread ≡ pass.thread) × (result.permits ≡ pass.permits) }
{
    let (pass, mut held) = lot.lock(rt, pass, COUNT);
    held.value_mut().count(going);
    lot.unlock(rt, pass, held, moment).0
}

/// A line for the rounds that were done, and one for whether never more workers than permits were in.
fn print(alloc: Global, counts: &Inside, permits: u32) -> Result<String, Failure> {
    let mut text = String::new(alloc);
    push_lines(&mut text, &[("done", counts.done)])?;
    let is_within = counts.most <= permits as u64;
    text.push_str(if is_within { "within\n" } else { "over\n" })?;
    Ok(text)
}
