//! `relay`: producers put numbers into a buffer that consumers take, and wait on two conditions.
ghost use Rattle.std.specs.Prelude.{◌≡◌, ◌≤◌, ◌<◌, length};
ghost use Rattle.lot_core.specs.declared.state.TheConstants.{MAX_THREADS};
ghost use Rattle.lot_sync.specs.Lot.{OwnsNone};
ghost use Rattle.lot_sync.specs.Opened.{IsNamed};
ghost use Rattle.lot_load.specs.Buffers.{HasBuffer};

use crate::buffer::{Buffer, TakenNumber};
use crate::gate::{Gate, Point};
use crate::workers::{moment, open, outcome, push_lines};
use lot_calls::{finish_with, start_with_passes, work_together};
use lot_command::{Failure, report};
use lot_sync::{Held, Ledger, Lot, LotName, Moment, Opened, Pass};
use std::alloc::Global;
use std::io::Write;
use std::marker::Brand;
use std::sync::Wait;
use std::thread::Threads;

/// The lock of the buffer.
const BUFFER: usize = 0;

/// The condition on which producers wait.
const NOT_FULL: usize = 1;

/// The condition on which consumers wait.
const NOT_EMPTY: usize = 2;

/// How many threads, how many numbers each producer puts, and the seed of the random words.
#[derive(Drop)]
pub struct Relaying {
    pub threads: usize,
    pub rounds: u64,
    pub seed: u64,
    ghost threads_fit: { (2 ≤ threads) × (threads ≤ MAX_THREADS) },
}

impl Relaying {
    /// How many of the threads are producers.
    fn producers(&self) -> usize {
        self.threads / 2
    }

    /// How many numbers all producers put.
    fn total(&self) -> u64 {
        (self.producers() as u64).saturating_mul(self.rounds)
    }

    /// Whether a thread that wants to act has to wait on the condition.
    fn has_to_wait(&self, buffer: &Buffer, cond: usize) -> bool {
        if cond == NOT_FULL {
            buffer.is_full()
        } else {
            buffer.is_empty() && buffer.taken < self.total()
        }
    }
}

/// `relay`, of which the text or the failure is written; answers the exit status.
pub fn relay_with<T: Threads + Wait + Sync, G: Gate + Sync, W: Write, E: Write>(
    rt: &T,
    alloc: Global,
    gate: &G,
    relaying: &Relaying,
    out: &mut W,
    faults: &mut E,
) -> u8 {
    report(relay(rt, alloc, gate, relaying), out, faults)
}

/// What was put and taken, printed. The gate can hold the workers.
pub fn relay<T: Threads + Wait + Sync, G: Gate + Sync>(
    rt: &T,
    alloc: Global,
    gate: &G,
    relaying: &Relaying,
) -> Result<String, Failure> {
    let mut buffers = Vec::with_capacity(alloc, 1)?;
    buffers.push_reserved(Buffer::new());
    let opened = open(alloc, relaying.threads, buffers, 2, &[])?;
    run::<Brand, T, G>(rt, alloc, gate, relaying, opened)
}

/// Starts the lot, lets the workers run, and prints what was put and taken.
fn run<N: LotName<Buffer> + Send + Sync, T: Threads + Wait + Sync, G: Gate + Sync>(
    rt: &T,
    alloc: Global,
    gate: &G,
    relaying: &Relaying,
    opened: Opened<Buffer>,
) -> Result<String, Failure>
    requires named { IsNamed N.LotName opened }
    requires sizes { (opened.threads ≡ relaying.now.threads) × (length opened.values ≡ 1) × (opened.conds ≡ 2) }
{
    let Ok((lot, passes)) = start_with_passes::<Buffer, N, T>(rt, alloc, relaying.threads, opened)
    else {
        return Err(Failure::NoMemory);
    };
    let go = |pass: Pass<Buffer, N>| -> Pass<Buffer, N>
        requires { (lot.locks ≡ 1) × (lot.conds ≡ 2) × OwnsNone pass }
        ensures { OwnsNone result }
    { work(rt, &lot, gate, relaying, pass) };
    let (passes, worked) = work_together(rt, &go, passes);
    let (buffers, ledger) = finish_with(rt, lot, passes);
    outcome(worked, false)?;
    print(alloc, &buffers[0], &ledger)
}

/// One worker: it puts numbers or takes them.
fn work<N: LotName<Buffer> + Send + Sync, T: Wait, G: Gate>(
    rt: &T,
    lot: &Lot<Buffer, N>,
    gate: &G,
    relaying: &Relaying,
    pass: Pass<Buffer, N>,
) -> Pass<Buffer, N>
    requires sizes { (lot.now.locks ≡ 1) × (lot.now.conds ≡ 2) }
    requires free { OwnsNone pass }
    ensures { OwnsNone result }
{
    let worker = pass.thread();
    let relays = Relays {
        rt,
        lot,
        gate,
        relaying,
    };
    if worker < relaying.producers() {
        relays.produce(worker, pass)
    } else {
        relays.consume(worker, pass)
    }
}

/// What a worker is lent.
#[derive(Drop)]
struct Relays<'a, N: LotName<Buffer> + Send + Sync, T: Wait, G: Gate> {
    rt: &'a T,
    lot: &'a Lot<Buffer, N>,
    gate: &'a G,
    relaying: &'a Relaying,
    ghost keys: { (lot.now.locks ≡ 1) × (lot.now.conds ≡ 2) },
}

impl<N: LotName<Buffer> + Send + Sync, T: Wait, G: Gate> Relays<'_, N, T, G> {
    /// Puts the numbers from 1 on, one in each round.
    fn produce(&self, worker: usize, mut pass: Pass<Buffer, N>) -> Pass<Buffer, N>
        requires { OwnsNone pass }
        ensures { OwnsNone result }
    {
        for round in 0..self.relaying.rounds {
            let (gone, put) = self.put_next(worker, round, pass);
            pass = gone;
            if !put {
                break;
            }
        }
        pass
    }

    /// Takes numbers, one in each round, until all were taken.
    fn consume(&self, worker: usize, mut pass: Pass<Buffer, N>) -> Pass<Buffer, N>
        requires { OwnsNone pass }
        ensures { OwnsNone result }
    {
        for round in 0..self.relaying.total() {
            let (gone, taken) = self.take_next(worker, round, pass);
            pass = gone;
            if !taken {
                break;
            }
        }
        pass
    }

    /// Puts the round's number when there is a place, and notifies a consumer. False where the buffer refused it.
    fn put_next(&self, worker: usize, round: u64, pass: Pass<Buffer, N>) -> (Pass<Buffer, N>, bool)
        requires { OwnsNone pass }
        ensures { OwnsNone result.0 }
    {
        let moment = moment(self.relaying.seed, worker as u64, round);
        let (pass, mut held) = self.get(worker, round, pass, NOT_FULL, moment);
        let put = held.value_mut().put(round.saturating_add(1));
        self.gate.reached(worker, round, Point::BeforeRelease);
        let (pass, _) = self.lot.unlock(self.rt, pass, held, moment);
        let (pass, _) = self.lot.notify_one(self.rt, pass, NOT_EMPTY, moment);
        (pass, put)
    }

    /// Takes a number when one lies there, and notifies a producer. False where none will come any more.
    fn take_next(&self, worker: usize, round: u64, pass: Pass<Buffer, N>) -> (Pass<Buffer, N>, bool)
        requires { OwnsNone pass }
        ensures { OwnsNone result.0 }
    {
        let moment = moment(self.relaying.seed, worker as u64, round);
        let (pass, mut held) = self.get(worker, round, pass, NOT_EMPTY, moment);
        let taken = held.value_mut().take();
        let is_last = held.value().taken == self.relaying.total();
        self.gate.reached(worker, round, Point::BeforeRelease);
        let (pass, _) = self.lot.unlock(self.rt, pass, held, moment);
        match taken {
            TakenNumber::Got(_) => (self.tell_taken(pass, is_last, moment), true),
            TakenNumber::Empty | TakenNumber::TooMuch => (pass, false),
        }
    }

    /// Notifies a producer; and, after the last number, all consumers.
    fn tell_taken(&self, pass: Pass<Buffer, N>, is_last: bool, moment: Moment) -> Pass<Buffer, N>
        requires { OwnsNone pass }
        ensures { OwnsNone result }
    {
        let (pass, _) = self.lot.notify_one(self.rt, pass, NOT_FULL, moment);
        if is_last {
            self.lot.notify_all(self.rt, pass, NOT_EMPTY).0
        } else {
            pass
        }
    }

    /// Locks the buffer, and waits on the condition while it has to. The gate can hold the worker before and after.
    fn get(
        &self,
        worker: usize,
        round: u64,
        pass: Pass<Buffer, N>,
        cond: usize,
        moment: Moment,
    ) -> (Pass<Buffer, N>, Held<Buffer, N>)
        requires free { OwnsNone pass }
        requires cond { (1 ≤ cond) × (cond < 3) }
        ensures { HasBuffer result.0 result.1 }
    {
        self.gate.reached(worker, round, Point::BeforeLock);
        let (mut pass, mut held) = self.lot.lock(self.rt, pass, BUFFER);
        for _ in self.rt.forever() {
            if !self.relaying.has_to_wait(held.value(), cond) {
                self.gate.reached(worker, round, Point::Owning);
                return (pass, held);
            }
            let (woken, found) = self.lot.wait(self.rt, pass, held, cond, moment);
            pass = woken;
            held = found;
        }
        unreachable!()
    }
}

/// A line for each number of the buffer, and whether each sleeper that was taken from a condition's line is one wait
/// that ended.
fn print(alloc: Global, buffer: &Buffer, ledger: &Ledger) -> Result<String, Failure> {
    let mut text = String::new(alloc);
    let numbers = [
        ("put", buffer.put),
        ("taken", buffer.taken),
        ("sum", buffer.sum),
    ];
    push_lines(&mut text, &numbers)?;
    let is_balanced = ledger.called.as_slice() == ledger.woken.as_slice();
    text.push_str(if is_balanced {
        "balanced\n"
    } else {
        "not balanced\n"
    })?;
    Ok(text)
}
