//! `count`: threads that lock, count themselves and unlock, on real locks.
ghost use Rattle.std.specs.Prelude.{◌≡◌, ◌≤◌, ◌<◌, ◌+◌, ℕ, length, vec_len, IfOk, MatchBool};
ghost use Rattle.lot_core.specs.declared.state.TheConstants.{MAX_THREADS, MAX_KEYS};
ghost use Rattle.lot_sync.specs.Lot.{OwnsNone};
ghost use Rattle.lot_sync.specs.Opened.{IsNamed};
ghost use Rattle.lot_load.specs.Counters.{AllLegal};
ghost use Rattle.lot_load.specs.Works.{WorksOn};

use crate::counter::{Add, Counter};
use crate::gate::{Gate, Point};
use crate::workers::{moment, open, outcome};
use lot_calls::{finish_with, start_with_passes, work_together};
use lot_command::{Failure, report};
use lot_journal::Journal;
use lot_sync::{Held, Lot, LotName, Opened, Pass};
use lot_words::Keeps;
use std::alloc::{AllocError, Global};
use std::fmt::Write as _;
use std::io::Write;
use std::marker::Brand;
use std::sync::Wait;
use std::sync::atomic::{AtomicBool, Ordering};
use std::thread::Threads;

/// How many threads, how many locks, how many rounds of each thread, and the seed of the random words.
#[derive(Drop)]
pub struct Counting {
    pub threads: usize,
    pub locks: usize,
    pub rounds: u64,
    pub seed: u64,
    ghost threads_fit: { (1 ≤ threads) × (threads ≤ MAX_THREADS) },
    ghost locks_fit: { (1 ≤ locks) × (locks ≤ MAX_KEYS) },
}

/// `count`, of which the text or the failure is written; answers the exit status.
pub fn count_with<T: Threads + Wait + Sync, G: Gate + Sync, W: Write, E: Write>(
    rt: &T,
    alloc: Global,
    gate: &G,
    counting: &Counting,
    out: &mut W,
    faults: &mut E,
) -> u8 {
    report(count(rt, alloc, gate, counting), out, faults)
}

/// What each lock counted, printed. The gate can hold the workers.
pub fn count<T: Threads + Wait + Sync, G: Gate + Sync>(
    rt: &T,
    alloc: Global,
    gate: &G,
    counting: &Counting,
) -> Result<String, Failure> {
    let journals = new_journals(alloc, counting.locks)?;
    let opened = open(alloc, counting.threads, journals, 0, &[])?;
    run::<Brand, T, G>(rt, alloc, gate, counting, opened)
}

/// An empty journal for each lock.
pub fn new_journals(alloc: Global, locks: usize) -> Result<Vec<Journal<Counter>>, AllocError>
    ensures long { IfOk result (λ journals. vec_len journals ≡ locks) }
    ensures kept { IfOk result (λ journals. AllLegal journals.items) }
{
    let opening = Counter { total: 0 };
    let mut journals = Vec::with_capacity(alloc, locks)?;
    for _ in 0..locks {
        journals.push_reserved(Journal::new(alloc, opening, opening));
    }
    Ok(journals)
}

/// Starts the lot, lets the workers run, and prints what the locks counted.
fn run<N: LotName<Journal<Counter>> + Send + Sync, T: Threads + Wait + Sync, G: Gate + Sync>(
    rt: &T,
    alloc: Global,
    gate: &G,
    counting: &Counting,
    opened: Opened<Journal<Counter>>,
) -> Result<String, Failure>
    requires named { IsNamed N.LotName opened }
    requires sizes { (opened.threads ≡ counting.now.threads) × (length opened.values ≡ counting.now.locks) }
{
    let started = start_with_passes::<Journal<Counter>, N, T>(rt, alloc, counting.threads, opened);
    let Ok((lot, passes)) = started else {
        return Err(Failure::NoMemory);
    };
    let refused = AtomicBool::new(false);
    let go = |pass: Pass<Journal<Counter>, N>| -> Pass<Journal<Counter>, N>
        requires sizes { (lot.threads ≡ counting.now.threads) × (lot.locks ≡ counting.now.locks) }
        requires free { OwnsNone pass }
        ensures { OwnsNone result }
    { work(rt, &lot, gate, counting, &refused, pass) };
    let (passes, worked) = work_together(rt, &go, passes);
    let (journals, _) = finish_with(rt, lot, passes);
    outcome(worked, refused.load(Ordering::SeqCst))?;
    print(alloc, journals.as_slice())
}

/// One worker, with all its rounds. Where memory is refused to it, it ends there, and says so.
fn work<N: LotName<Journal<Counter>> + Send + Sync, T: Wait, G: Gate>(
    rt: &T,
    lot: &Lot<Journal<Counter>, N>,
    gate: &G,
    counting: &Counting,
    refused: &AtomicBool,
    mut pass: Pass<Journal<Counter>, N>,
) -> Pass<Journal<Counter>, N>
    requires sizes { (lot.now.threads ≡ counting.now.threads) × (lot.now.locks ≡ counting.now.locks) }
    requires free { OwnsNone pass }
    ensures { OwnsNone result }
{
    let worker = pass.thread();
    for round in 0..counting.rounds {
        let (gone, called) = go_round(rt, lot, gate, counting, worker, round, pass);
        pass = gone;
        if !called {
            refused.store(true, Ordering::SeqCst);
            break;
        }
    }
    pass
}

/// One round of a worker: it locks the round's key, adds one to its counter and unlocks. Answers whether there was
/// memory for the call.
pub fn go_round<V: Counts + Send, N: LotName<V> + Send + Sync, T: Wait, G: Gate>(
    rt: &T,
    lot: &Lot<V, N>,
    gate: &G,
    counting: &Counting,
    worker: usize,
    round: u64,
    pass: Pass<V, N>,
) -> (Pass<V, N>, bool)
    requires sizes { (lot.now.threads ≡ counting.now.threads) × (lot.now.locks ≡ counting.now.locks) }
    requires free { OwnsNone pass }
    ensures { OwnsNone result.0 }
{
    let key = ((worker as u64).wrapping_add(round) % counting.locks as u64) as usize;
    gate.reached(worker, round, Point::BeforeLock);
    let thread = pass.thread();
    let (pass, mut held) = lot.lock(rt, pass, key);
    gate.reached(worker, round, Point::Owning);
    let called = add_one(&mut held, thread);
    gate.reached(worker, round, Point::BeforeRelease);
    let (pass, _) = lot.unlock(rt, pass, held, moment(counting.seed, worker as u64, round));
    (pass, called)
}

/// The owner's thread counts itself. False, with nothing changed, where memory was refused.
pub fn add_one<V: Counts, N>(held: &mut Held<V, N>, thread: usize) -> bool
    requires kept { V.keeps held.old.key held.old.value }
    ensures works { WorksOn V.Keeps held.old thread held.new }
    ensures counted { MatchBool result (V.is_counted held.old.value thread held.new.value)
        (held.new.value ≡ held.old.value) }
{
    let key = held.key();
    held.value_mut().count_up(key, thread)
}

/// What a worker does with a value: it counts itself. A round is generic over it: what is proved of a round is proved
/// of each such value.
pub trait Counts: Keeps {
    ghost use Rattle.std.specs.Prelude.{◌≡◌, ◌≢◌, ℕ, MatchBool};

    /// The value before, a thread, and the value in which that thread is counted once more.
    ghost is_counted: { Self → ℕ → Self → Type 0 };

    /// Counts the thread. False, with nothing changed, where memory was refused.
    fn count_up(&mut self, key: usize, thread: usize) -> bool
        requires kept { Self.keeps key self.old }
        ensures kept { Self.keeps key self.new }
        ensures grown { Self.grows self.old self.new }
        ensures others { (t : ℕ) → t ≢ thread → Self.part t self.old ≡ Self.part t self.new }
        ensures counted { MatchBool result (is_counted self.old thread self.new) (self.new ≡ self.old) };
}

impl Counts for Journal<Counter> {
    ghost use Rattle.lot_load.specs.Counters.{total_after, IsAdded, OwnIsMore};

    ghost is_counted = { λ old thread new. IsAdded old thread (record { 0 = 1 }) new
        × OwnIsMore old thread (record { 0 = 1 }) (total_after old.object (record { 0 = 1 })) new };

    fn count_up(&mut self, _key: usize, thread: usize) -> bool {
        self.call(thread, Add(1)).is_ok()
    }
}

/// A line for each lock, and one for the sum.
fn print(alloc: Global, journals: &[Journal<Counter>]) -> Result<String, Failure> {
    let mut text = String::new(alloc);
    let mut sum = 0u64;
    for (key, journal) in journals.iter().enumerate() {
        let total = journal.object().total;
        writeln!(text, "lock {key} total {total}")?;
        sum = sum.wrapping_add(total);
    }
    writeln!(text, "sum {sum}")?;
    Ok(text)
}
