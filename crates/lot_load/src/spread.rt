//! What `many` and `contend` share: threads that draw locks by chance, and count under them.
ghost use Rattle.std.specs.Prelude.{◌≡◌, ◌≤◌, ◌<◌, vec_capacity};
ghost use Rattle.std.specs.List.{All};
ghost use Rattle.lot_core.specs.declared.state.TheConstants.{MAX_THREADS};
ghost use Rattle.lot_sync.specs.Lot.{OwnsNone};
ghost use Rattle.lot_load.specs.declared.spread.TheConstants.{MOST_LOCKS};

use crate::measure::value::{Number, sum_of};
use crate::workers::{moment, outcome};
use lot_calls::work_together;
use lot_command::Failure;
use lot_sync::{Lot, LotName, Pass, Tally};
use std::fmt::Write as _;
use std::sync::Wait;
use std::sync::atomic::{AtomicU64, Ordering};
use std::thread;
use std::thread::Threads;

/// How many locks there may be.
pub(crate) const MOST_LOCKS: usize = 10_000_000;

/// How often an owner of a hot lock yields before it lets the lock go: more often than who seeks it yields before it
/// parks. So threads park on few processors too.
const YIELDS: u32 = 48;

/// How many threads, how many locks, how many rounds of each thread, and the seed of the random words.
#[derive(Drop)]
pub(crate) struct Spreading {
    pub(crate) threads: usize,
    pub(crate) locks: usize,
    pub(crate) rounds: u64,
    pub(crate) seed: u64,
    ghost threads_fit: { (1 ≤ threads) × (threads ≤ MAX_THREADS) },
    ghost locks_fit: { (1 ≤ locks) × (locks ≤ MOST_LOCKS) },
}

/// How a worker draws the lock of a round.
#[derive(Clone, Copy)]
pub(crate) enum Draw {
    /// Each as often as any other.
    Evenly,
    /// Lower numbers more often, so they are hotter; and an owner lingers.
    Hot,
}

impl Draw {
    /// The lock that a word draws.
    fn lock_of(self, word: u64, locks: usize) -> usize
        requires { 0 < locks }
        ensures { result < locks }
    {
        match self {
            Draw::Evenly => (word % locks as u64) as usize,
            Draw::Hot => lower_of_two(word, locks),
        }
    }

    /// Lets other threads run meanwhile, where the lock is hot.
    fn linger(self) {
        if let Draw::Hot = self {
            for _ in 0..YIELDS {
                thread::yield_now();
            }
        }
    }
}

/// The lower of two locks that a word draws.
fn lower_of_two(word: u64, locks: usize) -> usize
    requires { 0 < locks }
    ensures { result < locks }
{
    let count = locks as u64;
    let one = word % count;
    let other = word / count % count;
    one.min(other) as usize
}

/// Has each thread go its rounds with its pass. The passes come back, and how many rounds the threads went together.
pub(crate) fn spread<
    N: LotName<Number> + Send + Sync,
    C: Tally + Send + Sync,
    T: Threads + Wait + Sync,
>(
    rt: &T,
    lot: &Lot<Number, N, C>,
    spreading: &Spreading,
    draw: Draw,
    passes: Vec<Pass<Number, N>>,
) -> (Vec<Pass<Number, N>>, Result<u64, Failure>)
    requires locks { lot.now.locks ≡ spreading.now.locks }
    requires free { All OwnsNone passes.items }
    ensures free { All OwnsNone result.0.items }
    ensures room { vec_capacity result.0 ≡ vec_capacity passes }
{
    let gone = AtomicU64::new(0);
    let go = |pass: Pass<Number, N>| -> Pass<Number, N>
        requires { (lot.now.locks ≡ spreading.now.locks) × OwnsNone pass }
        ensures { OwnsNone result }
    { work(rt, lot, spreading, draw, &gone, pass) };
    let (passes, worked) = work_together(rt, &go, passes);
    let told = match outcome(worked, false) {
        Ok(()) => Ok(gone.load(Ordering::SeqCst)),
        Err(failure) => Err(failure),
    };
    (passes, told)
}

/// One worker: it goes its rounds, and tells how many they were.
fn work<N: LotName<Number> + Send + Sync, C: Tally + Send, T: Wait>(
    rt: &T,
    lot: &Lot<Number, N, C>,
    spreading: &Spreading,
    draw: Draw,
    gone: &AtomicU64,
    mut pass: Pass<Number, N>,
) -> Pass<Number, N>
    requires locks { lot.now.locks ≡ spreading.now.locks }
    requires free { OwnsNone pass }
    ensures { OwnsNone result }
{
    let worker = pass.thread();
    for round in 0..spreading.rounds {
        let moment = moment(spreading.seed, worker as u64, round);
        let key = draw.lock_of(moment.word, spreading.locks);
        let (owner, mut held) = lot.lock(rt, pass, key);
        let number = held.value_mut();
        number.n = number.n.wrapping_add(1);
        draw.linger();
        let (free, _) = lot.unlock(rt, owner, held, moment);
        pass = free;
    }
    gone.fetch_add(spreading.rounds, Ordering::SeqCst);
    pass
}

/// A line for what all locks counted together, and one for the rounds that the workers went.
pub(crate) fn print_total(
    text: &mut String,
    name: &str,
    numbers: &[Number],
    gone: u64,
) -> Result<(), Failure> {
    let total = sum_of(numbers);
    writeln!(text, "{name} {} total {total}", numbers.len())?;
    writeln!(text, "sum {gone}")?;
    Ok(())
}
