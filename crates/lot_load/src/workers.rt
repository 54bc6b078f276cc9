//! What the commands share that run real threads on a lot: how it is opened, what came of their workers, and the
//! moments of releases.
ghost use Rattle.std.specs.Prelude.{◌≡◌, Ok, Err, if◌then◌else◌, IfOk, length, vec_len};
ghost use Rattle.lot_sync.specs.Opened.{KeepAll, IsThreadCount, AreManyKeys};

use lot_command::Failure;
use lot_sync::{Lot, Moment, OpenFault, Opened};
use lot_words::Keeps;
use std::alloc::Global;
use std::fmt::Write as _;
use std::marker::Brand;

/// How much later each round of a worker is than the one before, in nanoseconds. No clock is read.
const ROUND: u64 = 500_000;

/// Opens a lot as `open_many` does, with numbers of threads and of keys that it allows.
pub fn open<V: Keeps + Send>(
    alloc: Global,
    threads: usize,
    values: Vec<V>,
    conds: usize,
    permits: &[u32],
) -> Result<Opened<V>, Failure>
    requires kept { KeepAll V.keeps values.items }
    requires limits { IsThreadCount threads × AreManyKeys (vec_len values) conds (length permits.now) }
    ensures { IfOk result (λ o. (o.threads ≡ threads) × (o.values ≡ values.items) × (o.conds ≡ conds)
        × (o.permits ≡ permits.now)) }
{
    match Lot::<V, Brand>::open_many(alloc, threads, values, conds, permits) {
        Ok(opened) => Ok(opened),
        Err((OpenFault::NoMemory, _)) => Err(Failure::NoMemory),
        Err(_) => unreachable!(),
    }
}

/// What came of workers: whether all could be started, and whether memory was refused to one.
pub fn outcome(worked: bool, refused: bool) -> Result<(), Failure>
    ensures { result ≡ (if worked then (if refused then Err Failure.NoMemory else Ok tt)
        else Err Failure.CannotStartWorker) }
{
    if !worked {
        return Err(Failure::CannotStartWorker);
    }
    if refused {
        return Err(Failure::NoMemory);
    }
    Ok(())
}

/// Pushes a line for each number, behind its name.
pub fn push_lines(text: &mut String, lines: &[(&str, u64)]) -> Result<(), Failure> {
    for (name, number) in lines.iter() {
        writeln!(text, "{name} {number}")?;
    }
    Ok(())
}

/// The moment of a worker's release in a round.
pub fn moment(seed: u64, worker: u64, round: u64) -> Moment {
    let word = seed
        .wrapping_add(worker)
        .wrapping_mul(2_654_435_761)
        .wrapping_add(round.wrapping_mul(40_503));
    Moment {
        now: round.wrapping_mul(ROUND),
        word,
    }
}
