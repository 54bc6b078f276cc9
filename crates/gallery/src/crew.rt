//! What the programs share: how a lot is opened and ends, and the moment of each unlock.
ghost use Rattle.std.specs.Prelude.{◌≡◌, ◌≤◌, true, false, IfOk, IfErr, vec_len, vec_capacity};
ghost use Rattle.std.specs.List.{All};
ghost use Rattle.lot_calls.specs.Workers.{MayLeave};
ghost use Rattle.lot_sync.specs.Opened.{KeepAll};

use lot_calls::finish_with;
use lot_command::Failure;
use lot_sync::{Lot, LotName, Moment, Opened, Pass};
use lot_words::Keeps;
use std::alloc::Global;
use std::marker::Brand;
use std::sync::Wait;

/// No release is asked to be fair, and no clock is read.
pub const NOW: Moment = Moment { now: 0, word: 1 };

/// Opens a lot as `open_with` does. The numbers of the programs are all within the limits.
pub fn open<V: Keeps + Send>(
    alloc: Global,
    threads: usize,
    values: Vec<V>,
    conds: usize,
    permits: &[u32],
) -> Result<Opened<V>, Failure>
    requires { KeepAll V.keeps values.items }
    ensures { IfOk result (λ o. (o.threads ≡ threads) × (o.values ≡ values.items) × (o.conds ≡ conds)
        × (o.permits ≡ permits.now)) }
{
    match Lot::<V, Brand>::open_with(alloc, threads, values, conds, permits) {
        Ok(opened) => Ok(opened),
        Err(_) => Err(Failure::NoMemory),
    }
}

/// Leaves with each pass, ends the lot, and answers its values, where the threads could be started to work.
pub fn end<V: Keeps + Send + Drop, N: LotName<V> + Send, T: Wait>(
    rt: &T,
    lot: Lot<V, N>,
    passes: Vec<Pass<V, N>>,
    worked: bool,
) -> Result<Vec<V>, Failure>
    requires leave { All (MayLeave V.Keeps) passes.items }
    requires room { lot.threads ≤ vec_capacity passes }
    ensures ended { IfOk result (λ values. (worked ≡ true) × (vec_len values ≡ lot.locks)) }
    ensures refused { IfErr result (λ _. worked ≡ false) }
{
    let (values, _) = finish_with(rt, lot, passes);
    if worked {
        Ok(values)
    } else {
        Err(Failure::CannotStartWorker)
    }
}
