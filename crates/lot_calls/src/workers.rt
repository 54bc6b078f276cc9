//! A lot for workers, from its start to its end.
ghost use Rattle.std.specs.Prelude.{◌≡◌, ◌≤◌, true, IfOk, IfErr, length, vec_len, vec_capacity};
ghost use Rattle.std.specs.List.{All};
ghost use Rattle.lot_sync.specs.Opened.{IsNamed, HasNumbersOf, KeepAll};
ghost use Rattle.lot_sync.specs.Starting.{MayStart};
ghost use Rattle.lot_calls.specs.Finished.{IsReady, IsFinished};
ghost use Rattle.lot_calls.specs.Workers.{MayLeave, HaveGrown};

use crate::finishing::finish;
use lot_sync::{Contention, Ledger, Lot, LotName, Opened, Pass, Tally};
use lot_words::Keeps;
use std::alloc::Global;
use std::sync::Wait;

/// Starts the lot, with room for the passes of its threads, which `take_all` and its end ask for:
/// `start_with_room::<V, N>(alloc, threads, opened)`. Where memory was refused, the values come back.
pub fn start_with_room<V: Keeps + Send, N: LotName<V> + Send>(
    alloc: Global,
    threads: usize,
    opened: Opened<V>,
) -> Result<(Lot<V, N>, Vec<Pass<V, N>>), Vec<V>>
    requires named { IsNamed N.LotName opened }
    requires threads { opened.threads ≡ threads }
    requires rests { MayStart V.rests opened }
    ensures lot { IfOk result (λ r. HasNumbersOf opened r.0) }
    ensures room { IfOk result (λ r. (vec_len r.1 ≡ 0) × (r.0.threads ≤ vec_capacity r.1)) }
    ensures back { IfErr result (λ values. values.items ≡ opened.values) }
{
    let Ok(room) = Vec::with_capacity(alloc, threads) else {
        return Err(opened.close());
    };
    match opened.start::<N>(alloc) {
        Ok(lot) => Ok((lot, room)),
        Err((_, values)) => {
            room.destroy_empty();
            Err(values)
        }
    }
}

/// Starts the lot, and registers for each of its threads: `start_with_passes::<V, N, T>(rt, alloc, threads, opened)`.
/// The passes are for workers (`work_together`), and have a list with room for all. Where memory was refused, the
/// values come back, each grown from what was opened with its key.
pub fn start_with_passes<V: Keeps + Send, N: LotName<V> + Send, T: Wait>(
    rt: &T,
    alloc: Global,
    threads: usize,
    opened: Opened<V>,
) -> Result<(Lot<V, N>, Vec<Pass<V, N>>), Vec<V>>
    requires named { IsNamed N.LotName opened }
    requires threads { opened.threads ≡ threads }
    requires rests { MayStart V.rests opened }
    ensures lot { IfOk result (λ r. HasNumbersOf opened r.0) }
    ensures ready { IfOk result (λ r. All (IsReady V.Keeps N.values r.0) r.1.items) }
    ensures all { IfOk result (λ r. (vec_len r.1 ≡ r.0.threads) × (r.0.threads ≤ vec_capacity r.1)) }
    ensures back { IfErr result (λ values. (vec_len values ≡ length opened.values)
        × HaveGrown V.Keeps opened.values values.items) }
{
    match start_with_room::<V, N>(alloc, threads, opened) {
        Ok((lot, room)) => with_passes(rt, lot, room),
        Err(values) => Err(values),
    }
}

/// `start_with_passes` of a lot that counts how busy each key's line is, as `start_counting` has it:
/// `start_counting_with_passes::<V, N, T>(rt, alloc, threads, opened)`.
pub fn start_counting_with_passes<V: Keeps + Send, N: LotName<V> + Send, T: Wait>(
    rt: &T,
    alloc: Global,
    threads: usize,
    opened: Opened<V>,
) -> Result<(Lot<V, N, Contention>, Vec<Pass<V, N>>), Vec<V>>
    requires named { IsNamed N.LotName opened }
    requires threads { opened.threads ≡ threads }
    requires rests { MayStart V.rests opened }
    ensures lot { IfOk result (λ r. HasNumbersOf opened r.0) }
    ensures ready { IfOk result (λ r. All (IsReady V.Keeps N.values r.0) r.1.items) }
    ensures all { IfOk result (λ r. (vec_len r.1 ≡ r.0.threads) × (r.0.threads ≤ vec_capacity r.1)) }
    ensures back { IfErr result (λ values. (vec_len values ≡ length opened.values)
        × HaveGrown V.Keeps opened.values values.items) }
{
    let Ok(passes) = Vec::with_capacity(alloc, threads) else {
        return Err(opened.close());
    };
    match opened.start_counting::<N>(alloc) {
        Ok(lot) => with_passes(rt, lot, passes),
        Err((_, values)) => {
            passes.destroy_empty();
            Err(values)
        }
    }
}

/// Registers for each thread of the lot; where one gets no pass, ends the lot, and answers its values.
fn with_passes<V: Keeps + Send, N: LotName<V> + Send, C: Tally + Send, T: Wait>(
    rt: &T,
    lot: Lot<V, N, C>,
    room: Vec<Pass<V, N>>,
) -> Result<(Lot<V, N, C>, Vec<Pass<V, N>>), Vec<V>>
    requires room { (vec_len room ≡ 0) × (lot.threads ≤ vec_capacity room) }
    ensures lot { IfOk result (λ r. r.0 ≡ lot) }
    ensures ready { IfOk result (λ r. All (IsReady V.Keeps N.values r.0) r.1.items) }
    ensures all { IfOk result (λ r. (vec_len r.1 ≡ r.0.threads) × (r.0.threads ≤ vec_capacity r.1)) }
    ensures back { IfErr result (λ values. (vec_len values ≡ lot.locks) × HaveGrown V.Keeps N.values values.items) }
{
    let (passes, registered) = register_all(rt, &lot, room);
    if registered {
        Ok((lot, passes))
    } else {
        Err(finish_with(rt, lot, passes).0)
    }
}

/// Registers for each thread of the lot, until one gets no pass, and answers whether all got one: the list has room for
/// all passes.
fn register_all<V: Keeps + Send, N: LotName<V> + Send, C: Tally + Send, T: Wait>(
    rt: &T,
    lot: &Lot<V, N, C>,
    mut passes: Vec<Pass<V, N>>,
) -> (Vec<Pass<V, N>>, bool)
    requires room { (vec_len passes ≡ 0) × (lot.now.threads ≤ vec_capacity passes) }
    ensures capacity { vec_capacity result.0 ≡ vec_capacity passes }
    ensures ready { All (IsReady V.Keeps N.values lot.now) result.0.items }
    ensures all { (result.1 ≡ true) → vec_len result.0 ≡ lot.now.threads }
{
    for _ in 0..lot.threads() {
        match lot.register(rt) {
            Ok(pass) => passes.push_reserved(pass),
            Err(_) => return (passes, false),
        }
    }
    (passes, true)
}

/// Leaves with each pass, and gives the list back, whose room `finish` asks for:
/// `let room = leave_all(rt, &lot, passes);`.
pub fn leave_all<V: Keeps + Send, N: LotName<V> + Send, C: Tally + Send, T: Wait>(
    rt: &T,
    lot: &Lot<V, N, C>,
    mut passes: Vec<Pass<V, N>>,
) -> Vec<Pass<V, N>>
    requires leave { All (MayLeave V.Keeps) passes.items }
    ensures left { (vec_len result ≡ 0) × (vec_capacity result ≡ vec_capacity passes) }
{
    while let Some(pass) = passes.pop() {
        lot.leave(rt, pass);
    }
    passes
}

/// Leaves with each pass of a list that has room for all, and ends the lot as `finish` does:
/// `let (values, ledger) = finish_with(rt, lot, passes);`. While another pass is out it never returns.
pub fn finish_with<V: Keeps + Send, N: LotName<V> + Send, C: Tally + Send, T: Wait>(
    rt: &T,
    lot: Lot<V, N, C>,
    passes: Vec<Pass<V, N>>,
) -> (Vec<V>, Ledger)
    requires leave { All (MayLeave V.Keeps) passes.items }
    requires room { lot.threads ≤ vec_capacity passes }
    ensures count { vec_len result.0 ≡ lot.locks }
    ensures kept { KeepAll V.keeps result.0.items }
    ensures grown { HaveGrown V.Keeps N.values result.0.items }
    ensures finished { IsFinished V.Keeps N.LotName lot result.0.items result.1.called.items result.1.woken.items }
    ensures balanced { result.1.called.items ≡ result.1.woken.items }
{
    let room = leave_all(rt, &lot, passes);
    finish(rt, lot, room)
}
