//! The end of a lot.
ghost use Rattle.std.specs.Prelude.{◌≡◌, ◌≤◌, vec_len, vec_capacity};
ghost use Rattle.lot_sync.specs.Opened.{KeepAll};
ghost use Rattle.lot_calls.specs.Finished.{IsReady, AreTaken, IsFinished};
ghost use Rattle.lot_calls.specs.Workers.{HaveGrown};

use lot_sync::{Ledger, Lot, LotName, Pass, Tally};
use lot_words::Keeps;
use std::sync::Wait;
use std::thread;

/// Ends the lot when each thread has left: takes all passes into the list, which has room for them, and closes. It
/// answers the value of each lock, in order, which keeps the caller's invariant, and the ledger of the conditions:
/// `let (values, ledger) = finish(rt, lot, Vec::with_capacity(alloc, threads)?);`. While a pass is out it never
/// returns.
pub fn finish<V: Keeps + Send, N: LotName<V> + Send, C: Tally + Send, T: Wait>(
    rt: &T,
    mut lot: Lot<V, N, C>,
    mut passes: Vec<Pass<V, N>>,
) -> (Vec<V>, Ledger)
    requires room { (vec_len passes ≡ 0) × (lot.threads ≤ vec_capacity passes) }
    ensures count { vec_len result.0 ≡ lot.locks }
    ensures kept { KeepAll V.keeps result.0.items }
    ensures grown { HaveGrown V.Keeps N.values result.0.items }
    ensures finished { IsFinished V.Keeps N.LotName lot result.0.items result.1.called.items result.1.woken.items }
    ensures balanced { result.1.called.items ≡ result.1.woken.items }
{
    take_all(rt, &mut lot, &mut passes);
    lot.close(rt, passes)
}

/// Takes the passes of all threads, when all are in, into the list, which has room for them, in order:
/// `take_all(rt, &mut lot, &mut passes);`. While one is out it never returns.
pub fn take_all<V: Keeps + Send, N: LotName<V> + Send, C: Tally + Send, T: Wait>(
    rt: &T,
    lot: &mut Lot<V, N, C>,
    passes: &mut Vec<Pass<V, N>>,
)
    requires room { (vec_len passes.old ≡ 0) × (lot.old.threads ≤ vec_capacity passes.old) }
    ensures same { lot.new ≡ lot.old }
    ensures count { vec_len passes.new ≡ lot.old.threads }
    ensures taken { AreTaken V.Keeps N.values lot.new passes.new.items }
{
    for thread in 0..lot.threads() {
        let pass = take_pass(rt, lot, thread);
        passes.push_reserved(pass);
    }
}

/// Takes the pass of one thread, which is the least that is in: where it is another's, this never returns.
fn take_pass<V: Keeps + Send, N: LotName<V> + Send, C: Tally + Send, T: Wait>(
    rt: &T,
    lot: &mut Lot<V, N, C>,
    thread: usize,
) -> Pass<V, N>
    ensures same { lot.new ≡ lot.old }
    ensures thread { result.thread ≡ thread }
    ensures ready { IsReady V.Keeps N.values lot.old result }
{
    for _ in rt.forever() {
        if let Some(pass) = lot.take_left(rt) {
            if pass.thread() == thread {
                return pass;
            }
            lot.leave(rt, pass);
        }
        thread::yield_now();
    }
    unreachable!()
}
