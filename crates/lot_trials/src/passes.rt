//! Lots in tests and their passes: how a lot opens and starts, how a thread gets a pass, and how one comes back that
//! was left.
ghost use Rattle.std.specs.Prelude.{◌≡◌, ◌≤◌, ◌<◌, vec_len, vec_capacity};
ghost use Rattle.lot_sync.specs.Lot.{OwnsNone, rested};
ghost use Rattle.lot_sync.specs.Opened.{KeepAll, IsNamed, HasNumbersOf};
ghost use Rattle.lot_sync.specs.Starting.{MayStart};

use crate::asserts::{failed, room_for};
use lot_sync::{Lot, LotName, Opened, Pass, Tally};
use lot_words::Keeps;
use std::alloc::Global;
use std::marker::Brand;
use std::process::Abort;
use std::sync::Wait;

/// Opens a lot for so many threads, with a lock for each value, and so many conditions, or the test fails.
pub(crate) fn open<V: Keeps + Send>(
    rt: &impl Abort,
    alloc: Global,
    threads: usize,
    values: Vec<V>,
    conds: usize,
) -> Opened<V>
    requires { KeepAll V.keeps values.items }
    ensures { (result.threads ≡ threads) × (result.values ≡ values.items) × (result.conds ≡ conds) }
{
    match Lot::<V, Brand>::open(alloc, threads, values, conds) {
        Ok(opened) => opened,
        Err(_) => failed(rt, "not opened"),
    }
}

/// Starts the lot, with room for the passes of its threads, or the test fails.
pub(crate) fn start<V: Keeps + Send, N: LotName<V> + Send, T: Abort>(
    rt: &T,
    alloc: Global,
    threads: usize,
    opened: Opened<V>,
) -> (Lot<V, N>, Vec<Pass<V, N>>)
    requires named { IsNamed N.LotName opened }
    requires threads { opened.threads ≡ threads }
    requires rests { MayStart V.rests opened }
    ensures lot { HasNumbersOf opened result.0 }
    ensures room { (vec_len result.1 ≡ 0) × (threads ≤ vec_capacity result.1) }
{
    let passes = room_for(rt, alloc, threads);
    match opened.start::<N>(alloc) {
        Ok(lot) => (lot, passes),
        Err(_) => failed(rt, "not started"),
    }
}

/// A pass of the lot, in which one is.
pub(crate) fn enter<V: Keeps + Send, N: LotName<V> + Send + Sync, C: Tally + Send, T: Wait + Abort>(
    rt: &T,
    lot: &Lot<V, N, C>,
) -> Pass<V, N>
    ensures thread { result.thread < lot.now.threads }
    ensures free { OwnsNone result }
    ensures rests { V.rests (rested result) }
{
    match lot.register(rt) {
        Ok(pass) => pass,
        Err(_) => failed(rt, "no pass is in"),
    }
}

/// Who uses a lot of a test, in which there is a lock at least.
#[derive(Drop)]
pub(crate) struct Visitor<'a, V: Keeps + Send, N: LotName<V> + Send + Sync, T> {
    pub(crate) rt: &'a T,
    pub(crate) lot: &'a Lot<V, N>,
    ghost locks: { 0 < lot.now.locks },
}

/// The pass of this thread, which is the first that was left.
pub(crate) fn take_pass<V: Keeps + Send, N: LotName<V> + Send + Sync, T: Wait + Abort>(
    rt: &T,
    lot: &mut Lot<V, N>,
    thread: usize,
) -> Pass<V, N>
    ensures same { lot.new ≡ lot.old }
    ensures thread { result.thread ≡ thread }
    ensures free { OwnsNone result }
{
    let Some(pass) = lot.take_left(rt) else {
        panic!(rt; "{thread} is not in")
    };
    let left = pass.thread();
    if left == thread {
        return pass;
    }
    panic!(rt; "thread {left} was left before {thread}")
}
