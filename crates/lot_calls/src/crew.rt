//! Work in threads with each of a list of passes, or of other things that can't be copied, and the end of a lot with
//! passes that came back.
ghost use Rattle.std.specs.Prelude.{◌≡◌, vec_len, vec_capacity, IsSomeAnd};
ghost use Rattle.std.specs.List.{All};
ghost use Rattle.std.specs.Thread.{IsSync, IsSend};
ghost use Rattle.lot_sync.specs.Lot.{IsLedgerOf};
ghost use Rattle.lot_sync.specs.Values.{AreSeen};
ghost use Rattle.lot_sync.specs.Closing.{HasOneRun};
ghost use Rattle.lot_sync.specs.Opened.{KeepAll};
ghost use Rattle.lot_calls.specs.Workers.{EachBecomes, AreBack, EndsIn};

use lot_sync::{Ledger, Lot, LotName, Pass, Tally};
use lot_words::Keeps;
use std::sync::Wait;
use std::thread::{Threads, join_mut};

/// Does the work with each, in a thread of its own where one can be started: what the work gave back lies in its place
/// then. `work_all(rt, &|pass| count(rt, &lot, pass), &mut passes);`. One thread may do two of them, one after the
/// other. So what one waits for has to be in hand already, as a lock that another will let go, or work that it has
/// begun: else call `work_together`, which may find that a thread can't be started.
#[cycle(workers)]
pub fn work_all<P: Send, T: Threads + Sync, F: Fn(P) -> P + Sync>(
    rt: &T,
    work: &F,
    all: &mut Vec<P>,
)
    requires callable { All (λ p. F.pre work.now p) all.old.items }
    ensures capacity { vec_capacity all.new ≡ vec_capacity all.old }
    ensures each { EachBecomes (λ p q. F.post work.now p q) all.old.items all.new.items }
{
    if let Some(one) = all.pop() {
        let mut here = Some(one);
        work_beside(rt, work, &mut here, all);
        all.push_reserved(here.unwrap());
    }
}

/// Does the work with what lies here, beside that with each of the list.
#[cycle(workers)]
fn work_beside<P: Send, T: Threads + Sync, F: Fn(P) -> P + Sync>(
    rt: &T,
    work: &F,
    here: &mut Option<P>,
    all: &mut Vec<P>,
)
    requires here { IsSomeAnd here.old (λ p. F.pre work.now p) }
    requires callable { All (λ p. F.pre work.now p) all.old.items }
    ensures here { IsSomeAnd here.old (λ p. IsSomeAnd here.new (λ q. F.post work.now p q)) }
    ensures capacity { vec_capacity all.new ≡ vec_capacity all.old }
    ensures each { EachBecomes (λ p q. F.post work.now p q) all.old.items all.new.items }
{
    let mut own = ||
        requires { IsSomeAnd here.now (λ p. F.pre work.now p) }
        ensures { IsSomeAnd here.entry.now (λ p. IsSomeAnd here.exit.now (λ q. F.post work.entry.now p q)) }
    { work_here(work, here) };
    let mut others = ||
        requires { IsSync T.row × IsSync F.row × IsSend P.row × All (λ p. F.pre work.now p) all.now.items }
        ensures capacity { vec_capacity all.exit.now ≡ vec_capacity all.entry.now }
        ensures each { EachBecomes (λ p q. F.post work.entry.now p q) all.entry.now.items all.exit.now.items }
    { work_all(rt, work, all) };
    join_mut(rt, &mut own, &mut others);
}

/// Does the work with what lies here.
fn work_here<P, F: Fn(P) -> P>(work: &F, here: &mut Option<P>)
    requires { IsSomeAnd here.old (λ p. F.pre work.now p) }
    ensures { IsSomeAnd here.old (λ p. IsSomeAnd here.new (λ q. F.post work.now p q)) }
{
    let done = work(here.take().unwrap());
    match here.replace(done) {
        None => {}
        Some(_) => unreachable!(),
    }
}

/// Closes the lot with the passes of all threads: `let (values, ledger) = close_with(rt, lot, passes);`. What each pass
/// had seen ended in the values, and some pass saw each of them last.
pub fn close_with<V: Keeps + Send, N: LotName<V> + Send, C: Tally + Send, T: Wait>(
    rt: &T,
    lot: Lot<V, N, C>,
    passes: Vec<Pass<V, N>>,
) -> (Vec<V>, Ledger)
    requires back { AreBack lot passes.items }
    ensures count { vec_len result.0 ≡ lot.locks }
    ensures kept { KeepAll V.keeps result.0.items }
    ensures ends { All (EndsIn V.Keeps result.0.items) passes.items }
    ensures seen { AreSeen result.0.items passes.items }
    ensures ledger { IsLedgerOf lot passes.items result.1.called.items result.1.woken.items }
    ensures history { HasOneRun N.LotName passes.items }
{
    lot.close(rt, passes)
}
