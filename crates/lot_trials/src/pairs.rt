//! Two passes at once: two threads work, each with one of them, and a lot of two threads is closed with both.
ghost use Rattle.std.specs.Prelude.{◌≡◌, ◌≢◌, ◌≤◌, ◌<◌, [], ◌∷◌, vec_len, vec_capacity, IsSomeAnd};
ghost use Rattle.lot_sync.specs.Lot.{OwnsNone, IsLedgerOf};
ghost use Rattle.lot_sync.specs.Closing.{HasOneRun};

use lot_sync::{Ledger, Lot, LotName, Pass};
use lot_words::Keeps;
use std::sync::Wait;
use std::thread;
use std::thread::Threads;

/// Does the work with what lies here.
fn work_here<P, F: Fn(P) -> P>(work: &F, here: &mut Option<P>)
    requires { IsSomeAnd here.old (λ p. F.pre work.now p) }
    ensures { IsSomeAnd here.old (λ p. IsSomeAnd here.new (λ q. F.post work.now p q)) }
{
    let done = work(here.take().unwrap());
    match here.replace(done) {
        None => {}
        Some(_) => unreachable!(),
    }
}

/// Two threads do their work at once, with what lies in the two places. The places are lent, since a closure can't hold
/// a pass.
fn side_by_side<P: Send, T: Threads + Sync, F: Fn(P) -> P + Sync, G: Fn(P) -> P + Sync>(
    rt: &T,
    one: &F,
    other: &G,
    first: &mut Option<P>,
    second: &mut Option<P>,
)
    requires one { IsSomeAnd first.old (λ p. F.pre one.now p) }
    requires other { IsSomeAnd second.old (λ p. G.pre other.now p) }
    ensures one { IsSomeAnd first.old (λ p. IsSomeAnd first.new (λ q. F.post one.now p q)) }
    ensures other { IsSomeAnd second.old (λ p. IsSomeAnd second.new (λ q. G.post other.now p q)) }
{
    let mut ones = ||
        requires { IsSomeAnd first.now (λ p. F.pre one.now p) }
        ensures { IsSomeAnd first.entry.now (λ p. IsSomeAnd first.exit.now (λ q. F.post one.entry.now p q)) }
    { work_here(one, first) };
    let mut others = ||
        requires { IsSomeAnd second.now (λ p. G.pre other.now p) }
        ensures { IsSomeAnd second.entry.now (λ p. IsSomeAnd second.exit.now (λ q. G.post other.entry.now p q)) }
    { work_here(other, second) };
    thread::join_mut(rt, &mut ones, &mut others);
}

/// Two threads do their work at once, one with the first pass and the other with the second.
pub(crate) fn work_both<P: Send, T: Threads + Sync, F: Fn(P) -> P + Sync, G: Fn(P) -> P + Sync>(
    rt: &T,
    one: &F,
    other: &G,
    first: P,
    second: P,
) -> (P, P)
    requires callable { F.pre one.now first × G.pre other.now second }
    ensures one { F.post one.now first result.0 }
    ensures other { G.post other.now second result.1 }
{
    let mut here = Some(first);
    let mut there = Some(second);
    side_by_side(rt, one, other, &mut here, &mut there);
    (here.unwrap(), there.unwrap())
}

/// Closes a lot of two threads with the passes of both, which are of different threads.
pub(crate) fn close_both<V: Keeps + Send, N: LotName<V> + Send, T: Wait>(
    rt: &T,
    lot: Lot<V, N>,
    first: Pass<V, N>,
    second: Pass<V, N>,
    mut passes: Vec<Pass<V, N>>,
) -> (Vec<V>, Ledger)
    requires count { lot.threads ≡ 2 }
    requires threads { (first.thread < 2) × (second.thread < 2) }
    requires free { OwnsNone first × OwnsNone second }
    requires room { (vec_len passes ≡ 0) × (2 ≤ vec_capacity passes) }
    ensures apart { first.thread ≢ second.thread }
    ensures count { vec_len result.0 ≡ lot.locks }
    ensures ledger { IsLedgerOf lot (first ∷ second ∷ []) result.1.called.items result.1.woken.items }
    ensures history { HasOneRun N.LotName (first ∷ second ∷ []) }
{
    let (first, second) = lot.check_apart(first, second);
    passes.push_reserved(first);
    passes.push_reserved(second);
    lot.close(rt, passes)
}
