//! Workers that may wait for one another: each has a thread of its own, or none works.
ghost use Rattle.std.specs.Prelude.{◌≡◌, MatchBool, vec_capacity};
ghost use Rattle.std.specs.List.{All};
ghost use Rattle.std.specs.Thread.{IsSync, IsSend};
ghost use Rattle.lot_calls.specs.Workers.{EachBecomes};

use std::snapshot::Snapshot;
use std::sync::Wait;
use std::sync::atomic::{AtomicU64, Ordering};
use std::thread;
use std::thread::{Promise, Threads};

/// Does the work with each, all at once, each in a thread of its own, and answers whether: what the work gave back lies
/// in its place then. `let (passes, worked) = work_together(rt, &|pass| meet(rt, &lot, pass), passes);`. One may wait
/// for what another does. Nobody begins before all have started; where a thread can't be started, nothing was done.
pub fn work_together<P: Send, T: Threads + Wait + Sync, F: Fn(P) -> P + Sync>(
    rt: &T,
    work: &F,
    all: Vec<P>,
) -> (Vec<P>, bool)
    requires callable { All (λ p. F.pre work.now p) all.items }
    ensures capacity { vec_capacity result.0 ≡ vec_capacity all }
    ensures each { MatchBool result.1 (EachBecomes (λ p q. F.post work.now p q) all.items result.0.items)
        (result.0.items ≡ all.items) }
{
    let gate = Gate {
        word: AtomicU64::new(WAIT),
    };
    start_all(rt, &gate, work, all)
}

/// Where workers wait until all have started. It is opened or shut once.
#[derive(Drop)]
struct Gate {
    word: AtomicU64,
}

const WAIT: u64 = 0;

const OPEN: u64 = 1;

const SHUT: u64 = 2;

impl Gate {
    fn set(&self, word: u64) {
        self.word.store(word, Ordering::SeqCst);
    }

    /// Waits until it is opened or shut, and answers whether it is open.
    fn is_open<T: Wait>(&self, rt: &T) -> bool {
        for _ in rt.forever() {
            let word = self.word.load(Ordering::SeqCst);
            if word != WAIT {
                return word == OPEN;
            }
            thread::yield_now();
        }
        unreachable!()
    }
}

/// What may not be lost, where a closure holds it or a thread answers it, which ask for what may be dropped. Nobody
/// drops it; whoever did would wait for ever.
struct Kept<X, R: Wait + Drop> {
    value: X,
    rt: R,
}

impl<X, R: Wait + Drop> Kept<X, R> {
    fn take(self) -> X
        ensures { result ≡ self.value }
    {
        let Kept { value, rt: _ } = self;
        value
    }

    /// Does the work with it where the gate opens, and tells whether.
    fn pass<W: Work<X>>(self, gate: &Gate, work: &W) -> Kept<(X, bool), R>
        requires { W.takes work.now self.value }
        ensures { MatchBool result.value.1 (W.becomes work.now self.value result.value.0)
            (result.value.0 ≡ self.value) }
    {
        let Kept { value, rt } = self;
        let open = gate.is_open(&rt);
        let value = if open { work.make(value) } else { value };
        Kept {
            value: (value, open),
            rt,
        }
    }
}

impl<X, R: Wait + Drop> Drop for Kept<X, R> {
    fn drop(self) {
        for _ in self.rt.forever() {}
        unreachable!()
    }
}

/// What a closure does with a thing: no promise can speak of a closure itself.
trait Work<P> {
    ghost takes: { Self → P → Type 0 };

    ghost becomes: { Self → P → P → Type 0 };

    fn make(&self, thing: P) -> P
        requires { takes self.now thing }
        ensures { becomes self.now thing result };
}

impl<P, F: Fn(P) -> P> Work<P> for F {
    ghost takes = { λ work thing. F.pre work thing };

    ghost becomes = { λ work thing done. F.post work thing done };

    fn make(&self, thing: P) -> P {
        self(thing)
    }
}

/// What a thread promises of its answer: the work was done with what it was given, where it says so.
#[derive(Drop)]
struct Done<P, W> {
    given: Snapshot<P>,
    work: Snapshot<W>,
}

impl<P, W: Work<P>, R: Wait + Drop> Promise<Kept<(P, bool), R>> for Done<P, W> {
    ghost kept_by = { λ done kept. MatchBool kept.value.1
        (W.becomes done.work.value done.given.value kept.value.0) (kept.value.0 ≡ done.given.value) };
}

/// Starts a thread for each, opens the gate when all have started, and gathers what they give back.
#[cycle(together)]
fn start_all<P: Send, T: Threads + Wait + Sync, W: Work<P> + Sync>(
    rt: &T,
    gate: &Gate,
    work: &W,
    mut all: Vec<P>,
) -> (Vec<P>, bool)
    requires takes { All (λ p. W.takes work.now p) all.items }
    ensures capacity { vec_capacity result.0 ≡ vec_capacity all }
    ensures each { MatchBool result.1 (EachBecomes (λ p q. W.becomes work.now p q) all.items result.0.items)
        (result.0.items ≡ all.items) }
{
    let Some(one) = all.pop() else {
        gate.set(OPEN);
        return (all, true);
    };
    let one = Kept { value: one, rt };
    let all = Kept { value: all, rt };
    let ((one, worked), (mut all, started)) = start_beside(rt, gate, work, one, all);
    all.push_reserved(one);
    for _ in rt.forever() {
        // each finds the gate as it was set: it goes on at once
        if worked == started {
            return (all, started);
        }
    }
    unreachable!()
}

/// Starts a thread for one, and then for all others.
#[cycle(together)]
fn start_beside<P: Send, T: Threads + Wait + Sync, W: Work<P> + Sync>(
    rt: &T,
    gate: &Gate,
    work: &W,
    one: Kept<P, &T>,
    all: Kept<Vec<P>, &T>,
) -> ((P, bool), (Vec<P>, bool))
    requires one { W.takes work.now one.value }
    requires takes { All (λ p. W.takes work.now p) all.value.items }
    ensures one { MatchBool result.0.1 (W.becomes work.now one.entry.value result.0.0) (result.0.0 ≡ one.entry.value) }
    ensures capacity { vec_capacity result.1.0 ≡ vec_capacity all.entry.value }
    ensures each { MatchBool result.1.1
        (EachBecomes (λ p q. W.becomes work.now p q) all.entry.value.items result.1.0.items)
        (result.1.0.items ≡ all.entry.value.items) }
{
    thread::scope(
        thread::scope_env(),
        rt,
        |scope| -> ((P, bool), (Vec<P>, bool))
            requires types { IsSync T.row × IsSync W.row × IsSend P.row }
            requires one { W.takes work.now one.value }
            requires takes { All (λ p. W.takes work.now p) all.value.items }
            ensures one { MatchBool result.0.1 (W.becomes work.entry.now one.entry.value result.0.0)
                (result.0.0 ≡ one.entry.value) }
            ensures capacity { vec_capacity result.1.0 ≡ vec_capacity all.entry.value }
            ensures each { MatchBool result.1.1
                (EachBecomes (λ p q. W.becomes work.entry.now p q) all.entry.value.items result.1.0.items)
                (result.1.0.items ≡ all.entry.value.items) }
        {
            let done = Done {
                given: Snapshot::of(&one.value),
                work: Snapshot::of(work),
            };
            match scope.spawn_with(done, move || one.pass(gate, work)) {
                Ok(thread) => {
                    let rest = start_all(rt, gate, work, all.take());
                    (thread.join(rt).take(), rest)
                }
                Err(refused) => {
                    gate.set(SHUT);
                    ((refused.value)().take(), (all.take(), false))
                }
            }
        },
    )
}
