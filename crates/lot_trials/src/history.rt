//! The history that the passes of two threads leave behind a real lock.
ghost use Rattle.std.specs.Prelude.{◌≡◌, ℕ, length, vec_len};
ghost use Rattle.lot_sync.specs.Lot.{OwnsNone, HasShape, HasSeen};
ghost use Rattle.lot_sync.specs.Opened.{IsNamed};
ghost use Rattle.lot_journal.specs.Journal.{JournalView};
ghost use Rattle.lot_load.specs.Counters.{AllLegal, IsThere};
ghost use Rattle.lot_load.specs.declared.counter.Add.{Add};
ghost use Rattle.lot_load.specs.declared.counter.Counter.{Counter};
ghost use Rattle.lot_trials.specs.Theres.{IsCountedOnce};

use crate::asserts::{equal, failed, is_so};
use crate::passes::{Visitor, enter, open, start};
use lot_calls::finish;
use lot_journal::{Entry, Journal};
use lot_load::count::{Counting, Counts, add_one, go_round, new_journals};
use lot_load::counter::{Add, Counter};
use lot_load::gate::OpenGate;
use lot_sync::{LotName, Moment, Opened, Pass};
use std::alloc::Global;
use std::marker::Brand;
use std::process::Abort;
use std::sync::Wait;

/// What the test looks for in a value, and what a value tells of a thread that was counted in it.
trait Tells: Counts {
    ghost use Rattle.std.specs.Prelude.{ℕ};
    ghost use Rattle.lot_trials.specs.Theres.{IsCountedOnce};

    /// What the value of now tells of a thread that was counted once since the value that it had seen.
    ghost is_there: { ℕ → Self → Self → Type 0 };

    /// Whether thread 0 and then thread 1 were counted, and nobody else.
    fn has_both(&self) -> bool;

    ghost there_once_counted: { (thread : ℕ) (seen now : Self)
        → IsCountedOnce Self.grows Self.part Self.is_counted thread seen now → is_there thread seen now };
}

impl Tells for Journal<Counter> {
    ghost use Rattle.lot_load.specs.Counters.{IsThere};

    /// The call of the thread is in the history, after all that the thread had seen, once.
    ghost is_there = { λ thread seen now. IsThere thread (record { 0 = 1 }) seen now };

    fn has_both(&self) -> bool {
        let history = [entry(0, 1), entry(1, 2)];
        self.history() == history.as_slice()
    }

    ghost use Rattle.lot_trials.specs.Theres.{counted_is_there};

    ghost there_once_counted = { counted_is_there };
}

/// The thread called `Add(1)`, and was replied this total.
fn entry(thread: usize, total: u64) -> Entry<Add, u64> {
    Entry {
        thread,
        call: Add(1),
        reply: total,
    }
}

impl<V: Tells + Send, N: LotName<V> + Send + Sync, T: Wait + Abort> Visitor<'_, V, N, T> {
    /// Locks lock 0, adds one and unlocks.
    fn add(&self, pass: Pass<V, N>) -> Pass<V, N>
        requires sizes { (self.now.lot.now.threads ≡ 2) × (self.now.lot.now.locks ≡ 1) }
        requires free { OwnsNone pass }
        ensures { OwnsNone result }
    {
        let counting = Counting {
            threads: 2,
            locks: 1,
            rounds: 1,
            seed: 0,
        };
        let (pass, called) = go_round(self.rt, self.lot, &OpenGate, &counting, 0, 0, pass);
        is_so(self.rt, called, "the call was made");
        pass
    }

    /// Locks lock 0, adds one and unlocks: the call is there, behind all that was seen.
    fn call_once(&self, pass: Pass<V, N>) -> Pass<V, N>
        requires free { OwnsNone pass }
        ensures same { result.thread ≡ pass.thread }
        ensures free { OwnsNone result }
        ensures shape { HasShape self.now.lot.now result }
        ensures there { (seen now : V) → HasSeen pass 0 seen → HasSeen result 0 now
            → IsCountedOnce V.grows V.part V.is_counted pass.thread seen now }
    {
        let thread = pass.thread();
        let (pass, mut held) = self.lot.lock(self.rt, pass, 0);
        let called = add_one(&mut held, thread);
        if called {
            let (pass, _) = self
                .lot
                .unlock(self.rt, pass, held, Moment { now: 0, word: 0 });
            pass
        } else {
            failed(self.rt, "no memory for a call")
        }
    }

    /// Locks lock 0, looks for the calls of both threads, and unlocks: what the pass sees has gone on from what it had
    /// seen, without a call of its own.
    fn look(&self, pass: Pass<V, N>) -> (Pass<V, N>, bool)
        requires free { OwnsNone pass }
        ensures free { OwnsNone result.0 }
        ensures on { (seen now : V) → HasSeen pass 0 seen → HasSeen result.0 0 now
            → V.grows seen now × (V.part pass.thread seen ≡ V.part pass.thread now) }
    {
        let (pass, held) = self.lot.lock(self.rt, pass, 0);
        let has_both = held.value().has_both();
        let (pass, _) = self
            .lot
            .unlock(self.rt, pass, held, Moment { now: 0, word: 0 });
        (pass, has_both)
    }

    /// The thread calls once, another may come between, and the thread looks: its call is in the history, after all
    /// that it had seen, once.
    fn call_and_look(&self, pass: Pass<V, N>, other: Pass<V, N>) -> (Pass<V, N>, Pass<V, N>)
        requires free { OwnsNone pass × OwnsNone other }
        ensures free { OwnsNone result.0 × OwnsNone result.1 }
        ensures there { (seen now : V) → HasSeen pass 0 seen → HasSeen result.0 0 now
            → V.is_there pass.thread seen now }
    {
        let pass = self.call_once(pass);
        let other = self.call_once(other);
        let (pass, _) = self.look(pass);
        (pass, other)
    }
}

impl<N: LotName<Journal<Counter>> + Send + Sync, T: Wait + Abort> Visitor<
    '_,
    Journal<Counter>,
    N,
    T,
> {
    /// The same of a lot of journals.
    fn call_and_look_in_journal(
        &self,
        pass: Pass<Journal<Counter>, N>,
        other: Pass<Journal<Counter>, N>,
    ) -> (Pass<Journal<Counter>, N>, Pass<Journal<Counter>, N>)
        requires free { OwnsNone pass × OwnsNone other }
        ensures free { OwnsNone result.0 × OwnsNone result.1 }
        ensures there { (seen now : JournalView Counter Add ℕ) → HasSeen pass 0 seen → HasSeen result.0 0 now
            → IsThere pass.thread (record { 0 = 1 }) seen now }
    {
        self.call_and_look(pass, other)
    }
}

fn add_in_turn<N: LotName<Journal<Counter>> + Send + Sync, T: Wait + Abort>(
    rt: &T,
    alloc: Global,
    opened: Opened<Journal<Counter>>,
) -> Vec<Journal<Counter>>
    requires named { IsNamed N.LotName opened }
    requires sizes { (opened.threads ≡ 2) × (length opened.values ≡ 1) }
    ensures { vec_len result ≡ 1 }
{
    let (lot, passes) = start::<Journal<Counter>, N, T>(rt, alloc, 2, opened);
    let zero = enter(rt, &lot);
    let one = enter(rt, &lot);
    let visitor = Visitor { rt, lot: &lot };
    let zero = visitor.add(zero);
    let one = visitor.add(one);
    let (zero, has_both) = visitor.look(zero);
    is_so(rt, has_both, "both threads called");
    let (one, zero) = visitor.call_and_look_in_journal(one, zero);
    lot.leave(rt, one);
    lot.leave(rt, zero);
    finish(rt, lot, passes).0
}

fn open_and_add<T: Wait + Abort>(rt: &T, alloc: Global, journals: Vec<Journal<Counter>>)
    requires { (vec_len journals ≡ 1) × AllLegal journals.items }
{
    let opened = open(rt, alloc, 2, journals, 0);
    let journals = add_in_turn::<Brand, T>(rt, alloc, opened);
    equal(rt, journals[0].object().total, 4);
}

#[test]
fn two_threads_leave_one_history(rt: HostRuntime) {
    let Ok(journals) = new_journals(rt.alloc(), 1) else {
        failed(&rt, "no memory")
    };
    open_and_add(&rt, rt.alloc(), journals);
}
