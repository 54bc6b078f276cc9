//! What a thread of a schedule has between its steps, and how it makes each.
ghost use Rattle.std.specs.Prelude.{◌≤◌, ◌<◌, MatchOption};
ghost use Rattle.lot_sync.specs.Lot.{OwnsNone};
ghost use Rattle.lot_sync.specs.Holding.{Holding, HoldingBoth};
ghost use Rattle.lot_trials.specs.Schedules.{HasSizes};

use crate::asserts::{equal, failed, is_so};
use crate::counts::{
    Count, await_count, await_line, call_all, call_one, call_owning, call_some, free, is_free, own,
    own_at_gate, own_second, raise, release, release_asking, release_fairly, release_first,
    try_own, wait_at_gate, wait_once, word,
};
use crate::holding::{Holder, HolderOfTwo};
use crate::passes::enter;
use crate::steps::{CONDS, LOCKS, PERMITS, Progress, Step, may_be_refused};
use lot_sync::{Held, Lot, LotName, Pass, RegisterFault};
use std::process::Abort;
use std::sync::Wait;
use std::sync::atomic::Ordering;

/// The lot of a schedule, as its threads see it, and how far they have come.
#[derive(Drop)]
pub(crate) struct OnLot<'a, N: LotName<Count> + Send + Sync, T> {
    pub(crate) rt: &'a T,
    pub(crate) lot: &'a Lot<Count, N>,
    pub(crate) progress: &'a Progress,
    ghost sizes: { HasSizes lot.now },
}

/// A pass that owns no lock and holds no permit.
pub(crate) struct Calm<N: LotName<Count> + Send + Sync> {
    pub(crate) pass: Pass<Count, N>,
    ghost free: { OwnsNone pass },
}

/// A pass that owns one lock.
pub(crate) struct Owner<N: LotName<Count> + Send + Sync> {
    pass: Pass<Count, N>,
    held: Held<Count, N>,
    ghost key: { held.key < 14 },
    ghost holding: { Holding (λ x y. x.n ≤ y.n) pass held },
}

/// A pass that owns two locks.
pub(crate) struct OwnerOfTwo<N: LotName<Count> + Send + Sync> {
    pass: Pass<Count, N>,
    first: Held<Count, N>,
    second: Held<Count, N>,
    ghost keys: { (first.key < 14) × (second.key < 14) },
    ghost both: { HoldingBoth (λ x y. x.n ≤ y.n) pass first second },
}

/// What a thread has between its steps.
pub(crate) enum Standing<N: LotName<Count> + Send + Sync> {
    Out,
    Calm(Calm<N>),
    Owner(Owner<N>),
    OwnerOfTwo(OwnerOfTwo<N>),
    Holder(Holder<N>),
    HolderOfTwo(HolderOfTwo<N>),
}

/// The pass owns this lock, or nothing.
fn owner_or_calm<N: LotName<Count> + Send + Sync>(
    pass: Pass<Count, N>,
    lock: Option<Held<Count, N>>,
) -> Standing<N>
    requires { MatchOption lock (OwnsNone pass) (λ held. (held.key < 14) × Holding (λ x y. x.n ≤ y.n) pass held) }
{
    match lock {
        Some(held) => Standing::Owner(Owner { pass, held }),
        None => Standing::Calm(Calm { pass }),
    }
}

/// The key is a lock's, or the test fails.
fn lock_key(rt: &impl Abort, key: usize)
    ensures { key < 14 }
{
    is_so(rt, key < LOCKS, "it is the key of a lock");
}

/// The key is a condition's, or the test fails.
fn cond_key(rt: &impl Abort, key: usize)
    ensures { (14 ≤ key) × (key < 27) }
{
    is_so(rt, LOCKS <= key, "it is no key of a lock");
    is_so(rt, key < LOCKS + CONDS, "it is the key of a condition");
}

/// The key is a semaphore's, or the test fails.
pub(crate) fn sem_key(rt: &impl Abort, key: usize)
    ensures { (27 ≤ key) × (key < 29) }
{
    is_so(rt, LOCKS + CONDS <= key, "it is no key of a condition");
    any_key(rt, key);
}

/// The key is one of the lot's, or the test fails.
fn any_key(rt: &impl Abort, key: usize)
    ensures { key < 29 }
{
    is_so(rt, key < LOCKS + CONDS + PERMITS.len(), "it is a key");
}

impl<N: LotName<Count> + Send + Sync, T: Wait + Abort> OnLot<'_, N, T> {
    /// Looks for what the step says, if that is all that it does.
    fn looks(&self, step: Step) -> bool {
        match step {
            Step::Word(key, wanted) => {
                lock_key(self.rt, key);
                equal(self.rt, word(self.lot, key), wanted);
            }
            Step::AwaitFree(key) => {
                lock_key(self.rt, key);
                is_so(self.rt, is_free(self.lot, key), "a wait lets its lock go");
            }
            Step::Line(key, count) => {
                any_key(self.rt, key);
                equal(self.rt, self.lot.line_length(self.rt, key), count);
            }
            Step::AwaitLine(key, count) => {
                any_key(self.rt, key);
                await_line(self.rt, self.lot, key, count);
            }
            Step::Size(buckets) => equal(self.rt, self.lot.table_size(self.rt), buckets),
            Step::EitherSize(few, many) => {
                let buckets = self.lot.table_size(self.rt);
                is_so(self.rt, buckets == few || buckets == many, "it has grown");
            }
            Step::OpenGate => self.progress.gate.store(1, Ordering::SeqCst),
            Step::Full => self.is_full(),
            _ => return false,
        }
        true
    }

    /// No pass is in.
    fn is_full(&self) {
        match self.lot.register(self.rt) {
            Ok(_pass) => failed(self.rt, "a pass more than there are"),
            Err(fault) => equal(self.rt, fault, RegisterFault::Full),
        }
    }

    /// A pass. Where memory is refused, the table and the line of lock 0 are as before, and the next registration gives
    /// it.
    fn registered(&self) -> Calm<N> {
        let before = (
            self.lot.table_size(self.rt),
            self.lot.line_length(self.rt, 0),
        );
        match self.lot.register(self.rt) {
            Ok(pass) => Calm { pass },
            Err(fault) => {
                equal(self.rt, fault, RegisterFault::NoMemory);
                may_be_refused(self.rt, self.progress.memory);
                equal(
                    self.rt,
                    (
                        self.lot.table_size(self.rt),
                        self.lot.line_length(self.rt, 0),
                    ),
                    before,
                );
                let pass = enter(self.rt, self.lot);
                Calm { pass }
            }
        }
    }

    /// A step of a thread that has no pass: it registers.
    fn when_out(&self, step: Step) -> Calm<N> {
        let calm = self.registered();
        match step {
            // (where the schedule is given up, another may have left before)
            Step::Register(wanted) if self.progress.given_up.load(Ordering::SeqCst) == 0 => {
                equal(self.rt, calm.pass.thread(), wanted);
            }
            Step::Register(_) | Step::RegisterBeside => {}
            _ => failed(self.rt, "a thread without a pass registers first"),
        }
        calm
    }

    /// A step of a thread that owns nothing, by which it gets a lock or a permit, or leaves.
    fn when_calm(&self, calm: Calm<N>, step: Step) -> Standing<N> {
        let Calm { pass } = calm;
        match step {
            Step::Lock(key) | Step::Sleep(key) => {
                lock_key(self.rt, key);
                let (pass, held) = own(self.rt, self.lot, pass, key);
                Standing::Owner(Owner { pass, held })
            }
            Step::SleepAtGate(key, sleeps) => {
                lock_key(self.rt, key);
                let gate = &self.progress.gate;
                let (pass, held, runs) = own_at_gate(self.rt, self.lot, pass, key, gate);
                equal(self.rt, runs, sleeps);
                Standing::Owner(Owner { pass, held })
            }
            Step::TryLock(key, wanted) => self.try_to_own(Calm { pass }, key, wanted),
            Step::Acquire(key) | Step::SleepFor(key) => {
                sem_key(self.rt, key);
                let (pass, permit) = self.lot.acquire(self.rt, pass, key);
                Standing::Holder(Holder { pass, permit })
            }
            Step::TryAcquire(key, wanted) => self.try_to_hold(Calm { pass }, key, wanted),
            Step::Leave => {
                self.lot.leave(self.rt, pass);
                Standing::Out
            }
            _ => Standing::Calm(self.notify(Calm { pass }, step)),
        }
    }

    /// A step of a thread that owns nothing, by which it notifies.
    fn notify(&self, calm: Calm<N>, step: Step) -> Calm<N> {
        let Calm { pass } = calm;
        match step {
            Step::NotifyOne(cond, now, wanted) => {
                cond_key(self.rt, cond);
                let (pass, took) = call_one(self.rt, self.lot, pass, cond, now);
                equal(self.rt, took, wanted);
                Calm { pass }
            }
            Step::NotifySome(cond, count, wanted) => {
                cond_key(self.rt, cond);
                is_so(self.rt, 1 <= count, "somebody is asked for");
                is_so(self.rt, count <= 256, "no more than there may be");
                let (pass, taken) = call_some(self.rt, self.lot, pass, cond, count);
                equal(self.rt, taken, wanted);
                Calm { pass }
            }
            Step::NotifyAll(cond, wanted) => {
                cond_key(self.rt, cond);
                let (pass, count) = call_all(self.rt, self.lot, pass, cond);
                equal(self.rt, count, wanted);
                Calm { pass }
            }
            Step::HasWaiters(cond, wanted) => {
                cond_key(self.rt, cond);
                let (pass, has) = self.lot.has_waiters(pass, cond);
                equal(self.rt, has, wanted);
                Calm { pass }
            }
            _ => failed(self.rt, "no step of a thread that owns nothing"),
        }
    }

    /// `try_lock`, with what is wanted of it.
    fn try_to_own(&self, calm: Calm<N>, key: usize, wanted: bool) -> Standing<N> {
        let Calm { pass } = calm;
        lock_key(self.rt, key);
        let (pass, got) = try_own(self.lot, pass, key);
        equal(self.rt, got.is_some(), wanted);
        owner_or_calm(pass, got)
    }

    /// A step of a thread that owns one lock.
    fn when_owner(&self, owner: Owner<N>, step: Step) -> Standing<N> {
        match step {
            Step::Lock(key) => Standing::OwnerOfTwo(self.own_another(owner, key)),
            Step::Raise(wanted) => {
                let Owner { pass, held } = owner;
                let (pass, held) = raise(self.rt, pass, held, wanted);
                Standing::Owner(Owner { pass, held })
            }
            Step::NotifyOne(cond, _, wanted) => {
                cond_key(self.rt, cond);
                let Owner { pass, held } = owner;
                let (pass, held, took) = call_owning(self.rt, self.lot, pass, held, cond);
                equal(self.rt, took, wanted);
                Standing::Owner(Owner { pass, held })
            }
            Step::UnlockUnparked(wanted) => self.try_to_free(owner, wanted),
            Step::Meet => {
                self.progress.met.fetch_add(1, Ordering::SeqCst);
                await_count(self.rt, &self.progress.met, 2);
                Standing::Owner(owner)
            }
            Step::Wait(_, _) | Step::WaitAtGate(_) => { Standing::Calm(self.wait(owner, step)) }
            _ => Standing::Calm(self.let_go(owner, step)),
        }
    }

    /// `lock` of another lock.
    fn own_another(&self, owner: Owner<N>, key: usize) -> OwnerOfTwo<N> {
        let Owner { pass, held } = owner;
        lock_key(self.rt, key);
        is_so(self.rt, key != held.key(), "it has this lock");
        let (pass, first, second) = own_second(self.rt, self.lot, pass, held, key);
        OwnerOfTwo {
            pass,
            first,
            second,
        }
    }

    /// `unlock_unparked`, with what is wanted of it.
    fn try_to_free(&self, owner: Owner<N>, wanted: bool) -> Standing<N> {
        let Owner { pass, held } = owner;
        let (pass, back) = free(self.lot, pass, held);
        equal(self.rt, back.is_none(), wanted);
        owner_or_calm(pass, back)
    }

    /// A thread that owns a lock waits, has its lock then, and lets it go.
    fn wait(&self, owner: Owner<N>, step: Step) -> Calm<N> {
        let Owner { pass, held } = owner;
        let (pass, held) = match step {
            Step::Wait(cond, now) => {
                cond_key(self.rt, cond);
                wait_once(self.rt, self.lot, pass, held, cond, now)
            }
            Step::WaitAtGate(cond) => {
                cond_key(self.rt, cond);
                let gate = &self.progress.gate;
                let (pass, held, runs) = wait_at_gate(self.rt, self.lot, pass, held, cond, gate);
                equal(self.rt, runs, 1);
                (pass, held)
            }
            _ => failed(self.rt, "no wait"),
        };
        is_so(
            self.rt,
            self.lot.is_held(held.key()),
            "who waited has its lock",
        );
        let (pass, _) = release(self.rt, self.lot, pass, held, 0);
        Calm { pass }
    }

    /// A step of a thread that owns one lock, by which it lets it go.
    fn let_go(&self, owner: Owner<N>, step: Step) -> Calm<N> {
        let Owner { pass, held } = owner;
        match step {
            Step::Unlock(now, wanted) => {
                let (pass, released) = release(self.rt, self.lot, pass, held, now);
                equal(self.rt, released, wanted);
                Calm { pass }
            }
            Step::UnlockFairly(wanted) => {
                let (pass, released) = release_fairly(self.rt, self.lot, pass, held);
                equal(self.rt, released, wanted);
                Calm { pass }
            }
            Step::UnlockAsking(now, wanted_askings, wanted) => {
                let (pass, released, askings) = release_asking(self.rt, self.lot, pass, held, now);
                equal(self.rt, (released, askings), (wanted, wanted_askings));
                Calm { pass }
            }
            Step::LetGo => {
                let (pass, _) = release(self.rt, self.lot, pass, held, 0);
                Calm { pass }
            }
            _ => failed(self.rt, "no step of a thread that owns a lock"),
        }
    }

    /// A step of a thread that owns two locks: it lets the first of them go.
    fn when_owner_of_two(&self, owner: OwnerOfTwo<N>, step: Step) -> Owner<N> {
        let Step::UnlockFirst(wanted) = step else {
            failed(self.rt, "no step of a thread that owns two locks")
        };
        let OwnerOfTwo {
            pass,
            first,
            second,
        } = owner;
        let (pass, held, released) = release_first(self.rt, self.lot, pass, first, second);
        equal(self.rt, released, wanted);
        Owner { pass, held }
    }

    /// Makes a step of a thread.
    pub(crate) fn make_step(&self, standing: Standing<N>, step: Step) -> Standing<N> {
        if self.looks(step) {
            return standing;
        }
        match standing {
            Standing::Out => Standing::Calm(self.when_out(step)),
            Standing::Calm(calm) => self.when_calm(calm, step),
            Standing::Owner(owner) => self.when_owner(owner, step),
            Standing::OwnerOfTwo(owner) => Standing::Owner(self.when_owner_of_two(owner, step)),
            Standing::Holder(holder) => self.when_holder(holder, step),
            Standing::HolderOfTwo(holder) => self.when_holder_of_two(holder, step),
        }
    }

    /// The thread lets go of the lock that it owns, if it owns one, and leaves.
    pub(crate) fn give_up(&self, standing: Standing<N>) {
        match standing {
            Standing::Out => {}
            Standing::Calm(Calm { pass }) => self.lot.leave(self.rt, pass),
            Standing::Owner(owner) => {
                let Calm { pass } = self.let_go(owner, Step::LetGo);
                self.lot.leave(self.rt, pass);
            }
            _ => failed(
                self.rt,
                "a schedule that may be given up has one lock at a time",
            ),
        }
    }
}
