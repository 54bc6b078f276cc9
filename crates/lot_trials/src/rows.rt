//! Worked rows of locks, with the words that they leave, and what an opening refuses.
ghost use Rattle.std.specs.Prelude.{◌≡◌, ◌<◌, length, IfOk};
ghost use Rattle.lot_sync.specs.Lot.{OwnsNone};
ghost use Rattle.lot_sync.specs.Opened.{IsNamed};

use crate::asserts::{copies, equal, failed, is_so};
use crate::counts::{Count, Gathered, end, free, try_own, word};
use crate::many::is_refused;
use crate::passes::Visitor;
use crate::schedules::{Schedule, come, follow, leave, on_lot, try_start};
use crate::steps::{Memory, Step, may_be_refused};
use lot_sync::{Lot, LotName, OpenFault, Opened, Pass, RegisterFault, Released};
use std::alloc::Global;
use std::marker::Brand;
use std::process::Abort;
use std::sync::Wait;
use std::test::*;
use std::thread::Threads;

/// Parts of rows of locks alone, on a lot for so many threads.
fn on_locks<T: Threads + Wait + Sync + Abort>(
    rt: &T,
    alloc: Global,
    threads: usize,
    parts: &[&[(usize, Step)]],
) {
    on_lot(rt, alloc, threads, parts, (0, 0), Memory::Ample);
}

static TRIED: [(usize, Step); 5] = [
    (0, Step::Word(0, 0)),
    (0, Step::TryLock(0, true)),
    (0, Step::Word(0, 1)),
    (0, Step::UnlockUnparked(true)),
    (0, Step::Word(0, 0)),
];

#[test]
fn try_lock_and_unlock_unparked_succeed(rt: HostRuntime) {
    on_locks(&rt, rt.alloc(), 3, &[come(1), &TRIED, leave(1)]);
}

static QUIET: [(usize, Step); 7] = [
    (0, Step::Lock(0)),
    (1, Step::TryLock(0, false)),
    (0, Step::Word(0, 1)),
    (0, Step::Unlock(0, Released::Quiet)),
    (0, Step::Word(0, 0)),
    (1, Step::Leave),
    (0, Step::Leave),
];

#[test]
fn quiet(rt: HostRuntime) {
    on_locks(&rt, rt.alloc(), 3, &[come(2), &QUIET]);
}

static ASKED_FOR_NOTHING: [(usize, Step); 2] = [
    (0, Step::Lock(0)),
    (0, Step::UnlockAsking(5, 0, Released::Quiet)),
];

#[test]
fn a_quiet_unlock_asks_for_no_moment(rt: HostRuntime) {
    on_locks(&rt, rt.alloc(), 3, &[come(1), &ASKED_FOR_NOTHING, leave(1)]);
}

/// The second thread sleeps on the lock of the first.
static A_SLEEPER: [(usize, Step); 5] = [
    (0, Step::Register(0)),
    (0, Step::Lock(0)),
    (1, Step::Register(1)),
    (1, Step::Sleep(0)),
    (0, Step::AwaitLine(0, 1)),
];

/// The first finds its lock parked, and does not let it go past the sleeper.
static FOUND_PARKED: [(usize, Step); 3] = [
    (0, Step::Word(0, 3)),
    (0, Step::UnlockUnparked(false)),
    (0, Step::Word(0, 3)),
];

/// The first thread hands its lock over to a sleeper by this step. Until the new owner lets it go, its parked bit
/// stays.
fn hand_over<T: Threads + Wait + Sync + Abort>(rt: &T, alloc: Global, step: Step) {
    let handed = [
        (0, step),
        (0, Step::Word(0, 3)),
        (0, Step::Line(0, 0)),
        (1, Step::Unlock(12, Released::Nobody)),
        (1, Step::Word(0, 0)),
        (1, Step::Leave),
        (0, Step::Leave),
    ];
    on_locks(rt, alloc, 3, &[&A_SLEEPER, &FOUND_PARKED, &handed]);
}

#[test]
fn handoff_to_a_sleeper(rt: HostRuntime) {
    hand_over(&rt, rt.alloc(), Step::Unlock(5, Released::Handed));
}

#[test]
fn an_unlock_of_a_parked_lock_asks_for_the_moment_once(rt: HostRuntime) {
    hand_over(&rt, rt.alloc(), Step::UnlockAsking(5, 1, Released::Handed));
}

#[test]
fn a_fair_unlock_hands_over_at_any_moment(rt: HostRuntime) {
    hand_over(&rt, rt.alloc(), Step::UnlockFairly(Released::Handed));
}

/// A release at moment 0 is not fair: with nobody left in the queue it clears the parked bit, and the sleeper gets the
/// lock by itself.
static BARGING: [(usize, Step); 6] = [
    (0, Step::Unlock(0, Released::Woke)),
    (0, Step::Line(0, 0)),
    (1, Step::Unlock(12, Released::Quiet)),
    (1, Step::Word(0, 0)),
    (1, Step::Leave),
    (0, Step::Leave),
];

#[test]
fn a_barging_opportunity_wakes(rt: HostRuntime) {
    on_locks(&rt, rt.alloc(), 3, &[&A_SLEEPER, &FOUND_PARKED, &BARGING]);
}

/// The first thread hands its lock over at moment 5 with word 7, and sleeps on it then. The next fair moment is 12: of
/// a release at this moment this becomes.
fn release_after_a_handoff<T: Threads + Wait + Sync + Abort>(
    rt: &T,
    alloc: Global,
    now: u64,
    released: Released,
) {
    let handed = [
        (0, Step::Unlock(5, Released::Handed)),
        (0, Step::Sleep(0)),
        (1, Step::AwaitLine(0, 1)),
        (1, Step::Unlock(now, released)),
        (0, Step::LetGo),
    ];
    on_locks(rt, alloc, 3, &[&A_SLEEPER, &handed, leave(2)]);
}

#[test]
fn a_release_at_the_next_fair_moment_wakes(rt: HostRuntime) {
    release_after_a_handoff(&rt, rt.alloc(), 12, Released::Woke);
}

#[test]
fn a_release_past_the_next_fair_moment_hands_over(rt: HostRuntime) {
    release_after_a_handoff(&rt, rt.alloc(), 13, Released::Handed);
}

/// Locks 1 and 13 share a bucket of a table of 12, in which three threads sleep, the second on lock 1. The fifth
/// registration takes the bucket apart, and each line is as it was.
static GROWTH: [(usize, Step); 23] = [
    (0, Step::Register(0)),
    (0, Step::Lock(13)),
    (0, Step::Lock(1)),
    (1, Step::Register(1)),
    (1, Step::Sleep(13)),
    (0, Step::AwaitLine(13, 1)),
    (2, Step::Register(2)),
    (2, Step::Sleep(1)),
    (0, Step::AwaitLine(1, 1)),
    (3, Step::Register(3)),
    (3, Step::Sleep(13)),
    (0, Step::AwaitLine(13, 2)),
    (0, Step::Size(12)),
    (4, Step::Register(4)),
    (0, Step::Size(30)),
    (0, Step::Line(13, 2)),
    (0, Step::Line(1, 1)),
    (4, Step::Leave),
    (0, Step::UnlockFirst(Released::Woke)),
    (1, Step::Unlock(0, Released::Woke)),
    (3, Step::Unlock(0, Released::Quiet)),
    (0, Step::Unlock(0, Released::Woke)),
    (2, Step::Unlock(0, Released::Quiet)),
];

#[test]
fn the_fifth_registration_grows_past_sleepers(rt: HostRuntime) {
    on_locks(&rt, rt.alloc(), 5, &[&GROWTH, leave(4)]);
}

/// Two threads sleep on the lock of the first. The first of them is held at the gate, and goes to sleep so many times.
fn two_sleepers(sleeps: u64) -> [(usize, Step); 8] {
    [
        (0, Step::Register(0)),
        (0, Step::Lock(0)),
        (1, Step::Register(1)),
        (1, Step::SleepAtGate(0, sleeps)),
        (0, Step::AwaitLine(0, 1)),
        (2, Step::Register(2)),
        (2, Step::Sleep(0)),
        (0, Step::AwaitLine(0, 2)),
    ]
}

/// The lock is handed over, and the fifth registration makes the table grow before the new owner knows.
static HANDED_BEFORE_GROWTH: [(usize, Step); 12] = [
    (0, Step::UnlockFairly(Released::Handed)),
    (3, Step::Register(3)),
    (0, Step::Size(12)),
    (4, Step::Register(4)),
    (0, Step::Size(30)),
    (0, Step::Word(0, 3)),
    (0, Step::OpenGate),
    (1, Step::Size(30)),
    (1, Step::Word(0, 3)),
    (1, Step::Line(0, 1)),
    (1, Step::Unlock(0, Released::Woke)),
    (2, Step::Unlock(0, Released::Quiet)),
];

#[test]
fn a_handoff_outlives_a_growth(rt: HostRuntime) {
    on_locks(
        &rt,
        rt.alloc(),
        5,
        &[&two_sleepers(1), &HANDED_BEFORE_GROWTH, leave(5)],
    );
}

/// The first sleeper is taken from the line, in which the second is left, and another thread gets the lock at once,
/// though it is marked as parked. The first is behind the second then: that the line was the second's is seen by who
/// is taken next.
static FIRST_TAKEN: [(usize, Step); 11] = [
    (0, Step::Unlock(0, Released::Woke)),
    (0, Step::Word(0, 2)),
    (0, Step::Line(0, 1)),
    (3, Step::Register(3)),
    (3, Step::TryLock(0, true)),
    (3, Step::Word(0, 3)),
    (0, Step::OpenGate),
    (0, Step::AwaitLine(0, 2)),
    (3, Step::Unlock(0, Released::Woke)),
    (2, Step::Unlock(0, Released::Woke)),
    (1, Step::Unlock(0, Released::Quiet)),
];

#[test]
fn the_first_of_two_sleepers_is_taken(rt: HostRuntime) {
    on_locks(
        &rt,
        rt.alloc(),
        4,
        &[&two_sleepers(2), &FIRST_TAKEN, leave(4)],
    );
}

/// A thread that sleeps on another lock of the bucket keeps the parked bit of a lock whose line is empty.
static OTHER_KEY: [(usize, Step); 21] = [
    (0, Step::Register(0)),
    (0, Step::Lock(0)),
    (0, Step::Lock(12)),
    (1, Step::Register(1)),
    (1, Step::SleepAtGate(0, 1)),
    (0, Step::AwaitLine(0, 1)),
    (2, Step::Register(2)),
    (2, Step::Sleep(12)),
    (0, Step::AwaitLine(12, 1)),
    (0, Step::UnlockFirst(Released::Woke)),
    (0, Step::Size(12)),
    (0, Step::Word(0, 2)),
    (0, Step::Line(0, 0)),
    (0, Step::OpenGate),
    (1, Step::Word(0, 3)),
    (1, Step::Unlock(0, Released::Nobody)),
    (1, Step::Word(0, 0)),
    (0, Step::Line(12, 1)),
    (0, Step::Unlock(0, Released::Woke)),
    (2, Step::Unlock(0, Released::Quiet)),
    (2, Step::Word(12, 0)),
];

#[test]
fn other_key_in_the_bucket_keeps_parked(rt: HostRuntime) {
    on_locks(&rt, rt.alloc(), 3, &[&OTHER_KEY, leave(3)]);
}

/// Each of two owners raises a flag and sees the other's.
static TWO_OWNERS: [(usize, Step); 6] = [
    (0, Step::Lock(0)),
    (1, Step::Lock(1)),
    (0, Step::Meet),
    (1, Step::Meet),
    (0, Step::Unlock(0, Released::Quiet)),
    (1, Step::Unlock(0, Released::Quiet)),
];

#[test]
fn two_owners_run_at_once(rt: HostRuntime) {
    on_locks(&rt, rt.alloc(), 3, &[come(2), &TWO_OWNERS, leave(2)]);
}

/// All passes are out. Three threads leave, the second first.
static FULL: [(usize, Step); 4] = [
    (0, Step::Full),
    (1, Step::Leave),
    (0, Step::Leave),
    (2, Step::Leave),
];

#[test]
fn passes_are_given_least_number_first(rt: HostRuntime) {
    on_locks(&rt, rt.alloc(), 3, &[come(3), &FULL, come(3), &FULL]);
}

/// The fifth registration makes the table grow past a sleeper, which is served then.
static GROWTH_PAST_ONE: [(usize, Step); 13] = [
    (2, Step::Register(2)),
    (3, Step::Register(3)),
    (0, Step::Size(12)),
    (4, Step::Register(4)),
    (0, Step::Size(30)),
    (0, Step::Line(0, 1)),
    (4, Step::Leave),
    (3, Step::Leave),
    (2, Step::Leave),
    (0, Step::Raise(7)),
    (0, Step::Unlock(0, Released::Woke)),
    (1, Step::Raise(8)),
    (1, Step::Unlock(0, Released::Quiet)),
];

/// The same, where requests may be refused, or where none is refused for nothing.
fn grow_past_one<T: Threads + Wait + Sync + Abort>(rt: &T, alloc: Global, memory: Memory) {
    on_lot(
        rt,
        alloc,
        5,
        &[&A_SLEEPER, &GROWTH_PAST_ONE, leave(2)],
        (0, 0),
        memory,
    );
}

#[test]
fn a_refused_registration_changes_nothing(rt: HostRuntime) {
    grow_past_one(&rt, rt.alloc(), Memory::MayBeRefused);
}

#[test]
fn nothing_answers_no_memory_for_nothing(rt: HostRuntime) {
    grow_past_one(&rt, rt.alloc(), Memory::Ample);
}

/// Four threads have registered, and then two at once: whichever lets the table grow, it is large enough, and no pass
/// is left.
static TWO_AT_ONCE: [(usize, Step); 6] = [
    (0, Step::Size(12)),
    (4, Step::RegisterBeside),
    (5, Step::RegisterBeside),
    (4, Step::EitherSize(30, 36)),
    (5, Step::EitherSize(30, 36)),
    (0, Step::Full),
];

#[test]
fn two_threads_register_at_once(rt: HostRuntime) {
    on_locks(&rt, rt.alloc(), 6, &[come(4), &TWO_AT_ONCE, leave(6)]);
}

/// The thread finds so many behind lock 0, and leaves one more.
fn raised(thread: usize, found: u64) -> [(usize, Step); 3] {
    [
        (thread, Step::Lock(0)),
        (thread, Step::Raise(found)),
        (thread, Step::Unlock(0, Released::Quiet)),
    ]
}

#[test]
fn a_written_value_is_found(rt: HostRuntime) {
    let back = [(1, Step::Leave), (0, Step::Leave)];
    let parts = [come(2), &raised(0, 7), &raised(1, 8), &raised(0, 9), &back];
    on_locks(&rt, rt.alloc(), 3, &parts);
}

/// Registers all threads of a lot for so many, one after the other; no pass is left for one more.
fn register_all<T: Threads + Wait + Sync + Abort>(rt: &T, alloc: Global, threads: usize) {
    let schedule = Schedule {
        threads,
        rows: &[],
        how: Gathered::Registered,
        waits: (0, 0),
        memory: Memory::Ample,
    };
    follow(rt, alloc, schedule);
}

#[test]
fn registration_and_growth_succeed(rt: HostRuntime) {
    register_all(&rt, rt.alloc(), 64);
    register_all(&rt, rt.alloc(), 256);
}

const REFUSED: [(usize, usize, usize, OpenFault); 3] = [
    (257, 1, 0, OpenFault::BadThreads),
    (1, 0, 0, OpenFault::BadKeys),
    (1, 1, 1024, OpenFault::BadKeys),
];

#[test]
fn bad_limits(rt: HostRuntime) {
    for (threads, locks, conds, want) in REFUSED {
        let values = copies(&rt, rt.alloc(), Count { n: 7 }, locks);
        let opened = Lot::<Count, Brand>::open(rt.alloc(), threads, values, conds);
        is_refused(&rt, opened, (want, locks));
    }
}

/// The values are these two, in this order, or the test fails.
fn two_are(rt: &impl Abort, values: &[Count], wanted: (u64, u64)) {
    is_so(rt, values.len() == 2, "two values come back");
    equal(rt, (values[0].n, values[1].n), wanted);
}

#[test]
fn an_opening_that_fails_gives_the_values_back_in_order(rt: HostRuntime) {
    let mut values = copies(&rt, rt.alloc(), Count { n: 7 }, 2);
    values[1] = Count { n: 8 };
    match Lot::<Count, Brand>::open(rt.alloc(), 0, values, 0) {
        Ok(_) => failed(&rt, "opened"),
        Err((fault, values)) => {
            equal(&rt, fault, OpenFault::BadThreads);
            two_are(&rt, values.as_slice(), (7, 8));
        }
    }
}

impl<N: LotName<Count> + Send + Sync, T: Wait + Abort> Visitor<'_, Count, N, T> {
    /// Tries a lock that is free, and lets it go where nobody is parked.
    fn try_and_free(&self, pass: Pass<Count, N>) -> Pass<Count, N>
        requires free { OwnsNone pass }
        ensures { OwnsNone result }
    {
        equal(self.rt, word(self.lot, 0), 0);
        let (pass, got) = try_own(self.lot, pass, 0);
        let Some(held) = got else {
            failed(self.rt, "the lock is free")
        };
        equal(self.rt, word(self.lot, 0), 1);
        let (pass, back) = free(self.lot, pass, held);
        match back {
            None => {}
            Some(_held) => failed(self.rt, "nobody is parked"),
        }
        equal(self.rt, word(self.lot, 0), 0);
        pass
    }

    /// The lot's one thread registers, unless memory is refused, tries lock 0, which takes none, and leaves.
    fn try_alone(&self, memory: Memory) {
        match self.lot.register(self.rt) {
            Ok(pass) => {
                let pass = self.try_and_free(pass);
                self.lot.leave(self.rt, pass);
            }
            Err(fault) => {
                equal(self.rt, fault, RegisterFault::NoMemory);
                may_be_refused(self.rt, memory);
            }
        }
    }
}

/// Starts a lot for one thread, tries its first lock and closes it, or closes what could not be started.
fn started_and_closed<N: LotName<Count> + Send + Sync, T: Wait + Abort>(
    rt: &T,
    alloc: Global,
    opened: Opened<Count>,
    memory: Memory,
) -> Vec<Count>
    requires named { IsNamed N.LotName opened }
    requires sizes { (opened.threads ≡ 1) × (0 < length opened.values) }
{
    match try_start::<N, T>(rt, alloc, 1, opened, memory) {
        Ok((lot, passes)) => {
            Visitor { rt, lot: &lot }.try_alone(memory);
            let (values, _) = end(rt, lot, passes, 1, Gathered::Left);
            values
        }
        Err(values) => values,
    }
}

/// Starts what was opened for one thread, and closes it; the values that come back, also from what was refused.
pub(crate) fn opened_and_closed<T: Wait + Abort>(
    rt: &T,
    alloc: Global,
    outcome: Result<Opened<Count>, (OpenFault, Vec<Count>)>,
    memory: Memory,
) -> Vec<Count>
    requires { IfOk outcome (λ o. (o.threads ≡ 1) × (0 < length o.values)) }
{
    match outcome {
        Ok(opened) => started_and_closed::<Brand, T>(rt, alloc, opened, memory),
        Err((fault, values)) => {
            equal(rt, fault, OpenFault::NoMemory);
            may_be_refused(rt, memory);
            values
        }
    }
}

/// One thread on a lot with one lock, whose value comes back.
fn one_of_each<T: Wait + Abort>(rt: &T, alloc: Global, memory: Memory) {
    let Ok(values) = vec![in alloc; Count { n: 7 }; 1] else {
        may_be_refused(rt, memory);
        return;
    };
    let opened = Lot::<Count, Brand>::open(alloc, 1, values, 0);
    let values = opened_and_closed(rt, alloc, opened, memory);
    is_so(rt, values.len() == 1, "one value comes back");
    equal(rt, values[0].n, 7);
}

#[test]
fn one_thread_tries_one_lock(rt: HostRuntime) {
    one_of_each(&rt, rt.alloc(), Memory::Ample);
}

// Where memory is refused from any request on, the calls of a pass that was given succeed.
#[test]
fn one_thread_tries_one_lock_without_memory(rt: HostRuntime) {
    one_of_each(&rt, rt.alloc(), Memory::MayBeRefused);
}

// Where a request for memory is refused, the values come back from `open` or from `start`.
#[test]
fn all_values_come_back_in_order(rt: HostRuntime) {
    let Ok(mut values) = vec![in rt.alloc(); Count { n: 7 }; 2] else {
        return;
    };
    values[1] = Count { n: 8 };
    let opened = Lot::<Count, Brand>::open(rt.alloc(), 1, values, 0);
    let values = opened_and_closed(&rt, rt.alloc(), opened, Memory::MayBeRefused);
    two_are(&rt, values.as_slice(), (7, 8));
}
