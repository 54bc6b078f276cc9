//! The calls of the parking lot: who sleeps, who is woken, and what it is told.
ghost use Rattle.std.specs.Prelude.{◌≡◌, ◌<◌, ◌≤◌, []};
ghost use Rattle.lot_bucket.specs.Queue.{first_of};
ghost use Rattle.base_trials.specs.declared.park.letters.TheConstants.{THREADS};
ghost use Rattle.base_trials.specs.declared.park.lots.TheConstants.{KEYS};

use super::askings::{ASKINGS, QUIET_ASKINGS, await_line, is_within};
use super::letters::{
    Letters, Pass, THREADS, Told, await_told, has_looked_within, is_told_within, no_letters, note,
    nothing_told, stays_untold, taken, taken_fairly,
};
use super::rights::{EARLY, Right, idle_rights, joined, passed, passed_all, passed_first};
use crate::asserts::{equal, failed, is_so, opened_lot};
use lot_park::{Grown, Moment, Parked, ParkingLot, Token, UnparkResult};
use std::alloc::Global;
use std::process::Abort;
use std::sync::Wait;
use std::sync::atomic::{AtomicU64, Ordering};
use std::thread;
use std::thread::Threads;

const KEYS: usize = 4;

// A key in the bucket of key 0, in a table of the first size.
const OTHER: usize = 3;

fn open(rt: &impl Abort, alloc: Global) -> ParkingLot<Letters>
    ensures threads { result.threads ≡ THREADS }
    ensures keys { result.keys ≡ KEYS }
{
    let rights = idle_rights(alloc, KEYS).expect(rt, "memory");
    let (lot, room) = opened_lot(rt, alloc, THREADS, rights, no_letters());
    room.destroy_empty();
    lot
}

/// What is tried beside sleepers.
#[derive(Clone, Copy, PartialEq, Eq)]
enum Trial {
    /// A sleeper looks for its letter once before it sleeps, and finds it once it is unparked.
    Looks,
    /// The table grows under a sleeper, who is then still in its line.
    Growth,
    /// One key is unparked, and then the other.
    TwoKeys,
    /// A whole line is unparked.
    WholeLine,
    /// The first of a line are unparked.
    FirstOfLine,
    /// Those of a line are unparked one by one, at moments at which it is time to be fair, and is not.
    FairMoments,
    /// A sleeper looks for its letter before it sleeps, and again each time that a sleep has ended: here before it
    /// finds the first letter, before each sleep of the second parking, and before it finds the second letter.
    KeptWake,
}

// A parking lot of a test, for its threads and keys.
#[derive(Drop)]
struct OnLetters<'a, R> {
    rt: &'a R,
    lot: &'a ParkingLot<Letters>,
    ghost sizes: { (lot.now.threads ≡ THREADS) × (lot.now.keys ≡ KEYS) },
}

impl<R: Wait + Abort> OnLetters<'_, R> {
    // Parks on the key, where `valid` says so.
    fn park(&self, thread: usize, key: usize, valid: bool) -> Parked
        requires { (thread < THREADS) × (key < KEYS) }
    {
        let (_pass, (), parked) = self.lot.park_conditionally(
            self.rt,
            Pass { thread },
            key,
            (),
            |x: (), pass: Pass, root: Right| -> ((), Pass, Right, bool) {
                let root = if valid {
                    joined(self.rt, root, pass.thread)
                } else {
                    root
                };
                (x, pass, root, valid)
            },
            |x: ()| x,
        );
        parked
    }

    fn unpark(&self, key: usize, token: u32) -> UnparkResult
        requires { key < KEYS }
    {
        self.unpark_at(key, token, EARLY)
    }

    fn unpark_at(&self, key: usize, token: u32, moment: Moment) -> UnparkResult
        requires { key < KEYS }
    {
        let ((), told) = self.lot.unpark_one(
            self.rt,
            key,
            moment,
            (),
            |x: (), root: Right, told: UnparkResult| -> ((), Right, Token)
                requires clear { root.owes.items ≡ [] }
                requires first { told.thread ≡ first_of root.line.items }
            { (x, passed(self.rt, root, told.thread, token), Token(token)) },
        );
        told
    }

    fn unpark_all(&self, key: usize) -> usize
        requires { key < KEYS }
    {
        let ((), count) = self.lot.unpark_all(
            self.rt,
            key,
            (),
            |x: (), root: Right, _count: usize| -> ((), Right)
                requires clear { root.owes.items ≡ [] }
            { (x, passed_all(self.rt, root)) },
        );
        count
    }

    // How many of the line it took, and whether more may wait.
    fn unpark_first(&self, key: usize, count: usize) -> (usize, bool)
        requires { key < KEYS }
    {
        let (more, taken) = self.lot.unpark_count(
            self.rt,
            key,
            count,
            (),
            |_x: (), root: Right, _taken: usize, more: bool| -> (bool, Right)
                requires clear { root.owes.items ≡ [] }
            { (more, passed_first(self.rt, root, count)) },
        );
        (taken, more)
    }

    fn looks_before_it_sleeps(&self, told: &Told) {
        self.expect_looks(1, 2);
        equal(self.rt, self.unpark(0, 7), taken(1, false));
        await_told(self.rt, told, 1, 7);
        self.expect_no_look(3);
    }

    // Thread 1 looks for its letter so often, and sleeps before it looks more often.
    fn expect_looks(&self, times: u64, more: u64) {
        let letters = self.lot.scheme();
        is_so(
            self.rt,
            has_looked_within(letters, 1, times, ASKINGS),
            "it looks",
        );
        is_so(
            self.rt,
            !has_looked_within(letters, 1, more, QUIET_ASKINGS),
            "it sleeps",
        );
    }

    // Thread 1 has found its letter without a look of this number.
    fn expect_no_look(&self, times: u64) {
        is_so(
            self.rt,
            !has_looked_within(self.lot.scheme(), 1, times, 1),
            "it has found its letter",
        );
    }

    fn grown(&self, threads: usize) -> Grown
        requires { threads ≤ THREADS }
    {
        match self.lot.ensure(self.rt, threads) {
            Ok(served) => served.grown(),
            Err(_refused) => failed(self.rt, "memory"),
        }
    }

    fn grows_and_unparks(&self, told: &Told) {
        equal(self.rt, self.grown(2), Grown::Grew(3, 12));
        equal(self.rt, self.lot.size(self.rt), 12);
        equal(self.rt, self.lot.line_length(self.rt, 1), 1);
        equal(self.rt, self.unpark(1, 4), taken(2, false));
        await_told(self.rt, told, 2, 4);
    }

    fn unparks_one_key_then_the_other(&self, told: &Told) {
        equal(self.rt, self.unpark(0, 3), taken(1, true));
        await_told(self.rt, told, 1, 3);
        stays_untold(self.rt, told, 2, 3);
        let lines = (
            self.lot.line_length(self.rt, 0),
            self.lot.line_length(self.rt, OTHER),
        );
        equal(self.rt, lines, (0, 1));
        equal(self.rt, self.unpark(OTHER, 4), taken(2, false));
    }

    fn unparks_a_line_of_two(&self, told: &Told) {
        equal(self.rt, self.unpark_all(0), 0);
        equal(self.rt, self.unpark_all(1), 2);
        await_told(self.rt, told, 0, 0);
        await_told(self.rt, told, 2, 0);
        equal(self.rt, self.unpark_all(1), 0);
    }

    fn unparks_two_then_one(&self, told: &Told) {
        equal(self.rt, self.unpark_first(1, 0), (0, false));
        equal(self.rt, self.unpark_first(1, 2), (2, true));
        await_told(self.rt, told, 0, 0);
        await_told(self.rt, told, 1, 0);
        stays_untold(self.rt, told, 2, 0);
        equal(self.rt, self.unpark_first(1, 5), (1, false));
        equal(self.rt, self.unpark_first(1, 1), (0, false));
    }

    // A fair unparking at moment 10 whose random number is 7, but for whole milliseconds, sets the next fair moment to
    // 17: it is not yet time to be fair then, but at the moment after it.
    fn unparks_before_and_after_it_is_fair(&self, told: &Told) {
        let word = 3_000_007;
        let at_10 = self.unpark_at(1, 4, Moment { now: 10, word });
        equal(self.rt, at_10, taken_fairly(0, true));
        let at_17 = self.unpark_at(1, 5, Moment { now: 17, word });
        equal(self.rt, at_17, taken(1, true));
        let at_18 = self.unpark_at(1, 6, Moment { now: 18, word });
        equal(self.rt, at_18, taken_fairly(2, false));
        await_told(self.rt, told, 2, 6);
    }

    // The action before sleep unparks the thread's own key.
    fn unparks_itself(&self) -> (Option<UnparkResult>, Parked) {
        let (_pass, told, parked) = self.lot.park_conditionally(
            self.rt,
            Pass { thread: 1 },
            0,
            None,
            |x: Option<UnparkResult>, pass: Pass, root: Right| -> (
                Option<UnparkResult>,
                Pass,
                Right,
                bool,
            ) {
                let root = joined(self.rt, root, pass.thread);
                (x, pass, root, true)
            },
            |_x: Option<UnparkResult>| Some(self.unpark(0, 5)),
        );
        (told, parked)
    }

    // Who is in the line of key 0, and nobody in that of another key of the bucket: for both it locks the bucket. What
    // it found is noted as 1, where it is what it has to be.
    fn looks_into_its_bucket(&self, found: &AtomicU64) {
        if self.lot.line_length(self.rt, 0) == 1 && self.unpark(OTHER, 3).thread.is_none() {
            found.store(1, Ordering::SeqCst);
        }
    }

    // Thread 1 parks on key 0. Before it sleeps it looks into its bucket.
    fn acts_on_its_bucket(&self, found: &AtomicU64) -> Parked {
        let (_pass, (), parked) = self.lot.park_conditionally(
            self.rt,
            Pass { thread: 1 },
            0,
            (),
            |x: (), pass: Pass, root: Right| -> ((), Pass, Right, bool) {
                let root = joined(self.rt, root, pass.thread);
                (x, pass, root, true)
            },
            |x: ()| {
                self.looks_into_its_bucket(found);
                x
            },
        );
        parked
    }

    fn looks_again_and_sleeps_on(&self, told: &Told) {
        self.expect_looks(3, 4);
        is_so(
            self.rt,
            is_told_within(told, 1, 5, 1),
            "a wake is no letter",
        );
        equal(self.rt, self.lot.line_length(self.rt, 0), 1);
        equal(self.rt, self.unpark(0, 2), taken(1, false));
        await_told(self.rt, told, 1, 2);
        self.expect_no_look(5);
    }

    // Sleeps on the key. With a wake that is kept, it parks twice: the first time it does not sleep, so the wake of its
    // own unparking ends the first sleep of the second time, for nothing.
    fn sleep_in(&self, thread: usize, key: usize, told: &Told, trial: Trial)
        requires there { (thread < THREADS) × (key < KEYS) }
    {
        if trial == Trial::KeptWake {
            let (_taken, parked) = self.unparks_itself();
            note(told, thread, parked);
        }
        note(told, thread, self.park(thread, key, true));
    }

    fn try_on(&self, told: &Told, trial: Trial) {
        match trial {
            Trial::Looks => self.looks_before_it_sleeps(told),
            Trial::Growth => self.grows_and_unparks(told),
            Trial::TwoKeys => self.unparks_one_key_then_the_other(told),
            Trial::WholeLine => self.unparks_a_line_of_two(told),
            Trial::FirstOfLine => self.unparks_two_then_one(told),
            Trial::FairMoments => self.unparks_before_and_after_it_is_fair(told),
            Trial::KeptWake => self.looks_again_and_sleeps_on(told),
        }
    }
}

impl<R: Threads + Wait + Abort + Sync> OnLetters<'_, R> {
    // Beside such a sleeper it locks no bucket itself before the action has ended.
    fn awaits_the_action(&self, found: &AtomicU64) {
        thread::scope(thread::scope_env(), self.rt, |scope| {
            let sleeps = move || {
                equal(
                    self.rt,
                    self.acts_on_its_bucket(found),
                    Parked::Woken(Token(7)),
                )
            };
            is_so(self.rt, scope.spawn(sleeps).is_ok(), "it starts");
            is_so(self.rt, is_within(found, 1, ASKINGS), "it locks its bucket");
            equal(self.rt, self.unpark(0, 7), taken(1, false));
        });
    }

    // Tries beside the sleepers, which come one after the other: of each its thread, its key, and how many are in the
    // key's line then.
    fn beside_sleepers(&self, told: &Told, sleepers: &[(usize, usize, usize)], trial: Trial) {
        thread::scope(thread::scope_env(), self.rt, |scope| {
            for sleeper in sleepers {
                let (thread, key, length) = *sleeper;
                is_so(self.rt, thread < THREADS, "there is such a thread");
                is_so(self.rt, key < KEYS, "there is such a key");
                let sleeps = move ||
                    requires { (thread < THREADS) × (key < KEYS) }
                { self.sleep_in(thread, key, told, trial) };
                is_so(self.rt, scope.spawn(sleeps).is_ok(), "it starts");
                await_line(self.rt, self.lot, key, length);
            }
            self.try_on(told, trial);
        });
    }
}

// The roots come back in key order.
fn close<R: Wait + Abort>(rt: &R, alloc: Global, lot: ParkingLot<Letters>)
    requires { lot.keys ≡ KEYS }
{
    let mut rights = Vec::with_capacity(alloc, KEYS).expect(rt, "memory");
    let _letters = lot.close(rt, &mut rights);
    equal(rt, rights.len(), KEYS);
    for (key, right) in rights.iter().enumerate() {
        equal(rt, right.key, key);
    }
}

#[test]
fn an_invalid_parking_leaves_the_line(rt: HostRuntime) {
    let lot = open(&rt, rt.alloc());
    let on = OnLetters { rt: &rt, lot: &lot };
    equal(&rt, on.park(1, 0, false), Parked::Invalid);
    equal(&rt, lot.line_length(&rt, 0), 0);
    let _letters = lot.scheme();
    close(&rt, rt.alloc(), lot);
}

#[test]
fn who_is_unparked_before_its_sleep_does_not_sleep(rt: HostRuntime) {
    let lot = open(&rt, rt.alloc());
    let on = OnLetters { rt: &rt, lot: &lot };
    let (told, parked) = on.unparks_itself();
    equal(&rt, told, Some(taken(1, false)));
    equal(&rt, parked, Parked::Woken(Token(5)));
    close(&rt, rt.alloc(), lot);
}

/// It catches a `park_conditionally` that calls the action in its validation, and a `park_acting` that locks the bucket
/// again for it: there it waits for that lock for ever, and what it found is never noted.
#[test]
fn an_action_before_sleep_runs_with_no_bucket_locked(rt: HostRuntime) {
    let lot = open(&rt, rt.alloc());
    let found = AtomicU64::new(0);
    let on = OnLetters { rt: &rt, lot: &lot };
    on.awaits_the_action(&found);
    close(&rt, rt.alloc(), lot);
}

// Opens a lot, tries, and closes it.
fn tried<R: Threads + Wait + Abort + Sync>(
    rt: &R,
    alloc: Global,
    sleepers: &[(usize, usize, usize)],
    trial: Trial,
) {
    let lot = open(rt, alloc);
    equal(rt, lot.size(rt), 3);
    let told = nothing_told();
    let on = OnLetters { rt, lot: &lot };
    on.beside_sleepers(&told, sleepers, trial);
    close(rt, alloc, lot);
}

#[test]
fn a_sleeper_is_told_the_token(rt: HostRuntime) {
    tried(&rt, rt.alloc(), &[(1, 0, 1)], Trial::Looks);
}

#[test]
fn a_sleeper_stays_in_its_line_as_the_table_grows(rt: HostRuntime) {
    tried(&rt, rt.alloc(), &[(2, 1, 1)], Trial::Growth);
}

#[test]
fn another_key_in_the_bucket_keeps_its_line(rt: HostRuntime) {
    let sleepers = [(1, 0, 1), (2, OTHER, 1)];
    tried(&rt, rt.alloc(), &sleepers, Trial::TwoKeys);
}

#[test]
fn a_whole_line_is_unparked(rt: HostRuntime) {
    let sleepers = [(0, 1, 1), (2, 1, 2)];
    tried(&rt, rt.alloc(), &sleepers, Trial::WholeLine);
}

const LINE_OF_THREE: [(usize, usize, usize); 3] = [(0, 1, 1), (1, 1, 2), (2, 1, 3)];

#[test]
fn the_first_of_a_line_are_unparked(rt: HostRuntime) {
    tried(&rt, rt.alloc(), &LINE_OF_THREE, Trial::FirstOfLine);
}

#[test]
fn an_unparking_sets_the_next_fair_moment(rt: HostRuntime) {
    tried(&rt, rt.alloc(), &LINE_OF_THREE, Trial::FairMoments);
}

#[test]
fn a_sleeper_looks_once_a_wake(rt: HostRuntime) {
    tried(&rt, rt.alloc(), &[(1, 0, 1)], Trial::KeptWake);
}
