//! How often a thread that seeks something looks, and tries, before it lines up.
ghost use Rattle.std.specs.Prelude.{◌≡◌, ◌<◌};

use super::askings::{ASKINGS, is_within};
use super::letters::{Letters, Pass, THREADS, no_letters};
use super::rights::{Right, idle_rights};
use crate::asserts::{equal, is_so, opened_lot};
use lot_park::{AtOnce, ParkingLot, Token};
use lot_seeking::{Look, Seeking, Sought, get_or_park};
use std::alloc::Global;
use std::process::Abort;
use std::sync::Wait;
use std::sync::atomic::Ordering;
use std::test::*;
use std::thread;
use std::thread::Threads;

// What threads seek. It has no value.
struct Meetings;

// Nothing is ever left until the thread lines up: then it gets it. Two threads line up together: thread 1 stays awake
// in line until thread 0 has lined up.
impl Sought<Meetings> for Letters {
    ghost use Rattle.std.specs.Prelude.{◌≡◌};

    ghost has = { λ s key. Unit {0} };

    ghost seeks = { λ before key far now. now ≡ before };

    ghost sleeps = { λ before key asleep. ⊥ };

    ghost changed = { λ before key now. ⊥ };

    ghost marked = { λ before key now. ⊥ };

    ghost refused = { λ before key now. now ≡ before };

    fn look_at(&self, _key: usize) -> Look {
        self.note_a_look();
        Look::Taken
    }

    fn take(&self, pass: Pass, _key: usize) -> (Pass, bool) {
        (pass, false)
    }

    fn take_free(&self, pass: Pass, _key: usize) -> (Pass, bool) {
        self.note_a_try();
        (pass, false)
    }

    fn line_up(&self, pass: Pass, _key: usize, _is_marked: bool) -> (Pass, Seeking) {
        let [of_0, of_1] = &self.lined_up;
        if pass.thread == 0 {
            of_0.store(1, Ordering::SeqCst);
        } else {
            of_1.store(1, Ordering::SeqCst);
            is_within(of_0, 1, ASKINGS);
        }
        (pass, Seeking::Got)
    }

    fn queue(&self, pass: Pass, root: Right, _key: usize) -> (Pass, Right, bool) {
        (pass, root, false)
    }

    fn is_handed(_token: Token) -> bool {
        false
    }
}

// How often a thread tries, and how often it looks, before it lines up that has seen this of the word and seeks alone.
// It seeks twice.
fn alone<R: Wait + Abort>(rt: &R, alloc: Global, first: Look) -> (u64, u64) {
    let rights = idle_rights(alloc, 1).expect(rt, "memory");
    let (lot, mut room) = opened_lot(rt, alloc, THREADS, rights, no_letters());
    let pass = Pass { thread: 0 };
    let pass = get_or_park::<Letters, Meetings, R, AtOnce>(rt, &lot, pass, 0, first, &AtOnce);
    let _pass = get_or_park::<Letters, Meetings, R, AtOnce>(rt, &lot, pass, 0, first, &AtOnce);
    let letters = lot.close(rt, &mut room);
    (letters.tries(), letters.looks_at_words())
}

// A thread that seeks alone tries twice, and looks once before its 40 yields, after each of the first four, and then
// after every second: 23 times. So it does again when it seeks again, since it is counted no more. Where it has seen
// that somebody is parked, it lines up at once.
#[test]
fn a_thread_looks_before_it_lines_up(rt: HostRuntime) {
    equal(&rt, alone(&rt, rt.alloc(), Look::Taken), (4, 46));
    equal(&rt, alone(&rt, rt.alloc(), Look::Parked), (0, 0));
}

fn meets<R: Wait>(rt: &R, lot: &ParkingLot<Letters>, thread: usize, first: Look)
    requires lot { (lot.now.threads ≡ THREADS) × (lot.now.keys ≡ 1) }
    requires thread { thread < THREADS }
{
    let pass = Pass { thread };
    let _pass = get_or_park::<Letters, Meetings, R, AtOnce>(rt, lot, pass, 0, first, &AtOnce);
}

// How often thread 0 tries and looks before it lines up, while thread 1 is counted as seeking.
fn tries_and_looks<R: Threads + Wait + Abort + Sync>(
    rt: &R,
    lot: &ParkingLot<Letters>,
) -> (u64, u64)
    requires { (lot.now.threads ≡ THREADS) × (lot.now.keys ≡ 1) }
{
    thread::scope(
        thread::scope_env(),
        rt,
        |scope| -> (u64, u64)
            requires { (lot.now.threads ≡ THREADS) × (lot.now.keys ≡ 1) }
        {
            let other = move ||
                requires { (lot.now.threads ≡ THREADS) × (lot.now.keys ≡ 1) }
            { meets(rt, lot, 1, Look::Parked) };
            is_so(rt, scope.spawn(other).is_ok(), "it starts");
            let [_, of_1] = &lot.scheme().lined_up;
            is_so(rt, is_within(of_1, 1, ASKINGS), "the other seeks");
            meets(rt, lot, 0, Look::Taken);
            (lot.scheme().tries(), lot.scheme().looks_at_words())
        },
    )
}

// A thread that seeks while one other does yields 8 times and tries, and looks; and so after each of 32 yields more.
#[test]
fn a_thread_among_others_tries_after_its_yields(rt: HostRuntime) {
    let rights = idle_rights(rt.alloc(), 1).expect(&rt, "memory");
    let (lot, mut room) = opened_lot(&rt, rt.alloc(), THREADS, rights, no_letters());
    equal(&rt, tries_and_looks(&rt, &lot), (33, 33));
    let _letters = lot.close(&rt, &mut room);
}
