//! A scheme for tests: letters in plain words.
ghost use Rattle.std.specs.Prelude.{◌≡◌, ◌+◌, ◌≤◌, ◌++◌, length, take, drop};
ghost use Rattle.lot_park.specs.Parking.{without_debt};

use super::askings::{ASKINGS, QUIET_ASKINGS, is_within};
use super::rights::Right;
use crate::asserts::is_so;
use lot_park::{Parked, Scheme, Token, UnparkResult};
use std::process::Abort;
use std::sync::atomic::{AtomicU64, Ordering};
use std::thread;

pub(crate) const THREADS: usize = 3;

#[derive(Drop)]
pub(crate) struct Pass {
    pub(crate) thread: usize,
}

// A word for each thread: 0 where no letter lies, else the token and 1. And how often it looked for one; how often any
// looked at the word of what it sought, and tried without a look; and flags of two threads that meet as they line up.
#[derive(Drop)]
pub(crate) struct Letters {
    words: [AtomicU64; THREADS],
    looks: [AtomicU64; THREADS],
    looks_at_words: AtomicU64,
    tries: AtomicU64,
    pub(crate) lined_up: [AtomicU64; 2],
}

impl Letters {
    pub(crate) fn note_a_look(&self) {
        self.looks_at_words.fetch_add(1, Ordering::SeqCst);
    }

    pub(crate) fn looks_at_words(&self) -> u64 {
        self.looks_at_words.load(Ordering::SeqCst)
    }

    pub(crate) fn note_a_try(&self) {
        self.tries.fetch_add(1, Ordering::SeqCst);
    }

    pub(crate) fn tries(&self) -> u64 {
        self.tries.load(Ordering::SeqCst)
    }
}

// The first place of the letter among those that are owed, or else their number.
fn place_of(owes: &[(usize, u32)], at: usize, token: u32) -> usize
    ensures within { result ≤ length owes.now }
    ensures rest { without_debt at token owes.now ≡ take result owes.now ++ drop (result + 1) owes.now }
{
    for (place, owed) in owes.iter().enumerate() {
        if owed.0 == at && owed.1 == token {
            return place;
        }
    }
    owes.len()
}

impl Scheme for Letters {
    type Root = Right;

    type Pass = Pass;

    ghost thread = { λ p. p.thread };

    ghost looked = { λ p found q. q ≡ p };

    fn thread_of(pass: &Pass) -> usize {
        pass.thread
    }

    fn post(&self, root: Right, at: usize, token: Token) -> Right {
        let mut root = root;
        let place = place_of(&root.owes, at, token.0);
        if place < root.owes.len() {
            root.owes.remove(place);
        }
        if let Some(word) = self.words.as_slice().get(at) {
            word.store(u64::from(token.0) + 1, Ordering::SeqCst);
        }
        root
    }

    fn collect(&self, pass: Pass) -> (Pass, Option<Token>) {
        let Some(word) = self.words.as_slice().get(pass.thread) else {
            return (pass, None);
        };
        let letter = word.swap(0, Ordering::SeqCst);
        if let Some(looks) = self.looks.as_slice().get(pass.thread) {
            looks.fetch_add(1, Ordering::SeqCst);
        }
        let token = letter
            .checked_sub(1)
            .and_then(|token| u32::try_from(token).ok());
        (pass, token.map(Token))
    }
}

// Whether the thread is found to have looked so often.
pub(crate) fn has_looked_within(
    letters: &Letters,
    thread: usize,
    times: u64,
    askings: u64,
) -> bool {
    let Some(looks) = letters.looks.as_slice().get(thread) else {
        return false;
    };
    for _ in 0..askings {
        if times <= looks.load(Ordering::SeqCst) {
            return true;
        }
        thread::yield_now();
    }
    false
}

pub(crate) fn no_letters() -> Letters {
    Letters {
        words: [AtomicU64::new(0), AtomicU64::new(0), AtomicU64::new(0)],
        looks: [AtomicU64::new(0), AtomicU64::new(0), AtomicU64::new(0)],
        looks_at_words: AtomicU64::new(0),
        tries: AtomicU64::new(0),
        lined_up: [AtomicU64::new(0), AtomicU64::new(0)],
    }
}

// What each thread was told last: 0 where nothing yet, else the token and 1.
#[derive(Drop)]
pub(crate) struct Told {
    words: [AtomicU64; THREADS],
}

pub(crate) fn nothing_told() -> Told {
    Told {
        words: [AtomicU64::new(0), AtomicU64::new(0), AtomicU64::new(0)],
    }
}

// Notes how the thread's parking ended.
pub(crate) fn note(told: &Told, thread: usize, parked: Parked) {
    let Parked::Woken(token) = parked else {
        return;
    };
    if let Some(word) = told.words.as_slice().get(thread) {
        word.store(u64::from(token.0) + 1, Ordering::SeqCst);
    }
}

pub(crate) fn is_told_within(told: &Told, thread: usize, token: u32, askings: u64) -> bool {
    match told.words.as_slice().get(thread) {
        Some(word) => is_within(word, u64::from(token) + 1, askings),
        None => false,
    }
}

/// Waits until the thread was told this token, or the test fails.
pub(crate) fn await_told(rt: &impl Abort, told: &Told, thread: usize, token: u32) {
    is_so(
        rt,
        is_told_within(told, thread, token, ASKINGS),
        "it is told",
    );
}

/// The thread is not told this token, or the test fails.
pub(crate) fn stays_untold(rt: &impl Abort, told: &Told, thread: usize, token: u32) {
    is_so(
        rt,
        !is_told_within(told, thread, token, QUIET_ASKINGS),
        "it sleeps on",
    );
}

pub(crate) fn taken(thread: usize, more: bool) -> UnparkResult {
    UnparkResult {
        thread: Some(thread),
        more,
        fair: false,
    }
}

pub(crate) fn taken_fairly(thread: usize, more: bool) -> UnparkResult {
    UnparkResult {
        fair: true,
        ..taken(thread, more)
    }
}
