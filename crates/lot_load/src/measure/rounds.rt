//! Rounds of one thread: it locks, adds one and unlocks.
ghost use Rattle.std.specs.Prelude.{◌≡◌, ◌<◌};
ghost use Rattle.lot_sync.specs.Lot.{OwnsNone};

use super::clock::{now, spend};
use super::fair::Way;
use super::member::Member;
use super::times::Times;
use super::turns::NEVER_FAIR;
use super::value::Number;
use lot_sync::{LotName, Pass};
use std::sync::Wait;
use std::time::Clock;

/// Random words of one thread.
#[derive(Drop)]
pub struct Random {
    word: u64,
}

impl Random {
    pub fn new(worker: usize) -> Random {
        Random {
            word: (worker as u64).wrapping_mul(0x9e37_79b9_7f4a_7c15),
        }
    }

    #[inline(always)]
    pub fn next(&mut self) -> u64 {
        self.word = self
            .word
            .wrapping_mul(6_364_136_223_846_793_005)
            .wrapping_add(1_442_695_040_888_963_407);
        self.word >> 32
    }
}

/// The lock of a random word: its number by the word's highest bits.
#[inline(always)]
pub fn key_of(word: u64, locks: usize) -> usize
    requires { 0 < locks }
    ensures { result < locks }
{
    let key = (word.wrapping_mul(locks as u64) >> 32) as usize;
    key.min(locks - 1)
}

/// The only semaphore, beside one lock and no condition.
const SEM: usize = 1;

impl<N: LotName<Number> + Send, T: Wait + Clock> Member<'_, N, T> {
    /// So many rounds, on locks by chance.
    pub fn count(&self, mut pass: Pass<Number, N>, rounds: u64) -> Pass<Number, N>
        requires free { OwnsNone pass }
        ensures { OwnsNone result }
    {
        let locks = self.lot.locks();
        let mut random = Random::new(self.worker);
        for _ in 0..rounds {
            let word = random.next();
            pass = self.go_round(pass, key_of(word, locks), word);
        }
        pass
    }

    /// Rounds on lock 0 until the time is over, and how many they were.
    pub fn share(&self, mut pass: Pass<Number, N>) -> (Pass<Number, N>, u64)
        requires free { OwnsNone pass }
        ensures { OwnsNone result.0 }
    {
        let mut random = Random::new(self.worker);
        let mut rounds = 0u64;
        for _ in self.rt.forever() {
            if self.meeting.is_over() {
                return (pass, rounds);
            }
            pass = self.go_round(pass, 0, random.next());
            rounds = rounds.wrapping_add(1);
        }
        unreachable!()
    }

    /// One round: it locks the lock, adds one to its number, and lets it go by the clock.
    #[inline(always)]
    fn go_round(&self, pass: Pass<Number, N>, key: usize, word: u64) -> Pass<Number, N>
        requires key { key < self.now.lot.now.locks }
        requires free { OwnsNone pass }
        ensures { OwnsNone result }
    {
        let (owner, mut held) = self.lot.lock(self.rt, pass, key);
        let number = held.value_mut();
        number.n = number.n.wrapping_add(1);
        let (free, _) = self.let_go(owner, held, Way::Clock, word);
        free
    }

    /// Rounds on lock 0 until the time is over: the lock is held for so many nanoseconds, and so many go by outside.
    /// Notes how long each took from asking to owning.
    pub fn wait(
        &self,
        mut pass: Pass<Number, N>,
        sections: (u64, u64),
        times: &mut Times,
    ) -> Pass<Number, N>
        requires free { OwnsNone pass }
        ensures { OwnsNone result }
    {
        let (held_for, outside) = sections;
        for _ in self.rt.forever() {
            if self.meeting.is_over() {
                return pass;
            }
            let asked = now(self.rt);
            let (gone, mut held) = self.lot.lock(self.rt, pass, 0);
            let owned = now(self.rt);
            let number = held.value_mut();
            number.n = number.n.wrapping_add(1);
            spend(self.rt, held_for);
            let (gone, _) = self.let_go(gone, held, Way::Clock, owned);
            pass = gone;
            times.note(owned.wrapping_sub(asked));
            spend(self.rt, outside);
        }
        unreachable!()
    }

    /// Gets a permit of the semaphore and gives it back, so many times.
    pub fn take_permits(&self, mut pass: Pass<Number, N>, rounds: u64) -> Pass<Number, N>
        requires keys { (self.now.lot.now.locks ≡ 1) × (self.now.lot.now.conds ≡ 0) × (0 < self.now.lot.now.sems) }
        requires free { OwnsNone pass }
        ensures { OwnsNone result }
    {
        for _ in 0..rounds {
            let (holder, permit) = self.lot.acquire(self.rt, pass, SEM);
            let (freed, _) = self.lot.release(self.rt, holder, permit, NEVER_FAIR);
            pass = freed;
        }
        pass
    }
}
