//! Rounds of which each wait is counted by its length, with each way of letting a lock go.
ghost use Rattle.std.specs.Prelude.{◌≡◌, ◌≢◌, ◌<◌};
ghost use Rattle.lot_sync.specs.Lot.{◌≈◌, Owns, OwnsNone, HasShape, letting_go};

use super::clock::{moment, now, spend};
use super::member::Member;
use super::rounds::{Random, key_of};
use super::times::Times;
use super::turns::NEVER_FAIR;
use super::value::Number;
use lot_sync::{Held, LotName, Pass, Released};
use std::sync::Wait;
use std::time::Clock;

/// When an unlock hands the lock to the first of its line.
#[derive(Clone, Copy)]
pub enum Way {
    /// Where the line's next fair moment is over by the clock.
    Clock,
    /// At no time.
    Never,
    /// Each time.
    Always,
}

/// How many nanoseconds a lock is held, how many go by outside, for how many milliseconds, and how it is let go.
#[derive(Clone, Copy)]
pub struct Fairness {
    pub held: u64,
    pub outside: u64,
    pub millis: u64,
    pub way: Way,
}

impl<N: LotName<Number> + Send, T: Wait + Clock> Member<'_, N, T> {
    /// Rounds on locks by chance until the time is over, and how many they were. Counts each wait by its length.
    pub fn fair(
        &self,
        mut pass: Pass<Number, N>,
        fairness: &Fairness,
        times: &mut Times,
    ) -> (Pass<Number, N>, u64)
        requires free { OwnsNone pass }
        ensures { OwnsNone result.0 }
    {
        let locks = self.lot.locks();
        let mut random = Random::new(self.worker);
        let mut rounds = 0u64;
        for _ in self.rt.forever() {
            if self.meeting.is_over() {
                return (pass, rounds);
            }
            let word = random.next();
            let asked = now(self.rt);
            let (owner, mut held) = self.lot.lock(self.rt, pass, key_of(word, locks));
            let owned = now(self.rt);
            let number = held.value_mut();
            number.n = number.n.wrapping_add(1);
            spend(self.rt, fairness.held);
            let (free, _) = self.let_go(owner, held, fairness.way, word);
            pass = free;
            times.weigh(owned.wrapping_sub(asked));
            rounds = rounds.wrapping_add(1);
            spend(self.rt, fairness.outside);
        }
        unreachable!()
    }

    /// Lets the lock go in this way.
    #[inline(always)]
    pub fn let_go(
        &self,
        pass: Pass<Number, N>,
        held: Held<Number, N>,
        way: Way,
        word: u64,
    ) -> (Pass<Number, N>, Released)
        requires key { held.key < self.now.lot.now.locks }
        requires owns { Owns pass held.key }
        ensures pass { result.0 ≈ letting_go pass held.key held.value }
        ensures shape { HasShape self.now.lot.now result.0 }
        ensures never { way ≡ Way.Never → result.1 ≢ Released.Handed }
        ensures always { way ≡ Way.Always → result.1 ≢ Released.Woke }
    {
        match way {
            Way::Clock => self
                .lot
                .unlock_asking(self.rt, pass, held, || moment(self.rt, word)),
            Way::Never => self.lot.unlock(self.rt, pass, held, NEVER_FAIR),
            Way::Always => self.lot.unlock_fairly(self.rt, pass, held, NEVER_FAIR),
        }
    }
}
