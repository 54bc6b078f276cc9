//! Producers put into a buffer and consumers take from it. The buffer is a number: how many lie there.
ghost use Rattle.std.specs.Prelude.{◌≡◌, ◌≤◌, ◌<◌};
ghost use Rattle.lot_sync.specs.Lot.{OwnsNone};

use super::fair::Way;
use super::member::Member;
use super::rounds::Random;
use super::turns::{Awaited, NEVER_FAIR};
use super::value::Number;
use lot_sync::{LotName, Pass};
use std::sync::Wait;
use std::time::Clock;

/// The condition on which producers wait.
const NOT_FULL: usize = 1;

/// The condition on which consumers wait.
const NOT_EMPTY: usize = 2;

/// How many the buffer has room for.
const PLACES: u64 = 16;

/// What a thread of a relay does with the buffer.
#[derive(Clone, Copy)]
pub enum Side {
    /// It puts.
    Producer,
    /// It takes.
    Consumer,
}

impl Side {
    /// The condition on which it waits.
    fn waits_on(self) -> usize
        ensures { (1 ≤ result) × (result < 3) }
    {
        match self {
            Side::Producer => NOT_FULL,
            Side::Consumer => NOT_EMPTY,
        }
    }

    /// The condition on which the others wait.
    fn tells(self) -> usize
        ensures { (1 ≤ result) × (result < 3) }
    {
        match self {
            Side::Producer => NOT_EMPTY,
            Side::Consumer => NOT_FULL,
        }
    }

    /// Whether it has to wait where so many lie in the buffer.
    pub fn has_to_wait(self, lie: u64) -> bool {
        match self {
            Side::Producer => lie >= PLACES,
            Side::Consumer => lie == 0,
        }
    }

    /// How many lie in the buffer after it.
    fn leaves(self, lie: u64) -> u64 {
        match self {
            Side::Producer => lie.wrapping_add(1),
            Side::Consumer => lie.wrapping_sub(1),
        }
    }
}

impl<N: LotName<Number> + Send, T: Wait + Clock> Member<'_, N, T> {
    /// Puts or takes so many times.
    pub fn take_part(&self, side: Side, mut pass: Pass<Number, N>, rounds: u64) -> Pass<Number, N>
        requires keys { (self.now.lot.now.locks ≡ 1) × (self.now.lot.now.conds ≡ 2) }
        requires free { OwnsNone pass }
        ensures { OwnsNone result }
    {
        let mut random = Random::new(self.worker);
        for _ in 0..rounds {
            let word = random.next();
            let awaited = Awaited::Buffer(side);
            let (owner, mut held) = self.get_when(pass, side.waits_on(), word, awaited);
            let number = held.value_mut();
            number.n = side.leaves(number.n);
            let (owner, _) = self.let_go(owner, held, Way::Clock, word);
            let (told, _) = self
                .lot
                .notify_one(self.rt, owner, side.tells(), NEVER_FAIR);
            pass = told;
        }
        pass
    }
}
