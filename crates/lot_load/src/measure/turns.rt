//! Threads notify each other.
ghost use Rattle.std.specs.Prelude.{◌≡◌, ◌≤◌, ◌<◌, ◌+◌};
ghost use Rattle.lot_sync.specs.Lot.{OwnsNone, IsCond};
ghost use Rattle.lot_load.specs.Numbers.{HasNumber};

use super::clock::moment;
use super::fair::Way;
use super::member::Member;
use super::relay::Side;
use super::rounds::Random;
use super::value::Number;
use lot_sync::{Held, LotName, Moment, Pass};
use std::sync::Wait;
use std::time::Clock;

/// A moment at which nothing is handed over, unless the release is asked to be fair.
pub const NEVER_FAIR: Moment = Moment { now: 0, word: 0 };

/// What a thread waits for.
#[derive(Clone, Copy)]
pub enum Awaited {
    /// The buffer has a place for who puts, or something lies in it for who takes.
    Buffer(Side),
    /// The turn of this thread, of so many.
    Turn(u64, u64),
}

impl Awaited {
    /// Whether the number says that it is there.
    #[inline(always)]
    fn is_there(self, number: u64) -> bool {
        match self {
            Awaited::Buffer(side) => !side.has_to_wait(number),
            Awaited::Turn(worker, threads) => number % threads.max(1) == worker,
        }
    }
}

impl<N: LotName<Number> + Send, T: Wait + Clock> Member<'_, N, T> {
    /// Notifies one thread so many times, where nobody waits.
    pub fn notify(&self, mut pass: Pass<Number, N>, rounds: u64) -> Pass<Number, N>
        requires conds { 0 < self.now.lot.now.conds }
        requires free { OwnsNone pass }
        ensures { OwnsNone result }
    {
        let cond = self.lot.locks();
        for _ in 0..rounds {
            let (told, _) = self.lot.notify_one(self.rt, pass, cond, NEVER_FAIR);
            pass = told;
        }
        pass
    }

    /// Takes so many turns: the number says whose turn it is, each thread waits for its own on a condition of its own,
    /// and notifies the next.
    pub fn take_turns(&self, mut pass: Pass<Number, N>, rounds: u64) -> Pass<Number, N>
        requires locks { self.now.lot.now.locks ≡ 1 }
        requires worker { self.now.worker < self.now.lot.now.conds }
        requires free { OwnsNone pass }
        ensures { OwnsNone result }
    {
        let worker = self.worker;
        let threads = self.lot.conds();
        let next = if worker + 1 < threads { worker + 1 } else { 0 };
        let mut random = Random::new(worker);
        for _ in 0..rounds {
            let word = random.next();
            let turn = Awaited::Turn(worker as u64, threads as u64);
            let (owner, mut held) = self.get_when(pass, 1 + worker, word, turn);
            let number = held.value_mut();
            number.n = number.n.wrapping_add(1);
            let (owner, _) = self.let_go(owner, held, Way::Clock, word);
            let (told, _) = self.lot.notify_one(self.rt, owner, 1 + next, NEVER_FAIR);
            pass = told;
        }
        pass
    }

    /// Locks lock 0, and waits on the condition until what is awaited is there.
    pub fn get_when(
        &self,
        pass: Pass<Number, N>,
        cond: usize,
        word: u64,
        awaited: Awaited,
    ) -> (Pass<Number, N>, Held<Number, N>)
        requires locks { self.now.lot.now.locks ≡ 1 }
        requires cond { IsCond self.now.lot.now cond }
        requires free { OwnsNone pass }
        ensures { HasNumber result.0 result.1 }
    {
        let (mut pass, mut held) = self.lot.lock(self.rt, pass, 0);
        for _ in self.rt.forever() {
            if awaited.is_there(held.value().n) {
                return (pass, held);
            }
            let (woken, found) = self
                .lot
                .wait(self.rt, pass, held, cond, moment(self.rt, word));
            pass = woken;
            held = found;
        }
        unreachable!()
    }
}
