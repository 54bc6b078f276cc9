//! What the lock of `relay` guards: a buffer of four places.
ghost use Rattle.std.specs.Prelude.{◌≡◌, ◌↔◌, ◌<◌, ◌+◌, [], length, IsTrue, MatchBool};
ghost use Rattle.lot_load.specs.Buffers.{IsFilled, HasMoved, IsPut, TakesAs, most};

use arrayvec::ArrayVec;
use lot_words::Keeps;

/// The numbers that lie in the buffer, in the order in which they were put, and what was ever put and taken.
#[derive(Drop)]
pub struct Buffer {
    pub places: ArrayVec<u64, 4>,
    /// How many numbers were put.
    pub put: u64,
    /// How many of them were taken.
    pub taken: u64,
    /// The sum of those that were taken.
    pub sum: u64,
}

impl Keeps for Buffer {
    ghost use Rattle.lot_load.specs.Growing.{neither_falls_itself, neither_falls_on};
    ghost use Rattle.lot_load.specs.Buffers.{IsFilled, HasMoved};

    type Part = ();

    ghost keeps = { λ key buffer. IsFilled buffer };

    ghost grows = { HasMoved };

    ghost part = { λ thread buffer. tt };

    ghost grows_itself = { neither_falls_itself (λ buffer. buffer.put) (λ buffer. buffer.taken) };

    ghost grows_on = { neither_falls_on (λ buffer. buffer.put) (λ buffer. buffer.taken) };
}

/// What a `take` answers.
#[derive(Clone, Copy)]
pub enum TakenNumber {
    /// The number that lay longest.
    Got(u64),
    /// Nothing lay there.
    Empty,
    /// The sum would pass 2^64 - 1.
    TooMuch,
}

impl Buffer {
    /// Nothing was put yet.
    pub fn new() -> Buffer
        ensures empty { (result.places.items ≡ []) × (result.put ≡ 0) × (result.taken ≡ 0) × (result.sum ≡ 0) }
        ensures kept { IsFilled result }
    {
        Buffer {
            places: ArrayVec::new(),
            put: 0,
            taken: 0,
            sum: 0,
        }
    }

    /// Whether there is no place for one more.
    pub fn is_full(&self) -> bool
        ensures { IsTrue result ↔ (length self.now.places.items ≡ 4) }
    {
        self.places.is_full()
    }

    /// Whether nothing lies there.
    pub fn is_empty(&self) -> bool
        ensures { IsTrue result ↔ (length self.now.places.items ≡ 0) }
    {
        self.places.is_empty()
    }

    /// Puts the number behind all that lie there. False, with nothing changed, where all places are taken, or where one
    /// more could not be counted.
    pub fn put(&mut self, n: u64) -> bool
        requires { IsFilled self.old }
        ensures put { MatchBool result (IsPut self.old n self.new) (self.new ≡ self.old) }
        ensures variant { IsTrue result ↔ (length self.old.places.items < 4) × (self.old.put < most) }
        ensures kept { IsFilled self.new }
        ensures moved { HasMoved self.old self.new }
    {
        let Some(put) = self.put.checked_add(1) else {
            return false;
        };
        if self.places.try_push(n).is_err() {
            return false;
        }
        self.put = put;
        true
    }

    /// Takes the number that lay longest. Where it answers none, nothing is changed.
    pub fn take(&mut self) -> TakenNumber
        requires { IsFilled self.old }
        ensures answer { TakesAs self.old result self.new }
        ensures kept { IsFilled self.new }
        ensures moved { HasMoved self.old self.new }
    {
        let n = match self.places.as_slice().first() {
            Some(n) => *n,
            None => return TakenNumber::Empty,
        };
        let Some(sum) = self.sum.checked_add(n) else {
            return TakenNumber::TooMuch;
        };
        self.places.remove(0);
        self.taken += 1;
        self.sum = sum;
        TakenNumber::Got(n)
    }
}
