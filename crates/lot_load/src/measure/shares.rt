//! How evenly the threads of a crew share the rounds.
ghost use Rattle.std.specs.Prelude.{◌≡◌, ◌*◌, ◌/◌, ◌^◌, ◌-◌, ◌≤◌, min, max};
ghost use Rattle.lot_core.specs.declared.state.TheConstants.{MAX_THREADS};
ghost use Rattle.lot_load.specs.declared.measure.shares.TheConstants.{PARTS};

use lot_sync::MAX_THREADS;

/// A thread's share is so many parts where it made all the rounds.
const PARTS: u64 = 500_000;

/// How many shares there are, their sum, the sum of their squares, the least and the greatest.
#[derive(Clone, Copy)]
pub struct Shares {
    count: u64,
    sum: u64,
    squares: u64,
    least: u64,
    most: u64,
    ghost few: { count ≤ MAX_THREADS },
    ghost small: { (sum ≤ count * PARTS) × (squares ≤ count * (PARTS * PARTS)) },
    ghost within: { (least ≤ PARTS) × (most ≤ PARTS) },
    ghost square_of_sum: { sum * sum ≤ count * squares },
}

impl Shares {
    ghost use Rattle.std.specs.Prelude.{◌+◌, ◌/◌, ◌<◌};
    ghost use Rattle.lot_load.specs.Shares.{part_of, HasShare};

    pub fn new() -> Shares
        ensures { (result.count ≡ 0) × (result.sum ≡ 0) × (result.squares ≡ 0) × (result.least ≡ PARTS)
            × (result.most ≡ 0) }
    {
        Shares {
            count: 0,
            sum: 0,
            squares: 0,
            least: PARTS,
            most: 0,
        }
    }

    /// Counts in the share of a thread that made so many of all rounds, where there is room for one.
    pub fn note(&mut self, rounds: u64, all: u64)
        ensures noted { self.old.count < MAX_THREADS → HasShare self.old (part_of rounds all) self.new }
        ensures full { self.old.count ≡ MAX_THREADS → self.new ≡ self.old }
    {
        let count = self.count;
        if count >= MAX_THREADS as u64 {
            return;
        }
        let part = part(rounds, all);
        *self = Shares {
            count: count + 1,
            sum: self.sum + part,
            squares: self.squares + part * part,
            least: self.least.min(part),
            most: self.most.max(part),
        };
    }

    /// The least share, in thousandths of the mean.
    pub fn least(&self) -> u64
        ensures { 0 < self.now.sum → result ≡ self.now.least * self.now.count * 1000 / self.now.sum }
    {
        self.of_mean(self.least)
    }

    /// The greatest share, in thousandths of the mean.
    pub fn most(&self) -> u64
        ensures { 0 < self.now.sum → result ≡ self.now.most * self.now.count * 1000 / self.now.sum }
    {
        self.of_mean(self.most)
    }

    /// A share in thousandths of the mean; 0 where nobody made a round.
    fn of_mean(&self, part: u64) -> u64
        requires { part ≤ PARTS }
        ensures some { 0 < self.now.sum → result ≡ part * self.now.count * 1000 / self.now.sum }
        ensures none { self.now.sum ≡ 0 → result ≡ 0 }
    {
        let sum = self.sum;
        if sum == 0 {
            return 0;
        }
        part * self.count * 1000 / sum
    }

    /// Jain's index in thousandths: the square of the sum, over the sum of the squares and the count. It is 1000 where
    /// all shares are the same, and 1000 over the count where one thread made all the rounds; 0 where nobody made one.
    pub fn jain(&self) -> u64
        ensures most { result ≤ 1000 }
        ensures some { 0 < self.now.squares
            → result ≡ 1000 * (self.now.sum * self.now.sum) / (self.now.count * self.now.squares) }
        ensures none { self.now.squares ≡ 0 → result ≡ 0 }
    {
        let squares = self.squares;
        if squares == 0 {
            return 0;
        }
        1000 * (self.sum * self.sum) / (self.count * squares)
    }
}

/// The parts of a thread that made so many of all rounds.
fn part(rounds: u64, all: u64) -> u64
    ensures { result ≡ min (min (rounds * PARTS) (2 ^ 64 - 1) / max all 1) PARTS }
{
    (rounds.saturating_mul(PARTS) / all.max(1)).min(PARTS)
}
