//! How often a wait took how long: a thousand classes of times, each a sixteenth wide or less.
ghost use Rattle.std.specs.Prelude.{◌≡◌, ◌<◌, vec_len, sum};
ghost use Rattle.lot_load.specs.Classes.{IsClassOf, IsLeastOf};
ghost use Rattle.lot_load.specs.declared.measure.times.TheConstants.{CLASSES};

use std::alloc::{AllocError, Global};

/// How many classes there are.
const CLASSES: usize = 976;

/// What is counted of times, by class.
#[derive(Drop)]
pub struct Times {
    counts: Vec<u64>,
    all: u64,
    most: u64,
    ghost long: { vec_len counts ≡ CLASSES },
    ghost whole: { sum counts.items ≡ all },
}

/// The class of so many nanoseconds: the five bits from the highest one on, sixteen classes to each doubling.
fn class_of(nanos: u64) -> usize
    ensures near { result < CLASSES }
    ensures class { IsClassOf nanos result }
{
    let mut bits = nanos;
    for rest in 0..60usize {
        if bits < 32 {
            return 16 * rest + bits as usize;
        }
        bits /= 2;
    }
    unreachable!()
}

/// The least time of a class.
fn least_of(class: usize) -> u64
    requires { class < CLASSES }
    ensures { IsLeastOf class result }
{
    if class < 32 {
        return class as u64;
    }
    let bits = (class % 16 + 16) as u64;
    bits << (class / 16 - 1)
}

impl Times {
    ghost use Rattle.std.specs.Prelude.{◌+◌, ◌-◌, ◌^◌, ◌≤◌, min, max, IfOk};
    ghost use Rattle.lot_load.specs.Times.{CountsIn, CountsMore, IsPart};

    pub fn new(alloc: Global) -> Result<Times, AllocError>
        ensures { IfOk result (λ times. (times.all ≡ 0) × (times.most ≡ 0)) }
    {
        Ok(Times {
            counts: vec![in alloc; 0u64; CLASSES]?,
            all: 0,
            most: 0,
        })
    }

    /// Counts one time.
    pub fn note(&mut self, nanos: u64)
        ensures { CountsMore self.old nanos 1 self.new }
    {
        self.count_in(class_of(nanos), 1);
        self.most = self.most.max(nanos);
    }

    /// Counts one time as often as it has nanoseconds: so `part` answers for a moment of waiting that is drawn by
    /// chance, and tells how long the wait is in all that it belongs to.
    pub fn weigh(&mut self, nanos: u64)
        ensures { CountsMore self.old nanos nanos self.new }
    {
        self.count_in(class_of(nanos), nanos);
        self.most = self.most.max(nanos);
    }

    /// Counts so many more in a class, up to the greatest number of all.
    fn count_in(&mut self, class: usize, more: u64)
        requires { class < CLASSES }
        ensures { CountsIn self.old class more self.new }
    {
        let more = more.min(u64::MAX - self.all);
        self.counts[class] += more;
        self.all += more;
    }

    /// Counts all that the other counts.
    pub fn add(&mut self, other: &Times)
        ensures all { self.new.all ≡ min (self.old.all + other.now.all) (2 ^ 64 - 1) }
        ensures most { self.new.most ≡ max self.old.most other.now.most }
    {
        for class in 0..CLASSES {
            self.count_in(class, other.counts[class]);
        }
        self.most = self.most.max(other.most);
    }

    /// How many were counted.
    pub fn count(&self) -> u64
        ensures { result ≡ self.now.all }
    {
        self.all
    }

    /// The time that so many of a thousand don't pass, as the least of its class; the longest where none was counted.
    pub fn part(&self, of_thousand: u64) -> u64
        requires { of_thousand ≤ 1000 }
        ensures none { self.now.all ≡ 0 → result ≡ self.now.most }
        ensures some { 0 < self.now.all → IsPart self.now of_thousand result }
    {
        let wanted = (self.all.saturating_mul(of_thousand) / 1000).max(1);
        let mut seen = 0u64;
        for class in 0..CLASSES {
            seen += self.counts[class];
            if seen >= wanted {
                return least_of(class);
            }
        }
        self.most
    }

    /// The longest time.
    pub fn most(&self) -> u64
        ensures { result ≡ self.now.most }
    {
        self.most
    }
}
