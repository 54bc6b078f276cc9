//! How long a thread leaves a word alone before it tries or looks again, and how often it yields before it parks.
ghost use Rattle.std.specs.Prelude.{◌≡◌, ◌<◌, ◌≤◌, ◌↔◌, ◌+◌, min, false, IsTrue};
ghost use Rattle.lot_seeking.specs.declared.spins.TheConstants.{MOST_SPINS, BESIDE_ONE, BESIDE_TWO, IN_A_CROWD};
ghost use Rattle.lot_seeking.specs.declared.spins.TheConstants.{EARLY_YIELDS, BETWEEN_LATE_LOOKS};

use std::{hint, thread};

/// How often a thread that has missed what it seeks tries again before it yields, where nobody is counted as seeking.
pub(crate) const TRIES_ALONE: u32 = 2;

/// How often the processor pauses before each of these tries, to leave the word's line of the cache to the owner for a
/// short section.
const PAUSES: u32 = 8;

/// How often one call yields before it parks, at most: as WTF's `Lock`.
const MOST_SPINS: u32 = 40;

/// How often it yields before it tries again where one other seeks too. A thread that seeks alone looks at once.
const BESIDE_ONE: u32 = 8;

/// How often where two others do: each try takes the word's line of the cache from its owner, so an early one makes the
/// rounds of all others longer.
const BESIDE_TWO: u32 = 20;

/// How often where more do, so that most of them sleep.
const IN_A_CROWD: u32 = 8;

/// After so many yields a thread that seeks alone yields more often than once between two looks, since its looks make
/// the owner's rounds longer.
const EARLY_YIELDS: u32 = 4;

/// How often it yields between two looks then.
const BETWEEN_LATE_LOOKS: u32 = 2;

/// Leaves the word alone for a moment.
pub(crate) fn pause() {
    for _ in 0..PAUSES {
        hint::spin_loop();
    }
}

/// How often one call has yielded so far, at most 40 times; how often it yields before it tries or looks next; and
/// whether nobody else sought as it began.
#[derive(Clone, Copy)]
pub(crate) struct Spins {
    made: u32,
    before_next: u32,
    is_alone: bool,
    ghost few: { made ≤ MOST_SPINS },
    ghost next: { before_next ≤ MOST_SPINS },
}

impl Spins {
    /// It has not yielded, and so many other threads seek.
    pub(crate) fn among(others: usize) -> Spins
        ensures none { result.made ≡ 0 }
        ensures alone { others ≡ 0 → result.before_next ≡ 0 }
        ensures one { others ≡ 1 → result.before_next ≡ BESIDE_ONE }
        ensures two { others ≡ 2 → result.before_next ≡ BESIDE_TWO }
        ensures many { 2 < others → result.before_next ≡ IN_A_CROWD }
        ensures is_alone { IsTrue result.is_alone ↔ (others ≡ 0) }
    {
        let before_next = match others {
            0 => 0,
            1 => BESIDE_ONE,
            2 => BESIDE_TWO,
            _ => IN_A_CROWD,
        };
        Spins {
            made: 0,
            before_next,
            is_alone: others == 0,
        }
    }

    /// Whether it may yield again.
    pub(crate) fn has_more(self) -> bool
        ensures { IsTrue result ↔ (self.made < MOST_SPINS) }
    {
        self.made < MOST_SPINS
    }

    /// Whether nobody else sought as it began.
    pub(crate) fn is_alone(self) -> bool
        ensures { result ≡ self.is_alone }
    {
        self.is_alone
    }

    /// Yields until it is time to try or look again.
    pub(crate) fn back_off(&mut self)
        ensures made { self.new.made ≡ min MOST_SPINS (self.old.made + self.old.before_next) }
        ensures early { self.new.made < EARLY_YIELDS → self.new.before_next ≡ 1 }
        ensures late { IsTrue self.old.is_alone → EARLY_YIELDS ≤ self.new.made → self.new.before_next ≡ BETWEEN_LATE_LOOKS }
        ensures beside { self.old.is_alone ≡ false → self.new.before_next ≡ 1 }
        ensures alone { self.new.is_alone ≡ self.old.is_alone }
    {
        let end = MOST_SPINS.min(self.made + self.before_next);
        for _ in self.made..end {
            thread::yield_now();
        }
        self.made = end;
        self.before_next = if self.is_alone && end >= EARLY_YIELDS {
            BETWEEN_LATE_LOOKS
        } else {
            1
        };
    }
}
