//! The table of semaphore words.
ghost use Rattle.std.specs.Prelude.{◌≡◌, ◌<◌, ◌≤◌, ℕ, ◌^◌};
ghost use Rattle.lot_core.specs.declared.state.TheConstants.{MAX_THREADS};
ghost use Rattle.lot_rights.specs.declared.layout.TheConstants.{MOST_KEYS};
ghost use Rattle.lot_rights.specs.Layout.{word_at};
ghost use Rattle.lot_sems.specs.World.{numbers, key_count};

use crate::kind::Semaphores;
use lot_rights::{OfOpening, WordsOf};
use std::marker::Model;

/// The word of a semaphore of which no permit is left, and on which nobody is marked as parked.
pub const NONE_LEFT: u64 = 0;

/// The word of a semaphore of which no permit is left, and on which threads are marked as parked; and the bit that says
/// so.
pub const PARKED: u64 = 1;

/// One permit, in a word.
pub const PERMIT: u64 = 2;

/// The words of all semaphores and the letters of all threads, under the semaphore rule.
///
/// A word's place tells whose it is, so the places of the numbers before the first semaphore's are not used.
pub struct SemWords {
    pub(crate) words: WordsOf<Semaphores>,
    pub(crate) ghost some: { 0 < words.key.threads },
    pub(crate) ghost few: { (words.key.threads ≤ MAX_THREADS) × (key_count (numbers words.key) ≤ MOST_KEYS) },
    pub(crate) ghost no_slots: { words.table.slots ≡ 0 },
    pub(crate) ghost near: { (k : ℕ) → k < key_count (numbers words.key) → word_at k < words.table.words },
    pub(crate) ghost small: { words.table.words < 2 ^ 64 },
}

impl Model for SemWords {
    ghost use Rattle.lot_sems.specs.World.{numbers};
    ghost use Rattle.lot_sems.specs.Shown.{SemWordsShown};

    ghost Value = { SemWordsShown };

    ghost view = { λ s. record { table = s.words.table; size = numbers s.words.key } };
}

impl OfOpening for SemWords {
    ghost use Rattle.std.specs.Prelude.{◌≡◌};

    ghost is_of = { λ o p. p.table ≡ o.sems };
}
