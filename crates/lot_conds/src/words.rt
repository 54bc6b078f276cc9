//! The table of condition words.
ghost use Rattle.std.specs.Prelude.{◌≡◌, ◌<◌, ◌≤◌, ℕ, ◌^◌};
ghost use Rattle.lot_core.specs.declared.state.TheConstants.{MAX_THREADS};
ghost use Rattle.lot_rights.specs.declared.layout.TheConstants.{MOST_KEYS};
ghost use Rattle.lot_rights.specs.Layout.{word_at};
ghost use Rattle.lot_conds.specs.Rule.{key_count};

use crate::kind::Conditions;
use lot_rights::{OfOpening, WordsOf};
use std::marker::Model;

/// The flag of a condition on which nobody waits, but threads that another is about to sweep.
pub const CLEAR: u64 = 0;

/// The flag of a condition on which threads may wait.
pub const HAS_WAITERS: u64 = 1;

/// The words of all conditions and the letters of all threads, under the condition rule.
///
/// A word's place tells whose it is, so the places of the locks' numbers, which come before the conditions', are not
/// used.
pub struct CondWords {
    pub(crate) words: WordsOf<Conditions>,
    pub(crate) ghost some: { 0 < words.key.threads },
    pub(crate) ghost few: { (words.key.threads ≤ MAX_THREADS) × (key_count words.key ≤ MOST_KEYS) },
    pub(crate) ghost no_slots: { words.table.slots ≡ 0 },
    pub(crate) ghost near: { (k : ℕ) → k < key_count words.key → word_at k < words.table.words },
    pub(crate) ghost small: { words.table.words < 2 ^ 64 },
}

impl Model for CondWords {
    ghost use Rattle.lot_conds.specs.Shown.{CondWordsShown};

    ghost Value = { CondWordsShown };

    ghost view = { λ s. record { table = s.words.table; size = s.words.key } };
}

impl OfOpening for CondWords {
    ghost use Rattle.std.specs.Prelude.{◌≡◌};

    ghost is_of = { λ o p. p.table ≡ o.conds };
}
