//! The table of lock words.
ghost use Rattle.std.specs.Prelude.{◌≡◌, ◌<◌, ◌≤◌, vec_len, vec_capacity, ℕ, ◌^◌};
ghost use Rattle.lot_core.specs.declared.state.TheConstants.{MAX_THREADS};
ghost use Rattle.lot_rights.specs.declared.layout.TheConstants.{MOST_KEYS};
ghost use Rattle.lot_rights.specs.Layout.{word_at};

use crate::exclusive::Exclusive;
use crate::keeps::Keeps;
use crate::kind::Locks;
use lot_rights::{OfOpening, WordsOf};
use std::marker::Model;

/// The word of a lock that nobody has, and on which nobody is marked as parked.
pub const UNHELD: u64 = 0;

/// The word of a lock that a thread has, and the bit that says so.
pub const HELD: u64 = 1;

/// The word of a lock that nobody has, and on which threads are marked as parked, and the bit that says so.
pub const PARKED: u64 = 2;

/// The word of a lock that a thread has, and on which threads are marked as parked.
pub const HELD_AND_PARKED: u64 = 3;

/// The words of all locks, the letters of all threads, and a slot for each lock's value, under the lock rule.
pub struct LockWords<V: Keeps> {
    pub(crate) words: WordsOf<Locks<V>>,
    // `close` puts the values here.
    pub(crate) room: Exclusive<Vec<V>>,
    pub(crate) ghost some: { 0 < words.key.size.threads },
    pub(crate) ghost few: { (words.key.size.threads ≤ MAX_THREADS) × (words.key.size.locks ≤ MOST_KEYS) },
    pub(crate) ghost near: { (k : ℕ) → k < words.key.size.locks → word_at k < words.table.words },
    pub(crate) ghost small: { words.table.words < 2 ^ 64 },
    pub(crate) ghost slots_are: { words.table.slots ≡ words.key.size.locks },
    pub(crate) ghost room_fits: { (vec_len room.value ≡ 0) × (words.key.size.locks ≤ vec_capacity room.value) },
}

impl<V: Keeps> Model for LockWords<V> {
    ghost use Rattle.lot_words.specs.Shown.{LockWordsShown};

    ghost Value = { LockWordsShown V };

    ghost view = { λ s. record {
      table = s.words.table;
      size = s.words.key.size;
      values = s.words.key.values.value.items;
    } };
}

impl<V: Keeps> OfOpening for LockWords<V> {
    ghost use Rattle.std.specs.Prelude.{◌≡◌};

    ghost is_of = { λ o p. p.table ≡ o.locks };
}
