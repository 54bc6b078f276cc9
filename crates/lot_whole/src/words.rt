//! The table of a lot.
ghost use Rattle.std.specs.Prelude.{◌≡◌, ◌<◌, ◌≤◌, vec_len, vec_capacity, ℕ, ◌^◌};
ghost use Rattle.lot_core.specs.declared.state.TheConstants.{MAX_THREADS};
ghost use Rattle.lot_rights.specs.declared.layout.TheConstants.{MOST_KEYS};
ghost use Rattle.lot_rights.specs.Layout.{word_at};
ghost use Rattle.lot_whole.specs.Family.{key_count};
ghost use Rattle.lot_whole.specs.Rule.{size_of};

use crate::kind::WholeLot;
use lot_rights::{OfOpening, WordsOf};
use lot_words::Keeps;
use lot_words::exclusive::Exclusive;
use std::marker::Model;

// What the words of a lock, a condition and a semaphore are, as in the tables of one kind.
pub(crate) use lot_conds::{CLEAR, HAS_WAITERS};
pub(crate) use lot_sems::{NONE_LEFT, PARKED as SEM_PARKED, PERMIT};
pub(crate) use lot_words::{HELD, HELD_AND_PARKED, PARKED as LOCK_PARKED, UNHELD};

/// The words of all locks, conditions and semaphores, the letters of all threads, and a slot for each lock's value,
/// under one rule.
pub struct LotWords<V: Keeps> {
    pub(crate) words: WordsOf<WholeLot<V>>,
    // `close` puts the values here.
    pub(crate) room: Exclusive<Vec<V>>,
    pub(crate) ghost some: { 0 < words.key.threads },
    pub(crate) ghost few: { (words.key.threads ≤ MAX_THREADS) × (key_count (size_of words.key) ≤ MOST_KEYS) },
    pub(crate) ghost near: { (k : ℕ) → k < key_count (size_of words.key) → word_at k < words.table.words },
    pub(crate) ghost small: { words.table.words < 2 ^ 64 },
    pub(crate) ghost slots_are: { words.table.slots ≡ words.key.locks },
    pub(crate) ghost room_fits: { (vec_len room.value ≡ 0) × (words.key.locks ≤ vec_capacity room.value) },
}

impl<V: Keeps> Model for LotWords<V> {
    ghost use Rattle.lot_whole.specs.Rule.{size_of};
    ghost use Rattle.lot_whole.specs.Shown.{LotWordsShown};

    ghost Value = { LotWordsShown V };

    ghost view = { λ s. record {
      table = s.words.table;
      size = size_of s.words.key;
      values =
          s.words.key.values.value.items;
    } };
}

impl<V: Keeps> OfOpening for LotWords<V> {
    ghost use Rattle.std.specs.Prelude.{◌≡◌};

    ghost is_of = { λ o p. p.table ≡ o.locks };
}
