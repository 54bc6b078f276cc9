//! Where the words of a table lie.
ghost use Rattle.std.specs.Prelude.{◌≡◌, ◌^◌, ◌<◌};
ghost use Rattle.lot_rights.specs.Layout.{word_at, letter_at, word_count};

use lot_core::MAX_KEYS;

/// How many keys a table can be made for: a limit of its own, far beyond [`MAX_KEYS`], which is that of a state of the
/// model, of scripts and of the openings that keep to it.
pub const MOST_KEYS: usize = 16_777_216;

/// The word that nobody writes: joins and splits of seats load it, and so do the moves of values.
pub(crate) const SPARE_WORD: usize = 0;

/// How many words a table of at most [`MAX_KEYS`] keys takes, at most, for as many threads as a lot can have.
pub(crate) const MOST_WORDS: usize = 2 * MAX_KEYS + 16;

/// The place of a key's word: two words from one key to the next, and the first one past the line of the spare word.
#[tactic(auto, unfolding(crate::specs::Layout::word_at))]
#[inline(always)]
pub fn word_of_key(key: usize) -> usize
    requires { word_at key < 2 ^ 64 }
    ensures { result ≡ word_at key }
{
    2 * key + 8
}

/// The place of a thread's letter: the last word of a line, past the line of the first keys, which have no letter
/// beside them.
#[inline(always)]
pub(crate) fn letter_of_thread(thread: usize) -> usize
    requires { letter_at thread < 2 ^ 64 }
    ensures { result ≡ letter_at thread }
{
    8 * thread + 23
}

/// How many words a table of so many threads has, in which all keys lie below `keys`.
pub fn words_for(threads: usize, keys: usize) -> usize
    requires threads { threads < 2 ^ 32 }
    requires keys { keys < 2 ^ 32 }
    ensures { result ≡ word_count threads keys }
{
    (2 * keys).max(8 * threads + 8) + 8
}
