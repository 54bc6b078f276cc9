//! Opening: all memory first, then the table, then a pass for each thread and a root for each key.
ghost use Rattle.std.specs.Prelude.{◌≡◌, ℕ, ◌+◌, ◌^◌, ◌<◌, ◌≤◌, ◌++◌, [], Some, slice_get, replicate, length, vec_len};
ghost use Rattle.std.specs.Prelude.{vec_capacity, IfOk, IfErr};
ghost use Rattle.lot_rights.specs.Layout.{word_at, letter_at, word_count};
ghost use Rattle.lot_rights.specs.Start.{passes_from, roots_from, pass_at, root_at, OpensWell, Begins};

use crate::kind::{Kind, RightsSeat, RightsShared};
use crate::layout::{MOST_WORDS, words_for};
use crate::rights::{Numbering, PassOf, RootAt};
use crate::tells::Deal;
use crate::words::WordsOf;
use atomic_table::{Refused, Table};
use std::alloc::{AllocError, Global};

/// The words of a table at its opening, for as many threads as a lot can have and as many keys as a state of the model:
/// so none are made only to be copied. A table of more keys makes its own.
static ZEROS: [u64; MOST_WORDS] = [0; MOST_WORDS];

/// So many words that are all 0.
fn zeros(count: usize) -> &'static [u64]
    requires { count ≤ MOST_WORDS }
    ensures { result.now ≡ replicate count 0 }
{
    &ZEROS[..count]
}

/// Gives each thread its pass.
fn deal_passes<K: Kind>(
    shared: &RightsShared<K>,
    seat: &mut RightsSeat<K>,
    threads: usize,
    passes: &mut Vec<PassOf<K>>,
)
    requires table { (seat.old.table_id ≡ shared.now.table_id) × (0 < shared.now.table_id.words)
        × (shared.now.table_id.words < 2 ^ 64) }
    requires near { (t : ℕ) → t < threads → letter_at t < shared.now.table_id.words }
    requires all { seat.old.me
        ≡ (
          passes_from (K.meaning shared.now.key) 0 threads
              ++ roots_from (K.meaning shared.now.key) (K.meaning shared.now.key).first_key
              (K.meaning shared.now.key).keys,
          [],
        ) }
    requires room { (vec_len passes.old ≡ 0) × (threads ≤ vec_capacity passes.old) }
    ensures table { seat.new.table_id ≡ shared.now.table_id }
    ensures rest { seat.new.me
        ≡ (
          roots_from (K.meaning shared.now.key) (K.meaning shared.now.key).first_key (K.meaning shared.now.key).keys,
          [],
        ) }
    ensures len { vec_len passes.new ≡ threads }
    ensures each { (k : ℕ) → k < threads → slice_get passes.new.items k
        ≡ Some (pass_at (K.meaning shared.now.key) shared.now.table_id k) }
{
    for thread in 0..threads {
        let own = shared.split_seat::<Deal>(seat);
        passes.push_reserved(PassOf { seat: own, thread });
    }
}

/// Gives each key its root. The keys' numbers begin at `first`.
fn deal_roots<K: Kind, A: Numbering>(
    shared: &RightsShared<K>,
    seat: &mut RightsSeat<K>,
    first: usize,
    keys: usize,
    roots: &mut Vec<RootAt<K, A>>,
)
    requires table { (seat.old.table_id ≡ shared.now.table_id) × (0 < shared.now.table_id.words)
        × (shared.now.table_id.words < 2 ^ 64) }
    requires few { first + keys < 2 ^ 32 }
    requires near { (c : ℕ) → c < first + keys → word_at c < shared.now.table_id.words }
    requires calm { (c u : ℕ) → ¬ K.names ((K.meaning shared.now.key).fresh_root c) u }
    requires all { seat.old.me ≡ (roots_from (K.meaning shared.now.key) first keys, []) }
    requires room { (vec_len roots.old ≡ 0) × (keys ≤ vec_capacity roots.old) }
    ensures len { vec_len roots.new ≡ keys }
    ensures each { (k : ℕ) → k < keys → slice_get roots.new.items k
        ≡ Some (root_at (K.meaning shared.now.key) shared.now.table_id (first + k)) }
{
    for i in 0..keys {
        let own = shared.split_seat::<Deal>(seat);
        let key = first + i;
        roots.push_reserved(RootAt {
            seat: own,
            number: A::of(key),
        });
    }
}

/// The memory of a table's rights, before anything lies in it: for the passes and for the roots.
fn rooms<K: Kind, A: Numbering>(
    alloc: Global,
    threads: usize,
    keys: usize,
) -> Result<(Vec<PassOf<K>>, Vec<RootAt<K, A>>), AllocError>
    ensures empty { IfOk result (λ r. (vec_len r.0 ≡ 0) × (vec_len r.1 ≡ 0)) }
    ensures fits { IfOk result (λ r. (threads ≤ vec_capacity r.0) × (keys ≤ vec_capacity r.1)) }
{
    let passes = Vec::with_capacity(alloc, threads)?;
    match Vec::with_capacity(alloc, keys) {
        Ok(roots) => Ok((passes, roots)),
        Err(refused) => {
            passes.destroy_empty();
            Err(refused)
        }
    }
}

impl<K: Kind> WordsOf<K> {
    /// Opens a table with these slots, whose words are all 0. The answer has a pass for each thread and a root for each
    /// key, in order, where the keys begin at `first`. Where memory is refused, the slots come back.
    pub fn open<A: Numbering>(
        alloc: Global,
        key: &K::Key,
        slots: Vec<K::Slot>,
        threads: usize,
        first: usize,
        keys: usize,
    ) -> Result<(WordsOf<K>, Vec<PassOf<K>>, Vec<RootAt<K, A>>), Vec<K::Slot>>
        requires size { ((K.meaning key.now).threads ≡ threads) × ((K.meaning key.now).first_key ≡ first)
            × ((K.meaning key.now).keys ≡ keys) }
        requires few { (threads < 2 ^ 32) × (first + keys < 2 ^ 32) }
        requires calm { (c u : ℕ) → ¬ K.names ((K.meaning key.now).fresh_root c) u }
        requires opens { OpensWell (K.meaning key.now) (replicate (word_count threads (first + keys)) 0) slots.items }
        ensures table { IfOk result (λ r. (r.0.table.words ≡ word_count threads (first + keys))
            × (r.0.table.slots ≡ vec_len slots) × (r.0.key ≡ key.now)) }
        ensures near { IfOk result (λ r. (r.0.table.words < 2 ^ 64)
            × ((k : ℕ) → k < first + keys → word_at k < r.0.table.words)) }
        ensures passes { IfOk result (λ r. (vec_len r.1 ≡ threads)
            × ((k : ℕ) → k < threads → slice_get r.1.items k ≡ Some (pass_at (K.meaning key.now) r.0.table k))) }
        ensures roots { IfOk result (λ r. (vec_len r.2 ≡ keys)
            × ((k : ℕ) → k < keys → slice_get r.2.items k ≡ Some (root_at (K.meaning key.now) r.0.table (first + k)))) }
        ensures rule { IfOk result
            (λ r. Begins (K.meaning r.0.key) (replicate (word_count threads (first + keys)) 0) slots.items) }
        ensures back { IfErr result (λ e. e.items ≡ slots.items) }
    {
        let count = words_for(threads, first + keys);
        if count <= MOST_WORDS {
            return WordsOf::open_with(alloc, key, zeros(count), slots, threads, first, keys);
        }
        match vec![in alloc; 0; count] {
            Ok(words) => {
                WordsOf::open_with(alloc, key, words.as_slice(), slots, threads, first, keys)
            }
            Err(_) => Err(slots),
        }
    }

    /// Opens a table with these words and slots, as `open` does with words that are all 0.
    pub fn open_with<A: Numbering>(
        alloc: Global,
        key: &K::Key,
        words: &[u64],
        slots: Vec<K::Slot>,
        threads: usize,
        first: usize,
        keys: usize,
    ) -> Result<(WordsOf<K>, Vec<PassOf<K>>, Vec<RootAt<K, A>>), Vec<K::Slot>>
        requires size { ((K.meaning key.now).threads ≡ threads) × ((K.meaning key.now).first_key ≡ first)
            × ((K.meaning key.now).keys ≡ keys) }
        requires few { (threads < 2 ^ 32) × (first + keys < 2 ^ 32) }
        requires wide { length words.now ≡ word_count threads (first + keys) }
        requires calm { (c u : ℕ) → ¬ K.names ((K.meaning key.now).fresh_root c) u }
        requires opens { OpensWell (K.meaning key.now) words.now slots.items }
        ensures table { IfOk result (λ r. (r.0.table.words ≡ word_count threads (first + keys))
            × (r.0.table.slots ≡ vec_len slots) × (r.0.key ≡ key.now)) }
        ensures near { IfOk result (λ r. (r.0.table.words < 2 ^ 64)
            × ((k : ℕ) → k < first + keys → word_at k < r.0.table.words)) }
        ensures passes { IfOk result (λ r. (vec_len r.1 ≡ threads)
            × ((k : ℕ) → k < threads → slice_get r.1.items k ≡ Some (pass_at (K.meaning key.now) r.0.table k))) }
        ensures roots { IfOk result (λ r. (vec_len r.2 ≡ keys)
            × ((k : ℕ) → k < keys → slice_get r.2.items k ≡ Some (root_at (K.meaning key.now) r.0.table (first + k)))) }
        ensures rule { IfOk result (λ r. Begins (K.meaning r.0.key) words.now slots.items) }
        ensures back { IfErr result (λ e. e.items ≡ slots.items) }
    {
        let Ok((mut passes, mut roots)) = rooms(alloc, threads, keys) else {
            return Err(slots);
        };
        match Table::new(alloc, words, slots, key) {
            Ok((table, mut seat)) => {
                deal_passes(&table.shared, &mut seat, threads, &mut passes);
                deal_roots(&table.shared, &mut seat, first, keys, &mut roots);
                Ok((WordsOf { table }, passes, roots))
            }
            Err(Refused { slots }) => {
                passes.destroy_empty();
                Err(slots)
            }
        }
    }
}
