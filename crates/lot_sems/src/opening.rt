//! Opening: the table, a pass for each thread and a root for each semaphore.
ghost use Rattle.std.specs.Prelude.{◌≡◌, ℕ, ◌+◌, ◌^◌, ◌<◌, ◌≤◌, [], Some, slice_get, slice_index, vec_len, IfOk};
ghost use Rattle.lot_core.specs.declared.state.TheConstants.{MAX_THREADS};
ghost use Rattle.lot_rights.specs.declared.layout.TheConstants.{MOST_KEYS};
ghost use Rattle.lot_rights.specs.Layout.{word_at};
ghost use Rattle.lot_rights.specs.Start.{pass_at, root_at, Begins};
ghost use Rattle.lot_sems.specs.Opening.{with_permits, opening_words};
ghost use Rattle.lot_sems.specs.Rule.{meaning};

use crate::kind::{SemPass, SemRoot};
use crate::start::Start;
use crate::words::{PERMIT, SemWords};
use lot_rights::{WordsFault, WordsOf, word_of_key, words_for};
use std::alloc::{AllocError, Global};

/// The words that a table begins with: twice its permits in each semaphore's word, and 0 in all others. The keys of the
/// semaphores begin at `first_sem`, and other kinds may have those before.
pub fn words_at_opening(
    alloc: Global,
    threads: usize,
    first_sem: usize,
    permits: &Vec<u32>,
) -> Result<Vec<u64>, AllocError>
    requires limits { (threads ≤ MAX_THREADS) × (first_sem + vec_len permits.now ≤ MOST_KEYS) }
    ensures words { IfOk result (λ words. words.items ≡ opening_words
        (record { threads = threads; first_sem = first_sem; permits = permits.now.items })) }
    ensures small { (i : ℕ) → i < vec_len permits.now → slice_index permits.now.items i < 2 ^ 32 }
{
    let mut words = vec![in alloc; 0; words_for(threads, first_sem + permits.len())]?;
    fill(&mut words, first_sem, permits);
    Ok(words)
}

/// Writes each semaphore's permits into its word.
fn fill(words: &mut Vec<u64>, first_sem: usize, permits: &Vec<u32>)
    requires room { first_sem + vec_len permits.now ≤ MOST_KEYS }
    requires words { (k : ℕ) → k < first_sem + vec_len permits.now → word_at k < vec_len words.old }
    ensures { words.new.items ≡ with_permits words.old.items first_sem permits.now.items (vec_len permits.now) }
{
    for i in 0..permits.len() {
        words[word_of_key(first_sem + i)] = PERMIT * permits[i] as u64;
    }
}

impl SemWords {
    /// Opens a table for so many threads, with a semaphore for each of these numbers of permits, whose keys begin at
    /// `first_sem`. The answer has a pass for each thread and a root for each semaphore, in order. There may be no
    /// semaphore, and a semaphore without permits.
    pub fn open(
        alloc: Global,
        threads: usize,
        first_sem: usize,
        permits: Vec<u32>,
    ) -> Result<(SemWords, Vec<SemPass>, Vec<SemRoot>), WordsFault>
        requires limits { (0 < threads) × (threads ≤ MAX_THREADS) × (first_sem + vec_len permits ≤ MOST_KEYS) }
        ensures size { IfOk result
            (λ r. r.0.size ≡ record { threads = threads; first_sem = first_sem; permits = permits.items }) }
        ensures passes { IfOk result (λ r. (vec_len r.1 ≡ threads)
            × ((t : ℕ) → t < threads → slice_get r.1.items t ≡ Some (pass_at (meaning r.0.size) r.0.table t))) }
        ensures roots { IfOk result (λ r. (vec_len r.2 ≡ vec_len permits)
            × ((i : ℕ) → i < vec_len permits → slice_get r.2.items i
            ≡ Some (root_at (meaning r.0.size) r.0.table (first_sem + i)))) }
        ensures rule { IfOk result (λ r. Begins (meaning r.0.size) (opening_words r.0.size) []) }
    {
        let keys = permits.len();
        let Ok(words) = words_at_opening(alloc, threads, first_sem, &permits) else {
            return Err(WordsFault::NoMemory);
        };
        let start = Start::new(threads, first_sem, &permits);
        match WordsOf::open_with(
            alloc,
            &start,
            words.as_slice(),
            Vec::new(alloc),
            threads,
            first_sem,
            keys,
        ) {
            Ok((words, passes, roots)) => Ok((SemWords { words }, passes, roots)),
            Err(slots) => {
                slots.destroy_empty();
                Err(WordsFault::NoMemory)
            }
        }
    }
}
