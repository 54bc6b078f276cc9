//! Opening: the values become what the slots hold; then the table, a pass for each thread and a root for each lock.
ghost use Rattle.std.specs.Prelude.{◌≡◌, ℕ, ◌<◌, ◌≤◌, Some, slice_get, map, replicate, vec_len, IfOk, IfErr};
ghost use Rattle.lot_core.specs.declared.state.TheConstants.{MAX_THREADS};
ghost use Rattle.lot_rights.specs.declared.layout.TheConstants.{MOST_KEYS};
ghost use Rattle.lot_rights.specs.Layout.{word_count};
ghost use Rattle.lot_rights.specs.Start.{Begins};
ghost use Rattle.lot_words.specs.Shown.{pass_at, root_at, meaning_of};

use crate::exclusive::Exclusive;
use crate::keeps::Keeps;
use crate::kind::{LockPass, LockRoot};
use crate::shelf::{shelve, unshelve};
use crate::start::Start;
use crate::words::LockWords;
use lot_rights::{WordsFault, WordsOf};
use std::alloc::Global;

impl<V: Keeps> LockWords<V> {
    /// Opens a table for so many threads, with one lock for each value. The answer has a pass for each thread and a
    /// root for each lock, in order; where memory is refused, the values come back.
    pub fn open(
        alloc: Global,
        threads: usize,
        mut values: Vec<V>,
    ) -> Result<(LockWords<V>, Vec<LockPass<V>>, Vec<LockRoot<V>>), (WordsFault, Vec<V>)>
        requires limits { (0 < threads) × (threads ≤ MAX_THREADS) × (0 < vec_len values)
            × (vec_len values ≤ MOST_KEYS) }
        requires keep { (k : ℕ) (v : V) → slice_get values.items k ≡ Some v → V.keeps k v }
        ensures size { IfOk result (λ r. (r.0.size.threads ≡ threads) × (r.0.size.locks ≡ vec_len values)) }
        ensures values { IfOk result (λ r. r.0.values ≡ values.items) }
        ensures passes { IfOk result (λ r. (vec_len r.1 ≡ threads)
            × ((k : ℕ) → k < threads → slice_get r.1.items k ≡ Some (pass_at r.0.table values.items k))) }
        ensures roots { IfOk result (λ r. (vec_len r.2 ≡ vec_len values)
            × ((k : ℕ) → k < vec_len values → slice_get r.2.items k ≡ Some (root_at r.0.table k))) }
        ensures rule { IfOk result
            (λ r. Begins (meaning_of V.Keeps r.0) (replicate (word_count r.0.size.threads r.0.size.locks) 0)
            (map (λ (x : V). Some x) r.0.values)) }
        ensures back { IfErr result (λ e. e.1.items ≡ values.items) }
    {
        let locks = values.len();
        let mut slots = match Vec::with_capacity(alloc, locks) {
            Ok(slots) => slots,
            Err(_) => return Err((WordsFault::NoMemory, values)),
        };
        let start = Start::new(threads, &values);
        shelve(&mut values, &mut slots);
        match WordsOf::open(alloc, &start, slots, threads, 0, locks) {
            Ok((words, passes, roots)) => Ok((
                LockWords {
                    words,
                    room: Exclusive::new(values),
                },
                passes,
                roots,
            )),
            Err(slots) => Err((WordsFault::NoMemory, unshelve(slots, values))),
        }
    }
}
