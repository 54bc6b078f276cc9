//! Opening: the values become what the slots hold, and the permits what the words say; then the table, a pass for
//! each thread and a root for each key.
ghost use Rattle.std.specs.Prelude.{◌≡◌, ℕ, ◌+◌, ◌<◌, ◌≤◌, Some, slice_get, map, vec_len, IfOk, IfErr};
ghost use Rattle.lot_core.specs.declared.state.TheConstants.{MAX_THREADS};
ghost use Rattle.lot_rights.specs.declared.layout.TheConstants.{MOST_KEYS};
ghost use Rattle.lot_rights.specs.Start.{Begins, pass_at, root_at};
ghost use Rattle.lot_sems.specs.Opening.{opening_words};
ghost use Rattle.lot_whole.specs.Family.{sem_size};
ghost use Rattle.lot_whole.specs.Shown.{lot_of};

use crate::kind::{LotLyingRoot, LotPass};
use crate::start::Start;
use crate::words::LotWords;
use lot_rights::{WordsFault, WordsOf};
use lot_sems::opening::words_at_opening;
use lot_words::Keeps;
use lot_words::exclusive::Exclusive;
use lot_words::shelf::{shelve, unshelve};
use std::alloc::Global;

impl<V: Keeps> LotWords<V> {
    /// Opens a table for so many threads, with one lock for each value, so many conditions, and a semaphore for each
    /// of these numbers of permits. The answer has a pass for each thread, and a root for each key: first those of
    /// the locks, then those of the conditions, then those of the semaphores. Where memory is refused, the values
    /// come back.
    pub fn open(
        alloc: Global,
        threads: usize,
        mut values: Vec<V>,
        conds: usize,
        permits: Vec<u32>,
    ) -> Result<(LotWords<V>, Vec<LotPass<V>>, Vec<LotLyingRoot<V>>), (WordsFault, Vec<V>)>
        requires limits { (0 < threads) × (threads ≤ MAX_THREADS) × (0 < vec_len values)
            × (vec_len values + conds + vec_len permits ≤ MOST_KEYS) }
        requires keep { (k : ℕ) (v : V) → slice_get values.items k ≡ Some v → V.keeps k v }
        ensures size { IfOk result (λ r. r.0.size ≡ record
            { threads = threads; locks = vec_len values; conds = conds; permits = permits.items }) }
        ensures values { IfOk result (λ r. r.0.values ≡ values.items) }
        ensures passes { IfOk result (λ r. (vec_len r.1 ≡ threads)
            × ((t : ℕ) → t < threads → slice_get r.1.items t ≡ Some (pass_at (lot_of V.Keeps r.0) r.0.table t))) }
        ensures roots { IfOk result (λ r. (vec_len r.2 ≡ vec_len values + conds + vec_len permits)
            × ((c : ℕ) → c < vec_len values + conds + vec_len permits
            → slice_get r.2.items c ≡ Some (root_at (lot_of V.Keeps r.0) r.0.table c))) }
        ensures rule { IfOk result (λ r. Begins (lot_of V.Keeps r.0) (opening_words (sem_size r.0.size))
            (map (λ (x : V). Some x) r.0.values)) }
        ensures back { IfErr result (λ e. e.1.items ≡ values.items) }
    {
        let locks = values.len();
        let keys = locks + conds + permits.len();
        let Ok(words) = words_at_opening(alloc, threads, locks + conds, &permits) else {
            return Err((WordsFault::NoMemory, values));
        };
        let Ok(mut slots) = Vec::with_capacity(alloc, locks) else {
            return Err((WordsFault::NoMemory, values));
        };
        let start = Start::new(threads, &values, conds, &permits);
        shelve(&mut values, &mut slots);
        match WordsOf::open_with(alloc, &start, words.as_slice(), slots, threads, 0, keys) {
            Ok((words, passes, roots)) => {
                let room = Exclusive::new(values);
                Ok((LotWords { words, room }, passes, roots))
            }
            Err(slots) => Err((WordsFault::NoMemory, unshelve(slots, values))),
        }
    }
}
